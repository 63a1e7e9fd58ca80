//! One turn.

ghost use Rattle.std.specs.Prelude.{◌≡◌, ◌≤◌, ◌<◌, ◌+◌, [], true, length, IfOk, IfSome, IsOk};
ghost use Rattle.fsa_model.specs.Once.{made};
ghost use Rattle.fsa_model.specs.Turn.{turn};
ghost use Rattle.fsa_machine.specs.OneTurn.{CanTurn, TurnsOrStays, given_by};
ghost use Rattle.fsa_machine.specs.Spare.{AreLists, HasLists, is_ack_or_cancel};
ghost use Rattle.fsa_machine.specs.Step.{HasReplyRoom};

use crate::ends::EndLists;
use crate::lists::{GivenLists, TurnLists, give};
use crate::own_call::answer_own;
use crate::replies::ReplyRooms;
use crate::settle::settle;
use crate::steps::Steps;
use crate::store::Store;
use fsa_types::{BlockerList, Call, NoMemory, Out};
use std::alloc::Global;
use std::sync::ledger::Ledger;

/// What a turn takes before it changes anything: room for two copies of the reply, an empty list of blockers, and
/// the lists that stand by.
#[derive(Drop)]
pub struct TurnRoom {
    /// Room for two copies of the reply.
    pub rooms: ReplyRooms,
    /// No blockers.
    pub none: BlockerList,
    /// The lists that stand by.
    pub lists: TurnLists,
}

/// A turn that was made: what it gives out, the same to be kept, and the lists that stood by, where they are still
/// empty.
#[derive(Drop)]
pub struct MadeTurn {
    /// What it gives out.
    pub given: Out,
    /// The same, to be kept.
    pub kept: Out,
    /// The lists that stood by.
    pub lists: Option<TurnLists>,
}

/// Makes a turn, in room that was taken for it: tries the call, and settles what is pending. What it gives out is given
/// twice: in short lists, where there is memory for these and no call starved, and else in the lists that stand by.
/// `ended` is empty before, and empty again. Where there is no memory for the call nothing has changed, and it is
/// handed back; a pending call that finds none ends so, and is named. An Ack and a Cancel need no memory where the
/// store has room for one pending call. Each try is one step.
pub fn turn_in_room<S: Store, L: Ledger>(
    alloc: Global,
    store: &mut S,
    call: Call,
    room: TurnRoom,
    ended: &mut EndLists,
    steps: &mut Steps<L>,
) -> Result<MadeTurn, (Call, NoMemory)>
    requires can { CanTurn (S.content store.old) call }
    requires ends { length (S.content store.old).pending + 1 ≤ S.spare_ends store.old }
    requires rooms { HasReplyRoom call.what room.rooms }
    requires lists { HasLists (length (S.content store.old).pending + 1) room }
    requires none { ended.old.items ≡ [] }
    requires told { length (S.content store.old).pending + 1 ≤ ended.old.room }
    ensures turned { TurnsOrStays given_by (S.content store.old) (S.content store.new) (S.spare_ends store.old) (S.spare_ends store.new) (S.spare_pending store.old) (S.spare_pending store.new) call steps.old steps.new result }
    ensures same { IfOk result (λ made. made.kept ≡ made.given) }
    ensures lists { IfOk result (λ made. IfSome made.lists (λ lists. AreLists 0 lists)) }
    ensures emptied { ended.new.items ≡ [] }
    ensures ended_room { ended.new.room ≡ ended.old.room }
    ensures memory { is_ack_or_cancel call.what ≡ true → 1 ≤ S.spare_pending store.old → IsOk result }
{
    let TurnRoom { rooms, none, lists } = room;
    let TurnLists {
        given,
        kept,
        mut starved,
        kept_starved,
        mut waits,
    } = lists;
    let (answer, same_answer) = answer_own(alloc, store, call, rooms, none, ended, steps)?;
    settle(alloc, store, &mut waits, ended, &mut starved, steps);
    let lists = TurnLists {
        given,
        kept,
        starved,
        kept_starved,
        waits,
    };
    let (out, lists) = give(alloc, ended, lists);
    let GivenLists {
        given,
        kept,
        starved,
        kept_starved,
    } = out;
    Ok(MadeTurn {
        given: Out {
            answer,
            ended: given,
            starved,
        },
        kept: Out {
            answer: same_answer,
            ended: kept,
            starved: kept_starved,
        },
        lists,
    })
}
