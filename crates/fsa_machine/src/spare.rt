//! Rooms for turns, and turns that are made in them.

ghost use Rattle.std.specs.Prelude.{◌≡◌, ◌≤◌, ◌<◌, ◌+◌, ◌-◌, [], true, length, All, IfOk, IfSome, IsOk, OnErr, OnOk, Some};
ghost use Rattle.std.specs.Vec.{vec_len};
ghost use Rattle.fsa_model.specs.Bounds.{most_entries};
ghost use Rattle.fsa_model.specs.Once.{made};
ghost use Rattle.fsa_model.specs.Turn.{turn};
ghost use Rattle.fsa_machine.specs.OneTurn.{CanTurn, TurnsOrStays, first_out};
ghost use Rattle.fsa_machine.specs.Spare.{AreLists, HasLists, is_ack_or_cancel};
ghost use Rattle.fsa_machine.specs.Step.{HasReplyRoom};

use crate::ends::EndLists;
use crate::lists::{TurnLists, lists_for, lists_with_room};
use crate::replies::{take_report_rooms, take_rooms};
use crate::steps::Steps;
use crate::store::Store;
use crate::turns::{MadeTurn, TurnRoom, turn_in_room};
use fsa_types::{BlockerList, Call, NoMemory, Out};
use std::alloc::Global;
use std::marker::Model;
use std::sync::ledger::Ledger;

/// The rooms of some turns to come whose replies have neither bytes nor units, each with lists for equally many
/// calls; the lists that a turn fills with its ends; and, mostly, lists that stood by in the last turn.
pub struct SpareRooms {
    rooms: Vec<TurnRoom>,
    calls: usize,
    ended: EndLists,
    lists: Option<TurnLists>,
}

// One drop of the whole, so that it is one step at each end of a function that holds one.
impl Drop for SpareRooms {
    fn drop(self) {
        let SpareRooms {
            rooms: _,
            calls: _,
            ended: _,
            lists: _,
        } = self;
    }
}

impl Model for SpareRooms {
    ghost use Rattle.std.specs.Prelude.{◌≡◌, ◌≤◌, ◌<◌, [], All, IfSome};
    ghost use Rattle.std.specs.Vec.{vec_len};
    ghost use Rattle.fsa_machine.specs.Spare.{AreLists, HasLists, SpareTurns};

    ghost Value = { SpareTurns };

    ghost view = { λ s. record { turns = vec_len s.rooms; calls = s.calls } };

    ghost invariant = { λ s. All (HasLists s.calls) s.rooms.items × (s.ended.items ≡ []) × (0 < vec_len s.rooms → s.calls ≤ s.ended.room) × IfSome s.lists (λ lists. AreLists 0 lists) };
}

// The room of a turn whose reply has neither bytes nor units, with lists for so many calls.
fn bare_room(alloc: Global, calls: u32) -> Result<TurnRoom, NoMemory>
    ensures { IfOk result (λ room. HasLists calls room) }
{
    Ok(TurnRoom {
        rooms: take_report_rooms(alloc, 0)?,
        none: BlockerList::with_room(alloc, 0)?,
        lists: lists_with_room(alloc, calls)?,
    })
}

// Such rooms for so many turns.
fn bare_rooms(alloc: Global, turns: usize, calls: u32) -> Result<Vec<TurnRoom>, NoMemory>
    ensures rooms { IfOk result (λ rooms. All (HasLists calls) rooms.items) }
    ensures turns { IfOk result (λ rooms. vec_len rooms ≡ turns) }
{
    let mut rooms = Vec::new(alloc);
    for turn in 0..turns {
        let room = bare_room(alloc, calls)?;
        let Ok(()) = rooms.push(room) else {
            return Err(NoMemory);
        };
    }
    Ok(rooms)
}

// Room in empty lists for so many ends, and for twice as many where it isn't there and there is memory for these.
fn more_ends(ended: &mut EndLists, calls: u32) -> Result<(), NoMemory>
    requires none { ended.old.items ≡ [] }
    ensures none { ended.new.items ≡ [] }
    ensures room { OnOk result (calls ≤ ended.new.room) }
    ensures no_less { ended.old.room ≤ ended.new.room }
{
    if calls <= ended.room() {
        return Ok(());
    }
    match ended.reserve(calls.saturating_mul(2)) {
        Ok(()) => Ok(()),
        Err(NoMemory) => ended.reserve(calls),
    }
}

// Takes all room that a turn of this call needs: an end and a name for each call that is pending and for its own, and
// the copies of its own reply. Lists that are there are taken where they are large enough.
fn take_room<S: Store>(
    alloc: Global,
    store: &mut S,
    ended: &mut EndLists,
    there: &mut Option<TurnLists>,
    call: &Call,
) -> Result<TurnRoom, NoMemory>
    requires few { made (S.content store.old) < most_entries }
    requires none { ended.old.items ≡ [] }
    requires there { IfSome there.old (λ lists. AreLists 0 lists) }
    ensures content { S.content store.new ≡ S.content store.old }
    ensures ends { OnOk result (length (S.content store.old).pending + 1 ≤ S.spare_ends store.new) }
    ensures rooms { IfOk result (λ room. HasReplyRoom call.now.what room.rooms) }
    ensures lists { IfOk result (λ room. HasLists (length (S.content store.old).pending + 1) room) }
    ensures none { ended.new.items ≡ [] }
    ensures told { OnOk result (length (S.content store.old).pending + 1 ≤ ended.new.room) }
    ensures no_less { ended.old.room ≤ ended.new.room }
    ensures there { IfSome there.new (λ lists. AreLists 0 lists) }
    ensures ends_kept { S.spare_ends store.old ≤ S.spare_ends store.new }
    ensures pending_kept { S.spare_pending store.old ≤ S.spare_pending store.new }
{
    let calls = store.pending_calls() + 1;
    store.reserve(calls, 0)?;
    more_ends(ended, calls as u32)?;
    let rooms = take_rooms(alloc, &call.what)?;
    let none = BlockerList::with_room(alloc, 0)?;
    let lists = lists_for(alloc, there.take(), calls as u32)?;
    Ok(TurnRoom { rooms, none, lists })
}

impl SpareRooms {
    /// No room. It takes no memory.
    pub fn none(alloc: Global) -> SpareRooms
        ensures { result ≡ record { turns = 0; calls = 0 } }
    {
        SpareRooms {
            rooms: Vec::new(alloc),
            calls: 0,
            ended: EndLists::none(alloc),
            lists: None,
        }
    }

    /// Takes rooms for so many turns, each with lists for so many calls, in place of those that are there.
    /// `NoMemory` changes nothing.
    pub fn take_turns(&mut self, alloc: Global, turns: usize, calls: u32) -> Result<(), NoMemory>
        ensures taken { OnOk result (self.new ≡ record { turns = turns; calls = calls }) }
        ensures err { OnErr result (self.new ≡ self.old) }
    {
        let rooms = bare_rooms(alloc, turns, calls)?;
        self.ended.reserve(calls)?;
        self.rooms = rooms;
        self.calls = calls as usize;
        Ok(())
    }

    /// For how many turns there is room.
    pub fn turns(&self) -> usize
        ensures { result ≡ self.now.turns }
    {
        self.rooms.len()
    }

    /// Gives up the room of one turn, where there is one.
    pub fn drop_one(&mut self)
        ensures left { self.new.turns ≡ self.old.turns - 1 }
        ensures calls { self.new.calls ≡ self.old.calls }
    {
        let _room = self.rooms.pop();
    }

    /// Makes a turn in new room. What it gives out is given twice. Where there is no memory for the call nothing has
    /// changed, and it is handed back.
    pub fn turn_new<S: Store, L: Ledger>(
        &mut self,
        alloc: Global,
        store: &mut S,
        call: Call,
        steps: &mut Steps<L>,
    ) -> Result<(Out, Out), (Call, NoMemory)>
        requires can { CanTurn (S.content store.old) call }
        ensures turned { TurnsOrStays first_out (S.content store.old) (S.content store.new) (S.spare_ends store.old) (S.spare_ends store.new) (S.spare_pending store.old) (S.spare_pending store.new) call steps.old steps.new result }
        ensures same { IfOk result (λ outs. outs.1 ≡ outs.0) }
        ensures turns { self.new ≡ self.old }
    {
        let Ok(room) = take_room(alloc, store, &mut self.ended, &mut self.lists, &call) else {
            return Err((call, NoMemory));
        };
        let made = turn_in_room(alloc, store, call, room, &mut self.ended, steps)?;
        let MadeTurn { given, kept, lists } = made;
        self.lists = lists;
        Ok((given, kept))
    }

    /// Makes a turn of an Ack or a Cancel in the room of a turn to come. What it gives out is given twice.
    pub fn turn_spare<S: Store, L: Ledger>(
        &mut self,
        alloc: Global,
        store: &mut S,
        call: Call,
        steps: &mut Steps<L>,
    ) -> Result<(Out, Out), (Call, NoMemory)>
        requires can { CanTurn (S.content store.old) call }
        requires ends { length (S.content store.old).pending + 1 ≤ S.spare_ends store.old }
        requires short { is_ack_or_cancel call.what ≡ true }
        requires some { 0 < self.old.turns }
        requires lists { length (S.content store.old).pending + 1 ≤ self.old.calls }
        ensures turned { TurnsOrStays first_out (S.content store.old) (S.content store.new) (S.spare_ends store.old) (S.spare_ends store.new) (S.spare_pending store.old) (S.spare_pending store.new) call steps.old steps.new result }
        ensures same { IfOk result (λ outs. outs.1 ≡ outs.0) }
        ensures memory { is_ack_or_cancel call.what ≡ true → 1 ≤ S.spare_pending store.old → IsOk result }
        ensures left { self.old.turns ≡ self.new.turns + 1 }
        ensures calls { self.new.calls ≡ self.old.calls }
    {
        let Some(room) = self.rooms.pop() else {
            unreachable!()
        };
        let made = turn_in_room(alloc, store, call, room, &mut self.ended, steps)?;
        Ok((made.given, made.kept))
    }
}
