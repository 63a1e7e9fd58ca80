//! The turn's own call: its try, and what becomes of it.

ghost use Rattle.std.specs.Prelude.{◌≡◌, ◌≤◌, ◌<◌, ◌+◌, ◌-◌, ◌^◌, ◌++◌, [], true, length, drop, IfOk, IfErr, IsOk, OnErr, OnOk};
ghost use Rattle.fsa_model.specs.Bounds.{most_entries};
ghost use Rattle.fsa_model.specs.Edits.{with_end, with_pending};
ghost use Rattle.fsa_model.specs.Frame.{FitsReply};
ghost use Rattle.fsa_model.specs.Once.{made, times};
ghost use Rattle.fsa_model.specs.Settling.{MayTurn};
ghost use Rattle.fsa_model.specs.Turn.{answer_of, answered, ends_between, try, turn_number, volume_after};
ghost use Rattle.fsa_machine.specs.Serves.{MayPend, MayTry, Serves};
ghost use Rattle.fsa_machine.specs.Spare.{is_ack_or_cancel};
ghost use Rattle.fsa_machine.specs.Step.{AreBare, HasReplyRoom};

use crate::ends::{EndLists, tell};
use crate::replies::{ReplyRooms, copy_twice};
use crate::steps::Steps;
use crate::store::Store;
use fsa_types::{Answer, BlockerList, Call, Interim, NoMemory, Reply};
use std::alloc::Global;
use std::sync::ledger::Ledger;
use volume_state::Tried;

// The turn's own call has ended. The answer is given twice.
fn own_ends<S: Store>(
    alloc: Global,
    store: &mut S,
    call: &Call,
    reply: Reply,
    rooms: ReplyRooms,
    from: usize,
    ended: &mut EndLists,
) -> (Answer, Answer)
    requires few { length (S.content store.old).ended < 2 ^ 32 }
    requires within { from ≤ length (S.content store.old).ended }
    requires bare { AreBare (drop from (S.content store.old).ended) }
    requires told { length ended.old.items + (length (S.content store.old).ended - from) ≤ ended.old.room }
    requires ends { 1 ≤ S.spare_ends store.old }
    requires fits { FitsReply call.now.what reply }
    requires room { HasReplyRoom call.now.what rooms }
    ensures content { S.content store.new ≡ with_end (S.content store.old) call.now.client call.now.number reply }
    ensures given { result.0 ≡ Answer.Ended reply }
    ensures kept { result.1 ≡ Answer.Ended reply }
    ensures left { S.spare_ends store.old ≤ S.spare_ends store.new + 1 }
    ensures pending_kept { S.spare_pending store.old ≤ S.spare_pending store.new }
    ensures told { ended.new.items ≡ ended.old.items ++ drop from (S.content store.old).ended }
    ensures told_room { ended.new.room ≡ ended.old.room }
{
    tell(alloc, store, from, ended);
    let (kept, given, reply) = copy_twice(reply, &call.what, rooms);
    store.end(call.client, call.number, kept);
    (Answer::Ended(given), Answer::Ended(reply))
}

// The turn's own call is pending. The answer is given twice.
fn own_pends<S: Store>(
    alloc: Global,
    store: &mut S,
    turn: u64,
    call: Call,
    blockers: BlockerList,
    interim: Interim,
    from: usize,
    ended: &mut EndLists,
) -> (Answer, Answer)
    requires few { length (S.content store.old).ended < 2 ^ 32 }
    requires within { from ≤ length (S.content store.old).ended }
    requires bare { AreBare (drop from (S.content store.old).ended) }
    requires told { length ended.old.items + (length (S.content store.old).ended - from) ≤ ended.old.room }
    requires may { MayPend (S.content store.old) turn call blockers.items }
    requires pending { 1 ≤ S.spare_pending store.old }
    requires blockers { length blockers.items ≤ S.spare_blockers store.old }
    ensures content { S.content store.new ≡ with_pending (S.content store.old) turn call blockers.items }
    ensures given { result.0 ≡ Answer.Pending interim }
    ensures kept { result.1 ≡ Answer.Pending interim }
    ensures ends { S.spare_ends store.old ≤ S.spare_ends store.new }
    ensures pending_left { S.spare_pending store.old ≤ S.spare_pending store.new + 1 }
    ensures told { ended.new.items ≡ ended.old.items ++ drop from (S.content store.old).ended }
    ensures told_room { ended.new.room ≡ ended.old.room }
{
    tell(alloc, store, from, ended);
    store.pend(turn, call, blockers);
    (Answer::Pending(interim), Answer::Pending(interim))
}

/// Tries the turn's own call, which has ended or is pending then; the answer is given twice. The ends that
/// the try brings are given out, but for the call's own. Where there is no memory nothing has changed, and
/// the call is handed back; an Ack and a Cancel need none where the store has room for one pending call. The try
/// is one step.
pub fn answer_own<S: Store, L: Ledger>(
    alloc: Global,
    store: &mut S,
    call: Call,
    rooms: ReplyRooms,
    none: BlockerList,
    ended: &mut EndLists,
    steps: &mut Steps<L>,
) -> Result<(Answer, Answer), (Call, NoMemory)>
    requires serves { Serves (S.content store.old) }
    requires may_try { MayTry (S.content store.old) call }
    requires may { MayTurn (S.content store.old) }
    requires new { times call.client call.number (S.content store.old) ≡ 0 }
    requires few { made (S.content store.old) < most_entries }
    requires ends { made (S.content store.old) + 1 ≤ S.spare_ends store.old + length (S.content store.old).ended }
    requires room { HasReplyRoom call.what rooms }
    requires none { none.items ≡ [] }
    requires told { length ended.old.items + (length (S.content store.old).pending + 1) ≤ ended.old.room }
    ensures content { OnOk result (S.content store.new ≡ answered call (turn_number (S.content store.old)) (try (S.content store.old) call (turn_number (S.content store.old)))) }
    ensures given { IfOk result (λ answers. answers.0 ≡ answer_of (try (S.content store.old) call (turn_number (S.content store.old)))) }
    ensures kept { IfOk result (λ answers. answers.1 ≡ answers.0) }
    ensures ends { S.spare_ends store.old + length (S.content store.old).ended ≤ S.spare_ends store.new + length (S.content store.new).ended }
    ensures pending { OnOk result (S.spare_pending store.old ≤ S.spare_pending store.new + 1) }
    ensures pending_kept { OnErr result (S.spare_pending store.old ≤ S.spare_pending store.new) }
    ensures memory { is_ack_or_cancel call.what ≡ true → 1 ≤ S.spare_pending store.old → IsOk result }
    ensures told { OnOk result (ended.new.items ≡ ended.old.items ++ ends_between (S.content store.old) (volume_after (try (S.content store.old) call (turn_number (S.content store.old))))) }
    ensures untold { OnErr result (ended.new.items ≡ ended.old.items) }
    ensures told_room { ended.new.room ≡ ended.old.room }
    ensures err { IfErr result (λ back. (S.content store.new ≡ S.content store.old) × (back.0 ≡ call)) }
    ensures tries { steps.new ≤ steps.old + 1 }
    ensures rises { steps.old ≤ steps.new }
{
    let from = store.ends();
    let turn = store.pending_calls() as u64 + from as u64 + 1;
    steps.tick();
    match store.try_call(alloc, &call, turn) {
        Tried::NoMemory => Err((call, NoMemory)),
        Tried::Done(reply) => Ok(own_ends(alloc, store, &call, reply, rooms, from, ended)),
        Tried::Stay(interim) => Ok(own_pends(alloc, store, turn, call, none, interim, from, ended)),
        Tried::Hold { blockers, interim } => Ok(own_pends(
            alloc, store, turn, call, blockers, interim, from, ended,
        )),
    }
}
