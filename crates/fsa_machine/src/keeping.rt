//! Turns that are made and kept, in new room or in room that was taken for turns to come.

ghost use Rattle.std.specs.Prelude.{◌≡◌, ◌≤◌, ◌<◌, ◌+◌, ◌++◌, ◌∷◌, [], true, false, length, map, Ok, Some, IfErr, IfNone, IfOk, IfSome, IsOk, OnErr, OnOk, OnSome};
ghost use Rattle.std.specs.Vec.{vec_capacity, vec_len};
ghost use Rattle.fsa_model.specs.Bounds.{most_entries};
ghost use Rattle.fsa_model.specs.Engine.{own_tried};
ghost use Rattle.fsa_model.specs.Once.{made};
ghost use Rattle.fsa_model.specs.Outcome.{out_of};
ghost use Rattle.fsa_model.specs.Turn.{turn};
ghost use Rattle.fsa_machine.specs.Kept.{kept_entry, out_kept};
ghost use Rattle.fsa_machine.specs.OneTurn.{CanTurn, TurnsOrStays, itself};
ghost use Rattle.fsa_machine.specs.Released.{how_many_let_go};
ghost use Rattle.fsa_machine.specs.Serves.{ServesOn};
ghost use Rattle.fsa_machine.specs.Spare.{AreSpare, is_ack_or_cancel};

use crate::kept::KeptTurn;
use crate::machine::MOST_ENTRIES;
use crate::spare::SpareRooms;
use crate::steps::Steps;
use crate::store::Store;
use fsa_types::{Call, NoMemory, Out, Request, TryCopy, What};
use std::alloc::Global;
use std::sync::ledger::Ledger;

// Takes what is kept of a turn before it: room for it, and a copy of its call.
fn take_entry(alloc: Global, kept: &mut Vec<KeptTurn>, call: &Call) -> Result<Call, NoMemory>
    ensures kept { kept.new.items ≡ kept.old.items }
    ensures len { vec_len kept.new ≡ vec_len kept.old }
    ensures capacity { vec_capacity kept.old ≤ vec_capacity kept.new }
    ensures room { OnOk result (vec_len kept.new < vec_capacity kept.new) }
    ensures call { IfOk result (λ copy. copy ≡ call.now) }
{
    kept.reserve(1)?;
    call.copy(alloc)
}

// A copy of an Ack or a Cancel, which holds no list and takes no memory; `None` for any other call.
fn short_copy(call: &Call) -> Option<Call>
    ensures copy { IfSome result (λ copy. copy ≡ call.now) }
    ensures short { OnSome result (is_ack_or_cancel call.now.what ≡ true) }
    ensures none { IfNone result (is_ack_or_cancel call.now.what ≡ false) }
{
    let what = match &call.what {
        What::Ask(Request::Ack { handle, level }) => What::Ask(Request::Ack {
            handle: *handle,
            level: *level,
        }),
        What::Ask(Request::Cancel { number }) => What::Ask(Request::Cancel { number: *number }),
        _ => return None,
    };
    Some(Call {
        client: call.client,
        number: call.number,
        what,
    })
}

// Keeps what a turn gave out beside the copy of its call, for which there is room.
fn keep_out(kept: &mut Vec<KeptTurn>, call: Call, out: Out)
    requires place { vec_len kept.old < vec_capacity kept.old }
    ensures entries { map kept_entry kept.new.items ≡ map kept_entry kept.old.items ++ record { call = call; starved = out.starved.items } ∷ [] }
    ensures outs { map out_kept kept.new.items ≡ map out_kept kept.old.items ++ out_of out ∷ [] }
    ensures len { vec_len kept.new ≡ vec_len kept.old + 1 }
    ensures capacity { vec_capacity kept.old ≤ vec_capacity kept.new }
{
    let Ok(()) = kept.push(KeptTurn { call, out }) else {
        unreachable!()
    };
}

// Makes a turn in new room, and keeps it.
fn keep_new<S: Store, L: Ledger>(
    alloc: Global,
    store: &mut S,
    kept: &mut Vec<KeptTurn>,
    spare: &mut SpareRooms,
    call: Call,
    steps: &mut Steps<L>,
) -> Result<Out, (Call, NoMemory)>
    requires can { CanTurn (S.content store.old) call }
    ensures turned { TurnsOrStays itself (S.content store.old) (S.content store.new) (S.spare_ends store.old) (S.spare_ends store.new) (S.spare_pending store.old) (S.spare_pending store.new) call steps.old steps.new result }
    ensures entries { IfOk result (λ out. map kept_entry kept.new.items ≡ map kept_entry kept.old.items ++ record { call = call; starved = out.starved.items } ∷ []) }
    ensures outs { IfOk result (λ out. map out_kept kept.new.items ≡ map out_kept kept.old.items ++ out_of out ∷ []) }
    ensures len { OnOk result (vec_len kept.new ≡ vec_len kept.old + 1) }
    ensures len_kept { OnErr result (vec_len kept.new ≡ vec_len kept.old) }
    ensures capacity { vec_capacity kept.old ≤ vec_capacity kept.new }
    ensures spare { spare.new ≡ spare.old }
    ensures kept_still { OnErr result (kept.new.items ≡ kept.old.items) }
{
    let Ok(copy) = take_entry(alloc, kept, &call) else {
        return Err((call, NoMemory));
    };
    let (given, out) = spare.turn_new(alloc, store, call, steps)?;
    keep_out(kept, copy, out);
    Ok(given)
}

// Makes a turn of an Ack or a Cancel in the room of a turn to come, and keeps it. It takes no memory.
fn keep_spare<S: Store, L: Ledger>(
    alloc: Global,
    store: &mut S,
    kept: &mut Vec<KeptTurn>,
    spare: &mut SpareRooms,
    call: Call,
    copy: Call,
    steps: &mut Steps<L>,
) -> Out
    requires can { CanTurn (S.content store.old) call }
    requires short { is_ack_or_cancel call.what ≡ true }
    requires ends { length (S.content store.old).pending + 1 ≤ S.spare_ends store.old }
    requires pending { 1 ≤ S.spare_pending store.old }
    requires some { 0 < spare.old.turns }
    requires lists { length (S.content store.old).pending + 1 ≤ spare.old.calls }
    requires copy { copy ≡ call }
    requires place { vec_len kept.old < vec_capacity kept.old }
    ensures turned { TurnsOrStays itself (S.content store.old) (S.content store.new) (S.spare_ends store.old) (S.spare_ends store.new) (S.spare_pending store.old) (S.spare_pending store.new) call steps.old steps.new (Ok result) }
    ensures entries { map kept_entry kept.new.items ≡ map kept_entry kept.old.items ++ record { call = call; starved = result.starved.items } ∷ [] }
    ensures outs { map out_kept kept.new.items ≡ map out_kept kept.old.items ++ out_of result ∷ [] }
    ensures len { vec_len kept.new ≡ vec_len kept.old + 1 }
    ensures capacity { vec_capacity kept.old ≤ vec_capacity kept.new }
    ensures left { spare.old.turns ≡ spare.new.turns + 1 }
    ensures calls { spare.new.calls ≡ spare.old.calls }
{
    let Ok((given, out)) = spare.turn_spare(alloc, store, call, steps) else {
        unreachable!()
    };
    keep_out(kept, copy, out);
    given
}

// A copy of the call, where that is an Ack or a Cancel and there is room for a turn to come. It takes no memory.
fn spare_copy(spare: &SpareRooms, call: &Call) -> Option<Call>
    ensures copy { IfSome result (λ copy. copy ≡ call.now) }
    ensures short { OnSome result (is_ack_or_cancel call.now.what ≡ true) }
    ensures some { OnSome result (0 < spare.now.turns) }
    ensures none { IfNone result (is_ack_or_cancel call.now.what ≡ true → spare.now.turns ≡ 0) }
{
    if spare.turns() == 0 {
        return None;
    }
    short_copy(call)
}

/// Makes a turn, and keeps it. An Ack or a Cancel is made in the room of a turn to come, where there is one, and
/// takes no memory then. A turn that is made uses that of one turn at most, and one that is refused none. Each try
/// is one step.
pub fn keep_turn<S: Store, L: Ledger>(
    alloc: Global,
    store: &mut S,
    kept: &mut Vec<KeptTurn>,
    spare: &mut SpareRooms,
    call: Call,
    steps: &mut Steps<L>,
) -> Result<Out, (Call, NoMemory)>
    requires can { CanTurn (S.content store.old) call }
    requires spare { AreSpare (S.content store.old) (S.spare_ends store.old) (S.spare_pending store.old) (vec_len kept.old) (vec_capacity kept.old) spare.old }
    ensures turn { IfOk result (λ out. turn (S.content store.old) call out.starved.items ≡ Some (record { volume = S.content store.new; out = out_of out })) }
    ensures serves { OnOk result (ServesOn (S.content store.old) (S.content store.new)) }
    ensures entries { IfOk result (λ out. map kept_entry kept.new.items ≡ map kept_entry kept.old.items ++ record { call = call; starved = out.starved.items } ∷ []) }
    ensures outs { IfOk result (λ out. map out_kept kept.new.items ≡ map out_kept kept.old.items ++ out_of out ∷ []) }
    ensures spare { AreSpare (S.content store.new) (S.spare_ends store.new) (S.spare_pending store.new) (vec_len kept.new) (vec_capacity kept.new) spare.new }
    ensures spare_turns { spare.old.turns ≤ spare.new.turns + 1 }
    ensures memory { is_ack_or_cancel call.what ≡ true → 1 ≤ spare.old.turns → IsOk result }
    ensures err { IfErr result (λ back. (S.content store.new ≡ S.content store.old) × (kept.new.items ≡ kept.old.items) × (spare.new ≡ spare.old) × (back.0 ≡ call)) }
    ensures tries { steps.new ≤ steps.old + (1 + how_many_let_go (own_tried (S.content store.old) call)) }
    ensures rises { steps.old ≤ steps.new }
{
    match spare_copy(spare, &call) {
        Some(copy) => Ok(keep_spare(alloc, store, kept, spare, call, copy, steps)),
        None => {
            let out = keep_new(alloc, store, kept, spare, call, steps)?;
            spare.drop_one();
            Ok(out)
        }
    }
}

/// Takes room for so many turns to come, unless it is there. `NoMemory` changes nothing, and comes too where a
/// history never has so many.
pub fn reserve_turns<S: Store>(
    alloc: Global,
    store: &mut S,
    kept: &mut Vec<KeptTurn>,
    spare: &mut SpareRooms,
    turns: usize,
) -> Result<(), NoMemory>
    requires few { length (S.content store.old).pending ≤ most_entries }
    requires spare { AreSpare (S.content store.old) (S.spare_ends store.old) (S.spare_pending store.old) (vec_len kept.old) (vec_capacity kept.old) spare.old }
    ensures content { S.content store.new ≡ S.content store.old }
    ensures base { S.log_base store.new ≡ S.log_base store.old }
    ensures kept { kept.new.items ≡ kept.old.items }
    ensures spare { AreSpare (S.content store.new) (S.spare_ends store.new) (S.spare_pending store.new) (vec_len kept.new) (vec_capacity kept.new) spare.new }
    ensures turns { OnOk result (turns ≤ spare.new.turns) }
    ensures no_less { spare.old.turns ≤ spare.new.turns }
    ensures err { OnErr result (spare.new ≡ spare.old) }
{
    if turns <= spare.turns() {
        return Ok(());
    }
    if turns > MOST_ENTRIES {
        return Err(NoMemory);
    }
    let calls = store.pending_calls() + turns;
    store.reserve(calls, turns)?;
    kept.reserve(turns)?;
    spare.take_turns(alloc, turns, calls as u32)
}
