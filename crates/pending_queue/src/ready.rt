//! The turns of the calls none of whose blockers lives, in rising order.

ghost use Rattle.std.specs.Prelude.{◌≡◌, ◌<◌, ◌≤◌, ◌-◌, ◌==◌, false, length, AllPairs, IfErr, IfOk, IsOk, OnOk, slice_get, if◌then◌else◌};
ghost use Rattle.std.specs.List.{insert, remove};
ghost use Rattle.std.specs.Vec.{vec_capacity, vec_len};
ghost use Rattle.fsa_types.specs.Rows.{with_row_changed};
ghost use Rattle.pending_queue.specs.Lists.{IsGap, IsPlace, ready_turns, sorted, turns_of, with_ready, without_turn};

use crate::calls::count_down;
use fsa_types::NoMemory;

// The place of a turn among others that rise, or where it would stand, by halves.
fn place_of(ready: &[u64], turn: u64) -> Result<usize, usize>
    requires rising { AllPairs (λ a b. a < b) ready.now }
    ensures there { IfOk result (λ place. IsPlace ready.now turn place) }
    ensures missing { IfErr result (λ place. IsGap ready.now turn place) }
{
    ready.binary_search(&turn)
}

/// The turn of a call is among those that are ready, or it isn't. There has to be room for it. It takes no memory.
pub fn set_ready(ready: &mut Vec<u64>, turn: u64, is_ready: bool)
    requires rising { AllPairs (λ a b. a < b) ready.old.items }
    requires room { length (without_turn ready.old.items turn) < vec_capacity ready.old }
    ensures items { ready.new.items ≡ with_ready ready.old.items turn is_ready }
    ensures room { vec_capacity ready.old ≤ vec_capacity ready.new }
{
    match place_of(ready, turn) {
        Ok(place) => keep_at(ready, place, is_ready),
        Err(place) => put_at(ready, place, turn, is_ready),
    }
}

// A turn comes to this place, where it does. There has to be room for it.
fn put_at(ready: &mut Vec<u64>, place: usize, turn: u64, comes: bool)
    requires within { place ≤ length ready.old.items }
    requires room { length ready.old.items < vec_capacity ready.old }
    ensures items { ready.new.items ≡ (if comes then insert ready.old.items place turn else ready.old.items) }
    ensures room { vec_capacity ready.old ≤ vec_capacity ready.new }
{
    if comes {
        let Ok(()) = ready.insert(place, turn) else {
            unreachable!()
        };
    }
}

// The turn at this place stays, or it goes.
fn keep_at(ready: &mut Vec<u64>, place: usize, stays: bool)
    requires { place < length ready.old.items }
    ensures items { ready.new.items ≡ (if stays then ready.old.items else remove ready.old.items place) }
    ensures room { vec_capacity ready.new ≡ vec_capacity ready.old }
{
    if !stays {
        let _ = ready.remove(place);
    }
}

/// One blocker of the call of this turn lives no more. Where none does then, its turn is among those that are ready, for
/// which there has to be room. It takes no memory.
pub fn let_go(calls: &mut Vec<(u64, usize)>, ready: &mut Vec<u64>, turn: u64)
    requires differ { AllPairs (λ a b. (a.0 == b.0) ≡ false) calls.old.items }
    requires ready { ready.old.items ≡ sorted (ready_turns calls.old.items) }
    requires places { length calls.old.items ≤ vec_capacity ready.old }
    ensures items { calls.new.items ≡ with_row_changed (λ count. count - 1) calls.old.items turn }
    ensures turns { turns_of calls.new.items ≡ turns_of calls.old.items }
    ensures len { vec_len calls.new ≡ vec_len calls.old }
    ensures room { vec_capacity calls.new ≡ vec_capacity calls.old }
    ensures ready { ready.new.items ≡ sorted (ready_turns calls.new.items) }
    ensures places { vec_capacity ready.old ≤ vec_capacity ready.new }
{
    if !count_down(calls, turn) {
        return;
    }
    set_ready(ready, turn, true);
}

/// The least of these turns.
pub fn first_of(ready: &[u64]) -> Option<u64>
    ensures { result ≡ slice_get ready.now 0 }
{
    match ready.get(0) {
        None => None,
        Some(turn) => Some(*turn),
    }
}

/// Takes room for so many turns in all. `NoMemory` where there is none.
pub fn reserve_for(ready: &mut Vec<u64>, in_all: usize) -> Result<(), NoMemory>
    ensures items { ready.new.items ≡ ready.old.items }
    ensures room { OnOk result (in_all ≤ vec_capacity ready.new) }
    ensures kept { vec_capacity ready.old ≤ vec_capacity ready.new }
    ensures succeeds { in_all ≤ vec_capacity ready.old → IsOk result }
{
    if in_all <= ready.capacity() {
        return Ok(());
    }
    ready.reserve(in_all - ready.len())?;
    Ok(())
}
