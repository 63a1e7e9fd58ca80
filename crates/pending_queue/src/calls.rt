//! What is done to the list of calls, each its turn and how many of its blockers live.

ghost use Rattle.std.specs.Prelude.{ℕ, ◌≡◌, ◌≤◌, ◌<◌, ◌-◌, ◌==◌, true, false, IfNone, IfSome, IsOk, OnOk, OnErr, AllPairs, length, position, if◌then◌else◌};
ghost use Rattle.std.specs.Option.{option_map_or};
ghost use Rattle.std.specs.Vec.{vec_capacity, vec_len};
ghost use Rattle.fsa_types.specs.Rows.{lives, row_of, with_row_changed, without_row};
ghost use Rattle.pending_queue.specs.Lists.{AreInOrder, IsBehind, is_at, ready_turns, sorted, turns_of, with_count, with_ready, without_turn};

use fsa_types::NoMemory;

// Whether the call at this place is the one of this turn.
fn is_at(calls: &[(u64, usize)], place: usize, turn: u64) -> bool
    ensures { result ≡ is_at calls.now place turn }
{
    match calls.get(place) {
        None => false,
        Some(call) => call.0 == turn,
    }
}

// The place of the call of this turn. Where the turns are known to rise, as they do where no call is held again after it
// was let go, it is found by halves, and so is that it isn't there.
fn find_call(calls: &[(u64, usize)], turn: u64, rising: bool) -> Option<usize>
    requires differ { AllPairs (λ a b. (a.0 == b.0) ≡ false) calls.now }
    requires rising { AreInOrder rising calls.now }
    ensures place { result ≡ position (λ call. call.0 == turn) calls.now }
    ensures none { IfNone result (lives calls.now turn ≡ false) }
{
    if rising {
        object_tables::place_of(calls, turn)
    } else {
        place_of(calls, turn)
    }
}

// The same where nothing is known of the order: by halves where it is found so, else by a look at each.
fn place_of(calls: &[(u64, usize)], turn: u64) -> Option<usize>
    requires differ { AllPairs (λ a b. (a.0 == b.0) ≡ false) calls.now }
    ensures place { result ≡ position (λ call. call.0 == turn) calls.now }
    ensures none { IfNone result (lives calls.now turn ≡ false) }
{
    let place = calls.partition_point(|call| call.0 < turn);
    if is_at(calls, place, turn) {
        return Some(place);
    }
    look_for(calls, turn)
}

// The same by a look at each.
fn look_for(calls: &[(u64, usize)], turn: u64) -> Option<usize>
    ensures { result ≡ position (λ call. call.0 == turn) calls.now }
{
    calls.iter().position(|call| call.0 == turn)
}

/// Whether the turns are known to rise with the call of this turn put in, where `rising` says whether they are before.
pub fn stays_rising(calls: &[(u64, usize)], turn: u64, rising: bool) -> bool
    requires differ { AllPairs (λ a b. (a.0 == b.0) ≡ false) calls.now }
    requires rising { AreInOrder rising calls.now }
    ensures { (count : ℕ) → AreInOrder result (with_count calls.now turn count) }
{
    if !rising {
        return false;
    }
    if is_behind(calls, turn) {
        return true;
    }
    match find_call(calls, turn, true) {
        None => false,
        Some(_) => true,
    }
}

// Whether the last of these calls has a lower turn, where there is one.
fn is_behind(calls: &[(u64, usize)], turn: u64) -> bool
    ensures { result ≡ true → IsBehind calls.now turn }
{
    match calls.last() {
        None => true,
        Some(call) => call.0 < turn,
    }
}

/// So many blockers of the call of this turn live. It takes memory only where the turn is new and there is no spare
/// room.
pub fn put_count(
    calls: &mut Vec<(u64, usize)>,
    turn: u64,
    count: usize,
    rising: bool,
) -> Result<(), NoMemory>
    requires differ { AllPairs (λ a b. (a.0 == b.0) ≡ false) calls.old.items }
    requires rising { AreInOrder rising calls.old.items }
    ensures ok { OnOk result (calls.new.items ≡ with_count calls.old.items turn count) }
    ensures err { OnErr result (calls.new.items ≡ calls.old.items) }
    ensures len { OnOk result (vec_len calls.new ≡ length (with_count calls.old.items turn count)) }
    ensures succeeds { length (with_count calls.old.items turn count) ≤ vec_capacity calls.old → IsOk result }
    ensures room { vec_capacity calls.old ≤ vec_capacity calls.new }
    ensures ready { OnOk result (sorted (ready_turns calls.new.items) ≡ with_ready (sorted (ready_turns calls.old.items)) turn (count == 0)) }
    ensures fewer { OnOk result (length (without_turn (sorted (ready_turns calls.old.items)) turn) < length calls.new.items) }
{
    match find_call(calls, turn, rising) {
        Some(place) => calls[place] = (turn, count),
        None => calls.push((turn, count))?,
    }
    Ok(())
}

/// How many calls there are with the call of this turn among them.
pub fn len_with(calls: &[(u64, usize)], turn: u64, rising: bool) -> usize
    requires differ { AllPairs (λ a b. (a.0 == b.0) ≡ false) calls.now }
    requires rising { AreInOrder rising calls.now }
    ensures { (count : ℕ) → result ≡ length (with_count calls.now turn count) }
{
    match find_call(calls, turn, rising) {
        None => calls.len() + 1,
        Some(_) => calls.len(),
    }
}

/// How many blockers of the call of this turn live; 0 where it isn't there.
pub fn count_of(calls: &[(u64, usize)], turn: u64, rising: bool) -> usize
    requires differ { AllPairs (λ a b. (a.0 == b.0) ≡ false) calls.now }
    requires rising { AreInOrder rising calls.now }
    ensures { result ≡ option_map_or (λ count. count) (row_of calls.now turn) 0 }
{
    match find_call(calls, turn, rising) {
        None => 0,
        Some(place) => calls[place].1,
    }
}

/// One blocker of the call of this turn lives no more. Gives whether none does then.
pub fn count_down(calls: &mut Vec<(u64, usize)>, turn: u64) -> bool
    requires differ { AllPairs (λ a b. (a.0 == b.0) ≡ false) calls.old.items }
    ensures items { calls.new.items ≡ with_row_changed (λ count. count - 1) calls.old.items turn }
    ensures turns { turns_of calls.new.items ≡ turns_of calls.old.items }
    ensures len { vec_len calls.new ≡ vec_len calls.old }
    ensures room { vec_capacity calls.new ≡ vec_capacity calls.old }
    ensures ready { sorted (ready_turns calls.new.items) ≡ (if result then with_ready (sorted (ready_turns calls.old.items)) turn true else sorted (ready_turns calls.old.items)) }
    ensures fewer { result ≡ true → length (without_turn (sorted (ready_turns calls.old.items)) turn) < length calls.old.items }
{
    match place_of(calls, turn) {
        None => false,
        Some(place) => lower(&mut calls[place]),
    }
}

// One less. Gives whether none is left.
fn lower(call: &mut (u64, usize)) -> bool
    ensures call { call.new ≡ (call.old.0, call.old.1 - 1) }
    ensures none { result ≡ (call.old.1 - 1 == 0) }
{
    call.1 = call.1.saturating_sub(1);
    call.1 == 0
}

/// Takes the call of this turn out, and gives how many of its blockers live; `None` exactly where it isn't there.
pub fn take_call(calls: &mut Vec<(u64, usize)>, turn: u64, rising: bool) -> Option<usize>
    requires differ { AllPairs (λ a b. (a.0 == b.0) ≡ false) calls.old.items }
    requires rising { AreInOrder rising calls.old.items }
    ensures count { result ≡ row_of calls.old.items turn }
    ensures items { calls.new.items ≡ without_row calls.old.items turn }
    ensures few { vec_len calls.new ≤ vec_len calls.old }
    ensures room { vec_capacity calls.new ≡ vec_capacity calls.old }
    ensures ready { sorted (ready_turns calls.new.items) ≡ with_ready (sorted (ready_turns calls.old.items)) turn false }
    ensures fewer { IfSome result (λ _. length (without_turn (sorted (ready_turns calls.old.items)) turn) < length calls.old.items) }
{
    match find_call(calls, turn, rising) {
        None => None,
        Some(place) => {
            let call = calls.remove(place);
            Some(call.1)
        }
    }
}
