//! The moves of a turn, each a step or two on the table.
ghost use Rattle.std.specs.Prelude.{◌≡◌, ℕ, ◌<◌, ◌^◌, true, false, List, [], ◌∷◌, ◌++◌, length, MatchOption, Some, None};
ghost use mathlib.Core.Option.{some};
ghost use lib.ListN.{get_elem?};
ghost use Rattle.history_lock.specs.declared.view.Part.{Part};
ghost use Rattle.history_lock.specs.History.{calls_by};
ghost use Rattle.history_lock.specs.Turns.{parts_of, holding, beaten, with_seen, with_made, at_rest, Sees};

use crate::machine::Machine;
use crate::plays::{Commit, Free, Load, Take};
use crate::rule::{Place, Top};

// The turn word, the count word and the slot of the machine.
pub(crate) const TURN: usize = 0;

pub(crate) const COUNT: usize = 1;

const SLOT: usize = 0;

// Takes the turn and the machine, if no other pass holds them.
pub(crate) fn take<M: Machine>(top: &Top<M>, seat: &mut Place<M>, client: u32) -> Option<M>
    requires table { (seat.old.table_id ≡ top.now.table_id) × (top.now.table_id.words ≡ 2) }
    requires resting { (seat.old.me.1 ≡ []) × (seat.old.me.0.live ≡ true) × (seat.old.me.0.holds ≡ false) × (client ≡ seat.old.me.0.own.client) }
    ensures same { (seat.new.table_id ≡ seat.old.table_id) × (seat.new.id ≡ seat.old.id) }
    ensures taken { MatchOption result
        ((seat.new.me.1 ≡ []) × (seat.new.me.0 ≡ beaten seat.old.me.0) × (1 < seat.old.me.0.clients))
        (λ m. (seat.new.me ≡ (holding seat.old.me.0 (M.list m), (0, None) ∷ [])) × (seat.old.me.0.base ≡ M.base m ∷ []) × Sees M.call_of M.client_of (M.list m) seat.old.me.0.own) }
{
    let found = top.compare_exchange::<Take>(seat, TURN, 0, client as u64 + 1);
    if found == 0 {
        top.exchange(seat, SLOT, None)
    } else {
        None
    }
}

// Loads the count of entries.
pub(crate) fn load<M: Machine>(top: &Top<M>, seat: &mut Place<M>) -> u64
    requires table { (seat.old.table_id ≡ top.now.table_id) × (top.now.table_id.words ≡ 2) }
    ensures same { (seat.new.table_id ≡ seat.old.table_id) × (seat.new.id ≡ seat.old.id) }
    ensures loaded { (log : List M.Entry) × (seat.new.me ≡ (with_seen seat.old.me.0 log, seat.old.me.1)) × (length log ≡ result) × (seat.old.me.0.holds ≡ true → seat.old.me.0.hand ≡ log)
        × ((k : ℕ) (p : Part M.Entry M.Call) → get_elem? (parts_of seat.old.me.0) k ≡ some p → Sees M.call_of M.client_of log p)
        × (seat.old.me.0.live ≡ true → (b : M.Base) → seat.old.me.0.base ≡ b ∷ [] → M.stands b log) }
{
    top.load::<Load>(seat, COUNT)
}

// Puts the machine back into its slot.
fn put<M: Machine>(top: &Top<M>, seat: &mut Place<M>, machine: M)
    requires table { seat.old.table_id ≡ top.now.table_id }
    requires out { seat.old.me.1 ≡ (0, None) ∷ [] }
    ensures same { (seat.new.table_id ≡ seat.old.table_id) × (seat.new.id ≡ seat.old.id) }
    ensures there { seat.new.me ≡ (seat.old.me.0, (0, Some machine) ∷ []) }
{
    let before = top.exchange(seat, SLOT, Some(machine));
    let None = before else { unreachable!() };
}

// Gives the turn up, with the machine as it was found.
pub(crate) fn release<M: Machine>(top: &Top<M>, seat: &mut Place<M>, machine: M)
    requires table { (seat.old.table_id ≡ top.now.table_id) × (top.now.table_id.words ≡ 2) }
    requires holds { (seat.old.me.1 ≡ (0, None) ∷ []) × (seat.old.me.0.holds ≡ true) }
    requires base { seat.old.me.0.base ≡ M.base machine ∷ [] }
    requires list { M.list machine ≡ seat.old.me.0.hand }
    ensures same { (seat.new.table_id ≡ seat.old.table_id) × (seat.new.id ≡ seat.old.id) }
    ensures rests { seat.new.me ≡ (at_rest seat.old.me.0, []) }
{
    put(top, seat, machine);
    top.store::<Free>(seat, TURN, 0);
}

// Adds the machine's new entry to the history, and gives the turn up.
pub(crate) fn commit<M: Machine>(top: &Top<M>, seat: &mut Place<M>, machine: M)
    requires table { (seat.old.table_id ≡ top.now.table_id) × (top.now.table_id.words ≡ 2) }
    requires holds { (seat.old.me.1 ≡ (0, None) ∷ []) × (seat.old.me.0.holds ≡ true) }
    requires base { seat.old.me.0.base ≡ M.base machine ∷ [] }
    requires made { (entry : M.Entry) × (M.list machine ≡ seat.old.me.0.hand ++ entry ∷ []) × (M.client_of (M.call_of entry) ≡ seat.old.me.0.own.client) × (length (M.list machine) < 2 ^ 31) }
    requires stands { M.stands (M.base machine) (M.list machine) }
    ensures same { (seat.new.table_id ≡ seat.old.table_id) × (seat.new.id ≡ seat.old.id) }
    ensures made { seat.new.me ≡ (at_rest (with_made seat.old.me.0 (M.list machine) (calls_by M.call_of M.client_of seat.old.me.0.own.client (M.list machine))), []) }
{
    put(top, seat, machine);
    top.fetch_add::<Commit>(seat, COUNT, 1);
    top.store::<Free>(seat, TURN, 0);
}
