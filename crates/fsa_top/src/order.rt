//! In which order the calls of a script are made.

ghost use Rattle.std.specs.Prelude.{◌≡◌, ◌≤◌, ◌<◌, ◌+◌, ◌^◌, ℕ, Some, None, IfOk, IfSome, IfNone, length, not, ◌&&◌, nat_lt, slice_get, slice_index_or, slice_set, if◌then◌else◌};
ghost use Rattle.fsa_types.specs.declared.request.Call.{Call};
ghost use Rattle.fsa_model.specs.Bounds.{most_client_lines};
ghost use Rattle.fsa_model.specs.History.{Run, run};
ghost use Rattle.fsa_model.specs.Schedule.{all_calls, next};
ghost use Rattle.fsa_model.specs.Waiting.{waits};
ghost use Rattle.history_laws.specs.Cursors.{first_from, first_of};
ghost use Rattle.history_laws.specs.Named.{IsReadScript};
ghost use Rattle.script_read.specs.ScriptView.{contents};
ghost use Rattle.fsa_top.specs.Order.{AreNextPlaces, IsLeastCursor, IsWithinLimits};
ghost use Rattle.fsa_top.specs.Progress.{IsNextAt, Progress};

use fsa_machine::VolumeMachine;
use fsa_types::NoMemory;
use script_read::Script;
use std::alloc::Global;

/// Where each client's next call stands among all calls of a script: its lines, and behind them
/// the leavings in order of clients.
#[derive(Drop)]
pub struct Order {
    // The place of each client's next call; behind all calls where it has none.
    places: Vec<usize>,
    // For each line the place of its client's next call behind it.
    following: Vec<usize>,
}

// The places of the leavings.
fn leave_places(alloc: Global, script: &Script) -> Result<Vec<usize>, NoMemory>
    requires within { IsWithinLimits (contents script.now) }
    ensures long { IfOk result (λ places. length places.items ≡ length (contents script.now).setup.clients) }
    ensures each { IfOk result (λ places. (client : ℕ) → client < length places.items → slice_index_or places.items client 0 ≡ length (contents script.now).lines + client) }
{
    let first = script.lines().len();
    let count = script.clients().len();
    let mut places = Vec::with_capacity(alloc, count)?;
    for client in 0..count {
        places.push(first + client)?;
    }
    Ok(places)
}

// Lists the places from the last line to the first: of each client's first call, and behind each line.
fn list_back(script: &Script, places: &mut [usize], following: &mut [usize])
    requires is_read { IsReadScript (contents script.now) }
    requires leaves { (length places.old ≡ length (contents script.now).setup.clients) × ((client : ℕ) → client < length places.old → slice_index_or places.old client 0 ≡ length (contents script.now).lines + client) }
    requires room { length following.old ≡ length (contents script.now).lines }
    ensures long { length places.new ≡ length (contents script.now).setup.clients }
    ensures first { (client : ℕ) → client < length places.new → slice_index_or places.new client 0 ≡ first_of client (all_calls (contents script.now)) }
    ensures follows { AreNextPlaces (contents script.now) following.new }
{
    let lines = script.lines().as_slice();
    for place in (0..lines.len()).rev() {
        let client = lines[place].client as usize;
        following[place] = places[client];
        places[client] = place;
    }
}

// The least of this cursor and that of a client, where the client doesn't wait.
fn lesser(machine: &VolumeMachine, client: u32, place: usize, least: usize) -> usize
    ensures { (r : Run) → run machine.now.setup machine.now.entries ≡ Some r → result ≡ (if nat_lt place least && not (waits r.volume client) then place else least) }
{
    if place < least && !machine.waits(client) {
        place
    } else {
        least
    }
}

impl Order {
    /// The order before the first turn.
    pub fn new(alloc: Global, script: &Script) -> Result<Order, NoMemory>
        requires is_read { IsReadScript (contents script.now) }
        requires within { IsWithinLimits (contents script.now) }
        ensures long { IfOk result (λ order. length order.places.items ≡ length (contents script.now).setup.clients) }
        ensures first { IfOk result (λ order. (client : ℕ) → client < length order.places.items → slice_index_or order.places.items client 0 ≡ first_of client (all_calls (contents script.now))) }
        ensures follows { IfOk result (λ order. AreNextPlaces (contents script.now) order.following.items) }
    {
        let mut places = leave_places(alloc, script)?;
        let mut following = vec![in alloc; 0usize; script.lines().len()]?;
        list_back(script, &mut places, &mut following);
        Ok(Order { places, following })
    }

    // The least cursor of a client that doesn't wait.
    fn least_place(&self, machine: &VolumeMachine) -> usize
        requires few { length self.now.places.items ≤ most_client_lines }
        requires sum { length self.now.following.items + length self.now.places.items < 2 ^ 32 }
        ensures { (r : Run) → run machine.now.setup machine.now.entries ≡ Some r → IsLeastCursor (λ client. waits r.volume client) self.now.places.items (length self.now.places.items) (length self.now.following.items + length self.now.places.items) result }
    {
        let mut least = self.following.len() + self.places.len();
        for client in 0..self.places.len() {
            least = lesser(machine, client as u32, self.places[client], least);
        }
        least
    }

    /// The place of the next call: of those whose clients don't wait the first that wasn't made.
    pub fn next_place(&self, script: &Script, machine: &VolumeMachine) -> Option<usize>
        requires stands { Progress (contents script.now) machine.now self.now }
        ensures some { IfSome result (λ place. IsNextAt (contents script.now) machine.now.entries place) }
        ensures none { IfNone result (next (contents script.now) machine.now.entries ≡ None) }
    {
        let least = self.least_place(machine);
        if least < self.following.len() + self.places.len() {
            Some(least)
        } else {
            None
        }
    }

    // The client of the call at this place, and where its next call stands.
    fn behind(&self, script: &Script, place: usize) -> (usize, usize)
        requires follows { AreNextPlaces (contents script.now) self.now.following.items }
        requires long { length self.now.places.items ≡ length (contents script.now).setup.clients }
        requires within { IsWithinLimits (contents script.now) }
        requires there { place < length (all_calls (contents script.now)) }
        ensures { (call : Call) → slice_get (all_calls (contents script.now)) place ≡ Some call → (result.0 ≡ call.client) × (result.1 ≡ first_from call.client (place + 1) (all_calls (contents script.now))) }
    {
        let lines = script.lines().as_slice();
        if place < lines.len() {
            return (lines[place].client as usize, self.following[place]);
        }
        (place - lines.len(), lines.len() + self.places.len())
    }

    /// The call at this place was made: its client's next one stands behind it.
    pub fn go_on(&mut self, script: &Script, place: usize)
        requires is_read { IsReadScript (contents script.now) }
        requires within { IsWithinLimits (contents script.now) }
        requires follows { AreNextPlaces (contents script.now) self.old.following.items }
        requires long { length self.old.places.items ≡ length (contents script.now).setup.clients }
        requires there { place < length (all_calls (contents script.now)) }
        ensures following { self.new.following ≡ self.old.following }
        ensures places { (call : Call) → slice_get (all_calls (contents script.now)) place ≡ Some call → self.new.places.items ≡ slice_set self.old.places.items call.client (first_from call.client (place + 1) (all_calls (contents script.now))) }
    {
        let (client, next) = self.behind(script, place);
        self.places[client] = next;
    }
}
