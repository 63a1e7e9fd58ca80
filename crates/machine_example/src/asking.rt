//! A turn of a client's next call.

ghost use Rattle.std.specs.Prelude.{◌≡◌, ◌<◌, ◌≤◌, ◌+◌, ◌-◌, ◌^◌, ◌==◌, ◌++◌, ◌∷◌, [], cond, IfOk, OnErr, length, nat_le};
ghost use Rattle.fsa_model.specs.Bounds.{most_entries};
ghost use Rattle.fsa_model.specs.Outcome.{out_of};
ghost use Rattle.fsa_model.specs.Schedule.{calls_of};
ghost use Rattle.fsa_model.specs.History.{GaveOut};
ghost use Rattle.fsa_machine.specs.MachineView.{calls_of_entries};
ghost use Rattle.machine_example.specs.Asks.{CanBeMade, is_full, next_call};

use fsa_machine::{MOST_ENTRIES, VolumeMachine};
use fsa_types::{Call, Out, What, Why};
use std::alloc::Global;

// So many calls, and this one where it is the client's.
fn with_call(count: u32, call: &Call, client: u32) -> u32
    requires few { count < 2 ^ 32 - 1 }
    ensures counts { result ≡ count + cond (call.now.client == client) 1 0 }
    ensures bound { result ≤ count + 1 }
{
    if call.client == client {
        count + 1
    } else {
        count
    }
}

/// The number of the client's next call: one more than it has made. It goes over the history.
pub fn next_number(machine: &VolumeMachine, client: u32) -> u32
    requires few { length machine.now.entries < 2 ^ 32 - 1 }
    ensures { result ≡ calls_of client (calls_of_entries machine.now.entries) + 1 }
{
    let mut count = 0;
    for i in 0..machine.len() {
        count = with_call(count, machine.call_at(i), client);
    }
    count + 1
}

/// Makes a turn of the client's next call, which does this, and gives what the turn gives out. A refused
/// turn changes nothing: `HistoryFull` exactly where 1,000,000 turns were made, `NoMemory` where there is
/// no memory for the call.
pub fn ask(alloc: Global, machine: &mut VolumeMachine, client: u32, what: What) -> Result<Out, Why>
    requires client { client < length machine.old.setup.clients }
    requires can_be_made { CanBeMade what }
    ensures setup { machine.new.setup ≡ machine.old.setup }
    ensures entries { IfOk result (λ out. machine.new.entries ≡ machine.old.entries ++ record { call = next_call machine.old.entries client what; starved = out.starved.items } ∷ []) }
    ensures out { IfOk result (λ out. GaveOut machine.new.setup machine.new.entries (out_of out)) }
    ensures full { is_full result ≡ nat_le most_entries (length machine.old.entries) }
    ensures refused { OnErr result (machine.new ≡ machine.old) }
{
    if machine.len() >= MOST_ENTRIES as u64 {
        return Err(Why::HistoryFull);
    }
    let number = next_number(machine, client);
    let call = Call {
        client,
        number,
        what,
    };
    match machine.turn(alloc, call) {
        Ok(out) => Ok(out),
        Err((_, why)) => Err(why),
    }
}
