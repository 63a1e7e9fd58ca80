//! The tries of turns, counted.

ghost use Rattle.std.specs.Prelude.{◌≡◌, ◌<◌, length};
ghost use Rattle.machine_example.specs.Asks.{CanBeMade};

use crate::asking::next_number;
use crate::clients::three_clients;
use crate::lock_requests::{close_first, lock_by_first, open_shared, unlock_by_first};
use fsa_machine::{MOST_ENTRIES, Steps, VolumeMachine};
use fsa_types::{Call, Out, What, Why};
use std::alloc::Global;
use std::sync::ledger::{Blank, Ledger};

/// Makes a turn of the client's next call, which does this, and counts its tries. A refused turn changes nothing.
pub fn ask_counted<L: Ledger>(
    alloc: Global,
    machine: &mut VolumeMachine,
    client: u32,
    what: What,
    steps: &mut Steps<L>,
) -> Result<Out, Why>
    requires client { client < length machine.old.setup.clients }
    requires can_be_made { CanBeMade what }
    ensures setup { machine.new.setup ≡ machine.old.setup }
{
    if machine.len() >= MOST_ENTRIES as u64 {
        return Err(Why::HistoryFull);
    }
    let number = next_number(machine, client);
    let call = Call {
        client,
        number,
        what,
    };
    match machine.turn_counted(alloc, call, steps) {
        Ok(out) => Ok(out),
        Err((_, why)) => Err(why),
    }
}

// All three clients open the file by their first calls.
fn open_all<L: Ledger>(
    alloc: Global,
    machine: &mut VolumeMachine,
    steps: &mut Steps<L>,
) -> Result<(), Why>
    requires three { length machine.old.setup.clients ≡ 3 }
    ensures setup { machine.new.setup ≡ machine.old.setup }
{
    for client in 0..3 {
        let Ok(what) = open_shared(alloc) else {
            return Err(Why::NoMemory);
        };
        ask_counted(alloc, machine, client, what, steps)?;
    }
    Ok(())
}

// The first client locks the first ten bytes, the second one's lock of the first twenty waits for that, and the
// third one locks five of these; then the first one unlocks, and the third one closes its handle.
fn lock_all<L: Ledger>(
    alloc: Global,
    machine: &mut VolumeMachine,
    steps: &mut Steps<L>,
) -> Result<(), Why>
    requires three { length machine.old.setup.clients ≡ 3 }
{
    ask_counted(alloc, machine, 0, lock_by_first(0, 10, true, false), steps)?;
    ask_counted(alloc, machine, 1, lock_by_first(0, 20, true, true), steps)?;
    ask_counted(alloc, machine, 2, lock_by_first(15, 5, false, false), steps)?;
    ask_counted(alloc, machine, 0, unlock_by_first(), steps)?;
    ask_counted(alloc, machine, 2, close_first(), steps)?;
    Ok(())
}

/// Three clients open one file. The second's lock waits for one of the first and then, once that has gone, for one
/// of the third, and is granted when that has gone too. How many tries the eight turns made: with ample memory
/// each call's own, and two more of the lock. An error where there is no memory for a call.
pub fn tries_of_a_lock_that_waits_twice<L: Ledger>(alloc: Global, blank: Blank) -> Result<u64, Why>
    requires name { blank.name ≡ L.name }
    requires parts { blank.parts ≡ L.parts }
    requires some { 0 < blank.parts }
{
    let Ok(mut machine) = three_clients(alloc) else {
        return Err(Why::NoMemory);
    };
    let mut steps = Steps::<L>::new(blank);
    open_all(alloc, &mut machine, &mut steps)?;
    lock_all(alloc, &mut machine, &mut steps)?;
    Ok(steps.count())
}
