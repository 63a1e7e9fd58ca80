//! Many turns of one client.

ghost use Rattle.std.specs.Prelude.{◌≡◌, ◌<◌, ◌+◌, ◌-◌, ◌^◌, [], OnOk, length};
ghost use Rattle.fsa_model.specs.Schedule.{calls_of};
ghost use Rattle.fsa_machine.specs.MachineView.{calls_of_entries};

use fsa_machine::VolumeMachine;
use fsa_types::{Call, What, Why};
use std::alloc::Global;

// The client, which has made so many calls, moves the clock by one tick. A refused turn changes nothing.
#[tactic(auto, using(crate::proofs::CountLaws::one_more))]
fn tick_once(alloc: Global, machine: &mut VolumeMachine, client: u32, made: u32) -> Result<(), Why>
    requires client { client < length machine.old.setup.clients }
    requires made { calls_of client (calls_of_entries machine.old.entries) ≡ made }
    requires few { made < 2 ^ 32 - 1 }
    ensures setup { machine.new.setup ≡ machine.old.setup }
    ensures turns { OnOk result (length machine.new.entries ≡ length machine.old.entries + 1) }
    ensures calls { OnOk result (calls_of client (calls_of_entries machine.new.entries) ≡ made + 1) }
{
    let call = Call {
        client,
        number: made + 1,
        what: What::Tick(1),
    };
    match machine.turn(alloc, call) {
        Ok(_) => Ok(()),
        Err((_, why)) => Err(why),
    }
}

/// Makes so many turns, the first of a machine, in which the client moves the clock by one tick each. It counts
/// their numbers itself, and so doesn't go over the history as `ask` does. Where a turn is refused it stops
/// there, and says why; the turns before were made.
pub fn tick_times(
    alloc: Global,
    machine: &mut VolumeMachine,
    client: u32,
    times: u32,
) -> Result<(), Why>
    requires client { client < length machine.old.setup.clients }
    requires none { machine.old.entries ≡ [] }
    ensures setup { machine.new.setup ≡ machine.old.setup }
    ensures turns { OnOk result (length machine.new.entries ≡ times) }
    ensures calls { OnOk result (calls_of client (calls_of_entries machine.new.entries) ≡ times) }
{
    for made in 0..times {
        tick_once(alloc, machine, client, made)?;
    }
    Ok(())
}
