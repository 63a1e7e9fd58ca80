//! The history of a race.
ghost use Rattle.std.specs.Prelude.{◌≡◌, ◌≤◌, ℕ, IfOk, length};
ghost use Rattle.fsa_model.specs.Bounds.{most_entries};
ghost use Rattle.fsa_model.specs.Engine.{CallsDiffer};
ghost use Rattle.history_laws.specs.Races.{Whole};
ghost use Rattle.script_read.specs.ScriptView.{contents};
ghost use Rattle.client_race.specs.Races.{CanRace};

use crate::racing::race_history;
use fsa_machine::VolumeMachine;
use fsa_types::NoMemory;
use script_read::Script;
use std::alloc::Global;
use std::rt::Clock;
use std::sync::Wait;
use std::thread::Threads;
use wire_io::Gate;

/// Runs the clients of a script as `race_history` does, and closes the volume: its history is whole for the
/// script, makes no call twice, and has at most 1,000,000 entries.
pub fn race<R: Threads + Wait + Clock + Sync, G: Gate + Sync>(
    rt: &R,
    alloc: Global,
    script: &Script,
    gate: &G,
) -> Result<VolumeMachine, NoMemory>
    requires can { CanRace (contents script.now) }
    requires gate { (client number : ℕ) → G.is_for gate.now client number }
    ensures setup { IfOk result (λ machine. machine.setup ≡ (contents script.now).setup) }
    ensures whole { IfOk result (λ machine. Whole (contents script.now) machine.entries) }
    ensures differ { IfOk result (λ machine. CallsDiffer machine.entries) }
    ensures few { IfOk result (λ machine. length machine.entries ≤ most_entries) }
{
    let (volume, passes) = race_history(rt, alloc, script, gate)?;
    Ok(volume.close(passes))
}
