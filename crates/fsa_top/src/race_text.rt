//! The race of a script's clients, and the text of its history.

ghost use Rattle.std.specs.Prelude.{◌≡◌, ◌≤◌, ◌<◌, ◌⊎◌, ◌^◌, ℕ, [], length, IsSome, OnErr, OnOk, IsErrOf, Some, slice_get, map};
ghost use Rattle.fsa_types.specs.declared.request.Call.{Call};
ghost use Rattle.fsa_model.specs.History.{Run, run};
ghost use Rattle.fsa_model.specs.Outcome.{out_of};
ghost use Rattle.fsa_model.specs.Setup.{client_of};
ghost use Rattle.fsa_model.specs.Text.{text, turn_text};
ghost use Rattle.history_laws.specs.Named.{IsReadScript};
ghost use Rattle.script_read.specs.ScriptView.{contents};
ghost use Rattle.text_out.specs.Writes.{AddsText, TellsFaults};
ghost use Rattle.wire_io.specs.Sink.{Appends, AppendsPart};
ghost use Rattle.client_race.specs.Races.{CanRace};
ghost use Rattle.fsa_top.specs.ShownTurns.{ShowsFirst, ShowsTurn};
ghost use Rattle.fsa_top.specs.Runs.{WritesWhole, WritesWholePart};

use client_race::race;
use fsa_machine::VolumeMachine;
use script_read::Script;
use std::alloc::Global;
use std::rt::Clock;
use std::sync::Wait;
use std::thread::Threads;
use text_out::{TextBuffer, TextFault};
use wire_io::{Gate, Sink};

// Adds the lines of the turn at this place of a machine's history to the text.
fn add_turn<K: Sink>(
    machine: &VolumeMachine,
    script: &Script,
    turn: u64,
    buffer: &mut TextBuffer,
    sink: &mut K,
) -> Result<(), TextFault>
    requires setup { machine.now.setup ≡ (contents script.now).setup }
    requires runs { IsSome (run (contents script.now).setup machine.now.entries) }
    requires within { turn < length machine.now.entries }
    ensures adds { ShowsTurn (contents script.now) machine.now.entries turn (λ lines. AddsText (K.written sink.old) (K.written sink.new) buffer.old buffer.new lines result) }
    ensures faults { TellsFaults (K.faults sink.old) (K.faults sink.new) (K.written sink.new).since_fault result }
{
    buffer.add_turn(
        sink,
        script.clients(),
        machine.call_at(turn),
        machine.out_at(turn),
    )
}

// Adds the lines of each turn of a machine's history to the text, which is empty.
fn add_turns<K: Sink>(
    machine: &VolumeMachine,
    script: &Script,
    buffer: &mut TextBuffer,
    sink: &mut K,
) -> Result<(), TextFault>
    requires setup { machine.now.setup ≡ (contents script.now).setup }
    requires runs { IsSome (run (contents script.now).setup machine.now.entries) }
    requires none { buffer.old ≡ [] }
    ensures ok { OnOk result (ShowsFirst (contents script.now) machine.now.entries (length machine.now.entries) (K.written sink.old) (K.written sink.new) buffer.new) }
    ensures part { OnErr result (AppendsPart (K.written sink.old) (K.written sink.new) (text (contents script.now) machine.now.entries)) }
    ensures faults { TellsFaults (K.faults sink.old) (K.faults sink.new) (K.written sink.new).since_fault result }
{
    for turn in 0..machine.len() {
        add_turn(machine, script, turn, buffer, sink)?;
    }
    Ok(())
}

// Writes the text of a machine's history.
fn put_text<K: Sink>(
    alloc: Global,
    machine: &VolumeMachine,
    script: &Script,
    sink: &mut K,
) -> Result<(), TextFault>
    requires setup { machine.now.setup ≡ (contents script.now).setup }
    requires runs { IsSome (run (contents script.now).setup machine.now.entries) }
    requires few { length machine.now.entries < 2 ^ 32 }
    ensures ok { OnOk result (Appends (K.written sink.old) (K.written sink.new) (text (contents script.now) machine.now.entries)) }
    ensures part { OnErr result (AppendsPart (K.written sink.old) (K.written sink.new) (text (contents script.now) machine.now.entries)) }
    ensures faults { TellsFaults (K.faults sink.old) (K.faults sink.new) (K.written sink.new).since_fault result }
{
    let mut buffer = TextBuffer::new(alloc);
    add_turns(machine, script, &mut buffer, sink)?;
    buffer.finish(sink, machine.len() as u32)
}

/// Runs the clients of a script side by side, and writes the text of their history, which is whole for the
/// script. `Failed` where the sink failed, and a part of that text is written then; `NoMemory` where there was
/// no memory, and such a part is written, or nothing. It may wait forever.
pub fn race_script<R: Threads + Wait + Clock + Sync, K: Sink, G: Gate + Sync>(
    rt: &R,
    alloc: Global,
    script: &Script,
    sink: &mut K,
    gate: &G,
) -> Result<(), TextFault>
    requires is_read { IsReadScript (contents script.now) }
    requires can { CanRace (contents script.now) }
    requires gate { (client number : ℕ) → G.is_for gate.now client number }
    ensures ok { OnOk result (WritesWhole (contents script.now) (K.written sink.old) (K.written sink.new)) }
    ensures part { IsErrOf result TextFault.Failed → WritesWholePart (contents script.now) (K.written sink.old) (K.written sink.new) }
    ensures memory { IsErrOf result TextFault.NoMemory → (sink.new ≡ sink.old) ⊎ WritesWholePart (contents script.now) (K.written sink.old) (K.written sink.new) }
    ensures faults { TellsFaults (K.faults sink.old) (K.faults sink.new) (K.written sink.new).since_fault result }
{
    let machine = race(rt, alloc, script, gate)?;
    put_text(alloc, &machine, script, sink)
}
