//! The run of a generated script, and its summary.

ghost use Rattle.std.specs.Prelude.{◌≡◌, ◌≢◌, ◌≤◌, ◌⊎◌, IfOk};
ghost use Rattle.fsa_model.specs.Generator.{generated};
ghost use Rattle.fsa_model.specs.LineCalls.{HaveSids};
ghost use Rattle.fsa_model.specs.Schedule.{HasAllCalls, Scheduled};
ghost use Rattle.history_laws.specs.Named.{IsReadScript};
ghost use Rattle.script_read.specs.ScriptView.{contents};
ghost use Rattle.wire_io.specs.Faults.{FailsLast};
ghost use Rattle.fsa_top.specs.Order.{IsWithinLimits};
ghost use Rattle.fsa_top.specs.Summaries.{IsSummary, WritesSummary, WritesSummaryPart};

use crate::null_sink::Nowhere;
use crate::order::Order;
use crate::run::{begin, run_calls};
use crate::summary::summary_of;
use fsa_machine::VolumeMachine;
use fsa_types::NoMemory;
use script_read::{Script, a_generated_script_is_read, generate};
use std::alloc::Global;
use text_out::{TextBuffer, TextFault};
use wire_io::{Failed, Sink, put_all};

// The machine after all calls of a script.
fn machine_after(alloc: Global, script: &Script) -> Result<VolumeMachine, NoMemory>
    requires is_read { IsReadScript (contents script.now) }
    requires within { IsWithinLimits (contents script.now) }
    requires sids { HaveSids (contents script.now).setup.clients }
    ensures setup { IfOk result (λ machine. machine.setup ≡ (contents script.now).setup) }
    ensures scheduled { IfOk result (λ machine. Scheduled (contents script.now) machine.entries) }
    ensures all { IfOk result (λ machine. HasAllCalls (contents script.now) machine.entries) }
{
    let mut order = Order::new(alloc, script)?;
    let mut machine = begin(alloc, script)?;
    let mut nowhere = Nowhere;
    let mut buffer = TextBuffer::new(alloc);
    match run_calls(
        alloc,
        &mut machine,
        script,
        &mut order,
        &mut buffer,
        &mut nowhere,
    ) {
        Ok(()) => Ok(machine),
        Err(TextFault::NoMemory) => Err(NoMemory),
        Err(TextFault::Failed) => unreachable!(),
    }
}

// The generated script of a seed, as a run takes it: its text is read as it.
fn script_of_seed(alloc: Global, seed: u64) -> Result<Script, NoMemory>
    ensures script { IfOk result (λ script. contents script ≡ generated seed) }
    ensures is_read { IsReadScript (generated seed) }
    ensures within { IsWithinLimits (generated seed) }
    ensures sids { HaveSids (generated seed).setup.clients }
{
    a_generated_script_is_read();
    let script = generate(alloc, seed)?;
    Ok(script)
}

// The summary of the generated script of a seed.
fn summary_of_seed(alloc: Global, seed: u64) -> Result<Vec<u8>, NoMemory>
    ensures { IfOk result (λ text. IsSummary (generated seed) text.items) }
{
    let script = script_of_seed(alloc, seed)?;
    let machine = machine_after(alloc, &script)?;
    let text = summary_of(alloc, &machine)?;
    Ok(text)
}

/// Runs the generated script of a seed, and writes its summary: 0; 4 where the sink failed, and a part of
/// the summary is written then; or 5 where there was no memory, and nothing is written.
pub fn run_generated<K: Sink>(alloc: Global, seed: u64, sink: &mut K) -> u8
    ensures done { result ≡ 0 → WritesSummary (generated seed) (K.written sink.old) (K.written sink.new) }
    ensures part { result ≡ 4 → WritesSummaryPart (generated seed) (K.written sink.old) (K.written sink.new) }
    ensures write { result ≡ 4 → FailsLast (K.faults sink.old) (K.faults sink.new) (K.written sink.new).since_fault }
    ensures memory { result ≡ 5 → sink.new ≡ sink.old }
    ensures unfailed { result ≢ 4 → K.faults sink.new ≡ K.faults sink.old }
    ensures known { (result ≡ 0) ⊎ ((result ≡ 4) ⊎ (result ≡ 5)) }
    ensures later { K.faults sink.old ≤ K.faults sink.new }
{
    match summary_of_seed(alloc, seed) {
        Ok(text) => match put_all(sink, &text) {
            Ok(()) => 0,
            Err(Failed) => 4,
        },
        Err(NoMemory) => 5,
    }
}
