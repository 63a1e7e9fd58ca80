//! The run of a script: each call in its turn, and the text of all turns to the sink, block by block.

ghost use Rattle.std.specs.Prelude.{◌≡◌, ◌≤◌, ◌<◌, ◌+◌, ◌-◌, ◌^◌, ◌⊎◌, [], ℕ, length, map, IfOk, OnOk, OnErr, IsErrOf, Some, slice_get};
ghost use Rattle.fsa_types.specs.declared.request.Call.{Call};
ghost use Rattle.fsa_model.specs.Bounds.{most_entries};
ghost use Rattle.fsa_model.specs.LineCalls.{HaveSids, IsLineCall};
ghost use Rattle.fsa_model.specs.Outcome.{out_of};
ghost use Rattle.fsa_model.specs.Schedule.{HasAllCalls, all_calls, calls_of, leave_after};
ghost use Rattle.fsa_model.specs.Setup.{client_of};
ghost use Rattle.history_laws.specs.Named.{IsReadScript};
ghost use Rattle.history_laws.specs.GoesOn.{how_many_left};
ghost use Rattle.wire_io.specs.Sink.{Written};
ghost use Rattle.script_read.specs.ScriptView.{contents};
ghost use Rattle.text_out.specs.Writes.{TellsFaults};
ghost use Rattle.fsa_top.specs.Order.{IsWithinLimits};
ghost use Rattle.fsa_top.specs.Runs.{WritesPart, WritesText};
ghost use Rattle.fsa_top.specs.Progress.{IsNextAt, TurnWasMade, MakesTurn, WroteTurns, Progress};

use crate::order::Order;
use fsa_machine::VolumeMachine;
use fsa_types::{Call, ClientList, NoMemory, Out, Setup, TryCopy, What, Why};
use script_read::Script;
use std::alloc::Global;
use text_out::{TextBuffer, TextFault};
use wire_io::Sink;

// Makes a turn of a call; the machine keeps a copy of it.
fn turn_of(alloc: Global, machine: &mut VolumeMachine, call: &Call) -> Result<Out, NoMemory>
    requires asked { IsLineCall (length machine.old.setup.clients) call.now }
    requires number { call.now.number ≡ calls_of call.now.client (map (λ entry. entry.call) machine.old.entries) + 1 }
    requires few { length machine.old.entries < most_entries }
    ensures made { IfOk result (λ out. TurnWasMade machine.old machine.new call.now (out_of out)) }
{
    let call = call.copy(alloc)?;
    match machine.turn(alloc, call) {
        Ok(out) => Ok(out),
        Err((_, Why::NoMemory)) => Err(NoMemory),
        Err((_, Why::HistoryFull)) => unreachable!(),
    }
}

// Makes one turn and adds its lines to the text.
fn make_turn<K: Sink>(
    alloc: Global,
    machine: &mut VolumeMachine,
    clients: &ClientList,
    call: &Call,
    buffer: &mut TextBuffer,
    sink: &mut K,
) -> Result<(), TextFault>
    requires asked { IsLineCall (length machine.old.setup.clients) call.now }
    requires number { call.now.number ≡ calls_of call.now.client (map (λ entry. entry.call) machine.old.entries) + 1 }
    requires few { length machine.old.entries < most_entries }
    requires clients { map client_of clients.now.items ≡ machine.old.setup.clients }
    ensures made { MakesTurn machine.old machine.new call.now (K.written sink.old) (K.written sink.new) buffer.old buffer.new result }
    ensures faults { TellsFaults (K.faults sink.old) (K.faults sink.new) (K.written sink.new).since_fault result }
{
    match turn_of(alloc, machine, call) {
        Ok(out) => buffer.add_turn(sink, clients, call, &out),
        Err(NoMemory) => Err(buffer.give_up(sink)),
    }
}

// How many of these calls are this client's.
fn calls_of(calls: &[Call], client: u32) -> u32
    requires few { length calls.now < 2 ^ 32 - 1 }
    ensures counts { result ≡ calls_of client calls.now }
    ensures bound { result ≤ length calls.now }
{
    let mut count = 0;
    for call in calls {
        if call.client == client {
            count += 1;
        }
    }
    count
}

// The client's leaving, after its lines.
fn leave_after(lines: &[Call], client: u32) -> Call
    requires few { length lines.now < 2 ^ 32 - 1 }
    ensures { result ≡ leave_after lines.now client }
{
    Call {
        client,
        number: calls_of(lines, client) + 1,
        what: What::Leave,
    }
}

// Makes the turn of the call at this place, and adds its lines to the text.
fn make_turn_at<K: Sink>(
    alloc: Global,
    machine: &mut VolumeMachine,
    script: &Script,
    place: usize,
    buffer: &mut TextBuffer,
    sink: &mut K,
) -> Result<(), TextFault>
    requires within { IsWithinLimits (contents script.now) }
    requires setup { machine.old.setup ≡ (contents script.now).setup }
    requires few { length machine.old.entries < most_entries }
    requires there { place < length (all_calls (contents script.now)) }
    requires asked { (call : Call) → slice_get (all_calls (contents script.now)) place ≡ Some call → IsLineCall (length machine.old.setup.clients) call × (call.number ≡ calls_of call.client (map (λ entry. entry.call) machine.old.entries) + 1) }
    ensures made { (call : Call) → slice_get (all_calls (contents script.now)) place ≡ Some call → MakesTurn machine.old machine.new call (K.written sink.old) (K.written sink.new) buffer.old buffer.new result }
    ensures faults { TellsFaults (K.faults sink.old) (K.faults sink.new) (K.written sink.new).since_fault result }
{
    let clients = script.clients();
    let lines = script.lines().as_slice();
    if place < lines.len() {
        make_turn(alloc, machine, clients, &lines[place], buffer, sink)
    } else {
        let call = leave_after(lines, (place - lines.len()) as u32);
        make_turn(alloc, machine, clients, &call, buffer, sink)
    }
}

// Makes the turn of the next call, which stands at this place, adds its lines to the text, and goes on.
fn take_turn<K: Sink>(
    alloc: Global,
    machine: &mut VolumeMachine,
    script: &Script,
    order: &mut Order,
    place: usize,
    buffer: &mut TextBuffer,
    sink: &mut K,
) -> Result<(), TextFault>
    requires stands { Progress (contents script.now) machine.old order.old }
    requires next { IsNextAt (contents script.now) machine.old.entries place }
    ensures stands { OnOk result (Progress (contents script.now) machine.new order.new) }
    ensures fewer { OnOk result (how_many_left (contents script.now) machine.new.entries < how_many_left (contents script.now) machine.old.entries) }
    ensures shows { OnOk result ((first : Written) → WroteTurns (contents script.now) machine.old.entries first (K.written sink.old) buffer.old → WroteTurns (contents script.now) machine.new.entries first (K.written sink.new) buffer.new) }
    ensures part { OnErr result ((first : Written) → WroteTurns (contents script.now) machine.old.entries first (K.written sink.old) buffer.old → WritesPart (contents script.now) first (K.written sink.new)) }
    ensures faults { TellsFaults (K.faults sink.old) (K.faults sink.new) (K.written sink.new).since_fault result }
{
    make_turn_at(alloc, machine, script, place, buffer, sink)?;
    order.go_on(script, place);
    Ok(())
}

/// Makes turns as long as some call is next, and adds the lines of each to the text. `Failed` where the sink
/// failed, `NoMemory` where there was no memory.
pub fn run_calls<K: Sink>(
    alloc: Global,
    machine: &mut VolumeMachine,
    script: &Script,
    order: &mut Order,
    buffer: &mut TextBuffer,
    sink: &mut K,
) -> Result<(), TextFault>
    requires stands { Progress (contents script.now) machine.old order.old }
    requires shows { WroteTurns (contents script.now) machine.old.entries (K.written sink.old) (K.written sink.old) buffer.old }
    ensures setup { OnOk result (machine.new.setup ≡ (contents script.now).setup) }
    ensures few { OnOk result (length machine.new.entries ≤ 40064) }
    ensures ok { OnOk result (WroteTurns (contents script.now) machine.new.entries (K.written sink.old) (K.written sink.new) buffer.new) }
    ensures all { OnOk result (HasAllCalls (contents script.now) machine.new.entries) }
    ensures part { OnErr result (WritesPart (contents script.now) (K.written sink.old) (K.written sink.new)) }
    ensures faults { TellsFaults (K.faults sink.old) (K.faults sink.new) (K.written sink.new).since_fault result }
{
    'turns: while let Some(place) = order.next_place(script, machine) {
        take_turn(alloc, machine, script, order, place, buffer, sink)?;
    }
    Ok(())
}

/// The machine with which a script begins.
pub fn begin(alloc: Global, script: &Script) -> Result<VolumeMachine, NoMemory>
    requires sids { HaveSids (contents script.now).setup.clients }
    ensures setup { IfOk result (λ machine. machine.setup ≡ (contents script.now).setup) }
    ensures entries { IfOk result (λ machine. machine.entries ≡ []) }
{
    let table = script.table().copy(alloc)?;
    let clients = script.clients().copy(alloc)?;
    VolumeMachine::new(alloc, Setup { table, clients })
}

// Makes all calls of a script on this machine, and writes the text of the history.
fn run_on<K: Sink>(
    alloc: Global,
    machine: &mut VolumeMachine,
    script: &Script,
    order: &mut Order,
    sink: &mut K,
) -> Result<(), TextFault>
    requires stands { Progress (contents script.now) machine.old order.old }
    requires none { machine.old.entries ≡ [] }
    ensures ok { OnOk result (WritesText (contents script.now) (K.written sink.old) (K.written sink.new)) }
    ensures part { OnErr result (WritesPart (contents script.now) (K.written sink.old) (K.written sink.new)) }
    ensures faults { TellsFaults (K.faults sink.old) (K.faults sink.new) (K.written sink.new).since_fault result }
{
    let mut buffer = TextBuffer::new(alloc);
    run_calls(alloc, machine, script, order, &mut buffer, sink)?;
    buffer.finish(sink, machine.len() as u32)
}

/// Runs a script: makes all its calls on a new machine, and writes the text of the history.
/// `Failed` where the sink failed, `NoMemory` where there was no memory; a part of the text of a
/// history that has all calls is written then, or nothing.
pub fn run_script<K: Sink>(alloc: Global, script: &Script, sink: &mut K) -> Result<(), TextFault>
    requires is_read { IsReadScript (contents script.now) }
    requires within { IsWithinLimits (contents script.now) }
    requires sids { HaveSids (contents script.now).setup.clients }
    ensures ok { OnOk result (WritesText (contents script.now) (K.written sink.old) (K.written sink.new)) }
    ensures part { IsErrOf result TextFault.Failed → WritesPart (contents script.now) (K.written sink.old) (K.written sink.new) }
    ensures memory { IsErrOf result TextFault.NoMemory → (sink.new ≡ sink.old) ⊎ WritesPart (contents script.now) (K.written sink.old) (K.written sink.new) }
    ensures faults { TellsFaults (K.faults sink.old) (K.faults sink.new) (K.written sink.new).since_fault result }
{
    let mut order = Order::new(alloc, script)?;
    let mut machine = begin(alloc, script)?;
    run_on(alloc, &mut machine, script, &mut order, sink)
}
