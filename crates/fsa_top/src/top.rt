//! The top calls.

ghost use Rattle.std.specs.Prelude.{◌≡◌, ◌≢◌, ◌≤◌, ◌<◌, ◌+◌, ◌⊎◌, ◌↔◌, ℕ, List, Some, None, Ok, Err, IfOk, IfErr, OnOk, false, true, length};
ghost use Rattle.fsa_model.specs.Script.{script_of};
ghost use Rattle.script_read.specs.ScriptView.{contents};
ghost use Rattle.wire_io.specs.Faults.{FailsLast, StopsAtFault};
ghost use Rattle.wire_io.specs.Source.{HasReadAtMost, TakesLittle};
ghost use Rattle.fsa_top.specs.Limits.{limit_of, most_script_bytes};
ghost use Rattle.fsa_top.specs.Promised.{EndsRun, Promised, PromisedSummary};
ghost use Rattle.fsa_top.specs.Runs.{FoundBad, FoundLimit, IsOfBytes, NamesFault, NamesLimit, Ran, ReadsScript, WritesBegun, WritesPart, WritesText, WritesWhole, WritesWholePart};
ghost use Rattle.fsa_top.specs.Words.{is_race, is_run, seed_of};

use crate::generated_run::run_generated;
use crate::limits::{Limit, MOST_SCRIPT_BYTES, limit_of};
use crate::lines::{is_race, is_run, say_bad, say_limit, say_usage};
use crate::race_text::race_script;
use crate::run::run_script;
use crate::seed::seed_of;
use script_read::{ReadFault, Script, read_script};
use std::alloc::Global;
use std::rt::Clock;
use std::sync::Wait;
use std::thread::Threads;
use text_out::TextFault;
use wire_io::{Gate, Sink, Source, read_all};

// The script that these bytes are, where they pass no limit; else the status, whose line is written.
fn read_within<K: Sink>(alloc: Global, bytes: &[u8], sink: &mut K) -> Result<Script, u8>
    requires within { limit_of bytes.now ≡ None }
    ensures script { IfOk result (λ script. (script_of bytes.now ≡ Ok (contents script)) × (sink.new ≡ sink.old)) }
    ensures bad { IfErr result (λ status. status ≡ 2 → NamesFault bytes.now (K.written sink.old) (K.written sink.new) (K.faults sink.old) (K.faults sink.new)) }
    ensures memory { IfErr result (λ status. status ≡ 5 → sink.new ≡ sink.old) }
    ensures known { IfErr result (λ status. (status ≡ 2) ⊎ (status ≡ 5)) }
    ensures stops { StopsAtFault (K.faults sink.old) (K.faults sink.new) (K.written sink.new).since_fault }
    ensures later { K.faults sink.old ≤ K.faults sink.new }
{
    match read_script(alloc, bytes) {
        Ok(script) => Ok(script),
        Err(ReadFault::Bad(fault)) => {
            say_bad(sink, fault.line);
            Err(2)
        }
        Err(ReadFault::NoMemory) => Err(5),
    }
}

// The script that these bytes are; else the status, whose line is written.
fn read_bytes<K: Sink>(alloc: Global, bytes: &[u8], sink: &mut K) -> Result<Script, u8>
    requires few { length bytes.now ≤ most_script_bytes }
    ensures script { IfOk result (λ script. (limit_of bytes.now ≡ None) × (script_of bytes.now ≡ Ok (contents script)) × (sink.new ≡ sink.old)) }
    ensures bad { IfErr result (λ status. status ≡ 2 → (limit_of bytes.now ≡ None) × NamesFault bytes.now (K.written sink.old) (K.written sink.new) (K.faults sink.old) (K.faults sink.new)) }
    ensures memory { IfErr result (λ status. status ≡ 5 → sink.new ≡ sink.old) }
    ensures limit { IfErr result (λ status. status ≡ 6 → NamesLimit bytes.now (K.written sink.old) (K.written sink.new) (K.faults sink.old) (K.faults sink.new)) }
    ensures known { IfErr result (λ status. (status ≡ 2) ⊎ ((status ≡ 5) ⊎ (status ≡ 6))) }
    ensures stops { StopsAtFault (K.faults sink.old) (K.faults sink.new) (K.written sink.new).since_fault }
    ensures later { K.faults sink.old ≤ K.faults sink.new }
{
    match limit_of(bytes) {
        Some(limit) => {
            say_limit(sink, limit);
            Err(6)
        }
        None => read_within(alloc, bytes, sink),
    }
}

// Reads a script whole; else gives the status, whose line is written.
fn read_source<S: Source, K: Sink>(
    alloc: Global,
    source: &mut S,
    sink: &mut K,
) -> Result<Script, u8>
    ensures script { IfOk result (λ script. ReadsScript (S.left source.old) (S.left source.new) (contents script) × (sink.new ≡ sink.old)) }
    ensures bad { IfErr result (λ status. status ≡ 2 → FoundBad (S.left source.old) (S.left source.new) (K.written sink.old) (K.written sink.new) (K.faults sink.old) (K.faults sink.new)) }
    ensures read { IfErr result (λ status. status ≡ 3 → FailsLast (S.faults source.old) (S.faults source.new) (S.taken source.new).since × (sink.new ≡ sink.old)) }
    ensures memory { IfErr result (λ status. status ≡ 5 → (sink.new ≡ sink.old) × (S.faults source.new ≡ S.faults source.old)) }
    ensures limit { IfErr result (λ status. status ≡ 6 → FoundLimit (S.left source.old) (K.written sink.old) (K.written sink.new) (K.faults sink.old) (K.faults sink.new)) }
    ensures known { IfErr result (λ status. (status ≡ 2) ⊎ ((status ≡ 3) ⊎ ((status ≡ 5) ⊎ (status ≡ 6)))) }
    ensures unfailed { OnOk result (S.faults source.new ≡ S.faults source.old) }
    ensures turns { S.takes source.new ≤ S.takes source.old + (most_script_bytes + 1) }
    ensures bytes { HasReadAtMost (most_script_bytes + 1) (S.left source.old) (S.left source.new) }
    ensures little { TakesLittle (most_script_bytes + 1) (S.taken source.old) (S.taken source.new) }
    ensures ended { OnOk result ((S.taken source.new).since ≡ 0) }
    ensures ended_bad { IfErr result (λ status. status ≡ 2 → (S.taken source.new).since ≡ 0) }
    ensures stops { StopsAtFault (K.faults sink.old) (K.faults sink.new) (K.written sink.new).since_fault }
    ensures later { (S.faults source.old ≤ S.faults source.new) × (K.faults sink.old ≤ K.faults sink.new) }
{
    match read_all(alloc, source, MOST_SCRIPT_BYTES) {
        Ok(bytes) => read_bytes(alloc, &bytes, sink),
        Err(wire_io::InputFault::Failed) => Err(3),
        Err(wire_io::InputFault::TooMany) => {
            say_limit(sink, Limit::Bytes);
            Err(6)
        }
        Err(wire_io::InputFault::NoMemory) => Err(5),
    }
}

// Runs a script: 0, or 4 or 5 where the sink failed or there was no memory.
fn run_read<K: Sink>(alloc: Global, script: &Script, sink: &mut K) -> u8
    requires read { IsOfBytes (contents script.now) }
    ensures ends { EndsRun (record { written = K.written; faults = K.faults }) WritesText WritesPart (contents script.now) sink.old sink.new result }
{
    match run_script(alloc, script, sink) {
        Ok(()) => 0,
        Err(TextFault::Failed) => 4,
        Err(TextFault::NoMemory) => 5,
    }
}

// Runs the clients of a script side by side: 0, or 4 or 5 where the sink failed or there was no memory.
fn race_read<R: Threads + Wait + Clock + Sync, K: Sink, G: Gate + Sync>(
    rt: &R,
    alloc: Global,
    script: &Script,
    sink: &mut K,
    gate: &G,
) -> u8
    requires read { IsOfBytes (contents script.now) }
    requires gate { (client number : ℕ) → G.is_for gate.now client number }
    ensures ends { EndsRun (record { written = K.written; faults = K.faults }) WritesWhole WritesWholePart (contents script.now) sink.old sink.new result }
{
    match race_script(rt, alloc, script, sink, gate) {
        Ok(()) => 0,
        Err(TextFault::Failed) => 4,
        Err(TextFault::NoMemory) => 5,
    }
}

// Reads a script whole and runs it.
fn run_source<S: Source, K: Sink>(alloc: Global, source: &mut S, sink: &mut K) -> u8
    ensures promised { Promised (record { left = S.left; faults = S.faults; takes = S.takes; taken = S.taken }) (record { written = K.written; faults = K.faults }) true WritesText WritesPart source.old source.new sink.old sink.new result }
{
    match read_source(alloc, source, sink) {
        Ok(script) => run_read(alloc, &script, sink),
        Err(status) => status,
    }
}

// Reads a script whole and runs its clients side by side.
fn race_source<R: Threads + Wait + Clock + Sync, S: Source, K: Sink, G: Gate + Sync>(
    rt: &R,
    alloc: Global,
    source: &mut S,
    sink: &mut K,
    gate: &G,
) -> u8
    requires gate { (client number : ℕ) → G.is_for gate.now client number }
    ensures promised { Promised (record { left = S.left; faults = S.faults; takes = S.takes; taken = S.taken }) (record { written = K.written; faults = K.faults }) true WritesWhole WritesWholePart source.old source.new sink.old sink.new result }
{
    match read_source(alloc, source, sink) {
        Ok(script) => race_read(rt, alloc, &script, sink, gate),
        Err(status) => status,
    }
}

/// The program on one thread. The words aren't the list `race`. They are the list `run`, or `gen N` with a
/// decimal number N below 2^64 that has no leading zero, and all else is usage: then the usage line is written and nothing is
/// read. It waits for nobody and returns for every source and sink.
///
/// It answers the program's status. For `gen N` that is 0, 4 or 5, and nothing is read: 0 where the
/// summary of a history that is scheduled for the generated script of N and has all its calls is
/// written; 4 where the sink failed at its last put, and a part of such a summary is written, and not
/// all of it; 5 where there was no memory, and nothing is written. For all other words:
///
/// - 0: the source was read to its end, its bytes are a script, and the text of a scheduled history that
///   has all its calls is written, which no other such history has.
/// - 1: the words are no list that the program takes.
/// - 2: the bytes are no script; the line that names the first faulty line is written.
/// - 3: the source failed at its last take; nothing is written.
/// - 4: the sink failed at its last put; a part of the text of a scheduled history that has all calls is
///   written, and not all of it.
/// - 5: there was no memory, and neither the source nor the sink failed; such a part, or nothing, is written.
/// - 6: the source has more than 16,777,216 bytes, more than 40,000 line feeds, or more than 64 lines
///   that begin with `client `, a last one without its line feed among them; the line `limit bytes`,
///   `limit lines` or `limit clients` names the first of these.
///
/// The statuses are decided in the order 1, then 3 and 6 for bytes while reading, 6 for lines, 6 for
/// clients, 2, and 4 while writing. A status that is decided stands also where the sink fails while its
/// line is written.
///
/// The source is asked at most 16,777,217 times, for at most one byte above the limit, and not again once
/// it has failed or met its end. The sink is never given an empty piece, isn't asked again once it has
/// failed, and is asked at most once for each byte of the text.
pub fn fsa_single<S: Source, K: Sink>(
    alloc: Global,
    words: &[String],
    source: &mut S,
    sink: &mut K,
) -> u8
    requires words { is_race words.now ≡ false }
    ensures promised { seed_of words.now ≡ None → Promised (record { left = S.left; faults = S.faults; takes = S.takes; taken = S.taken }) (record { written = K.written; faults = K.faults }) (is_run words.now) WritesText WritesPart source.old source.new sink.old sink.new result }
    ensures generates { (seed : ℕ) → seed_of words.now ≡ Some seed → PromisedSummary (record { written = K.written; faults = K.faults }) seed source.old source.new sink.old sink.new result }
{
    if let Some(seed) = seed_of(words) {
        return run_generated(alloc, seed, sink);
    }
    if !is_run(words) {
        say_usage(sink);
        return 1;
    }
    run_source(alloc, source, sink)
}

/// The program, on threads where the words ask for them. It answers every list of words but `race` as
/// `fsa_single` does, and waits for nobody then.
///
/// With the one word `race` each client of the script has a thread of its own, and makes its calls in order, each
/// once, at one volume that they share; where no thread can be made, the calling thread drives that client's steps, in
/// rotation with others of the kind. After all have ended, the text of the volume's history is written. The statuses
/// are those of `run`, in the same order, but for the history: at 0 its text is written whole, at 4 and 5 a part of
/// it, or at 5 nothing. Where a call finds no memory, all clients stop and the status is 5: what is written then, be
/// it nothing, begins the text of a history in which each client has made the first of its calls. It may wait forever.
///
/// The gate is passed once before each call's first try. It has to be one for every call where the word is `race`.
pub fn fsa_main<R: Threads + Wait + Clock + Sync, S: Source, K: Sink, G: Gate + Sync>(
    rt: &R,
    alloc: Global,
    words: &[String],
    source: &mut S,
    sink: &mut K,
    gate: &G,
) -> u8
    requires gate { is_race words.now ≡ true → (client number : ℕ) → G.is_for gate.now client number }
    ensures promised { seed_of words.now ≡ None → is_race words.now ≡ false → Promised (record { left = S.left; faults = S.faults; takes = S.takes; taken = S.taken }) (record { written = K.written; faults = K.faults }) (is_run words.now) WritesText WritesPart source.old source.new sink.old sink.new result }
    ensures races { is_race words.now ≡ true → Promised (record { left = S.left; faults = S.faults; takes = S.takes; taken = S.taken }) (record { written = K.written; faults = K.faults }) true WritesWhole WritesWholePart source.old source.new sink.old sink.new result }
    ensures leaves_what_was_begun { is_race words.now ≡ true → result ≡ 5 → (sink.new ≡ sink.old) ⊎ Ran WritesBegun (S.left source.old) (S.left source.new) (K.written sink.old) (K.written sink.new) }
    ensures generates { (seed : ℕ) → seed_of words.now ≡ Some seed → PromisedSummary (record { written = K.written; faults = K.faults }) seed source.old source.new sink.old sink.new result }
{
    if is_race(words) {
        return race_source(rt, alloc, source, sink, gate);
    }
    fsa_single(alloc, words, source, sink)
}
