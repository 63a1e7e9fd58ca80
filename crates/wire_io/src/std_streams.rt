//! Standard input as a source, and standard output as a sink.
ghost use Rattle.std.specs.Prelude.{◌≡◌, ◌+◌, ◌≤◌, ◌<◌, None, length, IfOk, IfSome, OnOk, OnErr, if◌then◌else◌};
ghost use Rattle.wire_io.specs.Faults.{one_more, HasCause};
ghost use Rattle.wire_io.specs.Sink.{CountsPut, Puts};
ghost use Rattle.wire_io.specs.Source.{CountsTake, Takes};
ghost use Rattle.wire_io.specs.MemorySource.{met_end};
ghost use Rattle.wire_io.specs.StdSink as std_sink;
ghost use Rattle.wire_io.specs.StdSource.{fresh_input, after_take, after_fault};

use super::faults::{Failed, one_more};
use super::sinks::Sink;
use super::sources::Source;
use std::io::{Read, Write};
use std::marker::Model;

/// Standard input as a source. It tells no content, and contracts see its counts of takes and of
/// faults alone, each of which stands still at 2^64 - 1.
#[derive(Drop)]
pub struct StdSource<I: Read> {
    input: I,
    takes: u64,
    faults: u64,
    given: u64,
    stops: u64,
    since: u64,
}

impl<I: Read> Model for StdSource<I> {
    ghost use Rattle.wire_io.specs.StdSource.{InputState};

    ghost Value = { InputState };

    ghost view = { λ s. record { takes = s.takes; faults = s.faults; given = s.given; stops = s.stops; since = s.since } };
}

impl<I: Read> StdSource<I> {
    /// A source over a reader, as `StdSource::new(rt.reader())`.
    pub fn new(input: I) -> StdSource<I>
        ensures { result ≡ fresh_input }
    {
        StdSource {
            input,
            takes: 0,
            faults: 0,
            given: 0,
            stops: 0,
            since: 0,
        }
    }

    /// Counts whether a call that gave `count` bytes into a buffer of this length met the end.
    fn count_take(&mut self, count: usize, buffer: usize)
        ensures { self.new ≡ record self.old { stops = if met_end count buffer then one_more self.old.stops else self.old.stops; since = if met_end count buffer then 0 else one_more self.old.since } }
    {
        if count == 0 && buffer > 0 {
            self.stops = one_more(self.stops);
            self.since = 0;
        } else {
            self.since = one_more(self.since);
        }
    }
}

impl<I: Read> Source for StdSource<I> {
    ghost use Rattle.std.specs.Prelude.{None};

    ghost left = { λ _. None };

    ghost faults = { λ s. s.faults };

    ghost takes = { λ s. s.takes };

    ghost taken = { λ s. record { given = s.given; stops = s.stops; since = s.since } };

    /// Reads once, into the caller's own buffer.
    fn take(&mut self, buf: &mut [u8]) -> Result<usize, Failed>
        ensures bound { IfOk result (λ n. n ≤ length buf.new) }
        ensures bytes { Takes None None result buf.new }
        ensures cause { HasCause self.old.faults self.new.faults result }
        ensures counted { self.new.takes ≤ self.old.takes + 1 }
        ensures taken { CountsTake (record { given = self.old.given; stops = self.old.stops; since = self.old.since }) (record { given = self.new.given; stops = self.new.stops; since = self.new.since }) result (length buf.new) }
        ensures ok { IfOk result (λ n. self.new ≡ after_take self.old n (length buf.new)) }
        ensures err { OnErr result (self.new ≡ after_fault self.old) }
    {
        self.takes = one_more(self.takes);
        let Ok(count) = self.input.read(buf) else {
            self.faults = one_more(self.faults);
            self.stops = one_more(self.stops);
            self.since = 0;
            return Err(Failed);
        };
        self.given = self.given.saturating_add(count as u64);
        self.count_take(count, buf.len());
        Ok(count)
    }
}

/// Standard output as a sink. It tells no content, and contracts see its counts of puts and of
/// faults alone, each of which stands still at 2^64 - 1.
#[derive(Drop)]
pub struct StdSink<O: Write> {
    output: O,
    puts: u64,
    faults: u64,
    empty_puts: u64,
    since_fault: u64,
}

impl<O: Write> Model for StdSink<O> {
    ghost use Rattle.wire_io.specs.StdSink.{OutputState};

    ghost Value = { OutputState };

    ghost view = { λ s. record { puts = s.puts; faults = s.faults; empty_puts = s.empty_puts; since_fault = s.since_fault } };
}

impl<O: Write> StdSink<O> {
    /// A sink over a writer, as `StdSink::new(io::writer(&rt))`.
    pub fn new(output: O) -> StdSink<O>
        ensures { result ≡ std_sink.fresh_output }
    {
        StdSink {
            output,
            puts: 0,
            faults: 0,
            empty_puts: 0,
            since_fault: 0,
        }
    }
}

impl<O: Write> Sink for StdSink<O> {
    ghost use Rattle.std.specs.Prelude.{None};

    ghost written = { λ s. record { bytes = None; puts = s.puts; empty_puts = s.empty_puts; since_fault = s.since_fault } };

    ghost faults = { λ s. s.faults };

    /// Writes once and flushes. A flush that fails, and a write that takes nothing of a piece that
    /// isn't empty, are faults.
    fn put(&mut self, bytes: &[u8]) -> Result<usize, Failed>
        ensures bound { IfOk result (λ n. n ≤ length bytes.now) }
        ensures moves { IfOk result (λ n. 0 < length bytes.now → 0 < n) }
        ensures bytes { Puts None None result bytes.now }
        ensures counted { CountsPut (record { bytes = None; puts = self.old.puts; empty_puts = self.old.empty_puts; since_fault = self.old.since_fault }) (record { bytes = None; puts = self.new.puts; empty_puts = self.new.empty_puts; since_fault = self.new.since_fault }) result bytes.now }
        ensures cause { HasCause self.old.faults self.new.faults result }
        ensures ok { OnOk result (self.new ≡ std_sink.after_put self.old (length bytes.now)) }
        ensures err { OnErr result (self.new ≡ std_sink.after_fault self.old (length bytes.now)) }
    {
        self.puts = one_more(self.puts);
        if bytes.is_empty() {
            self.empty_puts = one_more(self.empty_puts);
        }
        match hand_on(&mut self.output, bytes) {
            Some(count) => {
                self.since_fault = one_more(self.since_fault);
                Ok(count)
            }
            None => {
                self.faults = one_more(self.faults);
                self.since_fault = 0;
                Err(Failed)
            }
        }
    }
}

/// Writes once and flushes, and answers how many bytes went; None where that failed.
fn hand_on<O: Write>(output: &mut O, bytes: &[u8]) -> Option<usize>
    ensures bound { IfSome result (λ n. n ≤ length bytes.now) }
    ensures moves { IfSome result (λ n. 0 < length bytes.now → 0 < n) }
{
    let count = output.write(bytes).ok()?;
    if count == 0 && !bytes.is_empty() {
        return None;
    }
    output.flush().ok()?;
    Some(count)
}
