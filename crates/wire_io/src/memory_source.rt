//! A source over bytes in memory, whose chosen calls fail.
ghost use Rattle.std.specs.Prelude.{◌≡◌, ◌≢◌, ◌+◌, ◌≤◌, ◌↔◌, [], length, IfOk, OnOk, OnErr, IsErr, IsTrue, if◌then◌else◌};
ghost use Rattle.wire_io.specs.Faults.{HasCause, one_more};
ghost use Rattle.wire_io.specs.Source.{Takes, CountsTake};
ghost use Rattle.wire_io.specs.MemorySource.{fresh_source, met_end, take_fails_next, count_given, after_take, after_fault};

use super::faults::{Failed, one_more};
use super::sources::Source;
use fsa_types::NoMemory;
use std::alloc::Global;
use std::marker::Model;

/// Bytes in memory that are given in pieces. Its calls are counted from 1, and those whose number
/// is in the list of failing calls fail and give nothing.
pub struct MemorySource {
    bytes: Vec<u8>,
    place: usize,
    piece: usize,
    failing: Vec<u64>,
    calls: u64,
    faults: u64,
    stops: u64,
    since: u64,
}

// One drop of the whole, so that it is one step at each end of a function that holds one.
impl Drop for MemorySource {
    fn drop(self) {
        let MemorySource {
            bytes: _,
            place: _,
            piece: _,
            failing: _,
            calls: _,
            faults: _,
            stops: _,
            since: _,
        } = self;
    }
}

impl Model for MemorySource {
    ghost use Rattle.std.specs.Prelude.{◌<◌, ◌≤◌, length, drop};
    ghost use Rattle.wire_io.specs.MemorySource.{SourceState};

    ghost Value = { SourceState };

    ghost view = { λ s. record { left = drop s.place s.bytes.items; piece = s.piece; failing = s.failing.items; calls = s.calls; faults = s.faults; given = s.place; stops = s.stops; since = s.since } };

    ghost invariant = { λ s. (s.place ≤ length s.bytes.items) × (0 < s.piece) };
}

impl MemorySource {
    /// A source of these bytes that gives at most `piece` of them a call.
    pub fn new(
        alloc: Global,
        bytes: &[u8],
        piece: usize,
        failing: &[u64],
    ) -> Result<MemorySource, NoMemory>
        requires { piece ≢ 0 }
        ensures { IfOk result (λ source. source ≡ fresh_source bytes.now piece failing.now) }
    {
        let bytes = Vec::from_slice(alloc, bytes)?;
        let failing = Vec::from_slice(alloc, failing)?;
        Ok(MemorySource {
            bytes,
            place: 0,
            piece,
            failing,
            calls: 0,
            faults: 0,
            stops: 0,
            since: 0,
        })
    }

    /// Counts whether a call that gave `count` bytes into a buffer of this length met the end.
    fn count_take(&mut self, count: usize, buffer: usize)
        ensures { self.new ≡ record self.old { stops = if met_end count buffer then one_more self.old.stops else self.old.stops; since = if met_end count buffer then 0 else one_more self.old.since } }
    {
        if count == 0 && buffer > 0 {
            self.stops = one_more(self.stops);
            self.since = 0;
        } else {
            self.since = one_more(self.since);
        }
    }
}

impl Source for MemorySource {
    ghost use Rattle.std.specs.Prelude.{Some};

    ghost left = { λ s. Some s.left };

    ghost faults = { λ s. s.faults };

    ghost takes = { λ s. s.calls };

    ghost taken = { λ s. record { given = s.given; stops = s.stops; since = s.since } };

    fn take(&mut self, buf: &mut [u8]) -> Result<usize, Failed>
        ensures bound { IfOk result (λ n. n ≤ length buf.new) }
        ensures bytes { Takes (Some self.old.left) (Some self.new.left) result buf.new }
        ensures cause { HasCause self.old.faults self.new.faults result }
        ensures counted { self.new.calls ≤ self.old.calls + 1 }
        ensures taken { CountsTake (record { given = self.old.given; stops = self.old.stops; since = self.old.since }) (record { given = self.new.given; stops = self.new.stops; since = self.new.since }) result (length buf.new) }

        // It fails exactly where its call is listed, and else gives all that the piece, the
        // buffer and the rest allow.
        ensures fails { IsErr result ↔ IsTrue (take_fails_next self.old) }
        ensures count { IfOk result (λ n. n ≡ count_given self.old (length buf.new)) }
        ensures ok { IfOk result (λ n. self.new ≡ after_take self.old n (length buf.new)) }
        ensures err { OnErr result (self.new ≡ after_fault self.old) }

        // With no failing call the count never rises.
        ensures never { self.old.failing ≡ [] → self.new.faults ≡ self.old.faults }
    {
        self.calls = one_more(self.calls);
        if self.failing.contains(&self.calls) {
            self.faults = one_more(self.faults);
            self.stops = one_more(self.stops);
            self.since = 0;
            return Err(Failed);
        }
        let count = buf.len().min(self.piece).min(self.bytes.len() - self.place);
        let end = self.place + count;
        buf[..count].copy_from_slice(&self.bytes[self.place..end]);
        self.place = end;
        self.count_take(count, buf.len());
        Ok(count)
    }
}
