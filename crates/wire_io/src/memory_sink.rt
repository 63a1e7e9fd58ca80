//! A sink over bytes in memory, with room for so many of them, whose chosen calls fail.
ghost use Rattle.std.specs.Prelude.{◌≡◌, ◌≢◌, ◌+◌, ◌≤◌, ◌<◌, ◌↔◌, [], Some, length, IfOk, OnErr, IsErr, IsTrue};
ghost use Rattle.wire_io.specs.Faults.{HasCause};
ghost use Rattle.wire_io.specs.Sink.{CountsPut, Puts};
ghost use Rattle.wire_io.specs.MemorySink.{fresh_sink, put_fails_next, count_taken, empty_after, after_put, after_fault};

use super::faults::{Failed, one_more};
use super::sinks::Sink;
use fsa_types::NoMemory;
use std::alloc::Global;
use std::marker::Model;

/// Bytes in memory, with room for so many, that are taken in pieces. Its calls are counted from 1,
/// and those whose number is in the list of failing calls fail and write nothing. So does a put of
/// a piece that isn't empty where the room is full.
pub struct MemorySink {
    bytes: Vec<u8>,
    room: usize,
    piece: usize,
    failing: Vec<u64>,
    calls: u64,
    faults: u64,
    empty_puts: u64,
    since_fault: u64,
}

// One drop of the whole, so that it is one step at each end of a function that holds one.
impl Drop for MemorySink {
    fn drop(self) {
        let MemorySink {
            bytes: _,
            room: _,
            piece: _,
            failing: _,
            calls: _,
            faults: _,
            empty_puts: _,
            since_fault: _,
        } = self;
    }
}

impl Model for MemorySink {
    ghost use Rattle.std.specs.Prelude.{◌<◌, ◌≤◌, vec_len, vec_capacity};
    ghost use Rattle.wire_io.specs.MemorySink.{SinkState};

    ghost Value = { SinkState };

    ghost view = { λ s. record { written = s.bytes.items; room = s.room; piece = s.piece; failing = s.failing.items; calls = s.calls; faults = s.faults; empty_puts = s.empty_puts; since_fault = s.since_fault } };

    ghost invariant = { λ s. (vec_len s.bytes ≤ s.room) × (s.room ≤ vec_capacity s.bytes) × (0 < s.piece) };
}

impl MemorySink {
    /// An empty sink with room for `room` bytes that takes at most `piece` of them a call. It takes
    /// the memory for its room at once, so that no put takes any.
    pub fn new(
        alloc: Global,
        room: usize,
        piece: usize,
        failing: &[u64],
    ) -> Result<MemorySink, NoMemory>
        requires { piece ≢ 0 }
        ensures { IfOk result (λ sink. sink ≡ fresh_sink room piece failing.now) }
    {
        let bytes = Vec::with_capacity(alloc, room)?;
        let failing = Vec::from_slice(alloc, failing)?;
        Ok(MemorySink {
            bytes,
            room,
            piece,
            failing,
            calls: 0,
            faults: 0,
            empty_puts: 0,
            since_fault: 0,
        })
    }

    /// What is written.
    pub fn bytes(&self) -> &[u8]
        ensures { result.now ≡ self.now.written }
    {
        &self.bytes
    }

    /// Counts an empty piece.
    fn count_piece(&mut self, length: usize)
        ensures { self.new ≡ record self.old { empty_puts = empty_after self.old.empty_puts length } }
    {
        if length == 0 {
            self.empty_puts = one_more(self.empty_puts);
        }
    }

    /// Counts a call that fails, of a piece of this length.
    fn fault(&mut self, length: usize) -> Failed
        ensures { self.new ≡ after_fault self.old length }
    {
        self.count_piece(length);
        self.calls = one_more(self.calls);
        self.faults = one_more(self.faults);
        self.since_fault = 0;
        Failed
    }
}

impl Sink for MemorySink {
    ghost use Rattle.std.specs.Prelude.{Some};

    ghost written = { λ s. record { bytes = Some s.written; puts = s.calls; empty_puts = s.empty_puts; since_fault = s.since_fault } };

    ghost faults = { λ s. s.faults };

    fn put(&mut self, bytes: &[u8]) -> Result<usize, Failed>
        ensures bound { IfOk result (λ n. n ≤ length bytes.now) }
        ensures moves { IfOk result (λ n. 0 < length bytes.now → 0 < n) }
        ensures bytes { Puts (Some self.old.written) (Some self.new.written) result bytes.now }
        ensures counted { CountsPut (record { bytes = Some self.old.written; puts = self.old.calls; empty_puts = self.old.empty_puts; since_fault = self.old.since_fault }) (record { bytes = Some self.new.written; puts = self.new.calls; empty_puts = self.new.empty_puts; since_fault = self.new.since_fault }) result bytes.now }
        ensures cause { HasCause self.old.faults self.new.faults result }

        // It fails exactly where its call is listed or the room is full, and else takes all that
        // the piece, the bytes and the room allow.
        ensures fails { IsErr result ↔ IsTrue (put_fails_next self.old (length bytes.now)) }
        ensures count { IfOk result (λ n. n ≡ count_taken self.old (length bytes.now)) }
        ensures ok { IfOk result (λ n. self.new ≡ after_put self.old bytes.now n) }
        ensures err { OnErr result (self.new ≡ after_fault self.old (length bytes.now)) }

        // With no failing call the count never rises while all that is put fits the room.
        ensures never { self.old.failing ≡ [] → length self.old.written + length bytes.now ≤ self.old.room
            → self.new.faults ≡ self.old.faults }
    {
        let number = one_more(self.calls);
        if self.failing.contains(&number) {
            return Err(self.fault(bytes.len()));
        }
        let left = self.room - self.bytes.len();
        if !bytes.is_empty() && left == 0 {
            return Err(self.fault(bytes.len()));
        }
        let count = bytes.len().min(self.piece).min(left);
        let Ok(()) = self.bytes.extend_from_slice(&bytes[..count]) else {
            unreachable!()
        };
        self.count_piece(bytes.len());
        self.calls = number;
        self.since_fault = one_more(self.since_fault);
        Ok(count)
    }
}
