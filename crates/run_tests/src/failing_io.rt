//! What a run answers where its source or its sink fails, at each call in turn.

use crate::faults::{RENAME, RENAME_TEXT, WRITE, WRITE_TEXT};
use crate::program::{repeated, run};
use crate::tests::{FIRST, FIRST_TEXT};
use std::alloc::Global;
use std::io;
use std::io::{Error, Write};
use std::test::Fail;
use wire_io::{MemorySink, MemorySource, StdSink};

// What goes wrong at one call.
#[derive(Clone, Copy)]
enum Trouble {
    // A call of the source fails.
    Take,
    // A call of the sink fails.
    Put,
    // A call of the sink takes nothing of its piece.
    Nothing,
}

// Cases: what a script repeats and how often; the trouble; how many bytes a call moves at most; how
// many calls there are, each of which meets the trouble in turn; the status then, and the status
// and the text where the trouble comes after them. The last call of the source meets its end. Each text is shorter than
// a block, so it is put in as few calls as its bytes need; `bad line 1` is put in three parts.
//
// The script of one client has 114 bytes, and its text 148.
const CASES: [(&str, usize, Trouble, usize, u32, u8, u8, &str); 24] = [
    (FIRST, 1, Trouble::Take, 1, 115, 3, 0, FIRST_TEXT),
    (FIRST, 1, Trouble::Take, 32, 5, 3, 0, FIRST_TEXT),
    (FIRST, 1, Trouble::Take, 65536, 2, 3, 0, FIRST_TEXT),
    (FIRST, 1, Trouble::Put, 1, 148, 4, 0, FIRST_TEXT),
    (FIRST, 1, Trouble::Put, 65536, 1, 4, 0, FIRST_TEXT),
    (FIRST, 1, Trouble::Nothing, 1, 148, 4, 0, FIRST_TEXT),
    (FIRST, 1, Trouble::Nothing, 65536, 1, 4, 0, FIRST_TEXT),
    (RENAME, 1, Trouble::Take, 32, 9, 3, 0, RENAME_TEXT),
    (RENAME, 1, Trouble::Take, 65536, 2, 3, 0, RENAME_TEXT),
    (RENAME, 1, Trouble::Put, 32, 14, 4, 0, RENAME_TEXT),
    (RENAME, 1, Trouble::Put, 65536, 1, 4, 0, RENAME_TEXT),
    (RENAME, 1, Trouble::Nothing, 32, 14, 4, 0, RENAME_TEXT),
    (RENAME, 1, Trouble::Nothing, 65536, 1, 4, 0, RENAME_TEXT),
    (WRITE, 1, Trouble::Take, 32, 8, 3, 0, WRITE_TEXT),
    (WRITE, 1, Trouble::Take, 65536, 2, 3, 0, WRITE_TEXT),
    (WRITE, 1, Trouble::Put, 32, 11, 4, 0, WRITE_TEXT),
    (WRITE, 1, Trouble::Put, 65536, 1, 4, 0, WRITE_TEXT),
    (WRITE, 1, Trouble::Nothing, 32, 11, 4, 0, WRITE_TEXT),
    (WRITE, 1, Trouble::Nothing, 65536, 1, 4, 0, WRITE_TEXT),
    ("fsa 2\n", 1, Trouble::Put, 65536, 3, 2, 2, "bad line 1\n"),
    ("fsa 2\n", 1, Trouble::Nothing, 1, 11, 2, 2, "bad line 1\n"),
    (
        "client \n",
        65,
        Trouble::Put,
        65536,
        1,
        6,
        6,
        "limit clients\n",
    ),
    ("\n", 40_001, Trouble::Put, 65536, 1, 6, 6, "limit lines\n"),
    (
        "x",
        16_777_217,
        Trouble::Put,
        65536,
        1,
        6,
        6,
        "limit bytes\n",
    ),
];

// A writer whose call with this number takes nothing.
#[derive(Drop)]
struct Reluctant {
    bytes: Vec<u8>,
    piece: usize,
    empty_call: u64,
    calls: u64,
}

impl Write for Reluctant {
    fn write(&mut self, buf: &[u8]) -> io::Result<usize> {
        self.calls = self.calls.saturating_add(1);
        if self.calls == self.empty_call {
            return Ok(0);
        }
        let count = buf.len().min(self.piece);
        let Ok(()) = self.bytes.extend_from_slice(&buf[..count]) else {
            return Err(Error::other("no memory"));
        };
        Ok(count)
    }

    fn flush(&mut self) -> io::Result<()> {
        Ok(())
    }
}

/// The status, and what is written, over memory, where these calls of the source and of the sink fail.
pub fn over_memory(
    alloc: Global,
    script: &[u8],
    piece: usize,
    failing_takes: &[u64],
    failing_puts: &[u64],
) -> Result<(u8, Vec<u8>), Fail> {
    let mut source = MemorySource::new(alloc, script, piece.max(1), failing_takes)?;
    let mut sink = MemorySink::new(alloc, 4096, piece.max(1), failing_puts)?;
    let status = run(alloc, &mut source, &mut sink)?;
    Ok((status, Vec::from_slice(alloc, sink.bytes())?))
}

// The same, where the sink's call with this number takes nothing.
fn over_reluctant(
    alloc: Global,
    script: &[u8],
    piece: usize,
    empty_call: u64,
) -> Result<(u8, Vec<u8>), Fail> {
    let mut source = MemorySource::new(alloc, script, piece.max(1), &[])?;
    let mut writer = Reluctant {
        bytes: Vec::new(alloc),
        piece,
        empty_call,
        calls: 0,
    };
    let status = {
        let mut sink = StdSink::new(&mut writer);
        run(alloc, &mut source, &mut sink)?
    };
    Ok((status, writer.bytes))
}

// The status, and what is written, where the trouble comes at this call.
fn outcome(
    alloc: Global,
    script: &[u8],
    trouble: Trouble,
    piece: usize,
    call: u64,
) -> Result<(u8, Vec<u8>), Fail> {
    match trouble {
        Trouble::Take => over_memory(alloc, script, piece, &[call], &[]),
        Trouble::Put => over_memory(alloc, script, piece, &[], &[call]),
        Trouble::Nothing => over_reluctant(alloc, script, piece, call),
    }
}

// Whether so many bytes may be written where the trouble comes at this call: none where it is the source's; where a
// call moves 32 bytes at most, just those of the sink's calls before it; else none at the first call, and any number
// later.
fn is_written(trouble: Trouble, piece: usize, call: u64, count: usize) -> bool {
    match trouble {
        Trouble::Take => count == 0,
        _ => {
            if piece <= 32 {
                count as u64 == (piece as u64).saturating_mul(call.saturating_sub(1))
            } else {
                call > 1 || count == 0
            }
        }
    }
}

#[test]
fn each_call_that_fails_has_its_status(rt: HostRuntime) -> Result<(), Fail> {
    let alloc = rt.alloc();
    for (text, times, trouble, piece, calls, troubled, untroubled, written) in CASES {
        let script = repeated(alloc, text, times, "")?;
        for call in 1..=u64::from(calls) {
            let (status, bytes) = outcome(alloc, &script, trouble, piece, call)?;
            assert_eq!(rt; status, troubled, "{text} {piece} {call}");
            assert!(rt;
                written.as_bytes().starts_with(&bytes),
                "{text} {piece} {call}"
            );
            assert!(rt; bytes.len() < written.len(), "{text} {piece} {call}");
            assert!(rt;
                is_written(trouble, piece, call, bytes.len()),
                "{text} {piece} {call}"
            );
        }
        let (status, bytes) = outcome(alloc, &script, trouble, piece, u64::from(calls) + 1)?;
        assert_eq!(rt; status, untroubled, "{text} {piece}");
        assert_eq!(rt; bytes.as_slice(), written.as_bytes(), "{text} {piece}");
    }
    Ok(())
}
