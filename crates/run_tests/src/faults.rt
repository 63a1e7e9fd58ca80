//! Scripts in which requests wait and go on, and what comes first where a source or a sink fails.

use crate::failing_io::over_memory;
use crate::program::{on_one_thread, repeated, run, words_of};
use std::alloc::Global;
use std::test::Fail;
use wire_io::{MemorySink, MemorySource};

/// A rename waits for a break, and goes on where the holder closes; a watch is told both names.
pub const RENAME: &str =
    "fsa 1\nclient a 7\nclient b 9\na 1 create =\\d 0x10001 0x7 create 0x1 0x0 0\n\
    b 1 create =\\d\\f 0x1 0x7 create 0x0 0x0 0\nb 2 oplock 1 rh\n\
    a 2 create =\\ 0x1 0x7 open 0x1 0x0 0\na 3 notify 2 0x2 tree 100\n\
    a 4 rename 1 =\\e keep\nb 3 close 1\n";

/// The text of `RENAME`.
pub const RENAME_TEXT: &str =
    "> a 1 create\na 1 SUCCESS created\n> b 1 create\nb 1 SUCCESS created\n> b 2 oplock\n\
    b 2 PENDING granted rh\n> a 2 create\na 2 SUCCESS opened\n> a 3 notify\n\
    a 3 PENDING watch\n> a 4 rename\na 4 PENDING held\nb 2 SUCCESS broken r ack\n\
    > b 3 close\nb 3 SUCCESS\na 4 SUCCESS\n\
    a 3 SUCCESS x100000000400000002000000640000000000000005000000020000006500 RENAMED_OLD_NAME=d RENAMED_NEW_NAME=e\n\
    > a 5 leave\na 5 SUCCESS\n> b 4 leave\nb 4 SUCCESS\nend 9\n";

/// A write waits for a break that a clashing open began; both go on where the holder answers.
pub const WRITE: &str =
    "fsa 1\nclient a 7\nclient b 9\nclient c 8\na 1 create =\\w 0x1 0x3 create 0x0 0x0 0\n\
    b 1 create =\\w 0x2 0x7 open 0x0 0x0 0\na 2 oplock 1 rh\n\
    c 1 create =\\w 0x10000 0x7 open 0x0 0x0 0\nb 2 write 1 0 x41\na 3 ack 1 r\n";

/// The text of `WRITE`.
pub const WRITE_TEXT: &str =
    "> a 1 create\na 1 SUCCESS created\n> b 1 create\nb 1 SUCCESS opened\n> a 2 oplock\n\
    a 2 PENDING granted rh\n> c 1 create\nc 1 PENDING held\na 2 SUCCESS broken r ack\n\
    > b 2 write\nb 2 PENDING held\n> a 3 ack\na 3 SUCCESS none\nc 1 SHARING_VIOLATION\n\
    b 2 SUCCESS 1\n> a 4 leave\na 4 SUCCESS\n> b 3 leave\nb 3 SUCCESS\n> c 2 leave\n\
    c 2 SUCCESS\nend 9\n";

// A file of 16,384 zeros: 8,000 of them are read five times, whose answers make a block, and then all.
const ZEROS: &str =
    "fsa 1\nclient a 7\na 1 create =\\z 0x3 0x7 create 0x0 0x0 0\na 2 setend 1 16384\n\
    a 3 read 1 0 8000\na 4 read 1 0 8000\na 5 read 1 0 8000\na 6 read 1 0 8000\n\
    a 7 read 1 0 8000\na 8 read 1 0 16384\n";

// The status, and what is written, where this call of the sink fails.
fn zeros(alloc: Global, failing: u64) -> Result<(u8, Vec<u8>), Fail> {
    let mut source = MemorySource::new(alloc, ZEROS.as_bytes(), 65536, &[])?;
    let mut sink = MemorySink::new(alloc, 200_000, 200_000, &[failing])?;
    let status = run(alloc, &mut source, &mut sink)?;
    Ok((status, Vec::from_slice(alloc, sink.bytes())?))
}

// Two pieces are put: the first five answers, which make a block, and the answer of 16,384 bytes with what follows it.
#[test]
fn a_text_of_several_blocks_is_put_in_order(rt: HostRuntime) -> Result<(), Fail> {
    let alloc = rt.alloc();
    let (status, whole) = zeros(alloc, 0)?;
    assert_eq!(rt; status, 0);
    assert!(rt; whole.ends_with(b"\nend 9\n"));
    let mut least = 0;
    for call in 1..=2 {
        let (status, bytes) = zeros(alloc, call)?;
        assert_eq!(rt; status, 4, "{call}");
        assert!(rt; whole.starts_with(&bytes), "{call}");
        assert!(rt; (bytes.len() == 0) == (call == 1), "{call}");
        assert!(rt; call == 1 || bytes.len() > least.max(65_535), "{call}");
        least = bytes.len();
    }
    let (status, bytes) = zeros(alloc, 3)?;
    assert_eq!(rt; status, 0);
    assert_eq!(rt; bytes.as_slice(), whole.as_slice());
    Ok(())
}

// Where both fail, the source counts: what is wrong with a script, or how much of it there is, is known only
// where it was read to its end.
#[test]
fn a_source_that_fails_comes_before_all_else(rt: HostRuntime) -> Result<(), Fail> {
    let alloc = rt.alloc();
    for (text, times) in [("fsa 2\n", 1), ("\n", 40_001), ("client \n", 65), ("", 0)] {
        let script = repeated(alloc, text, times, "")?;
        for failing_put in [0, 1] {
            let (status, bytes) = over_memory(alloc, &script, 65536, &[1], &[failing_put])?;
            assert_eq!(rt; status, 3, "{text} {times}");
            assert_eq!(rt; bytes.len(), 0, "{text} {times}");
        }
    }
    Ok(())
}

// A generated script reads nothing, so that a source that would fail changes nothing; and it writes its
// summary alone.
#[test]
fn a_generated_script_meets_no_source(rt: HostRuntime) -> Result<(), Fail> {
    let alloc = rt.alloc();
    let words = words_of(alloc, "gen 0")?;
    for (failing_put, status, least) in [(0, 0, 17), (1, 4, 0), (2, 4, 16)] {
        let mut source = MemorySource::new(alloc, b"", 1, &[1])?;
        let mut sink = MemorySink::new(alloc, 4096, 16, &[failing_put])?;
        let found = on_one_thread(alloc, words.as_slice(), &mut source, &mut sink);
        assert_eq!(rt; found, status, "{failing_put}");
        assert!(rt; sink.bytes().len() >= least, "{failing_put}");
        assert!(rt;
            least == 0 || sink.bytes().starts_with(b"turns 4100\n"),
            "{failing_put}"
        );
    }
    Ok(())
}
