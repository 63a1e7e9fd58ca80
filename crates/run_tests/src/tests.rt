//! Whole scripts, each with its status and its text.

use crate::program::run;
use std::test::Fail;
use wire_io::{MemorySink, MemorySource};

/// A file is created, written, read and closed.
pub const FIRST: &str = "fsa 1\nclient a 7\na 1 create =\\A.txt 0x3 0x0 create 0x0 0x0 0\n\
    a 2 write 1 0 x68656c6c6f\na 3 read 1 0 5\na 4 close 1\n";

/// The text of `FIRST`.
pub const FIRST_TEXT: &str = "> a 1 create\na 1 SUCCESS created\n> a 2 write\na 2 SUCCESS 5\n\
    > a 3 read\na 3 SUCCESS x68656c6c6f\n> a 4 close\na 4 SUCCESS\n> a 5 leave\na 5 SUCCESS\nend 5\n";

// Scripts, each with its status and what is written.
const RUNS: [(&str, u8, &str); 3] = [
    (FIRST, 0, FIRST_TEXT),
    ("fsa 1\nclient a 7\na 1 create =\\A 0x", 2, "bad line 3\n"),
    ("", 2, "bad line 1\n"),
];

// Scripts are read and texts are written in pieces of 1, 32 and 65,536 bytes. With ample memory the run succeeds: no
// clause can say that, and a program that always answers 5 is caught here.
#[test]
fn scripts_in_pieces_give_their_texts(rt: HostRuntime) -> Result<(), Fail> {
    for (script, status, text) in RUNS {
        for piece in [1, 32, 65536] {
            let mut source = MemorySource::new(rt.alloc(), script.as_bytes(), piece, &[])?;
            let mut sink = MemorySink::new(rt.alloc(), 4096, piece, &[])?;
            let found = run(rt.alloc(), &mut source, &mut sink)?;
            assert_eq!(rt; found, status, "{script}");
            assert_eq!(rt; sink.bytes(), text.as_bytes(), "{script}");
        }
    }
    Ok(())
}
