//! The lines that stand in place of a text, and the words that the program takes.

ghost use Rattle.std.specs.Prelude.{◌≡◌, ◌≤◌, ◌++◌, OnOk, OnErr, codes, decimal};
ghost use Rattle.wire_io.specs.Faults.{FailsLast, HasCause, Rose, StopsAtFault};
ghost use Rattle.wire_io.specs.Sink.{Appends, AppendsPart};
ghost use Rattle.fsa_top.specs.Runs.{bad_line};
ghost use Rattle.fsa_top.specs.Words.{Says, is_race, is_run, limit_line, usage_line};

use crate::limits::Limit;
use itoa::Buffer;
use wire_io::{Failed, Sink, put_all};

/// Whether the words are the list `run`.
pub fn is_run(words: &[String]) -> bool
    ensures { result ≡ is_run words.now }
{
    match words {
        [word] => word.as_bytes() == b"run".as_slice(),
        _ => false,
    }
}

/// Whether the words are the list `race`.
pub fn is_race(words: &[String]) -> bool
    ensures { result ≡ is_race words.now }
{
    match words {
        [word] => word.as_bytes() == b"race".as_slice(),
        _ => false,
    }
}

// Writes a line; a sink that fails has taken a part of it.
fn say<K: Sink>(sink: &mut K, line: &[u8])
    ensures says { Says line.now (K.written sink.old) (K.written sink.new) (K.faults sink.old) (K.faults sink.new) }
    ensures later { K.faults sink.old ≤ K.faults sink.new }
    ensures stops { StopsAtFault (K.faults sink.old) (K.faults sink.new) (K.written sink.new).since_fault }
{
    match put_all(sink, line) {
        Ok(()) => (),
        Err(Failed) => (),
    }
}

/// Writes how the program is used.
pub fn say_usage<K: Sink>(sink: &mut K)
    ensures says { Says usage_line (K.written sink.old) (K.written sink.new) (K.faults sink.old) (K.faults sink.new) }
    ensures later { K.faults sink.old ≤ K.faults sink.new }
    ensures stops { StopsAtFault (K.faults sink.old) (K.faults sink.new) (K.written sink.new).since_fault }
{
    say(sink, b"usage: fsa run / race / gen N\n");
}

// The line that names a limit.
fn limit_line(limit: Limit) -> &'static [u8]
    ensures { result.now ≡ limit_line limit }
{
    match limit {
        Limit::Bytes => b"limit bytes\n".as_slice(),
        Limit::Lines => b"limit lines\n".as_slice(),
        Limit::Clients => b"limit clients\n".as_slice(),
    }
}

/// Writes which limit the script passes.
pub fn say_limit<K: Sink>(sink: &mut K, limit: Limit)
    ensures says { Says (limit_line limit) (K.written sink.old) (K.written sink.new) (K.faults sink.old) (K.faults sink.new) }
    ensures later { K.faults sink.old ≤ K.faults sink.new }
    ensures stops { StopsAtFault (K.faults sink.old) (K.faults sink.new) (K.written sink.new).since_fault }
{
    say(sink, limit_line(limit));
}

// Writes the line that names a faulty line, in three pieces.
fn put_bad<K: Sink>(sink: &mut K, line: u32) -> Result<(), Failed>
    ensures ok { OnOk result (Appends (K.written sink.old) (K.written sink.new) (bad_line line)) }
    ensures part { OnErr result (AppendsPart (K.written sink.old) (K.written sink.new) (bad_line line)) }
    ensures last { OnErr result (FailsLast (K.faults sink.old) (K.faults sink.new) (K.written sink.new).since_fault) }
    ensures unfailed { OnOk result (K.faults sink.new ≡ K.faults sink.old) }
    ensures later { K.faults sink.old ≤ K.faults sink.new }
{
    let mut buffer = Buffer::new();
    put_all(sink, b"bad line ")?;
    put_all(sink, buffer.format(line).as_bytes())?;
    put_all(sink, b"\n")?;
    Ok(())
}

/// Writes which line is the first faulty one. It takes no memory.
pub fn say_bad<K: Sink>(sink: &mut K, line: u32)
    ensures says { Says (bad_line line) (K.written sink.old) (K.written sink.new) (K.faults sink.old) (K.faults sink.new) }
    ensures later { K.faults sink.old ≤ K.faults sink.new }
    ensures stops { StopsAtFault (K.faults sink.old) (K.faults sink.new) (K.written sink.new).since_fault }
{
    match put_bad(sink, line) {
        Ok(()) => (),
        Err(Failed) => (),
    }
}
