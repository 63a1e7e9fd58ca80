//! A string of bytes, written to a sink part by part.

ghost use Rattle.std.specs.Prelude.{◌≤◌, length, OnOk, OnErr};
ghost use Rattle.fsa_model.specs.Text.{bytes_text, hex_digits};
ghost use Rattle.wire_io.specs.Faults.{FailsLast, HasCause};
ghost use Rattle.wire_io.specs.Sink.{Appends, AppendsPart};

use crate::digits::write_digits;
use fsa_types::Bytes;
use wire_io::{Failed, Sink, put_all};

// How many bytes a part has at most.
const PART: usize = 8192;

/// Writes `x` and two digits for each byte, part by part. It takes no memory. A put that failed is the
/// last, and leaves a prefix of them written, and not all.
pub fn write_bytes<K: Sink>(sink: &mut K, bytes: &Bytes) -> Result<(), Failed>
    ensures all { OnOk result (Appends (K.written sink.old) (K.written sink.new) (bytes_text bytes.now)) }
    ensures part { OnErr result (AppendsPart (K.written sink.old) (K.written sink.new) (bytes_text bytes.now)) }
    ensures last { OnErr result (FailsLast (K.faults sink.old) (K.faults sink.new) (K.written sink.new).since_fault) }
    ensures cause { HasCause (K.faults sink.old) (K.faults sink.new) result }
{
    put_all(sink, b"x")?;
    write_hex(sink, bytes)
}

// Writes two digits for each byte.
fn write_hex<K: Sink>(sink: &mut K, bytes: &Bytes) -> Result<(), Failed>
    ensures all { OnOk result (Appends (K.written sink.old) (K.written sink.new) (hex_digits bytes.now)) }
    ensures part { OnErr result (AppendsPart (K.written sink.old) (K.written sink.new) (hex_digits bytes.now)) }
    ensures last { OnErr result (FailsLast (K.faults sink.old) (K.faults sink.new) (K.written sink.new).since_fault) }
    ensures cause { HasCause (K.faults sink.old) (K.faults sink.new) result }
{
    let len = bytes.bytes().len();
    let mut at = 0;
    'parts: while at < len {
        let count = (len - at).min(PART);
        write_part(sink, bytes.part(at, count))?;
        at += count;
    }
    Ok(())
}

// Writes two digits for each byte of one part.
fn write_part<K: Sink>(sink: &mut K, part: &[u8]) -> Result<(), Failed>
    requires { length part.now ≤ 8192 }
    ensures all { OnOk result (Appends (K.written sink.old) (K.written sink.new) (hex_digits part.now)) }
    ensures part { OnErr result (AppendsPart (K.written sink.old) (K.written sink.new) (hex_digits part.now)) }
    ensures last { OnErr result (FailsLast (K.faults sink.old) (K.faults sink.new) (K.written sink.new).since_fault) }
    ensures cause { HasCause (K.faults sink.old) (K.faults sink.new) result }
{
    let mut block = [0; 2 * PART];
    let digits = &mut block[..2 * part.len()];
    write_digits(part, digits);
    put_all(sink, digits)
}
