//! Where bytes go.
ghost use Rattle.std.specs.Prelude.{ℕ, ◌≤◌, ◌<◌, length, IfOk, OnOk, OnErr};
ghost use Rattle.wire_io.specs.Faults.{FailsLast, HasCause};
ghost use Rattle.wire_io.specs.Sink.{Written, Puts, CountsPut, Appends, AppendsPart};

use super::faults::Failed;

/// Takes bytes in pieces, and keeps them in order.
pub trait Sink {
    // The bytes that were written, where the sink tells them, and how it was asked.
    ghost written: { Self → Written };

    // How many faults there were. Its last value is 2^64 - 1.
    ghost faults: { Self → ℕ };

    /// Writes the first bytes of the piece and answers how many: at least 1, unless the piece is
    /// empty. Taking nothing of a piece that isn't empty is a fault.
    fn put(&mut self, bytes: &[u8]) -> Result<usize, Failed>
        ensures bound { IfOk result (λ n. n ≤ length bytes.now) }
        ensures moves { IfOk result (λ n. 0 < length bytes.now → 0 < n) }
        ensures bytes { Puts (written self.old).bytes (written self.new).bytes result bytes.now }
        ensures counted { CountsPut (written self.old) (written self.new) result bytes.now }
        ensures cause { HasCause (faults self.old) (faults self.new) result };
}

/// Writes all of the bytes, in at most as many puts as there are bytes, and none of an empty piece.
/// It takes no memory. A put that failed is the last, and leaves a prefix of the bytes written, and
/// not all of them.
pub fn put_all<K: Sink>(sink: &mut K, bytes: &[u8]) -> Result<(), Failed>
    ensures all { OnOk result (Appends (K.written sink.old) (K.written sink.new) bytes.now) }
    ensures part { OnErr result (AppendsPart (K.written sink.old) (K.written sink.new) bytes.now) }
    ensures last { OnErr result (FailsLast (K.faults sink.old) (K.faults sink.new) (K.written sink.new).since_fault) }
    ensures cause { HasCause (K.faults sink.old) (K.faults sink.new) result }
{
    let mut done = 0;
    'pieces: while done < bytes.len() {
        done += sink.put(&bytes[done..])?;
    }
    Ok(())
}
