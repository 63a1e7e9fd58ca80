//! All of a source's bytes, up to a limit.
ghost use Rattle.std.specs.Prelude.{◌≡◌, ◌≤◌, ◌<◌, ◌+◌, length, vec_len, IfOk, OnOk, IsErrOf};
ghost use Rattle.wire_io.specs.Faults.{FailsLast};
ghost use Rattle.wire_io.specs.Source.{ReadsWhole, HasMoreThan, HasReadAtMost, TakesLittle};
ghost use Rattle.wire_io.specs.declared.whole_input.InputFault.TheVariants.{Failed, NoMemory};

use super::faults::Failed;
use super::sources::Source;
use std::alloc::{AllocError, Global};

/// Why the bytes of a source aren't all there.
#[derive(Clone, Copy, Debug)]
pub enum InputFault {
    /// A take failed.
    Failed,
    /// The source has more bytes than the limit.
    TooMany,
    /// There was no memory for the bytes.
    NoMemory,
}

impl From<Failed> for InputFault {
    ghost from_gives = { λ _ fault. fault ≡ Failed };

    fn from(_error: Failed) -> InputFault {
        InputFault::Failed
    }
}

impl From<AllocError> for InputFault {
    ghost from_gives = { λ _ fault. fault ≡ NoMemory };

    fn from(_error: AllocError) -> InputFault {
        InputFault::NoMemory
    }
}

/// The most bytes that one take asks for.
const PIECE: usize = 65536;

/// Reads a source to its end, in at most `limit + 1` takes: each gives a byte at least, or is the
/// last. A source of more than `limit` bytes is `TooMany`, and `limit + 1` of them were read.
pub fn read_all<S: Source>(
    alloc: Global,
    source: &mut S,
    limit: usize,
) -> Result<Vec<u8>, InputFault>
    ensures whole { IfOk result (λ bytes. ReadsWhole (S.left source.old) (S.left source.new) bytes.items) }
    ensures few { IfOk result (λ bytes. vec_len bytes ≤ limit) }
    ensures failed { IsErrOf result InputFault.Failed → FailsLast (S.faults source.old) (S.faults source.new) (S.taken source.new).since }
    ensures too_many { IsErrOf result InputFault.TooMany → HasMoreThan limit (S.left source.old) }

    // Each take gave a byte at least, but for the last.
    ensures moves { IfOk result (λ bytes. S.takes source.new ≤ S.takes source.old + (vec_len bytes + 1)) }

    // At every exit, also after a failure:
    ensures turns { S.takes source.new ≤ S.takes source.old + (limit + 1) }
    ensures read { HasReadAtMost (limit + 1) (S.left source.old) (S.left source.new) }
    ensures little { TakesLittle (limit + 1) (S.taken source.old) (S.taken source.new) }
    ensures later { S.faults source.old ≤ S.faults source.new }

    // Where all was read the last take met the end, and no take failed unless the answer says so.
    ensures ended { OnOk result ((S.taken source.new).since ≡ 0) }
    ensures unfailed { OnOk result (S.faults source.new ≡ S.faults source.old) }
    ensures unfailed_at_limit { IsErrOf result InputFault.TooMany → S.faults source.new ≡ S.faults source.old }
    ensures unfailed_without_memory { IsErrOf result InputFault.NoMemory → S.faults source.new ≡ S.faults source.old }
{
    let mut buffer = vec![in alloc; 0u8; PIECE]?;
    read_pieces(alloc, source, limit, &mut buffer)
}

/// Reads a source to its end by this buffer.
fn read_pieces<S: Source>(
    alloc: Global,
    source: &mut S,
    limit: usize,
    buffer: &mut [u8],
) -> Result<Vec<u8>, InputFault>
    requires { 0 < length buffer.old }
    ensures whole { IfOk result (λ bytes. ReadsWhole (S.left source.old) (S.left source.new) bytes.items) }
    ensures few { IfOk result (λ bytes. vec_len bytes ≤ limit) }
    ensures failed { IsErrOf result InputFault.Failed → FailsLast (S.faults source.old) (S.faults source.new) (S.taken source.new).since }
    ensures too_many { IsErrOf result InputFault.TooMany → HasMoreThan limit (S.left source.old) }
    ensures moves { IfOk result (λ bytes. S.takes source.new ≤ S.takes source.old + (vec_len bytes + 1)) }
    ensures turns { S.takes source.new ≤ S.takes source.old + (limit + 1) }
    ensures read { HasReadAtMost (limit + 1) (S.left source.old) (S.left source.new) }
    ensures little { TakesLittle (limit + 1) (S.taken source.old) (S.taken source.new) }
    ensures later { S.faults source.old ≤ S.faults source.new }

    // Where all was read the last take met the end, and no take failed unless the answer says so.
    ensures ended { OnOk result ((S.taken source.new).since ≡ 0) }
    ensures unfailed { OnOk result (S.faults source.new ≡ S.faults source.old) }
    ensures unfailed_at_limit { IsErrOf result InputFault.TooMany → S.faults source.new ≡ S.faults source.old }
    ensures unfailed_without_memory { IsErrOf result InputFault.NoMemory → S.faults source.new ≡ S.faults source.old }
{
    let mut bytes = Vec::new(alloc);
    'takes: for _take in 0..=limit {
        let left = limit - bytes.len();
        let wanted = left.min(buffer.len() - 1) + 1;
        let count = source.take(&mut buffer[..wanted])?;
        if count == 0 {
            return Ok(bytes);
        }
        if count > left {
            return Err(InputFault::TooMany);
        }
        bytes.extend_from_slice(&buffer[..count])?;
    }
    unreachable!()
}
