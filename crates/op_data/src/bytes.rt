//! The bytes of a stream: how many there are, and a copy of some of them.

ghost use Rattle.std.specs.Prelude.{◌≡◌, ◌≤◌, ◌+◌, ◌^◌, IfOk, IsTrue, length};
ghost use Rattle.fsa_types.specs.Rows.{lives};
ghost use Rattle.fsa_types.specs.StreamBytes.{slice};
ghost use Rattle.fsa_model.specs.Lookups.{bytes_of};

use fsa_types::{Bytes, NoMemory};
use std::alloc::Global;
use volume_state::Volume;

/// How many bytes a stream has; 0 where there is no such stream. At most 2^26.
pub fn length_of(volume: &Volume, stream: u64) -> u64
    ensures length { result ≡ length (bytes_of volume.now.content stream) }
    ensures few { result ≤ 2 ^ 26 }
{
    match volume.stream(stream) {
        None => 0,
        Some(info) => info.length,
    }
}

/// A copy of `count` bytes of a stream from place `at` on, which it has to have. The room for all of them is
/// taken before the first is copied. `NoMemory` where there is none.
pub fn copy_of_bytes(
    alloc: Global,
    volume: &Volume,
    stream: u64,
    at: u64,
    count: u64,
) -> Result<Bytes, NoMemory>
    requires lives { IsTrue (lives volume.now.content.streams stream) }
    requires within { at + count ≤ length (bytes_of volume.now.content stream) }
    ensures { IfOk result (λ bytes. bytes ≡ slice (bytes_of volume.now.content stream) at count) }
{
    let mut bytes = Vec::with_capacity(alloc, count as usize)?;
    for part in volume.parts_of(stream, at, count) {
        bytes.extend_from_slice(part)?;
    }
    Ok(Bytes::from(bytes))
}
