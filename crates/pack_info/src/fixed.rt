//! Buffers of one fixed layout.

ghost use Rattle.std.specs.Prelude.{◌≡◌, ◌+◌, ◌<◌, ◌≤◌, ◌^◌, ◌++◌, ◌∷◌, [], List, ℕ, length, Some, None, MatchOption, IfOk, IfSome, IfNone};
ghost use Rattle.fsa_types.specs.LittleEndian.{little_endian};
ghost use Rattle.std.specs.List.{flat_map};
ghost use Rattle.pack_info.specs.Numbers.{number_bytes};
ghost use Rattle.fsa_types.specs.FixedBuffers.{basic_bytes, standard_bytes, internal_bytes, tag_bytes, reparse_bytes, read_reparse};

use crate::number::{Number, push_numbers};
use crate::reading::{u16_at, u32_at};
use fsa_types::{Bytes, NoMemory};
use std::alloc::Global;

// The bytes of these numbers.
fn numbers_packed(alloc: Global, numbers: &[Number]) -> Result<Bytes, NoMemory>
    ensures { IfOk result (λ made. made ≡ flat_map number_bytes numbers.now) }
{
    let mut out = Vec::new(alloc);
    push_numbers(&mut out, numbers)?;
    Ok(Bytes::from(out))
}

/// The buffer of [MS-FSCC] 'FileBasicInformation'.
pub fn pack_basic(
    alloc: Global,
    creation: u64,
    access: u64,
    write: u64,
    change: u64,
    attributes: u32,
) -> Result<Bytes, NoMemory>
    ensures { IfOk result (λ made. made ≡ basic_bytes creation access write change attributes) }
{
    numbers_packed(
        alloc,
        &[
            Number::Eight(creation),
            Number::Eight(access),
            Number::Eight(write),
            Number::Eight(change),
            Number::Four(attributes),
            Number::Four(0),
        ],
    )
}

/// The buffer of [MS-FSCC] 'FileInternalInformation'.
pub fn pack_internal(alloc: Global, file: u64) -> Result<Bytes, NoMemory>
    ensures { IfOk result (λ made. made ≡ internal_bytes file) }
{
    numbers_packed(alloc, &[Number::Eight(file)])
}

/// The buffer of [MS-FSCC] 'FileAttributeTagInformation'; the tag is 0 where there is none.
pub fn pack_tag(alloc: Global, attributes: u32, tag: u32) -> Result<Bytes, NoMemory>
    ensures { IfOk result (λ made. made ≡ tag_bytes attributes tag) }
{
    numbers_packed(alloc, &[Number::Four(attributes), Number::Four(tag)])
}

/// The buffer of [MS-FSCC] 'FileStandardInformation'.
pub fn pack_standard(
    alloc: Global,
    allocation: u64,
    length: u64,
    links: u32,
    delete_pending: bool,
    directory: bool,
) -> Result<Bytes, NoMemory>
    ensures { IfOk result (λ made. made ≡ standard_bytes allocation length links delete_pending directory) }
{
    let mut out = Vec::new(alloc);
    push_numbers(
        &mut out,
        &[
            Number::Eight(allocation),
            Number::Eight(length),
            Number::Four(links),
        ],
    )?;
    out.push(u8::from(delete_pending))?;
    out.push(u8::from(directory))?;
    out.push(0)?;
    out.push(0)?;
    Ok(Bytes::from(out))
}

/// The buffer of a reparse point with this data, after [MS-FSCC] 'REPARSE_DATA_BUFFER'. The data may
/// have at most 65,535 bytes.
pub fn pack_reparse(alloc: Global, tag: u32, bytes: &[u8]) -> Result<Bytes, NoMemory>
    requires { length bytes.now ≤ 65535 }
    ensures { IfOk result (λ made. made ≡ reparse_bytes tag 0 bytes.now) }
{
    let mut out = Vec::new(alloc);
    push_numbers(&mut out, &[Number::Four(tag)])?;
    let len = bytes.len() as u16;
    out.extend_from_slice(&len.to_le_bytes())?;
    out.push(0)?;
    out.push(0)?;
    out.extend_from_slice(bytes)?;
    Ok(Bytes::from(out))
}

/// The tag and the data of a reparse point that is to be set, after [MS-FSCC] 'REPARSE_DATA_BUFFER':
/// `None` exactly where there are under 8 bytes, or the length isn't that of the data. Nothing is
/// asked of the reserved number.
pub fn read_reparse(bytes: &[u8]) -> Option<(u32, &[u8])>
    ensures reads { MatchOption result (read_reparse bytes.now ≡ None) (λ p. read_reparse bytes.now ≡ Some (p.0, p.1.now)) }
    ensures found { IfSome result (λ p. (reserved : ℕ) × (bytes.now ≡ reparse_bytes p.0 reserved p.1.now)) }
    ensures only { IfNone result ((tag reserved : ℕ) (content : List ℕ) → length content ≤ 65535 → bytes.now ≡ reparse_bytes tag reserved content → ⊥) }
{
    if bytes.len() < 8 {
        return None;
    }
    let (tag, after_tag) = u32_at(bytes);
    let (len, after_len) = u16_at(after_tag);
    let (_reserved, content) = u16_at(after_len);
    if len as usize != content.len() {
        return None;
    }
    Some((tag, content))
}
