//! What stands behind the head of an entry, read.

ghost use Rattle.std.specs.Prelude.{◌≡◌, ◌+◌, ◌<◌, ◌≤◌, ◌↔◌, ◌++◌, MatchOption, List, ℕ, length, IsTrue, IfSome, IfNone, EachIndex, slice_index};
ghost use Rattle.pack_info.specs.Entries.{IsName, IsTail};
ghost use Rattle.fsa_types.specs.Packing.{after_name, before_name};
ghost use Rattle.fsa_types.specs.LittleEndian.{utf16};
ghost use Rattle.fsa_types.specs.declared.reply.PackKind.TheVariants.{Streams};

use crate::layout::{round_up, size_of_head};
use fsa_types::PackKind;

// Whether these are zeros.
fn are_zeros(bytes: &[u8]) -> bool
    ensures { IsTrue result ↔ EachIndex bytes.now (λ k. slice_index bytes.now k ≡ 0) }
{
    bytes.iter().all(|byte| *byte == 0)
}

// Whether these are the bytes of `:`.
fn is_colon(bytes: &[u8]) -> bool
    ensures { IsTrue result ↔ (bytes.now ≡ utf16 (before_name Streams)) }
{
    bytes == [0x3A, 0].as_slice()
}

// Whether these are the bytes of `:$DATA`.
fn is_type(bytes: &[u8]) -> bool
    ensures { IsTrue result ↔ (bytes.now ≡ utf16 (after_name Streams)) }
{
    bytes == [0x3A, 0, 0x24, 0, 0x44, 0, 0x41, 0, 0x54, 0, 0x41, 0].as_slice()
}

// What stands between `:` and `:$DATA`.
fn between(name: &[u8]) -> Option<&[u8]>
    ensures { MatchOption result ((xs : List ℕ) → name.now ≡ utf16 (before_name Streams) ++ xs ++ utf16 (after_name Streams) → ⊥)
        (λ xs. name.now ≡ utf16 (before_name Streams) ++ xs.now ++ utf16 (after_name Streams)) }
{
    if name.len() < 14 {
        return None;
    }
    let (front, rest) = name.split_at(2);
    let (units, back) = rest.split_at(rest.len() - 12);
    if !is_colon(front) {
        return None;
    }
    if !is_type(back) {
        return None;
    }
    Some(units)
}

// Whether these bytes can be the field of a name.
fn can_be_name(kind: PackKind, name: &[u8]) -> bool
    ensures { IsTrue result ↔ IsName kind name.now }
{
    match kind {
        PackKind::Streams => match between(name) {
            Some(units) => units.len() % 2 == 0,
            None => false,
        },
        _ => name.len() % 2 == 0,
    }
}

// The name, and what follows it and its padding.
pub(crate) fn tail_at<'a>(
    kind: PackKind,
    next: u32,
    len: u32,
    after: &'a [u8],
) -> Option<(&'a [u8], &'a [u8])>
    ensures found { IfSome result (λ p. IsTail kind next len after.now p.0.now p.1.now) }
    ensures only { IfNone result ((name rest : List ℕ) → IsTail kind next len after.now name rest → ⊥) }
{
    let size = size_of_head(kind) + len as usize;
    if after.len() < len as usize {
        return None;
    }
    let (name, behind) = after.split_at(len as usize);
    if !can_be_name(kind, name) {
        return None;
    }
    if next == 0 {
        if !behind.is_empty() {
            return None;
        }
        return Some((name, behind));
    }
    let rounded = round_up(kind, size);
    if next as usize != rounded {
        return None;
    }
    let pad = rounded - size;
    if behind.len() <= pad {
        return None;
    }
    let (padding, rest) = behind.split_at(pad);
    if !are_zeros(padding) {
        return None;
    }
    Some((name, rest))
}
