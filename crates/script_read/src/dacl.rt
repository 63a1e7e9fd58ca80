//! The owner and the access list that a request puts, and the entries of the list.

ghost use Rattle.std.specs.Prelude.{◌≡◌, ℕ, suc, ◌==◌, ◌+◌, ◌<◌, ◌≤◌, IfOk, IfErr, length, count_by, min};
ghost use Rattle.fsa_types.specs.BoundedList.{full};
ghost use Rattle.fsa_model.specs.InformationLines.{sid_of, owner_at, ace_with, ace_of, before_comma, after_entry, ace_onto, aces_of, most_aces, dacl_of, dacl_at};
ghost use Rattle.script_read.specs.ReadsAs.{ReadsAs, Fails};

use crate::fault::{LineFault, SYNTAX};
use crate::number::written_number;
use crate::word::{after_first, end_before, field_at, mask_of};
use fsa_types::{Ace, Dacl, DaclChange, MOST_ACES};
use std::alloc::Global;

// The SID that a word writes.
fn sid_of(word: &[u8]) -> Result<u32, LineFault>
    ensures { ReadsAs (λ sid. sid) result (sid_of word.now) }
{
    match written_number(10, u64::from(u32::MAX), word) {
        Some(sid) => Ok(sid as u32),
        None => Err(SYNTAX),
    }
}

/// The owner at the front, `None` where he's kept, and what follows it.
#[tactic(auto, unfolding(fsa_model::specs::InformationLines::owner_at))]
pub fn owner_at(bytes: &[u8]) -> Result<(Option<u32>, &[u8]), LineFault>
    ensures { ReadsAs (λ owner. (owner.0, owner.1.now)) result (owner_at bytes.now) }
{
    let (word, rest) = field_at(bytes)?;
    if word == b"keep".as_slice() {
        return Ok((None, rest));
    }
    let sid = sid_of(word)?;
    Ok((Some(sid), rest))
}

// The entry that a SID, `:` and a mask write.
#[tactic(auto, unfolding(fsa_model::specs::InformationLines::ace_with))]
fn ace_with(allow: bool, bytes: &[u8]) -> Result<Ace, LineFault>
    ensures { ReadsAs (λ ace. ace) result (ace_with allow bytes.now) }
{
    let (word, _) = bytes.split_at(end_before(b':', bytes));
    let sid = sid_of(word)?;
    let mask = mask_of(after_first(b':', bytes))?;
    Ok(Ace { allow, sid, mask })
}

// The entry that these bytes write: `+` allows, and `-` denies.
#[tactic(auto, unfolding(fsa_model::specs::InformationLines::ace_of))]
fn ace_of(bytes: &[u8]) -> Result<Ace, LineFault>
    ensures { ReadsAs (λ ace. ace) result (ace_of bytes.now) }
{
    match bytes {
        [b'+', rest @ ..] => ace_with(true, rest),
        [b'-', rest @ ..] => ace_with(false, rest),
        _ => Err(SYNTAX),
    }
}

// The entry up to the next comma, and what follows it, from that comma on.
fn split_entry(bytes: &[u8]) -> (&[u8], &[u8])
    ensures entry { result.0.now ≡ before_comma bytes.now }
    ensures rest { result.1.now ≡ after_entry bytes.now }
    ensures shorter { length result.1.now ≤ length bytes.now }
{
    bytes.split_at(end_before(b',', bytes))
}

// The entry at the front, behind its comma, and what follows it.
fn next_ace(bytes: &[u8]) -> Result<(Ace, &[u8]), LineFault>
    requires { 0 < length bytes.now }
    ensures ace { IfOk result (λ ace. (most : ℕ) → aces_of (suc most) bytes.now ≡ ace_onto ace.0 (aces_of most ace.1.now)) }
    ensures count { IfOk result (λ ace. count_by (λ byte. byte == 44) bytes.now ≡ 1 + count_by (λ byte. byte == 44) ace.1.now) }
    ensures shorter { IfOk result (λ ace. length ace.1.now < length bytes.now) }
    ensures err { IfErr result (λ fault. (most : ℕ) → Fails fault (aces_of (suc most) bytes.now)) }
{
    let Some((first, more)) = bytes.split_first() else {
        return Err(SYNTAX);
    };
    if *first != b',' {
        return Err(SYNTAX);
    }
    let (entry, rest) = split_entry(more);
    let ace = ace_of(entry)?;
    Ok((ace, rest))
}

// The number of commas.
fn comma_count(bytes: &[u8]) -> usize
    ensures { result ≡ count_by (λ byte. byte == 44) bytes.now }
{
    bytes.iter().filter(|byte| **byte == b',').count()
}

// How many entries to make room for.
fn room_for(bytes: &[u8]) -> u32
    ensures { result ≡ min (count_by (λ byte. byte == 44) bytes.now) most_aces }
{
    comma_count(bytes).min(MOST_ACES) as u32
}

// Entries up to the end of the word, each behind a comma, 32 at most; the list has no more room.
fn aces_of(alloc: Global, bytes: &[u8]) -> Result<Dacl, LineFault>
    ensures aces { ReadsAs (λ dacl. dacl.items) result (aces_of most_aces bytes.now) }
    ensures full { IfOk result (λ dacl. full dacl.items ≡ dacl) }
{
    let mut dacl = Dacl::with_room(alloc, room_for(bytes))?;
    let mut rest = bytes;
    'aces: while !rest.is_empty() {
        if dacl.len() == MOST_ACES {
            return Err(SYNTAX);
        }
        let (ace, after) = next_ace(rest)?;
        dacl.push(ace);
        rest = after;
    }
    Ok(dacl)
}

// What a word says of the access list.
#[tactic(auto, unfolding(fsa_model::specs::InformationLines::dacl_of))]
fn dacl_of(alloc: Global, word: &[u8]) -> Result<DaclChange, LineFault>
    ensures { ReadsAs (λ change. change) result (dacl_of word.now) }
{
    if word == b"keep".as_slice() {
        Ok(DaclChange::Keep)
    } else if word == b"null".as_slice() {
        Ok(DaclChange::Remove)
    } else if word.starts_with(b"acl") {
        let dacl = aces_of(alloc, &word[3..])?;
        Ok(DaclChange::Put(dacl))
    } else {
        Err(SYNTAX)
    }
}

/// What becomes of the access list, at the front, and what follows it.
#[tactic(auto, unfolding(fsa_model::specs::InformationLines::dacl_at))]
pub fn dacl_at(alloc: Global, bytes: &[u8]) -> Result<(DaclChange, &[u8]), LineFault>
    ensures { ReadsAs (λ dacl. (dacl.0, dacl.1.now)) result (dacl_at bytes.now) }
{
    let (word, rest) = field_at(bytes)?;
    let change = dacl_of(alloc, word)?;
    Ok((change, rest))
}
