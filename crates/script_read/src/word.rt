//! The fields of a line: a space and a word each.

ghost use Rattle.std.specs.Prelude.{◌≡◌, ◌==◌, ◌≤◌, ◌^◌, ◌<◌, ◌+◌, IfOk, OnOk, IfErr, IfSome, false, length, drop, position};
ghost use Rattle.std.specs.List.{position_or_len, list_all};
ghost use Rattle.fsa_model.specs.Words.{field_at, number_at, mask_of, mask_at, choice_of, choice_at, word_of, after_word, is_name, is_name_byte, most_id};
ghost use Rattle.script_read.specs.ReadsAs.{ReadsAs};

use crate::fault::{LineFault, SYNTAX, ScriptKind};
use crate::number::written_number;

// Where the first byte of this value stands.
fn place_of(mark: u8, bytes: &[u8]) -> Option<usize>
    ensures place { result ≡ position (λ byte. byte == mark) bytes.now }
    ensures within { IfSome result (λ end. end < length bytes.now) }
{
    bytes.iter().position(|byte| *byte == mark)
}

/// Where the first byte of this value stands, or the length.
pub fn end_before(mark: u8, bytes: &[u8]) -> usize
    ensures end { result ≡ position_or_len (λ byte. byte == mark) bytes.now }
    ensures within { result ≤ length bytes.now }
{
    match place_of(mark, bytes) {
        Some(end) => end,
        None => bytes.len(),
    }
}

/// What stands behind the first byte of this value; nothing where there is none.
pub fn after_first(mark: u8, bytes: &[u8]) -> &[u8]
    ensures { result.now ≡ drop (position_or_len (λ byte. byte == mark) bytes.now + 1) bytes.now }
{
    let (_, rest) = bytes.split_at(end_before(mark, bytes));
    match rest {
        [_, after @ ..] => after,
        [] => rest,
    }
}

/// The word at the front and what follows it.
pub fn split_word(bytes: &[u8]) -> (&[u8], &[u8])
    ensures word { result.0.now ≡ word_of bytes.now }
    ensures rest { result.1.now ≡ after_word bytes.now }
    ensures shorter { length result.1.now ≤ length bytes.now }
{
    bytes.split_at(end_before(b' ', bytes))
}

/// The field at the front, and what follows it.
#[tactic(auto, unfolding(fsa_model::specs::Words::field_at))]
pub fn field_at(bytes: &[u8]) -> Result<(&[u8], &[u8]), LineFault>
    ensures field { ReadsAs (λ field. (field.0.now, field.1.now)) result (field_at bytes.now) }
    ensures shorter { IfOk result (λ field. length field.1.now < length bytes.now) }
{
    let Some((first, rest)) = bytes.split_first() else {
        return Err(SYNTAX);
    };
    if *first != b' ' {
        return Err(SYNTAX);
    }
    Ok(split_word(rest))
}

/// The decimal number at the front, `most` at most, and what follows it.
#[tactic(auto, unfolding(fsa_model::specs::Words::number_at))]
pub fn number_at(most: u64, bytes: &[u8]) -> Result<(u64, &[u8]), LineFault>
    ensures number { ReadsAs (λ number. (number.0, number.1.now)) result (number_at most bytes.now) }
    ensures most { IfOk result (λ number. number.0 ≤ most) }
    ensures shorter { IfOk result (λ number. length number.1.now < length bytes.now) }
{
    let (word, rest) = field_at(bytes)?;
    match written_number(10, most, word) {
        Some(number) => Ok((number, rest)),
        None => Err(SYNTAX),
    }
}

/// The number of a call or a SID at the front, and what follows it.
pub fn id_at(bytes: &[u8]) -> Result<(u32, &[u8]), LineFault>
    ensures number { ReadsAs (λ number. (number.0, number.1.now)) result (number_at most_id bytes.now) }
    ensures shorter { IfOk result (λ number. length number.1.now < length bytes.now) }
{
    let (number, rest) = number_at(u64::from(u32::MAX), bytes)?;
    Ok((number as u32, rest))
}

/// The mask that a word writes.
#[tactic(auto, unfolding(fsa_model::specs::Words::mask_of))]
pub fn mask_of(word: &[u8]) -> Result<u32, LineFault>
    ensures { ReadsAs (λ mask. mask) result (mask_of word.now) }
{
    let [b'0', b'x', digits @ ..] = word else {
        return Err(SYNTAX);
    };
    match written_number(16, u64::from(u32::MAX), digits) {
        Some(mask) => Ok(mask as u32),
        None => Err(SYNTAX),
    }
}

/// The mask at the front, and what follows it.
#[tactic(auto, unfolding(fsa_model::specs::Words::mask_at))]
pub fn mask_at(bytes: &[u8]) -> Result<(u32, &[u8]), LineFault>
    ensures { ReadsAs (λ mask. (mask.0, mask.1.now)) result (mask_at bytes.now) }
{
    let (word, rest) = field_at(bytes)?;
    let mask = mask_of(word)?;
    Ok((mask, rest))
}

// Which of two words this is: true for the first.
fn choice_of(first: &[u8], second: &[u8], word: &[u8]) -> Result<bool, LineFault>
    ensures { ReadsAs (λ choice. choice) result (choice_of first.now second.now word.now) }
{
    let is_first = if word == first {
        true
    } else if word == second {
        false
    } else {
        return Err(SYNTAX);
    };
    Ok(is_first)
}

/// One of two words at the front, true for the first, and what follows it.
#[tactic(auto, unfolding(fsa_model::specs::Words::choice_at))]
pub fn choice_at<'a>(
    first: &[u8],
    second: &[u8],
    bytes: &'a [u8],
) -> Result<(bool, &'a [u8]), LineFault>
    ensures { ReadsAs (λ choice. (choice.0, choice.1.now)) result (choice_at first.now second.now bytes.now) }
{
    let (word, rest) = field_at(bytes)?;
    let choice = choice_of(first, second, word)?;
    Ok((choice, rest))
}

// Whether a byte may stand in a client's name.
fn is_name_byte(byte: u8) -> bool
    ensures { result ≡ is_name_byte byte }
{
    byte.is_ascii_lowercase() || byte.is_ascii_digit() || byte == b'_'
}

// Whether all bytes may stand in a client's name.
fn are_name_bytes(word: &[u8]) -> bool
    ensures { result ≡ list_all is_name_byte word.now }
{
    word.iter().all(|byte| is_name_byte(*byte))
}

/// Whether a word can be a client's name.
pub fn is_name(word: &[u8]) -> bool
    ensures { result ≡ is_name word.now }
{
    1 <= word.len() && word.len() <= 16 && are_name_bytes(word) && word != b"client".as_slice()
}

/// Succeeds where nothing is left of the line.
pub fn ended(rest: &[u8]) -> Result<(), LineFault>
    ensures ended { OnOk result (length rest.now ≡ 0) }
    ensures left { IfErr result (λ fault. (fault ≡ LineFault.Bad ScriptKind.Syntax) × ((length rest.now == 0) ≡ false)) }
{
    if rest.is_empty() { Ok(()) } else { Err(SYNTAX) }
}
