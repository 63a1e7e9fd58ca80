//! Texts of UTF-16 units and strings of bytes.

ghost use Rattle.std.specs.Prelude.{◌≡◌, ℕ, ◌<◌, ◌≤◌, ◌*◌, [], ◌∷◌, Some, None, Ok, Err, if◌then◌else◌, IfOk, IfErr, length};
ghost use Rattle.fsa_model.specs.Fault.{BadSyntax};
ghost use Rattle.fsa_model.specs.Numbers.{digit_of};
ghost use Rattle.fsa_model.specs.Words.{upper_digit_of, are_upper_digits, unit_of_digits, is_plain, onto, units_of, escaped_units, text_of, text_at, written_bytes, string_of, string_at};
ghost use Rattle.script_read.specs.ReadsAs.{ReadsAs, Fails};

use crate::fault::{LineFault, SYNTAX};
use crate::number::digit_of;
use crate::word::field_at;
use fsa_types::{Bytes, Name};
use std::alloc::Global;

// The value of an upper-case hexadecimal digit, 16 where the byte is none.
fn upper_digit_of(byte: u8) -> u16
    ensures digit { result ≡ upper_digit_of byte }
    ensures small { result ≤ 16 }
{
    if b'0' <= byte && byte <= b'9' {
        u16::from(byte - b'0')
    } else if b'A' <= byte && byte <= b'F' {
        u16::from(byte - 55)
    } else {
        16
    }
}

// The unit that four upper-case hexadecimal digits write.
fn unit_of_digits(a: u8, b: u8, c: u8, d: u8) -> Option<u16>
    ensures { result ≡ (if are_upper_digits a b c d then Some (unit_of_digits a b c d) else None) }
{
    let (high, second) = (upper_digit_of(a), upper_digit_of(b));
    let (third, low) = (upper_digit_of(c), upper_digit_of(d));
    if high < 16 && second < 16 && third < 16 && low < 16 {
        Some(high * 4096 + second * 256 + third * 16 + low)
    } else {
        None
    }
}

// The unit that the four digits at the front write, and what follows them.
fn escape_at(bytes: &[u8]) -> Result<(u16, &[u8]), LineFault>
    ensures unit { IfOk result (λ unit. escaped_units bytes.now ≡ onto unit.0 (units_of unit.1.now)) }
    ensures shorter { IfOk result (λ unit. length unit.1.now ≤ length bytes.now) }
    ensures err { IfErr result (λ fault. Fails fault (escaped_units bytes.now)) }
{
    let [a, b, c, d, rest @ ..] = bytes else {
        return Err(SYNTAX);
    };
    match unit_of_digits(*a, *b, *c, *d) {
        Some(unit) => Ok((unit, rest)),
        None => Err(SYNTAX),
    }
}

// Whether a byte is a unit as it stands.
fn is_plain(byte: u8) -> bool
    ensures { result ≡ is_plain byte }
{
    33 <= byte && byte <= 126 && byte != b'%'
}

// The unit at the front, and what follows it.
fn unit_at(bytes: &[u8]) -> Result<(u16, &[u8]), LineFault>
    requires { 0 < length bytes.now }
    ensures unit { IfOk result (λ unit. units_of bytes.now ≡ onto unit.0 (units_of unit.1.now)) }
    ensures shorter { IfOk result (λ unit. length unit.1.now < length bytes.now) }
    ensures err { IfErr result (λ fault. Fails fault (units_of bytes.now)) }
{
    let Some((first, rest)) = bytes.split_first() else {
        return Err(SYNTAX);
    };
    if *first == b'%' {
        return escape_at(rest);
    }
    if is_plain(*first) {
        Ok((u16::from(*first), rest))
    } else {
        Err(SYNTAX)
    }
}

// The units that these bytes write.
fn units_of(alloc: Global, bytes: &[u8]) -> Result<Vec<u16>, LineFault>
    ensures { ReadsAs (λ units. units.items) result (units_of bytes.now) }
{
    let mut units = Vec::with_capacity(alloc, bytes.len())?;
    let mut rest = bytes;
    'units: while !rest.is_empty() {
        let (unit, after) = unit_at(rest)?;
        units.push(unit)?;
        rest = after;
    }
    Ok(units)
}

// The text that a word writes.
#[tactic(auto, unfolding(fsa_model::specs::Words::text_of))]
fn text_of(alloc: Global, word: &[u8]) -> Result<Name, LineFault>
    ensures { ReadsAs (λ name. name) result (text_of word.now) }
{
    let Some((first, bytes)) = word.split_first() else {
        return Err(SYNTAX);
    };
    if *first != b'=' {
        return Err(SYNTAX);
    }
    let units = units_of(alloc, bytes)?;
    Ok(Name::from(units))
}

/// The text at the front, and what follows it.
#[tactic(auto, unfolding(fsa_model::specs::Words::text_at))]
pub fn text_at(alloc: Global, bytes: &[u8]) -> Result<(Name, &[u8]), LineFault>
    ensures { ReadsAs (λ text. (text.0, text.1.now)) result (text_at bytes.now) }
{
    let (word, rest) = field_at(bytes)?;
    let name = text_of(alloc, word)?;
    Ok((name, rest))
}

// Writes the byte of each two digits, and gives the greatest value of a digit, 16 where one is none.
fn read_digits(digits: &[u8], bytes: &mut [u8]) -> u8
    requires { length digits.now ≡ 2 * length bytes.old }
    ensures digits { result < 16 → written_bytes digits.now ≡ Ok bytes.new }
    ensures others { 16 ≤ result → written_bytes digits.now ≡ Err BadSyntax }
{
    let mut greatest: u8 = 0;
    'bytes: for i in 0..bytes.len() {
        let (high, low) = (digit_of(digits[2 * i]), digit_of(digits[2 * i + 1]));
        greatest = greatest.max(high).max(low);
        bytes[i] = high % 16 * 16 + low % 16;
    }
    greatest
}

// The bytes that these digits write, two a byte.
#[tactic(auto, using(crate::proofs::DigitLemmas::odd_none))]
fn written_bytes(alloc: Global, digits: &[u8]) -> Result<Vec<u8>, LineFault>
    ensures { ReadsAs (λ bytes. bytes.items) result (written_bytes digits.now) }
{
    if digits.len() % 2 != 0 {
        return Err(SYNTAX);
    }
    let mut bytes = vec![in alloc; 0; digits.len() / 2]?;
    if read_digits(digits, &mut bytes) < 16 {
        Ok(bytes)
    } else {
        Err(SYNTAX)
    }
}

// The string of bytes that a word writes.
#[tactic(auto, unfolding(fsa_model::specs::Words::string_of))]
fn string_of(alloc: Global, word: &[u8]) -> Result<Bytes, LineFault>
    ensures { ReadsAs (λ string. string) result (string_of word.now) }
{
    let Some((first, digits)) = word.split_first() else {
        return Err(SYNTAX);
    };
    if *first != b'x' || digits.len() > 32768 {
        return Err(SYNTAX);
    }
    let bytes = written_bytes(alloc, digits)?;
    // the line and the calls that are copied from it share a long string
    Ok(Bytes::from(bytes).shared())
}

/// The string of bytes at the front, 16,384 bytes at most, and what follows it.
#[tactic(auto, unfolding(fsa_model::specs::Words::string_at))]
pub fn string_at(alloc: Global, bytes: &[u8]) -> Result<(Bytes, &[u8]), LineFault>
    ensures { ReadsAs (λ string. (string.0, string.1.now)) result (string_at bytes.now) }
{
    let (word, rest) = field_at(bytes)?;
    let string = string_of(alloc, word)?;
    Ok((string, rest))
}
