//! The printed bodies of replies that hold a level, a reparse point or a quota.

ghost use Rattle.std.specs.Prelude.{◌≡◌, ◌<◌, ◌≤◌, ◌++◌, ◌∷◌, ◌==◌, nat_lt, decimal, map, IfOk, if◌then◌else◌};
ghost use Rattle.std.specs.List.{flat_map};
ghost use Rattle.std.specs.Int.Digits.{digits_of};
ghost use Rattle.fsa_types.specs.declared.reply.Body.TheVariants.{Broken, Quota, Stopped};
ghost use Rattle.fsa_model.specs.FieldText.{mask_text, text_text, unit_text, upper_glyph};
ghost use Rattle.fsa_model.specs.Numbers.{glyph, spelled};
ghost use Rattle.fsa_model.specs.Text.{body_text};
ghost use Rattle.fsa_model.specs.Words.{is_plain};

use crate::digits::digit;
use crate::draft::Draft;
use crate::text::{level_word, push_text};
use fsa_types::{Level, NoMemory};
use itoa::Buffer;

// The hexadecimal digits of a number, none of zero.
fn push_digits(draft: &mut Draft, number: u32) -> Result<(), NoMemory>
    ensures lines { IfOk result (λ _. draft.new.lines ≡ draft.old.lines ++ map glyph (digits_of 16 number)) }
    ensures before { draft.new.before ≡ draft.old.before }
{
    if number > 0 {
        push_digits(draft, number / 16)?;
        draft.push(digit((number % 16) as u8))?;
    }
    Ok(())
}

/// Puts a hexadecimal number at the end.
pub fn push_hexadecimal(draft: &mut Draft, number: u32) -> Result<(), NoMemory>
    ensures lines { IfOk result (λ _. draft.new.lines ≡ draft.old.lines ++ spelled 16 number) }
    ensures before { draft.new.before ≡ draft.old.before }
{
    if number == 0 {
        draft.push(b'0')
    } else {
        push_digits(draft, number)
    }
}

// A mask.
fn push_mask(draft: &mut Draft, mask: u32) -> Result<(), NoMemory>
    ensures lines { IfOk result (λ _. draft.new.lines ≡ draft.old.lines ++ mask_text mask) }
    ensures before { draft.new.before ≡ draft.old.before }
{
    push_text(draft, " 0x")?;
    push_hexadecimal(draft, mask)
}

// Whether a unit is printed as itself.
fn is_plain(unit: u16) -> bool
    ensures { result ≡ is_plain unit }
{
    33 <= unit && unit <= 126 && unit != 37
}

// The upper-case digit of a number below 16.
fn upper_digit(digit: u16) -> u8
    requires { digit < 16 }
    ensures { result ≡ upper_glyph digit }
{
    let digit = digit as u8;
    if digit < 10 { 48 + digit } else { 55 + digit }
}

/// Puts a unit at the end, as itself or as `%` and four digits.
pub fn push_unit(draft: &mut Draft, unit: u16) -> Result<(), NoMemory>
    ensures lines { IfOk result (λ _. draft.new.lines ≡ draft.old.lines ++ unit_text unit) }
    ensures before { draft.new.before ≡ draft.old.before }
{
    if is_plain(unit) {
        return draft.push(unit as u8);
    }
    draft.push(b'%')?;
    draft.push(upper_digit(unit / 16 / 16 / 16))?;
    draft.push(upper_digit(unit / 16 / 16 % 16))?;
    draft.push(upper_digit(unit / 16 % 16))?;
    draft.push(upper_digit(unit % 16))
}

// Units, one after another.
fn push_units(draft: &mut Draft, units: &[u16]) -> Result<(), NoMemory>
    ensures lines { IfOk result (λ _. draft.new.lines ≡ draft.old.lines ++ flat_map unit_text units.now) }
    ensures before { draft.new.before ≡ draft.old.before }
{
    for unit in units {
        push_unit(draft, *unit)?;
    }
    Ok(())
}

/// What follows the status where a break was told: the level, and whether it wants an answer.
pub fn push_broken(draft: &mut Draft, level: Level, ack: bool) -> Result<(), NoMemory>
    ensures lines { IfOk result (λ _. draft.new.lines ≡ draft.old.lines ++ body_text (Broken level ack)) }
    ensures before { draft.new.before ≡ draft.old.before }
{
    push_text(draft, " broken ")?;
    push_text(draft, level_word(level))?;
    push_text(draft, if ack { " ack" } else { "" })
}

/// What follows the status where a path met a reparse point: its tag, its bytes, and the rest of the path.
pub fn push_stopped(draft: &mut Draft, tag: u32, bytes: &[u8], rest: &[u16]) -> Result<(), NoMemory>
    ensures lines { IfOk result (λ _. draft.new.lines ≡ draft.old.lines ++ body_text (Stopped tag bytes.now rest.now)) }
    ensures before { draft.new.before ≡ draft.old.before }
{
    push_mask(draft, tag)?;
    push_text(draft, " x")?;
    draft.push_hex(bytes)?;
    push_text(draft, " =")?;
    push_units(draft, rest)
}

// A number, behind a space.
fn push_wide(draft: &mut Draft, number: u64) -> Result<(), NoMemory>
    ensures lines { IfOk result (λ _. draft.new.lines ≡ draft.old.lines ++ 32 ∷ decimal number) }
    ensures before { draft.new.before ≡ draft.old.before }
{
    let mut buffer = Buffer::new();
    draft.push(32)?;
    draft.push_bytes(buffer.format(number).as_bytes())
}

/// What follows the status of a quota: what is charged, and the limit.
pub fn push_quota(draft: &mut Draft, charge: u64, limit: u64) -> Result<(), NoMemory>
    ensures lines { IfOk result (λ _. draft.new.lines ≡ draft.old.lines ++ body_text (Quota charge limit)) }
    ensures before { draft.new.before ≡ draft.old.before }
{
    push_wide(draft, charge)?;
    push_wide(draft, limit)
}
