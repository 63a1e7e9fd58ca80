//! The lines that ask for an oplock and acknowledge its break.

ghost use Rattle.std.specs.Prelude.{◌≡◌};
ghost use Rattle.fsa_types.specs.Request.{level_fits};
ghost use Rattle.fsa_model.specs.OplockLines.{level_of_word, level_at, oplock_fields, ack_fields};
ghost use Rattle.fsa_model.specs.Requests.{oplock_line};
ghost use Rattle.script_read.specs.ReadsAs.{ReadsAs, ReadsOr};

use crate::fault::{LineFault, SYNTAX};
use crate::word::{ended, field_at, id_at};
use fsa_types::{Level, Request, What};

// The level that a word names.
fn level_of_word(word: &[u8]) -> Result<Level, LineFault>
    ensures { ReadsAs (λ level. level) result (level_of_word word.now) }
{
    let level = if word == b"none".as_slice() {
        Level::Nil
    } else if word == b"r".as_slice() {
        Level::R
    } else if word == b"rh".as_slice() {
        Level::RH
    } else if word == b"rw".as_slice() {
        Level::RW
    } else if word == b"rwh".as_slice() {
        Level::RWH
    } else {
        return Err(SYNTAX);
    };
    Ok(level)
}

// The level at the front, and what follows it.
#[tactic(auto, unfolding(fsa_model::specs::OplockLines::level_at))]
fn level_at(bytes: &[u8]) -> Result<(Level, &[u8]), LineFault>
    ensures { ReadsAs (λ level. (level.0, level.1.now)) result (level_at bytes.now) }
{
    let (word, rest) = field_at(bytes)?;
    let level = level_of_word(word)?;
    Ok((level, rest))
}

// Whether an oplock of this level can be asked for: any but none.
fn level_fits(level: Level) -> bool
    ensures { result ≡ level_fits level }
{
    !matches!(level, Level::Nil)
}

// The fields of `oplock`.
#[tactic(auto, unfolding(fsa_model::specs::OplockLines::oplock_fields))]
fn oplock_fields(fields: &[u8]) -> Result<What, LineFault>
    ensures { ReadsAs (λ what. what) result (oplock_fields fields.now) }
{
    let (handle, rest) = id_at(fields)?;
    let (level, rest) = level_at(rest)?;
    if !level_fits(level) || !rest.is_empty() {
        return Err(SYNTAX);
    }
    Ok(What::Ask(Request::Oplock { handle, level }))
}

// The fields of `ack`.
#[tactic(auto, unfolding(fsa_model::specs::OplockLines::ack_fields))]
fn ack_fields(fields: &[u8]) -> Result<What, LineFault>
    ensures { ReadsAs (λ what. what) result (ack_fields fields.now) }
{
    let (handle, rest) = id_at(fields)?;
    let (level, rest) = level_at(rest)?;
    ended(rest)?;
    Ok(What::Ask(Request::Ack { handle, level }))
}

/// What the fields say, where the verb is one of these.
pub fn oplock_line(verb: &[u8], fields: &[u8]) -> Result<Option<What>, LineFault>
    ensures { ReadsOr result (oplock_line verb.now fields.now) }
{
    let what = if verb == b"oplock".as_slice() {
        oplock_fields(fields)
    } else if verb == b"ack".as_slice() {
        ack_fields(fields)
    } else {
        return Ok(None);
    };
    Ok(Some(what?))
}
