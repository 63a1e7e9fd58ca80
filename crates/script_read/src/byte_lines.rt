//! The lines that read and write bytes.

ghost use Rattle.std.specs.Prelude.{◌≡◌};
ghost use Rattle.fsa_model.specs.ByteLines.{read_fields, written_place, start_at, write_fields, flush_fields, set_end_fields};
ghost use Rattle.fsa_model.specs.Requests.{byte_line};
ghost use Rattle.script_read.specs.ReadsAs.{ReadsAs, ReadsOr};

use crate::fault::{LineFault, SYNTAX};
use crate::number::written_number;
use crate::text::string_at;
use crate::word::{ended, field_at, id_at, number_at};
use fsa_types::{MOST_BYTES, Request, What};
use std::alloc::Global;

// The fields of `read`.
#[tactic(auto, unfolding(fsa_model::specs::ByteLines::read_fields))]
fn read_fields(fields: &[u8]) -> Result<What, LineFault>
    ensures { ReadsAs (λ what. what) result (read_fields fields.now) }
{
    let (handle, rest) = id_at(fields)?;
    let (at, rest) = number_at(u64::MAX, rest)?;
    let (count, rest) = number_at(u64::from(MOST_BYTES), rest)?;
    ended(rest)?;
    let count = count as u32;
    Ok(What::Ask(Request::Read { handle, at, count }))
}

// The place that a word writes.
fn written_place(word: &[u8]) -> Result<u64, LineFault>
    ensures { ReadsAs (λ place. place) result (written_place word.now) }
{
    match written_number(10, u64::MAX, word) {
        Some(place) => Ok(place),
        None => Err(SYNTAX),
    }
}

// Where a write begins, `None` for the end of the stream, and what follows that field.
#[tactic(auto, unfolding(fsa_model::specs::ByteLines::start_at))]
fn start_at(bytes: &[u8]) -> Result<(Option<u64>, &[u8]), LineFault>
    ensures { ReadsAs (λ start. (start.0, start.1.now)) result (start_at bytes.now) }
{
    let (word, rest) = field_at(bytes)?;
    if word == b"end".as_slice() {
        return Ok((None, rest));
    }
    let place = written_place(word)?;
    Ok((Some(place), rest))
}

// The fields of `write`.
#[tactic(auto, unfolding(fsa_model::specs::ByteLines::write_fields))]
fn write_fields(alloc: Global, fields: &[u8]) -> Result<What, LineFault>
    ensures { ReadsAs (λ what. what) result (write_fields fields.now) }
{
    let (handle, rest) = id_at(fields)?;
    let (at, rest) = start_at(rest)?;
    let (bytes, rest) = string_at(alloc, rest)?;
    ended(rest)?;
    Ok(What::Ask(Request::Write { handle, at, bytes }))
}

// The field of `flush`.
#[tactic(auto, unfolding(fsa_model::specs::ByteLines::flush_fields))]
fn flush_fields(fields: &[u8]) -> Result<What, LineFault>
    ensures { ReadsAs (λ what. what) result (flush_fields fields.now) }
{
    let (handle, rest) = id_at(fields)?;
    ended(rest)?;
    Ok(What::Ask(Request::Flush { handle }))
}

// The fields of `setend`.
#[tactic(auto, unfolding(fsa_model::specs::ByteLines::set_end_fields))]
fn set_end_fields(fields: &[u8]) -> Result<What, LineFault>
    ensures { ReadsAs (λ what. what) result (set_end_fields fields.now) }
{
    let (handle, rest) = id_at(fields)?;
    let (length, rest) = number_at(u64::MAX, rest)?;
    ended(rest)?;
    Ok(What::Ask(Request::SetEnd { handle, length }))
}

/// What the fields say, where the verb is one of these.
pub fn byte_line(alloc: Global, verb: &[u8], fields: &[u8]) -> Result<Option<What>, LineFault>
    ensures { ReadsOr result (byte_line verb.now fields.now) }
{
    let what = if verb == b"read".as_slice() {
        read_fields(fields)
    } else if verb == b"write".as_slice() {
        write_fields(alloc, fields)
    } else if verb == b"flush".as_slice() {
        flush_fields(fields)
    } else if verb == b"setend".as_slice() {
        set_end_fields(fields)
    } else {
        return Ok(None);
    };
    Ok(Some(what?))
}
