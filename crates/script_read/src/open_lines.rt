//! The lines of opens and closes.

ghost use Rattle.std.specs.Prelude.{◌≡◌};
ghost use Rattle.fsa_model.specs.OpenLines.{disposition_of, disposition_at, create_fields, close_fields};
ghost use Rattle.fsa_model.specs.Requests.{open_line};
ghost use Rattle.script_read.specs.ReadsAs.{ReadsAs, ReadsOr};

use crate::fault::{LineFault, SYNTAX};
use crate::text::text_at;
use crate::word::{ended, field_at, id_at, mask_at, number_at};
use fsa_types::{Disposition, Request, What};
use std::alloc::Global;

// The disposition that a word names.
fn disposition_of(word: &[u8]) -> Result<Disposition, LineFault>
    ensures { ReadsAs (λ disposition. disposition) result (disposition_of word.now) }
{
    let disposition = if word == b"supersede".as_slice() {
        Disposition::Supersede
    } else if word == b"open".as_slice() {
        Disposition::OpenExisting
    } else if word == b"create".as_slice() {
        Disposition::CreateNew
    } else if word == b"open_if".as_slice() {
        Disposition::OpenIf
    } else if word == b"overwrite".as_slice() {
        Disposition::Overwrite
    } else if word == b"overwrite_if".as_slice() {
        Disposition::OverwriteIf
    } else {
        return Err(SYNTAX);
    };
    Ok(disposition)
}

// The disposition at the front, and what follows it.
#[tactic(auto, unfolding(fsa_model::specs::OpenLines::disposition_at))]
fn disposition_at(bytes: &[u8]) -> Result<(Disposition, &[u8]), LineFault>
    ensures { ReadsAs (λ disposition. (disposition.0, disposition.1.now)) result (disposition_at bytes.now) }
{
    let (word, rest) = field_at(bytes)?;
    let disposition = disposition_of(word)?;
    Ok((disposition, rest))
}

// The fields of `create`.
#[tactic(auto, unfolding(fsa_model::specs::OpenLines::create_fields))]
fn create_fields(alloc: Global, fields: &[u8]) -> Result<What, LineFault>
    ensures { ReadsAs (λ what. what) result (create_fields fields.now) }
{
    let (path, rest) = text_at(alloc, fields)?;
    let (wanted, rest) = mask_at(rest)?;
    let (share, rest) = mask_at(rest)?;
    let (disposition, rest) = disposition_at(rest)?;
    let (options, rest) = mask_at(rest)?;
    let (attributes, rest) = mask_at(rest)?;
    let (key, rest) = number_at(u64::MAX, rest)?;
    ended(rest)?;
    Ok(What::Ask(Request::Create {
        path,
        wanted,
        share,
        disposition,
        options,
        attributes,
        key,
    }))
}

// The fields of `close`.
#[tactic(auto, unfolding(fsa_model::specs::OpenLines::close_fields))]
fn close_fields(fields: &[u8]) -> Result<What, LineFault>
    ensures { ReadsAs (λ what. what) result (close_fields fields.now) }
{
    let (handle, rest) = id_at(fields)?;
    ended(rest)?;
    Ok(What::Ask(Request::Close { handle }))
}

/// What the fields say, where the verb is one of these.
pub fn open_line(alloc: Global, verb: &[u8], fields: &[u8]) -> Result<Option<What>, LineFault>
    ensures { ReadsOr result (open_line verb.now fields.now) }
{
    let what = if verb == b"create".as_slice() {
        create_fields(alloc, fields)
    } else if verb == b"close".as_slice() {
        close_fields(fields)
    } else {
        return Ok(None);
    };
    Ok(Some(what?))
}
