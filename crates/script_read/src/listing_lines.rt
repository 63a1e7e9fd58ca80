//! The lines that list and watch a directory.

ghost use Rattle.std.specs.Prelude.{◌≡◌};
ghost use Rattle.fsa_model.specs.ListingLines.{dir_kind_of, dir_kind_at, query_dir_fields, notify_fields};
ghost use Rattle.fsa_model.specs.Requests.{listing_line};
ghost use Rattle.script_read.specs.ReadsAs.{ReadsAs, ReadsOr};

use crate::fault::{LineFault, SYNTAX};
use crate::text::text_at;
use crate::word::{choice_at, ended, field_at, id_at, mask_at, number_at};
use fsa_types::{DirKind, MOST_BYTES, Request, What};
use std::alloc::Global;

// The layout that a word names.
fn dir_kind_of(word: &[u8]) -> Result<DirKind, LineFault>
    ensures { ReadsAs (λ kind. kind) result (dir_kind_of word.now) }
{
    let kind = if word == b"names".as_slice() {
        DirKind::Names
    } else if word == b"dir".as_slice() {
        DirKind::Dir
    } else if word == b"full".as_slice() {
        DirKind::Full
    } else if word == b"idfull".as_slice() {
        DirKind::IdFull
    } else {
        return Err(SYNTAX);
    };
    Ok(kind)
}

// The layout at the front, and what follows it.
#[tactic(auto, unfolding(fsa_model::specs::ListingLines::dir_kind_at))]
fn dir_kind_at(bytes: &[u8]) -> Result<(DirKind, &[u8]), LineFault>
    ensures { ReadsAs (λ kind. (kind.0, kind.1.now)) result (dir_kind_at bytes.now) }
{
    let (word, rest) = field_at(bytes)?;
    let kind = dir_kind_of(word)?;
    Ok((kind, rest))
}

// The fields of `querydir`.
#[tactic(auto, unfolding(fsa_model::specs::ListingLines::query_dir_fields))]
fn query_dir_fields(alloc: Global, fields: &[u8]) -> Result<What, LineFault>
    ensures { ReadsAs (λ what. what) result (query_dir_fields fields.now) }
{
    let (handle, rest) = id_at(fields)?;
    let (kind, rest) = dir_kind_at(rest)?;
    let (expression, rest) = text_at(alloc, rest)?;
    let (restart, rest) = choice_at(b"restart", b"go", rest)?;
    let (room, rest) = number_at(u64::from(MOST_BYTES), rest)?;
    ended(rest)?;
    let room = room as u32;
    Ok(What::Ask(Request::QueryDir {
        handle,
        kind,
        expression,
        restart,
        room,
    }))
}

// The fields of `notify`.
#[tactic(auto, unfolding(fsa_model::specs::ListingLines::notify_fields))]
fn notify_fields(fields: &[u8]) -> Result<What, LineFault>
    ensures { ReadsAs (λ what. what) result (notify_fields fields.now) }
{
    let (handle, rest) = id_at(fields)?;
    let (filter, rest) = mask_at(rest)?;
    let (tree, rest) = choice_at(b"tree", b"flat", rest)?;
    let (room, rest) = number_at(u64::from(MOST_BYTES), rest)?;
    ended(rest)?;
    let room = room as u32;
    Ok(What::Ask(Request::Notify {
        handle,
        filter,
        tree,
        room,
    }))
}

/// What the fields say, where the verb is one of these.
pub fn listing_line(alloc: Global, verb: &[u8], fields: &[u8]) -> Result<Option<What>, LineFault>
    ensures { ReadsOr result (listing_line verb.now fields.now) }
{
    let what = if verb == b"querydir".as_slice() {
        query_dir_fields(alloc, fields)
    } else if verb == b"notify".as_slice() {
        notify_fields(fields)
    } else {
        return Ok(None);
    };
    Ok(Some(what?))
}
