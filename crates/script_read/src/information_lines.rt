//! The lines that ask for information and set it.

ghost use Rattle.std.specs.Prelude.{◌≡◌};
ghost use Rattle.fsa_model.specs.InformationLines.{info_kind_of, info_kind_at, query_info_fields, set_basic_fields, set_security_fields};
ghost use Rattle.fsa_model.specs.Requests.{information_line};
ghost use Rattle.script_read.specs.ReadsAs.{ReadsAs, ReadsOr};

use crate::dacl::{dacl_at, owner_at};
use crate::fault::{LineFault, SYNTAX};
use crate::word::{ended, field_at, id_at, mask_at, number_at};
use fsa_types::{InfoKind, MOST_BYTES, Request, What};
use std::alloc::Global;

// What a word asks for.
fn info_kind_of(word: &[u8]) -> Result<InfoKind, LineFault>
    ensures { ReadsAs (λ kind. kind) result (info_kind_of word.now) }
{
    let kind = if word == b"basic".as_slice() {
        InfoKind::Basic
    } else if word == b"standard".as_slice() {
        InfoKind::Standard
    } else if word == b"internal".as_slice() {
        InfoKind::Internal
    } else if word == b"tag".as_slice() {
        InfoKind::Tag
    } else if word == b"stream".as_slice() {
        InfoKind::Streams
    } else {
        return Err(SYNTAX);
    };
    Ok(kind)
}

// What is asked for at the front, and what follows it.
#[tactic(auto, unfolding(fsa_model::specs::InformationLines::info_kind_at))]
fn info_kind_at(bytes: &[u8]) -> Result<(InfoKind, &[u8]), LineFault>
    ensures { ReadsAs (λ kind. (kind.0, kind.1.now)) result (info_kind_at bytes.now) }
{
    let (word, rest) = field_at(bytes)?;
    let kind = info_kind_of(word)?;
    Ok((kind, rest))
}

// The fields of `query`.
#[tactic(auto, unfolding(fsa_model::specs::InformationLines::query_info_fields))]
fn query_info_fields(fields: &[u8]) -> Result<What, LineFault>
    ensures { ReadsAs (λ what. what) result (query_info_fields fields.now) }
{
    let (handle, rest) = id_at(fields)?;
    let (kind, rest) = info_kind_at(rest)?;
    let (room, rest) = number_at(u64::from(MOST_BYTES), rest)?;
    ended(rest)?;
    let room = room as u32;
    Ok(What::Ask(Request::QueryInfo { handle, kind, room }))
}

// The fields of `setbasic`.
#[tactic(auto, unfolding(fsa_model::specs::InformationLines::set_basic_fields))]
fn set_basic_fields(fields: &[u8]) -> Result<What, LineFault>
    ensures { ReadsAs (λ what. what) result (set_basic_fields fields.now) }
{
    let (handle, rest) = id_at(fields)?;
    let (creation, rest) = number_at(u64::MAX, rest)?;
    let (access, rest) = number_at(u64::MAX, rest)?;
    let (write, rest) = number_at(u64::MAX, rest)?;
    let (change, rest) = number_at(u64::MAX, rest)?;
    let (attributes, rest) = mask_at(rest)?;
    ended(rest)?;
    Ok(What::Ask(Request::SetBasic {
        handle,
        creation,
        access,
        write,
        change,
        attributes,
    }))
}

// The fields of `setsecurity`.
#[tactic(auto, unfolding(fsa_model::specs::InformationLines::set_security_fields))]
fn set_security_fields(alloc: Global, fields: &[u8]) -> Result<What, LineFault>
    ensures { ReadsAs (λ what. what) result (set_security_fields fields.now) }
{
    let (handle, rest) = id_at(fields)?;
    let (owner, rest) = owner_at(rest)?;
    let (dacl, rest) = dacl_at(alloc, rest)?;
    ended(rest)?;
    Ok(What::Ask(Request::SetSecurity {
        handle,
        owner,
        dacl,
    }))
}

/// What the fields say, where the verb is one of these.
pub fn information_line(
    alloc: Global,
    verb: &[u8],
    fields: &[u8],
) -> Result<Option<What>, LineFault>
    ensures { ReadsOr result (information_line verb.now fields.now) }
{
    let what = if verb == b"query".as_slice() {
        query_info_fields(fields)
    } else if verb == b"setbasic".as_slice() {
        set_basic_fields(fields)
    } else if verb == b"setsecurity".as_slice() {
        set_security_fields(alloc, fields)
    } else {
        return Ok(None);
    };
    Ok(Some(what?))
}
