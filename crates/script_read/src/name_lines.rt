//! The lines that name and delete: renames, links and marks for deletion.

ghost use Rattle.std.specs.Prelude.{◌≡◌};
ghost use Rattle.fsa_model.specs.NameLines.{rename_fields, link_fields, set_disposition_fields};
ghost use Rattle.fsa_model.specs.Requests.{name_line};
ghost use Rattle.script_read.specs.ReadsAs.{ReadsAs, ReadsOr};

use crate::fault::LineFault;
use crate::text::text_at;
use crate::word::{choice_at, ended, id_at};
use fsa_types::{Request, What};
use std::alloc::Global;

// The fields of `rename`.
#[tactic(auto, unfolding(fsa_model::specs::NameLines::rename_fields))]
fn rename_fields(alloc: Global, fields: &[u8]) -> Result<What, LineFault>
    ensures { ReadsAs (λ what. what) result (rename_fields fields.now) }
{
    let (handle, rest) = id_at(fields)?;
    let (path, rest) = text_at(alloc, rest)?;
    let (replace, rest) = choice_at(b"replace", b"keep", rest)?;
    ended(rest)?;
    Ok(What::Ask(Request::Rename {
        handle,
        path,
        replace,
    }))
}

// The fields of `link`.
#[tactic(auto, unfolding(fsa_model::specs::NameLines::link_fields))]
fn link_fields(alloc: Global, fields: &[u8]) -> Result<What, LineFault>
    ensures { ReadsAs (λ what. what) result (link_fields fields.now) }
{
    let (handle, rest) = id_at(fields)?;
    let (path, rest) = text_at(alloc, rest)?;
    let (replace, rest) = choice_at(b"replace", b"keep", rest)?;
    ended(rest)?;
    Ok(What::Ask(Request::Link {
        handle,
        path,
        replace,
    }))
}

// The fields of `setdelete`.
#[tactic(auto, unfolding(fsa_model::specs::NameLines::set_disposition_fields))]
fn set_disposition_fields(fields: &[u8]) -> Result<What, LineFault>
    ensures { ReadsAs (λ what. what) result (set_disposition_fields fields.now) }
{
    let (handle, rest) = id_at(fields)?;
    let (delete, rest) = choice_at(b"yes", b"no", rest)?;
    ended(rest)?;
    Ok(What::Ask(Request::SetDisposition { handle, delete }))
}

/// What the fields say, where the verb is one of these.
pub fn name_line(alloc: Global, verb: &[u8], fields: &[u8]) -> Result<Option<What>, LineFault>
    ensures { ReadsOr result (name_line verb.now fields.now) }
{
    let what = if verb == b"rename".as_slice() {
        rename_fields(alloc, fields)
    } else if verb == b"link".as_slice() {
        link_fields(alloc, fields)
    } else if verb == b"setdelete".as_slice() {
        set_disposition_fields(fields)
    } else {
        return Ok(None);
    };
    Ok(Some(what?))
}
