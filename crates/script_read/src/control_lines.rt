//! The lines of reparse points and of quotas.

ghost use Rattle.std.specs.Prelude.{◌≡◌};
ghost use Rattle.fsa_model.specs.ControlLines.{set_reparse_fields, get_reparse_fields, delete_reparse_fields, set_quota_fields, query_quota_fields};
ghost use Rattle.fsa_model.specs.Requests.{control_line};
ghost use Rattle.script_read.specs.ReadsAs.{ReadsAs, ReadsOr};

use crate::fault::LineFault;
use crate::text::string_at;
use crate::word::{ended, id_at, mask_at, number_at};
use fsa_types::{MOST_BYTES, Request, What};
use std::alloc::Global;

// The fields of `setreparse`.
#[tactic(auto, unfolding(fsa_model::specs::ControlLines::set_reparse_fields))]
fn set_reparse_fields(alloc: Global, fields: &[u8]) -> Result<What, LineFault>
    ensures { ReadsAs (λ what. what) result (set_reparse_fields fields.now) }
{
    let (handle, rest) = id_at(fields)?;
    let (bytes, rest) = string_at(alloc, rest)?;
    ended(rest)?;
    Ok(What::Ask(Request::SetReparse { handle, bytes }))
}

// The fields of `getreparse`.
#[tactic(auto, unfolding(fsa_model::specs::ControlLines::get_reparse_fields))]
fn get_reparse_fields(fields: &[u8]) -> Result<What, LineFault>
    ensures { ReadsAs (λ what. what) result (get_reparse_fields fields.now) }
{
    let (handle, rest) = id_at(fields)?;
    let (room, rest) = number_at(u64::from(MOST_BYTES), rest)?;
    ended(rest)?;
    let room = room as u32;
    Ok(What::Ask(Request::GetReparse { handle, room }))
}

// The fields of `deletereparse`.
#[tactic(auto, unfolding(fsa_model::specs::ControlLines::delete_reparse_fields))]
fn delete_reparse_fields(fields: &[u8]) -> Result<What, LineFault>
    ensures { ReadsAs (λ what. what) result (delete_reparse_fields fields.now) }
{
    let (handle, rest) = id_at(fields)?;
    let (tag, rest) = mask_at(rest)?;
    ended(rest)?;
    Ok(What::Ask(Request::DeleteReparse { handle, tag }))
}

// The fields of `setquota`.
#[tactic(auto, unfolding(fsa_model::specs::ControlLines::set_quota_fields))]
fn set_quota_fields(fields: &[u8]) -> Result<What, LineFault>
    ensures { ReadsAs (λ what. what) result (set_quota_fields fields.now) }
{
    let (sid, rest) = id_at(fields)?;
    let (limit, rest) = number_at(u64::MAX, rest)?;
    ended(rest)?;
    Ok(What::Ask(Request::SetQuota { sid, limit }))
}

// The field of `queryquota`.
#[tactic(auto, unfolding(fsa_model::specs::ControlLines::query_quota_fields))]
fn query_quota_fields(fields: &[u8]) -> Result<What, LineFault>
    ensures { ReadsAs (λ what. what) result (query_quota_fields fields.now) }
{
    let (sid, rest) = id_at(fields)?;
    ended(rest)?;
    Ok(What::Ask(Request::QueryQuota { sid }))
}

/// What the fields say, where the verb is one of these.
pub fn control_line(alloc: Global, verb: &[u8], fields: &[u8]) -> Result<Option<What>, LineFault>
    ensures { ReadsOr result (control_line verb.now fields.now) }
{
    let what = if verb == b"setreparse".as_slice() {
        set_reparse_fields(alloc, fields)
    } else if verb == b"getreparse".as_slice() {
        get_reparse_fields(fields)
    } else if verb == b"deletereparse".as_slice() {
        delete_reparse_fields(fields)
    } else if verb == b"setquota".as_slice() {
        set_quota_fields(fields)
    } else if verb == b"queryquota".as_slice() {
        query_quota_fields(fields)
    } else {
        return Ok(None);
    };
    Ok(Some(what?))
}
