//! The lines that lock and unlock byte ranges.

ghost use Rattle.std.specs.Prelude.{◌≡◌};
ghost use Rattle.fsa_model.specs.LockLines.{lock_fields, unlock_fields};
ghost use Rattle.fsa_model.specs.Requests.{lock_line};
ghost use Rattle.script_read.specs.ReadsAs.{ReadsAs, ReadsOr};

use crate::fault::LineFault;
use crate::word::{choice_at, ended, id_at, number_at};
use fsa_types::{Request, What};

// The fields of `lock`.
#[tactic(auto, unfolding(fsa_model::specs::LockLines::lock_fields))]
fn lock_fields(fields: &[u8]) -> Result<What, LineFault>
    ensures { ReadsAs (λ what. what) result (lock_fields fields.now) }
{
    let (handle, rest) = id_at(fields)?;
    let (at, rest) = number_at(u64::MAX, rest)?;
    let (count, rest) = number_at(u64::MAX, rest)?;
    let (exclusive, rest) = choice_at(b"ex", b"sh", rest)?;
    let (wait, rest) = choice_at(b"wait", b"now", rest)?;
    ended(rest)?;
    Ok(What::Ask(Request::Lock {
        handle,
        at,
        count,
        exclusive,
        wait,
    }))
}

// The fields of `unlock`.
#[tactic(auto, unfolding(fsa_model::specs::LockLines::unlock_fields))]
fn unlock_fields(fields: &[u8]) -> Result<What, LineFault>
    ensures { ReadsAs (λ what. what) result (unlock_fields fields.now) }
{
    let (handle, rest) = id_at(fields)?;
    let (at, rest) = number_at(u64::MAX, rest)?;
    let (count, rest) = number_at(u64::MAX, rest)?;
    ended(rest)?;
    Ok(What::Ask(Request::Unlock { handle, at, count }))
}

/// What the fields say, where the verb is one of these.
pub fn lock_line(verb: &[u8], fields: &[u8]) -> Result<Option<What>, LineFault>
    ensures { ReadsOr result (lock_line verb.now fields.now) }
{
    let what = if verb == b"lock".as_slice() {
        lock_fields(fields)
    } else if verb == b"unlock".as_slice() {
        unlock_fields(fields)
    } else {
        return Ok(None);
    };
    Ok(Some(what?))
}
