//! The lines that wait for a call or cancel one.

ghost use Rattle.std.specs.Prelude.{◌≡◌};
ghost use Rattle.fsa_model.specs.WaitLines.{cancel_fields, wait_fields};
ghost use Rattle.fsa_model.specs.Requests.{wait_line};
ghost use Rattle.script_read.specs.ReadsAs.{ReadsAs, ReadsOr};

use crate::fault::LineFault;
use crate::word::{ended, id_at};
use fsa_types::{Request, What};

// The field of `cancel`.
#[tactic(auto, unfolding(fsa_model::specs::WaitLines::cancel_fields))]
fn cancel_fields(fields: &[u8]) -> Result<What, LineFault>
    ensures { ReadsAs (λ what. what) result (cancel_fields fields.now) }
{
    let (number, rest) = id_at(fields)?;
    ended(rest)?;
    Ok(What::Ask(Request::Cancel { number }))
}

// The field of `wait`.
#[tactic(auto, unfolding(fsa_model::specs::WaitLines::wait_fields))]
fn wait_fields(fields: &[u8]) -> Result<What, LineFault>
    ensures { ReadsAs (λ what. what) result (wait_fields fields.now) }
{
    let (number, rest) = id_at(fields)?;
    ended(rest)?;
    Ok(What::WaitFor(number))
}

/// What the field says, where the verb is one of these.
pub fn wait_line(verb: &[u8], fields: &[u8]) -> Result<Option<What>, LineFault>
    ensures { ReadsOr result (wait_line verb.now fields.now) }
{
    let what = if verb == b"cancel".as_slice() {
        cancel_fields(fields)
    } else if verb == b"wait".as_slice() {
        wait_fields(fields)
    } else {
        return Ok(None);
    };
    Ok(Some(what?))
}
