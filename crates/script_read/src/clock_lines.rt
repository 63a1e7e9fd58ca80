//! The line by which the clock goes on.

ghost use Rattle.std.specs.Prelude.{◌≡◌};
ghost use Rattle.fsa_model.specs.ClockLines.{tick_fields};
ghost use Rattle.fsa_model.specs.Requests.{clock_line};
ghost use Rattle.script_read.specs.ReadsAs.{ReadsAs, ReadsOr};

use crate::fault::LineFault;
use crate::word::{ended, id_at};
use fsa_types::What;

// The fields of `tick`.
#[tactic(auto, unfolding(fsa_model::specs::ClockLines::tick_fields))]
fn tick_fields(fields: &[u8]) -> Result<What, LineFault>
    ensures { ReadsAs (λ what. what) result (tick_fields fields.now) }
{
    let (ticks, rest) = id_at(fields)?;
    ended(rest)?;
    Ok(What::Tick(ticks))
}

/// What the field says, where the verb is this one.
pub fn clock_line(verb: &[u8], fields: &[u8]) -> Result<Option<What>, LineFault>
    ensures { ReadsOr result (clock_line verb.now fields.now) }
{
    let what = if verb == b"tick".as_slice() {
        tick_fields(fields)
    } else {
        return Ok(None);
    };
    Ok(Some(what?))
}
