//! The requests: a verb, and what the lines of its file say.

ghost use Rattle.std.specs.Prelude.{◌≡◌};
ghost use Rattle.fsa_model.specs.Requests.{what_of};
ghost use Rattle.script_read.specs.ReadsAs.{ReadsAs};

use crate::byte_lines::byte_line;
use crate::clock_lines::clock_line;
use crate::control_lines::control_line;
use crate::fault::{LineFault, SYNTAX};
use crate::information_lines::information_line;
use crate::listing_lines::listing_line;
use crate::lock_lines::lock_line;
use crate::name_lines::name_line;
use crate::open_lines::open_line;
use crate::oplock_lines::oplock_line;
use crate::wait_lines::wait_line;
use fsa_types::What;
use std::alloc::Global;

/// What a verb and its fields say.
#[tactic(auto, unfolding(fsa_model::specs::Requests::what_of))]
pub fn what_of(alloc: Global, verb: &[u8], fields: &[u8]) -> Result<What, LineFault>
    ensures { ReadsAs (λ what. what) result (what_of verb.now fields.now) }
{
    let what = if let Some(what) = open_line(alloc, verb, fields)? {
        what
    } else if let Some(what) = byte_line(alloc, verb, fields)? {
        what
    } else if let Some(what) = lock_line(verb, fields)? {
        what
    } else if let Some(what) = oplock_line(verb, fields)? {
        what
    } else if let Some(what) = name_line(alloc, verb, fields)? {
        what
    } else if let Some(what) = information_line(alloc, verb, fields)? {
        what
    } else if let Some(what) = listing_line(alloc, verb, fields)? {
        what
    } else if let Some(what) = control_line(alloc, verb, fields)? {
        what
    } else if let Some(what) = clock_line(verb, fields)? {
        what
    } else if let Some(what) = wait_line(verb, fields)? {
        what
    } else {
        return Err(SYNTAX);
    };
    Ok(what)
}
