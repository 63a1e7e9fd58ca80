//! The expression and the cursor with which a query begins.

ghost use Rattle.std.specs.Prelude.{◌≡◌, false, [], IfOk};
ghost use Rattle.fsa_types.specs.Match.{is_refused};
ghost use Rattle.fsa_model.specs.QueryDir.{begun_enumeration, kept_expression};
ghost use Rattle.fsa_model.specs.Volume.{Start};
ghost use Rattle.volume_rows.specs.Cursors.{cursor_of};

use fsa_types::{Name, NoMemory, TryCopy};
use name_match::{Expression, ExpressionFault};
use std::alloc::Global;
use volume_state::{Cursor, HandleRow};

/// An expression that isn't refused, and a cursor.
#[derive(Drop)]
pub(crate) struct Begun {
    pub(crate) expression: Name,
    pub(crate) cursor: Cursor,
}

/// Whether these units are no expression. `NoMemory` where there is none to tell.
pub(crate) fn is_refused(alloc: Global, units: &[u16]) -> Result<bool, NoMemory>
    ensures { IfOk result (λ refused. refused ≡ is_refused units.now) }
{
    match Expression::new(alloc, units) {
        Ok(_) => Ok(false),
        Err(ExpressionFault::Bad) => Ok(true),
        Err(ExpressionFault::NoMemory) => Err(NoMemory),
    }
}

// The expression before, or `*`.
fn earlier_expression(alloc: Global, handle: &HandleRow) -> Result<Name, NoMemory>
    ensures kept { IfOk result (λ name. name ≡ kept_expression handle.now []) }
    ensures sound { IfOk result (λ name. is_refused name ≡ false) }
{
    match &handle.enumeration {
        None => Name::copy_of(alloc, &[0x2A]),
        Some(kept) => kept.expression().copy(alloc),
    }
}

// An expression that isn't empty; in place of an empty one that before, or `*`.
fn kept_expression(alloc: Global, handle: &HandleRow, expression: &Name) -> Result<Name, NoMemory>
    requires sound { is_refused expression.now ≡ false }
    ensures kept { IfOk result (λ name. name ≡ kept_expression handle.now expression.now) }
    ensures sound { IfOk result (λ name. is_refused name ≡ false) }
{
    if expression.units().is_empty() {
        earlier_expression(alloc, handle)
    } else {
        expression.copy(alloc)
    }
}

// An enumeration from the start.
fn begun_anew(alloc: Global, handle: &HandleRow, expression: &Name) -> Result<Begun, NoMemory>
    requires sound { is_refused expression.now ≡ false }
    ensures kept { IfOk result (λ begun. begun.expression ≡ kept_expression handle.now expression.now) }
    ensures start { IfOk result (λ begun. cursor_of begun.cursor ≡ Start) }
    ensures sound { IfOk result (λ begun. is_refused begun.expression ≡ false) }
{
    let expression = kept_expression(alloc, handle, expression)?;
    Ok(Begun {
        expression,
        cursor: Cursor::Start,
    })
}

/// The expression and the cursor of a query: the first one of a handle and a restart begin anew; a later one goes
/// on, and its own expression is ignored. `NoMemory` where there is none for their copies.
pub(crate) fn begun_enumeration(
    alloc: Global,
    handle: &HandleRow,
    expression: &Name,
    restart: bool,
) -> Result<Begun, NoMemory>
    requires sound { is_refused expression.now ≡ false }
    ensures expression { IfOk result (λ begun. begun.expression ≡ (begun_enumeration handle.now expression.now restart).0) }
    ensures cursor { IfOk result (λ begun. cursor_of begun.cursor ≡ (begun_enumeration handle.now expression.now restart).1) }
    ensures sound { IfOk result (λ begun. is_refused begun.expression ≡ false) }
{
    if restart {
        return begun_anew(alloc, handle, expression);
    }
    let Some(kept) = &handle.enumeration else {
        return begun_anew(alloc, handle, expression);
    };
    let expression = kept.expression().copy(alloc)?;
    let cursor = kept.cursor().copy(alloc)?;
    Ok(Begun { expression, cursor })
}
