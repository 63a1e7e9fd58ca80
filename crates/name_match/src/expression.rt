//! Expressions: made once, and then matched with many names.

ghost use Rattle.std.specs.Prelude.{ℕ, ◌≡◌, ◌↔◌, IfOk, IsErrOf, IsTrue, List, nat_eq, true};
ghost use Rattle.std.specs.List.{list_any, starts_with, take_while};
ghost use Rattle.fsa_types.specs.CaseTable.{upcased};
ghost use Rattle.fsa_types.specs.Match.{is_bad_expression_unit, is_refused, matches};
ghost use Rattle.name_match.specs.Plan.{is_literal};

use crate::ends::matches_by_ends;
use crate::plan::{Plan, has_ending, literal_count};
use crate::signs::is_bad;
use fsa_types::{NoMemory, TryCopy, UpcaseTable};
use std::alloc::{AllocError, Global};
use std::marker::Model;

// The largest number of units of an expression.
const MOST_UNITS: usize = 255;

/// An expression: a list of at most 255 units.
#[derive(Drop)]
pub struct Expression {
    units: Vec<u16>,
    plan: Plan,
}

impl Model for Expression {
    ghost use Rattle.std.specs.Prelude.{List, ℕ};
    ghost use Rattle.name_match.specs.ExpressionPlan.{IsExpression};

    ghost Value = { List ℕ };

    ghost view = { λ e. e.units.items };

    ghost invariant = { λ e. IsExpression e.units.items e.plan };
}

/// Why there is no expression of some units.
#[derive(Clone, Copy, Debug)]
pub enum ExpressionFault {
    /// There are more than 255 units, or one of them is below 0x20 or one of `\ / : |`.
    Bad,
    /// There was no memory for it.
    NoMemory,
}

impl From<AllocError> for ExpressionFault {
    ghost use Rattle.std.specs.Prelude.{◌≡◌};
    ghost use Rattle.name_match.specs.declared.expression.ExpressionFault.{ExpressionFault};

    ghost from_gives = { λ _ fault. fault ≡ ExpressionFault.NoMemory };

    fn from(_error: AllocError) -> ExpressionFault {
        ExpressionFault::NoMemory
    }
}

impl Expression {
    /// An expression of these units. `Bad` exactly where they are refused.
    pub fn new(alloc: Global, units: &[u16]) -> Result<Expression, ExpressionFault>
        ensures ok { IfOk result (λ expression. expression ≡ units.now) }
        ensures bad { IsErrOf result ExpressionFault.Bad ↔ IsTrue (is_refused units.now) }
    {
        if is_refused(units) {
            return Err(ExpressionFault::Bad);
        }
        let plan = Plan::of(units);
        let units = Vec::from_slice(alloc, units)?;
        Ok(Expression { units, plan })
    }

    /// Whether the expression matches a name, whose units and its own are compared by this table.
    pub fn matches(&self, table: &UpcaseTable, units: &[u16]) -> bool
        ensures { result ≡ matches table.now self.now units.now }
    {
        match self.plan {
            Plan::Every => true,
            Plan::Literal => table.same_name(&self.units, units),
            Plan::Suffix => has_ending(table, &self.units[1..], units),
            Plan::Ends => matches_by_ends(table, &self.units, units),
        }
    }

    /// The literal units that stand before the first sign. Each name that the expression matches begins with these,
    /// whatever the table by which they are compared.
    pub fn beginning(&self) -> &[u16]
        ensures units { result.now ≡ take_while is_literal self.now }
        ensures begins { (table : List (ℕ × ℕ)) (name : List ℕ) → matches table self.now name ≡ true → starts_with nat_eq (upcased table name) (upcased table result.now) ≡ true }
    {
        let count = literal_count(&self.units);
        &self.units[..count]
    }
}

impl TryCopy for Expression {
    fn copy(&self, alloc: Global) -> Result<Expression, NoMemory> {
        let units = Vec::from_slice(alloc, &self.units)?;
        Ok(Expression {
            units,
            plan: self.plan,
        })
    }
}

// Whether these units are refused.
fn is_refused(units: &[u16]) -> bool
    ensures { result ≡ is_refused units.now }
{
    units.len() > MOST_UNITS || has_bad(units)
}

// Whether one of these units is in no expression.
fn has_bad(units: &[u16]) -> bool
    ensures { result ≡ list_any is_bad_expression_unit units.now }
{
    units.iter().any(|unit| is_bad(*unit))
}
