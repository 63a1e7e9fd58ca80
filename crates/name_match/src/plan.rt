//! How an expression is matched: a straight way where there is one.

ghost use Rattle.std.specs.Prelude.{◌≡◌, ◌≤◌, length};
ghost use Rattle.std.specs.List.{list_all, prefix_len};
ghost use Rattle.name_match.specs.Plan.{is_literal, has_ending};

use crate::signs::{STAR, is_literal};
use fsa_types::UpcaseTable;

/// The way in which an expression is matched.
#[derive(Clone, Copy)]
pub(crate) enum Plan {
    /// `*` alone: every name.
    Every,
    /// Literal units alone: the same name.
    Literal,
    /// `*` and then literal units alone: a name that ends in them.
    Suffix,
    /// Anything else: by the ends of the expression.
    Ends,
}

impl Plan {
    ghost use Rattle.std.specs.Prelude.{◌∷◌};
    ghost use Rattle.name_match.specs.ExpressionPlan.{plan_of};

    // The plan for these units.
    pub(crate) fn of(units: &[u16]) -> Plan
        ensures { result ≡ plan_of units.now }
    {
        match units.split_first() {
            None => Plan::Literal,
            Some((first, others)) => Plan::of_some(*first, others),
        }
    }

    // The plan for a unit and others after it.
    fn of_some(first: u16, others: &[u16]) -> Plan
        ensures { result ≡ plan_of (first ∷ others.now) }
    {
        match first {
            _ if !are_literal(others) => Plan::Ends,
            STAR if others.is_empty() => Plan::Every,
            STAR => Plan::Suffix,
            _ if is_literal(first) => Plan::Literal,
            _ => Plan::Ends,
        }
    }
}

// Whether all units stand for themselves.
fn are_literal(units: &[u16]) -> bool
    ensures { result ≡ list_all is_literal units.now }
{
    units.iter().all(|unit| is_literal(*unit))
}

// How many units stand for themselves before the first that doesn't.
pub(crate) fn literal_count(units: &[u16]) -> usize
    ensures bound { result ≤ length units.now }
    ensures count { result ≡ prefix_len is_literal units.now }
{
    for (count, unit) in units.iter().enumerate() {
        if !is_literal(*unit) {
            return count;
        }
    }
    units.len()
}

// Whether a name ends in these units.
pub(crate) fn has_ending(table: &UpcaseTable, literal: &[u16], name: &[u16]) -> bool
    ensures { result ≡ has_ending table.now literal.now name.now }
{
    match name.len().checked_sub(literal.len()) {
        Some(start) => table.same_name(literal, &name[start..]),
        None => false,
    }
}
