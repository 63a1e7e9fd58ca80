//! Matching by the ends of an expression: the name is read from its last unit to its first, and a
//! row says for each place of the expression whether what stands from there on matches what was
//! read. So it is known at each `.` whether another follows, and a unit of the name costs one step
//! for each unit of the expression. Where no place's rest matches, nothing does, whatever stands before.

ghost use Rattle.std.specs.Prelude.{◌≡◌, ◌==◌, ◌≤◌, ◌<◌, [], false, length, drop};
ghost use Rattle.std.specs.List.{list_any};
ghost use Rattle.fsa_types.specs.CaseTable.{up};
ghost use Rattle.fsa_types.specs.Match.{matches, sign_of, is_dot, is_last_dot};
ghost use Rattle.fsa_types.specs.Paths.{most_name_units};
ghost use Rattle.name_match.specs.Ends.{AreEnds, BeginsUpcased, IsDead, cell, cell_of_empty};

use crate::signs::{DOS_DOT, DOS_QM, DOS_STAR, DOT, QUESTION_MARK, STAR};
use fsa_types::UpcaseTable;

// What is read of the name, by its first unit.
#[derive(Clone, Copy)]
struct First {
    // It is the same as the unit of the expression.
    is_same: bool,
    is_dot: bool,
    is_last_dot: bool,
}

// What stands around a cell of the row.
#[derive(Clone, Copy)]
struct Around {
    // Whether the rest of the expression matches the same name.
    rest: bool,
    // Whether the expression matches the name without its first unit.
    later: bool,
    // Whether the rest matches the name without its first unit.
    next: bool,
}

/// Whether an expression of at most 255 units matches a name.
pub(crate) fn matches_by_ends(table: &UpcaseTable, expression: &[u16], name: &[u16]) -> bool
    requires { length expression.now ≤ most_name_units }
    ensures { result ≡ matches table.now expression.now name.now }
{
    let mut upcased = [0; 255];
    upcase(&mut upcased, table, expression);
    let mut row = [false; 256];
    read_end(&mut row, table, expression);
    let mut dot_follows = false;
    for start in (0..name.len()).rev() {
        let lives = read_unit(
            &mut row,
            table,
            expression,
            &upcased,
            &name[start..],
            dot_follows,
        );
        if !lives {
            return false;
        }
        dot_follows = name[start] == DOT || dot_follows;
    }
    row[0]
}

// Puts the units, upcased, at the front of a row.
fn upcase(upcased: &mut [u16; 255], table: &UpcaseTable, units: &[u16])
    requires { length units.now ≤ most_name_units }
    ensures { BeginsUpcased table.now units.now upcased.new }
{
    for (place, unit) in units.iter().enumerate() {
        upcased[place] = table.up(*unit);
    }
}

// Makes the row for the empty name.
fn read_end(row: &mut [bool; 256], table: &UpcaseTable, expression: &[u16])
    requires { length expression.now ≤ most_name_units }
    ensures { AreEnds table.now expression.now [] row.new }
{
    row[expression.len()] = true;
    for place in (0..expression.len()).rev() {
        row[place] = cell_of_empty(expression[place], row[place + 1]);
    }
}

// Makes the row for a name of that for the name without its first unit. Gives whether a cell of it is set: where none
// is, none will be, whatever stands before the name.
fn read_unit(
    row: &mut [bool; 256],
    table: &UpcaseTable,
    expression: &[u16],
    upcased: &[u16; 255],
    name: &[u16],
    dot_follows: bool,
) -> bool
    requires short { length expression.now ≤ most_name_units }
    requires upcased { BeginsUpcased table.now expression.now upcased.now }
    requires unit { 0 < length name.now }
    requires dot { dot_follows ≡ list_any is_dot (drop 1 name.now) }
    requires row { AreEnds table.now expression.now (drop 1 name.now) row.old }
    ensures row { AreEnds table.now expression.now name.now row.new }
    ensures dead { result ≡ false → IsDead table.now expression.now name.now }
{
    let first = table.up(name[0]);
    let is_dot = name[0] == DOT;
    let is_last_dot = is_dot && !dot_follows;
    let mut next = row[expression.len()];
    row[expression.len()] = false;
    let mut lives = false;
    for place in (0..expression.len()).rev() {
        let later = row[place];
        let rest = row[place + 1];
        let is_same = upcased[place] == first;
        let set = cell(
            expression[place],
            First {
                is_same,
                is_dot,
                is_last_dot,
            },
            Around { rest, later, next },
        );
        row[place] = set;
        lives = lives || set;
        next = later;
    }
    lives
}

// Whether an expression that begins with this unit matches the empty name, where `rest` says
// whether its rest does.
fn cell_of_empty(unit: u16, rest: bool) -> bool
    ensures { result ≡ cell_of_empty (sign_of unit) rest }
{
    matches!(unit, STAR | DOS_STAR | DOS_QM | DOS_DOT) && rest
}

// Whether an expression that begins with this unit matches a name that isn't empty.
fn cell(unit: u16, first: First, around: Around) -> bool
    ensures { result ≡ cell (sign_of unit) first around }
{
    match unit {
        STAR => around.rest || around.later,
        QUESTION_MARK => around.next,
        DOS_STAR => around.rest || (!first.is_last_dot && around.later),
        DOS_QM => {
            if first.is_dot {
                around.rest
            } else {
                around.next
            }
        }
        DOS_DOT => first.is_dot && around.next,
        _ => first.is_same && around.next,
    }
}
