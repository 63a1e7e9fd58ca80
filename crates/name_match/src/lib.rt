//! Expressions that stand for many names: whether a name is in one, after [MS-FSA] 'Algorithm for
//! Determining if a FileName Is in an Expression'.
//!
//! ```text
//! let expression = Expression::new(alloc, &units)?;       // `*.txt`; Bad where it is refused
//! expression.matches(&table, &name)                       // true for `a.b.TXT`
//! expression.beginning()                                  // empty here; of `a.b*` it is `a.b`
//! ```
//!
//! The units of an expression, each compared by the case table that the caller hands in:
//!
//! - `*` stands for any units, `?` for one;
//! - `<` (DOS_STAR) stands for any units, but doesn't take the last `.` of the name: `<.txt` takes
//!   what `*.txt` takes, where the table leaves `.` alone, and `<` alone takes a name without a `.`;
//! - `>` (DOS_QM) stands for one unit that is no `.`, or for nothing before a `.` and at the end;
//! - `"` (DOS_DOT) stands for a `.`, or for nothing at the end;
//! - any other unit stands for itself, in either case.
//!
//! To `<`, `>` and `"` a `.` is that unit alone, whatever the table says.
//!
//! `beginning` lends the literal units before the first sign, with which each name begins that is matched. So who has
//! names in order needs to look only at those that begin so.
//!
//! It asks nothing of its caller: any units are an expression or `Bad`, any units are a name.
//!
//! **Cost.** An expression is looked at once when it is made. `*`, literal units alone, and `*` with
//! literal units after it are matched in one walk along the name's end. Everything else takes as
//! many steps as the product of the two lengths and no more, whatever the expression, and goes no
//! further once the end of the name that was read is matched from no place of it on. The case table
//! is asked once for each unit of the expression and once for each unit of the name. No match takes
//! memory; its stack is about a kilobyte, whatever the name.
//!
//! **Caveats.** An empty expression matches the empty name alone; what it means in an enumeration is
//! for the caller to say.
#![tactic(auto)]

mod ends;
mod expression;
mod plan;
mod signs;

pub use expression::{Expression, ExpressionFault};
