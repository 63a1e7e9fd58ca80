//! Splits paths of the store into their components and their stream part, which are lent from the
//! path's own units. Names are compared by the case table of `fsa_types`; what holds of their
//! order is said here.
//!
//! ```text
//! let parts = split_path(units)?;      // the units of `\docs\a.txt:note`
//! parts.len()                          // 2
//! parts.component(1)                   // `a.txt`
//! parts.rest(1)                        // `a.txt:note`
//! parts.stream()                       // Some(`note`)
//! split_path(units)                    // of `\docs\..`: Err(BadUnit(6))
//! ```
//!
//! A path is `\` and components with `\` between them; `\` alone is the root. A component has 1 to
//! 255 units, none of them below 0x20 and none of `" / : | < > * ?`, and isn't `.` or `..`. The last
//! component may have a stream part: `:name`, `:name:$DATA` or, for the default stream, `::$DATA`.
//!
//! - Nothing is asked of the units of a path. A place that is asked for has to be there.
//! - No call takes memory. Splitting takes time linear in the units, and so does going over all
//!   components by `components`; `component` and `rest` go over the units before what they give.
//! - Units are compared one by one, upcased: a surrogate pair is two units, and a surrogate may
//!   stand alone. A backslash at the end of a path is a fault, and so is a path that is not full.
#![tactic(auto)]

mod component;
mod fault;
mod order;
mod path;
mod stream;
mod unit_split;

pub use fault::NameFault;
pub use order::order_of_names;
pub use path::{Components, PathParts, split_path};
