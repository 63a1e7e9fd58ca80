//! The open of a file over a volume, after [MS-FSA] 'Server Requests an Open of a File': one try of a
//! Create, from its first check.
//!
//! ```text
//! match try_create(alloc, &mut volume, &call, turn) {
//!     Tried::Done(reply) => ..                   // it has ended, well or with a refusal
//!     Tried::Hold { blockers, interim } => ..    // it waits for these breaks, and is tried again then
//!     Tried::Stay(_) => ..                       // an open never stays
//!     Tried::NoMemory => ..                      // nothing has changed, not even a break has begun
//! }
//! ```
//!
//! The definition is `Open` of `fsa_model`, with `Walk` for the path: the checks of the public standard in
//! this project's order. The files here follow it: what is asked for (`asked`, `opening`), the owner of what
//! is made, and what an overwrite may not uncover (`rights`), what is made (`make`), what is there and is opened
//! or overwritten (`open`), the checks in order (`create`), the break of a clash (`breaks`) and how it ends
//! (`ends`). The break itself, the walk along the path and what a file grants are those of `op_parts`.
//!
//! - The call has to be a Create, its client one of the volume's with no handle of the call's number, and
//!   numbers have to be left for a file, a link, two streams, a handle and breaks.
//! - All room is taken before the first change. A refusal leaves the volume as it was, but for the breaks
//!   that a clash began.
//! - It costs time linear in the units of the path, a binary search among the directories and one among
//!   the names of a directory for each component, and the break and the look at the handles of what is found.
#![tactic(auto)]

mod asked;
mod breaks;
mod create;
mod ends;
mod make;
mod open;
mod opening;
mod rights;
mod room;

pub use create::try_create;
