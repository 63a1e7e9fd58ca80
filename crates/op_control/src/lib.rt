//! Reparse points and quotas over a volume: one try of each call, from its first check.
//!
//! ```text
//! match try_set_reparse(alloc, &mut volume, &call, turn) {
//!     Tried::Done(reply) => ..       // it has ended, well or with a refusal
//!     Tried::NoMemory => ..          // nothing has changed
//!     Tried::Stay(_) | Tried::Hold { .. } => ..    // never: none breaks an oplock or waits for anything
//! }
//! ```
//!
//! The calls: `try_set_reparse`, `try_get_reparse` and `try_delete_reparse`, after [MS-FSA]
//! 'FSCTL_SET_REPARSE_POINT', 'FSCTL_GET_REPARSE_POINT' and 'FSCTL_DELETE_REPARSE_POINT'; `try_set_quota`
//! and `try_query_quota`, after 'Server Requests Setting Quota Information' and 'Server Requests Querying
//! Quota Information'. The definitions are `ReparsePoints` and `Quota` of `fsa_model`. The files here follow
//! them: a point set (`set_reparse`), asked for (`get_reparse`) and removed (`delete_reparse`), what a set
//! and a removal share (`points`), and limits and charges (`quota`).
//!
//! - The call has to be of its verb and to fit, and the client of a SetQuota one of the volume's.
//! - All memory is taken after the checks and before the first change. A refusal leaves the volume as it was.
//! - No reparse point is followed here: what meets one on the way is told (`op_parts`).
//! - A set or a removal is noted, which looks up a link for each ancestor; a charge is asked of a tally.
#![tactic(auto)]

mod delete_reparse;
mod get_reparse;
mod points;
mod quota;
mod set_reparse;

pub use delete_reparse::try_delete_reparse;
pub use get_reparse::try_get_reparse;
pub use quota::{try_query_quota, try_set_quota};
pub use set_reparse::try_set_reparse;
