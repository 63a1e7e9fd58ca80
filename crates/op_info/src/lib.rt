//! The information of a file over a volume: what is told of it, after [MS-FSA] 'Server Requests a Query of
//! File Information', its times and attributes, after 'Server Requests Setting of File Information', and its
//! owner and access list, after 'Server Requests Setting of Security Information'. Each is one try of the
//! call, from its first check.
//!
//! ```text
//! match try_query_info(alloc, &mut volume, &call, turn) {
//!     Tried::Done(reply) => ..       // it has ended, well or with a refusal
//!     Tried::NoMemory => ..          // nothing has changed
//!     Tried::Stay(_) | Tried::Hold { .. } => ..    // never: it breaks no oplock and waits for nothing
//! }
//! ```
//!
//! The definitions are `QueryInfo`, `SetBasic` and `Security` of `fsa_model`, and the files here follow them.
//! Of a query: the buffers without entries (`kinds`), the streams (`streams`), and the checks in order
//! (`query`). Of times and attributes: times (`times`), what is asked and noted (`basics`), and the changes
//! and the checks (`basic`). Of the owner and the access list: what is asked for and the rights that it needs
//! (`asked`), the limit of a new owner (`quota`), the list with its generic rights mapped (`list`), the changes
//! (`change`) and the checks (`security`). `room` serves all.
//!
//! - The call has to be of its kind; a SetSecurity has at most 32 entries, and its client is one of the
//!   volume's.
//! - All room is taken after the checks and before the first change. A refusal leaves the volume as it was,
//!   and a query always does.
//! - A list of streams goes over the streams of the file once for each of them, and what a new owner is charged over
//!   those of the file once; a note looks up a link for each ancestor.
#![tactic(auto)]

mod asked;
mod basic;
mod basics;
mod change;
mod kinds;
mod list;
mod query;
mod quota;
mod room;
mod security;
mod streams;
mod times;

pub use basic::try_set_basic;
pub use query::try_query_info;
pub use security::try_set_security;
