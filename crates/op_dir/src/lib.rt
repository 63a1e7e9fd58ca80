//! Directories over a volume: one is listed, after [MS-FSA] 'Server Requests Querying a Directory', or watched, after
//! 'Server Requests Change Notifications for a Directory'. One try of a QueryDir or a Notify, from its first check.
//!
//! ```text
//! match try_query_dir(alloc, &mut volume, &call, turn) {
//!     Tried::Done(reply) => ..       // entries, or none are left, or a refusal
//!     Tried::NoMemory => ..          // nothing has changed
//!     Tried::Stay(_) | Tried::Hold { .. } => ..    // never: it breaks no oplock and waits for nothing
//! }
//! match try_notify(alloc, &mut volume, &call, turn) {
//!     Tried::Done(reply) => ..       // changes that were due, or that they exceed the room, or a refusal
//!     Tried::Stay(interim) => ..     // nothing is due: it is to be pending
//!     Tried::NoMemory => ..          // nothing has changed
//!     Tried::Hold { .. } => ..       // never: it breaks no oplock
//! }
//! let reply = report(alloc, &mut volume, handle, room)?;         // of one that is pending, once something is due
//! ```
//!
//! The definitions are `QueryDir` of `fsa_model`, with `ShownNumbers` for what an entry tells of its file, and
//! `Watching`. The files here follow them: the expression and the cursor with which a query begins (`begun`), the entries that
//! are still to come (`places`), what is shown of them (`rows`), as many as fit into the room (`listing`),
//! and the checks in order (`query_dir`); and a Notify with its report (`notify`).
//!
//! - The call has to be of its verb. Nothing is asked of the volume.
//! - All memory is taken before the enumeration goes on or a watch begins or reports; nothing else changes. A report
//!   that exceeds its room takes none.
//! - Links are taken one after the other, until these alone fill the room. Each costs a search by its number among the
//!   links of the volume, marked or not, and so does each that is passed over. One that is taken costs two more among
//!   the files, and for its default stream a search by the file in the index of streams, one by number for each stream
//!   of the file up to that one, and two for its length, but for a query of names. A search by number looks at one row
//!   where no number between its own and the last one is missing, and else is a binary one.
//! - Of the changes that were noted since its watch began or last reported, a Notify looks no further than to the first
//!   that is due, and a report no further than to where they exceed its room, or twice at all of them where they fit.
//!   Each change costs its ancestor directories, and one that is due its name.
#![tactic(auto)]

mod begun;
mod kinds;
mod listing;
mod notify;
mod places;
mod query_dir;
mod rows;

pub use notify::{report, try_notify};
pub use query_dir::try_query_dir;
