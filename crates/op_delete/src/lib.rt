//! Marking for deletion, closing a handle, and leaving, over a volume, after [MS-FSA] 'Server Requests
//! Setting of File Information', FileDispositionInformation, and 'Server Requests Closing an Open': one try
//! of a SetDisposition, of a Close, and of a client that leaves.
//!
//! ```text
//! match try_close(alloc, &mut volume, &call, turn) {
//!     Tried::Done(reply) => ..       // the handle is closed, or there is none
//!     Tried::NoMemory => ..          // nothing has changed, not even a pending call has ended
//!     _ => ..                        // a close is never held and never stays; nor is a leaving
//! }
//! match try_set_disposition(alloc, &mut volume, &call, turn) {
//!     Tried::Hold { blockers, .. } => ..     // an oplock has to be broken first
//!     _ => ..                                // as a close; it never stays
//! }
//! ```
//!
//! The definitions are `SetDisposition` and `Close` of `fsa_model`. The files here follow them: what is
//! marked (`marks`), a SetDisposition (`disposition`); the pending calls that end with a handle or a client
//! (`ends`), what goes with its last handle (`sweep`), the room that is taken first (`room`), a close
//! (`close`), and a leaving (`leave`).
//!
//! - The call has to be a SetDisposition, a Close or a `Leave`. Of the last two the client has to be one of
//!   the volume's; a SetDisposition needs numbers for breaks. Pending calls, locks, oplocks, watches and
//!   marks may be there.
//! - All room is taken before the first change: for a SetDisposition that of a call that is held; for a close
//!   as many ends as calls are pending, and two notes for each handle that is closed. What is noted later
//!   takes no more room than it would have taken then.
//! - A close costs a look at the pending calls that name the handle, and a few looks through the other tables;
//!   a leaving costs that for each handle of the client, each of which is found in time logarithmic in all handles,
//!   and a look through all pending calls.
#![tactic(auto)]

mod close;
mod disposition;
mod ends;
mod leave;
mod marks;
mod room;
mod sweep;

pub use close::try_close;
pub use disposition::try_set_disposition;
pub use leave::try_leave;
