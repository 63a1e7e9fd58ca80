//! One volume of which the threads of many clients ask: the volume's machine under the turn lock.
//!
//! ```text
//! let (volume, mut passes) = SharedVolume::start(alloc, setup)?;   // a pass for each client, in order
//!
//! let (number, answer) = volume.submit(rt, alloc, &mut passes[0], what)?;  // waits for its turn
//! match volume.try_submit(alloc, &mut passes[1], what) { .. }              // may answer Busy
//! match volume.poll(alloc, &mut passes[0], number) {
//!     Poll::Done(reply) => ..   // so the call has ended
//!     Poll::Pending => ..       // it is pending
//!     Poll::Busy => ..          // another client's turn was under way
//!     Poll::NoMemory => ..      // its reply holds a list, and there is no memory for a copy
//! }
//! let status = volume.wait_for(rt, alloc, &mut passes[0], number)?;        // waits until it has ended
//! let entries = volume.front(&mut passes[1]);                              // counts the entries
//!
//! let machine = volume.close(passes);                                      // all passes, in order
//! ```
//!
//! What each call says is said of what its pass has seen of the history: the definitions' run of these
//! entries gave out this answer, or has ended this call so, or has it pending (`Shared`). What a pass has
//! seen can at all times be run, has each client's calls numbered from 1, and has no more than 1,000,000
//! entries (`IsMachineHistory`). The rest is as the turn lock says it, in the first page of `history_lock`, whose
//! caveats are this crate's too.
//!
//! A look takes the turn while it looks for the end of its call, among those that share the slot of its number, and
//! copies its reply; a wait sleeps until the history gets longer, and looks once for each time.
#![tactic(auto)]

mod engine;
mod shared;
mod views;
mod volume;

pub use engine::Engine;
pub use shared::SharedVolume;
pub use views::{EntryView, SetupView};
pub use volume::Pass;
