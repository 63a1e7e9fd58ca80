//! The machine: one turn at a time over a volume, and the history of its turns.
//!
//! ```text
//! let mut machine = VolumeMachine::new(alloc, setup)?;
//! match machine.turn(alloc, call) {
//!     Ok(out) => ..                                // one entry more; what the turn gave out
//!     Err((call, Why::NoMemory)) => ..             // nothing has changed
//!     Err((call, Why::HistoryFull)) => ..          // there are 1,000,000 entries
//! }
//! ```
//!
//! A machine is seen as its setup, the list of its entries, for how many turns to come it has room, and where its
//! log of changes begins. Its volume is that of the run of its entries, and what it keeps of each turn is what that
//! turn of the run gave out; no call goes over the history again.
//!
//! - A turn (`turns`) takes its room, tries its own call (`own_call`), and settles what is pending (`settle`). The
//!   definitions are `Turn` and `Settle` of `fsa_model`. What a turn gives out it makes twice (`ends`, `replies`): the
//!   history keeps one copy, and the caller gets the other; bytes of a reply, of 128 or more, are shared where they can
//!   be. It fills lists that the machine keeps, and in the end moves what they hold into short ones, or, where there is
//!   no memory for these, into lists that stand by for that (`lists`).
//! - Room first: an end and a name for each pending call and for the turn's own, two copies of the own
//!   reply, and the entry. A held call takes a copy of itself and two of its reply before it is tried
//!   again, and a Notify two of as many bytes as it has room for or, where there is no memory for
//!   these, as are due; where that finds no memory it ends `NO_MEMORY`, and
//!   is named, and what is due stays so. Calls that end besides have replies without bytes, which take no
//!   memory, and so has a Notify to which more is due than it has room for.
//! - `reserve` takes room for turns to come (`spare`): an entry, an end for each call that can be pending by
//!   then, room for a pending call, and the lists of what a turn gives out. A turn of an Ack or a Cancel is made
//!   in such room where there is any (`keeping`), and can't be refused for memory then.
//! - `turn_counted` is a turn whose tries are counted by a `Steps`. A turn tries its own call, and each held call
//!   that this lets go; no other.
//! - After each turn, made or refused, the log of changes is trimmed (`trimming`): it keeps the changes from the least
//!   place on from which a watch is due, and none where there is no watch.
//! - What is true of the volume between tries is `Serves`; from it follows what each try asks (`MayTry`). It
//!   says that each handle was opened by a call that has ended, that each pending call is one that a line
//!   can ask and waits for no call that wasn't made, that few numbers were given, and that no more breaks
//!   were begun, or can come of the oplocks that are there, than calls were made.
//! - What a turn needs of a volume is the trait `Store`.
//! - A turn costs its tries, a look at the pending calls for each call that is taken up, one at each watch, and a copy
//!   of what it gives out. How a call ended is looked for among the ends that share the slot of its number.
#![tactic(auto)]

mod ends;
mod keeping;
mod kept;
mod lists;
mod look;
mod machine;
mod own_call;
mod replies;
mod serving;
mod settle;
mod spare;
mod steps;
mod store;
mod stored;
mod trimming;
mod turns;
mod volume_machine;
mod waiting;

pub use machine::{MOST_ENTRIES, StoreMachine};
pub use serving::try_call;
pub use steps::Steps;
pub use store::{Ready, Report, Store};
pub use volume_machine::VolumeMachine;
