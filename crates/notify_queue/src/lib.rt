//! Change notification, after [MS-FSA] 'Server Requests Change Notifications for a Directory': the log of
//! changes, with the directories from which each is seen, and watches of directories with what is due to
//! them. It knows no volume.
//!
//! ```text
//! log.reserve(1, 3, 2)?;              // room for a change, the units of its path and its ancestors
//! log.add_unit(98);                   // `b`, from its last unit to its first
//! log.add_dir(5);                     // seen from directory 5 as `b`
//! log.add_unit(92);
//! log.add_unit(97);
//! log.add_dir(1);                     // and from the root as `a\b`
//! log.finish(ADDED, FILE_NAME);       // noted
//!
//! let mut watch = Watch { dir: 1, filter: FILE_NAME, tree: true, from: 0 };
//! watch.is_something_due(&log);       // true
//! watch.due_size(&log);               // Some(18): one entry with `a\b`
//! watch.take(alloc, &log, 64)?;       // its bytes; nothing is due now
//! ```
//!
//! A change keeps the names that it had when it was noted. What is due to a watch are the changes from its
//! place on that were made in its directory, or, where the whole tree counts, below it, and that have a bit
//! of its filter; each is told by the name relative to its directory. A report tells all that is due, or,
//! where that is larger than the room, nothing; in both cases the watch goes on behind the last change.
//!
//! - Room for changes has to be reserved. A change that is begun is seen by no watch until `finish`.
//! - `trim` gives up the changes before a place, which no watch may wait for then. Contracts see all changes that
//!   were ever noted, and the place (`base`); the memory of those before it is room for new changes once they are half
//!   of what is held (`LogPart`), so that each change is moved a few times at most. What is gone stands in `Past`, which
//!   has no bytes, and which only proofs read.
//! - Once a change is noted, `asks_for_last` tells whether it is due to a watch, so that who keeps the watches to
//!   which nothing is due needs no look at the changes before.
//! - The changes are looked at from the watch's place on, each by its bits first and then once along its ancestors:
//!   `due_size` looks at all of them, `is_something_due` no further than to the first that is due, and `take` no further
//!   than to where what is due exceeds the room, or twice at all of them where it fits. Only `take` takes memory, and
//!   only where what is due fits the room.
#![tactic(auto)]

mod log;
mod part;
mod past;
mod watch;

pub use log::ChangeLog;
pub use watch::Watch;
