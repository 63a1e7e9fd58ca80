//! The clients of a script on threads: each makes its calls at one shared volume.
//!
//! ```text
//! let machine = race(rt, alloc, &script, &gate)?;     // the history, once all threads have ended
//! ```
//!
//! A script can be run so where it was read, has at most 40,000 lines and from 1 to 64 clients with SIDs, and none of
//! its lines is a leaving (`CanRace`). Each client makes its calls in their order and then leaves; the gate is for each
//! of these calls. The history that `race` gives is whole (`Whole`): each client made all its calls, in order, none of
//! them while it waited, and there are no others. `race_history` gives the shared volume with all passes instead.
//!
//! Which order comes of it isn't promised, nor that two threads ran beside each other, and a race may wait for ever.
//! `NoMemory` where something finds no memory, and where the history would have more than 1,000,000 entries. It takes a
//! thread for each client, and each client's calls once more; a client that can't go on gives its processor up, and
//! sleeps after that.
#![tactic(auto)]

mod calls;
mod drive;
mod pass_desk;
mod racing;
mod run_race;
mod runner;

pub use pass_desk::PassDesk;
pub use racing::race_history;
pub use run_race::race;
