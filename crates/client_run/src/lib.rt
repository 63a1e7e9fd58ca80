//! One client's calls, made one by one, in order, at a desk that never waits.
//!
//! ```text
//! let mut run = ClientRun::new(client, calls);      // its lines, and then its leaving
//! loop {
//!     match run.step(alloc, &mut desk, gate) {
//!         Step::Moved => ..          // the next call was made, or the wait has ended
//!         Step::Waiting => ..        // the client's wait is pending
//!         Step::Busy => ..           // another client's turn was in the way
//!         Step::Ended => break,      // all calls are made
//!         Step::Refused(why) => ..   // want of memory, or a full history
//!     }
//! }
//! ```
//!
//! A `Desk` is where one client's calls are asked: a pass at a volume, or what stands in for one. What it shows
//! of itself is one record (`DeskView`): the setup, the client, its calls made, the history that was seen, and two
//! counts. What each call makes of that is said in the words of `Desks`: `Asks`, `DeskOnlySees`, `SeesHistory`.
//!
//! A run and its desk go together (`FitsDesk`): the calls made are the first of the run's calls, each stands in the
//! history seen where no wait of the client was pending, and none is pending but the one for which the run waits.
//! Each step keeps that, and what it answers has its cause (`Steps`). So a run whose step has ended shows a history in
//! which the client made its calls, each once, in order, none of them while it waited.
//!
//! Caveats. A run takes its calls as a queue with the leaving at its end, so that it takes no memory and copies no
//! call. No clause says that the gate is passed once before each call's first try; tests of the crates above show it.
#![tactic(auto)]

mod desk;
mod run;

pub use desk::Desk;
pub use run::{ClientRun, Step};
