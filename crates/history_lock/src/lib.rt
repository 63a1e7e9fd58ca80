//! A lock round one machine, of which many threads make turns one at a time, so that all turns have
//! one order: the machine's history. Each client has a pass, which knows a beginning of that history
//! and the client's own calls in it.
//!
//! ```text
//! let (lock, mut passes) = TurnLock::start(alloc, machine, 2)?;  // a pass for each client, in order
//!
//! match lock.try_turn(alloc, &mut passes[0], call) {
//!     TurnAnswer::Did(out) => ..            // the history that the pass has seen ends with this call's entry
//!     TurnAnswer::Busy(call) => ..          // another pass holds the turn, and the call comes back
//!     TurnAnswer::Refused(call, why) => ..  // the machine refused the call, and the history stays as it was
//! }
//! let out = lock.turn(rt, alloc, &mut passes[1], call)?;         // the same, but it waits for the turn
//! lock.wait_for_turn(rt);                                        // sleeps while the turn is held
//! let shown = lock.try_look(alloc, &mut passes[0], &ask);       // reads the history, and adds nothing
//! let entries = lock.front(&mut passes[0]);                      // counts its entries
//! let more = lock.wait_for_more(rt, &mut passes[0], entries);    // waits until there are more than these
//!
//! let (machine, pass) = lock.close(passes);                      // all passes, in order of clients
//! ```
//!
//! # What is proved
//!
//! For every type that meets [`Machine`], and any number of threads:
//!
//! - After a call that made its turn, what the pass had seen begins what it has seen now, which ends
//!   with this call's entry. The pass has made just this call more, and the answer is one that the
//!   machine's meaning `out_is` allows at that entry.
//! - A call that is busy or refused adds no entry and hands the call back. No call lets a pass see
//!   less than before.
//! - `Busy` comes exactly where the pass's count of exchanges that found the turn held by another pass
//!   rose. A lock for one client is never busy.
//! - A look, a refused turn and `front` load the count of entries once, and the pass has then seen
//!   the history as it was at that load. The pass counts its loads too. `wait_for_more` loads it once
//!   or more often, and answers only once the history is longer than it was asked for.
//! - What a pass has seen is at all times a history of this machine, by the machine's meaning `stands`.
//! - `close` gives a machine that stands for the whole history, in which the calls of each client are
//!   just those that its pass made, each once and in order, and no others.
//!
//! # What it asks of its caller
//!
//! Each call takes a pass of this lock, and a turn takes a call of the pass's own client. The machine's
//! condition on a turn or a look is asked of what the pass knows, and then holds of the whole history.
//! `close` takes all passes of the lock, in order of clients: a pass that was dropped keeps the lock
//! from being closed, and such a lock can only be dropped.
//!
//! # What it costs
//!
//! Beside the machine's own work a turn costs three steps on two words and two loads of a third, which
//! counts those that sleep: only where there are some are two wakes asked of the system. A busy answer costs
//! one step, and `front` one. Nothing is copied, and no memory is taken but in `start` and by the machine.
//!
//! # Caveats
//!
//! Nothing is proved of progress: not that a turn is ever free, that a waiting thread wakes, or that
//! waiting is fair. Between two passes that never told each other anything no order is claimed beyond
//! that of the history. A pass has to go to another thread to be used there, since each call changes it.
//!
//! No clause of a call can refuse two bodies, since a clause knows the table's steps only by what a pass
//! counts of them: a look or a `front` that shows a history as it was before this call, and a `Busy` without
//! an exchange, each with a step of a new kind that raises the count for nothing. What the counts count is
//! said by the steps in `plays.rt`, which are few, with their meanings in `Turns`: they are to be read.
#![tactic(auto)]

mod answers;
mod close;
mod lock;
mod machine;
mod moves;
mod pass;
mod plays;
mod rule;
mod start;
mod view;

pub use answers::{Looked, TurnAnswer};
pub use lock::TurnLock;
pub use machine::Machine;
pub use pass::Pass;
pub use view::{Part, View};
