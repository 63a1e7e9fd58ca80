//! How the engine is called from Rattle, for tests of one's own.
//!
//! - A `Setup` has a case table, and clients with their names and SIDs; each client has at least one SID.
//!   `VolumeMachine::new` makes a machine of it, over a volume with the root alone (`setup_of_two`, `two_clients`).
//! - `VolumeMachine::turn` takes a call: the place of its client in the setup, its number, and what it does.
//!   The calls of each client are numbered from 1 in the order of their turns. `ask` finds the number, by
//!   the calls that the machine keeps.
//! - What a turn gives out, `Out`, has the answer to the turn's own call (it has ended, or is pending), the
//!   calls that ended in the turn besides, and those of them that were taken up and found no memory.
//! - A turn that is refused changes nothing and hands the call back: `NoMemory` where there is no memory for
//!   it, and `HistoryFull` where 1,000,000 turns were made. `ask` keeps the reason alone.
//! - `VolumeMachine::reserve` takes room for turns to come, so that so many acknowledgements and cancellations
//!   can't be refused for memory. `ask_in_room` makes one, and has no error.
//! - `VolumeMachine::turn_counted` counts the tries of a turn by a `Steps`, over a ledger that the caller picks.
//!   `ask_counted` makes one.
//!
//! `lock_that_waits` is an example: a lock that waits for another one, and is granted in the turn of the
//! unlock. `answer_in_room` is another: an oplock's break is answered, and the answer cancelled, in room that was
//! taken before. `tries_of_a_lock_that_waits_twice` counts the tries of eight turns. `tick_times` makes many turns, and
//! counts a client's numbers itself.
#![tactic(auto)]

mod asking;
mod clients;
mod counted;
mod lock_requests;
mod many_turns;
mod masks;
mod reserved;
mod waiting_lock;

pub use asking::{ask, next_number};
pub use clients::{setup_of_three, setup_of_two, three_clients, two_clients};
pub use counted::{ask_counted, tries_of_a_lock_that_waits_twice};
pub use lock_requests::{close_first, lock_by_first, open_shared, unlock_by_first};
pub use many_turns::tick_times;
pub use reserved::{KeptAnswer, answer_in_room, ask_in_room};
pub use waiting_lock::{WaitingLock, lock_that_waits};
