//! The oplocks and the pending calls of a volume, in lists, and the break and the grant of oplocks, after
//! [MS-FSA] 'Algorithm to Check for an Oplock Break' and 'Server Requests an Oplock'. It knows no volume;
//! `volume_state` keeps its lists of these types, and breaks and grants by these calls.
//!
//! ```text
//! oplocks.choose(&tree, on, acting, key);                          // which are broken, in order
//! break_oplocks(&mut oplocks, class);                              // what becomes of each, and who is told
//! end_told(&mut pending, &mut ended, oplocks.told());              // whose calls end
//! let waits = oplocks.await_breaks(class);                         // for which the request waits
//!
//! oplocks.choose_on(&tree, stream);                                // beside which one is asked for
//! is_refused(handle, key, level, others, locked, oplocks.chosen());
//! oplocks.choose_switched(&tree, stream, handle, key);             // which a grant ends
//! drop_chosen(&mut oplocks);
//! end_switched(&mut pending, &mut ended, oplocks.chosen());        // whose calls end
//! oplocks.grant(home, handle, key, level, turn);                   // takes room that was promised to its home
//! ```
//!
//! The parts: which oplocks a break breaks, and in what order (`choosing`, over a `Tree` of a volume's
//! tables), or of one stream by their handles alone (`marking`); what it does to each, and whom it tells
//! (`telling`), and the calls that end with that (`breaking`); for which breaks the request waits (`awaiting`); where
//! the oplock of a handle stands (`finding`);
//! when no oplock is granted, and what a grant ends (`granting`); the list of the oplocks, with what a break or a
//! grant puts by and with the room that was promised to each stream or directory, under a key that its caller
//! gives it, its *home* (`Oplocks`); the pending calls with the queue of those that are held
//! (`PendingCalls`), which is told what ends where a handle goes (`releasing`); and how calls ended, each found by
//! its client and number (`EndTable`).
//!
//! `oplock_state` has the oplocks of one stream by `break_oplocks` and `drop_chosen`, and leaves the calls to its
//! caller; a volume's break and grant end them after that.
//!
//! - None of these takes memory but `reserve`: there is always room for copies of all oplocks, for the numbers
//!   of as many breaks, and for what as many holders are told. Room for the ends of the calls that are told has
//!   to be there, and for a grant room for one oplock of its home; that of other homes stays.
//! - A break goes over all oplocks, with a look at the handles for each, and finds the pending call of each one that it
//!   tells by its turn. Each one that it breaks is put in its place among those that come before it, with a few looks
//!   at handles, links and streams for each of these and for one more: for that one alone where oplocks were granted in
//!   the order in which they are broken. It is found again by halves as long as oplocks were granted in the order in
//!   which their handles were opened, else by a look at each; and all are looked at where one ends.
//! - The next pending call, and the call of a turn, are found by halves as long as calls came in the order of
//!   their turns; once one didn't, or where no call has the turn, by a look at each. As long as they did, a call of a
//!   client, and the first one that names a handle, are found by an index, without a look at the others. A call that ends
//!   moves the calls before it or those behind it, whichever are fewer. What it holds may be kept until others end, for
//!   fewer ended calls than there are pending ones.
//! - The end of a call is looked for among those that have the slot of its number, of which there are half as many
//!   as there is room for ends. Where that room is used up as much again is taken, and all ends are linked anew.
#![tactic(auto)]

mod awaiting;
mod breaking;
mod call_index;
mod choosing;
mod end_table;
mod finding;
mod granting;
mod marking;
mod oplock_list;
mod pending_calls;
mod releasing;
mod telling;

pub use awaiting::push_breaks;
pub use breaking::{end_call, end_told};
pub use call_index::names;
pub use choosing::Tree;
pub use end_table::EndTable;
pub use granting::{drop_chosen, end_switched, is_refused};
pub use oplock_list::Oplocks;
pub use pending_calls::{PendingCalls, is_wait};
pub use releasing::{release_breaks, release_locks};
pub use telling::{Told, break_oplocks};
