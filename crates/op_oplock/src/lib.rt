//! Oplocks over a volume, after [MS-FSA] 'Server Requests an Oplock' and 'Server Acknowledges an Oplock
//! Break': one try of an Oplock or an Ack, from its first check.
//!
//! ```text
//! match try_oplock(alloc, &mut volume, &call, turn) {
//!     Tried::Stay(interim) => ..     // granted: it is to be pending, until a break tells it or it ends else
//!     Tried::Done(reply) => ..       // refused; or an Ack of which nothing stays
//!     Tried::NoMemory => ..          // nothing has changed
//!     Tried::Hold { .. } => ..       // never: neither waits for anything
//! }
//! ```
//!
//! The definition is `Grant` of `fsa_model`, over the rules of `OplockGrants` in `fsa_types`. The files here
//! follow it: the grant of an oplock (`oplock`), the answer to a break (`ack`), and the room that each
//! takes (`room`).
//!
//! - The call has to be of its verb. Nothing is asked of the volume, and no number is used.
//! - The turn is the number under which the call is to be pending where it stays: the oplock names it, and a
//!   break ends the call of this turn. The machine makes it pending right after.
//! - Room is taken before the grant, for one oplock, for the ends of the calls that it switches and for the
//!   call to be pending; for an Ack for the last alone. An Ack finds memory wherever the volume has room for
//!   one pending call.
//! - It costs a look-up of a handle for each oplock, and goes over the handles and the oplocks once or twice.
#![tactic(auto)]

mod ack;
mod oplock;
mod room;

pub use ack::try_ack;
pub use oplock::try_oplock;
