//! The bytes of streams and their ranges over a volume, after [MS-FSA]: one try of a Read, a Write, a Flush,
//! a SetEnd, a Lock or an Unlock, from its first check.
//!
//! ```text
//! match try_write(alloc, &mut volume, &call, turn) {
//!     Tried::Done(reply) => ..                   // it has ended, well or with a refusal
//!     Tried::Hold { blockers, interim } => ..    // it waits for these, and is tried again then
//!     Tried::Stay(_) => ..                       // none of these calls ever stays
//!     Tried::NoMemory => ..                      // nothing has changed, not even a break has begun
//! }
//! ```
//!
//! The definitions are `Read`, `Write`, `Flush`, `SetEnd` and `Locking` of `fsa_model`, with `Locked` for the
//! byte-range locks, `Growth` for the limits and `Waits` for the breaks. The files follow them: the checks in
//! order (`read`, `write`, `flush`, `set_end`, `lock`, `unlock`), what a write and a new length change
//! (`written`, `resized`), whether a stream may grow (`growth`), the locks that are in the way (`locked`), the
//! bytes of a stream (`bytes`) and the room for what is put, noted and locked (`room`). The break itself, and
//! the room for it, are those of `op_parts`.
//!
//! - A call has to be the one that its try is for. Numbers have to be left for breaks, but for a Flush and
//!   an Unlock, and for a Lock one for the lock too. Oplocks, locks, limits and pending calls may be there.
//! - A read breaks as an open for reading does; a write, a new length and a lock break as a change of the
//!   stream, a length also where it is set as it was. A flush and an unlock break nothing, and always end.
//! - What a read or a write does once the breaks that are waited for have ended: it asks for locks, and a
//!   write then for growth, the owner's limit, and after it the space of the volume. A new length asks for
//!   growth alone. A lock with others in the way is refused, or waits for all of them where the call asks so.
//! - All room is taken before the first change, a break among the changes: for what is put and noted only
//!   where the stream may grow so, for what a read gives by a copy of its bytes, and for what a lock waits
//!   for by a list of the locks in the way; no break changes these. A refusal leaves the volume as it was,
//!   but for the breaks that were begun.
//! - It costs a break, and time linear in the bytes that are read or written and in the locks near them; an unlock
//!   finds its lock by place and number, and moves those behind. What a write or a new length adds is asked of a
//!   tally, and its note looks up a link for each directory above.
#![tactic(auto)]

mod bytes;
mod flush;
mod growth;
mod lock;
mod locked;
mod read;
mod resized;
mod rights;
mod room;
mod set_end;
mod unlock;
mod write;
mod written;

pub use flush::try_flush;
pub use lock::try_lock;
pub use read::try_read;
pub use set_end::try_set_end;
pub use unlock::try_unlock;
pub use write::try_write;
