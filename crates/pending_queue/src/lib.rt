//! The calls that are held, each by breaks and locks that it waits for: a [`PendingQueue`] knows which
//! of them may be taken up, and which first.
//!
//! ```text
//! queue.hold(7, blockers)?;           // the call of turn 7 waits for these
//! queue.ended(Blocker::Break(3));     // whatever ends a break or a lock tells its number
//! while let Some(turn) = queue.next_unblocked() {
//!     queue.remove(turn);             // or hold it anew
//! }
//! ```
//!
//! It asks of its caller that each end of a break or a lock is told, and that the blockers of a call
//! haven't ended when it is held.
//!
//! **Cost.** `next_unblocked` looks at one number. `ended` goes over the calls that wait for what ended, and `remove` and
//! `hold` over the blockers that the call was held by and that live, each beside what shares a slot with them: blockers
//! are found by their numbers and by their turns, each in half as many slots as there was room when room was taken. As
//! long as each call was put in behind lower turns, a call is found by halves, and so is that a turn has none; else all
//! are looked at for a turn that has none. Where a call is taken out, the 16 bytes of each behind it move; where one
//! becomes ready or ceases to be, the 8 bytes of each ready turn behind its own. `hold` takes memory only where there
//! is no spare room for what it puts in; nothing else but `reserve` takes any. Where room is taken for blockers, those
//! that live move to new room, in time linear in all.
//!
//! `slot_of`, `end_of` and `set_head` are for lists whose items are linked by slots, as blockers are here.
#![tactic(auto)]

mod calls;
mod queue;
mod ready;
mod slots;
mod waits;

pub use queue::PendingQueue;
pub use slots::{end_of, set_head, slot_of};
