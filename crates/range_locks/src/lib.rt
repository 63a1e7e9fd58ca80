//! The byte-range locks of one stream: which of them conflict with a wanted range, after [MS-FSA]
//! 'Algorithm for Determining if a Range Access Conflicts with Byte-Range Locks'. A [`RangeTable`]
//! is the list of the [`Range`]s that are held, in the order in which they came.
//!
//! ```text
//! match table.conflict(Want::Exclusive, handle, 0, 16) {
//!     None => table.insert(Range { id, handle, at: 0, count: 16, exclusive: true })?,
//!     Some(_) => return Ok(table.blockers(Want::Exclusive, handle, 0, 16)?),
//! }
//! table.remove(handle, 0, 16);        // Some(id)
//! ```
//!
//! It asks nothing of its caller: ranges may be empty, may end past the largest place, and may be
//! held many times, under one number too. It doesn't refuse a range that conflicts; that is for its
//! caller.
//!
//! **Cost.** Beside the list a table has its ranges once more, in the order of their places. As long as each range that
//! was ever put in had a greater number than the last one that was there, and those near the wanted range are no more
//! than a quarter of all, a question looks at those near alone, and `conflict` at all of these. Near are those that
//! begin before its end, and no further before its place than the longest range is long that was put in since the table
//! was last empty. Where they stand is found by binary search. `blockers` goes over them once, and once more for each
//! number that it lists if that is no more looks than there are ranges, else over the list up to the last that
//! conflicts. Where a question doesn't go by those near it goes over the list: `conflict` up to the first that
//! conflicts, `blockers` once over all, and once more up to the last that conflicts.
//!
//! `insert` and `remove` find the place by binary search; `remove` then looks at the ranges that begin there, and finds
//! the range in the list by its number as long as numbers rose so, and else by a look at each up to it. What is put in
//! or taken out moves the ranges before it or those behind it, whichever are fewer; where there is no room behind them,
//! all move. `remove_any_of` first goes up to the first range of its handle. `remove_all_of` goes over all, and where
//! the handle has one moves what stands behind. `insert` needs memory only where there is no room; `blockers` takes some
//! for what it lists; nothing else but `reserve` takes any.
#![tactic(auto)]

mod places;
mod range;
mod table;

pub use range::{Range, Want};
pub use table::RangeTable;
