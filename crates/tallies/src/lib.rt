//! Two tallies, and the rule of sharing. `ShareCounts` tells which opens of one stream or directory may be held together:
//! seven counters that tell at once whether an open clashes with some open that is held. Two opens
//! clash where both have some of read, write and delete access and one has an access that the other
//! doesn't share. `Charges` keeps what each owner is charged, in bytes.
//!
//! ```
//! let mut held = ShareCounts::new();
//! held.add(0x1, 0x3); // reads, and lets others read and write
//! held.clashes(0x2, 0x7) == false // a writer that shares all
//! held.clashes(0x2, 0x2) == true // a writer that doesn't share reading
//! held.clashes(0x10000, 0x7) == true // deleting isn't shared by the reader
//! held.clashes(0x80, 0x0) == false // attributes alone have no part in sharing
//! held.remove(0x1, 0x3);
//! held.clashes(0x2, 0x2) == false
//! held.is_empty() == true
//!
//! let mut charges = Charges::new(alloc);
//! charges.reserve(1)?; // may be refused
//! charges.set(7, 8192)?; // takes no memory now
//! charges.of(7) == 8192
//! charges.of(9) == 0 // nothing was set
//! ```
//!
//! `ShareCounts` asks two things of its caller: that an open is removed with the masks that it was
//! added with, and that fewer than 2^64 - 1 opens are held before another is added. Each call takes
//! constant time and no memory. `Charges` asks nothing. Its owners are a sorted list: one is found
//! by binary search, in time logarithmic in the owners, and a new one moves all those with greater
//! numbers. It takes memory in `reserve`, and in `set` where an owner is new and there is no spare
//! room; after `reserve(n)` so many calls of `set` can't fail.
//!
//! Contracts see the list of the opens that are held, each a pair of access and share. The counters
//! are the counts of that list, which has no bytes when the program runs. The list counts as a
//! multiset: of several opens with the same masks the first is removed, and an answer is the same
//! for each order of the list. Of charges they see the owners with their sums, and how many more
//! owners there is room for.
//!
//! Caveats: generic rights have no part in sharing, so map them first; opens of other streams of
//! the same file belong in other counts. An owner whose sum is set to 0 stays and keeps its place.
#![tactic(auto)]

mod charges;
mod held;
mod share_counts;
mod sharing;

pub use charges::Charges;
pub use share_counts::ShareCounts;
pub use sharing::clash;
