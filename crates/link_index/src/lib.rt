//! A directory's links in the order of their names: the names' units upcased, and compared as numbers from the first one
//! on, where a name stands before those that it begins. A name is found, and where those behind it or those that begin so
//! stand, by binary search.
//!
//! ```text
//! let mut dir = Directory::new(alloc);
//! dir.reserve(1)?;                            // may be refused
//! dir.insert(&links, &upcase, 7, units);      // of `b.txt`; takes no memory
//! links.add(row)                              // under number 7, before the next call that takes the table
//! dir.get(&links, &upcase, units)             // of `B.TXT`: Some(7)
//! dir.after(&links, &upcase, Some(units))     // behind `a`: [7], lent in one piece
//! dir.beginning(&links, &upcase, None, units) // of all, those that begin with `B`: [7]
//! dir.remove(&links, &upcase, units)          // of `B.txt`: Some(7)
//! ```
//!
//! The names stand in the table of the links alone, and each call that compares names takes that table. A directory doesn't
//! know whose links its own are: `LinkTable` of `volume_tables` has one for each directory, and keeps that. Contracts see
//! the numbers of the links in order, which with the table are a list of numbers and links (`links_at`), the heads of
//! their names, and how many more links there is room for.
//!
//! - Each call that takes a case table asks that the links are in that table's order, that their names differ by it, and
//!   that the heads are those of the names that the table of links has now (`AreInNameOrder`): so all calls on a directory
//!   take one case table. `insert` asks besides that the name is new, and that there is room. `insert` and `remove` leave
//!   the links in order. An empty directory is in the order of each table.
//! - Beside each number stands the head of its link's name: its first sixteen upcased units in one number, up to the first
//!   one from 255 on. A name is searched among the heads: mostly one link is looked up in the table, and none where no
//!   head is that of the name; where some have the same head, a number of links that is logarithmic in the names.
//!   `beginning` looks up a number of links besides that is logarithmic in those behind. `is_empty` takes constant time.
//! - Where a name goes, 24 bytes move of each of those before it or of those behind it, whichever are fewer; where one
//!   comes, of those behind it, or of those before it where they are fewer and there is a free slot before them, or of all
//!   where there is none behind them.
//! - Memory is taken by `reserve` alone; after `reserve(n)` so many links can be put in. What `remove` takes out leaves
//!   its place as room.
#![tactic(auto)]

mod beginning;
mod directory;
mod head;

pub use directory::Directory;
