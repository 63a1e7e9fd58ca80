//! Tables of rows under numbers that rise and are never given twice, and lists in order, all with
//! spare room that contracts see: room is taken first, and what is put in then takes no memory.
//!
//! A caller reserves room, which may be refused, and then adds:
//!
//! ```text
//! table.reserve(1)?;
//! let id = table.add(row);            // Ok, since there is room
//! let row = table.get(id);            // Some, until `remove(id)`
//! ```
//!
//! The lists are [`Series`], whose room may grow as items go, [`SpareList`], whose room stays, [`ShiftList`],
//! where an item that goes moves those before its place or those behind it, whichever are fewer, and one that comes
//! those behind it, or those before it where they are fewer and a slot before them is free, or all where no slot behind
//! them is, and [`ShiftRows`], where one that goes moves the fewer too, and items need not be `Copy`.
//!
//! It asks of its caller that fewer than 2^64 - 1 numbers were given. Adding takes constant time on average, and `get`
//! and `get_mut` time logarithmic in the rows: a row is found at once where no number between its own and the first
//! row's is missing, or the last row's. `entry_at` takes constant time. `remove` moves no row of a `Table`, since those
//! stand in a slab: it moves the numbers, of 16 bytes each with their keys, of the rows before it or of those behind
//! it, whichever are fewer. Where there is no room behind the numbers, `reserve` moves all of them: into the room
//! before them if it is at least as large as what they take, and else into new memory. The rows of a `RowList` stand in
//! one list, which is lent whole; its `remove` moves the rows before the one that goes or those behind it, whichever
//! are fewer, and its `retain` goes over all.
//!
//! What is taken out of a `ShiftRows` near the front stays in its slots for a while, and is given up as soon as there are
//! as many of these as there are items: so it holds fewer of them than items, and giving them up takes constant time on
//! average.
#![tactic(auto)]

mod row_list;
mod search;
mod series;
mod shift_list;
mod shift_rows;
mod spare_list;
mod table;

pub use row_list::RowList;
pub use search::place_of;
pub use series::Series;
pub use shift_list::ShiftList;
pub use shift_rows::ShiftRows;
pub use spare_list::SpareList;
pub use table::Table;
