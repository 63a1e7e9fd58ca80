//! Numbers under keys: which rows of a table have a key, found without a look at the others.
//!
//! ```text
//! index.reserve(1)?;
//! index.add(key, number);             // behind the numbers that the key has
//! index.of(key);                      // the key's entries, in the order in which they were added
//! index.first(key);                   // the number of the first of these
//! index.after(key);                   // the first entry of a greater key
//! index.remove(key, number);
//! index.remove_all(key);
//! ```
//!
//! Contracts see the list of entries, and how many more there is room for. Only what each key has is told of it
//! after `add`: `IsSameByKey` is what a caller keeps. `index_of_rows` has the laws for a table whose rows are
//! added with rising numbers and keep their key: the entries of a key are then those of its rows, in order.
//!
//! `of`, `first` and `after` take time logarithmic in the entries. Where each number from the least key up to this one,
//! or from this one up to the greatest key, is a key with one entry, `of` and `first` find its first entry at once;
//! where the others of the key end takes time logarithmic in these, by exponential search. `add`, `remove` and
//! `remove_all` move the entries before the place or those behind it, of 16 bytes each, whichever are fewer; `add`
//! always moves those behind it where no slot is free before the first entry. Where there is no room behind the
//! entries, all move. `remove` finds the number by halves as long as none was added behind a greater one of its key,
//! and else looks through those of the key.
#![tactic(auto)]

mod index;
mod rows;
mod search;

pub use index::KeyIndex;
pub use rows::index_of_rows;
