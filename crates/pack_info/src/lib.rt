//! Packed buffers, both ways, after [MS-FSCC] 'FILE_NOTIFY_INFORMATION', 'File Information Classes' and
//! 'REPARSE_DATA_BUFFER'. Writers make buffers of rows, as many as fit; walks lend the entries of a
//! buffer one after the other, without copying.
//!
//! ```text
//! let (bytes, count) = pack_entries(alloc, DirKind::Dir, &rows, 16384)?;
//! let mut walk = DirEntries::of(DirKind::Dir, bytes.bytes());
//! while let Some(entry) = walk.next()? {          // or Malformed { place }
//!     show(entry.length, entry.name);             // the name's field, in UTF-16LE
//! }
//! ```
//!
//! The calls: [`pack_changes`], [`pack_entries`] and [`pack_streams`] write entries, and
//! [`NotifyEntries`], [`DirEntries`] and [`StreamEntries`] walk them; [`pack_kind`] is the layout of
//! a directory's entries, and [`size_of_head`] what an entry takes before its name; [`pack_basic`],
//! [`pack_standard`], [`pack_internal`] and [`pack_tag`] write one fixed buffer each;
//! [`pack_reparse`] and [`read_reparse`] are for reparse points.
//!
//! A walk asks nothing of the bytes. What it gives is what the layout has at that place, and what no
//! entry begins is [`Malformed`] there; a walk goes no further then.
//!
//! **Cost.** Writing takes time and memory linear in what is written. A step of a walk takes time
//! linear in its entry's padding and no memory.
#![tactic(auto)]

mod entry;
mod fixed;
mod layout;
mod number;
mod pack;
mod reading;
mod rows;
mod tail;
mod walk;

pub use fixed::{pack_basic, pack_internal, pack_reparse, pack_standard, pack_tag, read_reparse};
pub use layout::size_of_head;
pub use pack::{pack_changes, pack_entries, pack_kind, pack_streams};
pub use rows::{ChangeRow, DirRow, StreamInfoRow};
pub use walk::{DirEntries, Malformed, NotifyEntries, PackedEntry, StreamEntries};
