//! What the tables of a volume hold, and scans over it: the rows of files, links, streams, handles,
//! oplocks and pending calls, the bytes of one stream, changes that are noted, links by their files, and
//! look-ups over slices of rows. It knows no volume; `volume_state` keeps its tables of these rows, and
//! answers by these look-ups.
//!
//! ```text
//! links.reserve(1)?;                      // may be refused
//! links.add(row);                         // takes no memory
//! links.first_of(dir)                     // the link of a directory, which leads up
//! is_one_of(&links, HandleSet::Below(dir), handle)
//! is_clashing(&links, on, access, share, handle)
//!
//! changes.reserve(1, units, dirs)?;       // may be refused
//! changes.note(&links, 1, name, None, action, bits);  // takes no memory
//! ```
//!
//! The calls group so: links (`LinksByFile`, `is_at_or_below`); files (`FileRow::set_basic`,
//! `set_owner`, `set_dacl`, `set_point`); handles (`is_one_of`, `is_clashing`) and their enumerations (`Enumeration`,
//! `Cursor`); streams (`is_stream_named`, and `StreamRow` with its bytes in the pages of `stream_pages`); the space that streams
//! take (`clusters_of`) and what an owner may be charged (`find_limit`); oplocks (`effect`, `is_awaited`,
//! `in_both`, `is_within`, `is_same_key`, `is_oplock_of`, `find_break`, `find_target`); pending calls
//! (`find_next_pending`, `is_call`); and changes noted (`Changes`), in the log of
//! `notify_queue`.
//!
//! Contracts see a row as the row of `fsa_model`'s record, a stream beside the room that was taken for
//! its bytes, and the changes that were noted beside the room for more.
//!
//! - Nothing is asked of the rows: not that their numbers rise, nor that what they name is there. What
//!   is found is the first row that passes.
//! - Room for links, bytes and changes has to be reserved.
//! - A scan takes time linear in the rows; one for the next pending call takes that for each row. The links of a
//!   file are found in time logarithmic in all links, and `is_at_or_below` and a note take that for each directory
//!   above; so does whether a handle is below a directory.
#![tactic(auto)]

mod cursors;
mod effects;
mod growth;
mod links;
mod noting;
mod opens;
mod rows;
mod streams;
mod waiting;

pub use cursors::{Cursor, Enumeration};
pub use effects::{
    BreakEffect, effect, has_read, has_write, in_both, is_awaited, is_same_key, is_within,
};
pub use growth::clusters_of;
pub use links::LinksByFile;
pub use noting::Changes;
pub use opens::{is_at_or_below, is_clashing, is_one_of};
pub use rows::{FileRow, HandleRow, LinkRow, Need, StreamInfo, StreamRow};
pub use streams::is_stream_named;
pub use waiting::{
    OplockRow, PendingRow, find_break, find_limit, find_next_pending, find_target, is_call,
    is_oplock_of,
};
