//! The volume: files, links, streams and handles, with all that belongs to them, always sound, behind
//! calls that each change exactly one named thing. It knows no algorithm of [MS-FSA]; the crates of
//! the verbs stand on it. Its rows and the scans over them are those of `volume_rows`,
//! and its links, handles and locks stand in the tables of `volume_tables`.
//!
//! Memory is taken first, and what changes the volume then can't be refused:
//!
//! ```text
//! let mut volume = Volume::new(alloc, setup)?;      // the root alone, file 1
//! let room = volume.note_room_in(1, units)?;        // how much a note of a link in the root takes
//! volume.reserve(&need)?;                           // may be refused; nothing has changed then
//! let file = volume.add_file(row);                  // takes no memory
//! let link = volume.add_link(1, name, file);
//! volume.note(link, ADDED, FILE_NAME, None);        // seen from each directory above
//! ```
//!
//! The calls group so: making and room (`new`, `reserve`, `reserve_bytes`); what is there (`file`,
//! `link`, `stream`, `handle`, `pending`, `ended`, each by number, `next_file`, `next_link`, `next_stream`,
//! `next_handle`, and `child`, `children_after`, `link_of`, `cursor`, `stream_of`, `default_stream`, `stream_after`,
//! `handle_of`, `next_handle_of`, `next_pending`, `pending_calls`, `pending_room`, `root`, `is_directory`,
//! `dir_link`, `has_child`, `links_of`, `is_at_or_below`, `handles_on`, `clashes`, `locks_of`, `parts_of`,
//! `clock`, `has_left`, `table`, `sids`,
//! `oplocks`); waits for calls (`waits`, `all_wait`, `next_over`, `next_due`,
//! `list_waits`); the space that streams
//! take, and what an owner is charged for it and may be (`clusters`, `charge`, `charge_of_file`, `limit`); the
//! reparse point of a file (`point`); the room that a note takes (`note_room`, `note_room_in`);
//! changes of one table (`add_..`, `move_link`, `drop_..`, `mark_..`, `put_bytes`, `set_..`, `end`, `leave`,
//! `advance`); changes noted (`note`); and oplocks: their grant (`grant`), their break
//! (`begin`, `waited`), the answer to it (`answer_break`), and their end (`give_up`, `drop_oplock`); and watches
//! (`has_watch`, `start_watch`) with what is due to them (`due_size`, `is_something_due`, `take_report`), and the
//! changes that they may still be told (`trim_changes`).
//!
//! Contracts see a volume as three things: its content, which is the record of plain lists of
//! `fsa_model`; what stands beside it, the breaks that the last `begin` waits for among it; and the
//! spare room. What a call doesn't name stays. No sentence on what stays speaks of the spare room.
//!
//! It asks of its caller that the things named live, that room was reserved, and that what a call
//! leaves is sound: a link's name is new in its directory, a directory that goes is empty, and so on,
//! each as a condition of the call. What soundness says of a row that is found or added is told by the
//! call that finds or adds it, so that no caller needs a law of its own.
//!
//! A file, a link, a stream or a handle is found by its number in time logarithmic in the rows of its table, and so
//! is the least number above another; the handle of a call, and a client's next handle, in time logarithmic in the
//! handles; an owner's charge in time logarithmic in the owners; the clusters of all streams are kept. A link is
//! found by its name by a binary search among the directories that have names, and then among the names of one; so
//! is where the links of a directory stand that are behind a name and begin with given units, which are lent in one
//! piece. The links of a file, and its streams by name, are found in time logarithmic in all of them, and linear in
//! the file's own; so a note and `is_at_or_below` cost that for each directory above. Any other look-up costs time
//! linear in the rows; one of the handles below a directory, a binary search and the way up for each. The next
//! pending call is found in time logarithmic in those that are pending, as long as they came in the order of their
//! turns, as those of a run do. A break costs what `volume_breaks` and `oplock_state` say, and the bytes of a
//! stream what `stream_pages` says.
//!
//! A call that is held waits for breaks and locks; whatever ends one of these tells the queue of held calls,
//! in time linear in what they wait for, and `next_held` asks nothing but the queue. `next_over` looks through
//! the pending calls for each wait among them, and never through the calls that have ended; `list_waits` puts
//! each wait in its place among the others. Of each watch it is kept whether something may be due, and whether a
//! Notify may be pending on its handle: a note looks once at each watch to which nothing was due, and for each to
//! which the change is at the first pending call that names its handle, and at the others only where that is no Notify;
//! `next_due` looks once at each watch, and through the pending calls
//! and the changes only for those to which something may be due while a Notify may be pending. A watch is looked for
//! among all.
#![tactic(auto)]

mod children;
mod control;
mod cursors;
mod due;
mod files;
mod growth;
mod handles;
mod information;
mod kinds;
mod links;
mod locks;
mod notes;
mod numbers;
mod opens;
mod oplocks;
mod pending;
mod room;
mod streams;
mod tried;
mod volume;
mod waits;
mod watch_row;
mod watches;

pub use fsa_types::{Class, HandleSet};
pub use oplock_state::Grant;
pub use room::NoteRoom;
pub use tried::Tried;
pub use volume::Volume;
pub use volume_rows::{Cursor, Enumeration, FileRow, HandleRow, LinkRow, Need, StreamInfo};
