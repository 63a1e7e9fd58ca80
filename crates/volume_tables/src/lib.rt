//! Tables of a volume in which room is promised apart: links, with room for more of them in each
//! directory, and handles with the byte-range locks that they hold, with room for more locks on each
//! stream; streams, found by their files; and a tally of the space that streams take, for each owner and in all.
//! They know no volume; `volume_state` keeps its links, handles, streams and tally in them.
//!
//! ```text
//! links.reserve(dir, 1)?;                 // may be refused
//! let link = links.add(row);              // takes no memory, and no room of another directory
//!
//! handles.reserve_locks(handle, 1)?;
//! let lock = handles.add_lock(handle, at, count, true);
//! handles.locks_of(stream);               // the ranges of one stream, in the order in which they were granted
//! handles.opened_by(client, number);      // by binary search
//! handles.next_of(client, after);         // by binary search too
//! handles.some_clashes(links, on, access, share);     // by counts for the stream, or for the link
//! handles.remove(handle);                 // with its locks
//!
//! streams.reserve(1)?;
//! let stream = streams.add(row);          // takes no memory
//! streams.named(&upcase, file, units);    // looks at the streams of the file alone
//! streams.after(&upcase, file, units);    // so does this, for the first one behind a name
//!
//! names.reserve(dir, 1)?;
//! names.add(&links, &upcase, id, dir, units);     // before the link is added to its table
//! names.child(&links, &upcase, dir, units);       // by binary search
//! names.children_after(&links, &upcase, dir, after);      // those behind a name, in one piece
//! names.children_beginning(&links, &upcase, dir, after, units);   // of these, those that begin so
//!
//! space.reserve(1)?;
//! space.admit(owner);                     // takes no memory
//! space.resize(owner, 0, 2);              // he is charged for two clusters more
//! space.hand_over(owner, other, 2);       // another one, admitted too, is charged for them
//! space.charge(other)                     // in bytes
//! ```
//!
//! The locks stand once in one list, in the order in which they were granted, and once more in a table
//! of ranges for each stream. That both hold the same is the table's invariant, and so is that the indexes of
//! handles, by calls, streams and links, have all of them, and that the counts of a stream or a link are those of its
//! handles.
//!
//! `NamesByDirectory` has for each directory an index, a `Directory` of `link_index` with its links in the order of their
//! names, beside the table that has the names; `LinkTable` keeps one. A directory has an index from the first room that
//! is promised to it on; where the link of a directory goes, so does its index, unless it has names or room is promised
//! to it.
//!
//! - It asks that room was reserved and that numbers are left; `add_lock` asks that the handle has a
//!   stream, and not whether the range conflicts with another. A tally asks that owners are admitted, that
//!   what goes was charged for, and that sums fit 64 bits.
//! - Removing takes no memory, and leaves what was promised as it was.
//! - Each call takes time linear in the rows or locks that it goes over. The table of a stream's locks is found in time
//!   logarithmic in the streams to which room for them was ever promised; where one comes, those of streams with
//!   greater numbers are moved. The handle of a call, and a client's next handle, are found in time logarithmic in the
//!   handles; to take one out moves only what the table and the indexes keep of those before it or of those behind it,
//!   whichever are fewer, 16 bytes each. Whether some handle on a stream or by a link clashes takes time logarithmic in
//!   the streams or links that have handles; where the first handle of one comes or its last one goes, 16 bytes move of
//!   each of those before it or of those behind it, whichever are fewer. Handles below a directory cost a look at each
//!   handle of the table, and the way up from its link. A call of a tally takes time logarithmic in the owners, and
//!   linear where one is admitted. What was promised is found in time logarithmic in the directories or streams that
//!   have room; where one comes to have some or has none left, the others behind it are moved. A stream's table stays
//!   once it has been made, and so does an owner.
#![tactic(auto)]

mod call_key;
mod handle_index;
mod handle_scans;
mod handle_shares;
mod handle_table;
mod link_table;
mod lock_row;
mod names_by_directory;
mod ranges;
mod room_list;
mod share_table;
mod space;
mod stream_table;

pub use call_key::call_key_of;
pub use handle_table::HandleTable;
pub use link_table::LinkTable;
pub use lock_row::LockRow;
pub use names_by_directory::NamesByDirectory;
pub use room_list::RoomList;
pub use space::SpaceTally;
pub use stream_table::StreamTable;
