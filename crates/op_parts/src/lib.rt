//! Parts that the verbs share, each by the volume's public calls: the room that is taken first, the break of
//! oplocks that a request may have to wait for, the walk along a path, what a file, a link or a stream is, and
//! whether rights are there.
//!
//! ```text
//! let mut blockers = room_to_wait(alloc, volume, &need)?;        // before the first change
//! if break_for(volume, on, Class::Change, Some(handle), key, &mut blockers) {
//!     return held(blockers);             // it is tried again once these breaks have ended
//! }
//! let attributes = attributes_of(volume, file);      // none where there is no such file
//! ```
//!
//! The parts group so: room (`room_to_wait`, `noted_stream`); breaks (`break_for`, `held`); the walk along a path (`walk`,
//! `has_point`), and a request that a reparse point stops (`stopped`); a file (`creation_time`, `access_time`,
//! `write_time`, `attributes_of`, `owner_of`, `is_readonly`, `set_change_time`); what is shown of a file and a
//! stream (`shown_attributes`, `change_time`, `length_shown`, `space_shown`); attributes that are asked for
//! (`has_other_attribute`, `kept_attributes`); a link (`file_of_link`, `linked_file`, `is_link_marked`,
//! `is_link_of_parent`, `name_bit`); a stream (`is_marked`, `is_named_stream`, `named_stream`); handles
//! (`is_any_open`); rights (`has_right`, `grants`). Those of a walk, a file, a link, a stream and handles have
//! the names of their definitions in `fsa_model` (`has_point` asks its `point_of`, `set_change_time` is its
//! `with_change_time`); a break is its `with_breaks` and `waits_for`, and `has_right` and `has_other_attribute`
//! are `has_any` and `has_other` of `fsa_types`. `Room` has the conditions that verbs name: room for a break
//! and a call that is held (`HasWaitRoom`), and room for a note (`HasNoteRoom`).
//!
//! - A break asks that its room was taken and that numbers are left for breaks; nothing can be refused then.
//!   The parts on a file, a link, a stream, handles and rights ask nothing and change nothing, but that
//!   `grants` asks for a client of the volume, and `set_change_time` changes that: of a file, a link or a
//!   stream that isn't there they tell 0, that there is none, or that it isn't so.
//! - A break costs what `volume_breaks` says, a walk one look-up of each kind for each component, `grants` the
//!   entries of an access list, `is_any_open` a look at all handles, each with the links above it where the set
//!   is what lies below a directory, and any other part of a volume a look-up or a few.
#![tactic(auto)]

mod attributes;
mod breaks;
mod files;
mod handles;
mod links;
mod paths;
mod rights;
mod room;
mod shown;
mod stops;
mod streams;

pub use attributes::{has_other_attribute, kept_attributes};
pub use breaks::{break_for, held};
pub use files::{
    access_time, attributes_of, creation_time, is_readonly, owner_of, set_change_time, write_time,
};
pub use handles::is_any_open;
pub use links::{file_of_link, is_link_marked, is_link_of_parent, linked_file, name_bit};
pub use paths::{Walked, has_point, walk};
pub use rights::{grants, has_right};
pub use room::{noted_stream, room_to_wait};
pub use shown::{change_time, length_shown, shown_attributes, space_shown};
pub use stops::stopped;
pub use streams::{is_marked, is_named_stream, named_stream};
