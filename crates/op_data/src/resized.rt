//! What a new length changes.

ghost use Rattle.std.specs.Prelude.{◌≡◌, ◌==◌, IsTrue, length, true};
ghost use Rattle.fsa_types.specs.Rows.{lives};
ghost use Rattle.fsa_model.specs.Lookups.{bytes_of};
ghost use Rattle.op_data.specs.Conditions.{HasEndRoom, HasWriteRoom};
ghost use Rattle.fsa_model.specs.SetEnd.{with_end_set, with_file_resized, with_resized};
ghost use Rattle.volume_state.specs.Room.{KeepsEnds};

use crate::bytes::length_of;
use crate::written::{file_of_stream, note_write};
use op_parts::{access_time, attributes_of, creation_time};
use volume_state::Volume;

/// A new length of a stream, by a handle with this key that was opened by this link.
#[derive(Clone, Copy)]
pub struct Resizing {
    /// The number of the handle.
    pub handle: u64,
    /// Its oplock key.
    pub key: u64,
    /// The number of its link.
    pub link: u64,
    /// The number of its stream.
    pub stream: u64,
    /// The new length, in bytes.
    pub end: u64,
}

/// Whether a stream ends there. There has to be such a stream.
pub fn ends_at(volume: &Volume, stream: u64, end: u64) -> bool
    requires lives { IsTrue (lives volume.now.content.streams stream) }
    ensures { result ≡ (length (bytes_of volume.now.content stream) == end) }
{
    length_of(volume, stream) == end
}

/// The length is set; one that is set as it was changes nothing. The room is taken.
pub fn set_end_in_place(volume: &mut Volume, resizing: Resizing)
    requires lives { IsTrue (lives volume.old.content.streams resizing.stream) }
    requires put { HasEndRoom volume.old.content volume.old.spare resizing.link resizing.stream resizing.end }
    ensures content { volume.new.content ≡ with_end_set volume.old.content resizing.link resizing.stream resizing.end }
    ensures ends { KeepsEnds volume.old volume.new }
{
    if ends_at(volume, resizing.stream, resizing.end) {
        return;
    }
    resize_in_place(volume, resizing);
}

// A new length is noted and set, and its file has changed. The room is taken.
fn resize_in_place(volume: &mut Volume, resizing: Resizing)
    requires put { HasWriteRoom volume.old.content volume.old.spare resizing.link resizing.stream resizing.end 0 }
    ensures content { volume.new.content ≡ with_resized volume.old.content resizing.link resizing.stream resizing.end }
    ensures ends { KeepsEnds volume.old volume.new }
{
    let file = file_of_stream(volume, resizing.stream);
    note_write(volume, resizing.link, resizing.stream, true);
    volume.set_length(resizing.stream, resizing.end);
    resize_file(volume, file);
}

// A stream of a file has a new length at this moment; the attributes stay.
fn resize_file(volume: &mut Volume, file: u64)
    ensures content { volume.new.content ≡ with_file_resized volume.old.content file }
    ensures spare { volume.new.spare ≡ volume.old.spare }
{
    let creation = creation_time(volume, file);
    let access = access_time(volume, file);
    let attributes = attributes_of(volume, file);
    let now = volume.clock();
    volume.set_basic(file, creation, access, now, now, attributes);
}
