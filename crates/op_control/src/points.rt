//! What a set and a removal of a reparse point share: the right, and the change with its note.

ghost use Rattle.std.specs.Prelude.{◌≡◌, ◌≤◌, None, OnOk, OnErr, IfSome, length};
ghost use Rattle.fsa_model.specs.Bounds.{most_point_bytes};
ghost use Rattle.fsa_model.specs.ReparsePoints.{may_set_point, with_point_noted};
ghost use Rattle.op_parts.specs.Room.{HasNoteRoom};
ghost use Rattle.volume_state.specs.Room.{KeepsEnds};

use bitflags::Flags;
use fsa_types::{AccessMask, Bytes, FILE_ACTION_MODIFIED, NoMemory, NotifyFilter};
use op_parts::has_right;
use volume_state::{HandleRow, Need, Volume};

/// Whether a handle lets a reparse point be set or removed: by WRITE_DATA or WRITE_ATTRIBUTES.
pub fn may_set_point(handle: &HandleRow) -> bool
    ensures { result ≡ may_set_point handle.now }
{
    has_right(handle.access, AccessMask::WRITE_DATA)
        || has_right(handle.access, AccessMask::WRITE_ATTRIBUTES)
}

// Takes the room for a note of the link's file. `NoMemory` where there is none.
fn room_to_note(volume: &mut Volume, link: u64) -> Result<(), NoMemory>
    ensures content { volume.new.content ≡ volume.old.content }
    ensures ends { KeepsEnds volume.old volume.new }
    ensures note { OnOk result (HasNoteRoom volume.new.content volume.new.spare link None) }
{
    let Some(note) = volume.note_room(link, None) else {
        return Err(NoMemory);
    };
    volume.reserve(&Need {
        changes: 1,
        units: note.units,
        dirs: note.dirs,
        ..Need::nothing()
    })
}

// The point of a file is set or removed, and noted. The room is taken.
fn put_in_room(volume: &mut Volume, link: u64, file: u64, point: Option<(u32, Bytes)>)
    requires few { IfSome point (λ kept. length kept.1 ≤ most_point_bytes) }
    requires room { HasNoteRoom volume.old.content volume.old.spare link None }
    ensures content { volume.new.content ≡ with_point_noted volume.old.content link file point }
    ensures ends { KeepsEnds volume.old volume.new }
{
    volume.set_reparse(file, point);
    let filter = NotifyFilter::ATTRIBUTES.bits();
    volume.note(link, FILE_ACTION_MODIFIED, filter, None);
}

/// The point of the link's file is set, its tag and at most 16,376 bytes, or removed, and noted.
/// `NoMemory` where there is none, and nothing has changed.
pub fn put_point(
    volume: &mut Volume,
    link: u64,
    file: u64,
    point: Option<(u32, Bytes)>,
) -> Result<(), NoMemory>
    requires few { IfSome point (λ kept. length kept.1 ≤ most_point_bytes) }
    ensures done { OnOk result (volume.new.content ≡ with_point_noted volume.old.content link file point) }
    ensures refused { OnErr result (volume.new.content ≡ volume.old.content) }
    ensures ends { KeepsEnds volume.old volume.new }
{
    room_to_note(volume, link)?;
    put_in_room(volume, link, file, point);
    Ok(())
}
