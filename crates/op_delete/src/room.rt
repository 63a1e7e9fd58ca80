//! The room that a close takes before it changes anything.

ghost use Rattle.std.specs.Prelude.{◌≡◌, ◌≤◌, ◌+◌, ◌^◌, IfSome, OnOk, length};
ghost use Rattle.op_delete.specs.Room.{HasSweepRoom, close_dirs, close_units, stream_dirs, stream_units};

use fsa_types::NoMemory;
use volume_state::{HandleRow, Need, NoteRoom, Volume};

// The room for a note that a handle's stream is removed.
fn stream_room(volume: &Volume, handle: &HandleRow) -> Option<NoteRoom>
    ensures units { IfSome result (λ room. room.units ≡ stream_units volume.now.content handle.now) }
    ensures dirs { IfSome result (λ room. room.dirs ≡ stream_dirs volume.now.content handle.now) }
    ensures few { IfSome result (λ room. room.dirs ≤ 2 ^ 32) }
{
    match handle.stream {
        None => Some(NoteRoom { units: 0, dirs: 0 }),
        Some(stream) => volume.note_room(handle.link, Some(stream)),
    }
}

/// The room for the two notes of a close: that the handle's stream is removed, and that its link is.
/// `None` where it is more than can be told.
pub fn close_room(volume: &Volume, handle: &HandleRow) -> Option<NoteRoom>
    ensures units { IfSome result (λ room. room.units ≡ close_units volume.now.content handle.now) }
    ensures dirs { IfSome result (λ room. room.dirs ≡ close_dirs volume.now.content handle.now) }
    ensures few { IfSome result (λ room. room.dirs ≤ 2 ^ 33) }
{
    let of_stream = stream_room(volume, handle)?;
    let of_link = volume.note_room(handle.link, None)?;
    let units = of_stream.units.checked_add(of_link.units)?;
    Some(NoteRoom {
        units,
        dirs: of_stream.dirs + of_link.dirs,
    })
}

/// How many calls can end, which are all that are pending. `None` where that is more than can be told.
pub fn ends(volume: &Volume) -> Option<u32>
    ensures { IfSome result (λ count. count ≡ length volume.now.content.pending) }
{
    u32::try_from(volume.pending_calls()).ok()
}

// What a close needs.
fn need_to_close(volume: &Volume, handle: &HandleRow) -> Option<Need>
    ensures ends { IfSome result (λ need. need.ends ≡ length volume.now.content.pending) }
    ensures changes { IfSome result (λ need. need.changes ≡ 2) }
    ensures units { IfSome result (λ need. need.units ≡ close_units volume.now.content handle.now) }
    ensures dirs { IfSome result (λ need. need.dirs ≡ close_dirs volume.now.content handle.now) }
{
    let ends = ends(volume)?;
    let room = close_room(volume, handle)?;
    Some(Need {
        changes: 2,
        ends,
        units: room.units,
        dirs: room.dirs,
        ..Need::nothing()
    })
}

/// Takes the room for the close of a handle: for the ends of all pending calls, and for two notes.
/// `NoMemory` where there is none.
pub fn room_to_close(volume: &mut Volume, handle: &HandleRow) -> Result<(), NoMemory>
    ensures content { volume.new.content ≡ volume.old.content }
    ensures kept { volume.old.spare.ends ≤ volume.new.spare.ends }
    ensures pending_kept { volume.old.spare.pending ≤ volume.new.spare.pending }
    ensures ends { OnOk result (length volume.new.content.pending ≤ volume.new.spare.ends) }
    ensures room { OnOk result (HasSweepRoom volume.new.content volume.new.spare handle.now) }
{
    let Some(need) = need_to_close(volume, handle) else {
        return Err(NoMemory);
    };
    volume.reserve(&need)
}
