//! The room that is taken before anything changes.

ghost use Rattle.std.specs.Prelude.{◌≡◌, ◌≤◌, None, OnOk};
ghost use Rattle.op_parts.specs.Room.{HasNoteRoom};
ghost use Rattle.volume_state.specs.Room.{KeepsEnds};

use fsa_types::NoMemory;
use volume_state::{Need, Volume};

// Takes the room for so many owners, and for a note of the link's file.
fn reserve_note(volume: &mut Volume, link: u64, owners: u32) -> Result<(), NoMemory>
    ensures content { volume.new.content ≡ volume.old.content }
    ensures ends { KeepsEnds volume.old volume.new }
    ensures owners { OnOk result (owners ≤ volume.new.spare.owners) }
    ensures note { OnOk result (HasNoteRoom volume.new.content volume.new.spare link None) }
{
    let Some(note) = volume.note_room(link, None) else {
        return Err(NoMemory);
    };
    volume.reserve(&Need {
        owners,
        changes: 1,
        units: note.units,
        dirs: note.dirs,
        ..Need::nothing()
    })
}

/// Takes the room for an owner, and for a note of the link's file. `NoMemory` where there is none.
pub fn room_to_set(volume: &mut Volume, link: u64) -> Result<(), NoMemory>
    ensures content { volume.new.content ≡ volume.old.content }
    ensures ends { KeepsEnds volume.old volume.new }
    ensures owners { OnOk result (1 ≤ volume.new.spare.owners) }
    ensures note { OnOk result (HasNoteRoom volume.new.content volume.new.spare link None) }
{
    reserve_note(volume, link, 1)
}

/// Takes the room for a note of the link's file. `NoMemory` where there is none.
pub fn room_to_note(volume: &mut Volume, link: u64) -> Result<(), NoMemory>
    ensures content { volume.new.content ≡ volume.old.content }
    ensures ends { KeepsEnds volume.old volume.new }
    ensures note { OnOk result (HasNoteRoom volume.new.content volume.new.spare link None) }
{
    reserve_note(volume, link, 0)
}
