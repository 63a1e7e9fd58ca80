//! The room that an open takes before it changes anything.

ghost use Rattle.std.specs.Prelude.{◌≡◌, IfOk, OnOk};
ghost use Rattle.op_open.specs.Conditions.{HasOpenRoom};
ghost use Rattle.op_parts.specs.Room.{HasNoteRoom};
ghost use Rattle.volume_state.specs.Room.{KeepsEnds};

use fsa_types::{BlockerList, NoMemory};
use op_parts::room_to_wait;
use std::alloc::Global;
use volume_state::{Need, Volume};

/// Takes the room for a handle, for the ends that a break may tell, and for an open that is held.
/// `NoMemory` where there is none.
pub fn room_to_open(alloc: Global, volume: &mut Volume) -> Result<BlockerList, NoMemory>
    ensures content { volume.new.content ≡ volume.old.content }
    ensures ends { KeepsEnds volume.old volume.new }
    ensures room { IfOk result (λ blockers. HasOpenRoom volume.new.content volume.new.spare blockers) }
{
    let need = Need {
        handles: 1,
        ..Need::nothing()
    };
    let blockers = room_to_wait(alloc, volume, &need)?;
    Ok(blockers)
}

/// Takes the same room, and that for a note of this link, of this stream of its file or else of the
/// file. `NoMemory` where there is none.
pub fn room_to_overwrite(
    alloc: Global,
    volume: &mut Volume,
    link: u64,
    stream: Option<u64>,
) -> Result<BlockerList, NoMemory>
    ensures content { volume.new.content ≡ volume.old.content }
    ensures ends { KeepsEnds volume.old volume.new }
    ensures room { IfOk result (λ blockers. HasOpenRoom volume.new.content volume.new.spare blockers) }
    ensures note { OnOk result (HasNoteRoom volume.new.content volume.new.spare link stream) }
{
    let Some(note) = volume.note_room(link, stream) else {
        return Err(NoMemory);
    };
    let need = Need {
        handles: 1,
        changes: 1,
        units: note.units,
        dirs: note.dirs,
        ..Need::nothing()
    };
    let blockers = room_to_wait(alloc, volume, &need)?;
    Ok(blockers)
}
