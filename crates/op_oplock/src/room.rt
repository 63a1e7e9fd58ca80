//! The room that is taken before anything changes.

ghost use Rattle.std.specs.Prelude.{ℕ, ◌≡◌, ◌≤◌, length, IsOk, OnOk, Some};
ghost use Rattle.fsa_model.specs.Grant.{switched};
ghost use Rattle.volume_state.specs.Room.{KeepsEnds, stream_of_handle};
ghost use Rattle.volume_state.specs.VolumeView.{room_for};

use fsa_types::NoMemory;
use volume_state::{Need, Volume};

/// Takes the room for an oplock of this handle on its stream, for the ends of all calls that are pending as
/// granted, and for a pending call. `NoMemory` where there is none.
pub fn room_to_grant(volume: &mut Volume, handle: u64) -> Result<(), NoMemory>
    ensures content { volume.new.content ≡ volume.old.content }
    ensures ends { KeepsEnds volume.old volume.new }
    ensures oplocks { OnOk result ((stream : ℕ) → stream_of_handle volume.new.content handle ≡ Some stream → 1 ≤ room_for volume.new.spare.oplocks stream) }
    ensures switched { OnOk result ((of key stream : ℕ) → length (switched volume.new.content of key stream) ≤ volume.new.spare.ends) }
    ensures pending { OnOk result (1 ≤ volume.new.spare.pending) }
{
    let ends = volume.oplocks();
    volume.reserve(&Need {
        oplocks: 1,
        pending: 1,
        ends,
        handle,
        ..Need::nothing()
    })
}

/// Takes the room for a pending call. `NoMemory` where there is none, and never where the volume has it.
pub fn room_to_stay(volume: &mut Volume) -> Result<(), NoMemory>
    ensures content { volume.new.content ≡ volume.old.content }
    ensures ends { KeepsEnds volume.old volume.new }
    ensures pending { OnOk result (1 ≤ volume.new.spare.pending) }
    ensures found { 1 ≤ volume.old.spare.pending → IsOk result }
{
    if volume.pending_room() != 0 {
        return Ok(());
    }
    volume.reserve(&Need {
        pending: 1,
        ..Need::nothing()
    })
}
