//! The room that a verb takes before its first change.

ghost use Rattle.std.specs.Prelude.{◌≡◌, ◌≤◌, IfOk, OnOk};
ghost use Rattle.op_parts.specs.Room.{HasWaitRoom, noted_stream};
ghost use Rattle.volume_state.specs.Room.{HasRoom, IsNoLess, KeepsEnds};

use fsa_types::{BlockerList, NoMemory};
use std::alloc::Global;
use volume_state::{Need, Volume};

// Takes the room that is needed, for a pending call too, and for so many blockers and ends as there are
// oplocks.
fn reserve_to_wait(volume: &mut Volume, need: &Need, oplocks: u32) -> Result<(), NoMemory>
    requires pending { need.now.pending ≤ 1 }
    requires ends { need.now.ends ≡ 0 }
    ensures content { volume.new.content ≡ volume.old.content }
    ensures kept { IsNoLess volume.old.spare volume.new.spare }
    ensures needed { OnOk result (HasRoom volume.new.content volume.new.spare need.now) }
    ensures pending { OnOk result (1 ≤ volume.new.spare.pending) }
    ensures blockers { OnOk result (oplocks ≤ volume.new.spare.blockers) }
    ensures ends { OnOk result (oplocks ≤ volume.new.spare.ends) }
{
    volume.reserve(&Need {
        pending: 1,
        blockers: oplocks.max(need.blockers),
        ends: oplocks,
        ..*need
    })?;
    Ok(())
}

/// Takes the room that is needed, and with it that for the ends that a break may tell and for a call that
/// is held; the list is for what it waits for. The need itself has none for ends, and for one pending call
/// at most. `NoMemory` where there is no room; some of it may have been taken then.
pub fn room_to_wait(
    alloc: Global,
    volume: &mut Volume,
    need: &Need,
) -> Result<BlockerList, NoMemory>
    requires pending { need.now.pending ≤ 1 }
    requires ends { need.now.ends ≡ 0 }
    ensures content { volume.new.content ≡ volume.old.content }
    ensures kept { IsNoLess volume.old.spare volume.new.spare }
    ensures ends { KeepsEnds volume.old volume.new }
    ensures room { IfOk result (λ blockers. HasWaitRoom volume.new.content volume.new.spare blockers) }
    ensures needed { OnOk result (HasRoom volume.new.content volume.new.spare need.now) }
{
    let oplocks = volume.oplocks();
    let blockers = BlockerList::with_room(alloc, oplocks)?;
    reserve_to_wait(volume, need, oplocks)?;
    Ok(blockers)
}

/// The stream of which a change of bytes is noted: none for the default stream, whose file is noted.
pub fn noted_stream(stream: u64, named: bool) -> Option<u64>
    ensures { result ≡ noted_stream stream named }
{
    if named {
        return Some(stream);
    }
    None
}
