//! An unlock of a range of bytes, in the order of its checks.

ghost use Rattle.std.specs.Prelude.{◌≡◌, is_some};
ghost use Rattle.op_data.specs.Calls.{IsDone, IsUnlock, asked_unlock};
ghost use Rattle.fsa_model.specs.Locking.{try_unlock, unlock_at};
ghost use Rattle.volume_state.specs.Tried.{Leaves};

use fsa_types::{Call, Request, Status, What};
use std::alloc::Global;
use volume_state::{Tried, Volume};

// Unlocks through the handle of this number.
#[tactic(auto, unfolding(fsa_model::specs::Locking::unlock_at, fsa_model::specs::Locking::unlock_by, fsa_model::specs::Locking::unlock_range))]
fn unlock_at(volume: &mut Volume, id: u64, at: u64, count: u64) -> Tried
    ensures leaves { Leaves (unlock_at volume.old.content id at count) volume.old volume.new result }
    ensures done { IsDone result }
    ensures beside { volume.new.beside ≡ volume.old.beside }
    ensures spare { volume.new.spare ≡ volume.old.spare }
{
    let Some(row) = volume.handle(id) else {
        return Tried::ends(Status::InvalidHandle);
    };
    if row.stream.is_none() {
        return Tried::ends(Status::InvalidParameter);
    }
    if !volume.drop_lock(id, at, count) {
        return Tried::ends(Status::RangeNotLocked);
    }
    Tried::ends(Status::Success)
}

// One try of an unlock.
#[tactic(auto, unfolding(fsa_model::specs::Locking::try_unlock))]
fn unlock(volume: &mut Volume, client: u32, handle: u32, at: u64, count: u64) -> Tried
    ensures leaves { Leaves (try_unlock volume.old.content client handle at count) volume.old volume.new result }
    ensures done { IsDone result }
    ensures beside { volume.new.beside ≡ volume.old.beside }
    ensures spare { volume.new.spare ≡ volume.old.spare }
{
    let Some(id) = volume.handle_of(client, handle) else {
        return Tried::ends(Status::InvalidHandle);
    };
    unlock_at(volume, id, at, count)
}

/// One try of an Unlock, after [MS-FSA] 'Server Requests an Unlock of a Byte-Range'. The call has to be
/// one. It always ends, takes no memory and uses no room. `_alloc` and `_turn` are those of every try.
pub fn try_unlock(_alloc: Global, volume: &mut Volume, call: &Call, _turn: u64) -> Tried
    requires verb { IsUnlock call.now.what }
    ensures leaves { Leaves (asked_unlock volume.old.content call.now.client call.now.what) volume.old volume.new result }
    ensures done { IsDone result }
    ensures beside { volume.new.beside ≡ volume.old.beside }
    ensures spare { volume.new.spare ≡ volume.old.spare }
{
    let What::Ask(Request::Unlock { handle, at, count }) = &call.what else {
        unreachable!()
    };
    unlock(volume, call.client, *handle, *at, *count)
}
