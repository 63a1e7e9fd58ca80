//! An oplock that is asked for, in the order of its checks.

ghost use Rattle.std.specs.Prelude.{◌≡◌, ◌≤◌, Some};
ghost use Rattle.fsa_model.specs.Grant.{oplock_at, oplock_on, try_oplock};
ghost use Rattle.op_oplock.specs.Calls.{IsOplock, asked_oplock};
ghost use Rattle.volume_state.specs.OplockOutcome.{key_of_handle};
ghost use Rattle.volume_state.specs.Room.{stream_of_handle};
ghost use Rattle.volume_state.specs.Tried.{Leaves};

use crate::room::room_to_grant;
use fsa_types::{Call, Interim, Level, NoMemory, Request, Status, What};
use std::alloc::Global;
use volume_state::{Grant, Tried, Volume};

// The oplock on the stream of a handle is granted or refused, once there is room.
#[tactic(auto, unfolding(fsa_model::specs::Grant::oplock_on))]
fn oplock_on(volume: &mut Volume, id: u64, key: u64, stream: u64, level: Level, turn: u64) -> Tried
    requires stream { stream_of_handle volume.old.content id ≡ Some stream }
    requires key { key_of_handle volume.old.content id ≡ key }
    ensures leaves { Leaves (oplock_on volume.old.content id key stream level turn) volume.old volume.new result }
{
    if let Err(NoMemory) = room_to_grant(volume, id) {
        return Tried::NoMemory;
    }
    match volume.grant(id, level, turn) {
        Grant::Granted => Tried::Stay(Interim::Granted(level)),
        Grant::Refused => Tried::ends(Status::OplockNotGranted),
    }
}

// An oplock of the handle of this number; a directory has none.
#[tactic(auto, unfolding(fsa_model::specs::Grant::oplock_at, fsa_model::specs::Grant::oplock_by))]
fn oplock_at(volume: &mut Volume, id: u64, level: Level, turn: u64) -> Tried
    ensures leaves { Leaves (oplock_at volume.old.content id level turn) volume.old volume.new result }
{
    let Some(row) = volume.handle(id) else {
        return Tried::ends(Status::InvalidHandle);
    };
    let Some(stream) = row.stream else {
        return Tried::ends(Status::InvalidParameter);
    };
    let key = row.key;
    oplock_on(volume, id, key, stream, level, turn)
}

// One try of an oplock's request.
#[tactic(auto, unfolding(fsa_model::specs::Grant::try_oplock))]
fn oplock(volume: &mut Volume, client: u32, handle: u32, level: Level, turn: u64) -> Tried
    ensures leaves { Leaves (try_oplock volume.old.content client handle level turn) volume.old volume.new result }
{
    let Some(id) = volume.handle_of(client, handle) else {
        return Tried::ends(Status::InvalidHandle);
    };
    oplock_at(volume, id, level, turn)
}

/// One try of an Oplock, after [MS-FSA] 'Server Requests an Oplock'. The call has to be one.
///
/// `Stay` where it is granted: the oplocks of the same key on the stream have ended, their calls are told
/// so, and this call is to be pending under `turn`, for which there is room. `Done` where it is refused;
/// never `Hold`. Of the room for ends it uses no more than one for each call that ends. `NoMemory` changes
/// nothing. `_alloc` is that of every try.
pub fn try_oplock(_alloc: Global, volume: &mut Volume, call: &Call, turn: u64) -> Tried
    requires verb { IsOplock call.now.what }
    ensures leaves { Leaves (asked_oplock volume.old.content call.now.client turn call.now.what) volume.old volume.new result }
{
    let What::Ask(Request::Oplock { handle, level }) = &call.what else {
        unreachable!()
    };
    oplock(volume, call.client, *handle, *level, turn)
}
