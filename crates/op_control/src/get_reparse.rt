//! A reparse point is asked for.

ghost use Rattle.std.specs.Prelude.{◌≤◌, length, take};
ghost use Rattle.fsa_model.specs.Bounds.{most_point_bytes};
ghost use Rattle.fsa_model.specs.ReparsePoints.{answers_with, get_point, get_reparse_at, get_reparse_of, try_get_reparse};
ghost use Rattle.op_control.specs.Calls.{IsGetReparse, asked_get_reparse};
ghost use Rattle.volume_state.specs.Tried.{Leaves};

use fsa_types::{Body, Bytes, Call, Reply, Request, Status, What};
use op_parts::file_of_link;
use pack_info::pack_reparse;
use std::alloc::Global;
use volume_state::{Tried, Volume};

// How many bytes of a buffer stand before the data.
const HEADER: u32 = 8;

// The first bytes of a buffer are given, as many as there is room for; it has more than that.
fn overflows(alloc: Global, volume: &Volume, buffer: &[u8], room: u32) -> Tried
    requires more { room ≤ length buffer.now }
    ensures leaves { Leaves (answers_with volume.now.content Status.BufferOverflow (take room buffer.now)) volume.now volume.now result }
{
    let Ok(part) = Bytes::copy_of(alloc, &buffer[..room as usize]) else {
        return Tried::NoMemory;
    };
    Tried::Done(Reply {
        status: Status::BufferOverflow,
        body: Body::Got(part),
    })
}

// The buffer of a point is given, as far as there is room for it.
#[tactic(auto, unfolding(fsa_model::specs::ReparsePoints::get_point))]
fn get_point(alloc: Global, volume: &Volume, point: &(u32, Bytes), room: u32) -> Tried
    requires few { length point.now.1 ≤ most_point_bytes }
    ensures leaves { Leaves (get_point volume.now.content point.now room) volume.now volume.now result }
{
    if room < HEADER {
        return Tried::ends(Status::BufferTooSmall);
    }
    let Ok(buffer) = pack_reparse(alloc, point.0, point.1.bytes()) else {
        return Tried::NoMemory;
    };
    if (room as usize) < buffer.bytes().len() {
        return overflows(alloc, volume, buffer.bytes(), room);
    }
    Tried::succeeds(Body::Got(buffer))
}

// The point of a file is given.
#[tactic(auto, unfolding(fsa_model::specs::ReparsePoints::get_reparse_of))]
fn get_reparse_of(alloc: Global, volume: &Volume, file: u64, room: u32) -> Tried
    ensures leaves { Leaves (get_reparse_of volume.now.content file room) volume.now volume.now result }
{
    match volume.point(file) {
        None => Tried::ends(Status::NotAReparsePoint),
        Some(point) => get_point(alloc, volume, point, room),
    }
}

// The point of the file of the handle of this number is given; no right is asked.
#[tactic(auto, unfolding(fsa_model::specs::ReparsePoints::get_reparse_at, fsa_model::specs::ReparsePoints::get_reparse_by))]
fn get_reparse_at(alloc: Global, volume: &Volume, id: u64, room: u32) -> Tried
    ensures leaves { Leaves (get_reparse_at volume.now.content id room) volume.now volume.now result }
{
    let Some(handle) = volume.handle(id) else {
        return Tried::ends(Status::InvalidHandle);
    };
    let Some(file) = file_of_link(volume, handle.link) else {
        return Tried::ends(Status::InvalidHandle);
    };
    get_reparse_of(alloc, volume, file, room)
}

// One try of it.
#[tactic(auto, unfolding(fsa_model::specs::ReparsePoints::try_get_reparse))]
fn get_by_handle(alloc: Global, volume: &Volume, client: u32, handle: u32, room: u32) -> Tried
    ensures leaves { Leaves (try_get_reparse volume.now.content client handle room) volume.now volume.now result }
{
    let Some(id) = volume.handle_of(client, handle) else {
        return Tried::ends(Status::InvalidHandle);
    };
    get_reparse_at(alloc, volume, id, room)
}

/// One try of a GetReparse, after [MS-FSA] 'FSCTL_GET_REPARSE_POINT'. The call has to be one. It changes
/// nothing.
///
/// `Done` with the reply, as the definition says; never `Stay` or `Hold`. No room for ends is used. `_turn`
/// is the number of the turn; nothing here needs it.
pub fn try_get_reparse(alloc: Global, volume: &mut Volume, call: &Call, _turn: u64) -> Tried
    requires verb { IsGetReparse call.now.what }
    ensures leaves { Leaves (asked_get_reparse volume.old.content call.now.client call.now.what) volume.old volume.new result }
{
    let What::Ask(Request::GetReparse { handle, room }) = &call.what else {
        unreachable!()
    };
    get_by_handle(alloc, volume, call.client, *handle, *room)
}
