//! A flush, in the order of its checks.

ghost use Rattle.std.specs.Prelude.{◌≡◌};
ghost use Rattle.op_data.specs.Calls.{IsDone, IsFlush, asked_flush};
ghost use Rattle.fsa_model.specs.Flush.{flush_at, try_flush};
ghost use Rattle.volume_state.specs.Tried.{Leaves};

use fsa_types::{AccessMask, Call, Request, Status, What};
use op_parts::has_right;
use std::alloc::Global;
use volume_state::{Tried, Volume};

// Flushes through the handle of this number.
#[tactic(auto, unfolding(fsa_model::specs::Flush::flush_at))]
fn flush_at(volume: &Volume, id: u64) -> Tried
    ensures leaves { Leaves (flush_at volume.now.content id) volume.now volume.now result }
    ensures done { IsDone result }
{
    let Some(row) = volume.handle(id) else {
        return Tried::ends(Status::InvalidHandle);
    };
    if has_right(row.access, AccessMask::WRITE_DATA)
        || has_right(row.access, AccessMask::APPEND_DATA)
    {
        return Tried::ends(Status::Success);
    }
    Tried::ends(Status::AccessDenied)
}

// One try of a flush.
#[tactic(auto, unfolding(fsa_model::specs::Flush::try_flush))]
fn flush(volume: &Volume, client: u32, handle: u32) -> Tried
    ensures leaves { Leaves (try_flush volume.now.content client handle) volume.now volume.now result }
    ensures done { IsDone result }
{
    let Some(id) = volume.handle_of(client, handle) else {
        return Tried::ends(Status::InvalidHandle);
    };
    flush_at(volume, id)
}

/// One try of a Flush, after [MS-FSA] 'Server Requests Flushing Cached Data'. The call has to be one. It
/// always ends, changes nothing, breaks no oplock, and takes no memory. `_alloc` and `_turn` are those of
/// every try.
pub fn try_flush(_alloc: Global, volume: &mut Volume, call: &Call, _turn: u64) -> Tried
    requires verb { IsFlush call.now.what }
    ensures leaves { Leaves (asked_flush volume.old.content call.now.client call.now.what) volume.old volume.new result }
    ensures done { IsDone result }
    ensures same { volume.new ≡ volume.old }
{
    let What::Ask(Request::Flush { handle }) = &call.what else {
        unreachable!()
    };
    flush(volume, call.client, *handle)
}
