//! One try of any call.

ghost use Rattle.std.specs.Prelude.{◌≡◌, ◌<◌, ◌≤◌, ◌+◌, ◌^◌, true};
ghost use Rattle.fsa_machine.specs.Serves.{MayTry};
ghost use Rattle.fsa_machine.specs.Spare.{is_ack_or_cancel};
ghost use Rattle.fsa_model.specs.Edits.{with_ticks};
ghost use Rattle.fsa_model.specs.Outcome.{ends_with};
ghost use Rattle.fsa_model.specs.Try.{try, try_request, try_what};
ghost use Rattle.fsa_types.specs.declared.request.What.TheVariants.{Ask};
ghost use Rattle.volume_state.specs.Tried.{HasAnswer, Leaves};

use crate::waiting::{try_cancel, try_wait};
use fsa_types::{Call, Request, Status, What};
use op_control::{
    try_delete_reparse, try_get_reparse, try_query_quota, try_set_quota, try_set_reparse,
};
use op_data::{try_flush, try_lock, try_read, try_set_end, try_unlock, try_write};
use op_delete::{try_close, try_leave, try_set_disposition};
use op_dir::{try_notify, try_query_dir};
use op_info::{try_query_info, try_set_basic, try_set_security};
use op_link::{try_link, try_rename};
use op_open::try_create;
use op_oplock::{try_ack, try_oplock};
use std::alloc::Global;
use volume_state::{Tried, Volume};

// One try of a request.
fn try_request(
    alloc: Global,
    volume: &mut Volume,
    call: &Call,
    request: &Request,
    turn: u64,
) -> Tried
    requires is { call.now.what ≡ Ask request.now }
    requires may { MayTry volume.old.content call.now }
    requires end_room { 1 ≤ volume.old.spare.ends }
    ensures leaves { Leaves (try_request volume.old.content turn call.now.client call.now.number request.now) volume.old volume.new result }
    ensures memory { is_ack_or_cancel (Ask request.now) ≡ true → 1 ≤ volume.old.spare.pending → HasAnswer result }
{
    match request {
        Request::Create { .. } => try_create(alloc, volume, call, turn),
        Request::Close { .. } => try_close(alloc, volume, call, turn),
        Request::Read { .. } => try_read(alloc, volume, call, turn),
        Request::Write { .. } => try_write(alloc, volume, call, turn),
        Request::Flush { .. } => try_flush(alloc, volume, call, turn),
        Request::SetEnd { .. } => try_set_end(alloc, volume, call, turn),
        Request::Lock { .. } => try_lock(alloc, volume, call, turn),
        Request::Unlock { .. } => try_unlock(alloc, volume, call, turn),
        Request::SetSecurity { .. } => try_set_security(alloc, volume, call, turn),
        Request::Cancel { number } => try_cancel(volume, call.client, *number),
        Request::Oplock { .. } => try_oplock(alloc, volume, call, turn),
        Request::Ack { .. } => try_ack(alloc, volume, call, turn),
        Request::Rename { .. } => try_rename(alloc, volume, call, turn),
        Request::Link { .. } => try_link(alloc, volume, call, turn),
        Request::SetDisposition { .. } => try_set_disposition(alloc, volume, call, turn),
        Request::QueryDir { .. } => try_query_dir(alloc, volume, call, turn),
        Request::QueryInfo { .. } => try_query_info(alloc, volume, call, turn),
        Request::SetBasic { .. } => try_set_basic(alloc, volume, call, turn),
        Request::SetReparse { .. } => try_set_reparse(alloc, volume, call, turn),
        Request::GetReparse { .. } => try_get_reparse(alloc, volume, call, turn),
        Request::DeleteReparse { .. } => try_delete_reparse(alloc, volume, call, turn),
        Request::SetQuota { .. } => try_set_quota(alloc, volume, call, turn),
        Request::QueryQuota { .. } => try_query_quota(alloc, volume, call, turn),
        Request::Notify { .. } => try_notify(alloc, volume, call, turn),
    }
}

// The clock goes on by so many ticks.
fn try_tick(volume: &mut Volume, ticks: u32) -> Tried
    requires fits { volume.old.content.clock + ticks < 2 ^ 64 }
    ensures leaves { Leaves (ends_with (with_ticks volume.old.content ticks) Status.Success) volume.old volume.new result }
{
    volume.advance(ticks);
    Tried::ends(Status::Success)
}

// One try of what a call does.
fn try_what(alloc: Global, volume: &mut Volume, call: &Call, turn: u64) -> Tried
    requires may { MayTry volume.old.content call.now }
    requires end_room { 1 ≤ volume.old.spare.ends }
    ensures leaves { Leaves (try_what volume.old.content turn call.now.client call.now.number call.now.what) volume.old volume.new result }
    ensures memory { is_ack_or_cancel call.now.what ≡ true → 1 ≤ volume.old.spare.pending → HasAnswer result }
{
    match &call.what {
        What::Ask(request) => try_request(alloc, volume, call, request, turn),
        What::Tick(ticks) => try_tick(volume, *ticks),
        What::WaitFor(earlier) => try_wait(volume, call.client, call.number, *earlier),
        What::Leave => try_leave(alloc, volume, call, turn),
    }
}

/// One try of a call in this turn, or under it; a client that has left has no handle. It has to be known
/// of the volume what `MayTry` says, and there has to be room for one end.
///
/// Where the call stays or is held there is room to make it pending, with its blockers. Of the room for
/// ends it uses no more than one for each call that ends, and none of that for pending calls. `NoMemory`
/// changes nothing, and doesn't come to an Ack or a Cancel where there is room for one pending call.
pub fn try_call(alloc: Global, volume: &mut Volume, call: &Call, turn: u64) -> Tried
    requires may { MayTry volume.old.content call.now }
    requires end_room { 1 ≤ volume.old.spare.ends }
    ensures leaves { Leaves (try volume.old.content call.now turn) volume.old volume.new result }
    ensures memory { is_ack_or_cancel call.now.what ≡ true → 1 ≤ volume.old.spare.pending → HasAnswer result }
{
    if volume.has_left(call.client) {
        return Tried::ends(Status::InvalidHandle);
    }
    try_what(alloc, volume, call, turn)
}
