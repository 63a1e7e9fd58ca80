//! Setting the length of a stream, in the order of its checks.

ghost use Rattle.std.specs.Prelude.{◌≡◌, ◌≤◌, length, IfNone, IsTrue};
ghost use Rattle.fsa_types.specs.Rows.{lives};
ghost use Rattle.fsa_model.specs.Growth.{growth_fault};
ghost use Rattle.fsa_model.specs.Lookups.{largest_end};
ghost use Rattle.op_data.specs.Calls.{IsSetEnd, asked_set_end};
ghost use Rattle.op_data.specs.Conditions.{HasEndRoom, MayUse};
ghost use Rattle.op_data.specs.Ends.{Ends};
ghost use Rattle.fsa_model.specs.SetEnd.{set_end_at, set_end_grown, set_end_to, try_set_end};
ghost use Rattle.op_parts.specs.Room.{HasWaitRoom};
ghost use Rattle.volume_state.specs.Room.{KeepsEnds};
ghost use Rattle.volume_state.specs.Tried.{Leaves};

use crate::growth::growth_fault;
use crate::resized::{Resizing, set_end_in_place};
use crate::rights::LARGEST_END;
use crate::room::room_to_resize;
use fsa_types::{AccessMask, BlockerList, Body, Call, Request, Status, What};
use op_parts::{break_for, has_right, held};
use std::alloc::Global;
use volume_state::{Class, HandleSet, Tried, Volume};

// The length is set unless the stream may not grow so.
#[tactic(auto, unfolding(fsa_model::specs::SetEnd::set_end_grown))]
fn set_end_grown(
    volume: &mut Volume,
    resizing: Resizing,
    fault: Option<Status>,
) -> Result<Body, Status>
    requires lives { IsTrue (lives volume.old.content.streams resizing.stream) }
    requires fault { fault ≡ growth_fault volume.old.content resizing.stream resizing.end }
    requires put { IfNone fault (HasEndRoom volume.old.content volume.old.spare resizing.link resizing.stream resizing.end) }
    ensures gives { Ends (set_end_grown volume.old.content resizing.link resizing.stream resizing.end) volume.new.content result }
    ensures ends { KeepsEnds volume.old volume.new }
{
    match fault {
        Some(status) => Err(status),
        None => {
            set_end_in_place(volume, resizing);
            Ok(Body::Nothing)
        }
    }
}

// The length is set once the oplocks that a change breaks are broken. The room is taken.
#[tactic(auto, unfolding(fsa_model::specs::SetEnd::set_end_to))]
fn set_end_in_room(
    volume: &mut Volume,
    resizing: Resizing,
    fault: Option<Status>,
    blockers: BlockerList,
) -> Tried
    requires lives { IsTrue (lives volume.old.content.streams resizing.stream) }
    requires may { MayUse volume.old.content }
    requires room { HasWaitRoom volume.old.content volume.old.spare blockers }
    requires fault { fault ≡ growth_fault volume.old.content resizing.stream resizing.end }
    requires put { IfNone fault (HasEndRoom volume.old.content volume.old.spare resizing.link resizing.stream resizing.end) }
    ensures leaves { Leaves (set_end_to volume.old.content resizing.handle resizing.key resizing.link resizing.stream resizing.end) volume.old volume.new result }
{
    let mut blockers = blockers;
    let Resizing {
        handle,
        key,
        stream,
        ..
    } = resizing;
    let on = HandleSet::Stream(stream);
    let acting = Some(handle);
    if break_for(volume, on, Class::Change, acting, key, &mut blockers) {
        return held(blockers);
    }
    match set_end_grown(volume, resizing, fault) {
        Ok(body) => Tried::succeeds(body),
        Err(status) => Tried::ends(status),
    }
}

// The length is set. What growth comes to is known before the first change; no break changes it.
fn set_end_to(alloc: Global, volume: &mut Volume, resizing: Resizing) -> Tried
    requires lives { IsTrue (lives volume.old.content.streams resizing.stream) }
    requires may { MayUse volume.old.content }
    requires place { resizing.end ≤ largest_end }
    ensures leaves { Leaves (set_end_to volume.old.content resizing.handle resizing.key resizing.link resizing.stream resizing.end) volume.old volume.new result }
{
    let fault = growth_fault(volume, resizing.stream, resizing.end);
    let Ok(blockers) = room_to_resize(alloc, volume, resizing, fault) else {
        return Tried::NoMemory;
    };
    set_end_in_room(volume, resizing, fault, blockers)
}

// Sets the length through the handle of this number.
#[tactic(auto, using(crate::proofs::HandleLaws::stream_lives), unfolding(fsa_model::specs::SetEnd::set_end_at, fsa_model::specs::SetEnd::set_end_by, fsa_model::specs::SetEnd::set_end_stream))]
fn set_end_at(alloc: Global, volume: &mut Volume, id: u64, end: u64) -> Tried
    requires may { MayUse volume.old.content }
    ensures leaves { Leaves (set_end_at volume.old.content id end) volume.old volume.new result }
{
    let Some(row) = volume.handle(id) else {
        return Tried::ends(Status::InvalidHandle);
    };
    let Some(stream) = row.stream else {
        return Tried::ends(Status::InvalidParameter);
    };
    if !has_right(row.access, AccessMask::WRITE_DATA) {
        return Tried::ends(Status::AccessDenied);
    }
    if end > LARGEST_END {
        return Tried::ends(Status::InvalidParameter);
    }
    let resizing = Resizing {
        handle: id,
        key: row.key,
        link: row.link,
        stream,
        end,
    };
    set_end_to(alloc, volume, resizing)
}

// One try of setting the length.
#[tactic(auto, unfolding(fsa_model::specs::SetEnd::try_set_end))]
fn set_end(alloc: Global, volume: &mut Volume, client: u32, handle: u32, end: u64) -> Tried
    requires may { MayUse volume.old.content }
    ensures leaves { Leaves (try_set_end volume.old.content client handle end) volume.old volume.new result }
{
    let Some(id) = volume.handle_of(client, handle) else {
        return Tried::ends(Status::InvalidHandle);
    };
    set_end_at(alloc, volume, id, end)
}

/// One try of a SetEnd, after [MS-FSA] 'Server Requests Setting of File Information',
/// FileEndOfFileInformation. The call has to be one, and numbers have to be left for breaks.
///
/// `Done` with the reply, or `Hold` with the breaks of oplocks that it waits for, as the definition
/// says; never `Stay`. Where it is held there is room to make it pending. Of the room for ends it uses
/// no more than one for each call that ends. `NoMemory` changes nothing, not even breaks. `_turn` is the
/// number of the turn; no length needs it.
pub fn try_set_end(alloc: Global, volume: &mut Volume, call: &Call, _turn: u64) -> Tried
    requires verb { IsSetEnd call.now.what }
    requires may { MayUse volume.old.content }
    ensures leaves { Leaves (asked_set_end volume.old.content call.now.client call.now.what) volume.old volume.new result }
{
    let What::Ask(Request::SetEnd { handle, length }) = &call.what else {
        unreachable!()
    };
    set_end(alloc, volume, call.client, *handle, *length)
}
