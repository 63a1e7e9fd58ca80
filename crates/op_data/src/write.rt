//! A write, in the order of its checks.

ghost use Rattle.std.specs.Prelude.{◌≡◌, ◌≤◌, ◌+◌, length, IfNone, IsTrue};
ghost use Rattle.fsa_types.specs.Rows.{lives};
ghost use Rattle.fsa_model.specs.Growth.{growth_fault};
ghost use Rattle.fsa_model.specs.Outcome.{Done};
ghost use Rattle.fsa_model.specs.Lookups.{largest_end};
ghost use Rattle.fsa_model.specs.Write.{try_write, write_at, write_bytes, write_grown, write_range, write_unlocked};
ghost use Rattle.op_data.specs.Calls.{IsWrite, asked_write};
ghost use Rattle.op_data.specs.Conditions.{HasWriteRoom, MayUse};
ghost use Rattle.op_data.specs.Ends.{Ends};
ghost use Rattle.op_parts.specs.Room.{HasWaitRoom};
ghost use Rattle.volume_state.specs.Room.{KeepsEnds};
ghost use Rattle.volume_state.specs.Tried.{Leaves};

use crate::bytes::length_of;
use crate::growth::growth_fault;
use crate::locked::write_is_locked;
use crate::rights::{LARGEST_END, can_write};
use crate::room::room_to_write;
use crate::written::{Writing, write_in_place};
use fsa_types::{BlockerList, Body, Call, Request, Status, What};
use op_parts::{break_for, held};
use std::alloc::Global;
use volume_state::{Class, HandleSet, Tried, Volume};

// The bytes are put. The room is taken.
fn write_bytes(volume: &mut Volume, writing: Writing) -> Body
    requires lives { IsTrue (lives volume.old.content.streams writing.stream) }
    requires put { HasWriteRoom volume.old.content volume.old.spare writing.link writing.stream writing.at (length writing.bytes.now) }
    ensures gives { write_bytes volume.old.content writing.entry.link writing.entry.stream writing.entry.at writing.entry.bytes.now ≡ Done volume.new.content (record { status = Status.Success; body = result }) }
    ensures ends { KeepsEnds volume.old volume.new }
{
    write_in_place(volume, writing);
    Body::Count(writing.bytes.len() as u32)
}

// The bytes are put unless the stream may not grow so.
#[tactic(auto, unfolding(fsa_model::specs::Write::write_grown))]
fn write_grown(volume: &mut Volume, writing: Writing, fault: Option<Status>) -> Result<Body, Status>
    requires lives { IsTrue (lives volume.old.content.streams writing.stream) }
    requires fault { fault ≡ growth_fault volume.old.content writing.stream (writing.at + length writing.bytes.now) }
    requires put { IfNone fault (HasWriteRoom volume.old.content volume.old.spare writing.link writing.stream writing.at (length writing.bytes.now)) }
    ensures gives { Ends (write_grown volume.old.content writing.entry.link writing.entry.stream writing.entry.at writing.entry.bytes.now) volume.new.content result }
    ensures ends { KeepsEnds volume.old volume.new }
{
    match fault {
        Some(status) => Err(status),
        None => Ok(write_bytes(volume, writing)),
    }
}

// The write goes on unless a lock is in the way.
#[tactic(auto, unfolding(fsa_model::specs::Write::write_unlocked))]
fn write_unlocked(
    volume: &mut Volume,
    writing: Writing,
    fault: Option<Status>,
) -> Result<Body, Status>
    requires lives { IsTrue (lives volume.old.content.streams writing.stream) }
    requires fault { fault ≡ growth_fault volume.old.content writing.stream (writing.at + length writing.bytes.now) }
    requires put { IfNone fault (HasWriteRoom volume.old.content volume.old.spare writing.link writing.stream writing.at (length writing.bytes.now)) }
    ensures gives { Ends (write_unlocked volume.old.content writing.entry.handle writing.entry.link writing.entry.stream writing.entry.at writing.entry.bytes.now) volume.new.content result }
    ensures ends { KeepsEnds volume.old volume.new }
{
    let count = writing.bytes.len() as u64;
    if write_is_locked(volume, writing.handle, writing.stream, writing.at, count) {
        return Err(Status::FileLockConflict);
    }
    write_grown(volume, writing, fault)
}

// The write goes on once the oplocks that a change breaks are broken. The room is taken.
#[tactic(auto, unfolding(fsa_model::specs::Write::write_range))]
fn write_in_room(
    volume: &mut Volume,
    writing: Writing,
    fault: Option<Status>,
    blockers: BlockerList,
) -> Tried
    requires lives { IsTrue (lives volume.old.content.streams writing.stream) }
    requires may { MayUse volume.old.content }
    requires room { HasWaitRoom volume.old.content volume.old.spare blockers }
    requires fault { fault ≡ growth_fault volume.old.content writing.stream (writing.at + length writing.bytes.now) }
    requires put { IfNone fault (HasWriteRoom volume.old.content volume.old.spare writing.link writing.stream writing.at (length writing.bytes.now)) }
    ensures leaves { Leaves (write_range volume.old.content writing.entry.handle writing.entry.key writing.entry.link writing.entry.stream writing.entry.at writing.entry.bytes.now) volume.old volume.new result }
{
    let mut blockers = blockers;
    let Writing {
        handle,
        key,
        stream,
        ..
    } = writing;
    let on = HandleSet::Stream(stream);
    let acting = Some(handle);
    if break_for(volume, on, Class::Change, acting, key, &mut blockers) {
        return held(blockers);
    }
    match write_unlocked(volume, writing, fault) {
        Ok(body) => Tried::succeeds(body),
        Err(status) => Tried::ends(status),
    }
}

// The write of a range. What growth comes to is known before the first change; no break changes it.
fn write_range(alloc: Global, volume: &mut Volume, writing: Writing) -> Tried
    requires lives { IsTrue (lives volume.old.content.streams writing.stream) }
    requires may { MayUse volume.old.content }
    requires place { writing.at + length writing.bytes.now ≤ largest_end }
    ensures leaves { Leaves (write_range volume.old.content writing.entry.handle writing.entry.key writing.entry.link writing.entry.stream writing.entry.at writing.entry.bytes.now) volume.old volume.new result }
{
    let end = writing.at + writing.bytes.len() as u64;
    let fault = growth_fault(volume, writing.stream, end);
    let Ok(blockers) = room_to_write(alloc, volume, writing, fault) else {
        return Tried::NoMemory;
    };
    write_in_room(volume, writing, fault, blockers)
}

// Writes through the handle of this number.
#[tactic(auto, using(crate::proofs::HandleLaws::stream_lives), unfolding(fsa_model::specs::Write::write_at, fsa_model::specs::Write::write_by, fsa_model::specs::Write::write_stream, fsa_model::specs::Write::write_at_place))]
fn write_at(alloc: Global, volume: &mut Volume, id: u64, at: Option<u64>, bytes: &[u8]) -> Tried
    requires may { MayUse volume.old.content }
    ensures leaves { Leaves (write_at volume.old.content id at bytes.now) volume.old volume.new result }
{
    let Some(row) = volume.handle(id) else {
        return Tried::ends(Status::InvalidHandle);
    };
    let Some(stream) = row.stream else {
        return Tried::ends(Status::InvalidDeviceRequest);
    };
    if !can_write(row.access, at) {
        return Tried::ends(Status::AccessDenied);
    }
    if bytes.is_empty() {
        return Tried::succeeds(Body::Count(0));
    }
    let end = length_of(volume, stream);
    let place = at.unwrap_or(end);
    if place > LARGEST_END - bytes.len() as u64 {
        return Tried::ends(Status::InvalidParameter);
    }
    let writing = Writing {
        handle: id,
        key: row.key,
        link: row.link,
        stream,
        at: place,
        bytes,
    };
    write_range(alloc, volume, writing)
}

// One try of a write.
#[tactic(auto, unfolding(fsa_model::specs::Write::try_write))]
fn write(
    alloc: Global,
    volume: &mut Volume,
    client: u32,
    handle: u32,
    at: Option<u64>,
    bytes: &[u8],
) -> Tried
    requires may { MayUse volume.old.content }
    ensures leaves { Leaves (try_write volume.old.content client handle at bytes.now) volume.old volume.new result }
{
    let Some(id) = volume.handle_of(client, handle) else {
        return Tried::ends(Status::InvalidHandle);
    };
    write_at(alloc, volume, id, at, bytes)
}

/// One try of a Write, after [MS-FSA] 'Server Requests a Write'. The call has to be one, and numbers have
/// to be left for breaks.
///
/// `Done` with the reply, or `Hold` with the breaks of oplocks that it waits for, as the definition
/// says; never `Stay`. Where it is held there is room to make it pending. Of the room for ends it uses
/// no more than one for each call that ends. `NoMemory` changes nothing, not even breaks. `_turn` is the
/// number of the turn; no write needs it.
pub fn try_write(alloc: Global, volume: &mut Volume, call: &Call, _turn: u64) -> Tried
    requires verb { IsWrite call.now.what }
    requires may { MayUse volume.old.content }
    ensures leaves { Leaves (asked_write volume.old.content call.now.client call.now.what) volume.old volume.new result }
{
    let What::Ask(Request::Write { handle, at, bytes }) = &call.what else {
        unreachable!()
    };
    write(alloc, volume, call.client, *handle, *at, bytes.bytes())
}
