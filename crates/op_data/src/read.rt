//! A read, in the order of its checks.

ghost use Rattle.std.specs.Prelude.{◌≡◌, IfOk, IsTrue};
ghost use Rattle.fsa_types.specs.Rows.{lives};
ghost use Rattle.fsa_model.specs.Read.{read_at, read_bytes, read_range, read_unlocked, try_read};
ghost use Rattle.op_data.specs.Calls.{IsRead, asked_read};
ghost use Rattle.op_data.specs.Conditions.{MayUse, part_at};
ghost use Rattle.op_data.specs.Ends.{Ends};
ghost use Rattle.op_parts.specs.Room.{HasWaitRoom};
ghost use Rattle.volume_state.specs.Tried.{Leaves};

use crate::bytes::{copy_of_bytes, length_of};
use crate::locked::read_is_locked;
use crate::rights::LARGEST_END;
use fsa_types::{AccessMask, BlockerList, Body, Bytes, Call, NoMemory, Request, Status, What};
use op_parts::{break_for, has_right, held, room_to_wait};
use std::alloc::Global;
use volume_state::{Class, HandleSet, Need, Tried, Volume};

// A read of a range of a stream, by a handle with this key.
#[derive(Clone, Copy)]
struct ReadRange {
    handle: u64,
    key: u64,
    stream: u64,
    at: u64,
    count: u32,
}

// A copy of the bytes that a read gives; none at the end of the stream, which there has to be. `NoMemory`
// where there is none.
fn part_at(
    alloc: Global,
    volume: &Volume,
    stream: u64,
    at: u64,
    count: u32,
) -> Result<Option<Bytes>, NoMemory>
    requires lives { IsTrue (lives volume.now.content.streams stream) }
    ensures { IfOk result (λ part. part ≡ part_at volume.now.content stream at count) }
{
    let length = length_of(volume, stream);
    if length <= at {
        return Ok(None);
    }
    let count = u64::from(count).min(length - at);
    let part = copy_of_bytes(alloc, volume, stream, at, count)?;
    Ok(Some(part))
}

// The read gives these bytes, or is past the end where there are none.
#[tactic(auto, using(crate::proofs::ReadLaws::reads_part))]
fn read_bytes(volume: &Volume, reading: ReadRange, part: Option<Bytes>) -> Result<Body, Status>
    requires part { part ≡ part_at volume.now.content reading.stream reading.at reading.count }
    ensures { Ends (read_bytes volume.now.content reading.stream reading.at reading.count) volume.now.content result }
{
    let _volume = volume;
    match part {
        None => Err(Status::EndOfFile),
        Some(bytes) => Ok(Body::Got(bytes)),
    }
}

// The read gives these bytes unless a lock is in the way.
#[tactic(auto, unfolding(fsa_model::specs::Read::read_unlocked))]
fn read_unlocked(volume: &Volume, reading: ReadRange, part: Option<Bytes>) -> Result<Body, Status>
    requires lives { IsTrue (lives volume.now.content.streams reading.stream) }
    requires part { part ≡ part_at volume.now.content reading.stream reading.at reading.count }
    ensures { Ends (read_unlocked volume.now.content reading.handle reading.stream reading.at reading.count) volume.now.content result }
{
    let count = u64::from(reading.count);
    if read_is_locked(volume, reading.handle, reading.stream, reading.at, count) {
        return Err(Status::FileLockConflict);
    }
    read_bytes(volume, reading, part)
}

// The read goes on once the oplocks that a read breaks are broken. The room is taken, and the bytes that
// it may give.
#[tactic(auto, unfolding(fsa_model::specs::Read::read_range))]
fn read_in_room(
    volume: &mut Volume,
    reading: ReadRange,
    part: Option<Bytes>,
    blockers: BlockerList,
) -> Tried
    requires lives { IsTrue (lives volume.old.content.streams reading.stream) }
    requires may { MayUse volume.old.content }
    requires room { HasWaitRoom volume.old.content volume.old.spare blockers }
    requires part { part ≡ part_at volume.old.content reading.stream reading.at reading.count }
    ensures leaves { Leaves (read_range volume.old.content reading.handle reading.key reading.stream reading.at reading.count) volume.old volume.new result }
{
    let mut blockers = blockers;
    let ReadRange {
        handle,
        key,
        stream,
        ..
    } = reading;
    let on = HandleSet::Stream(stream);
    let acting = Some(handle);
    if break_for(volume, on, Class::ReadOpen, acting, key, &mut blockers) {
        return held(blockers);
    }
    match read_unlocked(volume, reading, part) {
        Ok(body) => Tried::succeeds(body),
        Err(status) => Tried::ends(status),
    }
}

// The read of a range.
fn read_range(alloc: Global, volume: &mut Volume, reading: ReadRange) -> Tried
    requires lives { IsTrue (lives volume.old.content.streams reading.stream) }
    requires may { MayUse volume.old.content }
    ensures leaves { Leaves (read_range volume.old.content reading.handle reading.key reading.stream reading.at reading.count) volume.old volume.new result }
{
    let Ok(part) = part_at(alloc, volume, reading.stream, reading.at, reading.count) else {
        return Tried::NoMemory;
    };
    let Ok(blockers) = room_to_wait(alloc, volume, &Need::nothing()) else {
        return Tried::NoMemory;
    };
    read_in_room(volume, reading, part, blockers)
}

// Reads through the handle of this number.
#[tactic(auto, using(crate::proofs::HandleLaws::stream_lives), unfolding(fsa_model::specs::Read::read_at, fsa_model::specs::Read::read_by, fsa_model::specs::Read::read_stream))]
fn read_at(alloc: Global, volume: &mut Volume, id: u64, at: u64, count: u32) -> Tried
    requires may { MayUse volume.old.content }
    ensures leaves { Leaves (read_at volume.old.content id at count) volume.old volume.new result }
{
    let Some(row) = volume.handle(id) else {
        return Tried::ends(Status::InvalidHandle);
    };
    let Some(stream) = row.stream else {
        return Tried::ends(Status::InvalidDeviceRequest);
    };
    if !has_right(row.access, AccessMask::READ_DATA) {
        return Tried::ends(Status::AccessDenied);
    }
    if at > LARGEST_END - u64::from(count) {
        return Tried::ends(Status::InvalidParameter);
    }
    if count == 0 {
        return Tried::succeeds(Body::Got(Bytes::from(Vec::new(alloc))));
    }
    let reading = ReadRange {
        handle: id,
        key: row.key,
        stream,
        at,
        count,
    };
    read_range(alloc, volume, reading)
}

// One try of a read.
#[tactic(auto, unfolding(fsa_model::specs::Read::try_read))]
fn read(alloc: Global, volume: &mut Volume, client: u32, handle: u32, at: u64, count: u32) -> Tried
    requires may { MayUse volume.old.content }
    ensures leaves { Leaves (try_read volume.old.content client handle at count) volume.old volume.new result }
{
    let Some(id) = volume.handle_of(client, handle) else {
        return Tried::ends(Status::InvalidHandle);
    };
    read_at(alloc, volume, id, at, count)
}

/// One try of a Read, after [MS-FSA] 'Server Requests a Read'. The call has to be one, and numbers have to
/// be left for breaks.
///
/// `Done` with the reply, or `Hold` with the breaks of oplocks that it waits for, as the definition
/// says; never `Stay`. Where it is held there is room to make it pending. Of the room for ends it uses
/// no more than one for each call that ends. `NoMemory` changes nothing, not even breaks. `_turn` is the
/// number of the turn; no read needs it.
pub fn try_read(alloc: Global, volume: &mut Volume, call: &Call, _turn: u64) -> Tried
    requires verb { IsRead call.now.what }
    requires may { MayUse volume.old.content }
    ensures leaves { Leaves (asked_read volume.old.content call.now.client call.now.what) volume.old volume.new result }
{
    let What::Ask(Request::Read { handle, at, count }) = &call.what else {
        unreachable!()
    };
    read(alloc, volume, call.client, *handle, *at, *count)
}
