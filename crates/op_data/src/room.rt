//! The room that a call takes before it changes anything.

ghost use Rattle.std.specs.Prelude.{◌≡◌, ◌<◌, ◌≤◌, ◌+◌, ◌^◌, IfNone, IfOk, IsTrue, OnOk, Some, length};
ghost use Rattle.fsa_types.specs.BoundedList.{full};
ghost use Rattle.fsa_types.specs.Rows.{lives};
ghost use Rattle.op_data.specs.Conditions.{HasEndRoom, HasLockRoom, HasWriteRoom};
ghost use Rattle.op_parts.specs.Room.{HasWaitRoom};
ghost use Rattle.volume_state.specs.Room.{KeepsEnds, stream_of_handle};

use crate::locked::Locking;
use crate::resized::{Resizing, ends_at};
use crate::written::{Writing, noted_of_write};
use fsa_types::{BlockerList, NoMemory, Status};
use op_parts::room_to_wait;
use std::alloc::Global;
use volume_state::{Need, Volume};

// Takes the room for so many bytes of a stream from this place on, for a note of their write, for the ends
// that a break may tell, and for a call that is held. There has to be such a stream, and the end is at most
// 2^26. `NoMemory` where there is none.
fn room_to_put(
    alloc: Global,
    volume: &mut Volume,
    link: u64,
    stream: u64,
    at: u64,
    count: u64,
) -> Result<BlockerList, NoMemory>
    requires lives { IsTrue (lives volume.old.content.streams stream) }
    requires fits { at + count ≤ 2 ^ 26 }
    ensures content { volume.new.content ≡ volume.old.content }
    ensures ends { KeepsEnds volume.old volume.new }
    ensures room { IfOk result (λ blockers. HasWaitRoom volume.new.content volume.new.spare blockers) }
    ensures put { OnOk result (HasWriteRoom volume.new.content volume.new.spare link stream at count) }
{
    let noted = noted_of_write(volume, stream);
    let Some(note) = volume.note_room(link, noted) else {
        return Err(NoMemory);
    };
    volume.reserve_bytes(stream, at, count)?;
    let need = Need {
        changes: 1,
        units: note.units,
        dirs: note.dirs,
        ..Need::nothing()
    };
    let blockers = room_to_wait(alloc, volume, &need)?;
    Ok(blockers)
}

/// Takes the room for a write, whose stream may grow so unless there is a fault; where there is one, no
/// room for its bytes and its note is needed. There has to be such a stream. `NoMemory` where there is
/// none.
pub fn room_to_write(
    alloc: Global,
    volume: &mut Volume,
    writing: Writing,
    fault: Option<Status>,
) -> Result<BlockerList, NoMemory>
    requires lives { IsTrue (lives volume.old.content.streams writing.stream) }
    requires fits { IfNone fault (writing.at + length writing.bytes.now ≤ 2 ^ 26) }
    ensures content { volume.new.content ≡ volume.old.content }
    ensures ends { KeepsEnds volume.old volume.new }
    ensures room { IfOk result (λ blockers. HasWaitRoom volume.new.content volume.new.spare blockers) }
    ensures put { OnOk result (IfNone fault (HasWriteRoom volume.new.content volume.new.spare writing.entry.link writing.entry.stream writing.entry.at (length writing.entry.bytes.now))) }
{
    match fault {
        Some(_) => room_to_wait(alloc, volume, &Need::nothing()),
        None => {
            let Writing {
                link,
                stream,
                at,
                bytes,
                ..
            } = writing;
            room_to_put(alloc, volume, link, stream, at, bytes.len() as u64)
        }
    }
}

// Takes the room for a length that the stream may have; where it is as long as that, no room for its bytes
// and its note is needed.
fn room_to_set_end(
    alloc: Global,
    volume: &mut Volume,
    resizing: Resizing,
) -> Result<BlockerList, NoMemory>
    requires lives { IsTrue (lives volume.old.content.streams resizing.stream) }
    requires fits { resizing.end ≤ 2 ^ 26 }
    ensures content { volume.new.content ≡ volume.old.content }
    ensures ends { KeepsEnds volume.old volume.new }
    ensures room { IfOk result (λ blockers. HasWaitRoom volume.new.content volume.new.spare blockers) }
    ensures put { OnOk result (HasEndRoom volume.new.content volume.new.spare resizing.link resizing.stream resizing.end) }
{
    let Resizing {
        link,
        stream,
        end,
        ..
    } = resizing;
    if ends_at(volume, stream, end) {
        return room_to_wait(alloc, volume, &Need::nothing());
    }
    room_to_put(alloc, volume, link, stream, end, 0)
}

/// Takes the room for a new length, which the stream may have unless there is a fault; where there is one,
/// no room for its bytes and its note is needed. There has to be such a stream. `NoMemory` where there is
/// none.
pub fn room_to_resize(
    alloc: Global,
    volume: &mut Volume,
    resizing: Resizing,
    fault: Option<Status>,
) -> Result<BlockerList, NoMemory>
    requires lives { IsTrue (lives volume.old.content.streams resizing.stream) }
    requires fits { IfNone fault (resizing.end ≤ 2 ^ 26) }
    ensures content { volume.new.content ≡ volume.old.content }
    ensures ends { KeepsEnds volume.old volume.new }
    ensures room { IfOk result (λ blockers. HasWaitRoom volume.new.content volume.new.spare blockers) }
    ensures put { OnOk result (IfNone fault (HasEndRoom volume.new.content volume.new.spare resizing.link resizing.stream resizing.end)) }
{
    match fault {
        Some(_) => room_to_wait(alloc, volume, &Need::nothing()),
        None => room_to_set_end(alloc, volume, resizing),
    }
}

/// Takes the room for a lock, and for the call to be held by breaks or by these locks. The handle has to be
/// open on the stream. `NoMemory` where there is none.
pub fn room_to_lock(
    alloc: Global,
    volume: &mut Volume,
    locking: Locking,
    conflicts: &BlockerList,
) -> Result<BlockerList, NoMemory>
    requires open { stream_of_handle volume.old.content locking.handle ≡ Some locking.stream }
    requires number { volume.old.content.last_lock < 2 ^ 63 }
    requires full { conflicts.now ≡ full conflicts.now.items }
    ensures content { volume.new.content ≡ volume.old.content }
    ensures ends { KeepsEnds volume.old volume.new }
    ensures room { IfOk result (λ blockers. HasWaitRoom volume.new.content volume.new.spare blockers) }
    ensures lock { OnOk result (HasLockRoom volume.new.content volume.new.spare locking.handle locking.stream conflicts.now.items) }
{
    let need = Need {
        locks: 1,
        handle: locking.handle,
        pending: 1,
        blockers: conflicts.room(),
        ..Need::nothing()
    };
    let blockers = room_to_wait(alloc, volume, &need)?;
    Ok(blockers)
}
