//! A lock of a range of bytes, in the order of its checks.

ghost use Rattle.std.specs.Prelude.{◌≡◌, IsTrue, Some};
ghost use Rattle.fsa_types.specs.Rows.{lives};
ghost use Rattle.op_data.specs.Calls.{HasAnswer, IsLock, asked_lock};
ghost use Rattle.op_data.specs.Conditions.{HasLockRoom, MayLock};
ghost use Rattle.fsa_model.specs.Locking.{lock_at, lock_blockers, lock_free, lock_range, passes_top, try_lock};
ghost use Rattle.op_parts.specs.Room.{HasWaitRoom};
ghost use Rattle.volume_state.specs.Room.{stream_of_handle};
ghost use Rattle.volume_state.specs.Tried.{Leaves};

use crate::locked::{Locking, lock_blockers};
use crate::room::room_to_lock;
use fsa_types::{AccessMask, BlockerList, Call, Interim, Request, Status, What};
use op_parts::{break_for, has_right, held};
use std::alloc::Global;
use volume_state::{Class, HandleSet, Tried, Volume};

// The range that a call asks to lock, exclusively or else shared, and whether it waits.
#[derive(Clone, Copy)]
struct LockRange {
    at: u64,
    count: u64,
    exclusive: bool,
    wait: bool,
}

// The lock is granted unless these locks are in the way. The room is taken.
#[tactic(auto, unfolding(fsa_model::specs::Locking::lock_free))]
fn lock_free(volume: &mut Volume, locking: Locking, conflicts: BlockerList) -> Tried
    requires room { HasLockRoom volume.old.content volume.old.spare locking.handle locking.stream conflicts.items }
    requires conflicts { conflicts.items ≡ lock_blockers volume.old.content locking.handle locking.stream locking.at locking.count locking.exclusive }
    ensures leaves { Leaves (lock_free volume.old.content locking.handle locking.stream locking.at locking.count locking.exclusive locking.wait) volume.old volume.new result }
    ensures answer { HasAnswer result }
{
    if conflicts.is_empty() {
        let Locking {
            handle,
            at,
            count,
            exclusive,
            ..
        } = locking;
        volume.add_lock(handle, at, count, exclusive);
        return Tried::ends(Status::Success);
    }
    if !locking.wait {
        return Tried::ends(Status::LockNotGranted);
    }
    Tried::Hold {
        blockers: conflicts,
        interim: Interim::LockWait,
    }
}

// The lock goes on once the oplocks that a change breaks are broken. The room is taken.
#[tactic(auto, using(crate::proofs::LockLaws::lock_unheld), unfolding(fsa_model::specs::Locking::lock_range))]
fn lock_in_room(
    volume: &mut Volume,
    locking: Locking,
    conflicts: BlockerList,
    blockers: BlockerList,
) -> Tried
    requires may { MayLock volume.old.content }
    requires room { HasWaitRoom volume.old.content volume.old.spare blockers }
    requires lock { HasLockRoom volume.old.content volume.old.spare locking.handle locking.stream conflicts.items }
    requires conflicts { conflicts.items ≡ lock_blockers volume.old.content locking.handle locking.stream locking.at locking.count locking.exclusive }
    ensures leaves { Leaves (lock_range volume.old.content locking.handle locking.key locking.stream locking.at locking.count locking.exclusive locking.wait) volume.old volume.new result }
{
    let mut blockers = blockers;
    let Locking {
        handle,
        key,
        stream,
        ..
    } = locking;
    let on = HandleSet::Stream(stream);
    let acting = Some(handle);
    if break_for(volume, on, Class::Change, acting, key, &mut blockers) {
        return held(blockers);
    }
    lock_free(volume, locking, conflicts)
}

// The lock of a range. The locks that are in the way are known before the first change; no break changes
// them.
fn lock_range(alloc: Global, volume: &mut Volume, locking: Locking) -> Tried
    requires lives { IsTrue (lives volume.old.content.streams locking.stream) }
    requires open { stream_of_handle volume.old.content locking.handle ≡ Some locking.stream }
    requires may { MayLock volume.old.content }
    ensures leaves { Leaves (lock_range volume.old.content locking.handle locking.key locking.stream locking.at locking.count locking.exclusive locking.wait) volume.old volume.new result }
{
    let Ok(conflicts) = lock_blockers(alloc, volume, locking) else {
        return Tried::NoMemory;
    };
    let Ok(blockers) = room_to_lock(alloc, volume, locking, &conflicts) else {
        return Tried::NoMemory;
    };
    lock_in_room(volume, locking, conflicts, blockers)
}

// Whether a range with bytes ends past the largest place.
fn passes_top(at: u64, count: u64) -> bool
    ensures { result ≡ passes_top at count }
{
    count > 0 && at > u64::MAX - (count - 1)
}

// Locks through the handle of this number.
#[tactic(auto, using(crate::proofs::HandleLaws::stream_lives), unfolding(fsa_model::specs::Locking::lock_at, fsa_model::specs::Locking::lock_by, fsa_model::specs::Locking::lock_stream))]
fn lock_at(alloc: Global, volume: &mut Volume, id: u64, range: LockRange) -> Tried
    requires may { MayLock volume.old.content }
    ensures leaves { Leaves (lock_at volume.old.content id range.at range.count range.exclusive range.wait) volume.old volume.new result }
{
    let Some(row) = volume.handle(id) else {
        return Tried::ends(Status::InvalidHandle);
    };
    let Some(stream) = row.stream else {
        return Tried::ends(Status::InvalidParameter);
    };
    if !has_right(row.access, AccessMask::READ_DATA)
        && !has_right(row.access, AccessMask::WRITE_DATA)
    {
        return Tried::ends(Status::AccessDenied);
    }
    if passes_top(range.at, range.count) {
        return Tried::ends(Status::InvalidLockRange);
    }
    let locking = Locking {
        handle: id,
        key: row.key,
        stream,
        at: range.at,
        count: range.count,
        exclusive: range.exclusive,
        wait: range.wait,
    };
    lock_range(alloc, volume, locking)
}

// One try of a lock.
#[tactic(auto, unfolding(fsa_model::specs::Locking::try_lock))]
fn lock(alloc: Global, volume: &mut Volume, client: u32, handle: u32, range: LockRange) -> Tried
    requires may { MayLock volume.old.content }
    ensures leaves { Leaves (try_lock volume.old.content client handle range.at range.count range.exclusive range.wait) volume.old volume.new result }
{
    let Some(id) = volume.handle_of(client, handle) else {
        return Tried::ends(Status::InvalidHandle);
    };
    lock_at(alloc, volume, id, range)
}

/// One try of a Lock, after [MS-FSA] 'Server Requests a Byte-Range Lock'. The call has to be one, and
/// numbers have to be left for breaks and for a lock.
///
/// `Done` with the reply, or `Hold` as the definition says: with the breaks of oplocks that it waits for,
/// or, where the call asks to wait, with the locks that are in the way, in the order in which they were
/// granted; never `Stay`. Where it is held there is room to make it pending. Of the room for ends it uses
/// no more than one for each call that ends. `NoMemory` changes nothing, not even breaks. `_turn` is the
/// number of the turn; no lock needs it.
pub fn try_lock(alloc: Global, volume: &mut Volume, call: &Call, _turn: u64) -> Tried
    requires verb { IsLock call.now.what }
    requires may { MayLock volume.old.content }
    ensures leaves { Leaves (asked_lock volume.old.content call.now.client call.now.what) volume.old volume.new result }
{
    let What::Ask(
        Request::Lock {
            handle,
            at,
            count,
            exclusive,
            wait,
        },
    ) = &call.what
    else {
        unreachable!()
    };
    let range = LockRange {
        at: *at,
        count: *count,
        exclusive: *exclusive,
        wait: *wait,
    };
    lock(alloc, volume, call.client, *handle, range)
}
