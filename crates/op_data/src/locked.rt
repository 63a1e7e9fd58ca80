//! Which byte-range locks are in the way.

ghost use Rattle.std.specs.Prelude.{◌≡◌, IfOk, IsTrue, if◌then◌else◌};
ghost use Rattle.fsa_types.specs.BoundedList.{full};
ghost use Rattle.fsa_types.specs.Rows.{lives};
ghost use Rattle.fsa_model.specs.Locked.{read_is_locked, write_is_locked};
ghost use Rattle.fsa_model.specs.Locking.{lock_blockers};

use fsa_types::{BlockerList, NoMemory};
use range_locks::Want;
use std::alloc::Global;
use volume_state::Volume;

/// A lock of a range of a stream, by a handle with this key.
#[derive(Clone, Copy)]
pub struct Locking {
    /// The number of the handle.
    pub handle: u64,
    /// Its oplock key.
    pub key: u64,
    /// The number of its stream.
    pub stream: u64,
    /// The place of the first byte.
    pub at: u64,
    /// How many bytes; it may be 0.
    pub count: u64,
    /// Whether the lock is exclusive; else it is shared.
    pub exclusive: bool,
    /// Whether the call waits for locks that are in the way.
    pub wait: bool,
}

/// Whether a read of this range of a stream by this handle conflicts with a lock on the stream. There has
/// to be such a stream.
#[tactic(auto, using(crate::proofs::LockLaws::read_locked))]
pub fn read_is_locked(volume: &Volume, handle: u64, stream: u64, at: u64, count: u64) -> bool
    requires lives { IsTrue (lives volume.now.content.streams stream) }
    ensures { result ≡ read_is_locked volume.now.content handle stream at count }
{
    let locks = volume.locks_of(stream);
    locks.conflict(Want::Read, handle, at, count).is_some()
}

/// Whether a write of this range does. There has to be such a stream.
#[tactic(auto, using(crate::proofs::LockLaws::write_locked))]
pub fn write_is_locked(volume: &Volume, handle: u64, stream: u64, at: u64, count: u64) -> bool
    requires lives { IsTrue (lives volume.now.content.streams stream) }
    ensures { result ≡ write_is_locked volume.now.content handle stream at count }
{
    let locks = volume.locks_of(stream);
    locks.conflict(Want::Write, handle, at, count).is_some()
}

// What a range is wanted for that is to be locked.
fn want_of(exclusive: bool) -> Want
    ensures { result ≡ (if exclusive then Want.Exclusive else Want.Shared) }
{
    if exclusive {
        Want::Exclusive
    } else {
        Want::Shared
    }
}

/// The locks that are in the way of a lock, in the order in which they were granted, as what a call waits
/// for. There has to be such a stream. `NoMemory` where there is none for the list, or where it would have
/// 2^32 items.
#[tactic(auto, using(crate::proofs::LockLaws::lock_found))]
pub fn lock_blockers(
    alloc: Global,
    volume: &Volume,
    locking: Locking,
) -> Result<BlockerList, NoMemory>
    requires lives { IsTrue (lives volume.now.content.streams locking.stream) }
    ensures { IfOk result (λ list. list ≡ full (lock_blockers volume.now.content locking.handle locking.stream locking.at locking.count locking.exclusive)) }
{
    let want = want_of(locking.exclusive);
    let locks = volume.locks_of(locking.stream);
    locks.blockers(alloc, want, locking.handle, locking.at, locking.count)
}
