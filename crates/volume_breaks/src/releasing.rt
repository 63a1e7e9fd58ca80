//! The end of what calls wait for, where a handle goes.

ghost use Rattle.std.specs.Prelude.{◌≡◌, ◌∷◌, []};
ghost use Rattle.volume_breaks.specs.Calls.{LoseBlockers, is_break_of, is_lock_of};

use crate::pending_calls::PendingCalls;
use fsa_types::Blocker;
use volume_rows::OplockRow;
use volume_tables::LockRow;

// Tells the end of a lock, where this handle holds it.
fn release_lock(pending: &mut PendingCalls, lock: &(u64, LockRow), handle: u64)
    ensures held { LoseBlockers (is_lock_of (lock.now ∷ []) handle) pending.old pending.new }
    ensures others { pending.new ≡ record pending.old { held = pending.new.held } }
{
    if lock.1.handle == handle {
        pending.ended(Blocker::Lock(lock.0));
    }
}

/// Tells the end of those of these locks that this handle holds.
pub fn release_locks(pending: &mut PendingCalls, locks: &[(u64, LockRow)], handle: u64)
    ensures held { LoseBlockers (is_lock_of locks.now handle) pending.old pending.new }
    ensures others { pending.new ≡ record pending.old { held = pending.new.held } }
{
    for lock in locks {
        release_lock(pending, lock, handle);
    }
}

// Tells the end of the break in progress on an oplock, where it is this handle's.
fn release_break(pending: &mut PendingCalls, oplock: &OplockRow, handle: u64)
    ensures held { LoseBlockers (is_break_of (oplock.now ∷ []) handle) pending.old pending.new }
    ensures others { pending.new ≡ record pending.old { held = pending.new.held } }
{
    if oplock.handle == handle && oplock.target.is_some() {
        pending.ended(Blocker::Break(oplock.number));
    }
}

/// Tells the end of those breaks in progress on these oplocks that are this handle's.
pub fn release_breaks(pending: &mut PendingCalls, oplocks: &[OplockRow], handle: u64)
    ensures held { LoseBlockers (is_break_of oplocks.now handle) pending.old pending.new }
    ensures others { pending.new ≡ record pending.old { held = pending.new.held } }
{
    for oplock in oplocks {
        release_break(pending, oplock, handle);
    }
}
