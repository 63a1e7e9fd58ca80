//! The queue of the calls that are held.

ghost use Rattle.std.specs.Prelude.{◌≡◌, ◌≤◌, ◌+◌, ◌==◌, [], false, length, AllPairs, IsOk, OnOk, OnErr};
ghost use Rattle.fsa_types.specs.Rows.{lives, without_row};
ghost use Rattle.pending_queue.specs.PendingQueue.{with_call_held, with_blocker_ended, next_unblocked, calls_added};

use crate::calls::{count_of, len_with, put_count, stays_rising, take_call};
use crate::ready::{first_of, reserve_for, set_ready};
use crate::waits::Waits;
use fsa_types::{Blocker, BlockerList, NoMemory};
use std::alloc::Global;
use std::marker::Model;

/// The calls that are held, each under its turn with those of its blockers that live, in the order in
/// which they were held.
pub struct PendingQueue {
    // The calls, each its turn and how many of its blockers live.
    calls: Vec<(u64, usize)>,
    // Each call was put in behind lower turns, so that one is found by halves, and so is that there is none.
    rising: bool,
    // The blockers that live, each with the turn of the call that waits for it.
    waits: Waits,
    // The turns of the calls none of whose blockers lives, in rising order, with room for those of all calls.
    ready: Vec<u64>,
}

// One drop of the whole, so that it is one step at each end of a function that holds one.
impl Drop for PendingQueue {
    fn drop(self) {
        let PendingQueue {
            calls: _,
            rising: _,
            waits: _,
            ready: _,
        } = self;
    }
}

impl Model for PendingQueue {
    ghost use Rattle.pending_queue.specs.Lists.{AreCounted, AreInOrder, turns_of};
    ghost use Rattle.pending_queue.specs.PendingQueue.{Queue, held_of};
    ghost use Rattle.std.specs.Prelude.{◌-◌, ◌≤◌, length, min};
    ghost use Rattle.std.specs.Vec.{vec_capacity, vec_len};

    ghost Value = { Queue };

    ghost view = { λ q. record {
      held = held_of (turns_of q.calls.items) q.waits.entries;
      room_for_calls = min (vec_capacity q.calls) (vec_capacity q.ready) - vec_len q.calls;
      room_for_blockers = q.waits.room;
    } };

    ghost invariant = { λ q. AreCounted q.calls.items q.waits.entries q.ready.items × AreInOrder q.rising q.calls.items × length q.calls.items ≤ vec_capacity q.ready };
}

impl PendingQueue {
    /// No call is held. It takes no memory.
    pub fn new(alloc: Global) -> PendingQueue
        ensures { result.held ≡ [] }
    {
        PendingQueue {
            calls: Vec::new(alloc),
            rising: true,
            waits: Waits::new(alloc),
            ready: Vec::new(alloc),
        }
    }

    /// Takes room for so many more calls with so many blockers in all. `NoMemory` where there is
    /// none; no call's blockers have changed then.
    pub fn reserve(&mut self, calls: usize, blockers: usize) -> Result<(), NoMemory>
        ensures held { self.new.held ≡ self.old.held }
        ensures calls { OnOk result (calls ≤ self.new.room_for_calls) }
        ensures blockers { OnOk result (blockers ≤ self.new.room_for_blockers) }
        ensures calls_kept { self.old.room_for_calls ≤ self.new.room_for_calls }
        ensures blockers_kept { self.old.room_for_blockers ≤ self.new.room_for_blockers }
    {
        let Some(in_all) = self.calls.len().checked_add(calls) else {
            return Err(NoMemory);
        };
        self.calls.reserve(calls)?;
        reserve_for(&mut self.ready, in_all)?;
        self.waits.reserve(blockers)?;
        Ok(())
    }

    /// Holds the call of this turn by these blockers; where it is held already, by these in place of
    /// those that it was held by. It takes memory only where there is no spare room for what is new.
    /// After `NoMemory` all calls are held as before.
    pub fn hold(&mut self, turn: u64, blockers: BlockerList) -> Result<(), NoMemory>
        ensures ok { OnOk result (self.new.held ≡ with_call_held self.old.held turn blockers.items) }
        ensures err { OnErr result (self.new.held ≡ self.old.held) }
        ensures succeeds { calls_added self.old.held turn ≤ self.old.room_for_calls → length blockers.items ≤ self.old.room_for_blockers → IsOk result }
        ensures calls_left { self.old.room_for_calls ≤ self.new.room_for_calls + calls_added self.old.held turn }
        ensures blockers_left { self.old.room_for_blockers ≤ self.new.room_for_blockers + length blockers.items }
    {
        self.hold_by(turn, blockers.as_slice())
    }

    /// The same of blockers that are lent.
    pub fn hold_by(&mut self, turn: u64, blockers: &[Blocker]) -> Result<(), NoMemory>
        ensures ok { OnOk result (self.new.held ≡ with_call_held self.old.held turn blockers.now) }
        ensures err { OnErr result (self.new.held ≡ self.old.held) }
        ensures succeeds { calls_added self.old.held turn ≤ self.old.room_for_calls → length blockers.now ≤ self.old.room_for_blockers → IsOk result }
        ensures calls_left { self.old.room_for_calls ≤ self.new.room_for_calls + calls_added self.old.held turn }
        ensures blockers_left { self.old.room_for_blockers ≤ self.new.room_for_blockers + length blockers.now }
    {
        self.waits.reserve(blockers.len())?;
        reserve_for(&mut self.ready, len_with(&self.calls, turn, self.rising))?;
        let count = count_of(&self.calls, turn, self.rising);
        let rising = stays_rising(&self.calls, turn, self.rising);
        put_count(&mut self.calls, turn, blockers.len(), self.rising)?;
        self.rising = rising;
        self.waits.put(turn, count, blockers);
        set_ready(&mut self.ready, turn, blockers.is_empty());
        Ok(())
    }

    /// The break or the lock has ended: no call waits for it any more. It takes no memory, and leaves
    /// the room as it was or larger.
    pub fn ended(&mut self, blocker: Blocker)
        ensures held { self.new.held ≡ with_blocker_ended self.old.held blocker }
        ensures calls_kept { self.old.room_for_calls ≤ self.new.room_for_calls }
        ensures blockers_kept { self.old.room_for_blockers ≤ self.new.room_for_blockers }
    {
        self.waits.end(&mut self.calls, &mut self.ready, blocker);
    }

    /// The least turn of a call none of whose blockers lives; `None` exactly where there is none.
    pub fn next_unblocked(&self) -> Option<u64>
        ensures turn { result ≡ next_unblocked self.now.held }
        ensures differ { AllPairs (λ a b. (a.0 == b.0) ≡ false) self.now.held }
    {
        first_of(&self.ready)
    }

    /// Holds the call of this turn no more; `false` exactly where it isn't held. It takes no memory, and
    /// leaves the room as it was or larger.
    pub fn remove(&mut self, turn: u64) -> bool
        ensures found { result ≡ lives self.old.held turn }
        ensures held { self.new.held ≡ without_row self.old.held turn }
        ensures calls_kept { self.old.room_for_calls ≤ self.new.room_for_calls }
        ensures blockers_kept { self.old.room_for_blockers ≤ self.new.room_for_blockers }
    {
        let Some(count) = take_call(&mut self.calls, turn, self.rising) else {
            return false;
        };
        self.waits.drop_of(turn, count);
        set_ready(&mut self.ready, turn, false);
        true
    }
}
