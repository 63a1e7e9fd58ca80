//! Byte-range locks.

ghost use Rattle.std.specs.Prelude.{ℕ, ◌≡◌, ◌≤◌, ◌<◌, ◌+◌, ◌^◌, ◌==◌, false, Some, IsTrue, IsSome, is_some};
ghost use Rattle.std.specs.Option.{ForSome};
ghost use Rattle.fsa_types.specs.Rows.{lives, IsNumbered};
ghost use Rattle.fsa_model.specs.Edits.{is_lock_on, with_lock, without_lock};
ghost use Rattle.fsa_model.specs.Lookups.{number_of};
ghost use Rattle.volume_state.specs.Locks.{ranges_on};
ghost use Rattle.volume_state.specs.Room.{stream_of_handle};
ghost use Rattle.volume_state.specs.VolumeView.{room_for};

use crate::volume::Volume;
use fsa_types::Blocker;
use range_locks::RangeTable;

impl Volume {
    /// The byte-range locks on a stream, after [MS-FSA] 'Per ByteRangeLock', in the order in which they
    /// were granted. There has to be such a stream. The numbers of all locks rise, and none is above the
    /// last one given.
    pub fn locks_of(&self, stream: u64) -> &RangeTable
        requires lives { IsTrue (lives self.now.content.streams stream) }
        ensures ranges { result.now.ranges ≡ ranges_on self.now.content stream }
        ensures numbered { IsNumbered self.now.content.locks self.now.content.last_lock }
    {
        self.handles.locks_of(stream)
    }

    /// Adds a byte-range lock of this handle on its stream, and gives the lock's number, one more than
    /// the last one given. `at` and `count` are in bytes; `count` may be 0, and the end past 2^64. It
    /// doesn't ask whether the range conflicts with others. The handle has to have a stream, with room
    /// for a lock on it, and a number has to be left.
    pub fn add_lock(&mut self, handle: u64, at: u64, count: u64, exclusive: bool) -> u64
        requires stream { IsSome (stream_of_handle self.old.content handle) }
        requires room { ForSome (stream_of_handle self.old.content handle) (λ stream. 1 ≤ room_for self.old.spare.locks stream) }
        requires ids_left { self.old.content.last_lock + 1 < 2 ^ 64 }
        ensures content { self.new.content ≡ with_lock self.old.content handle at count exclusive }
        ensures beside { self.new.beside ≡ self.old.beside }
        ensures others { self.new.spare ≡ record self.old.spare { locks = self.new.spare.locks } }
        ensures left { ForSome (stream_of_handle self.old.content handle) (λ stream. room_for self.old.spare.locks stream ≤ room_for self.new.spare.locks stream + 1) }
        ensures kept { (stream other : ℕ) → stream_of_handle self.old.content handle ≡ Some stream → (other == stream) ≡ false → room_for self.old.spare.locks other ≤ room_for self.new.spare.locks other }
        ensures id { result ≡ self.old.content.last_lock + 1 }
    {
        self.handles.add_lock(handle, at, count, exclusive)
    }

    /// Takes the first lock of this handle on exactly this range out, shared or exclusive, and tells
    /// whether there was one; else nothing changes. No call waits for it any more. `at` and `count` are in bytes.
    pub fn drop_lock(&mut self, handle: u64, at: u64, count: u64) -> bool
        ensures content { self.new.content ≡ without_lock self.old.content handle at count }
        ensures beside { self.new.beside ≡ self.old.beside }
        ensures room { self.new.spare ≡ self.old.spare }
        ensures found { result ≡ is_some (number_of (is_lock_on handle at count) self.old.content.locks) }
    {
        let Some(number) = self.handles.remove_lock(handle, at, count) else {
            return false;
        };
        self.pending.ended(Blocker::Lock(number));
        true
    }
}
