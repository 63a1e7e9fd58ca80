//! Items in order that need not be `Copy`, with spare room, of which the fewer move as one goes.

ghost use Rattle.std.specs.Prelude.{◌≡◌, ◌≤◌, ◌<◌, ◌+◌, ◌-◌, ◌++◌, ◌∷◌, [], true, false, IsOk, OnOk, drop, length, slice_index_or};
ghost use Rattle.std.specs.Borrow.{sem};
ghost use Rattle.std.specs.List.{remove};
ghost use Rattle.std.specs.Vec.{vec_capacity, vec_len};

use fsa_types::NoMemory;
use std::alloc::Global;
use std::marker::Model;

/// Items in order, with spare room. Taking one out moves the items before it or those behind it, whichever are
/// fewer: where most go from the front, little moves. What is taken out from the front may be kept beside the items
/// for a while, and is given up as soon as there are as many of these as there are items.
#[derive(Drop)]
pub struct ShiftRows<T> {
    // The first `start` slots hold what was taken out.
    slots: Vec<T>,
    start: usize,
}

impl<T> Model for ShiftRows<T> {
    ghost use Rattle.object_tables.specs.Series.{Items, items_code};
    ghost use Rattle.std.specs.Prelude.{◌-◌, ◌≤◌, drop};
    ghost use Rattle.std.specs.Vec.{vec_capacity, vec_len};

    ghost Value = { Items T };

    ghost coded = { items_code T.code };

    ghost view = { λ s. record { items = drop s.start s.slots.items; room = vec_capacity s.slots - (vec_len s.slots - s.start) } };

    ghost invariant = { λ s. s.start ≤ vec_len s.slots };
}

impl<T: Drop> ShiftRows<T> {
    ghost use Rattle.object_tables.specs.LentItem.{LendsItem};

    /// No items. It takes no memory.
    pub fn new(alloc: Global) -> ShiftRows<T>
        ensures { result.items ≡ [] }
    {
        ShiftRows {
            slots: Vec::new(alloc),
            start: 0,
        }
    }

    /// Takes room for `more` items beside those that are there. `NoMemory` where there is none.
    pub fn reserve(&mut self, more: usize) -> Result<(), NoMemory>
        ensures items { self.new.items ≡ self.old.items }
        ensures room { OnOk result (more ≤ self.new.room) }
        ensures kept { self.old.room ≤ self.new.room }
        ensures succeeds { more ≤ self.old.room → IsOk result }
    {
        grow(&mut self.slots, self.start, more)
    }

    /// The number of items.
    pub fn len(&self) -> usize
        ensures { result ≡ length self.now.items }
    {
        self.slots.len() - self.start
    }

    /// All items in order.
    pub fn as_slice(&self) -> &[T]
        ensures { result.now ≡ self.now.items }
    {
        &self.slots[self.start..]
    }

    /// The item at a place, for writing.
    pub fn at_mut(&mut self, place: usize) -> &mut T
        requires { place < length self.old.items }
        ensures* writes_back { sem 𝓛 (LendsItem T.row self.entry place result) }
        ensures value { result.now ≡ slice_index_or self.old.items place result.now }
    {
        let at = self.start + place;
        &mut self.slots[at]
    }

    /// Puts an item at the end. There has to be room for it. It takes no memory.
    pub fn push(&mut self, item: T)
        requires { 1 ≤ self.old.room }
        ensures items { self.new.items ≡ self.old.items ++ item ∷ [] }
        ensures left { self.old.room ≤ self.new.room + 1 }
    {
        let full = self.slots.len() == self.slots.capacity();
        self.start = settle(&mut self.slots, self.start, full);
        self.slots.push_reserved(item);
    }

    /// Takes the item at a place out. It takes no memory, and leaves the room as it was or larger.
    pub fn remove(&mut self, place: usize)
        requires { place < length self.old.items }
        ensures items { self.new.items ≡ remove self.old.items place }
        ensures room { self.old.room ≤ self.new.room }
    {
        let start = take_out(&mut self.slots, self.start, place);
        let many = self.slots.len() - start <= start;
        self.start = settle(&mut self.slots, start, many);
    }
}

// Where `now` says so, gives up what stands before `start`. Gives where the items begin then.
fn settle<T: Drop>(slots: &mut Vec<T>, start: usize, now: bool) -> usize
    requires { start ≤ vec_len slots.old }
    ensures items { drop result slots.new.items ≡ drop start slots.old.items }
    ensures within { result ≤ vec_len slots.new }
    ensures len { vec_len slots.new + start ≡ vec_len slots.old + result }
    ensures capacity { vec_capacity slots.new ≡ vec_capacity slots.old }
    ensures moved { now ≡ true → result ≡ 0 }
    ensures stays { now ≡ false → result ≡ start }
{
    if now {
        drop_first(slots, start);
        0
    } else {
        start
    }
}

// Takes room for `more` items behind those from `start` on. Where there is no memory, the slots before them count too.
fn grow<T: Drop>(slots: &mut Vec<T>, start: usize, more: usize) -> Result<(), NoMemory>
    requires { start ≤ vec_len slots.old }
    ensures items { slots.new.items ≡ slots.old.items }
    ensures len { vec_len slots.new ≡ vec_len slots.old }
    ensures capacity { vec_capacity slots.old ≤ vec_capacity slots.new }
    ensures room { OnOk result (more ≤ vec_capacity slots.new - (vec_len slots.new - start)) }
    ensures succeeds { more ≤ vec_capacity slots.old - (vec_len slots.old - start) → IsOk result }
{
    if slots.reserve(more).is_ok() || more <= slots.capacity() - (slots.len() - start) {
        Ok(())
    } else {
        Err(NoMemory)
    }
}

// Gives up the first items, so many.
fn drop_first<T: Drop>(slots: &mut Vec<T>, count: usize)
    requires { count ≤ vec_len slots.old }
    ensures items { slots.new.items ≡ drop count slots.old.items }
    ensures len { vec_len slots.new + count ≡ vec_len slots.old }
    ensures capacity { vec_capacity slots.new ≡ vec_capacity slots.old }
{
    drop(slots.drain(..count));
}

// Takes out the item at a place from `start` on, and moves those before it or those behind it. Gives where the items
// begin then.
fn take_out<T: Drop>(slots: &mut Vec<T>, start: usize, place: usize) -> usize
    requires { start + place < vec_len slots.old }
    ensures items { drop result slots.new.items ≡ remove (drop start slots.old.items) place }
    ensures within { result ≤ vec_len slots.new }
    ensures capacity { vec_capacity slots.new ≡ vec_capacity slots.old }
    ensures fewer { vec_len slots.new + start + 1 ≡ vec_len slots.old + result }
{
    let behind = slots.len() - start - place;
    if place < behind {
        put_first(slots, start, place);
        start + 1
    } else {
        take_behind(slots, start, place);
        start
    }
}

// Moves those that stand before a place from `start` on up by one slot, and what stood there before them, so that all
// others begin one behind.
fn put_first<T: Drop>(slots: &mut Vec<T>, start: usize, place: usize)
    requires { start + place < vec_len slots.old }
    ensures items { drop (start + 1) slots.new.items ≡ remove (drop start slots.old.items) place }
    ensures len { vec_len slots.new ≡ vec_len slots.old }
    ensures capacity { vec_capacity slots.new ≡ vec_capacity slots.old }
{
    slots[start..start + place + 1].rotate_right(1);
}

// Takes out the item at a place from `start` on, and moves those behind it down by one slot.
fn take_behind<T: Drop>(slots: &mut Vec<T>, start: usize, place: usize)
    requires { start + place < vec_len slots.old }
    ensures items { drop start slots.new.items ≡ remove (drop start slots.old.items) place }
    ensures len { vec_len slots.new + 1 ≡ vec_len slots.old }
    ensures capacity { vec_capacity slots.new ≡ vec_capacity slots.old }
{
    slots.remove(start + place);
}
