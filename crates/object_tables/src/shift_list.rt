//! Items in order, with spare room, of which the fewer move as one goes.

ghost use Rattle.std.specs.Prelude.{◌≡◌, ◌≤◌, ◌<◌, ◌+◌, ◌-◌, ◌++◌, ◌∷◌, [], true, false, IsOk, OnOk, drop, length, slice_index_or, take};
ghost use Rattle.std.specs.Fn.{CalledAt};
ghost use Rattle.std.specs.List.{insert, remove};
ghost use Rattle.std.specs.List.Retain.{IsFiltered};
ghost use Rattle.std.specs.Vec.{vec_capacity, vec_len};

use fsa_types::NoMemory;
use std::alloc::Global;
use std::marker::Model;

/// Items in order, with spare room. Taking some out moves the items before the place or those behind it, whichever are
/// fewer: where most go from the front, little moves. Putting one in moves those behind the place, or those before it
/// where they are fewer and a slot before them is free, as it is where some were taken out at the front. Where those
/// behind are to move and no slot behind the items is free, all items are first moved down to the first slot.
#[derive(Drop)]
pub struct ShiftList<T> {
    // The first `start` slots are free: what stands there was moved or taken out.
    slots: Vec<T>,
    start: usize,
}

impl<T> Model for ShiftList<T> {
    ghost use Rattle.object_tables.specs.Series.{Items, items_code};
    ghost use Rattle.std.specs.Prelude.{◌-◌, ◌≤◌, drop};
    ghost use Rattle.std.specs.Vec.{vec_capacity, vec_len};

    ghost Value = { Items T };

    ghost coded = { items_code T.code };

    ghost view = { λ s. record { items = drop s.start s.slots.items; room = vec_capacity s.slots - (vec_len s.slots - s.start) } };

    ghost invariant = { λ s. s.start ≤ vec_len s.slots };
}

impl<T: Copy> ShiftList<T> {
    /// No items. It takes no memory.
    pub fn new(alloc: Global) -> ShiftList<T>
        ensures { result.items ≡ [] }
    {
        ShiftList {
            slots: Vec::new(alloc),
            start: 0,
        }
    }

    /// Takes room for `more` items beside those that are there. `NoMemory` where there is none.
    pub fn reserve(&mut self, more: usize) -> Result<(), NoMemory>
        ensures items { self.new.items ≡ self.old.items }
        ensures room { OnOk result (more ≤ self.new.room) }
        ensures kept { self.old.room ≤ self.new.room }
        ensures succeeds { more ≤ self.old.room → IsOk result }
    {
        let len = self.slots.len();
        let crowded = self.slots.capacity() - len < more;
        let moves_few = len - self.start <= self.start;
        self.start = settle(&mut self.slots, self.start, crowded && moves_few);
        grow(&mut self.slots, self.start, more)
    }

    /// The number of items.
    pub fn len(&self) -> usize
        ensures { result ≡ length self.now.items }
    {
        self.slots.len() - self.start
    }

    /// All items in order.
    pub fn as_slice(&self) -> &[T]
        ensures { result.now ≡ self.now.items }
    {
        &self.slots[self.start..]
    }

    /// The item at a place.
    pub fn at(&self, place: usize) -> T
        requires { place < length self.now.items }
        ensures { result ≡ slice_index_or self.now.items place result }
    {
        self.slots[self.start + place]
    }

    /// Puts an item at a place, before the one that stands there, or at the end. There has to be room for it. It
    /// takes no memory. The items before the place move where they are fewer and a slot before them is free.
    pub fn insert(&mut self, place: usize, item: T)
        requires room { 1 ≤ self.old.room }
        requires place { place ≤ length self.old.items }
        ensures items { self.new.items ≡ insert self.old.items place item }
        ensures left { self.old.room ≤ self.new.room + 1 }
    {
        let behind = self.slots.len() - self.start - place;
        if 0 < self.start && place < behind {
            put_before(&mut self.slots, self.start, place, item);
            self.start -= 1;
        } else {
            self.insert_behind(place, item);
        }
    }

    // Puts an item at a place, and moves those behind it.
    fn insert_behind(&mut self, place: usize, item: T)
        requires room { 1 ≤ self.old.room }
        requires place { place ≤ length self.old.items }
        ensures items { self.new.items ≡ insert self.old.items place item }
        ensures left { self.old.room ≤ self.new.room + 1 }
    {
        let full = self.slots.len() == self.slots.capacity();
        self.start = settle(&mut self.slots, self.start, full);
        put_behind(&mut self.slots, self.start, place, item);
    }

    /// Puts an item at the end. There has to be room for it. It takes no memory.
    pub fn push(&mut self, item: T)
        requires { 1 ≤ self.old.room }
        ensures items { self.new.items ≡ self.old.items ++ item ∷ [] }
        ensures left { self.old.room ≤ self.new.room + 1 }
    {
        let full = self.slots.len() == self.slots.capacity();
        self.start = settle(&mut self.slots, self.start, full);
        self.slots.push_reserved(item);
    }

    /// Takes the item at a place out. It takes no memory, and leaves room for one more than before.
    pub fn remove(&mut self, place: usize) -> T
        requires { place < length self.old.items }
        ensures value { result ≡ slice_index_or self.old.items place result }
        ensures items { self.new.items ≡ remove self.old.items place }
        ensures room { self.old.room + 1 ≤ self.new.room }
    {
        let behind = self.slots.len() - self.start - place;
        if place < behind {
            let item = take_before(&mut self.slots, self.start, place);
            self.start += 1;
            item
        } else {
            take_behind(&mut self.slots, self.start, place)
        }
    }

    /// Takes so many items from a place on out, which have to be there. It takes no memory, and leaves the room as it
    /// was or larger.
    pub fn remove_part(&mut self, place: usize, count: usize)
        requires { place + count ≤ length self.old.items }
        ensures items { self.new.items ≡ take place self.old.items ++ drop (place + count) self.old.items }
        ensures room { self.old.room ≤ self.new.room }
    {
        if count == 0 {
            return;
        }
        let behind = self.slots.len() - self.start - place - count;
        if place < behind {
            take_part_before(&mut self.slots, self.start, place, count);
            self.start += count;
        } else {
            take_part_behind(&mut self.slots, self.start, place, count);
        }
    }

    /// Keeps the items at which `keep` answers `true`. It takes no memory, and leaves the room as it was or larger.
    pub fn retain<F: FnMut(&T) -> bool>(&mut self, keep: F)
        requires { F.IsAlwaysCallable keep }
        ensures items { IsFiltered (CalledAt F.FnMut) keep self.old.items self.new.items }
        ensures room { self.old.room ≤ self.new.room }
    {
        forget_first(&mut self.slots, self.start);
        self.start = 0;
        self.slots.retain(keep);
    }
}

// Where `now` says so, moves the items from `start` on down to the first slot. Gives where they begin then.
fn settle<T: Copy>(slots: &mut Vec<T>, start: usize, now: bool) -> usize
    requires { start ≤ vec_len slots.old }
    ensures items { drop result slots.new.items ≡ drop start slots.old.items }
    ensures within { result ≤ vec_len slots.new }
    ensures len { vec_len slots.new + start ≡ vec_len slots.old + result }
    ensures capacity { vec_capacity slots.new ≡ vec_capacity slots.old }
    ensures moved { now ≡ true → result ≡ 0 }
    ensures stays { now ≡ false → result ≡ start }
{
    if now {
        forget_first(slots, start);
        0
    } else {
        start
    }
}

// Takes room for `more` items behind those from `start` on. Where there is no memory, the free slots before them count
// too.
fn grow<T: Copy>(slots: &mut Vec<T>, start: usize, more: usize) -> Result<(), NoMemory>
    requires { start ≤ vec_len slots.old }
    ensures items { slots.new.items ≡ slots.old.items }
    ensures len { vec_len slots.new ≡ vec_len slots.old }
    ensures capacity { vec_capacity slots.old ≤ vec_capacity slots.new }
    ensures room { OnOk result (more ≤ vec_capacity slots.new - (vec_len slots.new - start)) }
    ensures succeeds { more ≤ vec_capacity slots.old - (vec_len slots.old - start) → IsOk result }
{
    if slots.reserve(more).is_ok() || more <= slots.capacity() - (slots.len() - start) {
        Ok(())
    } else {
        Err(NoMemory)
    }
}

// Takes the first items out, so many.
fn forget_first<T: Copy>(slots: &mut Vec<T>, count: usize)
    requires { count ≤ vec_len slots.old }
    ensures items { slots.new.items ≡ drop count slots.old.items }
    ensures len { vec_len slots.new + count ≡ vec_len slots.old }
    ensures capacity { vec_capacity slots.new ≡ vec_capacity slots.old }
{
    let len = slots.len();
    slots.copy_within(count..len, 0);
    slots.truncate(len - count);
}

// Puts an item at a place from `start` on, and moves those before it down by one slot, so that all begin one before.
fn put_before<T: Copy>(slots: &mut Vec<T>, start: usize, place: usize, item: T)
    requires free { 0 < start }
    requires within { start + place ≤ vec_len slots.old }
    ensures items { drop (start - 1) slots.new.items ≡ insert (drop start slots.old.items) place item }
    ensures len { vec_len slots.new ≡ vec_len slots.old }
    ensures capacity { vec_capacity slots.new ≡ vec_capacity slots.old }
{
    slots.copy_within(start..start + place, start - 1);
    slots[start - 1 + place] = item;
}

// Puts an item at a place from `start` on, and moves those behind it up by one slot.
fn put_behind<T: Copy>(slots: &mut Vec<T>, start: usize, place: usize, item: T)
    requires room { vec_len slots.old < vec_capacity slots.old }
    requires within { start + place ≤ vec_len slots.old }
    ensures items { drop start slots.new.items ≡ insert (drop start slots.old.items) place item }
    ensures len { vec_len slots.new ≡ vec_len slots.old + 1 }
    ensures capacity { vec_capacity slots.old ≤ vec_capacity slots.new }
{
    let len = slots.len();
    slots.push_reserved(item);
    slots.copy_within(start + place..len, start + place + 1);
    slots[start + place] = item;
}

// Takes out the item at a place from `start` on, and moves those before it up by one slot, so that all begin one
// behind.
fn take_before<T: Copy>(slots: &mut Vec<T>, start: usize, place: usize) -> T
    requires { start + place < vec_len slots.old }
    ensures value { result ≡ slice_index_or (drop start slots.old.items) place result }
    ensures items { drop (start + 1) slots.new.items ≡ remove (drop start slots.old.items) place }
    ensures len { vec_len slots.new ≡ vec_len slots.old }
    ensures capacity { vec_capacity slots.new ≡ vec_capacity slots.old }
{
    let item = slots[start + place];
    slots.copy_within(start..start + place, start + 1);
    item
}

// Takes out the item at a place from `start` on, and moves those behind it down by one slot.
fn take_behind<T: Copy>(slots: &mut Vec<T>, start: usize, place: usize) -> T
    requires { start + place < vec_len slots.old }
    ensures value { result ≡ slice_index_or (drop start slots.old.items) place result }
    ensures items { drop start slots.new.items ≡ remove (drop start slots.old.items) place }
    ensures len { vec_len slots.new + 1 ≡ vec_len slots.old }
    ensures capacity { vec_capacity slots.new ≡ vec_capacity slots.old }
{
    let item = slots[start + place];
    take_part_behind(slots, start, place, 1);
    item
}

// Takes out so many items at a place from `start` on, and moves those before them up, so that all begin so many behind.
fn take_part_before<T: Copy>(slots: &mut Vec<T>, start: usize, place: usize, count: usize)
    requires { start + place + count ≤ vec_len slots.old }
    ensures items { drop (start + count) slots.new.items ≡ take place (drop start slots.old.items) ++ drop (place + count) (drop start slots.old.items) }
    ensures len { vec_len slots.new ≡ vec_len slots.old }
    ensures capacity { vec_capacity slots.new ≡ vec_capacity slots.old }
{
    slots.copy_within(start..start + place, start + count);
}

// Takes out so many items at a place from `start` on, and moves those behind them down.
fn take_part_behind<T: Copy>(slots: &mut Vec<T>, start: usize, place: usize, count: usize)
    requires { start + place + count ≤ vec_len slots.old }
    ensures items { drop start slots.new.items ≡ take place (drop start slots.old.items) ++ drop (place + count) (drop start slots.old.items) }
    ensures len { vec_len slots.new + count ≡ vec_len slots.old }
    ensures capacity { vec_capacity slots.new ≡ vec_capacity slots.old }
{
    let len = slots.len();
    slots.copy_within(start + place + count..len, start + place);
    slots.truncate(len - count);
}
