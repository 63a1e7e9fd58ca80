//! Lists in order with the room that they were made with.

ghost use Rattle.std.specs.Prelude.{◌≡◌, ◌==◌, ◌<◌, ◌≤◌, ◌++◌, ◌∷◌, [], length, slice_get, IfOk};
ghost use Rattle.std.specs.List.{insert};
ghost use Rattle.std.specs.Option.{option_copied};

use crate::copy::TryCopy;
use crate::memory::NoMemory;
use std::alloc::Global;
use std::marker::Model;

/// A list in order, made with room for a number of items. Room is taken once, when the list is
/// made; what is put in later takes no memory.
#[derive(Drop)]
pub struct BoundedList<T> {
    items: Vec<T>,
    room: u32,
}

impl<T> Model for BoundedList<T> {
    ghost use Rattle.fsa_types.specs.BoundedList.{Bounded, bounded_code};
    ghost use Rattle.std.specs.Prelude.{◌≤◌, ◌≡◌};
    ghost use Rattle.std.specs.Vec.{vec_capacity, vec_len};

    ghost Value = { Bounded T };

    ghost coded = { bounded_code T.code };

    ghost view = { λ l. record { items = l.items.items; room = l.room } };

    ghost invariant = { λ l. (vec_len l.items ≤ l.room) × (l.room ≤ vec_capacity l.items) };
}

impl<T: Drop> BoundedList<T> {
    /// An empty list with room for `n` items. `NoMemory` where there is none for them.
    pub fn with_room(alloc: Global, n: u32) -> Result<BoundedList<T>, NoMemory>
        ensures { IfOk result (λ list. list ≡ record { items = []; room = n }) }
    {
        let items = Vec::with_capacity(alloc, n as usize)?;
        Ok(BoundedList { items, room: n })
    }

    /// The number of items.
    pub fn len(&self) -> usize
        ensures { result ≡ length self.now.items }
    {
        self.items.len()
    }

    /// Whether there are no items.
    pub fn is_empty(&self) -> bool
        ensures { result ≡ (length self.now.items == 0) }
    {
        self.items.is_empty()
    }

    /// The number of items that the list has room for in all.
    pub fn room(&self) -> u32
        ensures { result ≡ self.now.room }
    {
        self.room
    }

    /// The item at place `i`, counted from 0; `None` exactly past the end.
    pub fn get(&self, i: usize) -> Option<&T>
        ensures { option_copied result ≡ slice_get self.now.items i }
    {
        self.items.get(i)
    }

    /// All items in order.
    pub fn as_slice(&self) -> &[T]
        ensures { result.now ≡ self.now.items }
    {
        self.items.as_slice()
    }

    /// Puts an item at the end. There has to be room for it. It takes no memory.
    pub fn push(&mut self, item: T)
        requires room { length self.old.items < self.old.room }
        ensures items { self.new.items ≡ self.old.items ++ item ∷ [] }
        ensures room { self.new.room ≡ self.old.room }
    {
        let Ok(()) = self.items.push(item) else {
            unreachable!()
        };
    }

    /// Puts an item in at place `i`, before those from there on, or at the end. There has to be room for
    /// it. It takes no memory.
    pub fn insert(&mut self, i: usize, item: T)
        requires place { i ≤ length self.old.items }
        requires room { length self.old.items < self.old.room }
        ensures items { self.new.items ≡ insert self.old.items i item }
        ensures room { self.new.room ≡ self.old.room }
    {
        let Ok(()) = self.items.insert(i, item) else {
            unreachable!()
        };
    }
}

impl<T: TryCopy + Drop> TryCopy for BoundedList<T> {
    fn copy(&self, alloc: Global) -> Result<BoundedList<T>, NoMemory> {
        list_of(alloc, self.items.as_slice(), self.room)
    }
}

// A list of copies of these items, with this room.
fn list_of<T: TryCopy + Drop>(
    alloc: Global,
    items: &[T],
    room: u32,
) -> Result<BoundedList<T>, NoMemory>
    requires { length items.now ≤ room }
    ensures { IfOk result (λ list. list ≡ record { items = items.now; room = room }) }
{
    let mut list = BoundedList::with_room(alloc, room)?;
    for item in items {
        list.push(item.copy(alloc)?);
    }
    Ok(list)
}
