//! Items in order, with spare room.

ghost use Rattle.std.specs.Prelude.{◌≡◌, ◌≤◌, ◌+◌, ◌++◌, ◌∷◌, [], ◌==◌, ◌<◌, drop, length, slice_set, OnOk};

use fsa_types::NoMemory;
use std::alloc::Global;
use std::marker::Model;

/// Items in order, with spare room.
#[derive(Drop)]
pub struct Series<T> {
    items: Vec<T>,
}

impl<T> Model for Series<T> {
    ghost use Rattle.object_tables.specs.Series.{Items, items_code};
    ghost use Rattle.std.specs.Prelude.{◌-◌};
    ghost use Rattle.std.specs.Vec.{vec_capacity, vec_len};

    ghost Value = { Items T };

    ghost coded = { items_code T.code };

    ghost view = { λ s. record { items = s.items.items; room = vec_capacity s.items - vec_len s.items } };
}

impl<T: Drop> Series<T> {
    /// No items. It takes no memory.
    pub fn new(alloc: Global) -> Series<T>
        ensures { result.items ≡ [] }
    {
        Series {
            items: Vec::new(alloc),
        }
    }

    /// Takes room for `more` items beside those that are there. `NoMemory` where there is none.
    pub fn reserve(&mut self, more: usize) -> Result<(), NoMemory>
        ensures items { self.new.items ≡ self.old.items }
        ensures room { OnOk result (more ≤ self.new.room) }
        ensures kept { self.old.room ≤ self.new.room }
    {
        self.items.reserve(more)?;
        Ok(())
    }

    /// The number of items.
    pub fn len(&self) -> usize
        ensures { result ≡ length self.now.items }
    {
        self.items.len()
    }

    /// Whether there are no items.
    pub fn is_empty(&self) -> bool
        ensures { result ≡ (length self.now.items == 0) }
    {
        self.items.is_empty()
    }

    /// All items in order.
    pub fn as_slice(&self) -> &[T]
        ensures { result.now ≡ self.now.items }
    {
        self.items.as_slice()
    }

    /// Puts an item at the end. There has to be room for it. It takes no memory.
    pub fn push(&mut self, item: T)
        requires { 1 ≤ self.old.room }
        ensures items { self.new.items ≡ self.old.items ++ item ∷ [] }
        ensures left { self.old.room ≤ self.new.room + 1 }
    {
        let Ok(()) = self.items.push(item) else {
            unreachable!()
        };
    }

    /// Puts an item in the place of another.
    pub fn set(&mut self, place: usize, item: T)
        requires { place < length self.old.items }
        ensures items { self.new.items ≡ slice_set self.old.items place item }
        ensures room { self.new.room ≡ self.old.room }
    {
        self.items[place] = item;
    }

    /// Takes the first items out, so many, which have to be there. It takes no memory, and leaves no less room.
    pub fn drop_first(&mut self, count: usize)
        requires { count ≤ length self.old.items }
        ensures items { self.new.items ≡ drop count self.old.items }
        ensures room { self.old.room ≤ self.new.room }
    {
        drop(self.items.drain(..count));
    }
}
