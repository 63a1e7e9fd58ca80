//! Items in order, with spare room that stays as items go.

ghost use Rattle.std.specs.Prelude.{◌≡◌, ◌≤◌, ◌<◌, ◌+◌, ◌++◌, ◌∷◌, [], length, slice_set, OnOk};
ghost use Rattle.std.specs.Fn.{CalledAt};
ghost use Rattle.std.specs.List.Retain.{IsFiltered};

use fsa_types::NoMemory;
use std::alloc::Global;
use std::marker::Model;

/// Items in order, with the room that was taken for more. Unlike that of a `Series`, the room stays as
/// it is where items go.
#[derive(Drop)]
pub struct SpareList<T> {
    items: Vec<T>,
    room: usize,
}

impl<T> Model for SpareList<T> {
    ghost use Rattle.object_tables.specs.Series.{Items, items_code};
    ghost use Rattle.std.specs.Prelude.{◌+◌, ◌≤◌};
    ghost use Rattle.std.specs.Vec.{vec_capacity, vec_len};

    ghost Value = { Items T };

    ghost coded = { items_code T.code };

    ghost view = { λ s. record { items = s.items.items; room = s.room } };

    ghost invariant = { λ s. vec_len s.items + s.room ≤ vec_capacity s.items };
}

impl<T: Drop> SpareList<T> {
    /// No items. It takes no memory.
    pub fn new(alloc: Global) -> SpareList<T>
        ensures { result.items ≡ [] }
    {
        SpareList {
            items: Vec::new(alloc),
            room: 0,
        }
    }

    /// Takes room for `more` items beside those that are there. `NoMemory` where there is none.
    pub fn reserve(&mut self, more: usize) -> Result<(), NoMemory>
        ensures items { self.new.items ≡ self.old.items }
        ensures room { OnOk result (more ≤ self.new.room) }
        ensures kept { self.old.room ≤ self.new.room }
    {
        if more <= self.room {
            return Ok(());
        }
        self.items.reserve(more)?;
        self.room = more;
        Ok(())
    }

    /// All items in order.
    pub fn as_slice(&self) -> &[T]
        ensures { result.now ≡ self.now.items }
    {
        self.items.as_slice()
    }

    /// Puts an item at the end. There has to be room for it. It takes no memory.
    pub fn push(&mut self, item: T)
        requires { 1 ≤ self.old.room }
        ensures items { self.new.items ≡ self.old.items ++ item ∷ [] }
        ensures left { self.old.room ≡ self.new.room + 1 }
    {
        let Ok(()) = self.items.push(item) else {
            unreachable!()
        };
        self.room -= 1;
    }

    /// Puts an item in the place of another.
    pub fn set(&mut self, place: usize, item: T)
        requires { place < length self.old.items }
        ensures items { self.new.items ≡ slice_set self.old.items place item }
        ensures room { self.new.room ≡ self.old.room }
    {
        self.items[place] = item;
    }

    /// Keeps the items at which `keep` answers `true`. It takes no memory, and leaves the room as it was.
    pub fn retain<F: FnMut(&T) -> bool>(&mut self, keep: F)
        requires { F.IsAlwaysCallable keep }
        ensures items { IsFiltered (CalledAt F.FnMut) keep self.old.items self.new.items }
        ensures room { self.new.room ≡ self.old.room }
    {
        self.items.retain(keep);
    }
}
