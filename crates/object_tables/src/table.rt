//! Rows under numbers that rise and are never given twice.

ghost use Rattle.std.specs.Prelude.{◌≡◌, ◌≤◌, ◌<◌, ◌+◌, ◌^◌, ◌++◌, ◌∷◌, [], OnOk, OnErr, IsOk, IfOk, IfErr, length, option_map, position, slice_get, ◌==◌};
ghost use Rattle.std.specs.Borrow.{sem};
ghost use Rattle.std.specs.Option.{option_copied, option_copied_mut, option_map_or};
ghost use Rattle.fsa_types.specs.Rows.{row_of, without_row, with_row_changed, IsNumbered};
ghost use Rattle.object_tables.specs.Next.{IsNext, next_number_after};

use crate::search::{end_of, number_at, place_of};
use crate::shift_list::ShiftList;
use fsa_types::NoMemory;
use slab::Slab;
use std::alloc::Global;
use std::marker::Model;

/// Rows under numbers that rise from 1 and are never given twice. A row is found by its number in time
/// logarithmic in the rows, and stays where it is while others come and go.
pub struct Table<T> {
    // The number of each row with its key in `rows`, by rising number.
    places: ShiftList<(u64, usize)>,
    rows: Slab<T>,
    last: u64,
}

// One drop of the whole, so that it is one step at each end of a function that holds one.
impl<T: Drop> Drop for Table<T> {
    fn drop(self) {
        let Table {
            places: _,
            rows: _,
            last: _,
        } = self;
    }
}

impl<T> Model for Table<T> {
    ghost use Rattle.object_tables.specs.Places.{ArePlaced, rows_in};
    ghost use Rattle.object_tables.specs.Table.{Rows, rows_code};
    ghost use Rattle.slab.specs.Slab.{get, slab_len};
    ghost use Rattle.std.specs.Prelude.{◌-◌, min};

    ghost Value = { Rows T };

    ghost coded = { rows_code T.code };

    ghost view = { λ t. record { rows = rows_in t.rows t.places.items; last = t.last; room = min t.places.room (t.rows.capacity - slab_len t.rows) } };

    ghost invariant = { λ t. ArePlaced (get t.rows) t.places.items t.last };
}

impl<T: Drop> Table<T> {
    ghost use Rattle.object_tables.specs.Lends.{LendsRow, LendsRowAt};

    /// A table without rows; the first number that it gives is 1. It takes no memory.
    pub fn new(alloc: Global) -> Table<T>
        ensures rows { result.rows ≡ [] }
        ensures last { result.last ≡ 0 }
    {
        Table {
            places: ShiftList::new(alloc),
            rows: Slab::new(alloc),
            last: 0,
        }
    }

    /// Takes room for `more` rows beside those that are there. `NoMemory` where there is none.
    pub fn reserve(&mut self, more: usize) -> Result<(), NoMemory>
        ensures rows { self.new.rows ≡ self.old.rows }
        ensures last { self.new.last ≡ self.old.last }
        ensures room { OnOk result (more ≤ self.new.room) }
        ensures kept { self.old.room ≤ self.new.room }
    {
        self.places.reserve(more)?;
        self.rows.reserve(more)?;
        Ok(())
    }

    /// Adds a row and gives its number, one more than the last one given. It needs memory only
    /// where there is no spare room. `NoMemory` hands the row back, and nothing has changed.
    /// Fewer than 2^64 - 1 numbers have to be given so far.
    pub fn add(&mut self, row: T) -> Result<u64, (T, NoMemory)>
        requires { self.old.last + 1 < 2 ^ 64 }
        ensures id { IfOk result (λ id. id ≡ self.old.last + 1) }
        ensures rows { OnOk result (self.new.rows ≡ self.old.rows ++ (self.old.last + 1, row) ∷ []) }
        ensures last { OnOk result (self.new.last ≡ self.old.last + 1) }
        ensures succeeds { 1 ≤ self.old.room → IsOk result }
        ensures left { self.old.room ≤ self.new.room + 1 }
        ensures err { OnErr result ((self.new.rows ≡ self.old.rows) × (self.new.last ≡ self.old.last)) }
        ensures back { IfErr result (λ e. e.0 ≡ row) }
    {
        if self.places.reserve(1).is_err() {
            return Err((row, NoMemory));
        }
        if self.rows.reserve(1).is_err() {
            return Err((row, NoMemory));
        }
        let id = self.last + 1;
        let key = self.rows.insert_reserved(row);
        self.places.push((id, key));
        self.last = id;
        Ok(id)
    }

    /// The number of rows. The numbers rise, and none is above the last one given.
    pub fn len(&self) -> usize
        ensures count { result ≡ length self.now.rows }
        ensures few { length self.now.rows + 1 < 2 ^ 64 }
        ensures numbered { IsNumbered self.now.rows self.now.last }
    {
        count_of(self.places.as_slice())
    }

    /// The last number that was given, 0 where there is none.
    pub fn last(&self) -> u64
        ensures { result ≡ self.now.last }
    {
        self.last
    }

    /// The least number above `after` that a row has; `None` exactly where there is none.
    pub fn next(&self, after: u64) -> Option<u64>
        ensures found { result ≡ next_number_after self.now.rows after }
        ensures next { IsNext self.now.rows after result }
    {
        let places = self.places.as_slice();
        number_at(places, end_of(places, after))
    }

    /// The row at this place, by rising number, with its number; `None` exactly where the place isn't below the number
    /// of rows.
    pub fn entry_at(&self, place: usize) -> Option<(u64, &T)>
        ensures { option_map (λ entry. (entry.0, entry.1.now)) result ≡ slice_get self.now.rows place }
    {
        if self.places.len() <= place {
            return None;
        }
        let (id, key) = self.places.at(place);
        Some((id, &self.rows[key]))
    }

    /// The row of this number; `None` exactly where there is none.
    pub fn get(&self, id: u64) -> Option<&T>
        ensures { option_copied result ≡ row_of self.now.rows id }
    {
        let places = self.places.as_slice();
        match place_of(places, id) {
            None => None,
            Some(place) => self.rows.get(self.places.at(place).1),
        }
    }

    /// The row of this number for writing; `None` exactly where there is none.
    pub fn get_mut(&mut self, id: u64) -> Option<&mut T>
        ensures* writes_back { sem 𝓛 (LendsRow T.row self.entry id result) }
        ensures row { option_copied_mut result ≡ row_of self.old.rows id }

        // A change of the row that was found is a change of the row of this number.
        ensures one { (change : T → T) → option_map_or (λ row. with_row_changed (λ _. change row) self.old.rows id) (row_of self.old.rows id) self.old.rows ≡ with_row_changed change self.old.rows id }
    {
        match place_of(self.places.as_slice(), id) {
            None => None,
            Some(place) => Some(self.row_mut(id, place)),
        }
    }

    // The row of this number, at this place, for writing.
    fn row_mut(&mut self, id: u64, place: usize) -> &mut T
        requires { position (λ entry. entry.0 == id) self.old.rows ≡ Some place }
        ensures* writes_back { sem 𝓛 (LendsRowAt T.row self.entry id result) }
        ensures row { row_of self.old.rows id ≡ Some result.now }
    {
        let key = self.places.at(place).1;
        &mut self.rows[key]
    }

    /// Takes the row of this number out; `None` exactly where there is none. It takes no memory,
    /// and leaves the room as it was or larger.
    pub fn remove(&mut self, id: u64) -> Option<T>
        ensures row { result ≡ row_of self.old.rows id }
        ensures rows { self.new.rows ≡ without_row self.old.rows id }
        ensures last { self.new.last ≡ self.old.last }
        ensures room { self.old.room ≤ self.new.room }
    {
        match place_of(self.places.as_slice(), id) {
            None => None,
            Some(place) => {
                let key = self.places.remove(place).1;
                Some(self.rows.remove(key))
            }
        }
    }
}

// How many rows have a place.
fn count_of(places: &[(u64, usize)]) -> usize
    ensures count { result ≡ length places.now }
    ensures few { length places.now + 1 < 2 ^ 64 }
{
    places.len()
}
