//! Rows under numbers that rise and are never given twice, in one list.

ghost use Rattle.std.specs.Prelude.{◌≡◌, ◌≤◌, ◌<◌, ◌+◌, ◌^◌, ◌++◌, ◌∷◌, [], OnOk, OnErr, IsOk, IfOk, IfErr, length};
ghost use Rattle.std.specs.Fn.{CalledAt};
ghost use Rattle.std.specs.List.Retain.{IsFiltered};
ghost use Rattle.fsa_types.specs.Rows.{row_of, without_row, IsNumbered};

use crate::search::place_of;
use crate::shift_list::ShiftList;
use fsa_types::NoMemory;
use std::alloc::Global;
use std::marker::Model;

/// Rows of plain values under numbers that rise from 1 and are never given twice, in one list, which is lent whole. A
/// row is found by its number in time logarithmic in the rows; to take one out moves those before it or those behind
/// it, whichever are fewer.
#[derive(Drop)]
pub struct RowList<T> {
    rows: ShiftList<(u64, T)>,
    last: u64,
}

impl<T> Model for RowList<T> {
    ghost use Rattle.fsa_types.specs.Rows.{IsNumbered};
    ghost use Rattle.object_tables.specs.Table.{Rows, rows_code};

    ghost Value = { Rows T };

    ghost coded = { rows_code T.code };

    ghost view = { λ t. record { rows = t.rows.items; last = t.last; room = t.rows.room } };

    ghost invariant = { λ t. IsNumbered t.rows.items t.last };
}

impl<T: Copy> RowList<T> {
    /// A list without rows; the first number that it gives is 1. It takes no memory.
    pub fn new(alloc: Global) -> RowList<T>
        ensures rows { result.rows ≡ [] }
        ensures last { result.last ≡ 0 }
    {
        RowList {
            rows: ShiftList::new(alloc),
            last: 0,
        }
    }

    /// Takes room for `more` rows beside those that are there. `NoMemory` where there is none.
    pub fn reserve(&mut self, more: usize) -> Result<(), NoMemory>
        ensures rows { self.new.rows ≡ self.old.rows }
        ensures last { self.new.last ≡ self.old.last }
        ensures room { OnOk result (more ≤ self.new.room) }
        ensures kept { self.old.room ≤ self.new.room }
    {
        self.rows.reserve(more)?;
        Ok(())
    }

    /// Adds a row and gives its number, one more than the last one given. It takes memory only
    /// where there is no spare room. `NoMemory` hands the row back, and nothing has changed.
    /// Fewer than 2^64 - 1 numbers have to be given so far.
    pub fn add(&mut self, row: T) -> Result<u64, (T, NoMemory)>
        requires { self.old.last + 1 < 2 ^ 64 }
        ensures id { IfOk result (λ id. id ≡ self.old.last + 1) }
        ensures rows { OnOk result (self.new.rows ≡ self.old.rows ++ (self.old.last + 1, row) ∷ []) }
        ensures last { OnOk result (self.new.last ≡ self.old.last + 1) }
        ensures succeeds { 1 ≤ self.old.room → IsOk result }
        ensures left { self.old.room ≤ self.new.room + 1 }
        ensures err { OnErr result ((self.new.rows ≡ self.old.rows) × (self.new.last ≡ self.old.last)) }
        ensures back { IfErr result (λ e. e.0 ≡ row) }
    {
        if self.rows.reserve(1).is_err() {
            return Err((row, NoMemory));
        }
        let id = self.last + 1;
        self.rows.push((id, row));
        self.last = id;
        Ok(id)
    }

    /// All rows with their numbers, by rising number.
    pub fn as_slice(&self) -> &[(u64, T)]
        ensures rows { result.now ≡ self.now.rows }
        ensures numbered { IsNumbered self.now.rows self.now.last }
    {
        self.rows.as_slice()
    }

    /// Takes the row of this number out; `None` exactly where there is none. It takes no memory,
    /// and leaves the room as it was or larger.
    pub fn remove(&mut self, id: u64) -> Option<T>
        ensures row { result ≡ row_of self.old.rows id }
        ensures rows { self.new.rows ≡ without_row self.old.rows id }
        ensures last { self.new.last ≡ self.old.last }
        ensures room { self.old.room ≤ self.new.room }
    {
        match place_of(self.rows.as_slice(), id) {
            None => None,
            Some(place) => Some(self.rows.remove(place).1),
        }
    }

    /// Keeps the rows, seen with their numbers, at which `keep` answers `true`. It takes no memory,
    /// and leaves the room as it was or larger.
    pub fn retain<F: FnMut(&(u64, T)) -> bool>(&mut self, keep: F)
        requires { F.IsAlwaysCallable keep }
        ensures rows { IsFiltered (CalledAt F.FnMut) keep self.old.rows self.new.rows }
        ensures last { self.new.last ≡ self.old.last }
        ensures room { self.old.room ≤ self.new.room }
    {
        self.rows.retain(keep);
    }
}
