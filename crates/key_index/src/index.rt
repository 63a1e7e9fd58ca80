//! Numbers under keys.

ghost use Rattle.std.specs.Prelude.{◌≡◌, ◌≤◌, ◌+◌, ◌++◌, ◌∷◌, [], not, OnOk, filter, find, option_map, slice_get};
ghost use Rattle.std.specs.List.Sorted.{IsNonDecreasingBy};
ghost use Rattle.key_index.specs.Index.{IsSameByKey, entries_under, has_key, has_greater_key, is_entry};
ghost use Rattle.fsa_types.specs.Ranges.{without_first};

use crate::search::{end_of, first_number, part_at, part_of, place_of, stays_rising};
use fsa_types::NoMemory;
use object_tables::ShiftList;
use std::alloc::Global;
use std::marker::Model;

/// Numbers under keys. A key can have several numbers, which stand in the order in which they were added.
#[derive(Drop)]
pub struct KeyIndex {
    // Each a key and a number, in the order of keys.
    entries: ShiftList<(u64, u64)>,
    // No number was added behind a greater one of its key, so that a number is found by halves.
    rising: bool,
}

impl Model for KeyIndex {
    ghost use Rattle.key_index.specs.Index.{AreNumbersRising, Entries};
    ghost use Rattle.std.specs.List.Sorted.{IsNonDecreasingBy};
    ghost use Rattle.std.specs.Prelude.{◌≡◌, true};

    ghost Value = { Entries };

    ghost view = { λ i. record { entries = i.entries.items; room = i.entries.room } };

    ghost invariant = { λ i. IsNonDecreasingBy (λ e. e.0) i.entries.items × (i.rising ≡ true → AreNumbersRising i.entries.items) };
}

impl KeyIndex {
    /// An index without entries. It takes no memory.
    pub fn new(alloc: Global) -> KeyIndex
        ensures { result.entries ≡ [] }
    {
        KeyIndex {
            entries: ShiftList::new(alloc),
            rising: true,
        }
    }

    /// Takes room for `more` entries beside those that are there. `NoMemory` where there is none.
    pub fn reserve(&mut self, more: usize) -> Result<(), NoMemory>
        ensures entries { self.new.entries ≡ self.old.entries }
        ensures room { OnOk result (more ≤ self.new.room) }
        ensures kept { self.old.room ≤ self.new.room }
    {
        self.entries.reserve(more)?;
        Ok(())
    }

    /// The entries of a key, each the key and a number, in the order in which they were added.
    pub fn of(&self, key: u64) -> &[(u64, u64)]
        ensures { result.now ≡ entries_under self.now.entries key }
    {
        part_of(self.entries.as_slice(), key)
    }

    /// The number of the first entry of a key; `None` exactly where the key has none.
    pub fn first(&self, key: u64) -> Option<u64>
        ensures { result ≡ option_map (λ entry. entry.1) (slice_get (entries_under self.now.entries key) 0) }
    {
        first_number(self.entries.as_slice(), key)
    }

    /// The first entry of a greater key; `None` exactly where no key is greater. This key need not be there.
    pub fn after(&self, key: u64) -> Option<(u64, u64)>
        ensures entry { result ≡ find (has_greater_key key) self.now.entries }
        ensures rising { IsNonDecreasingBy (λ e. e.0) self.now.entries }
    {
        let entries = self.entries.as_slice();
        entry_at(entries, end_of(entries, key))
    }

    /// Puts a number behind those of its key. There has to be room for it. It takes no memory.
    pub fn add(&mut self, key: u64, number: u64)
        requires { 1 ≤ self.old.room }
        ensures added { IsSameByKey self.new.entries (self.old.entries ++ (key, number) ∷ []) }
        ensures left { self.old.room ≤ self.new.room + 1 }
    {
        let (begin, part) = part_at(self.entries.as_slice(), key);
        self.rising = stays_rising(part, number, self.rising);
        let place = begin + part.len();
        self.entries.insert(place, (key, number));
    }

    /// Takes a number of a key out, the first where it stands there more than once; where the key doesn't
    /// have it nothing changes. It takes no memory, and leaves the room as it was or larger. Where each number
    /// was added behind lesser ones of its key, it is found by halves, and else by a look at those of the key.
    pub fn remove(&mut self, key: u64, number: u64)
        ensures entries { self.new.entries ≡ without_first (is_entry key number) self.old.entries }
        ensures room { self.old.room ≤ self.new.room }
    {
        match place_of(self.entries.as_slice(), key, number, self.rising) {
            Some(place) => {
                let _ = self.entries.remove(place);
            }
            None => {}
        }
    }

    /// Takes all entries of a key out. It takes no memory, and leaves the room as it was or larger.
    pub fn remove_all(&mut self, key: u64)
        ensures entries { self.new.entries ≡ filter (λ e. not (has_key key e)) self.old.entries }
        ensures room { self.old.room ≤ self.new.room }
    {
        remove_all(&mut self.entries, key);
    }
}

// Takes all entries of a key out.
fn remove_all(entries: &mut ShiftList<(u64, u64)>, key: u64)
    requires rising { IsNonDecreasingBy (λ e. e.0) entries.old.items }
    ensures entries { entries.new.items ≡ filter (λ e. not (has_key key e)) entries.old.items }
    ensures room { entries.old.room ≤ entries.new.room }
{
    let (begin, part) = part_at(entries.as_slice(), key);
    let count = part.len();
    entries.remove_part(begin, count);
}

// The entry at this place.
fn entry_at(entries: &[(u64, u64)], place: usize) -> Option<(u64, u64)>
    ensures { result ≡ slice_get entries.now place }
{
    match entries.get(place) {
        Some(entry) => Some(*entry),
        None => None,
    }
}
