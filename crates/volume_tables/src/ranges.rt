//! The byte-range locks of streams, for each stream a table of its own.

ghost use Rattle.std.specs.Prelude.{ℕ, AllPairs, ◌≡◌, ◌≤◌, ◌<◌, ◌+◌, ◌==◌, ◌++◌, ◌∷◌, [], not, false, IfOk, IfErr, OnOk, filter};
ghost use Rattle.std.specs.List.{list_any};
ghost use Rattle.std.specs.Option.{option_copied};
ghost use Rattle.fsa_types.specs.Places.{IsAt, StandsAt};
ghost use Rattle.fsa_types.specs.Ranges.{without_first};
ghost use Rattle.fsa_types.specs.Rows.{row_of};
ghost use Rattle.range_locks.specs.RangeTable.{first_id, is_range_of, is_range};
ghost use Rattle.volume_tables.specs.Ranges.{ranges_in, room_at, AreSetIn, KeepsRanges};

use fsa_types::NoMemory;
use range_locks::{Range, RangeTable};
use std::alloc::Global;
use std::marker::Model;

/// For each stream the ranges that are locked on it. A stream without locks may have no table. It finds one in time
/// logarithmic in the tables; where one comes, those behind it are moved.
pub struct StreamRanges {
    // By rising number of the stream.
    tables: Vec<(u64, RangeTable)>,
    // That of a stream without one.
    none: RangeTable,
    alloc: Global,
}

// One drop of the whole, so that it is one step at each end of a function that holds one.
impl Drop for StreamRanges {
    fn drop(self) {
        let StreamRanges {
            tables: _,
            none: _,
            alloc: _,
        } = self;
    }
}

impl Model for StreamRanges {
    ghost use Rattle.std.specs.Prelude.{ℕ, List, AllPairs, ◌≡◌, ◌<◌, []};
    ghost use Rattle.range_locks.specs.RangeTable.{Ranges};

    ghost Value = { List (ℕ × Ranges) };

    ghost view = { λ r. r.tables.items };

    ghost invariant = { λ r. (r.none.ranges ≡ []) × AllPairs (λ a b. a.0 < b.0) r.tables.items };
}

impl StreamRanges {
    /// No ranges. It takes no memory.
    pub fn new(alloc: Global) -> StreamRanges
        ensures { result ≡ [] }
    {
        StreamRanges {
            tables: Vec::new(alloc),
            none: RangeTable::new(alloc),
            alloc,
        }
    }

    /// The ranges of this stream.
    pub fn of(&self, stream: u64) -> &RangeTable
        ensures { result.now.ranges ≡ ranges_in self.now stream }
    {
        match find_table(&self.tables, stream) {
            None => &self.none,
            Some(table) => table,
        }
    }

    /// Takes room for so many more ranges of this stream. `NoMemory` where there is none.
    pub fn reserve(&mut self, stream: u64, more: usize) -> Result<(), NoMemory>
        ensures kept { KeepsRanges self.old self.new }
        ensures room { OnOk result (more ≤ room_at self.new stream) }
    {
        if more == 0 {
            return Ok(());
        }
        match place_of(&self.tables, stream) {
            Ok(place) => reserve_at(&mut self.tables, stream, place, more),
            Err(place) => insert_table(self.alloc, &mut self.tables, stream, place, more),
        }
    }

    /// Puts a range at the end of those of a stream, which has to have room for it.
    pub fn insert(&mut self, stream: u64, range: Range)
        requires { 1 ≤ room_at self.old stream }
        ensures ranges { AreSetIn self.old self.new stream (ranges_in self.old stream ++ range ∷ []) }
        ensures left { room_at self.old stream ≤ room_at self.new stream + 1 }
        ensures others { (other : ℕ) → (other == stream) ≡ false → room_at self.new other ≡ room_at self.old other }
    {
        insert(&mut self.tables, stream, range);
    }

    /// Takes the first range of this handle on this stream with exactly this place and count out, and gives its
    /// number; `None` exactly where there is none. It takes no memory.
    pub fn remove(&mut self, stream: u64, handle: u64, at: u64, count: u64) -> Option<u64>
        ensures number { result ≡ first_id (is_range handle at count) (ranges_in self.old stream) }
        ensures ranges { AreSetIn self.old self.new stream (without_first (is_range handle at count) (ranges_in self.old stream)) }
        ensures room { (other : ℕ) → room_at self.old other ≤ room_at self.new other }
    {
        remove(&mut self.tables, stream, handle, at, count)
    }

    /// Takes all ranges of this handle on this stream out, and tells whether there were any. It takes no memory.
    pub fn remove_all_of(&mut self, stream: u64, handle: u64) -> bool
        ensures some { result ≡ list_any (is_range_of handle) (ranges_in self.old stream) }
        ensures ranges { AreSetIn self.old self.new stream (filter (λ range. not (is_range_of handle range)) (ranges_in self.old stream)) }
        ensures room { (other : ℕ) → room_at self.old other ≤ room_at self.new other }
    {
        remove_all_of(&mut self.tables, stream, handle)
    }
}

// The place of the table of this stream, or where it would stand, by binary search.
fn place_of(tables: &[(u64, RangeTable)], stream: u64) -> Result<usize, usize>
    requires rising { AllPairs (λ a b. a.0 < b.0) tables.now }
    ensures there { IfOk result (λ place. IsAt tables.now stream place) }
    ensures missing { IfErr result (λ place. StandsAt tables.now stream place) }
{
    tables.binary_search_by_key(&stream, |entry| entry.0)
}

// The table of this stream.
fn find_table(tables: &[(u64, RangeTable)], stream: u64) -> Option<&RangeTable>
    requires rising { AllPairs (λ a b. a.0 < b.0) tables.now }
    ensures { option_copied result ≡ row_of tables.now stream }
{
    match place_of(tables, stream) {
        Ok(place) => Some(&tables[place].1),
        Err(_) => None,
    }
}

// A table with so much room of a stream that has none, and that would stand at this place.
fn insert_table(
    alloc: Global,
    tables: &mut Vec<(u64, RangeTable)>,
    stream: u64,
    place: usize,
    room: usize,
) -> Result<(), NoMemory>
    requires rising { AllPairs (λ a b. a.0 < b.0) tables.old.items }
    requires missing { StandsAt tables.old.items stream place }
    ensures rising { AllPairs (λ a b. a.0 < b.0) tables.new.items }
    ensures kept { KeepsRanges tables.old.items tables.new.items }
    ensures room { OnOk result (room ≤ room_at tables.new.items stream) }
{
    let mut table = RangeTable::new(alloc);
    table.reserve(room)?;
    tables.insert(place, (stream, table))?;
    Ok(())
}

// Takes room for so many more ranges of a stream whose table is at this place.
fn reserve_at(
    tables: &mut [(u64, RangeTable)],
    stream: u64,
    place: usize,
    more: usize,
) -> Result<(), NoMemory>
    requires rising { AllPairs (λ a b. a.0 < b.0) tables.old }
    requires there { IsAt tables.old stream place }
    ensures rising { AllPairs (λ a b. a.0 < b.0) tables.new }
    ensures kept { KeepsRanges tables.old tables.new }
    ensures room { OnOk result (more ≤ room_at tables.new stream) }
{
    tables[place].1.reserve(more)?;
    Ok(())
}

// Puts a range at the end of those of a stream.
fn insert(tables: &mut [(u64, RangeTable)], stream: u64, range: Range)
    requires rising { AllPairs (λ a b. a.0 < b.0) tables.old }
    requires room { 1 ≤ room_at tables.old stream }
    ensures rising { AllPairs (λ a b. a.0 < b.0) tables.new }
    ensures ranges { AreSetIn tables.old tables.new stream (ranges_in tables.old stream ++ range ∷ []) }
    ensures left { room_at tables.old stream ≤ room_at tables.new stream + 1 }
    ensures others { (other : ℕ) → (other == stream) ≡ false → room_at tables.new other ≡ room_at tables.old other }
{
    let Ok(place) = place_of(tables, stream) else {
        unreachable!()
    };
    let Ok(()) = tables[place].1.insert(range) else {
        unreachable!()
    };
}

// Takes the first range of this handle with exactly this place and count out, and gives its number.
fn remove(
    tables: &mut [(u64, RangeTable)],
    stream: u64,
    handle: u64,
    at: u64,
    count: u64,
) -> Option<u64>
    requires rising { AllPairs (λ a b. a.0 < b.0) tables.old }
    ensures rising { AllPairs (λ a b. a.0 < b.0) tables.new }
    ensures number { result ≡ first_id (is_range handle at count) (ranges_in tables.old stream) }
    ensures ranges { AreSetIn tables.old tables.new stream (without_first (is_range handle at count) (ranges_in tables.old stream)) }
    ensures room { (other : ℕ) → room_at tables.old other ≤ room_at tables.new other }
{
    match place_of(tables, stream) {
        Err(_) => None,
        Ok(place) => tables[place].1.remove(handle, at, count),
    }
}

// Takes all ranges of this handle out, and tells whether there were any.
fn remove_all_of(tables: &mut [(u64, RangeTable)], stream: u64, handle: u64) -> bool
    requires rising { AllPairs (λ a b. a.0 < b.0) tables.old }
    ensures rising { AllPairs (λ a b. a.0 < b.0) tables.new }
    ensures some { result ≡ list_any (is_range_of handle) (ranges_in tables.old stream) }
    ensures ranges { AreSetIn tables.old tables.new stream (filter (λ range. not (is_range_of handle range)) (ranges_in tables.old stream)) }
    ensures room { (other : ℕ) → room_at tables.old other ≤ room_at tables.new other }
{
    match place_of(tables, stream) {
        Err(_) => false,
        Ok(place) => remove_from(&mut tables[place].1, handle),
    }
}

// Takes all ranges of this handle out of a table, and tells whether there were any: it has fewer then.
fn remove_from(table: &mut RangeTable, handle: u64) -> bool
    ensures some { result ≡ list_any (is_range_of handle) table.old.ranges }
    ensures ranges { table.new.ranges ≡ filter (λ range. not (is_range_of handle range)) table.old.ranges }
    ensures room { table.old.room ≤ table.new.room }
{
    let before = table.len();
    table.remove_all_of(handle);
    table.len() != before
}
