//! The table of the ranges that are held.

ghost use Rattle.std.specs.Prelude.{◌≡◌, ◌==◌, ◌≤◌, ◌<◌, ◌+◌, ◌-◌, ◌++◌, ◌∷◌, ◌&&◌, [], List, Some, None, true, if◌then◌else◌, not, filter, find, length, count_by, position, slice_index_or, IfOk, IsOk, OnOk, OnErr};
ghost use Rattle.std.specs.List.{list_any};
ghost use Rattle.std.specs.List.Sorted.{IsPartitionPoint};
ghost use Rattle.fsa_types.specs.Ranges.{without_first};
ghost use Rattle.fsa_types.specs.BoundedList.{full};
ghost use Rattle.range_locks.specs.RangeTable.{AreRisingRanges, AreSameByPlace, conflicts, is_range, is_range_of, is_behind, lesser_number, least_from, first_id, range_blockers};
ghost use Rattle.range_locks.specs.declared.range.Range.{Range};

use crate::places::{RangesByPlace, place_in, remove_all_of};
use crate::range::{Range, Want};
use fsa_types::{Blocker, BlockerList, NoMemory};
use object_tables::ShiftList;
use std::alloc::Global;
use std::marker::Model;

/// The ranges of one stream that are held, in order of insertion.
pub struct RangeTable {
    ranges: ShiftList<Range>,
    // The same ranges in the order of their places.
    by_place: RangesByPlace,
    // Each range was put in behind lesser numbers, so that their numbers tell their order.
    rising: bool,
}

// One drop of the whole, so that it is one step at each end of a function that holds one.
impl Drop for RangeTable {
    fn drop(self) {
        let RangeTable {
            ranges: _,
            by_place: _,
            rising: _,
        } = self;
    }
}

impl Model for RangeTable {
    ghost use Rattle.range_locks.specs.RangeTable.{AreRisingRanges, AreSameByPlace, Ranges};
    ghost use Rattle.std.specs.Prelude.{◌≡◌, min, true};

    ghost Value = { Ranges };

    ghost view = { λ t. record { ranges = t.ranges.items; room = min t.ranges.room t.by_place.room } };

    ghost invariant = { λ t. AreSameByPlace t.by_place.ranges t.ranges.items × (t.rising ≡ true → AreRisingRanges t.ranges.items) };
}

impl RangeTable {
    /// A table without ranges. It takes no memory.
    pub fn new(alloc: Global) -> RangeTable
        ensures { result.ranges ≡ [] }
    {
        RangeTable {
            ranges: ShiftList::new(alloc),
            by_place: RangesByPlace::new(alloc),
            rising: true,
        }
    }

    /// How many ranges are held.
    pub fn len(&self) -> usize
        ensures { result ≡ length self.now.ranges }
    {
        self.ranges.len()
    }

    /// Whether no range is held.
    pub fn is_empty(&self) -> bool
        ensures { result ≡ (length self.now.ranges == 0) }
    {
        self.ranges.len() == 0
    }

    /// The number of the first range that conflicts with what this handle wants; `None` exactly
    /// where there is none.
    pub fn conflict(&self, want: Want, handle: u64, at: u64, count: u64) -> Option<u64>
        ensures { result ≡ first_id (conflicts want handle at count) self.now.ranges }
    {
        let near = self.by_place.near(at, count);
        if goes_by_place(self.rising, near.len(), self.ranges.len()) {
            least_behind(near, want, handle, at, count, None)
        } else {
            first_of(self.ranges.as_slice(), want, handle, at, count)
        }
    }

    /// The numbers of all ranges that conflict with what this handle wants, in order. `NoMemory`
    /// where there is none for the list, or where it would have 2^32 items.
    pub fn blockers(
        &self,
        alloc: Global,
        want: Want,
        handle: u64,
        at: u64,
        count: u64,
    ) -> Result<BlockerList, NoMemory>
        ensures { IfOk result (λ list. list ≡ full (range_blockers (conflicts want handle at count) self.now.ranges)) }
    {
        let near = self.by_place.near(at, count);
        if goes_by_place(self.rising, near.len(), self.ranges.len()) {
            listed_near(alloc, self.ranges.as_slice(), near, want, handle, at, count)
        } else {
            listed(alloc, self.ranges.as_slice(), want, handle, at, count)
        }
    }

    /// Takes room for `n` ranges beside those that are held. `NoMemory` where there is none.
    pub fn reserve(&mut self, n: usize) -> Result<(), NoMemory>
        ensures ranges { self.new.ranges ≡ self.old.ranges }
        ensures room { OnOk result (n ≤ self.new.room) }
        ensures kept { self.old.room ≤ self.new.room }
    {
        self.by_place.reserve(n)?;
        self.ranges.reserve(n)?;
        Ok(())
    }

    /// Puts a range at the end. It needs memory only where there is no spare room. Nothing has
    /// changed after `NoMemory`.
    pub fn insert(&mut self, range: Range) -> Result<(), NoMemory>
        ensures ok { OnOk result (self.new.ranges ≡ self.old.ranges ++ range ∷ []) }
        ensures err { OnErr result (self.new.ranges ≡ self.old.ranges) }
        ensures succeeds { 1 ≤ self.old.room → IsOk result }
        ensures left { self.old.room ≤ self.new.room + 1 }
    {
        self.by_place.reserve(1)?;
        self.ranges.reserve(1)?;
        let rising = stays_rising(self.ranges.as_slice(), range.id, self.rising);
        self.ranges.push(range);
        self.by_place.add(range);
        self.rising = rising;
        Ok(())
    }

    /// Takes the first range of this handle with exactly this place and count out, and gives its
    /// number; `None` exactly where there is none. It takes no memory, and leaves the spare room
    /// as it was or larger.
    pub fn remove(&mut self, handle: u64, at: u64, count: u64) -> Option<u64>
        ensures id { result ≡ first_id (is_range handle at count) self.old.ranges }
        ensures ranges { self.new.ranges ≡ without_first (is_range handle at count) self.old.ranges }
        ensures room { self.old.room ≤ self.new.room }
    {
        match self.by_place.remove(handle, at, count) {
            None => None,
            Some(range) => {
                remove(&mut self.ranges, handle, at, count, range.id, self.rising);
                Some(range.id)
            }
        }
    }

    /// Takes the first range of this handle out, and gives its number; `None` exactly where it
    /// has none. It takes no memory, and leaves the spare room as it was or larger.
    pub fn remove_any_of(&mut self, handle: u64) -> Option<u64>
        ensures id { result ≡ first_id (is_range_of handle) self.old.ranges }
        ensures ranges { self.new.ranges ≡ without_first (is_range_of handle) self.old.ranges }
        ensures room { self.old.room ≤ self.new.room }
    {
        match first_of_handle(self.ranges.as_slice(), handle) {
            None => None,
            Some(range) => self.remove(range.handle, range.at, range.count),
        }
    }

    /// Takes all ranges of this handle out. It takes no memory, and leaves the spare room as it was or
    /// larger.
    pub fn remove_all_of(&mut self, handle: u64)
        ensures ranges { self.new.ranges ≡ filter (λ range. not (is_range_of handle range)) self.old.ranges }
        ensures room { self.old.room ≤ self.new.room }
    {
        if has_any_of(self.ranges.as_slice(), handle) {
            remove_all_of(&mut self.ranges, handle);
            self.by_place.remove_all_of(handle);
        }
    }
}

// Whether questions go by the ranges near a place: where the numbers tell the order, and these are few.
fn goes_by_place(rising: bool, near: usize, all: usize) -> bool
    ensures { result ≡ true → rising ≡ true }
{
    rising && near <= all / 4
}

// Whether numbers rose so far, and this one is greater than the last one.
fn stays_rising(ranges: &[Range], id: u64, rising: bool) -> bool
    ensures before { result ≡ true → rising ≡ true }
    ensures behind { result ≡ true → (d : Range) → 0 < length ranges.now → (slice_index_or ranges.now (length ranges.now - 1) d).id < id }
{
    rising && is_behind_last(ranges, id)
}

// Whether a number is greater than that of the last range, where there is one.
fn is_behind_last(ranges: &[Range], id: u64) -> bool
    ensures { result ≡ true → (d : Range) → 0 < length ranges.now → (slice_index_or ranges.now (length ranges.now - 1) d).id < id }
{
    if ranges.is_empty() {
        return true;
    }
    ranges[ranges.len() - 1].id < id
}

// The number of the first range that conflicts with what this handle wants.
fn first_of(ranges: &[Range], want: Want, handle: u64, at: u64, count: u64) -> Option<u64>
    ensures { result ≡ first_id (conflicts want handle at count) ranges.now }
{
    ranges
        .iter()
        .find(|range| range.conflicts(want, handle, at, count))
        .map(|range| range.id)
}

// The least number, greater than the last one where there is one, of a range that conflicts with what this handle
// wants.
fn least_behind(
    ranges: &[Range],
    want: Want,
    handle: u64,
    at: u64,
    count: u64,
    last: Option<u64>,
) -> Option<u64>
    ensures { result ≡ least_from (λ range. conflicts want handle at count range && is_behind last range.id) None ranges.now }
{
    let mut least = None;
    for range in ranges {
        let passes = range.conflicts(want, handle, at, count) && is_behind(last, range.id);
        least = with_lesser(passes, least, range.id);
    }
    least
}

// Whether a number is greater than the last one, where there is one.
fn is_behind(last: Option<u64>, id: u64) -> bool
    ensures { result ≡ is_behind last id }
{
    match last {
        None => true,
        Some(last) => last < id,
    }
}

// The lesser of a number, where there is one, and another that passes.
fn with_lesser(passes: bool, least: Option<u64>, id: u64) -> Option<u64>
    ensures { result ≡ (if passes then Some (lesser_number least id) else least) }
{
    if !passes {
        return least;
    }
    match least {
        None => Some(id),
        Some(least) => Some(if id < least { id } else { least }),
    }
}

// How many ranges conflict with what this handle wants.
fn count_of_conflicts(ranges: &[Range], want: Want, handle: u64, at: u64, count: u64) -> usize
    ensures { result ≡ count_by (conflicts want handle at count) ranges.now }
{
    ranges
        .iter()
        .filter(|range| range.conflicts(want, handle, at, count))
        .count()
}

// The numbers of those ranges that conflict with what this handle wants, in order. All that do are near, and
// numbers tell the order. The next one is looked for among those that are near, as long as that takes fewer looks
// than to go over all.
fn listed_near(
    alloc: Global,
    ranges: &[Range],
    near: &[Range],
    want: Want,
    handle: u64,
    at: u64,
    count: u64,
) -> Result<BlockerList, NoMemory>
    requires numbered { AreRisingRanges ranges.now }
    requires near { AreSameByPlace (filter (conflicts want handle at count) near.now) (filter (conflicts want handle at count) ranges.now) }
    ensures { IfOk result (λ list. list ≡ full (range_blockers (conflicts want handle at count) ranges.now)) }
{
    let found = count_of_conflicts(near, want, handle, at, count);
    if found.saturating_mul(near.len()) <= ranges.len() {
        listed_by_number(alloc, near, want, handle, at, count, found)
    } else {
        listed_all(alloc, ranges, want, handle, at, count, found)
    }
}

// An empty list with room for so many numbers. `NoMemory` where there is none, or where there would be 2^32 of them.
fn list_for(alloc: Global, found: usize) -> Result<BlockerList, NoMemory>
    ensures { IfOk result (λ list. list ≡ record { items = []; room = found }) }
{
    let Ok(room) = u32::try_from(found) else {
        return Err(NoMemory);
    };
    BlockerList::with_room(alloc, room)
}

// The numbers of those ranges near that conflict with what this handle wants, from the least. There are so many.
fn listed_by_number(
    alloc: Global,
    near: &[Range],
    want: Want,
    handle: u64,
    at: u64,
    count: u64,
    found: usize,
) -> Result<BlockerList, NoMemory>
    requires { found ≡ count_by (conflicts want handle at count) near.now }
    ensures { (ranges : List Range) → AreRisingRanges ranges → AreSameByPlace (filter (conflicts want handle at count) near.now) (filter (conflicts want handle at count) ranges)
        → IfOk result (λ list. list ≡ full (range_blockers (conflicts want handle at count) ranges)) }
{
    let mut list = list_for(alloc, found)?;
    let mut last = None;
    for _ in 0..found {
        let Some(id) = least_behind(near, want, handle, at, count, last) else {
            return Ok(list);
        };
        list.push(Blocker::Lock(id));
        last = Some(id);
    }
    Ok(list)
}

// The numbers of those ranges that conflict with what this handle wants, in order.
fn listed(
    alloc: Global,
    ranges: &[Range],
    want: Want,
    handle: u64,
    at: u64,
    count: u64,
) -> Result<BlockerList, NoMemory>
    ensures { IfOk result (λ list. list ≡ full (range_blockers (conflicts want handle at count) ranges.now)) }
{
    let found = count_of_conflicts(ranges, want, handle, at, count);
    listed_all(alloc, ranges, want, handle, at, count, found)
}

// The numbers of those ranges that conflict with what this handle wants, in order. There are so many. What stands
// behind the last of them isn't looked at.
fn listed_all(
    alloc: Global,
    ranges: &[Range],
    want: Want,
    handle: u64,
    at: u64,
    count: u64,
    found: usize,
) -> Result<BlockerList, NoMemory>
    requires { found ≡ count_by (conflicts want handle at count) ranges.now }
    ensures { IfOk result (λ list. list ≡ full (range_blockers (conflicts want handle at count) ranges.now)) }
{
    let mut list = list_for(alloc, found)?;
    for range in ranges {
        if list.len() == found {
            return Ok(list);
        }
        if range.conflicts(want, handle, at, count) {
            list.push(Blocker::Lock(range.id));
        }
    }
    Ok(list)
}

// Takes the first range of this handle with exactly this place and count out, which has this number.
fn remove(ranges: &mut ShiftList<Range>, handle: u64, at: u64, count: u64, id: u64, rising: bool)
    requires numbered { rising ≡ true → AreRisingRanges ranges.old.items }
    requires first { first_id (is_range handle at count) ranges.old.items ≡ Some id }
    ensures ranges { ranges.new.items ≡ without_first (is_range handle at count) ranges.old.items }
    ensures room { ranges.old.room ≤ ranges.new.room }
{
    let place = place_of(ranges.as_slice(), handle, at, count, id, rising);
    let _ = ranges.remove(place);
}

// The place of the first range of this handle with exactly this place and count, which has this number.
fn place_of(ranges: &[Range], handle: u64, at: u64, count: u64, id: u64, rising: bool) -> usize
    requires numbered { rising ≡ true → AreRisingRanges ranges.now }
    requires first { first_id (is_range handle at count) ranges.now ≡ Some id }
    ensures { position (is_range handle at count) ranges.now ≡ Some result }
{
    if rising {
        return begin_of_number(ranges, id);
    }
    let Some(place) = place_in(ranges, handle, at, count) else {
        unreachable!()
    };
    place
}

// Where the ranges of lesser numbers end.
fn begin_of_number(ranges: &[Range], id: u64) -> usize
    requires rising { AreRisingRanges ranges.now }
    ensures bound { result ≤ length ranges.now }
    ensures point { IsPartitionPoint (λ range. range.id < id) (λ range. id ≤ range.id) ranges.now result }
{
    ranges.partition_point(|range| range.id < id)
}

// The first range of this handle.
fn first_of_handle(ranges: &[Range], handle: u64) -> Option<Range>
    ensures { result ≡ find (is_range_of handle) ranges.now }
{
    match place_of_handle(ranges, handle) {
        None => None,
        Some(place) => Some(ranges[place]),
    }
}

// The place of the first range of this handle.
fn place_of_handle(ranges: &[Range], handle: u64) -> Option<usize>
    ensures { result ≡ position (is_range_of handle) ranges.now }
{
    ranges.iter().position(|range| range.handle == handle)
}

// Whether there is a range of this handle.
fn has_any_of(ranges: &[Range], handle: u64) -> bool
    ensures { result ≡ list_any (is_range_of handle) ranges.now }
{
    ranges.iter().any(|range| range.handle == handle)
}
