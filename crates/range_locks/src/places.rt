//! The ranges of one stream in the order of their places.

ghost use Rattle.std.specs.Prelude.{ℕ, Bool, List, ◌≡◌, ◌≤◌, ◌<◌, ◌+◌, ◌++◌, ◌∷◌, [], true, not, All, OnOk, IsOk, filter, find, length, position};
ghost use Rattle.std.specs.List.{AllWithin};
ghost use Rattle.std.specs.List.Sorted.{IsNonDecreasingBy, IsPartitionPoint};
ghost use Rattle.fsa_types.specs.Ranges.{meets, without_first};
ghost use Rattle.range_locks.specs.RangeTable.{AreSameByPlace, is_range_of, is_range, lock_of};
ghost use Rattle.range_locks.specs.declared.range.Range.{Range};

use crate::range::Range;
use fsa_types::NoMemory;
use object_tables::ShiftList;
use std::alloc::Global;
use std::marker::Model;

/// Ranges in the order of their places. Those of one place stand in the order in which they were added.
#[derive(Drop)]
pub(crate) struct RangesByPlace {
    ranges: ShiftList<Range>,
    // No range has more bytes.
    longest: u64,
}

impl Model for RangesByPlace {
    ghost use Rattle.range_locks.specs.RangeTable.{Ranges};
    ghost use Rattle.std.specs.List.Sorted.{IsNonDecreasingBy};
    ghost use Rattle.std.specs.Prelude.{◌≤◌, All};

    ghost Value = { Ranges };

    ghost view = { λ p. record { ranges = p.ranges.items; room = p.ranges.room } };

    ghost invariant = { λ p. IsNonDecreasingBy (λ range. range.at) p.ranges.items × All (λ range. range.count ≤ p.longest) p.ranges.items };
}

impl RangesByPlace {
    /// No ranges. It takes no memory.
    pub(crate) fn new(alloc: Global) -> RangesByPlace
        ensures { result.ranges ≡ [] }
    {
        RangesByPlace {
            ranges: ShiftList::new(alloc),
            longest: 0,
        }
    }

    /// Takes room for `more` ranges beside those that are there. `NoMemory` where there is none.
    pub(crate) fn reserve(&mut self, more: usize) -> Result<(), NoMemory>
        ensures ranges { self.new.ranges ≡ self.old.ranges }
        ensures room { OnOk result (more ≤ self.new.room) }
        ensures kept { self.old.room ≤ self.new.room }
        ensures succeeds { more ≤ self.old.room → IsOk result }
    {
        self.ranges.reserve(more)?;
        Ok(())
    }

    /// Puts a range behind those of its place. There has to be room for it. It takes no memory.
    pub(crate) fn add(&mut self, range: Range)
        requires { 1 ≤ self.old.room }
        ensures added { AreSameByPlace self.new.ranges (self.old.ranges ++ range ∷ []) }
        ensures left { self.old.room ≤ self.new.room + 1 }
    {
        self.longest = longest_with(self.ranges.as_slice(), self.longest, range.count);
        let place = end_of(self.ranges.as_slice(), range.at);
        self.ranges.insert(place, range);
    }

    /// The ranges among which are all that overlap with this one, in order.
    pub(crate) fn near(&self, at: u64, count: u64) -> &[Range]
        ensures { (test : Range → Bool) → ((range : Range) → test range ≡ true → meets at count (lock_of range) ≡ true) → filter test result.now ≡ filter test self.now.ranges }
    {
        near(self.ranges.as_slice(), self.longest, at, count)
    }

    /// Takes the first range of this handle with exactly this place and count out, and gives it; `None`
    /// exactly where there is none. It takes no memory, and leaves the room as it was or larger.
    pub(crate) fn remove(&mut self, handle: u64, at: u64, count: u64) -> Option<Range>
        ensures range { result ≡ find (is_range handle at count) self.old.ranges }
        ensures ranges { self.new.ranges ≡ without_first (is_range handle at count) self.old.ranges }
        ensures room { self.old.room ≤ self.new.room }
    {
        match place_of(self.ranges.as_slice(), handle, at, count) {
            None => None,
            Some(place) => Some(self.ranges.remove(place)),
        }
    }

    /// Takes all ranges of this handle out. It takes no memory, and leaves the room as it was or larger.
    pub(crate) fn remove_all_of(&mut self, handle: u64)
        ensures ranges { self.new.ranges ≡ filter (λ range. not (is_range_of handle range)) self.old.ranges }
        ensures room { self.old.room ≤ self.new.room }
    {
        remove_all_of(&mut self.ranges, handle);
    }
}

/// Takes all ranges of this handle out.
pub(crate) fn remove_all_of(ranges: &mut ShiftList<Range>, handle: u64)
    ensures ranges { ranges.new.items ≡ filter (λ range. not (is_range_of handle range)) ranges.old.items }
    ensures room { ranges.old.room ≤ ranges.new.room }
{
    ranges.retain(|range| range.handle != handle);
}

// What no range has more bytes than, once there is one more with this count.
fn longest_with(ranges: &[Range], longest: u64, count: u64) -> u64
    ensures own { count ≤ result }
    ensures others { All (λ range. range.count ≤ longest) ranges.now → All (λ range. range.count ≤ result) ranges.now }
{
    if ranges.is_empty() {
        return count;
    }
    longest.max(count)
}

// Where the ranges of lower places end.
fn begin_of(ranges: &[Range], at: u64) -> usize
    requires rising { IsNonDecreasingBy (λ range. range.at) ranges.now }
    ensures bound { result ≤ length ranges.now }
    ensures point { IsPartitionPoint (λ range. range.at < at) (λ range. at ≤ range.at) ranges.now result }
{
    ranges.partition_point(|range| range.at < at)
}

// Where the ranges of places up to this one end.
fn end_of(ranges: &[Range], at: u64) -> usize
    requires rising { IsNonDecreasingBy (λ range. range.at) ranges.now }
    ensures bound { result ≤ length ranges.now }
    ensures point { IsPartitionPoint (λ range. range.at ≤ at) (λ range. at < range.at) ranges.now result }
{
    ranges.partition_point(|range| range.at <= at)
}

// Where the ranges end that begin before the end of this one.
fn end_before(ranges: &[Range], at: u64, count: u64) -> usize
    requires rising { IsNonDecreasingBy (λ range. range.at) ranges.now }
    ensures bound { result ≤ length ranges.now }
    ensures behind { AllWithin (λ range. at + count ≤ range.at) ranges.now result (length ranges.now) }
{
    match at.checked_add(count) {
        None => ranges.len(),
        Some(end) => begin_of(ranges, end),
    }
}

// The ranges among which are all that overlap with this one, where none has more bytes than the longest.
fn near(ranges: &[Range], longest: u64, at: u64, count: u64) -> &[Range]
    requires rising { IsNonDecreasingBy (λ range. range.at) ranges.now }
    requires longest { All (λ range. range.count ≤ longest) ranges.now }
    ensures { (test : Range → Bool) → ((range : Range) → test range ≡ true → meets at count (lock_of range) ≡ true) → filter test result.now ≡ filter test ranges.now }
{
    let begin = begin_of(ranges, at.saturating_sub(longest));
    let (_, from) = ranges.split_at(begin);
    let (part, _) = from.split_at(end_before(from, at, count));
    part
}

// The place of the first range of this handle with exactly this place and count.
fn place_of(ranges: &[Range], handle: u64, at: u64, count: u64) -> Option<usize>
    requires rising { IsNonDecreasingBy (λ range. range.at) ranges.now }
    ensures { result ≡ position (is_range handle at count) ranges.now }
{
    let begin = begin_of(ranges, at);
    let (_, from) = ranges.split_at(begin);
    let (part, _) = from.split_at(end_of(from, at));
    match place_in(part, handle, at, count) {
        None => None,
        Some(place) => Some(begin + place),
    }
}

/// The place of the first range of this handle with exactly this place and count, by a look at each.
pub(crate) fn place_in(ranges: &[Range], handle: u64, at: u64, count: u64) -> Option<usize>
    ensures { result ≡ position (is_range handle at count) ranges.now }
{
    ranges
        .iter()
        .position(|range| range.is_exactly(handle, at, count))
}
