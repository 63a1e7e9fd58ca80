//! Which opens are held under keys, as counts of what they do and share.

ghost use Rattle.std.specs.Prelude.{◌≡◌, ◌≢◌, ◌==◌, ◌≤◌, ◌<◌, ◌+◌, ◌-◌, ◌^◌, ℕ, AllPairs, Contains, IsPermutation, Some, [], ◌∷◌, ◌++◌, false, IfErr, IfOk, OnOk, length};
ghost use Rattle.slab.specs.Slab.{ContainsKey, HasRoomFor, Updates, get, slab_len};
ghost use Rattle.fsa_types.specs.Places.{IsAt, StandsAt};
ghost use Rattle.fsa_types.specs.Rows.{row_of};
ghost use Rattle.fsa_types.specs.Sharing.{clashes};
ghost use Rattle.object_tables.specs.Places.{ArePlaced, rows_in};
ghost use Rattle.volume_tables.specs.ShareTable.{HaveOpens, IsAdded, IsTaken, held_at, held_in};

use fsa_types::NoMemory;
use object_tables::ShiftList;
use slab::Slab;
use std::alloc::Global;
use std::marker::Model;
use tallies::ShareCounts;

/// For each key the opens that are held under it, as counts. A key goes with its last open: each one that is there has
/// some. It is found in time logarithmic in the keys; where one comes or goes, 16 bytes move of each of those before it
/// or of those behind it, whichever are fewer.
pub struct ShareTable {
    // Each key with the slot of its counts, by rising key.
    places: ShiftList<(u64, usize)>,
    counts: Slab<ShareCounts>,
}

// One drop of the whole, so that it is one step at each end of a function that holds one.
impl Drop for ShareTable {
    fn drop(self) {
        let ShareTable {
            places: _,
            counts: _,
        } = self;
    }
}

impl Model for ShareTable {
    ghost use Rattle.object_tables.specs.Places.{ArePlaced, rows_in};
    ghost use Rattle.slab.specs.Slab.{get, slab_len};
    ghost use Rattle.std.specs.Prelude.{◌-◌, ◌^◌, min};
    ghost use Rattle.volume_tables.specs.ShareTable.{HaveOpens, Shares};

    ghost Value = { Shares };

    ghost view = { λ t. record { rows = rows_in t.counts t.places.items; room = min t.places.room (t.counts.capacity - slab_len t.counts) } };

    ghost invariant = { λ t. ArePlaced (get t.counts) t.places.items (2 ^ 64) × HaveOpens (rows_in t.counts t.places.items) };
}

impl ShareTable {
    /// No opens and no room. It takes no memory.
    pub fn new(alloc: Global) -> ShareTable
        ensures { result.rows ≡ [] }
    {
        ShareTable {
            places: ShiftList::new(alloc),
            counts: Slab::new(alloc),
        }
    }

    /// Takes room for `more` keys beside those that are there. `NoMemory` where there is none.
    pub fn reserve(&mut self, more: usize) -> Result<(), NoMemory>
        ensures rows { self.new.rows ≡ self.old.rows }
        ensures room { OnOk result (more ≤ self.new.room) }
        ensures kept { self.old.room ≤ self.new.room }
    {
        self.places.reserve(more)?;
        self.counts.reserve(more)?;
        Ok(())
    }

    /// Adds an open under a key, by its access and share masks. There has to be room for one more key, and fewer than
    /// 2^64 - 1 opens under this one. It takes no memory.
    pub fn add(&mut self, key: u64, access: u32, share: u32)
        requires room { 1 ≤ self.old.room }
        requires few { length (held_in self.old.rows key) < 2 ^ 64 - 1 }
        ensures added { IsAdded (λ other. key == other) self.old.rows self.new.rows (access, share) }
        ensures left { self.old.room ≤ self.new.room + 1 }
    {
        match place_of(self.places.as_slice(), key) {
            Ok(place) => add_at(&mut self.counts, &self.places, key, place, access, share),
            Err(place) => {
                insert_at(
                    &mut self.places,
                    &mut self.counts,
                    key,
                    place,
                    access,
                    share,
                );
            }
        }
    }

    /// Takes an open with these access and share masks out from under a key, which has to have one. It takes no memory,
    /// and leaves the room as it was or larger.
    pub fn remove(&mut self, key: u64, access: u32, share: u32)
        requires { Contains (held_in self.old.rows key) (access, share) }
        ensures taken { IsTaken (λ other. key == other) self.old.rows self.new.rows (access, share) }
        ensures room { self.old.room ≤ self.new.room }
    {
        let Ok(place) = place_of(self.places.as_slice(), key) else {
            unreachable!()
        };
        if remove_at(&mut self.counts, &self.places, key, place, access, share) {
            take_out(&mut self.places, &mut self.counts, key, place);
        }
    }

    /// Whether an open with these access and share masks clashes with some open under a key.
    pub fn clashes(&self, key: u64, access: u32, share: u32) -> bool
        ensures { result ≡ clashes (held_in self.now.rows key) access share }
    {
        match place_of(self.places.as_slice(), key) {
            Ok(place) => clashes_in(&self.counts, self.places.at(place).1, access, share),
            Err(_) => false,
        }
    }
}

// The place of a key, or where it would stand, by binary search.
fn place_of(places: &[(u64, usize)], key: u64) -> Result<usize, usize>
    requires rising { AllPairs (λ a b. a.0 < b.0) places.now }
    ensures there { IfOk result (λ place. IsAt places.now key place) }
    ensures missing { IfErr result (λ place. StandsAt places.now key place) }
{
    places.binary_search_by_key(&key, |entry| entry.0)
}

// Whether an open clashes with one of those in a slot.
fn clashes_in(counts: &Slab<ShareCounts>, slot: usize, access: u32, share: u32) -> bool
    ensures { result ≡ clashes (held_at counts.now slot) access share }
{
    match counts.get(slot) {
        None => false,
        Some(held) => held.clashes(access, share),
    }
}

// Adds an open to those in a slot.
fn add_in(counts: &mut Slab<ShareCounts>, slot: usize, access: u32, share: u32)
    requires there { ContainsKey counts.old slot }
    requires few { length (held_at counts.old slot) < 2 ^ 64 - 1 }
    ensures updates { Updates counts.old counts.new slot (Some (held_at counts.old slot ++ (access, share) ∷ [])) }
    ensures len { slab_len counts.new ≡ slab_len counts.old }
    ensures capacity { counts.new.capacity ≡ counts.old.capacity }
{
    counts[slot].add(access, share);
}

// Adds an open under the key at a place, to those in its slot.
fn add_at(
    counts: &mut Slab<ShareCounts>,
    places: &ShiftList<(u64, usize)>,
    key: u64,
    place: usize,
    access: u32,
    share: u32,
)
    requires placed { ArePlaced (get counts.old) places.now.items (2 ^ 64) }
    requires there { IsAt places.now.items key place }
    requires few { length (held_in (rows_in counts.old places.now.items) key) < 2 ^ 64 - 1 }
    requires opens { HaveOpens (rows_in counts.old places.now.items) }
    ensures placed { ArePlaced (get counts.new) places.now.items (2 ^ 64) }
    ensures opens { HaveOpens (rows_in counts.new places.now.items) }
    ensures added { IsAdded (λ other. key == other) (rows_in counts.old places.now.items) (rows_in counts.new places.now.items) (access, share) }
    ensures len { slab_len counts.new ≡ slab_len counts.old }
    ensures capacity { counts.new.capacity ≡ counts.old.capacity }
{
    let slot = places.at(place).1;
    add_in(counts, slot, access, share);
}

// Puts a key with one open in, where it would stand.
fn insert_at(
    places: &mut ShiftList<(u64, usize)>,
    counts: &mut Slab<ShareCounts>,
    key: u64,
    place: usize,
    access: u32,
    share: u32,
)
    requires placed { ArePlaced (get counts.old) places.old.items (2 ^ 64) }
    requires missing { StandsAt places.old.items key place }
    requires room { 1 ≤ places.old.room }
    requires slots { HasRoomFor counts.old 1 }
    requires opens { HaveOpens (rows_in counts.old places.old.items) }
    ensures placed { ArePlaced (get counts.new) places.new.items (2 ^ 64) }
    ensures opens { HaveOpens (rows_in counts.new places.new.items) }
    ensures added { IsAdded (λ other. key == other) (rows_in counts.old places.old.items) (rows_in counts.new places.new.items) (access, share) }
    ensures left { places.old.room ≤ places.new.room + 1 }
    ensures len { slab_len counts.new ≡ slab_len counts.old + 1 }
    ensures capacity { counts.new.capacity ≡ counts.old.capacity }
{
    let slot = counts.insert_reserved(counts_of(access, share));
    places.insert(place, (key, slot));
}

// The counts of one open.
fn counts_of(access: u32, share: u32) -> ShareCounts
    ensures { result ≡ (access, share) ∷ [] }
{
    let mut held = ShareCounts::new();
    held.add(access, share);
    held
}

// Takes an open out of those in a slot, and tells whether none is left.
fn remove_in(counts: &mut Slab<ShareCounts>, slot: usize, access: u32, share: u32) -> bool
    requires there { ContainsKey counts.old slot }
    requires held { Contains (held_at counts.old slot) (access, share) }
    ensures updates { Updates counts.old counts.new slot (Some (held_at counts.new slot)) }
    ensures held { IsPermutation (held_at counts.old slot) ((access, share) ∷ held_at counts.new slot) }
    ensures empty { result ≡ (length (held_at counts.new slot) == 0) }
    ensures len { slab_len counts.new ≡ slab_len counts.old }
    ensures capacity { counts.new.capacity ≡ counts.old.capacity }
{
    let held = &mut counts[slot];
    held.remove(access, share);
    held.is_empty()
}

// Takes an open out from under the key at a place, and tells whether none is left there.
fn remove_at(
    counts: &mut Slab<ShareCounts>,
    places: &ShiftList<(u64, usize)>,
    key: u64,
    place: usize,
    access: u32,
    share: u32,
) -> bool
    requires placed { ArePlaced (get counts.old) places.now.items (2 ^ 64) }
    requires there { IsAt places.now.items key place }
    requires held { Contains (held_in (rows_in counts.old places.now.items) key) (access, share) }
    requires opens { HaveOpens (rows_in counts.old places.now.items) }
    ensures placed { ArePlaced (get counts.new) places.now.items (2 ^ 64) }
    ensures opens { result ≡ false → HaveOpens (rows_in counts.new places.now.items) }
    ensures others { (other : ℕ) → (other == key) ≡ false → row_of (rows_in counts.new places.now.items) other ≢ Some [] }
    ensures taken { IsTaken (λ other. key == other) (rows_in counts.old places.now.items) (rows_in counts.new places.now.items) (access, share) }
    ensures empty { result ≡ (length (held_in (rows_in counts.new places.now.items) key) == 0) }
    ensures len { slab_len counts.new ≡ slab_len counts.old }
    ensures capacity { counts.new.capacity ≡ counts.old.capacity }
{
    let slot = places.at(place).1;
    remove_in(counts, slot, access, share)
}

// Takes a key without opens out.
fn take_out(
    places: &mut ShiftList<(u64, usize)>,
    counts: &mut Slab<ShareCounts>,
    key: u64,
    place: usize,
)
    requires placed { ArePlaced (get counts.old) places.old.items (2 ^ 64) }
    requires there { IsAt places.old.items key place }
    requires empty { length (held_in (rows_in counts.old places.old.items) key) ≡ 0 }
    requires others { (other : ℕ) → (other == key) ≡ false → row_of (rows_in counts.old places.old.items) other ≢ Some [] }
    ensures placed { ArePlaced (get counts.new) places.new.items (2 ^ 64) }
    ensures opens { HaveOpens (rows_in counts.new places.new.items) }
    ensures held { (other : ℕ) → held_in (rows_in counts.new places.new.items) other ≡ held_in (rows_in counts.old places.old.items) other }
    ensures room { places.old.room ≤ places.new.room }
    ensures len { slab_len counts.new ≤ slab_len counts.old }
    ensures capacity { counts.new.capacity ≡ counts.old.capacity }
{
    let slot = places.remove(place).1;
    let _ = counts.remove(slot);
}
