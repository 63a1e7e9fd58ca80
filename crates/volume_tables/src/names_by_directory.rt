//! The links of each directory in the order of their names.

ghost use Rattle.std.specs.Prelude.{ℕ, ◌≡◌, ◌≤◌, ◌+◌, ◌^◌, ◌++◌, ◌∷◌, ◌==◌, ◌&&◌, not, All, AllPairs, Bool, IfErr, IfOk, None, OnOk, Some, [], false, true, ◌<◌, filter, find, map, option_map};
ghost use Rattle.std.specs.List.{list_any};
ghost use Rattle.std.specs.Option.{is_some, option_copied};
ghost use Rattle.slab.specs.Slab.{ContainsKey, HasRoomFor, Updates, get};
ghost use Rattle.fsa_types.specs.CaseTable.{same_name};
ghost use Rattle.fsa_types.specs.Places.{IsAt, StandsAt};
ghost use Rattle.fsa_types.specs.Rows.{row_of, with_row_changed, without_row};
ghost use Rattle.fsa_model.specs.Lookups.{is_named};
ghost use Rattle.object_tables.specs.Places.{ArePlaced, rows_in};
ghost use Rattle.volume_rows.specs.Children.{links_after};
ghost use Rattle.link_index.specs.Beginnings.{begins_with};
ghost use Rattle.volume_tables.specs.Directories.{AreByDirectory, index_at, index_of};
ghost use Rattle.link_index.specs.Directory.{AreInNameOrder, IsNamePut, IsNameTaken, KeepsNames, links_at};

use fsa_types::{NoMemory, UpcaseTable};
use link_index::Directory;
use object_tables::{ShiftList, Table};
use slab::Slab;
use std::alloc::Global;
use std::marker::Model;
use volume_rows::LinkRow;

/// For each directory an index: a `Directory`, its links in the order of their names. The names stand in the table of
/// the links alone. A directory is found by a binary search among those that have an index, and a name in it as
/// `link_index` says, as is what moves where a name comes or goes. Each link that is looked up takes time logarithmic in
/// all links at most. Where an index comes or goes, 16 bytes move of each directory behind it, or before it.
pub struct NamesByDirectory {
    // Each directory that has an index, with the slot of it, by rising number.
    places: ShiftList<(u64, usize)>,
    indexes: Slab<Directory>,
    alloc: Global,
}

// One drop of the whole, so that it is one step at each end of a function that holds one.
impl Drop for NamesByDirectory {
    fn drop(self) {
        let NamesByDirectory {
            places: _,
            indexes: _,
            alloc: _,
        } = self;
    }
}

impl Model for NamesByDirectory {
    ghost use Rattle.object_tables.specs.Places.{ArePlaced, rows_in};
    ghost use Rattle.slab.specs.Slab.{get};
    ghost use Rattle.std.specs.Prelude.{ℕ, List, ◌^◌};
    ghost use Rattle.link_index.specs.Directory.{DirectoryView};

    ghost Value = { List (ℕ × DirectoryView) };

    ghost view = { λ d. rows_in d.indexes d.places.items };

    ghost invariant = { λ d. ArePlaced (get d.indexes) d.places.items (2 ^ 64) };
}

impl NamesByDirectory {
    /// No directories. It takes no memory.
    pub fn new(alloc: Global) -> NamesByDirectory
        ensures { result ≡ [] }
    {
        NamesByDirectory {
            places: ShiftList::new(alloc),
            indexes: Slab::new(alloc),
            alloc,
        }
    }

    /// Takes room for `more` links of a directory beside those that are there. `NoMemory` where there is none.
    pub fn reserve(&mut self, dir: u64, more: usize) -> Result<(), NoMemory>
        ensures kept { (other : ℕ) → KeepsNames (index_of self.old other) (index_of self.new other) }
        ensures room { OnOk result (more ≤ (index_of self.new dir).room) }
    {
        match place_of(self.places.as_slice(), dir) {
            Ok(place) => reserve_at(&mut self.indexes, &self.places, dir, place, more),
            Err(place) => {
                let mut index = Directory::new(self.alloc);
                index.reserve(more)?;
                self.places.reserve(1)?;
                self.indexes.reserve(1)?;
                insert_at(&mut self.places, &mut self.indexes, dir, place, index);
                Ok(())
            }
        }
    }

    // The index of a directory.
    fn get(&self, dir: u64) -> Option<&Directory>
        ensures { option_copied result ≡ row_of self.now dir }
    {
        match place_of(self.places.as_slice(), dir) {
            Ok(place) => self.indexes.get(self.places.at(place).1),
            Err(_) => None,
        }
    }

    /// The link of this name in this directory.
    pub fn child(
        &self,
        links: &Table<LinkRow>,
        table: &UpcaseTable,
        dir: u64,
        units: &[u16],
    ) -> Option<u64>
        requires { AreByDirectory table.now links.now.rows self.now }
        ensures { result ≡ option_map (λ entry. entry.0) (find (λ entry. is_named table.now dir units.now entry.1) links.now.rows) }
    {
        let _ = links.len();
        match self.get(dir) {
            None => None,
            Some(index) => index.get(links, table, units),
        }
    }

    /// The numbers of the links of a directory whose names are greater than that one, in the order of names; of all of
    /// them where there is no name.
    pub fn children_after(
        &self,
        links: &Table<LinkRow>,
        table: &UpcaseTable,
        dir: u64,
        after: Option<&[u16]>,
    ) -> &[u64]
        requires { AreByDirectory table.now links.now.rows self.now }
        ensures { result.now ≡ map (λ entry. entry.0) (links_after table.now dir (option_copied after.entry) links.now.rows) }
    {
        let _ = links.len();
        match self.get(dir) {
            None => &[],
            Some(index) => index.after(links, table, after),
        }
    }

    /// Of the numbers that `children_after` gives those of links whose names begin with these units, in the same order.
    pub fn children_beginning(
        &self,
        links: &Table<LinkRow>,
        table: &UpcaseTable,
        dir: u64,
        after: Option<&[u16]>,
        units: &[u16],
    ) -> &[u64]
        requires { AreByDirectory table.now links.now.rows self.now }
        ensures { result.now ≡ map (λ entry. entry.0) (filter (λ entry. begins_with table.now units.now entry.1.name) (links_after table.now dir (option_copied after.entry) links.now.rows)) }
    {
        let _ = links.len();
        match self.get(dir) {
            None => &[],
            Some(index) => index.beginning(links, table, after, units),
        }
    }

    /// Puts in the number of a link of a new name, which is then added to its table last. There has to be room for it
    /// in its directory.
    pub fn add(
        &mut self,
        links: &Table<LinkRow>,
        table: &UpcaseTable,
        id: u64,
        dir: u64,
        units: &[u16],
    )
        requires room { 1 ≤ (index_of self.old dir).room }
        requires by_name { AreByDirectory table.now links.now.rows self.old }
        requires is_new { option_map (λ entry. entry.0) (find (λ entry. is_named table.now dir units.now entry.1) links.now.rows) ≡ None }
        ensures by_name { (file : ℕ) (deleted : Bool) → AreByDirectory table.now (links.now.rows ++ (id, record { parent = dir; name = units.now; file = file; deleted = deleted }) ∷ []) self.new }
        ensures left { (index_of self.old dir).room ≤ (index_of self.new dir).room + 1 }
        ensures others { (other : ℕ) → (other == dir) ≡ false → index_of self.new other ≡ index_of self.old other }
    {
        let _ = links.len();
        self.put(links, table, id, dir, units);
    }

    /// Gives the number of a link, which lives and still has its old name in its table, the place of another name.
    /// There has to be room for it in the directory of that name.
    pub fn move_to(
        &mut self,
        links: &Table<LinkRow>,
        table: &UpcaseTable,
        id: u64,
        dir: u64,
        units: &[u16],
    )
        requires room { 1 ≤ (index_of self.old dir).room }
        requires by_name { AreByDirectory table.now links.now.rows self.old }
        requires lives { is_some (row_of links.now.rows id) ≡ true }
        requires free { list_any (λ entry. not (entry.0 == id) && is_named table.now dir units.now entry.1) links.now.rows ≡ false }
        ensures by_name { AreByDirectory table.now (with_row_changed (λ row. record row { parent = dir; name = units.now }) links.now.rows id) self.new }
        ensures left { (index_of self.old dir).room ≤ (index_of self.new dir).room + 1 }
        ensures kept { (other : ℕ) → (other == dir) ≡ false → (index_of self.old other).room ≤ (index_of self.new other).room }
    {
        let _ = links.len();
        self.take(links, table, id);
        self.put(links, table, id, dir, units);
    }

    /// Takes the number of a link out, which is still in its table.
    pub fn take(&mut self, links: &Table<LinkRow>, table: &UpcaseTable, id: u64)
        requires { AreByDirectory table.now links.now.rows self.old }
        ensures by_name { AreByDirectory table.now (without_row links.now.rows id) self.new }
        ensures kept { (dir : ℕ) → (index_of self.old dir).room ≤ (index_of self.new dir).room }
    {
        let _ = links.len();
        match links.get(id) {
            None => {}
            Some(row) => self.take_name(links, table, row.parent, row.name.units()),
        }
    }

    /// May give up the index of a directory that has no names, and so its room.
    pub fn forget(&mut self, dir: u64)
        ensures numbers { (index_of self.new dir).numbers ≡ (index_of self.old dir).numbers }
        ensures heads { (index_of self.new dir).heads ≡ (index_of self.old dir).heads }
        ensures others { (other : ℕ) → (other == dir) ≡ false → index_of self.new other ≡ index_of self.old other }
    {
        if let Ok(place) = place_of(self.places.as_slice(), dir)
            && is_empty_at(&self.indexes, &self.places, dir, place)
        {
            take_out(&mut self.places, &mut self.indexes, dir, place);
        }
    }

    // Puts in the number of a link of a new name.
    fn put(&mut self, links: &Table<LinkRow>, table: &UpcaseTable, id: u64, dir: u64, units: &[u16])
        requires room { 1 ≤ (index_of self.old dir).room }
        requires ordered { AreInNameOrder table.now links.now.rows (index_of self.old dir) }
        requires is_new { All (λ entry. same_name table.now entry.1.name units.now ≡ false) (links_at links.now.rows (index_of self.old dir).numbers) }
        ensures put { IsNamePut table.now links.now.rows id units.now (index_of self.old dir) (index_of self.new dir) }
        ensures others { (other : ℕ) → (other == dir) ≡ false → index_of self.new other ≡ index_of self.old other }
    {
        let Ok(place) = place_of(self.places.as_slice(), dir) else {
            unreachable!()
        };
        let slot = self.places.at(place).1;
        put_in(&mut self.indexes, slot, links, table, id, units);
    }

    // Takes the number of the link of this name out.
    fn take_name(&mut self, links: &Table<LinkRow>, table: &UpcaseTable, dir: u64, units: &[u16])
        requires { AreInNameOrder table.now links.now.rows (index_of self.old dir) }
        ensures taken { IsNameTaken table.now links.now.rows units.now (index_of self.old dir) (index_of self.new dir) }
        ensures others { (other : ℕ) → (other == dir) ≡ false → index_of self.new other ≡ index_of self.old other }
    {
        if let Ok(place) = place_of(self.places.as_slice(), dir) {
            let slot = self.places.at(place).1;
            take_in(&mut self.indexes, slot, links, table, units);
        }
    }
}

// The place of a directory, or where it would stand, by binary search.
fn place_of(places: &[(u64, usize)], dir: u64) -> Result<usize, usize>
    requires rising { AllPairs (λ a b. a.0 < b.0) places.now }
    ensures there { IfOk result (λ place. IsAt places.now dir place) }
    ensures missing { IfErr result (λ place. StandsAt places.now dir place) }
{
    places.binary_search_by_key(&dir, |entry| entry.0)
}

// Takes room for `more` numbers in the index of the directory at a place.
fn reserve_at(
    indexes: &mut Slab<Directory>,
    places: &ShiftList<(u64, usize)>,
    dir: u64,
    place: usize,
    more: usize,
) -> Result<(), NoMemory>
    requires placed { ArePlaced (get indexes.old) places.now.items (2 ^ 64) }
    requires there { IsAt places.now.items dir place }
    ensures placed { ArePlaced (get indexes.new) places.now.items (2 ^ 64) }
    ensures kept { (other : ℕ) → KeepsNames (index_of (rows_in indexes.old places.now.items) other) (index_of (rows_in indexes.new places.now.items) other) }
    ensures room { OnOk result (more ≤ (index_of (rows_in indexes.new places.now.items) dir).room) }
{
    let slot = places.at(place).1;
    reserve_in(indexes, slot, more)
}

// Takes room for `more` numbers in the index in a slot.
fn reserve_in(indexes: &mut Slab<Directory>, slot: usize, more: usize) -> Result<(), NoMemory>
    requires { ContainsKey indexes.old slot }
    ensures updates { Updates indexes.old indexes.new slot (Some (index_at indexes.new slot)) }
    ensures kept { KeepsNames (index_at indexes.old slot) (index_at indexes.new slot) }
    ensures room { OnOk result (more ≤ (index_at indexes.new slot).room) }
{
    indexes[slot].reserve(more)
}

// Puts the index of a directory that has none in, where it would stand.
fn insert_at(
    places: &mut ShiftList<(u64, usize)>,
    indexes: &mut Slab<Directory>,
    dir: u64,
    place: usize,
    index: Directory,
)
    requires placed { ArePlaced (get indexes.old) places.old.items (2 ^ 64) }
    requires missing { StandsAt places.old.items dir place }
    requires room { 1 ≤ places.old.room }
    requires slots { HasRoomFor indexes.old 1 }
    ensures placed { ArePlaced (get indexes.new) places.new.items (2 ^ 64) }
    ensures here { index_of (rows_in indexes.new places.new.items) dir ≡ index }
    ensures none { index_of (rows_in indexes.old places.old.items) dir ≡ record { numbers = []; heads = []; room = 0 } }
    ensures others { (other : ℕ) → (other == dir) ≡ false → index_of (rows_in indexes.new places.new.items) other ≡ index_of (rows_in indexes.old places.old.items) other }
{
    let slot = indexes.insert_reserved(index);
    places.insert(place, (dir, slot));
}

// Puts a number in the index in a slot.
fn put_in(
    indexes: &mut Slab<Directory>,
    slot: usize,
    links: &Table<LinkRow>,
    table: &UpcaseTable,
    id: u64,
    units: &[u16],
)
    requires there { ContainsKey indexes.old slot }
    requires room { 1 ≤ (index_at indexes.old slot).room }
    requires ordered { AreInNameOrder table.now links.now.rows (index_at indexes.old slot) }
    requires is_new { All (λ entry. same_name table.now entry.1.name units.now ≡ false) (links_at links.now.rows (index_at indexes.old slot).numbers) }
    ensures updates { Updates indexes.old indexes.new slot (Some (index_at indexes.new slot)) }
    ensures put { IsNamePut table.now links.now.rows id units.now (index_at indexes.old slot) (index_at indexes.new slot) }
{
    indexes[slot].insert(links, table, id, units);
}

// Takes the number of the link of this name out of the index in a slot.
fn take_in(
    indexes: &mut Slab<Directory>,
    slot: usize,
    links: &Table<LinkRow>,
    table: &UpcaseTable,
    units: &[u16],
)
    requires there { ContainsKey indexes.old slot }
    requires ordered { AreInNameOrder table.now links.now.rows (index_at indexes.old slot) }
    ensures updates { Updates indexes.old indexes.new slot (Some (index_at indexes.new slot)) }
    ensures taken { IsNameTaken table.now links.now.rows units.now (index_at indexes.old slot) (index_at indexes.new slot) }
{
    let _ = indexes[slot].remove(links, table, units);
}

// True only where the index of the directory at a place has no numbers.
fn is_empty_at(
    indexes: &Slab<Directory>,
    places: &ShiftList<(u64, usize)>,
    dir: u64,
    place: usize,
) -> bool
    requires placed { ArePlaced (get indexes.now) places.now.items (2 ^ 64) }
    requires there { IsAt places.now.items dir place }
    ensures numbers { result ≡ true → (index_of (rows_in indexes.now places.now.items) dir).numbers ≡ [] }
    ensures heads { result ≡ true → (index_of (rows_in indexes.now places.now.items) dir).heads ≡ [] }
{
    indexes[places.at(place).1].is_empty()
}

// Takes the index of the directory at a place out.
fn take_out(
    places: &mut ShiftList<(u64, usize)>,
    indexes: &mut Slab<Directory>,
    dir: u64,
    place: usize,
)
    requires placed { ArePlaced (get indexes.old) places.old.items (2 ^ 64) }
    requires there { IsAt places.old.items dir place }
    ensures placed { ArePlaced (get indexes.new) places.new.items (2 ^ 64) }
    ensures none { index_of (rows_in indexes.new places.new.items) dir ≡ record { numbers = []; heads = []; room = 0 } }
    ensures others { (other : ℕ) → (other == dir) ≡ false → index_of (rows_in indexes.new places.new.items) other ≡ index_of (rows_in indexes.old places.old.items) other }
{
    let slot = places.remove(place).1;
    let _ = indexes.remove(slot);
}
