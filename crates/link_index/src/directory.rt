//! A directory's links in the order of their names.

ghost use Rattle.std.specs.Prelude.{ℕ, List, ◌≡◌, ◌≤◌, ◌+◌, ◌<◌, [], false, true, All, Err, IsOk, None, OnOk, Some, filter, find, length, map, option_map, slice_get};
ghost use Rattle.std.specs.List.Sorted.{IsBinarySearchResult, IsSearchInRange};
ghost use Rattle.std.specs.Option.{option_copied};
ghost use Rattle.std.specs.Ordering.{nat_cmp};
ghost use Rattle.fsa_types.specs.CaseTable.{cmp_name, same_name, upcased};
ghost use Rattle.fsa_model.specs.Volume.{Link};
ghost use Rattle.link_index.specs.Keyed.{AreInKeyOrder, IsKeyPlace};
ghost use Rattle.volume_rows.specs.Children.{is_name_after};
ghost use Rattle.link_index.specs.Beginnings.{begins_with, name_key};
ghost use Rattle.link_index.specs.Heads.{head_of, link_head};
ghost use Rattle.link_index.specs.Directory.{AreInNameOrder, IsBegin, IsNamePut, IsNameTaken, KeepsNames, link_numbered, links_at};

use crate::beginning::beginning_with;
use crate::head::head_of;
use fsa_types::{NoMemory, UpcaseTable};
use object_tables::{ShiftList, Table};
use std::alloc::Global;
use std::cmp::Ordering;
use std::marker::Model;
use volume_rows::LinkRow;

/// The links of a directory in the order of their upcased names, which differ: it is seen as the list of their numbers,
/// which with a table of links is one of numbers and links, beside the heads of their names and the room for more links.
/// The names stand in that table alone; among the heads a name is searched, so that few names are looked up.
pub struct Directory {
    numbers: ShiftList<u64>,
    // The first units of each name, packed.
    heads: ShiftList<u128>,
}

// One drop of the whole, so that it is one step at each end of a function that holds one.
impl Drop for Directory {
    fn drop(self) {
        let Directory {
            numbers: _,
            heads: _,
        } = self;
    }
}

impl Model for Directory {
    ghost use Rattle.std.specs.Prelude.{min};
    ghost use Rattle.link_index.specs.Directory.{DirectoryView};

    ghost Value = { DirectoryView };

    ghost view = { λ n. record { numbers = n.numbers.items; heads = n.heads.items; room = min n.numbers.room n.heads.room } };
}

impl Directory {
    /// A directory without links. It takes no memory.
    pub fn new(alloc: Global) -> Directory
        ensures numbers { result.numbers ≡ [] }
        ensures heads { result.heads ≡ [] }
    {
        Directory {
            numbers: ShiftList::new(alloc),
            heads: ShiftList::new(alloc),
        }
    }

    /// Takes room for `more` links beside those that are there. `NoMemory` where there is none.
    pub fn reserve(&mut self, more: usize) -> Result<(), NoMemory>
        ensures kept { KeepsNames self.old self.new }
        ensures room { OnOk result (more ≤ self.new.room) }
        ensures succeeds { more ≤ self.old.room → IsOk result }
    {
        self.numbers.reserve(more)?;
        self.heads.reserve(more)?;
        Ok(())
    }

    /// Whether there is no link.
    pub fn is_empty(&self) -> bool
        ensures none { result ≡ true → (self.now.numbers ≡ []) × (self.now.heads ≡ []) }
        ensures told { self.now.numbers ≡ [] → self.now.heads ≡ [] → result ≡ true }
    {
        self.numbers.len() == 0 && self.heads.len() == 0
    }

    /// The link of this name; `None` exactly where there is none. Names are the same where their upcased units are equal.
    pub fn get(&self, links: &Table<LinkRow>, upcase: &UpcaseTable, units: &[u16]) -> Option<u64>
        requires { AreInNameOrder upcase.now links.now.rows self.now }
        ensures { result ≡ option_map (λ entry. entry.0) (find (λ entry. same_name upcase.now entry.1.name units.now) (links_at links.now.rows self.now.numbers)) }
    {
        find_child(
            self.heads.as_slice(),
            self.numbers.as_slice(),
            links,
            upcase,
            units,
        )
    }

    /// The numbers of the links whose names are greater than that one, in the order of names; of all of them where
    /// there is no name.
    pub fn after(
        &self,
        links: &Table<LinkRow>,
        upcase: &UpcaseTable,
        after: Option<&[u16]>,
    ) -> &[u64]
        requires { AreInNameOrder upcase.now links.now.rows self.now }
        ensures { result.now ≡ map (λ entry. entry.0) (filter (λ entry. is_name_after upcase.now (option_copied after.entry) entry.1.name) (links_at links.now.rows self.now.numbers)) }
    {
        find_after(
            self.heads.as_slice(),
            self.numbers.as_slice(),
            links,
            upcase,
            after,
        )
    }

    /// Of the numbers that `after` gives those of links whose names begin with these units, in the same order.
    pub fn beginning(
        &self,
        links: &Table<LinkRow>,
        upcase: &UpcaseTable,
        after: Option<&[u16]>,
        units: &[u16],
    ) -> &[u64]
        requires { AreInNameOrder upcase.now links.now.rows self.now }
        ensures { result.now ≡ map (λ entry. entry.0) (filter (λ entry. begins_with upcase.now units.now entry.1.name) (filter (λ entry. is_name_after upcase.now (option_copied after.entry) entry.1.name) (links_at links.now.rows self.now.numbers))) }
    {
        beginning_with(self.after(links, upcase, after), links, upcase, units)
    }

    /// Puts in a link by its number and its name, which is new. The link may be added to its table later, as it has to be
    /// before the next call that takes the table. There has to be room for it. It takes no memory.
    pub fn insert(&mut self, links: &Table<LinkRow>, upcase: &UpcaseTable, id: u64, units: &[u16])
        requires room { 1 ≤ self.old.room }
        requires ordered { AreInNameOrder upcase.now links.now.rows self.old }
        requires is_new { All (λ entry. same_name upcase.now entry.1.name units.now ≡ false) (links_at links.now.rows self.old.numbers) }
        ensures put { IsNamePut upcase.now links.now.rows id units.now self.old self.new }

        // The links are in order, in a table that has those that were there and this one under its name.
        ensures still_ordered { (rows : List (ℕ × Link)) → links_at rows self.old.numbers ≡ links_at links.now.rows self.old.numbers → (link_numbered rows id).1.name ≡ units.now → AreInNameOrder upcase.now rows self.new }
    {
        let place = place_for(
            self.heads.as_slice(),
            self.numbers.as_slice(),
            links,
            upcase,
            units,
        );
        self.numbers.insert(place, id);
        self.heads.insert(place, head_of(upcase, units));
    }

    /// Takes the link of this name out and gives its number; `None` exactly where there is none. It takes no memory, and
    /// leaves its place as room.
    pub fn remove(
        &mut self,
        links: &Table<LinkRow>,
        upcase: &UpcaseTable,
        units: &[u16],
    ) -> Option<u64>
        requires { AreInNameOrder upcase.now links.now.rows self.old }
        ensures link { result ≡ option_map (λ entry. entry.0) (find (λ entry. same_name upcase.now entry.1.name units.now) (links_at links.now.rows self.old.numbers)) }
        ensures taken { IsNameTaken upcase.now links.now.rows units.now self.old self.new }
        ensures room { (id : ℕ) → result ≡ Some id → self.old.room + 1 ≤ self.new.room }
        ensures still_ordered { AreInNameOrder upcase.now links.now.rows self.new }
    {
        let found = place_of(
            self.heads.as_slice(),
            self.numbers.as_slice(),
            links,
            upcase,
            units,
        );
        match found {
            Err(_) => None,
            Ok(place) => {
                let _ = self.heads.remove(place);
                Some(self.numbers.remove(place))
            }
        }
    }
}

// The link of this name.
fn find_child(
    heads: &[u128],
    numbers: &[u64],
    links: &Table<LinkRow>,
    upcase: &UpcaseTable,
    units: &[u16],
) -> Option<u64>
    requires ordered { AreInKeyOrder (name_key upcase.now) (links_at links.now.rows numbers.now) }
    requires heads { heads.now ≡ map (link_head upcase.now) (links_at links.now.rows numbers.now) }
    ensures { result ≡ option_map (λ entry. entry.0) (find (λ entry. same_name upcase.now entry.1.name units.now) (links_at links.now.rows numbers.now)) }
{
    match place_of(heads, numbers, links, upcase, units) {
        Ok(place) => number_of(numbers, place),
        Err(_) => None,
    }
}

// The number at this place.
fn number_of(numbers: &[u64], place: usize) -> Option<u64>
    ensures { result ≡ slice_get numbers.now place }
{
    match numbers.get(place) {
        Some(id) => Some(*id),
        None => None,
    }
}

// The numbers of the links behind a name; without a name, of all of them.
fn find_after<'a>(
    heads: &[u128],
    numbers: &'a [u64],
    links: &Table<LinkRow>,
    upcase: &UpcaseTable,
    after: Option<&[u16]>,
) -> &'a [u64]
    requires ordered { AreInKeyOrder (name_key upcase.now) (links_at links.now.rows numbers.now) }
    requires heads { heads.now ≡ map (link_head upcase.now) (links_at links.now.rows numbers.now) }
    ensures { result.now ≡ map (λ entry. entry.0) (filter (λ entry. is_name_after upcase.now (option_copied after.entry) entry.1.name) (links_at links.now.rows numbers.now)) }
{
    &numbers[begin_of(heads, numbers, links, upcase, after)..]
}

// Where a new name stands.
fn place_for(
    heads: &[u128],
    numbers: &[u64],
    links: &Table<LinkRow>,
    upcase: &UpcaseTable,
    units: &[u16],
) -> usize
    requires ordered { AreInKeyOrder (name_key upcase.now) (links_at links.now.rows numbers.now) }
    requires heads { heads.now ≡ map (link_head upcase.now) (links_at links.now.rows numbers.now) }
    requires is_new { All (λ entry. same_name upcase.now entry.1.name units.now ≡ false) (links_at links.now.rows numbers.now) }
    ensures { IsKeyPlace (name_key upcase.now) (links_at links.now.rows numbers.now) (upcased upcase.now units.now) (Err result) }
{
    match place_of(heads, numbers, links, upcase, units) {
        Ok(place) => place,
        Err(place) => place,
    }
}

// The order of the name of a number's link and another one.
fn cmp_number(links: &Table<LinkRow>, upcase: &UpcaseTable, id: u64, units: &[u16]) -> Ordering
    ensures { result ≡ cmp_name upcase.now (link_numbered links.now.rows id).1.name units.now }
{
    match links.get(id) {
        None => upcase.cmp_name(&[], units),
        Some(row) => upcase.cmp_name(row.name.units(), units),
    }
}

// The place of a name, or where it would stand, by binary search among the heads.
fn place_of(
    heads: &[u128],
    numbers: &[u64],
    links: &Table<LinkRow>,
    upcase: &UpcaseTable,
    units: &[u16],
) -> Result<usize, usize>
    requires ordered { AreInKeyOrder (name_key upcase.now) (links_at links.now.rows numbers.now) }
    requires heads { heads.now ≡ map (link_head upcase.now) (links_at links.now.rows numbers.now) }
    ensures { IsKeyPlace (name_key upcase.now) (links_at links.now.rows numbers.now) (upcased upcase.now units.now) result }
{
    match search_heads(heads, head_of(upcase, units)) {
        Ok(place) => place_near(numbers, links, upcase, units, place),
        Err(place) => Err(place),
    }
}

// The place of a head, or where it would stand.
fn search_heads(heads: &[u128], head: u128) -> Result<usize, usize>
    ensures bound { IsSearchInRange result (length heads.now) }
    ensures position { IsBinarySearchResult (λ other. nat_cmp other head) heads.now result }
{
    heads.binary_search(&head)
}

// The place of a name whose head a link at this place has. Mostly the name is that link's; else it is searched among
// the rows.
fn place_near(
    numbers: &[u64],
    links: &Table<LinkRow>,
    upcase: &UpcaseTable,
    units: &[u16],
    place: usize,
) -> Result<usize, usize>
    requires ordered { AreInKeyOrder (name_key upcase.now) (links_at links.now.rows numbers.now) }
    requires within { place < length numbers.now }
    ensures { IsKeyPlace (name_key upcase.now) (links_at links.now.rows numbers.now) (upcased upcase.now units.now) result }
{
    match cmp_number(links, upcase, numbers[place], units) {
        Ordering::Equal => Ok(place),
        _ => place_among(numbers, links, upcase, units),
    }
}

// The place of a name, or where it would stand, by binary search among the rows.
fn place_among(
    numbers: &[u64],
    links: &Table<LinkRow>,
    upcase: &UpcaseTable,
    units: &[u16],
) -> Result<usize, usize>
    requires { AreInKeyOrder (name_key upcase.now) (links_at links.now.rows numbers.now) }
    ensures { IsKeyPlace (name_key upcase.now) (links_at links.now.rows numbers.now) (upcased upcase.now units.now) result }
{
    numbers.binary_search_by(|id| cmp_number(links, upcase, *id, units))
}

// Where the links behind a name begin; without a name all are behind it.
fn begin_of(
    heads: &[u128],
    numbers: &[u64],
    links: &Table<LinkRow>,
    upcase: &UpcaseTable,
    after: Option<&[u16]>,
) -> usize
    requires ordered { AreInKeyOrder (name_key upcase.now) (links_at links.now.rows numbers.now) }
    requires heads { heads.now ≡ map (link_head upcase.now) (links_at links.now.rows numbers.now) }
    ensures bound { result ≤ length numbers.now }
    ensures begin { IsBegin upcase.now (links_at links.now.rows numbers.now) (option_copied after.entry) result }
{
    match after {
        None => 0,
        Some(units) => begin_behind(heads, numbers, links, upcase, units),
    }
}

// Where those behind a name begin.
fn begin_behind(
    heads: &[u128],
    numbers: &[u64],
    links: &Table<LinkRow>,
    upcase: &UpcaseTable,
    units: &[u16],
) -> usize
    requires ordered { AreInKeyOrder (name_key upcase.now) (links_at links.now.rows numbers.now) }
    requires heads { heads.now ≡ map (link_head upcase.now) (links_at links.now.rows numbers.now) }
    ensures bound { result ≤ length numbers.now }
    ensures begin { IsBegin upcase.now (links_at links.now.rows numbers.now) (Some units.now) result }
{
    match place_of(heads, numbers, links, upcase, units) {
        Ok(place) => place + 1,
        Err(place) => place,
    }
}
