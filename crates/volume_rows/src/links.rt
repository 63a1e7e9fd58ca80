//! Links: the names of files in directories.

ghost use Rattle.std.specs.Prelude.{ℕ, ◌≡◌, ◌≤◌, ◌<◌, ◌+◌, ◌^◌, ◌++◌, ◌∷◌, [], ◌==◌, ◌&&◌, not, false, OnOk, length, filter, option_map, slice_get};
ghost use Rattle.std.specs.Option.{option_copied, option_map_or};
ghost use Rattle.fsa_types.specs.Rows.{row_of, without_row, with_row_changed, IsNumbered};
ghost use Rattle.fsa_model.specs.Lookups.{has_row, link_of_file};
ghost use Rattle.key_index.specs.RowsByKey.{IsIndexOf, row_passes};
ghost use Rattle.object_tables.specs.Next.{IsNext};
ghost use Rattle.volume_rows.specs.Links.{file_key};

use crate::rows::LinkRow;
use fsa_types::{Name, NoMemory};
use key_index::KeyIndex;
use object_tables::Table;
use std::alloc::Global;
use std::marker::Model;

/// Links under numbers that rise from 1, with room for more of them. The links of a file are found without a
/// look at the others.
pub struct LinksByFile {
    links: Table<LinkRow>,
    // The numbers of all links, under their files.
    files: KeyIndex,
    // How many more links were promised.
    room: usize,
}

// One drop of the whole, so that it is one step at each end of a function that holds one.
impl Drop for LinksByFile {
    fn drop(self) {
        let LinksByFile {
            links: _,
            files: _,
            room: _,
        } = self;
    }
}

impl Model for LinksByFile {
    ghost use Rattle.std.specs.Prelude.{◌≤◌};
    ghost use Rattle.key_index.specs.RowsByKey.{IsIndexOf};
    ghost use Rattle.volume_rows.specs.Links.{FileLinks, file_key};

    ghost Value = { FileLinks };

    ghost view = { λ l. record { rows = l.links.rows; last = l.links.last; room = l.room } };

    ghost invariant = { λ l. IsIndexOf file_key l.links.rows l.files.entries × l.room ≤ l.links.room × l.room ≤ l.files.room };
}

impl LinksByFile {
    /// No links, and no room. It takes no memory.
    pub fn new(alloc: Global) -> LinksByFile
        ensures { result ≡ record { rows = []; last = 0; room = 0 } }
    {
        LinksByFile {
            links: Table::new(alloc),
            files: KeyIndex::new(alloc),
            room: 0,
        }
    }

    /// Takes room for `more` links beside those that are there. `NoMemory` where there is none.
    pub fn reserve(&mut self, more: usize) -> Result<(), NoMemory>
        ensures rows { self.new ≡ record self.old { room = self.new.room } }
        ensures room { OnOk result (more ≤ self.new.room) }
        ensures kept { self.old.room ≤ self.new.room }
    {
        if more <= self.room {
            return Ok(());
        }
        self.links.reserve(more)?;
        self.files.reserve(more)?;
        self.room = more;
        Ok(())
    }

    /// Adds a link and gives its number, one more than the last one given. Room has to be reserved, and fewer
    /// than 2^64 - 1 numbers to be given so far.
    pub fn add(&mut self, row: LinkRow) -> u64
        requires room { 1 ≤ self.old.room }
        requires ids_left { self.old.last + 1 < 2 ^ 64 }
        ensures rows { self.new.rows ≡ self.old.rows ++ (self.old.last + 1, row) ∷ [] }
        ensures last { self.new.last ≡ self.old.last + 1 }
        ensures left { self.old.room ≡ self.new.room + 1 }
        ensures id { result ≡ self.old.last + 1 }
    {
        let id = self.links.last() + 1;
        self.files.add(row.file, id);
        let Ok(_) = self.links.add(row) else {
            unreachable!()
        };
        self.room -= 1;
        id
    }

    /// The links under their numbers.
    pub fn table(&self) -> &Table<LinkRow>
        ensures rows { result.now.rows ≡ self.now.rows }
        ensures last { result.now.last ≡ self.now.last }
    {
        &self.links
    }

    /// How many links there are.
    pub fn len(&self) -> usize
        ensures count { result ≡ length self.now.rows }
        ensures few { length self.now.rows + 1 < 2 ^ 64 }
    {
        self.links.len()
    }

    /// The least number above `after` that a link has; `None` exactly where there is none.
    pub fn next(&self, after: u64) -> Option<u64>
        ensures { IsNext self.now.rows after result }
    {
        self.links.next(after)
    }

    /// The link of this number; `None` exactly where there is none.
    pub fn get(&self, id: u64) -> Option<&LinkRow>
        ensures { option_copied result ≡ row_of self.now.rows id }
    {
        self.links.get(id)
    }

    /// The number of the first link of this file; `None` exactly where there is none.
    pub fn number_of(&self, file: u64) -> Option<u64>
        ensures { result ≡ option_map (λ entry. entry.0) (link_of_file self.now.rows file) }
    {
        self.files.first(file)
    }

    /// The first link of this file; `None` exactly where there is none.
    pub fn first_of(&self, file: u64) -> Option<&LinkRow>
        ensures { option_copied result ≡ option_map (λ entry. entry.1) (link_of_file self.now.rows file) }
    {
        let _numbered = self.links.len();
        match self.number_of(file) {
            None => None,
            Some(id) => self.links.get(id),
        }
    }

    /// Whether there is a link of this file.
    pub fn has_link_of(&self, file: u64) -> bool
        ensures { result ≡ has_row (λ link. link.file == file) self.now.rows }
    {
        self.number_of(file).is_some()
    }

    /// How many links of this file there are, marked or not.
    pub fn count_of(&self, file: u64) -> usize
        ensures count { result ≡ length (filter (λ entry. entry.1.file == file) self.now.rows) }
        ensures numbered { IsNumbered self.now.rows self.now.last }
    {
        let _numbered = self.links.len();
        self.files.of(file).len()
    }

    /// How many links of this file aren't marked for deletion.
    pub fn count_unmarked_of(&self, file: u64) -> usize
        ensures { result ≡ length (filter (λ entry. entry.1.file == file && not entry.1.deleted) self.now.rows) }
    {
        let _numbered = self.links.len();
        count_unmarked(&self.links, self.files.of(file))
    }

    /// Marks a link for deletion, or clears its mark; where there is no such link nothing changes.
    pub fn mark(&mut self, id: u64, deleted: bool)
        ensures { self.new ≡ record self.old { rows = with_row_changed (λ row. record row { deleted = deleted }) self.old.rows id } }
    {
        mark(&mut self.links, id, deleted);
    }

    /// Gives a link another name, in this directory or in another one; where there is no such link nothing
    /// changes.
    pub fn move_to(&mut self, id: u64, parent: u64, name: Name)
        ensures { self.new ≡ record self.old { rows = with_row_changed (λ row. record row { parent = parent; name = name }) self.old.rows id } }
    {
        move_to(&mut self.links, id, parent, name);
    }

    /// Takes the link of this number out; `None` exactly where there is none. It takes no memory, and leaves the
    /// room as it was.
    pub fn remove(&mut self, id: u64) -> Option<LinkRow>
        ensures row { result ≡ row_of self.old.rows id }
        ensures rows { self.new ≡ record self.old { rows = without_row self.old.rows id } }
    {
        remove(&mut self.links, &mut self.files, id)
    }
}

// Takes a link out, and its number.
fn remove(links: &mut Table<LinkRow>, files: &mut KeyIndex, id: u64) -> Option<LinkRow>
    ensures row { result ≡ row_of links.old.rows id }
    ensures rows { links.new.rows ≡ without_row links.old.rows id }
    ensures last { links.new.last ≡ links.old.last }
    ensures room { links.old.room ≤ links.new.room }
    ensures indexed { IsIndexOf file_key links.old.rows files.old.entries → IsIndexOf file_key links.new.rows files.new.entries }
    ensures kept { files.old.room ≤ files.new.room }
{
    let _numbered = links.len();
    match links.remove(id) {
        None => None,
        Some(row) => {
            files.remove(row.file, id);
            Some(row)
        }
    }
}

// Marks a link for deletion, or clears its mark.
fn mark(links: &mut Table<LinkRow>, id: u64, deleted: bool)
    ensures rows { links.new.rows ≡ with_row_changed (λ row. record row { deleted = deleted }) links.old.rows id }
    ensures last { links.new.last ≡ links.old.last }
    ensures room { links.new.room ≡ links.old.room }
{
    if let Some(row) = links.get_mut(id) {
        row.deleted = deleted;
    }
}

// Gives a link another name, in this directory or in another one.
fn move_to(links: &mut Table<LinkRow>, id: u64, parent: u64, name: Name)
    ensures rows { links.new.rows ≡ with_row_changed (λ row. record row { parent = parent; name = name }) links.old.rows id }
    ensures last { links.new.last ≡ links.old.last }
    ensures room { links.new.room ≡ links.old.room }
{
    if let Some(row) = links.get_mut(id) {
        row.parent = parent;
        row.name = name;
    }
}

// Whether the link of this number is there, and isn't marked.
fn is_unmarked_at(links: &Table<LinkRow>, id: u64) -> bool
    ensures { result ≡ option_map_or (λ row. not row.deleted) (row_of links.now.rows id) false }
{
    match links.get(id) {
        None => false,
        Some(row) => !row.deleted,
    }
}

// How many of these links aren't marked.
fn count_unmarked(links: &Table<LinkRow>, entries: &[(u64, u64)]) -> usize
    ensures { result ≡ length (filter (row_passes links.now.rows (λ entry. not entry.1.deleted)) entries.now) }
{
    entries
        .iter()
        .filter(|entry| is_unmarked_at(links, entry.1))
        .count()
}
