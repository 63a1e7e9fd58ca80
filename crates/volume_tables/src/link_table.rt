//! The links of a volume, those of each directory in the order of their names, and the room for more of them there.

ghost use Rattle.std.specs.Prelude.{ℕ, ◌≡◌, ◌≤◌, ◌<◌, ◌+◌, ◌^◌, ◌++◌, ◌∷◌, ◌&&◌, not, [], ◌==◌, false, IsOk, None, OnOk, filter, find, map, option_map};
ghost use Rattle.std.specs.List.{list_any};
ghost use Rattle.std.specs.Option.{option_copied};
ghost use Rattle.fsa_types.specs.Rows.{row_of, without_row, with_row_changed};
ghost use Rattle.fsa_model.specs.Lookups.{has_child, is_named};
ghost use Rattle.object_tables.specs.Next.{IsNext};
ghost use Rattle.volume_rows.specs.Children.{links_after};
ghost use Rattle.link_index.specs.Beginnings.{begins_with};
ghost use Rattle.volume_tables.specs.Rooms.{room_in};

use crate::names_by_directory::NamesByDirectory;
use crate::room_list::RoomList;
use fsa_types::{Name, NoMemory, UpcaseTable};
use std::alloc::Global;
use std::marker::Model;
use volume_rows::{LinkRow, LinksByFile};

/// Links under numbers that rise from 1, and for each directory how many more can be added or moved to it
/// without taking memory. Adding to one directory leaves the room of the others. A name is found in its
/// directory, and where those that follow it begin, by binary search; names compare by the case table, and
/// those of one directory differ.
pub struct LinkTable {
    table: UpcaseTable,
    // Links by number and by file.
    links: LinksByFile,
    // The numbers of the links of each directory, in the order of their names.
    names: NamesByDirectory,
    // What was promised to each directory. The table has all of it, and the index of each directory its own.
    rooms: RoomList,
}

// One drop of the whole, so that it is one step at each end of a function that holds one.
impl Drop for LinkTable {
    fn drop(self) {
        let LinkTable {
            table: _,
            links: _,
            names: _,
            rooms: _,
        } = self;
    }
}

impl Model for LinkTable {
    ghost use Rattle.std.specs.Prelude.{ℕ, ◌≤◌};
    ghost use Rattle.volume_tables.specs.Directories.{AreByDirectory, index_of};
    ghost use Rattle.volume_tables.specs.LinkTable.{LinkRows};
    ghost use Rattle.volume_tables.specs.Rooms.{all_rooms, room_in};

    ghost Value = { LinkRows };

    ghost view = { λ t. record { table = t.table; rows = t.links.rows; last = t.links.last; rooms = t.rooms } };

    ghost invariant = { λ t. (all_rooms t.rooms ≤ t.links.room) × ((dir : ℕ) → room_in t.rooms dir ≤ (index_of t.names dir).room) × AreByDirectory t.table t.links.rows t.names };
}

impl LinkTable {
    /// A table without links and without room, whose names compare by this case table. It takes no memory.
    pub fn new(alloc: Global, table: UpcaseTable) -> LinkTable
        ensures table { result.table ≡ table }
        ensures rows { result.rows ≡ [] }
        ensures last { result.last ≡ 0 }
        ensures rooms { result.rooms ≡ [] }
    {
        LinkTable {
            table,
            links: LinksByFile::new(alloc),
            names: NamesByDirectory::new(alloc),
            rooms: RoomList::new(alloc),
        }
    }

    /// Sees to it that this directory has room for so many more links, those promised before among them. `NoMemory`
    /// where there is none; never where it has that room already.
    pub fn reserve(&mut self, dir: u64, links: usize) -> Result<(), NoMemory>
        ensures table { self.new.table ≡ self.old.table }
        ensures rows { self.new.rows ≡ self.old.rows }
        ensures last { self.new.last ≡ self.old.last }
        ensures room { OnOk result (links ≤ room_in self.new.rooms dir) }
        ensures succeeds { links ≤ room_in self.old.rooms dir → IsOk result }
        ensures kept { (other : ℕ) → room_in self.old.rooms other ≤ room_in self.new.rooms other }
    {
        if links <= self.rooms.room_in(dir) {
            return Ok(());
        }
        let Some(all) = self.rooms.all_with(dir, links) else {
            return Err(NoMemory);
        };
        self.links.reserve(all)?;
        self.names.reserve(dir, links)?;
        self.rooms.set(dir, links)
    }

    /// Adds a link to its parent and gives its number, one more than the last one given. Room has to
    /// be reserved there, fewer than 2^32 numbers to be given so far, and the name to be new there.
    pub fn add(&mut self, row: LinkRow) -> u64
        requires room { 1 ≤ room_in self.old.rooms row.parent }
        requires ids_left { self.old.last < 2 ^ 32 }
        requires is_new { option_map (λ entry. entry.0) (find (λ entry. is_named self.old.table row.parent row.name entry.1) self.old.rows) ≡ None }
        ensures table { self.new.table ≡ self.old.table }
        ensures rows { self.new.rows ≡ self.old.rows ++ (self.old.last + 1, row) ∷ [] }
        ensures last { self.new.last ≡ self.old.last + 1 }
        ensures left { room_in self.old.rooms row.parent ≤ room_in self.new.rooms row.parent + 1 }
        ensures others { (dir : ℕ) → (dir == row.parent) ≡ false → room_in self.new.rooms dir ≡ room_in self.old.rooms dir }
        ensures id { result ≡ self.old.last + 1 }
    {
        self.rooms.take_one(row.parent);
        let links = self.links.table();
        let id = links.last() + 1;
        let units = row.name.units();
        self.names.add(links, &self.table, id, row.parent, units);
        self.links.add(row)
    }

    /// The case table by which names compare.
    pub fn table(&self) -> &UpcaseTable
        ensures { result.now ≡ self.now.table }
    {
        &self.table
    }

    /// The link of this name in this directory; `None` exactly where there is none.
    pub fn child(&self, parent: u64, units: &[u16]) -> Option<u64>
        ensures { result ≡ option_map (λ entry. entry.0) (find (λ entry. is_named self.now.table parent units.now entry.1) self.now.rows) }
    {
        self.names
            .child(self.links.table(), &self.table, parent, units)
    }

    /// The numbers of the links of a directory, marked or not, whose names are greater than that one, in the order of
    /// names; of all of them where there is no name.
    pub fn children_after(&self, dir: u64, after: Option<&[u16]>) -> &[u64]
        ensures { result.now ≡ map (λ entry. entry.0) (links_after self.now.table dir (option_copied after.entry) self.now.rows) }
    {
        self.names
            .children_after(self.links.table(), &self.table, dir, after)
    }

    /// Of the numbers that `children_after` gives those of links whose names begin with these units, in the same order.
    pub fn children_beginning(&self, dir: u64, after: Option<&[u16]>, units: &[u16]) -> &[u64]
        ensures { result.now ≡ map (λ entry. entry.0) (filter (λ entry. begins_with self.now.table units.now entry.1.name) (links_after self.now.table dir (option_copied after.entry) self.now.rows)) }
    {
        self.names
            .children_beginning(self.links.table(), &self.table, dir, after, units)
    }

    /// Whether there is a link in this directory.
    pub fn has_child(&self, dir: u64) -> bool
        ensures { result ≡ has_child self.now.rows dir }
    {
        !self.children_after(dir, None).is_empty()
    }

    /// The least number above `after` that a link has; `None` exactly where there is none.
    pub fn next(&self, after: u64) -> Option<u64>
        ensures { IsNext self.now.rows after result }
    {
        self.links.next(after)
    }

    /// The links by their files, where the way from a directory up leads.
    pub fn by_file(&self) -> &LinksByFile
        ensures rows { result.now.rows ≡ self.now.rows }
        ensures last { result.now.last ≡ self.now.last }
    {
        &self.links
    }

    /// The link of this number; `None` exactly where there is none.
    pub fn get(&self, id: u64) -> Option<&LinkRow>
        ensures { option_copied result ≡ row_of self.now.rows id }
    {
        self.links.get(id)
    }

    /// Marks a link for deletion, or clears its mark.
    pub fn mark(&mut self, id: u64, deleted: bool)
        ensures table { self.new.table ≡ self.old.table }
        ensures rows { self.new.rows ≡ with_row_changed (λ row. record row { deleted = deleted }) self.old.rows id }
        ensures last { self.new.last ≡ self.old.last }
        ensures rooms { self.new.rooms ≡ self.old.rooms }
    {
        self.links.mark(id, deleted);
    }

    /// Gives a link another name, in this directory or in another one, which no other link has there. There has to be
    /// room for it there. It takes no memory, and no room of another directory. Of a link that isn't there nothing
    /// changes.
    pub fn move_to(&mut self, id: u64, parent: u64, name: Name)
        requires room { 1 ≤ room_in self.old.rooms parent }
        requires free { list_any (λ entry. not (entry.0 == id) && is_named self.old.table parent name entry.1) self.old.rows ≡ false }
        ensures table { self.new.table ≡ self.old.table }
        ensures rows { self.new.rows ≡ with_row_changed (λ row. record row { parent = parent; name = name }) self.old.rows id }
        ensures last { self.new.last ≡ self.old.last }
        ensures left { room_in self.old.rooms parent ≤ room_in self.new.rooms parent + 1 }
        ensures others { (dir : ℕ) → (dir == parent) ≡ false → room_in self.new.rooms dir ≡ room_in self.old.rooms dir }
    {
        if self.links.get(id).is_none() {
            return;
        }
        self.rooms.take_one(parent);
        self.names
            .move_to(self.links.table(), &self.table, id, parent, name.units());
        self.links.move_to(id, parent, name);
    }

    /// Takes the link of this number out; `None` exactly where there is none. It takes no memory, and
    /// leaves the room of each directory.
    pub fn remove(&mut self, id: u64) -> Option<LinkRow>
        ensures row { result ≡ row_of self.old.rows id }
        ensures table { self.new.table ≡ self.old.table }
        ensures rows { self.new.rows ≡ without_row self.old.rows id }
        ensures last { self.new.last ≡ self.old.last }
        ensures rooms { self.new.rooms ≡ self.old.rooms }
    {
        self.names.take(self.links.table(), &self.table, id);
        let gone = self.links.remove(id);
        if let Some(row) = &gone {
            self.forget(row.file);
        }
        gone
    }

    // Gives up the index of what may have been a directory, where it has no names and no room was promised to it.
    fn forget(&mut self, dir: u64)
        ensures { self.new ≡ self.old }
    {
        if self.rooms.room_in(dir) == 0 {
            self.names.forget(dir);
        }
    }
}
