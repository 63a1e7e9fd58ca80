//! Links: the names of files in directories.

ghost use Rattle.std.specs.Prelude.{ℕ, ◌≡◌, ◌≤◌, ◌<◌, ◌+◌, ◌-◌, ◌^◌, ◌==◌, ◌&&◌, not, IsTrue, IsSome, IfSome, Option, Some, None, true, false, length, option_map, find};
ghost use Rattle.std.specs.List.{list_any};
ghost use Rattle.std.specs.Option.{option_copied};
ghost use Rattle.fsa_types.specs.Rows.{row_of, lives, with_row_changed};
ghost use Rattle.fsa_model.specs.Changes.{units_noted, dirs_noted, stream_suffix};
ghost use Rattle.fsa_model.specs.Edits.{with_link, with_link_marked, with_link_moved, without_link};
ghost use Rattle.fsa_model.specs.Lookups.{child_of, dir_link, has_child, has_row, is_at_or_below, is_directory, is_named, is_open_by, link_of_file, linked_file, links_of};
ghost use Rattle.fsa_model.specs.Sound.{LeadsUp, is_link_of_directory};
ghost use Rattle.volume_state.specs.Living.{StaysWithout, is_link_to};
ghost use Rattle.volume_state.specs.Paths.{units_noted_in, dirs_in};
ghost use Rattle.volume_state.specs.VolumeView.{room_for};

use crate::growth::{part_of_file, resize};
use crate::volume::Volume;
use fsa_types::Name;
use volume_rows::{LinkRow, is_at_or_below};

impl Volume {
    /// The link of this number; `None` exactly where there is none.
    pub fn link(&self, id: u64) -> Option<&LinkRow>
        ensures row { option_copied result ≡ row_of self.now.content.links id }
        ensures file { IfSome result (λ row. IsTrue (lives self.now.content.files row.now.file)) }
        ensures parent { IfSome result (λ row. IsTrue (is_directory self.now.content.files row.now.parent)) }
        ensures leads { IfSome result (λ row. is_directory self.now.content.files row.now.file ≡ true → LeadsUp self.now.content.links row.now.file) }
        ensures not_root { IfSome result (λ row. (row.now.file == 1) ≡ false) }
        ensures linked { IfSome result (λ row. IsTrue (is_link_to self.now.content.links id row.now.file)) }
        ensures directory { IfSome result (λ row. is_directory self.now.content.files row.now.file ≡ true → IsTrue (is_link_of_directory self.now.content.files self.now.content.links id)) }
        ensures childless { IfSome result (λ row. is_directory self.now.content.files row.now.file ≡ false → has_child self.now.content.links row.now.file ≡ false) }
        ensures number { IfSome result (λ row. (id == 0) ≡ false) }
        ensures empty { IfSome result (λ row. row.now.deleted ≡ true → has_child self.now.content.links row.now.file ≡ false) }
        ensures lives { lives self.now.content.links id ≡ true → IsSome result }

        // A directory has no other link, so its mark is this one's.
        ensures mark { IfSome result (λ row. is_directory self.now.content.files row.now.file ≡ true → has_row (λ link. link.file == row.now.file && link.deleted) self.now.content.links ≡ row.now.deleted) }
    {
        self.links.get(id)
    }

    /// The link of the same name in this directory; `None` exactly where there is none.
    pub fn child(&self, parent: u64, units: &[u16]) -> Option<u64>
        ensures found { result ≡ child_of self.now.content parent units.now }
        ensures lives { IfSome result (λ id. IsTrue (lives self.now.content.links id)) }
    {
        self.links.child(parent, units)
    }

    /// The link of a directory; 0 for the root.
    pub fn dir_link(&self, dir: u64) -> u64
        ensures { result ≡ dir_link self.now.content dir }
    {
        self.links.by_file().number_of(dir).unwrap_or(0)
    }

    /// Whether some link, marked or not, has this parent.
    pub fn has_child(&self, dir: u64) -> bool
        ensures { result ≡ has_child self.now.content.links dir }
    {
        self.links.has_child(dir)
    }

    /// How many links of a file aren't marked for deletion, and how many there are.
    pub fn links_of(&self, file: u64) -> (u32, u32)
        ensures { result ≡ links_of self.now.content file }
    {
        let links = self.links.by_file();
        let unmarked = links.count_unmarked_of(file) as u32;
        (unmarked, links.count_of(file) as u32)
    }

    /// Whether a directory is that one or lies below it.
    pub fn is_at_or_below(&self, above: u64, dir: u64) -> bool
        ensures { result ≡ is_at_or_below self.now.content.links above dir }
    {
        is_at_or_below(self.links.by_file(), above, dir)
    }

    /// Adds a link of a file to a directory, and gives its number.
    pub fn add_link(&mut self, parent: u64, name: Name, file: u64) -> u64
        requires room { 1 ≤ room_for self.old.spare.links parent }
        requires ids_left { self.old.content.last_link + 1 < 2 ^ 32 - 1 }
        requires parent { IsTrue (is_directory self.old.content.files parent) }
        requires leads { LeadsUp self.old.content.links parent }
        requires unmarked { has_row (λ link. link.file == parent && link.deleted) self.old.content.links ≡ false }
        requires file { IsTrue (lives self.old.content.files file) }
        requires not_root { (file == 1) ≡ false }
        requires one_link { (is_directory self.old.content.files file && has_row (λ link. link.file == file) self.old.content.links) ≡ false }
        requires new { child_of self.old.content parent name ≡ None }
        ensures content { self.new.content ≡ with_link self.old.content parent name file }
        ensures beside { self.new.beside ≡ self.old.beside }
        ensures others { self.new.spare ≡ record self.old.spare { links = self.new.spare.links } }
        ensures left { room_for self.old.spare.links parent ≤ room_for self.new.spare.links parent + 1 }
        ensures kept { (dir : ℕ) → (dir == parent) ≡ false → room_for self.old.spare.links dir ≤ room_for self.new.spare.links dir }
        ensures id { result ≡ self.old.content.last_link + 1 }

        // It lives and is one of the file; a note of it takes the room that was told for the parent.
        ensures row { row_of self.new.content.links result ≡ Some (record { parent = parent; name = name; file = file; deleted = false }) }
        ensures lives { IsTrue (lives self.new.content.links result) }
        ensures linked { IsTrue (is_link_to self.new.content.links result file) }
        ensures directory { is_directory self.old.content.files file ≡ true → IsTrue (is_link_of_directory self.new.content.files self.new.content.links result) }
        ensures units { (stream : Option ℕ) → units_noted self.new.content result stream ≡ units_noted_in self.old.content parent (length name + length (stream_suffix self.new.content.streams stream)) }
        ensures dirs { (stream : Option ℕ) → dirs_noted self.new.content result stream ≡ dirs_in self.old.content parent }
    {
        let row = LinkRow {
            parent,
            name,
            file,
            deleted: false,
        };
        self.links.add(row)
    }

    /// Gives a link another name, in this directory or in another one. A directory may not go into itself, nor
    /// below itself, and no other link may have the name there. Of a link that isn't there nothing changes.
    pub fn move_link(&mut self, link: u64, parent: u64, name: Name)
        requires room { 1 ≤ room_for self.old.spare.links parent }
        requires parent { IsTrue (is_directory self.old.content.files parent) }
        requires leads { LeadsUp self.old.content.links parent }
        requires unmarked { has_row (λ link. link.file == parent && link.deleted) self.old.content.links ≡ false }
        requires not_below { (is_directory self.old.content.files (linked_file self.old.content link) && is_at_or_below self.old.content.links (linked_file self.old.content link) parent) ≡ false }
        requires free { IfSome (child_of self.old.content parent name) (λ other. IsTrue (other == link)) }
        ensures content { self.new.content ≡ with_link_moved self.old.content link parent name }
        ensures beside { self.new.beside ≡ self.old.beside }
        ensures others { self.new.spare ≡ record self.old.spare { links = self.new.spare.links } }
        ensures left { room_for self.old.spare.links parent ≤ room_for self.new.spare.links parent + 1 }
        ensures kept { (dir : ℕ) → (dir == parent) ≡ false → room_for self.old.spare.links dir ≤ room_for self.new.spare.links dir }

        // A note of it takes no more than the room that was told for the parent.
        ensures units { (stream : Option ℕ) → units_noted self.new.content link stream ≤ units_noted_in self.old.content parent (length name + length (stream_suffix self.old.content.streams stream)) }
        ensures dirs { (stream : Option ℕ) → dirs_noted self.new.content link stream ≤ dirs_in self.old.content parent }
    {
        self.links.move_to(link, parent, name);
    }

    /// Marks a link for deletion, or clears its mark. A directory that is marked has to be empty.
    pub fn mark_link(&mut self, link: u64, deleted: bool)
        requires empty { deleted ≡ true → IfSome (row_of self.old.content.links link) (λ row. has_child self.old.content.links row.file ≡ false) }
        ensures content { self.new.content ≡ with_link_marked self.old.content link deleted }
        ensures beside { self.new.beside ≡ self.old.beside }
        ensures room { self.new.spare ≡ self.old.spare }

        // A note takes the room that it took.
        ensures units { (other : ℕ) (stream : Option ℕ) → units_noted self.new.content other stream ≡ units_noted self.old.content other stream }
        ensures dirs { (other : ℕ) (stream : Option ℕ) → dirs_noted self.new.content other stream ≡ dirs_noted self.old.content other stream }
    {
        self.links.mark(link, deleted);
    }

    /// Takes a link out, and with a file's last link the file and its streams. A directory has to be
    /// empty, and no handle may be open by the link.
    pub fn drop_link(&mut self, link: u64)
        requires empty { IfSome (row_of self.old.content.links link) (λ row. has_child self.old.content.links row.file ≡ false) }
        requires unopened { has_row (is_open_by link) self.old.content.handles ≡ false }
        ensures content { self.new.content ≡ without_link self.old.content link }
        ensures beside { self.new.beside ≡ self.old.beside }
        ensures others { self.new.spare ≡ record self.old.spare { files = self.new.spare.files; links = self.new.spare.links; streams = self.new.spare.streams; bytes = self.new.spare.bytes } }
        ensures files_kept { self.old.spare.files ≤ self.new.spare.files }
        ensures links_kept { (dir : ℕ) → room_for self.old.spare.links dir ≤ room_for self.new.spare.links dir }
        ensures streams_kept { self.old.spare.streams ≤ self.new.spare.streams }
        ensures bytes_kept { (stream : ℕ) → lives self.new.content.streams stream ≡ true → row_of self.new.spare.bytes stream ≡ row_of self.old.spare.bytes stream }

        // A note takes no more room than it took.
        ensures units { (other : ℕ) (of : Option ℕ) → units_noted self.new.content other of ≤ units_noted self.old.content other of }
        ensures dirs { (other : ℕ) (of : Option ℕ) → dirs_noted self.new.content other of ≤ dirs_noted self.old.content other of }

        // Another link can go where it was.
        ensures stays { StaysWithout self.old.content self.new.content link }
    {
        let Some(row) = self.links.remove(link) else {
            return;
        };
        let file = row.file;
        if !self.links.by_file().has_link_of(file) {
            let part = part_of_file(&self.files, &self.streams, file);
            let _ = self.files.remove(file);
            self.streams.remove_all_of(file);
            resize(&mut self.space, part, 0);
        }
    }
}
