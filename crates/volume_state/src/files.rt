//! Files and directories.

ghost use Rattle.std.specs.Prelude.{ℕ, List, ◌≡◌, ◌≤◌, ◌<◌, ◌+◌, ◌-◌, ◌^◌, ◌==◌, ◌&&◌, IsTrue, IsSome, IfSome, None, true, false, option_map};
ghost use Rattle.std.specs.Option.{option_copied};
ghost use Rattle.fsa_types.specs.Rows.{row_of, lives, with_row_changed};
ghost use Rattle.fsa_model.specs.Edits.{with_file, with_basic, with_owner, with_dacl};
ghost use Rattle.fsa_model.specs.Lookups.{has_row, is_directory, stream_of};
ghost use Rattle.fsa_model.specs.Sound.{LeadsUp, PointFits};
ghost use Rattle.volume_state.specs.VolumeView.{room_for};

use crate::growth::{hand_over, part_of_file};
use crate::volume::Volume;
use fsa_types::Dacl;
use object_tables::Table;
use volume_rows::FileRow;

impl Volume {
    /// The file number of the root directory. It has no link; 0, which stands for one, is no link's
    /// number.
    pub fn root(&self) -> u64
        ensures id { result ≡ 1 }
        ensures directory { IsTrue (is_directory self.now.content.files result) }
        ensures leads { LeadsUp self.now.content.links result }
        ensures no_link { row_of self.now.content.links 0 ≡ None }
        ensures unmarked { has_row (λ link. link.file == result && link.deleted) self.now.content.links ≡ false }
    {
        let _files = &self.files;
        1
    }

    /// The file or directory of this number; `None` exactly where there is none.
    pub fn file(&self, id: u64) -> Option<&FileRow>
        ensures row { option_copied result ≡ row_of self.now.content.files id }
        ensures lives { lives self.now.content.files id ≡ true → IsSome result }
        ensures directory { IfSome result (λ row. is_directory self.now.content.files id ≡ row.now.directory) }
    {
        self.files.get(id)
    }

    /// Adds a file or directory, and gives its number.
    pub fn add_file(&mut self, file: FileRow) -> u64
        requires room { 1 ≤ self.old.spare.files }
        requires owners { 1 ≤ self.old.spare.owners }
        requires ids_left { self.old.content.last_file + 1 < 2 ^ 32 - 1 }
        requires point { PointFits file }
        ensures content { self.new.content ≡ with_file self.old.content file }
        ensures beside { self.new.beside ≡ self.old.beside }
        ensures others { self.new.spare ≡ record self.old.spare { files = self.new.spare.files; owners = self.new.spare.owners; links = self.new.spare.links } }
        ensures left { self.old.spare.files ≤ self.new.spare.files + 1 }
        ensures owners_left { self.old.spare.owners ≤ self.new.spare.owners + 1 }
        ensures links_left { (dir : ℕ) → room_for self.old.spare.links dir ≤ room_for self.new.spare.links dir }
        ensures id { result ≡ self.old.content.last_file + 1 }

        // It lives, isn't the root, and has no link and no stream yet; directories stay what they are.
        ensures lives { IsTrue (lives self.new.content.files result) }
        ensures not_root { (result == 1) ≡ false }
        ensures directory { is_directory self.new.content.files result ≡ file.directory }
        ensures directories { (id : ℕ) → IsTrue (is_directory self.old.content.files id) → IsTrue (is_directory self.new.content.files id) }
        ensures unlinked { has_row (λ link. link.file == result) self.new.content.links ≡ false }
        ensures no_stream { (name : List ℕ) → stream_of self.new.content result name ≡ None }
    {
        self.space.admit(file.owner);
        let Ok(id) = self.files.add(file) else {
            unreachable!()
        };
        id
    }

    /// Sets the times, in ticks, and the attributes of a file.
    pub fn set_basic(
        &mut self,
        file: u64,
        creation: u64,
        access: u64,
        write: u64,
        change: u64,
        attributes: u32,
    )
        ensures content { self.new.content ≡ with_basic self.old.content file creation access write change attributes }
        ensures beside { self.new.beside ≡ self.old.beside }
        ensures room { self.new.spare ≡ self.old.spare }
    {
        set_basic(
            &mut self.files,
            file,
            creation,
            access,
            write,
            change,
            attributes,
        );
    }

    /// Sets the owner of a file.
    pub fn set_owner(&mut self, file: u64, owner: u32)
        requires owners { 1 ≤ self.old.spare.owners }
        ensures content { self.new.content ≡ with_owner self.old.content file owner }
        ensures beside { self.new.beside ≡ self.old.beside }
        ensures others { self.new.spare ≡ record self.old.spare { owners = self.new.spare.owners } }
        ensures left { self.old.spare.owners ≤ self.new.spare.owners + 1 }
    {
        let part = part_of_file(&self.files, &self.streams, file);
        self.space.admit(owner);
        hand_over(&mut self.space, part, owner);
        set_owner(&mut self.files, file, owner);
    }

    /// Sets the access list of a file; `None` takes it away.
    pub fn set_dacl(&mut self, file: u64, dacl: Option<Dacl>)
        ensures content { self.new.content ≡ with_dacl self.old.content file (option_map (λ list. list.items) dacl) }
        ensures beside { self.new.beside ≡ self.old.beside }
        ensures room { self.new.spare ≡ self.old.spare }
    {
        set_dacl(&mut self.files, file, dacl);
    }
}

// Sets the owner of a file.
fn set_owner(files: &mut Table<FileRow>, file: u64, owner: u32)
    ensures rows { files.new.rows ≡ with_row_changed (λ row. record row { owner = owner }) files.old.rows file }
    ensures last { files.new.last ≡ files.old.last }
    ensures room { files.new.room ≡ files.old.room }
{
    if let Some(row) = files.get_mut(file) {
        row.set_owner(owner);
    }
}

// Sets the access list of a file.
fn set_dacl(files: &mut Table<FileRow>, file: u64, dacl: Option<Dacl>)
    ensures rows { files.new.rows ≡ with_row_changed (λ row. record row { dacl = option_map (λ list. list.items) dacl }) files.old.rows file }
    ensures last { files.new.last ≡ files.old.last }
    ensures room { files.new.room ≡ files.old.room }
{
    if let Some(row) = files.get_mut(file) {
        row.set_dacl(dacl);
    }
}

// Sets the times and the attributes of a file.
fn set_basic(
    files: &mut Table<FileRow>,
    file: u64,
    creation: u64,
    access: u64,
    write: u64,
    change: u64,
    attributes: u32,
)
    ensures rows { files.new.rows ≡ with_row_changed (λ row. record row { creation = creation; access = access; write = write; change = change; attributes = attributes }) files.old.rows file }
    ensures last { files.new.last ≡ files.old.last }
    ensures room { files.new.room ≡ files.old.room }
{
    if let Some(row) = files.get_mut(file) {
        row.set_basic(creation, access, write, change, attributes);
    }
}
