//! Reparse points, and the limits of owners.

ghost use Rattle.std.specs.Prelude.{◌≡◌, ◌≤◌, ◌+◌, ◌++◌, ◌∷◌, [], ◌==◌, not, length, filter, IfSome, option_and_then};
ghost use Rattle.std.specs.Option.{option_copied};
ghost use Rattle.fsa_types.specs.Rows.{row_of, with_row_changed};
ghost use Rattle.fsa_model.specs.Bounds.{most_point_bytes};
ghost use Rattle.fsa_model.specs.Edits.{with_limit, with_point};
ghost use Rattle.fsa_model.specs.Walk.{point_of};

use crate::volume::Volume;
use fsa_types::Bytes;
use object_tables::{SpareList, Table};
use volume_rows::FileRow;

impl Volume {
    /// The reparse point of a file, its tag and its bytes; `None` exactly where there is none.
    pub fn point(&self, file: u64) -> Option<&(u32, Bytes)>
        ensures point { option_copied result ≡ point_of self.now.content file }
        ensures few { IfSome result (λ point. length point.now.1 ≤ most_point_bytes) }
    {
        point_of(&self.files, file)
    }

    /// Sets the reparse point of a file, its tag and at most 16,376 bytes; `None` takes it away.
    pub fn set_reparse(&mut self, file: u64, point: Option<(u32, Bytes)>)
        requires few { IfSome point (λ kept. length kept.1 ≤ most_point_bytes) }
        ensures content { self.new.content ≡ with_point self.old.content file point }
        ensures beside { self.new.beside ≡ self.old.beside }
        ensures room { self.new.spare ≡ self.old.spare }
    {
        set_point(&mut self.files, file, point);
    }

    /// Sets how many bytes an owner may be charged, in place of an earlier limit of his.
    pub fn set_limit(&mut self, sid: u32, limit: u64)
        requires room { 1 ≤ self.old.spare.limits }
        ensures content { self.new.content ≡ with_limit self.old.content sid limit }
        ensures beside { self.new.beside ≡ self.old.beside }
        ensures others { self.new.spare ≡ record self.old.spare { limits = self.new.spare.limits } }
        ensures left { self.old.spare.limits ≤ self.new.spare.limits + 1 }
    {
        put_limit(&mut self.limits, sid, limit);
    }
}

// The reparse point of a file.
fn point_of(files: &Table<FileRow>, file: u64) -> Option<&(u32, Bytes)>
    ensures { option_copied result ≡ option_and_then (λ row. row.point) (row_of files.now.rows file) }
{
    match files.get(file) {
        None => None,
        Some(row) => row.point.as_ref(),
    }
}

// Sets the reparse point of a file.
fn set_point(files: &mut Table<FileRow>, file: u64, point: Option<(u32, Bytes)>)
    ensures rows { files.new.rows ≡ with_row_changed (λ row. record row { point = point }) files.old.rows file }
    ensures last { files.new.last ≡ files.old.last }
    ensures room { files.new.room ≡ files.old.room }
{
    if let Some(row) = files.get_mut(file) {
        row.set_point(point);
    }
}

// Whether a limit is this owner's.
fn is_limit_of(entry: &(u32, u64), sid: u32) -> bool
    ensures { result ≡ (entry.now.0 == sid) }
{
    entry.0 == sid
}

// Takes the limit of an owner out.
fn drop_limit(limits: &mut SpareList<(u32, u64)>, sid: u32)
    ensures items { limits.new.items ≡ filter (λ entry. not (entry.0 == sid)) limits.old.items }
    ensures room { limits.new.room ≡ limits.old.room }
{
    limits.retain(|entry| !is_limit_of(entry, sid));
}

// Puts the limit of an owner at the end, in place of an earlier one.
fn put_limit(limits: &mut SpareList<(u32, u64)>, sid: u32, limit: u64)
    requires { 1 ≤ limits.old.room }
    ensures items { limits.new.items ≡ filter (λ entry. not (entry.0 == sid)) limits.old.items ++ (sid, limit) ∷ [] }
    ensures left { limits.old.room ≤ limits.new.room + 1 }
{
    drop_limit(limits, sid);
    limits.push((sid, limit));
}
