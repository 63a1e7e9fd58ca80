//! What is marked for deletion, by DELETE_ON_CLOSE and by a SetDisposition.

ghost use Rattle.std.specs.Prelude.{◌≡◌, ◌≤◌, ◌==◌, not, true, false, length, IfSome, if◌then◌else◌};
ghost use Rattle.fsa_types.specs.Rows.{row_of};
ghost use Rattle.fsa_model.specs.Close.{is_link_of_parent, named_stream, with_mark_on_close};
ghost use Rattle.fsa_model.specs.Edits.{with_link_marked};
ghost use Rattle.fsa_model.specs.Lookups.{has_child};
ghost use Rattle.fsa_model.specs.SetDisposition.{marked_handles, with_mark};
ghost use Rattle.op_delete.specs.Room.{NotesTakeNoMore};

use op_parts::{is_link_of_parent, named_stream};
use volume_state::{HandleRow, HandleSet, Volume};

// Marks a link, unless it is that of a directory with a link in it.
fn mark_empty(volume: &mut Volume, link: u64)
    ensures content { volume.new.content ≡ (if is_link_of_parent volume.old.content link then volume.old.content else with_link_marked volume.old.content link true) }
    ensures rest { volume.new.content ≡ record volume.old.content { links = volume.new.content.links } }
    ensures room { volume.new.spare ≡ volume.old.spare }
    ensures notes { NotesTakeNoMore volume.old.content volume.new.content }
{
    if !is_link_of_parent(volume, link) {
        volume.mark_link(link, true);
    }
}

/// Marks what a handle that was opened with DELETE_ON_CLOSE is to delete: its stream, where it is a named
/// one, or else its link, unless that is a directory's with a link in it.
pub fn mark_on_close(volume: &mut Volume, handle: &HandleRow)
    ensures content { volume.new.content ≡ with_mark_on_close volume.old.content handle.now }
    ensures rest { volume.new.content ≡ record volume.old.content { links = volume.new.content.links; streams = volume.new.content.streams } }
    ensures room { volume.new.spare ≡ volume.old.spare }
    ensures notes { NotesTakeNoMore volume.old.content volume.new.content }
{
    if !handle.delete_on_close {
        return;
    }
    match named_stream(volume, handle) {
        Some(stream) => volume.mark_stream(stream, true),
        None => mark_empty(volume, handle.link),
    }
}

/// The handles of what a SetDisposition by this handle marks: of its stream, where it is a named one, or
/// else those that were opened by its link.
pub fn marked_handles(volume: &Volume, handle: &HandleRow) -> HandleSet
    ensures { result ≡ marked_handles volume.now.content handle.now }
{
    match named_stream(volume, handle) {
        Some(stream) => HandleSet::Stream(stream),
        None => HandleSet::Link(handle.link),
    }
}

/// Marks the stream of a handle, where it is a named one, or else its link, or clears that mark. A
/// directory that is marked has to be empty. The root has no link and no mark.
pub fn set_mark(volume: &mut Volume, handle: &HandleRow, delete: bool)
    requires empty { delete ≡ true → IfSome (row_of volume.old.content.links handle.now.link) (λ row. has_child volume.old.content.links row.file ≡ false) }
    ensures content { volume.new.content ≡ with_mark volume.old.content handle.now delete }
    ensures room { volume.new.spare ≡ volume.old.spare }
{
    match named_stream(volume, handle) {
        Some(stream) => volume.mark_stream(stream, delete),
        None => volume.mark_link(handle.link, delete),
    }
}
