//! What goes when it is marked for deletion and has no handle.

ghost use Rattle.std.specs.Prelude.{◌≡◌, ◌≤◌, ◌+◌, ◌==◌, ◌&&◌, not, true, false, Some, None, IfSome, length};
ghost use Rattle.std.specs.Option.{option_map_or};
ghost use Rattle.fsa_types.specs.Rows.{row_of};
ghost use Rattle.fsa_model.specs.Changes.{units_noted, dirs_noted};
ghost use Rattle.fsa_model.specs.Close.{is_link_over, is_stream_over, name_bit, with_link_swept, with_stream_swept, with_swept};
ghost use Rattle.fsa_model.specs.Lookups.{has_child, has_row, is_on, is_open_by, is_open_on};
ghost use Rattle.op_delete.specs.Room.{HasSweepRoom, KeepsRoom, NotesTakeNoMore, stream_dirs, stream_units};

use bitflags::Flags;
use fsa_types::{FILE_ACTION_REMOVED, FILE_ACTION_REMOVED_STREAM, NotifyFilter};
use op_parts::{is_any_open, is_link_marked, is_marked, name_bit};
use volume_state::{HandleRow, HandleSet, Volume};

// Whether a stream is marked and has no handle.
fn is_stream_over(volume: &Volume, stream: u64) -> bool
    ensures over { result ≡ is_stream_over volume.now.content stream }
    ensures unopened { result ≡ true → has_row (is_open_on stream) volume.now.content.handles ≡ false }
{
    is_marked(volume, stream) && !is_any_open(volume, HandleSet::Stream(stream))
}

// A stream that is marked and has no handle is noted, under this link, and taken out.
fn sweep_stream(volume: &mut Volume, link: u64, stream: u64)
    requires changes { 1 ≤ volume.old.spare.changes }
    requires units { units_noted volume.old.content link (Some stream) ≤ volume.old.spare.units }
    requires dirs { dirs_noted volume.old.content link (Some stream) ≤ volume.old.spare.dirs }
    ensures content { volume.new.content ≡ with_stream_swept volume.old.content link stream }
    ensures rest { volume.new.content ≡ record volume.old.content { streams = volume.new.content.streams; changes = volume.new.content.changes } }
    ensures others { volume.new.spare ≡ record volume.old.spare { streams = volume.new.spare.streams; bytes = volume.new.spare.bytes; changes = volume.new.spare.changes; units = volume.new.spare.units; dirs = volume.new.spare.dirs } }
    ensures changes { volume.old.spare.changes ≤ volume.new.spare.changes + 1 }
    ensures units { volume.old.spare.units ≤ volume.new.spare.units + units_noted volume.old.content link (Some stream) }
    ensures dirs { volume.old.spare.dirs ≤ volume.new.spare.dirs + dirs_noted volume.old.content link (Some stream) }
    ensures notes { NotesTakeNoMore volume.old.content volume.new.content }
{
    if is_stream_over(volume, stream) {
        let filter = NotifyFilter::STREAM_NAME.bits();
        volume.note(link, FILE_ACTION_REMOVED_STREAM, filter, Some(stream));
        volume.drop_stream(stream);
    }
}

// The same of the stream of a handle, where it has one.
fn sweep_own_stream(volume: &mut Volume, handle: &HandleRow)
    requires changes { 1 ≤ volume.old.spare.changes }
    requires units { stream_units volume.old.content handle.now ≤ volume.old.spare.units }
    requires dirs { stream_dirs volume.old.content handle.now ≤ volume.old.spare.dirs }
    ensures content { volume.new.content ≡ option_map_or (λ stream. with_stream_swept volume.old.content handle.now.link stream) handle.now.stream volume.old.content }
    ensures rest { volume.new.content ≡ record volume.old.content { streams = volume.new.content.streams; changes = volume.new.content.changes } }
    ensures others { volume.new.spare ≡ record volume.old.spare { streams = volume.new.spare.streams; bytes = volume.new.spare.bytes; changes = volume.new.spare.changes; units = volume.new.spare.units; dirs = volume.new.spare.dirs } }
    ensures changes { volume.old.spare.changes ≤ volume.new.spare.changes + 1 }
    ensures units { volume.old.spare.units ≤ volume.new.spare.units + stream_units volume.old.content handle.now }
    ensures dirs { volume.old.spare.dirs ≤ volume.new.spare.dirs + stream_dirs volume.old.content handle.now }
    ensures notes { NotesTakeNoMore volume.old.content volume.new.content }
{
    if let Some(stream) = handle.stream {
        sweep_stream(volume, handle.link, stream);
    }
}

// Whether a link is marked and has no handle.
fn is_link_over(volume: &Volume, link: u64) -> bool
    ensures over { result ≡ is_link_over volume.now.content link }
    ensures empty { result ≡ true → IfSome (row_of volume.now.content.links link) (λ row. has_child volume.now.content.links row.file ≡ false) }
    ensures unopened { result ≡ true → has_row (is_open_by link) volume.now.content.handles ≡ false }
{
    is_link_marked(volume, link) && !is_any_open(volume, HandleSet::Link(link))
}

// A link that is marked and has no handle is noted and taken out, and with a file's last link the file.
fn sweep_link(volume: &mut Volume, link: u64)
    requires changes { 1 ≤ volume.old.spare.changes }
    requires units { units_noted volume.old.content link None ≤ volume.old.spare.units }
    requires dirs { dirs_noted volume.old.content link None ≤ volume.old.spare.dirs }
    ensures content { volume.new.content ≡ with_link_swept volume.old.content link }
    ensures rest { volume.new.content ≡ record volume.old.content { files = volume.new.content.files; links = volume.new.content.links; streams = volume.new.content.streams; changes = volume.new.content.changes } }
    ensures kept { volume.new.spare.ends ≡ volume.old.spare.ends }
    ensures pending_kept { volume.new.spare.pending ≡ volume.old.spare.pending }
    ensures changes { volume.old.spare.changes ≤ volume.new.spare.changes + 1 }
    ensures units { volume.old.spare.units ≤ volume.new.spare.units + units_noted volume.old.content link None }
    ensures dirs { volume.old.spare.dirs ≤ volume.new.spare.dirs + dirs_noted volume.old.content link None }
    ensures notes { NotesTakeNoMore volume.old.content volume.new.content }
{
    if is_link_over(volume, link) {
        let bit = name_bit(volume, link);
        volume.note(link, FILE_ACTION_REMOVED, bit, None);
        volume.drop_link(link);
    }
}

/// What a handle that is gone was the last one of goes, where it is marked: its stream, and then its link,
/// each noted before. Room for two notes has to be there.
pub fn sweep(volume: &mut Volume, handle: &HandleRow)
    requires room { HasSweepRoom volume.old.content volume.old.spare handle.now }
    ensures content { volume.new.content ≡ with_swept volume.old.content handle.now }
    ensures rest { volume.new.content ≡ record volume.old.content { files = volume.new.content.files; links = volume.new.content.links; streams = volume.new.content.streams; changes = volume.new.content.changes } }
    ensures kept { volume.new.spare.ends ≡ volume.old.spare.ends }
    ensures pending_kept { volume.new.spare.pending ≡ volume.old.spare.pending }
    ensures left { KeepsRoom volume.old.content handle.now volume.old.spare volume.new.spare }
    ensures notes { NotesTakeNoMore volume.old.content volume.new.content }
{
    sweep_own_stream(volume, handle);
    sweep_link(volume, handle.link);
}
