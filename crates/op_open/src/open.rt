//! The open of a file or a directory that is there.

ghost use Rattle.std.specs.Prelude.{◌≡◌, ◌<◌, ◌≤◌, ◌+◌, ◌-◌, ◌^◌, ◌==◌, not, None, Some, length};
ghost use Rattle.fsa_model.specs.Open.{file_attributes, open_directory, names_stream, open_existing, open_granted, open_stream, overwrite_action, overwrite_existing, overwrite_filters, stream_overwrite_filters, with_file_overwritten, with_open, with_overwrite_noted, with_overwritten};
ghost use Rattle.fsa_model.specs.Lookups.{handle_of};
ghost use Rattle.op_open.specs.Conditions.{HasOpenRoom, IsOpenBy, MayOpen};
ghost use Rattle.op_parts.specs.Room.{HasNoteRoom, noted_stream};
ghost use Rattle.volume_state.specs.Room.{KeepsEnds};
ghost use Rattle.volume_state.specs.Tried.{Leaves};

use crate::asked::{Asked, overwrites};
use crate::breaks::clashed;
use crate::ends::{open_handle, opens};
use crate::room::{room_to_open, room_to_overwrite};
use bitflags::Flags;
use fsa_types::{
    Action, BlockerList, Disposition, FILE_ACTION_MODIFIED, FILE_ACTION_MODIFIED_STREAM,
    FileAttributes, NotifyFilter, Status,
};
use op_parts::{
    access_time, break_for, creation_time, grants, held, is_readonly, kept_attributes, noted_stream,
};
use std::alloc::Global;
use volume_state::{Class, HandleSet, Tried, Volume};

/// The attributes of a file that is made or overwritten.
pub fn file_attributes(attributes: u32) -> u32
    ensures { result ≡ file_attributes attributes }
{
    kept_attributes(attributes) | FileAttributes::ARCHIVE.bits()
}

// The open goes on once the oplocks that an open breaks are broken.
#[tactic(auto, unfolding(fsa_model::specs::Open::open_existing))]
fn open_existing(
    volume: &mut Volume,
    asked: &Asked,
    link: u64,
    stream: Option<u64>,
    on: HandleSet,
    blockers: BlockerList,
) -> Tried
    requires may { MayOpen volume.old.content asked.now.client asked.now.number }
    requires living { IsOpenBy volume.old.content link stream }
    requires room { HasOpenRoom volume.old.content volume.old.spare blockers }
    ensures leaves { Leaves (open_existing volume.old.content asked.now link stream on) volume.old volume.new result }
{
    if !asked.wants_more() {
        open_handle(volume, asked, link, stream);
        return opens(Status::Success, Action::Opened);
    }
    let mut blockers = blockers;
    if !break_for(volume, on, Class::ReadOpen, None, asked.key, &mut blockers) {
        open_handle(volume, asked, link, stream);
        return opens(Status::Success, Action::Opened);
    }
    if asked.completes_if_oplocked() {
        open_handle(volume, asked, link, stream);
        return opens(Status::OplockBreakInProgress, Action::Opened);
    }
    held(blockers)
}

// What an open of this disposition has done to a stream that was there.
fn overwrite_action(disposition: Disposition) -> Action
    ensures { result ≡ overwrite_action disposition }
{
    match disposition {
        Disposition::Supersede => Action::Superseded,
        _ => Action::Overwritten,
    }
}

// A file is overwritten at this moment.
fn overwrite_file(volume: &mut Volume, file: u64, attributes: u32)
    ensures content { volume.new.content ≡ with_file_overwritten volume.old.content file attributes }
    ensures spare { volume.new.spare ≡ volume.old.spare }
{
    let creation = creation_time(volume, file);
    let access = access_time(volume, file);
    let now = volume.clock();
    volume.set_basic(file, creation, access, now, now, attributes);
}

// The filters of an overwrite of a default stream.
fn overwrite_filters() -> u32
    ensures { result ≡ overwrite_filters }
{
    NotifyFilter::ATTRIBUTES.bits() | NotifyFilter::SIZE.bits() | NotifyFilter::LAST_WRITE.bits()
}

// The filters of an overwrite of a named stream.
fn stream_overwrite_filters() -> u32
    ensures { result ≡ stream_overwrite_filters }
{
    NotifyFilter::STREAM_SIZE.bits() | NotifyFilter::STREAM_WRITE.bits()
}

// An overwrite is noted.
fn note_overwrite(volume: &mut Volume, link: u64, stream: u64, named: bool)
    requires room { HasNoteRoom volume.old.content volume.old.spare link (noted_stream stream named) }
    ensures content { volume.new.content ≡ with_overwrite_noted volume.old.content link stream named }
    ensures ends { KeepsEnds volume.old volume.new }
{
    if named {
        let filters = stream_overwrite_filters();
        volume.note(link, FILE_ACTION_MODIFIED_STREAM, filters, Some(stream));
        return;
    }
    volume.note(link, FILE_ACTION_MODIFIED, overwrite_filters(), None);
}

// A stream and its file are overwritten, and that is noted.
fn overwrite(volume: &mut Volume, asked: &Asked, link: u64, file: u64, stream: u64, named: bool)
    requires named { named ≡ names_stream asked.now.path }
    requires room { HasNoteRoom volume.old.content volume.old.spare link (noted_stream stream named) }
    ensures content { volume.new.content ≡ with_overwritten volume.old.content asked.now link file stream }
    ensures ends { KeepsEnds volume.old volume.new }
{
    note_overwrite(volume, link, stream, named);
    volume.set_length(stream, 0);
    overwrite_file(volume, file, file_attributes(asked.attributes));
}

// A stream is opened and overwritten.
fn open_overwritten(
    volume: &mut Volume,
    asked: &Asked,
    link: u64,
    file: u64,
    stream: u64,
    named: bool,
)
    requires ids_left { volume.old.content.last_handle + 1 < 2 ^ 32 - 1 }
    requires client { asked.now.client < length volume.old.content.clients }
    requires new { handle_of volume.old.content asked.now.client asked.now.number ≡ None }
    requires living { IsOpenBy volume.old.content link (Some stream) }
    requires named { named ≡ names_stream asked.now.path }
    requires room { 1 ≤ volume.old.spare.handles }
    requires note { HasNoteRoom volume.old.content volume.old.spare link (noted_stream stream named) }
    ensures content { volume.new.content ≡ with_overwritten (with_open volume.old.content asked.now link (Some stream)) asked.now link file stream }
    ensures ends { KeepsEnds volume.old volume.new }
{
    open_handle(volume, asked, link, Some(stream));
    overwrite(volume, asked, link, file, stream, named);
}

// A stream is overwritten and opened once the oplocks that a change breaks are broken.
#[tactic(auto, unfolding(fsa_model::specs::Open::overwrite_existing))]
fn overwrite_existing(
    volume: &mut Volume,
    asked: &Asked,
    link: u64,
    file: u64,
    stream: u64,
    named: bool,
    blockers: BlockerList,
) -> Tried
    requires may { MayOpen volume.old.content asked.now.client asked.now.number }
    requires living { IsOpenBy volume.old.content link (Some stream) }
    requires named { named ≡ names_stream asked.now.path }
    requires room { HasOpenRoom volume.old.content volume.old.spare blockers }
    requires note { HasNoteRoom volume.old.content volume.old.spare link (noted_stream stream named) }
    ensures leaves { Leaves (overwrite_existing volume.old.content asked.now link file stream) volume.old volume.new result }
{
    let mut blockers = blockers;
    let on = HandleSet::Stream(stream);
    if break_for(volume, on, Class::Change, None, asked.key, &mut blockers) {
        return held(blockers);
    }
    open_overwritten(volume, asked, link, file, stream, named);
    opens(Status::Success, overwrite_action(asked.disposition))
}

// Opens a directory that may be opened so. The room is taken.
#[tactic(auto, unfolding(fsa_model::specs::Open::open_granted))]
fn open_in_room(volume: &mut Volume, asked: &Asked, link: u64, blockers: BlockerList) -> Tried
    requires may { MayOpen volume.old.content asked.now.client asked.now.number }
    requires living { IsOpenBy volume.old.content link None }
    requires room { HasOpenRoom volume.old.content volume.old.spare blockers }
    ensures leaves { Leaves (open_granted volume.old.content asked.now link) volume.old volume.new result }
{
    let on = HandleSet::Link(link);
    if volume.clashes(on, asked.access(), asked.share) {
        return clashed(volume, on, asked.key, blockers);
    }
    open_existing(volume, asked, link, None, on, blockers)
}

// Opens a directory that may be opened so.
fn open_granted(alloc: Global, volume: &mut Volume, asked: &Asked, link: u64) -> Tried
    requires may { MayOpen volume.old.content asked.now.client asked.now.number }
    requires living { IsOpenBy volume.old.content link None }
    ensures leaves { Leaves (open_granted volume.old.content asked.now link) volume.old volume.new result }
{
    let Ok(blockers) = room_to_open(alloc, volume) else {
        return Tried::NoMemory;
    };
    open_in_room(volume, asked, link, blockers)
}

/// Opens a directory by this link.
#[tactic(auto, unfolding(fsa_model::specs::Open::open_directory))]
pub fn open_directory(
    alloc: Global,
    volume: &mut Volume,
    asked: &Asked,
    link: u64,
    file: u64,
) -> Tried
    requires may { MayOpen volume.old.content asked.now.client asked.now.number }
    requires living { IsOpenBy volume.old.content link None }
    ensures leaves { Leaves (open_directory volume.old.content asked.now link file) volume.old volume.new result }
{
    if !grants(volume, file, asked.client, asked.access()) {
        return Tried::ends(Status::AccessDenied);
    }
    if asked.deletes_on_close() && (link == 0 || is_readonly(volume, file)) {
        return Tried::ends(Status::CannotDelete);
    }
    open_granted(alloc, volume, asked, link)
}

/// Opens a stream of a file that may be opened so. Whether the path names a stream is given.
#[tactic(auto, unfolding(fsa_model::specs::Open::open_stream))]
pub fn open_stream(
    alloc: Global,
    volume: &mut Volume,
    asked: &Asked,
    link: u64,
    file: u64,
    stream: u64,
    named: bool,
) -> Tried
    requires may { MayOpen volume.old.content asked.now.client asked.now.number }
    requires living { IsOpenBy volume.old.content link (Some stream) }
    requires named { named ≡ names_stream asked.now.path }
    ensures leaves { Leaves (open_stream volume.old.content asked.now link file stream) volume.old volume.new result }
{
    let noted = noted_stream(stream, named);
    let Ok(blockers) = room_to_overwrite(alloc, volume, link, noted) else {
        return Tried::NoMemory;
    };
    let on = HandleSet::Stream(stream);
    if volume.clashes(on, asked.access(), asked.share) {
        return clashed(volume, on, asked.key, blockers);
    }
    if overwrites(asked.disposition) {
        return overwrite_existing(volume, asked, link, file, stream, named, blockers);
    }
    open_existing(volume, asked, link, Some(stream), on, blockers)
}
