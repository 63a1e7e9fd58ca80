//! A file, a directory or a stream that is made.

ghost use Rattle.std.specs.Prelude.{◌≡◌, ◌<◌, ◌≤◌, ◌+◌, ◌-◌, ◌^◌, ◌==◌, not, None, Some, true, false, [], length, IsTrue, IfSome, OnOk, OnErr};
ghost use Rattle.fsa_types.specs.CaseTable.{same_name};
ghost use Rattle.fsa_types.specs.Rows.{lives};
ghost use Rattle.fsa_model.specs.Lookups.{child_of, is_directory, stream_of};
ghost use Rattle.fsa_model.specs.Open.{create_missing, create_stream, make_directory, make_file, names_stream, new_file, only_opens, parent_right, stream_name, file_attributes, kept_attributes, with_new_directory, with_new_file, with_new_file_and_stream, with_new_stream};
ghost use Rattle.fsa_model.specs.Open.{opens as Opens};
ghost use Rattle.fsa_model.specs.Edits.{with_file, with_link};
ghost use Rattle.fsa_model.specs.Sound.{PointFits, is_link_of_directory};
ghost use Rattle.op_open.specs.Conditions.{MayOpen};
ghost use Rattle.volume_state.specs.Room.{KeepsEnds};
ghost use Rattle.volume_state.specs.VolumeView.{room_for};
ghost use Rattle.fsa_model.specs.Changes.{units_noted, dirs_noted};
ghost use Rattle.volume_state.specs.Living.{CanHold, is_link_to};
ghost use Rattle.volume_state.specs.Paths.{units_noted_in, dirs_in};
ghost use Rattle.volume_state.specs.Tried.{Leaves};
ghost use Rattle.fsa_types.specs.declared.reply.Action.TheVariants as action;
ghost use Rattle.fsa_types.specs.declared.status.Status.TheVariants as status;

use crate::asked::{Asked, has_attribute, only_opens};
use crate::ends::{open_handle, opens};
use crate::open::file_attributes;
use crate::opening::Opening;
use crate::rights::first_sid;
use bitflags::Flags;
use fsa_types::{
    AccessMask, Action, FILE_ACTION_ADDED, FILE_ACTION_ADDED_STREAM, FileAttributes, Name,
    NoMemory, NotifyFilter, Status,
};
use op_parts::{grants, is_readonly, kept_attributes};
use std::alloc::Global;
use volume_state::{FileRow, Need, Tried, Volume};

// A file or a directory as it is made at this moment.
fn new_file(volume: &Volume, asked: &Asked, directory: bool, attributes: u32) -> FileRow
    requires client { asked.now.client < length volume.now.content.clients }
    ensures { result ≡ new_file volume.now.content asked.now directory attributes }
{
    let now = volume.clock();
    FileRow {
        directory,
        attributes,
        creation: now,
        access: now,
        write: now,
        change: now,
        owner: first_sid(volume, asked.client),
        dacl: None,
        point: None,
    }
}

// The room for a file or a directory with its link, so many streams, a handle and a note.
fn need_to_make(volume: &Volume, dir: u64, name: u64, streams: u32) -> Option<Need>
    ensures units { IfSome result (λ need. need.units ≡ units_noted_in volume.now.content dir name) }
    ensures dirs { IfSome result (λ need. need.dirs ≡ dirs_in volume.now.content dir) }
    ensures rows { IfSome result (λ need. (need.files ≡ 1) × (need.links ≡ 1) × (need.parent ≡ dir) × (need.streams ≡ streams) × (need.handles ≡ 1) × (need.owners ≡ 1) × (need.changes ≡ 1)) }
{
    let note = volume.note_room_in(dir, name)?;
    Some(Need {
        files: 1,
        links: 1,
        streams,
        handles: 1,
        owners: 1,
        changes: 1,
        units: note.units,
        dirs: note.dirs,
        parent: dir,
        ..Need::nothing()
    })
}

// Puts a file or a directory under this name into a directory; gives the number of its link.
fn put_link(volume: &mut Volume, dir: u64, name: Name, file: FileRow) -> u64
    requires files { 1 ≤ volume.old.spare.files }
    requires owners { 1 ≤ volume.old.spare.owners }
    requires links { 1 ≤ room_for volume.old.spare.links dir }
    requires ids_left { (volume.old.content.last_file < 2 ^ 32 - 4) × (volume.old.content.last_link < 2 ^ 32 - 4) }
    requires point { PointFits file }
    requires holds { CanHold volume.old.content dir }
    requires new { child_of volume.old.content dir name ≡ None }
    ensures content { volume.new.content ≡ with_link (with_file volume.old.content file) dir name (volume.old.content.last_file + 1) }
    ensures others { volume.new.spare ≡ record volume.old.spare { files = volume.new.spare.files; owners = volume.new.spare.owners; links = volume.new.spare.links } }
    ensures link { result ≡ volume.old.content.last_link + 1 }
    ensures lives { IsTrue (lives volume.new.content.links result) }
    ensures directory { file.directory ≡ true → IsTrue (is_link_of_directory volume.new.content.files volume.new.content.links result) }
    ensures units { units_noted volume.new.content result None ≡ units_noted_in volume.old.content dir (length name) }
    ensures dirs { dirs_noted volume.new.content result None ≡ dirs_in volume.old.content dir }
{
    let made = volume.add_file(file);
    volume.add_link(dir, name, made)
}

// Puts a directory of this name into this one, opened and noted.
fn put_directory(
    volume: &mut Volume,
    asked: &Asked,
    dir: u64,
    name: Name,
    file: FileRow,
) -> Result<(), NoMemory>
    requires may { MayOpen volume.old.content asked.now.client asked.now.number }
    requires holds { CanHold volume.old.content dir }
    requires new { child_of volume.old.content dir name ≡ None }
    requires file { file ≡ new_file volume.old.content asked.now true (kept_attributes asked.now.attributes) }
    ensures done { OnOk result (volume.new.content ≡ with_new_directory volume.old.content asked.now dir name) }
    ensures refused { OnErr result (volume.new.content ≡ volume.old.content) }
    ensures ends { KeepsEnds volume.old volume.new }
{
    let units = name.units().len() as u64;
    let Some(need) = need_to_make(volume, dir, units, 0) else {
        return Err(NoMemory);
    };
    volume.reserve(&need)?;
    let link = put_link(volume, dir, name, file);
    open_handle(volume, asked, link, None);
    volume.note(link, FILE_ACTION_ADDED, NotifyFilter::DIR_NAME.bits(), None);
    Ok(())
}

// Makes a directory in this one and opens it.
#[tactic(auto, unfolding(fsa_model::specs::Open::make_directory))]
fn make_directory(
    alloc: Global,
    volume: &mut Volume,
    asked: &Asked,
    dir: u64,
    name: &[u16],
) -> Tried
    requires may { MayOpen volume.old.content asked.now.client asked.now.number }
    requires holds { CanHold volume.old.content dir }
    requires new { child_of volume.old.content dir name.now ≡ None }
    ensures leaves { Leaves (make_directory volume.old.content asked.now dir name.now) volume.old volume.new result }
{
    let Ok(name) = Name::copy_of(alloc, name) else {
        return Tried::NoMemory;
    };
    let file = new_file(volume, asked, true, kept_attributes(asked.attributes));
    match put_directory(volume, asked, dir, name, file) {
        Ok(()) => opens(Status::Success, Action::Created),
        Err(NoMemory) => Tried::NoMemory,
    }
}

// Puts a file of this name into this directory, its default stream opened, and the file noted.
fn put_file(
    volume: &mut Volume,
    asked: &Asked,
    dir: u64,
    name: Name,
    file: FileRow,
    stream: Name,
) -> Result<(), NoMemory>
    requires may { MayOpen volume.old.content asked.now.client asked.now.number }
    requires holds { CanHold volume.old.content dir }
    requires new { child_of volume.old.content dir name ≡ None }
    requires file { file ≡ new_file volume.old.content asked.now false (file_attributes asked.now.attributes) }
    requires default { stream ≡ [] }
    ensures done { OnOk result (volume.new.content ≡ with_new_file volume.old.content asked.now dir name) }
    ensures refused { OnErr result (volume.new.content ≡ volume.old.content) }
    ensures ends { KeepsEnds volume.old volume.new }
{
    let units = name.units().len() as u64;
    let Some(need) = need_to_make(volume, dir, units, 1) else {
        return Err(NoMemory);
    };
    volume.reserve(&need)?;
    let made = volume.add_file(file);
    let link = volume.add_link(dir, name, made);
    let of_file = volume.add_stream(made, stream);
    open_handle(volume, asked, link, Some(of_file));
    volume.note(
        link,
        FILE_ACTION_ADDED,
        NotifyFilter::FILE_NAME.bits(),
        None,
    );
    Ok(())
}

// Makes a file in this directory and opens its default stream.
fn make_plain_file(
    alloc: Global,
    volume: &mut Volume,
    asked: &Asked,
    dir: u64,
    name: &[u16],
) -> Tried
    requires may { MayOpen volume.old.content asked.now.client asked.now.number }
    requires holds { CanHold volume.old.content dir }
    requires new { child_of volume.old.content dir name.now ≡ None }
    ensures leaves { Leaves (Opens (with_new_file volume.old.content asked.now dir name.now) status.Success action.Created) volume.old volume.new result }
{
    let Ok(name) = Name::copy_of(alloc, name) else {
        return Tried::NoMemory;
    };
    let file = new_file(volume, asked, false, file_attributes(asked.attributes));
    let default = Name::from(Vec::new(alloc));
    match put_file(volume, asked, dir, name, file, default) {
        Ok(()) => opens(Status::Success, Action::Created),
        Err(NoMemory) => Tried::NoMemory,
    }
}

// The room for a file with a named stream, which is opened, and a note of each.
fn need_with_stream(volume: &Volume, dir: u64, name: u64, stream: u64) -> Option<Need>
    ensures units { IfSome result (λ need. need.units ≡ units_noted_in volume.now.content dir name + units_noted_in volume.now.content dir (name + 1 + stream)) }
    ensures dirs { IfSome result (λ need. need.dirs ≡ dirs_in volume.now.content dir + dirs_in volume.now.content dir) }
    ensures rows { IfSome result (λ need. (need.files ≡ 1) × (need.links ≡ 1) × (need.parent ≡ dir) × (need.streams ≡ 2) × (need.handles ≡ 1) × (need.owners ≡ 1) × (need.changes ≡ 2)) }
{
    let link = volume.note_room_in(dir, name)?;
    let of_stream = volume.note_room_in(dir, name.checked_add(1)?.checked_add(stream)?)?;
    let units = link.units.checked_add(of_stream.units)?;
    Some(Need {
        files: 1,
        links: 1,
        streams: 2,
        handles: 1,
        owners: 1,
        changes: 2,
        units,
        dirs: link.dirs + of_stream.dirs,
        parent: dir,
        ..Need::nothing()
    })
}

// Puts a file of this name into this directory, with a named stream that is opened; the file is
// noted, and then the stream.
fn put_file_with_stream(
    volume: &mut Volume,
    asked: &Asked,
    dir: u64,
    name: Name,
    file: FileRow,
    default: Name,
    stream: Name,
) -> Result<(), NoMemory>
    requires may { MayOpen volume.old.content asked.now.client asked.now.number }
    requires holds { CanHold volume.old.content dir }
    requires new { child_of volume.old.content dir name ≡ None }
    requires file { file ≡ new_file volume.old.content asked.now false (file_attributes asked.now.attributes) }
    requires default { default ≡ [] }
    requires stream { stream ≡ stream_name asked.now.path }
    requires named { same_name volume.old.content.table [] stream ≡ false }
    ensures done { OnOk result (volume.new.content ≡ with_new_file_and_stream volume.old.content asked.now dir name) }
    ensures refused { OnErr result (volume.new.content ≡ volume.old.content) }
    ensures ends { KeepsEnds volume.old volume.new }
{
    let units = name.units().len() as u64;
    let Some(need) = need_with_stream(volume, dir, units, stream.units().len() as u64) else {
        return Err(NoMemory);
    };
    volume.reserve(&need)?;
    let made = volume.add_file(file);
    let link = volume.add_link(dir, name, made);
    let _of_file = volume.add_stream(made, default);
    let named = volume.add_stream(made, stream);
    open_handle(volume, asked, link, Some(named));
    volume.note(
        link,
        FILE_ACTION_ADDED,
        NotifyFilter::FILE_NAME.bits(),
        None,
    );
    let filter = NotifyFilter::STREAM_NAME.bits();
    volume.note(link, FILE_ACTION_ADDED_STREAM, filter, Some(named));
    Ok(())
}

// Makes a file in this directory with a stream of this name, and opens that.
fn make_file_with_stream(
    alloc: Global,
    volume: &mut Volume,
    asked: &Asked,
    dir: u64,
    name: &[u16],
    stream: &[u16],
) -> Tried
    requires may { MayOpen volume.old.content asked.now.client asked.now.number }
    requires holds { CanHold volume.old.content dir }
    requires new { child_of volume.old.content dir name.now ≡ None }
    requires stream { stream.now ≡ stream_name asked.now.path }
    requires named { same_name volume.old.content.table [] stream.now ≡ false }
    ensures leaves { Leaves (Opens (with_new_file_and_stream volume.old.content asked.now dir name.now) status.Success action.Created) volume.old volume.new result }
{
    let Ok(name) = Name::copy_of(alloc, name) else {
        return Tried::NoMemory;
    };
    let Ok(stream) = Name::copy_of(alloc, stream) else {
        return Tried::NoMemory;
    };
    let file = new_file(volume, asked, false, file_attributes(asked.attributes));
    let default = Name::from(Vec::new(alloc));
    match put_file_with_stream(volume, asked, dir, name, file, default, stream) {
        Ok(()) => opens(Status::Success, Action::Created),
        Err(NoMemory) => Tried::NoMemory,
    }
}

// Makes a file in this directory, and opens the stream of this name, if the path names one.
#[tactic(auto, unfolding(fsa_model::specs::Open::make_file))]
fn make_file(
    alloc: Global,
    volume: &mut Volume,
    asked: &Asked,
    dir: u64,
    name: &[u16],
    stream: &[u16],
    named: bool,
) -> Tried
    requires may { MayOpen volume.old.content asked.now.client asked.now.number }
    requires holds { CanHold volume.old.content dir }
    requires new { child_of volume.old.content dir name.now ≡ None }
    requires stream { stream.now ≡ stream_name asked.now.path }
    requires named { named ≡ names_stream asked.now.path }
    requires differs { named ≡ true → same_name volume.old.content.table [] stream.now ≡ false }
    ensures leaves { Leaves (make_file volume.old.content asked.now dir name.now) volume.old volume.new result }
{
    if named {
        return make_file_with_stream(alloc, volume, asked, dir, name, stream);
    }
    make_plain_file(alloc, volume, asked, dir, name)
}

// The right that the parent has to grant.
fn parent_right(asked: &Asked) -> u32
    ensures { result ≡ parent_right asked.now }
{
    if asked.wants_directory() {
        return AccessMask::APPEND_DATA.bits();
    }
    AccessMask::WRITE_DATA.bits()
}

/// The last name is missing in this directory.
#[tactic(auto, unfolding(fsa_model::specs::Open::create_missing))]
pub fn create_missing(
    alloc: Global,
    volume: &mut Volume,
    opening: &Opening,
    dir: u64,
    name: &[u16],
) -> Tried
    requires may { MayOpen volume.old.content opening.now.client opening.now.number }
    requires holds { CanHold volume.old.content dir }
    requires new { child_of volume.old.content dir name.now ≡ None }
    ensures leaves { Leaves (create_missing volume.old.content opening.now dir name.now) volume.old volume.new result }
{
    let asked = opening.asked();
    if only_opens(asked.disposition) {
        return Tried::ends(Status::ObjectNameNotFound);
    }
    if asked.deletes_on_close() && has_attribute(asked.attributes, FileAttributes::READONLY) {
        return Tried::ends(Status::CannotDelete);
    }
    if !grants(volume, dir, asked.client, parent_right(asked)) {
        return Tried::ends(Status::AccessDenied);
    }
    if asked.wants_directory() {
        return make_directory(alloc, volume, asked, dir, name);
    }
    let named = opening.names_stream();
    make_file(
        alloc,
        volume,
        asked,
        dir,
        name,
        opening.stream_name(),
        named,
    )
}

/// The named stream is missing in this file, whose link this is.
#[tactic(auto, unfolding(fsa_model::specs::Open::create_stream))]
pub fn create_stream(
    alloc: Global,
    volume: &mut Volume,
    opening: &Opening,
    link: u64,
    file: u64,
) -> Tried
    requires may { MayOpen volume.old.content opening.now.client opening.now.number }
    requires link { IsTrue (lives volume.old.content.links link) }
    requires linked { IsTrue (is_link_to volume.old.content.links link file) }
    requires file { IsTrue (lives volume.old.content.files file) }
    requires no_directory { is_directory volume.old.content.files file ≡ false }
    requires new { stream_of volume.old.content file (stream_name opening.now.path) ≡ None }
    ensures leaves { Leaves (create_stream volume.old.content opening.now link file) volume.old volume.new result }
{
    let asked = opening.asked();
    if only_opens(asked.disposition) {
        return Tried::ends(Status::ObjectNameNotFound);
    }
    let rights = asked.access() | AccessMask::WRITE_DATA.bits();
    if !grants(volume, file, asked.client, rights) {
        return Tried::ends(Status::AccessDenied);
    }
    if is_readonly(volume, file) {
        return Tried::ends(Status::AccessDenied);
    }
    make_stream(alloc, volume, asked, link, file, opening.stream_name())
}

// The room for a stream of a file, a handle and a note.
fn need_for_stream(volume: &Volume, link: u64, stream: u64) -> Option<Need>
    ensures units { IfSome result (λ need. need.units ≡ units_noted volume.now.content link None + 1 + stream) }
    ensures dirs { IfSome result (λ need. need.dirs ≡ dirs_noted volume.now.content link None) }
    ensures rows { IfSome result (λ need. (need.links ≡ 0) × (need.streams ≡ 1) × (need.handles ≡ 1) × (need.changes ≡ 1)) }
{
    let note = volume.note_room(link, None)?;
    let units = note.units.checked_add(1)?.checked_add(stream)?;
    Some(Need {
        streams: 1,
        handles: 1,
        changes: 1,
        units,
        dirs: note.dirs,
        ..Need::nothing()
    })
}

// Puts a named stream into a file, opened by this link and noted.
fn put_stream(
    volume: &mut Volume,
    asked: &Asked,
    link: u64,
    file: u64,
    name: Name,
) -> Result<(), NoMemory>
    requires may { MayOpen volume.old.content asked.now.client asked.now.number }
    requires link { IsTrue (lives volume.old.content.links link) }
    requires linked { IsTrue (is_link_to volume.old.content.links link file) }
    requires file { IsTrue (lives volume.old.content.files file) }
    requires no_directory { is_directory volume.old.content.files file ≡ false }
    requires name { name ≡ stream_name asked.now.path }
    requires new { stream_of volume.old.content file name ≡ None }
    ensures done { OnOk result (volume.new.content ≡ with_new_stream volume.old.content asked.now link file) }
    ensures refused { OnErr result (volume.new.content ≡ volume.old.content) }
    ensures ends { KeepsEnds volume.old volume.new }
{
    let Some(need) = need_for_stream(volume, link, name.units().len() as u64) else {
        return Err(NoMemory);
    };
    volume.reserve(&need)?;
    let stream = volume.add_stream(file, name);
    open_handle(volume, asked, link, Some(stream));
    let filter = NotifyFilter::STREAM_NAME.bits();
    volume.note(link, FILE_ACTION_ADDED_STREAM, filter, Some(stream));
    Ok(())
}

// Makes a stream of this name in a file and opens it.
fn make_stream(
    alloc: Global,
    volume: &mut Volume,
    asked: &Asked,
    link: u64,
    file: u64,
    name: &[u16],
) -> Tried
    requires may { MayOpen volume.old.content asked.now.client asked.now.number }
    requires link { IsTrue (lives volume.old.content.links link) }
    requires linked { IsTrue (is_link_to volume.old.content.links link file) }
    requires file { IsTrue (lives volume.old.content.files file) }
    requires no_directory { is_directory volume.old.content.files file ≡ false }
    requires name { name.now ≡ stream_name asked.now.path }
    requires new { stream_of volume.old.content file name.now ≡ None }
    ensures leaves { Leaves (Opens (with_new_stream volume.old.content asked.now link file) status.Success action.Created) volume.old volume.new result }
{
    let Ok(name) = Name::copy_of(alloc, name) else {
        return Tried::NoMemory;
    };
    match put_stream(volume, asked, link, file, name) {
        Ok(()) => opens(Status::Success, Action::Created),
        Err(NoMemory) => Tried::NoMemory,
    }
}
