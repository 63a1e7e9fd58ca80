//! One try of an open.

ghost use Rattle.std.specs.Prelude.{bit_or, ◌≡◌, ◌<◌, ◌≤◌, ◌+◌, ◌-◌, ◌^◌, ◌==◌, not, None, Some, true, false, length, IsTrue, is_some, IfSome};
ghost use Rattle.fsa_types.specs.Rows.{lives};
ghost use Rattle.fsa_types.specs.Paths.{components, path_fault};
ghost use Rattle.fsa_model.specs.Lookups.{child_of, is_directory, stream_of};
ghost use Rattle.fsa_types.specs.Access.{has_any};
ghost use Rattle.fsa_types.specs.Masks.{APPEND_DATA, WRITE_DATA};
ghost use Rattle.fsa_model.specs.Open.{access_of, create_at, create_by_link, create_found, create_in_file, create_named, create_on_stream, create_there, create_walked, is_other_kind, replacing_right, stream_name, try_create};
ghost use Rattle.fsa_model.specs.Walk.{last_name};
ghost use Rattle.op_open.specs.Calls.{IsCreate, asked_try};
ghost use Rattle.op_open.specs.Conditions.{IsOpenBy, IsThere, MayOpen};
ghost use Rattle.op_parts.specs.Walks.{IsIn, ReachesHolder, walked_of};
ghost use Rattle.volume_state.specs.Living.{CanHold, is_link_to};
ghost use Rattle.volume_state.specs.Tried.{Leaves};

use crate::asked::{Asked, only_makes, overwrites};
use crate::make::{create_missing, create_stream};
use crate::open::{open_directory, open_stream};
use crate::opening::Opening;
use crate::rights::uncovers;
use bitflags::Flags;
use fsa_types::{AccessMask, Call, Disposition, Request, Status, What};
use names::{PathParts, split_path};
use op_parts::{Walked, attributes_of, grants, has_point, is_marked, is_readonly, stopped, walk};
use std::alloc::Global;
use volume_state::{Tried, Volume};

// The right to what a disposition does to a stream that is there.
fn replacing_right(disposition: Disposition) -> u32
    ensures { result ≡ replacing_right disposition }
{
    match disposition {
        Disposition::Supersede => AccessMask::DELETE.bits(),
        Disposition::Overwrite | Disposition::OverwriteIf => AccessMask::WRITE_DATA.bits(),
        Disposition::OpenExisting | Disposition::CreateNew | Disposition::OpenIf => 0,
    }
}

// A stream that is there.
#[tactic(auto, unfolding(fsa_model::specs::Open::create_on_stream))]
fn create_on_stream(
    alloc: Global,
    volume: &mut Volume,
    opening: &Opening,
    link: u64,
    file: u64,
    stream: u64,
) -> Tried
    requires may { MayOpen volume.old.content opening.now.client opening.now.number }
    requires living { IsOpenBy volume.old.content link (Some stream) }
    ensures leaves { Leaves (create_on_stream volume.old.content opening.now link file stream) volume.old volume.new result }
{
    let asked = opening.asked();
    if opening.names_stream() && is_marked(volume, stream) {
        return Tried::ends(Status::DeletePending);
    }
    if opening.names_stream() && only_makes(asked.disposition) {
        return Tried::ends(Status::ObjectNameCollision);
    }
    if !grants(
        volume,
        file,
        asked.client,
        asked.access() | replacing_right(asked.disposition),
    ) {
        return Tried::ends(Status::AccessDenied);
    }
    if is_readonly(volume, file) && (writes(asked) || overwrites(asked.disposition)) {
        return Tried::ends(Status::AccessDenied);
    }
    if is_readonly(volume, file) && asked.deletes_on_close() {
        return Tried::ends(Status::CannotDelete);
    }
    if overwrites(asked.disposition) && uncovers(attributes_of(volume, file), asked.attributes) {
        return Tried::ends(Status::AccessDenied);
    }
    open_stream(
        alloc,
        volume,
        asked,
        link,
        file,
        stream,
        opening.names_stream(),
    )
}

// Whether WRITE_DATA or APPEND_DATA is wanted.
fn writes(asked: &Asked) -> bool
    ensures { result ≡ has_any (access_of asked.now) (bit_or WRITE_DATA APPEND_DATA) }
{
    let writing = AccessMask::WRITE_DATA.bits() | AccessMask::APPEND_DATA.bits();
    asked.access() & writing != 0
}

// A file that is there.
#[tactic(auto, unfolding(fsa_model::specs::Open::create_in_file))]
fn create_in_file(
    alloc: Global,
    volume: &mut Volume,
    opening: &Opening,
    link: u64,
    file: u64,
) -> Tried
    requires may { MayOpen volume.old.content opening.now.client opening.now.number }
    requires link { IsTrue (lives volume.old.content.links link) }
    requires linked { IsTrue (is_link_to volume.old.content.links link file) }
    requires file { IsTrue (lives volume.old.content.files file) }
    requires no_directory { is_directory volume.old.content.files file ≡ false }
    ensures leaves { Leaves (create_in_file volume.old.content opening.now link file) volume.old volume.new result }
{
    match volume.stream_of(file, opening.stream_name()) {
        Some(stream) => create_on_stream(alloc, volume, opening, link, file, stream),
        None => create_stream(alloc, volume, opening, link, file),
    }
}

// What is there isn't of the kind that is asked for.
fn is_other_kind(asked: &Asked, directory: bool) -> bool
    ensures { result ≡ is_other_kind asked.now directory }
{
    asked.wants_directory() && !directory
}

// A file or a directory that is there and isn't stopped at; the root has link 0.
#[tactic(auto, unfolding(fsa_model::specs::Open::create_there))]
fn create_there(
    alloc: Global,
    volume: &mut Volume,
    opening: &Opening,
    link: u64,
    file: u64,
) -> Tried
    requires may { MayOpen volume.old.content opening.now.client opening.now.number }
    requires there { IsThere volume.old.content link file }
    ensures leaves { Leaves (create_there volume.old.content opening.now link file) volume.old volume.new result }
{
    let asked = opening.asked();
    if only_makes(asked.disposition) && !opening.names_stream() {
        return Tried::ends(Status::ObjectNameCollision);
    }
    let directory = volume.is_directory(file);
    if is_other_kind(asked, directory) {
        return Tried::ends(Status::NotADirectory);
    }
    if directory && opening.asks_for_file() {
        return Tried::ends(Status::FileIsADirectory);
    }
    if directory {
        return open_directory(alloc, volume, asked, link, file);
    }
    create_in_file(alloc, volume, opening, link, file)
}

// The file of the last name.
#[tactic(auto, unfolding(fsa_model::specs::Open::create_found))]
fn create_found(
    alloc: Global,
    volume: &mut Volume,
    opening: &Opening,
    link: u64,
    file: u64,
) -> Tried
    requires may { MayOpen volume.old.content opening.now.client opening.now.number }
    requires there { IsThere volume.old.content link file }
    ensures leaves { Leaves (create_found volume.old.content opening.now link file) volume.old volume.new result }
{
    if has_point(volume, file) && !opening.asked().opens_point() {
        return stopped(alloc, volume, file, &[]);
    }
    create_there(alloc, volume, opening, link, file)
}

// The link of the last name.
#[tactic(auto, unfolding(fsa_model::specs::Open::create_by_link))]
fn create_by_link(alloc: Global, volume: &mut Volume, opening: &Opening, link: u64) -> Tried
    requires may { MayOpen volume.old.content opening.now.client opening.now.number }
    requires lives { IsTrue (lives volume.old.content.links link) }
    ensures leaves { Leaves (create_by_link volume.old.content opening.now link) volume.old volume.new result }
{
    let Some(row) = volume.link(link) else {
        return Tried::ends(Status::ObjectNameNotFound);
    };
    if row.deleted {
        return Tried::ends(Status::DeletePending);
    }
    let file = row.file;
    create_found(alloc, volume, opening, link, file)
}

// The last name is looked up in this directory.
#[tactic(auto, unfolding(fsa_model::specs::Open::create_named))]
fn create_named(
    alloc: Global,
    volume: &mut Volume,
    opening: &Opening,
    dir: u64,
    name: &[u16],
) -> Tried
    requires may { MayOpen volume.old.content opening.now.client opening.now.number }
    requires holds { CanHold volume.old.content dir }
    ensures leaves { Leaves (create_named volume.old.content opening.now dir name.now) volume.old volume.new result }
{
    match volume.child(dir, name) {
        Some(link) => create_by_link(alloc, volume, opening, link),
        None => create_missing(alloc, volume, opening, dir, name),
    }
}

// The walk has come to a directory, or to its end.
#[tactic(auto, unfolding(fsa_model::specs::Open::create_walked))]
fn create_walked(
    alloc: Global,
    volume: &mut Volume,
    opening: &Opening,
    parts: &PathParts,
    walked: Walked,
) -> Tried
    requires may { MayOpen volume.old.content opening.now.client opening.now.number }
    requires path { parts.now ≡ opening.now.path }
    requires holds { ReachesHolder volume.old.content walked }
    requires place { IsIn walked (components parts.now) }
    ensures leaves { Leaves (create_walked volume.old.content opening.now (walked_of walked)) volume.old volume.new result }
{
    match walked {
        Walked::Barred(status) => Tried::ends(status),
        Walked::Diverted { file, next } => stopped(alloc, volume, file, parts.rest(next)),
        Walked::Reached(dir) => {
            let root = volume.root();
            if parts.is_empty() {
                return create_found(alloc, volume, opening, 0, root);
            }
            create_named(
                alloc,
                volume,
                opening,
                dir,
                parts.component(parts.len() - 1),
            )
        }
    }
}

// A path without a fault.
#[tactic(auto, unfolding(fsa_model::specs::Open::create_at))]
fn create_at(alloc: Global, volume: &mut Volume, asked: &Asked, parts: &PathParts) -> Tried
    requires may { MayOpen volume.old.content asked.now.client asked.now.number }
    requires path { parts.now ≡ asked.now.path }
    ensures leaves { Leaves (create_at volume.old.content asked.now) volume.old volume.new result }
{
    let opening = Opening::new(asked, parts);
    if opening.has_stream_part() && asked.wants_directory() {
        return Tried::ends(Status::NotADirectory);
    }
    let walked = walk(volume, parts);
    create_walked(alloc, volume, &opening, parts, walked)
}

// One try of an open.
#[tactic(auto, unfolding(fsa_model::specs::Open::try_create))]
fn create(alloc: Global, volume: &mut Volume, asked: &Asked) -> Tried
    requires may { MayOpen volume.old.content asked.now.client asked.now.number }
    ensures leaves { Leaves (try_create volume.old.content asked.now) volume.old volume.new result }
{
    if asked.is_invalid() {
        return Tried::ends(Status::InvalidParameter);
    }
    if asked.wants_no_right() {
        return Tried::ends(Status::AccessDenied);
    }
    if asked.lacks_delete() {
        return Tried::ends(Status::InvalidParameter);
    }
    let Ok(parts) = split_path(asked.path) else {
        return Tried::ends(Status::ObjectNameInvalid);
    };
    create_at(alloc, volume, asked, &parts)
}

/// One try of a Create, after [MS-FSA] 'Server Requests an Open of a File'. The call has to be one.
/// Its client has to be one of the volume's, with no handle of the call's number, and numbers have to
/// be left for a file, a link, two streams, a handle and breaks.
///
/// `Done` with the reply, or `Hold` with the breaks of oplocks that it waits for, as the definition
/// says; never `Stay`. Where it is held there is room to make it pending. Of the room for ends it uses
/// no more than one for each call that ends. `NoMemory` changes nothing, not even breaks. `_turn` is the
/// number of the turn; no open needs it.
pub fn try_create(alloc: Global, volume: &mut Volume, call: &Call, _turn: u64) -> Tried
    requires verb { IsCreate call.now.what }
    requires may { MayOpen volume.old.content call.now.client call.now.number }
    ensures leaves { Leaves (asked_try volume.old.content call.now.client call.now.number call.now.what) volume.old volume.new result }
{
    let What::Ask(
        Request::Create {
            path,
            wanted,
            share,
            disposition,
            options,
            attributes,
            key,
        },
    ) = &call.what
    else {
        unreachable!()
    };
    let asked = Asked {
        client: call.client,
        number: call.number,
        path: path.units(),
        wanted: *wanted,
        share: *share,
        disposition: *disposition,
        options: *options,
        attributes: *attributes,
        key: *key,
    };
    create(alloc, volume, &asked)
}
