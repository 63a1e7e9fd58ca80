//! A further link, in the order of its checks.

ghost use Rattle.std.specs.Prelude.{◌≡◌, ◌<◌, ◌≤◌, ◌+◌, ◌-◌, ◌^◌, ◌==◌, not, true, false, Some, None, is_some, length, IsTrue, IfSome, OnOk, OnErr};
ghost use Rattle.fsa_types.specs.Paths.{components};
ghost use Rattle.fsa_types.specs.declared.oplock.HandleSet.TheVariants as set;
ghost use Rattle.fsa_types.specs.declared.status.Status.TheVariants as status;
ghost use Rattle.fsa_model.specs.Link.{has_all_links, link_at, link_by, link_file, link_into, link_over, link_over_broken, link_over_closed, link_over_other, link_walked, try_link, with_link_added, with_linked};
ghost use Rattle.fsa_model.specs.Lookups.{child_of, linked_file};
ghost use Rattle.fsa_model.specs.Outcome.{ends_with};
ghost use Rattle.fsa_model.specs.Rename.{naming_by};
ghost use Rattle.fsa_model.specs.Replacement.{is_any_open, new_name};
ghost use Rattle.op_link.specs.Calls.{IsLink, asked_link};
ghost use Rattle.op_link.specs.Conditions.{HasNameRoom, HasReplaceRoom, IsReplaceable, MayName};
ghost use Rattle.op_parts.specs.Room.{HasWaitRoom};
ghost use Rattle.op_parts.specs.Walks.{IsIn, ReachesHolder, walked_of};
ghost use Rattle.volume_state.specs.Living.{CanBeLinked, CanHold};
ghost use Rattle.volume_state.specs.Room.{KeepsEnds};
ghost use Rattle.volume_state.specs.Tried.{Gives, Leaves};

use crate::naming::{Named, Naming, new_name, parts_of_name};
use crate::replacement::{replace_fault, replace_link};
use crate::room::{room_to_add, room_to_replace};
use bitflags::Flags;
use fsa_types::{
    AccessMask, BlockerList, Call, FILE_ACTION_ADDED, Name, NoMemory, NotifyFilter, Request,
    Status, What,
};
use names::PathParts;
use op_parts::{
    Walked, break_for, grants, held, is_any_open, is_link_marked, linked_file, named_stream,
    set_change_time, stopped, walk,
};
use std::alloc::Global;
use volume_state::{Class, HandleRow, HandleSet, Tried, Volume};

// How many links a file can have, marked ones counted.
const MOST_LINKS: u32 = 1024;

// The link is added and noted. The room is taken; the name is the new one.
fn add_link(volume: &mut Volume, named: &Named, dir: u64, name: Name)
    requires room { HasNameRoom volume.old.content volume.old.spare dir (length name) }
    requires numbers { volume.old.content.last_link < 2 ^ 32 - 4 }
    requires holds { CanHold volume.old.content dir }
    requires file { CanBeLinked volume.old.content named.now.file }
    requires name { name ≡ new_name named.now }
    requires free { child_of volume.old.content dir name ≡ None }
    ensures content { volume.new.content ≡ with_link_added volume.old.content named.now dir }
    ensures ends { KeepsEnds volume.old volume.new }
{
    let link = volume.add_link(dir, name, named.file());
    let filter = NotifyFilter::FILE_NAME.bits();
    volume.note(link, FILE_ACTION_ADDED, filter, None);
}

// The link is added under a name that is free.
fn link_new(volume: &mut Volume, named: &Named, dir: u64, name: Name)
    requires room { HasNameRoom volume.old.content volume.old.spare dir (length name) }
    requires numbers { volume.old.content.last_link < 2 ^ 32 - 4 }
    requires holds { CanHold volume.old.content dir }
    requires file { CanBeLinked volume.old.content named.now.file }
    requires name { name ≡ new_name named.now }
    requires free { child_of volume.old.content dir name ≡ None }
    ensures content { volume.new.content ≡ with_linked volume.old.content named.now dir None }
    ensures ends { KeepsEnds volume.old volume.new }
{
    add_link(volume, named, dir, name);
    set_change_time(volume, named.file());
}

// The link is added in the place of another one, which has no handle.
fn link_in_place(volume: &mut Volume, named: &Named, dir: u64, replaced: u64, name: Name)
    requires room { HasReplaceRoom volume.old.content volume.old.spare replaced dir (length name) }
    requires numbers { volume.old.content.last_link < 2 ^ 32 - 4 }
    requires holds { CanHold volume.old.content dir }
    requires file { CanBeLinked volume.old.content named.now.file }
    requires name { name ≡ new_name named.now }
    requires link { IsReplaceable volume.old.content replaced dir name }
    requires other { (linked_file volume.old.content replaced == named.now.file) ≡ false }
    requires closed { is_any_open volume.old.content (set.Link replaced) ≡ false }
    ensures content { volume.new.content ≡ with_linked volume.old.content named.now dir (Some replaced) }
    ensures ends { KeepsEnds volume.old volume.new }
{
    replace_link(volume, replaced, dir, named.name());
    add_link(volume, named, dir, name);
    set_change_time(volume, named.file());
}

// The link that is replaced must have no handle. Gives how the call ends.
#[tactic(auto, unfolding(fsa_model::specs::Link::link_over_closed))]
fn link_over_closed(
    volume: &mut Volume,
    named: &Named,
    dir: u64,
    replaced: u64,
    name: Name,
) -> Status
    requires room { HasReplaceRoom volume.old.content volume.old.spare replaced dir (length name) }
    requires numbers { volume.old.content.last_link < 2 ^ 32 - 4 }
    requires holds { CanHold volume.old.content dir }
    requires file { CanBeLinked volume.old.content named.now.file }
    requires name { name ≡ new_name named.now }
    requires link { IsReplaceable volume.old.content replaced dir name }
    requires other { (linked_file volume.old.content replaced == named.now.file) ≡ false }
    ensures gives { link_over_closed volume.old.content named.now dir replaced ≡ ends_with volume.new.content result }
    ensures ends { KeepsEnds volume.old volume.new }
{
    if is_any_open(volume, HandleSet::Link(replaced)) {
        return Status::AccessDenied;
    }
    link_in_place(volume, named, dir, replaced, name);
    Status::Success
}

// Once the breaks that the replacement waits for have ended. The room is taken.
#[tactic(auto, unfolding(fsa_model::specs::Link::link_over_broken))]
fn link_in_room(
    volume: &mut Volume,
    named: &Named,
    dir: u64,
    replaced: u64,
    name: Name,
    blockers: BlockerList,
) -> Tried
    requires may { MayName volume.old.content }
    requires client { named.now.client < length volume.old.content.clients }
    requires wait { HasWaitRoom volume.old.content volume.old.spare blockers }
    requires room { HasReplaceRoom volume.old.content volume.old.spare replaced dir (length name) }
    requires holds { CanHold volume.old.content dir }
    requires file { CanBeLinked volume.old.content named.now.file }
    requires name { name ≡ new_name named.now }
    requires link { IsReplaceable volume.old.content replaced dir name }
    requires other { (linked_file volume.old.content replaced == named.now.file) ≡ false }
    ensures leaves { Leaves (link_over_broken volume.old.content named.now dir replaced) volume.old volume.new result }
{
    let mut blockers = blockers;
    let (acting, key) = (Some(named.handle()), named.key());
    let on = HandleSet::Link(replaced);
    if break_for(volume, on, Class::NameChange, acting, key, &mut blockers) {
        return held(blockers);
    }
    Tried::ends(link_over_closed(volume, named, dir, replaced, name))
}

// The replacement, once the room is there.
fn link_over_broken(
    alloc: Global,
    volume: &mut Volume,
    named: &Named,
    dir: u64,
    replaced: u64,
) -> Tried
    requires may { MayName volume.old.content }
    requires client { named.now.client < length volume.old.content.clients }
    requires holds { CanHold volume.old.content dir }
    requires file { CanBeLinked volume.old.content named.now.file }
    requires link { IsReplaceable volume.old.content replaced dir (new_name named.now) }
    requires other { (linked_file volume.old.content replaced == named.now.file) ≡ false }
    ensures leaves { Leaves (link_over_broken volume.old.content named.now dir replaced) volume.old volume.new result }
{
    let Ok(name) = Name::copy_of(alloc, named.name()) else {
        return Tried::NoMemory;
    };
    let units = name.units().len() as u64;
    let Ok(blockers) = room_to_replace(alloc, volume, replaced, dir, units) else {
        return Tried::NoMemory;
    };
    link_in_room(volume, named, dir, replaced, name, blockers)
}

// The new name is one of another file.
#[tactic(auto, unfolding(fsa_model::specs::Link::link_over_other))]
fn link_over_other(
    alloc: Global,
    volume: &mut Volume,
    named: &Named,
    dir: u64,
    replaced: u64,
) -> Tried
    requires may { MayName volume.old.content }
    requires client { named.now.client < length volume.old.content.clients }
    requires holds { CanHold volume.old.content dir }
    requires file { CanBeLinked volume.old.content named.now.file }
    requires child { child_of volume.old.content dir (new_name named.now) ≡ Some replaced }
    requires other { (linked_file volume.old.content replaced == named.now.file) ≡ false }
    ensures leaves { Leaves (link_over_other volume.old.content named.now dir replaced) volume.old volume.new result }
{
    match replace_fault(volume, named.asked(), replaced) {
        Some(status) => Tried::ends(status),
        None => link_over_broken(alloc, volume, named, dir, replaced),
    }
}

// The new name is there.
#[tactic(auto, unfolding(fsa_model::specs::Link::link_over))]
fn link_over(alloc: Global, volume: &mut Volume, named: &Named, dir: u64, replaced: u64) -> Tried
    requires may { MayName volume.old.content }
    requires client { named.now.client < length volume.old.content.clients }
    requires holds { CanHold volume.old.content dir }
    requires file { CanBeLinked volume.old.content named.now.file }
    requires child { child_of volume.old.content dir (new_name named.now) ≡ Some replaced }
    ensures leaves { Leaves (link_over volume.old.content named.now dir replaced) volume.old volume.new result }
{
    if linked_file(volume, replaced) != named.file() {
        return link_over_other(alloc, volume, named, dir, replaced);
    }
    if named.asked().replace {
        return Tried::ends(Status::Success);
    }
    Tried::ends(Status::ObjectNameCollision)
}

// The name is free; the room is taken first.
fn link_free(alloc: Global, volume: &mut Volume, named: &Named, dir: u64) -> Result<(), NoMemory>
    requires may { MayName volume.old.content }
    requires client { named.now.client < length volume.old.content.clients }
    requires holds { CanHold volume.old.content dir }
    requires file { CanBeLinked volume.old.content named.now.file }
    requires free { child_of volume.old.content dir (new_name named.now) ≡ None }
    ensures done { OnOk result (volume.new.content ≡ with_linked volume.old.content named.now dir None) }
    ensures refused { OnErr result (volume.new.content ≡ volume.old.content) }
    ensures ends { KeepsEnds volume.old volume.new }
{
    let name = Name::copy_of(alloc, named.name())?;
    room_to_add(volume, dir, name.units().len() as u64)?;
    link_new(volume, named, dir, name);
    Ok(())
}

// The new name is looked up in this directory.
#[tactic(auto, unfolding(fsa_model::specs::Link::link_into))]
fn link_into(alloc: Global, volume: &mut Volume, named: &Named, dir: u64) -> Tried
    requires may { MayName volume.old.content }
    requires client { named.now.client < length volume.old.content.clients }
    requires holds { CanHold volume.old.content dir }
    requires file { CanBeLinked volume.old.content named.now.file }
    ensures leaves { Leaves (link_into volume.old.content named.now dir) volume.old volume.new result }
{
    if !grants(volume, dir, named.client(), AccessMask::WRITE_DATA.bits()) {
        return Tried::ends(Status::AccessDenied);
    }
    if let Some(replaced) = volume.child(dir, named.name()) {
        return link_over(alloc, volume, named, dir, replaced);
    }
    match link_free(alloc, volume, named, dir) {
        Ok(()) => Tried::ends(Status::Success),
        Err(NoMemory) => Tried::NoMemory,
    }
}

// The walk has come to a directory, or to its end.
#[tactic(auto, unfolding(fsa_model::specs::Link::link_walked))]
fn link_walked(
    alloc: Global,
    volume: &mut Volume,
    naming: &Naming,
    parts: &PathParts,
    walked: Walked,
) -> Tried
    requires may { MayName volume.old.content }
    requires client { naming.now.client < length volume.old.content.clients }
    requires file { CanBeLinked volume.old.content naming.now.file }
    requires path { parts.now ≡ naming.now.path }
    requires some { 0 < length (components naming.now.path) }
    requires holds { ReachesHolder volume.old.content walked }
    requires place { IsIn walked (components parts.now) }
    ensures leaves { Leaves (link_walked volume.old.content naming.now (walked_of walked)) volume.old volume.new result }
{
    match walked {
        Walked::Barred(status) => Tried::ends(status),
        Walked::Diverted { file, next } => stopped(alloc, volume, file, parts.rest(next)),
        Walked::Reached(dir) => {
            let named = Named::new(naming, new_name(naming, parts));
            link_into(alloc, volume, &named, dir)
        }
    }
}

// Whether a file has as many links as it can have, marked ones counted.
fn has_all_links(volume: &Volume, file: u64) -> bool
    ensures { result ≡ has_all_links volume.now.content file }
{
    let (_, all) = volume.links_of(file);
    all >= MOST_LINKS
}

// The handle's link may not be marked, the file can have one link more, and the path names what a link can
// name.
#[tactic(auto, unfolding(fsa_model::specs::Link::link_file))]
fn link_file(alloc: Global, volume: &mut Volume, naming: &Naming) -> Tried
    requires may { MayName volume.old.content }
    requires client { naming.now.client < length volume.old.content.clients }
    requires file { CanBeLinked volume.old.content naming.now.file }
    ensures leaves { Leaves (link_file volume.old.content naming.now) volume.old volume.new result }
{
    if is_link_marked(volume, naming.link) {
        return Tried::ends(Status::AccessDenied);
    }
    if has_all_links(volume, naming.file) {
        return Tried::ends(Status::TooManyLinks);
    }
    let Some(parts) = parts_of_name(naming.path) else {
        return Tried::ends(Status::ObjectNameInvalid);
    };
    let walked = walk(volume, &parts);
    link_walked(alloc, volume, naming, &parts, walked)
}

// Links by the handle of this number. A directory, which has no stream, has one link; a named stream has
// none of its own.
#[tactic(auto, unfolding(fsa_model::specs::Link::link_at, fsa_model::specs::Link::link_by))]
fn link_at(alloc: Global, volume: &mut Volume, id: u64, path: &[u16], replace: bool) -> Tried
    requires may { MayName volume.old.content }
    ensures leaves { Leaves (link_at volume.old.content id path.now replace) volume.old volume.new result }
{
    let Some(row) = volume.handle(id) else {
        return Tried::ends(Status::InvalidHandle);
    };
    let Some(_stream) = row.stream else {
        return Tried::ends(Status::FileIsADirectory);
    };
    if named_stream(volume, row).is_some() {
        return Tried::ends(Status::InvalidParameter);
    }
    let naming = Naming {
        client: row.client,
        handle: id,
        key: row.key,
        link: row.link,
        file: linked_file(volume, row.link),
        path,
        replace,
    };
    link_file(alloc, volume, &naming)
}

// One try of a link.
#[tactic(auto, unfolding(fsa_model::specs::Link::try_link))]
fn link(
    alloc: Global,
    volume: &mut Volume,
    client: u32,
    handle: u32,
    path: &[u16],
    replace: bool,
) -> Tried
    requires may { MayName volume.old.content }
    ensures leaves { Leaves (try_link volume.old.content client handle path.now replace) volume.old volume.new result }
{
    let Some(id) = volume.handle_of(client, handle) else {
        return Tried::ends(Status::InvalidHandle);
    };
    link_at(alloc, volume, id, path, replace)
}

/// One try of a Link, after [MS-FSA] 'Server Requests Setting of File Information',
/// FileLinkInformation. The call has to be one, and numbers have to be left for a link and for breaks.
///
/// `Done` with the reply, or `Hold` with the breaks of oplocks that it waits for, as the definition
/// says; never `Stay`. Where it is held there is room to make it pending. Of the room for ends it uses
/// no more than one for each call that ends. `NoMemory` changes nothing, not even breaks. `_turn` is the
/// number of the turn; no link needs it.
pub fn try_link(alloc: Global, volume: &mut Volume, call: &Call, _turn: u64) -> Tried
    requires verb { IsLink call.now.what }
    requires may { MayName volume.old.content }
    ensures leaves { Leaves (asked_link volume.old.content call.now.client call.now.what) volume.old volume.new result }
{
    let What::Ask(
        Request::Link {
            handle,
            path,
            replace,
        },
    ) = &call.what
    else {
        unreachable!()
    };
    link(alloc, volume, call.client, *handle, path.units(), *replace)
}
