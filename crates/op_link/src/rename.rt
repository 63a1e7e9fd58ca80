//! A rename, in the order of its checks.

ghost use Rattle.std.specs.Prelude.{◌≡◌, ◌<◌, ◌≤◌, ◌+◌, ◌-◌, ◌^◌, ◌==◌, ◌&&◌, ◌||◌, not, true, false, Some, None, is_some, length, IsTrue, IfSome, IfNone};
ghost use Rattle.fsa_types.specs.Paths.{components};
ghost use Rattle.fsa_types.specs.Access.{has_any};
ghost use Rattle.fsa_types.specs.Masks.{DELETE};
ghost use Rattle.fsa_types.specs.declared.oplock.HandleSet.TheVariants as set;
ghost use Rattle.fsa_model.specs.Lookups.{child_of, is_at_or_below, is_directory, linked_file};
ghost use Rattle.fsa_model.specs.Outcome.{ends_with};
ghost use Rattle.fsa_model.specs.Rename.{entry_right, keeps_name, lacks_entry_right, naming_by, rename_at, rename_below_closed, rename_by, rename_directory, rename_done, rename_free, rename_into, rename_link, rename_named, rename_over, rename_over_broken, rename_over_closed, rename_walked, replaced_link, try_rename};
ghost use Rattle.fsa_model.specs.Replacement.{is_any_open, new_name};
ghost use Rattle.op_link.specs.Calls.{IsRename, asked_rename};
ghost use Rattle.op_link.specs.Conditions.{CanRename, CanReplace, EndsOrHolds, Frees, HasBreaksRoom, HasRoomIfHeld, HasRenameRoom, IsReplaceable, MayName, StaysOut};
ghost use Rattle.op_parts.specs.Walks.{IsIn, ReachesHolder, walked_of};
ghost use Rattle.volume_state.specs.Living.{CanHold};
ghost use Rattle.volume_state.specs.Room.{KeepsEnds};
ghost use Rattle.volume_state.specs.Tried.{Gives, Leaves};

use crate::breaks::break_to_name;
use crate::moved::{is_elsewhere, keeps_name, rename};
use crate::naming::{Named, Naming, new_name, parts_of_name};
use crate::replacement::replace_fault;
use crate::room::room_to_rename;
use bitflags::Flags;
use fsa_types::{AccessMask, BlockerList, Call, Name, Request, Status, What};
use names::PathParts;
use op_parts::{
    Walked, grants, has_right, held, is_any_open, is_link_marked, linked_file, named_stream,
    stopped, walk,
};
use std::alloc::Global;
use volume_state::{HandleSet, Tried, Volume};

// The name changes, unless it is kept. Gives how the call ends.
#[tactic(auto, unfolding(fsa_model::specs::Rename::rename_done))]
fn rename_done(
    volume: &mut Volume,
    named: &Named,
    dir: u64,
    replaced: Option<u64>,
    name: Name,
) -> Status
    requires room { HasRenameRoom volume.old.content volume.old.spare replaced named.now.link dir (length (new_name named.now)) }
    requires holds { CanHold volume.old.content dir }
    requires out { StaysOut volume.old.content.files volume.old.content.links named.now.file dir }
    requires file { named.now.file ≡ linked_file volume.old.content named.now.link }
    requires name { name ≡ new_name named.now }
    requires frees { Frees volume.old.content.table volume.old.content.files volume.old.content.links volume.old.content.handles named.now.link dir (new_name named.now) replaced }
    ensures gives { rename_done volume.old.content named.now dir replaced ≡ ends_with volume.new.content result }
    ensures ends { KeepsEnds volume.old volume.new }
{
    if keeps_name(volume, named, dir) {
        return Status::Success;
    }
    rename(volume, named, dir, replaced, name);
    Status::Success
}

// Once the breaks of the link itself that the rename waits for have ended. `None` where it is held.
#[tactic(auto, unfolding(fsa_model::specs::Rename::rename_free))]
fn rename_free(
    volume: &mut Volume,
    named: &Named,
    dir: u64,
    replaced: Option<u64>,
    name: Name,
    blockers: &mut BlockerList,
) -> Option<Status>
    requires breaks { HasBreaksRoom volume.old.content volume.old.spare blockers.old 1 }
    requires room { HasRenameRoom volume.old.content volume.old.spare replaced named.now.link dir (length (new_name named.now)) }
    requires holds { CanHold volume.old.content dir }
    requires out { StaysOut volume.old.content.files volume.old.content.links named.now.file dir }
    requires file { named.now.file ≡ linked_file volume.old.content named.now.link }
    requires name { name ≡ new_name named.now }
    requires frees { Frees volume.old.content.table volume.old.content.files volume.old.content.links volume.old.content.handles named.now.link dir (new_name named.now) replaced }
    ensures gives { EndsOrHolds (rename_free volume.old.content named.now dir replaced) volume.new.content blockers.new.items result }
    ensures room { HasRoomIfHeld result volume.new.spare blockers.new.items }
    ensures ends { KeepsEnds volume.old volume.new }
{
    if break_to_name(volume, named, HandleSet::Link(named.link()), blockers) {
        return None;
    }
    Some(rename_done(volume, named, dir, replaced, name))
}

// The link that is replaced must have no handle.
#[tactic(auto, unfolding(fsa_model::specs::Rename::rename_over_closed))]
fn rename_over_closed(
    volume: &mut Volume,
    named: &Named,
    dir: u64,
    replaced: u64,
    name: Name,
    blockers: &mut BlockerList,
) -> Option<Status>
    requires can { CanReplace volume.old.content volume.old.spare blockers.old 1 named.now dir replaced name }
    ensures gives { EndsOrHolds (rename_over_closed volume.old.content named.now dir replaced) volume.new.content blockers.new.items result }
    ensures room { HasRoomIfHeld result volume.new.spare blockers.new.items }
    ensures ends { KeepsEnds volume.old volume.new }
{
    if is_any_open(volume, HandleSet::Link(replaced)) {
        return Some(Status::AccessDenied);
    }
    rename_free(volume, named, dir, Some(replaced), name, blockers)
}

// Once the breaks that the replacement waits for have ended.
#[tactic(auto, unfolding(fsa_model::specs::Rename::rename_over_broken))]
fn rename_over_broken(
    volume: &mut Volume,
    named: &Named,
    dir: u64,
    replaced: u64,
    name: Name,
    blockers: &mut BlockerList,
) -> Option<Status>
    requires can { CanReplace volume.old.content volume.old.spare blockers.old 2 named.now dir replaced name }
    ensures gives { EndsOrHolds (rename_over_broken volume.old.content named.now dir replaced) volume.new.content blockers.new.items result }
    ensures room { HasRoomIfHeld result volume.new.spare blockers.new.items }
    ensures ends { KeepsEnds volume.old volume.new }
{
    if break_to_name(volume, named, HandleSet::Link(replaced), blockers) {
        return None;
    }
    rename_over_closed(volume, named, dir, replaced, name, blockers)
}

// The new name is another link's.
#[tactic(auto, unfolding(fsa_model::specs::Rename::rename_over))]
fn rename_over(
    volume: &mut Volume,
    named: &Named,
    dir: u64,
    replaced: u64,
    name: Name,
    blockers: &mut BlockerList,
) -> Option<Status>
    requires breaks { HasBreaksRoom volume.old.content volume.old.spare blockers.old 2 }
    requires room { HasRenameRoom volume.old.content volume.old.spare (Some replaced) named.now.link dir (length (new_name named.now)) }
    requires holds { CanHold volume.old.content dir }
    requires out { StaysOut volume.old.content.files volume.old.content.links named.now.file dir }
    requires file { named.now.file ≡ linked_file volume.old.content named.now.link }
    requires name { name ≡ new_name named.now }
    requires client { named.now.client < length volume.old.content.clients }
    requires child { child_of volume.old.content dir (new_name named.now) ≡ Some replaced }
    requires other { (replaced == named.now.link) ≡ false }
    ensures gives { EndsOrHolds (rename_over volume.old.content named.now dir replaced) volume.new.content blockers.new.items result }
    ensures room { HasRoomIfHeld result volume.new.spare blockers.new.items }
    ensures ends { KeepsEnds volume.old volume.new }
{
    match replace_fault(volume, named.asked(), replaced) {
        Some(status) => Some(status),
        None => rename_over_broken(volume, named, dir, replaced, name, blockers),
    }
}

// The right that another directory has to grant.
fn entry_right(volume: &Volume, file: u64) -> u32
    ensures { result ≡ entry_right volume.now.content file }
{
    if volume.is_directory(file) {
        return AccessMask::APPEND_DATA.bits();
    }
    AccessMask::WRITE_DATA.bits()
}

// Whether the directory doesn't grant it.
fn lacks_entry_right(volume: &Volume, named: &Named, dir: u64) -> bool
    requires client { named.now.client < length volume.now.content.clients }
    ensures { result ≡ lacks_entry_right volume.now.content named.now dir }
{
    let right = entry_right(volume, named.file());
    is_elsewhere(volume, named, dir) && !grants(volume, dir, named.client(), right)
}

// The link of the new name, unless it is the one that is renamed.
fn replaced_link(volume: &Volume, named: &Named, dir: u64) -> Option<u64>
    ensures link { result ≡ replaced_link volume.now.content named.now dir }
    ensures some { IfSome result (λ link. (child_of volume.now.content dir (new_name named.now) ≡ Some link) × ((link == named.now.link) ≡ false)) }
    ensures none { IfNone result (IfSome (child_of volume.now.content dir (new_name named.now)) (λ other. IsTrue (other == named.now.link))) }
{
    let link = volume.child(dir, named.name())?;
    if link == named.link() {
        return None;
    }
    Some(link)
}

// The new name is looked up in this directory.
#[tactic(auto, unfolding(fsa_model::specs::Rename::rename_named))]
fn rename_named(
    volume: &mut Volume,
    named: &Named,
    dir: u64,
    name: Name,
    blockers: &mut BlockerList,
) -> Option<Status>
    requires can { CanRename volume.old.content volume.old.spare blockers.old 2 named.now dir name }
    requires out { StaysOut volume.old.content.files volume.old.content.links named.now.file dir }
    ensures gives { EndsOrHolds (rename_named volume.old.content named.now dir) volume.new.content blockers.new.items result }
    ensures room { HasRoomIfHeld result volume.new.spare blockers.new.items }
    ensures ends { KeepsEnds volume.old volume.new }
{
    if lacks_entry_right(volume, named, dir) {
        return Some(Status::AccessDenied);
    }
    match replaced_link(volume, named, dir) {
        Some(replaced) => rename_over(volume, named, dir, replaced, name, blockers),
        None => rename_free(volume, named, dir, None, name, blockers),
    }
}

// A directory is renamed when no handle below it is open.
#[tactic(auto, unfolding(fsa_model::specs::Rename::rename_below_closed))]
fn rename_below_closed(
    volume: &mut Volume,
    named: &Named,
    dir: u64,
    name: Name,
    blockers: &mut BlockerList,
) -> Option<Status>
    requires can { CanRename volume.old.content volume.old.spare blockers.old 2 named.now dir name }
    requires out { StaysOut volume.old.content.files volume.old.content.links named.now.file dir }
    ensures gives { EndsOrHolds (rename_below_closed volume.old.content named.now dir) volume.new.content blockers.new.items result }
    ensures room { HasRoomIfHeld result volume.new.spare blockers.new.items }
    ensures ends { KeepsEnds volume.old volume.new }
{
    if is_any_open(volume, HandleSet::Below(named.file())) {
        return Some(Status::AccessDenied);
    }
    rename_named(volume, named, dir, name, blockers)
}

// A directory doesn't go into itself; the oplocks below it are broken.
#[tactic(auto, unfolding(fsa_model::specs::Rename::rename_directory))]
fn rename_directory(
    volume: &mut Volume,
    named: &Named,
    dir: u64,
    name: Name,
    blockers: &mut BlockerList,
) -> Option<Status>
    requires can { CanRename volume.old.content volume.old.spare blockers.old 3 named.now dir name }
    ensures gives { EndsOrHolds (rename_directory volume.old.content named.now dir) volume.new.content blockers.new.items result }
    ensures room { HasRoomIfHeld result volume.new.spare blockers.new.items }
    ensures ends { KeepsEnds volume.old volume.new }
{
    if volume.is_at_or_below(named.file(), dir) {
        return Some(Status::AccessDenied);
    }
    if break_to_name(volume, named, HandleSet::Below(named.file()), blockers) {
        return None;
    }
    rename_below_closed(volume, named, dir, name, blockers)
}

// A directory or a file goes to this directory. The room is taken.
#[tactic(auto, unfolding(fsa_model::specs::Rename::rename_into))]
fn rename_in_room(
    volume: &mut Volume,
    named: &Named,
    dir: u64,
    name: Name,
    blockers: &mut BlockerList,
) -> Option<Status>
    requires can { CanRename volume.old.content volume.old.spare blockers.old 3 named.now dir name }
    ensures gives { EndsOrHolds (rename_into volume.old.content named.now dir) volume.new.content blockers.new.items result }
    ensures room { HasRoomIfHeld result volume.new.spare blockers.new.items }
    ensures ends { KeepsEnds volume.old volume.new }
{
    if volume.is_directory(named.file()) {
        return rename_directory(volume, named, dir, name, blockers);
    }
    rename_named(volume, named, dir, name, blockers)
}

// The same, once the room is there.
fn rename_into(alloc: Global, volume: &mut Volume, named: &Named, dir: u64) -> Tried
    requires may { MayName volume.old.content }
    requires client { named.now.client < length volume.old.content.clients }
    requires holds { CanHold volume.old.content dir }
    requires file { named.now.file ≡ linked_file volume.old.content named.now.link }
    ensures leaves { Leaves (rename_into volume.old.content named.now dir) volume.old volume.new result }
{
    let Ok(name) = Name::copy_of(alloc, named.name()) else {
        return Tried::NoMemory;
    };
    let replaced = replaced_link(volume, named, dir);
    let units = name.units().len() as u64;
    let Ok(blockers) = room_to_rename(alloc, volume, replaced, named.link(), dir, units) else {
        return Tried::NoMemory;
    };
    let mut blockers = blockers;
    match rename_in_room(volume, named, dir, name, &mut blockers) {
        Some(status) => Tried::ends(status),
        None => held(blockers),
    }
}

// The walk has come to a directory, or to its end.
#[tactic(auto, unfolding(fsa_model::specs::Rename::rename_walked))]
fn rename_walked(
    alloc: Global,
    volume: &mut Volume,
    naming: &Naming,
    parts: &PathParts,
    walked: Walked,
) -> Tried
    requires may { MayName volume.old.content }
    requires client { naming.now.client < length volume.old.content.clients }
    requires file { naming.now.file ≡ linked_file volume.old.content naming.now.link }
    requires path { parts.now ≡ naming.now.path }
    requires some { 0 < length (components naming.now.path) }
    requires holds { ReachesHolder volume.old.content walked }
    requires place { IsIn walked (components parts.now) }
    ensures leaves { Leaves (rename_walked volume.old.content naming.now (walked_of walked)) volume.old volume.new result }
{
    match walked {
        Walked::Barred(status) => Tried::ends(status),
        Walked::Diverted { file, next } => stopped(alloc, volume, file, parts.rest(next)),
        Walked::Reached(dir) => {
            let named = Named::new(naming, new_name(naming, parts));
            rename_into(alloc, volume, &named, dir)
        }
    }
}

// DELETE is granted to the handle, its link isn't marked, and the path names what a link can name.
#[tactic(auto, unfolding(fsa_model::specs::Rename::rename_link))]
fn rename_link(alloc: Global, volume: &mut Volume, naming: &Naming, access: u32) -> Tried
    requires may { MayName volume.old.content }
    requires client { naming.now.client < length volume.old.content.clients }
    requires file { naming.now.file ≡ linked_file volume.old.content naming.now.link }
    ensures leaves { Leaves (rename_link volume.old.content naming.now access) volume.old volume.new result }
{
    if !has_right(access, AccessMask::DELETE) {
        return Tried::ends(Status::AccessDenied);
    }
    if is_link_marked(volume, naming.link) {
        return Tried::ends(Status::AccessDenied);
    }
    let Some(parts) = parts_of_name(naming.path) else {
        return Tried::ends(Status::ObjectNameInvalid);
    };
    let walked = walk(volume, &parts);
    rename_walked(alloc, volume, naming, &parts, walked)
}

// Renames by the handle of this number. The root and a named stream have no name to change.
#[tactic(auto, unfolding(fsa_model::specs::Rename::rename_at, fsa_model::specs::Rename::rename_by))]
fn rename_at(alloc: Global, volume: &mut Volume, id: u64, path: &[u16], replace: bool) -> Tried
    requires may { MayName volume.old.content }
    ensures leaves { Leaves (rename_at volume.old.content id path.now replace) volume.old volume.new result }
{
    let Some(row) = volume.handle(id) else {
        return Tried::ends(Status::InvalidHandle);
    };
    if row.link == 0 || named_stream(volume, row).is_some() {
        return Tried::ends(Status::InvalidParameter);
    }
    let access = row.access;
    let naming = Naming {
        client: row.client,
        handle: id,
        key: row.key,
        link: row.link,
        file: linked_file(volume, row.link),
        path,
        replace,
    };
    rename_link(alloc, volume, &naming, access)
}

// One try of a rename.
#[tactic(auto, unfolding(fsa_model::specs::Rename::try_rename))]
fn rename_by_handle(
    alloc: Global,
    volume: &mut Volume,
    client: u32,
    handle: u32,
    path: &[u16],
    replace: bool,
) -> Tried
    requires may { MayName volume.old.content }
    ensures leaves { Leaves (try_rename volume.old.content client handle path.now replace) volume.old volume.new result }
{
    let Some(id) = volume.handle_of(client, handle) else {
        return Tried::ends(Status::InvalidHandle);
    };
    rename_at(alloc, volume, id, path, replace)
}

/// One try of a Rename, after [MS-FSA] 'Server Requests Setting of File Information',
/// FileRenameInformation. The call has to be one, and numbers have to be left for a link and for breaks.
///
/// `Done` with the reply, or `Hold` with the breaks of oplocks that it waits for, as the definition
/// says; never `Stay`. It waits for one set of handles at a time: those below a directory, those of the link
/// that is replaced, or those of the link itself. Where it is held there is room to make it pending. Of the
/// room for ends it uses no more than one for each call that ends. `NoMemory` changes nothing, not even
/// breaks. `_turn` is the number of the turn; no rename needs it.
pub fn try_rename(alloc: Global, volume: &mut Volume, call: &Call, _turn: u64) -> Tried
    requires verb { IsRename call.now.what }
    requires may { MayName volume.old.content }
    ensures leaves { Leaves (asked_rename volume.old.content call.now.client call.now.what) volume.old volume.new result }
{
    let What::Ask(
        Request::Rename {
            handle,
            path,
            replace,
        },
    ) = &call.what
    else {
        unreachable!()
    };
    rename_by_handle(alloc, volume, call.client, *handle, path.units(), *replace)
}
