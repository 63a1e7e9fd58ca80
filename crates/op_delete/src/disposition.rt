//! Marking for deletion, and clearing the mark, in the order of the checks.

ghost use Rattle.std.specs.Prelude.{◌≡◌, ◌||◌, ◌==◌, not, false, None, IfSome};
ghost use Rattle.fsa_types.specs.Rows.{row_of};
ghost use Rattle.fsa_model.specs.Close.{is_link_of_parent};
ghost use Rattle.fsa_model.specs.Lookups.{has_child, linked_file};
ghost use Rattle.fsa_model.specs.Open.{is_readonly};
ghost use Rattle.fsa_model.specs.SetDisposition.{delete_by, delete_marked, set_disposition_at, set_disposition_by, try_set_disposition};
ghost use Rattle.op_delete.specs.Calls.{IsSetDisposition, asked_set_disposition};
ghost use Rattle.op_delete.specs.Conditions.{MayMark};
ghost use Rattle.op_parts.specs.Room.{HasWaitRoom};
ghost use Rattle.volume_state.specs.Tried.{Leaves};

use crate::close::bare;
use crate::marks::{marked_handles, set_mark};
use fsa_types::{AccessMask, BlockerList, Call, Request, Status, What};
use op_parts::{
    break_for, has_right, held, is_link_of_parent, is_readonly, linked_file, room_to_wait,
};
use std::alloc::Global;
use volume_state::{Class, HandleRow, Need, Tried, Volume};

// It is marked once the oplocks that a change of name breaks are broken. The room is taken.
#[tactic(auto, unfolding(fsa_model::specs::SetDisposition::delete_marked))]
fn delete_in_room(volume: &mut Volume, id: u64, handle: &HandleRow, blockers: BlockerList) -> Tried
    requires may { MayMark volume.old.content }
    requires room { HasWaitRoom volume.old.content volume.old.spare blockers }
    requires empty { IfSome (row_of volume.old.content.links handle.now.link) (λ row. has_child volume.old.content.links row.file ≡ false) }
    ensures leaves { Leaves (delete_marked volume.old.content id handle.now) volume.old volume.new result }
{
    let mut blockers = blockers;
    let on = marked_handles(volume, handle);
    let class = Class::NameChange;
    if break_for(volume, on, class, Some(id), handle.key, &mut blockers) {
        return held(blockers);
    }
    set_mark(volume, handle, true);
    Tried::ends(Status::Success)
}

// It is marked, where there is room for a call that is held.
fn delete_marked(alloc: Global, volume: &mut Volume, id: u64, handle: &HandleRow) -> Tried
    requires may { MayMark volume.old.content }
    requires empty { IfSome (row_of volume.old.content.links handle.now.link) (λ row. has_child volume.old.content.links row.file ≡ false) }
    ensures leaves { Leaves (delete_marked volume.old.content id handle.now) volume.old volume.new result }
{
    let Ok(blockers) = room_to_wait(alloc, volume, &Need::nothing()) else {
        return Tried::NoMemory;
    };
    delete_in_room(volume, id, handle, blockers)
}

// Whether a handle is the root's, or that of what is READONLY.
fn is_kept(volume: &Volume, handle: &HandleRow) -> bool
    ensures { result ≡ (handle.now.link == 0 || is_readonly volume.now.content (linked_file volume.now.content handle.now.link)) }
{
    handle.link == 0 || is_readonly(volume, linked_file(volume, handle.link))
}

// Whether a handle is that of a directory with a link in it, marked or not.
fn is_of_parent(volume: &Volume, handle: &HandleRow) -> bool
    ensures of_parent { result ≡ is_link_of_parent volume.now.content handle.now.link }
    ensures empty { result ≡ false → IfSome (row_of volume.now.content.links handle.now.link) (λ row. has_child volume.now.content.links row.file ≡ false) }
{
    is_link_of_parent(volume, handle.link)
}

// It is marked, unless it is the root, READONLY, or a directory with a link in it.
#[tactic(auto, unfolding(fsa_model::specs::SetDisposition::delete_by))]
fn delete_by(alloc: Global, volume: &mut Volume, id: u64, handle: &HandleRow) -> Tried
    requires may { MayMark volume.old.content }
    ensures leaves { Leaves (delete_by volume.old.content id handle.now) volume.old volume.new result }
{
    if is_kept(volume, handle) {
        return Tried::ends(Status::CannotDelete);
    }
    if is_of_parent(volume, handle) {
        return Tried::ends(Status::DirectoryNotEmpty);
    }
    delete_marked(alloc, volume, id, handle)
}

// It is marked or its mark is cleared; the handle's rights come first.
#[tactic(auto, unfolding(fsa_model::specs::SetDisposition::set_disposition_by))]
fn set_disposition_by(
    alloc: Global,
    volume: &mut Volume,
    id: u64,
    handle: &HandleRow,
    delete: bool,
) -> Tried
    requires may { MayMark volume.old.content }
    ensures leaves { Leaves (set_disposition_by volume.old.content id handle.now delete) volume.old volume.new result }
{
    if !has_right(handle.access, AccessMask::DELETE) {
        return Tried::ends(Status::AccessDenied);
    }
    if !delete {
        set_mark(volume, handle, false);
        return Tried::ends(Status::Success);
    }
    delete_by(alloc, volume, id, handle)
}

// The same through the handle of this number.
#[tactic(auto, unfolding(fsa_model::specs::SetDisposition::set_disposition_at))]
fn set_disposition_at(alloc: Global, volume: &mut Volume, id: u64, delete: bool) -> Tried
    requires may { MayMark volume.old.content }
    ensures leaves { Leaves (set_disposition_at volume.old.content id delete) volume.old volume.new result }
{
    let Some(row) = volume.handle(id) else {
        return Tried::ends(Status::InvalidHandle);
    };
    let handle = bare(row);
    set_disposition_by(alloc, volume, id, &handle, delete)
}

// The same through a client's handle of this number.
#[tactic(auto, unfolding(fsa_model::specs::SetDisposition::try_set_disposition))]
fn set_by_handle(
    alloc: Global,
    volume: &mut Volume,
    client: u32,
    handle: u32,
    delete: bool,
) -> Tried
    requires may { MayMark volume.old.content }
    ensures leaves { Leaves (try_set_disposition volume.old.content client handle delete) volume.old volume.new result }
{
    let Some(id) = volume.handle_of(client, handle) else {
        return Tried::ends(Status::InvalidHandle);
    };
    set_disposition_at(alloc, volume, id, delete)
}

/// One try of a SetDisposition, after [MS-FSA] 'Server Requests Setting of File Information',
/// FileDispositionInformation. The call has to be one, and numbers have to be left for breaks.
///
/// `Done` with the reply, or `Hold` with the breaks of oplocks that it waits for, as the definition
/// says; never `Stay`. Where it is held there is room to make it pending. Of the room for ends it uses
/// no more than one for each call that ends. `NoMemory` changes nothing, not even breaks. `_turn` is the
/// number of the turn; no mark needs it.
pub fn try_set_disposition(alloc: Global, volume: &mut Volume, call: &Call, _turn: u64) -> Tried
    requires verb { IsSetDisposition call.now.what }
    requires may { MayMark volume.old.content }
    ensures leaves { Leaves (asked_set_disposition volume.old.content call.now.client call.now.what) volume.old volume.new result }
{
    let What::Ask(Request::SetDisposition { handle, delete }) = &call.what else {
        unreachable!()
    };
    set_by_handle(alloc, volume, call.client, *handle, *delete)
}
