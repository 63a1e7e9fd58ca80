//! A reparse point is removed.

ghost use Rattle.fsa_model.specs.ReparsePoints.{delete_reparse_at, delete_reparse_of, try_delete_reparse};
ghost use Rattle.op_control.specs.Calls.{IsDeleteReparse, asked_delete_reparse};
ghost use Rattle.volume_state.specs.Tried.{Leaves};

use crate::points::{may_set_point, put_point};
use fsa_types::{Call, NoMemory, Request, Status, What};
use op_parts::file_of_link;
use std::alloc::Global;
use volume_state::{Tried, Volume};

// The point of a file is removed, where it has this tag.
#[tactic(auto, unfolding(fsa_model::specs::ReparsePoints::delete_reparse_of, fsa_model::specs::ReparsePoints::remove_point))]
fn delete_reparse_of(volume: &mut Volume, link: u64, file: u64, tag: u32) -> Tried
    ensures leaves { Leaves (delete_reparse_of volume.old.content link file tag) volume.old volume.new result }
{
    let Some(point) = volume.point(file) else {
        return Tried::ends(Status::NotAReparsePoint);
    };
    if point.0 != tag {
        return Tried::ends(Status::IoReparseTagMismatch);
    }
    match put_point(volume, link, file, None) {
        Ok(()) => Tried::ends(Status::Success),
        Err(NoMemory) => Tried::NoMemory,
    }
}

// The point of the file of the handle of this number is removed; its right comes first.
#[tactic(auto, unfolding(fsa_model::specs::ReparsePoints::delete_reparse_at, fsa_model::specs::ReparsePoints::delete_reparse_by))]
fn delete_reparse_at(volume: &mut Volume, id: u64, tag: u32) -> Tried
    ensures leaves { Leaves (delete_reparse_at volume.old.content id tag) volume.old volume.new result }
{
    let Some(handle) = volume.handle(id) else {
        return Tried::ends(Status::InvalidHandle);
    };
    if !may_set_point(handle) {
        return Tried::ends(Status::AccessDenied);
    }
    let link = handle.link;
    let Some(file) = file_of_link(volume, link) else {
        return Tried::ends(Status::InvalidHandle);
    };
    delete_reparse_of(volume, link, file, tag)
}

// One try of it.
#[tactic(auto, unfolding(fsa_model::specs::ReparsePoints::try_delete_reparse))]
fn delete_by_handle(volume: &mut Volume, client: u32, handle: u32, tag: u32) -> Tried
    ensures leaves { Leaves (try_delete_reparse volume.old.content client handle tag) volume.old volume.new result }
{
    let Some(id) = volume.handle_of(client, handle) else {
        return Tried::ends(Status::InvalidHandle);
    };
    delete_reparse_at(volume, id, tag)
}

/// One try of a DeleteReparse, after [MS-FSA] 'FSCTL_DELETE_REPARSE_POINT'. The call has to be one.
///
/// `Done` with the reply, as the definition says; never `Stay` or `Hold`. `NoMemory` changes nothing. No
/// room for ends is used. `_alloc` and `_turn` are those of every try; nothing here needs them.
pub fn try_delete_reparse(_alloc: Global, volume: &mut Volume, call: &Call, _turn: u64) -> Tried
    requires verb { IsDeleteReparse call.now.what }
    ensures leaves { Leaves (asked_delete_reparse volume.old.content call.now.client call.now.what) volume.old volume.new result }
{
    let What::Ask(Request::DeleteReparse { handle, tag }) = &call.what else {
        unreachable!()
    };
    delete_by_handle(volume, call.client, *handle, *tag)
}
