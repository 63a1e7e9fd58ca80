//! The close of a handle.

ghost use Rattle.std.specs.Prelude.{◌≡◌, ◌≤◌, ◌+◌, IsTrue, None, length};
ghost use Rattle.fsa_types.specs.Rows.{lives, without_row};
ghost use Rattle.fsa_model.specs.Close.{close_at, closed_status, is_call_on, pending_by_turn, try_close, with_calls_ended, with_closed, with_mark_on_close, with_swept};
ghost use Rattle.fsa_model.specs.Edits.{without_handle};
ghost use Rattle.fsa_model.specs.Outcome.{ends_with};
ghost use Rattle.op_delete.specs.Calls.{IsClose, asked_close};
ghost use Rattle.op_delete.specs.Conditions.{MayEnd};
ghost use Rattle.op_delete.specs.Room.{HasSweepRoom, KeepsRoom, NotesTakeNoMore, close_dirs, close_units};
ghost use Rattle.volume_state.specs.Room.{KeepsEnds};
ghost use Rattle.volume_state.specs.Tried.{Leaves};
ghost use Rattle.fsa_types.specs.declared.status.Status.TheVariants as status;

use crate::ends::{Ending, end_calls};
use crate::marks::mark_on_close;
use crate::room::room_to_close;
use crate::sweep::sweep;
use fsa_types::{Call, NoMemory, Request, Status, What};
use std::alloc::Global;
use volume_state::{HandleRow, Tried, Volume};

/// A copy of a handle without its enumeration, which takes no memory.
pub fn bare(row: &HandleRow) -> HandleRow
    ensures { result ≡ record row.now { enumeration = None } }
{
    HandleRow {
        client: row.client,
        number: row.number,
        link: row.link,
        stream: row.stream,
        access: row.access,
        share: row.share,
        key: row.key,
        delete_on_close: row.delete_on_close,
        enumeration: None,
    }
}

// The pending calls that name a handle end, and it goes.
fn take_out(volume: &mut Volume, id: u64, handle: &HandleRow)
    requires ends { length volume.old.content.pending ≤ volume.old.spare.ends }
    ensures content { volume.new.content ≡ without_handle (with_calls_ended closed_status (pending_by_turn (is_call_on handle.now) volume.old.content) volume.old.content) id }
    ensures handles { volume.new.content.handles ≡ without_row volume.old.content.handles id }
    ensures rest { volume.new.content ≡ record volume.old.content { handles = volume.new.content.handles; locks = volume.new.content.locks; oplocks = volume.new.content.oplocks; pending = volume.new.content.pending; ended = volume.new.content.ended; watches = volume.new.content.watches } }
    ensures changes { volume.old.spare.changes ≤ volume.new.spare.changes }
    ensures units { volume.old.spare.units ≤ volume.new.spare.units }
    ensures dirs { volume.old.spare.dirs ≤ volume.new.spare.dirs }
    ensures count { volume.old.spare.ends + length volume.new.content.pending ≤ volume.new.spare.ends + length volume.old.content.pending }
    ensures ends { KeepsEnds volume.old volume.new }
{
    let ending = Ending::OfHandle {
        client: handle.client,
        handle: handle.number,
    };
    end_calls(volume, ending);
    volume.drop_handle(id);
}

// What a handle that is gone was to delete is marked, and what it was the last one of goes.
fn mark_and_sweep(volume: &mut Volume, handle: &HandleRow)
    requires room { HasSweepRoom volume.old.content volume.old.spare handle.now }
    ensures content { volume.new.content ≡ with_swept (with_mark_on_close volume.old.content handle.now) handle.now }
    ensures rest { volume.new.content ≡ record volume.old.content { files = volume.new.content.files; links = volume.new.content.links; streams = volume.new.content.streams; changes = volume.new.content.changes } }
    ensures kept { volume.new.spare.ends ≡ volume.old.spare.ends }
    ensures pending_kept { volume.new.spare.pending ≡ volume.old.spare.pending }
    ensures left { KeepsRoom volume.old.content handle.now volume.old.spare volume.new.spare }
    ensures notes { NotesTakeNoMore volume.old.content volume.new.content }
{
    mark_on_close(volume, handle);
    sweep(volume, handle);
}

/// Closes a handle: its pending calls end in order of turns, it goes, and then what was to be deleted
/// with it. There has to be room for all pending calls to end and for two notes.
#[tactic(auto, unfolding(fsa_model::specs::Close::with_closed))]
pub fn close(volume: &mut Volume, id: u64, handle: &HandleRow)
    requires ends { length volume.old.content.pending ≤ volume.old.spare.ends }
    requires room { HasSweepRoom volume.old.content volume.old.spare handle.now }
    ensures content { volume.new.content ≡ with_closed volume.old.content id handle.now }
    ensures handles { volume.new.content.handles ≡ without_row volume.old.content.handles id }
    ensures clients { volume.new.content.clients ≡ volume.old.content.clients }
    ensures left { KeepsRoom volume.old.content handle.now volume.old.spare volume.new.spare }
    ensures notes { NotesTakeNoMore volume.old.content volume.new.content }
    ensures count { volume.old.spare.ends + length volume.new.content.pending ≤ volume.new.spare.ends + length volume.old.content.pending }
    ensures ends { KeepsEnds volume.old volume.new }
{
    take_out(volume, id, handle);
    mark_and_sweep(volume, handle);
}

// This handle is closed, once there is room.
fn close_row(volume: &mut Volume, id: u64, handle: &HandleRow) -> Tried
    ensures leaves { Leaves (ends_with (with_closed volume.old.content id handle.now) status.Success) volume.old volume.new result }
{
    if let Err(NoMemory) = room_to_close(volume, handle) {
        return Tried::NoMemory;
    }
    close(volume, id, handle);
    Tried::ends(Status::Success)
}

// The handle of this number is closed.
#[tactic(auto, unfolding(fsa_model::specs::Close::close_at))]
fn close_at(volume: &mut Volume, id: u64) -> Tried
    ensures leaves { Leaves (close_at volume.old.content id) volume.old volume.new result }
{
    let Some(row) = volume.handle(id) else {
        return Tried::ends(Status::InvalidHandle);
    };
    let handle = bare(row);
    close_row(volume, id, &handle)
}

// A client's handle of this number is closed.
#[tactic(auto, unfolding(fsa_model::specs::Close::try_close))]
fn close_named(volume: &mut Volume, client: u32, number: u32) -> Tried
    ensures leaves { Leaves (try_close volume.old.content client number) volume.old volume.new result }
{
    match volume.handle_of(client, number) {
        None => Tried::ends(Status::InvalidHandle),
        Some(id) => close_at(volume, id),
    }
}

/// One try of a close, after [MS-FSA] 'Server Requests Closing an Open'. The call has to be a Close, and
/// its client one of the volume's.
///
/// `Done` with the reply, as the definition says; never `Hold` or `Stay`. Of the room for ends it uses no
/// more than one for each call that ends. `NoMemory` changes nothing. A close needs neither
/// `_alloc` nor `_turn`.
pub fn try_close(_alloc: Global, volume: &mut Volume, call: &Call, _turn: u64) -> Tried
    requires verb { IsClose call.now.what }
    requires may { MayEnd volume.old.content call.now.client }
    ensures leaves { Leaves (asked_close volume.old.content call.now.client call.now.what) volume.old volume.new result }
{
    let What::Ask(Request::Close { handle }) = &call.what else {
        unreachable!()
    };
    close_named(volume, call.client, *handle)
}
