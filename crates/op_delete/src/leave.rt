//! A client that leaves.

ghost use Rattle.std.specs.Prelude.{◌≡◌, ◌≤◌, ◌<◌, ◌+◌, ◌*◌, ◌==◌, false, AllPairs, IsTrue, IfNone, IfSome, OnOk, length};
ghost use Rattle.std.specs.Option.{option_map_or};
ghost use Rattle.fsa_types.specs.Rows.{IsNumbered, lives, row_of, without_row};
ghost use Rattle.fsa_model.specs.Close.{handles_of_client, try_leave, with_all_closed, with_client_gone, with_closed};
ghost use Rattle.fsa_model.specs.Lookups.{has_row, is_opened_by};
ghost use Rattle.fsa_model.specs.Outcome.{ends_with};
ghost use Rattle.op_delete.specs.Calls.{IsLeave, asked_leave};
ghost use Rattle.op_delete.specs.Conditions.{MayEnd};
ghost use Rattle.op_delete.specs.Room.{CountsOne, HasRoomForAll, HasSweepRoom, IsFirst, KeepsRoom, NotesTakeNoMore, all_dirs, all_units, close_dirs, close_units};
ghost use Rattle.volume_state.specs.Room.{KeepsEnds};
ghost use Rattle.volume_state.specs.Tried.{Leaves};

use crate::close::{bare, close};
use crate::ends::{Ending, end_calls};
use crate::room::{close_room, ends};
use fsa_types::{Call, NoMemory, Status, What};
use std::alloc::Global;
use volume_state::{HandleRow, Need, Tried, Volume};

// The room for the closes of a client's handles, up to the one of number `after`.
#[derive(Clone, Copy)]
struct Sum {
    after: u32,
    changes: u32,
    units: u64,
    dirs: u64,
}

// With the close of this handle; `None` where it is more than can be told.
fn with_close(volume: &Volume, sum: Sum, handle: &HandleRow) -> Option<Sum>
    ensures { IfSome result (λ more. CountsOne volume.now.content sum more handle.now) }
{
    let room = close_room(volume, handle)?;
    Some(Sum {
        after: handle.number,
        changes: sum.changes.checked_add(2)?,
        units: sum.units.checked_add(room.units)?,
        dirs: sum.dirs.checked_add(room.dirs)?,
    })
}

// With the close of the handle of this number.
fn with_close_of(volume: &Volume, sum: Sum, id: u64) -> Option<Sum>
    ensures { IfSome result (λ more. IfSome (row_of volume.now.content.handles id) (λ row. CountsOne volume.now.content sum more row)) }
{
    let row = volume.handle(id)?;
    with_close(volume, sum, row)
}

// The client's handle of the least number; `None` exactly where it has none. `next_handle_of` looks above
// a number, so number 0 is asked for by itself.
fn first_handle_of(volume: &Volume, client: u32) -> Option<u64>
    ensures numbers { IsNumbered volume.now.content.handles volume.now.content.last_handle }
    ensures differ { AllPairs (λ a b. is_opened_by b.1.client b.1.number a.1 ≡ false) volume.now.content.handles }
    ensures lives { IfSome result (λ id. IsTrue (lives volume.now.content.handles id)) }
    ensures first { IfSome result (λ id. IfSome (row_of volume.now.content.handles id) (λ row. IsFirst volume.now.content client row)) }
    ensures none { IfNone result (has_row (λ row. row.client == client) volume.now.content.handles ≡ false) }
{
    let later = volume.next_handle_of(client, 0);
    match volume.handle_of(client, 0) {
        Some(id) => Some(id),
        None => later,
    }
}

// The room for the closes of all handles of a client; `None` where it is more than can be told.
fn sum_of_closes(volume: &Volume, client: u32) -> Option<Sum>
    ensures changes { IfSome result (λ sum. sum.changes ≡ 2 * length (handles_of_client volume.now.content client)) }
    ensures units { IfSome result (λ sum. sum.units ≡ all_units volume.now.content (handles_of_client volume.now.content client)) }
    ensures dirs { IfSome result (λ sum. sum.dirs ≡ all_dirs volume.now.content (handles_of_client volume.now.content client)) }
{
    let nothing = Sum {
        after: 0,
        changes: 0,
        units: 0,
        dirs: 0,
    };
    let Some(first) = first_handle_of(volume, client) else {
        return Some(nothing);
    };
    let mut sum = with_close_of(volume, nothing, first)?;
    'handles: while let Some(id) = volume.next_handle_of(client, sum.after) {
        sum = with_close_of(volume, sum, id)?;
    }
    Some(sum)
}

// What a leaving needs.
fn need_to_leave(volume: &Volume, client: u32) -> Option<Need>
    ensures ends { IfSome result (λ need. need.ends ≡ length volume.now.content.pending) }
    ensures changes { IfSome result (λ need. need.changes ≡ 2 * length (handles_of_client volume.now.content client)) }
    ensures units { IfSome result (λ need. need.units ≡ all_units volume.now.content (handles_of_client volume.now.content client)) }
    ensures dirs { IfSome result (λ need. need.dirs ≡ all_dirs volume.now.content (handles_of_client volume.now.content client)) }
{
    let ends = ends(volume)?;
    let sum = sum_of_closes(volume, client)?;
    Some(Need {
        changes: sum.changes,
        ends,
        units: sum.units,
        dirs: sum.dirs,
        ..Need::nothing()
    })
}

// Takes the room for a leaving: for the ends of all pending calls, and for two notes of each handle.
fn room_to_leave(volume: &mut Volume, client: u32) -> Result<(), NoMemory>
    ensures content { volume.new.content ≡ volume.old.content }
    ensures kept { volume.old.spare.ends ≤ volume.new.spare.ends }
    ensures pending_kept { volume.old.spare.pending ≤ volume.new.spare.pending }
    ensures ends { OnOk result (length volume.new.content.pending ≤ volume.new.spare.ends) }
    ensures room { OnOk result (HasRoomForAll volume.new.content volume.new.spare (handles_of_client volume.new.content client)) }
{
    let Some(need) = need_to_leave(volume, client) else {
        return Err(NoMemory);
    };
    volume.reserve(&need)
}

// Closes the handle of this number, which there has to be, and gives the number of the call that opened it.
fn close_one(volume: &mut Volume, id: u64) -> u32
    requires lives { IsTrue (lives volume.old.content.handles id) }
    requires ends { length volume.old.content.pending ≤ volume.old.spare.ends }
    requires room { IfSome (row_of volume.old.content.handles id) (λ row. HasSweepRoom volume.old.content volume.old.spare row) }
    ensures content { volume.new.content ≡ option_map_or (λ row. with_closed volume.old.content id row) (row_of volume.old.content.handles id) volume.old.content }
    ensures handles { volume.new.content.handles ≡ without_row volume.old.content.handles id }
    ensures clients { volume.new.content.clients ≡ volume.old.content.clients }
    ensures left { IfSome (row_of volume.old.content.handles id) (λ row. KeepsRoom volume.old.content row volume.old.spare volume.new.spare) }
    ensures notes { NotesTakeNoMore volume.old.content volume.new.content }
    ensures count { volume.old.spare.ends + length volume.new.content.pending ≤ volume.new.spare.ends + length volume.old.content.pending }
    ensures ends { KeepsEnds volume.old volume.new }
    ensures number { IfSome (row_of volume.old.content.handles id) (λ row. result ≡ row.number) }
{
    let Some(row) = volume.handle(id) else {
        unreachable!()
    };
    let number = row.number;
    let handle = bare(row);
    close(volume, id, &handle);
    number
}

// Closes a client's handles, by rising number.
fn close_all(volume: &mut Volume, client: u32)
    requires ends { length volume.old.content.pending ≤ volume.old.spare.ends }
    requires room { HasRoomForAll volume.old.content volume.old.spare (handles_of_client volume.old.content client) }
    ensures content { volume.new.content ≡ with_all_closed (handles_of_client volume.old.content client) volume.old.content }
    ensures clients { volume.new.content.clients ≡ volume.old.content.clients }
    ensures count { volume.old.spare.ends + length volume.new.content.pending ≤ volume.new.spare.ends + length volume.old.content.pending }
    ensures ends { KeepsEnds volume.old volume.new }
{
    let Some(first) = first_handle_of(volume, client) else {
        return;
    };
    let mut after = close_one(volume, first);
    'handles: while let Some(id) = volume.next_handle_of(client, after) {
        after = close_one(volume, id);
    }
}

// The client's opens and waits end, its handles are closed, and it has left.
fn client_gone(volume: &mut Volume, client: u32)
    requires client { client < length volume.old.content.clients }
    requires ends { length volume.old.content.pending ≤ volume.old.spare.ends }
    requires room { HasRoomForAll volume.old.content volume.old.spare (handles_of_client volume.old.content client) }
    ensures content { volume.new.content ≡ with_client_gone volume.old.content client }
    ensures ends { KeepsEnds volume.old volume.new }
{
    end_calls(volume, Ending::OfClient { client });
    close_all(volume, client);
    volume.leave(client);
}

// A client leaves, once there is room.
#[tactic(auto, unfolding(fsa_model::specs::Close::try_leave))]
fn leave(volume: &mut Volume, client: u32) -> Tried
    requires may { MayEnd volume.old.content client }
    ensures leaves { Leaves (try_leave volume.old.content client) volume.old volume.new result }
{
    if let Err(NoMemory) = room_to_leave(volume, client) {
        return Tried::NoMemory;
    }
    client_gone(volume, client);
    Tried::ends(Status::Success)
}

/// One try of a leaving: the client's pending opens and waits end, and its handles are closed, which is
/// [MS-FSA] 'Server Requests Closing an Open' for each. The call has to be a `Leave`, and its client one
/// of the volume's.
///
/// `Done` with the reply, as the definition says; never `Hold` or `Stay`. Of the room for ends it uses no
/// more than one for each call that ends. `NoMemory` changes nothing. A leaving needs neither
/// `_alloc` nor `_turn`.
pub fn try_leave(_alloc: Global, volume: &mut Volume, call: &Call, _turn: u64) -> Tried
    requires verb { IsLeave call.now.what }
    requires may { MayEnd volume.old.content call.now.client }
    ensures leaves { Leaves (asked_leave volume.old.content call.now.client call.now.what) volume.old volume.new result }
{
    let What::Leave = &call.what else {
        unreachable!()
    };
    leave(volume, call.client)
}
