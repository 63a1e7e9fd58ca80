//! The acknowledgement of a break, in the order of its checks.

ghost use Rattle.std.specs.Prelude.{◌≡◌, ◌≤◌, true, false};
ghost use Rattle.fsa_types.specs.Oplocks.{has_read};
ghost use Rattle.fsa_model.specs.Grant.{ack_at, try_ack};
ghost use Rattle.op_oplock.specs.Calls.{IsAck, asked_ack};
ghost use Rattle.volume_state.specs.Tried.{HasAnswer, Leaves};

use crate::room::room_to_stay;
use fsa_types::{Body, Call, Interim, Level, NoMemory, Request, Status, What};
use std::alloc::Global;
use volume_state::{Tried, Volume};

// What is answered where this level stays of an oplock, or none.
fn acknowledged(kept: Level) -> Tried
    ensures some { has_read kept ≡ true → result ≡ Tried.Stay (Interim.Granted kept) }
    ensures none { has_read kept ≡ false → result ≡ Tried.Done (record { status = Status.Success; body = Body.Left Level.Nil }) }
    ensures answer { HasAnswer result }
{
    match kept {
        Level::Nil => Tried::succeeds(Body::Left(Level::Nil)),
        Level::R | Level::RH | Level::RW | Level::RWH => Tried::Stay(Interim::Granted(kept)),
    }
}

// The break of the oplock of the handle of this number is answered, once there is room.
#[tactic(auto, using(crate::proofs::AckLaws::gives_answer), unfolding(fsa_model::specs::Grant::ack_at))]
fn answer(volume: &mut Volume, id: u64, level: Level, turn: u64) -> Tried
    requires room { 1 ≤ volume.old.spare.pending }
    ensures leaves { Leaves (ack_at volume.old.content id level turn) volume.old volume.new result }
    ensures answer { HasAnswer result }
{
    match volume.answer_break(id, level, turn) {
        None => Tried::ends(Status::InvalidOplockProtocol),
        Some(kept) => acknowledged(kept),
    }
}

// The same, where there is room.
fn ack_at(volume: &mut Volume, id: u64, level: Level, turn: u64) -> Tried
    ensures leaves { Leaves (ack_at volume.old.content id level turn) volume.old volume.new result }
    ensures memory { 1 ≤ volume.old.spare.pending → HasAnswer result }
{
    if let Err(NoMemory) = room_to_stay(volume) {
        return Tried::NoMemory;
    }
    answer(volume, id, level, turn)
}

// One try of an acknowledgement.
#[tactic(auto, unfolding(fsa_model::specs::Grant::try_ack))]
fn ack(volume: &mut Volume, client: u32, handle: u32, level: Level, turn: u64) -> Tried
    ensures leaves { Leaves (try_ack volume.old.content client handle level turn) volume.old volume.new result }
    ensures memory { 1 ≤ volume.old.spare.pending → HasAnswer result }
{
    let Some(id) = volume.handle_of(client, handle) else {
        return Tried::ends(Status::InvalidHandle);
    };
    ack_at(volume, id, level, turn)
}

/// One try of an Ack, after [MS-FSA] 'Server Acknowledges an Oplock Break'. The call has to be one.
///
/// `Stay` where something stays of the oplock: what the call asks for, but no more than its holder was
/// told. The break has ended, and the call is to be pending under `turn`, for which there is room. `Done`
/// where nothing stays, and the oplock has ended, or where the call is refused; never `Hold`. It uses no room
/// for ends. `NoMemory` changes nothing, and doesn't come where the volume has room for one pending call.
/// `_alloc` is that of every try.
pub fn try_ack(_alloc: Global, volume: &mut Volume, call: &Call, turn: u64) -> Tried
    requires verb { IsAck call.now.what }
    ensures leaves { Leaves (asked_ack volume.old.content call.now.client turn call.now.what) volume.old volume.new result }
    ensures memory { 1 ≤ volume.old.spare.pending → HasAnswer result }
{
    let What::Ask(Request::Ack { handle, level }) = &call.what else {
        unreachable!()
    };
    ack(volume, call.client, *handle, *level, turn)
}
