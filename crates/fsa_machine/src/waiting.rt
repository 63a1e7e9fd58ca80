//! Waiting for a call, and cancelling one.

ghost use Rattle.std.specs.Prelude.{◌≡◌, ◌≤◌};
ghost use Rattle.fsa_machine.specs.Serves.{KnowsEarlier};
ghost use Rattle.fsa_model.specs.Outcome.{Stay};
ghost use Rattle.fsa_model.specs.Waiting.{is_pending, try_cancel, try_wait, with_cancelled};
ghost use Rattle.volume_state.specs.Room.{KeepsEnds};
ghost use Rattle.volume_state.specs.Tried.{HasAnswer, Leaves};

use fsa_types::{Body, Interim, NoMemory, Reply, Status};
use volume_state::{Need, Tried, Volume};

// Whether the client's call of this number is pending.
fn is_pending(volume: &Volume, client: u32, number: u32) -> bool
    ensures { result ≡ is_pending volume.now.content client number }
{
    volume.pending_turn(client, number).is_some()
}

// The call waits; there is room for it then.
fn stay(volume: &mut Volume) -> Tried
    ensures leaves { Leaves (Stay volume.old.content Interim.Waiting) volume.old volume.new result }
{
    let need = Need {
        pending: 1,
        ..Need::nothing()
    };
    match volume.reserve(&need) {
        Ok(()) => Tried::Stay(Interim::Waiting),
        Err(NoMemory) => Tried::NoMemory,
    }
}

/// One try of the wait of this number for an earlier call of the client: SUCCESS once that has ended;
/// until then the wait stays pending. INVALID_PARAMETER where no call of that number was made before.
///
/// Of the calls of lesser numbers it has to be known that they were made. So what isn't pending has
/// ended, and what has ended is never looked through. `NoMemory`, where there is no room for one more
/// pending call, changes nothing.
#[tactic(auto, unfolding(fsa_model::specs::Waiting::try_wait))]
pub fn try_wait(volume: &mut Volume, client: u32, number: u32, earlier: u32) -> Tried
    requires known { KnowsEarlier volume.old.content client number earlier }
    ensures leaves { Leaves (try_wait volume.old.content client earlier) volume.old volume.new result }
{
    if is_pending(volume, client, earlier) {
        return stay(volume);
    }
    if earlier == 0 || earlier >= number {
        return Tried::ends(Status::InvalidParameter);
    }
    Tried::ends(Status::Success)
}

// The client's call of this number, which is pending under this turn, ends CANCELLED, and gives up the
// oplock that is granted to it.
fn cancel(volume: &mut Volume, client: u32, number: u32, turn: u64)
    requires room { 1 ≤ volume.old.spare.ends }
    ensures content { volume.new.content ≡ with_cancelled volume.old.content client number turn }
    ensures ends { KeepsEnds volume.old volume.new }
{
    volume.give_up(turn);
    let reply = Reply {
        status: Status::Cancelled,
        body: Body::Nothing,
    };
    volume.end(client, number, reply);
}

/// One try of a Cancel, after [MS-FSA] 'Server Requests Canceling an Operation': the client's call of this
/// number ends CANCELLED where it is pending, and the cancellation with SUCCESS; else it is refused with
/// INVALID_PARAMETER. An oplock that is granted to the call is given up.
///
/// There has to be room for one end. It takes no memory.
#[tactic(auto, unfolding(fsa_model::specs::Waiting::try_cancel))]
pub fn try_cancel(volume: &mut Volume, client: u32, number: u32) -> Tried
    requires room { 1 ≤ volume.old.spare.ends }
    ensures leaves { Leaves (try_cancel volume.old.content client number) volume.old volume.new result }
    ensures answer { HasAnswer result }
{
    let Some(turn) = volume.pending_turn(client, number) else {
        return Tried::ends(Status::InvalidParameter);
    };
    cancel(volume, client, number, turn);
    Tried::ends(Status::Success)
}
