//! Pending calls that end with a handle, or with a client that leaves.

ghost use Rattle.std.specs.Prelude.{◌≡◌, ◌≤◌, ◌+◌, ◌==◌, ◌&&◌, [], false, nat_lt, IfNone, IfSome, IsTrue, length};
ghost use Rattle.std.specs.List.{list_any};
ghost use Rattle.fsa_types.specs.Rows.{lives};
ghost use Rattle.fsa_model.specs.Close.{closed_status, is_open_or_wait};
ghost use Rattle.fsa_model.specs.Sound.{ArePending};
ghost use Rattle.op_delete.specs.Ends.{end_status, ends_call, with_ending, with_turn_ended};
ghost use Rattle.op_delete.specs.declared.ends.Ending.TheVariants.{OfHandle};
ghost use Rattle.volume_state.specs.Room.{KeepsEnds};

use fsa_types::{Body, Call, Reply, Request, Status, What};
use volume_breaks::names;
use volume_state::Volume;

/// Which pending calls end.
#[derive(Clone, Copy)]
pub enum Ending {
    /// Those that name a handle which is closed.
    OfHandle {
        /// The client, by its place in the setup.
        client: u32,
        /// The number of the client's call that opened the handle.
        handle: u32,
    },
    /// The opens and waits of a client that leaves.
    OfClient {
        /// The client, by its place in the setup.
        client: u32,
    },
}

impl Ending {
    // Whether the call is one of those that end.
    fn ends(self, call: &Call) -> bool
        ensures { result ≡ ends_call self call.now }
    {
        match self {
            Ending::OfHandle { client, handle } => {
                call.client == client && names(&call.what, handle)
            }
            Ending::OfClient { client } => call.client == client && is_open_or_wait(&call.what),
        }
    }

    // How it ends.
    fn status(self, what: &What) -> Status
        ensures { result ≡ end_status self what.now }
    {
        match self {
            Ending::OfHandle { .. } => closed_status(what),
            Ending::OfClient { .. } => Status::Cancelled,
        }
    }
}

// How a pending call ends whose handle is closed.
fn closed_status(what: &What) -> Status
    ensures { result ≡ closed_status what.now }
{
    match what {
        What::Ask(Request::Notify { .. }) => Status::NotifyCleanup,
        What::Ask(Request::Oplock { .. } | Request::Ack { .. }) => Status::OplockHandleClosed,
        _ => Status::Cancelled,
    }
}

// An open, or a wait for another call.
fn is_open_or_wait(what: &What) -> bool
    ensures { result ≡ is_open_or_wait what.now }
{
    match what {
        What::Ask(Request::Create { .. }) => true,
        What::WaitFor(_) => true,
        _ => false,
    }
}

// The call that is pending under this turn ends, where it is one of those.
fn end_turn(volume: &mut Volume, ending: Ending, turn: u64)
    requires room { 1 ≤ volume.old.spare.ends }
    ensures content { volume.new.content ≡ with_turn_ended ending turn volume.old.content }
    ensures rest { volume.new.content ≡ record volume.old.content { pending = volume.new.content.pending; ended = volume.new.content.ended } }
    ensures others { volume.new.spare ≡ record volume.old.spare { ends = volume.new.spare.ends; pending = volume.new.spare.pending; blockers = volume.new.spare.blockers } }
    ensures count { volume.old.spare.ends + length volume.new.content.pending ≤ volume.new.spare.ends + length volume.old.content.pending }
    ensures ends { KeepsEnds volume.old volume.new }
{
    let Some(call) = volume.pending(turn) else {
        return;
    };
    if !ending.ends(call) {
        return;
    }
    let status = ending.status(&call.what);
    let (client, number) = (call.client, call.number);
    volume.end(
        client,
        number,
        Reply {
            status,
            body: Body::Nothing,
        },
    );
}

// The least turn under which a call is pending; `None` exactly where none is. `next_pending` looks above
// a turn, so turn 0 is asked for by itself.
fn first_pending(volume: &Volume) -> Option<u64>
    ensures sound { ArePending volume.now.content.clients volume.now.content.pending }
    ensures lives { IfSome result (λ turn. IsTrue (lives volume.now.content.pending turn)) }
    ensures least { IfSome result (λ turn. list_any (λ entry. nat_lt entry.0 turn) volume.now.content.pending ≡ false) }
    ensures none { IfNone result (volume.now.content.pending ≡ []) }
{
    let later = volume.next_pending(0);
    match volume.pending(0) {
        Some(_) => Some(0),
        None => later,
    }
}

// The calls of this kind end, in order of turns, with a look at each that is pending.
fn end_each(volume: &mut Volume, ending: Ending)
    requires room { length volume.old.content.pending ≤ volume.old.spare.ends }
    ensures content { volume.new.content ≡ with_ending ending volume.old.content }
    ensures rest { volume.new.content ≡ record volume.old.content { pending = volume.new.content.pending; ended = volume.new.content.ended } }
    ensures others { volume.new.spare ≡ record volume.old.spare { ends = volume.new.spare.ends; pending = volume.new.spare.pending; blockers = volume.new.spare.blockers } }
    ensures count { volume.old.spare.ends + length volume.new.content.pending ≤ volume.new.spare.ends + length volume.old.content.pending }
    ensures ends { KeepsEnds volume.old volume.new }
{
    let Some(first) = first_pending(volume) else {
        return;
    };
    end_turn(volume, ending, first);
    let mut after = first;
    'turns: while let Some(turn) = volume.next_pending(after) {
        end_turn(volume, ending, turn);
        after = turn;
    }
}

// The calls that name a handle which is closed end, in order of turns. No others are looked at.
fn end_on(volume: &mut Volume, client: u32, handle: u32)
    requires room { length volume.old.content.pending ≤ volume.old.spare.ends }
    ensures content { volume.new.content ≡ with_ending (OfHandle client handle) volume.old.content }
    ensures rest { volume.new.content ≡ record volume.old.content { pending = volume.new.content.pending; ended = volume.new.content.ended } }
    ensures others { volume.new.spare ≡ record volume.old.spare { ends = volume.new.spare.ends; pending = volume.new.spare.pending; blockers = volume.new.spare.blockers } }
    ensures count { volume.old.spare.ends + length volume.new.content.pending ≤ volume.new.spare.ends + length volume.old.content.pending }
    ensures ends { KeepsEnds volume.old volume.new }
{
    'turns: while let Some(turn) = volume.first_pending_on(client, handle) {
        end_turn(volume, Ending::OfHandle { client, handle }, turn);
    }
}

/// The pending calls of this kind end, in order of turns. There has to be room for as many ends as there
/// are pending calls. Those that name a handle are found without a look at the others.
pub fn end_calls(volume: &mut Volume, ending: Ending)
    requires room { length volume.old.content.pending ≤ volume.old.spare.ends }
    ensures content { volume.new.content ≡ with_ending ending volume.old.content }
    ensures rest { volume.new.content ≡ record volume.old.content { pending = volume.new.content.pending; ended = volume.new.content.ended } }
    ensures others { volume.new.spare ≡ record volume.old.spare { ends = volume.new.spare.ends; pending = volume.new.spare.pending; blockers = volume.new.spare.blockers } }
    ensures count { volume.old.spare.ends + length volume.new.content.pending ≤ volume.new.spare.ends + length volume.old.content.pending }
    ensures ends { KeepsEnds volume.old volume.new }
{
    match ending {
        Ending::OfHandle { client, handle } => end_on(volume, client, handle),
        Ending::OfClient { .. } => end_each(volume, ending),
    }
}
