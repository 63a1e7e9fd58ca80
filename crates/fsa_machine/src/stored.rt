//! The volume, as a turn sees it.

ghost use Rattle.std.specs.Prelude.{◌≡◌, ◌≤◌, ◌+◌, ◌==◌, ℕ, [], Option, IfOk, IfSome, OnErr, OnOk, false, find, is_some, length, map, option_map, slice_get, true};
ghost use Rattle.std.specs.Option.{option_copied, option_map_or};
ghost use Rattle.fsa_types.specs.Rows.{row_of};
ghost use Rattle.fsa_machine.specs.Serves.{HoldsRightly, MayHoldAnew, MayPend, MayTry, Serves};
ghost use Rattle.fsa_machine.specs.Spare.{is_ack_or_cancel};
ghost use Rattle.fsa_machine.specs.Step.{ready_of, report_to};
ghost use Rattle.fsa_machine.specs.Tried.{HasPendRoom};
ghost use Rattle.fsa_machine.specs.Trimmed.{trimmed_base};
ghost use Rattle.fsa_model.specs.Edits.{with_blockers, with_end, with_pending};
ghost use Rattle.fsa_model.specs.Once.{is_end};
ghost use Rattle.fsa_model.specs.Try.{try};
ghost use Rattle.fsa_model.specs.Waiting.{all_wait, next_ready, waits, waits_in_order};
ghost use Rattle.fsa_model.specs.Watching.{due_size, is_something_due, report, with_watch_seen};
ghost use Rattle.volume_state.specs.Tried.{Gives, HasAnswer};
ghost use Rattle.volume_state.specs.Waits.{id_of, lesser};

use crate::serving;
use crate::store::{Ready, Report, Store};
use fsa_types::{BlockerList, Call, CallIdList, EndOf, NoMemory, Reply, Request, What};
use op_dir::report;
use std::alloc::Global;
use volume_state::{Need, Tried, Volume};

// The lesser of two numbers, where they are there.
fn lesser(a: Option<u64>, b: Option<u64>) -> Option<u64>
    ensures { result ≡ lesser a b }
{
    match (a, b) {
        (None, b) => b,
        (Some(a), None) => Some(a),
        (Some(a), Some(b)) => Some(if a < b { a } else { b }),
    }
}

// Whether a turn is this one.
fn is_turn(first: Option<u64>, turn: u64) -> bool
    ensures { result ≡ option_map_or (λ other. other == turn) first false }
{
    match first {
        None => false,
        Some(other) => other == turn,
    }
}

// What is reported to a call, where it is a Notify and its handle is there.
fn report_to(volume: &Volume, client: u32, what: &What) -> Option<Report>
    ensures { result ≡ report_to volume.now.content client what.now }
{
    match what {
        What::Ask(Request::Notify { handle, room, .. }) => match volume.handle_of(client, *handle) {
            None => None,
            Some(id) => Some(Report {
                handle: id,
                room: *room,
            }),
        },
        _ => None,
    }
}

// The ready call of the least turn: the held one that is let go first, the first wait that is over, or the first
// Notify to which something is due.
fn next_ready(volume: &Volume) -> Option<Ready>
    requires serves { Serves volume.now.content }
    requires rightly { HoldsRightly volume.now.content }
    ensures { result ≡ option_map (ready_of volume.now.content) (next_ready volume.now.content) }
{
    let let_go = volume.next_held();
    let over = volume.next_over();
    let due = volume.next_due();
    let unheld = lesser(over, due);
    let Some(turn) = lesser(let_go, unheld) else {
        return None;
    };
    let Some(call) = volume.pending(turn) else {
        return None;
    };
    Some(Ready {
        turn,
        client: call.client,
        number: call.number,
        held: is_turn(let_go, turn),
        report: report_to(volume, call.client, &call.what),
    })
}

impl Store for Volume {
    ghost content = { λ v. v.content };

    ghost log_base = { λ v. v.beside.base };

    ghost spare_ends = { λ v. v.spare.ends };

    ghost spare_pending = { λ v. v.spare.pending };

    ghost spare_blockers = { λ v. v.spare.blockers };

    fn pending_calls(&self) -> usize {
        self.pending_calls()
    }

    fn ends(&self) -> usize {
        self.ended_calls()
    }

    fn end_at(&self, i: usize) -> Option<&EndOf> {
        self.ended(i as u64)
    }

    fn end_of(&self, client: u32, number: u32) -> Option<&EndOf> {
        self.end_of(client, number)
    }

    fn reserve(&mut self, ends: usize, pending: usize) -> Result<(), NoMemory> {
        let Ok(ends) = u32::try_from(ends) else {
            return Err(NoMemory);
        };
        let Ok(pending) = u32::try_from(pending) else {
            return Err(NoMemory);
        };
        self.reserve(&Need {
            ends,
            pending,
            ..Need::nothing()
        })
    }

    fn try_call(&mut self, alloc: Global, call: &Call, turn: u64) -> Tried {
        serving::try_call(alloc, self, call, turn)
    }

    fn end(&mut self, client: u32, number: u32, reply: Reply) {
        self.end(client, number, reply)
    }

    fn pend(&mut self, turn: u64, call: Call, blockers: BlockerList) {
        self.pend(turn, call, blockers)
    }

    fn hold_anew(&mut self, turn: u64, blockers: BlockerList) {
        self.hold_anew(turn, blockers)
    }

    fn next_ready(&self) -> Option<Ready> {
        next_ready(self)
    }

    fn due_size(&self, handle: u64) -> Option<u64> {
        self.due_size(handle)
    }

    fn report(&mut self, alloc: Global, handle: u64, room: u32) -> Result<Reply, NoMemory> {
        report(alloc, self, handle, room)
    }

    fn trim(&mut self) {
        self.trim_changes();
    }

    fn pending(&self, turn: u64) -> Option<&Call> {
        self.pending(turn)
    }

    fn waits(&self, client: u32) -> bool {
        self.waits(client)
    }

    fn all_wait(&self) -> bool {
        self.all_wait()
    }

    fn list_waits(&self, list: &mut CallIdList) {
        self.list_waits(list)
    }
}
