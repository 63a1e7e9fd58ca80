//! The settlement of a turn: pending calls are taken up as long as one is ready, and then waits end where
//! all clients wait.

ghost use Rattle.std.specs.Prelude.{◌≡◌, ◌≤◌, ◌<◌, ◌+◌, ◌++◌, ◌∷◌, [], List, true, false, cond, length, map, option_map, Some, None, IfSome};
ghost use Rattle.fsa_types.specs.declared.request.CallId.{CallId};
ghost use Rattle.fsa_types.specs.declared.reply.Body.TheVariants.{Nothing};
ghost use Rattle.fsa_types.specs.declared.status.Status.TheVariants.{Stalled};
ghost use Rattle.fsa_model.specs.Bounds.{most_entries};
ghost use Rattle.fsa_model.specs.Close.{with_calls_ended};
ghost use Rattle.fsa_model.specs.Edits.{with_end};
ghost use Rattle.fsa_model.specs.Once.{made};
ghost use Rattle.fsa_model.specs.Settle.{settled};
ghost use Rattle.fsa_model.specs.Settling.{MayTakeUp, Reaches, TakesNext};
ghost use Rattle.fsa_model.specs.Turn.{ends_between};
ghost use Rattle.fsa_model.specs.Waiting.{next_ready, waits_in_order, with_stalled};
ghost use Rattle.fsa_model.specs.Watching.{due_size, report, with_watch_seen};
ghost use Rattle.fsa_machine.specs.Released.{how_many_let_go};
ghost use Rattle.fsa_machine.specs.Serves.{Serves, ServesOn};
ghost use Rattle.volume_state.specs.Waits.{id_of};
ghost use Rattle.fsa_machine.specs.Step.{HasReplyRoom, HasReportRoom, Starves, ready_of};

use crate::ends::{EndLists, tell};
use crate::replies::{ReplyRooms, copy_report, copy_twice, take_report_rooms, take_rooms};
use crate::steps::Steps;
use crate::store::{Ready, Report, Store};
use fsa_types::{Body, Call, CallId, CallIdList, EndOf, NoMemory, Reply, Status, TryCopy};
use std::alloc::Global;
use std::sync::ledger::Ledger;
use volume_state::Tried;

// The end of a call with this status and no body.
fn plain_end(client: u32, number: u32, status: Status) -> EndOf
    ensures { result ≡ record { client = client; number = number; reply = record { status = status; body = Nothing } } }
{
    let body = Body::Nothing;
    EndOf {
        client,
        number,
        reply: Reply { status, body },
    }
}

// The call ends with this status, and that is given out.
fn end_so<S: Store>(store: &mut S, client: u32, number: u32, status: Status, ended: &mut EndLists)
    requires room { 1 ≤ S.spare_ends store.old }
    requires told { length ended.old.items < ended.old.room }
    ensures content { S.content store.new ≡ with_end (S.content store.old) client number (record { status = status; body = Nothing }) }
    ensures left { S.spare_ends store.old ≤ S.spare_ends store.new + 1 }
    ensures told { ended.new.items ≡ ended.old.items ++ record { client = client; number = number; reply = record { status = status; body = Nothing } } ∷ [] }
    ensures pending_kept { S.spare_pending store.old ≤ S.spare_pending store.new }
    ensures told_room { ended.new.room ≡ ended.old.room }
{
    let EndOf { reply, .. } = plain_end(client, number, status);
    store.end(client, number, reply);
    let given = plain_end(client, number, status);
    let kept = plain_end(client, number, status);
    ended.push(given, kept);
}

// The call that is pending under this turn, and room for its reply; `None` where there is no memory.
fn held_call<S: Store>(alloc: Global, store: &S, ready: Ready) -> Option<(Call, ReplyRooms)>
    requires may { MayTakeUp (S.content store.now) }
    requires next { option_map (ready_of (S.content store.now)) (next_ready (S.content store.now)) ≡ Some ready }
    ensures call { IfSome result (λ found. option_map (λ entry. entry.1.call) (next_ready (S.content store.now)) ≡ Some found.0) }
    ensures room { IfSome result (λ found. HasReplyRoom found.0.what found.1) }
{
    let Some(call) = store.pending(ready.turn) else {
        unreachable!()
    };
    let Ok(call) = call.copy(alloc) else {
        return None;
    };
    let Ok(rooms) = take_rooms(alloc, &call.what) else {
        return None;
    };
    Some((call, rooms))
}

// A held call is tried again, with room for its reply, which is one step; `false` where it finds no memory, and
// nothing has changed then.
fn retry<S: Store, L: Ledger>(
    alloc: Global,
    store: &mut S,
    ready: Ready,
    call: &Call,
    rooms: ReplyRooms,
    ended: &mut EndLists,
    steps: &mut Steps<L>,
) -> bool
    requires serves { Serves (S.content store.old) }
    requires may { MayTakeUp (S.content store.old) }
    requires next { option_map (ready_of (S.content store.old)) (next_ready (S.content store.old)) ≡ Some ready }
    requires held { ready.held ≡ true }
    requires call { option_map (λ entry. entry.1.call) (next_ready (S.content store.old)) ≡ Some call.now }
    requires room { HasReplyRoom call.now.what rooms }
    requires few { made (S.content store.old) ≤ most_entries }
    requires ends { made (S.content store.old) ≤ S.spare_ends store.old + length (S.content store.old).ended }
    requires told { length ended.old.items + length (S.content store.old).pending ≤ ended.old.room }
    ensures tried { result ≡ true → TakesNext (S.content store.old) [] (S.content store.new) }
    ensures serves { result ≡ true → ServesOn (S.content store.old) (S.content store.new) }
    ensures none { result ≡ false → (S.content store.new ≡ S.content store.old) × (ended.new ≡ ended.old) }
    ensures ends { S.spare_ends store.old + length (S.content store.old).ended ≤ S.spare_ends store.new + length (S.content store.new).ended }
    ensures told { result ≡ true → ended.new.items ≡ ended.old.items ++ ends_between (S.content store.old) (S.content store.new) }
    ensures pending_kept { S.spare_pending store.old ≤ S.spare_pending store.new }
    ensures told_room { ended.new.room ≡ ended.old.room }
    ensures tries { steps.new ≤ steps.old + 1 }
    ensures rises { steps.old ≤ steps.new }
{
    let from = store.ends();
    steps.tick();
    match store.try_call(alloc, call, ready.turn) {
        Tried::NoMemory => false,
        Tried::Stay(_) => unreachable!(),
        Tried::Hold { blockers, .. } => {
            tell(alloc, store, from, ended);
            store.hold_anew(ready.turn, blockers);
            true
        }
        Tried::Done(reply) => {
            tell(alloc, store, from, ended);
            let Ready { client, number, .. } = ready;
            let (kept, given, reply) = copy_twice(reply, &call.what, rooms);
            store.end(client, number, kept);
            ended.push_end(client, number, given, reply);
            true
        }
    }
}

// A held call is tried again; `false` where it finds no memory, and nothing has changed then.
fn try_held<S: Store, L: Ledger>(
    alloc: Global,
    store: &mut S,
    ready: Ready,
    ended: &mut EndLists,
    steps: &mut Steps<L>,
) -> bool
    requires serves { Serves (S.content store.old) }
    requires may { MayTakeUp (S.content store.old) }
    requires next { option_map (ready_of (S.content store.old)) (next_ready (S.content store.old)) ≡ Some ready }
    requires held { ready.held ≡ true }
    requires few { made (S.content store.old) ≤ most_entries }
    requires ends { made (S.content store.old) ≤ S.spare_ends store.old + length (S.content store.old).ended }
    requires told { length ended.old.items + length (S.content store.old).pending ≤ ended.old.room }
    ensures tried { result ≡ true → TakesNext (S.content store.old) [] (S.content store.new) }
    ensures serves { result ≡ true → ServesOn (S.content store.old) (S.content store.new) }
    ensures none { result ≡ false → (S.content store.new ≡ S.content store.old) × (ended.new ≡ ended.old) }
    ensures starves { result ≡ false → Starves (S.content store.old) ready }
    ensures ends { S.spare_ends store.old + length (S.content store.old).ended ≤ S.spare_ends store.new + length (S.content store.new).ended }
    ensures told { result ≡ true → ended.new.items ≡ ended.old.items ++ ends_between (S.content store.old) (S.content store.new) }
    ensures pending_kept { S.spare_pending store.old ≤ S.spare_pending store.new }
    ensures told_room { ended.new.room ≡ ended.old.room }
    ensures tries { steps.new ≤ steps.old + 1 }
    ensures rises { steps.old ≤ steps.new }
{
    let Some((call, rooms)) = held_call(alloc, store, ready) else {
        return false;
    };
    retry(alloc, store, ready, &call, rooms, ended, steps)
}

// How many bytes a report takes.
fn report_size<S: Store>(store: &S, asked: Report) -> u64
    ensures { result ≡ due_size (S.content store.now) asked.handle }
{
    match store.due_size(asked.handle) {
        None => 0,
        Some(size) => size,
    }
}

// A Notify to which more is due than it has room for ends so. This takes no memory.
fn report_none<S: Store>(
    alloc: Global,
    store: &mut S,
    ready: Ready,
    asked: Report,
    ended: &mut EndLists,
)
    requires exceeds { asked.room < due_size (S.content store.old) asked.handle }
    requires room { 1 ≤ S.spare_ends store.old }
    requires told { length ended.old.items < ended.old.room }
    ensures content { S.content store.new ≡ with_end (with_watch_seen (S.content store.old) asked.handle) ready.client ready.number (report (S.content store.old) asked.handle asked.room) }
    ensures left { S.spare_ends store.old ≤ S.spare_ends store.new + 1 }
    ensures told { ended.new.items ≡ ended.old.items ++ record { client = ready.client; number = ready.number; reply = report (S.content store.old) asked.handle asked.room } ∷ [] }
    ensures pending_kept { S.spare_pending store.old ≤ S.spare_pending store.new }
    ensures told_room { ended.new.room ≡ ended.old.room }
{
    let Ready { client, number, .. } = ready;
    let Ok(_) = store.report(alloc, asked.handle, asked.room) else {
        unreachable!()
    };
    end_so(store, client, number, Status::NotifyEnumDir, ended);
}

// A Notify is reported to, with room for two copies of what is due where it has room for that; `false` where there is
// no memory, and nothing has changed then.
fn report_in<S: Store>(
    alloc: Global,
    store: &mut S,
    ready: Ready,
    asked: Report,
    size: usize,
    rooms: ReplyRooms,
    ended: &mut EndLists,
) -> bool
    requires size { due_size (S.content store.old) asked.handle ≤ asked.room → due_size (S.content store.old) asked.handle ≤ size }
    requires rooms { HasReportRoom size rooms }
    requires room { 1 ≤ S.spare_ends store.old }
    requires told { length ended.old.items < ended.old.room }
    ensures content { result ≡ true → S.content store.new ≡ with_end (with_watch_seen (S.content store.old) asked.handle) ready.client ready.number (report (S.content store.old) asked.handle asked.room) }
    ensures none { result ≡ false → (S.content store.new ≡ S.content store.old) × (ended.new ≡ ended.old) }
    ensures starves { result ≡ false → due_size (S.content store.old) asked.handle ≤ asked.room }
    ensures left { result ≡ true → S.spare_ends store.old ≤ S.spare_ends store.new + 1 }
    ensures unused { result ≡ false → S.spare_ends store.old ≤ S.spare_ends store.new }
    ensures told { result ≡ true → ended.new.items ≡ ended.old.items ++ record { client = ready.client; number = ready.number; reply = report (S.content store.old) asked.handle asked.room } ∷ [] }
    ensures pending_kept { S.spare_pending store.old ≤ S.spare_pending store.new }
    ensures told_room { ended.new.room ≡ ended.old.room }
{
    let Ready { client, number, .. } = ready;
    match store.report(alloc, asked.handle, asked.room) {
        Err(NoMemory) => false,
        Ok(reply) => {
            let (kept, given, reply) = copy_report(reply, size, rooms);
            store.end(client, number, kept);
            ended.push_end(client, number, given, reply);
            true
        }
    }
}

// A Notify is reported to, with room for as many bytes as are due, which are counted. `false` where there is no memory
// for a report that has bytes, and nothing has changed then.
fn report_counted<S: Store>(
    alloc: Global,
    store: &mut S,
    ready: Ready,
    asked: Report,
    ended: &mut EndLists,
) -> bool
    requires room { 1 ≤ S.spare_ends store.old }
    requires told { length ended.old.items < ended.old.room }
    ensures content { result ≡ true → S.content store.new ≡ with_end (with_watch_seen (S.content store.old) asked.handle) ready.client ready.number (report (S.content store.old) asked.handle asked.room) }
    ensures none { result ≡ false → (S.content store.new ≡ S.content store.old) × (ended.new ≡ ended.old) }
    ensures starves { result ≡ false → due_size (S.content store.old) asked.handle ≤ asked.room }
    ensures left { result ≡ true → S.spare_ends store.old ≤ S.spare_ends store.new + 1 }
    ensures unused { result ≡ false → S.spare_ends store.old ≤ S.spare_ends store.new }
    ensures told { result ≡ true → ended.new.items ≡ ended.old.items ++ record { client = ready.client; number = ready.number; reply = report (S.content store.old) asked.handle asked.room } ∷ [] }
    ensures pending_kept { S.spare_pending store.old ≤ S.spare_pending store.new }
    ensures told_room { ended.new.room ≡ ended.old.room }
{
    let size = report_size(store, asked);
    if size > asked.room as u64 {
        report_none(alloc, store, ready, asked, ended);
        return true;
    }
    let size = size as usize;
    let Ok(rooms) = take_report_rooms(alloc, size) else {
        return false;
    };
    report_in(alloc, store, ready, asked, size, rooms, ended)
}

// The watch of its handle reports to a Notify. Room for copies is taken for as many bytes as the Notify allows; where
// there is no memory for so many, what is due is counted and room taken for that. `false` where there is none for a
// report that has bytes, and nothing has changed then.
fn report_to<S: Store>(
    alloc: Global,
    store: &mut S,
    ready: Ready,
    asked: Report,
    ended: &mut EndLists,
) -> bool
    requires room { 1 ≤ S.spare_ends store.old }
    requires told { length ended.old.items < ended.old.room }
    ensures content { result ≡ true → S.content store.new ≡ with_end (with_watch_seen (S.content store.old) asked.handle) ready.client ready.number (report (S.content store.old) asked.handle asked.room) }
    ensures none { result ≡ false → (S.content store.new ≡ S.content store.old) × (ended.new ≡ ended.old) }
    ensures starves { result ≡ false → due_size (S.content store.old) asked.handle ≤ asked.room }
    ensures left { result ≡ true → S.spare_ends store.old ≤ S.spare_ends store.new + 1 }
    ensures unused { result ≡ false → S.spare_ends store.old ≤ S.spare_ends store.new }
    ensures told { result ≡ true → ended.new.items ≡ ended.old.items ++ record { client = ready.client; number = ready.number; reply = report (S.content store.old) asked.handle asked.room } ∷ [] }
    ensures pending_kept { S.spare_pending store.old ≤ S.spare_pending store.new }
    ensures told_room { ended.new.room ≡ ended.old.room }
{
    let size = asked.room as usize;
    match take_report_rooms(alloc, size) {
        Ok(rooms) => report_in(alloc, store, ready, asked, size, rooms, ended),
        Err(NoMemory) => report_counted(alloc, store, ready, asked, ended),
    }
}

// A Notify that is ready is reported to; `false` where there is no memory for it, and nothing has changed then.
fn try_report<S: Store>(
    alloc: Global,
    store: &mut S,
    ready: Ready,
    asked: Report,
    ended: &mut EndLists,
) -> bool
    requires serves { Serves (S.content store.old) }
    requires may { MayTakeUp (S.content store.old) }
    requires next { option_map (ready_of (S.content store.old)) (next_ready (S.content store.old)) ≡ Some ready }
    requires free { ready.held ≡ false }
    requires report { ready.report ≡ Some asked }
    requires ends { made (S.content store.old) ≤ S.spare_ends store.old + length (S.content store.old).ended }
    requires told { length ended.old.items + length (S.content store.old).pending ≤ ended.old.room }
    ensures tried { result ≡ true → TakesNext (S.content store.old) [] (S.content store.new) }
    ensures serves { result ≡ true → ServesOn (S.content store.old) (S.content store.new) }
    ensures none { result ≡ false → (S.content store.new ≡ S.content store.old) × (ended.new ≡ ended.old) }
    ensures starves { result ≡ false → Starves (S.content store.old) ready }
    ensures ends { S.spare_ends store.old + length (S.content store.old).ended ≤ S.spare_ends store.new + length (S.content store.new).ended }
    ensures told { result ≡ true → ended.new.items ≡ ended.old.items ++ ends_between (S.content store.old) (S.content store.new) }
    ensures pending_kept { S.spare_pending store.old ≤ S.spare_pending store.new }
    ensures told_room { ended.new.room ≡ ended.old.room }
{
    report_to(alloc, store, ready, asked, ended)
}

// A wait that is over ends.
fn end_wait<S: Store>(store: &mut S, ready: Ready, ended: &mut EndLists)
    requires serves { Serves (S.content store.old) }
    requires may { MayTakeUp (S.content store.old) }
    requires next { option_map (ready_of (S.content store.old)) (next_ready (S.content store.old)) ≡ Some ready }
    requires free { ready.held ≡ false }
    requires no_report { ready.report ≡ None }
    requires ends { made (S.content store.old) ≤ S.spare_ends store.old + length (S.content store.old).ended }
    requires told { length ended.old.items + length (S.content store.old).pending ≤ ended.old.room }
    ensures tried { TakesNext (S.content store.old) [] (S.content store.new) }
    ensures serves { ServesOn (S.content store.old) (S.content store.new) }
    ensures ends { S.spare_ends store.old + length (S.content store.old).ended ≤ S.spare_ends store.new + length (S.content store.new).ended }
    ensures told { ended.new.items ≡ ended.old.items ++ ends_between (S.content store.old) (S.content store.new) }
    ensures pending_kept { S.spare_pending store.old ≤ S.spare_pending store.new }
    ensures told_room { ended.new.room ≡ ended.old.room }
{
    let Ready { client, number, .. } = ready;
    end_so(store, client, number, Status::Success, ended);
}

// The ready call of the least turn is taken up; `false` where it finds no memory, and nothing has changed then. A
// step is taken only where it is a held call.
fn try_ready<S: Store, L: Ledger>(
    alloc: Global,
    store: &mut S,
    ready: Ready,
    ended: &mut EndLists,
    steps: &mut Steps<L>,
) -> bool
    requires serves { Serves (S.content store.old) }
    requires may { MayTakeUp (S.content store.old) }
    requires next { option_map (ready_of (S.content store.old)) (next_ready (S.content store.old)) ≡ Some ready }
    requires few { made (S.content store.old) ≤ most_entries }
    requires ends { made (S.content store.old) ≤ S.spare_ends store.old + length (S.content store.old).ended }
    requires told { length ended.old.items + length (S.content store.old).pending ≤ ended.old.room }
    ensures tried { result ≡ true → TakesNext (S.content store.old) [] (S.content store.new) }
    ensures serves { result ≡ true → ServesOn (S.content store.old) (S.content store.new) }
    ensures none { result ≡ false → (S.content store.new ≡ S.content store.old) × (ended.new ≡ ended.old) }
    ensures starves { result ≡ false → Starves (S.content store.old) ready }
    ensures ends { S.spare_ends store.old + length (S.content store.old).ended ≤ S.spare_ends store.new + length (S.content store.new).ended }
    ensures told { result ≡ true → ended.new.items ≡ ended.old.items ++ ends_between (S.content store.old) (S.content store.new) }
    ensures pending_kept { S.spare_pending store.old ≤ S.spare_pending store.new }
    ensures told_room { ended.new.room ≡ ended.old.room }
    ensures tries { steps.new ≤ steps.old + cond ready.held 1 0 }
    ensures rises { steps.old ≤ steps.new }
{
    if ready.held {
        return try_held(alloc, store, ready, ended, steps);
    }
    let Some(asked) = ready.report else {
        end_wait(store, ready, ended);
        return true;
    };
    try_report(alloc, store, ready, asked, ended)
}

// The ready call of the least turn is taken up; where it finds no memory it ends so, and is named.
fn take_up<S: Store, L: Ledger>(
    alloc: Global,
    store: &mut S,
    ready: Ready,
    ended: &mut EndLists,
    starved: &mut CallIdList,
    steps: &mut Steps<L>,
)
    requires serves { Serves (S.content store.old) }
    requires may { MayTakeUp (S.content store.old) }
    requires next { option_map (ready_of (S.content store.old)) (next_ready (S.content store.old)) ≡ Some ready }
    requires few { made (S.content store.old) ≤ most_entries }
    requires ends { made (S.content store.old) ≤ S.spare_ends store.old + length (S.content store.old).ended }
    requires told { length ended.old.items + length (S.content store.old).pending ≤ ended.old.room }
    requires named { length starved.old.items + length (S.content store.old).pending ≤ starved.old.room }
    ensures step { (more : List CallId) × (starved.new.items ≡ starved.old.items ++ more) × TakesNext (S.content store.old) more (S.content store.new) }
    ensures serves { ServesOn (S.content store.old) (S.content store.new) }
    ensures ends { S.spare_ends store.old + length (S.content store.old).ended ≤ S.spare_ends store.new + length (S.content store.new).ended }
    ensures told { ended.new.items ≡ ended.old.items ++ ends_between (S.content store.old) (S.content store.new) }
    ensures pending_kept { S.spare_pending store.old ≤ S.spare_pending store.new }
    ensures told_room { ended.new.room ≡ ended.old.room }
    ensures named_room { starved.new.room ≡ starved.old.room }
    ensures tries { steps.new + how_many_let_go (S.content store.new) ≤ steps.old + how_many_let_go (S.content store.old) }
    ensures rises { steps.old ≤ steps.new }
{
    if try_ready(alloc, store, ready, ended, steps) {
        return;
    }
    let Ready { client, number, .. } = ready;
    end_so(store, client, number, Status::NoMemory, ended);
    starved.push(CallId { client, number });
}

// Calls are taken up until none is ready.
fn take_up_all<S: Store, L: Ledger>(
    alloc: Global,
    store: &mut S,
    ended: &mut EndLists,
    starved: &mut CallIdList,
    steps: &mut Steps<L>,
)
    requires serves { Serves (S.content store.old) }
    requires may { MayTakeUp (S.content store.old) }
    requires few { made (S.content store.old) ≤ most_entries }
    requires ends { made (S.content store.old) ≤ S.spare_ends store.old + length (S.content store.old).ended }
    requires told { length ended.old.items + length (S.content store.old).pending ≤ ended.old.room }
    requires none { starved.old.items ≡ [] }
    requires named { length (S.content store.old).pending ≤ starved.old.room }
    ensures reaches { Reaches (S.content store.old) starved.new.items (S.content store.new) }
    ensures serves { ServesOn (S.content store.old) (S.content store.new) }
    ensures few_named { length starved.new.items ≤ starved.old.room }
    ensures done { next_ready (S.content store.new) ≡ None }
    ensures named_room { starved.new.room ≡ starved.old.room }
    ensures ends { S.spare_ends store.old + length (S.content store.old).ended ≤ S.spare_ends store.new + length (S.content store.new).ended }
    ensures told { ended.new.items ≡ ended.old.items ++ ends_between (S.content store.old) (S.content store.new) }
    ensures pending_kept { S.spare_pending store.old ≤ S.spare_pending store.new }
    ensures told_room { ended.new.room ≡ ended.old.room }
    ensures tries { steps.new ≤ steps.old + how_many_let_go (S.content store.old) }
    ensures rises { steps.old ≤ steps.new }
{
    'turns: while let Some(ready) = store.next_ready() {
        take_up(alloc, store, ready, ended, starved, steps);
    }
}

// These waits end, since all clients wait.
fn end_waits<S: Store>(store: &mut S, waits: &CallIdList, ended: &mut EndLists)
    requires is { waits.now.items ≡ map id_of (waits_in_order (S.content store.old)) }
    requires ends { length waits.now.items ≤ S.spare_ends store.old }
    requires told { length ended.old.items + length waits.now.items ≤ ended.old.room }
    ensures pending_kept { S.spare_pending store.old ≤ S.spare_pending store.new }
    ensures ends { S.spare_ends store.old + length (S.content store.old).ended ≤ S.spare_ends store.new + length (S.content store.new).ended }
    ensures told_room { ended.new.room ≡ ended.old.room }
    ensures content { S.content store.new ≡ with_calls_ended (λ _. Stalled) (waits_in_order (S.content store.old)) (S.content store.old) }
    ensures told { ended.new.items ≡ ended.old.items ++ ends_between (S.content store.old) (S.content store.new) }
{
    for id in waits.as_slice() {
        end_so(store, id.client, id.number, Status::Stalled, ended);
    }
}

// Where all clients wait, the waits end.
fn stall<S: Store>(store: &mut S, waits: &mut CallIdList, ended: &mut EndLists)
    requires none { waits.old.items ≡ [] }
    requires waits { length (S.content store.old).pending ≤ waits.old.room }
    requires ends { length (S.content store.old).pending ≤ S.spare_ends store.old }
    requires told { length ended.old.items + length (S.content store.old).pending ≤ ended.old.room }
    ensures pending_kept { S.spare_pending store.old ≤ S.spare_pending store.new }
    ensures ends { S.spare_ends store.old + length (S.content store.old).ended ≤ S.spare_ends store.new + length (S.content store.new).ended }
    ensures told_room { ended.new.room ≡ ended.old.room }
    ensures content { S.content store.new ≡ with_stalled (S.content store.old) }
    ensures told { ended.new.items ≡ ended.old.items ++ ends_between (S.content store.old) (S.content store.new) }
{
    if store.all_wait() {
        store.list_waits(waits);
        end_waits(store, waits, ended);
    }
}

/// Settles what is pending: takes up calls as long as one is ready, names those that found no memory, and
/// ends the waits where all clients wait. All ends are given out. Each try of a held call is one step.
pub fn settle<S: Store, L: Ledger>(
    alloc: Global,
    store: &mut S,
    waits: &mut CallIdList,
    ended: &mut EndLists,
    starved: &mut CallIdList,
    steps: &mut Steps<L>,
)
    requires serves { Serves (S.content store.old) }
    requires may { MayTakeUp (S.content store.old) }
    requires few { made (S.content store.old) ≤ most_entries }
    requires ends { made (S.content store.old) ≤ S.spare_ends store.old + length (S.content store.old).ended }
    requires told { length ended.old.items + length (S.content store.old).pending ≤ ended.old.room }
    requires none { starved.old.items ≡ [] }
    requires named { length (S.content store.old).pending ≤ starved.old.room }
    requires no_waits { waits.old.items ≡ [] }
    requires waits { made (S.content store.old) ≤ waits.old.room + length (S.content store.old).ended }
    ensures content { S.content store.new ≡ (settled (S.content store.old) starved.new.items).volume }
    ensures all { (settled (S.content store.old) starved.new.items).starved ≡ [] }
    ensures serves { ServesOn (S.content store.old) (S.content store.new) }
    ensures pending_kept { S.spare_pending store.old ≤ S.spare_pending store.new }
    ensures ends { S.spare_ends store.old + length (S.content store.old).ended ≤ S.spare_ends store.new + length (S.content store.new).ended }
    ensures longer { length (S.content store.old).ended ≤ length (S.content store.new).ended }
    ensures told_room { ended.new.room ≡ ended.old.room }
    ensures named_room { starved.new.room ≡ starved.old.room }
    ensures few_named { length starved.new.items ≤ starved.old.room }
    ensures told { ended.new.items ≡ ended.old.items ++ ends_between (S.content store.old) (S.content store.new) }
    ensures tries { steps.new ≤ steps.old + how_many_let_go (S.content store.old) }
    ensures rises { steps.old ≤ steps.new }
{
    take_up_all(alloc, store, ended, starved, steps);
    stall(store, waits, ended);
}
