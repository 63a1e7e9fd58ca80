//! The calls that end where oplocks are broken, after [MS-FSA] 'Algorithm to Check for an Oplock Break'.

ghost use Rattle.std.specs.Prelude.{◌≡◌, ◌≤◌, ◌+◌, ◌++◌, ◌∷◌, [], not, true, length, filter, fold, is_some, option_map, option_and_then, if◌then◌else◌};
ghost use Rattle.std.specs.Option.{option_map_or};
ghost use Rattle.fsa_types.specs.Rows.{row_of};
ghost use Rattle.fsa_model.specs.Breaks.{with_told};
ghost use Rattle.fsa_model.specs.Edits.{is_call, with_end};
ghost use Rattle.fsa_model.specs.Volume.{Volume};
ghost use Rattle.object_tables.specs.Series.{HoldsAsMany};
ghost use Rattle.volume_breaks.specs.Breaks.{with_calls, with_holder_told};
ghost use Rattle.volume_breaks.specs.Calls.{StayHeld};
ghost use Rattle.volume_breaks.specs.Told.{has_call};

use crate::end_table::EndTable;
use crate::pending_calls::PendingCalls;
use crate::telling::Told;
use fsa_types::{Body, EndOf, Level, Reply, Status};

/// A call has ended with this reply; where it was pending it is so no more.
pub fn end_call(
    pending: &mut PendingCalls,
    ended: &mut EndTable,
    client: u32,
    number: u32,
    reply: Reply,
)
    requires room { 1 ≤ ended.old.room }
    ensures pending { pending.new ≡ record pending.old { items = filter (λ entry. not (is_call client number entry.1)) pending.old.items; held = pending.new.held } }
    ensures held { StayHeld pending.old pending.new }
    ensures ended { ended.new.items ≡ ended.old.items ++ record { client = client; number = number; reply = reply } ∷ [] }
    ensures left { ended.old.room ≤ ended.new.room + 1 }
    ensures ends { HoldsAsMany ended.old ended.new }
{
    pending.end(client, number);
    ended.push(EndOf {
        client,
        number,
        reply,
    });
}

// The client and the number of the call that is pending under this turn.
fn pending_call(pending: &PendingCalls, turn: Option<u64>) -> Option<(u32, u32)>
    ensures { result ≡ option_map (λ row. (row.call.client, row.call.number)) (option_and_then (row_of pending.now.items) turn) }
{
    match turn {
        None => None,
        Some(turn) => match pending.call_of(turn) {
            None => None,
            Some(call) => Some((call.client, call.number)),
        },
    }
}

/// The call that is pending under this turn ends with this reply, where there is one.
pub fn end_pending(
    pending: &mut PendingCalls,
    ended: &mut EndTable,
    turn: Option<u64>,
    reply: Reply,
)
    requires room { is_some turn ≡ true → 1 ≤ ended.old.room }
    ensures done { (v : Volume) → with_calls v pending.new.items ended.new.items ≡ option_map_or (λ row. with_end (with_calls v pending.old.items ended.old.items) row.call.client row.call.number reply) (option_and_then (row_of pending.old.items) turn) (with_calls v pending.old.items ended.old.items) }
    ensures held { StayHeld pending.old pending.new }
    ensures room { (pending.new.room ≡ pending.old.room) × (pending.new.blockers ≡ pending.old.blockers) }
    ensures left { ended.old.room ≤ ended.new.room + (if is_some turn then 1 else 0) }
    ensures ends { HoldsAsMany ended.old ended.new }
{
    let Some((client, number)) = pending_call(pending, turn) else {
        return;
    };
    end_call(pending, ended, client, number, reply);
}

// The call that is pending under this turn as granted ends, where there is one: it is told the level
// that may stay, and whether that has to be acknowledged.
fn tell(
    pending: &mut PendingCalls,
    ended: &mut EndTable,
    turn: Option<u64>,
    level: Level,
    ack: bool,
)
    requires room { is_some turn ≡ true → 1 ≤ ended.old.room }
    ensures told { (v : Volume) → with_calls v pending.new.items ended.new.items ≡ with_told (with_calls v pending.old.items ended.old.items) turn level ack }
    ensures held { StayHeld pending.old pending.new }
    ensures room { (pending.new.room ≡ pending.old.room) × (pending.new.blockers ≡ pending.old.blockers) }
    ensures left { ended.old.room ≤ ended.new.room + (if is_some turn then 1 else 0) }
    ensures ends { HoldsAsMany ended.old ended.new }
{
    let reply = Reply {
        status: Status::Success,
        body: Body::Broken { level, ack },
    };
    end_pending(pending, ended, turn, reply);
}

// The call that was pending as granted to a holder who is told ends so.
fn end_one(pending: &mut PendingCalls, ended: &mut EndTable, told: &Told)
    requires room { is_some told.now.call ≡ true → 1 ≤ ended.old.room }
    ensures done { (v : Volume) → with_calls v pending.new.items ended.new.items ≡ with_holder_told (with_calls v pending.old.items ended.old.items) told.now }
    ensures held { StayHeld pending.old pending.new }
    ensures room { (pending.new.room ≡ pending.old.room) × (pending.new.blockers ≡ pending.old.blockers) }
    ensures left { ended.old.room ≤ ended.new.room + (if is_some told.now.call then 1 else 0) }
    ensures ends { HoldsAsMany ended.old ended.new }
{
    tell(pending, ended, told.call, told.level, told.ack);
}

/// The calls that were pending as granted to those who are told end, one after the other: each is told the level
/// that may stay, and whether that has to be acknowledged. Room for the ends of as many calls has to be there.
pub fn end_told(pending: &mut PendingCalls, ended: &mut EndTable, told: &[Told])
    requires room { length (filter has_call told.now) ≤ ended.old.room }
    ensures done { (v : Volume) → with_calls v pending.new.items ended.new.items ≡ fold with_holder_told (with_calls v pending.old.items ended.old.items) told.now }
    ensures held { StayHeld pending.old pending.new }
    ensures room { (pending.new.room ≡ pending.old.room) × (pending.new.blockers ≡ pending.old.blockers) }
    ensures left { ended.old.room ≤ ended.new.room + length (filter has_call told.now) }
    ensures ends { HoldsAsMany ended.old ended.new }
{
    for one in told {
        end_one(pending, ended, one);
    }
}
