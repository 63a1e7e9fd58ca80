//! When no oplock is granted, and what a grant ends, after [MS-FSA] 'Server Requests an Oplock'.

ghost use Rattle.std.specs.Prelude.{◌≡◌, ◌≤◌, ◌+◌, ◌&&◌, not, true, length, fold};
ghost use Rattle.fsa_types.specs.OplockGrants.{after_switches, is_of_key, is_refused_among, some_breaking, some_more, some_writer};
ghost use Rattle.fsa_types.specs.OplockLists.{without_oplock_of};
ghost use Rattle.fsa_types.specs.Oplocks.{has_write, is_within};
ghost use Rattle.fsa_model.specs.Volume.{Volume};
ghost use Rattle.object_tables.specs.Series.{HoldsAsMany};
ghost use Rattle.volume_breaks.specs.Breaks.{with_calls, with_switch_told};
ghost use Rattle.volume_breaks.specs.Calls.{StayHeld};

use crate::breaking::end_pending;
use crate::end_table::EndTable;
use crate::marking::is_of_key;
use crate::oplock_list::Oplocks;
use crate::pending_calls::PendingCalls;
use fsa_types::{Body, Level, Reply, Status};
use volume_rows::{OplockRow, has_write, is_within};

// Whether a break is in progress.
fn some_breaking(oplocks: &[OplockRow]) -> bool
    ensures { result ≡ some_breaking (λ _. true) oplocks.now }
{
    oplocks.iter().any(|oplock| oplock.target.is_some())
}

// Whether an oplock is of another key and has write caching.
fn is_writer(handle: u64, key: u64, oplock: &OplockRow) -> bool
    ensures { result ≡ (not (is_of_key handle key oplock.now) && has_write oplock.now.level) }
{
    !is_of_key(handle, key, oplock) && has_write(oplock.level)
}

// Whether an oplock of another key has write caching.
fn some_writer(handle: u64, key: u64, oplocks: &[OplockRow]) -> bool
    ensures { result ≡ some_writer (λ _. true) handle key oplocks.now }
{
    oplocks.iter().any(|oplock| is_writer(handle, key, oplock))
}

// Whether an oplock is of this key and has more than this level.
fn has_more(handle: u64, key: u64, level: Level, oplock: &OplockRow) -> bool
    ensures { result ≡ (is_of_key handle key oplock.now && not (is_within oplock.now.level level)) }
{
    is_of_key(handle, key, oplock) && !is_within(oplock.level, level)
}

// Whether an oplock of this key has more than this level.
fn some_more(handle: u64, key: u64, level: Level, oplocks: &[OplockRow]) -> bool
    ensures { result ≡ some_more (λ _. true) handle key level oplocks.now }
{
    oplocks
        .iter()
        .any(|oplock| has_more(handle, key, level, oplock))
}

/// Whether no oplock of this level is granted to the handle beside these of its stream; `others` says that a
/// handle of another key is open on it, and `locked` that a range of it is locked.
pub fn is_refused(
    handle: u64,
    key: u64,
    level: Level,
    others: bool,
    locked: bool,
    oplocks: &[OplockRow],
) -> bool
    ensures { result ≡ is_refused_among (λ _. true) handle key level others locked oplocks.now }
{
    some_breaking(oplocks)
        || (!has_write(level) && locked)
        || (has_write(level) && others)
        || some_writer(handle, key, oplocks)
        || some_more(handle, key, level, oplocks)
}

// Takes an oplock out.
fn drop_one(oplocks: &mut Oplocks, oplock: OplockRow)
    ensures { oplocks.new ≡ record oplocks.old { rows = without_oplock_of oplock.handle oplocks.old.rows } }
{
    oplocks.drop_of(oplock.handle);
}

/// Takes the oplocks out that were chosen, one after the other.
pub fn drop_chosen(oplocks: &mut Oplocks)
    ensures { oplocks.new ≡ record oplocks.old { rows = after_switches oplocks.old.rows oplocks.old.chosen } }
{
    for place in 0..oplocks.chosen_len() {
        let oplock = oplocks.chosen_at(place);
        drop_one(oplocks, oplock);
    }
}

// The call of an oplock that ends, since a handle of its key is granted one, is told so.
fn end_one(pending: &mut PendingCalls, ended: &mut EndTable, oplock: &OplockRow)
    requires room { 1 ≤ ended.old.room }
    ensures done { (v : Volume) → with_calls v pending.new.items ended.new.items ≡ with_switch_told (with_calls v pending.old.items ended.old.items) oplock.now }
    ensures held { StayHeld pending.old pending.new }
    ensures room { (pending.new.room ≡ pending.old.room) × (pending.new.blockers ≡ pending.old.blockers) }
    ensures left { ended.old.room ≤ ended.new.room + 1 }
    ensures ends { HoldsAsMany ended.old ended.new }
{
    let reply = Reply {
        status: Status::OplockSwitchedToNewHandle,
        body: Body::Nothing,
    };
    end_pending(pending, ended, oplock.call, reply);
}

/// The calls of oplocks that end, since a handle of their key is granted one, are told so, one after the other.
/// Room for the ends of as many calls has to be there.
pub fn end_switched(pending: &mut PendingCalls, ended: &mut EndTable, switched: &[OplockRow])
    requires room { length switched.now ≤ ended.old.room }
    ensures done { (v : Volume) → with_calls v pending.new.items ended.new.items ≡ fold with_switch_told (with_calls v pending.old.items ended.old.items) switched.now }
    ensures held { StayHeld pending.old pending.new }
    ensures room { (pending.new.room ≡ pending.old.room) × (pending.new.blockers ≡ pending.old.blockers) }
    ensures left { ended.old.room ≤ ended.new.room + length switched.now }
    ensures ends { HoldsAsMany ended.old ended.new }
{
    for oplock in switched {
        end_one(pending, ended, oplock);
    }
}
