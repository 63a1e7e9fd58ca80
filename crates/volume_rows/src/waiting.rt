//! What waits in a volume: oplocks and pending calls; and the limits of owners.

ghost use Rattle.std.specs.Prelude.{ℕ, ◌≡◌, ◌==◌, ◌&&◌, not, nat_lt, find, option_map};
ghost use Rattle.std.specs.List.{list_any};
ghost use Rattle.std.specs.Option.{option_copied};
ghost use Rattle.fsa_types.specs.OplockGrants.{target_among};
ghost use Rattle.fsa_types.specs.Rows.{row_of};
ghost use Rattle.fsa_model.specs.Edits.{is_call};

use fsa_types::{BlockerList, Call, Level};
use std::marker::Model;

/// An oplock of a handle, after [MS-FSA] 'Per Oplock'.
#[derive(Clone, Copy)]
pub struct OplockRow {
    /// Its handle.
    pub handle: u64,
    /// The key of its handle; 0 is the key of no other handle.
    pub key: u64,
    /// What may be cached.
    pub level: Level,
    /// The most that may stay; `None` exactly where no break is in progress.
    pub target: Option<Level>,
    /// The number of the break in progress; 0 without one.
    pub number: u64,
    /// The turn of the call that is pending as granted, if there is one.
    pub call: Option<u64>,
}

impl Model for OplockRow {
    ghost use Rattle.fsa_model.specs.Volume.{Oplock};

    ghost Value = { Oplock };

    ghost view = { λ r. record {
      handle = r.handle;
      key = r.key;
      level = r.level;
      target = r.target;
      number = r.number;
      call = r.call;
    } };

    ghost inverse = { λ o. record {
      handle = o.handle;
      key = o.key;
      level = o.level;
      target = o.target;
      number = o.number;
      call = o.call;
    } };
}

/// A call that hasn't ended.
pub struct PendingRow {
    /// The call.
    pub call: Call,
    /// What it waits for.
    pub blockers: BlockerList,
}

// One drop of the whole, so that it is one step at each end of a function that holds one.
impl Drop for PendingRow {
    fn drop(self) {
        let PendingRow {
            call: _,
            blockers: _,
        } = self;
    }
}

impl Model for PendingRow {
    ghost use Rattle.fsa_model.specs.Volume.{Pending};

    ghost Value = { Pending };

    ghost view = { λ r. record { call = r.call; blockers = r.blockers.items } };
}

/// Whether an oplock is of this handle.
pub fn is_oplock_of(oplock: &OplockRow, handle: u64) -> bool
    ensures { result ≡ (oplock.now.handle == handle) }
{
    oplock.handle == handle
}

/// The number of the break in progress on this handle, 0 where there is none; `None` exactly where it has no oplock.
pub fn find_break(oplocks: &[OplockRow], handle: u64) -> Option<u64>
    ensures { result ≡ option_map (λ oplock. oplock.number) (find (λ oplock. oplock.handle == handle) oplocks.now) }
{
    oplocks
        .iter()
        .find(|oplock| is_oplock_of(oplock, handle))
        .map(|oplock| oplock.number)
}

// The oplock of this handle.
fn find_oplock(oplocks: &[OplockRow], handle: u64) -> Option<&OplockRow>
    ensures { option_copied result ≡ find (λ oplock. oplock.handle == handle) oplocks.now }
{
    oplocks.iter().find(|oplock| is_oplock_of(oplock, handle))
}

/// The most that may stay of the oplock of this handle; `None` exactly where no break of it is in
/// progress.
pub fn find_target(oplocks: &[OplockRow], handle: u64) -> Option<Level>
    ensures { result ≡ target_among handle oplocks.now }
{
    match find_oplock(oplocks, handle) {
        None => None,
        Some(oplock) => oplock.target,
    }
}

/// Whether this call of this client is the one that is pending.
pub fn is_call(pending: &PendingRow, client: u32, number: u32) -> bool
    ensures { result ≡ is_call client number pending.now }
{
    pending.call.client == client && pending.call.number == number
}

// Whether a call is pending under a turn above `after` and below `before`.
fn has_pending_between(pending: &[(u64, PendingRow)], after: u64, before: u64) -> bool
    ensures { result ≡ list_any (λ other. nat_lt after other.0 && nat_lt other.0 before) pending.now }
{
    pending
        .iter()
        .any(|entry| entry.0 > after && entry.0 < before)
}

// Whether a turn is the first one above `after` under which a call is pending.
fn is_next_pending(pending: &[(u64, PendingRow)], after: u64, turn: u64) -> bool
    ensures { result ≡ (nat_lt after turn && not (list_any (λ other. nat_lt after other.0 && nat_lt other.0 turn) pending.now)) }
{
    turn > after && !has_pending_between(pending, after, turn)
}

/// The first turn above `after` under which a call is pending.
pub fn find_next_pending(pending: &[(u64, PendingRow)], after: u64) -> Option<u64>
    ensures { result ≡ option_map (λ entry. entry.0) (find (λ entry. nat_lt after entry.0 && not (list_any (λ other. nat_lt after other.0 && nat_lt other.0 entry.0) pending.now)) pending.now) }
{
    pending
        .iter()
        .find(|entry| is_next_pending(pending, after, entry.0))
        .map(|entry| entry.0)
}

/// The limit of an owner, in bytes, where one is set.
pub fn find_limit(limits: &[(u32, u64)], sid: u32) -> Option<u64>
    ensures { result ≡ row_of limits.now sid }
{
    limits
        .iter()
        .find(|entry| entry.0 == sid)
        .map(|entry| entry.1)
}
