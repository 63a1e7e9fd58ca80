//! Notifications among the pending calls, and whether something is due to them.

ghost use Rattle.std.specs.Prelude.{◌≡◌, ◌&&◌, Some, if◌then◌else◌};
ghost use Rattle.std.specs.List.{list_any};
ghost use Rattle.fsa_model.specs.Waiting.{has_due, is_notify_on};
ghost use Rattle.volume_state.specs.Waits.{first_turn, is_due, lesser};
ghost use Rattle.volume_state.specs.Watches.{is_due_on};

use crate::volume::Volume;
use crate::waits::lesser;
use crate::watch_row::WatchRow;
use crate::watches::is_notify_on;
use volume_rows::PendingRow;

// Whether something is due to a handle of a client.
fn has_due(volume: &Volume, client: u32, handle: u32) -> bool
    ensures { result ≡ has_due volume.now.content client handle }
{
    match volume.handle_of(client, handle) {
        None => false,
        Some(id) => volume.is_something_due(id),
    }
}

// The lesser of a turn and this one, where its call is a Notify on this handle of this client.
fn with_notify(
    first: Option<u64>,
    entry: &(u64, PendingRow),
    client: u32,
    handle: u32,
) -> Option<u64>
    ensures { result ≡ (if is_notify_on client handle entry.now.1 then lesser first (Some entry.now.0) else first) }
{
    if is_notify_on(&entry.1, client, handle) {
        return Some(lesser(first, entry.0));
    }
    first
}

// The lesser of a turn and the least, among these, of a Notify on this handle of this client.
fn next_notify(
    first: Option<u64>,
    pending: &[(u64, PendingRow)],
    client: u32,
    handle: u32,
) -> Option<u64>
    ensures { result ≡ lesser first (first_turn (is_notify_on client handle) pending.now) }
{
    let mut first = first;
    for entry in pending {
        first = with_notify(first, entry, client, handle);
    }
    first
}

// Whether something is due to the row's handle, and a Notify may be pending on it.
fn may_report(volume: &Volume, row: &WatchRow) -> bool
    ensures { result ≡ ((row.now.due && row.now.asked) && has_due volume.now.content row.now.client row.now.number) }
{
    row.due && row.asked && has_due(volume, row.client, row.number)
}

// The lesser of a turn and the least, among these, of a Notify on the row's handle, where something is due to that.
fn next_on(
    volume: &Volume,
    pending: &[(u64, PendingRow)],
    first: Option<u64>,
    row: &WatchRow,
) -> Option<u64>
    ensures { result ≡ lesser first (first_turn (is_due_on volume.now.content row.now) pending.now) }
{
    if may_report(volume, row) {
        return next_notify(first, pending, row.client, row.number);
    }
    first
}

// The least turn, among these, of a Notify on the handle of one of these rows, where something is due to that.
fn next_among(volume: &Volume, pending: &[(u64, PendingRow)], rows: &[WatchRow]) -> Option<u64>
    ensures { result ≡ first_turn (λ call. list_any (λ row. is_due_on volume.now.content row call) rows.now) pending.now }
{
    let mut first = None;
    for row in rows {
        first = next_on(volume, pending, first, row);
    }
    first
}

impl Volume {
    /// The least turn of a pending Notify to which something is due; `None` exactly where there is none. As
    /// much is due to each Notify of a handle, so it is the earliest of its handle. Takes no memory.
    pub fn next_due(&self) -> Option<u64>
        ensures { result ≡ first_turn (is_due self.now.content) self.now.content.pending }
    {
        next_among(self, self.pending.as_slice(), self.watches.as_slice())
    }
}
