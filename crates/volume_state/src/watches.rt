//! Watches of directories, and what is due to them.

ghost use Rattle.std.specs.Prelude.{ℕ, All, false, ◌≡◌, ◌≤◌, ◌<◌, ◌+◌, ◌==◌, ◌&&◌, ◌||◌, [], IsTrue, IfOk, IfSome, IfNone, None, Some, OnErr, OnOk, find, is_some, length, map, min, not, option_map, slice_index_or, slice_set, true};
ghost use Rattle.std.specs.List.{list_any};
ghost use Rattle.std.specs.Option.{option_copied};
ghost use Rattle.fsa_types.specs.Rows.{lives, row_of};
ghost use Rattle.fsa_model.specs.Edits.{with_watch};
ghost use Rattle.fsa_model.specs.Lookups.{file_of_link};
ghost use Rattle.fsa_model.specs.Watching.{begun_at, dir_of, due, due_size, is_something_due, report, watch_of, with_watch_seen};
ghost use Rattle.fsa_model.specs.Waiting.{is_notify_of, is_notify_on};
ghost use Rattle.notify_queue.specs.Due.{asks_for_last, due_of};
ghost use Rattle.volume_state.specs.Reports.{reply_of};
ghost use Rattle.volume_state.specs.Room.{IsNoLess};
ghost use Rattle.volume_state.specs.Watches.{asked_by, asking, least_place, row_begun, row_noted, watch_of_row, IsOfHandle};

use crate::volume::Volume;
use crate::watch_row::{WatchRow, find_watch};
use fsa_types::{Bytes, Call, NoMemory, Request, What};
use notify_queue::{ChangeLog, Watch};
use object_tables::SpareList;
use std::alloc::Global;
use volume_breaks::PendingCalls;
use volume_rows::PendingRow;
use volume_tables::{HandleTable, LinkTable};

impl Volume {
    /// Whether a handle has a watch.
    pub fn has_watch(&self, handle: u64) -> bool
        ensures { result ≡ is_some (watch_of self.now.content handle) }
    {
        find_watch(self.watches.as_slice(), handle).is_some()
    }

    /// Starts a watch of a handle that has none, with this `NotifyFilter`, for the directory alone or for all
    /// below it. What is noted from now on is due to it.
    pub fn start_watch(&mut self, handle: u64, filter: u32, tree: bool)
        requires room { 1 ≤ self.old.spare.watches }
        requires living { IsTrue (lives self.old.content.handles handle) }
        requires new { watch_of self.old.content handle ≡ None }
        ensures content { self.new.content ≡ with_watch self.old.content handle filter tree (length self.old.content.changes) }
        ensures beside { self.new.beside ≡ self.old.beside }
        ensures others { self.new.spare ≡ record self.old.spare { watches = self.new.spare.watches } }
        ensures left { self.old.spare.watches ≤ self.new.spare.watches + 1 }
    {
        let place = self.changes.log().len();
        let row = new_row(&self.handles, &self.links, handle, filter, tree, place);
        self.watches.push(row);
    }

    /// How many bytes a report of what is due to a handle takes; `None` exactly where nothing is due, as to a
    /// handle without a watch. It takes no memory.
    pub fn due_size(&self, handle: u64) -> Option<u64>
        ensures some { is_some result ≡ is_something_due self.now.content handle }
        ensures size { IfSome result (λ size. size ≡ due_size self.now.content handle) }
    {
        match self.watch_on(handle) {
            None => None,
            Some(watch) => watch.due_size(self.changes.log()),
        }
    }

    /// Whether something is due to a handle; nothing is to one without a watch. It looks no further than the first
    /// change that is due, and takes no memory.
    pub fn is_something_due(&self, handle: u64) -> bool
        ensures { result ≡ is_something_due self.now.content handle }
    {
        match self.watch_on(handle) {
            None => false,
            Some(watch) => watch.is_something_due(self.changes.log()),
        }
    }

    /// What is due to a handle, packed after [MS-FSCC] 'FILE_NOTIFY_INFORMATION'; `None` exactly where that
    /// takes more than `room` bytes. In both cases only what is noted from now on is due. `NoMemory` changes
    /// nothing, and comes only where it takes no more.
    pub fn take_report(
        &mut self,
        alloc: Global,
        handle: u64,
        room: u32,
    ) -> Result<Option<Bytes>, NoMemory>
        ensures report { IfOk result (λ packed. reply_of packed ≡ report self.old.content handle room) }
        ensures seen { OnOk result (self.new.content ≡ with_watch_seen self.old.content handle) }
        ensures unchanged { OnErr result (self.new.content ≡ self.old.content) }
        ensures within { OnErr result (due_size self.old.content handle ≤ room) }
        ensures beside { self.new.beside ≡ self.old.beside }
        ensures room { self.new.spare ≡ self.old.spare }
    {
        let packed = self.packed_for(alloc, handle, room)?;
        let place = self.changes.log().len();
        begin_at(&mut self.watches, handle, place);
        Ok(packed)
    }

    /// Keeps the changes from the least place on from which a watch is due, or, where there is no watch, none of those
    /// that were noted; the memory of the others is room for new ones once they are half of those that are held. It
    /// takes no memory.
    pub fn trim_changes(&mut self)
        ensures content { self.new.content ≡ self.old.content }
        ensures beside { self.new.beside ≡ record self.old.beside { base = least_place self.old.content.watches (length self.old.content.changes) } }
        ensures room { IsNoLess self.old.spare self.new.spare }
    {
        let end = self.changes.log().len();
        let base = least_place(self.watches.as_slice(), end);
        self.changes.trim(base);
    }

    // What is due to a handle, packed, where it takes at most so many bytes.
    fn packed_for(&self, alloc: Global, handle: u64, room: u32) -> Result<Option<Bytes>, NoMemory>
        ensures report { IfOk result (λ packed. reply_of packed ≡ report self.now.content handle room) }
        ensures within { OnErr result (due_size self.now.content handle ≤ room) }
    {
        match self.watch_on(handle) {
            None => Ok(Some(Bytes::from(Vec::new(alloc)))),
            Some(mut watch) => watch.take(alloc, self.changes.log(), room),
        }
    }

    // The watch of a handle, of the directory that the handle is of.
    fn watch_on(&self, handle: u64) -> Option<Watch>
        ensures due { IfSome result (λ watch. due_of self.now.content.changes watch ≡ due self.now.content handle) }
        ensures kept { IfSome result (λ watch. self.now.beside.base ≤ watch.from) }
        ensures none { IfNone result (due self.now.content handle ≡ []) }
    {
        let Some(row) = find_watch(self.watches.as_slice(), handle) else {
            return None;
        };
        if !row.due {
            return None;
        }
        let Some(dir) = self.dir_of(handle) else {
            return None;
        };
        Some(Watch {
            dir,
            filter: row.filter,
            tree: row.tree,
            from: row.from,
        })
    }

    // The directory that a handle is of.
    fn dir_of(&self, handle: u64) -> Option<u64>
        ensures { result ≡ dir_of self.now.content handle }
    {
        match self.handles.get(handle) {
            None => None,
            Some(row) => file_of_link(&self.links, row.link),
        }
    }
}

// The file of a link; of link 0 it is the root.
fn file_of_link(links: &LinkTable, link: u64) -> Option<u64>
    ensures { result ≡ file_of_link links.now.rows link }
{
    if link == 0 {
        return Some(1);
    }
    match links.get(link) {
        None => None,
        Some(row) => Some(row.file),
    }
}

// The smaller of two numbers.
fn smaller(a: u64, b: u64) -> u64
    ensures { result ≡ min a b }
{
    if a < b { a } else { b }
}

// The least place from which one of these is due, or the end, where no place is behind it.
fn least_place(rows: &[WatchRow], end: u64) -> u64
    requires within { All (λ row. row.from ≤ end) rows.now }
    ensures { result ≡ least_place (map watch_of_row rows.now) end }
{
    let mut rest = rows;
    let mut least = end;
    'rows: while let Some((row, more)) = rest.split_first() {
        least = smaller(row.from, least);
        rest = more;
    }
    least
}

// The row of a new watch of a handle that lives, due from this place on. That a Notify is pending on the handle
// isn't known to be false.
fn new_row(
    handles: &HandleTable,
    links: &LinkTable,
    handle: u64,
    filter: u32,
    tree: bool,
    from: u64,
) -> WatchRow
    requires living { lives handles.now.rows handle ≡ true }
    requires linked { IfSome (row_of handles.now.rows handle) (λ row. (row.link == 0 || lives links.now.rows row.link) ≡ true) }
    ensures watch { watch_of_row result ≡ record { handle = handle; filter = filter; tree = tree; from = from } }
    ensures of_handle { IsOfHandle handles.now.rows links.now.rows result }
    ensures quiet { result.due ≡ false }
    ensures asked { result.asked ≡ true }
{
    let Some(row) = handles.get(handle) else {
        unreachable!()
    };
    let Some(dir) = file_of_link(links, row.link) else {
        unreachable!()
    };
    WatchRow {
        handle,
        filter,
        tree,
        from,
        dir,
        client: row.client,
        number: row.number,
        due: false,
        asked: true,
    }
}

// The row, from this place on, at which nothing is due.
fn begun(row: WatchRow, place: u64) -> WatchRow
    ensures { result ≡ record row { from = place; due = false } }
{
    WatchRow {
        handle: row.handle,
        filter: row.filter,
        tree: row.tree,
        from: place,
        dir: row.dir,
        client: row.client,
        number: row.number,
        due: false,
        asked: row.asked,
    }
}

// Puts the row at this place from this place of the changes on, where it is of this handle.
fn begin_row(watches: &mut SpareList<WatchRow>, i: usize, row: WatchRow, handle: u64, place: u64)
    requires within { i < length watches.old.items }
    requires row { row ≡ slice_index_or watches.old.items i row }
    ensures items { watches.new.items ≡ slice_set watches.old.items i (row_begun handle place row) }
    ensures room { watches.new.room ≡ watches.old.room }
{
    if row.handle == handle {
        watches.set(i, begun(row, place));
    }
}

// The watch of a handle is due from this place on, at which nothing is due.
fn begin_at(watches: &mut SpareList<WatchRow>, handle: u64, place: u64)
    ensures items { watches.new.items ≡ map (row_begun handle place) watches.old.items }
    ensures room { watches.new.room ≡ watches.old.room }
{
    for i in 0..watches.as_slice().len() {
        let row = watches.as_slice()[i];
        begin_row(watches, i, row, handle, place);
    }
}

// The watch of a row, of its directory.
fn asking(row: &WatchRow) -> Watch
    ensures { result ≡ asking row.now }
{
    Watch {
        dir: row.dir,
        filter: row.filter,
        tree: row.tree,
        from: row.from,
    }
}

// Whether a call is a Notify on the handle of this number.
fn is_notify_of(what: &What, handle: u32) -> bool
    ensures { result ≡ is_notify_of handle what.now }
{
    match what {
        What::Ask(Request::Notify { handle: other, .. }) => *other == handle,
        _ => false,
    }
}

// Whether a call is a Notify of this client on this handle.
fn is_notify_by(call: &Call, client: u32, handle: u32) -> bool
    ensures { result ≡ (call.now.client == client && is_notify_of handle call.now.what) }
{
    call.client == client && is_notify_of(&call.what, handle)
}

// Whether a pending call is a Notify on this handle of this client.
pub(crate) fn is_notify_on(row: &PendingRow, client: u32, handle: u32) -> bool
    ensures { result ≡ is_notify_on client handle row.now }
{
    is_notify_by(&row.call, client, handle)
}

// Whether the call that is pending under this turn is a Notify on this handle of this client.
fn is_notify_under(pending: &PendingCalls, turn: u64, client: u32, handle: u32) -> bool
    ensures { result ≡ true → list_any (λ entry. is_notify_on client handle entry.1) pending.now.items ≡ true }
{
    match pending.call_of(turn) {
        None => false,
        Some(call) => is_notify_by(call, client, handle),
    }
}

// Whether one of these is a Notify on this handle of this client, with a look at each.
fn seek_notify(pending: &[(u64, PendingRow)], client: u32, handle: u32) -> bool
    ensures { result ≡ list_any (λ entry. is_notify_on client handle entry.1) pending.now }
{
    pending
        .iter()
        .any(|entry| is_notify_on(&entry.1, client, handle))
}

// The same, by the first call of this client that names the handle, and with a look at each only where that is no
// Notify.
fn has_notify(pending: &PendingCalls, client: u32, handle: u32) -> bool
    ensures { result ≡ list_any (λ entry. is_notify_on client handle entry.1) pending.now.items }
{
    let Some(turn) = pending.first_naming(client, handle) else {
        return false;
    };
    if is_notify_under(pending, turn, client, handle) {
        return true;
    }
    seek_notify(pending.as_slice(), client, handle)
}

// Whether the last change of the log makes something due to a row to which nothing was.
fn is_newly_due(row: &WatchRow, log: &ChangeLog) -> bool
    requires kept { log.now.base < length log.now.changes }
    ensures { result ≡ not (row.now.due || not (asks_for_last (asking row.now) log.now.changes)) }
{
    !row.due && asking(row).asks_for_last(log)
}

// The row, once something is due to it; it is told then whether a Notify is pending on its handle.
fn come_due(row: WatchRow, pending: &PendingCalls) -> WatchRow
    ensures { result ≡ record row { due = true; asked = list_any (λ entry. is_notify_on row.client row.number entry.1) pending.now.items } }
{
    WatchRow {
        handle: row.handle,
        filter: row.filter,
        tree: row.tree,
        from: row.from,
        dir: row.dir,
        client: row.client,
        number: row.number,
        due: true,
        asked: has_notify(pending, row.client, row.number),
    }
}

// The row at this place, once the last change of the log was noted.
fn note_row(
    watches: &mut SpareList<WatchRow>,
    i: usize,
    row: WatchRow,
    log: &ChangeLog,
    pending: &PendingCalls,
)
    requires kept { log.now.base < length log.now.changes }
    requires within { i < length watches.old.items }
    requires row { row ≡ slice_index_or watches.old.items i row }
    ensures items { watches.new.items ≡ slice_set watches.old.items i (row_noted log.now.changes pending.now.items row) }
    ensures room { watches.new.room ≡ watches.old.room }
{
    if is_newly_due(&row, log) {
        watches.set(i, come_due(row, pending));
    }
}

// The watches, once the last change of the log was noted: which of them it is due to, and on which of those a Notify
// is pending.
pub(crate) fn pass_change(
    watches: &mut SpareList<WatchRow>,
    log: &ChangeLog,
    pending: &PendingCalls,
)
    requires kept { log.now.base < length log.now.changes }
    ensures items { watches.new.items ≡ map (row_noted log.now.changes pending.now.items) watches.old.items }
    ensures room { watches.new.room ≡ watches.old.room }
{
    for i in 0..watches.as_slice().len() {
        let row = watches.as_slice()[i];
        note_row(watches, i, row, log, pending);
    }
}

// The row, once a Notify may be pending on its handle.
fn asked(row: WatchRow) -> WatchRow
    ensures { result ≡ record row { asked = true } }
{
    WatchRow {
        handle: row.handle,
        filter: row.filter,
        tree: row.tree,
        from: row.from,
        dir: row.dir,
        client: row.client,
        number: row.number,
        due: row.due,
        asked: true,
    }
}

// The row at this place, once this client has asked this.
fn ask_row(watches: &mut SpareList<WatchRow>, i: usize, row: WatchRow, client: u32, what: &What)
    requires within { i < length watches.old.items }
    requires row { row ≡ slice_index_or watches.old.items i row }
    ensures items { watches.new.items ≡ slice_set watches.old.items i (asked_by client what.now row) }
    ensures room { watches.new.room ≡ watches.old.room }
{
    if row.client == client && is_notify_of(what, row.number) {
        watches.set(i, asked(row));
    }
}

// The watches, once this call of this client is pending.
pub(crate) fn ask_by(watches: &mut SpareList<WatchRow>, client: u32, what: &What)
    ensures items { watches.new.items ≡ map (asked_by client what.now) watches.old.items }
    ensures room { watches.new.room ≡ watches.old.room }
{
    for i in 0..watches.as_slice().len() {
        let row = watches.as_slice()[i];
        ask_row(watches, i, row, client, what);
    }
}
