//! The volume and its tables.

ghost use Rattle.std.specs.Prelude.{ℕ, ◌≡◌, ◌≤◌, ◌<◌, ◌+◌, ◌^◌, IsTrue, IfOk, OnOk, Some, length, All, slice_get, slice_index_or, option_map, map, IfSome, false, []};
ghost use Rattle.std.specs.Option.{option_copied};
ghost use Rattle.fsa_types.specs.Rows.{row_of};
ghost use Rattle.fsa_model.specs.Edits.{with_end, with_left, with_ticks};
ghost use Rattle.fsa_model.specs.Lookups.{has_left};
ghost use Rattle.fsa_model.specs.Setup.{setup_of};
ghost use Rattle.fsa_model.specs.Volume.{fresh, root};
ghost use Rattle.oplock_state.specs.Homes.{HomesFit};
ghost use Rattle.oplock_state.specs.Tables.{KeepSorted};
ghost use Rattle.volume_state.specs.Room.{HasRoom, IsNoLess};
ghost use Rattle.volume_tables.specs.HandleTable.{stream_of_handle};
ghost use Rattle.volume_tables.specs.Rooms.{room_in};

use crate::growth::space_of_root;
use crate::watch_row::WatchRow;
use fsa_types::{Client, ClientList, NoMemory, Setup, UpcaseTable};
use object_tables::{SpareList, Table};
use oplock_state::OplockTable;
use std::alloc::{AllocError, Global};
use std::marker::Model;
use volume_breaks::{EndTable, PendingCalls};
use volume_rows::{Changes, FileRow, Need};
use volume_tables::{HandleTable, LinkTable, SpaceTally, StreamTable};

/// A volume: its case table and clients, its files, links, streams and handles, the locks, oplocks and
/// watches of handles, its changes, the calls that are pending and those that have ended, and the limits of
/// owners. It is always sound, its queue holds the calls that wait for breaks and locks, each with those
/// that are still there, and its tally of space has what the streams take.
pub struct Volume {
    pub(crate) alloc: Global,
    pub(crate) clients: ClientList,
    pub(crate) files: Table<FileRow>,
    pub(crate) links: LinkTable,
    pub(crate) streams: StreamTable,
    // What owners are charged for the streams of their files, and how many clusters all streams take.
    pub(crate) space: SpaceTally,
    pub(crate) handles: HandleTable,
    pub(crate) changes: Changes,
    pub(crate) ended: EndTable,
    pub(crate) left: Vec<bool>,
    pub(crate) clock: u64,
    pub(crate) oplocks: OplockTable,
    pub(crate) pending: PendingCalls,
    pub(crate) watches: SpareList<WatchRow>,
    pub(crate) limits: SpareList<(u32, u64)>,
}

impl Model for Volume {
    ghost use Rattle.volume_state.specs.VolumeView.{VolumeView};
    ghost use Rattle.fsa_model.specs.Sound.{IsSound};

    ghost Value = { VolumeView };

    ghost use Rattle.oplock_state.specs.Tables.{AreSorted};
    ghost use Rattle.volume_breaks.specs.Calls.{AreHeld};
    ghost use Rattle.volume_state.specs.Held.{is_there};
    ghost use Rattle.volume_state.specs.Content.{content_of, beside_of, spare_of};
    ghost use Rattle.volume_state.specs.Tallied.{AreTallied};
    ghost use Rattle.std.specs.Prelude.{length};
    ghost use Rattle.volume_state.specs.Watches.{AreKept, AreWatched};

    ghost view = { λ v. record { content = content_of v; beside = beside_of v; spare = spare_of v } };

    ghost invariant = { λ v. IsSound (content_of v) × AreHeld (is_there v.oplocks.rows v.handles.locks) v.pending × AreTallied v.files.rows (content_of v).streams v.space × AreSorted v.handles.rows v.oplocks.rows v.oplocks.tables × AreWatched v.handles.rows v.links.rows v.changes.changes v.pending.items v.watches.items × AreKept v.changes.base (length v.changes.changes) v.watches.items };
}

// One drop of the whole, so that a function that holds a volume has one step for it at each of its ends.
impl Drop for Volume {
    fn drop(self) {
        let Volume {
            alloc: _,
            clients: _,
            files: _,
            links: _,
            streams: _,
            space: _,
            handles: _,
            changes: _,
            ended: _,
            left: _,
            clock: _,
            oplocks: _,
            pending: _,
            watches: _,
            limits: _,
        } = self;
    }
}

impl Volume {
    /// A volume with the root alone, whose file number is 1. Each client has to have a SID.
    /// `NoMemory` where there is none for it.
    pub fn new(alloc: Global, setup: Setup) -> Result<Volume, NoMemory>
        requires sids { All (λ client. 0 < length client.sids.items) setup.clients.items }
        ensures content { IfOk result (λ v. v.content ≡ fresh (setup_of setup)) }
        ensures beside { IfOk result (λ v. v.beside ≡ record { base = 0; waited = [] }) }
    {
        let Setup { table, clients } = setup;
        let left = nobody_left(alloc, clients.as_slice())?;
        let mut files = Table::new(alloc);
        files.reserve(1)?;
        let Ok(_) = files.add(root()) else {
            unreachable!()
        };
        let space = space_of_root(alloc)?;
        Ok(Volume {
            alloc,
            clients,
            files,
            links: LinkTable::new(alloc, table),
            streams: StreamTable::new(alloc),
            space,
            handles: HandleTable::new(alloc),
            changes: Changes::new(alloc),
            ended: EndTable::new(alloc),
            left,
            clock: 0,
            oplocks: OplockTable::new(alloc),
            pending: PendingCalls::new(alloc),
            watches: SpareList::new(alloc),
            limits: SpareList::new(alloc),
        })
    }

    /// Takes all the room that is needed. `NoMemory` where there is none for it.
    pub fn reserve(&mut self, need: &Need) -> Result<(), NoMemory>
        ensures content { self.new.content ≡ self.old.content }
        ensures beside { self.new.beside ≡ self.old.beside }
        ensures room { OnOk result (HasRoom self.new.content self.new.spare need.now) }
        ensures kept { IsNoLess self.old.spare self.new.spare }
    {
        reserve_objects(
            &mut self.files,
            &mut self.links,
            &mut self.streams,
            &mut self.space,
            need,
        )?;
        reserve_handles(&mut self.handles, &mut self.oplocks, need)?;
        reserve_notes(&mut self.changes, &mut self.watches, &mut self.limits, need)?;
        reserve_calls(&mut self.pending, &mut self.ended, need)?;
        Ok(())
    }

    /// The case table by which names compare.
    pub fn table(&self) -> &UpcaseTable
        ensures { result.now ≡ self.now.content.table }
    {
        self.links.table()
    }

    /// The SIDs of a client; the first owns what it makes. There has to be such a client.
    pub fn sids(&self, client: u32) -> &[u32]
        requires client { client < length self.now.content.clients }
        ensures sids { IfSome (slice_get self.now.content.clients client) (λ c. result.now ≡ c.sids) }
    {
        sids_of(&self.clients, client as usize)
    }

    /// The clock, in ticks.
    pub fn clock(&self) -> u64
        ensures { result ≡ self.now.content.clock }
    {
        self.clock
    }

    /// The clock goes on by so many ticks.
    pub fn advance(&mut self, ticks: u32)
        requires fits { self.old.content.clock + ticks < 2 ^ 64 }
        ensures content { self.new.content ≡ with_ticks self.old.content ticks }
        ensures beside { self.new.beside ≡ self.old.beside }
        ensures room { self.new.spare ≡ self.old.spare }
    {
        self.clock += ticks as u64;
    }

    /// Whether a client has left.
    pub fn has_left(&self, client: u32) -> bool
        ensures { result ≡ has_left self.now.content client }
    {
        is_marked(&self.left, client as usize)
    }

    /// A client has left. There has to be such a client.
    pub fn leave(&mut self, client: u32)
        requires client { client < length self.old.content.clients }
        ensures content { self.new.content ≡ with_left self.old.content client }
        ensures beside { self.new.beside ≡ self.old.beside }
        ensures room { self.new.spare ≡ self.old.spare }
    {
        self.left[client as usize] = true;
    }
}

// Takes room for files, links, streams and owners.
fn reserve_objects(
    files: &mut Table<FileRow>,
    links: &mut LinkTable,
    streams: &mut StreamTable,
    space: &mut SpaceTally,
    need: &Need,
) -> Result<(), NoMemory>
    ensures files { (files.new.rows ≡ files.old.rows) × (files.new.last ≡ files.old.last) × (files.old.room ≤ files.new.room) }
    ensures links { (links.new.table ≡ links.old.table) × (links.new.rows ≡ links.old.rows) × (links.new.last ≡ links.old.last) }
    ensures links_kept { (other : ℕ) → room_in links.old.rooms other ≤ room_in links.new.rooms other }
    ensures streams { (streams.new.rows ≡ streams.old.rows) × (streams.new.last ≡ streams.old.last) × (streams.old.room ≤ streams.new.room) }
    ensures space { space.new ≡ record space.old { room = space.new.room } }
    ensures space_kept { space.old.room ≤ space.new.room }
    ensures room { OnOk result ((need.now.files ≤ files.new.room) × (need.now.links ≤ room_in links.new.rooms need.now.parent) × (need.now.streams ≤ streams.new.room) × (need.now.owners ≤ space.new.room)) }
{
    files.reserve(need.files as usize)?;
    links.reserve(need.parent, need.links as usize)?;
    streams.reserve(need.streams as usize)?;
    space.reserve(need.owners as usize)?;
    Ok(())
}

// Takes room for handles, and for locks and oplocks on the stream of a handle.
fn reserve_handles(
    handles: &mut HandleTable,
    oplocks: &mut OplockTable,
    need: &Need,
) -> Result<(), NoMemory>
    requires fit { HomesFit handles.old.rows }
    ensures handles { handles.new ≡ record handles.old { room = handles.new.room; rooms = handles.new.rooms } }
    ensures handles_kept { (handles.old.room ≤ handles.new.room) × ((other : ℕ) → room_in handles.old.rooms other ≤ room_in handles.new.rooms other) }
    ensures oplocks { oplocks.new ≡ record oplocks.old { rooms = oplocks.new.rooms; tables = oplocks.new.tables } }
    ensures oplocks_kept { (other : ℕ) → room_in oplocks.old.rooms other ≤ room_in oplocks.new.rooms other }
    ensures sorted { KeepSorted oplocks.old oplocks.new }
    ensures room { OnOk result (need.now.handles ≤ handles.new.room) }
    ensures locks { OnOk result ((stream : ℕ) → stream_of_handle handles.new.rows need.now.handle ≡ Some stream → need.now.locks ≤ room_in handles.new.rooms stream) }
    ensures oplock_room { OnOk result ((stream : ℕ) → stream_of_handle handles.new.rows need.now.handle ≡ Some stream → need.now.oplocks ≤ room_in oplocks.new.rooms stream) }
{
    handles.reserve(need.handles as usize)?;
    handles.reserve_locks(need.handle, need.locks as usize)?;
    reserve_oplocks(oplocks, handles, need.handle, need.oplocks)?;
    Ok(())
}

// Takes room for changes, watches and limits.
fn reserve_notes(
    changes: &mut Changes,
    watches: &mut SpareList<WatchRow>,
    limits: &mut SpareList<(u32, u64)>,
    need: &Need,
) -> Result<(), NoMemory>
    ensures changes { (changes.new.changes ≡ changes.old.changes) × (changes.new.base ≡ changes.old.base) }
    ensures changes_kept { (changes.old.room ≤ changes.new.room) × (changes.old.units ≤ changes.new.units) × (changes.old.dirs ≤ changes.new.dirs) }
    ensures watches { (watches.new.items ≡ watches.old.items) × (watches.old.room ≤ watches.new.room) }
    ensures limits { (limits.new.items ≡ limits.old.items) × (limits.old.room ≤ limits.new.room) }
    ensures room { OnOk result ((need.now.changes ≤ changes.new.room) × (need.now.units ≤ changes.new.units) × (need.now.dirs ≤ changes.new.dirs)) }
    ensures rows { OnOk result ((need.now.watches ≤ watches.new.room) × (need.now.limits ≤ limits.new.room)) }
{
    let (units, dirs) = (need.units as usize, need.dirs as usize);
    changes.reserve(need.changes as usize, units, dirs)?;
    watches.reserve(need.watches as usize)?;
    limits.reserve(need.limits as usize)?;
    Ok(())
}

// Takes room for pending calls, their blockers, and ends.
fn reserve_calls(
    pending: &mut PendingCalls,
    ended: &mut EndTable,
    need: &Need,
) -> Result<(), NoMemory>
    ensures pending { pending.new ≡ record pending.old { room = pending.new.room; blockers = pending.new.blockers } }
    ensures pending_kept { (pending.old.room ≤ pending.new.room) × (pending.old.blockers ≤ pending.new.blockers) }
    ensures ended { (ended.new.items ≡ ended.old.items) × (ended.old.room ≤ ended.new.room) }
    ensures room { OnOk result ((need.now.pending ≤ pending.new.room) × (need.now.blockers ≤ pending.new.blockers) × (need.now.ends ≤ ended.new.room)) }
{
    pending.reserve(need.pending as usize, need.blockers as usize)?;
    ended.reserve(need.ends as usize)?;
    Ok(())
}

// Takes room for so many oplocks on the stream of a handle; where there is no such handle, or it has no stream,
// none.
fn reserve_oplocks(
    oplocks: &mut OplockTable,
    handles: &HandleTable,
    handle: u64,
    more: u32,
) -> Result<(), NoMemory>
    requires fit { HomesFit handles.now.rows }
    ensures rows { oplocks.new ≡ record oplocks.old { rooms = oplocks.new.rooms; tables = oplocks.new.tables } }
    ensures room { OnOk result ((stream : ℕ) → stream_of_handle handles.now.rows handle ≡ Some stream → more ≤ room_in oplocks.new.rooms stream) }
    ensures kept { (other : ℕ) → room_in oplocks.old.rooms other ≤ room_in oplocks.new.rooms other }
    ensures sorted { KeepSorted oplocks.old oplocks.new }
{
    let Some(stream) = stream_of(handles, handle) else {
        return Ok(());
    };
    oplocks.reserve(stream, more)
}

// The stream of a handle, where it has one.
fn stream_of(handles: &HandleTable, handle: u64) -> Option<u64>
    ensures { result ≡ stream_of_handle handles.now.rows handle }
{
    let row = handles.get(handle)?;
    row.stream
}

// The root directory.
fn root() -> FileRow
    ensures { result ≡ root }
{
    FileRow {
        directory: true,
        attributes: 0,
        creation: 0,
        access: 0,
        write: 0,
        change: 0,
        owner: 0,
        dacl: None,
        point: None,
    }
}

// No mark for each client.
fn nobody_left(alloc: Global, clients: &[Client]) -> Result<Vec<bool>, AllocError>
    ensures { IfOk result (λ marks. marks.items ≡ map (λ _. false) clients.now) }
{
    clients.iter().map(|_client| false).collect(alloc)
}

// The SIDs of the client at this place.
fn sids_of(clients: &ClientList, place: usize) -> &[u32]
    requires { place < length clients.now.items }
    ensures { IfSome (slice_get clients.now.items place) (λ c. result.now ≡ c.sids.items) }
{
    let client: &Client = &clients.as_slice()[place];
    client.sids.as_slice()
}

// The mark at this place; past the end there is none.
fn is_marked(marks: &[bool], place: usize) -> bool
    ensures { result ≡ slice_index_or marks.now place false }
{
    if place < marks.len() {
        marks[place]
    } else {
        false
    }
}
