//! The handles of a volume with the byte-range locks that they hold.

ghost use Rattle.std.specs.Prelude.{ℕ, ◌≡◌, ◌≤◌, ◌<◌, ◌+◌, ◌^◌, ◌++◌, ◌∷◌, [], ◌==◌, ◌&&◌, not, true, false, Some, IsSome, IfSome, IfNone, OnOk, filter, length};
ghost use Rattle.std.specs.List.{list_any};
ghost use Rattle.std.specs.Option.{option_copied, option_map_or, ForSome};
ghost use Rattle.fsa_types.specs.Oplocks.{is_same_key};
ghost use Rattle.fsa_types.specs.Rows.{row_of, with_row_changed, without_row, IsNumbered};
ghost use Rattle.fsa_model.specs.Edits.{is_lock_on};
ghost use Rattle.fsa_model.specs.Lookups.{has_row, is_one_of, is_open_on, is_opened_by, number_of};
ghost use Rattle.fsa_types.specs.Sharing.{clash};
ghost use Rattle.fsa_types.specs.Ranges.{without_first};
ghost use Rattle.object_tables.specs.Next.{IsNext};
ghost use Rattle.range_locks.specs.RangeTable.{first_id, is_range_of, is_range};
ghost use Rattle.volume_tables.specs.HandleIndex.{AreIndexed};
ghost use Rattle.volume_tables.specs.HandleShares.{AreShared};
ghost use Rattle.volume_tables.specs.HandleTable.{next_of, stream_of_handle, ranges_on};
ghost use Rattle.volume_tables.specs.Ranges.{ranges_in, room_at, AreSetIn};
ghost use Rattle.volume_tables.specs.Rooms.{room_in};

use crate::handle_index::HandleIndex;
use crate::handle_scans::{count_all, count_among, some_clash, some_other_among};
use crate::handle_shares::HandleShares;
use crate::lock_row::LockRow;
use crate::ranges::StreamRanges;
use crate::room_list::RoomList;
use fsa_types::{HandleSet, NoMemory};
use object_tables::{RowList, Table};
use range_locks::{Range, RangeTable};
use std::alloc::Global;
use std::marker::Model;
use volume_rows::{Enumeration, HandleRow, LinksByFile};

/// Handles under numbers that rise from 1, the byte-range locks that they hold, under numbers of their
/// own, and for each stream how many more locks can be added on it without taking memory. A lock is on
/// the stream of its handle.
pub struct HandleTable {
    table: Table<HandleRow>,
    // The handles by the calls that opened them, by streams and by links; what was promised is its room.
    index: HandleIndex,
    // What those on each stream and by each link do and share.
    shares: HandleShares,
    locks: RowList<LockRow>,
    // The locks once more, stream by stream.
    ranges: StreamRanges,
    // What was promised to each stream.
    rooms: RoomList,
}

// One drop of the whole, so that it is one step at each end of a function that holds one.
impl Drop for HandleTable {
    fn drop(self) {
        let HandleTable {
            table: _,
            index: _,
            shares: _,
            locks: _,
            ranges: _,
            rooms: _,
        } = self;
    }
}

impl Model for HandleTable {
    ghost use Rattle.std.specs.Prelude.{◌≤◌};
    ghost use Rattle.volume_tables.specs.HandleIndex.{AreIndexed};
    ghost use Rattle.volume_tables.specs.HandleShares.{AreShared};
    ghost use Rattle.volume_tables.specs.HandleTable.{HandleRows, AreTabled, HaveRoom};

    ghost Value = { HandleRows };

    ghost view = { λ t. record { rows = t.table.rows; last = t.table.last; room = t.index.room; locks = t.locks.rows; last_lock = t.locks.last; rooms = t.rooms } };

    ghost invariant = { λ t. AreTabled t.table.rows t.locks.rows t.ranges × HaveRoom t.rooms t.ranges t.locks.room × AreIndexed t.table.rows t.index × t.index.room ≤ t.table.room × AreShared t.table.rows t.shares × t.index.room ≤ t.shares.room };
}

impl HandleTable {
    /// A table without handles and without room. It takes no memory.
    pub fn new(alloc: Global) -> HandleTable
        ensures rows { result.rows ≡ [] }
        ensures last { result.last ≡ 0 }
        ensures locks { result.locks ≡ [] }
        ensures last_lock { result.last_lock ≡ 0 }
        ensures rooms { result.rooms ≡ [] }
    {
        HandleTable {
            table: Table::new(alloc),
            index: HandleIndex::new(alloc),
            shares: HandleShares::new(alloc),
            locks: RowList::new(alloc),
            ranges: StreamRanges::new(alloc),
            rooms: RoomList::new(alloc),
        }
    }

    /// Takes room for `more` handles beside those that are there. `NoMemory` where there is none.
    pub fn reserve(&mut self, more: usize) -> Result<(), NoMemory>
        ensures rows { self.new ≡ record self.old { room = self.new.room } }
        ensures room { OnOk result (more ≤ self.new.room) }
        ensures kept { self.old.room ≤ self.new.room }
    {
        self.table.reserve(more)?;
        self.shares.reserve(more)?;
        self.index.reserve(more)
    }

    /// Takes room for so many locks on the stream of this handle, in all that it has room for. Where
    /// there is no such handle, or it has no stream, no room is taken. `NoMemory` where there is no
    /// memory for it.
    pub fn reserve_locks(&mut self, handle: u64, locks: usize) -> Result<(), NoMemory>
        ensures rows { self.new ≡ record self.old { rooms = self.new.rooms } }
        ensures room { OnOk result ((stream : ℕ) → stream_of_handle self.old.rows handle ≡ Some stream → locks ≤ room_in self.new.rooms stream) }
        ensures kept { (stream : ℕ) → room_in self.old.rooms stream ≤ room_in self.new.rooms stream }
    {
        let Some(stream) = stream_of(&self.table, handle) else {
            return Ok(());
        };
        if locks <= self.rooms.room_in(stream) {
            return Ok(());
        }
        let Some(all) = self.rooms.all_with(stream, locks) else {
            return Err(NoMemory);
        };
        self.locks.reserve(all)?;
        self.ranges.reserve(stream, locks)?;
        self.rooms.set(stream, locks)
    }

    /// The least number above `after` that a handle has; `None` exactly where there is none.
    pub fn next(&self, after: u64) -> Option<u64>
        ensures { IsNext self.now.rows after result }
    {
        self.table.next(after)
    }

    /// The handle of this number; `None` exactly where there is none.
    pub fn get(&self, id: u64) -> Option<&HandleRow>
        ensures { option_copied result ≡ row_of self.now.rows id }
    {
        self.table.get(id)
    }

    /// Adds a handle, which holds no lock, and gives its number, one more than the last one given. Room
    /// has to be reserved, and fewer than 2^64 - 1 numbers to be given so far.
    pub fn add(&mut self, row: HandleRow) -> u64
        requires room { 1 ≤ self.old.room }
        requires ids_left { self.old.last + 1 < 2 ^ 64 }
        ensures rows { self.new ≡ record self.old { rows = self.old.rows ++ (self.old.last + 1, row) ∷ []; last = self.old.last + 1; room = self.new.room } }
        ensures left { self.old.room ≤ self.new.room + 1 }
        ensures id { result ≡ self.old.last + 1 }
    {
        let _numbered = self.table.len();
        let id = self.table.last() + 1;
        self.index.add(id, &row);
        self.shares.hold(&row);
        let Ok(_) = self.table.add(row) else {
            unreachable!()
        };
        id
    }

    /// The handle that this call of this client opened; `None` exactly where there is none. It takes time logarithmic
    /// in the handles.
    pub fn opened_by(&self, client: u32, number: u32) -> Option<u64>
        ensures { result ≡ number_of (is_opened_by client number) self.now.rows }
    {
        self.index.opened_by(client, number)
    }

    /// That client's handle of the least number of a call above `after`; `None` exactly where there is none. It takes
    /// time logarithmic in the handles.
    pub fn next_of(&self, client: u32, after: u32) -> Option<u64>
        ensures { result ≡ next_of self.now.rows client after }
    {
        self.index.next_of(client, after)
    }

    /// How many handles are of the set. Of those on a stream or by a link it looks at these alone.
    pub fn count_on(&self, links: &LinksByFile, on: HandleSet) -> usize
        ensures count { result ≡ length (filter (λ entry. is_one_of links.now.rows on entry.1) self.now.rows) }
        ensures numbered { IsNumbered self.now.rows self.now.last }
    {
        let _numbered = self.table.len();
        match on {
            HandleSet::Stream(stream) => {
                count_among(&self.table, self.index.on_stream(stream), links, on)
            }
            HandleSet::Link(link) => count_among(&self.table, self.index.by_link(link), links, on),
            HandleSet::Below(_) => count_all(&self.table, links, on),
        }
    }

    /// Whether some handle of the set clashes with these access and share masks. Of those on a stream or by a
    /// link it looks at counts of what they do and share, found in time logarithmic in the streams or links that
    /// have handles.
    pub fn some_clashes(&self, links: &LinksByFile, on: HandleSet, access: u32, share: u32) -> bool
        ensures { result ≡ has_row (λ handle. is_one_of links.now.rows on handle && clash access share handle.access handle.share) self.now.rows }
    {
        match on {
            HandleSet::Stream(stream) => self.shares.clashes_on(stream, access, share),
            HandleSet::Link(link) => self.shares.clashes_by(link, access, share),
            HandleSet::Below(_) => some_clash(&self.table, links, on, access, share),
        }
    }

    /// Whether a handle of another key than this one is open on the stream. It looks at the handles on the stream
    /// alone.
    pub fn is_open_by_others(&self, handle: u64, key: u64, stream: u64) -> bool
        ensures { result ≡ list_any (λ entry. is_open_on stream entry.1 && not (is_same_key entry.0 entry.1.key (Some handle) key)) self.now.rows }
    {
        let _numbered = self.table.len();
        some_other_among(
            &self.table,
            self.index.on_stream(stream),
            handle,
            key,
            stream,
        )
    }

    /// Sets the enumeration of a handle; where there is no such handle nothing changes. It takes no memory.
    pub fn set_enumeration(&mut self, id: u64, enumeration: Enumeration)
        ensures { self.new ≡ record self.old { rows = with_row_changed (λ row. record row { enumeration = Some enumeration }) self.old.rows id } }
    {
        set_enumeration(&mut self.table, id, enumeration);
    }

    /// Takes the handle of this number out, with the locks that it holds; where there is none nothing
    /// changes. It takes no memory, and leaves the room for locks as it was.
    pub fn remove(&mut self, id: u64)
        ensures rows { self.new ≡ record self.old { rows = without_row self.old.rows id; locks = filter (λ entry. not (entry.1.handle == id)) self.old.locks; room = self.new.room } }
        ensures kept { self.old.room ≤ self.new.room }
    {
        let stream = stream_of(&self.table, id);
        let some = remove_ranges_of(&mut self.ranges, stream, id);
        remove_locks_of(&mut self.locks, some, id);
        remove_row(&mut self.table, &mut self.index, &mut self.shares, id);
    }

    /// The byte-range locks on a stream, in the order in which they were granted. The numbers of all
    /// locks rise, and none is above the last one given.
    pub fn locks_of(&self, stream: u64) -> &RangeTable
        ensures ranges { result.now.ranges ≡ ranges_on self.now.rows self.now.locks stream }
        ensures numbered { IsNumbered self.now.locks self.now.last_lock }
    {
        let _numbered = self.locks.as_slice();
        self.ranges.of(stream)
    }

    /// Adds a lock of this handle, and gives its number, one more than the last one given. The handle
    /// has to have a stream, with room for a lock on it, and fewer than 2^64 - 1 numbers to be given so
    /// far.
    pub fn add_lock(&mut self, handle: u64, at: u64, count: u64, exclusive: bool) -> u64
        requires stream { IsSome (stream_of_handle self.old.rows handle) }
        requires room { ForSome (stream_of_handle self.old.rows handle) (λ stream. 1 ≤ room_in self.old.rooms stream) }
        requires ids_left { self.old.last_lock + 1 < 2 ^ 64 }
        ensures locks { self.new ≡ record self.old { locks = self.old.locks ++ (self.old.last_lock + 1, record { handle = handle; at = at; count = count; exclusive = exclusive }) ∷ []; last_lock = self.old.last_lock + 1; rooms = self.new.rooms } }
        ensures left { ForSome (stream_of_handle self.old.rows handle) (λ stream. room_in self.old.rooms stream ≤ room_in self.new.rooms stream + 1) }
        ensures others { (stream other : ℕ) → stream_of_handle self.old.rows handle ≡ Some stream → (other == stream) ≡ false → room_in self.new.rooms other ≡ room_in self.old.rooms other }
        ensures id { result ≡ self.old.last_lock + 1 }
    {
        let Some(stream) = stream_of(&self.table, handle) else {
            unreachable!()
        };
        let lock = LockRow {
            handle,
            at,
            count,
            exclusive,
        };
        let Ok(id) = self.locks.add(lock) else {
            unreachable!()
        };
        self.ranges.insert(
            stream,
            Range {
                id,
                handle,
                at,
                count,
                exclusive,
            },
        );
        self.rooms.take_one(stream);
        id
    }

    /// All locks with their numbers, in the order in which they were granted.
    pub fn locks(&self) -> &[(u64, LockRow)]
        ensures rows { result.now ≡ self.now.locks }
    {
        self.locks.as_slice()
    }

    /// The locks of this handle with their numbers, in the order in which they were granted, and others between them.
    /// There are none where the stream of the handle has none.
    pub fn locks_beside(&self, handle: u64) -> &[(u64, LockRow)]
        ensures { filter (λ entry. entry.1.handle == handle) result.now ≡ filter (λ entry. entry.1.handle == handle) self.now.locks }
    {
        if has_no_range(&self.table, &self.ranges, handle) {
            &[]
        } else {
            self.locks()
        }
    }

    /// Takes the first lock of this handle on exactly this range out, and gives its number; `None`
    /// exactly where there is none. It takes no memory, and leaves the room for locks as it was.
    pub fn remove_lock(&mut self, handle: u64, at: u64, count: u64) -> Option<u64>
        ensures locks { self.new ≡ record self.old { locks = option_map_or (λ number. without_row self.old.locks number) (number_of (is_lock_on handle at count) self.old.locks) self.old.locks } }
        ensures number { result ≡ number_of (is_lock_on handle at count) self.old.locks }
    {
        let stream = stream_of(&self.table, handle);
        let locks = self.locks.as_slice();
        let Some(id) = remove_range(&mut self.ranges, locks, stream, handle, at, count) else {
            return None;
        };
        let _ = self.locks.remove(id);
        Some(id)
    }
}

// The stream of a handle, where it has one.
fn stream_of(table: &Table<HandleRow>, handle: u64) -> Option<u64>
    ensures { result ≡ stream_of_handle table.now.rows handle }
{
    let row = table.get(handle)?;
    row.stream
}

// Whether it is known that the stream of a handle has no ranges. Where the handle has no stream it isn't.
fn has_no_range(table: &Table<HandleRow>, ranges: &StreamRanges, handle: u64) -> bool
    ensures { result ≡ true → option_map_or (λ own. list_any (is_range_of handle) (ranges_in ranges.now own)) (stream_of_handle table.now.rows handle) true ≡ false }
{
    match stream_of(table, handle) {
        None => false,
        Some(own) => ranges.of(own).is_empty(),
    }
}

// Takes a handle out of the table, of the index and of the counts.
fn remove_row(
    table: &mut Table<HandleRow>,
    index: &mut HandleIndex,
    shares: &mut HandleShares,
    id: u64,
)
    requires shared { AreShared table.old.rows shares.old }
    ensures rows { table.new.rows ≡ without_row table.old.rows id }
    ensures last { table.new.last ≡ table.old.last }
    ensures room { table.old.room ≤ table.new.room }
    ensures indexed { AreIndexed table.old.rows index.old → AreIndexed table.new.rows index.new }
    ensures promised { index.new.room ≡ index.old.room }
    ensures shared { AreShared table.new.rows shares.new }
    ensures kept { shares.old.room ≤ shares.new.room }
{
    let _numbered = table.len();
    if let Some(row) = table.remove(id) {
        index.remove(id, &row);
        shares.release(&row);
    }
}

// Sets the enumeration of a handle.
fn set_enumeration(table: &mut Table<HandleRow>, handle: u64, enumeration: Enumeration)
    ensures rows { table.new.rows ≡ with_row_changed (λ row. record row { enumeration = Some enumeration }) table.old.rows handle }
    ensures last { table.new.last ≡ table.old.last }
    ensures room { table.new.room ≡ table.old.room }
{
    if let Some(row) = table.get_mut(handle) {
        row.enumeration = Some(enumeration);
    }
}

// Takes all ranges of a handle on this stream out, and tells whether there were any. Where it has no stream it isn't
// known whether the handle has locks.
fn remove_ranges_of(ranges: &mut StreamRanges, stream: Option<u64>, handle: u64) -> bool
    ensures some { result ≡ option_map_or (λ own. list_any (is_range_of handle) (ranges_in ranges.old own)) stream true }
    ensures own { IfSome stream (λ own. AreSetIn ranges.old ranges.new own (filter (λ range. not (is_range_of handle range)) (ranges_in ranges.old own))) }
    ensures none { IfNone stream (ranges.new ≡ ranges.old) }
    ensures room { (other : ℕ) → room_at ranges.old other ≤ room_at ranges.new other }
{
    match stream {
        None => true,
        Some(own) => ranges.remove_all_of(own, handle),
    }
}

// Takes the first range of this handle on this stream with exactly this place and count out, and gives its number.
// Where it has no stream, the number is looked for among all locks.
fn remove_range(
    ranges: &mut StreamRanges,
    locks: &[(u64, LockRow)],
    stream: Option<u64>,
    handle: u64,
    at: u64,
    count: u64,
) -> Option<u64>
    ensures number { result ≡ option_map_or (λ own. first_id (is_range handle at count) (ranges_in ranges.old own)) stream (number_of (is_lock_on handle at count) locks.now) }
    ensures own { IfSome stream (λ own. AreSetIn ranges.old ranges.new own (without_first (is_range handle at count) (ranges_in ranges.old own))) }
    ensures none { IfNone stream (ranges.new ≡ ranges.old) }
    ensures room { (other : ℕ) → room_at ranges.old other ≤ room_at ranges.new other }
{
    match stream {
        None => find_lock(locks, handle, at, count),
        Some(own) => ranges.remove(own, handle, at, count),
    }
}

// Takes all locks of a handle out. Where it is known that it has none, none is looked at.
fn remove_locks_of(locks: &mut RowList<LockRow>, some: bool, handle: u64)
    requires { some ≡ false → filter (λ entry. not (entry.1.handle == handle)) locks.old.rows ≡ locks.old.rows }
    ensures rows { locks.new.rows ≡ filter (λ entry. not (entry.1.handle == handle)) locks.old.rows }
    ensures last { locks.new.last ≡ locks.old.last }
    ensures room { locks.old.room ≤ locks.new.room }
{
    if some {
        locks.retain(|entry| entry.1.handle != handle);
    }
}

// Whether a lock is this handle's, on exactly this range.
fn is_exactly(lock: &LockRow, handle: u64, at: u64, count: u64) -> bool
    ensures { result ≡ is_lock_on handle at count lock.now }
{
    lock.handle == handle && lock.at == at && lock.count == count
}

// The number of the first lock of this handle on exactly this range.
fn find_lock(locks: &[(u64, LockRow)], handle: u64, at: u64, count: u64) -> Option<u64>
    ensures { result ≡ number_of (is_lock_on handle at count) locks.now }
{
    locks
        .iter()
        .find(|entry| is_exactly(&entry.1, handle, at, count))
        .map(|entry| entry.0)
}
