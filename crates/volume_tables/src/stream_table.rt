//! The streams of a volume, by number and by file.

ghost use Rattle.std.specs.Prelude.{ℕ, ◌≡◌, ◌≤◌, ◌<◌, ◌+◌, ◌^◌, ◌++◌, ◌∷◌, [], ◌==◌, not, false, IsTrue, IfSome, OnOk, filter, find, fold, length, option_map, slice_get, sum_by};
ghost use Rattle.std.specs.Option.{option_copied, option_map_or};
ghost use Rattle.std.specs.Ordering.{is_lt};
ghost use Rattle.fsa_types.specs.CaseTable.{cmp_name};
ghost use Rattle.fsa_types.specs.Rows.{row_of, lives, with_row_changed, without_row, IsNumbered};
ghost use Rattle.fsa_types.specs.StreamBytes.{put, cut};
ghost use Rattle.fsa_types.specs.Clusters.{clusters_for};
ghost use Rattle.fsa_model.specs.Lookups.{is_stream_named, number_of};
ghost use Rattle.fsa_model.specs.QueryInfo.{is_stream_before};
ghost use Rattle.key_index.specs.RowsByKey.{IsIndexOf, row_passes, rows_of_entries};
ghost use Rattle.object_tables.specs.Next.{IsNext};
ghost use Rattle.volume_rows.specs.Streams.{ChangesStream, KeepsStreams, streams_in};
ghost use Rattle.volume_tables.specs.StreamOrder.{first_with, is_stream_after, stream_number_after, rows_after};
ghost use Rattle.volume_tables.specs.StreamTable.{stream_file_key};

use fsa_types::{NoMemory, UpcaseTable};
use key_index::KeyIndex;
use object_tables::Table;
use std::alloc::Global;
use std::marker::Model;
use volume_rows::{StreamRow, clusters_of, is_stream_named};

/// Streams under numbers that rise from 1, with room for more of them. A stream is found by its name among those
/// of its file alone.
pub struct StreamTable {
    table: Table<StreamRow>,
    // The numbers of all streams, under their files.
    files: KeyIndex,
    // How many more streams were promised.
    room: usize,
}

// One drop of the whole, so that it is one step at each end of a function that holds one.
impl Drop for StreamTable {
    fn drop(self) {
        let StreamTable {
            table: _,
            files: _,
            room: _,
        } = self;
    }
}

impl Model for StreamTable {
    ghost use Rattle.std.specs.Prelude.{◌≤◌};
    ghost use Rattle.key_index.specs.RowsByKey.{IsIndexOf};
    ghost use Rattle.volume_rows.specs.Streams.{streams_in};
    ghost use Rattle.volume_tables.specs.StreamTable.{StreamRows, stream_file_key};

    ghost Value = { StreamRows };

    ghost view = { λ t. record { rows = t.table.rows; last = t.table.last; room = t.room } };

    ghost invariant = { λ t. IsIndexOf stream_file_key (streams_in t.table.rows) t.files.entries × t.room ≤ t.table.room × t.room ≤ t.files.room };
}

impl StreamTable {
    /// A table without streams and without room. It takes no memory.
    pub fn new(alloc: Global) -> StreamTable
        ensures rows { result.rows ≡ [] }
        ensures last { result.last ≡ 0 }
    {
        StreamTable {
            table: Table::new(alloc),
            files: KeyIndex::new(alloc),
            room: 0,
        }
    }

    /// Takes room for `more` streams beside those that are there. `NoMemory` where there is none.
    pub fn reserve(&mut self, more: usize) -> Result<(), NoMemory>
        ensures rows { self.new.rows ≡ self.old.rows }
        ensures last { self.new.last ≡ self.old.last }
        ensures room { OnOk result (more ≤ self.new.room) }
        ensures kept { self.old.room ≤ self.new.room }
    {
        if more <= self.room {
            return Ok(());
        }
        self.table.reserve(more)?;
        self.files.reserve(more)?;
        self.room = more;
        Ok(())
    }

    /// The least number above `after` that a stream has; `None` exactly where there is none.
    pub fn next(&self, after: u64) -> Option<u64>
        ensures { IsNext self.now.rows after result }
    {
        self.table.next(after)
    }

    /// The stream of this number; `None` exactly where there is none.
    pub fn get(&self, id: u64) -> Option<&StreamRow>
        ensures { option_copied result ≡ row_of self.now.rows id }
    {
        self.table.get(id)
    }

    /// The first stream of this name of this file. It looks at those of the file alone.
    pub fn named(&self, upcase: &UpcaseTable, file: u64, units: &[u16]) -> Option<u64>
        ensures { result ≡ number_of (is_stream_named upcase.now file units.now) (streams_in self.now.rows) }
    {
        let _numbered = self.table.len();
        find_named(&self.table, self.files.of(file), upcase, file, units)
    }

    /// The stream of this file with the least name after this one, by upcased units; `None` exactly where there is
    /// none. It looks at those of the file alone.
    pub fn after(&self, upcase: &UpcaseTable, file: u64, units: &[u16]) -> Option<u64>
        ensures { result ≡ stream_number_after upcase.now file units.now (streams_in self.now.rows) }
    {
        let _numbered = self.table.len();
        find_after(&self.table, self.files.of(file), upcase, file, units)
    }

    /// The clusters of all streams of a file. It looks at these alone. Those of all streams have to fit 64 bits.
    pub fn clusters_of_file(&self, file: u64) -> u64
        requires fits { sum_by (λ entry. clusters_for (length entry.1.bytes)) (streams_in self.now.rows) < 2 ^ 64 }
        ensures { result ≡ sum_by (λ entry. clusters_for (length entry.1.bytes)) (filter (λ entry. entry.1.file == file) (streams_in self.now.rows)) }
    {
        let _numbered = self.table.len();
        clusters_among(&self.table, self.files.of(file))
    }

    /// Adds a stream and gives its number, one more than the last one given. Room has to be reserved, and fewer
    /// than 2^64 - 1 numbers to be given so far.
    pub fn add(&mut self, row: StreamRow) -> u64
        requires room { 1 ≤ self.old.room }
        requires ids_left { self.old.last + 1 < 2 ^ 64 }
        ensures rows { self.new.rows ≡ self.old.rows ++ (self.old.last + 1, row) ∷ [] }
        ensures last { self.new.last ≡ self.old.last + 1 }
        ensures left { self.old.room ≡ self.new.room + 1 }
        ensures id { result ≡ self.old.last + 1 }
    {
        let id = self.table.last() + 1;
        self.files.add(row.info().file, id);
        let Ok(_) = self.table.add(row) else {
            unreachable!()
        };
        self.room -= 1;
        id
    }

    /// Marks a stream for deletion, or clears its mark; where there is no such stream nothing changes.
    pub fn mark(&mut self, stream: u64, deleted: bool)
        ensures rows { self.new.rows ≡ with_row_changed (λ row. record row { stream = record row.stream { deleted = deleted } }) self.old.rows stream }
        ensures last { self.new.last ≡ self.old.last }
        ensures room { self.new.room ≡ self.old.room }
    {
        mark(&mut self.table, stream, deleted);
    }

    /// Takes room for `count` bytes of a stream from place `at` on, in place of the room that was taken before.
    /// Their end is at most 2^26. `NoMemory` where there is none. There has to be such a stream.
    pub fn reserve_bytes(&mut self, stream: u64, at: u64, count: u64) -> Result<(), NoMemory>
        requires lives { IsTrue (lives self.old.rows stream) }
        requires fits { at + count ≤ 2 ^ 26 }
        ensures rows { KeepsStreams self.old.rows self.new.rows }
        ensures others { (other : ℕ) → (other == stream) ≡ false → row_of self.new.rows other ≡ row_of self.old.rows other }
        ensures last { self.new.last ≡ self.old.last }
        ensures room { self.new.room ≡ self.old.room }
        ensures reserved { OnOk result (IfSome (row_of self.new.rows stream) (λ row. row.room ≡ record { from = at; to = at + count })) }
    {
        reserve_in(&mut self.table, stream, at, count)
    }

    /// Puts the piece into a stream at this place, a gap before it filled with zeros. There has to be room for it,
    /// and its end is at most 2^26; where there is no such stream nothing changes.
    pub fn put(&mut self, stream: u64, at: u64, piece: &[u8])
        requires room { IfSome (row_of self.old.rows stream) (λ row. (row.room.from ≤ at) × (at + length piece.now ≤ row.room.to)) }
        requires fits { at + length piece.now ≤ 2 ^ 26 }
        ensures rows { ChangesStream self.old.rows self.new.rows stream (λ row. record row { bytes = put row.bytes at piece.now }) }
        ensures others { (other : ℕ) → (other == stream) ≡ false → row_of self.new.rows other ≡ row_of self.old.rows other }
        ensures last { self.new.last ≡ self.old.last }
        ensures room { self.new.room ≡ self.old.room }
    {
        put_in(&mut self.table, stream, at, piece);
    }

    /// Makes a stream so many bytes long, at most 2^26, with zeros beyond its old end. Where there is no such stream
    /// nothing changes. It takes no memory.
    pub fn set_length(&mut self, stream: u64, bytes: u64)
        requires { bytes ≤ 2 ^ 26 }
        ensures rows { ChangesStream self.old.rows self.new.rows stream (λ row. record row { bytes = cut row.bytes bytes }) }
        ensures others { (other : ℕ) → (other == stream) ≡ false → row_of self.new.rows other ≡ row_of self.old.rows other }
        ensures last { self.new.last ≡ self.old.last }
        ensures room { self.new.room ≡ self.old.room }
    {
        set_length_in(&mut self.table, stream, bytes);
    }

    /// Takes the stream of this number out; where there is none nothing changes. It takes no memory, and leaves
    /// the room as it was.
    pub fn remove(&mut self, stream: u64)
        ensures rows { self.new.rows ≡ without_row self.old.rows stream }
        ensures last { self.new.last ≡ self.old.last }
        ensures room { self.new.room ≡ self.old.room }
    {
        remove(&mut self.table, &mut self.files, stream);
    }

    /// Takes all streams of a file out. It takes no memory, and leaves the room as it was.
    pub fn remove_all_of(&mut self, file: u64)
        ensures rows { self.new.rows ≡ filter (λ entry. not (entry.1.stream.file == file)) self.old.rows }
        ensures last { self.new.last ≡ self.old.last }
        ensures room { self.new.room ≡ self.old.room }
    {
        take_all(&mut self.table, self.files.of(file));
        self.files.remove_all(file);
    }
}

// Whether the stream of this number is there, and has this name in this file.
fn is_named_at(
    table: &Table<StreamRow>,
    id: u64,
    upcase: &UpcaseTable,
    file: u64,
    units: &[u16],
) -> bool
    ensures { result ≡ option_map_or (λ row. is_stream_named upcase.now file units.now row) (row_of (streams_in table.now.rows) id) false }
{
    match table.get(id) {
        None => false,
        Some(row) => is_stream_named(upcase, file, units, row),
    }
}

// The first of these streams that has this name in this file.
fn find_named(
    table: &Table<StreamRow>,
    entries: &[(u64, u64)],
    upcase: &UpcaseTable,
    file: u64,
    units: &[u16],
) -> Option<u64>
    ensures { result ≡ option_map (λ entry. entry.1) (find (row_passes (streams_in table.now.rows) (λ entry. is_stream_named upcase.now file units.now entry.1)) entries.now) }
{
    entries
        .iter()
        .find(|entry| is_named_at(table, entry.1, upcase, file, units))
        .map(|entry| entry.1)
}

// Whether a stream is one of this file whose name comes after this one.
fn is_stream_after(upcase: &UpcaseTable, file: u64, units: &[u16], row: &StreamRow) -> bool
    ensures { result ≡ is_stream_after upcase.now file units.now row.now.stream }
{
    row.info.file == file && upcase.cmp_name(units, row.info.name.units()).is_lt()
}

// Whether one stream's name comes before another's.
fn is_stream_before(upcase: &UpcaseTable, one: &StreamRow, other: &StreamRow) -> bool
    ensures { result ≡ is_lt (cmp_name upcase.now one.now.stream.name other.now.stream.name) }
{
    let (one, other) = (one.info.name.units(), other.info.name.units());
    upcase.cmp_name(one, other).is_lt()
}

// The first of the streams of this file whose names come after this one, where `first` was the first of some of
// them, and the stream of number `id` is one more.
fn first_with<'a>(
    upcase: &UpcaseTable,
    file: u64,
    units: &[u16],
    id: u64,
    row: &'a StreamRow,
    first: Option<(u64, &'a StreamRow)>,
) -> Option<(u64, &'a StreamRow)>
    ensures { option_map (λ e. (e.0, e.1.now.stream)) result ≡ first_with (is_stream_before upcase.now) (λ e. is_stream_after upcase.now file units.now e.1) (id, row.now.stream) (option_map (λ e. (e.0, e.1.now.stream)) first.entry) }
{
    if !is_stream_after(upcase, file, units, row) {
        return first;
    }
    match first {
        None => Some((id, row)),
        Some((number, other)) => {
            if is_stream_before(upcase, row, other) {
                Some((id, row))
            } else {
                Some((number, other))
            }
        }
    }
}

// The same, where the stream of number `id` is one more if it is there.
fn first_at<'a>(
    table: &'a Table<StreamRow>,
    id: u64,
    upcase: &UpcaseTable,
    file: u64,
    units: &[u16],
    first: Option<(u64, &'a StreamRow)>,
) -> Option<(u64, &'a StreamRow)>
    ensures { let was = option_map (λ e. (e.0, e.1.now.stream)) first.entry in
        option_map (λ e. (e.0, e.1.now.stream)) result
        ≡ option_map_or (λ row. first_with (is_stream_before upcase.now) (λ e. is_stream_after upcase.now file units.now e.1) (id, row) was) (row_of (streams_in table.now.rows) id) was }
{
    match table.get(id) {
        None => first,
        Some(row) => first_with(upcase, file, units, id, row, first),
    }
}

// The first of these streams that is one of this file and whose name comes after this one, with its number.
fn first_among<'a>(
    table: &'a Table<StreamRow>,
    entries: &[(u64, u64)],
    upcase: &UpcaseTable,
    file: u64,
    units: &[u16],
) -> Option<(u64, &'a StreamRow)>
    ensures { option_map (λ e. (e.0, e.1.now.stream)) result ≡ slice_get (rows_after upcase.now file units.now (rows_of_entries (streams_in table.now.rows) entries.now)) 0 }
{
    let mut first = None;
    // A stream is put before the first that its name comes before, so that the last of them is looked at first.
    for place in (0..entries.len()).rev() {
        first = first_at(table, entries[place].1, upcase, file, units, first);
    }
    first
}

// The number of the first of these streams that is one of this file and whose name comes after this one.
fn find_after(
    table: &Table<StreamRow>,
    entries: &[(u64, u64)],
    upcase: &UpcaseTable,
    file: u64,
    units: &[u16],
) -> Option<u64>
    ensures { result ≡ stream_number_after upcase.now file units.now (rows_of_entries (streams_in table.now.rows) entries.now) }
{
    match first_among(table, entries, upcase, file, units) {
        None => None,
        Some((id, _)) => Some(id),
    }
}

// The clusters of the stream of this number; 0 where there is none.
fn clusters_at(table: &Table<StreamRow>, id: u64) -> u64
    ensures { result ≡ option_map_or (λ row. clusters_for (length row.bytes)) (row_of (streams_in table.now.rows) id) 0 }
{
    match table.get(id) {
        None => 0,
        Some(row) => clusters_of(row),
    }
}

// The clusters of these streams.
fn clusters_among(table: &Table<StreamRow>, entries: &[(u64, u64)]) -> u64
    requires { sum_by (λ entry. option_map_or (λ row. clusters_for (length row.bytes)) (row_of (streams_in table.now.rows) entry.1) 0) entries.now < 2 ^ 64 }
    ensures { result ≡ sum_by (λ entry. option_map_or (λ row. clusters_for (length row.bytes)) (row_of (streams_in table.now.rows) entry.1) 0) entries.now }
{
    entries
        .iter()
        .map(|entry| clusters_at(table, entry.1))
        .sum()
}

// Marks a stream for deletion, or clears its mark.
fn mark(streams: &mut Table<StreamRow>, stream: u64, deleted: bool)
    ensures rows { streams.new.rows ≡ with_row_changed (λ row. record row { stream = record row.stream { deleted = deleted } }) streams.old.rows stream }
    ensures last { streams.new.last ≡ streams.old.last }
    ensures room { streams.new.room ≡ streams.old.room }
{
    if let Some(row) = streams.get_mut(stream) {
        row.info.deleted = deleted;
    }
}

// Takes room for `count` bytes of a stream from `at` on.
fn reserve_in(
    streams: &mut Table<StreamRow>,
    stream: u64,
    at: u64,
    count: u64,
) -> Result<(), NoMemory>
    requires lives { IsTrue (lives streams.old.rows stream) }
    requires fits { at + count ≤ 2 ^ 26 }
    ensures rows { KeepsStreams streams.old.rows streams.new.rows }
    ensures others { (other : ℕ) → (other == stream) ≡ false → row_of streams.new.rows other ≡ row_of streams.old.rows other }
    ensures last { streams.new.last ≡ streams.old.last }
    ensures room { streams.new.room ≡ streams.old.room }
    ensures reserved { OnOk result (IfSome (row_of streams.new.rows stream) (λ row. row.room ≡ record { from = at; to = at + count })) }
{
    match streams.get_mut(stream) {
        None => Ok(()),
        Some(row) => row.reserve(at, count),
    }
}

// Puts the piece into a stream.
fn put_in(streams: &mut Table<StreamRow>, stream: u64, at: u64, piece: &[u8])
    requires room { IfSome (row_of streams.old.rows stream) (λ row. (row.room.from ≤ at) × (at + length piece.now ≤ row.room.to)) }
    requires fits { at + length piece.now ≤ 2 ^ 26 }
    ensures rows { ChangesStream streams.old.rows streams.new.rows stream (λ row. record row { bytes = put row.bytes at piece.now }) }
    ensures others { (other : ℕ) → (other == stream) ≡ false → row_of streams.new.rows other ≡ row_of streams.old.rows other }
    ensures last { streams.new.last ≡ streams.old.last }
    ensures room { streams.new.room ≡ streams.old.room }
{
    if let Some(row) = streams.get_mut(stream) {
        row.put(at, piece);
    }
}

// Makes a stream so many bytes long.
fn set_length_in(streams: &mut Table<StreamRow>, stream: u64, bytes: u64)
    requires { bytes ≤ 2 ^ 26 }
    ensures rows { ChangesStream streams.old.rows streams.new.rows stream (λ row. record row { bytes = cut row.bytes bytes }) }
    ensures others { (other : ℕ) → (other == stream) ≡ false → row_of streams.new.rows other ≡ row_of streams.old.rows other }
    ensures last { streams.new.last ≡ streams.old.last }
    ensures room { streams.new.room ≡ streams.old.room }
{
    if let Some(row) = streams.get_mut(stream) {
        row.set_length(bytes);
    }
}

// Takes a stream out, and its number.
fn remove(table: &mut Table<StreamRow>, files: &mut KeyIndex, id: u64)
    ensures rows { table.new.rows ≡ without_row table.old.rows id }
    ensures last { table.new.last ≡ table.old.last }
    ensures room { table.old.room ≤ table.new.room }
    ensures indexed { IsIndexOf stream_file_key (streams_in table.old.rows) files.old.entries → IsIndexOf stream_file_key (streams_in table.new.rows) files.new.entries }
    ensures kept { files.old.room ≤ files.new.room }
{
    let _numbered = table.len();
    match table.remove(id) {
        None => {}
        Some(row) => {
            files.remove(row.info().file, id);
        }
    }
}

// Takes these streams out.
fn take_all(streams: &mut Table<StreamRow>, entries: &[(u64, u64)])
    ensures rows { streams.new.rows ≡ fold (λ rows entry. without_row rows entry.1) streams.old.rows entries.now }
    ensures numbered { IsNumbered streams.old.rows streams.old.last }
    ensures last { streams.new.last ≡ streams.old.last }
    ensures room { streams.old.room ≤ streams.new.room }
{
    let _numbered = streams.len();
    for entry in entries {
        let _ = streams.remove(entry.1);
    }
}
