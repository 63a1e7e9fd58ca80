//! Watches of directories.

ghost use Rattle.std.specs.Prelude.{ℕ, List, ◌≡◌, ◌≤◌, ◌<◌, ◌+◌, ◌-◌, ◌*◌, ◌^◌, ◌==◌, ◌++◌, ◌∷◌, [], All, cond, drop, find, is_some, length, map, nat_le, reverse, take, IfOk, IfSome, OnErr, OnOk};
ghost use Rattle.std.specs.List.{list_any};
ghost use Rattle.std.specs.Option.{option_copied};
ghost use Rattle.fsa_types.specs.Access.{has_any};
ghost use Rattle.fsa_model.specs.Watching.{packed_changes};
ghost use Rattle.notify_queue.specs.Due.{asks_for, asks_for_last, due_among, due_of, is_seen_among, packed_within, rounded_to_4, rows_of, size_due, size_from, change_size, told_from_change, written_for};
ghost use Rattle.notify_queue.specs.Log.{units_of_paths};

use crate::log::ChangeLog;
use crate::part::{LogEntry, LogPart};
use fsa_types::{Bytes, Name, NoMemory};
use pack_info::{ChangeRow, pack_changes};
use std::alloc::Global;

/// A watch of a directory, after [MS-FSA] 'Per ChangeNotifyEntry'.
#[derive(Clone, Copy)]
pub struct Watch {
    /// The file number of the directory.
    pub dir: u64,
    /// What it asks for, as a `NotifyFilter`.
    pub filter: u32,
    /// Whether all below the directory counts.
    pub tree: bool,
    /// The place in the list of changes, from 0, from which on they are due.
    pub from: u64,
}

impl Watch {
    /// How many bytes a report of what is due takes; `None` exactly where nothing is due. No change before the log's
    /// base is due to the watch. It takes no memory.
    pub fn due_size(&self, log: &ChangeLog) -> Option<u64>
        requires kept { log.now.base ≤ self.now.from }
        ensures { result ≡ size_due (due_of log.now.changes self.now) }
    {
        let held = log.held();
        let size = size_of_due(&behind(*self, held.gone), held.part);
        if size == 0 { None } else { Some(size) }
    }

    /// Whether something is due. No change before the log's base is due to the watch. It looks no further than the first
    /// change that is due, and takes no memory.
    pub fn is_something_due(&self, log: &ChangeLog) -> bool
        requires kept { log.now.base ≤ self.now.from }
        ensures { result ≡ is_some (size_due (due_of log.now.changes self.now)) }
    {
        let held = log.held();
        is_something_due(&behind(*self, held.gone), held.part)
    }

    /// Whether the last change, which has to be kept, is one that the watch asks for, wherever its place. It takes
    /// no memory.
    pub fn asks_for_last(&self, log: &ChangeLog) -> bool
        requires kept { log.now.base < length log.now.changes }
        ensures { result ≡ asks_for_last self.now log.now.changes }
    {
        let held = log.held();
        asks_for_last(self, held.part)
    }

    /// The packed entries of what is due, after [MS-FSCC] 'FILE_NOTIFY_INFORMATION'; `None` exactly where they
    /// take more than `room` bytes. In both cases only what is noted from now on is due. No change before the log's
    /// base is due to the watch. `NoMemory` changes nothing, and comes only where they take no more.
    pub fn take(
        &mut self,
        alloc: Global,
        log: &ChangeLog,
        room: u32,
    ) -> Result<Option<Bytes>, NoMemory>
        requires kept { log.now.base ≤ self.old.from }
        ensures packed { IfOk result (λ packed. packed ≡ packed_within (due_of log.now.changes self.old) room) }
        ensures seen { OnOk result (self.new ≡ record self.old { from = length log.now.changes }) }
        ensures unchanged { OnErr result (self.new ≡ self.old) }
        ensures within { OnErr result (length (packed_changes (due_of log.now.changes self.old)) ≤ room) }
    {
        let held = log.held();
        let packed = packed_within(alloc, &behind(*self, held.gone), held.part, room)?;
        self.from = log.len();
        Ok(packed)
    }
}

// The watch, where so many changes before those that are counted are gone.
fn behind(watch: Watch, gone: u64) -> Watch
    ensures { result ≡ record watch { from = watch.from - gone } }
{
    Watch {
        dir: watch.dir,
        filter: watch.filter,
        tree: watch.tree,
        from: watch.from.saturating_sub(gone),
    }
}

// Whether the last change is one that the watch asks for; false where there is no change.
fn asks_for_last(watch: &Watch, log: &LogPart) -> bool
    ensures { result ≡ asks_for_last watch.now log.now.changes }
{
    let pieces = log.pieces();
    let entries = pieces.entries;
    if entries.is_empty() {
        return false;
    }
    asks_for(watch, &entries[entries.len() - 1], pieces.dirs)
}

// The packed entries of what is due, where they take at most so many bytes.
fn packed_within(
    alloc: Global,
    watch: &Watch,
    log: &LogPart,
    room: u32,
) -> Result<Option<Bytes>, NoMemory>
    ensures packed { IfOk result (λ packed. packed ≡ packed_within (due_of log.now.changes watch.now) room) }
    ensures within { OnErr result (length (packed_changes (due_of log.now.changes watch.now)) ≤ room) }
{
    if !fits(watch, log, room as u64) {
        return Ok(None);
    }
    Ok(Some(packed_due(alloc, watch, log)?))
}

// Whether a report of what is due takes at most so many bytes.
fn fits(watch: &Watch, log: &LogPart, room: u64) -> bool
    ensures { result ≡ nat_le (length (packed_changes (due_of log.now.changes watch.now))) room }
{
    let pieces = log.pieces();
    let entries = from_place(pieces.entries, watch.from);
    fits_among(watch, entries, pieces.units, pieces.dirs, room)
}

// Whether something is due.
fn is_something_due(watch: &Watch, log: &LogPart) -> bool
    ensures { result ≡ is_some (size_due (due_of log.now.changes watch.now)) }
{
    let pieces = log.pieces();
    let entries = from_place(pieces.entries, watch.from);
    asks_among(watch, entries, pieces.dirs)
}

// How many bytes a report of what is due takes.
fn size_of_due(watch: &Watch, log: &LogPart) -> u64
    ensures { result ≡ length (packed_changes (due_of log.now.changes watch.now)) }
{
    let pieces = log.pieces();
    let entries = from_place(pieces.entries, watch.from);
    size_among(watch, entries, pieces.units, pieces.dirs)
}

// The packed entries of what is due, which have to take less than 2^32 bytes.
fn packed_due(alloc: Global, watch: &Watch, log: &LogPart) -> Result<Bytes, NoMemory>
    requires { length (packed_changes (due_of log.now.changes watch.now)) < 2 ^ 32 }
    ensures { IfOk result (λ packed. packed ≡ packed_changes (due_of log.now.changes watch.now)) }
{
    let rows = rows_due(alloc, watch, log)?;
    pack_changes(alloc, &rows)
}

// The rows of what is due.
fn rows_due(alloc: Global, watch: &Watch, log: &LogPart) -> Result<Vec<ChangeRow>, NoMemory>
    ensures { IfOk result (λ rows. rows.items ≡ rows_of (due_of log.now.changes watch.now)) }
{
    let pieces = log.pieces();
    let entries = from_place(pieces.entries, watch.from);
    rows_among(alloc, watch, entries, pieces.units, pieces.dirs)
}

// The entries from this place on.
fn from_place(entries: &[LogEntry], place: u64) -> &[LogEntry]
    ensures { result.now ≡ drop place entries.now }
{
    let place = place as usize;
    if place < entries.len() {
        &entries[place..]
    } else {
        &[]
    }
}

// How many bytes a report of what is due of these entries takes.
fn size_among(watch: &Watch, entries: &[LogEntry], units: &[u16], dirs: &[(u64, usize)]) -> u64
    requires lie { All (λ entry. (entry.first_unit + entry.units ≤ length units.now) × (entry.first_dir + entry.dirs ≤ length dirs.now)) entries.now }
    requires few { 15 * length entries.now + 2 * units_of_paths entries.now < 2 ^ 64 }
    ensures { result ≡ size_from 0 (due_among watch.now units.now dirs.now entries.now) }
{
    let mut rest = entries;
    let mut size = 0;
    'entries: while let Some((entry, more)) = rest.split_first() {
        size = size_with(size, watch, entry, units, dirs);
        rest = more;
    }
    size
}

// Whether a report of what is due of these entries takes at most so many bytes. It looks no further than to where it
// takes more.
fn fits_among(
    watch: &Watch,
    entries: &[LogEntry],
    units: &[u16],
    dirs: &[(u64, usize)],
    room: u64,
) -> bool
    requires lie { All (λ entry. (entry.first_unit + entry.units ≤ length units.now) × (entry.first_dir + entry.dirs ≤ length dirs.now)) entries.now }
    requires few { 15 * length entries.now + 2 * units_of_paths entries.now < 2 ^ 64 }
    ensures { result ≡ nat_le (size_from 0 (due_among watch.now units.now dirs.now entries.now)) room }
{
    let mut rest = entries;
    let mut size = 0;
    'entries: while let Some((entry, more)) = rest.split_first() {
        size = size_with(size, watch, entry, units, dirs);
        if size > room {
            return false;
        }
        rest = more;
    }
    true
}

// Whether the watch asks for the change of one of these entries.
fn asks_among(watch: &Watch, entries: &[LogEntry], dirs: &[(u64, usize)]) -> bool
    requires lie { All (λ entry. entry.first_dir + entry.dirs ≤ length dirs.now) entries.now }
    ensures { (units : List ℕ) → result ≡ list_any (asks_for watch.now units dirs.now) entries.now }
{
    let mut rest = entries;
    'entries: while let Some((entry, more)) = rest.split_first() {
        if asks_for(watch, entry, dirs) {
            return true;
        }
        rest = more;
    }
    false
}

// The rows of what is due of these entries.
fn rows_among(
    alloc: Global,
    watch: &Watch,
    entries: &[LogEntry],
    units: &[u16],
    dirs: &[(u64, usize)],
) -> Result<Vec<ChangeRow>, NoMemory>
    requires lie { All (λ entry. (entry.first_unit + entry.units ≤ length units.now) × (entry.first_dir + entry.dirs ≤ length dirs.now)) entries.now }
    ensures { IfOk result (λ rows. rows.items ≡ rows_of (due_among watch.now units.now dirs.now entries.now)) }
{
    let mut rest = entries;
    let mut rows = Vec::new(alloc);
    'entries: while let Some((entry, more)) = rest.split_first() {
        push_row(alloc, &mut rows, watch, entry, units, dirs)?;
        rest = more;
    }
    Ok(rows)
}

// So many bytes with the entry behind them, where the watch asks for its change.
fn size_with(
    size: u64,
    watch: &Watch,
    entry: &LogEntry,
    units: &[u16],
    dirs: &[(u64, usize)],
) -> u64
    requires lies { (entry.now.first_unit + entry.now.units ≤ length units.now) × (entry.now.first_dir + entry.now.dirs ≤ length dirs.now) }
    requires few { size + 15 + 2 * entry.now.units < 2 ^ 64 }
    ensures size { result ≡ cond (asks_for watch.now units.now dirs.now entry.now) (rounded_to_4 size + change_size (told_from_change watch.now units.now dirs.now entry.now)) size }
    ensures bound { result ≤ size + 15 + 2 * entry.now.units }
{
    let Some(written) = asked_written(watch, entry, dirs) else {
        return size;
    };
    let name = path_written(entry, units, written);
    (size + 3) / 4 * 4 + 12 + 2 * name.len() as u64
}

// Puts the row of the entry at the end, where the watch asks for its change.
fn push_row(
    alloc: Global,
    rows: &mut Vec<ChangeRow>,
    watch: &Watch,
    entry: &LogEntry,
    units: &[u16],
    dirs: &[(u64, usize)],
) -> Result<(), NoMemory>
    requires lies { (entry.now.first_unit + entry.now.units ≤ length units.now) × (entry.now.first_dir + entry.now.dirs ≤ length dirs.now) }
    ensures { OnOk result (rows.new.items ≡ rows.old.items ++ rows_of (cond (asks_for watch.now units.now dirs.now entry.now) (told_from_change watch.now units.now dirs.now entry.now ∷ []) [])) }
{
    let Some(written) = asked_written(watch, entry, dirs) else {
        return Ok(());
    };
    let name = reversed(alloc, path_written(entry, units, written))?;
    rows.push(ChangeRow {
        action: entry.action,
        name,
    })?;
    Ok(())
}

// Whether the watch asks for the change of this entry.
fn asks_for(watch: &Watch, entry: &LogEntry, dirs: &[(u64, usize)]) -> bool
    requires lies { entry.now.first_dir + entry.now.dirs ≤ length dirs.now }
    ensures { (units : List ℕ) → result ≡ asks_for watch.now units dirs.now entry.now }
{
    asked_written(watch, entry, dirs).is_some()
}

// Where the watch asks for the change of this entry, how much of its path was written when the watch's directory was
// reached.
fn asked_written(watch: &Watch, entry: &LogEntry, dirs: &[(u64, usize)]) -> Option<usize>
    requires lies { entry.now.first_dir + entry.now.dirs ≤ length dirs.now }
    ensures asked { (units : List ℕ) → is_some result ≡ asks_for watch.now units dirs.now entry.now }
    ensures written { IfSome result (λ written. written ≡ written_for watch.now.dir (take entry.now.dirs (drop entry.now.first_dir dirs.now))) }
{
    if !has_any(entry.bits, watch.filter) {
        return None;
    }
    let seen = &dirs[entry.first_dir..entry.first_dir + entry.dirs];
    seen_written(seen, watch.dir, watch.tree)
}

// Whether some of these bits are set.
fn has_any(bits: u32, filter: u32) -> bool
    ensures { result ≡ has_any bits filter }
{
    bits & filter != 0
}

// Where the directory is the first of these, or, where the whole tree counts, any of them, how much of the path was
// written when it was reached.
fn seen_written(seen: &[(u64, usize)], dir: u64, tree: bool) -> Option<usize>
    ensures seen { is_some result ≡ is_seen_among dir tree seen.now }
    ensures written { IfSome result (λ written. written ≡ written_for dir seen.now) }
{
    let Some((parent, above)) = seen.split_first() else {
        return None;
    };
    if parent.0 == dir {
        return Some(parent.1);
    }
    if !tree {
        return None;
    }
    written_among(above, dir)
}

// Where the directory is one of these, how much of the path was written when it was reached.
fn written_among(seen: &[(u64, usize)], dir: u64) -> Option<usize>
    ensures seen { is_some result ≡ list_any (λ ancestor. ancestor.0 == dir) seen.now }
    ensures written { IfSome result (λ written. written ≡ written_for dir seen.now) }
{
    match find_dir(seen, dir) {
        None => None,
        Some(ancestor) => Some(ancestor.1),
    }
}

// The directory among these.
fn find_dir(seen: &[(u64, usize)], dir: u64) -> Option<&(u64, usize)>
    ensures { option_copied result ≡ find (λ ancestor. ancestor.0 == dir) seen.now }
{
    seen.iter().find(|ancestor| ancestor.0 == dir)
}

// The first units of the path of the entry, so many: from its last unit to its first.
fn path_written<'a>(entry: &LogEntry, units: &'a [u16], written: usize) -> &'a [u16]
    requires lies { entry.now.first_unit + entry.now.units ≤ length units.now }
    ensures path { result.now ≡ take written (take entry.now.units (drop entry.now.first_unit units.now)) }
    ensures short { length result.now ≤ entry.now.units }
{
    let path = &units[entry.first_unit..entry.first_unit + entry.units];
    first_units(path, written)
}

// The first units, as many as there are.
fn first_units(path: &[u16], count: usize) -> &[u16]
    ensures { result.now ≡ take count path.now }
{
    if count < path.len() {
        &path[..count]
    } else {
        path
    }
}

// The name of these units, from the last to the first.
fn reversed(alloc: Global, units: &[u16]) -> Result<Name, NoMemory>
    ensures { IfOk result (λ name. name ≡ reverse units.now) }
{
    let mut name = Vec::new(alloc);
    for i in 0..units.len() {
        name.push(units[units.len() - 1 - i])?;
    }
    Ok(Name::from(name))
}
