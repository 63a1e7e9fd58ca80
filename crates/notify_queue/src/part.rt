//! The changes that a log keeps.

ghost use Rattle.std.specs.Prelude.{ℕ, ◌≡◌, ◌≤◌, ◌<◌, ◌+◌, ◌-◌, ◌*◌, ◌^◌, ◌++◌, ◌∷◌, [], drop, length, map, reverse, OnOk};
ghost use Rattle.notify_queue.specs.Log.{ArePieces, changes_of, moved, start_of};

use fsa_types::NoMemory;
use object_tables::Series;
use std::alloc::Global;
use std::marker::Model;

/// Where the path of a change and its ancestors lie in the log.
#[derive(Clone, Copy)]
pub struct LogEntry {
    /// The action.
    pub action: u32,
    /// The filter bits.
    pub bits: u32,
    /// Where its path begins.
    pub first_unit: usize,
    /// How many units its path has.
    pub units: usize,
    /// Where its ancestors begin.
    pub first_dir: usize,
    /// How many ancestors it has.
    pub dirs: usize,
}

// What a log is made of.
#[derive(Clone, Copy)]
pub(crate) struct Pieces<'a> {
    // Where each change lies.
    pub entries: &'a [LogEntry],
    // The units of all paths.
    pub units: &'a [u16],
    // The ancestors of all changes.
    pub dirs: &'a [(u64, usize)],
}

/// Changes in order, and a change begun. Paths are written from their last unit to their first,
/// so that the name relative to an ancestor is the part that was written when the ancestor is reached.
pub(crate) struct LogPart {
    /// Where each change lies.
    pub entries: Series<LogEntry>,
    /// The units of all paths.
    pub units: Series<u16>,
    /// The ancestors of all changes, each with how many units of the path were written when it was
    /// reached.
    pub dirs: Series<(u64, usize)>,
    first_unit: usize,
    first_dir: usize,
}

// One drop of the whole, so that it is one step at each end of a function that holds one.
impl Drop for LogPart {
    fn drop(self) {
        let LogPart {
            entries: _,
            units: _,
            dirs: _,
            first_unit: _,
            first_dir: _,
        } = self;
    }
}

impl Model for LogPart {
    ghost use Rattle.std.specs.Prelude.{drop, map};
    ghost use Rattle.notify_queue.specs.Log.{LogPartView, IsLog, changes_of, relative};

    ghost Value = { LogPartView };

    ghost view = { λ l. record {
      changes = changes_of l.units.items l.dirs.items l.entries.items;
      path = drop l.first_unit l.units.items;
      seen = map (relative (drop l.first_unit l.units.items)) (drop l.first_dir l.dirs.items);
      room = l.entries.room;
      units = l.units.room;
      dirs = l.dirs.room;
    } };

    ghost invariant = { λ l. IsLog l.units.items l.dirs.items l.entries.items l.first_unit l.first_dir };
}

impl LogPart {
    /// No change, and none begun.
    pub fn new(alloc: Global) -> LogPart
        ensures changes { result.changes ≡ [] }
        ensures path { result.path ≡ [] }
        ensures seen { result.seen ≡ [] }
    {
        LogPart {
            entries: Series::new(alloc),
            units: Series::new(alloc),
            dirs: Series::new(alloc),
            first_unit: 0,
            first_dir: 0,
        }
    }

    /// Takes room for so many changes, units and ancestors in all. `NoMemory` where there is none.
    pub fn reserve(&mut self, changes: usize, units: usize, dirs: usize) -> Result<(), NoMemory>
        ensures same { (self.new.changes ≡ self.old.changes) × (self.new.path ≡ self.old.path) × (self.new.seen ≡ self.old.seen) }
        ensures room { OnOk result ((changes ≤ self.new.room) × (units ≤ self.new.units) × (dirs ≤ self.new.dirs)) }
        ensures kept { (self.old.room ≤ self.new.room) × (self.old.units ≤ self.new.units) × (self.old.dirs ≤ self.new.dirs) }
    {
        self.entries.reserve(changes)?;
        self.units.reserve(units)?;
        self.dirs.reserve(dirs)?;
        Ok(())
    }

    /// Puts a unit before the path begun. There has to be room for one. It takes no memory.
    pub fn add_unit(&mut self, unit: u16)
        requires room { 1 ≤ self.old.units }
        ensures path { self.new.path ≡ self.old.path ++ unit ∷ [] }
        ensures seen { self.new.seen ≡ self.old.seen }
        ensures changes { self.new.changes ≡ self.old.changes }
        ensures others { (self.new.room ≡ self.old.room) × (self.new.dirs ≡ self.old.dirs) }
        ensures left { self.old.units ≤ self.new.units + 1 }
    {
        self.units.push(unit);
    }

    /// The change begun is seen from this ancestor, by the path begun. There has to be room for one. It takes no
    /// memory.
    pub fn add_dir(&mut self, dir: u64)
        requires room { 1 ≤ self.old.dirs }
        ensures path { self.new.path ≡ self.old.path }
        ensures seen { self.new.seen ≡ self.old.seen ++ (dir, reverse self.old.path) ∷ [] }
        ensures changes { self.new.changes ≡ self.old.changes }
        ensures others { (self.new.room ≡ self.old.room) × (self.new.units ≡ self.old.units) }
        ensures left { self.old.dirs ≤ self.new.dirs + 1 }
    {
        let written = self.units.len() - self.first_unit;
        self.dirs.push((dir, written));
    }

    /// Notes the change begun, and begins another. There has to be room for one. It takes no memory.
    pub fn finish(&mut self, action: u32, bits: u32)
        requires room { 1 ≤ self.old.room }
        ensures path { self.new.path ≡ [] }
        ensures seen { self.new.seen ≡ [] }
        ensures changes { self.new.changes ≡ self.old.changes ++ record { action = action; bits = bits; seen_from = self.old.seen } ∷ [] }
        ensures others { (self.new.units ≡ self.old.units) × (self.new.dirs ≡ self.old.dirs) }
        ensures left { self.old.room ≤ self.new.room + 1 }
    {
        let units = self.units.len() - self.first_unit;
        let dirs = self.dirs.len() - self.first_dir;
        self.entries.push(LogEntry {
            action,
            bits,
            first_unit: self.first_unit,
            units,
            first_dir: self.first_dir,
            dirs,
        });
        self.first_unit = self.units.len();
        self.first_dir = self.dirs.len();
    }

    /// How many changes there are.
    pub fn len(&self) -> usize
        ensures { result ≡ length self.now.changes }
    {
        self.entries.len()
    }

    /// Takes the first changes out, so many, which have to be there. It takes no memory, and leaves no less room.
    pub fn drop_first(&mut self, count: usize)
        requires within { count ≤ length self.old.changes }
        ensures changes { self.new.changes ≡ drop count self.old.changes }
        ensures begun { (self.new.path ≡ self.old.path) × (self.new.seen ≡ self.old.seen) }
        ensures kept { (self.old.room ≤ self.new.room) × (self.old.units ≤ self.new.units) × (self.old.dirs ≤ self.new.dirs) }
    {
        let (unit, dir) = start_of(
            self.entries.as_slice(),
            count,
            self.first_unit,
            self.first_dir,
        );
        self.entries.drop_first(count);
        move_all(&mut self.entries, unit, dir);
        self.units.drop_first(unit);
        self.dirs.drop_first(dir);
        self.first_unit -= unit;
        self.first_dir -= dir;
    }

    // What it is made of.
    pub(crate) fn pieces(&self) -> Pieces<'_>
        ensures changes { self.now.changes ≡ changes_of result.units.now result.dirs.now result.entries.now }
        ensures pieces { ArePieces result.units.now result.dirs.now result.entries.now }
    {
        let entries = self.entries.as_slice();
        let units = self.units.as_slice();
        are_few(entries, units);
        Pieces {
            entries,
            units,
            dirs: self.dirs.as_slice(),
        }
    }
}

// Slices fit the memory that there can be.
fn are_few(entries: &[LogEntry], units: &[u16])
    ensures { 15 * length entries.now + 2 * length units.now < 2 ^ 64 }
{
    let _counts = (entries.len(), units.len());
}

// Where the path of the change at this place begins, and where its ancestors; behind the last change these.
fn start_of(entries: &[LogEntry], place: usize, unit: usize, dir: usize) -> (usize, usize)
    ensures { result ≡ start_of entries.now place unit dir }
{
    match entries.get(place) {
        None => (unit, dir),
        Some(entry) => (entry.first_unit, entry.first_dir),
    }
}

// The entry, where so many units and ancestors before it are gone.
fn moved(entry: LogEntry, unit: usize, dir: usize) -> LogEntry
    ensures { result ≡ moved unit dir entry }
{
    LogEntry {
        action: entry.action,
        bits: entry.bits,
        first_unit: entry.first_unit.saturating_sub(unit),
        units: entry.units,
        first_dir: entry.first_dir.saturating_sub(dir),
        dirs: entry.dirs,
    }
}

// All entries, where so many units and ancestors before them are gone.
fn move_all(entries: &mut Series<LogEntry>, unit: usize, dir: usize)
    ensures items { entries.new.items ≡ map (moved unit dir) entries.old.items }
    ensures room { entries.new.room ≡ entries.old.room }
{
    for i in 0..entries.len() {
        let entry = moved(entries.as_slice()[i], unit, dir);
        entries.set(i, entry);
    }
}
