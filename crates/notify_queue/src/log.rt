//! The log of changes.

ghost use Rattle.std.specs.Prelude.{ℕ, ◌≡◌, ◌≤◌, ◌<◌, ◌+◌, ◌-◌, ◌^◌, ◌++◌, ◌∷◌, [], length, reverse, OnOk};
ghost use Rattle.notify_queue.specs.Log.{Holds};

use crate::part::LogPart;
use crate::past::Past;
use fsa_types::NoMemory;
use std::alloc::Global;
use std::marker::Model;

// What a log holds.
#[derive(Clone, Copy)]
pub(crate) struct HeldPart<'a> {
    // How many changes are gone before it.
    pub gone: u64,
    // The changes, and the one that is begun.
    pub part: &'a LogPart,
}

/// The changes in order, and a change begun. Contracts see all changes that were ever noted; those before the base
/// are of no use to anyone, and their memory is room for new ones once they are half of what is held.
pub struct ChangeLog {
    // What is gone. Only proofs read it.
    past: Past<LogPart, usize>,
    // How many changes are gone.
    gone: u64,
    // The place of the first change that is kept, of all that were noted.
    base: u64,
    // For how many more changes room was promised.
    room: usize,
    // The changes that are held, and the change begun.
    part: LogPart,
}

// One drop of the whole, so that it is one step at each end of a function that holds one.
impl Drop for ChangeLog {
    fn drop(self) {
        let ChangeLog {
            past: _,
            gone: _,
            base: _,
            room: _,
            part: _,
        } = self;
    }
}

impl Model for ChangeLog {
    ghost use Rattle.std.specs.Prelude.{◌++◌};
    ghost use Rattle.notify_queue.specs.Log.{Log, IsTrimmed, changes_before};

    ghost Value = { Log };

    ghost view = { λ l. record {
      changes = changes_before l.past.items ++ l.part.changes;
      base = l.base;
      path = l.part.path;
      seen = l.part.seen;
      room = l.room;
      units = l.part.units;
      dirs = l.part.dirs;
    } };

    ghost invariant = { λ l. IsTrimmed l.past.items l.gone l.base l.room l.part };
}

impl ChangeLog {
    /// No change, and none begun.
    pub fn new(alloc: Global) -> ChangeLog
        ensures changes { result.changes ≡ [] }
        ensures base { result.base ≡ 0 }
        ensures path { result.path ≡ [] }
        ensures seen { result.seen ≡ [] }
    {
        ChangeLog {
            past: Past::new(),
            gone: 0,
            base: 0,
            room: 0,
            part: LogPart::new(alloc),
        }
    }

    /// Takes room for so many changes, units and ancestors in all. `NoMemory` where there is none, and where there
    /// would be 2^64 changes.
    pub fn reserve(&mut self, changes: usize, units: usize, dirs: usize) -> Result<(), NoMemory>
        ensures same { (self.new.changes ≡ self.old.changes) × (self.new.path ≡ self.old.path) × (self.new.seen ≡ self.old.seen) }
        ensures base { self.new.base ≡ self.old.base }
        ensures room { OnOk result ((changes ≤ self.new.room) × (units ≤ self.new.units) × (dirs ≤ self.new.dirs)) }
        ensures kept { (self.old.room ≤ self.new.room) × (self.old.units ≤ self.new.units) × (self.old.dirs ≤ self.new.dirs) }
    {
        self.part.reserve(changes, units, dirs)?;
        if changes > self.room {
            let most = u64::MAX - self.gone - self.part.len() as u64;
            if changes as u64 > most {
                return Err(NoMemory);
            }
            self.room = changes;
        }
        Ok(())
    }

    /// Puts a unit before the path begun. There has to be room for one. It takes no memory.
    pub fn add_unit(&mut self, unit: u16)
        requires room { 1 ≤ self.old.units }
        ensures path { self.new.path ≡ self.old.path ++ unit ∷ [] }
        ensures seen { self.new.seen ≡ self.old.seen }
        ensures changes { self.new.changes ≡ self.old.changes }
        ensures others { (self.new.room ≡ self.old.room) × (self.new.dirs ≡ self.old.dirs) × (self.new.base ≡ self.old.base) }
        ensures left { self.old.units ≤ self.new.units + 1 }
    {
        self.part.add_unit(unit);
    }

    /// The change begun is seen from this ancestor, by the path begun. There has to be room for one. It takes no
    /// memory.
    pub fn add_dir(&mut self, dir: u64)
        requires room { 1 ≤ self.old.dirs }
        ensures path { self.new.path ≡ self.old.path }
        ensures seen { self.new.seen ≡ self.old.seen ++ (dir, reverse self.old.path) ∷ [] }
        ensures changes { self.new.changes ≡ self.old.changes }
        ensures others { (self.new.room ≡ self.old.room) × (self.new.units ≡ self.old.units) × (self.new.base ≡ self.old.base) }
        ensures left { self.old.dirs ≤ self.new.dirs + 1 }
    {
        self.part.add_dir(dir);
    }

    /// Notes the change begun, and begins another. There has to be room for one. It takes no memory.
    pub fn finish(&mut self, action: u32, bits: u32)
        requires room { 1 ≤ self.old.room }
        ensures path { self.new.path ≡ [] }
        ensures seen { self.new.seen ≡ [] }
        ensures changes { self.new.changes ≡ self.old.changes ++ record { action = action; bits = bits; seen_from = self.old.seen } ∷ [] }
        ensures others { (self.new.units ≡ self.old.units) × (self.new.dirs ≡ self.old.dirs) × (self.new.base ≡ self.old.base) }
        ensures left { self.old.room ≤ self.new.room + 1 }
    {
        self.part.finish(action, bits);
        self.room -= 1;
    }

    /// How many changes were ever noted.
    pub fn len(&self) -> u64
        ensures { result ≡ length self.now.changes }
    {
        self.gone + self.part.len() as u64
    }

    // What it holds.
    pub(crate) fn held(&self) -> HeldPart<'_>
        ensures { Holds self.now result.gone result.part.now }
    {
        HeldPart {
            gone: self.gone,
            part: &self.part,
        }
    }

    /// Keeps the changes from this place on, of all that were noted. It lies between the base and the end. It takes
    /// no memory, and leaves the room as it was or larger. What is held moves only where it is no more than what
    /// goes.
    pub fn trim(&mut self, base: u64)
        requires from { self.old.base ≤ base }
        requires to { base ≤ length self.old.changes }
        ensures base { self.new.base ≡ base }
        ensures same { (self.new.changes ≡ self.old.changes) × (self.new.path ≡ self.old.path) × (self.new.seen ≡ self.old.seen) }
        ensures kept { (self.old.room ≤ self.new.room) × (self.old.units ≤ self.new.units) × (self.old.dirs ≤ self.new.dirs) }
    {
        self.base = base;
        let dead = (base - self.gone) as usize;
        if dead > 0 && dead >= self.part.len() - dead {
            self.past = self.past.and(&self.part, &dead);
            self.part.drop_first(dead);
            self.gone = base;
        }
    }
}
