//! Changes noted, with the directories from which they are seen.

ghost use Rattle.std.specs.Prelude.{ℕ, ◌≡◌, ◌≤◌, ◌<◌, ◌+◌, ◌-◌, ◌++◌, ◌∷◌, [], length, reverse, OnOk, IfSome, option_map, ◌==◌};
ghost use Rattle.std.specs.Option.{option_copied, option_map_or};
ghost use Rattle.fsa_model.specs.Changes.{ancestors, path_units, stream_suffix};
ghost use Rattle.fsa_model.specs.Lookups.{link_of_file};
ghost use Rattle.volume_rows.specs.Noting.{suffix_of};

use crate::links::LinksByFile;
use fsa_types::NoMemory;
use notify_queue::ChangeLog;
use std::alloc::Global;
use std::marker::Model;

const BACKSLASH: u16 = 92;

const COLON: u16 = 58;

/// The changes that were noted: a log with no change begun.
#[derive(Drop)]
pub struct Changes {
    log: ChangeLog,
}

impl Model for Changes {
    ghost use Rattle.std.specs.Prelude.{◌≡◌, []};
    ghost use Rattle.volume_rows.specs.Noting.{Noted};

    ghost Value = { Noted };

    ghost view = { λ c. record { changes = c.log.changes; base = c.log.base; room = c.log.room; units = c.log.units; dirs = c.log.dirs } };

    ghost invariant = { λ c. (c.log.path ≡ []) × (c.log.seen ≡ []) };
}

impl Changes {
    /// No change.
    pub fn new(alloc: Global) -> Changes
        ensures changes { result.changes ≡ [] }
        ensures base { result.base ≡ 0 }
    {
        Changes {
            log: ChangeLog::new(alloc),
        }
    }

    /// Takes room for so many changes, units and ancestors in all. `NoMemory` where there is none.
    pub fn reserve(&mut self, changes: usize, units: usize, dirs: usize) -> Result<(), NoMemory>
        ensures changes { self.new.changes ≡ self.old.changes }
        ensures base { self.new.base ≡ self.old.base }
        ensures room { OnOk result ((changes ≤ self.new.room) × (units ≤ self.new.units) × (dirs ≤ self.new.dirs)) }
        ensures kept { (self.old.room ≤ self.new.room) × (self.old.units ≤ self.new.units) × (self.old.dirs ≤ self.new.dirs) }
    {
        self.log.reserve(changes, units, dirs)
    }

    /// The log of them.
    pub fn log(&self) -> &ChangeLog
        ensures changes { result.now.changes ≡ self.now.changes }
        ensures base { result.now.base ≡ self.now.base }
    {
        &self.log
    }

    /// Keeps the changes from this place on, of all that were noted. It lies between the base and the end. It takes
    /// no memory, and leaves the room as it was or larger.
    pub fn trim(&mut self, base: u64)
        requires from { self.old.base ≤ base }
        requires to { base ≤ length self.old.changes }
        ensures changes { self.new.changes ≡ self.old.changes }
        ensures base { self.new.base ≡ base }
        ensures kept { (self.old.room ≤ self.new.room) × (self.old.units ≤ self.new.units) × (self.old.dirs ≤ self.new.dirs) }
    {
        self.log.trim(base);
    }

    /// Notes a change of what has this name in this directory, or of this stream of it. Room has to be
    /// reserved for a change, the units of its path from the root, and a directory for each ancestor.
    pub fn note(
        &mut self,
        links: &LinksByFile,
        parent: u64,
        name: &[u16],
        stream: Option<&[u16]>,
        action: u32,
        bits: u32,
    )
        requires room { 1 ≤ self.old.room }
        requires units { path_units (ancestors (length links.now.rows + 1) links.now.rows parent (name.now ++ suffix_of stream)) ≤ self.old.units }
        requires dirs { length (ancestors (length links.now.rows + 1) links.now.rows parent (name.now ++ suffix_of stream)) ≤ self.old.dirs }
        ensures changes { self.new.changes ≡ self.old.changes ++ record { action = action; bits = bits; seen_from = ancestors (length links.now.rows + 1) links.now.rows parent (name.now ++ suffix_of stream.entry) } ∷ [] }
        ensures base { self.new.base ≡ self.old.base }
        ensures left { self.old.room ≤ self.new.room + 1 }
        ensures units_left { self.old.units ≤ self.new.units + path_units (ancestors (length links.now.rows + 1) links.now.rows parent (name.now ++ suffix_of stream.entry)) }
        ensures dirs_left { self.old.dirs ≤ self.new.dirs + length (ancestors (length links.now.rows + 1) links.now.rows parent (name.now ++ suffix_of stream.entry)) }
    {
        add_suffix(&mut self.log, stream);
        add_name(&mut self.log, name);
        add_ancestors(&mut self.log, links, parent);
        self.log.finish(action, bits);
    }
}

// Puts `:` and the name of a stream before the path begun, where the change is of a stream.
fn add_suffix(log: &mut ChangeLog, stream: Option<&[u16]>)
    requires room { length (suffix_of stream) ≤ log.old.units }
    ensures path { log.new.path ≡ log.old.path ++ reverse (suffix_of stream.entry) }
    ensures same { (log.new.seen ≡ log.old.seen) × (log.new.changes ≡ log.old.changes) × (log.new.room ≡ log.old.room) × (log.new.dirs ≡ log.old.dirs) × (log.new.base ≡ log.old.base) }
    ensures left { log.old.units ≤ log.new.units + length (suffix_of stream.entry) }
{
    if let Some(units) = stream {
        add_name(log, units);
        log.add_unit(COLON);
    }
}

// Puts a name before the path begun.
fn add_name(log: &mut ChangeLog, units: &[u16])
    requires room { length units.now ≤ log.old.units }
    ensures path { log.new.path ≡ log.old.path ++ reverse units.now }
    ensures same { (log.new.seen ≡ log.old.seen) × (log.new.changes ≡ log.old.changes) × (log.new.room ≡ log.old.room) × (log.new.dirs ≡ log.old.dirs) × (log.new.base ≡ log.old.base) }
    ensures left { log.old.units ≤ log.new.units + length units.now }
{
    for i in 0..units.len() {
        log.add_unit(units[units.len() - 1 - i]);
    }
}

// The change begun is seen from this directory and from all above it.
fn add_ancestors(log: &mut ChangeLog, links: &LinksByFile, parent: u64)
    requires units { path_units (ancestors (length links.now.rows + 1) links.now.rows parent (reverse log.old.path)) ≤ length log.old.path + log.old.units }
    requires dirs { length (ancestors (length links.now.rows + 1) links.now.rows parent (reverse log.old.path)) ≤ log.old.dirs }
    ensures seen { log.new.seen ≡ log.old.seen ++ ancestors (length links.now.rows + 1) links.now.rows parent (reverse log.old.path) }
    ensures same { (log.new.changes ≡ log.old.changes) × (log.new.room ≡ log.old.room) × (log.new.base ≡ log.old.base) }
    ensures units_left { length log.old.path + log.old.units ≤ log.new.units + path_units (ancestors (length links.now.rows + 1) links.now.rows parent (reverse log.old.path)) }
    ensures dirs_left { log.old.dirs ≤ log.new.dirs + length (ancestors (length links.now.rows + 1) links.now.rows parent (reverse log.old.path)) }
{
    let mut dir = parent;
    let mut more = links.len();
    'up: loop {
        log.add_dir(dir);
        if more == 0 {
            return;
        }
        let Some(link) = links.first_of(dir) else {
            return;
        };
        log.add_unit(BACKSLASH);
        add_name(log, link.name.units());
        dir = link.parent;
        more -= 1;
    }
}
