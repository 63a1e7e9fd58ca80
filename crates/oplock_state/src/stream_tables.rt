//! The oplocks of streams and directories, for each a table of its own.

ghost use Rattle.std.specs.Prelude.{ℕ, AllPairs, ◌≡◌, ◌≤◌, ◌<◌, ◌-◌, ◌==◌, ◌∷◌, [], true, filter, IfOk, IfErr, OnOk, option_map};
ghost use Rattle.std.specs.Option.{option_map_or};
ghost use Rattle.fsa_types.specs.OplockGrants.{after_answer, target_among};
ghost use Rattle.fsa_types.specs.OplockLists.{after_effect, effect_on, last_by, without_oplock_of};
ghost use Rattle.fsa_types.specs.Oplocks.{in_both};
ghost use Rattle.fsa_types.specs.Places.{IsAt, StandsAt};
ghost use Rattle.oplock_state.specs.Tables.{AreTables, IsStep, GrantsAmong, last_at, room_at, rows_at, taken_by};

use crate::stream_oplocks::{Grant, StreamOplocks};
use fsa_types::{Class, Level, NoMemory};
use std::alloc::Global;
use std::marker::Model;
use volume_rows::OplockRow;

/// An oplock that is asked for.
#[derive(Clone, Copy)]
pub struct AskedOplock {
    /// The handle.
    pub handle: u64,
    /// Its key; with the key 0 it has none.
    pub key: u64,
    /// The level.
    pub level: Level,
    /// The turn of the call that is pending then as granted.
    pub turn: u64,
    /// Whether a handle of another key is open on the stream.
    pub others: bool,
    /// Whether a range of the stream is locked.
    pub locked: bool,
}

/// For each stream or directory its oplocks, under a key of its own, its home. One without oplocks may have no table.
/// No handle is marked in any of them. It finds a table in time logarithmic in them; where one comes, those behind it
/// are moved.
#[derive(Drop)]
pub struct StreamTables {
    // By rising key.
    tables: Vec<(u64, StreamOplocks)>,
    alloc: Global,
}

impl Model for StreamTables {
    ghost use Rattle.std.specs.Prelude.{ℕ, List};
    ghost use Rattle.oplock_state.specs.State.{State};
    ghost use Rattle.oplock_state.specs.Tables.{AreTables};

    ghost Value = { List (ℕ × State) };

    ghost view = { λ t. t.tables.items };

    ghost invariant = { λ t. AreTables t.tables.items };
}

impl StreamTables {
    /// No oplocks. It takes no memory.
    pub fn new(alloc: Global) -> StreamTables
        ensures { result ≡ [] }
    {
        StreamTables {
            tables: Vec::new(alloc),
            alloc,
        }
    }

    /// Takes room for so many more oplocks under this key. `NoMemory` where there is none.
    pub fn reserve(&mut self, key: u64, more: u32) -> Result<(), NoMemory>
        ensures step { IsStep self.old self.new key (rows_at self.old key) (last_at self.old key) 0 }
        ensures room { OnOk result (more ≤ room_at self.new key) }
    {
        if more == 0 {
            return Ok(());
        }
        match place_of(&self.tables, key) {
            Ok(place) => reserve_at(&mut self.tables, key, place, more),
            Err(place) => insert_table(self.alloc, &mut self.tables, key, place, more),
        }
    }

    /// Grants an oplock of this level to a handle with this key, unless those under the table's key refuse it; the
    /// call that is pending under this turn, or will be, is its own. There has to be room for one.
    pub fn grant(&mut self, key: u64, asked: &AskedOplock) -> Grant
        requires { 1 ≤ room_at self.old key }
        ensures grants { GrantsAmong (λ _. true) asked.now (rows_at self.old key) (rows_at self.new key) result }
        ensures step { IsStep self.old self.new key (rows_at self.new key) (last_at self.old key) (taken_by result) }
    {
        grant(&mut self.tables, key, asked)
    }

    /// Breaks this oplock, which is under this key, as a request of this class does. A break that begins has the
    /// number `first`, which is above all that were given so far.
    pub fn begin(&mut self, key: u64, oplock: OplockRow, class: Class, first: u64)
        requires rising { last_at self.old key < first }
        requires there { filter (λ other. other.handle == oplock.handle) (rows_at self.old key) ≡ oplock ∷ [] }
        ensures step { IsStep self.old self.new key (after_effect (effect_on class oplock) oplock.handle (record { oplocks = rows_at self.old key; last_break = first - 1 })).oplocks (last_by (effect_on class oplock) (first - 1)) 0 }
    {
        begin(&mut self.tables, key, oplock, class, first);
    }

    /// Answers the break in progress on a handle under this key: what is in this level and in the break's
    /// target stays, and is given; or the oplock ends. `None` exactly where no break of it is in progress.
    pub fn ack(&mut self, key: u64, handle: u64, level: Level, turn: u64) -> Option<Level>
        ensures kept { result ≡ option_map (λ target. in_both level target) (target_among handle (rows_at self.old key)) }
        ensures step { IsStep self.old self.new key (option_map_or (λ target. after_answer handle (in_both level target) turn (rows_at self.old key)) (target_among handle (rows_at self.old key)) (rows_at self.old key)) (last_at self.old key) 0 }
    {
        ack(&mut self.tables, key, handle, level, turn)
    }

    /// Takes the oplock of a handle under this key out.
    pub fn drop_handle(&mut self, key: u64, handle: u64)
        ensures { IsStep self.old self.new key (without_oplock_of handle (rows_at self.old key)) (last_at self.old key) 0 }
    {
        drop_handle(&mut self.tables, key, handle);
    }
}

// The place of the table of this key, or where it would stand, by binary search.
fn place_of(tables: &[(u64, StreamOplocks)], key: u64) -> Result<usize, usize>
    requires rising { AllPairs (λ a b. a.0 < b.0) tables.now }
    ensures there { IfOk result (λ place. IsAt tables.now key place) }
    ensures missing { IfErr result (λ place. StandsAt tables.now key place) }
{
    tables.binary_search_by_key(&key, |entry| entry.0)
}

// A table with so much room under a key that has none, and that would stand at this place.
fn insert_table(
    alloc: Global,
    tables: &mut Vec<(u64, StreamOplocks)>,
    key: u64,
    place: usize,
    room: u32,
) -> Result<(), NoMemory>
    requires tables { AreTables tables.old.items }
    requires missing { StandsAt tables.old.items key place }
    ensures step { IsStep tables.old.items tables.new.items key (rows_at tables.old.items key) (last_at tables.old.items key) 0 }
    ensures room { OnOk result (room ≤ room_at tables.new.items key) }
    ensures tables { AreTables tables.new.items }
{
    let mut table = StreamOplocks::new(alloc);
    table.reserve(room)?;
    tables.insert(place, (key, table))?;
    Ok(())
}

// Takes room for so many more under a key whose table is at this place.
fn reserve_at(
    tables: &mut [(u64, StreamOplocks)],
    key: u64,
    place: usize,
    more: u32,
) -> Result<(), NoMemory>
    requires tables { AreTables tables.old }
    requires there { IsAt tables.old key place }
    ensures step { IsStep tables.old tables.new key (rows_at tables.old key) (last_at tables.old key) 0 }
    ensures room { OnOk result (more ≤ room_at tables.new key) }
    ensures tables { AreTables tables.new }
{
    tables[place].1.reserve(more)?;
    Ok(())
}

// Grants an oplock under this key, unless it is refused.
fn grant(tables: &mut [(u64, StreamOplocks)], key: u64, asked: &AskedOplock) -> Grant
    requires room { 1 ≤ room_at tables.old key }
    requires tables { AreTables tables.old }
    ensures grants { GrantsAmong (λ _. true) asked.now (rows_at tables.old key) (rows_at tables.new key) result }
    ensures step { IsStep tables.old tables.new key (rows_at tables.new key) (last_at tables.old key) (taken_by result) }
    ensures tables { AreTables tables.new }
{
    let Ok(place) = place_of(tables, key) else {
        unreachable!()
    };
    let asked = *asked;
    tables[place].1.grant(
        asked.handle,
        asked.key,
        asked.level,
        asked.turn,
        asked.others,
        asked.locked,
    )
}

// Breaks this oplock alone.
fn begin_one(table: &mut StreamOplocks, oplock: OplockRow, class: Class, first: u64)
    requires rising { table.old.last < first }
    requires there { filter (λ other. other.handle == oplock.handle) table.old.rows ≡ oplock ∷ [] }
    ensures rows { table.new.rows ≡ (after_effect (effect_on class oplock) oplock.handle (record { oplocks = table.old.rows; last_break = first - 1 })).oplocks }
    ensures last { table.new.last ≡ last_by (effect_on class oplock) (first - 1) }
    ensures quiet { table.new.marked ≡ [] }
    ensures room { table.old.room ≤ table.new.room }
{
    table.begin_alone(oplock.handle, class, first);
}

// Breaks this oplock under this key.
fn begin(tables: &mut [(u64, StreamOplocks)], key: u64, oplock: OplockRow, class: Class, first: u64)
    requires tables { AreTables tables.old }
    requires rising { last_at tables.old key < first }
    requires there { filter (λ other. other.handle == oplock.handle) (rows_at tables.old key) ≡ oplock ∷ [] }
    ensures step { IsStep tables.old tables.new key (after_effect (effect_on class oplock) oplock.handle (record { oplocks = rows_at tables.old key; last_break = first - 1 })).oplocks (last_by (effect_on class oplock) (first - 1)) 0 }
    ensures tables { AreTables tables.new }
{
    let Ok(place) = place_of(tables, key) else {
        unreachable!()
    };
    begin_one(&mut tables[place].1, oplock, class, first);
}

// Answers the break in progress on a handle under this key.
fn ack(
    tables: &mut [(u64, StreamOplocks)],
    key: u64,
    handle: u64,
    level: Level,
    turn: u64,
) -> Option<Level>
    requires tables { AreTables tables.old }
    ensures kept { result ≡ option_map (λ target. in_both level target) (target_among handle (rows_at tables.old key)) }
    ensures step { IsStep tables.old tables.new key (option_map_or (λ target. after_answer handle (in_both level target) turn (rows_at tables.old key)) (target_among handle (rows_at tables.old key)) (rows_at tables.old key)) (last_at tables.old key) 0 }
    ensures tables { AreTables tables.new }
{
    let Ok(place) = place_of(tables, key) else {
        return None;
    };
    level_of(tables[place].1.ack(handle, level, turn))
}

// The level of an answer.
fn level_of(answer: Option<(Level, u64)>) -> Option<Level>
    ensures { result ≡ option_map (λ answer. answer.0) answer }
{
    match answer {
        None => None,
        Some((level, _)) => Some(level),
    }
}

// Takes the oplock of a handle under this key out.
fn drop_handle(tables: &mut [(u64, StreamOplocks)], key: u64, handle: u64)
    requires tables { AreTables tables.old }
    ensures step { IsStep tables.old tables.new key (without_oplock_of handle (rows_at tables.old key)) (last_at tables.old key) 0 }
    ensures tables { AreTables tables.new }
{
    if let Ok(place) = place_of(tables, key) {
        let _ = tables[place].1.drop_handle(handle);
    }
}
