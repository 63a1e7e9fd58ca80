//! All oplocks of a volume: one list, and those of each stream apart.

ghost use Rattle.std.specs.Prelude.{ℕ, ◌≡◌, ◌≤◌, ◌<◌, ◌+◌, ◌^◌, ◌==◌, ◌∷◌, [], false, not, List, All, AllPairs, filter, length, IfNone, IsSome, OnOk, Some, option_map};
ghost use Rattle.std.specs.Option.{option_map_or, ForSome};
ghost use Rattle.fsa_types.specs.OplockGrants.{after_answer, after_grant, switched_among, target_among};
ghost use Rattle.fsa_types.specs.OplockLists.{after_breaks, awaited_among, effect_on, last_by, left_by_effect, without_oplock_of, IsCopy, IsSoundOplock};
ghost use Rattle.fsa_types.specs.Oplocks.{Oplock, in_both};
ghost use Rattle.fsa_types.specs.Sorting.{in_order};
ghost use Rattle.fsa_model.specs.Breaks.{is_broken_before, is_chosen};
ghost use Rattle.fsa_model.specs.Waiting.{is_granted_under};
ghost use Rattle.oplock_state.specs.Homes.{home_of_handle, home_of_stream, HomesFit};
ghost use Rattle.oplock_state.specs.Tables.{AreSorted, AreThere, GrantsTabled, IsStep, KeepFit, KeepSorted, given_up, is_oplock_of_stream, last_at, room_at, rows_at};
ghost use Rattle.volume_breaks.specs.Oplocks.{state_of};
ghost use Rattle.volume_breaks.specs.Told.{told_all};
ghost use Rattle.volume_tables.specs.HandleTable.{stream_of_handle};
ghost use Rattle.volume_tables.specs.Rooms.{room_in};

use crate::homes::{home_of_handle, home_of_stream};
use crate::stream_oplocks::Grant;
use crate::stream_tables::{AskedOplock, StreamTables};
use fsa_types::{Class, HandleSet, Level, NoMemory};
use std::alloc::Global;
use std::marker::Model;
use volume_breaks::{Oplocks, Told, Tree, break_oplocks, drop_chosen};
use volume_rows::{BreakEffect, OplockRow, effect};
use volume_tables::HandleTable;

/// Oplocks, in the order in which they were granted, and once more in a table for each stream, which decides what is
/// granted on it and what an answer leaves; a break is made in the list and in the tables. For each stream there is
/// room for those that were promised to it. The calls of those that are told or switched are left to the caller.
///
/// A table stands, and room is promised, under a key of the stream, the home of its oplocks: 2 times the stream's
/// number, which has to be below 2^63. An odd key, 2 times a directory's file number and 1, is kept for a directory;
/// no directory has an oplock yet.
pub struct OplockTable {
    list: Oplocks,
    // The oplocks once more, home by home.
    tables: StreamTables,
}

// One drop of the whole, so that it is one step at each end of a function that holds one.
impl Drop for OplockTable {
    fn drop(self) {
        let OplockTable { list: _, tables: _ } = self;
    }
}

impl Model for OplockTable {
    ghost use Rattle.oplock_state.specs.Homes.{rooms_of_streams};
    ghost use Rattle.oplock_state.specs.Tables.{FitTables, Tabled};

    ghost Value = { Tabled };

    ghost view = { λ o. record { rows = o.list.rows; chosen = o.list.chosen; told = o.list.told; waited = o.list.waited; last = o.list.last; rooms = rooms_of_streams o.list.rooms; tables = o.tables } };

    ghost invariant = { λ o. FitTables o.list.rooms o.list.last o.tables };
}

impl OplockTable {
    /// None. It takes no memory.
    pub fn new(alloc: Global) -> OplockTable
        ensures rows { result.rows ≡ [] }
        ensures waited { result.waited ≡ [] }
        ensures last { result.last ≡ 0 }
        ensures rooms { result.rooms ≡ [] }
        ensures tables { result.tables ≡ [] }
    {
        OplockTable {
            list: Oplocks::new(alloc),
            tables: StreamTables::new(alloc),
        }
    }

    /// Takes room for so many oplocks on this stream, in all that it has room for, and for breaks of them.
    /// `NoMemory` where there is none, or where there would be 2^32 or more in all with those that were
    /// promised to other streams.
    pub fn reserve(&mut self, stream: u64, oplocks: u32) -> Result<(), NoMemory>
        requires fits { home_of_stream stream < 2 ^ 64 }
        ensures rows { self.new ≡ record self.old { rooms = self.new.rooms; tables = self.new.tables } }
        ensures room { OnOk result (oplocks ≤ room_in self.new.rooms stream) }
        ensures kept { (other : ℕ) → room_in self.old.rooms other ≤ room_in self.new.rooms other }
        ensures sorted { KeepSorted self.old self.new }
    {
        let home = home_of_stream(stream);
        self.tables.reserve(home, oplocks)?;
        self.list.reserve(home, oplocks)
    }

    /// All oplocks, in the order in which they were granted.
    pub fn as_slice(&self) -> &[OplockRow]
        ensures { result.now ≡ self.now.rows }
    {
        self.list.as_slice()
    }

    /// How many oplocks there are.
    pub fn len(&self) -> u32
        ensures { result ≡ length self.now.rows }
    {
        self.list.len()
    }

    /// Those that the last break or grant chose, as they were, in order. Those that a grant chose it switched.
    pub fn chosen(&self) -> &[OplockRow]
        ensures { result.now ≡ self.now.chosen }
    {
        self.list.chosen()
    }

    /// Whom the last break told, in order.
    pub fn told(&self) -> &[Told]
        ensures { result.now ≡ self.now.told }
    {
        self.list.told()
    }

    /// The numbers of the breaks that the last break waits for, in order.
    pub fn waited(&self) -> &[u64]
        ensures { result.now ≡ self.now.waited }
    {
        self.list.waited()
    }

    /// Chooses those that are to be broken, in order.
    pub fn choose(&mut self, tree: &Tree, on: HandleSet, acting: Option<u64>, key: u64)
        ensures { self.new ≡ record self.old { chosen = in_order (is_broken_before tree.now) (filter (is_chosen tree.now on acting key) self.old.rows) } }
    {
        self.list.choose(tree, on, acting, key);
    }

    /// Breaks the oplocks that are chosen, one after the other, as a request of this class does, each in the table of
    /// its stream and in the list, and puts by who is told.
    pub fn begin(&mut self, handles: &HandleTable, class: Class)
        requires fit { HomesFit handles.now.rows }
        requires numbers { self.old.last + length self.old.chosen < 2 ^ 64 }
        requires sound { All IsSoundOplock self.old.chosen }
        requires copies { All (IsCopy self.old.rows) self.old.chosen }
        requires there { AreThere self.old.rows self.old.chosen }
        requires sorted { AreSorted handles.now.rows self.old.rows self.old.tables }
        ensures rows { self.new.rows ≡ (after_breaks class (record { oplocks = self.old.rows; last_break = self.old.last }) self.old.chosen).oplocks }
        ensures last { self.new.last ≡ (after_breaks class (record { oplocks = self.old.rows; last_break = self.old.last }) self.old.chosen).last_break }
        ensures others { self.new ≡ record self.old { rows = self.new.rows; last = self.new.last; told = self.new.told; tables = self.new.tables } }
        ensures told { self.new.told ≡ told_all class self.old.chosen }
        ensures sorted { AreSorted handles.now.rows self.new.rows self.new.tables }
    {
        begin_all(&mut self.tables, &self.list, handles, class);
        break_oplocks(&mut self.list, class);
    }

    /// Puts by the numbers of the breaks that a request of this class waits for, of those that were chosen, and
    /// counts them.
    pub fn await_breaks(&mut self, class: Class) -> u32
        ensures waited { self.new ≡ record self.old { waited = awaited_among class self.old.chosen self.old.rows } }
        ensures count { result ≡ length self.new.waited }
    {
        self.list.await_breaks(class)
    }

    /// Grants an oplock to a handle on this stream, unless the stream's table refuses it. Oplocks of its key on the
    /// stream end, and are those that were chosen last. There has to be room for one on the stream; that of all
    /// others stays.
    pub fn grant(&mut self, tree: &Tree, stream: u64, asked: &AskedOplock) -> Grant
        requires fit { HomesFit tree.now.handles }
        requires home { stream_of_handle tree.now.handles asked.now.handle ≡ Some stream }
        requires room { 1 ≤ room_in self.old.rooms stream }
        requires sorted { AreSorted tree.now.handles self.old.rows self.old.tables }
        ensures grants { GrantsTabled (is_oplock_of_stream tree.now.handles stream) asked.now self.old self.new result }
        ensures rest { self.new ≡ record self.old { rows = self.new.rows; chosen = self.new.chosen; rooms = self.new.rooms; tables = self.new.tables } }
        ensures left { room_in self.old.rooms stream ≤ room_in self.new.rooms stream + 1 }
        ensures others { (other : ℕ) → (other == stream) ≡ false → room_in self.new.rooms other ≡ room_in self.old.rooms other }
        ensures sorted { AreSorted tree.now.handles self.new.rows self.new.tables }
    {
        let home = home_of_stream(stream);
        match self.tables.grant(home, asked) {
            Grant::Refused => Grant::Refused,
            Grant::Granted => {
                grant_in_list(&mut self.list, tree, stream, home, asked);
                Grant::Granted
            }
        }
    }

    /// Answers the break in progress on a handle: what is in this level and in the break's target stays, and is
    /// given; the call that is pending under this turn, or will be, is its own then. Where nothing stays the oplock
    /// ends. `None` exactly where no break of it is in progress, and then nothing changes.
    pub fn answer(
        &mut self,
        handles: &HandleTable,
        handle: u64,
        level: Level,
        turn: u64,
    ) -> Option<Level>
        requires fit { HomesFit handles.now.rows }
        requires sorted { AreSorted handles.now.rows self.old.rows self.old.tables }
        ensures kept { result ≡ option_map (λ target. in_both level target) (target_among handle self.old.rows) }
        ensures rows { self.new ≡ record self.old { rows = option_map_or (λ kept. after_answer handle kept turn self.old.rows) result self.old.rows; tables = self.new.tables } }
        ensures sorted { AreSorted handles.now.rows self.new.rows self.new.tables }
    {
        let Some(home) = home_of_handle(handles, handle) else {
            return None;
        };
        let Some(kept) = self.tables.ack(home, handle, level, turn) else {
            return None;
        };
        self.list.answer(handle, kept, turn);
        Some(kept)
    }

    /// Takes the oplocks out that are granted to the call that is pending under this turn. No two oplocks may be of
    /// one handle.
    pub fn give_up(&mut self, handles: &HandleTable, turn: u64)
        requires fit { HomesFit handles.now.rows }
        requires differ { AllPairs (λ a b. (a.handle == b.handle) ≡ false) self.old.rows }
        requires sorted { AreSorted handles.now.rows self.old.rows self.old.tables }
        ensures rows { self.new ≡ record self.old { rows = filter (λ oplock. not (is_granted_under turn oplock)) self.old.rows; tables = self.new.tables } }
        ensures sorted { AreSorted handles.now.rows self.new.rows self.new.tables }
    {
        give_up_all(&mut self.tables, &self.list, handles, turn);
        self.list.give_up(turn);
    }

    /// Takes the oplock of a handle out.
    pub fn drop_of(&mut self, handles: &HandleTable, handle: u64)
        requires fit { HomesFit handles.now.rows }
        requires sorted { AreSorted handles.now.rows self.old.rows self.old.tables }
        ensures rows { self.new ≡ record self.old { rows = without_oplock_of handle self.old.rows; tables = self.new.tables } }
        ensures sorted { AreSorted handles.now.rows self.new.rows self.new.tables }
    {
        drop_in_table(&mut self.tables, home_of_handle(handles, handle), handle);
        self.list.drop_of(handle);
    }
}

// Takes the oplock of a handle out of the table of its home, where it has one.
fn drop_in_table(tables: &mut StreamTables, home: Option<u64>, handle: u64)
    ensures own { ForSome home (λ own. IsStep tables.old tables.new own (without_oplock_of handle (rows_at tables.old own)) (last_at tables.old own) 0) }
    ensures none { IfNone home (tables.new ≡ tables.old) }
{
    if let Some(own) = home {
        tables.drop_handle(own, handle);
    }
}

// Whether an oplock is granted to the call that is pending under this turn.
fn is_granted_under(oplock: &OplockRow, turn: u64) -> bool
    ensures { result ≡ is_granted_under turn oplock.now }
{
    match oplock.call {
        None => false,
        Some(call) => call == turn,
    }
}

// Takes an oplock out of the table of its home, where it is granted to the call that is pending under this turn.
fn give_up_one(tables: &mut StreamTables, handles: &HandleTable, oplock: &OplockRow, turn: u64)
    requires fit { HomesFit handles.now.rows }
    ensures sorted { (rows : List Oplock) → AreSorted handles.now.rows rows tables.old → AreSorted handles.now.rows (given_up turn rows oplock.now) tables.new }
    ensures fit { KeepFit tables.old tables.new }
{
    if is_granted_under(oplock, turn) {
        let home = home_of_handle(handles, oplock.handle);
        drop_in_table(tables, home, oplock.handle);
    }
}

// Takes the oplocks that are granted to the call that is pending under this turn out of the tables of their homes.
fn give_up_all(tables: &mut StreamTables, list: &Oplocks, handles: &HandleTable, turn: u64)
    requires fit { HomesFit handles.now.rows }
    requires differ { AllPairs (λ a b. (a.handle == b.handle) ≡ false) list.now.rows }
    requires sorted { AreSorted handles.now.rows list.now.rows tables.old }
    ensures sorted { AreSorted handles.now.rows (filter (λ oplock. not (is_granted_under turn oplock)) list.now.rows) tables.new }
    ensures fit { KeepFit tables.old tables.new }
{
    for oplock in list.as_slice() {
        give_up_one(tables, handles, oplock, turn);
    }
}

// Grants an oplock in the list: those of its key on the stream end. It takes room of this home.
fn grant_in_list(list: &mut Oplocks, tree: &Tree, stream: u64, home: u64, asked: &AskedOplock)
    requires home { stream_of_handle tree.now.handles asked.now.handle ≡ Some stream }
    requires room { 1 ≤ room_in list.old.rooms home }
    ensures rows { list.new.rows ≡ after_grant (is_oplock_of_stream tree.now.handles stream) asked.now.handle asked.now.key asked.now.level asked.now.turn list.old.rows }
    ensures chosen { list.new.chosen ≡ switched_among (is_oplock_of_stream tree.now.handles stream) asked.now.handle asked.now.key list.old.rows }
    ensures rest { list.new ≡ record list.old { rows = list.new.rows; chosen = list.new.chosen; rooms = list.new.rooms } }
    ensures left { room_in list.old.rooms home ≤ room_in list.new.rooms home + 1 }
    ensures taken { room_in list.new.rooms home + 1 ≤ room_in list.old.rooms home }
    ensures others { (other : ℕ) → (other == home) ≡ false → room_in list.new.rooms other ≡ room_in list.old.rooms other }
{
    let asked = *asked;
    list.choose_switched(tree, stream, asked.handle, asked.key);
    drop_chosen(list);
    list.grant(home, asked.handle, asked.key, asked.level, asked.turn);
}

// The number of the last break, once an oplock was broken.
fn last_after(class: Class, oplock: OplockRow, last: u64) -> u64
    requires { last + 1 < 2 ^ 64 }
    ensures { result ≡ last_by (effect_on class oplock) last }
{
    match effect(class, oplock.level, oplock.target) {
        BreakEffect::Begins(_) => last + 1,
        _ => last,
    }
}

// Breaks this oplock in the table of its home. Gives the number of the last break then.
fn begin_in_table(
    tables: &mut StreamTables,
    handles: &HandleTable,
    oplock: OplockRow,
    class: Class,
    last: u64,
) -> u64
    requires fit { HomesFit handles.now.rows }
    requires home { IsSome (home_of_handle handles.now.rows oplock.handle) }
    requires there { ForSome (home_of_handle handles.now.rows oplock.handle) (λ home. filter (λ other. other.handle == oplock.handle) (rows_at tables.old home) ≡ oplock ∷ []) }
    requires rising { (key : ℕ) → last_at tables.old key ≤ last }
    requires numbers { last + 1 < 2 ^ 64 }
    ensures step { ForSome (home_of_handle handles.now.rows oplock.handle) (λ home. IsStep tables.old tables.new home (left_by_effect (effect_on class oplock) oplock.handle (last + 1) (rows_at tables.old home)) (last_by (effect_on class oplock) last) 0) }
    ensures number { result ≡ last_by (effect_on class oplock) last }
{
    let Some(home) = home_of_handle(handles, oplock.handle) else {
        unreachable!()
    };
    tables.begin(home, oplock, class, last + 1);
    last_after(class, oplock, last)
}

// Breaks the oplocks that are chosen, each in the table of its home.
fn begin_all(tables: &mut StreamTables, list: &Oplocks, handles: &HandleTable, class: Class)
    requires fit { HomesFit handles.now.rows }
    requires numbers { list.now.last + length list.now.chosen < 2 ^ 64 }
    requires there { AreThere list.now.rows list.now.chosen }
    requires sorted { AreSorted handles.now.rows list.now.rows tables.old }
    requires lasts { (key : ℕ) → last_at tables.old key ≤ list.now.last }
    ensures sorted { AreSorted handles.now.rows (after_breaks class (state_of list.now) list.now.chosen).oplocks tables.new }
    ensures lasts { (key : ℕ) → last_at tables.new key ≤ (after_breaks class (state_of list.now) list.now.chosen).last_break }
    ensures room { (key : ℕ) → room_at tables.old key ≤ room_at tables.new key }
{
    let mut last = list.last();
    for place in 0..list.chosen_len() {
        last = begin_in_table(tables, handles, list.chosen_at(place), class, last);
    }
}
