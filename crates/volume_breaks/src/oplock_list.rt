//! The oplocks of a volume, with room for what a break of them sets aside.

ghost use Rattle.std.specs.Prelude.{ℕ, ◌≡◌, ◌≤◌, ◌<◌, ◌+◌, ◌++◌, ◌∷◌, ◌^◌, ◌==◌, ◌-◌, not, true, false, All, AllPairs, [], length, map, filter, OnOk, max, slice_index_or};
ghost use Rattle.fsa_types.specs.Sorting.{in_order};
ghost use Rattle.fsa_types.specs.OplockGrants.{after_answer, as_answered, as_granted, is_of_key, switched_among};
ghost use Rattle.fsa_types.specs.OplockLists.{awaited_among, break_begun, lowered, without_oplock_of, CanBegin, CanGoOn, IsCopy, IsSoundOplock};
ghost use Rattle.fsa_model.specs.Breaks.{is_broken_before, is_chosen};
ghost use Rattle.fsa_model.specs.Grant.{is_oplock_on};
ghost use Rattle.fsa_model.specs.Waiting.{is_granted_under};
ghost use Rattle.volume_breaks.specs.Marks.{is_oplock_marked, is_opened_before};
ghost use Rattle.volume_breaks.specs.Oplocks.{OplocksView};
ghost use Rattle.volume_tables.specs.Rooms.{room_in};
ghost use Rattle.std.specs.Vec.{vec_capacity};

use crate::awaiting::await_breaks;
use crate::choosing::{Tree, choose, choose_on};
use crate::finding::place_of;
use crate::marking::{choose_alone, choose_marked, choose_of_key, is_of_key};
use crate::telling::Told;
use fsa_types::{Class, HandleSet, Level, NoMemory};
use std::alloc::Global;
use std::marker::Model;
use volume_rows::{OplockRow, has_read, is_oplock_of};
use volume_tables::RoomList;

/// Oplocks, in the order in which they were granted, and under the key of each stream or directory, its *home*, how
/// many more can be granted on it without taking memory. A break of them takes no memory: there is room for copies
/// of all of them, for the numbers of as many breaks, and for what as many holders are told. There are fewer than
/// 2^32. At most one is of a handle, with a numbered break exactly where it has a target, which is within its
/// level; the numbers of breaks differ, and none is above the last one given.
pub struct Oplocks {
    rows: Vec<OplockRow>,
    // Copies of those that the last break chose, in the order in which it broke them.
    chosen: Vec<OplockRow>,
    // Whom it told.
    told: Vec<Told>,
    // The numbers of the breaks that it waits for.
    waited: Vec<u64>,
    // The number of the last break that began.
    last: u64,
    // What was promised to each home, all of which the lists have.
    rooms: RoomList,
}

// One drop of the whole, so that it is one step at each end of a function that holds one.
impl Drop for Oplocks {
    fn drop(self) {
        let Oplocks {
            rows: _,
            chosen: _,
            told: _,
            waited: _,
            last: _,
            rooms: _,
        } = self;
    }
}

impl Model for Oplocks {
    ghost use Rattle.std.specs.Prelude.{◌+◌};
    ghost use Rattle.std.specs.Vec.{vec_capacity, vec_len};
    ghost use Rattle.fsa_types.specs.OplockLists.{AreOplocks};
    ghost use Rattle.volume_breaks.specs.Oplocks.{OplocksView, IsRoomy};
    ghost use Rattle.volume_tables.specs.Rooms.{all_rooms};

    ghost Value = { OplocksView };

    ghost view = { λ o. record { rows = o.rows.items; chosen = o.chosen.items; told = o.told.items; waited = o.waited.items; last = o.last; rooms = o.rooms } };

    ghost invariant = { λ o. IsRoomy (vec_len o.rows + all_rooms o.rooms) (vec_capacity o.rows) (vec_capacity o.chosen) (vec_capacity o.told) (vec_capacity o.waited) (vec_len o.chosen) × AreOplocks o.rows.items o.last };
}

impl Oplocks {
    /// None. It takes no memory.
    pub fn new(alloc: Global) -> Oplocks
        ensures rows { result.rows ≡ [] }
        ensures waited { result.waited ≡ [] }
        ensures last { result.last ≡ 0 }
        ensures rooms { result.rooms ≡ [] }
    {
        Oplocks {
            rows: Vec::new(alloc),
            chosen: Vec::new(alloc),
            told: Vec::new(alloc),
            waited: Vec::new(alloc),
            last: 0,
            rooms: RoomList::new(alloc),
        }
    }

    /// Takes room for so many oplocks of this home, in all that it has room for, and for breaks of them.
    /// `NoMemory` where there is none, or where there would be 2^32 or more in all with those that were
    /// promised to other homes.
    pub fn reserve(&mut self, home: u64, oplocks: u32) -> Result<(), NoMemory>
        ensures rows { self.new ≡ record self.old { rooms = self.new.rooms } }
        ensures room { OnOk result (oplocks ≤ room_in self.new.rooms home) }
        ensures kept { (other : ℕ) → room_in self.old.rooms other ≤ room_in self.new.rooms other }
        ensures most { room_in self.new.rooms home ≤ max (room_in self.old.rooms home) oplocks }
        ensures others { (other : ℕ) → (other == home) ≡ false → room_in self.new.rooms other ≡ room_in self.old.rooms other }
    {
        let oplocks = oplocks as usize;
        if oplocks <= self.rooms.room_in(home) {
            return Ok(());
        }
        let Some(all) = self.rooms.all_with(home, oplocks) else {
            return Err(NoMemory);
        };
        if all > u32::MAX as usize - self.rows.len() {
            return Err(NoMemory);
        }
        let in_all = self.rows.len() + all;
        reserve_for(&mut self.rows, in_all)?;
        reserve_for(&mut self.chosen, in_all)?;
        reserve_for(&mut self.told, in_all)?;
        reserve_for(&mut self.waited, in_all)?;
        self.rooms.set(home, oplocks)
    }

    /// All oplocks, in the order in which they were granted.
    pub fn as_slice(&self) -> &[OplockRow]
        ensures { result.now ≡ self.now.rows }
    {
        self.rows.as_slice()
    }

    /// How many oplocks there are.
    pub fn len(&self) -> u32
        ensures { result ≡ length self.now.rows }
    {
        self.rows.len() as u32
    }

    /// The number of the last break that began.
    pub fn last(&self) -> u64
        ensures { result ≡ self.now.last }
    {
        self.last
    }

    /// The numbers of the breaks that the last break of oplocks waits for, in order.
    pub fn waited(&self) -> &[u64]
        ensures { result.now ≡ self.now.waited }
    {
        self.waited.as_slice()
    }

    /// Sets aside copies of those that are to be broken, in order.
    pub fn choose(&mut self, tree: &Tree, on: HandleSet, acting: Option<u64>, key: u64)
        ensures { self.new ≡ record self.old { chosen = in_order (is_broken_before tree.now) (filter (is_chosen tree.now on acting key) self.old.rows) } }
    {
        choose(tree, on, acting, key, &self.rows, &mut self.chosen);
    }

    /// Sets aside copies of those on this stream, in order.
    pub fn choose_on(&mut self, tree: &Tree, stream: u64)
        ensures { self.new ≡ record self.old { chosen = filter (is_oplock_on tree.now stream) self.old.rows } }
    {
        choose_on(tree, stream, &self.rows, &mut self.chosen);
    }

    // Keeps set aside those of this handle, or of one with its key.
    fn keep_of_key(&mut self, handle: u64, key: u64)
        ensures { self.new ≡ record self.old { chosen = filter (is_of_key handle key) self.old.chosen } }
    {
        keep_of_key(&mut self.chosen, handle, key);
    }

    /// Sets aside copies of those on this stream that are of this handle, or of one with its key, in order.
    pub fn choose_switched(&mut self, tree: &Tree, stream: u64, handle: u64, key: u64)
        ensures { self.new ≡ record self.old { chosen = switched_among (is_oplock_on tree.now stream) handle key self.old.rows } }
    {
        self.choose_on(tree, stream);
        self.keep_of_key(handle, key);
    }

    /// Sets aside copies of those of marked handles, and of another key than the acting handle's, in the order in
    /// which their handles were opened.
    pub fn choose_marked(&mut self, marked: &[u64], acting: Option<u64>, key: u64)
        ensures chosen { self.new ≡ record self.old { chosen = in_order is_opened_before (filter (is_oplock_marked marked.now acting key) self.old.rows) } }
        ensures few { length self.new.chosen ≤ length self.old.rows }
        ensures sound { All IsSoundOplock self.new.chosen }
        ensures copies { All (IsCopy self.old.rows) self.new.chosen }
    {
        choose_marked(marked, acting, key, &self.rows, &mut self.chosen);
    }

    /// Sets aside a copy of the oplock of this handle alone, or nothing where it has none.
    pub fn choose_alone(&mut self, handle: u64)
        ensures chosen { self.new ≡ record self.old { chosen = filter (λ oplock. oplock.handle == handle) self.old.rows } }
        ensures one { length self.new.chosen ≤ 1 }
        ensures sound { All IsSoundOplock self.new.chosen }
        ensures copies { All (IsCopy self.old.rows) self.new.chosen }
    {
        choose_alone(handle, &self.rows, &mut self.chosen);
    }

    /// Sets aside copies of those of this handle, or of one with its key, in order.
    pub fn choose_of_key(&mut self, handle: u64, key: u64)
        ensures { self.new ≡ record self.old { chosen = switched_among (λ _. true) handle key self.old.rows } }
    {
        choose_of_key(handle, key, &self.rows, &mut self.chosen);
    }

    /// The next break that begins has this number, which is above all that were given so far.
    pub fn number_from(&mut self, first: u64)
        requires rising { self.old.last < first }
        ensures { self.new ≡ record self.old { last = first - 1 } }
    {
        self.last = first - 1;
    }

    /// Those that are set aside, in order.
    pub fn chosen(&self) -> &[OplockRow]
        ensures { result.now ≡ self.now.chosen }
    {
        self.chosen.as_slice()
    }

    /// How many are chosen.
    pub fn chosen_len(&self) -> usize
        ensures { result ≡ length self.now.chosen }
    {
        self.chosen.len()
    }

    /// A copy of the one that is chosen at this place.
    pub fn chosen_at(&self, place: usize) -> OplockRow
        requires { place < length self.now.chosen }
        ensures { result ≡ slice_index_or self.now.chosen place result }
    {
        self.chosen[place]
    }

    /// Whom the last break told, in order.
    pub fn told(&self) -> &[Told]
        ensures { result.now ≡ self.now.told }
    {
        self.told.as_slice()
    }

    // Nobody is told yet.
    pub(crate) fn tell_nobody(&mut self)
        ensures { self.new ≡ record self.old { told = [] } }
    {
        self.told.clear();
    }

    // Puts by that the holder of an oplock that is chosen is told. Fewer than are chosen have to be told so far.
    pub(crate) fn tell(&mut self, told: Told)
        requires room { length self.old.told < length self.old.chosen }
        ensures { self.new ≡ record self.old { told = self.old.told ++ told ∷ [] } }
    {
        let Ok(()) = self.told.push(told) else {
            unreachable!()
        };
    }

    /// Takes the oplock of this handle out.
    pub fn drop_of(&mut self, handle: u64)
        ensures { self.new ≡ record self.old { rows = without_oplock_of handle self.old.rows } }
    {
        drop_of(&mut self.rows, handle);
    }

    /// Takes the oplock out that is granted to the call that is pending under this turn.
    pub fn give_up(&mut self, turn: u64)
        ensures { self.new ≡ record self.old { rows = filter (λ oplock. not (is_granted_under turn oplock)) self.old.rows } }
    {
        drop_granted(&mut self.rows, turn);
    }

    /// Adds an oplock of this handle, which has this key and no oplock yet, to this home; its call is pending
    /// under this turn. There has to be room for one in the home; that of all others stays.
    pub fn grant(&mut self, home: u64, handle: u64, key: u64, level: Level, turn: u64)
        requires room { 1 ≤ room_in self.old.rooms home }
        requires new { All (λ oplock. (oplock.handle == handle) ≡ false) self.old.rows }
        ensures rows { self.new ≡ record self.old { rows = self.old.rows ++ as_granted handle key level turn ∷ []; rooms = self.new.rooms } }
        ensures left { room_in self.old.rooms home ≤ room_in self.new.rooms home + 1 }
        ensures taken { room_in self.new.rooms home + 1 ≤ room_in self.old.rooms home }
        ensures others { (other : ℕ) → (other == home) ≡ false → room_in self.new.rooms other ≡ room_in self.old.rooms other }
    {
        self.rooms.take_one(home);
        let Ok(()) = self.rows.push(OplockRow {
            handle,
            key,
            level,
            target: None,
            number: 0,
            call: Some(turn),
        })
        else {
            unreachable!()
        };
    }

    /// The break of the oplock of this handle has ended, and this level stays, of which the call that is
    /// pending under this turn is told; or none, and the oplock ends.
    pub fn answer(&mut self, handle: u64, level: Level, turn: u64)
        ensures { self.new ≡ record self.old { rows = after_answer handle level turn self.old.rows } }
    {
        answer(&mut self.rows, handle, level, turn);
    }

    /// A numbered break begins of the oplock of this handle, to a level that is no more than it has, and
    /// no call is pending as granted any more.
    pub fn begin_break(&mut self, handle: u64, level: Level)
        requires numbers { self.old.last + 1 < 2 ^ 64 }
        requires level { CanBegin level handle self.old.rows }
        ensures { self.new ≡ record self.old { rows = map (break_begun handle level (self.old.last + 1)) self.old.rows; last = self.old.last + 1 } }
    {
        self.last += 1;
        begin_break(&mut self.rows, handle, level, self.last);
    }

    /// The break in progress on this handle goes on to this level, which is no more than the oplock has.
    pub fn lower(&mut self, handle: u64, level: Level)
        requires level { CanGoOn level handle self.old.rows }
        ensures { self.new ≡ record self.old { rows = map (lowered handle level) self.old.rows } }
    {
        lower(&mut self.rows, handle, level);
    }

    /// Sets aside the numbers of the breaks that a request of this class waits for, of those that were
    /// chosen, and counts them.
    pub fn await_breaks(&mut self, class: Class) -> u32
        ensures waited { self.new ≡ record self.old { waited = awaited_among class self.old.chosen self.old.rows } }
        ensures count { result ≡ length self.new.waited }
    {
        await_breaks(&self.rows, &self.chosen, class, &mut self.waited);
        self.waited.len() as u32
    }
}

// Takes room for so many items in all. `NoMemory` where there is none.
fn reserve_for<T: Drop>(items: &mut Vec<T>, in_all: usize) -> Result<(), NoMemory>
    ensures items { items.new.items ≡ items.old.items }
    ensures room { OnOk result (in_all ≤ vec_capacity items.new) }
    ensures kept { vec_capacity items.old ≤ vec_capacity items.new }
{
    let length = items.len();
    if length < in_all {
        items.reserve(in_all - length)?;
    }
    Ok(())
}

// Keeps those of this handle, or of one with its key.
fn keep_of_key(rows: &mut Vec<OplockRow>, handle: u64, key: u64)
    ensures rows { rows.new.items ≡ filter (is_of_key handle key) rows.old.items }
    ensures few { length rows.new.items ≤ length rows.old.items }
    ensures room { vec_capacity rows.new ≡ vec_capacity rows.old }
{
    rows.retain(|oplock| is_of_key(handle, key, oplock));
}

// Takes the oplock of this handle out.
fn drop_of(rows: &mut Vec<OplockRow>, handle: u64)
    ensures rows { rows.new.items ≡ filter (λ oplock. not (oplock.handle == handle)) rows.old.items }
    ensures few { length rows.new.items ≤ length rows.old.items }
    ensures room { vec_capacity rows.new ≡ vec_capacity rows.old }
{
    rows.retain(|oplock| !is_oplock_of(oplock, handle));
}

// Whether an oplock is granted to the call that is pending under this turn.
fn is_granted_under(oplock: &OplockRow, turn: u64) -> bool
    ensures { result ≡ is_granted_under turn oplock.now }
{
    match oplock.call {
        None => false,
        Some(call) => call == turn,
    }
}

// Takes the oplock out that is granted to the call that is pending under this turn.
fn drop_granted(rows: &mut Vec<OplockRow>, turn: u64)
    ensures rows { rows.new.items ≡ filter (λ oplock. not (is_granted_under turn oplock)) rows.old.items }
    ensures few { length rows.new.items ≤ length rows.old.items }
    ensures room { vec_capacity rows.new ≡ vec_capacity rows.old }
{
    rows.retain(|oplock| !is_granted_under(oplock, turn));
}

// The oplock as it is once a break of this number to this level has begun, where it is this handle's.
fn with_break_begun(oplock: OplockRow, handle: u64, level: Level, number: u64) -> OplockRow
    ensures { result ≡ break_begun handle level number oplock }
{
    if oplock.handle == handle {
        OplockRow {
            handle: oplock.handle,
            key: oplock.key,
            level: oplock.level,
            target: Some(level),
            number,
            call: None,
        }
    } else {
        oplock
    }
}

// A break of this number to this level begins of the oplock of this handle.
fn begin_break(rows: &mut [OplockRow], handle: u64, level: Level, number: u64)
    requires differ { AllPairs (λ a b. (a.handle == b.handle) ≡ false) rows.old }
    ensures { rows.new ≡ map (break_begun handle level number) rows.old }
{
    if let Some(place) = place_of(rows, handle) {
        rows[place] = with_break_begun(rows[place], handle, level, number);
    }
}

// The oplock with this target, where it is this handle's.
fn with_target(oplock: OplockRow, handle: u64, level: Level) -> OplockRow
    ensures { result ≡ lowered handle level oplock }
{
    if oplock.handle == handle {
        OplockRow {
            handle: oplock.handle,
            key: oplock.key,
            level: oplock.level,
            target: Some(level),
            number: oplock.number,
            call: oplock.call,
        }
    } else {
        oplock
    }
}

// The break in progress on this handle goes on to this level.
fn lower(rows: &mut [OplockRow], handle: u64, level: Level)
    requires differ { AllPairs (λ a b. (a.handle == b.handle) ≡ false) rows.old }
    ensures { rows.new ≡ map (lowered handle level) rows.old }
{
    if let Some(place) = place_of(rows, handle) {
        rows[place] = with_target(rows[place], handle, level);
    }
}

// The oplock as it is once its break has ended and this level stays, where it is this handle's.
fn with_answer(oplock: OplockRow, handle: u64, level: Level, turn: u64) -> OplockRow
    ensures { result ≡ as_answered handle level turn oplock }
{
    if oplock.handle == handle {
        OplockRow {
            handle: oplock.handle,
            key: oplock.key,
            level,
            target: None,
            number: 0,
            call: Some(turn),
        }
    } else {
        oplock
    }
}

// This level stays of the oplock of this handle, whose break has ended.
fn keep_of(rows: &mut [OplockRow], handle: u64, level: Level, turn: u64)
    ensures { rows.new ≡ map (as_answered handle level turn) rows.old }
{
    for row in rows.iter_mut() {
        *row = with_answer(*row, handle, level, turn);
    }
}

// The break of the oplock of this handle has ended, and this level stays, or none.
fn answer(rows: &mut Vec<OplockRow>, handle: u64, level: Level, turn: u64)
    ensures rows { rows.new.items ≡ after_answer handle level turn rows.old.items }
    ensures few { length rows.new.items ≤ length rows.old.items }
    ensures room { vec_capacity rows.new ≡ vec_capacity rows.old }
{
    if has_read(level) {
        keep_of(rows, handle, level, turn);
    } else {
        drop_of(rows, handle);
    }
}
