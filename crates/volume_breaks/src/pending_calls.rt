//! The pending calls of a volume, with the queue of those that are held.

ghost use Rattle.std.specs.Prelude.{ℕ, Bool, ◌≡◌, ◌≤◌, ◌<◌, ◌+◌, ◌++◌, ◌∷◌, [], ◌==◌, ◌&&◌, ◌||◌, not, true, false, filter, find, length, nat_lt, option_map, position, slice_get, Some, All, AllPairs, IsTrue, OnOk, if◌then◌else◌};
ghost use Rattle.std.specs.Option.{option_copied, option_map_or};
ghost use Rattle.fsa_types.specs.Rows.{IsNumbered, lives, row_of, with_row_changed, without_row};
ghost use Rattle.fsa_types.specs.declared.reply.Blocker.{Blocker};
ghost use Rattle.fsa_model.specs.Edits.{is_call};
ghost use Rattle.fsa_model.specs.Lookups.{has_row, number_of};
ghost use Rattle.fsa_model.specs.Waiting.{is_wait};
ghost use Rattle.pending_queue.specs.PendingQueue.{next_unblocked, with_blocker_ended, with_call_held};
ghost use Rattle.std.specs.List.{list_any};
ghost use Rattle.std.specs.List.Sorted.{IsPartitionPoint};
ghost use Rattle.key_index.specs.RowsByKey.{IsIndexOf, row_passes};
ghost use Rattle.volume_breaks.specs.CallIndex.{is_first_naming, is_naming, row_call_key, row_handle_key};
ghost use Rattle.pending_queue.specs.Lists.{IsBehind, is_at};
ghost use Rattle.volume_breaks.specs.Calls.{AreCalls, AreHeld, StayHeld, has_wait, is_held_under, is_next_turn};

use crate::call_index::{CallIndex, names};
use fsa_types::{Blocker, BlockerList, Call, NoMemory, What};
use object_tables::ShiftRows;
use pending_queue::PendingQueue;
use std::alloc::Global;
use std::marker::Model;
use volume_rows::{PendingRow, find_next_pending, is_call};

/// The calls that haven't ended, each under its turn, in the order in which they came, with the queue
/// of those that are held. No two have one client and number, or one turn. As long as the turns rise, calls
/// are found by an index, under their clients and numbers and under the handles that they name. The room that
/// was taken stays as it is where calls and blockers go.
pub struct PendingCalls {
    rows: ShiftRows<(u64, PendingRow)>,
    queue: PendingQueue,
    // For how many more calls there is room.
    room: usize,
    // For how many more blockers there is room.
    blockers: usize,
    // That the turns of the rows rise.
    rising: bool,
    // Whether some call waits for another.
    waiting: bool,
    // The turns of all calls, as long as they rise.
    turns: CallIndex,
}

// One drop of the whole, so that it is one step at each end of a function that holds one.
impl Drop for PendingCalls {
    fn drop(self) {
        let PendingCalls {
            rows: _,
            queue: _,
            room: _,
            blockers: _,
            rising: _,
            waiting: _,
            turns: _,
        } = self;
    }
}

impl Model for PendingCalls {
    ghost use Rattle.std.specs.Prelude.{◌≡◌, ◌≤◌};
    ghost use Rattle.key_index.specs.RowsByKey.{IsIndexOf};
    ghost use Rattle.std.specs.Prelude.{true};
    ghost use Rattle.volume_breaks.specs.CallIndex.{row_call_key, row_handle_key};
    ghost use Rattle.pending_queue.specs.Lists.{AreInOrder};
    ghost use Rattle.volume_breaks.specs.Calls.{Calls, AreCalls, HasPlaces, has_wait};

    ghost Value = { Calls };

    ghost view = { λ p. record { items = p.rows.items; held = p.queue.held; room = p.room; blockers = p.blockers } };

    ghost invariant = { λ p. AreCalls p.rows.items × HasPlaces p.room p.rows.room p.queue.room_for_calls p.blockers p.queue.room_for_blockers × AreInOrder p.rising p.rows.items × (p.waiting ≡ has_wait p.rows.items) × (p.rising ≡ true → IsIndexOf row_call_key p.rows.items p.turns.calls) × (p.rising ≡ true → IsIndexOf row_handle_key p.rows.items p.turns.handles) × p.room ≤ p.turns.room };
}

impl PendingCalls {
    /// None. It takes no memory.
    pub fn new(alloc: Global) -> PendingCalls
        ensures items { result.items ≡ [] }
        ensures held { result.held ≡ [] }
    {
        PendingCalls {
            rows: ShiftRows::new(alloc),
            queue: PendingQueue::new(alloc),
            room: 0,
            blockers: 0,
            rising: true,
            waiting: false,
            turns: CallIndex::new(alloc),
        }
    }

    /// Takes room for so many more calls, and for so many more blockers in all. `NoMemory` where there
    /// is none.
    pub fn reserve(&mut self, calls: usize, blockers: usize) -> Result<(), NoMemory>
        ensures items { self.new ≡ record self.old { room = self.new.room; blockers = self.new.blockers } }
        ensures room { OnOk result (calls ≤ self.new.room) }
        ensures blockers { OnOk result (blockers ≤ self.new.blockers) }
        ensures kept { self.old.room ≤ self.new.room }
        ensures blockers_kept { self.old.blockers ≤ self.new.blockers }
    {
        self.reserve_calls(calls)?;
        if blockers > self.blockers {
            self.queue.reserve(0, blockers)?;
            self.blockers = blockers;
        }
        Ok(())
    }

    // Takes room for so many more calls.
    fn reserve_calls(&mut self, calls: usize) -> Result<(), NoMemory>
        ensures items { self.new ≡ record self.old { room = self.new.room } }
        ensures room { OnOk result (calls ≤ self.new.room) }
        ensures kept { self.old.room ≤ self.new.room }
    {
        if calls > self.room {
            self.rows.reserve(calls)?;
            self.queue.reserve(calls, 0)?;
            self.turns.reserve(calls)?;
            self.room = calls;
        }
        Ok(())
    }

    /// For how many more calls there is room.
    pub fn room(&self) -> usize
        ensures { result ≡ self.now.room }
    {
        self.room
    }

    /// All pending calls, each under its turn, in the order in which they came.
    pub fn as_slice(&self) -> &[(u64, PendingRow)]
        ensures { result.now ≡ self.now.items }
    {
        self.rows.as_slice()
    }

    /// The call that is pending under this turn; `None` exactly where there is none.
    pub fn call_of(&self, turn: u64) -> Option<&Call>
        ensures { option_copied result ≡ option_map (λ row. row.call) (row_of self.now.items turn) }
    {
        call_of(self.rows.as_slice(), turn)
    }

    /// Whether some call waits for another.
    pub fn has_wait(&self) -> bool
        ensures { result ≡ has_wait self.now.items }
    {
        self.waiting
    }

    /// The least turn above `after` under which a call is pending; `None` exactly where there is none.
    pub fn next_turn(&self, after: u64) -> Option<u64>
        ensures { result ≡ option_map (λ entry. entry.0) (find (is_next_turn self.now.items after) self.now.items) }
    {
        if self.rising {
            first_above(self.rows.as_slice(), after)
        } else {
            find_next_pending(self.rows.as_slice(), after)
        }
    }

    /// The turn under which this call of this client is pending; `None` exactly where it isn't.
    pub fn turn_of(&self, client: u32, number: u32) -> Option<u64>
        ensures { result ≡ number_of (is_call client number) self.now.items }
    {
        self.find_turn(client, number)
    }

    // The same, with what is so of all calls.
    fn find_turn(&self, client: u32, number: u32) -> Option<u64>
        ensures found { result ≡ number_of (is_call client number) self.now.items }
        ensures calls { AreCalls self.now.items }
    {
        if self.rising {
            find_call(self, self.turns.of_call(client, number), client, number)
        } else {
            seek_call(self.rows.as_slice(), client, number)
        }
    }

    /// The least turn under which a call of this client is pending that names this handle; `None` exactly
    /// where there is none.
    pub fn first_naming(&self, client: u32, handle: u32) -> Option<u64>
        ensures { result ≡ option_map (λ entry. entry.0) (find (is_first_naming self.now.items client handle) self.now.items) }
    {
        if self.rising {
            find_naming(self, self.turns.of_handle(client, handle), client, handle)
        } else {
            seek_naming(self.rows.as_slice(), client, handle)
        }
    }

    // The call that is pending under this turn, with what holds it.
    fn row_under(&self, turn: u64) -> Option<&PendingRow>
        ensures { option_copied result ≡ row_of self.now.items turn }
    {
        row_under(self.rows.as_slice(), turn)
    }

    /// A call is pending under this turn, and held by these blockers where there are any. Room has to be
    /// there, and no call may be pending under the turn, or with this client and number.
    pub fn pend(&mut self, turn: u64, call: Call, blockers: BlockerList)
        requires room { 1 ≤ self.old.room }
        requires places { length blockers.items ≤ self.old.blockers }
        requires new_turn { lives self.old.items turn ≡ false }
        requires new_call { has_row (is_call call.client call.number) self.old.items ≡ false }
        ensures items { self.new.items ≡ self.old.items ++ (turn, record { call = call; blockers = blockers.items }) ∷ [] }
        ensures held { (alive : Blocker → Bool) → AreHeld alive self.old → All (λ blocker. IsTrue (alive blocker)) blockers.items → AreHeld alive self.new }
        ensures left { self.old.room ≤ self.new.room + 1 }
        ensures places_left { self.old.blockers ≤ self.new.blockers + length blockers.items }
    {
        self.rising = stays_rising(self.rising, self.rows.as_slice(), turn);
        self.waiting = waits_with(self.waiting, &call.what);
        hold(&mut self.queue, turn, blockers.as_slice());
        self.room -= 1;
        self.blockers -= blockers.len();
        self.turns.add(turn, &call);
        self.rows.push((turn, PendingRow { call, blockers }));
    }

    /// The call that is held under this turn is held by these blockers instead, of which there has to be
    /// one. Room has to be there.
    pub fn hold_anew(&mut self, turn: u64, blockers: BlockerList)
        requires places { length blockers.items ≤ self.old.blockers }
        requires some { (length blockers.items == 0) ≡ false }
        requires held { IsTrue (lives self.old.held turn) }
        requires under { IsTrue (is_held_under self.old.items turn) }
        ensures items { self.new ≡ record self.old { items = with_row_changed (λ row. record row { blockers = blockers.items }) self.old.items turn; held = self.new.held; blockers = self.new.blockers } }
        ensures held { (alive : Blocker → Bool) → AreHeld alive self.old → All (λ blocker. IsTrue (alive blocker)) blockers.items → AreHeld alive self.new }
        ensures places_left { self.old.blockers ≤ self.new.blockers + length blockers.items }
    {
        let Ok(()) = self.queue.hold_by(turn, blockers.as_slice()) else {
            unreachable!()
        };
        self.blockers -= blockers.len();
        set_blockers(&mut self.rows, turn, blockers);
    }

    /// This call of this client has ended: it is pending no more, where it was.
    pub fn end(&mut self, client: u32, number: u32)
        ensures items { self.new ≡ record self.old { items = filter (λ entry. not (is_call client number entry.1)) self.old.items; held = self.new.held } }
        ensures held { StayHeld self.old self.new }
    {
        if let Some(turn) = self.find_turn(client, number) {
            self.end_under(turn);
        }
    }

    // The call of this turn is pending no more, where it was.
    fn end_under(&mut self, turn: u64)
        ensures items { self.new ≡ record self.old { items = without_row self.old.items turn; held = self.new.held } }
        ensures held { StayHeld self.old self.new }
    {
        self.queue.remove(turn);
        drop_row(&mut self.rows, &mut self.turns, turn);
        self.waiting = still_waits(self.waiting, self.rows.as_slice());
    }

    /// A break or a lock has ended: no call waits for it any more.
    pub fn ended(&mut self, blocker: Blocker)
        ensures { self.new ≡ record self.old { held = with_blocker_ended self.old.held blocker } }
    {
        self.queue.ended(blocker);
    }

    /// The least turn of a held call none of whose blockers lives; `None` exactly where there is none.
    pub fn next_held(&self) -> Option<u64>
        ensures { result ≡ next_unblocked self.now.held }
    {
        self.queue.next_unblocked()
    }
}

// Whether the turns rise with this one behind them, where they rise.
fn stays_rising(rising: bool, rows: &[(u64, PendingRow)], turn: u64) -> bool
    ensures rose { result ≡ true → rising ≡ true }
    ensures behind { result ≡ true → IsBehind rows.now turn }
{
    rising && is_behind(rows, turn)
}

// Whether the last of these rows has a lower turn, where there is one.
fn is_behind(rows: &[(u64, PendingRow)], turn: u64) -> bool
    ensures { result ≡ true → IsBehind rows.now turn }
{
    match rows.last() {
        None => true,
        Some(row) => row.0 < turn,
    }
}

// Where the rows of turns up to this one end.
fn end_of(rows: &[(u64, PendingRow)], after: u64) -> usize
    requires rising { AllPairs (λ a b. a.0 < b.0) rows.now }
    ensures bound { result ≤ length rows.now }
    ensures point { IsPartitionPoint (λ e. e.0 ≤ after) (λ e. after < e.0) rows.now result }
{
    rows.partition_point(|row| row.0 <= after)
}

// The first turn above this one, of turns that rise.
fn first_above(rows: &[(u64, PendingRow)], after: u64) -> Option<u64>
    requires rising { AllPairs (λ a b. a.0 < b.0) rows.now }
    ensures { result ≡ option_map (λ entry. entry.0) (find (is_next_turn rows.now after) rows.now) }
{
    turn_at(rows, end_of(rows, after))
}

// The turn of the row at this place.
fn turn_at(rows: &[(u64, PendingRow)], place: usize) -> Option<u64>
    ensures { result ≡ option_map (λ entry. entry.0) (slice_get rows.now place) }
{
    rows.get(place).map(|row| row.0)
}

// Holds a call by these blockers, where there are any. There has to be room.
fn hold(queue: &mut PendingQueue, turn: u64, blockers: &[Blocker])
    requires room { 1 ≤ queue.old.room_for_calls }
    requires places { length blockers.now ≤ queue.old.room_for_blockers }
    ensures held { queue.new.held ≡ (if length blockers.now == 0 then queue.old.held else with_call_held queue.old.held turn blockers.now) }
    ensures room { queue.old.room_for_calls ≤ queue.new.room_for_calls + 1 }
    ensures places { queue.old.room_for_blockers ≤ queue.new.room_for_blockers + length blockers.now }
{
    if blockers.is_empty() {
        return;
    }
    let Ok(()) = queue.hold_by(turn, blockers) else {
        unreachable!()
    };
}

// The turn under which this call of this client is pending, with a look at each.
fn seek_call(rows: &[(u64, PendingRow)], client: u32, number: u32) -> Option<u64>
    ensures { result ≡ number_of (is_call client number) rows.now }
{
    rows.iter()
        .find(|entry| is_call(&entry.1, client, number))
        .map(|entry| entry.0)
}

// Whether this call of this client is pending under this turn.
fn is_call_at(pending: &PendingCalls, turn: u64, client: u32, number: u32) -> bool
    ensures { result ≡ option_map_or (λ row. is_call client number row) (row_of pending.now.items turn) false }
{
    match pending.row_under(turn) {
        None => false,
        Some(row) => is_call(row, client, number),
    }
}

// The first of these turns under which this call of this client is pending.
fn find_call(
    pending: &PendingCalls,
    entries: &[(u64, u64)],
    client: u32,
    number: u32,
) -> Option<u64>
    ensures { result ≡ option_map (λ entry. entry.1) (find (row_passes pending.now.items (λ entry. is_call client number entry.1)) entries.now) }
{
    entries
        .iter()
        .find(|entry| is_call_at(pending, entry.1, client, number))
        .map(|entry| entry.1)
}

// Whether a call is one of this client that names this handle.
fn is_naming(row: &PendingRow, client: u32, handle: u32) -> bool
    ensures { result ≡ is_naming client handle row.now }
{
    row.call.client == client && names(&row.call.what, handle)
}

// Whether one is pending under a lower turn.
fn has_naming_below(rows: &[(u64, PendingRow)], turn: u64, client: u32, handle: u32) -> bool
    ensures { result ≡ list_any (λ other. is_naming client handle other.1 && nat_lt other.0 turn) rows.now }
{
    rows.iter().any(|entry| is_naming(&entry.1, client, handle) && entry.0 < turn)
}

// Whether a call is the first one of this client that names this handle.
fn is_first_naming(
    rows: &[(u64, PendingRow)],
    turn: u64,
    row: &PendingRow,
    client: u32,
    handle: u32,
) -> bool
    ensures { result ≡ is_first_naming rows.now client handle (turn, row.now) }
{
    is_naming(row, client, handle) && !has_naming_below(rows, turn, client, handle)
}

// The least turn of a call of this client that names this handle, with a look at each.
fn seek_naming(rows: &[(u64, PendingRow)], client: u32, handle: u32) -> Option<u64>
    ensures { result ≡ option_map (λ entry. entry.0) (find (is_first_naming rows.now client handle) rows.now) }
{
    rows.iter()
        .find(|entry| is_first_naming(rows, entry.0, &entry.1, client, handle))
        .map(|entry| entry.0)
}

// Whether a call of this client that names this handle is pending under this turn.
fn is_naming_at(pending: &PendingCalls, turn: u64, client: u32, handle: u32) -> bool
    ensures { result ≡ option_map_or (λ row. is_naming client handle row) (row_of pending.now.items turn) false }
{
    match pending.row_under(turn) {
        None => false,
        Some(row) => is_naming(row, client, handle),
    }
}

// The first of these turns under which a call of this client is pending that names this handle.
fn find_naming(
    pending: &PendingCalls,
    entries: &[(u64, u64)],
    client: u32,
    handle: u32,
) -> Option<u64>
    ensures { result ≡ option_map (λ entry. entry.1) (find (row_passes pending.now.items (λ entry. is_naming client handle entry.1)) entries.now) }
{
    entries
        .iter()
        .find(|entry| is_naming_at(pending, entry.1, client, handle))
        .map(|entry| entry.1)
}

// Takes the row of this turn out, and its turn out of the index.
fn drop_row(rows: &mut ShiftRows<(u64, PendingRow)>, turns: &mut CallIndex, turn: u64)
    requires differ { AllPairs (λ a b. (a.0 == b.0) ≡ false) rows.old.items }
    ensures items { rows.new.items ≡ without_row rows.old.items turn }
    ensures room { rows.old.room ≤ rows.new.room }
    ensures calls { (last : ℕ) → IsNumbered rows.old.items last → IsIndexOf row_call_key rows.old.items turns.old.calls → IsIndexOf row_call_key rows.new.items turns.new.calls }
    ensures handles { (last : ℕ) → IsNumbered rows.old.items last → IsIndexOf row_handle_key rows.old.items turns.old.handles → IsIndexOf row_handle_key rows.new.items turns.new.handles }
    ensures kept { turns.new.room ≡ turns.old.room }
{
    if let Some(place) = place_of(rows.as_slice(), turn) {
        forget_turn(rows.as_slice(), turns, place, turn);
        rows.remove(place);
    }
}

// Takes the turn of the row at this place, which has to be the one of this turn, out of the index.
fn forget_turn(rows: &[(u64, PendingRow)], turns: &mut CallIndex, place: usize, turn: u64)
    requires differ { AllPairs (λ a b. (a.0 == b.0) ≡ false) rows.now }
    requires there { position (λ entry. entry.0 == turn) rows.now ≡ Some place }
    ensures calls { (last : ℕ) → IsNumbered rows.now last → IsIndexOf row_call_key rows.now turns.old.calls → IsIndexOf row_call_key (without_row rows.now turn) turns.new.calls }
    ensures handles { (last : ℕ) → IsNumbered rows.now last → IsIndexOf row_handle_key rows.now turns.old.handles → IsIndexOf row_handle_key (without_row rows.now turn) turns.new.handles }
    ensures kept { turns.new.room ≡ turns.old.room }
{
    let row = &rows[place].1;
    turns.remove(turn, &row.call);
}

/// Whether a call waits for another.
pub fn is_wait(what: &What) -> bool
    ensures { result ≡ is_wait what.now }
{
    matches!(what, What::WaitFor(_))
}

// Whether one of these calls does.
fn some_wait(rows: &[(u64, PendingRow)]) -> bool
    ensures { result ≡ has_wait rows.now }
{
    rows.iter().any(|entry| is_wait(&entry.1.call.what))
}

// Whether some call waits for another once one comes that does this.
fn waits_with(waiting: bool, what: &What) -> bool
    ensures { result ≡ (waiting || is_wait what.now) }
{
    waiting || is_wait(what)
}

// Whether one still does; these are looked at only where one did.
fn still_waits(waiting: bool, rows: &[(u64, PendingRow)]) -> bool
    ensures { result ≡ (waiting && has_wait rows.now) }
{
    waiting && some_wait(rows)
}

// Whether the row at this place is the one of this turn.
fn is_at(rows: &[(u64, PendingRow)], place: usize, turn: u64) -> bool
    ensures { result ≡ is_at rows.now place turn }
{
    match rows.get(place) {
        None => false,
        Some(row) => row.0 == turn,
    }
}

// The place of the row of this turn. It is found by halves where the turns rise; else by a look at each.
fn place_of(rows: &[(u64, PendingRow)], turn: u64) -> Option<usize>
    requires differ { AllPairs (λ a b. (a.0 == b.0) ≡ false) rows.now }
    ensures { result ≡ position (λ entry. entry.0 == turn) rows.now }
{
    let place = rows.partition_point(|row| row.0 < turn);
    if is_at(rows, place, turn) {
        return Some(place);
    }
    rows.iter().position(|entry| entry.0 == turn)
}

// The row of this turn.
fn row_under(rows: &[(u64, PendingRow)], turn: u64) -> Option<&PendingRow>
    requires differ { AllPairs (λ a b. (a.0 == b.0) ≡ false) rows.now }
    ensures { option_copied result ≡ row_of rows.now turn }
{
    match place_of(rows, turn) {
        None => None,
        Some(place) => {
            let row = &rows[place].1;
            Some(row)
        }
    }
}

// The call that is pending under this turn.
fn call_of(rows: &[(u64, PendingRow)], turn: u64) -> Option<&Call>
    requires differ { AllPairs (λ a b. (a.0 == b.0) ≡ false) rows.now }
    ensures { option_copied result ≡ option_map (λ row. row.call) (row_of rows.now turn) }
{
    match place_of(rows, turn) {
        None => None,
        Some(place) => {
            let row = &rows[place].1;
            Some(&row.call)
        }
    }
}

// Puts these blockers in place of those of the row of this turn.
fn set_blockers(rows: &mut ShiftRows<(u64, PendingRow)>, turn: u64, blockers: BlockerList)
    requires differ { AllPairs (λ a b. (a.0 == b.0) ≡ false) rows.old.items }
    ensures items { rows.new.items ≡ with_row_changed (λ row. record row { blockers = blockers.items }) rows.old.items turn }
    ensures room { rows.new.room ≡ rows.old.room }
{
    if let Some(place) = place_of(rows.as_slice(), turn) {
        set_in_row(rows.at_mut(place), blockers);
    }
}

// Puts these blockers in place of those of a row.
fn set_in_row(entry: &mut (u64, PendingRow), blockers: BlockerList)
    ensures { entry.new ≡ (entry.old.0, record entry.old.1 { blockers = blockers.items }) }
{
    entry.1.blockers = blockers;
}
