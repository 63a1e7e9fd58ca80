//! The oplocks of one stream or directory.

ghost use Rattle.std.specs.Prelude.{◌≡◌, ◌≤◌, ◌<◌, ◌+◌, ◌-◌, ◌^◌, ◌++◌, ◌∷◌, ◌==◌, ◌&&◌, not, [], filter, length, option_map, slice_index_or, OnOk, if◌then◌else◌};
ghost use Rattle.std.specs.Option.{option_map_or};
ghost use Rattle.std.specs.List.{list_any};
ghost use Rattle.std.specs.Vec.{vec_capacity};
ghost use Rattle.fsa_types.specs.OplockGrants.{after_answer, target_among};
ghost use Rattle.fsa_types.specs.OplockLists.{after_breaks, awaited_among, number_of_break, without_oplock_of};
ghost use Rattle.fsa_types.specs.Oplocks.{in_both};
ghost use Rattle.oplock_state.specs.State.{Grants, has_oplock, broken_next};
ghost use Rattle.oplock_state.specs.declared.stream_oplocks.Grant.TheVariants.{Granted};
ghost use Rattle.volume_breaks.specs.Told.{told_all};

use fsa_types::{Class, Level, NoMemory};
use std::alloc::Global;
use std::marker::Model;
use volume_breaks::{Oplocks, Told, break_oplocks, drop_chosen, is_refused};
use volume_rows::{OplockRow, find_break, find_target, in_both, is_oplock_of};

/// Whether an oplock was granted.
#[derive(Clone, Copy)]
pub enum Grant {
    /// It was, and its call is to be pending as granted. Those of its key that it switched are those that were
    /// chosen last.
    Granted,
    /// It wasn't, and nothing has changed.
    Refused,
}

/// The oplocks of one stream or directory, in the order in which they were granted; the handles that are marked
/// for the next break; and what the last break or grant put by.
pub struct StreamOplocks {
    list: Oplocks,
    // The handles that are marked, each once, and each with an oplock.
    marked: Vec<u64>,
}

// One drop of the whole, so that it is one step at each end of a function that holds one.
impl Drop for StreamOplocks {
    fn drop(self) {
        let StreamOplocks { list: _, marked: _ } = self;
    }
}

// The home to which room is promised in the list, which has no other.
const OWN: u64 = 0;

impl Model for StreamOplocks {
    ghost use Rattle.std.specs.Prelude.{◌-◌, ◌≤◌, length, min};
    ghost use Rattle.std.specs.Vec.{vec_capacity};
    ghost use Rattle.oplock_state.specs.State.{AreMarked, State};
    ghost use Rattle.volume_tables.specs.Rooms.{room_in};

    ghost Value = { State };

    ghost view = { λ o. record {
      rows = o.list.rows;
      last = o.list.last;
      room = min (room_in o.list.rooms 0) (vec_capacity o.marked - length o.list.rows);
      marked = o.marked.items;
      chosen = o.list.chosen;
      told = o.list.told;
      waited = o.list.waited;
    } };

    ghost invariant = { λ o. (length o.list.rows ≤ vec_capacity o.marked) × AreMarked o.marked.items o.list.rows };
}

impl StreamOplocks {
    /// None. It takes no memory.
    pub fn new(alloc: Global) -> StreamOplocks
        ensures rows { result.rows ≡ [] }
        ensures marked { result.marked ≡ [] }
        ensures last { result.last ≡ 0 }
    {
        StreamOplocks {
            list: Oplocks::new(alloc),
            marked: Vec::new(alloc),
        }
    }

    /// Takes room for `more` oplocks beside those that are there, and for what breaks of them put by. `NoMemory`
    /// where there is none, or where there would be 2^32 or more in all.
    pub fn reserve(&mut self, more: u32) -> Result<(), NoMemory>
        ensures state { self.new ≡ record self.old { room = self.new.room } }
        ensures room { OnOk result (more ≤ self.new.room) }
        ensures kept { self.old.room ≤ self.new.room }
    {
        self.list.reserve(OWN, more)?;
        let in_all = self.list.len() as usize + more as usize;
        reserve_for(&mut self.marked, in_all)
    }

    /// All oplocks, in the order in which they were granted.
    pub fn as_slice(&self) -> &[OplockRow]
        ensures { result.now ≡ self.now.rows }
    {
        self.list.as_slice()
    }

    /// Grants an oplock of this level to a handle with this key, unless it is refused; the call that is pending
    /// under this turn, or will be, is its own. `others` says that a handle of another key is open on the
    /// stream, and `locked` that a range of it is locked. Oplocks of this key end. Room has to be reserved.
    pub fn grant(
        &mut self,
        handle: u64,
        key: u64,
        level: Level,
        turn: u64,
        others: bool,
        locked: bool,
    ) -> Grant
        requires room { 1 ≤ self.old.room }
        ensures grants { Grants self.old handle key level turn others locked self.new result }
        ensures left { self.old.room ≤ self.new.room + 1 }
        ensures last { self.new.last ≡ self.old.last }
        ensures marked { self.old.marked ≡ [] → self.new.marked ≡ [] }
        ensures unmarked { result ≡ Granted → self.new.marked ≡ [] }
    {
        if is_refused(handle, key, level, others, locked, self.list.as_slice()) {
            return Grant::Refused;
        }
        self.marked.clear();
        self.list.choose_of_key(handle, key);
        drop_chosen(&mut self.list);
        self.list.grant(OWN, handle, key, level, turn);
        Grant::Granted
    }

    /// Marks a handle, so that the next break may choose its oplock; where it has none, or is marked, nothing changes.
    pub fn mark(&mut self, handle: u64)
        ensures marked { self.new ≡ record self.old { marked = if has_oplock handle self.old.rows && not (list_any (λ other. other == handle) self.old.marked) then self.old.marked ++ handle ∷ [] else self.old.marked; room = self.new.room } }
        ensures room { self.old.room ≤ self.new.room }
    {
        if !self.can_be_marked(handle) {
            return;
        }
        mark(&mut self.marked, handle);
    }

    // Whether a handle has an oplock, and isn't marked yet.
    fn can_be_marked(&self, handle: u64) -> bool
        ensures { result ≡ (has_oplock handle self.now.rows && not (list_any (λ other. other == handle) self.now.marked)) }
    {
        self.has(handle) && !is_among(&self.marked, handle)
    }

    // Whether a handle has an oplock.
    fn has(&self, handle: u64) -> bool
        ensures { result ≡ has_oplock handle self.now.rows }
    {
        self.list
            .as_slice()
            .iter()
            .any(|oplock| is_oplock_of(oplock, handle))
    }

    /// Breaks the oplocks of the handles that are marked, as a request of this class does: those of other keys than the
    /// acting handle's, which a Create doesn't have yet, in the order in which their handles were opened. Breaks that
    /// begin are numbered from `first`, which is above all numbers given here. No handle is marked then.
    pub fn begin(&mut self, class: Class, key: u64, acting: Option<u64>, first: u64)
        requires rising { self.old.last < first }
        requires numbers { first + length (broken_next self.old acting key) ≤ 2 ^ 64 }
        ensures rows { self.new.rows ≡ (after_breaks class (record { oplocks = self.old.rows; last_break = first - 1 }) (broken_next self.old acting key)).oplocks }
        ensures last { self.new.last ≡ (after_breaks class (record { oplocks = self.old.rows; last_break = first - 1 }) (broken_next self.old acting key)).last_break }
        ensures marked { self.new.marked ≡ [] }
        ensures chosen { self.new.chosen ≡ broken_next self.old acting key }
        ensures told { self.new.told ≡ told_all class (broken_next self.old acting key) }
        ensures waited { self.new.waited ≡ awaited_among class (broken_next self.old acting key) self.new.rows }
        ensures room { self.old.room ≤ self.new.room }
    {
        self.list.number_from(first);
        self.list.choose_marked(&self.marked, acting, key);
        self.marked.clear();
        break_oplocks(&mut self.list, class);
        self.list.await_breaks(class);
    }

    /// Breaks the oplock of a handle alone, as a request of this class does. A break that begins has the number `first`,
    /// which is above all numbers given here. No handle is marked then.
    pub fn begin_alone(&mut self, handle: u64, class: Class, first: u64)
        requires rising { self.old.last < first }
        ensures rows { self.new.rows ≡ (after_breaks class (record { oplocks = self.old.rows; last_break = first - 1 }) (filter (λ oplock. oplock.handle == handle) self.old.rows)).oplocks }
        ensures last { self.new.last ≡ (after_breaks class (record { oplocks = self.old.rows; last_break = first - 1 }) (filter (λ oplock. oplock.handle == handle) self.old.rows)).last_break }
        ensures marked { self.new.marked ≡ [] }
        ensures chosen { self.new.chosen ≡ filter (λ oplock. oplock.handle == handle) self.old.rows }
        ensures told { self.new.told ≡ told_all class (filter (λ oplock. oplock.handle == handle) self.old.rows) }
        ensures waited { self.new.waited ≡ awaited_among class (filter (λ oplock. oplock.handle == handle) self.old.rows) self.new.rows }
        ensures room { self.old.room ≤ self.new.room }
    {
        self.list.number_from(first);
        self.list.choose_alone(handle);
        self.marked.clear();
        break_oplocks(&mut self.list, class);
        self.list.await_breaks(class);
    }

    /// How many oplocks the last break or grant chose.
    pub fn chosen_len(&self) -> usize
        ensures { result ≡ length self.now.chosen }
    {
        self.list.chosen_len()
    }

    /// The oplock that the last break or grant chose at this place, as it was. What a grant chose it switched,
    /// and the call of each ends.
    pub fn chosen_at(&self, place: usize) -> OplockRow
        requires { place < length self.now.chosen }
        ensures { result ≡ slice_index_or self.now.chosen place result }
    {
        self.list.chosen_at(place)
    }

    /// How many holders the last break told.
    pub fn told_len(&self) -> usize
        ensures { result ≡ length self.now.told }
    {
        self.list.told().len()
    }

    /// Whom the last break told at this place, and what; the call of each ends.
    pub fn told(&self, place: usize) -> Told
        requires { place < length self.now.told }
        ensures { result ≡ slice_index_or self.now.told place result }
    {
        self.list.told()[place]
    }

    /// For how many breaks the last break waits.
    pub fn waits_len(&self) -> usize
        ensures { result ≡ length self.now.waited }
    {
        self.list.waited().len()
    }

    /// The number of the break for which the last break waits, at this place.
    pub fn waits(&self, place: usize) -> u64
        requires { place < length self.now.waited }
        ensures { result ≡ slice_index_or self.now.waited place result }
    {
        self.list.waited()[place]
    }

    /// Answers the break in progress on a handle: what is in this level and in the break's target stays,
    /// and the call that is pending under this turn, or will be, is its own then; where nothing stays the oplock
    /// ends. Gives what stays, and the number of the break, which has ended. `None` exactly where no break of it
    /// is in progress, and then nothing changes but that no handle is marked.
    pub fn ack(&mut self, handle: u64, level: Level, turn: u64) -> Option<(Level, u64)>
        ensures kept { result ≡ option_map (λ target. (in_both level target, number_of_break self.old.rows handle)) (target_among handle self.old.rows) }
        ensures rows { self.new.rows ≡ option_map_or (λ target. after_answer handle (in_both level target) turn self.old.rows) (target_among handle self.old.rows) self.old.rows }
        ensures others { self.new ≡ record self.old { rows = self.new.rows; marked = []; room = self.new.room } }
        ensures room { self.old.room ≤ self.new.room }
    {
        self.marked.clear();
        let target = find_target(self.list.as_slice(), handle)?;
        let number = find_break(self.list.as_slice(), handle).unwrap_or(0);
        let kept = in_both(level, target);
        self.list.answer(handle, kept, turn);
        Some((kept, number))
    }

    /// Takes the oplock of a handle out. Gives the number of its break, which has ended; `None` exactly where no
    /// break of it is in progress. No handle is marked then.
    pub fn drop_handle(&mut self, handle: u64) -> Option<u64>
        ensures ended { result ≡ option_map (λ _. number_of_break self.old.rows handle) (target_among handle self.old.rows) }
        ensures state { self.new ≡ record self.old { rows = without_oplock_of handle self.old.rows; marked = []; room = self.new.room } }
        ensures room { self.old.room ≤ self.new.room }
    {
        self.marked.clear();
        let ended = ended_break(self.list.as_slice(), handle);
        self.list.drop_of(handle);
        ended
    }
}

// The number of the break in progress on this handle.
fn ended_break(oplocks: &[OplockRow], handle: u64) -> Option<u64>
    ensures { result ≡ option_map (λ _. number_of_break oplocks.now handle) (target_among handle oplocks.now) }
{
    match find_target(oplocks, handle) {
        None => None,
        Some(_) => Some(find_break(oplocks, handle).unwrap_or(0)),
    }
}

// Whether a handle is among these.
fn is_among(marked: &[u64], handle: u64) -> bool
    ensures { result ≡ list_any (λ other. other == handle) marked.now }
{
    marked.iter().any(|other| *other == handle)
}

// Puts a handle behind those that are marked.
fn mark(marked: &mut Vec<u64>, handle: u64)
    requires room { length marked.old.items < vec_capacity marked.old }
    ensures marked { marked.new.items ≡ marked.old.items ++ handle ∷ [] }
    ensures room { vec_capacity marked.old ≤ vec_capacity marked.new }
{
    let Ok(()) = marked.push(handle) else {
        unreachable!()
    };
}

// Takes room for so many items in all. `NoMemory` where there is none.
fn reserve_for<T: Drop>(items: &mut Vec<T>, in_all: usize) -> Result<(), NoMemory>
    ensures items { items.new.items ≡ items.old.items }
    ensures room { OnOk result (in_all ≤ vec_capacity items.new) }
    ensures kept { vec_capacity items.old ≤ vec_capacity items.new }
{
    let length = items.len();
    if length < in_all {
        items.reserve(in_all - length)?;
    }
    Ok(())
}
