//! The blockers that live, each with the turn that waits for it: those of one blocker are found without a look at the
//! others.

ghost use Rattle.std.specs.Prelude.{◌≡◌, ◌≤◌, ◌<◌, ◌+◌, ◌==◌, ◌++◌, ◌∷◌, [], false, not, count_by, map, filter, get_or, length, AllPairs, IfOk, IsOk, OnOk};
ghost use Rattle.std.specs.Vec.{vec_capacity, vec_len};
ghost use Rattle.pending_queue.specs.Lists.{discounted, ready_turns, sorted, turns_of};
ghost use Rattle.pending_queue.specs.PendingQueue.{blockers_under, is_same};
ghost use Rattle.pending_queue.specs.Waits.{AreLinked, bare, by_blocker, by_turn, living_entries, is_blocker, is_out, is_turn, link_of, wait_links, nothing, blocker_number, ended_where, over_at, slots_of, turn_link_of};

use crate::ready::let_go;
use crate::slots::{end_of, set_head, slot_of};
use fsa_types::{Blocker, NoMemory};
use std::alloc::Global;
use std::marker::Model;

/// A blocker that a call waits for.
#[derive(Clone, Copy)]
pub struct Wait {
    /// The call's turn.
    pub turn: u64,
    /// What it waits for.
    pub blocker: Blocker,
    /// Whether it still does.
    pub lives: bool,
    /// One more than the place of the last one before it that has the slot of its blocker; 0 where there is none.
    pub link: usize,
    /// The same of the slot of its turn.
    pub turn_link: usize,
}

/// The blockers that live, each with the turn that waits for it, in the order in which they were put in.
pub struct Waits {
    // In order, also those that live no more, until room is taken anew.
    waits: Vec<Wait>,
    // For each slot one more than the place of the last one whose blocker has it; 0 where none does.
    heads: Vec<usize>,
    // The same of their turns.
    turn_heads: Vec<usize>,
}

// One drop of the whole, so that it is one step at each end of a function that holds one.
impl Drop for Waits {
    fn drop(self) {
        let Waits {
            waits: _,
            heads: _,
            turn_heads: _,
        } = self;
    }
}

impl Model for Waits {
    ghost use Rattle.pending_queue.specs.Waits.{AreFound, Waiting, living_entries};
    ghost use Rattle.std.specs.Prelude.{◌-◌};
    ghost use Rattle.std.specs.Vec.{vec_capacity, vec_len};

    ghost Value = { Waiting };

    ghost view = { λ w. record { entries = living_entries w.waits.items; room = vec_capacity w.waits - vec_len w.waits } };

    ghost invariant = { λ w. AreFound w.heads.items w.turn_heads.items w.waits.items };
}

impl Waits {
    /// No call waits. It takes no memory.
    pub fn new(alloc: Global) -> Waits
        ensures { result.entries ≡ [] }
    {
        Waits {
            waits: Vec::new(alloc),
            heads: Vec::new(alloc),
            turn_heads: Vec::new(alloc),
        }
    }

    /// Takes room for so many more. `NoMemory` where there is none; nothing has changed then. Where there is room it
    /// takes no memory.
    pub fn reserve(&mut self, more: usize) -> Result<(), NoMemory>
        ensures entries { self.new.entries ≡ self.old.entries }
        ensures room { OnOk result (more ≤ self.new.room) }
        ensures kept { self.old.room ≤ self.new.room }
        ensures succeeds { more ≤ self.old.room → IsOk result }
    {
        if more <= self.waits.capacity() - self.waits.len() {
            return Ok(());
        }
        *self = self.rebuilt(more)?;
        Ok(())
    }

    // The same in new room, with room for so many more.
    fn rebuilt(&self, more: usize) -> Result<Waits, NoMemory>
        ensures entries { IfOk result (λ fresh. fresh.entries ≡ self.now.entries) }
        ensures room { IfOk result (λ fresh. more ≤ fresh.room) }
    {
        let living = count_living(&self.waits);
        let Some(least) = living.checked_add(more) else {
            return Err(NoMemory);
        };
        let mut fresh = Waits::with_room(*self.waits.allocator(), room_of(least, living))?;
        put_living(&mut fresh, &self.waits);
        Ok(fresh)
    }

    // None, and room for so many.
    fn with_room(alloc: Global, room: usize) -> Result<Waits, NoMemory>
        ensures entries { IfOk result (λ fresh. fresh.entries ≡ []) }
        ensures room { IfOk result (λ fresh. room ≤ fresh.room) }
    {
        let waits = Vec::with_capacity(alloc, room)?;
        let heads = vec![in alloc; 0; slots_for(room)]?;
        let turn_heads = vec![in alloc; 0; slots_for(room)]?;
        Ok(Waits {
            waits,
            heads,
            turn_heads,
        })
    }

    // Puts a blocker of the call of this turn at the end. There has to be room for it.
    fn push(&mut self, turn: u64, blocker: Blocker)
        requires { 1 ≤ self.old.room }
        ensures entries { self.new.entries ≡ self.old.entries ++ (turn, blocker) ∷ [] }
        ensures left { self.old.room ≤ self.new.room + 1 }
    {
        let own = slot_of(self.heads.len(), blocker_number(blocker));
        let link = end_of(&self.heads, own, self.waits.len());
        let turn_own = slot_of(self.turn_heads.len(), turn);
        let turn_link = end_of(&self.turn_heads, turn_own, self.waits.len());
        let wait = Wait {
            turn,
            blocker,
            lives: true,
            link,
            turn_link,
        };
        let Ok(()) = self.waits.push(wait) else {
            unreachable!()
        };
        set_head(&mut self.heads, own, self.waits.len());
        set_head(&mut self.turn_heads, turn_own, self.waits.len());
    }

    /// Puts these blockers of the call of this turn in place of those that it has, of which there are so many. There
    /// has to be room for them.
    pub fn put(&mut self, turn: u64, count: usize, blockers: &[Blocker])
        requires count { count ≡ length (blockers_under self.old.entries turn) }
        requires room { length blockers.now ≤ self.old.room }
        ensures entries { self.new.entries ≡ filter (λ entry. not (entry.0 == turn)) self.old.entries ++ map (λ blocker. (turn, blocker)) blockers.now }
        ensures left { self.old.room ≤ self.new.room + length blockers.now }
    {
        self.drop_of(turn, count);
        self.add(turn, blockers);
    }

    // Puts these blockers of the call of this turn at the end. There has to be room for them.
    fn add(&mut self, turn: u64, blockers: &[Blocker])
        requires room { length blockers.now ≤ self.old.room }
        ensures entries { self.new.entries ≡ self.old.entries ++ map (λ blocker. (turn, blocker)) blockers.now }
        ensures left { self.old.room ≤ self.new.room + length blockers.now }
    {
        for blocker in blockers {
            self.push(turn, *blocker);
        }
    }

    /// Takes all blockers of the call of this turn out, of which there are so many. It takes no memory, and leaves the
    /// room as it was.
    pub fn drop_of(&mut self, turn: u64, count: usize)
        requires { count ≡ length (blockers_under self.old.entries turn) }
        ensures entries { self.new.entries ≡ filter (λ entry. not (entry.0 == turn)) self.old.entries }
        ensures room { self.new.room ≡ self.old.room }
    {
        if count != 0 {
            drop_each(&mut self.waits, &self.turn_heads, turn);
        }
    }

    /// This blocker, of whatever call, lives no more. Of each call its count is lowered for it, and the turns of those
    /// none of whose blockers lives then come among those that are ready, for which there has to be room. It takes no
    /// memory, and leaves the room as it was.
    pub fn end(&mut self, calls: &mut Vec<(u64, usize)>, ready: &mut Vec<u64>, blocker: Blocker)
        requires differ { AllPairs (λ a b. (a.0 == b.0) ≡ false) calls.old.items }
        requires ready { ready.old.items ≡ sorted (ready_turns calls.old.items) }
        requires places { length calls.old.items ≤ vec_capacity ready.old }
        ensures entries { self.new.entries ≡ filter (λ entry. not (is_same blocker entry.1)) self.old.entries }
        ensures room { self.new.room ≡ self.old.room }
        ensures calls { calls.new.items ≡ discounted blocker self.old.entries calls.old.items }
        ensures len { vec_len calls.new ≡ vec_len calls.old }
        ensures capacity { vec_capacity calls.new ≡ vec_capacity calls.old }
        ensures ready { ready.new.items ≡ sorted (ready_turns calls.new.items) }
        ensures places { vec_capacity ready.old ≤ vec_capacity ready.new }
    {
        end_each(&mut self.waits, &self.heads, calls, ready, blocker);
    }
}

// Puts those that live at the end. There has to be room for them.
fn put_living(fresh: &mut Waits, waits: &[Wait])
    requires room { length (living_entries waits.now) ≤ fresh.old.room }
    ensures entries { fresh.new.entries ≡ fresh.old.entries ++ living_entries waits.now }
    ensures left { fresh.old.room ≤ fresh.new.room + length (living_entries waits.now) }
{
    for wait in waits {
        if wait.lives {
            fresh.push(wait.turn, wait.blocker);
        }
    }
}

// Room for no less than `least`, and for twice as many as live, so that room is seldom taken.
fn room_of(least: usize, living: usize) -> usize
    ensures { least ≤ result }
{
    least.saturating_add(living).max(16)
}

// How many slots there are where there is room for so many. Where it is little each is looked at.
fn slots_for(room: usize) -> usize {
    if room < 64 { 0 } else { room / 2 }
}

// How many live.
fn count_living(waits: &[Wait]) -> usize
    ensures { result ≡ count_by (λ wait. wait.lives) waits.now }
{
    waits.iter().filter(|wait| wait.lives).count()
}

// The number of a break or a lock.
fn blocker_number(blocker: Blocker) -> u64
    ensures { result ≡ blocker_number blocker }
{
    match blocker {
        Blocker::Break(number) => number,
        Blocker::Lock(number) => number,
    }
}

// Takes all blockers of the call of this turn out: goes from the last one that has its slot to the one before it, and so
// on.
fn drop_each(waits: &mut Vec<Wait>, heads: &[usize], turn: u64)
    requires { AreLinked heads.now (slots_of by_turn (length heads.now) waits.old.items) (wait_links turn_link_of waits.old.items) }
    ensures entries { living_entries waits.new.items ≡ filter (λ entry. not (is_turn turn entry)) (living_entries waits.old.items) }
    ensures bare { map bare waits.new.items ≡ map bare waits.old.items }
    ensures len { vec_len waits.new ≡ vec_len waits.old }
    ensures room { vec_capacity waits.new ≡ vec_capacity waits.old }
{
    let mut end = end_of(heads, slot_of(heads.len(), turn), waits.len());
    while end > 0 {
        let place = end - 1;
        let wait = waits[place];
        waits[place] = without_turn(wait, turn);
        end = wait.turn_link;
    }
}

// It lives no more where it is this turn's.
fn without_turn(wait: Wait, turn: u64) -> Wait
    ensures { result ≡ ended_where (is_turn turn) wait }
{
    Wait {
        turn: wait.turn,
        blocker: wait.blocker,
        lives: wait.lives && wait.turn != turn,
        link: wait.link,
        turn_link: wait.turn_link,
    }
}

/// Whether two blockers are the same.
pub fn is_same(blocker: Blocker, other: Blocker) -> bool
    ensures { result ≡ is_same blocker other }
{
    match (blocker, other) {
        (Blocker::Break(number), Blocker::Break(other_number)) => number == other_number,
        (Blocker::Lock(number), Blocker::Lock(other_number)) => number == other_number,
        _ => false,
    }
}

// This blocker lives no more: goes from the last one that has its slot to the one before it, and so on.
fn end_each(
    waits: &mut Vec<Wait>,
    heads: &[usize],
    calls: &mut Vec<(u64, usize)>,
    ready: &mut Vec<u64>,
    blocker: Blocker,
)
    requires linked { AreLinked heads.now (slots_of by_blocker (length heads.now) waits.old.items) (wait_links link_of waits.old.items) }
    requires differ { AllPairs (λ a b. (a.0 == b.0) ≡ false) calls.old.items }
    requires ready { ready.old.items ≡ sorted (ready_turns calls.old.items) }
    requires places { length calls.old.items ≤ vec_capacity ready.old }
    ensures entries { living_entries waits.new.items ≡ filter (λ entry. not (is_same blocker entry.1)) (living_entries waits.old.items) }
    ensures bare { map bare waits.new.items ≡ map bare waits.old.items }
    ensures waits_len { vec_len waits.new ≡ vec_len waits.old }
    ensures waits_room { vec_capacity waits.new ≡ vec_capacity waits.old }
    ensures calls { calls.new.items ≡ discounted blocker (living_entries waits.old.items) calls.old.items }
    ensures len { vec_len calls.new ≡ vec_len calls.old }
    ensures room { vec_capacity calls.new ≡ vec_capacity calls.old }
    ensures ready { ready.new.items ≡ sorted (ready_turns calls.new.items) }
    ensures places { vec_capacity ready.old ≤ vec_capacity ready.new }
{
    let mut end = end_of(
        heads,
        slot_of(heads.len(), blocker_number(blocker)),
        waits.len(),
    );
    while end > 0 {
        let place = end - 1;
        let link = waits[place].link;
        end_at(waits, place, calls, ready, blocker);
        end = link;
    }
}

// This blocker lives no more at this place, where it stands there.
fn end_at(
    waits: &mut Vec<Wait>,
    place: usize,
    calls: &mut Vec<(u64, usize)>,
    ready: &mut Vec<u64>,
    blocker: Blocker,
)
    requires within { place < length waits.old.items }
    requires differ { AllPairs (λ a b. (a.0 == b.0) ≡ false) calls.old.items }
    requires ready { ready.old.items ≡ sorted (ready_turns calls.old.items) }
    requires places { length calls.old.items ≤ vec_capacity ready.old }
    ensures items { waits.new.items ≡ over_at (is_blocker blocker) waits.old.items place }
    ensures waits_len { vec_len waits.new ≡ vec_len waits.old }
    ensures waits_room { vec_capacity waits.new ≡ vec_capacity waits.old }
    ensures calls { calls.new.items ≡ discounted blocker (living_entries (get_or waits.old.items place nothing ∷ [])) calls.old.items }
    ensures turns { turns_of calls.new.items ≡ turns_of calls.old.items }
    ensures len { vec_len calls.new ≡ vec_len calls.old }
    ensures room { vec_capacity calls.new ≡ vec_capacity calls.old }
    ensures ready { ready.new.items ≡ sorted (ready_turns calls.new.items) }
    ensures places { vec_capacity ready.old ≤ vec_capacity ready.new }
{
    let wait = waits[place];
    if !waits_for(wait, blocker) {
        return;
    }
    waits[place] = ended(wait);
    let_go(calls, ready, wait.turn);
}

// Whether it lives, and is this blocker's.
fn waits_for(wait: Wait, blocker: Blocker) -> bool
    ensures { result ≡ is_out (is_blocker blocker) wait }
{
    wait.lives && is_same(blocker, wait.blocker)
}

// It lives no more.
fn ended(wait: Wait) -> Wait
    ensures { result ≡ record wait { lives = false } }
{
    Wait {
        turn: wait.turn,
        blocker: wait.blocker,
        lives: false,
        link: wait.link,
        turn_link: wait.turn_link,
    }
}
