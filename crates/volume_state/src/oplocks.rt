//! Oplocks: their grant, their break, and what is answered to a break.

ghost use Rattle.std.specs.Prelude.{ℕ, ◌≡◌, ◌≤◌, ◌<◌, ◌+◌, ◌-◌, ◌^◌, ◌==◌, All, fold, length, map, [], false, Some, IsSome, option_map};
ghost use Rattle.std.specs.Option.{option_map_or, ForSome};
ghost use Rattle.fsa_types.specs.OplockGrants.{after_answer, target_among};
ghost use Rattle.fsa_types.specs.OplockLists.{effect_on, told_among, IsCopy, IsSoundOplock};
ghost use Rattle.fsa_types.specs.Oplocks.{in_both};
ghost use Rattle.fsa_types.specs.declared.reply.Blocker.TheVariants.{Break};
ghost use Rattle.fsa_types.specs.declared.oplock.Class.{Class};
ghost use Rattle.fsa_types.specs.declared.oplock.HandleSet.{HandleSet};
ghost use Rattle.fsa_model.specs.Breaks.{with_breaks, with_effect, awaited, told};
ghost use Rattle.fsa_model.specs.Edits.{without_oplock};
ghost use Rattle.fsa_model.specs.Grant.{is_locked, is_open_by_others, switched, target_of, with_answer};
ghost use Rattle.fsa_model.specs.Volume.{Volume as OfVolume};
ghost use Rattle.fsa_model.specs.Waiting.{with_oplock_given_up};
ghost use Rattle.std.specs.Prelude.{Option};
ghost use Rattle.object_tables.specs.Series.{HoldsAsMany};
ghost use Rattle.oplock_state.specs.Homes.{HomesFit};
ghost use Rattle.oplock_state.specs.Tables.{AreSorted, AreThere};
ghost use Rattle.volume_breaks.specs.Breaks.{with_held};
ghost use Rattle.volume_breaks.specs.Calls.{StayHeld};
ghost use Rattle.volume_state.specs.OplockOutcome.{GrantsOn, key_of_handle};
ghost use Rattle.volume_state.specs.Room.{KeepsEnds, stream_of_handle};
ghost use Rattle.volume_state.specs.VolumeView.{room_for};

use crate::volume::Volume;
use fsa_types::{BlockerList, Class, HandleSet, Level};
use oplock_state::{AskedOplock, Grant, OplockTable};
use volume_breaks::{
    EndTable, PendingCalls, Tree, end_switched, end_told, push_breaks, release_breaks,
};
use volume_rows::{find_target, in_both};
use volume_tables::HandleTable;

// A handle that is open on a stream, and its key.
#[derive(Clone, Copy)]
struct Opened {
    handle: u64,
    key: u64,
    stream: u64,
}

impl Volume {
    /// How many oplocks there are. Each `begin` tells at most so many calls, and waits for at most so
    /// many breaks; each `grant` ends at most so many calls.
    pub fn oplocks(&self) -> u32
        ensures count { result ≡ length self.now.content.oplocks }
        ensures switched { (handle key stream : ℕ) → length (switched self.now.content handle key stream) ≤ result }
        ensures told { (on : HandleSet) (class : Class) (handle : Option ℕ) (key : ℕ) → length (told self.now.content on class handle key) ≤ result }
        ensures awaited { (on : HandleSet) (class : Class) (handle : Option ℕ) (key : ℕ) → length (awaited self.now.content on class handle key) ≤ result }
    {
        self.oplocks.len()
    }

    /// Breaks the oplocks of the handles of the set, as a request of this class does: those of other
    /// keys than the acting handle's, which a Create doesn't have yet. Gives how many breaks the
    /// request has to wait for. Room has to be reserved for the ends of the calls that are told, and
    /// numbers for the breaks have to be left. Files, links, streams, handles and all else stay.
    pub fn begin(&mut self, handles: HandleSet, class: Class, handle: Option<u64>, key: u64) -> u32
        requires room { length (told self.old.content handles class handle key) ≤ self.old.spare.ends }
        requires numbers { self.old.content.last_break + length self.old.content.oplocks < 2 ^ 64 - 1 }
        ensures content { self.new.content ≡ with_breaks self.old.content handles class handle key }
        ensures rest { self.new.content ≡ record self.old.content { oplocks = self.new.content.oplocks; pending = self.new.content.pending; ended = self.new.content.ended; last_break = self.new.content.last_break } }
        ensures few { length self.new.content.oplocks ≤ length self.old.content.oplocks }
        ensures numbers_left { self.new.content.last_break ≤ self.old.content.last_break + length self.old.content.oplocks }
        ensures waited { self.new.beside ≡ record self.old.beside { waited = awaited self.old.content handles class handle key } }
        ensures others { self.new.spare ≡ record self.old.spare { ends = self.new.spare.ends } }
        ensures left { self.old.spare.ends ≤ self.new.spare.ends + length (told self.old.content handles class handle key) }
        ensures ends { KeepsEnds self.old self.new }
        ensures count { result ≡ length (awaited self.old.content handles class handle key) }
    {
        let tree = Tree {
            table: self.links.table(),
            links: &self.links,
            streams: &self.streams,
            handles: &self.handles,
        };
        self.oplocks.choose(&tree, handles, handle, key);
        break_chosen(
            &mut self.oplocks,
            &self.handles,
            &mut self.pending,
            &mut self.ended,
            class,
        );
        self.oplocks.await_breaks(class)
    }

    /// Grants an oplock of this level to a handle on its stream, unless it is refused; the call that is
    /// pending under this turn, or will be, is its own. Oplocks of handles of the same key on the stream
    /// end, and the calls that are pending as granted with them. The handle has to have a stream. Room has
    /// to be reserved for one oplock on it, and for the ends of these calls; what was reserved for oplocks on
    /// other streams stays.
    pub fn grant(&mut self, handle: u64, level: Level, turn: u64) -> Grant
        requires stream { IsSome (stream_of_handle self.old.content handle) }
        requires room { ForSome (stream_of_handle self.old.content handle) (λ stream. 1 ≤ room_for self.old.spare.oplocks stream) }
        requires ends { ForSome (stream_of_handle self.old.content handle) (λ stream. length (switched self.old.content handle (key_of_handle self.old.content handle) stream) ≤ self.old.spare.ends) }
        ensures grants { ForSome (stream_of_handle self.old.content handle) (λ stream. GrantsOn self.old.content handle (key_of_handle self.old.content handle) stream level turn self.new.content result) }
        ensures numbers { self.new.content.last_break ≡ self.old.content.last_break }
        ensures beside { self.new.beside ≡ self.old.beside }
        ensures others { self.new.spare ≡ record self.old.spare { oplocks = self.new.spare.oplocks; ends = self.new.spare.ends } }
        ensures left { ForSome (stream_of_handle self.old.content handle) (λ stream. room_for self.old.spare.oplocks stream ≤ room_for self.new.spare.oplocks stream + 1) }
        ensures kept { (stream other : ℕ) → stream_of_handle self.old.content handle ≡ Some stream → (other == stream) ≡ false → room_for self.old.spare.oplocks other ≤ room_for self.new.spare.oplocks other }
        ensures ends_left { ForSome (stream_of_handle self.old.content handle) (λ stream. self.old.spare.ends ≤ self.new.spare.ends + length (switched self.old.content handle (key_of_handle self.old.content handle) stream)) }
        ensures ends { KeepsEnds self.old self.new }
    {
        let Some(opened) = self.opened(handle) else {
            unreachable!()
        };
        self.grant_to(opened, level, turn)
    }

    // The handle with its key and its stream, where it has one.
    fn opened(&self, handle: u64) -> Option<Opened>
        ensures { result ≡ option_map (λ stream. record { handle = handle; key = key_of_handle self.now.content handle; stream = stream }) (stream_of_handle self.now.content handle) }
    {
        let row = self.handles.get(handle)?;
        let stream = row.stream?;
        Some(Opened {
            handle,
            key: row.key,
            stream,
        })
    }

    // What is asked for, with what else there is on the stream.
    fn asked(&self, opened: Opened, level: Level, turn: u64) -> AskedOplock
        ensures { result ≡ record { handle = opened.handle; key = opened.key; level = level; turn = turn; others = is_open_by_others self.now.content opened.handle opened.key opened.stream; locked = is_locked self.now.content opened.stream } }
    {
        let Opened {
            handle,
            key,
            stream,
        } = opened;
        let others = self.handles.is_open_by_others(handle, key, stream);
        let locked = self.handles.locks_of(stream).len() != 0;
        AskedOplock {
            handle,
            key,
            level,
            turn,
            others,
            locked,
        }
    }

    // Grants an oplock to a handle on its stream, unless it is refused.
    fn grant_to(&mut self, opened: Opened, level: Level, turn: u64) -> Grant
        requires stream { stream_of_handle self.old.content opened.handle ≡ Some opened.stream }
        requires key { opened.key ≡ key_of_handle self.old.content opened.handle }
        requires room { 1 ≤ room_for self.old.spare.oplocks opened.stream }
        requires ends { length (switched self.old.content opened.handle opened.key opened.stream) ≤ self.old.spare.ends }
        ensures grants { GrantsOn self.old.content opened.handle opened.key opened.stream level turn self.new.content result }
        ensures numbers { self.new.content.last_break ≡ self.old.content.last_break }
        ensures beside { self.new.beside ≡ self.old.beside }
        ensures others { self.new.spare ≡ record self.old.spare { oplocks = self.new.spare.oplocks; ends = self.new.spare.ends } }
        ensures left { room_for self.old.spare.oplocks opened.stream ≤ room_for self.new.spare.oplocks opened.stream + 1 }
        ensures kept { (other : ℕ) → (other == opened.stream) ≡ false → room_for self.new.spare.oplocks other ≡ room_for self.old.spare.oplocks other }
        ensures ends_left { self.old.spare.ends ≤ self.new.spare.ends + length (switched self.old.content opened.handle opened.key opened.stream) }
        ensures ends { KeepsEnds self.old self.new }
    {
        let asked = self.asked(opened, level, turn);
        let tree = Tree {
            table: self.links.table(),
            links: &self.links,
            streams: &self.streams,
            handles: &self.handles,
        };
        match self.oplocks.grant(&tree, opened.stream, &asked) {
            Grant::Refused => Grant::Refused,
            Grant::Granted => {
                end_switched(&mut self.pending, &mut self.ended, self.oplocks.chosen());
                Grant::Granted
            }
        }
    }

    /// Answers the break in progress on a handle: what is in this level and in the break's target stays,
    /// and is given; the call that is pending under this turn, or will be, is its own then. Where
    /// nothing stays the oplock ends. `None` exactly where no break of it is in progress, and then nothing
    /// changes. No call waits for the break any more.
    pub fn answer_break(&mut self, handle: u64, level: Level, turn: u64) -> Option<Level>
        ensures kept { result ≡ option_map (λ target. in_both level target) (target_of self.old.content handle) }
        ensures content { self.new.content ≡ option_map_or (λ kept. with_answer self.old.content handle kept turn) result self.old.content }
        ensures beside { self.new.beside ≡ self.old.beside }
        ensures room { self.new.spare ≡ self.old.spare }
    {
        let target = find_target(self.oplocks.as_slice(), handle)?;
        let kept = in_both(level, target);
        release_breaks(&mut self.pending, self.oplocks.as_slice(), handle);
        answer(&mut self.oplocks, &self.handles, handle, level, turn, kept);
        Some(kept)
    }

    /// Takes the oplock of a handle out, with its break; where there is none nothing changes. No call waits
    /// for the break any more. The call that is pending as granted stays pending.
    pub fn drop_oplock(&mut self, handle: u64)
        ensures content { self.new.content ≡ without_oplock self.old.content handle }
        ensures beside { self.new.beside ≡ self.old.beside }
        ensures room { self.new.spare ≡ self.old.spare }
    {
        release_breaks(&mut self.pending, self.oplocks.as_slice(), handle);
        self.oplocks.drop_of(&self.handles, handle);
    }

    /// Takes the oplock out that is granted to the call that is pending under this turn, where there is one.
    pub fn give_up(&mut self, turn: u64)
        ensures content { self.new.content ≡ with_oplock_given_up self.old.content turn }
        ensures beside { self.new.beside ≡ self.old.beside }
        ensures room { self.new.spare ≡ self.old.spare }
    {
        self.oplocks.give_up(&self.handles, turn);
    }

    /// Puts the breaks that the last `begin` waits for into an empty list, in order. The list has to
    /// have room for them.
    pub fn waited(&self, into: &mut BlockerList)
        requires empty { into.old.items ≡ [] }
        requires room { length self.now.beside.waited ≤ into.old.room }
        ensures { into.new ≡ record into.old { items = map (λ number. Break number) self.now.beside.waited } }
    {
        push_breaks(self.oplocks.waited(), into);
    }
}

// Breaks the oplocks that were chosen, one after the other, as a request of this class does; the calls of those who
// are told end.
fn break_chosen(
    oplocks: &mut OplockTable,
    handles: &HandleTable,
    pending: &mut PendingCalls,
    ended: &mut EndTable,
    class: Class,
)
    requires room { length (told_among class oplocks.old.chosen) ≤ ended.old.room }
    requires numbers { oplocks.old.last + length oplocks.old.chosen < 2 ^ 64 }
    requires sound { All IsSoundOplock oplocks.old.chosen }
    requires copies { All (IsCopy oplocks.old.rows) oplocks.old.chosen }
    requires there { AreThere oplocks.old.rows oplocks.old.chosen }
    requires fit { HomesFit handles.now.rows }
    requires sorted { AreSorted handles.now.rows oplocks.old.rows oplocks.old.tables }
    ensures done { (v : OfVolume) → with_held v oplocks.new.rows oplocks.new.last pending.new.items ended.new.items ≡ fold (λ w oplock. with_effect w oplock (effect_on class oplock)) (with_held v oplocks.old.rows oplocks.old.last pending.old.items ended.old.items) oplocks.old.chosen }
    ensures others { oplocks.new ≡ record oplocks.old { rows = oplocks.new.rows; last = oplocks.new.last; told = oplocks.new.told; tables = oplocks.new.tables } }
    ensures sorted { AreSorted handles.now.rows oplocks.new.rows oplocks.new.tables }
    ensures held { StayHeld pending.old pending.new }
    ensures room { (pending.new.room ≡ pending.old.room) × (pending.new.blockers ≡ pending.old.blockers) }
    ensures left { ended.old.room ≤ ended.new.room + length (told_among class oplocks.old.chosen) }
    ensures ends { HoldsAsMany ended.old ended.new }
{
    oplocks.begin(handles, class);
    end_told(pending, ended, oplocks.told());
}

// Answers a break that is in progress on a handle, of which this stays.
fn answer(
    oplocks: &mut OplockTable,
    handles: &HandleTable,
    handle: u64,
    level: Level,
    turn: u64,
    kept: Level,
)
    requires kept { Some kept ≡ option_map (λ target. in_both level target) (target_among handle oplocks.old.rows) }
    requires fit { HomesFit handles.now.rows }
    requires sorted { AreSorted handles.now.rows oplocks.old.rows oplocks.old.tables }
    ensures rows { oplocks.new ≡ record oplocks.old { rows = after_answer handle kept turn oplocks.old.rows; tables = oplocks.new.tables } }
    ensures sorted { AreSorted handles.now.rows oplocks.new.rows oplocks.new.tables }
{
    oplocks.answer(handles, handle, level, turn);
}
