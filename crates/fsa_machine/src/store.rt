//! What a turn asks of the volume.

ghost use Rattle.std.specs.Prelude.{◌≡◌, ◌≤◌, ◌+◌, ℕ, [], true, find, length, map, slice_get, is_some, option_map, IfOk, IfSome, OnErr, OnOk};
ghost use Rattle.std.specs.Option.{option_copied};
ghost use Rattle.fsa_types.specs.Rows.{row_of};
ghost use Rattle.fsa_model.specs.Edits.{with_blockers, with_end, with_pending};
ghost use Rattle.fsa_model.specs.Once.{is_end};
ghost use Rattle.fsa_model.specs.Try.{try};
ghost use Rattle.fsa_model.specs.Volume.{Volume};
ghost use Rattle.fsa_model.specs.Waiting.{all_wait, next_ready, waits, waits_in_order};
ghost use Rattle.fsa_model.specs.Watching.{due_size, is_something_due, report, with_watch_seen};
ghost use Rattle.fsa_machine.specs.Serves.{HoldsRightly, MayHoldAnew, MayPend, MayTry, Serves};
ghost use Rattle.fsa_machine.specs.Spare.{is_ack_or_cancel};
ghost use Rattle.volume_state.specs.Waits.{id_of};
ghost use Rattle.fsa_machine.specs.Step.{ready_of};
ghost use Rattle.fsa_machine.specs.Tried.{HasPendRoom};
ghost use Rattle.fsa_machine.specs.Trimmed.{trimmed_base};
ghost use Rattle.volume_state.specs.Tried.{Gives, HasAnswer};

use fsa_types::{BlockerList, Call, CallIdList, EndOf, NoMemory, Reply};
use std::alloc::Global;
use volume_state::Tried;

/// What is reported to a Notify.
#[derive(Clone, Copy)]
pub struct Report {
    /// The handle whose watch reports, by its number in the volume.
    pub handle: u64,
    /// The most bytes that the Notify takes.
    pub room: u32,
}

/// A pending call that is ready to be taken up.
#[derive(Clone, Copy)]
pub struct Ready {
    /// The turn under which it is pending.
    pub turn: u64,
    /// Its client.
    pub client: u32,
    /// Its number.
    pub number: u32,
    /// Whether it was held; else it is a Notify, or waits for a call.
    pub held: bool,
    /// What is reported to it, where it is a Notify.
    pub report: Option<Report>,
}

/// A volume, as a turn sees it.
pub trait Store {
    // What it holds.
    ghost content: { Self → Volume };

    // The place, among all changes that were noted, of the first that is kept.
    ghost log_base: { Self → ℕ };

    // How many more ends, pending calls and blockers can be put in without taking memory.
    ghost spare_ends: { Self → ℕ };

    ghost spare_pending: { Self → ℕ };

    ghost spare_blockers: { Self → ℕ };

    /// How many calls are pending.
    fn pending_calls(&self) -> usize
        ensures { result ≡ length (content self.now).pending };

    /// How many calls have ended.
    fn ends(&self) -> usize
        ensures { result ≡ length (content self.now).ended };

    /// The end at this place.
    fn end_at(&self, i: usize) -> Option<&EndOf>
        ensures { option_copied result ≡ slice_get (content self.now).ended i };

    /// How the client's call of this number ended; `None` exactly where it hasn't.
    fn end_of(&self, client: u32, number: u32) -> Option<&EndOf>
        ensures { option_copied result ≡ find (is_end client number) (content self.now).ended };

    /// Takes room for so many more ends and pending calls. No room that is there is given up.
    fn reserve(&mut self, ends: usize, pending: usize) -> Result<(), NoMemory>
        ensures content { content self.new ≡ content self.old }
        ensures base { log_base self.new ≡ log_base self.old }
        ensures ends { OnOk result (ends ≤ spare_ends self.new) }
        ensures pending { OnOk result (pending ≤ spare_pending self.new) }
        ensures ends_kept { spare_ends self.old ≤ spare_ends self.new }
        ensures pending_kept { spare_pending self.old ≤ spare_pending self.new };

    /// One try of a call in this turn, or under it, with room for one end at least. Where the call stays or is
    /// held there is room to make it pending. Of the room for ends it uses no more than one for each call that
    /// ends, and none of that for pending calls. `NoMemory` changes nothing, and doesn't come to an Ack or a
    /// Cancel where there is room for one pending call.
    fn try_call(&mut self, alloc: Global, call: &Call, turn: u64) -> Tried
        requires may { MayTry (content self.old) call.now }
        requires end_room { 1 ≤ spare_ends self.old }
        ensures gives { Gives (try (content self.old) call.now turn) (content self.old) (content self.new) result }
        ensures room { HasPendRoom result (spare_pending self.new) (spare_blockers self.new) }
        ensures ends { spare_ends self.old + length (content self.old).ended ≤ spare_ends self.new + length (content self.new).ended }
        ensures pending { spare_pending self.old ≤ spare_pending self.new }
        ensures memory { is_ack_or_cancel call.now.what ≡ true → 1 ≤ spare_pending self.old → HasAnswer result };

    /// The call has ended with this reply.
    fn end(&mut self, client: u32, number: u32, reply: Reply)
        requires room { 1 ≤ spare_ends self.old }
        ensures content { content self.new ≡ with_end (content self.old) client number reply }
        ensures left { spare_ends self.old ≤ spare_ends self.new + 1 }
        ensures pending { spare_pending self.old ≤ spare_pending self.new };

    /// The call is pending under this turn, with these blockers.
    fn pend(&mut self, turn: u64, call: Call, blockers: BlockerList)
        requires may { MayPend (content self.old) turn call blockers.items }
        requires room { 1 ≤ spare_pending self.old }
        requires blockers { length blockers.items ≤ spare_blockers self.old }
        ensures content { content self.new ≡ with_pending (content self.old) turn call blockers.items }
        ensures ends { spare_ends self.old ≤ spare_ends self.new }
        ensures pending { spare_pending self.old ≤ spare_pending self.new + 1 };

    /// The call that is pending under this turn, and held, waits for these blockers instead.
    fn hold_anew(&mut self, turn: u64, blockers: BlockerList)
        requires may { MayHoldAnew (content self.old) turn blockers.items }
        requires blockers { length blockers.items ≤ spare_blockers self.old }
        ensures content { content self.new ≡ with_blockers (content self.old) turn blockers.items }
        ensures ends { spare_ends self.old ≤ spare_ends self.new }
        ensures pending { spare_pending self.old ≤ spare_pending self.new };

    /// The ready call of the least turn. No call may be held but what breaks and locks can hold.
    fn next_ready(&self) -> Option<Ready>
        requires serves { Serves (content self.now) }
        requires rightly { HoldsRightly (content self.now) }
        ensures { result ≡ option_map (ready_of (content self.now)) (next_ready (content self.now)) };

    /// How many bytes a report of what is due to a handle takes; `None` exactly where nothing is due. It takes
    /// no memory.
    fn due_size(&self, handle: u64) -> Option<u64>
        ensures some { is_some result ≡ is_something_due (content self.now) handle }
        ensures size { IfSome result (λ size. size ≡ due_size (content self.now) handle) };

    /// The watch of a handle reports what is due to it, in at most `room` bytes, and is due from now on.
    /// `NoMemory` changes nothing, and comes only where the report would have bytes.
    fn report(&mut self, alloc: Global, handle: u64, room: u32) -> Result<Reply, NoMemory>
        ensures reply { IfOk result (λ reply. reply ≡ report (content self.old) handle room) }
        ensures seen { OnOk result (content self.new ≡ with_watch_seen (content self.old) handle) }
        ensures unchanged { OnErr result (content self.new ≡ content self.old) }
        ensures within { OnErr result (due_size (content self.old) handle ≤ room) }
        ensures ends { spare_ends self.old ≤ spare_ends self.new }
        ensures pending { spare_pending self.old ≤ spare_pending self.new };

    /// Keeps of the changes that were noted those that a watch may still be told. It takes no memory, and leaves the
    /// room as it was or larger.
    fn trim(&mut self)
        ensures content { content self.new ≡ content self.old }
        ensures trimmed { log_base self.new ≡ trimmed_base (content self.new) }
        ensures ends { spare_ends self.old ≤ spare_ends self.new }
        ensures pending { spare_pending self.old ≤ spare_pending self.new };

    /// The call that is pending under this turn.
    fn pending(&self, turn: u64) -> Option<&Call>
        ensures { option_copied result ≡ option_map (λ row. row.call) (row_of (content self.now).pending turn) };

    /// Whether the client waits for one of its calls.
    fn waits(&self, client: u32) -> bool
        ensures { result ≡ waits (content self.now) client };

    /// Whether some client hasn't left, and all of those wait.
    fn all_wait(&self) -> bool
        ensures { result ≡ all_wait (content self.now) };

    /// The waits, in order of clients and then of numbers, into an empty list with room for as many calls
    /// as are pending.
    fn list_waits(&self, list: &mut CallIdList)
        requires none { list.old.items ≡ [] }
        requires room { length (content self.now).pending ≤ list.old.room }
        ensures items { list.new.items ≡ map id_of (waits_in_order (content self.now)) }
        ensures room { list.new.room ≡ list.old.room };
}
