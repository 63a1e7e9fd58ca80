//! Pending calls.

ghost use Rattle.std.specs.Prelude.{ℕ, ◌≡◌, ◌≤◌, ◌<◌, ◌+◌, ◌^◌, ◌==◌, ◌&&◌, All, IsTrue, IsSome, IfSome, IfNone, true, false, find, length, nat_lt, option_map, slice_get};
ghost use Rattle.std.specs.List.{list_any};
ghost use Rattle.std.specs.Option.{option_copied, ForSome};
ghost use Rattle.fsa_types.specs.Rows.{lives, row_of};
ghost use Rattle.fsa_types.specs.Pending.{is_held, next_let_go};
ghost use Rattle.fsa_model.specs.Edits.{is_call, with_blockers, with_end, with_pending};
ghost use Rattle.fsa_model.specs.Lookups.{has_row, next_pending, number_of};
ghost use Rattle.fsa_model.specs.Once.{is_end};
ghost use Rattle.fsa_model.specs.Sound.{ArePending};
ghost use Rattle.fsa_model.specs.Waiting.{blocker_lives};
ghost use Rattle.volume_breaks.specs.CallIndex.{is_naming};
ghost use Rattle.volume_state.specs.Room.{KeepsEnds};

use crate::volume::Volume;
use crate::watches::ask_by;
use fsa_types::{BlockerList, Call, EndOf, Reply};
use volume_breaks::end_call;

impl Volume {
    /// The call that is pending under this turn; `None` exactly where there is none.
    pub fn pending(&self, turn: u64) -> Option<&Call>
        ensures row { option_copied result ≡ option_map (λ row. row.call) (row_of self.now.content.pending turn) }
        ensures lives { lives self.now.content.pending turn ≡ true → IsSome result }
        ensures client { IfSome result (λ call. call.now.client < length self.now.content.clients) }
    {
        self.pending.call_of(turn)
    }

    /// How many calls are pending.
    pub fn pending_calls(&self) -> usize
        ensures { result ≡ length self.now.content.pending }
    {
        self.pending.as_slice().len()
    }

    /// How many more calls can be made pending without taking memory.
    pub fn pending_room(&self) -> usize
        ensures { result ≡ self.now.spare.pending }
    {
        self.pending.room()
    }

    /// The least turn above `after` under which a call is pending; `None` exactly where there is none.
    pub fn next_pending(&self, after: u64) -> Option<u64>
        ensures found { result ≡ next_pending self.now.content after }
        ensures lives { IfSome result (λ turn. IsTrue (lives self.now.content.pending turn)) }
        ensures after { IfSome result (λ turn. after < turn) }
        ensures none { IfNone result (list_any (λ entry. nat_lt after entry.0) self.now.content.pending ≡ false) }

        // The turns of pending calls differ, and a client and a number name one of them.
        ensures sound { ArePending self.now.content.clients self.now.content.pending }
    {
        self.pending.next_turn(after)
    }

    /// The least turn under which a call of this client is pending that names this handle; `None` exactly where
    /// there is none. As long as calls came in the order of their turns no others are looked at.
    pub fn first_pending_on(&self, client: u32, handle: u32) -> Option<u64>
        ensures there { IfSome result (λ turn. IsTrue (list_any (λ entry. entry.0 == turn && is_naming client handle entry.1) self.now.content.pending)) }
        ensures least { IfSome result (λ turn. list_any (λ entry. is_naming client handle entry.1 && nat_lt entry.0 turn) self.now.content.pending ≡ false) }
        ensures none { IfNone result (has_row (is_naming client handle) self.now.content.pending ≡ false) }

        // The turns of pending calls differ, and a client and a number name one of them.
        ensures sound { ArePending self.now.content.clients self.now.content.pending }
    {
        self.pending.first_naming(client, handle)
    }

    /// The turn under which this call of this client is pending; `None` exactly where it isn't.
    pub fn pending_turn(&self, client: u32, number: u32) -> Option<u64>
        ensures { result ≡ number_of (is_call client number) self.now.content.pending }
    {
        self.pending.turn_of(client, number)
    }

    /// The least turn of a held call none of whose blockers is still there; `None` exactly where there is
    /// none.
    pub fn next_held(&self) -> Option<u64>
        ensures { result ≡ option_map (λ entry. entry.0) (next_let_go (blocker_lives self.now.content) self.now.content.pending) }
    {
        self.pending.next_held()
    }

    /// A call is pending under this turn, and held by these blockers where there are any, each of which
    /// has to be there. No call may be pending under the turn, or with this client and number.
    pub fn pend(&mut self, turn: u64, call: Call, blockers: BlockerList)
        requires room { 1 ≤ self.old.spare.pending }
        requires places { length blockers.items ≤ self.old.spare.blockers }
        requires living { All (λ blocker. IsTrue (blocker_lives self.old.content blocker)) blockers.items }
        requires new_turn { lives self.old.content.pending turn ≡ false }
        requires new_call { has_row (is_call call.client call.number) self.old.content.pending ≡ false }
        requires client { call.client < length self.old.content.clients }
        ensures content { self.new.content ≡ with_pending self.old.content turn call blockers.items }
        ensures beside { self.new.beside ≡ self.old.beside }
        ensures others { self.new.spare ≡ record self.old.spare { pending = self.new.spare.pending; blockers = self.new.spare.blockers } }
        ensures left { self.old.spare.pending ≤ self.new.spare.pending + 1 }
        ensures places_left { self.old.spare.blockers ≤ self.new.spare.blockers + length blockers.items }
    {
        ask_by(&mut self.watches, call.client, &call.what);
        self.pending.pend(turn, call, blockers);
    }

    /// The call that is held under this turn is held by these blockers instead. There has to be one of
    /// them at least, and each of them has to be there.
    pub fn hold_anew(&mut self, turn: u64, blockers: BlockerList)
        requires places { length blockers.items ≤ self.old.spare.blockers }
        requires some { (length blockers.items == 0) ≡ false }
        requires living { All (λ blocker. IsTrue (blocker_lives self.old.content blocker)) blockers.items }
        requires there { lives self.old.content.pending turn ≡ true }
        requires held { ForSome (row_of self.old.content.pending turn) (λ row. IsTrue (is_held row)) }
        ensures content { self.new.content ≡ with_blockers self.old.content turn blockers.items }
        ensures beside { self.new.beside ≡ self.old.beside }
        ensures others { self.new.spare ≡ record self.old.spare { blockers = self.new.spare.blockers } }
        ensures places_left { self.old.spare.blockers ≤ self.new.spare.blockers + length blockers.items }
    {
        self.pending.hold_anew(turn, blockers);
    }

    /// How the call ended that is at this place in the order of ends, counted from 0; `None` exactly
    /// past the last one.
    pub fn ended(&self, place: u64) -> Option<&EndOf>
        ensures { option_copied result ≡ slice_get self.now.content.ended place }
    {
        self.ended.as_slice().get(place as usize)
    }

    /// How the client's call of this number ended; `None` exactly where it hasn't. It is found without a look at
    /// most of the others.
    pub fn end_of(&self, client: u32, number: u32) -> Option<&EndOf>
        ensures { option_copied result ≡ find (is_end client number) self.now.content.ended }
    {
        self.ended.first_of(client, number)
    }

    /// A call has ended with this reply; where it was pending it is so no more.
    pub fn end(&mut self, client: u32, number: u32, reply: Reply)
        requires room { 1 ≤ self.old.spare.ends }
        ensures content { self.new.content ≡ with_end self.old.content client number reply }
        ensures beside { self.new.beside ≡ self.old.beside }
        ensures others { self.new.spare ≡ record self.old.spare { ends = self.new.spare.ends; pending = self.new.spare.pending; blockers = self.new.spare.blockers } }
        ensures left { self.old.spare.ends ≤ self.new.spare.ends + 1 }
        ensures ends { KeepsEnds self.old self.new }
        ensures pending_kept { self.old.spare.pending ≤ self.new.spare.pending }
        ensures blockers_kept { self.old.spare.blockers ≤ self.new.spare.blockers }
    {
        end_call(&mut self.pending, &mut self.ended, client, number, reply);
    }
}
