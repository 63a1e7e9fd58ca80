//! The lock, and the calls that take a turn, look at the history or count its entries.
ghost use Rattle.std.specs.Prelude.{◌≡◌, ◌<◌, ◌≤◌, length, IfOk, IfErr};

use crate::answers::{Looked, TurnAnswer};
use crate::machine::Machine;
use crate::moves::{COUNT, TURN, commit, load, release, take};
use crate::pass::Pass;
use crate::rule::{About, Turns};
use crate::view::View;
use atomic_table::Table;
use fsa_types::NoMemory;
use std::alloc::Global;
use std::sync::Wait;
use std::sync::atomic::{AtomicU64, Ordering};

/// A machine of which many threads make turns, one at a time. Threads share it by reference.
///
/// Clauses read of it the machine's base, `base_of`, and the number of its clients, `clients_of`.
#[derive(Drop)]
pub struct TurnLock<M: Machine> {
    /// The turn word, the count of entries and the slot of the machine.
    pub(crate) table: Table<
        Option<M>,
        View<M::Base, M::Entry, M::Call>,
        About<M>,
        Turns<M>,
        Global,
    >,
    ghost sized: { (table.shared.table_id.words ≡ 2) × (table.shared.table_id.slots ≡ 1) × (1 ≤ table.shared.key.clients) },
    // How many callers sleep on one of the words, are about to, or have just woken: where none does, none has to be
    // woken.
    pub(crate) sleepers: AtomicU64,
}

impl<M: Machine> TurnLock<M> {
    ghost use Rattle.history_lock.specs.Answers.{IfDid, IfBusy, IfRefused, IfSaw, OnUnseen, OnNoMemory};
    ghost use Rattle.history_lock.specs.Turns.{beaten};
    ghost use Rattle.history_lock.specs.Lock.{base_of, clients_of, known, IsPassOf};
    ghost use Rattle.history_lock.specs.Passes.{Makes, Refreshed, OnlyLoaded, Waited};

    /// Makes one turn with the call, unless another pass holds the turn. It never waits.
    ///
    /// The call has to be one of the pass's client, which the machine allows after the calls that the
    /// pass has made. `Busy` comes exactly where the pass's count of lost exchanges
    /// rose: nothing else changes, and no memory is taken. `Refused` is the machine's own
    /// refusal, on the history that the pass has then seen; nothing was added to it.
    pub fn try_turn(
        &self,
        alloc: Global,
        pass: &mut Pass<M>,
        call: M::Call,
    ) -> TurnAnswer<M::Out, M::Call, M::Why>
        requires pass { IsPassOf M.base M.stands self.now pass.old }
        requires client { M.client_of call ≡ (known pass.old).own.client }
        requires may { M.may_turn (base_of M.base self.now) (known pass.old).own.mine call }

        ensures pass { IsPassOf M.base M.stands self.now pass.new }
        ensures did { IfDid result (λ out. Makes M.call_of call (known pass.old) (known pass.new) × M.out_is (base_of M.base self.now) (known pass.new).own.seen out) }
        ensures busy { IfBusy result (λ back. (back ≡ call) × (known pass.new ≡ beaten (known pass.old)) × (1 < clients_of self.now)) }
        ensures refused { IfRefused result (λ back why. (back ≡ call) × Refreshed (known pass.old) (known pass.new) × M.why_of (base_of M.base self.now) (known pass.new).own.seen why) }
    {
        let top = &self.table.shared;
        let Some(mut machine) = take(top, &mut pass.seat, pass.client) else {
            return TurnAnswer::Busy(call);
        };
        match machine.turn(alloc, call) {
            Ok(out) => {
                commit(top, &mut pass.seat, machine);
                self.wake_next();
                self.wake_readers();
                pass.made += 1;
                TurnAnswer::Did(out)
            }
            Err((back, why)) => {
                load(top, &mut pass.seat);
                release(top, &mut pass.seat, machine);
                self.wake_next();
                TurnAnswer::Refused(back, why)
            }
        }
    }

    /// Makes one turn with the call, as `try_turn` does. While another pass holds the turn it sleeps,
    /// and tries again: it may wait forever, and no clause says that its turn comes.
    pub fn turn(
        &self,
        rt: &impl Wait,
        alloc: Global,
        pass: &mut Pass<M>,
        call: M::Call,
    ) -> Result<M::Out, (M::Call, M::Why)>
        requires pass { IsPassOf M.base M.stands self.now pass.old }
        requires client { M.client_of call ≡ (known pass.old).own.client }
        requires may { M.may_turn (base_of M.base self.now) (known pass.old).own.mine call }

        ensures pass { IsPassOf M.base M.stands self.now pass.new }
        ensures did { IfOk result (λ out. Waited (known pass.old) (known pass.new) (λ v w. Makes M.call_of call v w × M.out_is (base_of M.base self.now) w.own.seen out)) }
        ensures refused { IfErr result (λ back. (back.0 ≡ call) × Waited (known pass.old) (known pass.new) (λ v w. Refreshed v w × M.why_of (base_of M.base self.now) w.own.seen back.1)) }
    {
        let mut call = call;
        for _ in rt.forever() {
            match self.try_turn(alloc, pass, call) {
                TurnAnswer::Did(out) => return Ok(out),
                TurnAnswer::Refused(back, why) => return Err((back, why)),
                TurnAnswer::Busy(back) => call = back,
            }
            self.wait_for_turn(rt);
        }
        unreachable!()
    }

    /// Sleeps while the turn is held, for a caller that was answered `Busy`. It may return before the turn
    /// is free, and the turn may be taken again before the caller tries.
    pub fn wait_for_turn(&self, rt: &impl Wait) {
        let holder = self.table.shared.peek(TURN);
        if holder != 0 {
            self.sleep(rt, TURN, holder);
        }
    }

    // Sleeps, if the low 32 bits of this word are those of the value, until a wake. It may return for no reason. A sleeper
    // is counted before the word is looked at here, and whoever writes the word does so before it looks at the count: so
    // either that one finds the sleeper counted, or the sleeper looks at the word after that write. If it sleeps then,
    // what it waits for comes with a later write, and that writer finds it counted.
    fn sleep(&self, rt: &impl Wait, word: usize, value: u64)
        requires { word < 2 }
    {
        self.sleepers.fetch_add(1, Ordering::SeqCst);
        self.table.shared.park(rt, word, (value % (1 << 32)) as u32);
        self.sleepers.fetch_sub(1, Ordering::SeqCst);
    }

    // Wakes one of those that sleep until the turn is free.
    fn wake_next(&self) {
        if self.sleepers.load(Ordering::SeqCst) != 0 {
            self.table.shared.wake_one(TURN);
        }
    }

    // Wakes all that sleep until the history has more entries.
    fn wake_readers(&self) {
        if self.sleepers.load(Ordering::SeqCst) != 0 {
            self.table.shared.wake_all(COUNT);
        }
    }

    /// Asks the machine what the history shows, unless another pass holds the turn. It never waits, and
    /// adds nothing to the history.
    ///
    /// What is asked has to be allowed of what the pass has seen. `Saw` and `NoMemory` speak of the
    /// history as it was when the pass loaded its length, which the pass has then seen. `NoMemory` comes
    /// only where the look is a costly one, and `Busy` as in `try_turn`.
    pub fn try_look(&self, alloc: Global, pass: &mut Pass<M>, ask: &M::Ask) -> Looked<M::Seen>
        requires pass { IsPassOf M.base M.stands self.now pass.old }
        requires may { M.may_look (known pass.old).own.seen ask.now }

        ensures pass { IsPassOf M.base M.stands self.now pass.new }
        ensures saw { IfSaw result (λ shown. Refreshed (known pass.old) (known pass.new) × M.seen_is (base_of M.base self.now) (known pass.new).own.seen ask.now shown) }
        ensures busy { OnUnseen result ((known pass.new ≡ beaten (known pass.old)) × (1 < clients_of self.now)) }
        ensures no_memory { OnNoMemory result (Refreshed (known pass.old) (known pass.new) × M.costly (base_of M.base self.now) (known pass.new).own.seen ask.now) }
    {
        let top = &self.table.shared;
        let Some(machine) = take(top, &mut pass.seat, pass.client) else {
            return Looked::Busy;
        };
        load(top, &mut pass.seat);
        let answer = machine.look(alloc, ask);
        release(top, &mut pass.seat, machine);
        self.wake_next();
        match answer {
            Ok(shown) => Looked::Saw(shown),
            Err(NoMemory) => Looked::NoMemory,
        }
    }

    /// The number of entries of the history, which the pass has then seen. It never waits, not even
    /// while another pass holds the turn, and takes no memory.
    pub fn front(&self, pass: &mut Pass<M>) -> u64
        requires pass { IsPassOf M.base M.stands self.now pass.old }

        ensures pass { IsPassOf M.base M.stands self.now pass.new }
        ensures refreshed { Refreshed (known pass.old) (known pass.new) }
        ensures length { result ≡ length (known pass.new).own.seen }
    {
        load(&self.table.shared, &mut pass.seat)
    }

    /// Waits until the history has more entries than this, and answers how many it has; the pass has then
    /// seen them. It sleeps on the count of entries, which each turn that adds one raises and wakes, and
    /// takes neither the turn nor memory. It may wait forever.
    pub fn wait_for_more(&self, rt: &impl Wait, pass: &mut Pass<M>, entries: u64) -> u64
        requires pass { IsPassOf M.base M.stands self.now pass.old }

        ensures pass { IsPassOf M.base M.stands self.now pass.new }
        ensures loaded { OnlyLoaded (known pass.old) (known pass.new) × ((known pass.old).loads < (known pass.new).loads) }
        ensures more { (entries < result) × (result ≡ length (known pass.new).own.seen) }
    {
        for _ in rt.forever() {
            let count = self.front(pass);
            if entries < count {
                return count;
            }
            self.sleep(rt, COUNT, count);
        }
        unreachable!()
    }
}
