//! A machine: a store that stands for a setup and a history.

ghost use Rattle.std.specs.Prelude.{◌≡◌, ◌≤◌, ◌<◌, ◌+◌, ◌==◌, ◌++◌, ◌∷◌, [], true, not, is_some, IsSome, length, map, slice_get, Some, IfOk, IfErr, OnOk, OnErr};
ghost use Rattle.std.specs.List.{list_any};
ghost use Rattle.std.specs.Vec.{vec_capacity, vec_len};
ghost use Rattle.fsa_model.specs.Bounds.{most_entries};
ghost use Rattle.fsa_model.specs.Coherence.{CachingIsCoherent};
ghost use Rattle.fsa_model.specs.Engine.{EndsOnce, NoneReady, TakesReleased, is_entry_of};
ghost use Rattle.fsa_model.specs.History.{GaveOut, Run, run};
ghost use Rattle.fsa_model.specs.LineCalls.{IsLineCall};
ghost use Rattle.fsa_model.specs.Outcome.{out_of};
ghost use Rattle.fsa_model.specs.Schedule.{calls_of};
ghost use Rattle.fsa_model.specs.Volume.{fresh};
ghost use Rattle.fsa_model.specs.Waiting.{is_pending, waits};
ghost use Rattle.fsa_model.specs.Watched.{WatchesReport};
ghost use Rattle.fsa_machine.specs.Kept.{kept_entry, out_kept};
ghost use Rattle.fsa_machine.specs.Released.{how_many_released};
ghost use Rattle.fsa_machine.specs.Spare.{AreSpare, is_ack_or_cancel};
ghost use Rattle.fsa_machine.specs.Trimmed.{trimmed_base};
ghost use Rattle.fsa_machine.specs.MachineView.{RunsTo, calls_of_entries, is_full, setup_in};
ghost use Rattle.fsa_model.specs.Ended.{ended_with_list, reply_in};

use crate::keeping::reserve_turns;
use crate::kept::KeptTurn;
use crate::look::reply_from;
use crate::spare::SpareRooms;
use crate::steps::Steps;
use crate::store::Store;
use crate::trimming::keep_trimmed;
use fsa_types::{Call, NoMemory, Out, Reply, Why};
use std::alloc::Global;
use std::marker::{Brand, Model};
use std::sync::ledger::{Blank, Ledger};

/// The most entries of a history.
pub const MOST_ENTRIES: usize = 1_000_000;

/// A store that stands for a setup and a history, which it keeps.
pub struct StoreMachine<S: Store> {
    kept: Vec<KeptTurn>,
    spare: SpareRooms,
    store: S,
}

// One drop of the whole, so that it is one step at each end of a function that holds one.
impl<S: Store + Drop> Drop for StoreMachine<S> {
    fn drop(self) {
        let StoreMachine {
            kept: _,
            spare: _,
            store: _,
        } = self;
    }
}

impl<S: Store> Model for StoreMachine<S> {
    ghost use Rattle.std.specs.Prelude.{◌≡◌, map};
    ghost use Rattle.fsa_machine.specs.Kept.{kept_entry, out_kept};
    ghost use Rattle.std.specs.Vec.{vec_capacity, vec_len};
    ghost use Rattle.fsa_machine.specs.Spare.{AreSpare};
    ghost use Rattle.fsa_machine.specs.Trimmed.{trimmed_base};
    ghost use Rattle.fsa_machine.specs.MachineView.{MachineView, RunsTo, setup_in};

    ghost Value = { MachineView };

    ghost view = { λ m. record { setup = setup_in (S.content m.store); entries = map kept_entry m.kept.items; spare_turns = m.spare.turns; log_base = S.log_base m.store } };

    ghost invariant = { λ m. RunsTo (setup_in (S.content m.store)) (map kept_entry m.kept.items) (map out_kept m.kept.items) (S.content m.store)
        × AreSpare (S.content m.store) (S.spare_ends m.store) (S.spare_pending m.store) (vec_len m.kept) (vec_capacity m.kept) m.spare
        × (S.log_base m.store ≡ trimmed_base (S.content m.store)) };
}

// Makes a turn of the client's next call, and keeps it, unless the history is full. Each try is one step.
fn turn_of<S: Store, L: Ledger>(
    alloc: Global,
    store: &mut S,
    kept: &mut Vec<KeptTurn>,
    spare: &mut SpareRooms,
    call: Call,
    steps: &mut Steps<L>,
) -> Result<Out, (Call, Why)>
    requires stands { RunsTo (setup_in (S.content store.old)) (map kept_entry kept.old.items) (map out_kept kept.old.items) (S.content store.old) }
    requires asked { IsLineCall (length (S.content store.old).clients) call }
    requires number { call.number ≡ calls_of call.client (calls_of_entries (map kept_entry kept.old.items)) + 1 }
    requires spare { AreSpare (S.content store.old) (S.spare_ends store.old) (S.spare_pending store.old) (vec_len kept.old) (vec_capacity kept.old) spare.old }
    requires trimmed { S.log_base store.old ≡ trimmed_base (S.content store.old) }
    ensures stands { RunsTo (setup_in (S.content store.new)) (map kept_entry kept.new.items) (map out_kept kept.new.items) (S.content store.new) }
    ensures setup { setup_in (S.content store.new) ≡ setup_in (S.content store.old) }
    ensures entries { IfOk result (λ out. map kept_entry kept.new.items ≡ map kept_entry kept.old.items ++ record { call = call; starved = out.starved.items } ∷ []) }
    ensures outs { IfOk result (λ out. map out_kept kept.new.items ≡ map out_kept kept.old.items ++ out_of out ∷ []) }
    ensures full { is_full result ≡ (length kept.old.items == most_entries) }
    ensures spare { AreSpare (S.content store.new) (S.spare_ends store.new) (S.spare_pending store.new) (vec_len kept.new) (vec_capacity kept.new) spare.new }
    ensures spare_turns { spare.old.turns ≤ spare.new.turns + 1 }
    ensures trimmed { S.log_base store.new ≡ trimmed_base (S.content store.new) }
    ensures memory { is_ack_or_cancel call.what ≡ true → 1 ≤ spare.old.turns → OnErr result (is_full result ≡ true) }
    ensures err { IfErr result (λ back. (S.content store.new ≡ S.content store.old) × (S.log_base store.new ≡ S.log_base store.old) × (kept.new.items ≡ kept.old.items) × (spare.new ≡ spare.old) × (back.0 ≡ call)) }
    ensures tries { (r : Run) → run (setup_in (S.content store.old)) (map kept_entry kept.old.items) ≡ Some r → steps.new ≤ steps.old + (1 + how_many_released r.volume call) }
    ensures rises { steps.old ≤ steps.new }
{
    if kept.as_slice().len() == MOST_ENTRIES {
        return Err((call, Why::HistoryFull));
    }
    match keep_trimmed(alloc, store, kept, spare, call, steps) {
        Ok(out) => Ok(out),
        Err((call, NoMemory)) => Err((call, Why::NoMemory)),
    }
}

// The same with a counter of its own, over the ledger that the blank opens.
fn turn_uncounted<S: Store, L: Ledger>(
    alloc: Global,
    store: &mut S,
    kept: &mut Vec<KeptTurn>,
    spare: &mut SpareRooms,
    call: Call,
    blank: Blank,
) -> Result<Out, (Call, Why)>
    requires stands { RunsTo (setup_in (S.content store.old)) (map kept_entry kept.old.items) (map out_kept kept.old.items) (S.content store.old) }
    requires asked { IsLineCall (length (S.content store.old).clients) call }
    requires number { call.number ≡ calls_of call.client (calls_of_entries (map kept_entry kept.old.items)) + 1 }
    requires spare { AreSpare (S.content store.old) (S.spare_ends store.old) (S.spare_pending store.old) (vec_len kept.old) (vec_capacity kept.old) spare.old }
    requires trimmed { S.log_base store.old ≡ trimmed_base (S.content store.old) }
    requires name { blank.name ≡ L.name }
    requires parts { blank.parts ≡ L.parts }
    requires some { 0 < blank.parts }
    ensures stands { RunsTo (setup_in (S.content store.new)) (map kept_entry kept.new.items) (map out_kept kept.new.items) (S.content store.new) }
    ensures setup { setup_in (S.content store.new) ≡ setup_in (S.content store.old) }
    ensures entries { IfOk result (λ out. map kept_entry kept.new.items ≡ map kept_entry kept.old.items ++ record { call = call; starved = out.starved.items } ∷ []) }
    ensures outs { IfOk result (λ out. map out_kept kept.new.items ≡ map out_kept kept.old.items ++ out_of out ∷ []) }
    ensures full { is_full result ≡ (length kept.old.items == most_entries) }
    ensures spare { AreSpare (S.content store.new) (S.spare_ends store.new) (S.spare_pending store.new) (vec_len kept.new) (vec_capacity kept.new) spare.new }
    ensures spare_turns { spare.old.turns ≤ spare.new.turns + 1 }
    ensures trimmed { S.log_base store.new ≡ trimmed_base (S.content store.new) }
    ensures memory { is_ack_or_cancel call.what ≡ true → 1 ≤ spare.old.turns → OnErr result (is_full result ≡ true) }
    ensures err { IfErr result (λ back. (S.content store.new ≡ S.content store.old) × (S.log_base store.new ≡ S.log_base store.old) × (kept.new.items ≡ kept.old.items) × (spare.new ≡ spare.old) × (back.0 ≡ call)) }
{
    let mut steps = Steps::<L>::new(blank);
    turn_of(alloc, store, kept, spare, call, &mut steps)
}

impl<S: Store> StoreMachine<S> {
    /// The machine with no history, over a new store.
    pub fn over(alloc: Global, mut store: S) -> StoreMachine<S>
        requires fresh { S.content store ≡ fresh (setup_in (S.content store)) }
        ensures setup { result.setup ≡ setup_in (S.content store) }
        ensures entries { result.entries ≡ [] }
    {
        store.trim();
        let kept = Vec::new(alloc);
        let spare = SpareRooms::none(alloc);
        StoreMachine { kept, spare, store }
    }

    /// Makes a turn of the client's next call: tries it, and settles what is pending. It appends one entry
    /// with this call, or hands the call back with the reason and changes nothing. `HistoryFull` comes
    /// exactly where there are 1,000,000 entries, before any memory is asked for; `NoMemory` where there
    /// is none for the call. A pending call that finds no memory ends so, and is named in what is given
    /// out.
    ///
    /// A turn that is made uses the room of one of the turns for which `reserve` took it, and one that is
    /// refused none. As long as there is such room an Ack or a Cancel is refused where the history is full and
    /// never for memory; pending calls that it lets go on may still find none.
    ///
    /// Over the whole history so far caching by oplocks is coherent, and each watch reports exactly the
    /// matching changes since its last report. Of the changes that were noted those are kept from the least place on
    /// from which a watch is due, and none where there is no watch.
    pub fn turn(&mut self, alloc: Global, call: Call) -> Result<Out, (Call, Why)>
        requires asked { IsLineCall (length self.old.setup.clients) call }
        requires number { call.number ≡ calls_of call.client (calls_of_entries self.old.entries) + 1 }
        ensures setup { self.new.setup ≡ self.old.setup }
        ensures entries { IfOk result (λ out. self.new.entries ≡ self.old.entries ++ record { call = call; starved = out.starved.items } ∷ []) }
        ensures out { IfOk result (λ out. GaveOut self.new.setup self.new.entries (out_of out)) }
        ensures none_is_ready { (r : Run) → run self.new.setup self.new.entries ≡ Some r → NoneReady r.volume }
        ensures each_call_ends_once { (r : Run) → run self.new.setup self.new.entries ≡ Some r → EndsOnce self.new.entries r }
        ensures a_held_call_is_tried_in_the_turn_that_lets_it_go { IfOk result (λ out. (r : Run) → run self.old.setup self.old.entries ≡ Some r → TakesReleased r.volume call out.starved.items) }
        ensures caching_is_coherent { CachingIsCoherent self.new.setup self.new.entries }
        ensures watches_report_exactly { WatchesReport self.new.setup self.new.entries }
        ensures full { is_full result ≡ (length self.old.entries == most_entries) }
        ensures spare_turns { self.old.spare_turns ≤ self.new.spare_turns + 1 }
        ensures trimmed { (r : Run) → run self.new.setup self.new.entries ≡ Some r → self.new.log_base ≡ trimmed_base r.volume }
        ensures memory { is_ack_or_cancel call.what ≡ true → 1 ≤ self.old.spare_turns → OnErr result (is_full result ≡ true) }
        ensures err { IfErr result (λ back. (self.new ≡ self.old) × (back.0 ≡ call)) }
    {
        turn_uncounted::<S, Brand>(
            alloc,
            &mut self.store,
            &mut self.kept,
            &mut self.spare,
            call,
            Blank::new(1),
        )
    }

    /// `turn`, and each try of a call in it is one step, also one that finds no memory: that of the turn's own call,
    /// and that of each held call that is taken up. Where there is no memory for what is taken before a try, none is
    /// made and no step taken. A report of a watch and the end of a wait are none. The counter never falls, and it
    /// rises by at most one more than the own try lets held calls go: those that it hasn't ended, and the last of
    /// whose blockers ended in it.
    pub fn turn_counted<L: Ledger>(
        &mut self,
        alloc: Global,
        call: Call,
        steps: &mut Steps<L>,
    ) -> Result<Out, (Call, Why)>
        requires asked { IsLineCall (length self.old.setup.clients) call }
        requires number { call.number ≡ calls_of call.client (calls_of_entries self.old.entries) + 1 }
        ensures setup { self.new.setup ≡ self.old.setup }
        ensures entries { IfOk result (λ out. self.new.entries ≡ self.old.entries ++ record { call = call; starved = out.starved.items } ∷ []) }
        ensures out { IfOk result (λ out. GaveOut self.new.setup self.new.entries (out_of out)) }
        ensures none_is_ready { (r : Run) → run self.new.setup self.new.entries ≡ Some r → NoneReady r.volume }
        ensures each_call_ends_once { (r : Run) → run self.new.setup self.new.entries ≡ Some r → EndsOnce self.new.entries r }
        ensures a_held_call_is_tried_in_the_turn_that_lets_it_go { IfOk result (λ out. (r : Run) → run self.old.setup self.old.entries ≡ Some r → TakesReleased r.volume call out.starved.items) }
        ensures caching_is_coherent { CachingIsCoherent self.new.setup self.new.entries }
        ensures watches_report_exactly { WatchesReport self.new.setup self.new.entries }
        ensures full { is_full result ≡ (length self.old.entries == most_entries) }
        ensures spare_turns { self.old.spare_turns ≤ self.new.spare_turns + 1 }
        ensures trimmed { (r : Run) → run self.new.setup self.new.entries ≡ Some r → self.new.log_base ≡ trimmed_base r.volume }
        ensures memory { is_ack_or_cancel call.what ≡ true → 1 ≤ self.old.spare_turns → OnErr result (is_full result ≡ true) }
        ensures err { IfErr result (λ back. (self.new ≡ self.old) × (back.0 ≡ call)) }
        ensures tries { (r : Run) → run self.old.setup self.old.entries ≡ Some r → steps.new ≤ steps.old + (1 + how_many_released r.volume call) }
        ensures rises { steps.old ≤ steps.new }
    {
        turn_of(
            alloc,
            &mut self.store,
            &mut self.kept,
            &mut self.spare,
            call,
            steps,
        )
    }

    /// Takes room for the next `n` turns: as long as all of them are Ack or Cancel they can't be refused for
    /// memory. It asks for memory `n` times, each time for as many calls as are pending and `n`, and once more for
    /// that many ends. `NoMemory` changes nothing, and comes where there is none for it and where `n` is above
    /// 1,000,000, unless there is room for so many turns already.
    pub fn reserve(&mut self, alloc: Global, n: u32) -> Result<(), NoMemory>
        ensures setup { self.new.setup ≡ self.old.setup }
        ensures entries { self.new.entries ≡ self.old.entries }
        ensures log_base { self.new.log_base ≡ self.old.log_base }
        ensures turns { OnOk result (n ≤ self.new.spare_turns) }
        ensures no_less { self.old.spare_turns ≤ self.new.spare_turns }
        ensures err { OnErr result (self.new ≡ self.old) }
    {
        reserve_turns(
            alloc,
            &mut self.store,
            &mut self.kept,
            &mut self.spare,
            n as usize,
        )
    }

    /// The volume as the history leaves it, to be looked at.
    pub fn volume(&self) -> &S
        ensures content { (r : Run) → run self.now.setup self.now.entries ≡ Some r → S.content result.now ≡ r.volume }
        ensures log_base { S.log_base result.now ≡ self.now.log_base }
    {
        &self.store
    }

    /// Whether the client waits for one of its calls.
    pub fn waits(&self, client: u32) -> bool
        ensures runs { IsSome (run self.now.setup self.now.entries) }
        ensures waits { (r : Run) → run self.now.setup self.now.entries ≡ Some r → result ≡ waits r.volume client }
    {
        self.store.waits(client)
    }

    /// How many turns were made; 1,000,000 at most.
    pub fn len(&self) -> u64
        ensures { result ≡ length self.now.entries }
    {
        self.kept.len() as u64
    }

    /// The call of the turn at this place, from 0.
    pub fn call_at(&self, i: u64) -> &Call
        requires within { i < length self.now.entries }
        ensures { slice_get (calls_of_entries self.now.entries) i ≡ Some result.now }
    {
        let Some(kept) = self.kept.get(i as usize) else {
            unreachable!()
        };
        &kept.call
    }

    /// What the turn at this place gave out, from 0.
    pub fn out_at(&self, i: u64) -> &Out
        requires within { i < length self.now.entries }
        ensures { (r : Run) → run self.now.setup self.now.entries ≡ Some r → slice_get r.outs i ≡ Some (out_of result.now) }
    {
        let Some(kept) = self.kept.get(i as usize) else {
            unreachable!()
        };
        &kept.out
    }

    /// How the client's call of this number ended; `None` exactly where it is pending. It has to be a call
    /// of the history. There may be no memory for the copy only where the reply's body holds a list.
    pub fn reply_of(
        &self,
        alloc: Global,
        client: u32,
        number: u32,
    ) -> Result<Option<Reply>, NoMemory>
        requires made { list_any (is_entry_of client number) self.now.entries ≡ true }
        ensures runs { IsSome (run self.now.setup self.now.entries) }
        ensures reply { IfOk result (λ reply. (r : Run) → run self.now.setup self.now.entries ≡ Some r → reply ≡ reply_in r.volume.ended client number) }
        ensures pending { IfOk result (λ reply. (r : Run) → run self.now.setup self.now.entries ≡ Some r → is_some reply ≡ not (is_pending r.volume client number)) }
        ensures no_memory { OnErr result ((r : Run) → run self.now.setup self.now.entries ≡ Some r → ended_with_list r.volume.ended client number ≡ true) }
    {
        reply_from(alloc, &self.store, client, number)
    }
}
