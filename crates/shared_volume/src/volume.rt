//! The calls of a volume's clients.
ghost use Rattle.std.specs.Prelude.{◌≡◌, ℕ, ◌+◌, ◌<◌, ◌≤◌, ◌^◌, [], ◌∷◌, All, length, slice_get, Some, IfOk, IfErr, vec_len};
ghost use Rattle.fsa_types.specs.declared.reply.Reply.{Reply};
ghost use Rattle.fsa_model.specs.Coherence.{CachingIsCoherent};
ghost use Rattle.fsa_model.specs.Setup.{setup_of};
ghost use Rattle.fsa_model.specs.Watched.{WatchesReport};
ghost use Rattle.history_lock.specs.Lock.{known};
ghost use Rattle.history_lock.specs.Passes.{Refreshed, Waited};
ghost use Rattle.history_lock.specs.Turns.{Sees, beaten};
ghost use Rattle.history_laws.specs.CallAnswers.{CanAsk, EndedWithList, HasEnded, IfBusy, IfDid, IfDone, IfRefused, OnBusy, OnNoMemory, OnPending, Pends};
ghost use Rattle.shared_volume.specs.Histories.{IsMachineHistory, MayRefuse};
ghost use Rattle.shared_volume.specs.Shared.{EndsInWait, IsPass, IsStatusOfWait, OnlySees, Submits, WaitsFor, entry_call, call_client, setup_at};

use crate::engine::Engine;
use crate::shared::SharedVolume;
use fsa_machine::VolumeMachine;
use fsa_types::{Answer, Call, CallId, NoMemory, Out, Poll, Setup, Status, Submitted, What, Why};
use history_lock::{Looked, TurnAnswer, TurnLock};
use std::alloc::Global;
use std::sync::Wait;

/// A client's pass at a volume: what it has seen of the history, and its own calls there.
pub type Pass = history_lock::Pass<Engine>;

// The answer to the turn's own call.
fn answer_of(out: Out) -> Answer
    ensures { result ≡ out.answer }
{
    out.into_answer()
}

// What a call does.
fn what_of(call: Call) -> What
    ensures { result ≡ call.what }
{
    let Call {
        client: _,
        number: _,
        what,
    } = call;
    what
}

impl SharedVolume {
    /// Makes a volume with the root alone, for the 1 to 512 clients of this setup, and a pass for each of
    /// them, in order. No pass has seen or made anything yet. `NoMemory` where there is none for it.
    pub fn start(alloc: Global, setup: Setup) -> Result<(SharedVolume, Vec<Pass>), NoMemory>
        requires clients { (1 ≤ length setup.clients.items) × (length setup.clients.items ≤ 512) }
        requires sids { All (λ client. 0 < length client.sids.items) setup.clients.items }
        ensures setup { IfOk result (λ r. setup_at r.0 ≡ setup_of setup) }
        ensures one_each { IfOk result (λ r. vec_len r.1 ≡ length setup.clients.items) }
        ensures passes { IfOk result (λ r. (i : ℕ) (p : _) → slice_get r.1.items i ≡ Some p → IsPass r.0 p × ((known p).own ≡ record { client = i; seen = []; mine = [] })) }
    {
        let clients = setup.clients.as_slice().len() as u32;
        let machine = VolumeMachine::new(alloc, setup)?;
        match TurnLock::start(alloc, Engine { machine }, clients) {
            Ok((lock, passes)) => Ok((SharedVolume { lock }, passes)),
            Err(_) => Err(NoMemory),
        }
    }

    /// Makes the client's next call, unless another client's turn is under way. It never waits.
    ///
    /// `Did` gives the call's number, which is one more than the calls that the pass had made, and the
    /// answer of its turn. `Busy` comes only where the pass's count of lost exchanges rose. `Refused` with
    /// `HistoryFull` comes exactly where there are 1,000,000 entries, of which the pass has then seen all;
    /// `NoMemory` is free. Both add nothing, and hand back what was asked.
    pub fn try_submit(&self, alloc: Global, pass: &mut Pass, what: What) -> Submitted
        requires pass { IsPass self.now pass.old }
        requires can { CanAsk what }
        ensures pass { IsPass self.now pass.new }
        ensures did { IfDid result (λ number answer. Submits (setup_at self.now) what number answer (known pass.old) (known pass.new)) }
        ensures busy { IfBusy result (λ back. (back ≡ what) × (known pass.new ≡ beaten (known pass.old)) × (1 < length (setup_at self.now).clients)) }
        ensures refused { IfRefused result (λ back why. (back ≡ what) × Refreshed (known pass.old) (known pass.new) × MayRefuse (known pass.new).own.seen why) }
    {
        let number = pass.made() + 1;
        let call = Call {
            client: pass.client(),
            number,
            what,
        };
        match self.lock.try_turn(alloc, pass, call) {
            TurnAnswer::Did(out) => Submitted::Did(number, answer_of(out)),
            TurnAnswer::Busy(call) => Submitted::Busy(what_of(call)),
            TurnAnswer::Refused(call, why) => Submitted::Refused(what_of(call), why),
        }
    }

    /// Makes the client's next call, as `try_submit` does. While another client's turn is under way it
    /// sleeps, and tries again: it may wait forever.
    pub fn submit(
        &self,
        rt: &impl Wait,
        alloc: Global,
        pass: &mut Pass,
        what: What,
    ) -> Result<(u32, Answer), (What, Why)>
        requires pass { IsPass self.now pass.old }
        requires can { CanAsk what }
        ensures pass { IsPass self.now pass.new }
        ensures did { IfOk result (λ r. Waited (known pass.old) (known pass.new) (Submits (setup_at self.now) what r.0 r.1)) }
        ensures refused { IfErr result (λ back. (back.0 ≡ what) × Waited (known pass.old) (known pass.new) (λ v w. Refreshed v w × MayRefuse w.own.seen back.1)) }
    {
        let number = pass.made() + 1;
        let call = Call {
            client: pass.client(),
            number,
            what,
        };
        match self.lock.turn(rt, alloc, pass, call) {
            Ok(out) => Ok((number, answer_of(out))),
            Err((call, why)) => Err((what_of(call), why)),
        }
    }

    /// How the pass's own call of this number stands. It never waits, and adds nothing.
    ///
    /// `Done` and `Pending` are true of what the pass now has seen, which was the whole history at a step
    /// of this call. `Busy` is as in `try_submit`. `NoMemory` comes only where the call has ended with a
    /// body that holds a list.
    pub fn poll(&self, alloc: Global, pass: &mut Pass, number: u32) -> Poll
        requires pass { IsPass self.now pass.old }
        requires made { (1 ≤ number) × (number ≤ length (known pass.old).own.mine) }
        ensures pass { IsPass self.now pass.new }
        ensures done { IfDone result (λ reply. Refreshed (known pass.old) (known pass.new) × HasEnded (setup_at self.now) (known pass.new).own.seen (known pass.new).own.client number reply) }
        ensures pending { OnPending result (Refreshed (known pass.old) (known pass.new) × Pends (setup_at self.now) (known pass.new).own.seen (known pass.new).own.client number) }
        ensures busy { OnBusy result ((known pass.new ≡ beaten (known pass.old)) × (1 < length (setup_at self.now).clients)) }
        ensures no_memory { OnNoMemory result (Refreshed (known pass.old) (known pass.new) × EndedWithList (setup_at self.now) (known pass.new).own.seen (known pass.new).own.client number) }
    {
        let call = CallId {
            client: pass.client(),
            number,
        };
        match self.lock.try_look(alloc, pass, &call) {
            Looked::Saw(Some(reply)) => Poll::Done(reply),
            Looked::Saw(None) => Poll::Pending,
            Looked::Busy => Poll::Busy,
            Looked::NoMemory => Poll::NoMemory,
        }
    }

    /// Makes a wait for the client's call of this number, and answers the status with which that wait has
    /// ended: SUCCESS as the call has ended, STALLED as all clients waited, or INVALID_PARAMETER as there is no
    /// such call; or INVALID_HANDLE, where the client has left. It sleeps as long as the history gets no longer,
    /// and may wait forever. Its looks take no memory.
    ///
    /// A refusal comes only from the wait's own turn, and has added nothing: `HistoryFull` exactly where
    /// there are 1,000,000 entries, and `NoMemory`.
    pub fn wait_for(
        &self,
        rt: &impl Wait,
        alloc: Global,
        pass: &mut Pass,
        number: u32,
    ) -> Result<Status, Why>
        requires pass { IsPass self.now pass.old }
        ensures pass { IsPass self.now pass.new }
        ensures ended { IfOk result (λ status. WaitsFor (setup_at self.now) number status (known pass.old) (known pass.new)) }
        ensures refused { IfErr result (λ why. Waited (known pass.old) (known pass.new) (λ v w. Refreshed v w × MayRefuse w.own.seen why)) }
    {
        match self.submit(rt, alloc, pass, What::WaitFor(number)) {
            Ok((wait, _)) => Ok(self.status_of(rt, alloc, pass, wait)),
            Err((_, why)) => Err(why),
        }
    }

    // Waits until the pass's own call of this number, its last, has ended, which is a wait. Its reply holds no
    // list, so no look finds that there is no memory.
    fn status_of(&self, rt: &impl Wait, alloc: Global, pass: &mut Pass, number: u32) -> Status
        requires pass { IsPass self.now pass.old }
        requires made { (1 ≤ number) × (number ≤ length (known pass.old).own.mine) }
        requires wait { EndsInWait (known pass.old).own.mine (known pass.old).own.client number }
        ensures pass { IsPass self.now pass.new }
        ensures sees { OnlySees (known pass.old) (known pass.new) }
        ensures few { IsStatusOfWait (known pass.old).own.mine result }
        ensures ended { (reply : Reply) × HasEnded (setup_at self.now) (known pass.new).own.seen (known pass.new).own.client number reply × (reply.status ≡ result) }
    {
        for _ in rt.forever() {
            let entries = self.front(pass);
            match self.poll(alloc, pass, number) {
                Poll::Done(reply) => return reply.status,
                Poll::Pending => {
                    self.lock.wait_for_more(rt, pass, entries);
                }
                Poll::Busy => self.lock.wait_for_turn(rt),
                Poll::NoMemory => unreachable!(),
            }
        }
        unreachable!()
    }

    /// The number of entries of the history, which the pass has then seen. It never waits, and takes no
    /// memory.
    pub fn front(&self, pass: &mut Pass) -> u64
        requires pass { IsPass self.now pass.old }
        ensures pass { IsPass self.now pass.new }
        ensures refreshed { Refreshed (known pass.old) (known pass.new) }
        ensures length { result ≡ length (known pass.new).own.seen }
    {
        self.lock.front(pass)
    }

    /// Gives the machine back. It takes the passes of all clients, in order, and can't be refused.
    ///
    /// In the machine's history the calls of each client are just those that its pass had made, each once
    /// and in order, and there are no others. Over it caching by oplocks is coherent, and each watch reports
    /// exactly the matching changes since its last report.
    pub fn close(self, passes: Vec<Pass>) -> VolumeMachine
        requires one_each { vec_len passes ≡ length (setup_at self).clients }
        requires passes { (i : ℕ) (p : _) → slice_get passes.items i ≡ Some p → IsPass self p × ((known p).own.client ≡ i) }
        ensures setup { result.setup ≡ setup_at self }
        ensures history { IsMachineHistory result.setup result.entries }
        ensures each { (i : ℕ) (p : _) → slice_get passes.items i ≡ Some p → Sees entry_call call_client result.entries (known p).own }
        ensures no_others { All (λ entry. entry.call.client < length (setup_at self).clients) result.entries }
        ensures caching_is_coherent { CachingIsCoherent result.setup result.entries }
        ensures watches_report_exactly { WatchesReport result.setup result.entries }
    {
        let SharedVolume { lock } = self;
        let (engine, _) = lock.close(passes);
        let Engine { machine } = engine;
        machine
    }
}
