//! One client's calls, asked of a desk one by one.
ghost use Rattle.std.specs.Prelude.{◌≡◌, ◌≢◌, ◌↔◌, ℕ, true, false, [], ◌++◌, MatchBool, IfNone, None, Some, option_to_list};
ghost use Rattle.fsa_types.specs.declared.request.Call.{Call};
ghost use Rattle.fsa_model.specs.Engine.{ends_at_once};
ghost use Rattle.fsa_model.specs.Waiting.{is_wait};
ghost use Rattle.client_run.specs.Calls.{HasLeft, IsLined};
ghost use Rattle.client_run.specs.Serving.{FitsDesk, Steps, holding, planned, todo_in};
ghost use Rattle.client_run.specs.declared.run.Step.TheVariants.{Ended};

use crate::desk::Desk;
use fsa_types::{Answer, Call, Poll, Submitted, What, Why};
use std::alloc::Global;
use std::collections::VecDeque;
use wire_io::Gate;

/// The calls that a client has still to make, in order, and the call for whose end it waits.
pub struct ClientRun {
    client: u32,
    // The call that was tried, and has to be tried again.
    held: Option<Call>,
    rest: VecDeque<Call>,
    // The number of the wait that is pending.
    waits: Option<u32>,
}

// One drop of the whole, so that it is one step at each end of a function that holds one.
impl Drop for ClientRun {
    fn drop(self) {
        let ClientRun {
            client: _,
            held: _,
            rest: _,
            waits: _,
        } = self;
    }
}

/// What one step of a client came to.
#[derive(Clone, Copy, PartialEq, Eq)]
pub enum Step {
    /// The next call was made, and there are more; or the wait has ended.
    Moved,
    /// The wait is pending.
    Waiting,
    /// Another client's turn was in the way.
    Busy,
    /// All calls are made, the last of which leaves.
    Ended,
    /// The next call was refused, or there was no memory for a look.
    Refused(Why),
}

impl ClientRun {
    /// A run that makes these calls of the client: its lines and then its leaving.
    pub fn new(client: u32, calls: VecDeque<Call>) -> ClientRun
        requires lined { IsLined client calls.items }
        ensures { (result.client ≡ client) × (result.waits ≡ None) × (todo_in result ≡ calls.items) }
    {
        ClientRun {
            client,
            held: None,
            rest: calls,
            waits: None,
        }
    }

    /// Whether all calls are made.
    pub fn is_done(&self) -> bool
        ensures { MatchBool result (todo_in self.now ≡ []) (todo_in self.now ≡ [] → ⊥) }
    {
        self.held.is_none() && self.rest.is_empty()
    }

    // The call that is next. Where it's tried for the first time, the gate is passed.
    fn next<G: Gate>(&mut self, gate: &G) -> Option<Call>
        requires gate { (number : ℕ) → G.is_for gate.now self.old.client number }
        ensures same { (self.new.client ≡ self.old.client) × (self.new.held ≡ None) × (self.new.waits ≡ self.old.waits) }
        ensures next { option_to_list result ++ self.new.rest.items ≡ todo_in self.old }
        ensures none { IfNone result (todo_in self.old ≡ []) }
    {
        if let Some(call) = self.held.take() {
            return Some(call);
        }
        let call = self.rest.pop_front()?;
        gate.pass(self.client, call.number);
        Some(call)
    }

    // Looks whether the wait of this number has ended.
    fn wait<D: Desk>(&mut self, alloc: Global, desk: &mut D, number: u32) -> Step
        requires open { D.is_open desk.old }
        requires serves { FitsDesk (D.view desk.old) self.old }
        requires waits { self.old.waits ≡ Some number }
        ensures open { D.is_open desk.new }
        ensures stays { D.stays desk.old desk.new }
        ensures same { ((D.view desk.new).setup ≡ (D.view desk.old).setup) × ((D.view desk.new).client ≡ (D.view desk.old).client) }
        ensures serves { FitsDesk (D.view desk.new) self.new }
        ensures plan { planned (D.view desk.new).made self.new ≡ planned (D.view desk.old).made self.old }
        ensures steps { Steps (D.view desk.old) (D.view desk.new) self.old self.new result }
        ensures goes_on { todo_in self.new ≡ todo_in self.old }
        ensures ended { result ≢ Ended }
    {
        match desk.look(alloc, number) {
            Poll::Done(_) => {
                self.waits = None;
                Step::Moved
            }
            Poll::Pending => Step::Waiting,
            Poll::Busy => Step::Busy,
            Poll::NoMemory => Step::Refused(Why::NoMemory),
        }
    }

    // Asks the next call.
    fn ask<D: Desk>(&mut self, alloc: Global, desk: &mut D, call: Call) -> Step
        requires next { (self.old.held ≡ None) × (self.old.waits ≡ None) }
        requires open { D.is_open desk.old }
        requires serves { FitsDesk (D.view desk.old) (holding call self.old) }
        ensures open { D.is_open desk.new }
        ensures stays { D.stays desk.old desk.new }
        ensures same { ((D.view desk.new).setup ≡ (D.view desk.old).setup) × ((D.view desk.new).client ≡ (D.view desk.old).client) }
        ensures serves { FitsDesk (D.view desk.new) self.new }
        ensures plan { planned (D.view desk.new).made self.new ≡ planned (D.view desk.old).made (holding call self.old) }
        ensures steps { Steps (D.view desk.old) (D.view desk.new) (holding call self.old) self.new result }
        ensures ended { (result ≡ Ended) ↔ (todo_in self.new ≡ []) }
    {
        let Call {
            client,
            number,
            what,
        } = call;
        let is_wait = is_wait(&what);
        match desk.ask(alloc, what) {
            Submitted::Did(number, answer) => {
                self.waits = wait_of(is_wait, number, &answer);
                if self.rest.is_empty() {
                    Step::Ended
                } else {
                    Step::Moved
                }
            }
            Submitted::Busy(what) => {
                self.held = Some(Call {
                    client,
                    number,
                    what,
                });
                Step::Busy
            }
            Submitted::Refused(what, why) => {
                self.held = Some(Call {
                    client,
                    number,
                    what,
                });
                Step::Refused(why)
            }
        }
    }

    /// Asks the next call, or looks at the wait that is pending.
    ///
    /// `Moved` comes only where the next call was made, or where the wait has ended and the run waits no
    /// more; `Waiting` only where the wait is pending in the history seen, which was looked at anew; `Busy`
    /// only where the desk's count of turns in the way rose; `Ended` exactly where the client's leaving is
    /// among the calls made; `Refused` with `HistoryFull` only where the history seen has 1,000,000 entries,
    /// and with `NoMemory` freely. After the last two the same call stays next.
    ///
    /// The gate is passed once before each call's first try.
    pub fn step<D: Desk, G: Gate>(&mut self, alloc: Global, desk: &mut D, gate: &G) -> Step
        requires open { D.is_open desk.old }
        requires serves { FitsDesk (D.view desk.old) self.old }
        requires gate { (number : ℕ) → G.is_for gate.now self.old.client number }
        ensures open { D.is_open desk.new }
        ensures stays { D.stays desk.old desk.new }
        ensures same { ((D.view desk.new).setup ≡ (D.view desk.old).setup) × ((D.view desk.new).client ≡ (D.view desk.old).client) }
        ensures serves { FitsDesk (D.view desk.new) self.new }
        ensures plan { planned (D.view desk.new).made self.new ≡ planned (D.view desk.old).made self.old }
        ensures steps { Steps (D.view desk.old) (D.view desk.new) self.old self.new result }
        ensures ended { (result ≡ Ended) ↔ HasLeft (D.view desk.new).made }
    {
        if let Some(number) = self.waits {
            return self.wait(alloc, desk, number);
        }
        let Some(call) = self.next(gate) else {
            return Step::Ended;
        };
        self.ask(alloc, desk, call)
    }
}

fn is_wait(what: &What) -> bool
    ensures { result ≡ is_wait what.now }
{
    matches!(what, What::WaitFor(_))
}

// The wait that is pending once the call was made.
fn wait_of(is_wait: bool, number: u32, answer: &Answer) -> Option<u32>
    ensures none { is_wait ≡ false → result ≡ None }
    ensures ended { result ≡ None → is_wait ≡ true → ends_at_once answer.now ≡ true }
    ensures only { (n : ℕ) → result ≡ Some n → (n ≡ number) × (is_wait ≡ true) }
{
    match answer {
        Answer::Pending(_) if is_wait => Some(number),
        _ => None,
    }
}
