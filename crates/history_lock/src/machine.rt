//! What a machine is of which many threads make turns.
ghost use Rattle.std.specs.Prelude.{◌≡◌, ℕ, ◌<◌, ◌^◌, List, [], ◌∷◌, ◌++◌, length, IfOk, IfErr, OnErr};
ghost use Rattle.history_lock.specs.History.{calls_by};

use fsa_types::NoMemory;
use std::alloc::Global;

/// A machine stands for a history, the list of entries that its turns have appended.
///
/// Its meanings are plain data, so that clauses speak of the machine while a lock holds it.
pub trait Machine {
    /// What no turn changes.
    type Base;
    /// What one turn appends to the history.
    type Entry;
    /// What is handed to a turn. It names the client that makes it.
    type Call;
    /// What a turn answers.
    type Out;
    /// Why a turn is refused.
    type Why;
    /// What is handed to a look.
    type Ask;
    /// What a look answers.
    type Seen;

    // What no turn changes.
    ghost base: { Self → Self.Base };

    // The history for which the machine stands.
    ghost list: { Self → List Self.Entry };

    // These entries are a history of a machine with this base.
    ghost stands: { Self.Base → List Self.Entry → Type 0 };

    // The call of an entry, and the client of a call.
    ghost call_of: { Self.Entry → Self.Call };

    ghost client_of: { Self.Call → ℕ };

    // The call may be made after these earlier calls of its client.
    ghost may_turn: { Self.Base → List Self.Call → Self.Call → Type 0 };

    // This may be asked of this history.
    ghost may_look: { List Self.Entry → Self.Ask → Type 0 };

    // The turn that appended the last entry may give this answer.
    ghost out_is: { Self.Base → List Self.Entry → Self.Out → Type 0 };

    // A turn on this history may be refused for this reason.
    ghost why_of: { Self.Base → List Self.Entry → Self.Why → Type 0 };

    // A look at this history may show this, and it may take memory.
    ghost seen_is: { Self.Base → List Self.Entry → Self.Ask → Self.Seen → Type 0 };

    ghost costly: { Self.Base → List Self.Entry → Self.Ask → Type 0 };

    /// Appends one entry with this call, or hands the call back with the reason and changes nothing.
    fn turn(
        &mut self,
        alloc: Global,
        call: Self::Call,
    ) -> Result<Self::Out, (Self::Call, Self::Why)>
        requires may { may_turn (base self.old) (calls_by call_of client_of (client_of call) (list self.old)) call }
        ensures base { base self.new ≡ base self.old }
        ensures done { IfOk result (λ out. (entry : Self.Entry) × (list self.new ≡ list self.old ++ entry ∷ []) × (call_of entry ≡ call) × out_is (base self.old) (list self.new) out × stands (base self.old) (list self.new) × (length (list self.new) < 2 ^ 31)) }
        ensures refused { IfErr result (λ back. (list self.new ≡ list self.old) × (back.0 ≡ call) × why_of (base self.old) (list self.old) back.1) };

    /// Answers what the history shows. There may be no memory only where the look is a costly one.
    fn look(&self, alloc: Global, ask: &Self::Ask) -> Result<Self::Seen, NoMemory>
        requires may { may_look (list self.now) ask.now }
        ensures shown { IfOk result (λ seen. seen_is (base self.now) (list self.now) ask.now seen) }
        ensures no_memory { OnErr result (costly (base self.now) (list self.now) ask.now) };

    // What may be asked of a history may be asked of every longer one.
    ghost may_look_later: { (front later : List Self.Entry) (ask : Self.Ask) → may_look front ask → may_look (front ++ later) ask };
}
