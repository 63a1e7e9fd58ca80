//! What a client's run asks its calls of.
ghost use Rattle.std.specs.Prelude.{◌≡◌, ℕ, ◌+◌, ◌≤◌, List, length};
ghost use Rattle.fsa_types.specs.declared.reply.Why.TheVariants.{HistoryFull};
ghost use Rattle.fsa_model.specs.Bounds.{most_entries};
ghost use Rattle.history_laws.specs.CallAnswers.{CanAsk, EndedWithList, HasEnded, IfBusy, IfDid, IfDone, IfRefused, OnBusy, OnNoMemory, OnPending, Pends};
ghost use Rattle.client_run.specs.Desks.{Asks, DeskView, DeskOnlySees, SeesHistory};

use fsa_types::{Poll, Submitted, What};
use std::alloc::Global;

/// Where the calls of one client are asked, and its own calls are looked at. No call of it waits.
///
/// It shows the setup of its volume, the client, that client's calls made, the history that was seen, and two
/// counts that never fall: how often the history was looked at, and how often another client's turn was in the
/// way. No call lets it see less than before, and what it sees is at all times a history in which the client's
/// calls are those made.
pub trait Desk {
    // What it shows.
    ghost view: { Self → DeskView };

    // What each call needs of the desk, and keeps.
    ghost is_open: { Self → Type 0 };

    // The second is the first one, later: a desk of the same volume and pass.
    ghost stays: { Self → Self → Type 0 };

    /// Makes the client's next call.
    ///
    /// `Did` gives its number, which is one more than the calls made before, and the answer of its turn; its
    /// entry then ends the history seen, behind all that had been seen. `Busy` comes only where the count of
    /// turns in the way rose, and `Refused` with `HistoryFull` only where the history seen has 1,000,000
    /// entries; `NoMemory` is free. These add no call, and hand back what was asked.
    fn ask(&mut self, alloc: Global, what: What) -> Submitted
        requires open { is_open self.old }
        requires can { CanAsk what }
        ensures open { is_open self.new }
        ensures stays { stays self.old self.new }
        ensures history { SeesHistory (view self.new) }
        ensures did { IfDid result (λ number answer. Asks what number answer (view self.old) (view self.new)) }
        ensures busy { IfBusy result (λ back. (back ≡ what) × DeskOnlySees (view self.old) (view self.new) × ((view self.old).lost + 1 ≤ (view self.new).lost)) }
        ensures refused { IfRefused result (λ back why. (back ≡ what) × DeskOnlySees (view self.old) (view self.new) × (why ≡ HistoryFull → length (view self.new).seen ≡ most_entries)) };

    /// How the client's call of this number stands, which was made.
    ///
    /// `Done` and `Pending` are true of the history seen. `Pending` comes only where it was looked at anew,
    /// `Busy` only where the count of turns in the way rose, and `NoMemory` only where the call has ended
    /// there with a body that holds a list. It adds no call.
    fn look(&mut self, alloc: Global, number: u32) -> Poll
        requires open { is_open self.old }
        requires made { (1 ≤ number) × (number ≤ length (view self.old).made) }
        ensures open { is_open self.new }
        ensures stays { stays self.old self.new }
        ensures history { SeesHistory (view self.new) }
        ensures sees { DeskOnlySees (view self.old) (view self.new) }
        ensures done { IfDone result (λ reply. HasEnded (view self.new).setup (view self.new).seen (view self.new).client number reply) }
        ensures pending { OnPending result (Pends (view self.new).setup (view self.new).seen (view self.new).client number × ((view self.old).loads + 1 ≤ (view self.new).loads)) }
        ensures busy { OnBusy result ((view self.old).lost + 1 ≤ (view self.new).lost) }
        ensures no_memory { OnNoMemory result (EndedWithList (view self.new).setup (view self.new).seen (view self.new).client number) };

    ghost stays_same: { (desk : Self) → stays desk desk };
}
