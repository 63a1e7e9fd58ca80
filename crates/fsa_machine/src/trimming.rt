//! Turns after which the log of changes is trimmed.

ghost use Rattle.std.specs.Prelude.{◌≡◌, ◌≤◌, ◌<◌, ◌+◌, ◌++◌, ◌∷◌, [], true, map, Some, IfErr, IfOk, IsOk, OnOk};
ghost use Rattle.std.specs.Vec.{vec_capacity, vec_len};
ghost use Rattle.fsa_model.specs.Bounds.{most_entries};
ghost use Rattle.fsa_model.specs.Engine.{own_tried};
ghost use Rattle.fsa_model.specs.Once.{made, times};
ghost use Rattle.fsa_model.specs.Outcome.{out_of};
ghost use Rattle.fsa_model.specs.Settling.{MayTurn};
ghost use Rattle.fsa_model.specs.Turn.{turn};
ghost use Rattle.fsa_machine.specs.Kept.{kept_entry, out_kept};
ghost use Rattle.fsa_machine.specs.Released.{how_many_let_go};
ghost use Rattle.fsa_machine.specs.Serves.{MayTry, Serves, ServesOn};
ghost use Rattle.fsa_machine.specs.Spare.{AreSpare, is_ack_or_cancel};
ghost use Rattle.fsa_machine.specs.Trimmed.{trimmed_base};

use crate::keeping::keep_turn;
use crate::kept::KeptTurn;
use crate::spare::SpareRooms;
use crate::steps::Steps;
use crate::store::Store;
use fsa_types::{Call, NoMemory, Out};
use std::alloc::Global;
use std::sync::ledger::Ledger;

/// `keep_turn`, after which the log of changes is trimmed, also where the turn is refused. The log has to be trimmed
/// before; so a turn that is refused leaves it as it was.
pub fn keep_trimmed<S: Store, L: Ledger>(
    alloc: Global,
    store: &mut S,
    kept: &mut Vec<KeptTurn>,
    spare: &mut SpareRooms,
    call: Call,
    steps: &mut Steps<L>,
) -> Result<Out, (Call, NoMemory)>
    requires serves { Serves (S.content store.old) }
    requires may_try { MayTry (S.content store.old) call }
    requires number { 0 < call.number }
    requires may { MayTurn (S.content store.old) }
    requires new { times call.client call.number (S.content store.old) ≡ 0 }
    requires few { made (S.content store.old) < most_entries }
    requires spare { AreSpare (S.content store.old) (S.spare_ends store.old) (S.spare_pending store.old) (vec_len kept.old) (vec_capacity kept.old) spare.old }
    requires trimmed { S.log_base store.old ≡ trimmed_base (S.content store.old) }
    ensures turn { IfOk result (λ out. turn (S.content store.old) call out.starved.items ≡ Some (record { volume = S.content store.new; out = out_of out })) }
    ensures serves { OnOk result (ServesOn (S.content store.old) (S.content store.new)) }
    ensures entries { IfOk result (λ out. map kept_entry kept.new.items ≡ map kept_entry kept.old.items ++ record { call = call; starved = out.starved.items } ∷ []) }
    ensures outs { IfOk result (λ out. map out_kept kept.new.items ≡ map out_kept kept.old.items ++ out_of out ∷ []) }
    ensures spare { AreSpare (S.content store.new) (S.spare_ends store.new) (S.spare_pending store.new) (vec_len kept.new) (vec_capacity kept.new) spare.new }
    ensures spare_turns { spare.old.turns ≤ spare.new.turns + 1 }
    ensures trimmed { S.log_base store.new ≡ trimmed_base (S.content store.new) }
    ensures memory { is_ack_or_cancel call.what ≡ true → 1 ≤ spare.old.turns → IsOk result }
    ensures err { IfErr result (λ back. (S.content store.new ≡ S.content store.old) × (S.log_base store.new ≡ S.log_base store.old) × (kept.new.items ≡ kept.old.items) × (spare.new ≡ spare.old) × (back.0 ≡ call)) }
    ensures tries { steps.new ≤ steps.old + (1 + how_many_let_go (own_tried (S.content store.old) call)) }
    ensures rises { steps.old ≤ steps.new }
{
    let turned = keep_turn(alloc, store, kept, spare, call, steps);
    store.trim();
    turned
}
