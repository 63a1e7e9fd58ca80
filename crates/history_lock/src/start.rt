//! How a lock is made, with a pass for each client.
ghost use Rattle.std.specs.Prelude.{◌≡◌, ℕ, ◌+◌, ◌<◌, ◌≤◌, ◌==◌, if◌then◌else◌, List, [], ◌∷◌, length, slice_get, Some, IfOk, IfErr, vec_len, vec_capacity};
ghost use Rattle.history_lock.specs.Turns.{newcomer};

use crate::lock::TurnLock;
use crate::machine::Machine;
use crate::pass::Pass;
use crate::plays::Cut;
use crate::rule::{About, Place, Top};
use atomic_table::{Refused, Table};
use fsa_types::NoMemory;
use std::alloc::Global;
use std::snapshot::Snapshot;
use std::sync::atomic::AtomicU64;

impl<M: Machine> TurnLock<M> {
    ghost use Rattle.history_lock.specs.Lock.{base_of, clients_of, known, IsPassOf};

    /// Makes a lock round a machine with an empty history, for 1 to 512 clients, and a pass for each of
    /// them, in order. No pass has seen or made anything yet.
    ///
    /// Without memory the machine comes back as it was. After this call the lock takes no memory.
    pub fn start(
        alloc: Global,
        machine: M,
        clients: u32,
    ) -> Result<(TurnLock<M>, Vec<Pass<M>>), (M, NoMemory)>
        requires empty { M.list machine ≡ [] }
        requires history { M.stands (M.base machine) [] }
        requires clients { (1 ≤ clients) × (clients ≤ 512) }
        ensures lock { IfOk result (λ r. (base_of M.base r.0 ≡ M.base machine) × (clients_of r.0 ≡ clients)) }
        ensures one_each { IfOk result (λ r. vec_len r.1 ≡ clients) }
        ensures passes { IfOk result (λ r. (i : ℕ) (p : _) → slice_get r.1.items i ≡ Some p → IsPassOf M.base M.stands r.0 p × (known p ≡ newcomer (M.base machine ∷ []) clients i (if i == 0 then clients else 0))) }
        ensures no_memory { IfErr result (λ back. back.0 ≡ machine) }
    {
        let Ok(passes) = Vec::with_capacity(alloc, clients as usize) else {
            return Err((machine, NoMemory));
        };
        let Ok(mut slots) = Vec::with_capacity(alloc, 1) else {
            passes.destroy_empty();
            return Err((machine, NoMemory));
        };
        let about = About {
            first: Snapshot::of(&machine),
            clients: clients as u64,
        };
        slots.push_reserved(Some(machine));
        match Table::new(alloc, &[0, 0], slots, &about) {
            Ok((table, first)) => {
                let passes = deal(&table.shared, first, passes, clients);
                let lock = TurnLock {
                    table,
                    sleepers: AtomicU64::new(0),
                };
                Ok((lock, passes))
            }
            Err(Refused { slots }) => {
                passes.destroy_empty();
                Err((machine_of(slots), NoMemory))
            }
        }
    }
}

// The machine in the one slot.
fn machine_of<M>(mut slots: Vec<Option<M>>) -> M
    requires { (m : M) × (slots.items ≡ Some m ∷ []) }
    ensures { slots.items ≡ Some result ∷ [] }
{
    let Some(Some(machine)) = slots.pop() else {
        unreachable!()
    };
    slots.destroy_empty();
    machine
}

// A pass that has seen and made nothing.
fn new_pass<M: Machine>(client: u32, seat: Place<M>) -> Pass<M>
    requires { (seat.me.1 ≡ []) × ((base : List M.Base) × (clients : ℕ) × (served : ℕ) × (seat.me.0 ≡ newcomer base clients client served)) }
    ensures { result.seat ≡ seat }
{
    Pass {
        client,
        made: 0,
        seat,
    }
}

// Cuts a pass for each client off the first one, and puts that one before them.
fn deal<M: Machine>(
    top: &Top<M>,
    first: Place<M>,
    passes: Vec<Pass<M>>,
    clients: u32,
) -> Vec<Pass<M>>
    requires table { (first.table_id ≡ top.now.table_id) × (top.now.table_id.words ≡ 2) }
    requires first { (first.me.1 ≡ []) × (first.me.0 ≡ newcomer (M.base top.now.key.first.value ∷ []) clients 0 1) }
    requires key { (top.now.key.clients ≡ clients) × (1 ≤ clients) }
    requires room { (passes.items ≡ []) × (vec_len passes ≡ 0) × (vec_capacity passes ≡ clients) }
    ensures one_each { vec_len result ≡ clients }
    ensures passes { (i : ℕ) (p : _) → slice_get result.items i ≡ Some p → (p.seat.table_id ≡ top.now.table_id) × (p.seat.me.0 ≡ newcomer (M.base top.now.key.first.value ∷ []) clients i (if i == 0 then clients else 0)) }
{
    let mut first = first;
    let mut passes = passes;
    for client in 1..clients {
        let seat = top.split_seat::<Cut>(&mut first);
        passes.push_reserved(new_pass(client, seat));
    }
    let Ok(()) = passes.insert(0, new_pass(0, first)) else {
        unreachable!()
    };
    passes
}
