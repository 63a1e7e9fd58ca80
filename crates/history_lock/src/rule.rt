//! The table under the lock: a turn word, a count word and the slot of the machine.

use crate::machine::Machine;
use crate::view::View;
use atomic_table::{Seat, Shared, Table, TableRule};
use std::alloc::Global;
use std::marker::PhantomData;
use std::snapshot::Snapshot;

/// What is fixed when the table is made: the machine as it was then, and the number of clients.
#[derive(Drop)]
pub struct About<M> {
    /// The machine as it was, for clauses alone. It takes no bytes.
    pub first: Snapshot<M>,
    /// The number of clients.
    pub clients: u64,
}

/// The rule of the table.
pub struct Turns<M> {
    machine: PhantomData<M>,
}

impl<M: Machine> TableRule<Option<M>, View<M::Base, M::Entry, M::Call>, About<M>> for Turns<M> {
    ghost use Rattle.std.specs.Prelude.{◌∷◌, []};
    ghost use Rattle.history_lock.specs.Turns.{Kept, newcomer};

    ghost holds = { λ key. Kept M.base M.list M.call_of M.client_of M.stands (M.base key.first.value) key.clients };

    ghost first = { λ key. newcomer (M.base key.first.value ∷ []) key.clients 0 1 };
}

/// What a pass knows, for the machine `M`.
pub type ViewOf<M> = View<<M as Machine>::Base, <M as Machine>::Entry, <M as Machine>::Call>;

/// The table as passes see it.
pub(crate) type Top<M> = Shared<Option<M>, ViewOf<M>, About<M>, Turns<M>>;

/// The table with its memory.
pub(crate) type Board<M> = Table<Option<M>, ViewOf<M>, About<M>, Turns<M>, Global>;

/// A place at the table.
pub(crate) type Place<M> = Seat<Option<M>, ViewOf<M>>;
