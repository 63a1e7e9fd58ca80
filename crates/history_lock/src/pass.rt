//! A pass: what one client has seen of the history, and its own calls in it.
ghost use Rattle.std.specs.Prelude.{◌≡◌, ◌<◌, ◌^◌, length};
ghost use Rattle.history_lock.specs.History.{calls_by};
ghost use Rattle.history_lock.specs.Passes.{IsResting};

use crate::machine::Machine;
use crate::view::View;
use atomic_table::Seat;

/// The right of one client to make turns at one lock, and what that client knows: a beginning of the
/// lock's history, and its own calls in it.
///
/// Clauses read of it `known`, which has the client, what was seen, the own calls, and the counts of
/// loads and of lost exchanges. It holds two numbers and no part of the history. Where the machine may
/// go to another thread, so may a pass.
#[derive(Drop)]
pub struct Pass<M: Machine> {
    pub(crate) client: u32,
    pub(crate) made: u32,
    // The place at the lock's table.
    pub(crate) seat: Seat<Option<M>, View<M::Base, M::Entry, M::Call>>,
    ghost resting: { IsResting seat.me },
    ghost client_is: { client ≡ seat.me.0.own.client },
    ghost made_is: { made ≡ length seat.me.0.own.mine },
    ghost few: { made < 2 ^ 31 },
    pub ghost own_calls: { seat.me.0.own.mine ≡ calls_by M.call_of M.client_of seat.me.0.own.client seat.me.0.own.seen },
}

impl<M: Machine> Pass<M> {
    ghost use Rattle.history_lock.specs.Lock.{known};

    /// The number of the client that this pass serves, from 0.
    pub fn client(&self) -> u32
        ensures { result ≡ (known self.now).own.client }
    {
        self.client
    }

    /// How many calls this pass has made: those that were busy or refused don't count.
    pub fn made(&self) -> u32
        ensures calls { result ≡ length (known self.now).own.mine }
        ensures few { result < 2 ^ 31 }
    {
        self.made
    }
}
