//! What each step on the table tells, and how a view is cut in two and two are made one.
ghost use Rattle.history_lock.specs.Turns.{taken, committed, loaded, freed, left_part, right_part, both_parts, spent_view, shadow_part};

use crate::machine::Machine;
use crate::view::View;
use atomic_table::{Join, Play, Split};

/// Takes the turn, if it is free.
pub(crate) struct Take;

impl<M: Machine> Play<Option<M>, View<M::Base, M::Entry, M::Call>> for Take {
    ghost then = { taken M.base M.list M.call_of M.client_of M.stands };
}

/// Adds an entry to the history.
pub(crate) struct Commit;

impl<M: Machine> Play<Option<M>, View<M::Base, M::Entry, M::Call>> for Commit {
    ghost then = { committed M.base M.list M.call_of M.client_of M.stands };
}

/// Loads the count of entries.
pub(crate) struct Load;

impl<M: Machine> Play<Option<M>, View<M::Base, M::Entry, M::Call>> for Load {
    ghost then = { loaded M.base M.list M.call_of M.client_of M.stands };
}

/// Frees the turn.
pub(crate) struct Free;

impl<M: Machine> Play<Option<M>, View<M::Base, M::Entry, M::Call>> for Free {
    ghost then = { freed M.base M.list M.call_of M.client_of M.stands };
}

/// Makes the pass of the next client.
pub(crate) struct Cut;

impl<B, E, C> Split<View<B, E, C>> for Cut {
    ghost left = { left_part };

    ghost right = { right_part };
}

/// Joins a pass into another.
pub(crate) struct Glue;

impl<B, E, C> Join<View<B, E, C>> for Glue {
    ghost both = { both_parts };

    ghost spent = { spent_view };
}

/// Makes a spent copy.
pub(crate) struct Shadow;

impl<B, E, C> Split<View<B, E, C>> for Shadow {
    ghost left = { λ v. v };

    ghost right = { shadow_part };
}
