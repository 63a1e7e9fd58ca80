//! A setup and an entry as the definitions have them. No value of these types is made: they are the words
//! of the clauses.

use fsa_types::{Entry, Setup};
use std::marker::Model;

/// A setup, without the rooms of its lists.
pub struct SetupView {
    setup: Setup,
}

impl Model for SetupView {
    ghost use Rattle.fsa_model.specs.Setup.{Setup, setup_of};

    ghost Value = { Setup };

    ghost view = { λ s. setup_of s.setup };
}

/// An entry of the history, without the rooms of its lists.
pub struct EntryView {
    entry: Entry,
}

impl Model for EntryView {
    ghost use Rattle.fsa_model.specs.History.{HistoryEntry};

    ghost Value = { HistoryEntry };

    ghost view = { λ e. record { call = e.entry.call; starved = e.entry.starved.items } };
}
