//! What a machine keeps of a turn.

use fsa_types::{Call, Out};

/// A turn of the history: its own call, and what it gave out.
#[derive(Drop)]
pub struct KeptTurn {
    /// The turn's own call.
    pub call: Call,
    /// What the turn gave out.
    pub out: Out,
}
