//! What the calls that never wait answer.

/// What a turn that was tried answers.
#[derive(Drop)]
pub enum TurnAnswer<Out, Call, Why> {
    /// The turn was made, and this is its answer.
    Did(Out),
    /// Another pass holds the turn. The call comes back.
    Busy(Call),
    /// The machine refused the call, which comes back with its reason.
    Refused(Call, Why),
}

/// What a look that was tried answers.
#[derive(Drop)]
pub enum Looked<Seen> {
    /// What the history shows.
    Saw(Seen),
    /// Another pass holds the turn.
    Busy,
    /// There was no memory for what the history shows.
    NoMemory,
}
