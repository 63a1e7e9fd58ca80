//! What a pass knows. No value of these types is made: they are the words of the clauses.

use std::collections::LinkedList;

/// What one client has seen of the history, and its own calls in it.
pub struct Part<E, C> {
    /// The client's number.
    pub client: u64,
    /// The beginning of the history that was seen.
    pub seen: LinkedList<E>,
    /// The client's own calls, in order.
    pub mine: LinkedList<C>,
}

/// What a pass knows.
pub struct View<B, E, C> {
    /// What its own client has seen and made.
    pub own: Part<E, C>,
    /// The same of each pass that was joined into it.
    pub kept: LinkedList<Part<E, C>>,
    /// Whether it is a pass at all: one that was joined away or closed is spent.
    pub live: bool,
    /// The machine's base, alone in a list. It is empty in a spent pass.
    pub base: LinkedList<B>,
    /// The number of clients that the lock is for.
    pub clients: u64,
    /// In the pass of client 0: how many clients have got their pass.
    pub served: u64,
    /// How many times this pass has loaded the count of entries.
    pub loads: u64,
    /// How many of its exchanges found the turn held by another pass.
    pub lost: u64,
    /// Whether it holds the turn.
    pub holds: bool,
    /// The history, while it holds the turn.
    pub hand: LinkedList<E>,
}
