//! What is gone, for proofs alone.

ghost use Rattle.std.specs.Prelude.{◌≡◌, List, [], ◌∷◌, ◌++◌};
ghost use Rattle.std.specs.Borrow.{ftrue};

use std::marker::{Model, PhantomData};

/// Pairs of values as they once were, in order, which only proofs read. It has no bytes, and its calls do nothing.
#[derive(Drop)]
pub(crate) struct Past<A, B> {
    of: PhantomData<(A, B)>,
    pub ghost items: { List (A × B) },
}

impl<A, B> Model for Past<A, B> {
    ghost also_owns = { λ _. ftrue };
}

// It owns nothing.
unsafe impl<A: Send, B: Send> Send for Past<A, B> {}

impl<A, B> Past<A, B> {
    /// None.
    pub fn new() -> Past<A, B>
        ensures { result.items ≡ [] }
    {
        Past { of: PhantomData }
    }

    /// These, and behind them the values that these references are to.
    pub fn and(&self, first: &A, second: &B) -> Past<A, B>
        ensures { result.items ≡ self.now.items ++ (first.now, second.now) ∷ [] }
    {
        Past { of: PhantomData }
    }
}
