//! The opens that are held, for contracts alone.

ghost use Rattle.std.specs.Prelude.{◌≡◌, ℕ, List, [], ◌∷◌, ◌++◌};
ghost use Rattle.std.specs.Borrow.{ftrue};
ghost use Rattle.tallies.specs.Held.{without_open};

use std::marker::Model;

// The opens that are held, as pairs of access and share. It has no bytes, and its functions do
// nothing when they run.
#[derive(Drop)]
pub(crate) struct HeldOpens {
    ghost pairs: { List (ℕ × ℕ) },
}

impl Model for HeldOpens {
    ghost also_owns = { λ _. ftrue };
}

// It owns nothing.
unsafe impl Send for HeldOpens {}

impl HeldOpens {
    // No open is held.
    pub(crate) fn none() -> HeldOpens
        ensures { result.pairs ≡ [] }
    {
        HeldOpens {}
    }

    // One more open is held.
    pub(crate) fn with(_before: &HeldOpens, _open: &(u32, u32)) -> HeldOpens
        ensures { result.pairs ≡ _before.now.pairs ++ _open.now ∷ [] }
    {
        HeldOpens {}
    }

    // One open with these masks is held no more.
    pub(crate) fn without(_before: &HeldOpens, _open: &(u32, u32)) -> HeldOpens
        ensures { result.pairs ≡ without_open _before.now.pairs _open.now }
    {
        HeldOpens {}
    }
}
