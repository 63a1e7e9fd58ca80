//! The gate that a client passes before its turn.
ghost use Rattle.std.specs.Prelude.{ℕ};

/// Passed before each call's first try. It changes nothing and tells nothing: what it may do is
/// take time, so that a test can choose in which order clients come to their turns.
pub trait Gate {
    // The gate may be passed for this client's call of this number. Whoever lends a gate says for which
    // calls it is: it is passed for no other.
    ghost is_for: { Self → ℕ → ℕ → Type 0 };

    /// Passes the gate before the client's call with this number, counted from 1.
    fn pass(&self, client: u32, number: u32)
        requires { is_for self.now client number };
}

/// The gate that returns at once, for every call.
#[derive(Clone, Copy)]
pub struct OpenGate;

impl Gate for OpenGate {
    ghost is_for = { λ _ _ _. Unit {0} };

    fn pass(&self, _client: u32, _number: u32) {}
}
