//! Where bytes come from.
ghost use Rattle.std.specs.Prelude.{ℕ, List, Option, ◌+◌, ◌≤◌, length, IfOk};
ghost use Rattle.wire_io.specs.Faults.{HasCause};
ghost use Rattle.wire_io.specs.Source.{Taken, Takes, CountsTake, not_counted};

use super::faults::Failed;

/// Gives its bytes in pieces, in order.
pub trait Source {
    // The bytes that are left, where the source tells them.
    ghost left: { Self → Option (List ℕ) };

    // How many faults there were. Its last value is 2^64 - 1.
    ghost faults: { Self → ℕ };

    // How many takes were made, where the source counts them. One that counts none keeps 0.
    ghost takes: { Self → ℕ } = { λ _. 0 };

    // How many bytes were given and how many takes stopped, where the source counts them.
    ghost taken: { Self → Taken } = { λ _. not_counted };

    /// Puts the next bytes at the front of `buf` and answers how many; 0 for a `buf` that isn't
    /// empty is the end. The rest of `buf` may hold anything.
    fn take(&mut self, buf: &mut [u8]) -> Result<usize, Failed>
        ensures bound { IfOk result (λ n. n ≤ length buf.new) }
        ensures bytes { Takes (left self.old) (left self.new) result buf.new }
        ensures cause { HasCause (faults self.old) (faults self.new) result }
        ensures counted { takes self.new ≤ takes self.old + 1 }
        ensures taken { CountsTake (taken self.old) (taken self.new) result (length buf.new) };
}
