//! A sink for a run whose text isn't wanted.

use wire_io::{Failed, Sink};

/// A sink that takes all and keeps nothing. It never fails.
#[derive(Drop)]
pub struct Nowhere;

impl Sink for Nowhere {
    ghost use Rattle.std.specs.Prelude.{None};

    ghost written = { λ _. record { bytes = None; puts = 0; empty_puts = 0; since_fault = 0 } };

    ghost faults = { λ _. 0 };

    /// Takes the whole piece.
    fn put(&mut self, bytes: &[u8]) -> Result<usize, Failed> {
        Ok(bytes.len())
    }
}
