//! A byte-range lock of a handle.

ghost use Rattle.std.specs.Prelude.{◌≡◌};

use std::marker::Model;

/// A byte-range lock, after [MS-FSA] 'Per ByteRangeLock'.
#[derive(Clone, Copy)]
pub struct LockRow {
    /// The handle that holds it.
    pub handle: u64,
    /// Its first byte's place in the stream.
    pub at: u64,
    /// How many bytes it has; none is allowed, and so is an end past 2^64.
    pub count: u64,
    /// Whether it is exclusive; else it is shared.
    pub exclusive: bool,
}

impl Model for LockRow {
    ghost use Rattle.fsa_model.specs.Volume.{Lock};

    ghost Value = { Lock };

    ghost view = { λ r. record { handle = r.handle; at = r.at; count = r.count; exclusive = r.exclusive } };

    ghost inverse = { λ l. record { handle = l.handle; at = l.at; count = l.count; exclusive = l.exclusive } };
}
