//! Why a script, or a line of one, is not read.

use fsa_types::NoMemory;
use std::alloc::{AllocError, AllocFailed};

/// The kind of a line's fault. Of several the first of this order is named.
#[derive(Clone, Copy, Debug, PartialEq, Eq)]
pub enum ScriptKind {
    /// The last line has no line feed, or the script has no bytes.
    Cut,
    /// The bytes are no line that may stand here.
    Syntax,
    /// A client is named that was named before, or a request's client was not.
    Client,
    /// A request's number is not the next one of its client.
    Number,
}

/// The first faulty line of a script, and its first kind.
#[derive(Clone, Copy, Debug, PartialEq, Eq)]
pub struct ScriptFault {
    /// The line, counted from 1.
    pub line: u32,
    /// What is wrong with it.
    pub kind: ScriptKind,
}

/// Why a script is not read.
#[derive(Clone, Copy, Debug, PartialEq, Eq)]
pub enum ReadFault {
    /// The bytes are no script.
    Bad(ScriptFault),
    /// There is no memory for what the script says, or it has 2 ^ 32 - 1 bytes or more, so that the
    /// number of a line may not fit.
    NoMemory,
}

impl From<NoMemory> for ReadFault {
    ghost use Rattle.std.specs.Prelude.{◌≡◌};
    ghost use Rattle.script_read.specs.declared.fault.ReadFault.TheVariants.{NoMemory};

    ghost from_gives = { λ _ fault. fault ≡ NoMemory };

    fn from(_error: fsa_types::NoMemory) -> ReadFault {
        ReadFault::NoMemory
    }
}

/// Why a line is not read.
#[derive(Clone, Copy)]
pub enum LineFault {
    /// There is no memory for what it says.
    NoMemory,
    /// What is wrong with it.
    Bad(ScriptKind),
}

impl From<NoMemory> for LineFault {
    ghost use Rattle.std.specs.Prelude.{◌≡◌};
    ghost use Rattle.script_read.specs.declared.fault.LineFault.TheVariants.{NoMemory};

    ghost from_gives = { λ _ fault. fault ≡ NoMemory };

    fn from(_error: fsa_types::NoMemory) -> LineFault {
        LineFault::NoMemory
    }
}

impl From<AllocError> for LineFault {
    ghost use Rattle.std.specs.Prelude.{◌≡◌};
    ghost use Rattle.script_read.specs.declared.fault.LineFault.TheVariants.{NoMemory};

    ghost from_gives = { λ _ fault. fault ≡ NoMemory };

    fn from(_error: AllocError) -> LineFault {
        LineFault::NoMemory
    }
}

impl<T: Drop> From<AllocFailed<T>> for LineFault {
    ghost use Rattle.std.specs.Prelude.{◌≡◌};
    ghost use Rattle.script_read.specs.declared.fault.LineFault.TheVariants.{NoMemory};

    ghost from_gives = { λ _ fault. fault ≡ NoMemory };

    fn from(_error: AllocFailed<T>) -> LineFault {
        LineFault::NoMemory
    }
}

/// The fault of a line that is none.
pub const SYNTAX: LineFault = LineFault::Bad(ScriptKind::Syntax);
