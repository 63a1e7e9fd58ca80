//! Enumerations of directories: the expression that names have to match, and where one stands.

ghost use Rattle.std.specs.Prelude.{◌≡◌, false};
ghost use Rattle.fsa_types.specs.Match.{is_refused};
ghost use Rattle.volume_rows.specs.Cursors.{cursor_of};

use fsa_types::{Name, NoMemory, TryCopy};
use std::alloc::Global;
use std::marker::Model;

/// Where an enumeration of a directory stands.
#[derive(Drop)]
pub enum Cursor {
    /// At its start.
    Start,
    /// After `.`.
    Dot,
    /// After `..`.
    DotDot,
    /// After this name.
    After(Name),
}

impl TryCopy for Cursor {
    fn copy(&self, alloc: Global) -> Result<Cursor, NoMemory> {
        match self {
            Cursor::Start => Ok(Cursor::Start),
            Cursor::Dot => Ok(Cursor::Dot),
            Cursor::DotDot => Ok(Cursor::DotDot),
            Cursor::After(name) => Ok(Cursor::After(name.copy(alloc)?)),
        }
    }
}

/// The enumeration of a directory through a handle. Its expression is none that is refused.
pub struct Enumeration {
    expression: Name,
    cursor: Cursor,
}

// One drop of the whole, so that it is one step at each end of a function that holds one.
impl Drop for Enumeration {
    fn drop(self) {
        let Enumeration {
            expression: _,
            cursor: _,
        } = self;
    }
}

impl Model for Enumeration {
    ghost use Rattle.std.specs.Prelude.{◌≡◌, false};
    ghost use Rattle.fsa_types.specs.Match.{is_refused};
    ghost use Rattle.volume_rows.specs.Enumerated.{Enumerated};

    ghost Value = { Enumerated };

    ghost use Rattle.volume_rows.specs.Cursors.{cursor_of};

    ghost view = { λ e. (e.expression, cursor_of e.cursor) };

    ghost invariant = { λ e. is_refused e.expression ≡ false };
}

impl Enumeration {
    /// An enumeration of the names that match this expression, standing there. The expression may not be
    /// one that is refused: at most 255 units, none of them below 0x20 or one of `\ / : |`.
    pub fn new(expression: Name, cursor: Cursor) -> Enumeration
        requires { is_refused expression ≡ false }
        ensures { result ≡ (expression, cursor_of cursor) }
    {
        Enumeration { expression, cursor }
    }

    /// The expression that names have to match; it is none that is refused.
    pub fn expression(&self) -> &Name
        ensures units { result.now ≡ self.now.0 }
        ensures sound { is_refused self.now.0 ≡ false }
    {
        &self.expression
    }

    /// Where it stands.
    pub fn cursor(&self) -> &Cursor
        ensures { cursor_of result.now ≡ self.now.1 }
    {
        &self.cursor
    }
}
