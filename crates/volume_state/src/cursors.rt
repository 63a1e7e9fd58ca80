//! Where the enumerations of directories stand.

ghost use Rattle.std.specs.Prelude.{◌≡◌, false};
ghost use Rattle.std.specs.Option.{option_and_then, option_copied};
ghost use Rattle.fsa_types.specs.Match.{is_refused};
ghost use Rattle.fsa_types.specs.Rows.{row_of};
ghost use Rattle.fsa_model.specs.Edits.{with_cursor};
ghost use Rattle.volume_rows.specs.Cursors.{cursor_of};

use crate::volume::Volume;
use fsa_types::Name;
use volume_rows::{Cursor, Enumeration};

impl Volume {
    /// The enumeration of a handle; `None` exactly where there is no such handle, and before its first
    /// `set_cursor`.
    pub fn cursor(&self, handle: u64) -> Option<&Enumeration>
        ensures { option_copied result ≡ option_and_then (λ row. row.enumeration) (row_of self.now.content.handles handle) }
    {
        match self.handles.get(handle) {
            None => None,
            Some(row) => row.enumeration.as_ref(),
        }
    }

    /// Sets the expression of a handle's enumeration, and where it stands; where there is no such handle
    /// nothing changes. The expression may not be one that is refused. It takes no memory.
    pub fn set_cursor(&mut self, handle: u64, expression: Name, cursor: Cursor)
        requires { is_refused expression ≡ false }
        ensures content { self.new.content ≡ with_cursor self.old.content handle expression (cursor_of cursor) }
        ensures beside { self.new.beside ≡ self.old.beside }
        ensures room { self.new.spare ≡ self.old.spare }
    {
        self.handles
            .set_enumeration(handle, Enumeration::new(expression, cursor));
    }
}
