//! The script that was read.

ghost use Rattle.std.specs.Prelude.{◌≡◌, map};
ghost use Rattle.fsa_model.specs.Setup.{client_of};

use fsa_types::{CallList, ClientList, Setup, UpcaseTable};

/// What a script says: the case table and the clients, and the calls of its request lines.
pub struct Script {
    pub(crate) setup: Setup,
    pub(crate) lines: CallList,
}

// One drop of the whole, so that it is one step at each end of a function that holds one.
impl Drop for Script {
    fn drop(self) {
        let Script { setup: _, lines: _ } = self;
    }
}

impl Script {
    ghost use Rattle.script_read.specs.ScriptView.{contents};

    /// The clients, in the order of their lines, each with its name and its SIDs.
    pub fn clients(&self) -> &ClientList
        ensures { map client_of result.now.items ≡ (contents self.now).setup.clients }
    {
        &self.setup.clients
    }

    /// The case table.
    pub fn table(&self) -> &UpcaseTable
        ensures { result.now ≡ (contents self.now).setup.table }
    {
        &self.setup.table
    }

    /// One call for each request line, in order.
    pub fn lines(&self) -> &CallList
        ensures { result.now.items ≡ (contents self.now).lines }
    {
        &self.lines
    }
}
