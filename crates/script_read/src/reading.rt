//! What the lines so far say.

ghost use Rattle.std.specs.Prelude.{◌≡◌};

use crate::names::NameList;
use crate::pairs::PairList;
use crate::stage::Stage;
use fsa_types::{CallList, ClientList};

/// What was read so far.
pub struct Reading {
    /// What was read last.
    pub stage: Stage,
    /// Whether the default case table holds, or else the pairs.
    pub default_table: bool,
    /// The pairs of the case table.
    pub pairs: PairList,
    /// The clients' names, in order.
    pub names: NameList,
    /// The clients, in order.
    pub clients: ClientList,
    /// The number of each client's last call, 0 before the first.
    pub last_numbers: Vec<u32>,
    /// The calls, in order.
    pub calls: CallList,
}

// One drop of the whole, so that it is one step at each end of a function that holds one.
impl Drop for Reading {
    fn drop(self) {
        let Reading {
            stage: _,
            default_table: _,
            pairs: _,
            names: _,
            clients: _,
            last_numbers: _,
            calls: _,
        } = self;
    }
}

impl Reading {
    /// The clients and the calls that were read.
    pub fn into_parts(self) -> (ClientList, CallList)
        ensures clients { result.0 ≡ self.clients }
        ensures calls { result.1 ≡ self.calls }
    {
        let Reading {
            stage: _,
            default_table: _,
            pairs: _,
            names: _,
            clients,
            last_numbers: _,
            calls,
        } = self;
        (clients, calls)
    }
}
