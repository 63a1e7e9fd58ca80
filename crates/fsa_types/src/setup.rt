//! What a volume begins with: its case table and its clients.

use crate::case::UpcaseTable;
use crate::copy::TryCopy;
use crate::list::BoundedList;
use crate::memory::NoMemory;
use crate::text::Bytes;
use std::alloc::Global;

/// SIDs in order.
pub type SidList = BoundedList<u32>;

/// A client.
pub struct Client {
    /// Its name, as scripts and texts have it.
    pub name: Bytes,
    /// Its SIDs; the first owns what it makes. A setup has at least one for each client.
    pub sids: SidList,
}

// One drop of the whole, so that it is one step at each end of a function that holds one.
impl Drop for Client {
    fn drop(self) {
        let Client { name: _, sids: _ } = self;
    }
}

impl TryCopy for Client {
    fn copy(&self, alloc: Global) -> Result<Client, NoMemory> {
        Ok(Client {
            name: self.name.copy(alloc)?,
            sids: self.sids.copy(alloc)?,
        })
    }
}

/// Clients in order.
pub type ClientList = BoundedList<Client>;

/// What a volume begins with. Each call that takes a setup has the condition that each of its
/// clients has at least one SID.
#[derive(Drop)]
pub struct Setup {
    /// The case table by which names compare.
    pub table: UpcaseTable,
    /// The clients; a call names its client by the place in this list, from 0.
    pub clients: ClientList,
}

impl TryCopy for Setup {
    fn copy(&self, alloc: Global) -> Result<Setup, NoMemory> {
        Ok(Setup {
            table: self.table.copy(alloc)?,
            clients: self.clients.copy(alloc)?,
        })
    }
}
