//! Setups of two and of three clients, and machines over them.

ghost use Rattle.std.specs.Prelude.{◌≡◌, ◌<◌, [], All, IfOk, length};

use fsa_machine::VolumeMachine;
use fsa_types::{Bytes, Client, ClientList, NoMemory, Setup, SidList, UpcaseTable};
use std::alloc::Global;

// A client of this name with one SID.
fn client(alloc: Global, name: &[u8], sid: u32) -> Result<Client, NoMemory>
    ensures sids { IfOk result (λ client. length client.sids.items ≡ 1) }
{
    let mut sids = SidList::with_room(alloc, 1)?;
    sids.push(sid);
    let name = Bytes::copy_of(alloc, name)?;
    Ok(Client { name, sids })
}

/// The clients `a` with the SID 7 and `b` with the SID 9, and the default case table. `NoMemory` where there is none
/// for them.
pub fn setup_of_two(alloc: Global) -> Result<Setup, NoMemory>
    ensures two { IfOk result (λ setup. length setup.clients.items ≡ 2) }
    ensures sids { IfOk result (λ setup. All (λ client. 0 < length client.sids.items) setup.clients.items) }
{
    let mut clients = ClientList::with_room(alloc, 2)?;
    clients.push(client(alloc, b"a", 7)?);
    clients.push(client(alloc, b"b", 9)?);
    let table = UpcaseTable::ascii(alloc)?;
    Ok(Setup { table, clients })
}

/// The clients `a` with the SID 7, `b` with the SID 9 and `c` with the SID 11, and the default case table. `NoMemory`
/// where there is none for them.
pub fn setup_of_three(alloc: Global) -> Result<Setup, NoMemory>
    ensures three { IfOk result (λ setup. length setup.clients.items ≡ 3) }
    ensures sids { IfOk result (λ setup. All (λ client. 0 < length client.sids.items) setup.clients.items) }
{
    let mut clients = ClientList::with_room(alloc, 3)?;
    clients.push(client(alloc, b"a", 7)?);
    clients.push(client(alloc, b"b", 9)?);
    clients.push(client(alloc, b"c", 11)?);
    let table = UpcaseTable::ascii(alloc)?;
    Ok(Setup { table, clients })
}

/// A machine with no history and two clients: `a` (place 0) with the SID 7 and `b` (place 1) with the SID 9.
/// `NoMemory` where there is none for it.
pub fn two_clients(alloc: Global) -> Result<VolumeMachine, NoMemory>
    ensures two { IfOk result (λ machine. length machine.setup.clients ≡ 2) }
    ensures entries { IfOk result (λ machine. machine.entries ≡ []) }
{
    let setup = setup_of_two(alloc)?;
    VolumeMachine::new(alloc, setup)
}

/// A machine with no history and three clients: those of `two_clients`, and `c` (place 2) with the SID 11.
/// `NoMemory` where there is none for it.
pub fn three_clients(alloc: Global) -> Result<VolumeMachine, NoMemory>
    ensures three { IfOk result (λ machine. length machine.setup.clients ≡ 3) }
{
    let setup = setup_of_three(alloc)?;
    VolumeMachine::new(alloc, setup)
}
