//! The generated script: 4,096 requests of four clients, each by a number that is drawn from a seed on.

ghost use Rattle.std.specs.Prelude.{◌≡◌, ◌%◌, ◌∷◌, [], Some, map, replicate, IfOk};
ghost use Rattle.fsa_types.specs.declared.request.Request.TheVariants.{Write};
ghost use Rattle.fsa_types.specs.declared.request.What.TheVariants.{Ask};
ghost use Rattle.fsa_model.specs.Generator.{next_state, drawn, generated_open, generated_path, level_by, generated_what, generated_call, generated_calls, generated_clients, generated};
ghost use Rattle.fsa_model.specs.Setup.{client_of};
ghost use Rattle.script_read.specs.ScriptView.{contents};

use crate::script::Script;
use bitflags::Flags;
use fsa_types::{
    AccessMask, Bytes, Call, CallList, Client, ClientList, Disposition, InfoKind, Level, Name,
    NoMemory, Request, Setup, ShareAccess, SidList, UpcaseTable, What,
};
use std::alloc::Global;

// How many calls there are.
const COUNT: u32 = 4096;

// The state after this one.
fn next_state(state: u64) -> u64
    ensures { result ≡ next_state state }
{
    state
        .wrapping_mul(6364136223846793005)
        .wrapping_add(1442695040888963407)
}

// The number that is drawn of a state.
fn drawn(state: u64) -> u64
    ensures { result ≡ drawn state }
{
    state >> 33
}

// One of 64 paths.
fn generated_path(alloc: Global, number: u64) -> Result<Name, NoMemory>
    ensures { IfOk result (λ path. path ≡ generated_path number) }
{
    let file = (number % 64) as u16;
    if file < 10 {
        Name::copy_of(alloc, &[92, 102, 48 + file])
    } else {
        Name::copy_of(alloc, &[92, 102, 48 + file / 10, 48 + file % 10])
    }
}

// One of the four levels.
fn level_by(choice: u64) -> Level
    ensures { result ≡ level_by choice }
{
    match choice {
        0 => Level::R,
        1 => Level::RH,
        2 => Level::RW,
        _ => Level::RWH,
    }
}

// An open of one of the paths, which reads and writes, and shares all.
fn generated_open(alloc: Global, number: u64) -> Result<What, NoMemory>
    ensures { IfOk result (λ what. what ≡ generated_open number) }
{
    let wanted = AccessMask::READ_DATA.bits() | AccessMask::WRITE_DATA.bits();
    let share = ShareAccess::SHARE_READ.bits()
        | ShareAccess::SHARE_WRITE.bits()
        | ShareAccess::SHARE_DELETE.bits();
    let path = generated_path(alloc, number)?;
    Ok(What::Ask(Request::Create {
        path,
        wanted,
        share,
        disposition: Disposition::OpenIf,
        options: 0,
        attributes: 0,
        key: 0,
    }))
}

// A write of sixteen bytes.
fn generated_write(alloc: Global, handle: u32, number: u64) -> Result<What, NoMemory>
    ensures { IfOk result (λ what. what ≡ Ask (Write handle (Some (number % 65536)) (replicate 16 (number % 256)))) }
{
    let bytes = vec![in alloc; (number % 256) as u8; 16]?;
    Ok(What::Ask(Request::Write {
        handle,
        at: Some(number % 65536),
        bytes: Bytes::from(bytes),
    }))
}

// The step of eight, with the handle of this number, by the number that was drawn.
fn generated_what(alloc: Global, step: u32, handle: u32, number: u64) -> Result<What, NoMemory>
    ensures { IfOk result (λ what. what ≡ generated_what step handle number) }
{
    let request = match step {
        0 => return generated_open(alloc, number),
        1 => return Ok(What::WaitFor(handle)),
        2 => Request::Oplock {
            handle,
            level: level_by(number % 4),
        },
        3 => return generated_write(alloc, handle, number),
        4 => Request::Read {
            handle,
            at: number % 65536,
            count: 4096,
        },
        5 => Request::Lock {
            handle,
            at: number % 65536,
            count: 64,
            exclusive: number % 2 == 1,
            wait: false,
        },
        6 => Request::QueryInfo {
            handle,
            kind: InfoKind::Standard,
            room: 24,
        },
        _ => Request::Close { handle },
    };
    Ok(What::Ask(request))
}

// The call of this place.
fn generated_call(alloc: Global, place: u32, number: u64) -> Result<Call, NoMemory>
    ensures { IfOk result (λ call. call ≡ generated_call place number) }
{
    let turn = place / 4;
    let step = turn % 8;
    let what = generated_what(alloc, step, turn + 1 - step, number)?;
    Ok(Call {
        client: place % 4,
        number: turn + 1,
        what,
    })
}

// The calls of a seed.
fn generated_calls(alloc: Global, seed: u64) -> Result<CallList, NoMemory>
    ensures { IfOk result (λ calls. calls.items ≡ generated_calls 4096 0 seed) }
{
    let mut calls = CallList::with_room(alloc, COUNT)?;
    let mut state = seed;
    let mut place = 0;
    'calls: while place < COUNT {
        state = next_state(state);
        calls.push(generated_call(alloc, place, drawn(state))?);
        place += 1;
    }
    Ok(calls)
}

// A client with one SID.
fn generated_client(alloc: Global, name: &[u8], sid: u32) -> Result<Client, NoMemory>
    ensures { IfOk result (λ client. client_of client ≡ record { name = name.now; sids = sid ∷ [] }) }
{
    let mut sids = SidList::with_room(alloc, 1)?;
    sids.push(sid);
    let name = Bytes::copy_of(alloc, name)?;
    Ok(Client { name, sids })
}

// The four clients.
fn generated_clients(alloc: Global) -> Result<ClientList, NoMemory>
    ensures { IfOk result (λ clients. map client_of clients.items ≡ generated_clients) }
{
    let mut clients = ClientList::with_room(alloc, 4)?;
    clients.push(generated_client(alloc, b"c0", 10)?);
    clients.push(generated_client(alloc, b"c1", 11)?);
    clients.push(generated_client(alloc, b"c2", 12)?);
    clients.push(generated_client(alloc, b"c3", 13)?);
    Ok(clients)
}

/// The generated script of a seed: each of its four clients opens, waits, asks for an oplock, writes, reads,
/// locks, queries and closes, 128 times over.
#[tactic(auto, unfolding(fsa_model::specs::Generator::generated))]
pub fn generate(alloc: Global, seed: u64) -> Result<Script, NoMemory>
    ensures { IfOk result (λ script. contents script ≡ generated seed) }
{
    let table = UpcaseTable::ascii(alloc)?;
    let clients = generated_clients(alloc)?;
    let lines = generated_calls(alloc, seed)?;
    let setup = Setup { table, clients };
    Ok(Script { setup, lines })
}
