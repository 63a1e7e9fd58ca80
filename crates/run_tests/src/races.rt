//! Races: clients that run side by side, each on a thread of its own.
ghost use Rattle.std.specs.Prelude.{IfSome};
ghost use Rattle.script_read.specs.ScriptView.{contents};
ghost use Rattle.client_race.specs.Races.{CanRace};

use crate::program::words_of;
use client_race::race_history;
use fsa_machine::VolumeMachine;
use fsa_top::fsa_main;
use script_read::{Script, read_script};
use std::alloc::{AllocError, Global};
use std::rt::Clock;
use std::sync::Wait;
use std::sync::atomic::{AtomicU64, Ordering};
use std::test::Fail;
use std::thread;
use std::thread::Threads;
use wire_io::{Gate, MemorySink, MemorySource};

// Two clients, each with one call and its leaving.
const TWO: &str = "fsa 1\nclient a 7\nclient b 9\na 1 tick 1\nb 1 tick 1\n";

// Holds the first call of one client until another has come to its second, or 10,000,000 looks were made;
// and counts how often it is passed.
#[derive(Drop)]
struct Holding {
    held: u32,
    other: u32,
    came: AtomicU64,
    passes: AtomicU64,
}

impl Holding {
    // No client is held where both are the same.
    fn new(held: u32, other: u32) -> Holding {
        Holding {
            held,
            other,
            came: AtomicU64::new(0),
            passes: AtomicU64::new(0),
        }
    }
}

impl Gate for Holding {
    ghost is_for = { λ _ _ _. Unit {0} };

    fn pass(&self, client: u32, number: u32) {
        self.passes.fetch_add(1, Ordering::SeqCst);
        if self.held == self.other {
            return;
        }
        if client == self.other && number == 2 {
            self.came.store(1, Ordering::SeqCst);
        }
        if client == self.held && number == 1 {
            for _ in 0..10_000_000u32 {
                if self.came.load(Ordering::SeqCst) == 1 {
                    return;
                }
                thread::yield_now();
            }
        }
    }
}

// The status and the text of a race.
fn race<R: Threads + Wait + Clock + Sync>(
    rt: &R,
    alloc: Global,
    script: &[u8],
    gate: &Holding,
) -> Result<(u8, MemorySink), Fail> {
    let words = words_of(alloc, "race")?;
    let mut source = MemorySource::new(alloc, script, 4096, &[])?;
    let mut sink = MemorySink::new(alloc, 65536, 4096, &[])?;
    let status = fsa_main(rt, alloc, words.as_slice(), &mut source, &mut sink, gate);
    Ok((status, sink))
}

// A client whose first call is held until the other has come to its second comes last: so both run.
#[test]
fn a_held_client_comes_last(rt: HostRuntime) -> Result<(), Fail> {
    for (held, first) in [(0u32, "> b 1 tick\n"), (1, "> a 1 tick\n")] {
        let gate = Holding::new(held, 1 - held);
        let (status, sink) = race(&rt, rt.alloc(), TWO.as_bytes(), &gate)?;
        assert_eq!(rt; status, 0);
        assert!(rt; sink.bytes().starts_with(first.as_bytes()));
        assert!(rt; sink.bytes().ends_with(b"\nend 4\n"));
        assert_eq!(rt; gate.passes.load(Ordering::SeqCst), 4);
    }
    Ok(())
}

// The script that these bytes are, where it is within the limits of `race`.
fn script_within(alloc: Global, bytes: &[u8]) -> Option<Script>
    ensures can { IfSome result (λ script. CanRace (contents script)) }
{
    let Ok(script) = read_script(alloc, bytes) else {
        return None;
    };
    let lines = script.lines().len();
    let clients = script.clients().len();
    if lines > 40_000 || clients > 64 {
        return None;
    }
    Some(script)
}

// The history that `race_history` gives for a script, once its volume is closed.
fn closed_history<R: Threads + Wait + Clock + Sync>(
    rt: &R,
    alloc: Global,
    bytes: &[u8],
    gate: &Holding,
) -> Option<VolumeMachine> {
    let script = script_within(alloc, bytes)?;
    let Ok((volume, passes)) = race_history(rt, alloc, &script, gate) else {
        return None;
    };
    Some(volume.close(passes))
}

// The client and the number of the first call of a history.
fn first_call(machine: &VolumeMachine) -> Option<(u32, u32)> {
    if machine.len() == 0 {
        return None;
    }
    let call = machine.call_at(0);
    Some((call.client, call.number))
}

// So it is of the history that the volume and its passes give.
#[test]
fn a_held_client_comes_last_in_the_history(rt: HostRuntime) -> Result<(), Fail> {
    for (held, first) in [(0u32, 1u32), (1, 0)] {
        let gate = Holding::new(held, 1 - held);
        let machine = closed_history(&rt, rt.alloc(), TWO.as_bytes(), &gate).ok_or("no history")?;
        assert_eq!(rt; machine.len(), 4);
        assert_eq!(rt; first_call(&machine), Some((first, 1)));
        assert_eq!(rt; gate.passes.load(Ordering::SeqCst), 4);
    }
    Ok(())
}

// 64 clients that each open one file, write one byte at their own place and close.
fn sixty_four(alloc: Global) -> Result<String, AllocError> {
    let mut script = String::from_str(alloc, "fsa 1\n")?;
    for client in 0..64u32 {
        script.push_str(format!(in alloc; "client c{client} 7\n")?.as_str())?;
    }
    for client in 0..64u32 {
        script.push_str(format!(in alloc;
            "c{client} 1 create =\\z 0x2 0x7 open_if 0x0 0x0 0\nc{client} 2 write 1 {client} x41\nc{client} 3 close 1\n"
        )?.as_str())?;
    }
    Ok(script)
}

// The gate is passed once for each call, however often the turn was in the way.
#[test]
fn race_of_64_clients(rt: HostRuntime) -> Result<(), Fail> {
    let script = sixty_four(rt.alloc())?;
    let gate = Holding::new(0, 0);
    let (status, sink) = race(&rt, rt.alloc(), script.as_bytes(), &gate)?;
    assert_eq!(rt; status, 0);
    assert!(rt; sink.bytes().ends_with(b"\nend 256\n"));
    assert_eq!(rt; gate.passes.load(Ordering::SeqCst), 256);
    Ok(())
}
