//! A lock that waits for another one.

ghost use Rattle.std.specs.Prelude.{◌≡◌, ◌<◌, length};
ghost use Rattle.machine_example.specs.Asks.{CanBeMade};

use crate::asking::ask;
use crate::clients::two_clients;
use crate::lock_requests::{lock_by_first, open_shared, unlock_by_first};
use fsa_machine::VolumeMachine;
use fsa_types::{Answer, Interim, Out, Status, What, Why};
use std::alloc::Global;

/// How the locks of two clients on one range were answered.
#[derive(Clone, Copy, Debug, PartialEq, Eq)]
pub struct WaitingLock {
    /// How the first client's lock ended; `None` where it is pending.
    pub first: Option<Status>,
    /// Whether the second client's lock was pending for a byte-range lock.
    pub waited: bool,
    /// How the second client's lock ended in the turn of the first client's unlock; `None` where it didn't
    /// end in that turn.
    pub second: Option<Status>,
}

// An exclusive lock of the first ten bytes by the handle of the client's first call, which waits where
// they are locked.
fn lock() -> What
    ensures { CanBeMade result }
{
    lock_by_first(0, 10, true, true)
}

/// The status with which the turn's own call ended; `None` where it is pending.
pub fn own_status(out: &Out) -> Option<Status> {
    match &out.answer {
        Answer::Ended(reply) => Some(reply.status),
        Answer::Pending(_) => None,
    }
}

/// The status with which the client's call of this number ended in the turn, besides the turn's own answer; `None`
/// where it didn't.
pub fn status_of(out: &Out, client: u32, number: u32) -> Option<Status> {
    for end in out.ended.as_slice() {
        if end.client == client && end.number == number {
            return Some(end.reply.status);
        }
    }
    None
}

// Both clients open the file by their first calls.
fn open_both(alloc: Global, machine: &mut VolumeMachine) -> Result<(), Why>
    requires two { length machine.old.setup.clients ≡ 2 }
    ensures setup { machine.new.setup ≡ machine.old.setup }
{
    for client in 0..2 {
        let Ok(what) = open_shared(alloc) else {
            return Err(Why::NoMemory);
        };
        ask(alloc, machine, client, what)?;
    }
    Ok(())
}

// The first client locks the range, the second one waits for it, and the first one unlocks it.
fn lock_both(alloc: Global, machine: &mut VolumeMachine) -> Result<WaitingLock, Why>
    requires two { length machine.old.setup.clients ≡ 2 }
{
    let locked = ask(alloc, machine, 0, lock())?;
    let waiting = ask(alloc, machine, 1, lock())?;
    let unlocked = ask(alloc, machine, 0, unlock_by_first())?;
    Ok(WaitingLock {
        first: own_status(&locked),
        waited: matches!(waiting.answer, Answer::Pending(Interim::LockWait)),
        second: status_of(&unlocked, 1, 2),
    })
}

/// Two clients open one file. The first locks a range, the second's lock of it waits, and the first unlocks
/// the range. With ample memory the second's lock is granted in that turn. An error where there is no memory
/// for a call.
pub fn lock_that_waits(alloc: Global) -> Result<WaitingLock, Why> {
    let Ok(mut machine) = two_clients(alloc) else {
        return Err(Why::NoMemory);
    };
    open_both(alloc, &mut machine)?;
    lock_both(alloc, &mut machine)
}
