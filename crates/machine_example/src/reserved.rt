//! An answer to a break and its cancellation, in room that was taken before.

ghost use Rattle.std.specs.Prelude.{◌≡◌, ◌<◌, ◌≤◌, ◌+◌, ◌++◌, ◌∷◌, [], true, length, IfOk};
ghost use Rattle.fsa_model.specs.Bounds.{most_entries};
ghost use Rattle.fsa_model.specs.History.{GaveOut};
ghost use Rattle.fsa_model.specs.Outcome.{out_of};
ghost use Rattle.fsa_machine.specs.Spare.{is_ack_or_cancel};
ghost use Rattle.machine_example.specs.Asks.{CanBeMade, next_call};

use crate::asking::{ask, next_number};
use crate::clients::two_clients;
use crate::masks::{read, read_and_write, share_all};
use crate::waiting_lock::{own_status, status_of};
use fsa_machine::VolumeMachine;
use fsa_types::{
    Answer, Call, Disposition, Interim, Level, Name, NoMemory, Out, Request, Status, What, Why,
};
use std::alloc::Global;

/// How the answer to a break, and the cancellation of the call that was pending for it, were answered.
#[derive(Clone, Copy, Debug, PartialEq, Eq)]
pub struct KeptAnswer {
    /// Whether the answer was pending, with reading as what it keeps.
    pub granted: bool,
    /// How the open that waited for the break ended in that turn; `None` where it didn't.
    pub opened: Option<Status>,
    /// How the cancellation ended; `None` where it is pending.
    pub cancelled: Option<Status>,
    /// How the answer ended in that turn; `None` where it didn't.
    pub answer: Option<Status>,
    /// How many turns were made in all.
    pub turns: u64,
}

/// Makes a turn of the client's next call, an Ack or a Cancel, in room that was taken before. It can't be
/// refused: there has to be room for one turn, and fewer than 1,000,000 turns may have been made.
pub fn ask_in_room(alloc: Global, machine: &mut VolumeMachine, client: u32, what: What) -> Out
    requires client { client < length machine.old.setup.clients }
    requires can_be_made { CanBeMade what }
    requires short { is_ack_or_cancel what ≡ true }
    requires room { 1 ≤ machine.old.spare_turns }
    requires few { length machine.old.entries < most_entries }
    ensures setup { machine.new.setup ≡ machine.old.setup }
    ensures entries { machine.new.entries ≡ machine.old.entries ++ record { call = next_call machine.old.entries client what; starved = result.starved.items } ∷ [] }
    ensures out { GaveOut machine.new.setup machine.new.entries (out_of result) }
    ensures room { machine.old.spare_turns ≤ machine.new.spare_turns + 1 }
{
    let number = next_number(machine, client);
    let call = Call {
        client,
        number,
        what,
    };
    let Ok(out) = machine.turn(alloc, call) else {
        unreachable!()
    };
    out
}

// An open of `\o` by this disposition, with this key.
fn open(
    alloc: Global,
    wanted: u32,
    share: u32,
    disposition: Disposition,
    key: u64,
) -> Result<What, NoMemory>
    ensures { IfOk result CanBeMade }
{
    // `\o`, in UTF-16 units
    let path = Name::copy_of(alloc, &[92, 111])?;
    Ok(What::Ask(Request::Create {
        path,
        wanted,
        share,
        disposition,
        options: 0,
        attributes: 0,
        key,
    }))
}

// An oplock of all levels for the handle of the client's first call.
fn all_levels() -> What
    ensures { CanBeMade result }
{
    What::Ask(Request::Oplock {
        handle: 1,
        level: Level::RWH,
    })
}

// The answer to its break that keeps reading.
fn keep_reading() -> What
    ensures can_be_made { CanBeMade result }
    ensures short { is_ack_or_cancel result ≡ true }
{
    What::Ask(Request::Ack {
        handle: 1,
        level: Level::R,
    })
}

// The cancellation of the client's third call.
fn cancel_third() -> What
    ensures can_be_made { CanBeMade result }
    ensures short { is_ack_or_cancel result ≡ true }
{
    What::Ask(Request::Cancel { number: 3 })
}

// The first client opens a file for itself alone, and is granted an oplock; the second client's open waits for the
// break of that.
fn open_and_break(alloc: Global, machine: &mut VolumeMachine) -> Result<(), Why>
    requires two { length machine.old.setup.clients ≡ 2 }
    ensures setup { machine.new.setup ≡ machine.old.setup }
    ensures few { length machine.new.entries ≤ length machine.old.entries + 3 }
{
    let Ok(first) = open(alloc, read_and_write(), 0, Disposition::CreateNew, 1) else {
        return Err(Why::NoMemory);
    };
    ask(alloc, machine, 0, first)?;
    ask(alloc, machine, 0, all_levels())?;
    let Ok(second) = open(alloc, read(), share_all(), Disposition::OpenExisting, 0) else {
        return Err(Why::NoMemory);
    };
    ask(alloc, machine, 1, second)?;
    Ok(())
}

// The first client answers the break, and cancels its answer, in room for two turns.
fn answer_and_cancel(alloc: Global, machine: &mut VolumeMachine) -> KeptAnswer
    requires two { length machine.old.setup.clients ≡ 2 }
    requires room { 2 ≤ machine.old.spare_turns }
    requires few { length machine.old.entries ≤ 3 }
{
    let answered = ask_in_room(alloc, machine, 0, keep_reading());
    let cancelled = ask_in_room(alloc, machine, 0, cancel_third());
    KeptAnswer {
        granted: matches!(answered.answer, Answer::Pending(Interim::Granted(Level::R))),
        opened: status_of(&answered, 1, 1),
        cancelled: own_status(&cancelled),
        answer: status_of(&cancelled, 0, 3),
        turns: machine.len(),
    }
}

/// The first client has an oplock on a file that it opened for itself alone, and the second client's open of it
/// waits for the break. Room for two turns is taken; from there on no call can be refused: the first client answers
/// that it keeps reading, which lets the open go on, and cancels the answer, which is pending. An error where there
/// is no memory before.
pub fn answer_in_room(alloc: Global) -> Result<KeptAnswer, Why> {
    let Ok(mut machine) = two_clients(alloc) else {
        return Err(Why::NoMemory);
    };
    open_and_break(alloc, &mut machine)?;
    let Ok(()) = machine.reserve(alloc, 2) else {
        return Err(Why::NoMemory);
    };
    Ok(answer_and_cancel(alloc, &mut machine))
}
