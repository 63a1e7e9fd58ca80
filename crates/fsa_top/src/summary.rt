//! The summary of a history: how many turns it has, and how many calls ended with each status.

ghost use Rattle.std.specs.Prelude.{◌≡◌, ◌++◌, ◌∷◌, [], Some, IfOk, codes, decimal, length, map};
ghost use Rattle.std.specs.List.{flat_map};
ghost use Rattle.fsa_model.specs.History.{Run, run};
ghost use Rattle.fsa_model.specs.Outcome.{out_of};
ghost use Rattle.fsa_model.specs.Summary.{answer_statuses, count_line, count_of, statuses_of, summary_text};
ghost use Rattle.fsa_top.specs.Summaries.{counts_text};

use fsa_machine::VolumeMachine;
use fsa_types::{Answer, EndOf, NoMemory, Out, Status};
use itoa::Buffer;
use std::alloc::Global;

// Each status, by rising codes.
const STATUSES: [Status; 45] = [
    Status::Success,
    Status::Pending,
    Status::Reparse,
    Status::OplockBreakInProgress,
    Status::NotifyCleanup,
    Status::NotifyEnumDir,
    Status::OplockSwitchedToNewHandle,
    Status::OplockHandleClosed,
    Status::BufferOverflow,
    Status::NoMoreFiles,
    Status::StoppedOnSymlink,
    Status::InfoLengthMismatch,
    Status::InvalidHandle,
    Status::InvalidParameter,
    Status::NoSuchFile,
    Status::InvalidDeviceRequest,
    Status::EndOfFile,
    Status::AccessDenied,
    Status::BufferTooSmall,
    Status::ObjectNameInvalid,
    Status::ObjectNameNotFound,
    Status::ObjectNameCollision,
    Status::ObjectPathNotFound,
    Status::SharingViolation,
    Status::QuotaExceeded,
    Status::FileLockConflict,
    Status::LockNotGranted,
    Status::DeletePending,
    Status::RangeNotLocked,
    Status::DiskFull,
    Status::FileIsADirectory,
    Status::OplockNotGranted,
    Status::InvalidOplockProtocol,
    Status::DirectoryNotEmpty,
    Status::NotADirectory,
    Status::Cancelled,
    Status::CannotDelete,
    Status::InvalidLockRange,
    Status::TooManyLinks,
    Status::NotAReparsePoint,
    Status::IoReparseTagInvalid,
    Status::IoReparseTagMismatch,
    Status::IoReparseDataInvalid,
    Status::Stalled,
    Status::NoMemory,
];

// Puts the status of a turn's own call at the end, where it has ended.
fn push_answer(ends: &mut Vec<Status>, answer: &Answer) -> Result<(), NoMemory>
    ensures { IfOk result (λ _. ends.new.items ≡ ends.old.items ++ answer_statuses answer.now) }
{
    match answer {
        Answer::Ended(reply) => {
            ends.push(reply.status)?;
            Ok(())
        }
        Answer::Pending(_) => Ok(()),
    }
}

// Puts the statuses of the calls that ended besides at the end.
fn push_ended(ends: &mut Vec<Status>, ended: &[EndOf]) -> Result<(), NoMemory>
    ensures { IfOk result (λ _. ends.new.items ≡ ends.old.items ++ map (λ end. end.reply.status) ended.now) }
{
    for end in ended {
        ends.push(end.reply.status)?;
    }
    Ok(())
}

// Puts the statuses with which calls ended in a turn at the end.
fn push_statuses(ends: &mut Vec<Status>, out: &Out) -> Result<(), NoMemory>
    ensures { IfOk result (λ _. ends.new.items ≡ ends.old.items ++ statuses_of (out_of out.now)) }
{
    push_answer(ends, &out.answer)?;
    push_ended(ends, out.ended.as_slice())
}

// The statuses with which calls ended in the turns of a machine.
fn statuses_in(alloc: Global, machine: &VolumeMachine) -> Result<Vec<Status>, NoMemory>
    ensures { IfOk result (λ ends. (r : Run) → run machine.now.setup machine.now.entries ≡ Some r → ends.items ≡ flat_map statuses_of r.outs) }
{
    let mut ends = Vec::new(alloc);
    for turn in 0..machine.len() {
        push_statuses(&mut ends, machine.out_at(turn))?;
    }
    Ok(ends)
}

// How many of these are this one.
fn count_of(ends: &[Status], this: Status) -> usize
    ensures { result ≡ count_of ends.now this }
{
    ends.iter().filter(|end| end.code() == this.code()).count()
}

// Puts the line of a status at the end, where calls ended with it.
fn push_count(text: &mut Vec<u8>, ends: &[Status], this: Status) -> Result<(), NoMemory>
    ensures { IfOk result (λ _. text.new.items ≡ text.old.items ++ count_line ends.now this) }
{
    let count = count_of(ends, this);
    if count == 0 {
        return Ok(());
    }
    let mut buffer = Buffer::new();
    text.extend_from_slice(this.name().as_bytes())?;
    text.push(b' ')?;
    text.extend_from_slice(buffer.format(count as u64).as_bytes())?;
    text.push(b'\n')?;
    Ok(())
}

// Puts the lines of these statuses at the end.
fn push_counts(text: &mut Vec<u8>, ends: &[Status], statuses: &[Status]) -> Result<(), NoMemory>
    ensures { IfOk result (λ _. text.new.items ≡ text.old.items ++ flat_map (count_line ends.now) statuses.now) }
{
    for this in statuses {
        push_count(text, ends, *this)?;
    }
    Ok(())
}

// Puts the lines of all statuses with which calls ended at the end.
fn push_all_counts(text: &mut Vec<u8>, ends: &[Status]) -> Result<(), NoMemory>
    ensures { IfOk result (λ _. text.new.items ≡ text.old.items ++ counts_text ends.now) }
{
    push_counts(text, ends, &STATUSES)
}

// Puts the first line at the end: the number of turns.
fn push_turns(text: &mut Vec<u8>, turns: u64) -> Result<(), NoMemory>
    ensures { IfOk result (λ _. text.new.items ≡ text.old.items ++ codes "turns " ++ decimal turns ++ 10 ∷ []) }
{
    let mut buffer = Buffer::new();
    text.extend_from_slice(b"turns ".as_slice())?;
    text.extend_from_slice(buffer.format(turns).as_bytes())?;
    text.push(b'\n')?;
    Ok(())
}

// The summary of so many turns, in which calls ended with these statuses.
fn summary_text(alloc: Global, turns: u64, ends: &[Status]) -> Result<Vec<u8>, NoMemory>
    ensures { IfOk result (λ text. text.items ≡ summary_text turns ends.now) }
{
    let mut text = Vec::new(alloc);
    push_turns(&mut text, turns)?;
    push_all_counts(&mut text, ends)?;
    text.extend_from_slice(b"end\n".as_slice())?;
    Ok(text)
}

/// The summary of a machine's history.
pub fn summary_of(alloc: Global, machine: &VolumeMachine) -> Result<Vec<u8>, NoMemory>
    ensures { IfOk result (λ text. (r : Run) → run machine.now.setup machine.now.entries ≡ Some r → text.items ≡ summary_text (length machine.now.entries) (flat_map statuses_of r.outs)) }
{
    let ends = statuses_in(alloc, machine)?;
    let text = summary_text(alloc, machine.len(), &ends)?;
    Ok(text)
}
