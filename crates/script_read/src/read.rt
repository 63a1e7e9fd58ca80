//! The lines of a script, one after the other.

ghost use Rattle.std.specs.Prelude.{◌≡◌, ◌==◌, ◌+◌, ◌-◌, ◌^◌, ◌<◌, ◌≤◌, ◌∷◌, [], Result, Ok, IfErr, IfOk, IfSome, MatchOption, OnOk, length, position, count_by};
ghost use Rattle.fsa_model.specs.Fault.{Kind};
ghost use Rattle.fsa_model.specs.Script.{Reading as ReadingModel, nothing_read, line_after, end_after, lines_from, pieces, script_of};
ghost use Rattle.script_read.specs.ReadsAs.{Fails, FailsScript};
ghost use Rattle.script_read.specs.ReadingView.{reading_of, IsKept, HasLineRoom, TakesLine};
ghost use Rattle.script_read.specs.ScriptView.{contents, GivesScript, GivesSpelled, FailsLine};

use crate::fault::{LineFault, ReadFault, ScriptFault, ScriptKind};
use crate::line::line_of;
use crate::reading::Reading;
use crate::script::Script;
use fsa_types::{NoMemory, Setup, UpcaseTable};
use std::alloc::Global;

// Where the first line feed stands.
fn line_end(bytes: &[u8]) -> Option<usize>
    ensures place { result ≡ position (λ byte. byte == 10) bytes.now }
    ensures within { IfSome result (λ end. end < length bytes.now) }
{
    bytes.iter().position(|byte| *byte == b'\n')
}

// The line at the front, and what follows its line feed; `None` where there is no line feed.
fn next_line(bytes: &[u8]) -> Option<(&[u8], &[u8])>
    ensures line { MatchOption result (pieces bytes.now ≡ bytes.now ∷ []) (λ line. pieces bytes.now ≡ line.0.now ∷ pieces line.1.now) }
    ensures shorter { IfSome result (λ line. length line.1.now < length bytes.now) }
{
    match line_end(bytes) {
        Some(end) => Some((&bytes[..end], &bytes[end + 1..])),
        None => None,
    }
}

// The number of line feeds.
fn feed_count(bytes: &[u8]) -> usize
    ensures count { result ≡ count_by (λ byte. byte == 10) bytes.now }
    ensures few { result ≤ length bytes.now }
{
    bytes.iter().filter(|byte| **byte == b'\n').count()
}

// The number of lines that end.
fn line_count(bytes: &[u8]) -> usize
    ensures count { length (pieces bytes.now) ≡ result + 1 }
    ensures few { result ≤ length bytes.now }
{
    feed_count(bytes)
}

// The fault of the line with this number.
fn at_line(line: u32, fault: LineFault) -> ReadFault
    ensures { (defined : Result ReadingModel Kind) → Fails fault defined → FailsLine line result defined }
{
    match fault {
        LineFault::NoMemory => ReadFault::NoMemory,
        LineFault::Bad(kind) => ReadFault::Bad(ScriptFault { line, kind }),
    }
}

impl Reading {
    // The line that these bytes are.
    #[tactic(auto, unfolding(fsa_model::specs::Script::line_after))]
    fn take_text(&mut self, alloc: Global, text: &[u8]) -> Result<(), LineFault>
        requires kept { IsKept self.old }
        requires room { HasLineRoom self.old }
        ensures { TakesLine self.old self.new result (line_after (reading_of self.old) text.now) }
    {
        let line = line_of(alloc, text)?;
        self.take_line(alloc, line)
    }

    // The case table that was read.
    fn table(&self, alloc: Global) -> Result<UpcaseTable, NoMemory>
        ensures { IfOk result (λ table. table ≡ (reading_of self.now).script.setup.table) }
    {
        if self.default_table {
            UpcaseTable::ascii(alloc)
        } else {
            self.pairs.table(alloc)
        }
    }

    // Whether a script may end so: nothing follows the last line feed, and there is a client. Else the fault of the line
    // with this number.
    #[tactic(auto, unfolding(fsa_model::specs::Script::end_after))]
    fn ends(&self, line: u32, rest: &[u8]) -> Result<(), ReadFault>
        ensures ok { OnOk result (end_after line (reading_of self.now) rest.now ≡ Ok (reading_of self.now).script) }
        ensures err { IfErr result (λ fault. FailsScript fault (end_after line (reading_of self.now) rest.now)) }
    {
        if !rest.is_empty() {
            let kind = ScriptKind::Cut;
            return Err(ReadFault::Bad(ScriptFault { line, kind }));
        }
        if !self.stage.takes_requests() {
            let kind = ScriptKind::Syntax;
            return Err(ReadFault::Bad(ScriptFault { line, kind }));
        }
        Ok(())
    }

    // The script that was read. The table is the one that it has.
    fn into_script(self, table: UpcaseTable) -> Script
        requires { table ≡ (reading_of self).script.setup.table }
        ensures { contents result ≡ (reading_of self).script }
    {
        let (clients, calls) = self.into_parts();
        let setup = Setup { table, clients };
        Script {
            setup,
            lines: calls,
        }
    }

    // The script that was read, where this is what follows the last line feed.
    fn finish(self, alloc: Global, line: u32, rest: &[u8]) -> Result<Script, ReadFault>
        ensures { GivesScript result (end_after line (reading_of self) rest.now) }
    {
        self.ends(line, rest)?;
        let table = self.table(alloc)?;
        Ok(self.into_script(table))
    }
}

// The script of these bytes, which have so many line feeds.
fn read_lines(alloc: Global, lines: u32, bytes: &[u8]) -> Result<Script, ReadFault>
    requires lines { length (pieces bytes.now) ≡ lines + 1 }
    requires few { length bytes.now < 2 ^ 32 - 1 }
    ensures { GivesScript result (lines_from 1 nothing_read (pieces bytes.now)) }
{
    let mut reading = Reading::new(alloc, lines)?;
    let mut line = 1;
    let mut rest = bytes;
    'lines: while let Some((text, after)) = next_line(rest) {
        match reading.take_text(alloc, text) {
            Ok(()) => {}
            Err(fault) => return Err(at_line(line, fault)),
        }
        line += 1;
        rest = after;
    }
    reading.finish(alloc, line, rest)
}

/// Reads a script: all of the bytes, which no line may follow.
///
/// `Bad` names the first faulty line and its first kind; `NoMemory` comes where there is no memory
/// for what the script says, or where it has 2 ^ 32 - 1 bytes or more. It takes time linear in the
/// bytes.
#[tactic(auto, unfolding(fsa_model::specs::Script::script_of))]
pub fn read_script(alloc: Global, bytes: &[u8]) -> Result<Script, ReadFault>
    ensures gives { GivesScript result (script_of bytes.now) }
    ensures spelled { GivesSpelled result bytes.now }
{
    if bytes.is_empty() {
        let kind = ScriptKind::Cut;
        return Err(ReadFault::Bad(ScriptFault { line: 1, kind }));
    }
    if bytes.len() >= u32::MAX as usize {
        return Err(ReadFault::NoMemory);
    }
    let lines = line_count(bytes) as u32;
    read_lines(alloc, lines, bytes)
}
