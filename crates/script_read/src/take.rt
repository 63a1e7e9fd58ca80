//! One line more, after those that were read.

ghost use Rattle.std.specs.Prelude.{◌≡◌, ◌<◌, ◌≤◌, [], IfOk, Some, length};
ghost use Rattle.fsa_model.specs.Script.{nothing_read, take_line, take_client, take_call, take_request};
ghost use Rattle.fsa_model.specs.Lines.{Version, DefaultTable, PairTable, Pair};
ghost use Rattle.script_read.specs.LineView.{line_view};
ghost use Rattle.script_read.specs.ReadingView.{reading_of, IsKept, HasLineRoom, TakesLine};

use crate::fault::{LineFault, SYNTAX, ScriptKind};
use crate::line::Line;
use crate::names::NameList;
use crate::pairs::PairList;
use crate::reading::Reading;
use crate::stage::Stage;
use fsa_types::{Bytes, Call, CallList, Client, ClientList, NoMemory, SidList, What};
use std::alloc::Global;

impl Reading {
    /// Nothing is read, and there is room for as many clients and calls as there are lines.
    pub fn new(alloc: Global, lines: u32) -> Result<Reading, NoMemory>
        ensures read { IfOk result (λ reading. reading_of reading ≡ nothing_read) }
        ensures kept { IfOk result IsKept }
        ensures client_room { IfOk result (λ reading. reading.clients.room ≡ lines) }
        ensures call_room { IfOk result (λ reading. reading.calls.room ≡ lines) }
    {
        Ok(Reading {
            stage: Stage::Nothing,
            default_table: true,
            pairs: PairList::new(alloc)?,
            names: NameList::new(alloc),
            clients: ClientList::with_room(alloc, lines)?,
            last_numbers: Vec::new(alloc),
            calls: CallList::with_room(alloc, lines)?,
        })
    }

    // The first line.
    #[tactic(auto, unfolding(fsa_model::specs::Script::take_line))]
    fn take_version(&mut self) -> Result<(), LineFault>
        requires { IsKept self.old }
        ensures { TakesLine self.old self.new result (take_line (reading_of self.old) Version) }
    {
        if !self.stage.takes_version() {
            return Err(SYNTAX);
        }
        self.stage = Stage::Begun;
        Ok(())
    }

    // `table default`.
    #[tactic(auto, unfolding(fsa_model::specs::Script::take_line))]
    fn take_default_table(&mut self) -> Result<(), LineFault>
        requires { IsKept self.old }
        ensures { TakesLine self.old self.new result (take_line (reading_of self.old) DefaultTable) }
    {
        if !self.stage.takes_table() {
            return Err(SYNTAX);
        }
        self.default_table = true;
        self.stage = Stage::Table;
        Ok(())
    }

    // `table pairs`.
    #[tactic(auto, unfolding(fsa_model::specs::Script::take_line))]
    fn take_pair_table(&mut self, alloc: Global) -> Result<(), LineFault>
        requires { IsKept self.old }
        ensures { TakesLine self.old self.new result (take_line (reading_of self.old) PairTable) }
    {
        if !self.stage.takes_table() {
            return Err(SYNTAX);
        }
        self.pairs = PairList::new(alloc)?;
        self.default_table = false;
        self.stage = Stage::Pairs;
        Ok(())
    }

    // A pair of the table.
    #[tactic(auto, unfolding(fsa_model::specs::Script::take_line))]
    fn take_pair(&mut self, source: u32, target: u32) -> Result<(), LineFault>
        requires { IsKept self.old }
        ensures { TakesLine self.old self.new result (take_line (reading_of self.old) (Pair source target)) }
    {
        if !self.stage.takes_pairs() || source > 65_535 || target > 65_535 {
            return Err(SYNTAX);
        }
        let (source, target) = (source as u16, target as u16);
        if self.pairs.is_at_fault(source, target) {
            return Err(SYNTAX);
        }
        self.pairs.add(source, target)?;
        Ok(())
    }

    // A client.
    #[tactic(auto, unfolding(fsa_model::specs::Script::take_client))]
    fn take_client(&mut self, alloc: Global, name: &[u8], sids: SidList) -> Result<(), LineFault>
        requires kept { IsKept self.old }
        requires room { HasLineRoom self.old }
        ensures { TakesLine self.old self.new result (take_client (reading_of self.old) name.now sids.items) }
    {
        if !self.stage.takes_clients() {
            return Err(SYNTAX);
        }
        if self.names.place_of(name).is_some() {
            return Err(LineFault::Bad(ScriptKind::Client));
        }
        self.names.add(alloc, name)?;
        self.last_numbers.push(0)?;
        let name = Bytes::copy_of(alloc, name)?;
        self.clients.push(Client { name, sids });
        self.stage = Stage::Clients;
        Ok(())
    }

    // A call of the client at this place.
    #[tactic(auto, unfolding(fsa_model::specs::Script::take_call))]
    fn take_call(&mut self, place: usize, number: u32, what: What) -> Result<(), LineFault>
        requires kept { IsKept self.old }
        requires room { HasLineRoom self.old }
        requires place { place < length self.old.clients.items }
        ensures { TakesLine self.old self.new result (take_call (reading_of self.old) place number what) }
    {
        if number == 0 || number - 1 != self.last_numbers[place] {
            return Err(LineFault::Bad(ScriptKind::Number));
        }
        self.last_numbers[place] = number;
        let client = place as u32;
        self.calls.push(Call {
            client,
            number,
            what,
        });
        self.stage = Stage::Requests;
        Ok(())
    }

    // A request.
    #[tactic(auto, unfolding(fsa_model::specs::Script::take_request))]
    fn take_request(&mut self, name: &[u8], number: u32, what: What) -> Result<(), LineFault>
        requires kept { IsKept self.old }
        requires room { HasLineRoom self.old }
        ensures { TakesLine self.old self.new result (take_request (reading_of self.old) name.now number what) }
    {
        if !self.stage.takes_requests() {
            return Err(SYNTAX);
        }
        match self.names.place_of(name) {
            Some(place) => self.take_call(place, number, what),
            None => Err(LineFault::Bad(ScriptKind::Client)),
        }
    }

    /// A line that says this.
    #[tactic(auto, unfolding(fsa_model::specs::Script::take_line))]
    pub fn take_line(&mut self, alloc: Global, line: Line<'_>) -> Result<(), LineFault>
        requires kept { IsKept self.old }
        requires room { HasLineRoom self.old }
        ensures { TakesLine self.old self.new result (take_line (reading_of self.old) (line_view line.entry)) }
    {
        match line {
            Line::Version => self.take_version(),
            Line::DefaultTable => self.take_default_table(),
            Line::PairTable => self.take_pair_table(alloc),
            Line::Pair(source, target) => self.take_pair(source, target),
            Line::Client(name, sids) => self.take_client(alloc, name, sids),
            Line::Request(name, number, what) => self.take_request(name, number, what),
        }
    }
}
