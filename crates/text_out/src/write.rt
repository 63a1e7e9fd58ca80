//! The text of turns, gathered and put to a sink block by block.

ghost use Rattle.std.specs.Prelude.{◌≡◌, ◌≤◌, ◌++◌, [], length, take, drop, map, Err, IfSome, IfOk, OnOk, OnErr};
ghost use Rattle.fsa_model.specs.Outcome.{out_of};
ghost use Rattle.fsa_model.specs.Setup.{client_of};
ghost use Rattle.fsa_model.specs.Text.{bytes_text, last_line, turn_text};
ghost use Rattle.wire_io.specs.Faults.{FailsLast, HasCause};
ghost use Rattle.wire_io.specs.Sink.{Appends, AppendsPart};
ghost use Rattle.text_out.specs.AroundBytes.{after_bytes, before_bytes};
ghost use Rattle.text_out.specs.Writes.{AddsText, Finishes, Gathers, GivesUp, TellsFaults};

use crate::bytes::write_bytes;
use crate::draft::Draft;
use crate::text::{push_around, push_last, push_turn};
use fsa_types::{Answer, Body, Bytes, Call, ClientList, EndOf, NoMemory, Out, Status};
use std::alloc::Global;
use std::marker::Model;
use wire_io::{Failed, Sink, put_all};

// How many bytes of text make a block: once there are as many, they are put.
const BLOCK: usize = 65_536;

/// Why a text wasn't written whole.
#[derive(Clone, Copy)]
pub enum TextFault {
    /// The sink failed.
    Failed,
    /// There was no memory.
    NoMemory,
}

impl From<wire_io::Failed> for TextFault {
    ghost use Rattle.std.specs.Prelude.{◌≡◌};
    ghost use Rattle.text_out.specs.declared.write.TextFault.TheVariants.{Failed};

    ghost from_gives = { λ _ fault. fault ≡ Failed };

    fn from(_error: wire_io::Failed) -> TextFault {
        TextFault::Failed
    }
}

impl From<fsa_types::NoMemory> for TextFault {
    ghost use Rattle.std.specs.Prelude.{◌≡◌};
    ghost use Rattle.text_out.specs.declared.write.TextFault.TheVariants.{NoMemory};

    ghost from_gives = { λ _ fault. fault ≡ NoMemory };

    fn from(_error: fsa_types::NoMemory) -> TextFault {
        TextFault::NoMemory
    }
}

// The status and the bytes of an answer that gives bytes.
fn bytes_given(answer: &Answer) -> Option<(Status, &Bytes)>
    ensures { IfSome result (λ given. answer.now ≡ Answer.Ended (record { status = given.0; body = Body.Got given.1.now })) }
{
    match answer {
        Answer::Ended(reply) => match &reply.body {
            Body::Got(bytes) => Some((reply.status, bytes)),
            _ => None,
        },
        Answer::Pending(_) => None,
    }
}

/// The text of turns that was gathered and isn't put yet.
#[derive(Drop)]
pub struct TextBuffer {
    text: Draft,
}

impl Model for TextBuffer {
    ghost use Rattle.std.specs.Prelude.{List, ℕ, ◌++◌};

    ghost Value = { List ℕ };

    ghost view = { λ buffer. buffer.text.before ++ buffer.text.lines };
}

impl TextBuffer {
    /// Nothing is gathered. It takes no memory.
    pub fn new(alloc: Global) -> TextBuffer
        ensures { result ≡ [] }
    {
        TextBuffer {
            text: Draft::new(alloc),
        }
    }

    // Puts all that was gathered; nothing is gathered then, also where the sink failed.
    fn put<K: Sink>(&mut self, sink: &mut K) -> Result<(), Failed>
        ensures none { self.new ≡ [] }
        ensures all { OnOk result (Appends (K.written sink.old) (K.written sink.new) self.old) }
        ensures part { OnErr result (AppendsPart (K.written sink.old) (K.written sink.new) self.old) }
        ensures last { OnErr result (FailsLast (K.faults sink.old) (K.faults sink.new) (K.written sink.new).since_fault) }
        ensures cause { HasCause (K.faults sink.old) (K.faults sink.new) result }
    {
        let done = put_all(sink, self.text.bytes());
        self.text.clear();
        done
    }

    // Puts what was gathered, once there is a block.
    fn put_block<K: Sink>(&mut self, sink: &mut K) -> Result<(), Failed>
        ensures gathers { OnOk result (Gathers (K.written sink.old) (K.written sink.new) self.old self.new []) }
        ensures part { OnErr result (AppendsPart (K.written sink.old) (K.written sink.new) self.old) }
        ensures none { OnErr result (self.new ≡ []) }
        ensures last { OnErr result (FailsLast (K.faults sink.old) (K.faults sink.new) (K.written sink.new).since_fault) }
        ensures cause { HasCause (K.faults sink.old) (K.faults sink.new) result }
    {
        if self.text.bytes().len() >= BLOCK {
            self.put(sink)?;
        }
        Ok(())
    }

    /// Puts what was gathered, where there was no memory for more: `NoMemory`, or `Failed` where the sink
    /// failed, and a part of it was put then. Nothing is gathered then.
    pub fn give_up<K: Sink>(&mut self, sink: &mut K) -> TextFault
        ensures put { GivesUp (K.written sink.old) (K.written sink.new) self.old self.new result }
        ensures faults { TellsFaults (K.faults sink.old) (K.faults sink.new) (K.written sink.new).since_fault (Err result) }
    {
        match self.put(sink) {
            Ok(()) => TextFault::NoMemory,
            Err(Failed) => TextFault::Failed,
        }
    }

    // Gathers the lines of a turn, or nothing.
    fn gather_turn(&mut self, names: &ClientList, call: &Call, out: &Out) -> Result<(), NoMemory>
        ensures ok { OnOk result (self.new ≡ self.old ++ turn_text (map client_of names.now.items) call.now (out_of out.now)) }
        ensures err { OnErr result (self.new ≡ self.old) }
    {
        self.text.begin();
        match push_turn(&mut self.text, names, call, out) {
            Ok(()) => Ok(()),
            Err(NoMemory) => {
                self.text.drop_lines();
                Err(NoMemory)
            }
        }
    }

    // Gathers the lines of a turn without the bytes that its answer is, or nothing. The place of the bytes is given.
    fn gather_around(
        &mut self,
        names: &ClientList,
        call: &Call,
        status: Status,
        ended: &[EndOf],
    ) -> Result<usize, NoMemory>
        ensures place { IfOk result (λ place. place ≡ length (self.old ++ before_bytes (map client_of names.now.items) call.now status)) }
        ensures ok { OnOk result (self.new ≡ (self.old ++ before_bytes (map client_of names.now.items) call.now status) ++ after_bytes (map client_of names.now.items) ended.now) }
        ensures err { OnErr result (self.new ≡ self.old) }
    {
        self.text.begin();
        match push_around(&mut self.text, names, call, status, ended) {
            Ok(place) => Ok(place),
            Err(NoMemory) => {
                self.text.drop_lines();
                Err(NoMemory)
            }
        }
    }

    // Puts what was gathered up to a place, and bytes behind it.
    fn write_around<K: Sink>(&self, sink: &mut K, place: usize, bytes: &Bytes) -> Result<(), Failed>
        requires { place ≤ length self.now }
        ensures all { OnOk result (Appends (K.written sink.old) (K.written sink.new) (take place self.now ++ bytes_text bytes.now)) }
        ensures part { OnErr result (AppendsPart (K.written sink.old) (K.written sink.new) (take place self.now ++ bytes_text bytes.now)) }
        ensures last { OnErr result (FailsLast (K.faults sink.old) (K.faults sink.new) (K.written sink.new).since_fault) }
        ensures cause { HasCause (K.faults sink.old) (K.faults sink.new) result }
    {
        put_all(sink, &self.text.bytes()[..place])?;
        write_bytes(sink, bytes)
    }

    // Puts what was gathered up to a place, and bytes behind it. What was gathered from the place on is still gathered
    // then, and nothing where the sink failed.
    fn put_around<K: Sink>(
        &mut self,
        sink: &mut K,
        place: usize,
        bytes: &Bytes,
    ) -> Result<(), Failed>
        requires { place ≤ length self.old }
        ensures all { OnOk result (Appends (K.written sink.old) (K.written sink.new) (take place self.old ++ bytes_text bytes.now)) }
        ensures after { OnOk result (self.new ≡ drop place self.old) }
        ensures part { OnErr result (AppendsPart (K.written sink.old) (K.written sink.new) (take place self.old ++ bytes_text bytes.now)) }
        ensures none { OnErr result (self.new ≡ []) }
        ensures last { OnErr result (FailsLast (K.faults sink.old) (K.faults sink.new) (K.written sink.new).since_fault) }
        ensures cause { HasCause (K.faults sink.old) (K.faults sink.new) result }
    {
        match self.write_around(sink, place, bytes) {
            Ok(()) => {
                self.text.drop_front(place);
                Ok(())
            }
            Err(Failed) => {
                self.text.clear();
                Err(Failed)
            }
        }
    }

    // Adds the lines of a turn whose answer gives these bytes with this status: puts all up to the bytes, and the
    // bytes, for whose digits it takes no memory; what follows them is gathered.
    fn add_around<K: Sink>(
        &mut self,
        sink: &mut K,
        names: &ClientList,
        call: &Call,
        out: &Out,
        status: Status,
        bytes: &Bytes,
    ) -> Result<(), TextFault>
        requires { out.now.answer ≡ Answer.Ended (record { status = status; body = Body.Got bytes.now }) }
        ensures adds { AddsText (K.written sink.old) (K.written sink.new) self.old self.new (turn_text (map client_of names.now.items) call.now (out_of out.now)) result }
        ensures faults { TellsFaults (K.faults sink.old) (K.faults sink.new) (K.written sink.new).since_fault result }
    {
        match self.gather_around(names, call, status, out.ended.as_slice()) {
            Ok(place) => Ok(self.put_around(sink, place, bytes)?),
            Err(NoMemory) => Err(self.give_up(sink)),
        }
    }

    // Adds the lines of a turn for which there was no memory: around the bytes, where its answer gives some.
    fn add_ungathered<K: Sink>(
        &mut self,
        sink: &mut K,
        names: &ClientList,
        call: &Call,
        out: &Out,
    ) -> Result<(), TextFault>
        ensures adds { AddsText (K.written sink.old) (K.written sink.new) self.old self.new (turn_text (map client_of names.now.items) call.now (out_of out.now)) result }
        ensures faults { TellsFaults (K.faults sink.old) (K.faults sink.new) (K.written sink.new).since_fault result }
    {
        match bytes_given(&out.answer) {
            Some((status, bytes)) => self.add_around(sink, names, call, out, status, bytes),
            None => Err(self.give_up(sink)),
        }
    }

    /// Adds the lines of a turn of this call, which gave this out: gathers them, and puts what is gathered where
    /// that makes a block. Where there is no memory to gather them, and the answer gives bytes, all up to these
    /// is put, then they themselves part by part, and what follows them is gathered. A client that isn't in the
    /// list has no name. `Failed` where the sink failed: a part of what was gathered and of the lines is put
    /// then. `NoMemory` where there was no memory: what was gathered before is put then, and none of the lines.
    /// Nothing is gathered after either.
    pub fn add_turn<K: Sink>(
        &mut self,
        sink: &mut K,
        names: &ClientList,
        call: &Call,
        out: &Out,
    ) -> Result<(), TextFault>
        ensures adds { AddsText (K.written sink.old) (K.written sink.new) self.old self.new (turn_text (map client_of names.now.items) call.now (out_of out.now)) result }
        ensures faults { TellsFaults (K.faults sink.old) (K.faults sink.new) (K.written sink.new).since_fault result }
    {
        match self.gather_turn(names, call, out) {
            Ok(()) => Ok(self.put_block(sink)?),
            Err(NoMemory) => self.add_ungathered(sink, names, call, out),
        }
    }

    // Gathers the last line, or nothing.
    fn gather_last(&mut self, turns: u32) -> Result<(), NoMemory>
        ensures ok { OnOk result (self.new ≡ self.old ++ last_line turns) }
        ensures err { OnErr result (self.new ≡ self.old) }
    {
        self.text.begin();
        match push_last(&mut self.text, turns) {
            Ok(()) => Ok(()),
            Err(NoMemory) => {
                self.text.drop_lines();
                Err(NoMemory)
            }
        }
    }

    /// Puts all that is gathered, and the last line behind it: the number of turns. `Failed` and `NoMemory` are
    /// as in `add_turn`.
    pub fn finish<K: Sink>(&mut self, sink: &mut K, turns: u32) -> Result<(), TextFault>
        ensures finishes { Finishes (K.written sink.old) (K.written sink.new) self.old self.new (last_line turns) result }
        ensures faults { TellsFaults (K.faults sink.old) (K.faults sink.new) (K.written sink.new).since_fault result }
    {
        match self.gather_last(turns) {
            Ok(()) => Ok(self.put(sink)?),
            Err(NoMemory) => Err(self.give_up(sink)),
        }
    }
}
