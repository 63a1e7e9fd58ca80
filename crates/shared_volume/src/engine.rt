//! The volume's machine as one of which many threads make turns.

ghost use Rattle.shared_volume.specs.Histories.{IsMachineHistory};

use crate::views::{EntryView, SetupView};
use fsa_machine::VolumeMachine;
use fsa_types::{Call, CallId, NoMemory, Out, Reply, Why};
use history_lock::Machine;
use std::alloc::Global;

/// The volume's machine, whose entries are a history.
#[derive(Drop)]
pub struct Engine {
    /// The machine.
    pub machine: VolumeMachine,
    pub ghost history: { IsMachineHistory machine.setup machine.entries },
}

impl Machine for Engine {
    ghost use Rattle.shared_volume.specs.Histories.{AllowsAsk, AllowsCall, MayRefuse, TakesMemory, Shows};
    ghost use Rattle.shared_volume.specs.Later.{asked_later};
    ghost use Rattle.fsa_model.specs.History.{GaveOut};
    ghost use Rattle.fsa_model.specs.Outcome.{out_of};

    type Base = SetupView;

    type Entry = EntryView;

    type Call = Call;

    type Out = Out;

    type Why = Why;

    type Ask = CallId;

    type Seen = Option<Reply>;

    ghost base = { λ engine. engine.machine.setup };

    ghost list = { λ engine. engine.machine.entries };

    ghost stands = { IsMachineHistory };

    ghost call_of = { λ entry. entry.call };

    ghost client_of = { λ call. call.client };

    ghost may_turn = { AllowsCall };

    ghost may_look = { AllowsAsk };

    ghost out_is = { λ setup entries out. GaveOut setup entries (out_of out) };

    ghost why_of = { λ setup entries why. MayRefuse entries why };

    ghost seen_is = { Shows };

    ghost costly = { TakesMemory };

    ghost may_look_later = { asked_later };

    fn turn(&mut self, alloc: Global, call: Call) -> Result<Out, (Call, Why)> {
        self.machine.turn(alloc, call)
    }

    fn look(&self, alloc: Global, ask: &CallId) -> Result<Option<Reply>, NoMemory> {
        self.machine.reply_of(alloc, ask.client, ask.number)
    }
}
