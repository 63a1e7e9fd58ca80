//! One client: its pass, and the calls that it has still to make.
ghost use Rattle.std.specs.Prelude.{◌≡◌, ℕ, [], MatchBool};
ghost use Rattle.history_lock.specs.Lock.{known};
ghost use Rattle.client_run.specs.Calls.{IsLined};
ghost use Rattle.client_race.specs.Runners.{Follows, IsFresh, IsReady, todo_of};

use crate::pass_desk::PassDesk;
use client_run::{ClientRun, Step};
use fsa_types::Call;
use shared_volume::{Pass, SharedVolume};
use std::alloc::Global;
use std::collections::VecDeque;
use wire_io::Gate;

/// One client: its pass, and the run of its calls.
#[derive(Drop)]
pub struct Runner {
    /// The client's pass at the volume.
    pub pass: Pass,
    /// The run of its calls: those still to make, and the wait that is pending.
    pub run: ClientRun,
    /// The number of entries that the history had, at least, when the run's wait was found pending.
    pub pending_at: Option<u64>,
}

impl Runner {
    /// The runner of a pass that is to make these calls.
    pub fn new(pass: Pass, calls: VecDeque<Call>) -> Runner
        requires lined { IsLined (known pass).own.client calls.items }
        ensures pass { result.pass ≡ pass }
        ensures fresh { IsFresh result }
        ensures todo { todo_of result ≡ calls.items }
    {
        let client = pass.client();
        Runner {
            pass,
            run: ClientRun::new(client, calls),
            pending_at: None,
        }
    }

    /// Whether all calls are made.
    pub fn is_done(&self) -> bool
        ensures { MatchBool result (todo_of self.now ≡ []) (todo_of self.now ≡ [] → ⊥) }
    {
        self.run.is_done()
    }

    // The number of entries of the history, which the pass has then seen.
    fn entries(&mut self, volume: &SharedVolume) -> u64
        requires ready { IsReady volume.now self.old }
        ensures { Follows volume.now self.old self.new }
    {
        volume.front(&mut self.pass)
    }

    // Asks the next call, or looks at the wait that is pending.
    fn ask<G: Gate>(&mut self, alloc: Global, volume: &SharedVolume, gate: &G) -> Step
        requires ready { IsReady volume.now self.old }
        requires gate { (client number : ℕ) → G.is_for gate.now client number }
        ensures { Follows volume.now self.old self.new }
    {
        let mut desk = PassDesk {
            volume,
            pass: &mut self.pass,
        };
        self.run.step(alloc, &mut desk, gate)
    }

    /// Makes one step. Where the wait was pending and the history hasn't grown since, it still is, and no turn
    /// is taken to look at it.
    pub fn step<G: Gate>(&mut self, alloc: Global, volume: &SharedVolume, gate: &G) -> Step
        requires ready { IsReady volume.now self.old }
        requires gate { (client number : ℕ) → G.is_for gate.now client number }
        ensures { Follows volume.now self.old self.new }
    {
        let entries = self.entries(volume);
        if self.pending_at == Some(entries) {
            return Step::Waiting;
        }
        let step = self.ask(alloc, volume, gate);
        self.pending_at = match step {
            Step::Waiting => Some(entries),
            _ => None,
        };
        step
    }
}
