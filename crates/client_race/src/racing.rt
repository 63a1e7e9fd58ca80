//! The race of a script's clients: the volume is made, each client's calls are run, and the volume comes back
//! with all passes.
ghost use Rattle.std.specs.Prelude.{◌≡◌, ℕ, ◌≤◌, ◌<◌, [], List, slice_get, Some, IfOk, length, vec_len, vec_capacity};
ghost use Rattle.history_lock.specs.Lock.{known};
ghost use Rattle.history_laws.specs.Races.{own_calls};
ghost use Rattle.shared_volume.specs.Shared.{IsPass, setup_at};
ghost use Rattle.script_read.specs.ScriptView.{contents};
ghost use Rattle.client_run.specs.Calls.{IsLined};
ghost use Rattle.client_run.specs.ClientHistory.{IsOrderly};
ghost use Rattle.client_race.specs.Lists.{Pointwise, Faces};
ghost use Rattle.client_race.specs.Races.{CanRace};
ghost use Rattle.client_race.specs.Runners.{IsFresh, todo_of};

use crate::calls::all_client_calls;
use crate::drive::drive;
use crate::runner::Runner;
use fsa_types::{Call, NoMemory, Setup, TryCopy};
use script_read::Script;
use shared_volume::{Pass, SharedVolume};
use std::alloc::Global;
use std::collections::VecDeque;
use std::rt::Clock;
use std::sync::Wait;
use std::thread::Threads;
use wire_io::Gate;

// The runners of all clients, the last client's first.
fn paired(passes: Vec<Pass>, lines: Vec<VecDeque<Call>>, runners: Vec<Runner>) -> Vec<Runner>
    requires one_each { vec_len passes ≡ vec_len lines }
    requires lined { (i : ℕ) (pass : _) (line : _) → slice_get passes.items i ≡ Some pass → slice_get lines.items i ≡ Some line → IsLined (known pass).own.client line.items }
    requires room { (runners.items ≡ []) × (vec_len runners ≡ 0) × (vec_len lines ≤ vec_capacity runners) }
    ensures one_each { vec_len result ≡ vec_len lines }
    ensures passes { Faces (λ pass runner. (runner.pass ≡ pass) × IsFresh runner) passes.items result.items }
    ensures lines { Faces (λ line runner. todo_of runner ≡ line.items) lines.items result.items }
{
    let mut passes = passes;
    let mut lines = lines;
    let mut runners = runners;
    while let Some(pass) = passes.pop() {
        let Some(line) = lines.pop() else {
            unreachable!()
        };
        runners.push_reserved(Runner::new(pass, line));
    }
    runners
}

// The passes of runners that have made all their calls, the last runner's first.
fn finished(runners: Vec<Runner>, passes: Vec<Pass>) -> Result<Vec<Pass>, NoMemory>
    requires room { (passes.items ≡ []) × (vec_len passes ≡ 0) × (vec_len runners ≤ vec_capacity passes) }
    ensures one_each { IfOk result (λ v. vec_len v ≡ vec_len runners) }
    ensures made { IfOk result (λ v. Faces (λ runner pass. (runner.pass ≡ pass) × (todo_of runner ≡ [])) runners.items v.items) }
{
    let mut runners = runners;
    let mut passes = passes;
    while let Some(runner) = runners.pop() {
        if !runner.is_done() {
            return Err(NoMemory);
        }
        let Runner {
            pass,
            run: _,
            pending_at: _,
        } = runner;
        passes.push_reserved(pass);
    }
    Ok(passes)
}

// Runs each client's calls. The passes come back in order of clients, and have made them all.
fn made<R: Threads + Wait + Clock + Sync, G: Gate + Sync>(
    rt: &R,
    alloc: Global,
    volume: &SharedVolume,
    gate: &G,
    passes: Vec<Pass>,
    lines: Vec<VecDeque<Call>>,
) -> Result<Vec<Pass>, NoMemory>
    requires one_each { vec_len passes ≡ vec_len lines }
    requires passes { (i : ℕ) (p : _) → slice_get passes.items i ≡ Some p → IsPass volume.now p × ((known p).own ≡ record { client = i; seen = []; mine = [] }) }
    requires lines { (i : ℕ) (line : _) → slice_get lines.items i ≡ Some line → IsLined i line.items }
    requires gate { (client number : ℕ) → G.is_for gate.now client number }
    ensures one_each { IfOk result (λ v. vec_len v ≡ vec_len lines) }
    ensures passes { IfOk result (λ v. (i : ℕ) (p : _) → slice_get v.items i ≡ Some p → IsPass volume.now p × ((known p).own.client ≡ i)) }
    ensures orderly { IfOk result (λ v. (i : ℕ) (p : _) → slice_get v.items i ≡ Some p → IsOrderly (setup_at volume.now) i (known p).own.seen) }
    ensures made { IfOk result (λ v. Pointwise (λ line p. (known p).own.mine ≡ line.items) lines.items v.items) }
{
    let runners = Vec::with_capacity(alloc, lines.len())?;
    let tasks = Vec::with_capacity(alloc, lines.len())?;
    let done = Vec::with_capacity(alloc, lines.len())?;
    let out = Vec::with_capacity(alloc, lines.len())?;
    let runners = paired(passes, lines, runners);
    let done = drive(rt, alloc, volume, gate, runners, tasks, done);
    let out = finished(done, out)?;
    Ok(out)
}

// The volume with which a script begins, and its passes.
fn started(alloc: Global, script: &Script) -> Result<(SharedVolume, Vec<Pass>), NoMemory>
    requires can { CanRace (contents script.now) }
    ensures setup { IfOk result (λ r. setup_at r.0 ≡ (contents script.now).setup) }
    ensures one_each { IfOk result (λ r. vec_len r.1 ≡ length (contents script.now).setup.clients) }
    ensures passes { IfOk result (λ r. (i : ℕ) (p : _) → slice_get r.1.items i ≡ Some p → IsPass r.0 p × ((known p).own ≡ record { client = i; seen = []; mine = [] })) }
{
    let table = script.table().copy(alloc)?;
    let clients = script.clients().copy(alloc)?;
    SharedVolume::start(alloc, Setup { table, clients })
}

/// Makes a volume with a script's table and clients, runs each client's calls in order on a thread of its own,
/// and gives the volume, not yet closed, and all its passes in order of clients. Where a thread can't be made
/// the calling thread drives that client's steps itself, in rotation with others of the kind.
///
/// Each pass has made just its client's lines and then its leaving, each once and in order, and none of them
/// while the client waited. Where a call is refused, all clients stop, and the answer is `NoMemory`.
///
/// The gate is passed once before each call's first try. It may wait forever.
pub fn race_history<R: Threads + Wait + Clock + Sync, G: Gate + Sync>(
    rt: &R,
    alloc: Global,
    script: &Script,
    gate: &G,
) -> Result<(SharedVolume, Vec<Pass>), NoMemory>
    requires can { CanRace (contents script.now) }
    requires gate { (client number : ℕ) → G.is_for gate.now client number }
    ensures setup { IfOk result (λ r. setup_at r.0 ≡ (contents script.now).setup) }
    ensures one_each { IfOk result (λ r. vec_len r.1 ≡ length (contents script.now).setup.clients) }
    ensures passes { IfOk result (λ r. (i : ℕ) (p : _) → slice_get r.1.items i ≡ Some p → IsPass r.0 p × ((known p).own.client ≡ i)) }
    ensures made { IfOk result (λ r. (i : ℕ) (p : _) → slice_get r.1.items i ≡ Some p → (known p).own.mine ≡ own_calls (contents script.now) i) }
    ensures orderly { IfOk result (λ r. (i : ℕ) (p : _) → slice_get r.1.items i ≡ Some p → IsOrderly (setup_at r.0) i (known p).own.seen) }
{
    let lines = all_client_calls(alloc, script)?;
    let (volume, passes) = started(alloc, script)?;
    let passes = made(rt, alloc, &volume, gate, passes, lines)?;
    Ok((volume, passes))
}
