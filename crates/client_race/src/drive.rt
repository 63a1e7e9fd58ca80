//! Runs each client on a thread of its own, or here where none can be made.
ghost use Rattle.std.specs.Prelude.{◌≡◌, ℕ, ◌+◌, ◌<◌, ◌≤◌, slice_get, Some, vec_len, vec_capacity, []};
ghost use Rattle.std.specs.Thread.{IsSync};
ghost use Rattle.client_race.specs.Lists.{Pointwise, Each, Faces};
ghost use Rattle.client_race.specs.Runners.{Follows, IsReady};
ghost use Rattle.client_race.specs.Tasks.{GivesRunner, IsFit, Moves, IsTaskOf};

use crate::runner::Runner;
use client_run::Step;
use shared_volume::SharedVolume;
use std::alloc::Global;
use std::rt::Clock;
use std::snapshot::Snapshot;
use std::sync::Wait;
use std::sync::atomic::{AtomicBool, AtomicU64, Ordering};
use std::thread;
use std::thread::{Promise, PromisedHandle, Scope, Threads};
use std::time::Duration;
use wire_io::Gate;

/// What a client's thread gives back: the runner that it took, later.
#[derive(Drop)]
pub struct Later {
    volume: Snapshot<SharedVolume>,
    runner: Snapshot<Runner>,
}

impl Promise<Runner> for Later {
    ghost kept_by = { λ p r. Follows p.volume.value p.runner.value r };
}

/// What the threads tell one another. No clause speaks of it.
#[derive(Drop)]
pub struct Signals {
    // One more than the client whose runner stays with the calling thread.
    kept: AtomicU64,
    // Whether a call was refused, so that all clients stop.
    stop: AtomicBool,
}

// How often in a row a client that can't go on gives its processor up for others before it sleeps.
const YIELDS: u32 = 2;

// For how long it sleeps first, in microseconds.
const PAUSE: u64 = 100;

// How often that doubles at most, as it sleeps again and again.
const DOUBLINGS: u32 = 4;

// Lets others go on: a client that has given way this often in a row gives its processor up, and later sleeps, each time
// twice as long as before up to the longest sleep. So it comes back late by at most the first sleep more than it had
// waited, and at most by the longest sleep, beside what the system adds.
fn give_way<R: Clock>(rt: &R, in_vain: u32) {
    if in_vain < YIELDS {
        thread::yield_now();
    } else {
        let doublings = (in_vain - YIELDS).min(DOUBLINGS);
        thread::sleep(rt, Duration::from_micros(PAUSE << doublings));
    }
}

// Makes the client's calls until all are made or some client's call is refused.
fn run_all<R: Wait + Clock, G: Gate>(
    rt: &R,
    alloc: Global,
    volume: &SharedVolume,
    gate: &G,
    signals: &Signals,
    mut runner: Runner,
) -> Runner
    requires ready { IsReady volume.now runner }
    requires gate { (client number : ℕ) → G.is_for gate.now client number }
    ensures { Follows volume.now runner result }
{
    let mut in_vain = 0;
    for _ in rt.forever() {
        if signals.stop.load(Ordering::SeqCst) {
            break;
        }
        match runner.step(alloc, volume, gate) {
            Step::Moved => in_vain = 0,
            Step::Busy | Step::Waiting => {
                give_way(rt, in_vain);
                in_vain = in_vain.saturating_add(1);
            }
            Step::Ended => break,
            Step::Refused(_) => signals.stop.store(true, Ordering::SeqCst),
        }
    }
    runner
}

/// A client's runner: on a thread of its own, or here.
#[derive(Drop)]
pub enum Task {
    /// On a thread.
    There(PromisedHandle<Runner, Later>),
    /// With the calling thread.
    Here(Runner),
}

// Starts a thread for the runner. Where none can be made, the runner stays here.
fn start<'s, E, R: Threads + Wait + Clock + Sync, G: Gate + Sync>(
    scope: &Scope<'s, E>,
    rt: &'s R,
    alloc: Global,
    volume: &'s SharedVolume,
    gate: &'s G,
    signals: &'s Signals,
    runner: Runner,
) -> Task
    requires ready { IsReady volume.now runner }
    requires gate { (client number : ℕ) → G.is_for gate.now client number }
    ensures stands { IsTaskOf volume.now runner result }
    ensures fit { IsFit volume.now result }
{
    let client = runner.pass.client() as u64 + 1;
    let later = Later {
        volume: Snapshot::of(volume),
        runner: Snapshot::of(&runner),
    };
    let there = move || -> Runner
        requires { IsSync R.row × IsSync G.row × IsReady volume.now runner × ((client number : ℕ) → G.is_for gate.now client number) }
        ensures { Follows volume.entry.now runner result }
    {
        if signals.kept.load(Ordering::SeqCst) == client {
            runner
        } else {
            run_all(rt, alloc, volume, gate, signals, runner)
        }
    };
    match scope.spawn_with(later, there) {
        Ok(handle) => Task::There(handle),
        Err(refused) => {
            signals.kept.store(client, Ordering::SeqCst);
            Task::Here((refused.value)())
        }
    }
}

// Starts the runners, from the end of the list on.
fn start_all<'s, E, R: Threads + Wait + Clock + Sync, G: Gate + Sync>(
    scope: &Scope<'s, E>,
    rt: &'s R,
    alloc: Global,
    volume: &'s SharedVolume,
    gate: &'s G,
    signals: &'s Signals,
    runners: Vec<Runner>,
    tasks: Vec<Task>,
) -> Vec<Task>
    requires ready { Each (IsReady volume.now) runners.items }
    requires gate { (client number : ℕ) → G.is_for gate.now client number }
    requires room { (tasks.items ≡ []) × (vec_len tasks ≡ 0) × (vec_len runners ≤ vec_capacity tasks) }
    ensures one_each { vec_len result ≡ vec_len runners }
    ensures stands { Faces (IsTaskOf volume.now) runners.items result.items }
    ensures fit { Each (IsFit volume.now) result.items }
{
    let mut runners = runners;
    let mut tasks = tasks;
    while let Some(runner) = runners.pop() {
        tasks.push_reserved(start(scope, rt, alloc, volume, gate, signals, runner));
    }
    tasks
}

// Makes one step of a runner that is here, and says whether it goes on.
fn step_here<G: Gate>(
    alloc: Global,
    volume: &SharedVolume,
    gate: &G,
    signals: &Signals,
    task: &mut Task,
) -> bool
    requires fit { IsFit volume.now task.old }
    requires gate { (client number : ℕ) → G.is_for gate.now client number }
    ensures { Moves volume.now task.old task.new }
{
    match task {
        Task::There(_) => false,
        Task::Here(runner) => {
            if signals.stop.load(Ordering::SeqCst) {
                return false;
            }
            match runner.step(alloc, volume, gate) {
                Step::Moved | Step::Busy | Step::Waiting => true,
                Step::Ended => false,
                Step::Refused(_) => {
                    signals.stop.store(true, Ordering::SeqCst);
                    false
                }
            }
        }
    }
}

// Makes one step of each runner that is here, and says whether any goes on.
fn step_each<G: Gate>(
    alloc: Global,
    volume: &SharedVolume,
    gate: &G,
    signals: &Signals,
    tasks: &mut Vec<Task>,
) -> bool
    requires fit { Each (IsFit volume.now) tasks.old.items }
    requires gate { (client number : ℕ) → G.is_for gate.now client number }
    ensures one_each { vec_len tasks.new ≡ vec_len tasks.old }
    ensures fit { Each (IsFit volume.now) tasks.new.items }
    ensures moves { Pointwise (Moves volume.now) tasks.old.items tasks.new.items }
{
    let mut goes_on = false;
    for i in 0..tasks.len() {
        if step_here(alloc, volume, gate, signals, &mut tasks[i]) {
            goes_on = true;
        }
    }
    goes_on
}

// Drives the runners that are here, in rotation, until none goes on.
fn rotate<R: Wait, G: Gate>(
    rt: &R,
    alloc: Global,
    volume: &SharedVolume,
    gate: &G,
    signals: &Signals,
    tasks: &mut Vec<Task>,
)
    requires fit { Each (IsFit volume.now) tasks.old.items }
    requires gate { (client number : ℕ) → G.is_for gate.now client number }
    ensures one_each { vec_len tasks.new ≡ vec_len tasks.old }
    ensures fit { Each (IsFit volume.now) tasks.new.items }
    ensures moves { Pointwise (Moves volume.now) tasks.old.items tasks.new.items }
{
    for _ in rt.forever() {
        if !step_each(alloc, volume, gate, signals, tasks) {
            return;
        }
        thread::yield_now();
    }
}

// Waits for the thread of a runner.
fn join_one<R: Threads>(rt: &R, task: Task) -> Runner
    ensures { GivesRunner task result }
{
    match task {
        Task::There(handle) => handle.join(rt),
        Task::Here(runner) => runner,
    }
}

// Waits for the threads of all runners, from the end of the list on.
fn join_all<R: Threads>(rt: &R, tasks: Vec<Task>, runners: Vec<Runner>) -> Vec<Runner>
    requires room { (runners.items ≡ []) × (vec_len runners ≡ 0) × (vec_len tasks ≤ vec_capacity runners) }
    ensures one_each { vec_len result ≡ vec_len tasks }
    ensures gives { Faces GivesRunner tasks.items result.items }
{
    let mut tasks = tasks;
    let mut runners = runners;
    while let Some(task) = tasks.pop() {
        runners.push_reserved(join_one(rt, task));
    }
    runners
}

/// Makes the calls of all runners, each on a thread of its own or here, and gives them back in their order.
/// Room for as many tasks, and for as many runners, is handed in.
pub(crate) fn drive<R: Threads + Wait + Clock + Sync, G: Gate + Sync>(
    rt: &R,
    alloc: Global,
    volume: &SharedVolume,
    gate: &G,
    runners: Vec<Runner>,
    tasks: Vec<Task>,
    done: Vec<Runner>,
) -> Vec<Runner>
    requires ready { Each (IsReady volume.now) runners.items }
    requires gate { (client number : ℕ) → G.is_for gate.now client number }
    requires tasks { (tasks.items ≡ []) × (vec_len tasks ≡ 0) × (vec_len runners ≤ vec_capacity tasks) }
    requires done { (done.items ≡ []) × (vec_len done ≡ 0) × (vec_len runners ≤ vec_capacity done) }
    ensures one_each { vec_len result ≡ vec_len runners }
    ensures follows { Pointwise (Follows volume.now) runners.items result.items }
{
    let signals = Signals {
        kept: AtomicU64::new(0),
        stop: AtomicBool::new(false),
    };
    let signals = &signals;
    thread::scope(
        thread::scope_env(),
        rt,
        move |scope| -> Vec<Runner>
            requires { IsSync R.row × IsSync G.row × Each (IsReady volume.now) runners.items × ((client number : ℕ) → G.is_for gate.now client number) × (tasks.items ≡ []) × (vec_len tasks ≡ 0) × (vec_len runners ≤ vec_capacity tasks) × (done.items ≡ []) × (vec_len done ≡ 0) × (vec_len runners ≤ vec_capacity done) }
            ensures { (vec_len result ≡ vec_len runners) × Pointwise (Follows volume.entry.now) runners.items result.items }
        {
            let mut tasks = start_all(scope, rt, alloc, volume, gate, signals, runners, tasks);
            rotate(rt, alloc, volume, gate, signals, &mut tasks);
            join_all(rt, tasks, done)
        },
    )
}
