//! The ways in which workers share a round, each compared with one thread.
ghost use Rattle.std.specs.Prelude.{◌≡◌, ◌<◌, false, true};
ghost use Rattle.exec_rules.specs.Calls.{IsNext};

use crate::counting::Counting;
use exec_io::Settings;
use exec_lane::Gate;
use exec_msg::{Line, LineList, Memory};
use exec_plan::Plan;
use exec_round::{round_claimed, round_forked, round_streamed};
use exec_world::{World, run_plan};
use std::alloc::Global;
use std::sync::{Arc, Wait};
use std::thread::Threads;

/// How workers share a round.
#[derive(Clone, Copy, Debug, PartialEq, Eq)]
pub enum Way {
    /// Lanes are dealt before any runs.
    Forked,
    /// Lanes are claimed.
    Claimed,
    /// Lanes are claimed, and what the callbacks did is sent on through a queue.
    Streamed,
}

/// All ways.
pub const WAYS: &[Way] = &[Way::Forked, Way::Claimed, Way::Streamed];

// The way in which rounds are shared, by how many workers, and how many callbacks a claim takes at most.
#[derive(Drop)]
struct WaySettings {
    workers: usize,
    quantum: usize,
    way: Way,
}

/// Why a way isn't compared, or differs.
#[derive(Clone, Copy, Debug, PartialEq, Eq)]
pub enum Fault {
    /// A growth was refused.
    Memory,
    /// A position was reported twice to its gate, or not at all, or isn't one of the round.
    Told,
    /// It left another transcript.
    Differs,
}

impl From<Memory> for Fault {
    fn from(_fault: Memory) -> Fault {
        Fault::Memory
    }
}

/// What ran by a way.
#[derive(Clone, Copy, Debug, PartialEq, Eq)]
pub struct Ran {
    /// How many callbacks.
    pub callbacks: usize,
    /// How many of their outcomes came to the collector through the queue.
    pub taken: usize,
}

/// Runs a plan by one thread and by workers in a way, and compares their lines. Each round is under a gate that counts.
///
/// # Errors
/// [`Fault`] says why the way isn't compared, or how it differs.
pub fn compare<R: Threads + Wait + Sync>(
    rt: &R,
    alloc: Global,
    plan: &Arc<Plan>,
    settings: Settings,
    way: Way,
) -> Result<Ran, Fault> {
    let alone = lines_alone(alloc, plan)?;
    let rounds = callbacks_of(alloc, alone.as_slice())?;
    let world = new_world(alloc, plan)?;
    let how = WaySettings {
        workers: settings.workers as usize,
        quantum: settings.quantum as usize,
        way,
    };
    let (lines, ran) = lines_by(rt, alloc, world, rounds.as_slice(), &how)?;
    if lines.as_slice() == alone.as_slice() {
        Ok(ran)
    } else {
        Err(Fault::Differs)
    }
}

// The lines that one thread writes.
fn lines_alone(alloc: Global, plan: &Arc<Plan>) -> Result<LineList, Memory> {
    run_plan(alloc, plan.clone()?, LineList::new(alloc))
}

fn new_world(alloc: Global, plan: &Arc<Plan>) -> Result<World, Memory> {
    World::new(alloc, plan.clone()?)
}

// How many callbacks run in each round of a transcript.
fn callbacks_of(alloc: Global, lines: &[Line]) -> Result<Vec<usize>, Memory> {
    let mut rounds = Vec::new(alloc);
    let mut callbacks = 0usize;
    for line in lines.iter().rev() {
        match line {
            Line::Run { .. } => callbacks = callbacks.saturating_add(1),
            Line::Round { .. } => {
                rounds.push(callbacks)?;
                callbacks = 0;
            }
            _ => {}
        }
    }
    rounds.reverse();
    Ok(rounds)
}

// The lines that workers write, and what ran.
fn lines_by<R: Threads + Wait + Sync>(
    rt: &R,
    alloc: Global,
    world: World,
    rounds: &[usize],
    how: &WaySettings,
) -> Result<(LineList, Ran), Fault> {
    let mut world = world;
    let mut ran = Ran {
        callbacks: 0,
        taken: 0,
    };
    for (done, callbacks) in rounds.iter().enumerate() {
        let gate = Counting::new(alloc, *callbacks)?;
        world = next(rt, alloc, world, done.saturating_add(1), how, &gate)?;
        ran.add(*callbacks, &gate)?;
    }
    Ok((closed(world)?, ran))
}

impl Ran {
    // Adds a round of this many callbacks.
    fn add(&mut self, callbacks: usize, gate: &Counting) -> Result<(), Fault> {
        if !gate.was_passed() {
            return Err(Fault::Told);
        }
        let taken = gate.taken().ok_or(Fault::Told)?;
        self.callbacks = self.callbacks.saturating_add(callbacks);
        self.taken = self.taken.saturating_add(taken);
        Ok(())
    }
}

// Runs the next round by workers.
fn next<R: Threads + Wait + Sync, G: Gate>(
    rt: &R,
    alloc: Global,
    world: World,
    round: usize,
    how: &WaySettings,
    gate: &G,
) -> Result<World, Memory> {
    if !is_ready(&world, round) || how.workers == 0 || how.quantum == 0 {
        return Err(Memory);
    }
    share(rt, alloc, world, round, how, gate)
}

// Whether a world may run the round of this number.
fn is_ready(world: &World, round: usize) -> bool
    ensures unfailed { result ≡ true → world.now.failed ≡ false }
    ensures next { result ≡ true → IsNext round world.now }
{
    !world.is_failed() && world.is_next(round)
}

fn share<R: Threads + Wait + Sync, G: Gate>(
    rt: &R,
    alloc: Global,
    world: World,
    round: usize,
    how: &WaySettings,
    gate: &G,
) -> Result<World, Memory>
    requires unfailed { world.failed ≡ false }
    requires next { IsNext round world }
    requires workers { 0 < how.now.workers }
    requires quantum { 0 < how.now.quantum }
{
    let (workers, quantum) = (how.workers, how.quantum);
    match how.way {
        Way::Forked => round_forked(rt, alloc, world, round, workers, gate),
        Way::Claimed => round_claimed(rt, alloc, world, round, workers, quantum, gate),
        Way::Streamed => round_streamed(rt, alloc, world, round, workers, quantum, gate),
    }
}

// Closes the transcript of a world, and gives its lines.
fn closed(mut world: World) -> Result<LineList, Memory> {
    if world.finish().is_err() || world.is_failed() {
        return Err(world.give_up());
    }
    Ok(world.into_lines())
}
