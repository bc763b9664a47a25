//! Rounds and runs by workers.
mod board;
mod callers;
mod claims;
mod fixture;
mod holding;
mod lanes;
mod meeting;
mod outcomes;
mod transcripts;
mod unwatched;

ghost use Rattle.std.specs.Prelude.{◌≡◌, ◌<◌, ◌≤◌, true, false};
ghost use Rattle.exec_rules.specs.Calls.{IsNext};

use crate::{RunFault, Through, round_claimed, round_forked, round_streamed, run_into};
use exec_doc::{Refused, read_document};
use exec_lane::Gate;
use exec_msg::Memory;
use exec_world::World;
use std::alloc::Global;
use std::sync::{Arc, Wait};
use std::thread::Threads;

// A thread that waits for another gives up after this many turns. That takes a second or more, because a busy machine may leave
// a thread for that long.
const TURNS: u64 = 4_000_000_000;

// How many workers share a round, and in which way.
#[derive(Clone, Copy)]
struct Setting {
    workers: usize,
    way: Way,
}

// How workers share a round.
#[derive(Clone, Copy)]
enum Way {
    Forked,
    // This many callbacks are claimed at a time.
    Claimed(usize),
    // The same, and what they did is sent on.
    Streamed(usize),
}

fn world_of(alloc: Global, document: &[u8]) -> Result<World, Refused> {
    let plan = Arc::new(alloc, read_document(alloc, document)?)?;
    Ok(World::new(alloc, plan)?)
}

// Whether a world may run the round of this number.
fn is_ready(world: &World, round: usize) -> bool
    ensures unfailed { result ≡ true → world.now.failed ≡ false }
    ensures next { result ≡ true → IsNext round world.now }
{
    !world.is_failed() && world.is_next(round)
}

// Runs the round of this number by workers, if the world may run it.
fn next<R: Threads + Wait + Sync, G: Gate>(
    rt: &R,
    alloc: Global,
    world: World,
    round: usize,
    setting: Setting,
    gate: &G,
) -> Result<World, Memory> {
    if !is_ready(&world, round) || setting.workers == 0 {
        return Err(Memory);
    }
    share(rt, alloc, world, round, setting, gate)
}

// Runs the round of this number by workers.
fn share<R: Threads + Wait + Sync, G: Gate>(
    rt: &R,
    alloc: Global,
    world: World,
    round: usize,
    setting: Setting,
    gate: &G,
) -> Result<World, Memory>
    requires unfailed { world.failed ≡ false }
    requires next { IsNext round world }
    requires workers { 0 < setting.workers }
{
    let workers = setting.workers;
    match setting.way {
        Way::Forked => round_forked(rt, alloc, world, round, workers, gate),
        Way::Claimed(quantum) => {
            round_claimed(rt, alloc, world, round, workers, quantum.max(1), gate)
        }
        Way::Streamed(quantum) => {
            round_streamed(rt, alloc, world, round, workers, quantum.max(1), gate)
        }
    }
}

// The text that a run writes.
fn text_of<R: Threads + Wait + Sync, G: Gate>(
    rt: &R,
    alloc: Global,
    document: &[u8],
    workers: usize,
    quantum: usize,
    gate: &G,
) -> Result<Vec<u8>, RunFault>
    requires workers { (0 < workers) × (workers ≤ 64) }
    requires quantum { (0 < quantum) × (quantum ≤ 1024) }
{
    let mut out = Through::new(Vec::new(alloc));
    run_into(rt, alloc, document, workers, quantum, gate, &mut out)?;
    Ok(out.writer)
}
