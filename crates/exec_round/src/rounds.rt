//! Rounds by workers.
ghost use Rattle.std.specs.Prelude.{◌≡◌, ◌<◌, ◌≤◌, ℕ, false, length, map, IfOk, IsPermutation, OnOk};
ghost use Rattle.exec_lane.specs.Gather.{outcome_of};
ghost use Rattle.exec_lane.specs.Lane.{AreFinished};
ghost use Rattle.exec_round.specs.inner.Commits.{RiseFrom, after_commits};
ghost use Rattle.exec_round.specs.inner.Begun.{HasBegun, IsListed};
ghost use Rattle.exec_rules.specs.Calls.{IsNext, WorldData, after_round};

use crate::claiming::claim_lanes;
use crate::crew::stream_round;
use crate::forking::fork_lanes;
use crate::sharing::Sharing;
use exec_lane::{Gate, Gathered, LaneBox, gather, laws, split};
use exec_msg::{Lines, Memory};
use exec_stream::Sent;
use exec_world::{Heavy, Light, Ready, World};
use std::alloc::Global;
use std::sync::Wait;
use std::thread::Threads;

// How the lanes of a round are divided among workers.
#[derive(Clone, Copy)]
pub(crate) enum Division {
    // Before any lane runs.
    Forked,
    // By claims.
    Claimed,
}

/// Runs a whole round by at most `workers` workers, 1 or more. Its callbacks are cut into lanes. Lane i, from 0, goes to worker
/// i modulo the number of workers. Each worker runs its lanes one after another, in a thread of its own if one can be made.
/// What the callbacks did is committed when the last of them has run. No thread is made for one worker alone. If memory is
/// refused, the world is dropped.
///
/// # Errors
/// [`Memory`] if a growth or a clone was refused. All threads have ended then.
pub fn round_forked<L: Lines, R: Threads + Sync, G: Gate>(
    rt: &R,
    alloc: Global,
    world: World<L>,
    round: usize,
    workers: usize,
    gate: &G,
) -> Result<World<L>, Memory>
    requires unfailed { world.failed ≡ false }
    requires next { IsNext round world }
    requires workers { 0 < workers }
    ensures { IfOk result (λ after. after ≡ after_round round world) }
{
    let mut world = world;
    // Lanes that are forked aren't claimed.
    let sharing = Sharing {
        alloc,
        workers,
        quantum: 1,
        gate,
    };
    if run_round(rt, &mut world, round, Division::Forked, &sharing).is_err() {
        return Err(world.give_up());
    }
    Ok(world)
}

/// Runs a whole round by at most `workers` workers, 1 or more. Its callbacks are cut into lanes on a board. Each worker claims
/// a lane that is open, runs at most `quantum` callbacks of it, 1 or more, and releases it, until a visit to each lane brings
/// no claim. It runs in a thread of its own if one can be made. What the callbacks did is committed when the last of them has
/// run. No thread is made for one worker alone. If memory is refused, the world is dropped.
///
/// # Errors
/// [`Memory`] if a growth or a clone was refused. All threads have ended then.
pub fn round_claimed<L: Lines, R: Threads + Sync, G: Gate>(
    rt: &R,
    alloc: Global,
    world: World<L>,
    round: usize,
    workers: usize,
    quantum: usize,
    gate: &G,
) -> Result<World<L>, Memory>
    requires unfailed { world.failed ≡ false }
    requires next { IsNext round world }
    requires workers { 0 < workers }
    requires quantum { 0 < quantum }
    ensures { IfOk result (λ after. after ≡ after_round round world) }
{
    let mut world = world;
    let sharing = Sharing {
        alloc,
        workers,
        quantum,
        gate,
    };
    if run_round(rt, &mut world, round, Division::Claimed, &sharing).is_err() {
        return Err(world.give_up());
    }
    Ok(world)
}

/// Runs a whole round as [`round_claimed`] does, but each worker puts what a callback did into a queue as soon as the callback
/// has run. The calling thread is a worker too. When it finds no lane to claim, it takes from the queue what is there, and
/// reports it to the gate. A worker keeps what comes back from a full queue. What is committed is what was taken and what was
/// kept, in ready order.
///
/// # Errors
/// [`Memory`] if a growth or a copy was refused. All threads have ended then.
pub fn round_streamed<L: Lines, R: Threads + Wait + Sync, G: Gate>(
    rt: &R,
    alloc: Global,
    world: World<L>,
    round: usize,
    workers: usize,
    quantum: usize,
    gate: &G,
) -> Result<World<L>, Memory>
    requires unfailed { world.failed ≡ false }
    requires next { IsNext round world }
    requires workers { 0 < workers }
    requires quantum { 0 < quantum }
    ensures { IfOk result (λ after. after ≡ after_round round world) }
{
    let sharing = Sharing {
        alloc,
        workers,
        quantum,
        gate,
    };
    stream_round(rt, world, round, &sharing)
}

// Runs a round by all workers.
fn run_round<L: Lines, R: Threads + Sync, G: Gate>(
    rt: &R,
    world: &mut World<L>,
    round: usize,
    division: Division,
    sharing: &Sharing<'_, G>,
) -> Result<(), Memory>
    requires { IsNext round world.old }
    ensures { OnOk result (world.new ≡ after_round round world.old) }
{
    match begin(world, round, None)? {
        Some(heavy) => run_list(rt, heavy.list, division, sharing, world),
        None => Ok(()),
    }
}

// Begins a round, and answers its callbacks. Answers nothing if the round is done: if it has none, or if its work is light and
// has been run in place.
pub(crate) fn begin<L: Lines>(
    world: &mut World<L>,
    round: usize,
    light: Option<Light>,
) -> Result<Option<Heavy>, Memory>
    requires { IsNext round world.old }
    ensures { IfOk result (λ heavy. HasBegun round heavy world.old world.new) }
{
    let heavy = match light {
        Some(light) => match world.run_if_light(round, &light)? {
            Some(heavy) => heavy,
            None => return Ok(None),
        },
        None => Heavy {
            list: world.snapshot(round)?,
            instructions: u64::MAX,
        },
    };
    if heavy.list.is_empty() {
        return Ok(None);
    }
    Ok(Some(heavy))
}

// Runs the callbacks of a round that has begun, in lanes, and commits them.
pub(crate) fn run_list<L: Lines, R: Threads + Sync, G: Gate>(
    rt: &R,
    list: Vec<Ready>,
    division: Division,
    sharing: &Sharing<'_, G>,
    world: &mut World<L>,
) -> Result<(), Memory>
    requires { (round : ℕ) × (before : WorldData) × IsListed round list.items before world.old }
    ensures { OnOk result ((round : ℕ) (before : WorldData) → IsListed round list.items before world.old → world.new ≡ after_round round before) }
{
    laws::lanes_come_home_as_one_thread_leaves_them();
    exec_rules::laws::callbacks_may_be_committed_behind();
    let alloc = sharing.alloc;
    let lanes = split(alloc, list, world)?;
    let ran = run_lanes(rt, lanes, division, sharing)?;
    let all = gather(alloc, ran, world)?;
    commit_each(all, world)
}

// Runs all callbacks of lanes.
fn run_lanes<R: Threads + Sync, G: Gate>(
    rt: &R,
    lanes: Vec<LaneBox>,
    division: Division,
    sharing: &Sharing<'_, G>,
) -> Result<Vec<LaneBox>, Memory>
    ensures { IfOk result (λ ran. AreFinished lanes.items ran.items) }
{
    let Sharing {
        alloc,
        workers,
        quantum,
        gate,
    } = *sharing;
    match division {
        Division::Forked => fork_lanes(rt, alloc, lanes, workers, gate),
        Division::Claimed => claim_lanes(rt, alloc, lanes, workers, quantum, gate),
    }
}

// Commits callbacks that ran, one after another.
fn commit_each<L: Lines>(all: Gathered, world: &mut World<L>) -> Result<(), Memory>
    requires { length all ≤ world.old.uncommitted }
    ensures { OnOk result (world.new ≡ after_commits all world.old) }
{
    for index in 0..all.len() {
        let did = all.effects(index);
        world.commit_given(all.ready(index), did.list.as_slice(), &did.close)?;
    }
    all.end(world)
}

// The same by what was sent on of each of them.
pub(crate) fn commit_sent<L: Lines>(
    alloc: Global,
    all: Gathered,
    sent: &Sent,
    world: &mut World<L>,
) -> Result<(), Memory>
    requires left { length all ≤ world.old.uncommitted }
    requires order { RiseFrom 1 (map (λ one. one.ready.position) all) }
    requires sent { IsPermutation (map outcome_of all) sent.now }
    ensures { OnOk result (world.new ≡ after_commits all world.old) }
{
    let places = sent.places(alloc, all.len())?;
    for index in 0..all.len() {
        let did = &sent.at(places[index]).effects;
        world.commit_given(all.ready(index), did.list(), did.close())?;
    }
    all.end(world)
}
