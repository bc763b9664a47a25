//! How the lanes of a round are run by workers.
ghost use Rattle.std.specs.Prelude.{◌≡◌, ◌<◌, [], true, map, vec_len, slice_index_or, option_to_list, IfOk};
ghost use Rattle.exec_lane.specs.Lane.{AreFinished};
ghost use Rattle.exec_round.specs.inner.Running.{AreRun, are_done, as_left, as_wanted, is_run, opening_of};
ghost use Rattle.exec_round.specs.inner.Shares.{dealt, last_of, put_back, taken_from};
ghost use denote.Param.Send.{IsSync};

use exec_lane::{Gate, LaneBox};
use exec_msg::Memory;
use std::alloc::Global;
use std::thread::{Threads, for_each_mut};

// Runs all callbacks of the lanes, by at most `workers` workers. Lane i, from 0, goes to worker i modulo their number. Each
// worker runs its lanes one after another, in a thread of its own if one can be made. One worker alone takes no thread.
pub(crate) fn fork_lanes<R: Threads + Sync, G: Gate>(
    rt: &R,
    alloc: Global,
    lanes: Vec<LaneBox>,
    workers: usize,
    gate: &G,
) -> Result<Vec<LaneBox>, Memory>
    requires { 0 < workers }
    ensures { IfOk result (λ finished. AreFinished lanes.items finished.items) }
{
    let ran = run_by(rt, alloc, lanes, workers, gate)?;
    if !are_finished(ran.as_slice()) {
        return Err(Memory);
    }
    Ok(ran)
}

// The same, but a lane that was refused memory is left unfinished.
fn run_by<R: Threads + Sync, G: Gate>(
    rt: &R,
    alloc: Global,
    mut lanes: Vec<LaneBox>,
    workers: usize,
    gate: &G,
) -> Result<Vec<LaneBox>, Memory>
    requires { 0 < workers }
    ensures { IfOk result (λ ran. AreRun lanes.items ran.items) }
{
    let number = lanes.as_slice().len();
    let count = workers.min(number);
    if count < 2 {
        run_share(&mut lanes, gate);
        return Ok(lanes);
    }
    let mut shares = deal(alloc, lanes, count)?;
    run_shares(rt, &mut shares, gate);
    put_back(alloc, shares, number)
}

fn are_finished(lanes: &[LaneBox]) -> bool
    ensures { result ≡ are_done lanes.now }
{
    lanes.iter().all(|lane| lane.is_finished())
}

// Runs what is left of a lane's callbacks, until one is refused memory.
fn run_lane<G: Gate>(lane: &mut LaneBox, gate: &G)
    ensures opening { opening_of lane.new ≡ opening_of lane.old }
    ensures run { is_run lane.new ≡ true }
{
    while !lane.is_finished() {
        if lane.run_next(gate).is_err() {
            return;
        }
    }
}

// Runs lanes one after another.
fn run_share<G: Gate>(lanes: &mut Vec<LaneBox>, gate: &G)
    ensures { AreRun lanes.old.items lanes.new.items }
{
    for lane in lanes.iter_mut() {
        run_lane(lane, gate);
    }
}

// Runs shares of lanes, each in a thread of its own if one can be made.
fn run_shares<R: Threads + Sync, G: Gate>(rt: &R, shares: &mut Vec<Vec<LaneBox>>, gate: &G)
    requires { 0 < vec_len shares.old }
    ensures len { vec_len shares.new ≡ vec_len shares.old }
    ensures run { map (λ share. map as_left share.items) shares.new.items ≡ map (λ share. map as_wanted share.items) shares.old.items }
{
    let run = |_: usize, share: &mut Vec<LaneBox>|
        requires { IsSync G.row }
        ensures { AreRun share.entry.now.items share.exit.now.items }
    { run_share(share, gate) };
    let count = shares.len();
    for_each_mut(rt, shares.as_mut_slice(), count, &run);
}

// Deals lanes to `count` shares.
fn deal(alloc: Global, mut lanes: Vec<LaneBox>, count: usize) -> Result<Vec<Vec<LaneBox>>, Memory>
    requires { 0 < count }
    ensures len { IfOk result (λ shares. vec_len shares ≡ count) }
    ensures dealt { IfOk result (λ shares. map (λ share. share.items) shares.items ≡ dealt count lanes.items) }
{
    let mut shares = Vec::new(alloc);
    for _ in 0..count {
        shares.push(Vec::new(alloc))?;
    }
    let mut number = 0;
    lanes.reverse();
    while let Some(lane) = lanes.pop() {
        shares[number % count].push(lane)?;
        number += 1;
    }
    Ok(shares)
}

// Puts back the lanes that were dealt. There are `number` of them.
fn put_back(
    alloc: Global,
    mut shares: Vec<Vec<LaneBox>>,
    number: usize,
) -> Result<Vec<LaneBox>, Memory>
    requires { 0 < vec_len shares }
    ensures { IfOk result (λ lanes. lanes.items ≡ put_back (vec_len shares) number (map (λ share. share.items) shares.items)) }
{
    let count = shares.len();
    let mut lanes = Vec::new(alloc);
    let mut left = number;
    while left > 0 {
        left -= 1;
        if let Some(lane) = take_last(&mut shares, left % count) {
            lanes.push(lane)?;
        }
    }
    lanes.reverse();
    Ok(lanes)
}

// Takes the last lane of a share.
fn take_last(shares: &mut Vec<Vec<LaneBox>>, place: usize) -> Option<LaneBox>
    requires { place < vec_len shares.old }
    ensures len { vec_len shares.new ≡ vec_len shares.old }
    ensures left { map (λ share. share.items) shares.new.items ≡ taken_from place (map (λ share. share.items) shares.old.items) }
    ensures last { option_to_list result ≡ last_of (slice_index_or (map (λ share. share.items) shares.old.items) place []) }
{
    shares[place].pop()
}
