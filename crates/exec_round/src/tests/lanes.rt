// Calls of lanes on one thread.
use super::fixture::have_run;
use super::transcripts::first_lines;
use super::world_of;
use exec_doc::Refused;
use exec_lane::{Gate, Gathered, LaneBox, Open, gather, split};
use exec_msg::{Line, Memory};
use exec_script::Effects;
use exec_world::World;
use std::alloc::Global;
use std::sync::atomic::AtomicU64;
use std::sync::atomic::Ordering::SeqCst;
use std::test::Fail;

// Two timers of one mutually exclusive group. The second goes on with the variable that the first one left.
pub(super) const EXCLUSIVE: &[u8] =
    br#"{"version":1,"nodes":[{"name":"n","timers":[{"name":"s","period":1,"script":[["set","g0","mul","g0",2],["log","g0"]]},{"name":"t","period":1,"script":[["set","g0","add","g0",1],["log","g0"]]}]}],"moments":[1]}"#;

// Two timers of one reentrant group.
const REENTRANT: &[u8] =
    br#"{"version":1,"nodes":[{"name":"n","groups":[{"name":"r","kind":"reentrant"}],"timers":[{"name":"s","period":1,"group":"r","script":[["log",5]]},{"name":"t","period":1,"group":"r","script":[["log",6]]}]}],"moments":[1]}"#;

// The positions that were reported to it, one after another, each as a decimal digit.
#[derive(Drop)]
pub(super) struct Told {
    is_watched: bool,
    digits: AtomicU64,
}

impl Told {
    // One that says that it watches, or that nobody does.
    pub(super) fn new(is_watched: bool) -> Told {
        Told {
            is_watched,
            digits: AtomicU64::new(0),
        }
    }

    pub(super) fn digits(&self) -> u64 {
        self.digits.load(SeqCst)
    }
}

impl Gate for Told {
    fn pass(&self, position: usize) {
        let before = self.digits.load(SeqCst);
        self.digits.store(
            before.wrapping_mul(10).wrapping_add(position as u64),
            SeqCst,
        );
    }

    fn took(&self, _position: usize) {}

    fn is_watched(&self) -> bool {
        self.is_watched
    }
}

// The lanes of the first round.
pub(super) fn split_first(alloc: Global, world: &mut World) -> Result<Vec<LaneBox>, Memory> {
    if !world.is_next(1) {
        return Err(Memory);
    }
    let Ok(list) = world.snapshot(1) else {
        return Err(Memory);
    };
    split(alloc, list, world)
}

// Whether lanes have this many callbacks each, and none of these ran.
fn have_lengths(lanes: &[LaneBox], lengths: &[usize]) -> bool {
    lanes.len() == lengths.len()
        && lanes
            .iter()
            .zip(lengths.iter())
            .all(|(lane, length)| lane.done() == 0 && lane.len() == *length)
}

// Runs the next callback of a lane, if there is one.
fn run_next<G: Gate>(lanes: &mut Vec<LaneBox>, number: usize, gate: &G) -> Result<(), Memory> {
    match lanes.get_mut(number) {
        Some(lane) if !lane.is_finished() => lane.run_next(gate),
        _ => Err(Memory),
    }
}

fn are_at(all: &Gathered, positions: &[usize]) -> bool {
    if all.len() != positions.len() {
        return false;
    }
    for index in 0..all.len() {
        if all.ready(index).position != positions[index] {
            return false;
        }
    }
    true
}

// Commits callbacks that ran.
fn commit(alloc: Global, all: Gathered, world: &mut World) -> Result<(), Memory> {
    for index in 0..all.len() {
        let effects = Effects::copy_of(alloc, all.effects(index))?;
        if world.count_uncommitted() == 0 || world.commit(all.ready(index), effects).is_err() {
            return Err(Memory);
        }
    }
    all.end(world)
}

// Runs the next callback of each of these lanes. Gives the positions that were reported to the gate.
fn run_each(lanes: &mut Vec<LaneBox>, numbers: &[usize]) -> Result<u64, Memory> {
    let gate = Told::new(true);
    for number in numbers {
        run_next(lanes, *number, &gate)?;
    }
    Ok(gate.digits())
}

// Brings lanes home and commits what ran. Answers whether both callbacks came home in ready order.
fn come_home(alloc: Global, lanes: Vec<LaneBox>, world: &mut World) -> Result<bool, Memory> {
    let all = gather(alloc, lanes, world)?;
    let ordered = are_at(&all, &[1, 2]);
    commit(alloc, all, world)?;
    Ok(ordered)
}

// Whether a world that hasn't failed has written these lines.
fn has_written(world: &World, lines: &[Line]) -> bool {
    !world.is_failed() && world.transcript() == lines
}

// Cuts the first round into lanes, runs the next callback of each of these and commits what ran. Answers whether the lanes had
// these lengths, these positions were reported to the gate, both callbacks came home in ready order, and these lines were
// written.
fn run_lanes(
    alloc: Global,
    world: &mut World,
    lengths: &[usize],
    numbers: &[usize],
    digits: u64,
    lines: &[Line],
) -> Result<bool, Memory> {
    let mut lanes = split_first(alloc, world)?;
    let cut = have_lengths(&lanes, lengths);
    let told = run_each(&mut lanes, numbers)?;
    let ordered = come_home(alloc, lanes, world)?;
    Ok(cut && ordered && told == digits && has_written(world, lines))
}

// The same of a world that is made elsewhere, because a function that makes one and lends it takes minutes to prove.
fn run_world(
    alloc: Global,
    mut world: World,
    lengths: &[usize],
    numbers: &[usize],
    digits: u64,
    lines: &[Line],
) -> Result<bool, Memory> {
    run_lanes(alloc, &mut world, lengths, numbers, digits, lines)
}

// The same of the world of a document. It writes what one thread writes.
fn run_round(
    alloc: Global,
    document: &[u8],
    lengths: &[usize],
    numbers: &[usize],
    digits: u64,
) -> Result<bool, Refused> {
    let lines = first_lines(alloc, document, 1)?;
    let world = world_of(alloc, document)?;
    Ok(run_world(alloc, world, lengths, numbers, digits, lines.as_slice())?)
}

#[test]
fn callbacks_of_an_exclusive_group_are_one_lane(rt: HostRuntime) -> Result<(), Fail> {
    assert!(rt; run_round(rt.alloc(), EXCLUSIVE, &[2], &[0, 0], 12)?);
    Ok(())
}

#[test]
fn callbacks_of_a_reentrant_group_are_lanes(rt: HostRuntime) -> Result<(), Fail> {
    assert!(rt; run_round(rt.alloc(), REENTRANT, &[1, 1], &[1, 0], 21)?);
    Ok(())
}

// Runs only the second of two lanes. Answers whether only its callback is gathered.
fn gathers_one(alloc: Global, world: &mut World) -> Result<bool, Memory> {
    let mut lanes = split_first(alloc, world)?;
    run_next(&mut lanes, 1, &Open)?;
    Ok(are_at(&gather(alloc, lanes, world)?, &[2]))
}

// The same of a world that is made elsewhere.
fn gathers_one_of(alloc: Global, mut world: World) -> Result<bool, Memory> {
    gathers_one(alloc, &mut world)
}

#[test]
fn callbacks_that_ran_alone_are_gathered(rt: HostRuntime) -> Result<(), Fail> {
    let world = world_of(rt.alloc(), REENTRANT)?;
    assert!(rt; gathers_one_of(rt.alloc(), world)?);
    Ok(())
}

// Runs the next callback of the first lane twice. Answers how many ran, unless one ran after another that was refused memory.
fn run_two(lanes: &mut Vec<LaneBox>) -> Option<usize> {
    let first = run_next(lanes, 0, &Open);
    let second = run_next(lanes, 0, &Open);
    match (first, second) {
        (Ok(()), Ok(())) => Some(2),
        (Ok(()), Err(Memory)) => Some(1),
        (Err(Memory), Err(Memory)) => Some(0),
        (Err(Memory), Ok(())) => None,
    }
}

// Whether this many callbacks are gathered, or memory is refused and the world has failed.
fn gather_some(alloc: Global, lanes: Vec<LaneBox>, world: &mut World, count: usize) -> bool {
    match gather(alloc, lanes, world) {
        Ok(all) => all.len() == count,
        Err(Memory) => world.is_failed(),
    }
}

// Whether a lane that is refused memory runs nothing from then on, and what it ran before is gathered.
fn stays_failed(alloc: Global, mut lanes: Vec<LaneBox>, world: &mut World) -> bool {
    match run_two(&mut lanes) {
        Some(ran) => have_run(&lanes, ran) && gather_some(alloc, lanes, world, ran),
        None => false,
    }
}

// The same of the first round of a world. The world has failed if it is refused its lanes.
fn fails_for_good(alloc: Global, world: &mut World) -> bool {
    match split_first(alloc, world) {
        Ok(lanes) => stays_failed(alloc, lanes, world),
        Err(Memory) => world.is_failed(),
    }
}

// This is also run with each allocation refused, one after another. A lane that was refused one runs nothing from then on.
#[test]
fn a_lane_that_has_failed_stays_so(rt: HostRuntime) {
    if let Ok(mut world) = world_of(rt.alloc(), EXCLUSIVE) {
        assert!(rt; fails_for_good(rt.alloc(), &mut world));
    }
}
