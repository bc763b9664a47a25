//! Calls of a world, one after another, without lanes.
use exec_doc::{Refused, read_document};
use exec_msg::Memory;
use exec_task::Poller;
use exec_world::{Ready, World, WorldFault};
use std::alloc::Global;
use std::process::Abort;
use std::sync::Arc;
use std::test::Fail;

// A timer of period 10 that logs each moment at which it is called.
const TIMER: &[u8] =
    br#"{"version":1,"nodes":[{"name":"n","timers":[{"name":"t","period":10,"script":[["log","now"]]}]}],"moments":[0,10,35,40]}"#;

// The world of the timer.
fn timer_world(alloc: Global) -> Result<World, Refused> {
    let plan = Arc::new(alloc, read_document(alloc, TIMER)?)?;
    Ok(World::new(alloc, plan)?)
}

// Begins a round, if it is the next one, and commits each callback that is ready in it. Answers how many there were.
fn run_round(alloc: Global, world: &mut World, round: usize) -> Result<usize, WorldFault> {
    if !world.is_next(round) {
        return Ok(usize::MAX);
    }
    let list = world.snapshot(round)?;
    for one in list.as_slice() {
        run_one(alloc, world, one)?;
    }
    Ok(list.len())
}

fn run_one(alloc: Global, world: &mut World, one: &Ready) -> Result<(), WorldFault> {
    let Ok(poller) = Poller::new(alloc) else {
        return Err(WorldFault::Memory);
    };
    let mut bank = world.take_bank(one.group);
    let Ok(did) = one.run_apart(alloc, &mut None, &mut bank, &poller) else {
        return Err(WorldFault::Memory);
    };
    world.put_bank(one.group, bank);
    if world.count_uncommitted() == 0 {
        return Err(WorldFault::Memory);
    }
    world.commit(one, did)
}

#[test]
fn a_plan_is_run_by_calls_of_its_world(rt: HostRuntime) -> Result<(), Fail> {
    run_by_calls(&rt, rt.alloc(), timer_world(rt.alloc())?)
}

// A function that owns a world is proved over all that a world drops, once for each way out. So this one lends the world, once.
fn run_by_calls(rt: &impl Abort, alloc: Global, mut world: World) -> Result<(), Fail> {
    run_each(rt, alloc, &mut world)
}

fn run_each(rt: &impl Abort, alloc: Global, world: &mut World) -> Result<(), Fail> {
    assert!(rt; world.rounds_done() == 0);
    for (round, ready) in [(1, 0), (2, 1), (3, 1), (4, 1)] {
        assert!(rt; run_round(alloc, world, round)? == ready);
        assert!(rt; world.rounds_done() == round);
    }
    assert!(rt; !world.is_next(5));
    world.finish()?;
    assert!(rt; !world.is_failed());
    assert!(rt; world.transcript().len() == 11);
    Ok(())
}

#[test]
fn a_round_is_done_with_its_last_commit(rt: HostRuntime) -> Result<(), Fail> {
    end_a_round(&rt, rt.alloc(), timer_world(rt.alloc())?)
}

fn end_a_round(rt: &impl Abort, alloc: Global, mut world: World) -> Result<(), Fail> {
    commit_last(rt, alloc, &mut world)
}

fn commit_last(rt: &impl Abort, alloc: Global, world: &mut World) -> Result<(), Fail> {
    run_round(alloc, world, 1)?;
    assert!(rt; world.is_next(2));
    let list = world.snapshot(2)?;
    assert!(rt; world.rounds_done() == 1 && world.count_uncommitted() == 1 && !world.is_next(3));
    for one in list.as_slice() {
        run_one(alloc, world, one)?;
    }
    assert!(rt; world.rounds_done() == 2 && world.count_uncommitted() == 0 && world.is_next(3));
    Ok(())
}

// It gives this answer whatever it is handed.
#[test]
fn a_failed_world_answers_that_it_failed(rt: HostRuntime) -> Result<(), Fail> {
    fail(&rt, rt.alloc(), timer_world(rt.alloc())?)
}

fn fail(rt: &impl Abort, alloc: Global, mut world: World) -> Result<(), Fail> {
    fail_and_ask(rt, alloc, &mut world)
}

fn fail_and_ask(rt: &impl Abort, alloc: Global, world: &mut World) -> Result<(), Fail> {
    run_round(alloc, world, 1)?;
    assert!(rt; world.is_next(2));
    let list = world.snapshot(2)?;
    world.fail();
    assert!(rt; world.is_failed());
    assert!(rt; world.run_ready(list.as_slice()) == Err(WorldFault::Failed));
    assert!(rt;
        world
            .snapshot(7)
            .is_err_and(|why| why == WorldFault::Failed)
    );
    for one in list.as_slice() {
        assert!(rt; run_one(alloc, world, one) == Err(WorldFault::Failed));
    }
    assert!(rt; world.finish() == Err(WorldFault::Failed));
    assert!(rt; world.rounds_done() == 1);
    Ok(())
}

// This is also run with each allocation refused, one after another. A call that is refused memory marks the world.
#[test]
fn a_world_that_is_refused_memory_has_failed(rt: HostRuntime) {
    if let Ok(world) = timer_world(rt.alloc()) {
        refuse(&rt, world);
    }
}

fn refuse(rt: &impl Abort, mut world: World) {
    take_a_snapshot(rt, &mut world);
}

fn take_a_snapshot(rt: &impl Abort, world: &mut World) {
    if world.is_next(1) && world.snapshot(1).is_err() {
        assert!(rt; world.is_failed());
        assert!(rt; world.finish() == Err(WorldFault::Failed));
        return;
    }
    assert!(rt; !world.is_failed() && world.rounds_done() == 1);
}

// This is also run with each allocation refused, one after another. The world is dropped then.
#[test]
fn a_round_is_run_whole(rt: HostRuntime) {
    if let Ok(world) = timer_world(rt.alloc()) {
        run_whole(&rt, world);
    }
}

fn run_whole(rt: &impl Abort, world: World) {
    assert!(rt; !world.is_failed() && world.is_next(1));
    if let Ok(world) = world.round_alone(1) {
        assert!(rt; world.rounds_done() == 1 && world.is_next(2));
    }
}
