// In which order one worker claims callbacks, by the quantum.
use super::lanes::Told;
use super::{Setting, Way, next, text_of, world_of};
use crate::run;
use exec_doc::Refused;
use exec_msg::Memory;
use std::alloc::Global;
use std::sync::Wait;
use std::test::Fail;
use std::thread::Threads;

// Two lanes of four callbacks each.
const TWO_LANES: &[u8] =
    br#"{"version":1,"nodes":[{"name":"n","groups":[{"name":"a","kind":"exclusive"},{"name":"b","kind":"exclusive"}],"timers":[{"name":"t1","period":1,"group":"a"},{"name":"t2","period":1,"group":"a"},{"name":"t3","period":1,"group":"a"},{"name":"t4","period":1,"group":"a"},{"name":"t5","period":1,"group":"b"},{"name":"t6","period":1,"group":"b"},{"name":"t7","period":1,"group":"b"},{"name":"t8","period":1,"group":"b"}]}],"moments":[1]}"#;

// The order in which one worker comes to them, by the quantum.
const ORDERS: [(usize, u64); 4] = [
    (1, 15_263_748),
    (2, 12_563_478),
    (3, 12_356_748),
    (1024, 12_345_678),
];

// The positions that are reported to a gate while one worker runs the first round of two lanes.
fn told_in_a_round<R: Threads + Wait + Sync>(
    rt: &R,
    alloc: Global,
    way: Way,
    is_watched: bool,
) -> Result<u64, Refused> {
    let gate = Told::new(is_watched);
    let world = world_of(alloc, TWO_LANES)?;
    match next(rt, alloc, world, 1, Setting { workers: 1, way }, &gate) {
        Ok(_world) => Ok(gate.digits()),
        Err(Memory) => Err(Refused::Memory),
    }
}

// Whether one worker comes to the callbacks in this order, whether the gate watches or not.
fn come_in<R: Threads + Wait + Sync>(
    rt: &R,
    alloc: Global,
    way: Way,
    order: u64,
) -> Result<bool, Refused> {
    for is_watched in [true, false] {
        if told_in_a_round(rt, alloc, way, is_watched)? != order {
            return Ok(false);
        }
    }
    Ok(true)
}

#[test]
fn one_worker_runs_its_quantum_at_a_claim(rt: HostRuntime) -> Result<(), Fail> {
    assert!(rt; come_in(&rt, rt.alloc(), Way::Forked, 12_345_678)?);
    for (quantum, order) in ORDERS {
        for way in [Way::Claimed(quantum), Way::Streamed(quantum)] {
            assert!(rt; come_in(&rt, rt.alloc(), way, order)?);
        }
    }
    Ok(())
}

#[test]
fn one_worker_runs_its_quantum_at_a_claim_in_a_run(rt: HostRuntime) -> Result<(), Fail> {
    for (quantum, order) in [(1, 15_263_748), (3, 12_356_748)] {
        let gate = Told::new(true);
        run(&rt, rt.alloc(), TWO_LANES, 1, quantum, &gate)?;
        assert!(rt; gate.digits() == order);
        let gate = Told::new(true);
        text_of(&rt, rt.alloc(), TWO_LANES, 1, quantum, &gate)?;
        assert!(rt; gate.digits() == order);
    }
    Ok(())
}
