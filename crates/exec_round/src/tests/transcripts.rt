// What workers write, compared with what one thread writes.
use super::{Setting, TURNS, Way, is_ready, next, world_of};
use exec_doc::Refused;
use exec_lane::{Gate, Open};
use exec_msg::{LineList, Memory};
use exec_world::World;
use std::alloc::{AllocError, Global};
use std::sync::Wait;
use std::sync::atomic::AtomicU64;
use std::sync::atomic::Ordering::SeqCst;
use std::test::Fail;
use std::thread::Threads;

// Watches, so that workers run, and holds nothing.
struct Watching;

impl Gate for Watching {
    fn pass(&self, _position: usize) {}

    fn took(&self, _position: usize) {}
}

// Two timers of one group, a timer of another one, and a server of a reentrant group whose sixteen goals wake in one round.
const SIXTEEN_GOALS: &[u8] =
    br#"{"version":1,"nodes":[{"name":"n","groups":[{"name":"A","kind":"exclusive"},{"name":"B","kind":"exclusive"},{"name":"R","kind":"reentrant"}],"timers":[{"name":"ta","period":20,"group":"A","script":[["log","now"]]},{"name":"tb1","period":20,"group":"B","script":[["set","g0","add","g0",3],["log","g0"]]},{"name":"tb2","period":20,"group":"B","script":[["set","g0","mul","g0",2],["log","g0"]]}],"actions":[{"name":"a","group":"R","on_goal":[["decide",2]],"script":[["set","r0","sub",20,"now"],["wait","r0"],["succeed","in"]]}]}],"moments":[1, 2, 3, 4, 5, 6, 7, 8, 9, 10, 11, 12, 13, 14, 15, 16, 17, 18, 19, 20],"feed":[{"round":1,"action":"a","goal":"00000000-0000-0000-0000-000000000001","value":1},{"round":2,"action":"a","goal":"00000000-0000-0000-0000-000000000002","value":2},{"round":3,"action":"a","goal":"00000000-0000-0000-0000-000000000003","value":3},{"round":4,"action":"a","goal":"00000000-0000-0000-0000-000000000004","value":4},{"round":5,"action":"a","goal":"00000000-0000-0000-0000-000000000005","value":5},{"round":6,"action":"a","goal":"00000000-0000-0000-0000-000000000006","value":6},{"round":7,"action":"a","goal":"00000000-0000-0000-0000-000000000007","value":7},{"round":8,"action":"a","goal":"00000000-0000-0000-0000-000000000008","value":8},{"round":9,"action":"a","goal":"00000000-0000-0000-0000-000000000009","value":9},{"round":10,"action":"a","goal":"00000000-0000-0000-0000-000000000010","value":10},{"round":11,"action":"a","goal":"00000000-0000-0000-0000-000000000011","value":11},{"round":12,"action":"a","goal":"00000000-0000-0000-0000-000000000012","value":12},{"round":13,"action":"a","goal":"00000000-0000-0000-0000-000000000013","value":13},{"round":14,"action":"a","goal":"00000000-0000-0000-0000-000000000014","value":14},{"round":15,"action":"a","goal":"00000000-0000-0000-0000-000000000015","value":15},{"round":16,"action":"a","goal":"00000000-0000-0000-0000-000000000016","value":16}]}"#;

// What a world that hasn't failed has written.
fn lines_of(world: World) -> Result<LineList, Memory> {
    if world.is_failed() {
        return Err(Memory);
    }
    Ok(world.into_lines())
}

// What workers write in this many rounds.
fn lines_by<R: Threads + Wait + Sync, G: Gate>(
    rt: &R,
    alloc: Global,
    mut world: World,
    rounds: usize,
    setting: Setting,
    gate: &G,
) -> Result<LineList, Memory> {
    for done in 0..rounds {
        world = next(rt, alloc, world, done + 1, setting, gate)?;
    }
    lines_of(world)
}

// What one thread writes in this many rounds.
fn lines_alone(mut world: World, rounds: usize) -> Result<LineList, Memory> {
    for done in 0..rounds {
        if !is_ready(&world, done + 1) {
            return Err(Memory);
        }
        world = world.round_alone(done + 1)?;
    }
    lines_of(world)
}

// What one thread writes in the first rounds of a document.
pub(super) fn first_lines(
    alloc: Global,
    document: &[u8],
    rounds: usize,
) -> Result<LineList, Refused> {
    let world = world_of(alloc, document)?;
    Ok(lines_alone(world, rounds)?)
}

// Whether workers leave the transcript of one thread in the first rounds of a document.
fn leave_the_same<R: Threads + Wait + Sync, G: Gate>(
    rt: &R,
    alloc: Global,
    document: &[u8],
    rounds: usize,
    setting: Setting,
    gate: &G,
) -> Result<bool, Refused> {
    let alone = first_lines(alloc, document, rounds)?;
    let world = world_of(alloc, document)?;
    let lines = lines_by(rt, alloc, world, rounds, setting, gate)?;
    Ok(lines.as_slice() == alone.as_slice())
}

#[test]
fn forked_rounds_leave_what_one_thread_leaves(rt: HostRuntime) -> Result<(), Fail> {
    for workers in [1, 2, 7, 64] {
        let setting = Setting {
            workers,
            way: Way::Forked,
        };
        assert!(rt; leave_the_same(&rt, rt.alloc(), SIXTEEN_GOALS, 20, setting, &Watching)?);
    }
    Ok(())
}

#[test]
fn claimed_rounds_leave_what_one_thread_leaves(rt: HostRuntime) -> Result<(), Fail> {
    for workers in [1, 2, 7, 64] {
        for quantum in [1, 3, 1024] {
            let setting = Setting {
                workers,
                way: Way::Claimed(quantum),
            };
            assert!(rt; leave_the_same(&rt, rt.alloc(), SIXTEEN_GOALS, 20, setting, &Watching)?);
        }
    }
    Ok(())
}

#[test]
fn streamed_rounds_leave_what_one_thread_leaves(rt: HostRuntime) -> Result<(), Fail> {
    for workers in [1, 2, 7, 64] {
        for quantum in [1, 3, 1024] {
            let setting = Setting {
                workers,
                way: Way::Streamed(quantum),
            };
            assert!(rt; leave_the_same(&rt, rt.alloc(), SIXTEEN_GOALS, 20, setting, &Watching)?);
        }
    }
    Ok(())
}

// A server of a reentrant group, whose goals end at moment 34.
fn push_server(text: &mut String, name: &str) -> Result<(), AllocError> {
    write!(
        text,
        r#"{{"name":"{name}","group":"R","on_goal":[["decide",2]],"script":[["set","r0","sub",34,"now"],["wait","r0"],["succeed","in"]]}}"#
    )
}

// Goals of a server, one in each round.
fn push_goals(text: &mut String, server: &str, goals: usize) -> Result<(), AllocError> {
    for goal in 1..=goals {
        write!(
            text,
            r#",{{"round":{goal},"action":"{server}","goal":"00000000-0000-0000-0000-0000000000{goal:02}","value":{goal}}}"#
        )?;
    }
    Ok(())
}

// A document in whose round 34 two servers have 33 and 32 goals that wake. That is one callback more than the queue has places.
// No other round has a callback after position 4.
fn sixty_five_polls(alloc: Global) -> Result<String, AllocError> {
    let mut text = String::from_str(
        alloc,
        r#"{"version":1,"nodes":[{"name":"n","groups":[{"name":"R","kind":"reentrant"}],"actions":["#,
    )?;
    push_server(&mut text, "a")?;
    text.push_str(",")?;
    push_server(&mut text, "b")?;
    text.push_str(r#"]}],"moments":[1"#)?;
    for moment in 2..=34 {
        write!(text, ",{moment}")?;
    }
    text.push_str(r#"],"topics":["x"],"feed":[{"round":1,"topic":"x","value":0}"#)?;
    push_goals(&mut text, "a", 33)?;
    push_goals(&mut text, "b", 32)?;
    text.push_str("]}")?;
    Ok(text)
}

// Watches, and counts the outcomes that come to the collector from positions after 4.
#[derive(Drop)]
struct Taken {
    count: AtomicU64,
}

impl Gate for Taken {
    fn pass(&self, _position: usize) {}

    fn took(&self, position: usize) {
        if position > 4 {
            self.count.fetch_add(1, SeqCst);
        }
    }
}

// One worker puts all before anything is taken. The queue has places for positions 1 to 64, and the worker keeps the last
// outcome.
#[test]
fn more_outcomes_than_places_are_collected(rt: HostRuntime) -> Result<(), Fail> {
    let document = sixty_five_polls(rt.alloc())?;
    for (workers, least, most) in [(1, 60, 60), (2, 0, 61)] {
        let setting = Setting {
            workers,
            way: Way::Streamed(1024),
        };
        let gate = Taken {
            count: AtomicU64::new(0),
        };
        assert!(rt; leave_the_same(&rt, rt.alloc(), document.as_bytes(), 34, setting, &gate)?);
        let count = gate.count.load(SeqCst);
        assert!(rt; least <= count && count <= most);
    }
    Ok(())
}

// Holds each of positions 1, 2 and 4 until all three have come, for a limited number of turns.
#[derive(Drop)]
struct Three {
    came: AtomicU64,
    missed: AtomicU64,
}

impl Three {
    fn new() -> Three {
        Three {
            came: AtomicU64::new(0),
            missed: AtomicU64::new(0),
        }
    }

    fn met(&self) -> bool {
        self.came.load(SeqCst) == 3 && self.missed.load(SeqCst) == 0
    }
}

impl Gate for Three {
    fn pass(&self, position: usize) {
        if position != 1 && position != 2 && position != 4 {
            return;
        }
        self.came.fetch_add(1, SeqCst);
        for _ in 0..TURNS {
            if self.came.load(SeqCst) >= 3 {
                return;
            }
        }
        self.missed.store(1, SeqCst);
    }

    fn took(&self, _position: usize) {}
}

// What workers write in nineteen rounds that nobody watches and in one more with a gate.
fn lines_at_last<R: Threads + Wait + Sync, G: Gate>(
    rt: &R,
    alloc: Global,
    mut world: World,
    setting: Setting,
    gate: &G,
) -> Result<LineList, Memory> {
    for done in 0..19 {
        world = next(rt, alloc, world, done + 1, setting, &Open)?;
    }
    lines_of(next(rt, alloc, world, 20, setting, gate)?)
}

// Whether three callbacks of the last round meet, with three workers and with 64, and the lines are those of one thread.
fn three_meet<R: Threads + Wait + Sync>(rt: &R, alloc: Global, way: Way) -> Result<bool, Refused> {
    let alone = first_lines(alloc, SIXTEEN_GOALS, 20)?;
    for workers in [3, 64] {
        let setting = Setting { workers, way };
        let gate = Three::new();
        let world = world_of(alloc, SIXTEEN_GOALS)?;
        let lines = lines_at_last(rt, alloc, world, setting, &gate)?;
        if !gate.met() || lines.as_slice() != alone.as_slice() {
            return Ok(false);
        }
    }
    Ok(true)
}

#[test]
fn three_callbacks_of_the_last_forked_round_meet(rt: HostRuntime) -> Result<(), Fail> {
    assert!(rt; three_meet(&rt, rt.alloc(), Way::Forked)?);
    Ok(())
}

#[test]
fn three_callbacks_of_the_last_claimed_round_meet(rt: HostRuntime) -> Result<(), Fail> {
    assert!(rt; three_meet(&rt, rt.alloc(), Way::Claimed(1))?);
    Ok(())
}

#[test]
fn three_callbacks_of_the_last_streamed_round_meet(rt: HostRuntime) -> Result<(), Fail> {
    assert!(rt; three_meet(&rt, rt.alloc(), Way::Streamed(1))?);
    Ok(())
}
