// Workers that meet.
use super::{Setting, TURNS, Way, next, text_of, world_of};
use crate::run;
use exec_doc::Refused;
use exec_lane::Gate;
use std::alloc::Global;
use std::sync::Wait;
use std::sync::atomic::AtomicU64;
use std::sync::atomic::Ordering::SeqCst;
use std::test::Fail;
use std::thread::Threads;

// Marks each position that comes. Positions up to `held`, and those of the second half alike, are held until all of their half
// are marked, for a limited number of turns. It says of itself that it watches, or that nobody does.
#[derive(Drop)]
struct Meeting {
    is_watched: bool,
    half: u64,
    held: usize,
    first: AtomicU64,
    second: AtomicU64,
    missed: AtomicU64,
    // How often each position below 16 was reported to it, as a hexadecimal digit each.
    taken: AtomicU64,
}

impl Meeting {
    fn of(half: u64, held: usize) -> Meeting {
        Meeting::with(true, half, held)
    }

    fn with(is_watched: bool, half: u64, held: usize) -> Meeting {
        Meeting {
            is_watched,
            half,
            held,
            first: AtomicU64::new(0),
            second: AtomicU64::new(0),
            missed: AtomicU64::new(0),
            taken: AtomicU64::new(0),
        }
    }

    fn meet(&self, marks: &AtomicU64, held: bool) {
        marks.fetch_add(1, SeqCst);
        if !held {
            return;
        }
        for _ in 0..TURNS {
            if marks.load(SeqCst) >= self.half {
                return;
            }
        }
        self.missed.store(1, SeqCst);
    }

    // Whether all positions of a half, or of both, have come, and none has waited for another in vain.
    fn met(&self, both: bool) -> bool {
        let second = if both { self.half } else { 0 };
        self.first.load(SeqCst) == self.half
            && self.second.load(SeqCst) == second
            && self.missed.load(SeqCst) == 0
    }
}

impl Gate for Meeting {
    fn pass(&self, position: usize) {
        if position as u64 <= self.half {
            self.meet(&self.first, position <= self.held);
        } else {
            self.meet(&self.second, self.held > 1);
        }
    }

    fn took(&self, position: usize) {
        let digit = (position % 16) as u32;
        self.taken.fetch_add(1u64.rotate_left(4 * digit), SeqCst);
    }

    fn is_watched(&self) -> bool {
        self.is_watched
    }
}

// Two timers of period 1 in two mutually exclusive groups.
const TWO_GROUPS: &[u8] =
    br#"{"version":1,"nodes":[{"name":"n","groups":[{"name":"a","kind":"exclusive"},{"name":"b","kind":"exclusive"}],"timers":[{"name":"s","period":1,"group":"a","script":[["log","now"]]},{"name":"t","period":1,"group":"b","script":[["log",7]]}]}],"moments":[1]}"#;

const OF_TWO_GROUPS: &[u8] =
    b"round 1 1\nrun s timer 1 0\nlog s 1\nrun t timer 1 0\nlog t 7\nend 1\n";

// Both wait for each other.
const TWO: Halves = Halves {
    half: 2,
    held: 2,
    both: false,
    told: 0x110,
};

// Which positions meet: those of one half, or of two, with so many each. Those up to `held` are held. `told` is what the gate is
// told of all of them by a queue.
#[derive(Clone, Copy)]
struct Halves {
    half: u64,
    held: usize,
    both: bool,
    told: u64,
}

// Whether the workers of a document's first round meet, whether the gate watches or not, and whether the gate is told what a
// streamed round collects, and nothing of another one.
fn meet_in_a_round<R: Threads + Wait + Sync>(
    rt: &R,
    alloc: Global,
    document: &[u8],
    setting: Setting,
    halves: Halves,
) -> Result<bool, Refused> {
    let told = match setting.way {
        Way::Streamed(_) => halves.told,
        Way::Forked | Way::Claimed(_) => 0,
    };
    for is_watched in [true, false] {
        let gate = Meeting::with(is_watched, halves.half, halves.held);
        let world = world_of(alloc, document)?;
        let ran = next(rt, alloc, world, 1, setting, &gate).is_ok();
        if !ran || !gate.met(halves.both) || gate.taken.load(SeqCst) != told {
            return Ok(false);
        }
    }
    Ok(true)
}

#[test]
fn two_workers_of_a_forked_round_run_at_once(rt: HostRuntime) -> Result<(), Fail> {
    let setting = Setting {
        workers: 2,
        way: Way::Forked,
    };
    assert!(rt; meet_in_a_round(&rt, rt.alloc(), TWO_GROUPS, setting, TWO)?);
    Ok(())
}

#[test]
fn two_workers_of_a_claimed_round_run_at_once(rt: HostRuntime) -> Result<(), Fail> {
    for quantum in [1, 1024] {
        let way = Way::Claimed(quantum);
        let setting = Setting { workers: 2, way };
        assert!(rt; meet_in_a_round(&rt, rt.alloc(), TWO_GROUPS, setting, TWO)?);
    }
    Ok(())
}

// What they did goes by the queue.
#[test]
fn two_workers_of_a_streamed_round_run_at_once(rt: HostRuntime) -> Result<(), Fail> {
    for quantum in [1, 1024] {
        let way = Way::Streamed(quantum);
        let setting = Setting { workers: 2, way };
        assert!(rt; meet_in_a_round(&rt, rt.alloc(), TWO_GROUPS, setting, TWO)?);
    }
    Ok(())
}

#[test]
fn two_workers_run_at_once_in_a_run(rt: HostRuntime) -> Result<(), Fail> {
    let gate = Meeting::of(2, 2);
    let text = run(&rt, rt.alloc(), TWO_GROUPS, 2, 1, &gate)?;
    assert!(rt; gate.met(false));
    assert!(rt; text.as_slice() == OF_TWO_GROUPS);
    Ok(())
}

#[test]
fn two_workers_run_at_once_in_a_run_that_is_written(rt: HostRuntime) -> Result<(), Fail> {
    let gate = Meeting::of(2, 2);
    let text = text_of(&rt, rt.alloc(), TWO_GROUPS, 2, 1, &gate)?;
    assert!(rt; gate.met(false) && gate.taken.load(SeqCst) == 0x110);
    assert!(rt; text.as_slice() == OF_TWO_GROUPS);
    Ok(())
}

// Three timers of period 1 in three mutually exclusive groups. The first waits for the third. No worker has the third after the
// first, because the other worker claims both others.
const THREE_GROUPS: &[u8] =
    br#"{"version":1,"nodes":[{"name":"n","groups":[{"name":"a","kind":"exclusive"},{"name":"b","kind":"exclusive"},{"name":"c","kind":"exclusive"}],"timers":[{"name":"s","period":1,"group":"a","script":[]},{"name":"t","period":1,"group":"b","script":[]},{"name":"u","period":1,"group":"c","script":[]}]}],"moments":[1]}"#;

const THREE: Halves = Halves {
    half: 3,
    held: 1,
    both: false,
    told: 0x1110,
};

#[test]
fn a_worker_of_a_claimed_round_claims_what_another_leaves(rt: HostRuntime) -> Result<(), Fail> {
    let setting = Setting {
        workers: 2,
        way: Way::Claimed(1),
    };
    assert!(rt; meet_in_a_round(&rt, rt.alloc(), THREE_GROUPS, setting, THREE)?);
    Ok(())
}

#[test]
fn a_worker_of_a_streamed_round_claims_what_another_leaves(rt: HostRuntime) -> Result<(), Fail> {
    let setting = Setting {
        workers: 2,
        way: Way::Streamed(1),
    };
    assert!(rt; meet_in_a_round(&rt, rt.alloc(), THREE_GROUPS, setting, THREE)?);
    Ok(())
}

#[test]
fn a_worker_claims_what_another_leaves_in_a_run(rt: HostRuntime) -> Result<(), Fail> {
    let gate = Meeting::of(3, 1);
    run(&rt, rt.alloc(), THREE_GROUPS, 2, 1, &gate)?;
    assert!(rt; gate.met(false));
    let gate = Meeting::of(3, 1);
    text_of(&rt, rt.alloc(), THREE_GROUPS, 2, 1, &gate)?;
    assert!(rt; gate.met(false));
    Ok(())
}

// Eight timers of period 1, two in each of four mutually exclusive groups. The second of a group comes four places after the
// first.
const FOUR_GROUPS: &[u8] =
    br#"{"version":1,"nodes":[{"name":"n","groups":[{"name":"a","kind":"exclusive"},{"name":"b","kind":"exclusive"},{"name":"c","kind":"exclusive"},{"name":"d","kind":"exclusive"}],"timers":[{"name":"t1","period":1,"group":"a","script":[]},{"name":"t2","period":1,"group":"b","script":[]},{"name":"t3","period":1,"group":"c","script":[]},{"name":"t4","period":1,"group":"d","script":[]},{"name":"t5","period":1,"group":"a","script":[]},{"name":"t6","period":1,"group":"b","script":[]},{"name":"t7","period":1,"group":"c","script":[]},{"name":"t8","period":1,"group":"d","script":[]}]}],"moments":[1]}"#;

const FOUR_AND_FOUR: Halves = Halves {
    half: 4,
    held: 4,
    both: true,
    told: 0x1_1111_1110,
};

#[test]
fn four_workers_of_a_claimed_round_run_all_of_their_claims(rt: HostRuntime) -> Result<(), Fail> {
    let setting = Setting {
        workers: 4,
        way: Way::Claimed(2),
    };
    assert!(rt; meet_in_a_round(&rt, rt.alloc(), FOUR_GROUPS, setting, FOUR_AND_FOUR)?);
    Ok(())
}

#[test]
fn four_workers_of_a_streamed_round_run_all_of_their_claims(rt: HostRuntime) -> Result<(), Fail> {
    let setting = Setting {
        workers: 4,
        way: Way::Streamed(2),
    };
    assert!(rt; meet_in_a_round(&rt, rt.alloc(), FOUR_GROUPS, setting, FOUR_AND_FOUR)?);
    Ok(())
}

#[test]
fn four_workers_run_all_of_their_claims_in_a_run(rt: HostRuntime) -> Result<(), Fail> {
    let gate = Meeting::of(4, 4);
    run(&rt, rt.alloc(), FOUR_GROUPS, 4, 2, &gate)?;
    assert!(rt; gate.met(true));
    let gate = Meeting::of(4, 4);
    text_of(&rt, rt.alloc(), FOUR_GROUPS, 4, 2, &gate)?;
    assert!(rt; gate.met(true) && gate.taken.load(SeqCst) == 0x1_1111_1110);
    Ok(())
}

// Eight timers of period 1 in eight mutually exclusive groups.
const EIGHT_GROUPS: &[u8] =
    br#"{"version":1,"nodes":[{"name":"n","groups":[{"name":"a","kind":"exclusive"},{"name":"b","kind":"exclusive"},{"name":"c","kind":"exclusive"},{"name":"d","kind":"exclusive"},{"name":"e","kind":"exclusive"},{"name":"f","kind":"exclusive"},{"name":"g","kind":"exclusive"},{"name":"h","kind":"exclusive"}],"timers":[{"name":"t1","period":1,"group":"a"},{"name":"t2","period":1,"group":"b"},{"name":"t3","period":1,"group":"c"},{"name":"t4","period":1,"group":"d"},{"name":"t5","period":1,"group":"e"},{"name":"t6","period":1,"group":"f"},{"name":"t7","period":1,"group":"g"},{"name":"t8","period":1,"group":"h"}]}],"moments":[1]}"#;

const EIGHT: Halves = Halves {
    half: 8,
    held: 8,
    both: false,
    told: 0x1_1111_1110,
};

#[test]
fn eight_workers_run_at_once(rt: HostRuntime) -> Result<(), Fail> {
    for way in [Way::Forked, Way::Claimed(1), Way::Streamed(1)] {
        let setting = Setting { workers: 8, way };
        assert!(rt; meet_in_a_round(&rt, rt.alloc(), EIGHT_GROUPS, setting, EIGHT)?);
    }
    Ok(())
}

#[test]
fn eight_workers_run_at_once_in_a_run(rt: HostRuntime) -> Result<(), Fail> {
    let gate = Meeting::of(8, 8);
    run(&rt, rt.alloc(), EIGHT_GROUPS, 8, 1, &gate)?;
    assert!(rt; gate.met(false));
    let gate = Meeting::of(8, 8);
    text_of(&rt, rt.alloc(), EIGHT_GROUPS, 8, 1, &gate)?;
    assert!(rt; gate.met(false));
    Ok(())
}
