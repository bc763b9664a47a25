// Runs that nobody watches, with a round that is worth threads.
ghost use Rattle.std.specs.Prelude.{◌<◌};

use super::{TURNS, text_of};
use crate::run;
use exec_lane::Gate;
use std::alloc::{AllocError, Global};
use std::sync::Wait;
use std::sync::atomic::AtomicU64;
use std::sync::atomic::Ordering::SeqCst;
use std::test::Fail;
use std::thread::{Threads, available_parallelism};

// How many servers the document has, four in each of three mutually exclusive groups, and how many goals each of them gets.
const SERVERS: usize = 12;

const GOALS: usize = 40;

// A document whose last round cancels all goals by handlers as long as they may be. They are at the positions from 1 to 12, four
// in each lane.
fn heavy(alloc: Global) -> Result<String, AllocError> {
    let mut text = String::from_str(
        alloc,
        r#"{"version":1,"nodes":[{"name":"n","groups":[{"name":"g0","kind":"exclusive"},{"name":"g1","kind":"exclusive"},{"name":"g2","kind":"exclusive"}],"actions":["#,
    )?;
    push_servers(&mut text)?;
    text.push_str(r#"]}],"moments":["#)?;
    push_moments(&mut text)?;
    text.push_str(r#"],"feed":["#)?;
    push_goals(&mut text)?;
    push_cancels(&mut text)?;
    text.push_str("]}")?;
    Ok(text)
}

fn push_servers(text: &mut String) -> Result<(), AllocError> {
    for server in 0..SERVERS {
        let group = server / 4;
        separate(text, server == 0)?;
        write!(
            text,
            r#"{{"name":"a{server}","group":"g{group}","on_goal":[["decide",3]],"on_cancel":["#
        )?;
        push_handler(text)?;
        text.push_str("]}")?;
    }
    Ok(())
}

fn push_handler(text: &mut String) -> Result<(), AllocError> {
    for _ in 0..255 {
        text.push_str(r#"["set","r0","add","r0","in"],"#)?;
    }
    text.push_str(r#"["decide",2]"#)
}

fn push_moments(text: &mut String) -> Result<(), AllocError> {
    for moment in 0..=GOALS {
        separate(text, moment == 0)?;
        write!(text, "{moment}")?;
    }
    Ok(())
}

fn push_goals(text: &mut String) -> Result<(), AllocError> {
    for goal in 0..GOALS {
        push_goals_of(text, goal)?;
    }
    Ok(())
}

// A goal for each server, in the round after as many others.
fn push_goals_of(text: &mut String, goal: usize) -> Result<(), AllocError>
    requires { goal < 40 }
{
    let round = goal + 1;
    for server in 0..SERVERS {
        let number = 1000 + goal * SERVERS + server;
        write!(
            text,
            r#"{{"round":{round},"action":"a{server}","goal":"0000000000000000000000000000{number}","value":0}},"#
        )?;
    }
    Ok(())
}

// A request to each server to cancel all of its goals, in the last round.
fn push_cancels(text: &mut String) -> Result<(), AllocError> {
    let round = GOALS + 1;
    for server in 0..SERVERS {
        separate(text, server == 0)?;
        write!(
            text,
            r#"{{"round":{round},"action":"a{server}","cancel":"00000000000000000000000000000000"}}"#
        )?;
    }
    Ok(())
}

fn separate(text: &mut String, is_first: bool) -> Result<(), AllocError> {
    if is_first { Ok(()) } else { text.push_str(",") }
}

// Says that nobody watches. It holds position 1 until all positions of the other lanes have come, and the first of these until
// position 1 has, for a limited number of turns. So two workers must run at once.
#[derive(Drop)]
struct Holding {
    // The positions of the other lanes, in the order in which they came, as a hexadecimal digit each.
    others: AtomicU64,
    // How many positions came, how many of them are of the other lanes, how often position 1 did, and of how many the queue told.
    count: AtomicU64,
    came: AtomicU64,
    first: AtomicU64,
    taken: AtomicU64,
    // How many have waited in vain.
    missed: AtomicU64,
}

impl Holding {
    fn new() -> Holding {
        Holding {
            others: AtomicU64::new(0),
            count: AtomicU64::new(0),
            came: AtomicU64::new(0),
            first: AtomicU64::new(0),
            taken: AtomicU64::new(0),
            missed: AtomicU64::new(0),
        }
    }

    // Waits until so many have come.
    fn hold(&self, came: &AtomicU64, count: u64) {
        for _ in 0..TURNS {
            if came.load(SeqCst) >= count {
                return;
            }
        }
        self.missed.fetch_add(1, SeqCst);
    }

    // Whether all have come, none in vain, and those of the other lanes in this order.
    fn came_in(&self, order: u64) -> bool {
        self.count.load(SeqCst) == 12
            && self.missed.load(SeqCst) == 0
            && self.others.load(SeqCst) == order
    }
}

impl Gate for Holding {
    fn pass(&self, position: usize) {
        self.count.fetch_add(1, SeqCst);
        if position == 1 {
            self.first.fetch_add(1, SeqCst);
            self.hold(&self.came, 8);
        }
        // The rest of the first lane comes only behind position 1.
        if position > 4 {
            self.hold(&self.first, 1);
            let before = self.others.load(SeqCst);
            let after = before.wrapping_mul(16).wrapping_add(position as u64);
            self.others.store(after, SeqCst);
            self.came.fetch_add(1, SeqCst);
        }
    }

    fn took(&self, _position: usize) {
        self.taken.fetch_add(1, SeqCst);
    }

    fn is_watched(&self) -> bool {
        false
    }
}

// In which order one of two workers comes to the callbacks of two lanes while the other one is held, by the quantum.
const ORDERS: [(usize, u64); 3] = [(1, 0x596a_7b8c), (3, 0x5679_ab8c), (1024, 0x5678_9abc)];

// Whether the machine has the processors that such rounds are shared by.
fn has_processors<R: Threads>(rt: &R) -> bool {
    match available_parallelism(rt) {
        Ok(count) => count.get() > 1,
        Err(_) => false,
    }
}

#[test]
fn workers_of_a_run_claim_by_the_quantum(rt: HostRuntime) -> Result<(), Fail> {
    if !has_processors(&rt) {
        return Ok(());
    }
    let document = heavy(rt.alloc())?;
    for (quantum, order) in ORDERS {
        let gate = Holding::new();
        run(&rt, rt.alloc(), document.as_bytes(), 2, quantum, &gate)?;
        assert!(rt; gate.came_in(order) && gate.taken.load(SeqCst) == 0);
    }
    Ok(())
}

#[test]
fn workers_of_a_run_that_is_written_claim_by_the_quantum(rt: HostRuntime) -> Result<(), Fail> {
    if !has_processors(&rt) {
        return Ok(());
    }
    let document = heavy(rt.alloc())?;
    for (quantum, order) in ORDERS {
        let gate = Holding::new();
        text_of(&rt, rt.alloc(), document.as_bytes(), 2, quantum, &gate)?;
        assert!(rt; gate.came_in(order) && gate.taken.load(SeqCst) == 12);
    }
    Ok(())
}
