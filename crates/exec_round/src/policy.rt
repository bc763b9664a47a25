//! How many workers a round gets. It decides which threads run callbacks, and never what they do.
ghost use Rattle.std.specs.Prelude.{◌≡◌, ◌<◌, ◌≤◌, true, IfSome};

use exec_lane::Gate;
use exec_world::Light;
use std::thread::{Threads, available_parallelism};

// Nanoseconds: what an instruction takes, and what it costs to have a callback claimed and to send on what it did.
// `bench/weighing` measures them.
const INSTRUCTION: u64 = 4;

const CLAIM: u64 = 200;

/// Nanoseconds that it costs to start a worker and to wait for its end.
pub(crate) const START: u64 = 200_000;

/// Nanoseconds that it costs to hand a share of a round to a worker that waits, and to get it back.
pub(crate) const HAND: u64 = 4_000;

/// How many workers the rounds of a run get.
#[derive(Clone, Copy)]
pub(crate) struct Policy {
    /// At most so many, 1 or more.
    pub(crate) most: usize,
    // Whether each round gets all of them.
    all: bool,
    ghost some: { 0 < most },
}

impl Policy {
    /// Each round gets all workers.
    pub(crate) fn all(workers: usize) -> Policy
        requires { 0 < workers }
        ensures { result.most ≡ workers }
    {
        Policy {
            most: workers,
            all: true,
        }
    }

    /// Each round gets all workers if somebody watches, and otherwise as many as save time, but no more than processors.
    pub(crate) fn of<R: Threads, G: Gate>(rt: &R, workers: usize, gate: &G) -> Policy
        requires { 0 < workers }
    {
        if gate.is_watched() {
            return Policy::all(workers);
        }
        Policy {
            most: most_workers(rt, workers),
            all: false,
        }
    }

    /// Whether the calling thread runs each round alone and in place.
    pub(crate) fn is_alone(&self) -> bool {
        self.most == 1 && !self.all
    }

    /// What work gets one worker if each worker costs so many nanoseconds. None if no work does.
    pub(crate) fn light(&self, each: u64) -> Option<Light> {
        if self.all {
            return None;
        }
        let workers = (self.most as u64).max(2);
        Some(Light {
            least: each.saturating_mul(workers) / (workers - 1) / INSTRUCTION,
            each: CLAIM.saturating_mul(workers) / (workers - 1) / INSTRUCTION,
        })
    }

    /// How many workers work gets, of this many, if each costs so many nanoseconds. None if the calling thread runs it in
    /// place.
    pub(crate) fn workers(&self, work: Work, most: usize, each: u64) -> Option<usize>
        requires { 0 < most }
        ensures { IfSome result (λ count. (0 < count) × (count ≤ most)) }
    {
        if self.all {
            return Some(most);
        }
        work.worth(most, each)
    }
}

/// Work that workers may share: a round's, or that of several rounds.
#[derive(Clone, Copy)]
pub(crate) struct Work {
    /// How many instructions its callbacks have in all.
    pub(crate) instructions: u64,
    pub(crate) callbacks: usize,
}

impl Work {
    /// Nothing to do.
    pub(crate) fn none() -> Work {
        Work {
            instructions: 0,
            callbacks: 0,
        }
    }

    /// This work and more.
    pub(crate) fn with(&self, more: Work) -> Work {
        Work {
            instructions: self.instructions.saturating_add(more.instructions),
            callbacks: self.callbacks.saturating_add(more.callbacks),
        }
    }

    // How many workers run it in the least time, of at most this many, if each costs so much but for the calling thread. None
    // if the calling thread alone does.
    fn worth(&self, most: usize, each: u64) -> Option<usize>
        ensures { IfSome result (λ count. (0 < count) × (count ≤ most)) }
    {
        let count = self.fastest(most, each);
        if self.pays(count, each) {
            Some(count)
        } else {
            None
        }
    }

    fn nanoseconds(&self) -> u64 {
        self.instructions.saturating_mul(INSTRUCTION)
    }

    // How many workers, at most `most` and no more than callbacks, end the work first if each one more costs so much.
    fn fastest(&self, most: usize, each: u64) -> usize
        ensures { (0 < result) × (1 < result → result ≤ most) }
    {
        let work = self.nanoseconds();
        let most = most.min(self.callbacks);
        let mut count = 1;
        while count < most && saving(work, count + 1) > each {
            count += 1;
        }
        count
    }

    // How much less time so many workers take than one, without what they cost.
    fn gain(&self, workers: usize) -> u64 {
        let work = self.nanoseconds();
        work - work / (workers as u64).max(1)
    }

    // What so many workers cost.
    fn cost(&self, workers: usize, each: u64) -> u64 {
        let workers = (workers as u64).saturating_sub(1);
        (self.callbacks as u64)
            .saturating_mul(CLAIM)
            .saturating_add(workers.saturating_mul(each))
    }

    fn pays(&self, workers: usize, each: u64) -> bool
        ensures { result ≡ true → 1 < workers }
    {
        workers > 1 && self.gain(workers) > self.cost(workers, each)
    }
}

// At most so many workers, 1 or more, and no more than processors, which gain nothing.
fn most_workers<R: Threads>(rt: &R, workers: usize) -> usize
    requires { 0 < workers }
    ensures { 0 < result }
{
    if workers == 1 {
        return 1;
    }
    match available_parallelism(rt) {
        Ok(count) => workers.min(count.get()),
        Err(_) => workers,
    }
}

// How much less time work takes with this many workers than with one fewer.
fn saving(work: u64, workers: usize) -> u64
    requires { 1 < workers }
{
    let workers = workers as u64;
    (work / (workers - 1)).saturating_sub(work / workers)
}
