//! What a worker is to do.
ghost use Rattle.std.specs.Prelude.{◌≡◌, OnOk};
ghost use Rattle.exec_pool.specs.Job.{IsRunOf, MayRun};
ghost use Rattle.exec_pool.specs.inner.Shares.{IsNext, joined, share_of};

use exec_lane::Gate;
use exec_msg::Memory;
use exec_stream::{Runner, StreamedRound};
use std::sync::{Arc, Wait};

/// A round, the runner that a worker is to be, and what came of its work.
#[derive(Drop)]
pub struct Job {
    pub stream: Arc<StreamedRound>,
    pub runner: Runner,
    pub ended: Result<(), Memory>,
}

impl Job {
    /// Works until no lane is open. If memory is refused, it says so.
    pub fn run<R: Wait, G: Gate>(self, rt: &R, gate: &G) -> Job
        requires { MayRun self }
        ensures { IsRunOf self result }
    {
        let Job {
            stream,
            mut runner,
            ended,
        } = self;
        let ended = match ended {
            Ok(()) => runner.work(rt, &stream, gate),
            Err(Memory) => Err(Memory),
        };
        Job {
            stream,
            runner,
            ended,
        }
    }

    /// Joins another job to it, whose share is the next one. If memory is refused, it says so.
    pub fn join(self, other: Job) -> Job
        requires may { MayRun self × MayRun other }
        requires next { IsNext (share_of self) (share_of other) }
        ensures may { MayRun result }
        ensures joined { share_of result ≡ joined (share_of self) (share_of other) }
    {
        let Job {
            stream,
            runner,
            ended,
        } = self;
        let Job {
            stream: _,
            runner: next,
            ended: later,
        } = other;
        let (runner, joined) = runner.join(&stream, next);
        Job {
            stream,
            runner,
            ended: ended.and(later).and(joined),
        }
    }
}
