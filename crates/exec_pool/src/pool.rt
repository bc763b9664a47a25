//! Workers that last.
ghost use Rattle.std.specs.Prelude.{◌≡◌, ◌+◌, ◌<◌, ◌≤◌, None, length, slice_index_or, IfOk, OnErr, OnOk};
ghost use Rattle.std.specs.Arc.{arc_value};
ghost use Rattle.exec_stream.specs.Sending.{Collects, MayCollect, queue_id};
ghost use Rattle.exec_stream.specs.Streams.{HasSentAll, IsRunnerAt, KeepsShare, MayBegin};

use crate::handoff::{Caller, Worker, pair};
use crate::job::Job;
use crate::jobs::{list_jobs, run_jobs};
use exec_lane::Gate;
use exec_msg::Memory;
use exec_stream::{Collector, Runner, StreamedRound};
use std::alloc::Global;
use std::sync::{Arc, Wait};

/// The callers of workers that last, one of each.
#[derive(Drop)]
pub struct Pool {
    callers: Vec<Caller>,
    ghost idle: { (place : _) → place < length callers.items → slice_index_or callers.items place None ≡ None },
}

impl Pool {
    /// A pool without workers.
    pub fn new(alloc: Global) -> Pool
        ensures { length result.callers.items ≡ 0 }
    {
        Pool {
            callers: Vec::new(alloc),
        }
    }

    /// How many workers it has.
    pub fn workers(&self) -> usize
        ensures { result ≡ length self.now.callers.items }
    {
        self.callers.len()
    }

    /// Adds the caller of a worker, and gives the worker.
    ///
    /// # Errors
    /// [`Memory`] if a growth was refused. The pool is as it was.
    pub fn hire(&mut self, alloc: Global) -> Result<Worker, Memory>
        ensures worker { IfOk result (λ worker. worker ≡ None) }
        ensures more { OnOk result (length self.new.callers.items ≡ length self.old.callers.items + 1) }
        ensures same { OnErr result (length self.new.callers.items ≡ length self.old.callers.items) }
    {
        let (caller, worker) = pair(alloc)?;
        self.callers.push(caller)?;
        Ok(worker)
    }

    /// Takes the last caller off.
    pub fn dismiss(&mut self)
        requires { 0 < length self.old.callers.items }
        ensures { length self.new.callers.items + 1 ≡ length self.old.callers.items }
    {
        self.callers.pop();
    }

    /// Runs the callbacks of a round by the calling thread and workers of the pool, as many as the runner's share has numbers,
    /// at most one more than are in the pool. The calling thread takes what they send on as soon as it finds no lane open. A
    /// worker that hasn't begun by then does nothing, and lanes may be left unfinished.
    ///
    /// # Errors
    /// [`Memory`] if a growth or a copy was refused. No worker is at work then.
    pub fn run<R: Wait, G: Gate>(
        &mut self,
        rt: &R,
        alloc: Global,
        stream: &Arc<StreamedRound>,
        runner: Runner,
        collector: &mut Collector,
        gate: &G,
    ) -> Result<Runner, Memory>
        requires runner { MayBegin (arc_value stream.now).board (queue_id (arc_value stream.now).queue) runner }
        requires some { runner.pass.view.start < runner.pass.view.stop }
        requires many { runner.pass.view.stop ≤ runner.pass.view.start + length self.old.callers.items + 1 }
        requires collector { MayCollect (queue_id (arc_value stream.now).queue) collector.old }
        ensures at { IfOk result (λ after. IsRunnerAt (arc_value stream.now).board (queue_id (arc_value stream.now).queue) after) }
        ensures share { IfOk result (λ after. KeepsShare runner after) }
        ensures sent { IfOk result (λ after. HasSentAll after) }
        ensures collects { Collects collector.old collector.new }
        ensures same { length self.new.callers.items ≡ length self.old.callers.items }
    {
        let mut jobs = Vec::new(alloc);
        list_jobs(alloc, stream, runner, &mut jobs)?;
        let Job {
            stream: _,
            runner,
            ended,
        } = run_jobs(rt, &mut self.callers, jobs, collector, gate);
        ended?;
        Ok(runner)
    }

    /// Lets all workers end.
    pub fn close(self) {
        let Pool { mut callers } = self;
        while let Some(mut caller) = callers.pop() {
            caller.close();
        }
    }
}
