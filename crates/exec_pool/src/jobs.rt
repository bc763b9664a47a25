//! How the jobs of a round are listed, run, and become one again.
ghost use Rattle.std.specs.Prelude.{◌≡◌, All, ◌+◌, ◌<◌, ◌≤◌, None, length, slice_index_or, vec_capacity, OnOk};
ghost use Rattle.std.specs.Arc.{arc_value};
ghost use Rattle.exec_pool.specs.Job.{IsRunOf, MayRun};
ghost use Rattle.exec_pool.specs.inner.Shares.{Follow, IsNext, Share, all_joined, joined, share_of, share_with};
ghost use Rattle.exec_stream.specs.Sending.{Collects, MayCollect, queue_id};
ghost use Rattle.exec_stream.specs.Streams.{MayBegin};

use crate::handoff::Caller;
use crate::job::Job;
use exec_lane::Gate;
use exec_msg::Memory;
use exec_stream::{Collector, Runner, StreamedRound};
use std::alloc::Global;
use std::sync::{Arc, Wait};

// Lists a job for each number of a runner's share, one after another.
pub(crate) fn list_jobs(
    alloc: Global,
    stream: &Arc<StreamedRound>,
    runner: Runner,
    jobs: &mut Vec<Job>,
) -> Result<(), Memory>
    requires runner { MayBegin (arc_value stream.now).board (queue_id (arc_value stream.now).queue) runner }
    requires some { runner.pass.view.start < runner.pass.view.stop }
    ensures follow { OnOk result ((share : Share) → Follow share jobs.old.items → IsNext (all_joined share jobs.old.items) (share_with (arc_value stream.now) runner)
        → Follow share jobs.new.items × (all_joined share jobs.new.items ≡ joined (all_joined share jobs.old.items) (share_with (arc_value stream.now) runner))) }
    ensures may { OnOk result (All MayRun jobs.old.items → All MayRun jobs.new.items) }
    ensures many { OnOk result (length jobs.new.items + runner.pass.view.start ≡ length jobs.old.items + runner.pass.view.stop) }
{
    let (_, count) = runner.pass.share();
    if count < 2 {
        let stream = stream.clone()?;
        jobs.push(Job {
            stream,
            runner,
            ended: Ok(()),
        })?;
        return Ok(());
    }
    let (front, back) = runner.split(alloc, stream);
    list_jobs(alloc, stream, front, jobs)?;
    list_jobs(alloc, stream, back, jobs)
}

// Runs the first job here, and each other one by the worker of a caller, or not at all if that hasn't begun by the end. Then
// takes what they sent on, and joins them.
pub(crate) fn run_jobs<R: Wait, G: Gate>(
    rt: &R,
    callers: &mut Vec<Caller>,
    mut jobs: Vec<Job>,
    collector: &mut Collector,
    gate: &G,
) -> Job
    requires idle { (place : _) → place < length callers.old.items → slice_index_or callers.old.items place None ≡ None }
    requires some { 0 < length jobs.items }
    requires many { length jobs.items ≤ length callers.old.items + 1 }
    requires may { All MayRun jobs.items }
    requires follow { (share : Share) × Follow share jobs.items × MayCollect (queue_id share.stream.queue) collector.old }
    ensures may { MayRun result }
    ensures next { (share : Share) → Follow share jobs.items → IsNext share (share_of result) }
    ensures joined { (share : Share) → Follow share jobs.items → joined share (share_of result) ≡ all_joined share jobs.items }
    ensures collects { Collects collector.old collector.new }
    ensures callers { callers.new.items ≡ callers.old.items }
    ensures room { vec_capacity callers.new ≡ vec_capacity callers.old }
{
    let Some(job) = jobs.pop() else {
        unreachable!()
    };
    if jobs.is_empty() {
        return run_and_collect(rt, job, collector, gate);
    }
    let Some(mut caller) = callers.pop() else {
        unreachable!()
    };
    caller.post(job);
    let first = run_jobs(rt, callers, jobs, collector, gate);
    let job = caller.finish(rt);
    callers.push_reserved(caller);
    first.join(job)
}

// Runs a job, and takes what was sent on.
fn run_and_collect<R: Wait, G: Gate>(rt: &R, job: Job, collector: &mut Collector, gate: &G) -> Job
    requires may { MayRun job }
    requires collector { MayCollect (queue_id (arc_value job.stream).queue) collector.old }
    ensures run { IsRunOf job result }
    ensures collects { Collects collector.old collector.new }
{
    let Job {
        stream,
        runner,
        ended,
    } = job.run(rt, gate);
    let collected = collector.take_some(rt, &stream, gate);
    Job {
        stream,
        runner,
        ended: ended.and(collected),
    }
}
