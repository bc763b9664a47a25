//! Workers that last to the end of a run.
ghost use Rattle.std.specs.Prelude.{◌≡◌, ◌+◌, ◌<◌, ◌≤◌, ℕ, [], false, length, IfOk, IfSome, OnOk};
ghost use Rattle.std.specs.Arc.{arc_value};
ghost use Rattle.exec_round.specs.inner.Begun.{IsListed};
ghost use Rattle.exec_rules.specs.Calls.{IsNext, WorldData, after_round, new_world};
ghost use Rattle.exec_rules.specs.Transcript.{lines_of};

use crate::policy::{HAND, Policy, START, Work};
use crate::rounds::{begin, commit_sent};
use crate::sharing::Sharing;
use crate::streaming::stream_lanes;
use exec_lane::{Gate, gather, laws, split};
use exec_msg::{Lines, Memory};
use exec_plan::Plan;
use exec_pool::Pool;
use exec_world::{Ready, World};
use std::alloc::Global;
use std::sync::{Arc, Wait};
use std::thread::{self, JoinHandle, Scope, Threads};

// Runs all rounds of a plan. Their workers last, and send on what callbacks did.
pub(crate) fn stream_rounds<L: Lines, R: Threads + Wait + Sync, G: Gate>(
    rt: &R,
    plan: Arc<Plan>,
    lines: L,
    policy: Policy,
    sharing: &Sharing<'_, G>,
) -> Result<L, Memory>
    requires { L.lines lines ≡ [] }
    ensures { IfOk result (λ lines. L.lines lines ≡ lines_of (arc_value plan)) }
{
    let rounds = plan.moments().len();
    let world = World::with_lines(sharing.alloc, plan, lines)?;
    thread::scope(
        thread::scope_env(),
        rt,
        move |scope| -> Result<L, Memory>
            requires { (world ≡ new_world world.plan) × (rounds ≡ length world.plan.moments) }
            ensures { IfOk result (λ lines. L.lines lines ≡ lines_of world.plan) }
        { stream_world(rt, scope, world, rounds, policy, sharing) },
    )
}

// Runs `rounds` rounds and gives the lines. They are all rounds of the plan, and the world is new.
fn stream_world<'s, E, L: Lines, R: Threads + Wait + Sync, G: Gate>(
    rt: &'s R,
    scope: &'s Scope<'s, E>,
    world: World<L>,
    rounds: usize,
    policy: Policy,
    sharing: &'s Sharing<'_, G>,
) -> Result<L, Memory>
    requires new { world ≡ new_world world.plan }
    requires all { rounds ≡ length world.plan.moments }
    ensures { IfOk result (λ lines. L.lines lines ≡ lines_of world.plan) }
{
    let mut world = world;
    let mut crew = Crew::new(sharing.alloc, policy);
    let ended = stream_each(rt, scope, &mut world, rounds, &mut crew, sharing);
    crew.end(rt);
    if ended.is_err() {
        return Err(world.give_up());
    }
    Ok(world.into_lines())
}

// Runs `rounds` rounds and closes the transcript.
fn stream_each<'s, E, L: Lines, R: Threads + Wait + Sync, G: Gate>(
    rt: &'s R,
    scope: &'s Scope<'s, E>,
    world: &mut World<L>,
    rounds: usize,
    crew: &mut Crew,
    sharing: &'s Sharing<'_, G>,
) -> Result<(), Memory>
    requires new { world.old ≡ new_world world.old.plan }
    requires all { rounds ≡ length world.old.plan.moments }
    ensures unfailed { OnOk result (world.new.failed ≡ false) }
    ensures lines { OnOk result (world.new.state.lines ≡ lines_of world.old.plan) }
{
    exec_rules::laws::rounds_follow_one_another();
    for done in 0..rounds {
        stream_next(rt, scope, world, done + 1, crew, sharing)?;
    }
    world.finish()?;
    Ok(())
}

// Runs a round of a world. Its workers end with it.
pub(crate) fn stream_round<L: Lines, R: Threads + Wait + Sync, G: Gate>(
    rt: &R,
    world: World<L>,
    round: usize,
    sharing: &Sharing<'_, G>,
) -> Result<World<L>, Memory>
    requires unfailed { world.failed ≡ false }
    requires next { IsNext round world }
    ensures { IfOk result (λ after. after ≡ after_round round world) }
{
    thread::scope(
        thread::scope_env(),
        rt,
        move |scope| -> Result<World<L>, Memory>
            requires { IsNext round world }
            ensures { IfOk result (λ after. after ≡ after_round round world) }
        { stream_once(rt, scope, world, round, sharing) },
    )
}

// Runs a round by all workers.
fn stream_once<'s, E, L: Lines, R: Threads + Wait + Sync, G: Gate>(
    rt: &'s R,
    scope: &'s Scope<'s, E>,
    world: World<L>,
    round: usize,
    sharing: &'s Sharing<'_, G>,
) -> Result<World<L>, Memory>
    requires { IsNext round world }
    ensures { IfOk result (λ after. after ≡ after_round round world) }
{
    let mut world = world;
    let mut crew = Crew::new(sharing.alloc, Policy::all(sharing.workers));
    let ended = stream_next(rt, scope, &mut world, round, &mut crew, sharing);
    crew.end(rt);
    if ended.is_err() {
        return Err(world.give_up());
    }
    Ok(world)
}

// Runs a round by as many workers as its policy says.
fn stream_next<'s, E, L: Lines, R: Threads + Wait + Sync, G: Gate>(
    rt: &'s R,
    scope: &'s Scope<'s, E>,
    world: &mut World<L>,
    round: usize,
    crew: &mut Crew,
    sharing: &'s Sharing<'_, G>,
) -> Result<(), Memory>
    requires { IsNext round world.old }
    ensures { OnOk result (world.new ≡ after_round round world.old) }
{
    let Some(heavy) = begin(world, round, crew.policy.light(HAND))? else {
        return Ok(());
    };
    let work = Work {
        instructions: heavy.instructions,
        callbacks: heavy.list.len(),
    };
    let Some(workers) = crew.wanted(work) else {
        world.run_ready(heavy.list.as_slice())?;
        return Ok(());
    };
    let sharing = Sharing {
        alloc: sharing.alloc,
        workers,
        quantum: sharing.quantum,
        gate: sharing.gate,
    };
    stream_list(rt, scope, heavy.list, crew, &sharing, world)
}

// Runs the callbacks of a round that has begun, in lanes, by the calling thread and workers of a crew, but no more than lanes.
// They send on what callbacks did, and that is committed.
fn stream_list<'s, E, L: Lines, R: Threads + Wait + Sync, G: Gate>(
    rt: &'s R,
    scope: &'s Scope<'s, E>,
    list: Vec<Ready>,
    crew: &mut Crew,
    sharing: &Sharing<'s, G>,
    world: &mut World<L>,
) -> Result<(), Memory>
    requires { (round : ℕ) × (before : WorldData) × IsListed round list.items before world.old }
    ensures { OnOk result ((round : ℕ) (before : WorldData) → IsListed round list.items before world.old → world.new ≡ after_round round before) }
{
    laws::lanes_come_home_as_one_thread_leaves_them();
    exec_rules::laws::callbacks_may_be_committed_behind();
    let alloc = sharing.alloc;
    let lanes = split(alloc, list, world)?;
    let passes = sharing.workers.min(lanes.len()).max(1);
    let passes = crew.hire_up_to(rt, scope, passes, sharing.gate)?;
    let (ran, sent) = stream_lanes(rt, lanes, passes, &mut crew.pool, sharing)?;
    let all = gather(alloc, ran, world)?;
    commit_sent(alloc, all, &sent, world)
}

// The calling thread and workers that wait for its jobs. They are started when what workers could have shared so far would
// have been worth their start.
#[derive(Drop)]
struct Crew {
    alloc: Global,
    policy: Policy,
    pool: Pool,
    threads: Vec<JoinHandle<()>>,
    // How many threads run callbacks at most, the calling one among them.
    most: usize,
    // What workers could have shared so far.
    so_far: Work,
}

impl Crew {
    // No thread is started.
    fn new(alloc: Global, policy: Policy) -> Crew {
        Crew {
            alloc,
            policy,
            pool: Pool::new(alloc),
            threads: Vec::new(alloc),
            most: policy.most,
            so_far: Work::none(),
        }
    }

    // How many workers are to run the callbacks of a round, the calling thread and those among them that are worth their start
    // by now. None if the calling thread runs them in place.
    fn wanted(&mut self, work: Work) -> Option<usize>
        ensures { IfSome result (λ count. 0 < count) }
    {
        let mut count = self.count();
        let most = self.most.min(work.callbacks);
        if most > count {
            self.so_far = self.so_far.with(work);
            if let Some(started) = self.policy.workers(self.so_far, most, START) {
                count = count.max(started);
            }
        }
        self.policy.workers(work, count, HAND)
    }

    // How many threads run callbacks, the calling one among them.
    fn count(&self) -> usize
        ensures { result ≡ length self.now.pool.callers.items + 1 }
    {
        self.pool.workers() + 1
    }

    // Has this many threads run callbacks, and answers how many of them there are. If a thread can't be started, no other one
    // is.
    fn hire_up_to<'s, E, R: Threads + Wait + Sync, G: Gate>(
        &mut self,
        rt: &'s R,
        scope: &'s Scope<'s, E>,
        count: usize,
        gate: &'s G,
    ) -> Result<usize, Memory>
        requires { 0 < count }
        ensures { IfOk result (λ hired. (0 < hired) × (hired ≤ length self.new.pool.callers.items + 1)) }
    {
        for _ in self.count()..count {
            if !self.hire(rt, scope, gate)? {
                self.most = self.count();
                break;
            }
        }
        Ok(count.min(self.count()))
    }

    // Starts one more worker, and answers whether its thread could be started.
    fn hire<'s, E, R: Threads + Wait + Sync, G: Gate>(
        &mut self,
        rt: &'s R,
        scope: &'s Scope<'s, E>,
        gate: &'s G,
    ) -> Result<bool, Memory> {
        self.threads.reserve(1)?;
        let worker = self.pool.hire(self.alloc)?;
        let serve = move || -> ()
            requires { worker ≡ None }
        { worker.serve(rt, gate) };
        let Ok(thread) = scope.spawn(serve) else {
            self.pool.dismiss();
            return Ok(false);
        };
        self.threads.push_reserved(thread);
        Ok(true)
    }

    // Lets all workers end, and waits for that.
    fn end<R: Threads>(self, rt: &R) {
        let Crew {
            alloc: _,
            policy: _,
            pool,
            mut threads,
            most: _,
            so_far: _,
        } = self;
        pool.close();
        while let Some(thread) = threads.pop() {
            thread.join(rt);
        }
    }
}
