ghost use Rattle.std.specs.Prelude.{◌≡◌, [], length, IfOk};
ghost use Rattle.std.specs.Arc.{arc_value};
ghost use Rattle.std.specs.Option.{option_map_or};
ghost use Rattle.exec_rules.specs.Transcript.{lines_of};

use crate::fault::WorldFault;
use crate::lane_buffer::LaneBuffer;
use crate::scratch::Scratch;
use crate::state::{Round, WorldBody};
use crate::weighing::{Heavy, Light};
use exec_msg::{EntityNo, GoalId, Line, LineList, Lines, Memory};
use exec_plan::{FeedByRound, GroupNo, Plan};
use exec_rules::Ready;
use exec_script::{Bank, Close, Effect, Effects};
use exec_task::{GoalTask, Poller};
use std::alloc::Global;
use std::marker::Model;
use std::sync::Arc;

/// What the rounds of a plan change, and the transcript, whose lines go to `L`. Once a world has failed, each call that would
/// go on answers [`WorldFault::Failed`] and changes nothing.
#[derive(Drop)]
pub struct World<L: Lines = LineList> {
    alloc: Global,
    plan: Arc<Plan>,
    feed: FeedByRound,
    poller: Poller,
    state: WorldBody<L>,
    // The last round that began, and how many of its callbacks aren't committed yet.
    round: usize,
    uncommitted: usize,
    failed: bool,
    scratch: Scratch,
    // What lanes of earlier rounds were kept in.
    buffers: Vec<Box<LaneBuffer>>,
}

impl<L: Lines> Model for World<L> {
    ghost use Rattle.std.specs.Prelude.{◌≡◌, false, length};
    ghost use Rattle.std.specs.Arc.{arc_value};
    ghost use Rattle.exec_plan.specs.Feeding.{feeds_by_round};
    ghost use Rattle.exec_rules.specs.Calls.{WorldData};
    ghost use Rattle.exec_world.specs.inner.Rounds.{HasBegun, rounds_in};
    ghost use Rattle.exec_world.specs.inner.Sound.{IsSound};

    ghost Value = { WorldData };

    ghost view = { λ world. record {
      plan = arc_value world.plan;
      state = world.state;
      rounds = rounds_in world.round world.uncommitted;
      uncommitted = world.uncommitted;
      failed = world.failed;
    } };

    ghost invariant = { λ world. (world.feed ≡ feeds_by_round (arc_value world.plan))
        × (length world.feed ≡ length (arc_value world.plan).moments)
        × HasBegun world.round world.uncommitted
        × (world.failed ≡ false → IsSound (arc_value world.plan) world.state) };
}

impl World<LineList> {
    ghost use Rattle.std.specs.Prelude.{◌≡◌, false, IfOk};
    ghost use Rattle.std.specs.Arc.{arc_value};
    ghost use Rattle.exec_rules.specs.Calls.{new_world};

    /// The world of a plan before its first round.
    ///
    /// # Errors
    /// [`Memory`] if a growth or a clone was refused.
    pub fn new(alloc: Global, plan: Arc<Plan>) -> Result<World<LineList>, Memory>
        ensures { IfOk result (λ world. world ≡ new_world (arc_value plan)) }
    {
        World::with_lines(alloc, plan, LineList::new(alloc))
    }

    /// The lines of the transcript so far.
    pub fn transcript(&self) -> &[Line]
        requires { self.now.failed ≡ false }
        ensures { result.now ≡ self.now.state.lines }
    {
        self.state.lines().as_slice()
    }
}

impl<L: Lines> World<L> {
    ghost use Rattle.std.specs.Prelude.{◌≡◌, ◌≢◌, ◌↔◌, ◌<◌, [], length, true, false, Some, IfOk, IfErr, OnOk};
    ghost use Rattle.std.specs.Arc.{arc_value};
    ghost use Rattle.exec_world.specs.Faults.{HasFailed};
    ghost use Rattle.exec_world.specs.Heavy.{IsBegun};
    ghost use Rattle.exec_world.specs.inner.Buffers.{no_callbacks};
    ghost use Rattle.exec_rules.specs.Calls.{AreHome, HaveVariables, IsNext, away, ready_in};
    ghost use Rattle.exec_rules.specs.Calls.{after_all, after_commit, after_finish, after_round, after_snapshot, new_world, world_after};
    ghost use Rattle.exec_world.specs.declared.fault.WorldFault.TheVariants as fault;
    ghost use Rattle.exec_rules.specs.World.{GoalWork, variables_at, with_variables, with_work, work_at, work_of};
    ghost use Rattle.exec_rules.specs.Transcript.{lines_of};

    /// The world of a plan before its first round. The lines go to `lines`, which has none yet.
    ///
    /// # Errors
    /// [`Memory`] if a growth or a clone was refused.
    pub fn with_lines(alloc: Global, plan: Arc<Plan>, lines: L) -> Result<World<L>, Memory>
        requires { L.lines lines ≡ [] }
        ensures { IfOk result (λ world. world ≡ new_world (arc_value plan)) }
    {
        let feed = FeedByRound::of(alloc, &plan)?;
        let poller = Poller::new(alloc)?;
        let state = WorldBody::new(alloc, &plan, lines)?;
        Ok(World {
            alloc,
            plan,
            feed,
            poller,
            state,
            round: 0,
            uncommitted: 0,
            failed: false,
            scratch: Scratch::new(alloc),
            buffers: Vec::new(alloc),
        })
    }

    /// Whether a call was refused memory, or the world was marked as failed. Calls that go on answer `Failed` from then on.
    pub fn is_failed(&self) -> bool
        ensures { result ≡ self.now.failed }
    {
        self.failed
    }

    /// How many rounds are done. A round is done with its last commit, or with its snapshot if nothing is ready.
    pub fn rounds_done(&self) -> usize
        ensures { result ≡ self.now.rounds }
    {
        if self.uncommitted == 0 {
            self.round
        } else {
            self.round - 1
        }
    }

    /// How many callbacks of the last snapshot aren't committed yet.
    pub fn count_uncommitted(&self) -> usize
        ensures { result ≡ self.now.uncommitted }
    {
        self.uncommitted
    }

    /// Whether this is the next round. It must be one of the plan, and the round before it must be done.
    pub fn is_next(&self, round: usize) -> bool
        ensures { (result ≡ true) ↔ IsNext round self.now }
    {
        self.uncommitted == 0
            && self.round < round
            && round - self.round == 1
            && round <= self.plan.moments().len()
    }

    /// Marks the world as failed.
    pub fn fail(&mut self)
        ensures { self.new ≡ record self.old { failed = true } }
    {
        self.failed = true;
    }

    fn check(&self) -> Result<(), WorldFault>
        ensures ok { OnOk result (self.now.failed ≡ false) }
        ensures err { IfErr result (λ why. (why ≡ fault.Failed) × (self.now.failed ≡ true)) }
    {
        if self.failed {
            return Err(WorldFault::Failed);
        }
        Ok(())
    }

    /// Begins a round and takes its inputs. Gives the callbacks that are ready in it, in the order in which they run. Each is
    /// to be committed, in that order. Each goal that they poll is held, and its task is at home. No two of them poll one goal.
    /// The variables of each mutually exclusive group are there.
    ///
    /// # Errors
    /// [`WorldFault::Memory`] if a growth or a clone was refused, [`WorldFault::Failed`] if the world had failed before.
    pub fn snapshot(&mut self, round: usize) -> Result<Vec<Ready>, WorldFault>
        requires { self.old.failed ≡ false → IsNext round self.old }
        ensures ready { IfOk result (λ list. list.items ≡ ready_in round self.old) }
        ensures taken { OnOk result (self.new ≡ after_snapshot round self.old) }
        ensures home { IfOk result (λ list. AreHome list.items self.new.state) }
        ensures variables { IfOk result (λ list. HaveVariables list.items self.new.state) }
        ensures unfailed { OnOk result (self.old.failed ≡ false) }
        ensures fault { IfErr result (λ why. HasFailed why self.old self.new) }
    {
        self.check()?;
        let begins = Round::of(&self.plan, &self.feed, round);
        let begun = self.state.begin_round(&begins, &mut self.scratch);
        match begun {
            Ok(list) => {
                self.round = round;
                self.uncommitted = list.len();
                Ok(list)
            }
            Err(_) => {
                self.failed = true;
                Err(WorldFault::Memory)
            }
        }
    }

    /// Runs a whole round in the calling thread if its work is light, and answers nothing. Otherwise begins it as
    /// [`snapshot`](World::snapshot) does, and answers its callbacks.
    ///
    /// # Errors
    /// [`WorldFault::Memory`] if a growth or a clone was refused, [`WorldFault::Failed`] if the world had failed before.
    pub fn run_if_light(&mut self, round: usize, light: &Light) -> Result<Option<Heavy>, WorldFault>
        requires { self.old.failed ≡ false → IsNext round self.old }
        ensures begun { IfOk result (λ heavy. IsBegun round heavy self.old self.new) }
        ensures unfailed { OnOk result (self.old.failed ≡ false) }
        ensures fault { IfErr result (λ why. HasFailed why self.old self.new) }
    {
        self.check()?;
        let begins = Round::of(&self.plan, &self.feed, round);
        let mut context = self.poller.begin();
        let begun = self
            .state
            .run_light_round(&begins, light, &mut self.scratch, &mut context);
        context.cancel();
        match begun {
            Ok(heavy) => {
                self.round = round;
                self.uncommitted = count(&heavy);
                Ok(heavy)
            }
            Err(_) => {
                self.failed = true;
                Err(WorldFault::Memory)
            }
        }
    }

    /// Gives to the world what the next callback of the last snapshot did: its line, its effects and what closes it.
    ///
    /// # Errors
    /// [`WorldFault::Memory`] if a growth was refused, [`WorldFault::Failed`] if the world had failed before.
    pub fn commit(&mut self, one: &Ready, effects: Effects) -> Result<(), WorldFault>
        requires { self.old.failed ≡ false → 0 < self.old.uncommitted }
        ensures committed { OnOk result (self.new ≡ after_commit one.now effects self.old) }
        ensures unfailed { OnOk result (self.old.failed ≡ false) }
        ensures fault { IfErr result (λ why. HasFailed why self.old self.new) }
    {
        self.commit_given(one, effects.list.as_slice(), &effects.close)
    }

    /// The same of effects and a closing that are lent.
    ///
    /// # Errors
    /// [`WorldFault::Memory`] if a growth was refused, [`WorldFault::Failed`] if the world had failed before.
    pub fn commit_given(
        &mut self,
        one: &Ready,
        effects: &[Effect],
        close: &Close,
    ) -> Result<(), WorldFault>
        requires { self.old.failed ≡ false → 0 < self.old.uncommitted }
        ensures committed { OnOk result (self.new ≡ after_commit one.now (record { list = effects.now; close = close.now }) self.old) }
        ensures unfailed { OnOk result (self.old.failed ≡ false) }
        ensures fault { IfErr result (λ why. HasFailed why self.old self.new) }
    {
        self.check()?;
        let given = self.state.commit(one, effects, close);
        if given.is_err() {
            self.failed = true;
            return Err(WorldFault::Memory);
        }
        self.uncommitted -= 1;
        Ok(())
    }

    /// Runs the callbacks of the last snapshot one after another, in the calling thread. Each is committed before the next one
    /// runs.
    ///
    /// # Errors
    /// [`WorldFault::Memory`] if a growth or a clone was refused, [`WorldFault::Failed`] if the world had failed before.
    pub fn run_ready(&mut self, list: &[Ready]) -> Result<(), WorldFault>
        requires { self.old.failed ≡ false → (length list.now ≡ self.old.uncommitted) × (0 < self.old.uncommitted) }
        ensures ran { OnOk result (self.new ≡ after_all list.now self.old) }
        ensures unfailed { OnOk result (self.old.failed ≡ false) }
        ensures fault { IfErr result (λ why. HasFailed why self.old self.new) }
    {
        self.check()?;
        let mut context = self.poller.begin();
        let ran = self
            .state
            .run_all(list, &mut self.scratch.effects, &mut context);
        context.cancel();
        if ran.is_err() {
            self.failed = true;
            return Err(WorldFault::Memory);
        }
        self.uncommitted = 0;
        Ok(())
    }

    /// What a lane is kept in. It has no callbacks. [`put_buffer`](World::put_buffer) lets later lanes use its memory again.
    ///
    /// # Errors
    /// [`Memory`] if a growth was refused.
    pub fn take_buffer(&mut self) -> Result<Box<LaneBuffer>, Memory>
        ensures empty { IfOk result (λ buffer. buffer.value ≡ no_callbacks) }
        ensures same { self.new ≡ self.old }
    {
        let Some(mut buffer) = self.buffers.pop() else {
            return Ok(Box::new(self.alloc, LaneBuffer::new(self.alloc)?)?);
        };
        buffer.clear();
        Ok(buffer)
    }

    /// Keeps what a lane was kept in, for lanes of later rounds.
    ///
    /// # Errors
    /// [`Memory`] if a growth was refused.
    pub fn put_buffer(&mut self, buffer: Box<LaneBuffer>) -> Result<(), Memory>
        ensures { self.new ≡ self.old }
    {
        self.buffers.push(buffer)?;
        Ok(())
    }

    /// The variables of a callback group. [`put_bank`](World::put_bank) brings them home.
    pub fn take_bank(&mut self, group: GroupNo) -> Bank
        ensures bank { result ≡ variables_at group self.old.state }
        ensures same { self.new ≡ self.old }
    {
        self.state.bank(group)
    }

    /// Brings the variables of a callback group home.
    pub fn put_bank(&mut self, group: GroupNo, bank: Bank)
        ensures { self.new ≡ record self.old { state = with_variables group bank self.old.state } }
    {
        self.state.set_bank(group, &bank);
    }

    /// Takes the task of a goal out. The server holds the goal, and its task isn't out. [`put_task`](World::put_task) brings it
    /// home, and it isn't out then: no task's own work is `away` (law `no_task_is_away` of `exec_rules`).
    pub fn take_task(&mut self, server: EntityNo, id: GoalId) -> GoalTask
        requires { (work : GoalWork) × (work_at server id self.old.state ≡ Some work) × (work ≢ away) }
        ensures task { Some (work_of result) ≡ work_at server id self.old.state }
        ensures out { self.new ≡ record self.old { state = with_work server id away self.old.state } }
    {
        self.state.take_task(server, id).unwrap()
    }

    /// Brings the task of a goal home. If the server holds no such goal, nothing changes.
    pub fn put_task(&mut self, server: EntityNo, id: GoalId, task: GoalTask)
        ensures { self.new ≡ record self.old { state = with_work server id (work_of task) self.old.state } }
    {
        self.state.put_task(server, id, task);
    }

    /// Runs a whole round. If memory is refused, the world is dropped.
    ///
    /// # Errors
    /// [`Memory`] if a growth or a clone was refused.
    pub fn round_alone(self, round: usize) -> Result<World<L>, Memory>
        requires unfailed { self.failed ≡ false }
        requires next { IsNext round self }
        ensures { IfOk result (λ world. world ≡ after_round round self) }
    {
        let mut world = self;
        if world.run_round(round).is_err() {
            return Err(world.give_up());
        }
        Ok(world)
    }

    fn run_round(&mut self, round: usize) -> Result<(), Memory>
        requires unfailed { self.old.failed ≡ false }
        requires next { IsNext round self.old }
        ensures { OnOk result (self.new ≡ after_round round self.old) }
    {
        let begins = Round::of(&self.plan, &self.feed, round);
        let mut context = self.poller.begin();
        let ran = self
            .state
            .run_round(&begins, &mut self.scratch, &mut context);
        context.cancel();
        if ran.is_err() {
            self.failed = true;
            return Err(Memory);
        }
        self.round = round;
        self.uncommitted = 0;
        Ok(())
    }

    // Runs all rounds of a world that is new, and answers how many there are.
    fn run_rounds(&mut self) -> Result<u64, Memory>
        requires { self.old ≡ new_world self.old.plan }
        ensures rounds { IfOk result (λ rounds. rounds ≡ length self.old.plan.moments) }
        ensures world { OnOk result (self.new ≡ world_after (length self.old.plan.moments) self.old.plan) }
    {
        let rounds = self.plan.moments().len();
        for done in 0..rounds {
            self.run_round(done + 1)?;
        }
        Ok(rounds as u64)
    }

    // Runs all rounds of a world that is new, and closes its transcript.
    fn run_to_end(&mut self) -> Result<(), Memory>
        requires { self.old ≡ new_world self.old.plan }
        ensures unfailed { OnOk result (self.new.failed ≡ false) }
        ensures lines { OnOk result (self.new.state.lines ≡ lines_of self.old.plan) }
    {
        let rounds = self.run_rounds()?;
        if self.state.finish(rounds).is_err() {
            self.failed = true;
            return Err(Memory);
        }
        Ok(())
    }

    /// Closes the transcript after the rounds that are done. At the end of a run these are all rounds of the plan.
    ///
    /// # Errors
    /// [`WorldFault::Memory`] if a growth was refused, [`WorldFault::Failed`] if the world had failed before.
    pub fn finish(&mut self) -> Result<(), WorldFault>
        ensures closed { OnOk result (self.new ≡ after_finish self.old) }
        ensures unfailed { OnOk result (self.old.failed ≡ false) }
        ensures fault { IfErr result (λ why. HasFailed why self.old self.new) }
    {
        self.check()?;
        let rounds = self.rounds_done() as u64;
        let closed = self.state.finish(rounds);
        if closed.is_err() {
            self.failed = true;
            return Err(WorldFault::Memory);
        }
        Ok(())
    }

    /// Drops a world that was refused memory. No other function drops a world, because a function that may drop one is proved
    /// over the drops of all its parts.
    pub fn give_up(self) -> Memory {
        Memory
    }

    /// What the lines of the transcript went to.
    pub fn into_lines(self) -> L
        requires { self.failed ≡ false }
        ensures { L.lines result ≡ self.state.lines }
    {
        self.state.into_lines()
    }
}

// How many callbacks a round handed out.
fn count(heavy: &Option<Heavy>) -> usize
    ensures { result ≡ option_map_or (λ heavy. length heavy.list.items) heavy.now 0 }
{
    match heavy {
        Some(heavy) => heavy.list.len(),
        None => 0,
    }
}

/// Runs all rounds of a plan on one thread, and closes its transcript. The lines go to `lines`, which has none yet.
///
/// # Errors
/// [`Memory`] if a growth or a clone was refused.
pub fn run_plan<L: Lines>(alloc: Global, plan: Arc<Plan>, lines: L) -> Result<L, Memory>
    requires { L.lines lines ≡ [] }
    ensures { IfOk result (λ lines. L.lines lines ≡ lines_of (arc_value plan)) }
{
    let mut world = World::with_lines(alloc, plan, lines)?;
    if world.run_to_end().is_err() {
        return Err(world.give_up());
    }
    Ok(world.into_lines())
}
