ghost use Rattle.std.specs.Prelude.{◌≡◌, [], true, false, None, length, IsOk, IsErr, IfOk, OnOk, OnErr};
ghost use Rattle.std.specs.Arc.{arc_value};
ghost use Rattle.futures.specs.Task.{Covers, Keeps};
ghost use Rattle.exec_task.specs.Goal.{poll_of, IsSameGoal, IsPolled, IsRefused, GoalNeeds, LeftWakers, HasYielded, HoldsNoWaker};
ghost use Rattle.exec_task.specs.Task.{new_task, has_ended, is_awake, ran, resumption_of};
ghost use Rattle.exec_task.specs.Waking.{wake_of};
ghost use Rattle.exec_script.specs.Script.{listed};

use crate::progress::Progress;
use crate::wait::{Answer, Polled, Turn, Wait};
use crate::wake::WakeSource;
use exec_msg::{Memory, Moment};
use exec_script::{Bank, EffectList, Instr};
use futures::task::{Context, Poll};
use std::alloc::Global;
use std::marker::Model;
use std::sync::Arc;

/// A goal's work, as a future that is polled by hand.
#[derive(Drop)]
pub struct GoalTask {
    progress: Progress,
    script: Arc<Vec<Instr>>,
    value: i64,
    // A poll was refused memory.
    failed: bool,
    clock: WakeSource,
    cancellation: WakeSource,
}

impl Model for GoalTask {
    ghost use Rattle.std.specs.Arc.{arc_value};
    ghost use Rattle.exec_task.specs.Goal.{GoalTaskState};

    ghost Value = { GoalTaskState };

    ghost view = { λ goal.
        record {
          script = (arc_value goal.script).items;
          value = goal.value;
          task = goal.progress;
          failed = goal.failed;
          clock = goal.clock;
          cancellation = goal.cancellation;
        } };
}

impl GoalTask {
    /// The task of a goal of this value, before its first poll. It takes no memory, because the script is shared.
    pub fn new(script: Arc<Vec<Instr>>, value: i64) -> GoalTask
        ensures script { result.script ≡ (arc_value script).items }
        ensures value { result.value ≡ value }
        ensures task { result.task ≡ new_task }
        ensures failed { result.failed ≡ false }
        ensures clock { result.clock.waker ≡ None }
        ensures cancellation { result.cancellation.waker ≡ None }
    {
        GoalTask {
            script,
            value,
            progress: Progress::new(),
            failed: false,
            clock: WakeSource::new(),
            cancellation: WakeSource::new(),
        }
    }

    /// The task has eight registers, whatever became of it. The call does nothing at run time: a proof about its caller knows
    /// the number from it.
    #[inline(always)]
    pub fn has_eight_registers(&self)
        ensures { length self.now.task.registers ≡ 8 }
    {
        self.progress.has_eight_registers();
    }

    // Goes on with the script of an awake task in a turn. A task that ends waits for nothing any more.
    fn run(&mut self, bank: &mut Bank, turn: &Turn, effects: &mut EffectList) -> Result<(), Memory>
        ensures ok { OnOk result (record { task = self.new.task; variables = bank.new; given = effects.new }
            ≡ ran turn.now self.old.task (resumption_of listed self.old.script self.old.value turn.now self.old.task bank.old effects.old)) }
        ensures same { IsSameGoal self.old self.new }
        ensures failed { OnOk result (self.new.failed ≡ self.old.failed) }
        ensures ended { OnOk result (has_ended self.new.task ≡ true → HoldsNoWaker self.new) }
        ensures refused { OnErr result (self.new ≡ record self.old { failed = true }) }
        ensures unchanged_variables { OnErr result (bank.new ≡ bank.old) }
        ensures unchanged_effects { OnErr result (effects.new ≡ effects.old) }
    {
        let ran = self
            .progress
            .run(&self.script, self.value, bank, turn, effects);
        if ran.is_err() {
            self.failed = true;
        } else if self.progress.has_ended() {
            self.clock.clear();
            self.cancellation.clear();
        }
        ran
    }

    // Waits for each source that wakes the task, or yields if none does. A task that has ended waits for nothing.
    fn listen(&mut self, cx: &mut Context<'_>)
        ensures same { IsSameGoal self.old self.new }
        ensures task { self.new.task ≡ self.old.task }
        ensures failed { self.new.failed ≡ self.old.failed }
        ensures ended { has_ended self.old.task ≡ true → self.new ≡ self.old }
        ensures registered { has_ended self.old.task ≡ false → Covers cx.new (GoalNeeds self.new) }
        ensures yielded { has_ended self.old.task ≡ false → HasYielded self.new.task.waits cx.new }
        ensures wakers { has_ended self.old.task ≡ false → LeftWakers cx.old cx.new self.new }
        ensures kept { Keeps cx.old cx.new }
    {
        if self.progress.has_ended() {
            return;
        }
        match self.progress.waits() {
            Wait::NextRound => {
                self.clock.lay_aside();
                self.cancellation.lay_aside();
                let _: Poll<()> = cx.yield_now();
            }
            Wait::Until(_) => {
                let _: Poll<()> = self.clock.register(cx);
                if self.progress.is_aware() {
                    self.cancellation.clear();
                } else {
                    let _: Poll<()> = self.cancellation.register(cx);
                }
            }
        }
    }
}

/// Whether a goal is to be polled in a round at this moment. It is if the wait that its last poll left is over. It also is if
/// it is being canceled, and wasn't polled so yet. A goal that has ended never is.
pub fn is_awake(task: &GoalTask, moment: Moment, canceling: bool) -> bool
    ensures { result ≡ is_awake task.now.task (record { moment = moment; canceling = canceling }) }
{
    task.progress.is_awake(moment, canceling)
}

/// The moment from which on a goal is awake that isn't being canceled, in ticks. It is 0 if the goal waits for the next round.
/// If it waits for a time, it is that time. If it has ended, it is 2^64 - 1, which no moment reaches.
#[inline(always)]
pub fn wakes_at(task: &GoalTask) -> u64
    ensures { result ≡ wake_of task.now.task }
{
    task.progress.wakes_at()
}

/// Polls a goal in a round, with the variables of its callback group, in a context that the caller has made. A goal that is
/// awake goes on with its script. Any other goal answers as before and has no effect, and so does one that has ended. A goal
/// that pends has registered with each source that wakes it, or has yielded.
///
/// # Errors
/// [`Memory`] if a growth was refused now or in an earlier poll of the task. The bank and the task don't change, but the task
/// answers [`Memory`] from then on.
pub fn poll_goal(
    alloc: Global,
    task: &mut GoalTask,
    bank: &mut Bank,
    turn: &Turn,
    cx: &mut Context<'_>,
) -> Result<Polled, Memory>
    ensures effects { IfOk result (λ polled. polled.effects ≡ (poll_of task.old bank.old turn.now).given) }
    ensures polled { IfOk result (λ polled. IsPolled turn.now task.old task.new bank.old bank.new cx.old cx.new polled.answer) }
    ensures same { IsSameGoal task.old task.new }
    ensures kept { Keeps cx.old cx.new }
    ensures refused { OnErr result (IsRefused task.old task.new bank.old bank.new) }
    ensures failed { task.old.failed ≡ true → IsErr result }
    ensures takes_none { task.old.failed ≡ false → is_awake task.old.task turn.now ≡ false → IsOk result }
{
    let mut effects = EffectList::new(alloc);
    let answer = poll_goal_into(task, bank, turn, cx, &mut effects)?;
    Ok(Polled { effects, answer })
}

/// Polls a goal as [`poll_goal`] does. The list then has the poll's effects alone. A list that was used before has room
/// already.
///
/// # Errors
/// [`Memory`] as [`poll_goal`] does. The list is then empty.
#[inline(always)]
pub fn poll_goal_into(
    task: &mut GoalTask,
    bank: &mut Bank,
    turn: &Turn,
    cx: &mut Context<'_>,
    effects: &mut EffectList,
) -> Result<Answer, Memory>
    ensures effects { OnOk result (effects.new ≡ (poll_of task.old bank.old turn.now).given) }
    ensures refused_effects { OnErr result (effects.new ≡ []) }
    ensures polled { IfOk result (IsPolled turn.now task.old task.new bank.old bank.new cx.old cx.new) }
    ensures same { IsSameGoal task.old task.new }
    ensures kept { Keeps cx.old cx.new }
    ensures refused { OnErr result (IsRefused task.old task.new bank.old bank.new) }
    ensures failed { task.old.failed ≡ true → IsErr result }
    ensures takes_none { task.old.failed ≡ false → is_awake task.old.task turn.now ≡ false → IsOk result }
{
    effects.clear();
    if task.failed {
        return Err(Memory);
    }
    if is_awake(task, turn.moment, turn.canceling) {
        task.run(bank, turn, effects)?;
    }
    task.listen(cx);
    Ok(task.progress.answer())
}
