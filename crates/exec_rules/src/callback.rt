//! What a callback does apart from the world, its effects listed.
ghost use Rattle.std.specs.Prelude.{◌≡◌, IfOk, OnErr, OnOk};
ghost use Rattle.std.specs.Option.{option_map};
ghost use Rattle.exec_script.specs.Script.{called, cancel_decided, listed};
ghost use Rattle.exec_rules.specs.Callback.{candidate_input, handle_all, instructions_of, poll_listed};
ghost use Rattle.exec_rules.specs.inner.Handling.{cancel_decision_in};
ghost use Rattle.exec_rules.specs.Ready.{turn_at};
ghost use Rattle.exec_rules.specs.Run.{apart_with, effects_of, work_after};
ghost use Rattle.exec_rules.specs.World.{work_of};

use crate::polling::poll_any;
use crate::ready::{Cause, Ready};
use crate::runnable::Runnable;
use exec_goal::GoalInfo;
use exec_msg::{CancelDecision, Elements, Memory, Moment};
use exec_script::{Bank, Close, EffectList, Effects, Input, Role, run_call_into};
use exec_task::{GoalTask, Poller, Turn};
use std::alloc::Global;

impl Ready {
    /// Runs the callback apart from the world, with the variables of its group. A poll is given its goal's task too. Gives what
    /// the callback did, which the world is to commit. A poll without a task does nothing, and the goal pends.
    ///
    /// # Errors
    /// [`Memory`] if a growth was refused. The variables and the task's work don't change.
    pub fn run_apart(
        &self,
        alloc: Global,
        task: &mut Option<GoalTask>,
        bank: &mut Bank,
        poller: &Poller,
    ) -> Result<Effects, Memory>
        ensures effects { IfOk result (λ did. did ≡ effects_of (apart_with self.now (option_map work_of task.old) bank.old)) }
        ensures variables { OnOk result (bank.new ≡ (apart_with self.now (option_map work_of task.old) bank.old).variables) }
        ensures task { OnOk result (option_map work_of task.new
            ≡ option_map (work_after (apart_with self.now (option_map work_of task.old) bank.old).task) (option_map work_of task.old)) }
        ensures unchanged { OnErr result (bank.new ≡ bank.old) }
        ensures unchanged_task { OnErr result (option_map work_of task.new ≡ option_map work_of task.old) }
    {
        let mut effects = EffectList::new(alloc);
        let close = self.run_apart_into(alloc, task, bank, poller, &mut effects)?;
        Ok(Effects {
            list: effects,
            close,
        })
    }

    /// Runs the callback as [`run_apart`](Ready::run_apart) does. The list then has its effects alone. Answers what closes it.
    ///
    /// # Errors
    /// [`Memory`] if a growth was refused. The variables and the task's work don't change.
    #[inline(always)]
    pub fn run_apart_into(
        &self,
        alloc: Global,
        task: &mut Option<GoalTask>,
        bank: &mut Bank,
        poller: &Poller,
        effects: &mut EffectList,
    ) -> Result<Close, Memory>
        ensures effects { OnOk result (effects.new ≡ (apart_with self.now (option_map work_of task.old) bank.old).given) }
        ensures close { IfOk result (λ close. close ≡ (apart_with self.now (option_map work_of task.old) bank.old).close) }
        ensures variables { OnOk result (bank.new ≡ (apart_with self.now (option_map work_of task.old) bank.old).variables) }
        ensures task { OnOk result (option_map work_of task.new
            ≡ option_map (work_after (apart_with self.now (option_map work_of task.old) bank.old).task) (option_map work_of task.old)) }
        ensures unchanged { OnErr result (bank.new ≡ bank.old) }
        ensures unchanged_task { OnErr result (option_map work_of task.new ≡ option_map work_of task.old) }
    {
        effects.clear();
        let mut after = *bank;
        let runnable = Runnable::of(self);
        let mut close = Close::Nothing;
        match &self.cause {
            Cause::Due => runnable.call_in(Role::Callback, &mut after, effects, &mut close)?,
            Cause::Took(item) => {
                runnable.take_item(alloc, item, &mut after, effects, &mut close)?;
            }
            Cause::Woke { canceling, .. } => {
                close = self.poll_apart(*canceling, task, &mut after, poller, effects)?;
            }
        }
        *bank = after;
        Ok(close)
    }

    // Polls the goal's task. The list then has its effects alone.
    fn poll_apart(
        &self,
        canceling: bool,
        task: &mut Option<GoalTask>,
        bank: &mut Bank,
        poller: &Poller,
        effects: &mut EffectList,
    ) -> Result<Close, Memory>
        ensures effects { OnOk result (effects.new ≡ (poll_listed (turn_at self.now.moment canceling) (option_map work_of task.old) bank.old).given) }
        ensures close { IfOk result (λ close. close ≡ (poll_listed (turn_at self.now.moment canceling) (option_map work_of task.old) bank.old).close) }
        ensures variables { OnOk result (bank.new ≡ (poll_listed (turn_at self.now.moment canceling) (option_map work_of task.old) bank.old).variables) }
        ensures task { OnOk result (option_map work_of task.new
            ≡ option_map (work_after (poll_listed (turn_at self.now.moment canceling) (option_map work_of task.old) bank.old).task)
            (option_map work_of task.old)) }
        ensures unchanged { OnErr result (option_map work_of task.new ≡ option_map work_of task.old) }
    {
        let turn = Turn {
            moment: self.moment,
            canceling,
        };
        let mut context = poller.begin();
        let polled = poll_any(task, &turn, bank, &mut context, effects);
        context.cancel();
        let close = polled?;
        Ok(close)
    }
}

// Runs a cancel handler for each of its candidates, and answers what closes it. The effects are added after those that the list
// has.
pub(crate) fn handle_all(
    alloc: Global,
    runnable: &Runnable<'_>,
    bank: &mut Bank,
    effects: &mut EffectList,
) -> Result<Close, Memory>
    ensures variables { OnOk result (bank.new ≡ (handle_all listed runnable.now bank.old effects.old).variables) }
    ensures effects { OnOk result (effects.new ≡ (handle_all listed runnable.now bank.old effects.old).given) }
    ensures close { IfOk result (λ close. close ≡ (handle_all listed runnable.now bank.old effects.old).close) }
{
    let mut decisions = Elements::new(alloc);
    for candidate in runnable.one.candidates.as_slice() {
        let decision = handle_cancel(runnable, candidate, bank, effects)?;
        decisions.push((candidate.id, decision))?;
    }
    Ok(Close::Decisions(decisions))
}

// Runs a cancel handler for a candidate, and answers its decision.
fn handle_cancel(
    runnable: &Runnable<'_>,
    candidate: &GoalInfo,
    bank: &mut Bank,
    effects: &mut EffectList,
) -> Result<CancelDecision, Memory>
    ensures variables { OnOk result (bank.new
        ≡ (called listed (instructions_of runnable.now.script) bank.old (candidate_input runnable.now.moment candidate.now) effects.old).variables) }
    ensures effects { OnOk result (effects.new
        ≡ (called listed (instructions_of runnable.now.script) bank.old (candidate_input runnable.now.moment candidate.now) effects.old).given) }
    ensures decision { IfOk result (λ decision. decision
        ≡ cancel_decided (called listed (instructions_of runnable.now.script) bank.old
        (candidate_input runnable.now.moment candidate.now) effects.old).reply_or_decision) }
{
    let input = candidate_input(runnable.one.moment, candidate);
    let close = run_call_into(
        runnable.instructions(),
        Role::CancelHandler,
        bank,
        &input,
        effects,
    )?;
    Ok(cancel_decision_in(&close))
}

fn candidate_input(moment: Moment, candidate: &GoalInfo) -> Input
    ensures { result ≡ candidate_input moment candidate.now }
{
    Input {
        first: candidate.value,
        aux: i64::from(candidate.state.status().number()),
        moment,
    }
}

// The decision that closes a cancel handler's call for a candidate. If something else closes it, the decision is to reject.
fn cancel_decision_in(closing: &Close) -> CancelDecision
    ensures { result ≡ cancel_decision_in closing.now }
{
    match closing {
        Close::DecideCancel(decision) => *decision,
        _ => CancelDecision::Reject,
    }
}
