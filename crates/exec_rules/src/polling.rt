//! A poll of a goal's task, wherever the task is kept.
ghost use Rattle.std.specs.Prelude.{◌≡◌, true, Some, IfOk, IsSomeAnd, OnErr, OnOk};
ghost use Rattle.std.specs.Option.{option_map};
ghost use Rattle.exec_task.specs.Task.{is_awake};
ghost use Rattle.exec_rules.specs.Callback.{close_of_answer, poll_listed};
ghost use Rattle.exec_rules.specs.Run.{work_after};
ghost use Rattle.exec_rules.specs.World.{work_of};

use exec_msg::Memory;
use exec_script::{Bank, Close, EffectList};
use exec_task::{Answer, GoalTask, Turn, is_awake, poll_goal_into};
use futures::task::Context;

// What closes a poll with this answer.
fn close_of(answer: Answer) -> Close
    ensures { result ≡ close_of_answer answer }
{
    match answer {
        Answer::Ready(ending) => Close::Ended(ending.event, ending.value),
        Answer::Pending(_) => Close::Pending,
    }
}

/// Polls a task with the variables of its callback group, in a context that the caller has made. Answers what closes the poll.
/// The list then has the poll's effects alone. A task that is out or isn't awake isn't polled, and pends.
///
/// # Errors
/// [`Memory`] if a growth was refused. Only a task that is awake needs memory. The task's work and the variables don't change.
#[inline(always)]
pub fn poll_any(
    task: &mut Option<GoalTask>,
    turn: &Turn,
    bank: &mut Bank,
    cx: &mut Context<'_>,
    effects: &mut EffectList,
) -> Result<Close, Memory>
    ensures effects { OnOk result (effects.new ≡ (poll_listed turn.now (option_map work_of task.old) bank.old).given) }
    ensures close { IfOk result (λ close. close ≡ (poll_listed turn.now (option_map work_of task.old) bank.old).close) }
    ensures variables { OnOk result (bank.new ≡ (poll_listed turn.now (option_map work_of task.old) bank.old).variables) }
    ensures task { OnOk result (option_map work_of task.new
        ≡ option_map (work_after (poll_listed turn.now (option_map work_of task.old) bank.old).task) (option_map work_of task.old)) }
    ensures memory { OnErr result (IsSomeAnd (option_map work_of task.old) (λ work. is_awake work.task turn.now ≡ true)) }
    ensures unchanged { OnErr result (option_map work_of task.new ≡ option_map work_of task.old) }
    ensures unchanged_variables { OnErr result (bank.new ≡ bank.old) }
{
    let Some(task) = task else {
        effects.clear();
        return Ok(Close::Pending);
    };
    let close = poll_task(task, turn, bank, cx, effects)?;
    Ok(close)
}

// Polls a task if it is awake.
#[inline(always)]
fn poll_task(
    task: &mut GoalTask,
    turn: &Turn,
    bank: &mut Bank,
    cx: &mut Context<'_>,
    effects: &mut EffectList,
) -> Result<Close, Memory>
    ensures effects { OnOk result (effects.new ≡ (poll_listed turn.now (Some (work_of task.old)) bank.old).given) }
    ensures close { IfOk result (λ close. close ≡ (poll_listed turn.now (Some (work_of task.old)) bank.old).close) }
    ensures variables { OnOk result (bank.new ≡ (poll_listed turn.now (Some (work_of task.old)) bank.old).variables) }
    ensures task { OnOk result (work_of task.new ≡ work_after (poll_listed turn.now (Some (work_of task.old)) bank.old).task (work_of task.old)) }
    ensures memory { OnErr result (is_awake (work_of task.old).task turn.now ≡ true) }
    ensures unchanged { OnErr result (work_of task.new ≡ work_of task.old) }
    ensures unchanged_variables { OnErr result (bank.new ≡ bank.old) }
{
    // Emptied before the test, not after it. The compiler drops the same two steps of the poll only then.
    effects.clear();
    if !is_awake(task, turn.moment, turn.canceling) {
        return Ok(Close::Pending);
    }
    let answer = poll_goal_into(task, bank, turn, cx, effects)?;
    Ok(close_of(answer))
}
