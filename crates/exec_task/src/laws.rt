//! Laws of goals' tasks. The contract of each function says one law. They hold for all scripts, from every state of a task, and
//! for effects that go anywhere: `S` is what they are put into, and `give` puts one there.

ghost use Rattle.std.specs.Prelude.{◌≡◌, ◌≢◌, ◌↔◌, ◌⊎◌, ℕ, ◌^◌, ◌-◌, ◌<◌, ◌≤◌, nat_le, ℤ, List, [], ◌∷◌, length, Bool, true, false, Contains, None, Some, IfSome, not, ◌&&◌, ◌||◌};
ghost use Rattle.std.specs.List.{list_any};
ghost use Rattle.exec_msg.specs.Numbers.{Moment};
ghost use Rattle.exec_msg.specs.declared.goal.Event.{Event};
ghost use Rattle.exec_msg.specs.declared.goal.Event.TheVariants as event;
ghost use Rattle.exec_script.specs.LawWords.{IsEnding};
ghost use Rattle.exec_script.specs.Script.{listed};
ghost use Rattle.exec_script.specs.declared.effects.Effect.{Effect};
ghost use Rattle.exec_script.specs.declared.instr.Instr.{Instr};
ghost use Rattle.exec_task.specs.Call.{CallState, completed, sources_of_call};
ghost use Rattle.exec_task.specs.LawWords.{has_come, polled_later};
ghost use Rattle.exec_task.specs.Task.{TaskState, has_ended, is_reached, is_awake, task_answer, polled, sources_of, ending_event};
ghost use Rattle.exec_task.specs.Waking.{wake_of};
ghost use Rattle.exec_task.specs.declared.wait.Answer.TheVariants as answer;
ghost use Rattle.exec_task.specs.declared.wait.Ending.{Ending};
ghost use Rattle.exec_task.specs.declared.wait.Source.TheVariants as source;
ghost use Rattle.exec_task.specs.declared.wait.Turn.{Turn};
ghost use Rattle.exec_task.specs.declared.wait.Wait.{Wait};
ghost use Rattle.exec_task.specs.declared.wait.Wait.TheVariants as wait;

use crate::{GoalTask, PendingCall, Polled, Poller};
use exec_script::Bank;

/// A task that has ended is never awake.
pub fn ended_tasks_sleep()
    ensures { (task : TaskState) (turn : Turn) → has_ended task ≡ true → is_awake task turn ≡ false }
{}

/// A task that waits for the next round is awake in every turn, unless it has ended.
pub fn next_rounds_wake()
    ensures { (task : TaskState) (turn : Turn) → has_ended task ≡ false → task.waits ≡ wait.NextRound → is_awake task turn ≡ true }
{}

/// A task that waits until a time is awake exactly from that time on, or if it is being canceled and wasn't polled so.
pub fn times_and_cancellation_wake()
    ensures { (task : TaskState) (turn : Turn) (time : ℕ) → has_ended task ≡ false → task.waits ≡ wait.Until time →
        (is_awake task turn ≡ true) ↔ ((time ≤ turn.moment) ⊎ ((turn.canceling ≡ true) × (task.knows_canceling ≡ false))) }
{}

/// The wait that the last poll of a pending task answered decides whether the task is awake.
pub fn the_last_answer_wakes()
    ensures { (task : TaskState) (turn : Turn) (waits : Wait) → task_answer task ≡ answer.Pending waits →
        is_awake task turn ≡ (is_reached waits turn.moment || (turn.canceling && not task.knows_canceling)) }
{}

/// A task that isn't being canceled is awake from one moment on, and not before.
pub fn one_moment_wakes()
    ensures { (task : TaskState) (moment : Moment) → moment < 2 ^ 64 - 1 →
        is_awake task (record { moment = moment; canceling = false }) ≡ nat_le (wake_of task) moment }
{}

/// A poll of a task that isn't awake changes nothing, and answers as before.
pub fn sleeping_tasks_stay<S>()
    ensures same { (give : Effect → S → S) (script : List Instr) (value : ℤ) (turn : Turn) (task : TaskState) (variables : List ℤ) (given : S) →
        is_awake task turn ≡ false →
        polled give script value turn task variables given ≡ record { task = task; variables = variables; given = given } }
    ensures answers { (give : Effect → S → S) (script : List Instr) (value : ℤ) (turn : Turn) (task : TaskState) (variables : List ℤ) (given : S) →
        is_awake task turn ≡ false →
        task_answer (polled give script value turn task variables given).task ≡ task_answer task }
{}

/// A task that hasn't ended knows that it is being canceled after it was polled so. No other poll changes what it knows.
pub fn polls_tell_of_cancellation<S>()
    ensures told { (give : Effect → S → S) (script : List Instr) (value : ℤ) (turn : Turn) (task : TaskState) (variables : List ℤ) (given : S) →
        has_ended task ≡ false → turn.canceling ≡ true →
        (polled give script value turn task variables given).task.knows_canceling ≡ true }
    ensures kept { (give : Effect → S → S) (script : List Instr) (value : ℤ) (turn : Turn) (task : TaskState) (variables : List ℤ) (given : S) →
        turn.canceling ≡ false →
        (polled give script value turn task variables given).task.knows_canceling ≡ task.knows_canceling }
{}

/// A poll of a task that has ended answers its ending, and has no effect.
pub fn endings_stay<S>()
    ensures answers { (give : Effect → S → S) (script : List Instr) (value : ℤ) (turn : Turn) (task : TaskState) (variables : List ℤ)
        (given : S) (ending : Ending) →
        task_answer task ≡ answer.Ready ending →
        task_answer (polled give script value turn task variables given).task ≡ answer.Ready ending }
    ensures same { (give : Effect → S → S) (script : List Instr) (value : ℤ) (turn : Turn) (task : TaskState) (variables : List ℤ)
        (given : S) (ending : Ending) →
        task_answer task ≡ answer.Ready ending →
        polled give script value turn task variables given ≡ record { task = task; variables = variables; given = given } }
{}

/// A task that isn't being canceled never ends as canceled.
pub fn only_canceling_goals_are_canceled<S>()
    ensures { (give : Effect → S → S) (script : List Instr) (value : ℤ) (turn : Turn) (task : TaskState) (variables : List ℤ) (given : S) →
        has_ended task ≡ false → turn.canceling ≡ false →
        IfSome (polled give script value turn task variables given).task.ending (λ ending. ending.event ≢ event.Canceled) }
{}

/// A goal's script ends it by its own event. But `canceled` aborts a goal that isn't being canceled.
pub fn scripts_choose_their_ending()
    ensures canceling { (by : Event) → ending_event true by ≡ by }
    ensures unasked { ending_event false event.Canceled ≡ event.Abort }
    ensures others { (canceling : Bool) (by : Event) → by ≢ event.Canceled → ending_event canceling by ≡ by }
{}

/// A task ends only by one of the three events that end goals.
pub fn tasks_end_by_an_ending<S>()
    ensures { (give : Effect → S → S) (script : List Instr) (value : ℤ) (turn : Turn) (task : TaskState) (variables : List ℤ) (given : S) →
        has_ended task ≡ false →
        IfSome (polled give script value turn task variables given).task.ending (λ ending. IsEnding ending.event) }
{
    exec_script::laws::goals_end_by_an_ending::<S>();
}

/// A goal that pends until a time is woken by the clock at that time. One that pends otherwise is woken by the next round.
pub fn pending_tasks_have_a_source<S>()
    ensures { (give : Effect → S → S) (script : List Instr) (value : ℤ) (turn : Turn) (task : TaskState) (variables : List ℤ) (given : S) (waits : Wait) →
        task_answer (polled give script value turn task variables given).task ≡ answer.Pending waits →
        (waits ≡ wait.NextRound)
        ⊎ ((time : ℕ) × (waits ≡ wait.Until time) × Contains (sources_of (polled give script value turn task variables given).task) (source.Clock time)) }
{}

/// A task that hasn't ended is awake exactly if it waits for the next round or one of its sources has come.
pub fn sources_wake()
    ensures { (task : TaskState) (turn : Turn) → has_ended task ≡ false →
        (is_awake task turn ≡ true) ↔ ((task.waits ≡ wait.NextRound) ⊎ (list_any (has_come turn) (sources_of task) ≡ true)) }
{}

/// A poll leaves a task at a place within its script.
pub fn tasks_stay_within_their_script<S>()
    ensures { (give : Effect → S → S) (script : List Instr) (value : ℤ) (turn : Turn) (task : TaskState) (variables : List ℤ) (given : S) →
        task.place ≤ length script → (polled give script value turn task variables given).task.place ≤ length script }
{
    exec_script::laws::goes_on_within_its_end::<S>();
}

/// A poll leaves a task as many registers as it had.
pub fn registers_stay_as_many<S>()
    ensures { (give : Effect → S → S) (script : List Instr) (value : ℤ) (turn : Turn) (task : TaskState) (variables : List ℤ) (given : S) →
        length (polled give script value turn task variables given).task.registers ≡ length task.registers }
{
    exec_script::laws::registers_stay_as_many::<S>();
}

/// Effects that a poll lists may be given later, one after another. They do the same as effects that are given at once.
pub fn effects_may_be_given_later<S>()
    ensures { (give : Effect → S → S) (script : List Instr) (value : ℤ) (turn : Turn) (task : TaskState) (variables : List ℤ) (given : S) →
        polled give script value turn task variables given ≡ polled_later give given (polled listed script value turn task variables []) }
{
    exec_script::laws::effects_may_be_given_later::<S>();
}

/// A call waits for its reply as long as it has none. It keeps the first reply that comes.
pub fn calls_keep_their_first_reply()
    ensures waits { (call : CallState) → (sources_of_call call ≡ source.Reply ∷ []) ↔ (call.reply ≡ None) }
    ensures first { (call : CallState) (value : ℤ) → call.reply ≡ None → (completed value call).reply ≡ Some value }
    ensures keeps { (call : CallState) (reply value : ℤ) → call.reply ≡ Some reply → completed value call ≡ call }
{}

/// A goal's task and a call may be moved into another thread with all that they own. So may what a poll is lent and gives.
pub fn tasks_cross_threads() {
    crosses_threads::<GoalTask>();
    crosses_threads::<PendingCall>();
    crosses_threads::<Bank>();
    crosses_threads::<Polled>();
    crosses_threads::<Poller>();
}

fn crosses_threads<T: Send>() {}
