//! Worked examples of goals' tasks: what each poll answers, and that an ended task does nothing.
ghost use Rattle.std.specs.Prelude.{◌≡◌, ◌∷◌, [], pos, None, Some};
ghost use Rattle.exec_msg.specs.declared.goal.Event.TheVariants as event;
ghost use Rattle.exec_task.specs.Call.{new_call, completed, sources_of_call};
ghost use Rattle.exec_task.specs.Examples.{yielding, waiting, giving_up, at, canceling_at, poll_alone, after_polls};
ghost use Rattle.exec_task.specs.Task.{task_answer, new_task};
ghost use Rattle.exec_task.specs.declared.wait.Answer.TheVariants as answer;
ghost use Rattle.exec_task.specs.declared.wait.Source.TheVariants as source;
ghost use Rattle.exec_task.specs.declared.wait.Wait.TheVariants as wait;

/// A goal that yields pends until the next round, and ends in it. From then on each poll gives the same answer.
pub fn yield_once()
    ensures first { task_answer (after_polls yielding (at 10 ∷ []) new_task) ≡ answer.Pending wait.NextRound }
    ensures second { task_answer (after_polls yielding (at 10 ∷ at 10 ∷ []) new_task) ≡ answer.Ready (record { event = event.Succeed; value = pos 9 }) }
    ensures third { task_answer (after_polls yielding (at 10 ∷ at 10 ∷ at 11 ∷ []) new_task) ≡ answer.Ready (record { event = event.Succeed; value = pos 9 }) }
    ensures silent { (poll_alone yielding (at 11) (after_polls yielding (at 10 ∷ at 10 ∷ []) new_task)).given ≡ [] }
{}

/// A goal that waits for 5 ticks at 10 pends until 15, at 12 too, and ends at 15.
pub fn wait_for_a_time()
    ensures first { task_answer (after_polls waiting (at 10 ∷ []) new_task) ≡ answer.Pending (wait.Until 15) }
    ensures second { task_answer (after_polls waiting (at 10 ∷ at 12 ∷ []) new_task) ≡ answer.Pending (wait.Until 15) }
    ensures third { task_answer (after_polls waiting (at 10 ∷ at 12 ∷ at 15 ∷ []) new_task) ≡ answer.Ready (record { event = event.Succeed; value = pos 9 }) }
{}

/// A goal that waits is polled before its time if it is being canceled.
pub fn wake_early()
    ensures { task_answer (after_polls waiting (at 10 ∷ canceling_at 12 ∷ []) new_task) ≡ answer.Ready (record { event = event.Succeed; value = pos 9 }) }
{}

/// A goal that ends as canceled is aborted, unless it is being canceled.
pub fn give_up()
    ensures unasked { task_answer (after_polls giving_up (at 10 ∷ []) new_task) ≡ answer.Ready (record { event = event.Abort; value = pos 7 }) }
    ensures asked { task_answer (after_polls giving_up (canceling_at 10 ∷ []) new_task) ≡ answer.Ready (record { event = event.Canceled; value = pos 7 }) }
{}

/// A goal whose script comes to its end without ending it starts again in the next round.
pub fn start_again()
    ensures { after_polls [] (at 10 ∷ []) new_task ≡ new_task }
{}

/// A call waits for its reply, takes 8, and keeps it when 9 comes.
pub fn keep_a_reply()
    ensures before { (new_call 1).reply ≡ None }
    ensures waits { sources_of_call (new_call 1) ≡ source.Reply ∷ [] }
    ensures after { (completed (pos 8) (new_call 1)).reply ≡ Some (pos 8) }
    ensures again { completed (pos 9) (completed (pos 8) (new_call 1)) ≡ completed (pos 8) (new_call 1) }
{}
