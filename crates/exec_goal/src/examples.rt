//! Worked examples of goals, their cancellation and their results.
ghost use Rattle.std.specs.Prelude.{◌≡◌, ◌∷◌, [], pos, map, true, false, find, option_map, Some, None};
ghost use Rattle.exec_goal.specs.Cancel.{candidates, moved, code_of};
ghost use Rattle.exec_goal.specs.Examples.{three_goals, cancel_until_20, one_accepted, one_canceling, one_canceled, cancel_1, cancel_9};
ghost use Rattle.exec_goal.specs.State.{after};
ghost use Rattle.exec_goal.specs.Table.{has_id, holds_id, expired, told, later, unknown, asked_for, asked_by};
ghost use Rattle.exec_goal.specs.declared.state.State.TheVariants as state;
ghost use Rattle.exec_msg.specs.declared.goal.Event.{Event};
ghost use Rattle.exec_msg.specs.declared.goal.Event.TheVariants as event;
ghost use Rattle.exec_msg.specs.declared.goal.GoalStatus.TheVariants as status;
ghost use Rattle.exec_msg.specs.declared.goal.ReturnCode.TheVariants as code;

/// A goal that isn't executed doesn't succeed. One that isn't being canceled isn't canceled. One that is being canceled may
/// succeed.
pub fn transitions()
    ensures accepted { after state.Accepted event.Succeed ≡ None }
    ensures executing { after state.Executing event.Canceled ≡ None }
    ensures canceling { after state.Canceling event.Succeed ≡ Some state.Succeeded }
{}

/// No event moves a goal that has ended.
pub fn terminal_states()
    ensures succeeded { (by : Event) → after state.Succeeded by ≡ None }
    ensures canceled { (by : Event) → after state.Canceled by ≡ None }
    ensures aborted { (by : Event) → after state.Aborted by ≡ None }
{}

/// Two goals are deferred and one is executed.
pub fn accepted_goals()
    ensures ids { map (λ goal. goal.id) three_goals ≡ 1 ∷ 2 ∷ 3 ∷ [] }
    ensures states { map (λ goal. goal.state) three_goals ≡ state.Accepted ∷ state.Accepted ∷ state.Executing ∷ [] }
    ensures held { holds_id 2 three_goals ≡ true }
    ensures other { holds_id 9 three_goals ≡ false }
{}

/// A stamp of 20 selects the goals that were accepted at 10 and 20. The first of them is accepted for cancelling.
pub fn cancel_before_a_stamp()
    ensures candidates { map (λ goal. goal.id) (candidates cancel_until_20 three_goals) ≡ 1 ∷ 2 ∷ [] }
    ensures code { code_of cancel_until_20 one_accepted three_goals ≡ code.None }
    ensures moved { map (λ goal. goal.id) (moved one_accepted three_goals) ≡ 1 ∷ [] }
    ensures states { map (λ goal. goal.state) one_canceling ≡ state.Canceling ∷ state.Accepted ∷ state.Executing ∷ [] }
{}

/// A goal that is CANCELING already is no candidate, and the request is rejected.
pub fn cancel_again()
    ensures candidates { candidates cancel_1 one_canceling ≡ [] }
    ensures code { code_of cancel_1 [] one_canceling ≡ code.Rejected }
    ensures moved { moved [] one_canceling ≡ [] }
{}

/// A goal that isn't held.
pub fn unknown_goal()
    ensures candidates { candidates cancel_9 one_canceling ≡ [] }
    ensures code { code_of cancel_9 [] one_canceling ≡ code.UnknownGoalId }
{}

/// A goal that has ended.
pub fn terminated_goal()
    ensures states { map (λ goal. goal.state) one_canceled ≡ state.Canceled ∷ state.Accepted ∷ state.Executing ∷ [] }
    ensures candidates { candidates cancel_1 one_canceled ≡ [] }
    ensures code { code_of cancel_1 [] one_canceled ≡ code.GoalTerminated }
{}

/// What result requests are answered for a goal that has ended, one that hasn't, and one that isn't held.
pub fn results()
    ensures ended { asked_for 1 one_canceled ≡ told status.Canceled (pos 7) }
    ensures active { asked_for 2 one_canceled ≡ later }
    ensures other { asked_for 9 one_canceled ≡ unknown }
    ensures noted { option_map (λ goal. (asked_by 4 goal).askers) (find (has_id 2) one_canceled) ≡ Some (4 ∷ []) }
{}

/// A goal that ended at 40 is forgotten from 50 on, if results are kept for 10 ticks.
pub fn forgotten_results()
    ensures early { expired 49 (Some 10) one_canceled ≡ [] }
    ensures late { map (λ goal. goal.id) (expired 50 (Some 10) one_canceled) ≡ 1 ∷ [] }
{}
