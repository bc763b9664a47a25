//! Laws of goals. The contract of each function says one law, and its body is empty. They hold for all states, tables and
//! requests.

ghost use Rattle.std.specs.Prelude.{◌≡◌, ◌≢◌, ◌↔◌, ◌⊎◌, ℕ, ◌+◌, ◌≤◌, ℤ, List, [], ◌∷◌, ◌++◌, length, map, take, drop, true, false, find, All, Any, Contains, IsPermutation, Option, None, Some};
ghost use Rattle.std.specs.Option.{option_map};
ghost use Rattle.exec_goal.specs.Cancel.{CancelRequest, Decided, decided_goal, selects, is_candidate, candidates, is_moved, moved, after_answer, table_after, code_of};
ghost use Rattle.exec_goal.specs.LawWords.{IsSublist, AllRefused};
ghost use Rattle.exec_goal.specs.State.{Transition, after, status_of, is_terminal};
ghost use Rattle.exec_goal.specs.Table.{GoalRecord, has_id, holds_id, HaveDistinctIds, is_full, is_accepting, new_goal, with_accepted, is_expired, expired, unexpired, told, later, unknown, asked_for};
ghost use Rattle.exec_goal.specs.declared.state.State.{State};
ghost use Rattle.exec_goal.specs.declared.state.State.TheVariants as state;
ghost use Rattle.exec_msg.specs.Goal.{status_number};
ghost use Rattle.exec_msg.specs.Lists.{change_first};
ghost use Rattle.exec_msg.specs.declared.goal.Acceptance.{Acceptance};
ghost use Rattle.exec_msg.specs.declared.goal.Acceptance.TheVariants as acceptance;
ghost use Rattle.exec_msg.specs.declared.goal.CancelDecision.TheVariants as cancel_decision;
ghost use Rattle.exec_msg.specs.declared.goal.Decision.{Decision};
ghost use Rattle.exec_msg.specs.declared.goal.Decision.TheVariants as decision;
ghost use Rattle.exec_msg.specs.declared.goal.Event.{Event};
ghost use Rattle.exec_msg.specs.declared.goal.Event.TheVariants as event;
ghost use Rattle.exec_msg.specs.declared.goal.GoalStatus.{GoalStatus};
ghost use Rattle.exec_msg.specs.declared.goal.ReturnCode.TheVariants as code;

/// A goal moves from one state to another by an event exactly if the table has that transition.
pub fn goals_move_by_the_table()
    ensures { (before : State) (by : Event) (next : State) → (after before by ≡ Some next) ↔ Transition before by next }
{}

/// Nothing moves a goal that has ended.
pub fn ended_goals_stay()
    ensures { (before : State) (by : Event) → is_terminal before ≡ true → after before by ≡ None }
{}

/// Something moves each goal that hasn't ended.
pub fn active_goals_can_move()
    ensures { (before : State) → is_terminal before ≡ false → (by : Event) × (next : State) × (after before by ≡ Some next) }
{}

/// Each state but ACCEPTED is entered by its own event alone, and no event leads to ACCEPTED.
pub fn states_have_their_own_events()
    ensures accepted { (before : State) (by : Event) → after before by ≢ Some state.Accepted }
    ensures executing { (before : State) (by : Event) → after before by ≡ Some state.Executing → by ≡ event.Execute }
    ensures canceling { (before : State) (by : Event) → after before by ≡ Some state.Canceling → by ≡ event.CancelGoal }
    ensures succeeded { (before : State) (by : Event) → after before by ≡ Some state.Succeeded → by ≡ event.Succeed }
    ensures aborted { (before : State) (by : Event) → after before by ≡ Some state.Aborted → by ≡ event.Abort }
    ensures canceled { (before : State) (by : Event) → after before by ≡ Some state.Canceled → by ≡ event.Canceled }
{}

/// No two states have one status.
pub fn statuses_differ()
    ensures { (first second : State) → status_of first ≡ status_of second → first ≡ second }
{}

/// The status number of a goal that is held is never 0. That number says that a goal is unknown.
pub fn held_goals_are_known()
    ensures { (held : State) → status_number (status_of held) ≢ 0 }
{}

/// A goal is accepted by two decisions, and by no other.
pub fn two_decisions_accept()
    ensures { (made : Decision) → (is_accepting made ≡ true) ↔ ((made ≡ decision.Execute) ⊎ (made ≡ decision.Defer)) }
{}

/// A server has no room exactly if it holds 1,024 goals or more.
pub fn servers_hold_1024_goals()
    ensures { (goals : List GoalRecord) → (is_full goals ≡ true) ↔ (1024 ≤ length goals) }
{}

/// A new goal's identifier isn't held before it is accepted. If no two goals had the same identifier before, no two have after.
pub fn accepting_keeps_identifiers_distinct()
    ensures { (id : ℕ) (value : ℤ) (moment : ℕ) (how : Acceptance) (goals : List GoalRecord) →
        HaveDistinctIds goals → holds_id id goals ≡ false → HaveDistinctIds (with_accepted id value moment how goals) }
{}

/// A goal that is accepted is held, and comes last, after the goals that were held.
pub fn accepted_goals_stand_last()
    ensures others { (id : ℕ) (value : ℤ) (moment : ℕ) (how : Acceptance) (goals : List GoalRecord) →
        take (length goals) (with_accepted id value moment how goals) ≡ goals }
    ensures last { (id : ℕ) (value : ℤ) (moment : ℕ) (how : Acceptance) (goals : List GoalRecord) →
        drop (length goals) (with_accepted id value moment how goals) ≡ new_goal id value moment how ∷ [] }
    ensures held { (id : ℕ) (value : ℤ) (moment : ℕ) (how : Acceptance) (goals : List GoalRecord) →
        holds_id id (with_accepted id value moment how goals) ≡ true }
{}

/// A goal that is accepted is EXECUTING if it is executed at once, and else ACCEPTED.
pub fn accepted_goals_begin_by_their_decision()
    ensures executed { (id : ℕ) (value : ℤ) (moment : ℕ) → (new_goal id value moment acceptance.Execute).state ≡ state.Executing }
    ensures deferred { (id : ℕ) (value : ℤ) (moment : ℕ) → (new_goal id value moment acceptance.Defer).state ≡ state.Accepted }
{}

/// A result request is answered a status and a result exactly if the first goal of its identifier has ended with them.
pub fn results_of_ended_goals_are_told()
    ensures { (id : ℕ) (status : GoalStatus) (result : ℤ) (goals : List GoalRecord) →
        (asked_for id goals ≡ told status result)
        ↔ ((goal : GoalRecord) × (find (has_id id) goals ≡ Some goal) × (is_terminal goal.state ≡ true)
        × (status_of goal.state ≡ status) × (goal.result ≡ result)) }
{}

/// A result request is answered later exactly if the first goal of its identifier hasn't ended.
pub fn results_of_active_goals_come_later()
    ensures { (id : ℕ) (goals : List GoalRecord) →
        (asked_for id goals ≡ later) ↔ ((goal : GoalRecord) × (find (has_id id) goals ≡ Some goal) × (is_terminal goal.state ≡ false)) }
{}

/// A result request is answered that the goal is unknown exactly if its identifier isn't held.
pub fn other_goals_are_unknown()
    ensures { (id : ℕ) (goals : List GoalRecord) → (asked_for id goals ≡ unknown) ↔ (holds_id id goals ≡ false) }
{}

/// What is forgotten and what is kept are together the table. Each is in the order of acceptance.
pub fn expiry_parts_the_table()
    ensures together { (moment : ℕ) (timeout : Option ℕ) (goals : List GoalRecord) →
        IsPermutation goals (expired moment timeout goals ++ unexpired moment timeout goals) }
    ensures forgotten { (moment : ℕ) (timeout : Option ℕ) (goals : List GoalRecord) → IsSublist (expired moment timeout goals) goals }
    ensures kept { (moment : ℕ) (timeout : Option ℕ) (goals : List GoalRecord) → IsSublist (unexpired moment timeout goals) goals }
{}

/// Each goal that is forgotten has expired, and so has ended. No goal that is kept has expired.
pub fn expired_goals_are_forgotten()
    ensures forgotten { (moment : ℕ) (timeout : Option ℕ) (goals : List GoalRecord) →
        All (λ goal. is_expired moment timeout goal ≡ true) (expired moment timeout goals) }
    ensures ended { (moment : ℕ) (timeout : Option ℕ) (goals : List GoalRecord) →
        All (λ goal. is_terminal goal.state ≡ true) (expired moment timeout goals) }
    ensures kept { (moment : ℕ) (timeout : Option ℕ) (goals : List GoalRecord) →
        All (λ goal. is_expired moment timeout goal ≡ false) (unexpired moment timeout goals) }
{}

/// Without a timeout nothing is forgotten.
pub fn without_timeout_all_is_kept()
    ensures forgotten { (moment : ℕ) (goals : List GoalRecord) → expired moment None goals ≡ [] }
    ensures kept { (moment : ℕ) (goals : List GoalRecord) → unexpired moment None goals ≡ goals }
{}

/// A goal that has ended expires at the moment of its end plus the timeout, and not before.
pub fn goals_expire_after_their_timeout()
    ensures { (moment timeout : ℕ) (goal : GoalRecord) → is_terminal goal.state ≡ true →
        (is_expired moment (Some timeout) goal ≡ true) ↔ (goal.ended + timeout ≤ moment) }
{}

/// A cancel request selects all goals, or those accepted at or before its stamp, or the goal of its identifier, or the
/// latter two.
pub fn requests_select_by_the_policy()
    ensures all { (goal : GoalRecord) → selects 0 0 goal ≡ true }
    ensures before { (stamp : ℕ) (goal : GoalRecord) → stamp ≢ 0 → (selects 0 stamp goal ≡ true) ↔ (goal.stamp ≤ stamp) }
    ensures named { (id : ℕ) (goal : GoalRecord) → id ≢ 0 → (selects id 0 goal ≡ true) ↔ (goal.id ≡ id) }
    ensures either { (id stamp : ℕ) (goal : GoalRecord) → id ≢ 0 → stamp ≢ 0 →
        (selects id stamp goal ≡ true) ↔ ((goal.id ≡ id) ⊎ (goal.stamp ≤ stamp)) }
{}

/// The candidates are the goals that a request selects and that are ACCEPTED or EXECUTING, in the order of acceptance.
pub fn candidates_may_be_moved()
    ensures exactly { (request : CancelRequest) (goal : GoalRecord) →
        (is_candidate request goal ≡ true)
        ↔ ((selects request.id request.stamp goal ≡ true) × ((goal.state ≡ state.Accepted) ⊎ (goal.state ≡ state.Executing))) }
    ensures each { (request : CancelRequest) (goals : List GoalRecord) →
        All (λ goal. is_candidate request goal ≡ true) (candidates request goals) }
    ensures all { (request : CancelRequest) (goals : List GoalRecord) (goal : GoalRecord) →
        Contains goals goal → is_candidate request goal ≡ true → Contains (candidates request goals) goal }
    ensures ordered { (request : CancelRequest) (goals : List GoalRecord) → IsSublist (candidates request goals) goals }
{}

/// A goal moves exactly if a decision that accepts names it and it is still ACCEPTED or EXECUTING.
pub fn accepted_candidates_move()
    ensures { (decisions : List Decided) (goal : GoalRecord) →
        (is_moved decisions goal ≡ true)
        ↔ (Contains decisions (goal.id, cancel_decision.Accept) × ((goal.state ≡ state.Accepted) ⊎ (goal.state ≡ state.Executing))) }
{}

/// The goals that move are all such goals of the table, in the order of acceptance.
pub fn moved_goals_stand_in_order()
    ensures each { (decisions : List Decided) (goals : List GoalRecord) →
        All (λ goal. is_moved decisions goal ≡ true) (moved decisions goals) }
    ensures all { (decisions : List Decided) (goals : List GoalRecord) (goal : GoalRecord) →
        Contains goals goal → is_moved decisions goal ≡ true → Contains (moved decisions goals) goal }
    ensures ordered { (decisions : List Decided) (goals : List GoalRecord) → IsSublist (moved decisions goals) goals }
{}

/// A goal that moves becomes CANCELING. Any other doesn't change.
pub fn moved_goals_are_canceling()
    ensures moved { (decisions : List Decided) (goal : GoalRecord) →
        is_moved decisions goal ≡ true → after_answer decisions goal ≡ record goal { state = state.Canceling } }
    ensures unmoved { (decisions : List Decided) (goal : GoalRecord) →
        is_moved decisions goal ≡ false → after_answer decisions goal ≡ goal }
{}

/// An answer leaves the identifiers of the table, in their order.
pub fn answers_keep_the_order()
    ensures { (decisions : List Decided) (goals : List GoalRecord) →
        map (λ goal. goal.id) (table_after decisions goals) ≡ map (λ goal. goal.id) goals }
{}

/// No answer changes a goal that has ended, or one that is CANCELING.
pub fn answers_leave_ended_goals()
    ensures ended { (decisions : List Decided) (goal : GoalRecord) → is_terminal goal.state ≡ true → after_answer decisions goal ≡ goal }
    ensures canceling { (decisions : List Decided) (goal : GoalRecord) → goal.state ≡ state.Canceling → after_answer decisions goal ≡ goal }
{}

/// If the decisions are about the candidates of a request in an earlier table, each goal that moves has the identifier of one
/// of these candidates.
pub fn only_candidates_move()
    ensures { (request : CancelRequest) (decisions : List Decided) (before goals : List GoalRecord) →
        map decided_goal decisions ≡ map (λ goal. goal.id) (candidates request before) →
        All (λ goal. Any (λ candidate. candidate.id ≡ goal.id) (candidates request before)) (moved decisions goals) }
{}

/// The return code is ERROR_NONE exactly if a goal moved.
pub fn code_is_none_where_a_goal_moved()
    ensures { (request : CancelRequest) (decisions : List Decided) (goals : List GoalRecord) →
        (code_of request decisions goals ≡ code.None) ↔ (moved decisions goals ≢ []) }
{}

/// If no goal moved and all candidates were refused, the code is ERROR_REJECTED. There must have been a candidate.
pub fn code_is_rejected_where_all_were_refused()
    ensures { (request : CancelRequest) (decisions : List Decided) (goals : List GoalRecord) →
        moved decisions goals ≡ [] → AllRefused decisions → code_of request decisions goals ≡ code.Rejected }
{}

/// The code is ERROR_UNKNOWN_GOAL_ID exactly if no goal moved, not all candidates were refused, and the request names a
/// goal that isn't held.
pub fn code_is_unknown_where_no_such_goal_is_held()
    ensures { (request : CancelRequest) (decisions : List Decided) (goals : List GoalRecord) →
        (code_of request decisions goals ≡ code.UnknownGoalId)
        ↔ ((moved decisions goals ≡ []) × (AllRefused decisions → ⊥) × (request.id ≢ 0) × (holds_id request.id goals ≡ false)) }
{}

/// The code is ERROR_GOAL_TERMINATED exactly if no goal moved, not all candidates were refused, and the goal that the
/// request names has ended.
pub fn code_is_terminated_where_the_goal_has_ended()
    ensures { (request : CancelRequest) (decisions : List Decided) (goals : List GoalRecord) →
        (code_of request decisions goals ≡ code.GoalTerminated)
        ↔ ((moved decisions goals ≡ []) × (AllRefused decisions → ⊥) × (request.id ≢ 0)
        × ((goal : GoalRecord) × (find (has_id request.id) goals ≡ Some goal) × (is_terminal goal.state ≡ true))) }
{}

/// If no goal moved, and the request names none or one that hasn't ended, the code is ERROR_REJECTED.
pub fn code_is_rejected_else()
    ensures unnamed { (stamp : ℕ) (decisions : List Decided) (goals : List GoalRecord) →
        moved decisions goals ≡ [] → code_of (record { id = 0; stamp = stamp }) decisions goals ≡ code.Rejected }
    ensures active { (request : CancelRequest) (decisions : List Decided) (goals : List GoalRecord) (goal : GoalRecord) →
        moved decisions goals ≡ [] → find (has_id request.id) goals ≡ Some goal → is_terminal goal.state ≡ false →
        code_of request decisions goals ≡ code.Rejected }
{}

/// A change is given that leaves the identifier of its goal. It changes the goal of that identifier, and no other. All
/// identifiers keep their order.
pub fn changes_reach_one_goal()
    ensures order { (id : ℕ) (change : GoalRecord → GoalRecord) (goals : List GoalRecord) → ((goal : GoalRecord) → (change goal).id ≡ goal.id) →
        map (λ goal. goal.id) (change_first (has_id id) change goals) ≡ map (λ goal. goal.id) goals }
    ensures changed { (id : ℕ) (change : GoalRecord → GoalRecord) (goals : List GoalRecord) → ((goal : GoalRecord) → (change goal).id ≡ goal.id) →
        find (has_id id) (change_first (has_id id) change goals) ≡ option_map change (find (has_id id) goals) }
    ensures others { (id other : ℕ) (change : GoalRecord → GoalRecord) (goals : List GoalRecord)
        → ((goal : GoalRecord) → (change goal).id ≡ goal.id) → id ≢ other →
        find (has_id other) (change_first (has_id id) change goals) ≡ find (has_id other) goals }
{}
