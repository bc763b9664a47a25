//! The life of a goal.
ghost use Rattle.std.specs.Prelude.{◌≡◌, ◌≢◌, ℕ, List, ◌∷◌, ◌++◌, ◌==◌, length, map, take, drop, None, Some, ℤ, Bool, true};
ghost use Rattle.std.specs.List.{IsDistinct, fold};
ghost use Rattle.exec_goal.specs.Calls.{end_state, state_in};
ghost use Rattle.exec_goal.specs.Cancel.{decided_goal};
ghost use Rattle.exec_goal.specs.declared.info.GoalInfo.{GoalInfo};
ghost use Rattle.exec_plan.specs.Plan.{PlanData};
ghost use Rattle.exec_msg.specs.declared.goal.Event.{Event};
ghost use Rattle.exec_msg.specs.declared.goal.GoalStatus.{GoalStatus};
ghost use Rattle.exec_msg.specs.declared.goal.GoalStatus.TheVariants as status;
ghost use Rattle.exec_script.specs.declared.effects.Close.TheVariants as close;
ghost use Rattle.exec_script.specs.declared.effects.Effect.{Effect};
ghost use Rattle.exec_rules.specs.Callback.{CancelHandling, handle_cancel};
ghost use Rattle.exec_laws.specs.Goals.{AreLawful, IsFinal, MayCome, IsTurn, may_be_polled};
ghost use Rattle.exec_rules.specs.Lines.{statuses_of};
ghost use Rattle.exec_rules.specs.Run.{unclosed};
ghost use Rattle.exec_rules.specs.Run.{outcome_in};
ghost use Rattle.exec_rules.specs.Transcript.{first_world, lines_of, rounds};
ghost use Rattle.exec_rules.specs.World.{WorldState, goals_at};
ghost use Rattle.exec_rules.specs.declared.ready.Cause.TheVariants as cause;
ghost use Rattle.exec_rules.specs.declared.ready.Ready.{Ready};

/// After a cancel handler ran for candidates, the decisions are those from before, and then one for each candidate, with its
/// identifier, in order. `S` is what the handler's effects go into.
pub fn decisions_are_of_the_candidates<S>()
    ensures before { (give : Effect → S → S) (ready : Ready) (handling : CancelHandling S) (candidates : List GoalInfo) →
        take (length handling.decisions) (fold (handle_cancel give ready) handling candidates).decisions ≡ handling.decisions }
    ensures identifiers { (give : Effect → S → S) (ready : Ready) (handling : CancelHandling S) (candidates : List GoalInfo) →
        map decided_goal (drop (length handling.decisions) (fold (handle_cancel give ready) handling candidates).decisions)
        ≡ map (λ candidate. candidate.id) candidates }
{}

/// No two goals of one server have the same identifier, after any rounds of a plan.
pub fn identifiers_differ()
    ensures { (plan : PlanData) (number : ℕ) (moments : List ℕ) (server : ℕ) →
        IsDistinct (λ one other. one == other) (map (λ goal. goal.id) (goals_at server (rounds plan number moments (first_world plan)))) }
{}

/// In the transcript of a plan, take the statuses of a server's goals of one identifier. The first says that a goal is
/// accepted. Each further one follows by a transition, or says that the next goal is accepted. That comes only after a terminal
/// status.
pub fn statuses_follow_the_transitions()
    ensures { (plan : PlanData) (server id : ℕ) → AreLawful None (statuses_of server id (lines_of plan)) }
{
    exec_goal::laws::goals_move_by_the_table();
}

/// After a terminal status of a goal only the acceptance of the next goal may come. So a goal has at most one terminal status.
pub fn goals_end_once()
    ensures { (before after : GoalStatus) → IsFinal before → MayCome (Some before) after → after ≡ status.Accepted }
{
    exec_goal::laws::goals_move_by_the_table();
    exec_goal::laws::ended_goals_stay();
}

/// In the transcript of a plan, take two terminal statuses of a server's goals of one identifier. Right after the first the
/// next goal is accepted. So each goal has at most one terminal line `state`.
pub fn goals_have_one_end()
    ensures { (plan : PlanData) (server id : ℕ) (before between behind : List GoalStatus) (first second : GoalStatus) →
        statuses_of server id (lines_of plan) ≡ before ++ first ∷ between ++ second ∷ behind → IsFinal first → IsFinal second →
        between ≡ status.Accepted ∷ drop 1 between }
{
    statuses_follow_the_transitions();
    goals_end_once();
}

/// In any round of a plan, a goal that is polled is EXECUTING or CANCELING in its turn, and still is when its poll is closed.
/// If it is polled as one that is being canceled, it is CANCELING.
pub fn polled_goals_stay_at_work()
    ensures turn { (plan : PlanData) (number : ℕ) (moments : List ℕ) (next moment : ℕ) (one : Ready) (here : WorldState)
        (id : ℕ) (value : ℤ) (canceling : Bool) →
        IsTurn plan next moment (rounds plan number moments (first_world plan)) one here → one.cause ≡ cause.Woke id value canceling →
        may_be_polled canceling (state_in id (goals_at one.entity here)) ≡ true }
    ensures closing { (plan : PlanData) (number : ℕ) (moments : List ℕ) (next moment : ℕ) (one : Ready) (here : WorldState)
        (id : ℕ) (value : ℤ) (canceling : Bool) →
        IsTurn plan next moment (rounds plan number moments (first_world plan)) one here → one.cause ≡ cause.Woke id value canceling →
        may_be_polled canceling (state_in id (goals_at one.entity (unclosed one here))) ≡ true }
{}

/// So the ending that a goal's script asks for is always a transition of the goal, and is never without effect.
pub fn endings_are_allowed()
    ensures { (plan : PlanData) (number : ℕ) (moments : List ℕ) (next moment : ℕ) (one : Ready) (here : WorldState)
        (id : ℕ) (value : ℤ) (canceling : Bool) (by : Event) (result : ℤ) →
        IsTurn plan next moment (rounds plan number moments (first_world plan)) one here → one.cause ≡ cause.Woke id value canceling →
        (outcome_in one here).close ≡ close.Ended by result → end_state id by (goals_at one.entity (unclosed one here)) ≢ None }
{}
