//! What becomes of messages, calls, asks for results and their answers.
ghost use Rattle.std.specs.Prelude.{◌≡◌, ℕ, ◌+◌, ◌≤◌, [], ◌∷◌, length, map, false, Some};
ghost use Rattle.std.specs.List.{filter, flat_map, list_any, Contains};
ghost use Rattle.exec_plan.specs.Lawful.{IsLawful, IsLawfulPlan};
ghost use Rattle.exec_plan.specs.Plan.{PlanData};
ghost use Rattle.exec_laws.specs.Exchanges.{AreAnswered, IsToldOnce, IsDelivered, ask_in, first_rounds, is_ask_taken, is_asked, is_result_lost, is_result_taken, is_result_told, items_of, result_in, waiting_in};
ghost use Rattle.exec_laws.specs.Examples.{full_result_queue};
ghost use Rattle.exec_msg.specs.declared.kind.Kind.TheVariants as kind;
ghost use Rattle.exec_rules.specs.Item.{goal_id};
ghost use Rattle.exec_rules.specs.Lines.{is_loss};
ghost use Rattle.exec_rules.specs.Transcript.{first_world, lines_of, last_world};
ghost use Rattle.exec_rules.specs.World.{goals_at, subscribers_at, ActionClientEntry, ClientEntry, action_client_at, client_at};

/// Each message that is published or fed to a topic reaches each subscription of the topic. There it is taken, dropped with a
/// line, or in the queue at the end. This happens in the order in which the messages were published.
pub fn messages_are_delivered_in_order()
    ensures { (plan : PlanData) (topic subscription : ℕ) → Contains (subscribers_at topic (first_world plan)) subscription →
        IsDelivered plan topic subscription (last_world plan) }
{}

/// The calls of a service client have the numbers from 1, in the order in which it made them. For each call its callback took
/// the reply once, or the call is pending at the end, and never both.
pub fn calls_are_answered_once()
    ensures { (plan : PlanData) (number : ℕ) (client : ClientEntry) → client_at number (last_world plan) ≡ Some client → AreAnswered client (lines_of plan) }
{}

/// A server takes asks for a goal's result. As many of them are answered with a line `result` as don't wait at the end. An ask
/// waits because the goal hasn't ended.
pub fn asks_are_answered_once()
    ensures { (plan : PlanData) (server id : ℕ) →
        length (filter (is_ask_taken server id) (lines_of plan))
        ≡ length (filter (is_result_told server id) (lines_of plan)) + length (waiting_in id (goals_at server (last_world plan))) }
{}

/// An action client asks for the result of a goal at most once.
pub fn results_are_asked_for_once()
    ensures { (plan : PlanData) (client id : ℕ) → length (filter (is_asked client id) (lines_of plan)) ≤ 1 }
{}

/// In each plan of a lawful graph an action client is answered once for each ask, and no other client in its place. Count what
/// has the identifier of one goal. The asks that the client made are as many as the results that its callback took, that its
/// queue lost or that its queue holds, together with its asks that wait. These wait for the goal's end, or in its server's
/// queue.
pub fn askers_are_told_once()
    ensures { (plan : PlanData) → IsLawful plan.graph → (number : ℕ) (client : ActionClientEntry)
        → action_client_at number (last_world plan) ≡ Some client → IsToldOnce client (last_world plan) }
{}

/// An action client's callback takes the result of a goal at most as often as the client asked for it.
pub fn results_are_asked_for()
    ensures { (plan : PlanData) (client id : ℕ) → length (filter (is_result_taken client id) (lines_of plan))
        ≤ length (filter (is_asked client id) (lines_of plan)) }
{}

/// In the transcript of a lawful plan no reply, ask, response or code is displaced.
pub fn answers_are_never_displaced()
    ensures { (plan : PlanData) → IsLawfulPlan plan → list_any is_loss (lines_of plan) ≡ false }
{}

/// Each way that an ask may go, in the plan of a full queue of results (`full_result_queue` of `specs/Examples.antt`). Client 2 asks for
/// three results, and its queue loses two of them. Client 3 asks for one.
pub fn asks_go_these_ways()
    ensures asked { map (λ number. length (filter (is_asked 2 (goal_id 0 number)) (lines_of full_result_queue))) (1 ∷ 2 ∷ 3 ∷ []) ≡ 1 ∷ 1 ∷ 1 ∷ [] }
    ensures lost { length (filter (is_result_lost 2) (lines_of full_result_queue)) ≡ 2 }
    ensures taken { map (λ number. length (filter (is_result_taken 2 (goal_id 0 number)) (lines_of full_result_queue))) (1 ∷ 2 ∷ 3 ∷ []) ≡ 0 ∷ 0 ∷ 1 ∷ [] }
    ensures held { flat_map result_in (items_of 2 kind.Result (last_world (first_rounds 7 full_result_queue))) ≡ goal_id 0 3 ∷ [] }
    ensures waiting { waiting_in (goal_id 0 3) (goals_at 1 (last_world (first_rounds 6 full_result_queue))) ≡ 2 ∷ [] }
    ensures underway { flat_map (ask_in 3) (items_of 1 kind.Ask (last_world (first_rounds 6 full_result_queue))) ≡ goal_id 1 1 ∷ [] }
{}
