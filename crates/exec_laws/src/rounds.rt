//! What rounds keep.
ghost use Rattle.std.specs.Prelude.{◌≡◌, ℕ, ◌+◌, ◌^◌, ◌<◌, ◌≤◌, ◌==◌, List, ◌∷◌, [], ◌++◌, length, take};
ghost use Rattle.std.specs.List.{All, IsDistinct};
ghost use Rattle.exec_plan.specs.Entity.{queue_depth};
ghost use Rattle.exec_plan.specs.Lawful.{IsLawfulPlan};
ghost use Rattle.exec_plan.specs.Plan.{PlanData};
ghost use Rattle.exec_plan.specs.declared.order.Order.TheVariants as order;
ghost use Rattle.exec_msg.specs.declared.kind.Kind.{Kind};
ghost use Rattle.exec_msg.specs.declared.limits.TheConstants.{MOMENTS};
ghost use Rattle.exec_msg.specs.declared.line.Line.TheVariants as line;
ghost use Rattle.exec_rules.specs.Item.{taker_of};
ghost use Rattle.exec_rules.specs.Shape.{shape_of};
ghost use Rattle.exec_rules.specs.Transcript.{at_snapshot, entity_at, first_world, round, rounds};
ghost use Rattle.exec_rules.specs.World.{WorldState, held_at};
ghost use Rattle.exec_laws.specs.Examples.{late};
ghost use Rattle.exec_laws.specs.Arrivals.{AreLeftOf, HadItsNumber, HasEarlierFirst, HasRisingNumbers, IsArrival, all_numbers, arrived_in, numbers_at};

/// A round keeps all lines, and then adds its own line first. Rounds keep all lines.
pub fn lines_only_grow()
    ensures round { (plan : PlanData) (number moment : ℕ) (world : WorldState) →
        take (length world.lines + 1) (round plan number moment world).lines ≡ world.lines ++ line.Round number moment ∷ [] }
    ensures rounds { (plan : PlanData) (number : ℕ) (moments : List ℕ) (world : WorldState) →
        take (length world.lines) (rounds plan number moments world).lines ≡ world.lines }
{}

/// Rounds change no shape: which topics, timers, queues, servers, clients and callback groups there are, and what they have of
/// the graph.
pub fn the_shape_never_changes()
    ensures { (plan : PlanData) (number : ℕ) (moments : List ℕ) (world : WorldState) →
        shape_of (rounds plan number moments world) ≡ shape_of world }
{}

/// Each queue holds at most its entity's depth, after any rounds of a plan.
pub fn queues_stay_within_their_depths()
    ensures { (plan : PlanData) (number : ℕ) (moments : List ℕ) →
        All (λ queue. length queue.items ≤ queue_depth (entity_at plan.graph queue.handler.entity).is) (rounds plan number moments (first_world plan)).queues }
{}

/// Each queue holds items of its kind alone, after any rounds of a plan.
pub fn queues_hold_items_of_their_kinds()
    ensures { (plan : PlanData) (number : ℕ) (moments : List ℕ) →
        All (λ queue. All (λ one. taker_of one ≡ queue.kind) queue.items) (rounds plan number moments (first_world plan)).queues }
{}

/// In the rounds of a lawful plan, as many as a plan may have, no service client makes 2^60 calls, no action client sends 2^60
/// goals, and the number of the last arrival is less than 2^60. So the numbers of calls, goals and arrivals fit into 64 bits
/// with a sign.
pub fn numbers_stay_below_their_limit()
    ensures calls { (plan : PlanData) (number : ℕ) (moments : List ℕ) → IsLawfulPlan plan → length moments ≤ MOMENTS →
        All (λ client. client.calls < 2 ^ 60) (rounds plan number moments (first_world plan)).clients }
    ensures goals { (plan : PlanData) (number : ℕ) (moments : List ℕ) → IsLawfulPlan plan → length moments ≤ MOMENTS →
        All (λ client. client.goals < 2 ^ 60) (rounds plan number moments (first_world plan)).action_clients }
    ensures arrivals { (plan : PlanData) (number : ℕ) (moments : List ℕ) → IsLawfulPlan plan → length moments ≤ MOMENTS →
        (rounds plan number moments (first_world plan)).arrivals < 2 ^ 60 }
{}

/// Under the order of arrival the numbers of each queue's items rise. They are numbers of arrivals, and so are those of the
/// goals that servers hold. Numbers of arrivals count from 1 to that of the last arrival. No two items or goals have the same
/// number. This holds after any rounds of a plan.
pub fn numbers_of_arrivals_rise()
    ensures queues { (plan : PlanData) (number : ℕ) (moments : List ℕ) → plan.order ≡ order.Arrival →
        All (HasRisingNumbers (rounds plan number moments (first_world plan)).arrivals) (rounds plan number moments (first_world plan)).queues }
    ensures goals { (plan : PlanData) (number : ℕ) (moments : List ℕ) → plan.order ≡ order.Arrival →
        All (λ entry. All (IsArrival (rounds plan number moments (first_world plan)).arrivals) (numbers_at entry))
        (rounds plan number moments (first_world plan)).servers }
    ensures distinct { (plan : PlanData) (number : ℕ) (moments : List ℕ) → plan.order ≡ order.Arrival →
        IsDistinct (λ one other. one == other) (all_numbers (rounds plan number moments (first_world plan))) }
{}

/// Under the order of arrival, what arrived earlier is taken earlier, whatever its kind. Take the world after some rounds of a
/// plan, and the snapshot of a later round. In each queue some of the items that it held are left, in their order. The items
/// that were sent since come after them, with numbers greater than that of the last arrival before. Goals that arrived since
/// have such numbers too, and any other goal had its number before. The ready list has first the callbacks that are ready by
/// what had arrived before, and then those that are ready by what arrived since. So of two items that were sent in different
/// rounds the earlier one is taken first, unless it waits in its queue for those before it.
pub fn earlier_arrivals_are_taken_first()
    ensures queues { (plan : PlanData) (number next round moment : ℕ) (moments later : List ℕ) (entity : ℕ) (of : Kind) → plan.order ≡ order.Arrival →
        AreLeftOf (rounds plan number moments (first_world plan)).arrivals
        (arrived_in entity of (rounds plan number moments (first_world plan)))
        (arrived_in entity of (at_snapshot plan round moment (rounds plan next later (rounds plan number moments (first_world plan))))) }
    ensures goals { (plan : PlanData) (number next round moment : ℕ) (moments later : List ℕ) (server : ℕ) → plan.order ≡ order.Arrival →
        All (HadItsNumber (rounds plan number moments (first_world plan)).arrivals (held_at server (rounds plan number moments (first_world plan))))
        (held_at server (at_snapshot plan round moment (rounds plan next later (rounds plan number moments (first_world plan))))) }
    ensures ready { (plan : PlanData) (number next round moment : ℕ) (moments later : List ℕ) → plan.order ≡ order.Arrival →
        HasEarlierFirst (rounds plan number moments (first_world plan)).arrivals moment
        (at_snapshot plan round moment (rounds plan next later (rounds plan number moments (first_world plan)))) }
{}

/// There is a lawful plan: that of a timer whose calls at 20 and 30 no round sees (`late` of `specs/Examples.antt`).
pub fn a_lawful_plan()
    ensures { IsLawfulPlan late }
{}
