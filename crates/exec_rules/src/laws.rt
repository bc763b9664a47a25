//! Laws of rounds that crates above use. The contract of each function says one law, and a call does nothing.
ghost use Rattle.std.specs.Prelude.{◌≡◌, ◌≢◌, ℕ, ◌+◌, ◌<◌, ◌≤◌, List, ◌++◌, length};
ghost use Rattle.std.specs.List.{All, AllByRecursion, filter, flat_map};
ghost use Rattle.std.specs.List.Sorted.{IsNonDecreasingBy};
ghost use Rattle.exec_plan.specs.Plan.{PlanData};
ghost use Rattle.exec_msg.specs.declared.kind.Kind.{Kind};
ghost use Rattle.exec_msg.specs.declared.kind.Kind.TheVariants as kind;
ghost use Rattle.exec_rules.specs.Calls.{IsHeldFor, after_finish, after_round, away, world_after};
ghost use Rattle.exec_rules.specs.Ready.{is_callback_of};
ghost use Rattle.exec_rules.specs.Ready.{arrival_for, due_ready, placed_from, poll_ready, queue_ready, ready_list};
ghost use Rattle.exec_rules.specs.Sorting.{sorted_by};
ghost use Rattle.exec_rules.specs.Run.{all_apart, all_home, apart, brought_home, commit, commit_all, effects_of, run};
ghost use Rattle.exec_plan.specs.declared.order.Order.TheVariants as order;
ghost use Rattle.exec_rules.specs.inner.ByKind.{IsListedByKind};
ghost use Rattle.exec_rules.specs.inner.Numbering.{IsNumbered};
ghost use Rattle.exec_rules.specs.Transcript.{at_snapshot, first_world, lines_of, rounds, run_all};
ghost use Rattle.exec_rules.specs.World.{WorldState, work_of};
ghost use Rattle.exec_rules.specs.declared.ready.Ready.{Ready};

use exec_task::GoalTask;

/// A callback may run apart from the world. Its effects are then listed, its variables and its goal's task are brought home,
/// and it is committed. The world is as if each effect had been given to it at its instruction.
pub fn callbacks_may_run_apart()
    ensures { (one : Ready) (world : WorldState) → run one world ≡ commit one (effects_of (apart one world)) (brought_home one (apart one world) world) }
{}

/// The callbacks of a round may all run apart from the world, one after another, and be committed in their order after the last
/// of them. If the goals that they poll are held, the world is as if each callback had run in it.
pub fn callbacks_may_be_committed_behind()
    ensures { (list : List Ready) (world : WorldState) → AllByRecursion (λ one. IsHeldFor one.entity one.cause world) list →
        run_all list world ≡ commit_all list (all_apart list world) (all_home list world) }
{}

/// No task does the work that stands in the place of a goal's work while its task is out.
pub fn no_task_is_away(task: &GoalTask)
    ensures { work_of task.now ≢ away }
{
    task.has_eight_registers();
}

/// The rounds of a plan follow one another: one more round, after the first ones, leaves the world that is after them all. The
/// world after all rounds of the plan, when it is closed, has the plan's lines.
pub fn rounds_follow_one_another()
    ensures next { (plan : PlanData) (count : ℕ) → count < length plan.moments
        → after_round (count + 1) (world_after count plan) ≡ world_after (count + 1) plan }
    ensures closed { (plan : PlanData) → (after_finish (world_after (length plan.moments) plan)).state.lines ≡ lines_of plan }
{}

/// In each ready list an entity has at most one callback of each kind but poll.
pub fn an_entity_has_one_callback_of_a_kind()
    ensures { (plan : PlanData) (number : ℕ) (moments : List ℕ) (next moment entity : ℕ) (of : Kind) → of ≢ kind.Poll →
        length (filter (is_callback_of entity of) (ready_list moment (at_snapshot plan next moment (rounds plan number moments (first_world plan))))) ≤ 1 }
{}

/// Under the order of kinds a ready list has four parts, one after another: the callbacks of timers, those that take from
/// queues of the kinds before polls, the polls, and those that take from the other queues.
pub fn the_order_of_kinds_goes_part_by_part()
    ensures { (plan : PlanData) (number : ℕ) (moments : List ℕ) (next moment : ℕ) → plan.order ≡ order.Kind →
        IsListedByKind moment (at_snapshot plan next moment (rounds plan number moments (first_world plan))) }
{}

/// Under the order of arrival a queue keeps a number for each of its items. Under the order of kinds it keeps none.
pub fn queues_have_a_number_for_each_item()
    ensures { (plan : PlanData) (number : ℕ) (moments : List ℕ) →
        All (IsNumbered plan.order) (rounds plan number moments (first_world plan)).queues }
{}

/// Under the order of arrival a ready list begins with the callbacks of the timers that are due, in the order of declaration.
/// All others that are ready follow, sorted by the numbers of their arrivals. A timer's number is 0, so the numbers of a ready
/// list never fall.
pub fn ready_callbacks_come_by_arrival()
    ensures parts { (moment : ℕ) (world : WorldState) → world.order ≡ order.Arrival → ready_list moment world
        ≡ placed_from 1 (flat_map (due_ready moment) world.timers
        ++ sorted_by (λ one. arrival_for one.entity one.cause world)
        (flat_map (queue_ready moment world) world.queues ++ flat_map (poll_ready moment) world.servers)) }
    ensures numbers { (moment : ℕ) (world : WorldState) → world.order ≡ order.Arrival →
        IsNonDecreasingBy (λ one. arrival_for one.entity one.cause world) (ready_list moment world) }
{}
