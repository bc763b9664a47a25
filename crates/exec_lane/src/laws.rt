//! Laws of lanes. The contract of each function says one law. Its body is empty, or calls the law that it needs.
ghost use Rattle.std.specs.Prelude.{◌≡◌, ◌≢◌, ◌≤◌, ℕ, List, [], ◌∷◌, length, map, slice_get, Some, Bool, not, IsPermutation};
ghost use Rattle.std.specs.List.{filter, flat_map, list_any};
ghost use Rattle.exec_plan.specs.Plan.{PlanData};
ghost use Rattle.exec_lane.specs.Gather.{all_ran, outcomes_in, ran_in};
ghost use Rattle.exec_lane.specs.Lane.{AreFinished, Lane, as_lane, has_exclusive, is_of_exclusive, lanes_home, lanes_of, opened_lanes, tasks_out};
ghost use Rattle.exec_lane.specs.declared.outcome.Outcome.{Outcome};
ghost use Rattle.exec_msg.specs.declared.kind.Kind.{Kind};
ghost use Rattle.exec_msg.specs.declared.kind.Kind.TheVariants as kind;
ghost use Rattle.exec_rules.specs.Calls.{AreHome, HaveVariables};
ghost use Rattle.exec_rules.specs.Ready.{is_callback_of};
ghost use Rattle.exec_rules.specs.Ready.{ready_list};
ghost use Rattle.exec_rules.specs.Run.{all_apart, all_home};
ghost use Rattle.exec_rules.specs.Transcript.{at_snapshot, first_world, rounds};
ghost use Rattle.exec_rules.specs.World.{WorldState};
ghost use Rattle.exec_rules.specs.declared.ready.Ready.{Ready};

/// Every ready callback is in exactly one lane: all lanes together have as many callbacks that pass a test as the ready list
/// has, for any test.
pub fn each_callback_stands_in_one_lane()
    ensures { (list : List Ready) (test : Ready → Bool) →
        length (filter test (flat_map (λ lane. lane) (lanes_of list))) ≡ length (filter test list) }
{}

/// The ready callbacks of a mutually exclusive group are one lane, in ready order.
pub fn an_exclusive_group_has_one_lane()
    ensures { (list : List Ready) (group : ℕ) →
        filter (has_exclusive group) (lanes_of list) ≡ as_lane (filter (is_of_exclusive group) list) }
{}

/// Each ready callback of a reentrant group is a lane by itself, in ready order.
pub fn a_reentrant_callback_is_a_lane()
    ensures { (list : List Ready) →
        filter (λ lane. list_any (λ one. not one.exclusive) lane) (lanes_of list) ≡ map (λ one. one ∷ []) (filter (λ one. not one.exclusive) list) }
{}

/// In all lanes of a round together an entity has at most one callback of each kind but poll. So no two workers take from one
/// queue.
pub fn lanes_share_no_queue()
    ensures { (plan : PlanData) (number : ℕ) (moments : List ℕ) (next moment entity : ℕ) (of : Kind) → of ≢ kind.Poll →
        length (filter (is_callback_of entity of) (flat_map (λ lane. lane)
        (lanes_of (ready_list moment (at_snapshot plan next moment (rounds plan number moments (first_world plan))))))) ≤ 1 }
{
    exec_rules::laws::an_entity_has_one_callback_of_a_kind();
}

/// What a callback of a lane did doesn't change, however many callbacks of the lane run after it. Each callback that ran did
/// something.
pub fn outcomes_stay_as_a_lane_goes_on()
    ensures stay { (lane : Lane) (count index : ℕ) (outcome : Outcome) → lane.done ≤ count → slice_get (outcomes_in lane) index ≡ Some outcome →
        slice_get (outcomes_in (record lane { done = count })) index ≡ Some outcome }
    ensures each { (lane : Lane) → lane.done ≤ length lane.entries → length (outcomes_in lane) ≡ lane.done }
{}

/// Lanes that ran, in any threads and in any order, come home as callbacks do that run one after another. What the callbacks
/// did is the same.
pub fn lanes_come_home_as_one_thread_leaves_them()
    ensures home { (list : List Ready) (world : WorldState) (lanes : List Lane) → AreHome list world → HaveVariables list world
        → AreFinished (opened_lanes list world) lanes →
        lanes_home lanes (tasks_out list world) ≡ all_home list world }
    ensures ran { (list : List Ready) (world : WorldState) (lanes : List Lane) → AreHome list world → HaveVariables list world
        → AreFinished (opened_lanes list world) lanes →
        IsPermutation (flat_map ran_in lanes) (all_ran list (all_apart list world)) }
{}
