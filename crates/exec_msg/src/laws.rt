//! Laws of the definitions that the crate's contracts cite, for all values that they speak of.
ghost use Rattle.std.specs.Prelude.{◌≡◌, ℕ, ◌+◌, ◌-◌, ◌<◌, ◌≤◌, ◌^◌, List, [], ◌∷◌, ◌++◌, length, drop};
ghost use Rattle.std.specs.List.{fold};
ghost use Rattle.std.specs.Ordering.{nat_cmp};
ghost use Rattle.exec_msg.specs.Goal.{status_number, code_number, decision_number, cancel_decision_number};
ghost use Rattle.exec_msg.specs.declared.goal.CancelDecision.{CancelDecision};
ghost use Rattle.exec_msg.specs.declared.goal.Decision.{Decision};
ghost use Rattle.exec_msg.specs.declared.goal.GoalStatus.{GoalStatus};
ghost use Rattle.exec_msg.specs.declared.goal.ReturnCode.{ReturnCode};
ghost use Rattle.exec_msg.specs.Kind.{ready_number};
ghost use Rattle.exec_msg.specs.KeepLast.{sent, displaced, after_taking};
ghost use Rattle.exec_msg.specs.Timer.{TimerState, next_call, IsNextCall};
ghost use Rattle.exec_msg.specs.declared.limits.TheConstants.{DOCUMENT, NODES, NAMED_GROUPS, TOPICS, ENTITIES, INSTRUCTIONS, GOALS, DEPTH, DEFAULT_DEPTH, MOMENTS, FEED, NAME_LENGTH, TICKS};

use crate::kind::Kind;

/// Kinds compare as their numbers do in the order of ready callbacks.
pub fn kinds_are_in_ready_order()
    ensures { (first second : Kind) → ⟦<Kind as Ord>⟧.cmp first second ≡ nat_cmp (ready_number first) (ready_number second) }
{}

/// No two statuses have one number.
pub fn status_numbers_differ()
    ensures { (first second : GoalStatus) → status_number first ≡ status_number second → first ≡ second }
{}

/// No two return codes have one number.
pub fn code_numbers_differ()
    ensures { (first second : ReturnCode) → code_number first ≡ code_number second → first ≡ second }
{}

/// No two decisions of a goal handler have one number.
pub fn decision_numbers_differ()
    ensures { (first second : Decision) → decision_number first ≡ decision_number second → first ≡ second }
{}

/// No two decisions of a cancel handler have one number.
pub fn cancel_decision_numbers_differ()
    ensures { (first second : CancelDecision) → cancel_decision_number first ≡ cancel_decision_number second → first ≡ second }
{}

/// A keep-last queue holds no more than its depth after an item was sent to it, whatever it held before.
pub fn queue_within_depth<Item>()
    ensures { (depth : ℕ) (item : Item) (items : List Item) → length (sent depth item items) ≤ depth }
{}

/// A history of items is sent to a keep-last queue, one after another. The queue then holds the last items of the history, as
/// many as its depth.
pub fn queue_holds_the_last<Item>()
    ensures { (depth : ℕ) (history : List Item) → fold (λ items item. sent depth item items) [] history ≡ drop (length history - depth) history }
{}

/// A keep-last queue of depth at least 1 holds the item that was sent to it, as its last one.
pub fn queue_holds_the_new_item<Item>()
    ensures { (depth : ℕ) (item : Item) (items : List Item) → 1 ≤ depth → sent depth item items ≡ drop (length items + 1 - depth) items ++ item ∷ [] }
{}

/// What a keep-last queue loses by a send, and then what it holds, are what it held and then the new item, in their order.
pub fn queue_loses_the_first<Item>()
    ensures { (depth : ℕ) (item : Item) (items : List Item) → displaced depth item items ++ sent depth item items ≡ items ++ item ∷ [] }
{}

/// A keep-last queue that holds no more than its depth loses at most one item by a send.
pub fn queue_loses_at_most_one<Item>()
    ensures { (depth : ℕ) (item : Item) (items : List Item) → length items ≤ depth → length (displaced depth item items) ≤ 1 }
{}

/// A keep-last queue that holds less than its depth loses nothing by a send.
pub fn queue_with_room_loses_nothing<Item>()
    ensures { (depth : ℕ) (item : Item) (items : List Item) → length items < depth → displaced depth item items ≡ [] }
{}

/// A full keep-last queue of depth at least 1 loses its oldest item by a send.
pub fn full_queue_loses_its_oldest<Item>()
    ensures { (depth : ℕ) (item oldest : Item) (items : List Item) → depth ≡ length items + 1 → displaced depth item (oldest ∷ items) ≡ oldest ∷ [] }
{}

/// A queue of depth 2 is sent 1, 2 and 3. It loses nothing, nothing and then 1, and holds 2 and 3. After an item was taken, 3
/// is left.
pub fn queue_of_depth_2()
    ensures first { displaced {A = ℕ} 2 1 [] ≡ [] }
    ensures second { displaced {A = ℕ} 2 2 (sent {A = ℕ} 2 1 []) ≡ [] }
    ensures third { displaced {A = ℕ} 2 3 (sent {A = ℕ} 2 2 (sent {A = ℕ} 2 1 [])) ≡ 1 ∷ [] }
    ensures held { sent {A = ℕ} 2 3 (sent {A = ℕ} 2 2 (sent {A = ℕ} 2 1 [])) ≡ 2 ∷ 3 ∷ [] }
    ensures left { after_taking {A = ℕ} (sent {A = ℕ} 2 3 (sent {A = ℕ} 2 2 (sent {A = ℕ} 2 1 []))) ≡ 3 ∷ [] }
{}

/// A timer's next call is whole periods after its old time, and at or after now. There is no earlier such time.
pub fn next_call_is_the_least()
    ensures { (timer : TimerState) (now : ℕ) → 1 ≤ timer.period → IsNextCall timer now (next_call timer now) }
{}

/// A timer's next call is after its old time.
pub fn next_call_is_later()
    ensures { (timer : TimerState) (now : ℕ) → 1 ≤ timer.period → timer.next < next_call timer now }
{}

/// The numbers of the limits in `limits`.
pub fn limits_are_these_numbers()
    ensures document { DOCUMENT ≡ 2 ^ 24 }
    ensures nodes { NODES ≡ 64 }
    ensures named_groups { NAMED_GROUPS ≡ 256 }
    ensures topics { TOPICS ≡ 256 }
    ensures entities { ENTITIES ≡ 512 }
    ensures instructions { INSTRUCTIONS ≡ 256 }
    ensures goals { GOALS ≡ 1024 }
    ensures depth { DEPTH ≡ 1024 }
    ensures default_depth { DEFAULT_DEPTH ≡ 10 }
    ensures moments { MOMENTS ≡ 65536 }
    ensures feed { FEED ≡ 65536 }
    ensures name_length { NAME_LENGTH ≡ 64 }
    ensures ticks { TICKS ≡ 2 ^ 62 }
{}
