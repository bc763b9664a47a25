//! Laws of graphs and plans. The contract of each function says one law. Its body is empty, or calls the law that it needs.
ghost use Rattle.std.specs.Prelude.{◌≡◌, ℕ, ◌-◌, ◌<◌, ◌≤◌, ◌==◌, ℤ, List, [], ◌∷◌, length, slice_get, Bool, true, false, cond, Option, None, Some, IsTrue};
ghost use Rattle.std.specs.List.{filter, list_all};
ghost use Rattle.std.specs.Ordering.{nat_cmp};
ghost use Rattle.exec_plan.specs.declared.entity.EntityKind.{EntityKind};
ghost use Rattle.exec_plan.specs.Feeding.{goes_somewhere, has_128_bits};
ghost use Rattle.exec_msg.specs.Kind.{ready_number};
ghost use Rattle.exec_msg.specs.declared.kind.Kind.{Kind};
ghost use Rattle.exec_plan.specs.Graph.{GraphData, declared_at, kinds, entities_where, is_topic, is_server, topic_at, server_at};
ghost use Rattle.exec_plan.specs.declared.entity.CallbackGroup.{CallbackGroup};
ghost use Rattle.exec_plan.specs.declared.entity.Declared.{Declared};
ghost use Rattle.exec_plan.specs.Entity.{RoleScriptData, entity_kinds, rank_of};
ghost use Rattle.exec_plan.specs.Lawful.{IsLawful, IsLawfulPlan, IsLawfulScript, is_at};
ghost use Rattle.exec_plan.specs.Schedule.{plan_fault_in};
ghost use Rattle.exec_plan.specs.Plan.{Feed};
ghost use Rattle.exec_plan.specs.declared.order.Order.{Order};
ghost use Rattle.exec_script.specs.Script.{CallInput, resumed};
ghost use Rattle.exec_script.specs.declared.effects.Effect.{Effect};
ghost use Rattle.exec_script.specs.declared.instr.Instr.{Instr};

use crate::{EntityKind, Graph, Plan, Script};

/// The order of kinds is that in which their entities are numbered.
pub fn kinds_are_in_the_order_of_numbers()
    ensures { (one other : EntityKind) → ⟦<EntityKind as Ord>⟧.cmp one other ≡ nat_cmp (rank_of one) (rank_of other) }
{}

/// The list of all kinds has each once, at its place in that order.
pub fn kinds_are_listed_once()
    ensures once { (kind : EntityKind) → filter (λ other. rank_of other == rank_of kind) entity_kinds ≡ kind ∷ [] }
    ensures place { (kind : EntityKind) → slice_get entity_kinds (rank_of kind - 1) ≡ Some kind }
{}

/// The list of all kinds of callbacks has each once, at its place in the order in which ready callbacks run.
pub fn kinds_of_callbacks_are_listed_once()
    ensures once { (kind : Kind) → filter (λ other. ready_number other == ready_number kind) kinds ≡ kind ∷ [] }
    ensures place { (kind : Kind) → slice_get kinds (ready_number kind - 1) ≡ Some kind }
{}

/// Each entity of a graph that passes a test is listed once, and nothing else is listed.
pub fn entities_are_listed_once()
    ensures inside { (graph : GraphData) (test : Declared → Bool) (number : ℕ) → number < length graph.entities →
        length (filter (λ other. other == number) (entities_where test graph)) ≡ cond (test (declared_at graph number)) 1 0 }
    ensures beyond { (graph : GraphData) (test : Declared → Bool) (number : ℕ) → length graph.entities ≤ number →
        length (filter (λ other. other == number) (entities_where test graph)) ≡ 0 }
{}

/// A lawful script of a reentrant callback group doesn't change the variables that it was given, wherever its effects go.
pub fn reentrant_groups_share_nothing<S>()
    ensures { (graph : GraphData) (group : CallbackGroup) (roled : RoleScriptData (List Instr)) → IsLawfulScript graph group roled → group.exclusive ≡ false →
        (give : Effect → S → S) (place : ℕ) (registers variables : List ℤ) (answer : Option ℤ) (input : CallInput) (given : S) →
        (resumed give roled.script place registers variables answer input given).variables ≡ variables }
{
    exec_script::laws::reentrant_scripts_share_nothing::<S>();
}

/// What a graph finds by name is at its number.
pub fn what_is_found_stands_at_its_number()
    ensures topic { (graph : GraphData) (name : List ℕ) (number : ℕ) → topic_at graph name ≡ Some number →
        IsTrue (is_at is_topic graph number) }
    ensures server { (graph : GraphData) (name : List ℕ) (number : ℕ) → server_at graph name ≡ Some number →
        IsTrue (is_at is_server graph number) }
{}

/// A lawful graph, moments and a feed without a fault are a lawful plan. What is fed must go to topics and servers of the
/// graph, and identifiers must have 128 bits.
pub fn plans_without_faults_are_lawful()
    ensures { (graph : GraphData) (order : Order) (moments : List ℕ) (feed : List Feed) → IsLawful graph
        → list_all (λ entry. goes_somewhere graph entry.fed) feed ≡ true → list_all (λ entry. has_128_bits entry.fed) feed ≡ true
        → plan_fault_in moments feed ≡ None → IsLawfulPlan (record { graph = graph; order = order; moments = moments; feed = feed }) }
{}

/// A plan may be moved into another thread and shared with it, and so may its graph and a script.
pub fn plans_cross_threads() {
    crosses_threads::<Plan>();
    crosses_threads::<Graph>();
    crosses_threads::<Script>();
}

fn crosses_threads<T: Send + Sync>() {}
