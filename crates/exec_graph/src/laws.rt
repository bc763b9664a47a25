//! Laws of drafts. The contract of each function says one law, and its body is empty.
ghost use Rattle.std.specs.Prelude.{◌≡◌, ℕ, List, true, None, Some, is_some, IsTrue};
ghost use Rattle.exec_graph.specs.declared.draft.GraphDraft.{GraphDraft};
ghost use Rattle.exec_plan.specs.Graph.{GraphData, is_topic, is_server, topic_at, server_at};
ghost use Rattle.exec_plan.specs.Lawful.{IsLawful, is_at};
ghost use Rattle.exec_graph.specs.Numbers.{topic_named, server_named};
ghost use Rattle.exec_graph.specs.Refusals.{fault_in};
ghost use Rattle.exec_graph.specs.Resolved.{resolved_graph};

/// A draft without a fault has a graph, and the graph is lawful.
pub fn drafts_without_faults_have_lawful_graphs()
    ensures graph { (draft : GraphDraft) → fault_in draft ≡ None → is_some (resolved_graph draft) ≡ true }
    ensures lawful { (draft : GraphDraft) (graph : GraphData) → fault_in draft ≡ None → resolved_graph draft ≡ Some graph → IsLawful graph }
{}

/// What a draft's names find is at its number in the graph.
pub fn names_find_what_they_are_declared_as()
    ensures topic { (draft : GraphDraft) (graph : GraphData) (name : List ℕ) (number : ℕ) → resolved_graph draft ≡ Some graph →
        topic_named draft name ≡ Some number →
        IsTrue (is_at is_topic graph number) }
    ensures server { (draft : GraphDraft) (graph : GraphData) (name : List ℕ) (number : ℕ) → resolved_graph draft ≡ Some graph →
        server_named draft name ≡ Some number →
        IsTrue (is_at is_server graph number) }
{}

/// A graph finds the topics and servers of its draft at the numbers of their names.
pub fn graphs_find_what_their_drafts_name()
    ensures topic { (draft : GraphDraft) (graph : GraphData) (name : List ℕ) → resolved_graph draft ≡ Some graph →
        topic_at graph name ≡ topic_named draft name }
    ensures server { (draft : GraphDraft) (graph : GraphData) (name : List ℕ) → resolved_graph draft ≡ Some graph →
        server_at graph name ≡ server_named draft name }
{}
