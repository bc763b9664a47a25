ghost use Rattle.std.specs.Prelude.{◌≡◌, ◌&&◌, is_some};
ghost use Rattle.exec_graph.specs.Numbers.{topic_named, server_named};
ghost use Rattle.std.specs.List.{list_any};
ghost use Rattle.std.specs.Str.{bytes_eq};
ghost use Rattle.exec_plan.specs.Entity.{is_of};
ghost use Rattle.exec_plan.specs.declared.entity.EntityKind.TheVariants as kind;

use crate::draft::assemble::named_graph_of;
use crate::draft::named::NamedGraph;
use crate::draft::{GraphDraft, NodeDraft};
use crate::fault::GraphFault;
use exec_msg::{Elements, Memory};
use exec_plan::{EntityKind, Graph};
use exec_script::WordText;
use std::alloc::Global;
use std::marker::Model;

/// A graph as it is declared, piece by piece.
#[derive(Drop)]
pub struct GraphBuilder {
    alloc: Global,
    draft: GraphDraft,
}

impl Model for GraphBuilder {
    ghost use Rattle.exec_graph.specs.declared.draft.GraphDraft.{GraphDraft};

    ghost Value = { GraphDraft };

    ghost view = { λ builder. builder.draft };
}

impl GraphBuilder {
    ghost use Rattle.std.specs.Prelude.{◌≡◌, ◌⊎◌, [], ◌∷◌, ◌++◌, true, false, None, Some, is_some, string_bytes, OnOk, OnErr, IfOk, IfErr};
    ghost use Rattle.exec_graph.specs.Faults.{is_well_named};
    ghost use Rattle.exec_graph.specs.Numbers.{topic_named, server_named};
    ghost use Rattle.exec_graph.specs.Refusals.{fault_in};
    ghost use Rattle.exec_graph.specs.Resolved.{resolved_graph};

    /// A graph in which nothing is declared yet. It takes no memory.
    pub fn new(alloc: Global) -> GraphBuilder
        ensures { result ≡ record { topics = []; nodes = [] } }
    {
        GraphBuilder {
            alloc,
            draft: GraphDraft {
                topics: Elements::new(alloc),
                nodes: Elements::new(alloc),
            },
        }
    }

    /// Declares a topic.
    ///
    /// # Errors
    /// [`Memory`] if a growth was refused. Nothing changes then.
    pub fn topic(&mut self, name: String) -> Result<(), Memory>
        ensures ok { OnOk result (self.new ≡ record self.old { topics = self.old.topics ++ string_bytes name ∷ [] }) }
        ensures unchanged { OnErr result (self.new ≡ self.old) }
    {
        self.draft.topics.push(WordText::of(name))?;
        Ok(())
    }

    /// Declares a node with all that belongs to it.
    ///
    /// # Errors
    /// [`Memory`] if a growth was refused. Nothing changes then.
    pub fn node(&mut self, node: NodeDraft) -> Result<(), Memory>
        ensures ok { OnOk result (self.new ≡ record self.old { nodes = self.old.nodes ++ node ∷ [] }) }
        ensures unchanged { OnErr result (self.new ≡ self.old) }
    {
        self.draft.nodes.push(node)?;
        Ok(())
    }

    /// Whether a topic of this name is declared. It looks at all topics: [`NamedGraph`] finds one among many.
    pub fn topic_named(&self, name: &str) -> bool
        ensures { result ≡ is_some (topic_named self.now name.now) }
    {
        has_topic(&self.draft, name)
    }

    /// Whether an action of this name, that is its server, is declared in any node. It looks at all entities: [`NamedGraph`]
    /// finds one among many.
    pub fn action_named(&self, name: &str) -> bool
        ensures { result ≡ is_some (server_named self.now name.now) }
    {
        has_action(&self.draft, name)
    }

    /// What is declared, if all of it is well named.
    ///
    /// # Errors
    /// [`GraphFault::Name`] if it isn't, or [`GraphFault::Memory`] if a growth was refused.
    pub fn named_graph(&self) -> Result<NamedGraph<'_>, GraphFault>
        ensures named { IfOk result (λ named. (named ≡ self.now) × (is_well_named self.now ≡ true)) }
        ensures fault { IfErr result (λ fault. (fault ≡ GraphFault.Memory) ⊎ ((fault ≡ GraphFault.Name) × (is_well_named self.now ≡ false))) }
    {
        named_graph_of(self.alloc, &self.draft)?.ok_or(GraphFault::Name)
    }

    /// The graph of what was declared. If there is a fault, the builder is dropped.
    ///
    /// # Errors
    /// The least fault of what was declared, or [`GraphFault::Memory`] if a growth was refused.
    pub fn finish(self) -> Result<Graph, GraphFault>
        ensures graph { IfOk result (λ graph. (fault_in self ≡ None) × (resolved_graph self ≡ Some graph)) }
        ensures fault { IfErr result (λ fault. (fault ≡ GraphFault.Memory) ⊎ (fault_in self ≡ Some fault)) }
    {
        let named = self.named_graph()?;
        named.graph()
    }
}

fn has_topic(draft: &GraphDraft, name: &str) -> bool
    ensures { result ≡ is_some (topic_named draft.now name.now) }
{
    is_among(draft.topics.as_slice(), name)
}

fn is_among(texts: &[WordText], name: &str) -> bool
    ensures { result ≡ list_any (λ text. bytes_eq text name.now) texts.now }
{
    texts.iter().any(|text| text.as_str() == name)
}

fn has_action(draft: &GraphDraft, name: &str) -> bool
    ensures { result ≡ is_some (server_named draft.now name.now) }
{
    have_server(draft.nodes.as_slice(), name)
}

fn have_server(nodes: &[NodeDraft], name: &str) -> bool
    ensures { result ≡ list_any (λ node. list_any (λ entity. is_of kind.Server entity.is && bytes_eq entity.name name.now) node.entities) nodes.now }
{
    nodes.iter().any(|node| has_server(node, name))
}

fn has_server(node: &NodeDraft, name: &str) -> bool
    ensures { result ≡ list_any (λ entity. is_of kind.Server entity.is && bytes_eq entity.name name.now) node.now.entities }
{
    let entities = node.entities.as_slice();
    entities.iter().any(|entity| entity.is.is_of(EntityKind::Server)
        && entity.name.as_str() == name)
}
