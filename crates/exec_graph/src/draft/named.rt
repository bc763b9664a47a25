use crate::draft::GraphDraft;
use crate::draft::assemble::graph_of;
use crate::draft::directory::Directory;
use crate::draft::numbers::LinkedEntity;
use crate::fault::GraphFault;
use exec_plan::{EntityKind, Graph, Referent};
use std::alloc::Global;
use std::marker::Model;

/// What a builder declares, if all of it is well named. Each part is found by its name.
#[derive(Drop)]
pub struct NamedGraph<'a> {
    pub(crate) alloc: Global,
    pub(crate) draft: &'a GraphDraft,
    pub(crate) directory: Directory<'a>,
    // The directory's entities, each with the numbers of what it names.
    pub(crate) linked: Vec<LinkedEntity<'a>>,
}

impl<'a> Model for NamedGraph<'a> {
    ghost use Rattle.std.specs.Bool.{then_some};
    ghost use Rattle.std.specs.Prelude.{◌≡◌, Some};
    ghost use Rattle.exec_graph.specs.inner.Directory.{directory_of, linked_in};
    ghost use Rattle.exec_graph.specs.declared.draft.GraphDraft.{GraphDraft};
    ghost use Rattle.exec_graph.specs.Faults.{is_well_named};
    ghost use Rattle.exec_msg.specs.Options.{each};

    ghost Value = { GraphDraft };

    ghost view = { λ named. named.draft.now };

    ghost invariant = { λ named.
        (Some named.directory ≡ then_some (is_well_named named.draft.now) (directory_of named.draft.now))
        × (each (linked_in named.directory) named.directory.entities ≡ Some named.linked.items) };
}

impl<'a> NamedGraph<'a> {
    ghost use Rattle.std.specs.Prelude.{◌≡◌, ◌⊎◌, None, Some, is_some, IfOk, IfErr};
    ghost use Rattle.exec_graph.specs.Numbers.{topic_named, server_named};
    ghost use Rattle.exec_graph.specs.Refusals.{fault_in};
    ghost use Rattle.exec_graph.specs.Resolved.{resolved_graph};

    /// Whether a topic of this name is declared.
    pub fn topic_named(&self, name: &str) -> bool
        ensures { result ≡ is_some (topic_named self.now name.now) }
    {
        self.directory.number(Referent::Topic, name).is_some()
    }

    /// Whether an action of this name, that is its server, is declared in any node.
    pub fn action_named(&self, name: &str) -> bool
        ensures { result ≡ is_some (server_named self.now name.now) }
    {
        self.directory
            .number(Referent::Entity(EntityKind::Server), name)
            .is_some()
    }

    /// The graph of what is declared.
    ///
    /// # Errors
    /// The least fault of what is declared, or [`GraphFault::Memory`] if a growth was refused. It is no fault of names, because
    /// all are right.
    pub fn graph(&self) -> Result<Graph, GraphFault>
        ensures graph { IfOk result (λ graph. (fault_in self.now ≡ None) × (resolved_graph self.now ≡ Some graph)) }
        ensures fault { IfErr result (λ fault. (fault ≡ GraphFault.Memory) ⊎ (fault_in self.now ≡ Some fault)) }
    {
        graph_of(self.alloc, self.draft, &self.directory, &self.linked)
    }
}
