//! The names that the scripts of a node may use.
ghost use Rattle.std.specs.Prelude.{◌≡◌, ◌&&◌, ◌==◌, ◌≤◌, length};
ghost use Rattle.exec_graph.specs.inner.Directory.{entity_number};
ghost use Rattle.exec_plan.specs.Entity.{is_of};

use crate::draft::directory::Directory;
use exec_msg::EntityNo;
use exec_plan::EntityKind;
use exec_script::Scope;
use std::marker::Model;

// The names that the scripts of a node may use. Every number fits an `EntityNo`.
#[derive(Drop)]
pub(crate) struct NodeScope<'d, 'a> {
    directory: &'d Directory<'a>,
    node: usize,
}

impl<'d, 'a> Model for NodeScope<'d, 'a> {
    ghost use Rattle.std.specs.Prelude.{◌≤◌, length};
    ghost use Rattle.exec_graph.specs.inner.Directory.{NodeData};

    ghost Value = { NodeData };

    ghost view = { λ scope. record { directory = scope.directory.now; node = scope.node } };

    ghost invariant = { λ scope. length scope.directory.now.names ≤ 65536 };
}

impl<'d, 'a> NodeScope<'d, 'a> {
    // The scope of a node's scripts.
    pub(crate) fn of(directory: &'d Directory<'a>, node: usize) -> NodeScope<'d, 'a>
        requires { length directory.now.names ≤ 65536 }
        ensures { result ≡ record { directory = directory.now; node = node } }
    {
        NodeScope { directory, node }
    }

    fn entity(&self, kind: EntityKind, name: &str) -> Option<EntityNo>
        ensures { result ≡ entity_number self.now.directory (λ placed. is_of kind placed.entity.is && (placed.node == self.now.node)) name.now }
    {
        let number = self.directory.entity_of_node(self.node, kind, name)?;
        Some(EntityNo(number as u16))
    }
}

impl<'d, 'a> Scope for NodeScope<'d, 'a> {
    ghost use Rattle.exec_graph.specs.inner.Directory.{scope_in};

    ghost names = { λ scope. scope_in scope.directory scope.node };

    fn topic(&self, name: &str) -> Option<EntityNo> {
        let number = self.directory.topic(name)?;
        Some(EntityNo(number as u16))
    }

    fn client(&self, name: &str) -> Option<EntityNo> {
        self.entity(EntityKind::Client, name)
    }

    fn action_client(&self, name: &str) -> Option<EntityNo> {
        self.entity(EntityKind::ActionClient, name)
    }

    fn server(&self, name: &str) -> Option<EntityNo> {
        self.entity(EntityKind::Server, name)
    }
}
