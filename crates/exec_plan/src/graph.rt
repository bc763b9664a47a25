use crate::entity::{CallbackGroup, Declared, EntityKind, GroupNo};
use crate::script::Script;
use exec_msg::{EntityNo, Kind, Names};
use indexmap::IndexMap;
use std::marker::Model;

/// A lawful graph: its nodes, their callback groups, and its topics and entities, each at its number. Every name is
/// resolved, each entity has one callback group, each script is allowed in its place, and all limits hold.
#[derive(Drop)]
pub struct Graph {
    nodes: Names,
    groups: Vec<CallbackGroup>,
    // Each at its number.
    entities: IndexMap<String, Declared>,
    // The keys once more, for those who write lines.
    names: Names,
}

impl Model for Graph {
    ghost use Rattle.std.specs.Prelude.{◌≡◌};
    ghost use Rattle.exec_plan.specs.inner.Entries.{entities_in};
    ghost use Rattle.exec_plan.specs.Graph.{GraphData, names_of};
    ghost use Rattle.exec_plan.specs.Lawful.{IsLawful};

    ghost Value = { GraphData };

    ghost view = { λ graph. record { nodes = graph.nodes; groups = graph.groups.items; entities = entities_in graph.entities.entries } };

    ghost invariant = { λ graph.
        IsLawful (record { nodes = graph.nodes; groups = graph.groups.items; entities = entities_in graph.entities.entries })
        × (graph.names ≡ names_of (record { nodes = graph.nodes; groups = graph.groups.items; entities = entities_in graph.entities.entries })) };
}

impl Graph {
    ghost use Rattle.std.specs.Prelude.{◌≡◌, ◌<◌, ◌≤◌, [], length, not, IsTrue, Some};
    ghost use Rattle.std.specs.Option.{option_copied, unwrap_or};
    ghost use Rattle.exec_plan.specs.Graph.{names_of, declared_at, group_of, is_exclusive, is_topic, script_at, topic_at, server_at};
    ghost use Rattle.exec_plan.specs.Lawful.{IsLawful, is_at};
    ghost use Rattle.exec_plan.specs.inner.Entries.{entities_in};

    /// The graph of its nodes, callback groups, topics and entities, each at its number. `names` are the keys of `entities`
    /// once more. It takes no memory.
    pub fn from_parts(
        nodes: Names,
        groups: Vec<CallbackGroup>,
        entities: IndexMap<String, Declared>,
        names: Names,
    ) -> Graph
        requires lawful { IsLawful (record { nodes = nodes; groups = groups.items; entities = entities_in entities.entries }) }
        requires names { names ≡ names_of (record { nodes = nodes; groups = groups.items; entities = entities_in entities.entries }) }
        ensures { result ≡ record { nodes = nodes; groups = groups.items; entities = entities_in entities.entries } }
    {
        Graph {
            nodes,
            groups,
            entities,
            names,
        }
    }

    /// The names of the nodes, at their numbers.
    pub fn nodes(&self) -> &Names
        ensures { result.now ≡ self.now.nodes }
    {
        &self.nodes
    }

    /// The names of topics and entities, at their numbers.
    pub fn names(&self) -> &Names
        ensures { result.now ≡ names_of self.now }
    {
        &self.names
    }

    /// How many topics and entities there are, at most 768.
    pub fn len(&self) -> usize
        ensures count { result ≡ length self.now.entities }
        ensures bound { result ≤ 768 }
        ensures lawful { IsLawful self.now }
    {
        self.entities.len()
    }

    /// What is declared at a number.
    pub fn declaration(&self, no: EntityNo) -> &Declared
        requires { no < length self.now.entities }
        ensures { result.now ≡ declared_at self.now no }
    {
        &self.entities[no.0 as usize]
    }

    /// The callback groups at their numbers: node by node, each node's default group first and then its named groups.
    pub fn groups(&self) -> &[CallbackGroup]
        ensures { result.now ≡ self.now.groups }
    {
        self.groups.as_slice()
    }

    /// The callback group of an entity.
    pub fn group_of(&self, no: EntityNo) -> GroupNo
        requires { IsTrue (is_at (λ declared. not (is_topic declared)) self.now no) }
        ensures group { group_of (declared_at self.now no) ≡ Some result }
        ensures bound { result < length self.now.groups }
    {
        // This makes the type's invariant known here.
        let _ = &self.nodes;
        self.declaration(no).entity().unwrap().group
    }

    /// The script of an entity's callbacks of a kind. There is none if the entity has no such callbacks, or if their script is
    /// empty because nothing says what they do.
    #[inline(always)]
    pub fn script(&self, no: EntityNo, kind: Kind) -> Option<&Script>
        ensures { unwrap_or (option_copied result) [] ≡ script_at self.now no kind }
    {
        if no.0 as usize >= self.len() {
            return None;
        }
        self.declaration(no).script(kind)
    }

    /// Whether a callback group is mutually exclusive. A reentrant group isn't, and neither is a group that the graph
    /// doesn't have.
    pub fn is_exclusive(&self, group: GroupNo) -> bool
        ensures { result ≡ is_exclusive self.now group }
    {
        match self.groups.get(group.0 as usize) {
            Some(found) => found.exclusive,
            None => false,
        }
    }

    /// The topic of a name, if there is one.
    pub fn topic_at(&self, name: &str) -> Option<EntityNo>
        ensures { result ≡ topic_at self.now name.now }
    {
        let (place, _, declared) = self.entities.get_full(name)?;
        if declared.is_topic() {
            Some(EntityNo(place as u16))
        } else {
            None
        }
    }

    /// The action server of a name, if there is one.
    pub fn server_at(&self, name: &str) -> Option<EntityNo>
        ensures { result ≡ server_at self.now name.now }
    {
        let (place, _, declared) = self.entities.get_full(name)?;
        if declared.is_a(EntityKind::Server) {
            Some(EntityNo(place as u16))
        } else {
            None
        }
    }
}
