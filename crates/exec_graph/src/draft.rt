pub(crate) mod assemble;
pub(crate) mod builder;
pub(crate) mod directory;
pub(crate) mod faults;
pub(crate) mod groups;
pub(crate) mod limits;
pub(crate) mod named;
pub(crate) mod naming;
pub(crate) mod numbers;
pub(crate) mod resolve;
pub(crate) mod scope;
pub(crate) mod texts;

use crate::spelled::Spelled;
use exec_msg::Elements;
use exec_plan::EntityOf;
use exec_script::WordText;

/// A named callback group, as its node declares it.
#[derive(Debug, Drop)]
pub struct GroupDraft {
    /// Its name.
    pub name: WordText,
    /// Whether it is mutually exclusive. Otherwise it is reentrant.
    pub exclusive: bool,
}

/// What an entity is said to be. It refers to others by their names, in any node, and its scripts are spelled.
pub type Drafted = EntityOf<WordText, Spelled>;

/// An entity, as its node declares it.
#[derive(Debug, Drop)]
pub struct EntityDraft {
    /// Its name.
    pub name: WordText,
    /// The name of its callback group, which is of the same node. `None` is the node's default group.
    pub group: Option<WordText>,
    /// What it is.
    pub is: Drafted,
}

/// A node with all that it declares.
#[derive(Debug, Drop)]
pub struct NodeDraft {
    /// Its name.
    pub name: WordText,
    /// Its named callback groups.
    pub groups: Elements<GroupDraft>,
    /// Its entities of all kinds. Those of one kind are numbered in this order.
    pub entities: Elements<EntityDraft>,
}

/// What a graph declares.
#[derive(Debug, Drop)]
pub struct GraphDraft {
    /// The names of its topics, in the order of their numbers.
    pub topics: Elements<WordText>,
    /// Its nodes, in the order of their numbers.
    pub nodes: Elements<NodeDraft>,
}
