//! What a graph answers, with the numbers that docs/document.md gives.
ghost use Rattle.std.specs.Prelude.{◌≡◌, ◌<◌, length, not};
ghost use Rattle.exec_plan.specs.Graph.{is_topic};
ghost use Rattle.exec_plan.specs.Lawful.{is_at};

use crate::doc::plan_of;
use crate::shared::{same, same_at};
use exec_graph::{Declared, EntityKind, Graph, GroupNo};
use exec_msg::EntityNo;
use std::process::Abort;
use std::test::Fail;

// Two nodes with groups of both kinds and entities of each kind.
const TWO_NODES: &str = r#"{"version":1,"topics":["x","y"],"nodes":[
  {"name":"n","groups":[{"name":"g","kind":"exclusive"},{"name":"r","kind":"reentrant"}],
   "action_clients":[{"name":"ask","group":"r","depth":3,"action":"act","on_response":[["log","in"]],
     "on_code":[["log","aux"]],"on_feedback":[["log","now"]],"on_result":[["pub","x","in"]]}],
   "actions":[{"name":"act","group":"g","depth":5,"result_timeout":100,"on_goal":[["decide","g0"]],
     "on_cancel":[["decide",1]],"script":[["wait",2],["succeed",9]]}],
   "clients":[{"name":"c","depth":7,"service":"srv","script":[["log","in"]]}],
   "services":[{"name":"srv","group":"g","depth":1,"script":[["reply","in"]]}],
   "subscriptions":[{"name":"s","group":"r","depth":2,"topic":"x","script":[["pub","y","in"]]}],
   "timers":[{"name":"t","period":10,"script":[["call","c",1],["goal","ask",5],["execute","act"]]}]},
  {"name":"m","groups":[{"name":"r","kind":"reentrant"},{"name":"h","kind":"exclusive"}],
   "action_clients":[{"name":"a","group":"r","depth":1,"action":"act"},
     {"name":"l","depth":1024,"action":"b","on_result":[]}],
   "actions":[{"name":"b","depth":1}],
   "clients":[{"name":"d","group":"h","depth":1,"service":"srv2"},{"name":"e","depth":1,"service":"srv"}],
   "services":[{"name":"srv2","group":"r"}],
   "subscriptions":[{"name":"w","depth":1024,"topic":"y"}],
   "timers":[{"name":"u","group":"h","period":4611686018427387904},
     {"name":"v","group":"r","period":1,"script":[["log","now"]]}]}]}"#;

// A name, its callback group and whether that is exclusive, and its kind. A topic has none.
type Row = (&'static str, Option<(u16, bool)>, Option<EntityKind>);

// The topics and entities of the two nodes at their numbers.
const AT_THEIR_NUMBERS: &[Row] = &[
    ("x", None, None),
    ("y", None, None),
    ("t", Some((0, true)), Some(EntityKind::Timer)),
    ("u", Some((5, true)), Some(EntityKind::Timer)),
    ("v", Some((4, false)), Some(EntityKind::Timer)),
    ("s", Some((2, false)), Some(EntityKind::Subscription)),
    ("w", Some((3, true)), Some(EntityKind::Subscription)),
    ("srv", Some((1, true)), Some(EntityKind::Service)),
    ("srv2", Some((4, false)), Some(EntityKind::Service)),
    ("c", Some((0, true)), Some(EntityKind::Client)),
    ("d", Some((5, true)), Some(EntityKind::Client)),
    ("e", Some((3, true)), Some(EntityKind::Client)),
    ("act", Some((1, true)), Some(EntityKind::Server)),
    ("b", Some((3, true)), Some(EntityKind::Server)),
    ("ask", Some((2, false)), Some(EntityKind::ActionClient)),
    ("a", Some((4, false)), Some(EntityKind::ActionClient)),
    ("l", Some((3, true)), Some(EntityKind::ActionClient)),
];

// The callback groups of the two nodes: the number, the node's name, the group's own name, and whether it is exclusive.
const GROUPS: &[(u16, &str, Option<&str>, bool)] = &[
    (0, "n", None, true),
    (1, "n", Some("g"), true),
    (2, "n", Some("r"), false),
    (3, "m", None, true),
    (4, "m", Some("r"), false),
    (5, "m", Some("h"), true),
];

// The kind of what is at a number. A topic has none.
fn kind(graph: &Graph, no: EntityNo) -> Option<EntityKind>
    requires { no < length graph.now.entities }
{
    match graph.declaration(no) {
        Declared::Topic => None,
        Declared::Entity(entity) => Some(entity.is.kind()),
    }
}

// Whether a number is an entity's.
fn is_entity(graph: &Graph, no: EntityNo) -> bool
    requires { no < length graph.now.entities }
    ensures { result ≡ is_at (λ declared. not (is_topic declared)) graph.now no }
{
    !graph.declaration(no).is_topic()
}

// The callback group of an entity, and whether it is exclusive.
fn group(graph: &Graph, no: EntityNo) -> Option<(u16, bool)>
    requires { no < length graph.now.entities }
{
    if !is_entity(graph, no) {
        return None;
    }
    let group = graph.group_of(no);
    Some((group.0, graph.is_exclusive(group)))
}

// The name of a callback group's node.
fn node_of<'a>(graph: &'a Graph, group: GroupNo) -> Option<&'a str> {
    let group = graph.groups().get(group.0 as usize)?;
    let _count = graph.len();
    Some(graph.nodes().name(EntityNo(group.node as u16)))
}

fn name_of<'a>(graph: &'a Graph, group: GroupNo) -> Option<&'a str> {
    match &graph.groups().get(group.0 as usize)?.name {
        None => None,
        Some(name) => Some(name.as_str()),
    }
}

fn has_row(rt: &impl Abort, graph: &Graph, number: usize, row: &Row) {
    assert!(rt; number < graph.len(), "at {number}");
    let no = EntityNo(number as u16);
    let (name, in_group, is) = *row;
    same(rt, graph.names().name(no), name);
    same(rt, group(graph, no), in_group);
    same(rt, kind(graph, no), is);
}

fn has_entities(rt: &impl Abort, graph: &Graph) {
    same(rt, graph.len(), AT_THEIR_NUMBERS.len());
    for (number, row) in AT_THEIR_NUMBERS.iter().enumerate() {
        has_row(rt, graph, number, row);
    }
}

// No group but these is exclusive.
fn has_groups(rt: &impl Abort, graph: &Graph) {
    same(rt, graph.groups().len(), GROUPS.len());
    for (number, node, name, exclusive) in GROUPS {
        let group = GroupNo(*number);
        same(rt, node_of(graph, group), Some(*node));
        same(rt, name_of(graph, group), *name);
        same(rt, graph.is_exclusive(group), *exclusive);
    }
    same(rt, graph.is_exclusive(GroupNo(6)), false);
}

fn number(no: Option<EntityNo>) -> Option<u16> {
    Some(no?.0)
}

fn finds_by_name(rt: &impl Abort, graph: &Graph) {
    for (name, topic, server) in FOUND {
        let found = (number(graph.topic_at(name)), number(graph.server_at(name)));
        same_at(rt, name, found, (*topic, *server));
    }
}

#[test]
fn a_graph_is_as_declared(rt: HostRuntime) -> Result<(), Fail> {
    let plan = plan_of(rt.alloc(), TWO_NODES)?;
    has_entities(&rt, plan.graph());
    has_groups(&rt, plan.graph());
    finds_by_name(&rt, plan.graph());
    Ok(())
}

// A name, and its number if it is a topic's, and if it is a server's.
const FOUND: &[(&str, Option<u16>, Option<u16>)] = &[
    ("x", Some(0), None),
    ("y", Some(1), None),
    ("act", None, Some(12)),
    ("b", None, Some(13)),
    ("t", None, None),
    ("ask", None, None),
    ("n", None, None),
    ("", None, None),
];
