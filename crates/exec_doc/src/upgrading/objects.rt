//! The objects of a document, each with only its own fields. Fields are named from the last to the first, because a definition
//! puts the first of them to the others.
ghost use Rattle.std.specs.Prelude.{◌≡◌, IfOk};
ghost use Rattle.serde_json.specs.View.{view};
ghost use Rattle.exec_doc.specs.Upgrade.{fed_fields, only, unchanged, upgraded_entity, upgraded_entry, upgraded_group, upgraded_node};

use crate::upgrading::keeping::{Change, keep, keep_each, only};
use exec_graph::EntityKind;
use serde_json::{Map, Value};
use std::alloc::{AllocError, Global};

/// A callback group.
pub struct GroupObject;

impl Change for GroupObject {
    ghost becomes = { λ _. upgraded_group };

    fn changed(&self, alloc: Global, value: Value) -> Result<Value, AllocError> {
        only(alloc, value, &["kind", "name"])
    }
}

impl Change for EntityKind {
    ghost becomes = { upgraded_entity };

    fn changed(&self, alloc: Global, value: Value) -> Result<Value, AllocError> {
        entity(alloc, value, *self)
    }
}

fn entity(alloc: Global, value: Value, kind: EntityKind) -> Result<Value, AllocError>
    ensures { IfOk result (λ kept. view kept ≡ upgraded_entity kind (view value)) }
{
    match kind {
        EntityKind::Timer => only(alloc, value, &["script", "group", "period", "name"]),
        EntityKind::Subscription => {
            only(alloc, value, &["script", "depth", "group", "topic", "name"])
        }
        EntityKind::Service => only(alloc, value, &["script", "depth", "group", "name"]),
        EntityKind::Client => only(
            alloc,
            value,
            &["script", "depth", "group", "service", "name"],
        ),
        EntityKind::Server => only(
            alloc,
            value,
            &[
                "script",
                "on_cancel",
                "on_goal",
                "result_timeout",
                "depth",
                "group",
                "name",
            ],
        ),
        EntityKind::ActionClient => only(
            alloc,
            value,
            &[
                "on_result",
                "on_feedback",
                "on_code",
                "on_response",
                "depth",
                "group",
                "action",
                "name",
            ],
        ),
    }
}

/// A node.
pub struct NodeObject;

impl Change for NodeObject {
    ghost becomes = { λ _. upgraded_node };

    fn changed(&self, alloc: Global, value: Value) -> Result<Value, AllocError> {
        node(alloc, value)
    }
}

fn node(alloc: Global, mut node: Value) -> Result<Value, AllocError>
    ensures { IfOk result (λ made. view made ≡ upgraded_node (view node)) }
{
    let mut kept = Map::new(alloc);
    keep_each(
        alloc,
        &mut node,
        "action_clients",
        &EntityKind::ActionClient,
        &mut kept,
    )?;
    keep_each(alloc, &mut node, "actions", &EntityKind::Server, &mut kept)?;
    keep_each(alloc, &mut node, "clients", &EntityKind::Client, &mut kept)?;
    keep_each(
        alloc,
        &mut node,
        "services",
        &EntityKind::Service,
        &mut kept,
    )?;
    keep_each(
        alloc,
        &mut node,
        "subscriptions",
        &EntityKind::Subscription,
        &mut kept,
    )?;
    keep_each(alloc, &mut node, "timers", &EntityKind::Timer, &mut kept)?;
    keep_each(alloc, &mut node, "groups", &GroupObject, &mut kept)?;
    keep(alloc, &mut node, "name", &mut kept)?;
    Ok(Value::Object(kept))
}

/// An entry of the feed.
pub struct EntryObject;

impl Change for EntryObject {
    ghost becomes = { λ _. upgraded_entry };

    fn changed(&self, alloc: Global, value: Value) -> Result<Value, AllocError> {
        let topic = value.get("topic").is_some();
        let goal = value.get("goal").is_some();
        let cancel = value.get("cancel").is_some();
        entry(alloc, value, topic, goal, cancel)
    }
}

// An entry with the fields of its form, by which of `topic`, `goal` and `cancel` it has.
fn entry(
    alloc: Global,
    value: Value,
    topic: bool,
    goal: bool,
    cancel: bool,
) -> Result<Value, AllocError>
    ensures { IfOk result (λ kept. view kept ≡ only (unchanged (fed_fields topic goal cancel)) (view value)) }
{
    match (topic, goal, cancel) {
        (true, false, false) => only(alloc, value, &["value", "topic", "round"]),
        (false, true, false) => only(alloc, value, &["value", "goal", "action", "round"]),
        (false, false, true) => only(alloc, value, &["stamp", "cancel", "action", "round"]),
        _ => only(alloc, value, &[]),
    }
}
