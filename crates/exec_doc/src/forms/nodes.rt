ghost use Rattle.std.specs.Prelude.{◌≡◌};
ghost use Rattle.serde_json.specs.View.{view};
ghost use Rattle.exec_doc.specs.Forms.{exclusive_named, group_kind, group, node};

use crate::forms::entities::append_entities;
use crate::forms::fields::{Form, list, required_field};
use crate::refused::Refused;
use exec_graph::{EntityKind, GroupDraft, NodeDraft};
use exec_msg::Elements;
use serde_json::Value;
use std::alloc::Global;

impl Form for NodeDraft {
    ghost form = { node };

    fn read(alloc: Global, value: &Value) -> Result<NodeDraft, Refused> {
        let name = required_field(alloc, value, "name")?;
        let groups = list(alloc, value, "groups")?;
        let mut entities = Vec::new(alloc);
        append_entities(alloc, value, "timers", EntityKind::Timer, &mut entities)?;
        append_entities(
            alloc,
            value,
            "subscriptions",
            EntityKind::Subscription,
            &mut entities,
        )?;
        append_entities(alloc, value, "services", EntityKind::Service, &mut entities)?;
        append_entities(alloc, value, "clients", EntityKind::Client, &mut entities)?;
        append_entities(alloc, value, "actions", EntityKind::Server, &mut entities)?;
        append_entities(
            alloc,
            value,
            "action_clients",
            EntityKind::ActionClient,
            &mut entities,
        )?;
        Ok(NodeDraft {
            name,
            groups: Elements::of(groups),
            entities: Elements::of(entities),
        })
    }
}

impl Form for GroupDraft {
    ghost form = { group };

    fn read(alloc: Global, value: &Value) -> Result<GroupDraft, Refused> {
        let name = required_field(alloc, value, "name")?;
        let kind = value.get("kind").ok_or(Refused::Shape)?;
        Ok(GroupDraft {
            name,
            exclusive: is_exclusive(kind).ok_or(Refused::Shape)?,
        })
    }
}

// Whether a group of this kind is mutually exclusive.
fn is_exclusive(kind: &Value) -> Option<bool>
    ensures { result ≡ group_kind (view kind.now) }
{
    exclusive_named(kind.as_str()?)
}

fn exclusive_named(kind: &str) -> Option<bool>
    ensures { result ≡ exclusive_named kind.now }
{
    if kind == "exclusive" {
        Some(true)
    } else if kind == "reentrant" {
        Some(false)
    } else {
        None
    }
}
