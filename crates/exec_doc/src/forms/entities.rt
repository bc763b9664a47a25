ghost use Rattle.std.specs.Prelude.{OnOk, IfErr, map};
ghost use Rattle.serde_json.specs.View.{view};
ghost use Rattle.exec_doc.specs.Forms.{depth_field, form_of, entity, list};
ghost use Rattle.exec_msg.specs.Options.{each};
ghost use Rattle.exec_doc.specs.inner.Reading.{ReadingGives, ReadingFails, IsReadBehind};

use crate::forms::fields::{optional_field, required_field};
use crate::forms::scripts::script_field;
use crate::refused::Refused;
use exec_graph::{
    ActionClientEntity, ClientEntity, Drafted, EntityDraft, EntityKind, EntityOf, ServerEntity,
    ServiceEntity, SubscriptionEntity, TimerEntity,
};
use exec_msg::limits::DEFAULT_DEPTH;
use serde_json::Value;
use std::alloc::Global;

/// Appends the entities of a kind that a node lists in a field.
#[tactic(auto, using(crate::proofs::Lists::any_list))]
pub fn append_entities(
    alloc: Global,
    node: &Value,
    name: &str,
    kind: EntityKind,
    entities: &mut Vec<EntityDraft>,
) -> Result<(), Refused>
    ensures ok { OnOk result (IsReadBehind (list (entity (form_of kind)) name.now (view node.now)) entities.old.items entities.new.items) }
    ensures err { IfErr result (λ code. ReadingFails code (list (entity (form_of kind)) name.now (view node.now))) }
{
    match node.get(name) {
        Some(value) => append_each(
            alloc,
            value.as_array().ok_or(Refused::Shape)?,
            kind,
            entities,
        ),
        None => Ok(()),
    }
}

fn append_each(
    alloc: Global,
    values: &[Value],
    kind: EntityKind,
    entities: &mut Vec<EntityDraft>,
) -> Result<(), Refused>
    ensures ok { OnOk result (IsReadBehind (each (entity (form_of kind)) (map view values.now)) entities.old.items entities.new.items) }
    ensures err { IfErr result (λ code. ReadingFails code (each (entity (form_of kind)) (map view values.now))) }
{
    for value in values {
        entities.push(entity(alloc, value, kind)?)?;
    }
    Ok(())
}

fn entity(alloc: Global, value: &Value, kind: EntityKind) -> Result<EntityDraft, Refused>
    ensures { ReadingGives (λ found. found) result (entity (form_of kind) (view value.now)) }
{
    Ok(EntityDraft {
        name: required_field(alloc, value, "name")?,
        group: optional_field(alloc, value, "group")?,
        is: form_of(alloc, value, kind)?,
    })
}

fn form_of(alloc: Global, value: &Value, kind: EntityKind) -> Result<Drafted, Refused>
    ensures { ReadingGives (λ found. found) result (form_of kind (view value.now)) }
{
    Ok(match kind {
        EntityKind::Timer => EntityOf::Timer(TimerEntity {
            period: required_field(alloc, value, "period")?,
            script: script_field(alloc, value, "script")?,
        }),
        EntityKind::Subscription => EntityOf::Subscription(SubscriptionEntity {
            topic: required_field(alloc, value, "topic")?,
            depth: depth_field(alloc, value)?,
            script: script_field(alloc, value, "script")?,
        }),
        EntityKind::Service => EntityOf::Service(ServiceEntity {
            depth: depth_field(alloc, value)?,
            script: script_field(alloc, value, "script")?,
        }),
        EntityKind::Client => EntityOf::Client(ClientEntity {
            service: required_field(alloc, value, "service")?,
            depth: depth_field(alloc, value)?,
            script: script_field(alloc, value, "script")?,
        }),
        EntityKind::Server => EntityOf::Server(ServerEntity {
            depth: depth_field(alloc, value)?,
            result_timeout: optional_field(alloc, value, "result_timeout")?,
            on_goal: script_field(alloc, value, "on_goal")?,
            on_cancel: script_field(alloc, value, "on_cancel")?,
            script: script_field(alloc, value, "script")?,
        }),
        EntityKind::ActionClient => EntityOf::ActionClient(ActionClientEntity {
            server: required_field(alloc, value, "action")?,
            depth: depth_field(alloc, value)?,
            on_response: script_field(alloc, value, "on_response")?,
            on_code: script_field(alloc, value, "on_code")?,
            on_feedback: script_field(alloc, value, "on_feedback")?,
            on_result: optional_field(alloc, value, "on_result")?,
        }),
    })
}

fn depth_field(alloc: Global, value: &Value) -> Result<u64, Refused>
    ensures { ReadingGives (λ found. found) result (depth_field (view value.now)) }
{
    Ok(optional_field(alloc, value, "depth")?.unwrap_or(DEFAULT_DEPTH))
}
