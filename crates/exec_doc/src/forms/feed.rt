ghost use Rattle.std.specs.Prelude.{◌≡◌};
ghost use Rattle.exec_doc.specs.Forms.{id_in_text, identifier, message_in, goal_in, cancel_in, fed_draft_in, entry_draft_in, entry};
ghost use Rattle.exec_doc.specs.inner.Picking.{seen};
ghost use Rattle.exec_doc.specs.inner.Reading.{ReadingGives};

use crate::draft::{EntryDraft, FedDraft};
use crate::forms::fields::{Form, field_value, if_there};
use crate::forms::picked::EntryFields;
use crate::refused::Refused;
use exec_msg::GoalId;
use serde_json::Value;
use std::alloc::Global;
use uuid::Uuid;

impl Form for EntryDraft {
    ghost form = { entry };

    fn read(alloc: Global, value: &Value) -> Result<EntryDraft, Refused> {
        entry(alloc, &EntryFields::of(value))
    }
}

fn entry(alloc: Global, fields: &EntryFields<'_>) -> Result<EntryDraft, Refused>
    ensures { ReadingGives (λ found. found) result (entry_draft_in (seen fields.now)) }
{
    Ok(EntryDraft {
        round: field_value(alloc, fields.round)?,
        fed: fed_draft(alloc, fields)?,
    })
}

fn fed_draft(alloc: Global, fields: &EntryFields<'_>) -> Result<FedDraft, Refused>
    ensures { ReadingGives (λ found. found) result (fed_draft_in (seen fields.now)) }
{
    match (
        fields.topic.is_some(),
        fields.goal.is_some(),
        fields.cancel.is_some(),
    ) {
        (true, false, false) => message(alloc, fields),
        (false, true, false) => goal(alloc, fields),
        (false, false, true) => cancel(alloc, fields),
        _ => Err(Refused::Shape),
    }
}

fn message(alloc: Global, fields: &EntryFields<'_>) -> Result<FedDraft, Refused>
    ensures { ReadingGives (λ found. found) result (message_in (seen fields.now)) }
{
    Ok(FedDraft::Message {
        topic: field_value(alloc, fields.topic)?,
        value: field_value(alloc, fields.value)?,
    })
}

fn goal(alloc: Global, fields: &EntryFields<'_>) -> Result<FedDraft, Refused>
    ensures { ReadingGives (λ found. found) result (goal_in (seen fields.now)) }
{
    Ok(FedDraft::Goal {
        server: field_value(alloc, fields.action)?,
        id: field_value(alloc, fields.goal)?,
        value: field_value(alloc, fields.value)?,
    })
}

fn cancel(alloc: Global, fields: &EntryFields<'_>) -> Result<FedDraft, Refused>
    ensures { ReadingGives (λ found. found) result (cancel_in (seen fields.now)) }
{
    Ok(FedDraft::Cancel {
        server: field_value(alloc, fields.action)?,
        id: field_value(alloc, fields.cancel)?,
        stamp: if_there(alloc, fields.stamp)?.unwrap_or(0),
    })
}

impl Form for Option<GoalId> {
    ghost form = { identifier };

    fn read(_alloc: Global, value: &Value) -> Result<Option<GoalId>, Refused> {
        let text = value.as_str().ok_or(Refused::Shape)?;
        Ok(id_in_text(text))
    }
}

fn id_in_text(text: &str) -> Option<GoalId>
    ensures { result ≡ id_in_text text.now }
{
    match Uuid::parse_str(text) {
        Ok(id) => Some(GoalId::new(id.as_u128())),
        Err(_) => None,
    }
}
