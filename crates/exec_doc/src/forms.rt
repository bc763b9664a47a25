//! From a JSON value to the draft of a document, object by object.
mod entities;
mod feed;
mod fields;
mod graph;
mod nodes;
pub mod owned;
mod picked;
mod scripts;

ghost use Rattle.serde_json.specs.View.{view};
ghost use Rattle.std.specs.Prelude.{◌≡◌};
ghost use Rattle.exec_doc.specs.Forms.{draft_of, has_order, order_in, order_named, ready_order};
ghost use Rattle.exec_doc.specs.inner.Reading.{ReadingGives};

use crate::draft::DocumentDraft;
use crate::refused::Refused;
use exec_graph::Order;
use fields::{Form, list, optional_field, required_field, taken_list};
use graph::declarations;
use serde_json::Value;
use std::alloc::Global;

/// The draft of a document. Its feed may be most of it, so it is taken out and freed before the declarations are read. These
/// then take its memory.
///
/// # Errors
/// [`Refused::Shape`] if the value hasn't the forms of a document, and [`Refused::Memory`] if a growth was refused.
pub fn draft_of(alloc: Global, mut document: Value) -> Result<DocumentDraft, Refused>
    ensures { ReadingGives (λ draft. draft) result (draft_of (view document)) }
{
    let version = required_field(alloc, &document, "version")?;
    let order = order_in(alloc, has_order(version), &document)?;
    Ok(DocumentDraft {
        version,
        order,
        moments: list(alloc, &document, "moments")?,
        feed: taken_list(alloc, &mut document, "feed")?,
        graph: declarations(alloc, document)?,
    })
}

// Whether documents of a version say an order.
pub(crate) fn has_order(version: u64) -> bool
    ensures { result ≡ has_order version }
{
    version == 2
}

// The order that a document says, if its version knows any.
fn order_in(alloc: Global, has_order: bool, document: &Value) -> Result<Order, Refused>
    ensures { ReadingGives (λ found. found) result (order_in has_order (view document.now)) }
{
    if !has_order {
        return Ok(Order::Kind);
    }
    Ok(optional_field(alloc, document, "order")?.unwrap_or(Order::Kind))
}

impl Form for Order {
    ghost form = { ready_order };

    fn read(_alloc: Global, value: &Value) -> Result<Order, Refused> {
        let name = value.as_str().ok_or(Refused::Shape)?;
        order_named(name).ok_or(Refused::Shape)
    }
}

fn order_named(name: &str) -> Option<Order>
    ensures { result ≡ order_named name.now }
{
    if name == "kind" {
        Some(Order::Kind)
    } else if name == "arrival" {
        Some(Order::Arrival)
    } else {
        None
    }
}
