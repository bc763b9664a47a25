//! Documents brought to version 2.
mod keeping;
mod objects;

ghost use Rattle.std.specs.Prelude.{◌≡◌, ◌⊎◌, IfOk, IfErr, Some};
ghost use Rattle.std.specs.Option.{option_map};
ghost use Rattle.serde_json.specs.View.{view};
ghost use Rattle.exec_doc.specs.Document.{document_of};
ghost use Rattle.exec_doc.specs.Refusals.{refusal_of};
ghost use Rattle.exec_doc.specs.Upgrade.{upgraded, upgraded_value, upgraded_text, name_of_order};

use crate::document::{document_value, read_document};
use crate::refused::Refused;
use exec_graph::Order;
use keeping::{keep, keep_each};
use objects::{EntryObject, NodeObject};
use serde_json::{Map, Value, put};
use std::alloc::{AllocError, Global};

/// The text of a document brought to version 2. It says the same plan and names the order that the plan has. It keeps the
/// fields that their objects have, and no others, in the order of the bytes of their names. It is its own upgrade.
///
/// # Errors
/// The least code that holds of the bytes, or [`Refused::Memory`] where a growth was refused.
pub fn upgrade(alloc: Global, document: &[u8]) -> Result<Vec<u8>, Refused>
    ensures text { IfOk result (λ text. upgraded_text document.now ≡ Some text.items) }
    ensures plan { IfOk result (λ text. document_of text.items ≡ document_of document.now) }
    ensures again { IfOk result (λ text. upgraded_text text.items ≡ Some text.items) }
    ensures refused { IfErr result (λ code. (code ≡ Refused.Memory) ⊎ (refusal_of document.now ≡ Some code)) }
{
    Ok(upgraded_value(alloc, document)?.to_vec(alloc)?)
}

// The value of that text. The bytes are read twice, since a plan is made out of the value that is read.
fn upgraded_value(alloc: Global, document: &[u8]) -> Result<Value, Refused>
    ensures value { IfOk result (λ made. upgraded_value document.now ≡ Some (view made)) }
    ensures refused { IfErr result (λ code. (code ≡ Refused.Memory) ⊎ (refusal_of document.now ≡ Some code)) }
{
    let order = order_of(alloc, document)?;
    let value = document_value(alloc, document)?;
    Ok(upgraded(alloc, value, order)?)
}

// The order of the plan that a document says.
fn order_of(alloc: Global, document: &[u8]) -> Result<Order, Refused>
    ensures order { IfOk result (λ order. option_map (λ plan. plan.order) (document_of document.now) ≡ Some order) }
    ensures refused { IfErr result (λ code. (code ≡ Refused.Memory) ⊎ (refusal_of document.now ≡ Some code)) }
{
    Ok(read_document(alloc, document)?.order())
}

fn upgraded(alloc: Global, mut document: Value, order: Order) -> Result<Value, AllocError>
    ensures { IfOk result (λ made. view made ≡ upgraded order (view document)) }
{
    let mut kept = Map::new(alloc);
    keep_each(alloc, &mut document, "feed", &EntryObject, &mut kept)?;
    keep(alloc, &mut document, "moments", &mut kept)?;
    keep_each(alloc, &mut document, "nodes", &NodeObject, &mut kept)?;
    keep(alloc, &mut document, "topics", &mut kept)?;
    let order = Value::try_from_str(alloc, name_of_order(order))?;
    put(&mut kept, alloc, "order", order)?;
    put(&mut kept, alloc, "version", Value::from(2u64))?;
    Ok(Value::Object(kept))
}

fn name_of_order(order: Order) -> &'static str
    ensures { result.now ≡ name_of_order order }
{
    match order {
        Order::Kind => "kind",
        Order::Arrival => "arrival",
    }
}
