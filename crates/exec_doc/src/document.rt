ghost use Rattle.std.specs.Prelude.{◌≡◌, ◌⊎◌, true, None, Some, IfOk, IfErr};
ghost use Rattle.serde_json.specs.View.{view};
ghost use Rattle.exec_doc.specs.inner.Answering.{Answers, IsReady, draft_refusal, graph_refusal};
ghost use Rattle.exec_doc.specs.Draft.{DocumentDraft};
ghost use Rattle.exec_doc.specs.Document.{plan_of, document_of};
ghost use Rattle.exec_doc.specs.Refusals.{document_value, is_version, refusal_of};
ghost use Rattle.exec_graph.specs.declared.draft.GraphDraft.{GraphDraft};
ghost use Rattle.exec_graph.specs.Refusals.{fault_in};

use crate::draft::{DocumentDraft, EntryDraft};
use crate::fed::{are_cancels_identified, are_declared, feed_of};
use crate::forms::{draft_of, has_order};
use crate::refused::Refused;
use crate::schedule::moments_of;
use exec_graph::{Graph, GraphFault, NamedGraph, Order, Plan, greatest_stamp, schedule_fits};
use serde_json::Value;
use std::alloc::Global;

/// The plan that a document says.
///
/// # Errors
/// The least code that holds of the bytes, or [`Refused::Memory`] if a growth was refused.
pub fn read_document(alloc: Global, bytes: &[u8]) -> Result<Plan, Refused>
    ensures plan { IfOk result (λ plan. document_of bytes.now ≡ Some plan) }
    ensures refused { IfErr result (λ code. (code ≡ Refused.Memory) ⊎ (refusal_of bytes.now ≡ Some code)) }
{
    let value = document_value(alloc, bytes)?;
    let draft = draft_of(alloc, value)?;
    plan_of(alloc, draft)
}

pub fn document_value(alloc: Global, bytes: &[u8]) -> Result<Value, Refused>
    ensures value { IfOk result (λ value. document_value bytes.now ≡ Some (view value)) }
    ensures refused { IfErr result (λ code. (code ≡ Refused.Memory) ⊎ ((code ≡ Refused.NotJson) × (document_value bytes.now ≡ None))) }
{
    match Value::from_slice(alloc, bytes) {
        Ok(value) => Ok(value),
        Err(fault) if fault.is_memory() => Err(Refused::Memory),
        Err(_) => Err(Refused::NotJson),
    }
}

fn plan_of(alloc: Global, draft: DocumentDraft) -> Result<Plan, Refused>
    ensures { Answers (draft_refusal draft) (plan_of draft) result }
{
    let DocumentDraft {
        version,
        order,
        graph,
        moments,
        feed,
    } = draft;
    if !is_version(version) {
        return Err(Refused::Version);
    }
    let named = graph.named_graph()?;
    match named.graph() {
        Ok(graph) => plan_on(alloc, graph, order, &moments, &feed),
        Err(fault) => Err(refusal_by(&named, fault, &moments, &feed)),
    }
}

// Whether documents of a version are read.
fn is_version(version: u64) -> bool
    ensures { result ≡ is_version version }
{
    version == 1 || has_order(version)
}

// Why a document is refused whose names are right and whose graph has this fault.
fn refusal_by(
    named: &NamedGraph<'_>,
    fault: GraphFault,
    moments: &[u64],
    feed: &[EntryDraft],
) -> Refused
    ensures { (document : DocumentDraft)
        → is_version document.version ≡ true → named.now ≡ document.graph → moments.now ≡ document.moments → feed.now ≡ document.feed
        → (fault ≡ GraphFault.Memory) ⊎ (fault_in document.graph ≡ Some fault) → (result ≡ Refused.Memory) ⊎ (draft_refusal document ≡ Some result) }
{
    if !are_declared(named, feed) {
        return Refused::Name;
    }
    code_of(
        fault,
        schedule_fits(moments, feed.len(), greatest_stamp(feed)),
    )
}

// The code of a graph's fault. The schedule may be beyond its limits too.
fn code_of(fault: GraphFault, fits: bool) -> Refused
    ensures memory { fault ≡ GraphFault.Memory → result ≡ Refused.Memory }
    ensures code { (graph : GraphDraft) → fault_in graph ≡ Some fault → graph_refusal graph fits ≡ Some result }
{
    match fault {
        GraphFault::Memory => Refused::Memory,
        GraphFault::Name => Refused::Name,
        _ if !fits => Refused::Limit,
        GraphFault::Limit => Refused::Limit,
        GraphFault::Script => Refused::Script,
        GraphFault::GroupVariable => Refused::GroupVariable,
    }
}

// The plan of a graph without a fault. What may still be refused: a name that is fed, the schedule, an identifier.
fn plan_on(
    alloc: Global,
    graph: Graph,
    order: Order,
    moments: &[u64],
    entries: &[EntryDraft],
) -> Result<Plan, Refused>
    ensures { (document : DocumentDraft)
        → IsReady document graph moments.now entries.now → order ≡ document.order
        → Answers (draft_refusal document) (plan_of document) result }
{
    let feed = feed_of(alloc, &graph, entries)?;
    let Some(moments) = moments_of(alloc, moments)? else {
        return Err(Refused::Limit);
    };
    let plan = Plan::new(graph, order, moments, feed)?;
    if are_cancels_identified(entries) {
        Ok(plan)
    } else {
        Err(Refused::Id)
    }
}
