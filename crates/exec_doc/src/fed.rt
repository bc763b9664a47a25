ghost use Rattle.std.specs.Prelude.{◌≡◌, ◌⊎◌, IsTrue, IfOk, IfErr, None, Some};
ghost use Rattle.std.specs.List.{All, list_all};
ghost use Rattle.std.specs.Option.{option_map};
ghost use Rattle.exec_plan.specs.Feeding.{goes_somewhere};
ghost use Rattle.exec_plan.specs.Graph.{topic_at, server_at};
ghost use Rattle.exec_doc.specs.inner.Placing.{id_or_0, fed_by, entry_by, is_cancel_identified};
ghost use Rattle.exec_doc.specs.Refusals.{feeds};
ghost use Rattle.exec_msg.specs.Options.{each};
ghost use Rattle.exec_plan.specs.declared.plan.FedOf.TheVariants.{Message, Goal, Cancel};

use crate::draft::{EntryDraft, FedDraft};
use crate::refused::Refused;
use exec_graph::{Fed, Feed, Graph, NamedGraph};
use exec_msg::GoalId;
use exec_script::WordText;
use std::alloc::Global;

/// Whether all that is fed goes to topics and action servers that are declared.
pub fn are_declared(named: &NamedGraph<'_>, feed: &[EntryDraft]) -> bool
    ensures { result ≡ list_all (λ entry. feeds named.now entry.fed) feed.now }
{
    feed.iter().all(|entry| is_declared(named, &entry.fed))
}

fn is_declared(named: &NamedGraph<'_>, fed: &FedDraft) -> bool
    ensures { result ≡ feeds named.now fed.now }
{
    match fed {
        FedDraft::Message { topic, .. } => named.topic_named(topic.as_str()),
        FedDraft::Goal { server, .. } | FedDraft::Cancel { server, .. } => {
            named.action_named(server.as_str())
        }
    }
}

/// Whether each cancel request has an identifier. That of a goal request is checked by the plan.
pub fn are_cancels_identified(feed: &[EntryDraft]) -> bool
    ensures { result ≡ list_all (λ entry. is_cancel_identified entry.fed) feed.now }
{
    feed.iter().all(|entry| is_cancel_identified(&entry.fed))
}

fn is_cancel_identified(fed: &FedDraft) -> bool
    ensures { result ≡ is_cancel_identified fed.now }
{
    match fed {
        FedDraft::Cancel { id, .. } => id.is_some(),
        _ => true,
    }
}

/// What is fed to the topics and action servers of a graph, with the identifier 0 in place of one that is missing.
///
/// # Errors
/// [`Refused::Name`] if the graph hasn't a name, and [`Refused::Memory`] if a growth was refused.
pub fn feed_of(alloc: Global, graph: &Graph, entries: &[EntryDraft]) -> Result<Vec<Feed>, Refused>
    ensures goes { IfOk result (λ feed. All (λ entry. IsTrue (goes_somewhere graph.now entry.fed)) feed.items) }
    ensures feed { IfOk result (λ feed. each (entry_by graph.now) entries.now ≡ Some feed.items) }
    ensures refused { IfErr result (λ code. (code ≡ Refused.Memory) ⊎ ((code ≡ Refused.Name) × (each (entry_by graph.now) entries.now ≡ None))) }
{
    let mut feed = Vec::with_capacity(alloc, entries.len())?;
    for entry in entries {
        let fed = fed_by(graph, &entry.fed).ok_or(Refused::Name)?;
        feed.push(Feed {
            round: entry.round,
            fed,
        })?;
    }
    Ok(feed)
}

fn fed_by(graph: &Graph, fed: &FedDraft) -> Option<Fed>
    ensures { result ≡ fed_by graph.now fed.now }
{
    match fed {
        FedDraft::Message { topic, value } => message(graph, topic, *value),
        FedDraft::Goal { server, id, value } => goal(graph, server, *id, *value),
        FedDraft::Cancel { server, id, stamp } => cancel(graph, server, *id, *stamp),
    }
}

fn message(graph: &Graph, topic: &WordText, value: i64) -> Option<Fed>
    ensures { result ≡ option_map (λ topic. Message topic value) (topic_at graph.now topic.now) }
{
    Some(Fed::Message {
        topic: graph.topic_at(topic.as_str())?,
        value,
    })
}

fn goal(graph: &Graph, action: &WordText, id: Option<GoalId>, value: i64) -> Option<Fed>
    ensures { result ≡ option_map (λ server. Goal server (id_or_0 id) value) (server_at graph.now action.now) }
{
    Some(Fed::Goal {
        server: graph.server_at(action.as_str())?,
        id: id.unwrap_or(GoalId::new(0)),
        value,
    })
}

fn cancel(graph: &Graph, action: &WordText, id: Option<GoalId>, stamp: u64) -> Option<Fed>
    ensures { result ≡ option_map (λ server. Cancel server (id_or_0 id) stamp) (server_at graph.now action.now) }
{
    Some(Fed::Cancel {
        server: graph.server_at(action.as_str())?,
        id: id.unwrap_or(GoalId::new(0)),
        stamp,
    })
}
