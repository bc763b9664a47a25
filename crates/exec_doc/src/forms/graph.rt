ghost use Rattle.std.specs.Prelude.{◌≡◌, [], ◌++◌, map, option_map, OnOk, IfErr};
ghost use Rattle.std.specs.Option.{unwrap_or};
ghost use Rattle.serde_json.specs.View.{view};
ghost use Rattle.exec_msg.specs.Options.{each};
ghost use Rattle.exec_doc.specs.Forms.{text, list_of, declarations};
ghost use Rattle.exec_plan.specs.Entity.{if_there};
ghost use Rattle.exec_doc.specs.inner.Reading.{ReadingGives, ReadingFails, IsReadBehind};

use crate::forms::fields::list;
use crate::forms::owned::{into_array, into_field, into_text};
use crate::refused::Refused;
use exec_graph::{GraphBuilder, NodeDraft};
use exec_msg::Memory;
use serde_json::Value;
use std::alloc::Global;

/// What a document declares. There may be a million names of topics, so they are taken out of it.
pub fn declarations(alloc: Global, document: Value) -> Result<GraphBuilder, Refused>
    ensures { ReadingGives (λ found. found) result (declarations (view document)) }
{
    let mut graph = GraphBuilder::new(alloc);
    declare_nodes(list(alloc, &document, "nodes")?, &mut graph)?;
    declare_topics(into_field(document, "topics"), &mut graph)?;
    Ok(graph)
}

fn declare_nodes(nodes: Vec<NodeDraft>, graph: &mut GraphBuilder) -> Result<(), Memory>
    ensures { OnOk result (graph.new ≡ record graph.old { nodes = graph.old.nodes ++ nodes.items }) }
{
    for node in nodes {
        graph.node(node)?;
    }
    Ok(())
}

#[tactic(auto, using(crate::proofs::Lists::any_list))]
fn declare_topics(field: Option<Value>, graph: &mut GraphBuilder) -> Result<(), Refused>
    ensures ok { OnOk result
        (IsReadBehind (option_map (λ found. unwrap_or found []) (if_there (list_of text) (option_map view field))) graph.old.topics graph.new.topics) }
    ensures nodes { graph.new.nodes ≡ graph.old.nodes }
    ensures err { IfErr result (λ code. ReadingFails code (option_map (λ found. unwrap_or found []) (if_there (list_of text) (option_map view field)))) }
{
    match field {
        Some(value) => declare_each(into_array(value).ok_or(Refused::Shape)?, graph),
        None => Ok(()),
    }
}

fn declare_each(names: Vec<Value>, graph: &mut GraphBuilder) -> Result<(), Refused>
    ensures ok { OnOk result (IsReadBehind (each text (map view names.items)) graph.old.topics graph.new.topics) }
    ensures nodes { graph.new.nodes ≡ graph.old.nodes }
    ensures err { IfErr result (λ code. ReadingFails code (each text (map view names.items))) }
{
    for name in names {
        graph.topic(into_text(name).ok_or(Refused::Shape)?)?;
    }
    Ok(())
}
