//! What a builder knows, and that it doesn't change if memory is refused. If it is asked again, it succeeds. So these tests
//! pass whichever allocation is refused.
use crate::shared::same;
use exec_graph::{
    EntityDraft, EntityOf, GraphBuilder, GraphFault, GroupDraft, NodeDraft, ServerEntity, Spelled,
};
use exec_msg::{Elements, Memory};
use exec_script::WordText;
use std::alloc::Global;
use std::process::Abort;
use std::test::Fail;

const NAMES: [&str; 6] = ["a", "b", "c", "d", "e", "f"];

fn declare_topic(alloc: Global, builder: &mut GraphBuilder, name: &str) -> Result<(), Memory> {
    builder.topic(String::from_str(alloc, name)?)
}

fn nothing(alloc: Global) -> Spelled {
    Spelled::of(Vec::new(alloc))
}

// A server with a name of at most 24 bytes, which takes no memory.
fn server(alloc: Global, name: &str) -> Result<EntityDraft, Memory> {
    let server = ServerEntity {
        depth: 10,
        result_timeout: None,
        on_goal: nothing(alloc),
        on_cancel: nothing(alloc),
        script: nothing(alloc),
    };
    Ok(EntityDraft {
        name: WordText::copy_of(alloc, name)?,
        group: None,
        is: EntityOf::Server(server),
    })
}

// Declares a node with a server of the same name.
fn declare_node(alloc: Global, builder: &mut GraphBuilder, name: &str) -> Result<(), Memory> {
    let mut entities = Elements::new(alloc);
    entities.push(server(alloc, name)?)?;
    let groups: Elements<GroupDraft> = Elements::new(alloc);
    builder.node(NodeDraft {
        name: WordText::copy_of(alloc, name)?,
        groups,
        entities,
    })
}

fn declares_topics(rt: &impl Abort, alloc: Global, builder: &mut GraphBuilder) -> Result<(), Fail> {
    for name in NAMES {
        if declare_topic(alloc, builder, name).is_err() {
            same(rt, builder.topic_named(name), false);
            declare_topic(alloc, builder, name)?;
        }
        same(rt, builder.topic_named(name), true);
    }
    Ok(())
}

fn declares_nodes(rt: &impl Abort, alloc: Global, builder: &mut GraphBuilder) -> Result<(), Fail> {
    for name in NAMES {
        if declare_node(alloc, builder, name).is_err() {
            same(rt, builder.action_named(name), false);
            declare_node(alloc, builder, name)?;
        }
        same(rt, builder.action_named(name), true);
    }
    Ok(())
}

// The graph has as many topics and entities as there are names, or memory is refused.
fn finishes(rt: &impl Abort, builder: GraphBuilder) {
    match builder.finish() {
        Ok(graph) => same(rt, graph.len(), NAMES.len()),
        Err(fault) => same(rt, fault, GraphFault::Memory),
    }
}

#[test]
fn a_builder_knows_its_topics(rt: HostRuntime) -> Result<(), Fail> {
    let mut builder = GraphBuilder::new(rt.alloc());
    declares_topics(&rt, rt.alloc(), &mut builder)?;
    finishes(&rt, builder);
    Ok(())
}

#[test]
fn a_builder_knows_its_actions(rt: HostRuntime) -> Result<(), Fail> {
    let mut builder = GraphBuilder::new(rt.alloc());
    declares_nodes(&rt, rt.alloc(), &mut builder)?;
    finishes(&rt, builder);
    Ok(())
}

#[test]
fn a_builder_gives_its_graph(rt: HostRuntime) -> Result<(), Fail> {
    let mut builder = GraphBuilder::new(rt.alloc());
    declares_topics(&rt, rt.alloc(), &mut builder)?;
    let graph = builder.finish()?;
    same(&rt, graph.len(), NAMES.len());
    Ok(())
}
