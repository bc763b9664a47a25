//! How a graph is made of what was declared.
ghost use Rattle.std.specs.Bool.{then_some};
ghost use Rattle.std.specs.Prelude.{◌≡◌, ◌⊎◌, ◌++◌, ◌<◌, ◌≤◌, length, map, string_bytes, ◌∷◌, [], None, Some, true, false, IfOk, IfErr, IfSome, OnOk};
ghost use Rattle.std.specs.List.{All, list_any};
ghost use Rattle.std.specs.Option.{option_map};
ghost use Rattle.std.specs.Str.{bytes_eq};
ghost use Rattle.exec_graph.specs.inner.Directory.{IsLinked, declaration_in, directory_of, linked_in};
ghost use Rattle.exec_plan.specs.inner.Entries.{entities_in as entries_of};
ghost use Rattle.exec_graph.specs.Faults.{drafted_names, is_well_named};
ghost use Rattle.exec_plan.specs.Names.{are_distinct};
ghost use Rattle.exec_graph.specs.Numbers.{entities_of};
ghost use Rattle.exec_msg.specs.Options.{each};
ghost use Rattle.exec_graph.specs.Refusals.{fault_in};
ghost use Rattle.exec_graph.specs.Resolved.{resolved_entity, resolved_graph, resolved_topic};
ghost use Rattle.exec_graph.specs.declared.fault.GraphFault.TheVariants as graph_fault;

use crate::draft::GraphDraft;
use crate::draft::directory::{Directory, has_node_names};
use crate::draft::faults::{is_any_faulty, script_faults};
use crate::draft::groups::groups_of;
use crate::draft::limits::is_small;
use crate::draft::named::NamedGraph;
use crate::draft::numbers::{LinkedEntity, PlacedEntity};
use crate::draft::resolve::{Unread, resolve};
use crate::draft::scope::NodeScope;
use crate::fault::GraphFault;
use exec_msg::{EntityNo, Memory, Names};
use exec_plan::{Declared, Graph, GraphEntity, GroupNo};
use indexmap::IndexMap;
use std::alloc::Global;

// The graph of a draft that is well named, or the least fault of what it declares.
pub(crate) fn graph_of(
    alloc: Global,
    draft: &GraphDraft,
    directory: &Directory<'_>,
    linked: &[LinkedEntity<'_>],
) -> Result<Graph, GraphFault>
    requires named { Some directory.now ≡ then_some (is_well_named draft.now) (directory_of draft.now) }
    requires linked { each (linked_in directory.now) directory.now.entities ≡ Some linked.now }
    ensures graph { IfOk result (λ graph. (fault_in draft.now ≡ None)
        × (resolved_graph draft.now ≡ Some graph)) }
    ensures fault { IfErr result (λ fault. (fault ≡ graph_fault.Memory) ⊎ (fault_in draft.now ≡ Some fault)) }
{
    if !is_small(draft, directory.entities()) {
        return Err(GraphFault::Limit);
    }
    let groups = groups_of(alloc, draft)?;
    let Some(entities) = declarations_of(alloc, draft, directory, linked)? else {
        return Err(GraphFault::Script);
    };
    let faults = script_faults(alloc, &entities, &groups)?;
    if is_any_faulty(&faults) {
        return Err(GraphFault::Script);
    }
    if !faults.is_empty() {
        return Err(GraphFault::GroupVariable);
    }
    let names = names_of(alloc, draft, directory.entities())?;
    let nodes = node_names(alloc, draft)?;
    Ok(Graph::from_parts(Names::of(nodes), groups, entities, Names::of(names)))
}

// What a draft declares, if all of it is well named.
pub(crate) fn named_graph_of<'a>(
    alloc: Global,
    draft: &'a GraphDraft,
) -> Result<Option<NamedGraph<'a>>, Memory>
    ensures { IfOk result (λ found. found ≡ then_some (is_well_named draft.now) draft.now) }
{
    if !has_node_names(alloc, draft)? {
        return Ok(None);
    }
    let Some(directory) = Directory::of(alloc, draft)? else {
        return Ok(None);
    };
    let Some(linked) = directory.links(alloc)? else {
        return Ok(None);
    };
    Ok(Some(NamedGraph {
        alloc,
        draft,
        directory,
        linked,
    }))
}

// The topics and entities at their numbers, if the scripts of the entities are spelt well.
fn declarations_of(
    alloc: Global,
    draft: &GraphDraft,
    directory: &Directory<'_>,
    links: &[LinkedEntity<'_>],
) -> Result<Option<IndexMap<String, Declared>>, Memory>
    requires distinct { are_distinct (drafted_names draft.now) ≡ true }
    requires directory { directory.now ≡ directory_of draft.now }
    requires names { length directory.now.names ≤ 65536 }
    requires links { All (IsLinked directory.now) links.now }
    requires entities { map (λ linked. linked.placed) links.now ≡ entities_of draft.now }
    ensures { IfOk result (λ found.
        option_map (λ others. map resolved_topic draft.now.topics ++ others) (each (resolved_entity draft.now) (entities_of draft.now))
        ≡ option_map (λ entities. entries_of entities.entries) found) }
{
    let mut entities = topics_of(alloc, draft)?;
    for linked in links {
        let Some(is) = declaration_of(alloc, directory, linked)? else {
            return Ok(None);
        };
        append(alloc, linked.entity.name.as_str(), is, &mut entities)?;
    }
    Ok(Some(entities))
}

// The topics at their numbers.
fn topics_of(alloc: Global, draft: &GraphDraft) -> Result<IndexMap<String, Declared>, Memory>
    requires { are_distinct draft.now.topics ≡ true }
    ensures { IfOk result (λ entities. entries_of entities.entries ≡ map resolved_topic draft.now.topics) }
{
    let topics = draft.topics.as_slice();
    let mut entities = IndexMap::new(alloc);
    for topic in topics {
        append(alloc, topic.as_str(), Declared::Topic, &mut entities)?;
    }
    Ok(entities)
}

// Adds what a new name is declared as.
fn append(
    alloc: Global,
    name: &str,
    is: Declared,
    entities: &mut IndexMap<String, Declared>,
) -> Result<(), Memory>
    ensures { OnOk result (list_any (λ other. bytes_eq other name.now) (map (λ entity. entity.name) (entries_of entities.old.entries)) ≡ false →
        entries_of entities.new.entries ≡ entries_of entities.old.entries ++ record { name = name.now; is = is } ∷ []) }
{
    entities.insert(String::from_str(alloc, name)?, is)?;
    Ok(())
}

// What an entity's name is declared as.
fn declaration_of(
    alloc: Global,
    directory: &Directory<'_>,
    linked: &LinkedEntity<'_>,
) -> Result<Option<Declared>, Memory>
    requires names { length directory.now.names ≤ 65536 }
    requires linked { IsLinked directory.now linked.now }
    ensures { IfOk result (λ found. found ≡ declaration_in directory.now linked.now) }
{
    let scope = NodeScope::of(directory, linked.node);
    let reference = entity_no(linked.reference);
    match resolve(alloc, &scope, reference, &linked.entity.is) {
        Ok(is) => Ok(Some(Declared::Entity(GraphEntity {
            group: GroupNo(linked.group as u16),
            is,
        }))),
        Err(Unread::Memory) => Err(Memory),
        Err(Unread::Wrong) => Ok(None),
    }
}

// The number of what an entity refers to, if it refers to something.
fn entity_no(reference: Option<usize>) -> Option<EntityNo>
    requires { IfSome reference (λ number. number < 65536) }
    ensures { result ≡ reference }
{
    let number = reference?;
    Some(EntityNo(number as u16))
}

// The names of topics and entities at their numbers.
fn names_of(
    alloc: Global,
    draft: &GraphDraft,
    entities: &[PlacedEntity<'_>],
) -> Result<Vec<String>, Memory>
    requires { entities.now ≡ entities_of draft.now }
    ensures { IfOk result (λ names. map string_bytes names.items ≡ drafted_names draft.now) }
{
    let topics = draft.topics.as_slice();
    let mut names = Vec::new(alloc);
    for topic in topics {
        names.push(String::from_str(alloc, topic.as_str())?)?;
    }
    for placed in entities {
        names.push(String::from_str(alloc, placed.entity.name.as_str())?)?;
    }
    Ok(names)
}

// The names of nodes at their numbers.
fn node_names(alloc: Global, draft: &GraphDraft) -> Result<Vec<String>, Memory>
    ensures { IfOk result (λ names. map string_bytes names.items ≡ map (λ node. node.name) draft.now.nodes) }
{
    let nodes = draft.nodes.as_slice();
    let mut names = Vec::new(alloc);
    for node in nodes {
        names.push(String::from_str(alloc, node.name.as_str())?)?;
    }
    Ok(names)
}
