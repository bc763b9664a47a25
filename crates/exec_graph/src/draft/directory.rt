//! What a graph declares, by name.
ghost use Rattle.std.specs.Bool.{then_some};
ghost use Rattle.std.specs.Prelude.{◌≡◌, ◌&&◌, ◌==◌, length, map, Some, None, ◌<◌, IfOk, IfSome};
ghost use Rattle.std.specs.List.{list_all};
ghost use Rattle.std.specs.Option.{option_map};
ghost use Rattle.exec_graph.specs.inner.Directory.{names_from, node_groups_from, topic_number, placed_named, entity_number, number_in, group_in, reference_number, linked_in, directory_of};
ghost use Rattle.exec_plan.specs.Entity.{is_of};
ghost use Rattle.exec_graph.specs.Faults.{are_names, has_named_groups, drafted_names};
ghost use Rattle.exec_msg.specs.Options.{each};

use crate::draft::groups::NodeGroups;
use crate::draft::naming::add_name;
use crate::draft::numbers::{LinkedEntity, PlacedEntity, entities_of};
use crate::draft::texts::TextSet;
use crate::draft::{Drafted, GraphDraft, GroupDraft};
use exec_msg::Memory;
use exec_plan::{EntityKind, Referent};
use exec_script::WordText;
use std::alloc::Global;
use std::marker::Model;

// Topics and entities by their names, and each node's groups by theirs.
#[derive(Drop)]
pub(crate) struct Directory<'a> {
    // How many of the names are topics'. The names of the entities come after them.
    topics: usize,
    names: TextSet<'a>,
    groups: Vec<NodeGroups<'a>>,
    entities: Vec<PlacedEntity<'a>>,
}

impl<'a> Model for Directory<'a> {
    ghost use Rattle.exec_graph.specs.inner.Directory.{DirectoryData};

    ghost Value = { DirectoryData };

    ghost view = { λ directory.
        record { topics = directory.topics; names = directory.names; groups = directory.groups.items; entities = directory.entities.items } };
}

impl<'a> Directory<'a> {
    // What a draft declares. The names of each node's groups must be names and differ. So must the names of topics and entities
    // together.
    pub(crate) fn of(alloc: Global, draft: &'a GraphDraft) -> Result<Option<Directory<'a>>, Memory>
        ensures { IfOk result (λ found. found ≡ then_some
            (list_all has_named_groups draft.now.nodes && are_names (drafted_names draft.now))
            (directory_of draft.now)) }
    {
        let Some(groups) = node_groups(alloc, draft)? else {
            return Ok(None);
        };
        let entities = entities_of(alloc, draft)?;
        let mut names = TextSet::new(alloc);
        if !add_topics(&mut names, draft)? {
            return Ok(None);
        }
        if !add_entities(&mut names, &entities)? {
            return Ok(None);
        }
        Ok(Some(Directory {
            topics: draft.topics.len(),
            names,
            groups,
            entities,
        }))
    }

    // The entities in the order of their numbers.
    pub(crate) fn entities(&self) -> &[PlacedEntity<'a>]
        ensures { result.now ≡ self.now.entities }
    {
        self.entities.as_slice()
    }

    // The entities with the numbers of their groups and of what they refer to, if all of these are declared. Each group is
    // looked up in the entity's node.
    pub(crate) fn links(&self, alloc: Global) -> Result<Option<Vec<LinkedEntity<'a>>>, Memory>
        ensures { IfOk result (λ found. option_map (λ linked. linked.items) found ≡ each (linked_in self.now) self.now.entities) }
    {
        let mut linked = Vec::new(alloc);
        for placed in self.entities() {
            let Some(entity) = self.link(placed) else {
                return Ok(None);
            };
            linked.push(entity)?;
        }
        Ok(Some(linked))
    }

    fn link(&self, placed: &PlacedEntity<'a>) -> Option<LinkedEntity<'a>>
        ensures { result ≡ linked_in self.now placed.now }
    {
        let PlacedEntity { node, entity } = *placed;
        let group = self.group(node, &entity.group)?;
        let reference = self.reference_number(&entity.is)?;
        Some(LinkedEntity {
            node,
            entity,
            group,
            reference,
        })
    }

    fn group(&self, node: usize, name: &Option<WordText>) -> Option<usize>
        ensures { result ≡ group_in self.now node name.now }
    {
        self.groups.get(node)?.number(name)
    }

    fn reference_number(&self, entity: &Drafted) -> Option<Option<usize>>
        ensures { result ≡ reference_number self.now entity.now }
    {
        let Some(reference) = entity.reference() else {
            return Some(None);
        };
        let number = self.number(reference.to, reference.name.as_str())?;
        Some(Some(number))
    }

    // The number of what a name must be declared as.
    pub(crate) fn number(&self, to: Referent, name: &str) -> Option<usize>
        ensures number { result ≡ number_in self.now to name.now }
        ensures within { IfSome result (λ number. number < length self.now.names) }
    {
        match to {
            Referent::Topic => self.topic(name),
            Referent::Entity(kind) => self.entity(kind, name),
        }
    }

    // The number of the topic of a name.
    pub(crate) fn topic(&self, name: &str) -> Option<usize>
        ensures number { result ≡ topic_number self.now name.now }
        ensures within { IfSome result (λ number. number < length self.now.names) }
    {
        let number = self.names.position(name)?;
        if number < self.topics {
            Some(number)
        } else {
            None
        }
    }

    // The number of the entity of a kind and a name, in any node.
    fn entity(&self, kind: EntityKind, name: &str) -> Option<usize>
        ensures number { result ≡ entity_number self.now (λ placed. is_of kind placed.entity.is) name.now }
        ensures within { IfSome result (λ number. number < length self.now.names) }
    {
        let (number, placed) = self.find(name)?;
        if placed.entity.is.is_of(kind) {
            Some(number)
        } else {
            None
        }
    }

    // The number of a node's entity of a kind and a name.
    pub(crate) fn entity_of_node(&self, node: usize, kind: EntityKind, name: &str) -> Option<usize>
        ensures number { result ≡ entity_number self.now (λ placed. is_of kind placed.entity.is && (placed.node == node)) name.now }
        ensures within { IfSome result (λ number. number < length self.now.names) }
    {
        let (number, placed) = self.find(name)?;
        if placed.entity.is.is_of(kind) && placed.node == node {
            Some(number)
        } else {
            None
        }
    }

    fn find(&self, name: &str) -> Option<(usize, &PlacedEntity<'a>)>
        ensures entity { option_map (λ found. (found.0, found.1.now)) result ≡ placed_named self.now name.now }
        ensures within { IfSome result (λ found. found.0 < length self.now.names) }
    {
        let number = self.names.position(name)?;
        let placed = self.entities.get(number.checked_sub(self.topics)?)?;
        Some((number, placed))
    }
}

// Whether the names of nodes are names and differ.
pub(crate) fn has_node_names(alloc: Global, draft: &GraphDraft) -> Result<bool, Memory>
    ensures { IfOk result (λ lawful. lawful ≡ are_names (map (λ node. node.name) draft.now.nodes)) }
{
    let nodes = draft.nodes.as_slice();
    let mut names = TextSet::new(alloc);
    for node in nodes {
        if !add_name(&mut names, node.name.as_str())? {
            return Ok(false);
        }
    }
    Ok(true)
}

// The groups of each node, if their names are names and differ within each node.
fn node_groups<'a>(
    alloc: Global,
    draft: &'a GraphDraft,
) -> Result<Option<Vec<NodeGroups<'a>>>, Memory>
    ensures { IfOk result (λ found. option_map (λ groups. groups.items) found
        ≡ then_some (list_all has_named_groups draft.now.nodes) (node_groups_from 0 draft.now.nodes)) }
{
    let nodes = draft.nodes.as_slice();
    let mut groups = Vec::new(alloc);
    let mut first = 0;
    for node in nodes {
        let Some(names) = names_of_groups(alloc, node.groups.as_slice())? else {
            return Ok(None);
        };
        let of_node = NodeGroups::of(first, names)?;
        first = of_node.next();
        groups.push(of_node)?;
    }
    Ok(Some(groups))
}

fn names_of_groups<'a>(
    alloc: Global,
    groups: &'a [GroupDraft],
) -> Result<Option<TextSet<'a>>, Memory>
    ensures { IfOk result (λ found. found ≡ then_some (are_names (map (λ group. group.name) groups.now)) (map (λ group. group.name) groups.now)) }
{
    let mut names = TextSet::new(alloc);
    for group in groups {
        if !add_name(&mut names, group.name.as_str())? {
            return Ok(None);
        }
    }
    Ok(Some(names))
}

fn add_topics<'a>(names: &mut TextSet<'a>, draft: &'a GraphDraft) -> Result<bool, Memory>
    ensures { IfOk result (λ added. names_from names.old draft.now.topics ≡ then_some added names.new) }
{
    let topics = draft.topics.as_slice();
    for topic in topics {
        if !add_name(names, topic.as_str())? {
            return Ok(false);
        }
    }
    Ok(true)
}

fn add_entities<'a>(names: &mut TextSet<'a>, entities: &[PlacedEntity<'a>]) -> Result<bool, Memory>
    ensures { IfOk result (λ added. names_from names.old (map (λ placed. placed.entity.name) entities.now) ≡ then_some added names.new) }
{
    for placed in entities {
        if !add_name(names, placed.entity.name.as_str())? {
            return Ok(false);
        }
    }
    Ok(true)
}
