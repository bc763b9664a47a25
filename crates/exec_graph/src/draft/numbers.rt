//! The entities of a graph in the order of their numbers.
ghost use Rattle.std.specs.Prelude.{◌≡◌, ◌++◌, map, IfOk, OnOk};
ghost use Rattle.std.specs.List.{filter};
ghost use Rattle.exec_plan.specs.Entity.{is_of};
ghost use Rattle.exec_graph.specs.Numbers.{node_entity, entities_from, entities_of};

use crate::draft::{EntityDraft, GraphDraft};
use exec_msg::Memory;
use exec_plan::EntityKind;
use std::alloc::Global;
use std::marker::Model;

// An entity with the number of its node, from 0.
#[derive(Drop)]
pub(crate) struct PlacedEntity<'a> {
    pub(crate) node: usize,
    pub(crate) entity: &'a EntityDraft,
}

impl<'a> Model for PlacedEntity<'a> {
    ghost use Rattle.exec_graph.specs.Numbers.{NodeEntity};

    ghost Value = { NodeEntity };

    ghost view = { λ placed. record { node = placed.node; entity = placed.entity.now } };
}

// An entity with the numbers of its node, of its group and, if it refers to something, of that.
#[derive(Drop)]
pub(crate) struct LinkedEntity<'a> {
    pub(crate) node: usize,
    pub(crate) entity: &'a EntityDraft,
    pub(crate) group: usize,
    pub(crate) reference: Option<usize>,
}

impl<'a> Model for LinkedEntity<'a> {
    ghost use Rattle.exec_graph.specs.inner.Directory.{Linked};

    ghost Value = { Linked };

    ghost view = { λ linked. record {
      placed = record { node = linked.node; entity = linked.entity.now };
      group = linked.group;
      reference = linked.reference;
    } };
}

// The entities of a draft in the order of their numbers: by kind, then by node, then as the node lists them.
pub(crate) fn entities_of<'a>(
    alloc: Global,
    draft: &'a GraphDraft,
) -> Result<Vec<PlacedEntity<'a>>, Memory>
    ensures { IfOk result (λ entities. entities.items ≡ entities_of draft.now) }
{
    let declared = entities_by_node(alloc, draft)?;
    let mut entities = Vec::new(alloc);
    for kind in EntityKind::IN_ORDER {
        append_kind(&declared, kind, &mut entities)?;
    }
    Ok(entities)
}

fn append_kind<'a>(
    declared: &[PlacedEntity<'a>],
    kind: EntityKind,
    entities: &mut Vec<PlacedEntity<'a>>,
) -> Result<(), Memory>
    ensures { OnOk result (entities.new.items ≡ entities.old.items ++ filter (λ placed. is_of kind placed.entity.is) declared.now) }
{
    for placed in declared {
        if placed.entity.is.is_of(kind) {
            let PlacedEntity { node, entity } = *placed;
            entities.push(PlacedEntity { node, entity })?;
        }
    }
    Ok(())
}

fn entities_by_node<'a>(
    alloc: Global,
    draft: &'a GraphDraft,
) -> Result<Vec<PlacedEntity<'a>>, Memory>
    ensures { IfOk result (λ entities. entities.items ≡ entities_from 0 draft.now.nodes) }
{
    let nodes = draft.nodes.as_slice();
    let mut entities = Vec::new(alloc);
    for (number, node) in nodes.iter().enumerate() {
        append_node(number, node.entities.as_slice(), &mut entities)?;
    }
    Ok(entities)
}

fn append_node<'a>(
    node: usize,
    drafts: &'a [EntityDraft],
    entities: &mut Vec<PlacedEntity<'a>>,
) -> Result<(), Memory>
    ensures { OnOk result (entities.new.items ≡ entities.old.items ++ map (node_entity node) drafts.now) }
{
    for entity in drafts {
        entities.push(PlacedEntity { node, entity })?;
    }
    Ok(())
}
