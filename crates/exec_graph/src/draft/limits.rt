//! The limits of a graph.
ghost use Rattle.std.specs.Prelude.{◌≡◌, ◌&&◌, true, length, nat_le};
ghost use Rattle.std.specs.List.{list_all, sum_by};
ghost use Rattle.std.specs.Option.{option_map_or};
ghost use Rattle.exec_plan.specs.Entity.{is_within};
ghost use Rattle.exec_graph.specs.Faults.{has_short_scripts, is_small};
ghost use Rattle.exec_graph.specs.Numbers.{entities_of};

use crate::draft::numbers::PlacedEntity;
use crate::draft::{Drafted, GraphDraft};
use crate::spelled::Spelled;
use exec_msg::limits::{ENTITIES, INSTRUCTIONS, NAMED_GROUPS, NODES, TOPICS};
use exec_plan::RoleScript;

// Whether no number and no length of a graph is beyond its limit. The entities are those of the nodes in the order of their
// numbers.
pub(crate) fn is_small(draft: &GraphDraft, entities: &[PlacedEntity<'_>]) -> bool
    requires { entities.now ≡ entities_of draft.now }
    ensures { result ≡ is_small draft.now }
{
    draft.nodes.len() <= NODES
        && has_few_groups(draft)
        && draft.topics.len() <= TOPICS
        && entities.len() <= ENTITIES
        && are_small(entities)
}

fn has_few_groups(draft: &GraphDraft) -> bool
    ensures { result ≡ nat_le (sum_by (λ node. length node.groups) draft.now.nodes) NAMED_GROUPS }
{
    let nodes = draft.nodes.as_slice();
    let mut room = NAMED_GROUPS;
    for node in nodes {
        let Some(left) = room.checked_sub(node.groups.as_slice().len()) else {
            return false;
        };
        room = left;
    }
    true
}

fn are_small(entities: &[PlacedEntity<'_>]) -> bool
    ensures { result ≡ list_all (λ placed. is_within placed.entity.is && has_short_scripts placed.entity.is) entities.now }
{
    entities
        .iter()
        .all(|placed| is_entity_small(&placed.entity.is))
}

fn is_entity_small(entity: &Drafted) -> bool
    ensures { result ≡ (is_within entity.now && has_short_scripts entity.now) }
{
    entity.is_within() && has_short_scripts(entity)
}

fn has_short_scripts(entity: &Drafted) -> bool
    ensures { result ≡ has_short_scripts entity.now }
{
    are_short(&entity.scripts())
}

fn are_short(scripts: &[Option<RoleScript<'_, Spelled>>]) -> bool
    ensures { result ≡ list_all (λ script. option_map_or (λ roled. nat_le (length roled.script) INSTRUCTIONS) script true) scripts.now }
{
    scripts.iter().all(is_short)
}

// Whether a script is short, if there is one.
fn is_short(script: &Option<RoleScript<'_, Spelled>>) -> bool
    ensures { result ≡ option_map_or (λ roled. nat_le (length roled.script) INSTRUCTIONS) script.now true }
{
    match script {
        None => true,
        Some(roled) => roled.script.as_slice().len() <= INSTRUCTIONS,
    }
}
