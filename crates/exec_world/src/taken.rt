//! Callbacks that take an item from a queue.
ghost use Rattle.std.specs.Prelude.{◌≡◌, [], None, Some, if◌then◌else◌, IfOk};
ghost use Rattle.std.specs.Option.{option_copied, option_map_or};
ghost use Rattle.exec_script.specs.Instruction.{Script};
ghost use Rattle.exec_rules.specs.Ready.{candidates_for, ready_for, script_to_take};
ghost use Rattle.exec_rules.specs.World.{has_room_for, records_of};
ghost use Rattle.exec_rules.specs.declared.ready.Cause.TheVariants as cause;
ghost use Rattle.exec_rules.specs.inner.Listing.{as_listed};

use exec_entity::Server;
use exec_goal::GoalInfo;
use exec_msg::{Elements, GoalId, Memory, Moment};
use exec_rules::{Cause, Handler, Item, Listed};
use std::alloc::Global;

// The callback that takes an item, as a snapshot lists it. The server is the item's entity, if that is one.
#[inline(always)]
pub(crate) fn listed_for_item(
    alloc: Global,
    moment: Moment,
    handler: &Handler,
    server: Option<&Server>,
    item: Item,
) -> Result<Listed, Memory>
    ensures { IfOk result (λ listed. listed ≡ as_listed (ready_for moment handler.now (cause.Took item)
        (candidates_for item (option_map_or (λ entry. records_of entry.held) (option_copied server.entry) []))
        (script_to_take item (option_map_or (λ entry. records_of entry.held) (option_copied server.entry) []) handler.now.script))) }
{
    let runs = runs_script(&item, server);
    let candidates = candidates_for(alloc, &item, server)?;
    Ok(handler.listed(moment, Cause::Took(item), candidates, runs))
}

#[inline(always)]
fn candidates_for(
    alloc: Global,
    item: &Item,
    server: Option<&Server>,
) -> Result<Elements<GoalInfo>, Memory>
    ensures { IfOk result (λ infos. infos ≡ candidates_for item.now (option_map_or (λ entry. records_of entry.held) (option_copied server.entry) [])) }
{
    match (item, server) {
        (Item::Cancel { request, .. }, Some(server)) => server.candidates(request),
        _ => Ok(Elements::new(alloc)),
    }
}

// Whether a script runs for an item. The server is the item's entity, if that is one.
#[inline(always)]
fn runs_script(item: &Item, server: Option<&Server>) -> bool
    ensures { (script : Script)
        → script_to_take item.now (option_map_or (λ entry. records_of entry.held) (option_copied server.entry) []) script
        ≡ (if result then Some script else None) }
{
    match item {
        Item::Ask { .. } => false,
        Item::Goal { id, .. } => has_room_for(server, *id),
        _ => true,
    }
}

fn has_room_for(server: Option<&Server>, id: GoalId) -> bool
    ensures { result ≡ has_room_for id (option_map_or (λ entry. records_of entry.held) (option_copied server.entry) []) }
{
    match server {
        Some(server) => server.has_room_for(id),
        None => true,
    }
}
