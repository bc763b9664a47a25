//! Entities of a graph. Their references are resolved and their scripts decoded.
ghost use Rattle.std.specs.Prelude.{◌≡◌};
ghost use Rattle.exec_graph.specs.inner.Directory.{scope_in, resolved_by};
ghost use Rattle.exec_plan.specs.Entity.{if_there};
ghost use Rattle.exec_graph.specs.inner.Gives.{Gives};
ghost use Rattle.exec_graph.specs.Resolved.{resolved_script};
ghost use Rattle.exec_graph.specs.declared.draft.resolve.Unread.TheVariants as unread;

use crate::draft::Drafted;
use crate::draft::scope::NodeScope;
use crate::spelled::Spelled;
use exec_msg::EntityNo;
use exec_plan::{
    ActionClientEntity, ClientEntity, EntityOf, Script, ServerEntity, ServiceEntity,
    SubscriptionEntity, TimerEntity,
};
use exec_script::{ScriptFault, decode};
use std::alloc::{AllocFailed, Global};
use std::sync::Arc;

type Resolved = EntityOf<EntityNo, Script>;

// Why an entity isn't read.
#[derive(Clone, Copy)]
pub(crate) enum Unread {
    // A growth was refused.
    Memory,
    // A name isn't declared, or a script is misspelt.
    Wrong,
}

impl<T: Drop> From<AllocFailed<T>> for Unread {
    ghost from_gives = { λ _ fault. fault ≡ unread.Memory };

    fn from(_refused: AllocFailed<T>) -> Unread {
        Unread::Memory
    }
}

// What an entity of the scope's node is that refers to this number.
pub(crate) fn resolve(
    alloc: Global,
    scope: &NodeScope<'_, '_>,
    reference: Option<EntityNo>,
    entity: &Drafted,
) -> Result<Resolved, Unread>
    ensures { Gives result (resolved_by scope.now reference entity.now) }
{
    Ok(match entity {
        EntityOf::Timer(entity) => EntityOf::Timer(TimerEntity {
            period: entity.period,
            script: resolved_script(alloc, scope, &entity.script)?,
        }),
        EntityOf::Subscription(entity) => EntityOf::Subscription(SubscriptionEntity {
            topic: reference.ok_or(Unread::Wrong)?,
            depth: entity.depth,
            script: resolved_script(alloc, scope, &entity.script)?,
        }),
        EntityOf::Service(entity) => EntityOf::Service(ServiceEntity {
            depth: entity.depth,
            script: resolved_script(alloc, scope, &entity.script)?,
        }),
        EntityOf::Client(entity) => EntityOf::Client(ClientEntity {
            service: reference.ok_or(Unread::Wrong)?,
            depth: entity.depth,
            script: resolved_script(alloc, scope, &entity.script)?,
        }),
        EntityOf::Server(entity) => EntityOf::Server(ServerEntity {
            depth: entity.depth,
            result_timeout: entity.result_timeout,
            on_goal: resolved_script(alloc, scope, &entity.on_goal)?,
            on_cancel: resolved_script(alloc, scope, &entity.on_cancel)?,
            script: resolved_script(alloc, scope, &entity.script)?,
        }),
        EntityOf::ActionClient(entity) => EntityOf::ActionClient(ActionClientEntity {
            server: reference.ok_or(Unread::Wrong)?,
            depth: entity.depth,
            on_response: resolved_script(alloc, scope, &entity.on_response)?,
            on_code: resolved_script(alloc, scope, &entity.on_code)?,
            on_feedback: resolved_script(alloc, scope, &entity.on_feedback)?,
            on_result: result_script_in(alloc, scope, &entity.on_result)?,
        }),
    })
}

// The script for results, if an action client has one.
fn result_script_in(
    alloc: Global,
    scope: &NodeScope<'_, '_>,
    words: &Option<Spelled>,
) -> Result<Option<Script>, Unread>
    ensures { Gives result (if_there (resolved_script (scope_in scope.now.directory scope.now.node)) words.now) }
{
    let Some(words) = words else {
        return Ok(None);
    };
    let script = resolved_script(alloc, scope, words)?;
    Ok(Some(script))
}

fn resolved_script(
    alloc: Global,
    scope: &NodeScope<'_, '_>,
    words: &Spelled,
) -> Result<Script, Unread>
    ensures { Gives result (resolved_script (scope_in scope.now.directory scope.now.node) words.now) }
{
    match decode(alloc, words.as_slice(), scope) {
        Ok(script) => Ok(Script::of(Arc::new(alloc, script)?)),
        Err(ScriptFault::Memory) => Err(Unread::Memory),
        Err(_) => Err(Unread::Wrong),
    }
}
