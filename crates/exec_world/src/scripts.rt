//! The scripts of callbacks that a snapshot listed. They are the graph's.
ghost use Rattle.std.specs.Prelude.{◌≡◌, [], map, IfOk, OnOk};
ghost use Rattle.std.specs.Option.{option_copied, unwrap_or};
ghost use Rattle.exec_rules.specs.Ready.{kind_of};
ghost use Rattle.exec_rules.specs.inner.Listing.{positioned, with_script_of};
ghost use Rattle.exec_world.specs.inner.Snapshots.{placed_behind, scripted_poll};

use exec_goal::GoalInfo;
use exec_msg::{Elements, Kind, Memory, Moment};
use exec_plan::{Graph, Script};
use exec_rules::{AwakeGoal, Listed, Ready, share};
use exec_script::Instr;
use std::alloc::Global;
use std::sync::Arc;

// The script that a listed callback of this kind runs, if it runs one.
#[inline(always)]
pub(crate) fn script_of<'a>(graph: &'a Graph, listed: &Listed, kind: Kind) -> Option<&'a [Instr]>
    requires { kind_of listed.now.ready.cause ≡ kind }
    ensures { option_copied result ≡ (with_script_of graph.now listed.now).script }
{
    if !listed.runs {
        return None;
    }
    Some(instructions_of(graph.script(listed.ready.entity, kind)))
}

// The instructions of a script. There are none if there is no script.
#[inline(always)]
fn instructions_of(script: Option<&Script>) -> &[Instr]
    ensures { result.now ≡ unwrap_or (option_copied script.entry) [] }
{
    match script {
        Some(script) => script.as_slice(),
        None => &[],
    }
}

// Adds callbacks that a snapshot listed at their places, each with a share in its script.
pub(crate) fn push_listed(
    alloc: Global,
    graph: &Graph,
    list: &[Listed],
    all: &mut Vec<Ready>,
) -> Result<(), Memory>
    ensures { OnOk result (all.new.items ≡ placed_behind all.old.items (map (with_script_of graph.now) list.now)) }
{
    for listed in list {
        let position = all.as_slice().len() + 1;
        all.push(with_script(alloc, graph, listed, position)?)?;
    }
    Ok(())
}

// Adds the polls of goals at their places, each with a share in its script.
pub(crate) fn push_polls(
    alloc: Global,
    graph: &Graph,
    moment: Moment,
    goals: &[AwakeGoal],
    all: &mut Vec<Ready>,
) -> Result<(), Memory>
    ensures { OnOk result (all.new.items ≡ placed_behind all.old.items (map (scripted_poll graph.now moment) goals.now)) }
{
    for goal in goals {
        let script = shared(alloc, graph.script(goal.server, Kind::Poll))?;
        let position = all.as_slice().len() + 1;
        all.push(Ready {
            position,
            script: Some(script),
            ..goal.poll_at(alloc, moment)
        })?;
    }
    Ok(())
}

// A callback that a snapshot listed, with a share in its script, at this place.
#[inline(always)]
fn with_script(
    alloc: Global,
    graph: &Graph,
    listed: &Listed,
    position: usize,
) -> Result<Ready, Memory>
    ensures { IfOk result (λ ready. ready ≡ positioned position (with_script_of graph.now listed.now)) }
{
    let script = script_share(alloc, graph, listed)?;
    let candidates = copied(alloc, &listed.ready.candidates)?;
    Ok(Ready {
        position,
        entity: listed.ready.entity,
        group: listed.ready.group,
        exclusive: listed.ready.exclusive,
        moment: listed.ready.moment,
        cause: listed.ready.cause,
        candidates,
        script,
    })
}

// A copy of the goals that a cancel request may cancel. No memory is taken if there are none.
#[inline(always)]
fn copied(alloc: Global, candidates: &Elements<GoalInfo>) -> Result<Elements<GoalInfo>, Memory>
    ensures { IfOk result (λ copy. copy ≡ candidates.now) }
{
    let mut copy = Vec::new(alloc);
    if !candidates.is_empty() {
        copy.extend_from_slice(candidates.as_slice())?;
    }
    Ok(Elements::of(copy))
}

// A share in the script that a listed callback runs, if it runs one.
#[inline(always)]
fn script_share(alloc: Global, graph: &Graph, listed: &Listed) -> Result<Option<Script>, Memory>
    ensures { IfOk result (λ script. script ≡ (with_script_of graph.now listed.now).script) }
{
    if !listed.runs {
        return Ok(None);
    }
    let script = graph.script(listed.ready.entity, listed.ready.kind());
    Ok(Some(shared(alloc, script)?))
}

// One more share in a script. If there is none, the script does nothing.
#[inline(always)]
pub(crate) fn shared(alloc: Global, script: Option<&Script>) -> Result<Script, Memory>
    ensures { IfOk result (λ shared. shared ≡ unwrap_or (option_copied script.entry) []) }
{
    match script {
        Some(script) => share(script),
        None => empty(alloc),
    }
}

// A script that does nothing.
fn empty(alloc: Global) -> Result<Script, Memory>
    ensures { IfOk result (λ script. script ≡ []) }
{
    let instructions = Arc::new(alloc, Vec::new(alloc))?;
    Ok(Script::of(instructions))
}
