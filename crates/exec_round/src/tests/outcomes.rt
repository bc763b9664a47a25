// Calls of a queue of outcomes, and what a lane gives of its callbacks.
ghost use Rattle.std.specs.Prelude.{◌≡◌, ◌<◌, ◌∷◌, ◌++◌, [], true, map, IfOk, MatchOption};
ghost use Rattle.exec_lane.specs.declared.outcome.Outcome.{Outcome};
ghost use Rattle.exec_stream.specs.Outcomes.{first_hand};
ghost use Rattle.crossbeam_queue.specs.Passes.{IsPassOf, view};

use super::lanes::{EXCLUSIVE, split_first};
use super::world_of;
use crate::laws::{OutcomePass, OutcomeQueue, outcome_queue, put_outcome, take_outcome};
use exec_lane::{CopiedEffects, LaneBox, Open, Outcome};
use exec_msg::Memory;
use exec_script::{Close, Effect, EffectList, Effects};
use exec_world::World;
use std::alloc::Global;
use std::sync::Wait;
use std::test::Fail;

// An outcome of a callback that did nothing.
fn outcome(alloc: Global, position: usize) -> Result<Outcome, Memory>
    ensures { IfOk result (λ outcome. outcome.position ≡ position) }
{
    let nothing = Effects {
        list: EffectList::new(alloc),
        close: Close::Nothing,
    };
    Ok(Outcome {
        position,
        effects: CopiedEffects::of(alloc, &nothing)?,
    })
}

// Puts an outcome with this position, and answers the position of what came back.
fn put<R: Wait>(
    rt: &R,
    alloc: Global,
    queue: &OutcomeQueue,
    pass: &mut OutcomePass,
    position: usize,
) -> Result<Option<usize>, Memory>
    requires queue { IsPassOf queue.now pass.old }
    requires parts { 0 < (view pass.old).parts }
    ensures queue { IsPassOf queue.now pass.new }
    ensures parts { (view pass.new).parts ≡ (view pass.old).parts }
    ensures took { (view pass.new).took ≡ (view pass.old).took }
    ensures put { IfOk result (λ back. MatchOption back
        (map (λ (one : Outcome). one.position) (view pass.new).put ≡ map (λ (one : Outcome). one.position) (view pass.old).put ++ position ∷ [])
        (λ _. (view pass.new).put ≡ (view pass.old).put)) }
{
    let outcome = outcome(alloc, position)?;
    match put_outcome(rt, queue, pass, outcome) {
        Ok(()) => Ok(None),
        Err(back) => Ok(Some(back.position)),
    }
}

// Takes an outcome, and answers its position.
fn take<R: Wait>(rt: &R, queue: &OutcomeQueue, pass: &mut OutcomePass) -> Option<usize>
    requires queue { IsPassOf queue.now pass.old }
    requires parts { 0 < (view pass.old).parts }
    ensures queue { IsPassOf queue.now pass.new }
    ensures parts { (view pass.new).parts ≡ (view pass.old).parts }
    ensures put { (view pass.new).put ≡ (view pass.old).put }
    ensures took { MatchOption result ((view pass.new).took ≡ (view pass.old).took)
        (λ position. map (λ (one : Outcome). one.position) (view pass.new).took ≡ map (λ (one : Outcome). one.position) (view pass.old).took ++ position ∷ []) }
{
    match take_outcome(rt, queue, pass) {
        None => None,
        Some(outcome) => Some(outcome.position),
    }
}

// Puts one outcome more than a queue of two places has room for, takes until it is empty, and puts and takes once more. If that
// succeeded, the pass has put and taken each of the three once.
fn puts_and_takes<R: Wait>(
    rt: &R,
    alloc: Global,
    queue: &OutcomeQueue,
    pass: &mut OutcomePass,
) -> bool
    requires queue { IsPassOf queue.now pass.old }
    requires first { view pass.old ≡ first_hand }
    ensures put { result ≡ true → map (λ (one : Outcome). one.position) (view pass.new).put ≡ 1 ∷ 2 ∷ 3 ∷ [] }
    ensures took { result ≡ true → map (λ (one : Outcome). one.position) (view pass.new).took ≡ 1 ∷ 2 ∷ 3 ∷ [] }
{
    let Ok(None) = put(rt, alloc, queue, pass, 1) else {
        return false;
    };
    let Ok(None) = put(rt, alloc, queue, pass, 2) else {
        return false;
    };
    let Ok(Some(3)) = put(rt, alloc, queue, pass, 3) else {
        return false;
    };
    let Some(1) = take(rt, queue, pass) else {
        return false;
    };
    let Some(2) = take(rt, queue, pass) else {
        return false;
    };
    let None = take(rt, queue, pass) else {
        return false;
    };
    let Ok(None) = put(rt, alloc, queue, pass, 3) else {
        return false;
    };
    let Some(3) = take(rt, queue, pass) else {
        return false;
    };
    true
}

#[test]
fn outcomes_come_out_as_they_went_in(rt: HostRuntime) -> Result<(), Fail> {
    let (queue, mut pass) = outcome_queue(rt.alloc(), 2)?;
    assert!(rt; puts_and_takes(&rt, rt.alloc(), &queue, &mut pass));
    Ok(())
}

// Runs both callbacks of a lane, and gives what they did.
fn run_both(lane: &mut LaneBox) -> Result<(Outcome, Outcome), Memory> {
    if lane.is_finished() {
        return Err(Memory);
    }
    lane.run_next(&Open)?;
    if lane.is_finished() {
        return Err(Memory);
    }
    lane.run_next(&Open)?;
    if lane.done() < 2 {
        return Err(Memory);
    }
    Ok((lane.outcome(0)?, lane.outcome(1)?))
}

fn is_log(outcome: &Outcome, position: usize, value: i64) -> bool {
    outcome.position == position
        && outcome.effects.list() == [Effect::Log(value)].as_slice()
        && matches!(outcome.effects.close(), Close::Nothing)
}

// Whether the two callbacks of the first lane of a world's first round logged these values.
fn logs(alloc: Global, world: &mut World, values: [i64; 2]) -> Result<bool, Memory> {
    let mut lanes = split_first(alloc, world)?;
    let Some(lane) = lanes.get_mut(0) else {
        return Err(Memory);
    };
    let (first, second) = run_both(lane)?;
    Ok(is_log(&first, 1, values[0]) && is_log(&second, 2, values[1]))
}

// The same of a world that is made elsewhere.
fn logs_of(alloc: Global, mut world: World, values: [i64; 2]) -> Result<bool, Memory> {
    logs(alloc, &mut world, values)
}

#[test]
fn a_lane_tells_what_its_callbacks_did(rt: HostRuntime) -> Result<(), Fail> {
    let world = world_of(rt.alloc(), EXCLUSIVE)?;
    assert!(rt; logs_of(rt.alloc(), world, [0, 1])?);
    Ok(())
}
