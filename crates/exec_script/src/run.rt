ghost use Rattle.std.specs.Prelude.{◌≡◌, ◌+◌, ◌-◌, ◌<◌, ◌≤◌, ◌^◌, ℤ, List, [], Option, None, length, vec_len, vec_capacity, IsOk, OnOk, OnErr, IfOk};
ghost use Rattle.exec_script.specs.Script.{at_least_0, step_of, WaitsWithin, listed, resumed, goal_decided, cancel_decided, close_of, HasCalled};
ghost use Rattle.exec_script.specs.inner.Steps.{PausesWithin};
ghost use Rattle.exec_script.specs.declared.effects.Effect.{Effect};

use crate::cells::{Bank, Regs};
use crate::effects::{Close, Effect, EffectList, Effects};
use crate::frame::Frame;
use crate::instr::{Instr, Opcode};
use crate::place::Role;
use crate::results::{Foreseen, Picked, Results};
use crate::step::{Step, Stop};
use exec_msg::{CancelDecision, Decision, Event, Memory, Moment};
use std::alloc::Global;
use std::marker::Model;

/// What a callback is handed.
#[derive(Clone, Copy, Debug, PartialEq, Eq)]
pub struct Input {
    /// `in`.
    pub first: i64,
    /// `aux`.
    pub aux: i64,
    /// `now`, the moment of the round.
    pub moment: Moment,
}

impl Model for Input {
    ghost use Rattle.exec_script.specs.Script.{CallInput};

    ghost Value = { CallInput };

    ghost view = { λ input. record { first = input.first; aux = input.aux; moment = input.moment } };

    ghost inverse = { λ call. record { first = call.first; aux = call.aux; moment = call.moment } };
}

/// Runs a script from its top to its end, with registers of 0, and closes it by its role. An empty one takes no memory.
///
/// # Errors
/// [`Memory`] if a growth was refused. The bank doesn't change.
pub fn run_call(
    alloc: Global,
    script: &[Instr],
    role: Role,
    bank: &mut Bank,
    input: &Input,
) -> Result<Effects, Memory>
    ensures called { IfOk result (λ effects. HasCalled script.now role input.now bank.old bank.new [] effects.list effects.close) }
    ensures memory { script.now ≡ [] → IsOk result }
    ensures unchanged { OnErr result (bank.new ≡ bank.old) }
{
    let mut list = EffectList::new(alloc);
    let close = run_call_into(script, role, bank, input, &mut list)?;
    Ok(Effects { list, close })
}

/// Runs a script as [`run_call`] does, and adds its effects after those that are listed. A list that was used before has room
/// already.
///
/// # Errors
/// [`Memory`] if a growth was refused. The bank and the effects don't change.
pub fn run_call_into(
    script: &[Instr],
    role: Role,
    bank: &mut Bank,
    input: &Input,
    effects: &mut EffectList,
) -> Result<Close, Memory>
    ensures called { IfOk result (λ close. HasCalled script.now role input.now bank.old bank.new effects.old effects.new close) }
    ensures memory { script.now ≡ [] → IsOk result }
    ensures unchanged_variables { OnErr result (bank.new ≡ bank.old) }
    ensures unchanged_effects { OnErr result (effects.new ≡ effects.old) }
{
    let mut close = Close::Nothing;
    run_with::<Foreseen<0>>(script, role, bank, input, effects, &mut close)?;
    Ok(close)
}

/// Runs a script as [`run_call_into`] does, but leaves what closes it in `close`. An answer would be copied by each function
/// that hands it on.
///
/// # Errors
/// [`Memory`] if a growth was refused. The bank and the effects don't change.
#[inline(always)]
pub fn run_call_closing(
    script: &[Instr],
    role: Role,
    bank: &mut Bank,
    input: &Input,
    effects: &mut EffectList,
    close: &mut Close,
) -> Result<(), Memory>
    ensures called { OnOk result (HasCalled script.now role input.now bank.old bank.new effects.old effects.new close.new) }
    ensures memory { script.now ≡ [] → IsOk result }
    ensures unchanged_variables { OnErr result (bank.new ≡ bank.old) }
    ensures unchanged_effects { OnErr result (effects.new ≡ effects.old) }
{
    run_with::<Picked>(script, role, bank, input, effects, close)
}

// The same, with a way of finding the results of operations.
#[inline(always)]
fn run_with<R: Results>(
    script: &[Instr],
    role: Role,
    bank: &mut Bank,
    input: &Input,
    effects: &mut EffectList,
    close: &mut Close,
) -> Result<(), Memory>
    ensures called { OnOk result (HasCalled script.now role input.now bank.old bank.new effects.old effects.new close.new) }
    ensures memory { script.now ≡ [] → IsOk result }
    ensures unchanged_variables { OnErr result (bank.new ≡ bank.old) }
    ensures unchanged_effects { OnErr result (effects.new ≡ effects.old) }
{
    if script.is_empty() {
        *close = close_of(role, None);
        return Ok(());
    }
    effects.items.reserve(script.len())?;
    let mut frame = Frame::new();
    frame.begin(bank, input);
    let mut answer = None;
    follow::<R>(script, 0, &mut frame, &mut answer, &mut effects.items);
    frame.put_bank(bank);
    *close = close_of(role, answer);
    Ok(())
}

/// Goes on with a script at a place, from these registers, until it stops, and answers where. Its effects are added after those
/// that are listed. A wait is for fewer than 2^63 ticks. At the script's end it takes no memory.
///
/// # Errors
/// [`Memory`] if a growth was refused. The registers, the bank and the effects don't change.
pub fn run_from(
    script: &[Instr],
    place: usize,
    regs: &mut Regs,
    bank: &mut Bank,
    input: &Input,
    effects: &mut EffectList,
) -> Result<Stop, Memory>
    ensures stop { IfOk result (λ stop. stop ≡ (resumed listed script.now place regs.old bank.old None input.now effects.old).stop) }
    ensures ticks { IfOk result (WaitsWithin (2 ^ 63)) }
    ensures registers { OnOk result (regs.new ≡ (resumed listed script.now place regs.old bank.old None input.now effects.old).registers) }
    ensures variables { OnOk result (bank.new ≡ (resumed listed script.now place regs.old bank.old None input.now effects.old).variables) }
    ensures effects { OnOk result (effects.new ≡ (resumed listed script.now place regs.old bank.old None input.now effects.old).given) }
    ensures memory { length script.now ≤ place → IsOk result }
    ensures unchanged_registers { OnErr result (regs.new ≡ regs.old) }
    ensures unchanged_variables { OnErr result (bank.new ≡ bank.old) }
    ensures unchanged_effects { OnErr result (effects.new ≡ effects.old) }
{
    if place >= script.len() {
        return Ok(Stop::End);
    }
    effects.items.reserve(script.len() - place)?;
    let mut frame = Frame::new();
    frame.fill(regs, bank, input);
    let mut answer = None;
    let stop = follow::<Foreseen<1>>(script, place, &mut frame, &mut answer, &mut effects.items);
    frame.put_regs(regs);
    frame.put_bank(bank);
    Ok(stop)
}

// Runs a script from a place until it stops, and answers where. An instruction gives at most one effect, so there is room for
// all of them.
fn follow<R: Results>(
    script: &[Instr],
    place: usize,
    frame: &mut Frame,
    answer: &mut Option<i64>,
    effects: &mut Vec<Effect>,
) -> Stop
    requires { vec_len effects.old + (length script.now - place) ≤ vec_capacity effects.old }
    ensures ends { record {
      registers = frame.new.registers;
      variables = frame.new.variables;
      reply_or_decision = answer.new;
      given = effects.new.items;
      stop = result;
    } ≡ resumed listed script.now place frame.old.registers frame.old.variables answer.old frame.old.input effects.old.items }
    ensures ticks { WaitsWithin (2 ^ 63) result }
{
    let mut pc = place;
    loop {
        pc = follow_sets::<R>(script, pc, frame);
        let Some(instr) = script.get(pc) else {
            return Stop::End;
        };
        let step = step_of::<R>(instr, frame);
        pc += 1;
        match step {
            Step::Store(target, value) => frame.write(target, value),
            Step::Skip(count) => pc = pc.saturating_add(count as usize),
            Step::Give(effect) => effects.push_reserved(effect),
            Step::Answer(value) => *answer = Some(value),
            Step::Wait(ticks) => return Stop::Wait(ticks, pc),
            Step::Yield => return Stop::Yield(pc),
            Step::Ended(event, value) => return Stop::Ended(event, value),
        }
    }
}

// Runs the `set`s from a place on, one after another, and answers where they end. Scripts have many of them. In a loop of their
// own, all that it needs stays in a processor's registers.
#[inline(always)]
fn follow_sets<R: Results>(script: &[Instr], place: usize, frame: &mut Frame) -> usize
    ensures behind { place ≤ result }
    ensures input { frame.new.input ≡ frame.old.input }
    ensures same_end { (answer : Option ℤ) → (given : List Effect)
        → resumed listed script.now result frame.new.registers frame.new.variables answer frame.new.input given
        ≡ resumed listed script.now place frame.old.registers frame.old.variables answer frame.old.input given }
{
    let mut pc = place;
    while pc < script.len() {
        let Step::Store(target, value) = step_of::<R>(&script[pc], frame) else {
            break;
        };
        frame.write(target, value);
        pc += 1;
    }
    pc
}

#[inline(always)]
fn close_of(role: Role, answer: Option<i64>) -> Close
    ensures { result ≡ close_of role answer }
{
    match role {
        Role::Callback | Role::Goal => Close::Nothing,
        Role::Service => Close::Reply(answer.unwrap_or(0)),
        Role::GoalHandler => Close::Decide(goal_decided(answer)),
        Role::CancelHandler => Close::DecideCancel(cancel_decided(answer)),
    }
}

fn goal_decided(answer: Option<i64>) -> Decision
    ensures { result ≡ goal_decided answer }
{
    match answer {
        Some(2) => Decision::Execute,
        Some(3) => Decision::Defer,
        _ => Decision::Reject,
    }
}

fn cancel_decided(answer: Option<i64>) -> CancelDecision
    ensures { result ≡ cancel_decided answer }
{
    match answer {
        Some(2) => CancelDecision::Accept,
        _ => CancelDecision::Reject,
    }
}

#[inline(always)]
fn step_of<R: Results>(instr: &Instr, frame: &Frame) -> Step
    ensures does { result ≡ step_of instr.now frame.now.registers frame.now.variables frame.now.input }
    ensures ticks { PausesWithin (2 ^ 63) result }
{
    let flat = &instr.flat;
    let left = frame.read(flat.left_place, flat.left);
    let right = frame.read(flat.right_place, flat.right);
    let entity = flat.entity;
    match flat.opcode {
        Opcode::Set => Step::Store(flat.target, R::of(flat.operation, left, right)),
        Opcode::Skip => Step::Skip(if left == 0 { 0 } else { at_least_0(right) }),
        Opcode::Pub => Step::Give(Effect::Publish {
            topic: entity,
            value: left,
        }),
        Opcode::Call => Step::Give(Effect::Call {
            client: entity,
            value: left,
        }),
        Opcode::Goal => Step::Give(Effect::SendGoal {
            client: entity,
            value: left,
        }),
        Opcode::CancelAll => Step::Give(Effect::CancelAll {
            client: entity,
            stamp: at_least_0(left),
        }),
        Opcode::CancelGoal => Step::Give(Effect::CancelGoal {
            client: entity,
            goal: at_least_0(left),
            stamp: at_least_0(right),
        }),
        Opcode::Execute => Step::Give(Effect::Execute { server: entity }),
        Opcode::Log => Step::Give(Effect::Log(left)),
        Opcode::Reply | Opcode::Decide => Step::Answer(left),
        Opcode::Feedback => Step::Give(Effect::Feedback(left)),
        Opcode::Wait => Step::Wait(at_least_0(left)),
        Opcode::Yield => Step::Yield,
        Opcode::Succeed => Step::Ended(Event::Succeed, left),
        Opcode::Abort => Step::Ended(Event::Abort, left),
        Opcode::Canceled => Step::Ended(Event::Canceled, left),
    }
}

fn at_least_0(value: i64) -> u64
    ensures value { result ≡ at_least_0 value }
    ensures bound { result < 2 ^ 63 }
{
    if value < 0 { 0 } else { value as u64 }
}
