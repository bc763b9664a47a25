mod arithmetic;
mod decoding;
mod spellings;

ghost use Rattle.std.specs.Prelude.{◌≤◌, ◌^◌};

use crate::shared::{moment, same, same_at};
use arithmetic::RESULTS;
use decoding::decoded;
use exec_msg::{CancelDecision, EntityNo, Event, Memory};
use exec_script::{
    Bank, Close, Destination, Effect, EffectList, Effects, Input, Instr, Operand, Operation, Place,
    Regs, Role, ScriptFault, Slot, Stop, WordText, check, run_call, run_call_into, run_from,
};
use spellings::LEGALITIES;
use std::alloc::Global;
use std::process::Abort;
use std::test::Fail;

fn legality(alloc: Global, place: Place, script: &str) -> Result<(), ScriptFault> {
    let instrs = decoded(alloc, script)?;
    check(instrs.as_slice(), place)
}

#[test]
fn checks_what_the_rules_allow(rt: HostRuntime) {
    for (reentrant, role, script, wanted) in LEGALITIES {
        let place = Place {
            reentrant: *reentrant,
            role: *role,
        };
        same_at(&rt, script, legality(rt.alloc(), place, script), *wanted);
    }
}

fn input(first: i64, aux: i64, ticks: u64) -> Input
    requires { ticks ≤ 2 ^ 62 }
{
    Input {
        first,
        aux,
        moment: moment(ticks),
    }
}

// Runs a script as a call. If memory is refused, the bank must not change, and the call is made once more.
fn called(
    alloc: Global,
    script: &str,
    role: Role,
    bank: &mut Bank,
    input: &Input,
) -> Result<Effects, Fail> {
    let instrs = decoded(alloc, script)?;
    let before = *bank;
    match run_call(alloc, instrs.as_slice(), role, bank, input) {
        Ok(effects) => Ok(effects),
        Err(Memory) if *bank == before => Ok(run_call(
            alloc,
            instrs.as_slice(),
            role,
            bank,
            input,
        )?),
        Err(Memory) => Err(Fail::new("a refused call left other variables")),
    }
}

// Whether a call gives these effects and is closed by nothing.
fn gives(
    alloc: Global,
    script: &str,
    bank: &mut Bank,
    input: &Input,
    wanted: &[Effect],
) -> Result<bool, Fail> {
    let effects = called(alloc, script, Role::Callback, bank, input)?;
    Ok(effects.list.as_slice() == wanted && matches!(effects.close, Close::Nothing))
}

// What closes a call of values 5 and 6, as it prints.
fn closed(alloc: Global, role: Role, script: &str) -> Result<String, Fail> {
    let effects = called(alloc, script, role, &mut Bank::new(), &input(5, 6, 7))?;
    Ok(format!(in alloc; "{:?}", effects.close)?)
}

// What an operation gives for two values.
fn result_of(alloc: Global, operation: &str, left: i64, right: i64) -> Result<i64, Fail> {
    let script = format!(in alloc; "set r0 {operation} in aux\nreply r0")?;
    let input = input(left, right, 0);
    match called(alloc, &script, Role::Service, &mut Bank::new(), &input)?.close {
        Close::Reply(value) => Ok(value),
        _ => Err(Fail::new("no reply")),
    }
}

#[test]
fn wraps_at_64_bits(rt: HostRuntime) -> Result<(), Fail> {
    for (operation, left, right, wanted) in RESULTS {
        let found = result_of(rt.alloc(), operation, *left, *right)?;
        same_at(
            &rt,
            operation,
            (*left, *right, found),
            (*left, *right, *wanted),
        );
    }
    Ok(())
}

const EVERY_EFFECT: &str = "set g1 add now 1
skip 0 2
pub x in
call c aux
skip g1 1
log 1
goal ac now
cancel ac all
cancel ac before -5
cancel ac before 20
cancel ac goal 0
cancel ac goal-before 3 9
execute a
log g1";

const ITS_EFFECTS: [Effect; 10] = [
    Effect::Publish {
        topic: EntityNo(0),
        value: 7,
    },
    Effect::Call {
        client: EntityNo(3),
        value: -8,
    },
    Effect::SendGoal {
        client: EntityNo(6),
        value: 40,
    },
    Effect::CancelAll {
        client: EntityNo(6),
        stamp: 0,
    },
    Effect::CancelAll {
        client: EntityNo(6),
        stamp: 0,
    },
    Effect::CancelAll {
        client: EntityNo(6),
        stamp: 20,
    },
    Effect::CancelGoal {
        client: EntityNo(6),
        goal: 0,
        stamp: 0,
    },
    Effect::CancelGoal {
        client: EntityNo(6),
        goal: 3,
        stamp: 9,
    },
    Effect::Execute {
        server: EntityNo(5),
    },
    Effect::Log(41),
];

#[test]
fn gives_each_effect(rt: HostRuntime) -> Result<(), Fail> {
    let mut bank = Bank::new();
    let input = input(7, -8, 40);
    let is_given = gives(rt.alloc(), EVERY_EFFECT, &mut bank, &input, &ITS_EFFECTS)?;
    same(&rt, is_given, true);
    Ok(())
}

fn slot_0() -> Slot {
    Slot::new(0).unwrap()
}

// Registers are 0 at each call, and variables are kept from call to call.
#[test]
fn keeps_variables_alone(rt: HostRuntime) -> Result<(), Fail> {
    let script = "set r0 add r0 1\nset g0 add g0 1\nlog r0\nlog g0";
    let mut bank = Bank::new();
    for count in [1, 2, 3] {
        let logged = [Effect::Log(1), Effect::Log(count)];
        let is_given = gives(rt.alloc(), script, &mut bank, &input(0, 0, 0), &logged)?;
        same(&rt, (is_given, bank.get(slot_0())), (true, count));
    }
    Ok(())
}

// Calls into one list add their effects one after another, until it is cleared.
#[test]
fn calls_into_one_list(rt: HostRuntime) -> Result<(), Fail> {
    let mut effects = EffectList::new(rt.alloc());
    decides_thrice(&rt, &mut effects)?;
    let logged = [Effect::Log(1), Effect::Log(2), Effect::Log(3)];
    same(&rt, effects.as_slice(), logged.as_slice());
    effects.clear();
    same(&rt, effects.len(), 0);
    Ok(())
}

fn decides_thrice(rt: &impl Abort, effects: &mut EffectList) -> Result<(), Fail> {
    let mut bank = Bank::new();
    for (candidate, wanted) in [
        (1, CancelDecision::Reject),
        (2, CancelDecision::Accept),
        (3, CancelDecision::Reject),
    ] {
        same(rt, decides(&mut bank, candidate, effects)?, wanted);
    }
    Ok(())
}

// Counts and logs the calls in `g0`, and decides by what comes in.
fn decides(
    bank: &mut Bank,
    candidate: i64,
    effects: &mut EffectList,
) -> Result<CancelDecision, Fail> {
    let script = [
        Instr::set(
            Destination::Variable(slot_0()),
            Operation::Add,
            Operand::Variable(slot_0()),
            Operand::Value(1),
        ),
        Instr::log(Operand::Variable(slot_0())),
        Instr::decide(Operand::In),
    ];
    let input = input(candidate, 0, 0);
    match run_call_into(&script, Role::CancelHandler, bank, &input, effects)? {
        Close::DecideCancel(decision) => Ok(decision),
        _ => Err(Fail::new("no decision")),
    }
}

// A role, a script, and what closes its call.
const CLOSES: &[(Role, &str, &str)] = &[
    (Role::Callback, "log 1", "Nothing"),
    (Role::Service, "log 1", "Reply(0)"),
    (Role::Service, "reply in\nreply aux", "Reply(6)"),
    (Role::Service, "reply 9\nskip 1 1\nreply 1", "Reply(9)"),
    (Role::GoalHandler, "log 1", "Decide(Reject)"),
    (Role::GoalHandler, "decide 2", "Decide(Execute)"),
    (Role::GoalHandler, "decide 2\ndecide 3", "Decide(Defer)"),
    (Role::GoalHandler, "decide 4", "Decide(Reject)"),
    (Role::GoalHandler, "decide 0", "Decide(Reject)"),
    (Role::GoalHandler, "decide 258", "Decide(Reject)"),
    (Role::CancelHandler, "log 1", "DecideCancel(Reject)"),
    (Role::CancelHandler, "decide 2", "DecideCancel(Accept)"),
    (Role::CancelHandler, "decide 3", "DecideCancel(Reject)"),
    (Role::CancelHandler, "decide -2", "DecideCancel(Reject)"),
];

#[test]
fn closes_by_the_role(rt: HostRuntime) -> Result<(), Fail> {
    for (role, script, wanted) in CLOSES {
        let found = closed(rt.alloc(), *role, script)?;
        same_at(&rt, script, found.as_str(), *wanted);
    }
    Ok(())
}

// Whether a copy of what a call did has the same effects and the same close.
fn is_call_copied(alloc: Global, role: Role, script: &str) -> Result<bool, Fail> {
    let effects = called(alloc, script, role, &mut Bank::new(), &input(5, 6, 7))?;
    let copy = Effects::copy_of(alloc, &effects)?;
    let close = format!(in alloc; "{:?}", effects.close)?;
    let copied = format!(in alloc; "{:?}", copy.close)?;
    Ok(copy.list.as_slice() == effects.list.as_slice() && copied.as_str() == close.as_str())
}

#[test]
fn copies_what_a_call_did(rt: HostRuntime) -> Result<(), Fail> {
    for (role, script, _) in CLOSES {
        same_at(
            &rt,
            script,
            is_call_copied(rt.alloc(), *role, script)?,
            true,
        );
    }
    same(
        &rt,
        is_call_copied(rt.alloc(), Role::Callback, EVERY_EFFECT)?,
        true,
    );
    Ok(())
}

/// What a goal's script goes on from.
#[derive(Drop)]
struct Work {
    regs: Regs,
    bank: Bank,
    effects: EffectList,
}

impl Work {
    fn new(alloc: Global) -> Work {
        Work {
            regs: Regs::new(),
            bank: Bank::new(),
            effects: EffectList::new(alloc),
        }
    }

    fn run(&mut self, script: &[Instr], place: usize) -> Result<Stop, Memory> {
        run_from(
            script,
            place,
            &mut self.regs,
            &mut self.bank,
            &input(5, 0, 10),
            &mut self.effects,
        )
    }

    // Goes on with a script. If memory is refused, nothing changes, and the call is made once more.
    fn goes_on(&mut self, script: &[Instr], place: usize) -> Result<Stop, Fail> {
        let (regs, bank, count) = (self.regs, self.bank, self.effects.len());
        if let Ok(stop) = self.run(script, place) {
            return Ok(stop);
        }
        if self.regs != regs || self.bank != bank || self.effects.len() != count {
            return Err(Fail::new("a refused poll left something else"));
        }
        Ok(self.run(script, place)?)
    }

    // Where a script stops first, and where it stops after that.
    fn stops(&mut self, script: &[Instr]) -> Result<[Stop; 2], Fail> {
        let first = self.goes_on(script, 0)?;
        let place = match first {
            Stop::Wait(_, next) | Stop::Yield(next) => next,
            Stop::Ended(..) | Stop::End => script.len(),
        };
        Ok([first, self.goes_on(script, place)?])
    }
}

// Where a script stops first, and where it stops after that.
fn stops(alloc: Global, script: &str) -> Result<[Stop; 2], Fail> {
    let instrs = decoded(alloc, script)?;
    Work::new(alloc).stops(instrs.as_slice())
}

// A script, where it stops first, and where it stops after that.
const STOPS: &[(&str, [Stop; 2])] = &[
    (
        "yield\nsucceed 9",
        [Stop::Yield(1), Stop::Ended(Event::Succeed, 9)],
    ),
    (
        "wait 5\nabort in",
        [Stop::Wait(5, 1), Stop::Ended(Event::Abort, 5)],
    ),
    (
        "wait -3\ncanceled now",
        [Stop::Wait(0, 1), Stop::Ended(Event::Canceled, 10)],
    ),
    (
        "set r0 add r0 3\nwait in\nwait r0",
        [Stop::Wait(5, 2), Stop::Wait(3, 3)],
    ),
    ("skip 1 1\nyield\nyield", [Stop::Yield(3), Stop::End]),
    ("wait 1", [Stop::Wait(1, 1), Stop::End]),
    ("log 1", [Stop::End, Stop::End]),
];

#[test]
fn stops_and_goes_on(rt: HostRuntime) -> Result<(), Fail> {
    for (script, wanted) in STOPS {
        same_at(&rt, script, stops(rt.alloc(), script)?, *wanted);
    }
    Ok(())
}

// A poll's effects are added after those that are listed, and registers are kept over the polls.
#[test]
fn adds_to_the_effects(rt: HostRuntime) -> Result<(), Fail> {
    let instrs = decoded(
        rt.alloc(),
        "set r0 add r0 1\nfeedback r0\nlog in\nyield\nset g0 add r0 1\nfeedback g0\nlog r0",
    )?;
    let mut work = Work::new(rt.alloc());
    goes_to_its_end(&rt, instrs.as_slice(), &mut work)
}

fn goes_to_its_end(rt: &impl Abort, script: &[Instr], work: &mut Work) -> Result<(), Fail> {
    same(rt, work.stops(script)?, [Stop::Yield(4), Stop::End]);
    let wanted = [
        Effect::Feedback(1),
        Effect::Log(5),
        Effect::Feedback(2),
        Effect::Log(1),
    ];
    same(rt, work.effects.as_slice(), wanted.as_slice());
    Ok(())
}

// A word has its text, whether it holds 24 bytes in place or has memory for more.
#[test]
fn holds_short_and_long_texts(rt: HostRuntime) -> Result<(), Fail> {
    for text in ["", "a_topic_of_24_characters", "a_topic_of_25_characters_"] {
        same_at(&rt, text, is_copied(rt.alloc(), text)?, true);
    }
    Ok(())
}

fn is_copied(alloc: Global, text: &str) -> Result<bool, Memory> {
    Ok(WordText::copy_of(alloc, text)?.as_str() == text)
}
