use crate::shared::same;
use exec_msg::{Event, Memory, Moment};
use exec_script::{Bank, Destination, Effect, Instr, Operand, Operation, Slot};
use exec_task::{
    Already, Answer, Ending, GoalTask, PendingCall, Poller, Turn, Wait, is_awake, poll_goal,
};
use futures::task::Poll;
use futures::{Future, FutureExt};
use std::alloc::Global;
use std::process::Abort;
use std::sync::Arc;
use std::test::Fail;
use std::thread;

const NEXT_ROUND: Answer = Answer::Pending(Wait::NextRound);

fn succeed_9() -> Instr {
    Instr::succeed(Operand::Value(9))
}

fn log_aux() -> Instr {
    Instr::log(Operand::Aux)
}

fn until(time: u64) -> Answer {
    Answer::Pending(Wait::Until(time))
}

fn ended(event: Event, value: i64) -> Answer {
    Answer::Ready(Ending { event, value })
}

fn succeeded_9() -> Answer {
    ended(Event::Succeed, 9)
}

fn wait(ticks: i64) -> Instr {
    Instr::wait(Operand::Value(ticks))
}

fn slot_0() -> Slot {
    let Some(slot) = Slot::new(0) else {
        unreachable!()
    };
    slot
}

fn value_7() -> Operand {
    Operand::Value(7)
}

fn register_0() -> Operand {
    Operand::Register(slot_0())
}

fn variable_0() -> Operand {
    Operand::Variable(slot_0())
}

// `destination` becomes `operand` and 1.
fn one_more(destination: Destination, operand: Operand) -> Instr {
    Instr::set(destination, Operation::Add, operand, Operand::Value(1))
}

// A poll of a goal in a round: whether the goal is awake then, what the poll answers, and the value that it logs, if any.
#[derive(Clone, Copy)]
struct Step {
    ticks: u64,
    canceling: bool,
    awake: bool,
    answer: Answer,
    logged: Option<i64>,
}

impl Step {
    fn canceling(self) -> Step {
        Step {
            canceling: true,
            ..self
        }
    }

    fn asleep(self) -> Step {
        Step {
            awake: false,
            ..self
        }
    }

    fn logs(self, value: i64) -> Step {
        Step {
            logged: Some(value),
            ..self
        }
    }
}

// The poll of a goal that is awake and isn't being canceled.
fn at(ticks: u64, answer: Answer) -> Step {
    Step {
        ticks,
        canceling: false,
        awake: true,
        answer,
        logged: None,
    }
}

// A goal of value 5, with the variables of its group.
#[derive(Drop)]
struct Trial {
    alloc: Global,
    task: GoalTask,
    bank: Bank,
    poller: Poller,
}

impl Trial {
    fn of(alloc: Global, script: &[Instr]) -> Result<Trial, Memory> {
        let mut instructions = Vec::new(alloc);
        instructions.extend_from_slice(script)?;
        Ok(Trial {
            alloc,
            task: GoalTask::new(Arc::new(alloc, instructions)?, 5),
            bank: Bank::new(),
            poller: Poller::new(alloc)?,
        })
    }

    // Whether a poll in a round gives this answer and these effects.
    fn gives(
        &mut self,
        ticks: u64,
        canceling: bool,
        answer: Answer,
        effects: &[Effect],
    ) -> Result<bool, Memory> {
        let Some(moment) = Moment::new(ticks) else {
            return Ok(false);
        };
        let turn = Turn { moment, canceling };
        let mut context = self.poller.begin();
        let polled = poll_goal(
            self.alloc,
            &mut self.task,
            &mut self.bank,
            &turn,
            &mut context,
        );
        context.cancel();
        let polled = polled?;
        Ok(polled.answer == answer && polled.effects.as_slice() == effects)
    }

    fn is_awake(&self, ticks: u64, canceling: bool) -> bool {
        match Moment::new(ticks) {
            Some(moment) => is_awake(&self.task, moment, canceling),
            None => false,
        }
    }

    // Whether a poll is as it should be.
    fn takes(&mut self, step: Step) -> Result<bool, Memory> {
        if self.is_awake(step.ticks, step.canceling) != step.awake {
            return Ok(false);
        }
        match step.logged {
            None => self.gives(step.ticks, step.canceling, step.answer, &[]),
            Some(value) => {
                let logged = [Effect::Log(value)];
                self.gives(step.ticks, step.canceling, step.answer, &logged)
            }
        }
    }
}

// A function that owns a goal's task is proved over all that a task drops, once for each way out. So a goal is made here for
// the tests, and lent once.
fn goes(rt: &impl Abort, alloc: Global, script: &[Instr], steps: &[Step]) -> Result<(), Fail> {
    let mut goal = Trial::of(alloc, script)?;
    takes_all(rt, &mut goal, steps)
}

fn takes_all(rt: &impl Abort, goal: &mut Trial, steps: &[Step]) -> Result<(), Fail> {
    for (number, step) in steps.iter().enumerate() {
        let is_as_said = goal.takes(*step)?;
        assert!(rt; is_as_said, "at poll {number}");
    }
    Ok(())
}

#[test]
fn a_goal_that_yields_goes_on_behind_it(rt: HostRuntime) -> Result<(), Fail> {
    let steps = [
        at(10, NEXT_ROUND),
        at(10, succeeded_9()),
        at(11, succeeded_9()).canceling().asleep(),
    ];
    goes(&rt, rt.alloc(), &[Instr::pend(), succeed_9()], &steps)
}

#[test]
fn a_goal_that_waits_goes_on_at_its_time(rt: HostRuntime) -> Result<(), Fail> {
    let steps = [
        at(10, until(15)),
        at(12, until(15)).asleep(),
        at(15, succeeded_9()),
    ];
    goes(&rt, rt.alloc(), &[wait(5), succeed_9()], &steps)
}

// Its registers are kept.
#[test]
fn a_goal_that_falls_off_its_end_starts_again(rt: HostRuntime) -> Result<(), Fail> {
    let script = [
        one_more(Destination::Register(slot_0()), register_0()),
        Instr::log(register_0()),
    ];
    let steps = [at(10, NEXT_ROUND).logs(1), at(10, NEXT_ROUND).logs(2)];
    goes(&rt, rt.alloc(), &script, &steps)?;
    let idle = [at(10, NEXT_ROUND), at(11, NEXT_ROUND).canceling()];
    goes(&rt, rt.alloc(), &[], &idle)
}

// One poll that does nothing comes between the stop and the top.
#[test]
fn a_stop_that_stands_last_ends_the_script(rt: HostRuntime) -> Result<(), Fail> {
    let log_in = Instr::log(Operand::In);
    let waits = [
        at(10, until(15)).logs(5),
        at(15, NEXT_ROUND),
        at(15, until(20)).logs(5),
    ];
    goes(&rt, rt.alloc(), &[log_in, wait(5)], &waits)?;
    let yields = [
        at(10, NEXT_ROUND).logs(5),
        at(11, NEXT_ROUND),
        at(12, NEXT_ROUND).logs(5),
    ];
    goes(&rt, rt.alloc(), &[log_in, Instr::pend()], &yields)
}

#[test]
fn waits_end_at_their_time(rt: HostRuntime) -> Result<(), Fail> {
    for ticks in [0, -1, i64::MIN] {
        let steps = [at(10, until(10)), at(10, succeeded_9())];
        goes(&rt, rt.alloc(), &[wait(ticks), succeed_9()], &steps)?;
    }
    let (last, beyond) = (1 << 62, (1 << 62) + (1 << 63) - 1);
    let steps = [at(last, until(beyond)), at(last, until(beyond)).asleep()];
    goes(&rt, rt.alloc(), &[wait(i64::MAX), succeed_9()], &steps)
}

// An ending, the event that ends a goal that isn't being canceled, and the event that ends one that is.
fn endings() -> [(Instr, Event, Event); 3] {
    [
        (Instr::succeed(value_7()), Event::Succeed, Event::Succeed),
        (Instr::abort(value_7()), Event::Abort, Event::Abort),
        (Instr::canceled(value_7()), Event::Abort, Event::Canceled),
    ]
}

#[test]
fn an_ending_is_as_the_script_says(rt: HostRuntime) -> Result<(), Fail> {
    for (ending, unasked, asked) in endings() {
        let script = [log_aux(), ending, Instr::log(value_7())];
        let (left, canceled) = (ended(unasked, 7), ended(asked, 7));
        goes(
            &rt,
            rt.alloc(),
            &script,
            &[at(10, left).logs(0), at(11, left).asleep()],
        )?;
        goes(
            &rt,
            rt.alloc(),
            &script,
            &[
                at(10, canceled).canceling().logs(1),
                at(11, canceled).canceling().asleep(),
            ],
        )?;
    }
    Ok(())
}

#[test]
fn a_canceling_goal_is_told_once(rt: HostRuntime) -> Result<(), Fail> {
    let script = [wait(100), log_aux(), wait(100), log_aux(), succeed_9()];
    let steps = [
        at(10, until(110)),
        at(20, until(110)).asleep(),
        at(30, until(130)).canceling().logs(1),
        at(40, until(130)).canceling().asleep(),
        at(130, succeeded_9()).canceling().logs(1),
    ];
    goes(&rt, rt.alloc(), &script, &steps)
}

// Registers are the goal's own, and variables its group's.
#[test]
fn a_goal_keeps_its_registers_while_it_pends(rt: HostRuntime) -> Result<(), Fail> {
    let script = [
        one_more(Destination::Register(slot_0()), Operand::In),
        one_more(Destination::Variable(slot_0()), variable_0()),
        wait(5),
        Instr::log(register_0()),
        Instr::log(variable_0()),
        Instr::log(Operand::Now),
        Instr::feedback(register_0()),
        succeed_9(),
    ];
    let mut goal = Trial::of(rt.alloc(), &script)?;
    keeps_registers(&rt, &mut goal)
}

fn keeps_registers(rt: &impl Abort, goal: &mut Trial) -> Result<(), Fail> {
    same(rt, goal.gives(10, false, until(15), &[])?, true);
    same(rt, goal.bank.get(slot_0()), 1);
    goal.bank.set(slot_0(), 40);
    let effects = [
        Effect::Log(6),
        Effect::Log(40),
        Effect::Log(16),
        Effect::Feedback(6),
    ];
    same(rt, goal.gives(16, false, succeeded_9(), &effects)?, true);
    same(rt, goal.bank.get(slot_0()), 40);
    Ok(())
}

// This is also run with each allocation refused, one after another. If one is refused before the first poll, nothing is left to
// look at.
#[test]
fn a_refused_poll_leaves_all_as_it_was(rt: HostRuntime) {
    let script = [
        one_more(Destination::Variable(slot_0()), variable_0()),
        Instr::log(variable_0()),
        Instr::log(variable_0()),
        Instr::log(variable_0()),
        wait(5),
        succeed_9(),
    ];
    if let Ok(mut goal) = Trial::of(rt.alloc(), &script) {
        polls_or_lacks_memory(&rt, &mut goal);
    }
}

fn polls_or_lacks_memory(rt: &impl Abort, goal: &mut Trial) {
    let logged = [Effect::Log(1), Effect::Log(1), Effect::Log(1)];
    match goal.gives(10, true, until(15), &logged) {
        Ok(is_given) => {
            same(rt, (is_given, goal.bank.get(slot_0())), (true, 1));
            same(rt, goal.gives(15, true, succeeded_9(), &[]), Ok(true));
        }
        Err(Memory) => {
            same(rt, goal.is_awake(10, false), true);
            same(rt, goal.gives(11, false, NEXT_ROUND, &[]), Err(Memory));
            same(rt, goal.gives(11, true, until(15), &logged), Err(Memory));
            same(rt, goal.bank.get(slot_0()), 0);
        }
    }
}

#[test]
fn a_pending_goal_goes_on_in_another_thread(rt: HostRuntime) -> Result<(), Fail> {
    let mut goal = Trial::of(rt.alloc(), &[wait(5), succeed_9()])?;
    let here = goal.takes(at(10, until(15)));
    let (there, ()) = thread::join(&rt, || goal.takes(at(15, succeeded_9())), || ());
    same(&rt, (here, there), (Ok(true), Ok(true)));
    Ok(())
}

#[test]
fn a_call_keeps_its_first_reply(rt: HostRuntime) -> Result<(), Fail> {
    let poller = Poller::new(rt.alloc())?;
    let mut call = PendingCall::new(1);
    reply_twice(&rt, &poller, &mut call);
    Ok(())
}

fn reply_twice(rt: &impl Abort, poller: &Poller, call: &mut PendingCall) {
    same(rt, poll(poller, call) == Ok(Poll::Pending), true);
    same(rt, call.complete(8), Ok(()));
    same(rt, call.complete(9), Err(Already));
    same(rt, poll(poller, call) == Ok(Poll::Ready(8)), true);
    same(rt, poll(poller, call) == Ok(Poll::Ready(8)), true);
}

fn poll(poller: &Poller, call: &mut PendingCall) -> Result<Poll<i64>, Memory> {
    let mut context = poller.begin();
    let polled = call.poll_reply(&mut context);
    context.cancel();
    polled
}

#[test]
fn a_call_is_a_future(rt: HostRuntime) -> Result<(), Fail> {
    let (before, completed, after) = reply_and_map(&Poller::new(rt.alloc())?);
    assert!(rt; before == Poll::Pending && completed.is_ok() && after == Poll::Ready(9));
    Ok(())
}

// What a poll of a call answers, whether it takes the reply 8, and what a poll of the call with 1 more answers after that.
fn reply_and_map(poller: &Poller) -> (Poll<i64>, Result<(), Already>, Poll<i64>) {
    let mut context = poller.begin();
    let mut call = PendingCall::new(1);
    let before = Future::poll(&mut call, &mut context);
    let completed = call.complete(8);
    let mut next = call.map(|reply| reply.wrapping_add(1));
    let after = next.poll(&mut context);
    context.cancel();
    (before, completed, after)
}
