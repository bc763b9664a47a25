ghost use Rattle.std.specs.Prelude.{◌≡◌, ◌||◌, ◌^◌, None, length, OnOk, OnErr};
ghost use Rattle.exec_script.specs.Script.{WaitsWithin};
ghost use Rattle.exec_script.specs.Script.{listed};
ghost use Rattle.exec_task.specs.Task.{new_task, has_ended, is_reached, is_awake, after_stop, ran, resumption_of, task_answer, ending_event};
ghost use Rattle.exec_task.specs.Waking.{wake_by, wake_of};

use crate::wait::{Answer, Ending, Turn, Wait};
use exec_msg::{Event, Memory, Moment};
use exec_script::{Bank, EffectList, Input, Instr, Regs, Stop, run_from};
use std::marker::Model;

// How far a goal's script has come. What decides whether the goal is awake comes first, so that it is together in memory.
#[derive(Clone, Copy, Debug, PartialEq, Eq)]
pub(crate) struct Progress {
    waits: Wait,
    // Whether the goal was polled as one that is being canceled.
    knows_canceling: bool,
    ending: Option<Ending>,
    // The number of the instruction at which the script goes on, from 0.
    place: usize,
    registers: Regs,
}

impl Model for Progress {
    ghost use Rattle.exec_task.specs.Task.{TaskState};

    ghost Value = { TaskState };

    ghost view = { λ progress. record {
      place = progress.place;
      registers = progress.registers;
      waits = progress.waits;
      knows_canceling = progress.knows_canceling;
      ending = progress.ending;
    } };

    ghost inverse = { λ task. record {
      place = task.place;
      registers = task.registers;
      waits = task.waits;
      knows_canceling = task.knows_canceling;
      ending = task.ending;
    } };
}

impl Progress {
    // Before the first poll.
    pub(crate) fn new() -> Progress
        ensures { result ≡ new_task }
    {
        Progress {
            place: 0,
            registers: Regs::new(),
            waits: Wait::NextRound,
            knows_canceling: false,
            ending: None,
        }
    }

    // The task has eight registers. The call does nothing at run time: a proof about its caller knows the number from it.
    #[inline(always)]
    pub(crate) fn has_eight_registers(&self)
        ensures { length self.now.registers ≡ 8 }
    {
        self.registers.are_eight();
    }

    pub(crate) fn waits(&self) -> Wait
        ensures { result ≡ self.now.waits }
    {
        self.waits
    }

    pub(crate) fn is_aware(&self) -> bool
        ensures { result ≡ self.now.knows_canceling }
    {
        self.knows_canceling
    }

    pub(crate) fn has_ended(&self) -> bool
        ensures { result ≡ has_ended self.now }
    {
        self.ending.is_some()
    }

    pub(crate) fn is_awake(&self, moment: Moment, canceling: bool) -> bool
        ensures { result ≡ is_awake self.now (record { moment = moment; canceling = canceling }) }
    {
        !self.has_ended()
            && (is_reached(self.waits, moment) || (canceling && !self.knows_canceling))
    }

    // The moment from which on it is awake, if it isn't being canceled.
    #[inline(always)]
    pub(crate) fn wakes_at(&self) -> u64
        ensures { result ≡ wake_of self.now }
    {
        match self.ending {
            Some(_) => u64::MAX,
            None => wake_by(self.waits),
        }
    }

    pub(crate) fn answer(&self) -> Answer
        ensures { result ≡ task_answer self.now }
    {
        match self.ending {
            Some(ending) => Answer::Ready(ending),
            None => Answer::Pending(self.waits),
        }
    }

    // Goes on with the script in a turn. If memory is refused, nothing changes.
    pub(crate) fn run(
        &mut self,
        script: &[Instr],
        value: i64,
        bank: &mut Bank,
        turn: &Turn,
        effects: &mut EffectList,
    ) -> Result<(), Memory>
        ensures ok { OnOk result (record { task = self.new; variables = bank.new; given = effects.new }
            ≡ ran turn.now self.old (resumption_of listed script.now value turn.now self.old bank.old effects.old)) }
        ensures unchanged { OnErr result (self.new ≡ self.old) }
        ensures unchanged_variables { OnErr result (bank.new ≡ bank.old) }
        ensures unchanged_effects { OnErr result (effects.new ≡ effects.old) }
    {
        let input = Input {
            first: value,
            aux: turn.canceling as i64,
            moment: turn.moment,
        };
        let stop = run_from(
            script,
            self.place,
            &mut self.registers,
            bank,
            &input,
            effects,
        )?;
        self.knows_canceling = self.knows_canceling || turn.canceling;
        self.stop(turn, stop);
        Ok(())
    }

    // What the script's stop in a turn leaves of the task.
    fn stop(&mut self, turn: &Turn, stop: Stop)
        requires { WaitsWithin (2 ^ 63) stop }
        ensures { self.new ≡ after_stop turn.now stop self.old }
    {
        match stop {
            Stop::Wait(ticks, place) => {
                self.place = place;
                self.waits = Wait::Until(turn.moment.ticks() + ticks);
            }
            Stop::Yield(place) => {
                self.place = place;
                self.waits = Wait::NextRound;
            }
            Stop::Ended(event, value) => {
                let event = ending_event(turn.canceling, event);
                self.ending = Some(Ending { event, value });
            }
            Stop::End => {
                self.place = 0;
                self.waits = Wait::NextRound;
            }
        }
    }
}

fn is_reached(waits: Wait, moment: Moment) -> bool
    ensures { result ≡ is_reached waits moment }
{
    match waits {
        Wait::NextRound => true,
        Wait::Until(time) => time <= moment.ticks(),
    }
}

// The moment from which on a task is awake that waits for this.
fn wake_by(waits: Wait) -> u64
    ensures { result ≡ wake_by None waits }
{
    match waits {
        Wait::NextRound => 0,
        Wait::Until(time) => time,
    }
}

// The event that ends a goal, if its script ends it by this one.
fn ending_event(canceling: bool, event: Event) -> Event
    ensures { result ≡ ending_event canceling event }
{
    match event {
        Event::Canceled if !canceling => Event::Abort,
        event => event,
    }
}
