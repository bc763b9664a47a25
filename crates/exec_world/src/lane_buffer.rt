//! What a lane is kept in. The lanes of later rounds use its memory again.
ghost use Rattle.std.specs.Prelude.{◌≡◌, ◌<◌, ◌≤◌, ◌+◌, [], ◌∷◌, ◌++◌, length, slice_get, take, None, Some, IfOk, OnErr, OnOk};
ghost use Rattle.std.specs.Option.{option_map};
ghost use Rattle.exec_rules.specs.Run.{apart_with, effects_of, work_after};
ghost use Rattle.exec_rules.specs.World.{work_of};
ghost use Rattle.exec_world.specs.inner.Buffers.{first_after, first_work, no_callbacks, other_works, run_next};

use exec_msg::Memory;
use exec_rules::{Cause, Ready};
use exec_script::{Bank, Close, EffectList, Effects};
use exec_task::{GoalTask, Poller};
use std::alloc::Global;
use std::marker::Model;

/// The callbacks of a lane, by their places in the ready list, with the variables of their group, the tasks of the goals that
/// they poll, and what they did.
#[derive(Drop)]
pub struct LaneBuffer {
    alloc: Global,
    poller: Poller,
    places: Vec<usize>,
    bank: Bank,
    // The tasks of the goals that callbacks poll, in their order. So many of them were polled.
    tasks: Vec<Option<GoalTask>>,
    polled: usize,
    // What callbacks did, as many as ran. What comes after that is room for the next ones.
    did: Vec<Effects>,
    done: usize,
}

impl Model for LaneBuffer {
    ghost use Rattle.std.specs.Prelude.{◌≤◌, drop, length, map, take};
    ghost use Rattle.std.specs.Option.{option_map};
    ghost use Rattle.exec_rules.specs.World.{work_of};
    ghost use Rattle.exec_world.specs.inner.Buffers.{BufferState};

    ghost Value = { BufferState };

    ghost view = { λ lane. record {
      places = lane.places.items;
      variables = lane.bank;
      waiting = map (option_map work_of) (drop lane.polled lane.tasks.items);
      polled = map (option_map work_of) (take lane.polled lane.tasks.items);
      did = take lane.done lane.did.items;
    } };

    ghost invariant = { λ lane. (lane.polled ≤ length lane.tasks.items) × (lane.done ≤ length lane.did.items) };
}

impl LaneBuffer {
    /// It has no callback.
    ///
    /// # Errors
    /// [`Memory`] if a growth was refused.
    pub fn new(alloc: Global) -> Result<LaneBuffer, Memory>
        ensures { IfOk result (λ lane. lane ≡ no_callbacks) }
    {
        Ok(LaneBuffer {
            alloc,
            poller: Poller::new(alloc)?,
            places: Vec::new(alloc),
            bank: Bank::new(),
            tasks: Vec::new(alloc),
            polled: 0,
            did: Vec::new(alloc),
            done: 0,
        })
    }

    /// Drops its callbacks, and keeps their memory.
    pub fn clear(&mut self)
        ensures { self.new ≡ no_callbacks }
    {
        self.places.clear();
        self.bank = Bank::new();
        self.tasks.clear();
        self.polled = 0;
        self.done = 0;
    }

    /// How many callbacks it has.
    pub fn len(&self) -> usize
        ensures { result ≡ length self.now.places }
    {
        self.places.len()
    }

    /// The place in the ready list of its callback of this number, from 0.
    pub fn place(&self, index: usize) -> usize
        requires { index < length self.now.places }
        ensures { slice_get self.now.places index ≡ Some result }
    {
        self.places[index]
    }

    /// Adds a callback that polls no goal, by its place in the ready list.
    ///
    /// # Errors
    /// [`Memory`] if a growth was refused. Nothing changes.
    pub fn add(&mut self, place: usize) -> Result<(), Memory>
        ensures added { OnOk result (self.new ≡ record self.old { places = self.old.places ++ place ∷ [] }) }
        ensures unchanged { OnErr result (self.new ≡ self.old) }
    {
        self.places.push(place)?;
        Ok(())
    }

    /// Adds a callback that polls a goal, with the goal's task.
    ///
    /// # Errors
    /// [`Memory`] if a growth was refused. Nothing changes.
    pub fn add_poll(&mut self, place: usize, task: GoalTask) -> Result<(), Memory>
        ensures added { OnOk result (self.new ≡ record self.old {
          places = self.old.places ++ place ∷ [];
          waiting = self.old.waiting ++ Some (work_of task) ∷ [];
        }) }
        ensures unchanged { OnErr result (self.new ≡ self.old) }
    {
        self.places.reserve(1)?;
        self.tasks.push(Some(task))?;
        self.places.push_reserved(place);
        Ok(())
    }

    /// The variables of its group.
    pub fn bank(&self) -> Bank
        ensures { result ≡ self.now.variables }
    {
        self.bank
    }

    /// Gives it the variables of its group.
    pub fn set_bank(&mut self, bank: Bank)
        ensures { self.new ≡ record self.old { variables = bank } }
    {
        self.bank = bank;
    }

    /// How many of its callbacks ran.
    pub fn done(&self) -> usize
        ensures { result ≡ length self.now.did }
    {
        self.done
    }

    /// What its callback of this number did, from 0, which ran.
    pub fn did(&self, index: usize) -> &Effects
        requires { index < length self.now.did }
        ensures { slice_get self.now.did index ≡ Some result.now }
    {
        &self.did[index]
    }

    /// Runs its next callback, which is this one, apart from the world.
    ///
    /// # Errors
    /// [`Memory`] if a growth was refused. Nothing changes.
    pub fn run(&mut self, one: &Ready) -> Result<(), Memory>
        ensures ran { OnOk result (self.new ≡ run_next one.now self.old) }
        ensures unchanged { OnErr result (self.new ≡ self.old) }
    {
        match &one.cause {
            Cause::Woke { .. } => self.run_poll(one),
            Cause::Took(_) => self.run_call(one),
            Cause::Due => self.run_call(one),
        }
    }

    // Runs a callback that polls no goal.
    fn run_call(&mut self, one: &Ready) -> Result<(), Memory>
        ensures ran { OnOk result (self.new ≡ record self.old {
          variables = (apart_with one.now None self.old.variables).variables;
          did = self.old.did ++ effects_of (apart_with one.now None self.old.variables) ∷ [];
        }) }
        ensures unchanged { OnErr result (self.new ≡ self.old) }
    {
        make_room(self.alloc, &mut self.did, self.done)?;
        let mut none = None;
        run_with(
            self.alloc,
            one,
            &mut none,
            &mut self.bank,
            &self.poller,
            &mut self.did[self.done],
        )?;
        self.done += 1;
        Ok(())
    }

    // Runs a callback that polls the goal whose task comes next. If there is none, it polls none.
    fn run_poll(&mut self, one: &Ready) -> Result<(), Memory>
        ensures ran { OnOk result (self.new ≡ record self.old {
          variables = (apart_with one.now (first_work self.old.waiting) self.old.variables).variables;
          waiting = other_works self.old.waiting;
          polled = self.old.polled ++ first_after (apart_with one.now (first_work self.old.waiting) self.old.variables).task self.old.waiting;
          did = self.old.did ++ effects_of (apart_with one.now (first_work self.old.waiting) self.old.variables) ∷ [];
        }) }
        ensures unchanged { OnErr result (self.new ≡ self.old) }
    {
        if self.polled == self.tasks.len() {
            return self.run_call(one);
        }
        make_room(self.alloc, &mut self.did, self.done)?;
        run_with(
            self.alloc,
            one,
            &mut self.tasks[self.polled],
            &mut self.bank,
            &self.poller,
            &mut self.did[self.done],
        )?;
        self.polled += 1;
        self.done += 1;
        Ok(())
    }

    /// Goes back to the first task: all are to be taken home.
    pub fn rewind(&mut self)
        ensures { self.new ≡ record self.old { waiting = self.old.polled ++ self.old.waiting; polled = [] } }
    {
        self.polled = 0;
    }

    /// Takes the next task home, if there is one.
    pub fn take_task(&mut self) -> Option<GoalTask>
        ensures task { option_map work_of result ≡ first_work self.old.waiting }
        ensures left { self.new.waiting ≡ other_works self.old.waiting }
        ensures same { self.new ≡ record self.old { waiting = self.new.waiting; polled = self.new.polled } }
    {
        if self.polled == self.tasks.len() {
            return None;
        }
        let task = self.tasks[self.polled].take();
        self.polled += 1;
        task
    }
}

// Makes room for what one more callback does, after those that ran.
fn make_room(alloc: Global, did: &mut Vec<Effects>, done: usize) -> Result<(), Memory>
    requires { done ≤ length did.old.items }
    ensures room { OnOk result (done < length did.new.items) }
    ensures same { take done did.new.items ≡ take done did.old.items }
    ensures within { done ≤ length did.new.items }
{
    if done < did.len() {
        return Ok(());
    }
    did.push(Effects {
        list: EffectList::new(alloc),
        close: Close::Nothing,
    })?;
    Ok(())
}

// Runs a callback with this task, and puts what it did in place of what is there.
fn run_with(
    alloc: Global,
    one: &Ready,
    task: &mut Option<GoalTask>,
    bank: &mut Bank,
    poller: &Poller,
    did: &mut Effects,
) -> Result<(), Memory>
    ensures effects { OnOk result (did.new ≡ effects_of (apart_with one.now (option_map work_of task.old) bank.old)) }
    ensures variables { OnOk result (bank.new ≡ (apart_with one.now (option_map work_of task.old) bank.old).variables) }
    ensures task { OnOk result (option_map work_of task.new
        ≡ option_map (work_after (apart_with one.now (option_map work_of task.old) bank.old).task) (option_map work_of task.old)) }
    ensures unchanged { OnErr result (bank.new ≡ bank.old) }
    ensures unchanged_task { OnErr result (option_map work_of task.new ≡ option_map work_of task.old) }
{
    did.close = one.run_apart_into(alloc, task, bank, poller, &mut did.list)?;
    Ok(())
}
