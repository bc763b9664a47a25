//! Polls of a server's goals.
ghost use Rattle.std.specs.Prelude.{◌≡◌, ◌≢◌, [], true, false, Some, IfOk, IfSome, IsSomeAnd, OnErr, OnOk};
ghost use Rattle.exec_script.specs.declared.effects.Close.TheVariants as close;
ghost use Rattle.exec_task.specs.Task.{is_awake};
ghost use Rattle.exec_rules.specs.Calls.{away};
ghost use Rattle.exec_rules.specs.Ready.{turn_at};
ghost use Rattle.exec_rules.specs.World.{work_of};
ghost use Rattle.exec_task.specs.Waking.{wake_of};
ghost use Rattle.exec_entity.specs.inner.Server.{work_there};

use super::{GoalTurn, KeptWithGoal, Server};
use exec_goal::GoalInfo;
use exec_msg::{GoalId, Memory, Moment};
use exec_rules::{AwakeGoal, poll_any};
use exec_script::{Bank, Close, EffectList};
use exec_task::{GoalTask, is_awake, wakes_at};
use futures::task::Context;
use std::mem;

impl Server {
    ghost use Rattle.std.specs.Prelude.{ℕ, ◌<◌, ◌++◌, true, None, length, map, filter, find, slice_get, slice_index_or, IfNone};
    ghost use Rattle.std.specs.Option.{option_map};
    ghost use Rattle.exec_goal.specs.Info.{info_of};
    ghost use Rattle.exec_goal.specs.State.{is_canceling};
    ghost use Rattle.exec_goal.specs.Table.{GoalRecord, working};
    ghost use Rattle.exec_rules.specs.Ready.{is_goal_awake};
    ghost use Rattle.exec_rules.specs.World.{HeldGoal, arrived, doing, is_for, records_of, with_held};
    ghost use Rattle.exec_rules.specs.inner.Awake.{awake_goal, awake_goals, goal_awake};
    ghost use Rattle.exec_entity.specs.inner.Keeping.{IsFor};
    ghost use Rattle.exec_entity.specs.inner.Polling.{IsTaken, goal_polled, server_polled};

    // How many goals the server works on. If it works on none, none is awake. It looks at no goal.
    pub(crate) fn count_working(&self) -> usize
        ensures working { result ≡ working (records_of self.now.held) }
        ensures idle { result ≡ 0 → (moment : ℕ) → filter (is_goal_awake moment) self.now.held ≡ [] }
    {
        self.goals.count_working()
    }

    // Whether the goal at this place is awake at a moment. `info` is what is known of it.
    fn is_goal_awake(&self, index: usize, info: &GoalInfo, moment: Moment) -> bool
        requires { slice_get (map info_of (records_of self.now.held)) index ≡ Some info.now }
        ensures { (d : HeldGoal) → result ≡ is_goal_awake moment (slice_index_or self.now.held index d) }
    {
        info.state.is_worked_on() && self.is_task_awake(index, info, moment)
    }

    // If a goal isn't being canceled, one moment decides it, and its task isn't looked at.
    fn is_task_awake(&self, index: usize, goal: &GoalInfo, moment: Moment) -> bool
        requires { index < length self.now.held }
        ensures { (d : HeldGoal) → result ≡ is_awake (slice_index_or self.now.held index d).work.task (turn_at moment (is_canceling goal.now.state)) }
    {
        if goal.state.is_canceling() {
            self.is_canceling_awake(index, moment)
        } else {
            self.has_woken(index, moment)
        }
    }

    // Whether the task of the goal at this place is awake, if the goal isn't being canceled.
    #[inline(always)]
    fn has_woken(&self, index: usize, moment: Moment) -> bool
        requires { index < length self.now.held }
        ensures { (d : HeldGoal) → result ≡ is_awake (slice_index_or self.now.held index d).work.task (turn_at moment false) }
    {
        self.wakes[index] <= moment.ticks()
    }

    // The same if the goal is being canceled. Few goals are, so this isn't inlined into the walk over all goals. Work is kept
    // in the order of the goals, so that it is found by its place.
    #[inline(never)]
    fn is_canceling_awake(&self, index: usize, moment: Moment) -> bool
        requires { index < length self.now.held }
        ensures { (d : HeldGoal) → result ≡ is_awake (slice_index_or self.now.held index d).work.task (turn_at moment true) }
    {
        let entry = self.held.get_index(index).unwrap();
        is_any_awake(&entry.1.task, moment)
    }

    // Adds each goal that is awake at a moment, in the order of acceptance.
    pub(crate) fn add_awake(&self, moment: Moment, goals: &mut Vec<AwakeGoal>) -> Result<(), Memory>
        ensures { OnOk result (goals.new.items ≡ goals.old.items ++ awake_goals moment self.now) }
    {
        if self.count_working() == 0 {
            return Ok(());
        }
        self.add_each_awake(moment, goals)
    }

    fn add_each_awake(&self, moment: Moment, goals: &mut Vec<AwakeGoal>) -> Result<(), Memory>
        ensures { OnOk result (goals.new.items ≡ goals.old.items ++ awake_goals moment self.now) }
    {
        let infos = self.goals.infos();
        for index in 0..infos.len() {
            self.add_where_awake(moment, index, &infos[index], goals)?;
        }
        Ok(())
    }

    // Adds the goal at this place, from 0, in the order of acceptance, if it is awake. `info` is what is known of it.
    #[inline(always)]
    fn add_where_awake(
        &self,
        moment: Moment,
        index: usize,
        info: &GoalInfo,
        goals: &mut Vec<AwakeGoal>,
    ) -> Result<(), Memory>
        requires { slice_get (map info_of (records_of self.now.held)) index ≡ Some info.now }
        ensures { OnOk result ((d : HeldGoal)
            → goals.new.items ≡ goals.old.items ++ goal_awake moment self.now.handler (slice_index_or self.now.held index d)) }
    {
        if self.is_goal_awake(index, info, moment) {
            goals.push(self.awake_goal(info))?;
        }
        Ok(())
    }

    fn awake_goal(&self, info: &GoalInfo) -> AwakeGoal
        ensures { (goal : GoalRecord) → info.now ≡ info_of goal → result ≡ awake_goal self.now.handler goal }
    {
        AwakeGoal {
            id: info.id,
            value: info.value,
            server: self.handler.entity,
            group: self.handler.group,
            exclusive: self.handler.exclusive,
            canceling: info.state.is_canceling(),
        }
    }

    // Polls a goal in its turn with the variables of its callback group, in a context that the caller has made. Answers what
    // closes the poll. The list then has its effects alone. A goal that isn't held or isn't awake, or whose task is out, isn't
    // polled, and pends. If memory is refused, the server and the bank don't change.
    #[inline(always)]
    pub(crate) fn poll(
        &mut self,
        goal: &GoalTurn,
        bank: &mut Bank,
        cx: &mut Context<'_>,
        effects: &mut EffectList,
    ) -> Result<Close, Memory>
        ensures effects { OnOk result (effects.new ≡ (goal_polled goal.now.turn goal.now.id self.old bank.old).given) }
        ensures close { IfOk result (λ close. close ≡ (goal_polled goal.now.turn goal.now.id self.old bank.old).close) }
        ensures variables { OnOk result (bank.new ≡ (goal_polled goal.now.turn goal.now.id self.old bank.old).variables) }
        ensures task { OnOk result (self.new ≡ server_polled goal.now.id (goal_polled goal.now.turn goal.now.id self.old bank.old).task self.old) }
        ensures memory { OnErr result (IsSomeAnd (option_map (λ held. held.work) (find (is_for goal.now.id) self.old.held))
            (λ work. is_awake work.task goal.now.turn ≡ true)) }
        ensures unchanged { OnErr result (self.new ≡ self.old) }
        ensures unchanged_variables { OnErr result (bank.new ≡ bank.old) }
    {
        let Some(place) = self.place_of(goal.id) else {
            effects.clear();
            return Ok(Close::Pending);
        };
        self.next = self.behind(place);
        let held = self.held.get_index_mut(place).unwrap();
        let close = poll_any(&mut held.task, &goal.turn, bank, cx, effects)?;
        self.wakes[place] = wake_in(&held.task);
        Ok(close)
    }

    // The place after this one. After the last place comes the first one.
    #[inline(always)]
    fn behind(&self, place: usize) -> usize {
        let next = place.wrapping_add(1);
        if next < self.held.len() { next } else { 0 }
    }

    // The place of a goal's work, from 0, if it is held.
    #[inline(always)]
    fn place_of(&self, id: GoalId) -> Option<usize>
        ensures at { IfSome result (λ place. IsFor self.now.held place id) }
        ensures none { IfNone result (find (is_for id) self.now.held ≡ None) }
    {
        match self.held.get_index(self.next) {
            Some((key, _)) if *key == id => Some(self.next),
            _ => self.find_place(id),
        }
    }

    // The same, at any place.
    #[inline(never)]
    fn find_place(&self, id: GoalId) -> Option<usize>
        ensures at { IfSome result (λ place. IsFor self.now.held place id) }
        ensures none { IfNone result (find (is_for id) self.now.held ≡ None) }
    {
        self.held.get_index_of(&id)
    }

    // Takes the task of a goal out, and answers `None` if no such goal is held or its task is out.
    pub(crate) fn take_task(&mut self, id: GoalId) -> Option<GoalTask>
        ensures taken { IsTaken (option_map (λ held. held.work) (find (is_for id) self.old.held)) result }
        ensures out { self.new ≡ with_held id (doing away) self.old }
    {
        self.exchange_task(id, None)
    }

    // Puts a goal's task in its place. If no such goal is held, nothing changes.
    pub(crate) fn put_task(&mut self, id: GoalId, task: GoalTask)
        ensures { self.new ≡ with_held id (doing (work_of task)) self.old }
    {
        let _replaced = self.exchange_task(id, Some(task));
    }

    // Gives a goal the number of its new arrival. If no such goal is held, nothing changes.
    pub(crate) fn goal_arrives(&mut self, id: GoalId, number: u64)
        ensures { self.new ≡ with_held id (arrived number) self.old }
    {
        let Some(place) = self.place_of(id) else {
            return;
        };
        let held = self.held.get_index_mut(place).unwrap();
        note_arrival(held, number);
    }

    // Puts a task, or none, in the place of a goal's task, and answers that. If no such goal is held, nothing changes.
    fn exchange_task(&mut self, id: GoalId, task: Option<GoalTask>) -> Option<GoalTask>
        ensures taken { IsTaken (option_map (λ held. held.work) (find (is_for id) self.old.held)) result }
        ensures put { self.new ≡ with_held id (doing (work_there task)) self.old }
    {
        let place = self.place_of(id)?;
        let held = self.held.get_index_mut(place).unwrap();
        self.wakes[place] = wake_in(&task);
        replace_task(held, task)
    }
}

fn note_arrival(held: &mut KeptWithGoal, number: u64)
    ensures { held.new ≡ record held.old { arrival = number } }
{
    held.arrival = number;
}

// Puts a task, or none, in the place of a goal's task, and answers that.
fn replace_task(held: &mut KeptWithGoal, task: Option<GoalTask>) -> Option<GoalTask>
    ensures taken { result ≡ held.old.task }
    ensures own { IfSome result (λ task. work_of task ≢ away) }
    ensures put { held.new ≡ record held.old { task = task } }
{
    let taken = mem::replace(&mut held.task, task);
    if let Some(task) = &taken {
        exec_rules::laws::no_task_is_away(task);
    }
    taken
}

// Whether a task is awake if its goal is being canceled. A task that is out never is.
fn is_any_awake(task: &Option<GoalTask>, moment: Moment) -> bool
    ensures { result ≡ is_awake (work_there task.now).task (turn_at moment true) }
{
    match task {
        None => false,
        Some(task) => is_awake(task, moment, true),
    }
}

// The moment from which on a task is awake if its goal isn't being canceled, in ticks. A task that is out never is.
#[inline(always)]
pub(super) fn wake_in(task: &Option<GoalTask>) -> u64
    ensures { result ≡ wake_of (work_there task.now).task }
{
    match task {
        None => u64::MAX,
        Some(task) => wakes_at(task),
    }
}
