//! Servers, each found by its number. A request to a server that isn't there changes nothing.
use super::{GoalRequest, GoalTurn, Server};
use crate::by_number::{ByNumber, Numbered};
use exec_goal::{Asked, CancelAnswer, CancelRequest, Goals, State};
use exec_msg::{Acceptance, CancelDecision, EntityNo, Event, GoalId, Memory, Moment};
use exec_rules::AwakeGoal;
use exec_script::{Bank, Close, EffectList};
use exec_task::GoalTask;
use futures::task::Context;
use std::alloc::Global;

impl Numbered for Server {
    ghost number_of = { λ server. server.handler.entity };

    fn number(&self) -> EntityNo {
        self.handler.entity
    }
}

impl ByNumber<Server> {
    ghost use Rattle.std.specs.Prelude.{◌≡◌, true, None, Some, map, find, slice_get, IfNone, IfOk, IfSome, IsSomeAnd, OnErr, OnOk};
    ghost use Rattle.std.specs.List.{flat_map};
    ghost use Rattle.std.specs.Option.{option_map, option_map_or};
    ghost use Rattle.exec_goal.specs.Calls.{askers_in, end_state};
    ghost use Rattle.exec_goal.specs.Cancel.{code_of, moved, table_after};
    ghost use Rattle.exec_goal.specs.Info.{answer_of};
    ghost use Rattle.exec_goal.specs.State.{is_accepted};
    ghost use Rattle.exec_goal.specs.Table.{after_end, asked_for, has_id, later};
    ghost use Rattle.exec_msg.specs.Lists.{change_first};
    ghost use Rattle.exec_task.specs.Task.{is_awake};
    ghost use Rattle.exec_rules.specs.Calls.{away};
    ghost use Rattle.exec_rules.specs.Close.{server_accepting};
    ghost use Rattle.exec_rules.specs.World.{arrived, doing, goals_in, has_room_for, held_in, is_for, is_server_at, with_goals, with_held, work_in, work_of};
    ghost use Rattle.exec_rules.specs.inner.Awake.{awake_goals};
    ghost use Rattle.exec_entity.specs.inner.Polling.{IsTaken, polled_in, server_polled};
    ghost use Rattle.exec_entity.specs.inner.Servers.{asked_in, executed_in};

    /// Whether a server can hold one more goal of an identifier.
    pub fn has_room_for(&self, server: EntityNo, id: GoalId) -> bool
        ensures { result ≡ has_room_for id (goals_in server self.now) }
    {
        match self.find(server) {
            Some(found) => found.has_room_for(id),
            None => true,
        }
    }

    /// The action client that sent a goal, if one did.
    pub fn sender_at(&self, server: EntityNo, id: GoalId) -> Option<EntityNo>
        ensures { result ≡ option_map_or (λ held. held.client) (find (is_for id) (held_in server self.now)) None }
    {
        self.find(server)?.sender_at(id)
    }

    /// The number of a goal's last arrival, and 0 if no such goal is held.
    pub fn arrival(&self, server: EntityNo, id: GoalId) -> u64
        ensures { result ≡ option_map_or (λ held. held.arrival) (find (is_for id) (held_in server self.now)) 0 }
    {
        match self.find(server) {
            None => 0,
            Some(found) => found.arrival(id),
        }
    }

    /// The action client that asked for a goal's result at this place, from 0, in the order of asking. It is `None` at a place
    /// after the last one.
    pub fn asker(&self, server: EntityNo, id: GoalId, index: usize) -> Option<EntityNo>
        ensures { result ≡ slice_get (askers_in id (goals_in server self.now)) index }
    {
        self.find(server)?.asker(id, index)
    }

    /// A server accepts a goal at a moment, with the number of its arrival. It has room for the goal, and holds none of its
    /// identifier.
    ///
    /// # Errors
    /// [`Memory`] if a growth was refused.
    pub fn accept(
        &mut self,
        server: EntityNo,
        number: u64,
        moment: Moment,
        how: Acceptance,
        request: &GoalRequest,
    ) -> Result<(), Memory>
        requires room { has_room_for request.now.id (goals_in server self.old) ≡ true }
        ensures { OnOk result (self.new ≡ change_first (is_server_at server) (server_accepting number moment how request.now) self.old) }
    {
        self.change(server, |entry| entry.accept(number, moment, how, request))
            .unwrap_or(Ok(()))
    }

    /// A server cancels by what was decided of a request's candidates, each by its identifier. A server that isn't there has no
    /// goals.
    ///
    /// # Errors
    /// [`Memory`] if a growth was refused.
    pub fn cancel(
        &mut self,
        alloc: Global,
        server: EntityNo,
        request: &CancelRequest,
        decisions: &[(GoalId, CancelDecision)],
    ) -> Result<CancelAnswer, Memory>
        ensures code { IfOk result (λ answer. answer.code ≡ code_of request.now decisions.now (goals_in server self.old)) }
        ensures moved { IfOk result (λ answer. answer.moved ≡ map (λ goal. goal.id) (moved decisions.now (goals_in server self.old))) }
        ensures table { OnOk result (self.new ≡ change_first (is_server_at server) (with_goals (table_after decisions.now)) self.old) }
    {
        match self.change(server, |entry| entry.cancel(request, decisions)) {
            Some(answer) => answer,
            None => {
                let mut goals = Goals::new(alloc);
                let answer = goals.answer(request, decisions)?;
                Ok(answer)
            }
        }
    }

    /// What an action client is answered that asks a server for a goal's result. If the result comes later, the client is
    /// noted.
    ///
    /// # Errors
    /// [`Memory`] if a growth was refused. Only a result that comes later needs memory.
    pub fn ask(&mut self, server: EntityNo, id: GoalId, client: EntityNo) -> Result<Asked, Memory>
        ensures told { IfOk result (λ told. told ≡ answer_of (asked_for id (goals_in server self.old))) }
        ensures noted { OnOk result (self.new ≡ asked_in (asked_for id (goals_in server self.old)) server id client self.old) }
        ensures memory { OnErr result (asked_for id (goals_in server self.old) ≡ later) }
    {
        self.change(server, |entry| entry.ask(id, client))
            .unwrap_or(Ok(Asked::Unknown))
    }

    /// A server executes its oldest goal that is accepted and not executed yet. Answers its identifier, or `None` if there is
    /// none.
    pub fn execute_oldest(&mut self, server: EntityNo) -> Option<GoalId>
        ensures found { result ≡ option_map (λ goal. goal.id) (find (λ goal. is_accepted goal.state) (goals_in server self.old)) }
        ensures executed { self.new ≡ executed_in server (find (λ goal. is_accepted goal.state) (goals_in server self.old)) self.old }
    {
        self.change(server, |entry| entry.execute_oldest())
            .flatten()
    }

    /// A server ends a goal by an event at a moment with its result, and answers its terminal state. Nothing changes if no such
    /// goal is held, or if the event leads its state to no terminal one. There is no answer then.
    pub fn end(
        &mut self,
        server: EntityNo,
        id: GoalId,
        event: Event,
        value: i64,
        moment: Moment,
    ) -> Option<State>
        ensures reached { result ≡ end_state id event (goals_in server self.old) }
        ensures ended { IfSome result (λ _. self.new
            ≡ change_first (is_server_at server) (with_goals (change_first (has_id id) (after_end event value moment))) self.old) }
        ensures unchanged { IfNone result (self.new ≡ self.old) }
    {
        self.change(server, |entry| entry.end(id, event, value, moment))
            .flatten()
    }

    /// A server polls a goal in its turn with the variables of its callback group, in a context that the caller has made.
    /// Answers what closes the poll. The list then has the poll's effects alone. A goal that isn't held or isn't awake isn't
    /// polled, and pends.
    ///
    /// # Errors
    /// [`Memory`] if a growth was refused. Only a goal that is awake needs memory. The variables don't change.
    #[inline(always)]
    pub fn poll(
        &mut self,
        goal: &GoalTurn,
        bank: &mut Bank,
        cx: &mut Context<'_>,
        effects: &mut EffectList,
    ) -> Result<Close, Memory>
        ensures effects { OnOk result (effects.new ≡ (polled_in goal.now self.old bank.old).given) }
        ensures close { IfOk result (λ close. close ≡ (polled_in goal.now self.old bank.old).close) }
        ensures variables { OnOk result (bank.new ≡ (polled_in goal.now self.old bank.old).variables) }
        ensures task { OnOk result (self.new
            ≡ change_first (is_server_at goal.now.server) (server_polled goal.now.id (polled_in goal.now self.old bank.old).task) self.old) }
        ensures memory { OnErr result (IsSomeAnd (work_in goal.now.server goal.now.id self.old) (λ work. is_awake work.task goal.now.turn ≡ true)) }
        ensures unchanged { OnErr result (bank.new ≡ bank.old) }
    {
        let place = self.place(goal.server);
        let Some(entry) = self.entries.get_mut(place) else {
            effects.clear();
            return Ok(Close::Pending);
        };
        let close = entry.poll(goal, bank, cx, effects)?;
        Ok(close)
    }

    /// Takes the task of a server's goal out. Answers `None` if no such goal is held or its task is out.
    pub fn take_task(&mut self, server: EntityNo, id: GoalId) -> Option<GoalTask>
        ensures taken { IsTaken (work_in server id self.old) result }
        ensures out { self.new ≡ change_first (is_server_at server) (with_held id (doing away)) self.old }
    {
        self.change(server, |entry| entry.take_task(id)).flatten()
    }

    /// Puts the task of a server's goal in its place. If no such goal is held, nothing changes.
    pub fn put_task(&mut self, server: EntityNo, id: GoalId, task: GoalTask)
        ensures { self.new ≡ change_first (is_server_at server) (with_held id (doing (work_of task))) self.old }
    {
        let _put = self.change(server, |entry| entry.put_task(id, task));
    }

    /// Gives a server's goal the number of its new arrival. If no such goal is held, nothing changes.
    pub fn goal_arrives(&mut self, server: EntityNo, id: GoalId, number: u64)
        ensures { self.new ≡ change_first (is_server_at server) (with_held id (arrived number)) self.old }
    {
        let _changed = self.change(server, |entry| entry.goal_arrives(id, number));
    }

    /// Makes the list that of all goals that are awake at a moment, server by server, each in the order of acceptance.
    ///
    /// # Errors
    /// [`Memory`] if a growth was refused.
    pub fn awake_goals(&self, moment: Moment, goals: &mut Vec<AwakeGoal>) -> Result<(), Memory>
        ensures { OnOk result (goals.new.items ≡ flat_map (awake_goals moment) self.now) }
    {
        goals.clear();
        for entry in &self.entries {
            entry.add_awake(moment, goals)?;
        }
        Ok(())
    }
}

/// The servers of a graph.
pub type Servers = ByNumber<Server>;
