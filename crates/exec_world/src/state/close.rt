//! What closes a callback in the world, after its effects.
ghost use Rattle.std.specs.Prelude.{◌≡◌, ◌≤◌, ◌+◌, ◌^◌, OnErr, IfOk};

use super::WorldBody;
use crate::closing::{decision_of_close, decisions_of_close, reply_of_close};
use exec_entity::GoalRequest;
use exec_goal::{Asked, CancelRequest};
use exec_msg::{
    Acceptance, CancelDecision, Decision, EntityNo, Event, GoalId, GoalStatus, Line, Lines, Memory,
    Moment,
};
use exec_plan::Order;
use exec_rules::{Cause, Item, Ready};
use exec_script::Close;

impl<L: Lines> WorldBody<L> {
    ghost use Rattle.std.specs.Prelude.{◌≡◌, ℕ, true, map, OnErr, OnOk};
    ghost use Rattle.std.specs.List.{fold};
    ghost use Rattle.std.specs.Option.{is_some};
    ghost use Rattle.exec_goal.specs.Calls.{askers_in, end_state};
    ghost use Rattle.exec_world.specs.inner.Adding.{closing_adds, item_adds, pend_adds, poll_adds, response_adds};
    ghost use Rattle.exec_msg.specs.declared.goal.GoalStatus.TheVariants as status;
    ghost use Rattle.exec_msg.specs.declared.line.Line.TheVariants as line;
    ghost use Rattle.exec_goal.specs.Table.{is_accepting};
    ghost use Rattle.exec_rules.specs.Close.{accept, answer_goal, ask, cancel, decide, end, goal_arrived, pend, reply_to, respond, tell};
    ghost use Rattle.exec_rules.specs.Close.{close_callback, close_item, close_poll};
    ghost use Rattle.exec_rules.specs.World.{action_client_at, add_line, add_lines, goals_at, has_room_for};

    // Closes a ready callback. Memory can be refused only if that adds something to the world.
    #[inline(always)]
    pub(super) fn close(&mut self, one: &Ready, closing: &Close) -> Result<(), Memory>
        ensures closed { OnOk result (self.new ≡ close_callback one.now closing.now self.old) }
        ensures memory { OnErr result (closing_adds one.now closing.now self.old ≡ true) }
    {
        match &one.cause {
            Cause::Due => Ok(()),
            Cause::Took(item) => self.close_item(one.entity, one.moment, item, closing),
            Cause::Woke { id, .. } => self.close_poll(one.entity, *id, one.moment, closing),
        }
    }

    // Closes a callback that took an item. Most items need nothing, and that is decided here, without a call.
    #[inline(always)]
    fn close_item(
        &mut self,
        entity: EntityNo,
        moment: Moment,
        item: &Item,
        closing: &Close,
    ) -> Result<(), Memory>
        ensures closed { OnOk result (self.new ≡ close_item entity moment item.now closing.now self.old) }
        ensures memory { OnErr result (item_adds entity item.now self.old ≡ true) }
    {
        match item {
            Item::Request { client, number, .. } => {
                self.reply_to(entity, *client, *number, reply_of_close(closing))
            }
            Item::Goal { id, client, value } => {
                let request = GoalRequest {
                    id: *id,
                    client: *client,
                    value: *value,
                };
                self.answer_goal(entity, moment, decision_of_close(closing), &request)
            }
            Item::Cancel { request, client } => {
                self.cancel(entity, request, *client, decisions_of_close(closing))
            }
            Item::Ask { id, client } => self.ask(entity, *id, *client),
            Item::Response { id, accepted } => self.respond(entity, *id, *accepted),
            Item::Message { .. }
            | Item::Reply { .. }
            | Item::Code { .. }
            | Item::Feedback { .. }
            | Item::Result { .. } => Ok(()),
        }
    }

    fn reply_to(
        &mut self,
        service: EntityNo,
        client: EntityNo,
        number: u64,
        value: i64,
    ) -> Result<(), Memory>
        ensures { OnOk result (self.new ≡ reply_to service client number value self.old) }
    {
        self.send(
            Line::Reply { service, value },
            client,
            Item::Reply { number, value },
        )
    }

    fn answer_goal(
        &mut self,
        server: EntityNo,
        moment: Moment,
        decision: Decision,
        request: &GoalRequest,
    ) -> Result<(), Memory>
        ensures { OnOk result (self.new ≡ answer_goal server moment decision request.now self.old) }
    {
        if self.servers.has_room_for(server, request.id) {
            self.decide(server, moment, decision, request)
        } else {
            self.decide(server, moment, Decision::Reject, request)
        }
    }

    fn decide(
        &mut self,
        server: EntityNo,
        moment: Moment,
        decision: Decision,
        request: &GoalRequest,
    ) -> Result<(), Memory>
        requires { is_accepting decision ≡ true → has_room_for request.now.id (goals_at server self.old) ≡ true }
        ensures { OnOk result (self.new ≡ decide server moment decision request.now self.old) }
    {
        self.add_line(Line::Decide {
            server,
            id: request.id,
            decision,
        })?;
        let acceptance = decision.acceptance();
        if let Some(how) = acceptance {
            self.accept(server, moment, how, request)?;
        }
        self.push_any(
            request.client,
            Item::Response {
                id: request.id,
                accepted: acceptance.is_some(),
            },
        )
    }

    fn accept(
        &mut self,
        server: EntityNo,
        moment: Moment,
        how: Acceptance,
        request: &GoalRequest,
    ) -> Result<(), Memory>
        requires { has_room_for request.now.id (goals_at server self.old) ≡ true }
        ensures { OnOk result (self.new ≡ accept server moment how request.now self.old) }
    {
        let number = self.mail.arrive()?;
        self.servers.accept(server, number, moment, how, request)?;
        self.add_state(server, request.id, GoalStatus::Accepted)?;
        match how {
            Acceptance::Execute => self.add_state(server, request.id, GoalStatus::Executing),
            Acceptance::Defer => Ok(()),
        }
    }

    fn add_state(&mut self, server: EntityNo, id: GoalId, status: GoalStatus) -> Result<(), Memory>
        ensures { OnOk result (self.new ≡ add_line (line.State server id status) self.old) }
    {
        self.add_line(Line::State { server, id, status })
    }

    fn cancel(
        &mut self,
        server: EntityNo,
        request: &CancelRequest,
        client: Option<EntityNo>,
        decisions: &[(GoalId, CancelDecision)],
    ) -> Result<(), Memory>
        ensures { OnOk result (self.new ≡ cancel server request.now client decisions.now self.old) }
    {
        let answer = self.servers.cancel(self.alloc, server, request, decisions)?;
        self.add_moved(server, answer.moved.as_slice())?;
        let moved = answer.moved.len() as u64;
        self.add_line(Line::Code {
            server,
            code: answer.code,
            moved,
        })?;
        self.push_any(
            client,
            Item::Code {
                code: answer.code,
                moved,
            },
        )
    }

    // Reports that each of these goals is being canceled.
    fn add_moved(&mut self, server: EntityNo, goals: &[GoalId]) -> Result<(), Memory>
        ensures { OnOk result (self.new ≡ add_lines (map (λ (id : ℕ). line.State server id status.Canceling) goals.now) self.old) }
    {
        for id in goals {
            self.add_state(server, *id, GoalStatus::Canceling)?;
        }
        Ok(())
    }

    fn ask(&mut self, server: EntityNo, id: GoalId, client: EntityNo) -> Result<(), Memory>
        ensures { OnOk result (self.new ≡ ask server id client self.old) }
    {
        match self.servers.ask(server, id, client)? {
            Asked::Now(status, value) => self.tell(server, id, status, value, client),
            Asked::Unknown => self.tell(server, id, GoalStatus::Unknown, 0, client),
            Asked::Later => Ok(()),
        }
    }

    fn tell(
        &mut self,
        server: EntityNo,
        id: GoalId,
        status: GoalStatus,
        value: i64,
        client: EntityNo,
    ) -> Result<(), Memory>
        ensures { OnOk result (self.new ≡ tell server id status value client self.old) }
    {
        self.send(
            Line::Result {
                server,
                id,
                status,
                value,
            },
            client,
            Item::Result { id, status, value },
        )
    }

    fn respond(&mut self, client: EntityNo, id: GoalId, accepted: bool) -> Result<(), Memory>
        ensures responded { OnOk result (self.new ≡ respond (action_client_at client self.old) id accepted self.old) }
        ensures memory { OnErr result (response_adds (action_client_at client self.old) accepted ≡ true) }
    {
        let Some(found) = self.action_clients.find(client) else {
            return Ok(());
        };
        if accepted && found.asks() {
            let server = found.server();
            return self.send(Line::Ask { client, id }, server, Item::Ask { id, client });
        }
        Ok(())
    }

    // Closes a poll. Most polls pend, and are closed without a call.
    #[inline(always)]
    pub(super) fn close_poll(
        &mut self,
        server: EntityNo,
        id: GoalId,
        moment: Moment,
        closing: &Close,
    ) -> Result<(), Memory>
        ensures closed { OnOk result (self.new ≡ close_poll server id moment closing.now self.old) }
        ensures memory { OnErr result (poll_adds server id closing.now self.old ≡ true) }
    {
        match closing {
            Close::Ended(event, value) => self.end(server, id, *event, *value, moment),
            Close::Pending => self.pend(server, id),
            _ => Ok(()),
        }
    }

    // Closes a poll that pends. Its goal gets the number of a new arrival, if the order needs arrivals.
    #[inline(always)]
    fn pend(&mut self, server: EntityNo, id: GoalId) -> Result<(), Memory>
        ensures closed { OnOk result (self.new ≡ pend self.old.order server id self.old) }
        ensures memory { OnErr result (pend_adds self.old.order ≡ true) }
    {
        match self.mail.order() {
            Order::Kind => Ok(()),
            Order::Arrival => self.goal_arrives(server, id),
        }
    }

    fn goal_arrives(&mut self, server: EntityNo, id: GoalId) -> Result<(), Memory>
        ensures { OnOk result (self.new ≡ goal_arrived server id self.old) }
    {
        let number = self.mail.arrive()?;
        self.servers.goal_arrives(server, id, number);
        Ok(())
    }

    // Ends a goal by an event, if its table has that transition. It isn't inlined, because few polls end a goal.
    #[inline(never)]
    fn end(
        &mut self,
        server: EntityNo,
        id: GoalId,
        event: Event,
        value: i64,
        moment: Moment,
    ) -> Result<(), Memory>
        ensures ended { OnOk result (self.new ≡ end server id event value moment self.old) }
        ensures memory { OnErr result (is_some (end_state id event (goals_at server self.old)) ≡ true) }
    {
        let Some(reached) = self.servers.end(server, id, event, value, moment) else {
            return Ok(());
        };
        let status = reached.status();
        self.add_state(server, id, status)?;
        self.tell_askers(server, id, status, value)
    }

    // Answers each action client that asked for a goal's result, in the order of asking.
    fn tell_askers(
        &mut self,
        server: EntityNo,
        id: GoalId,
        status: GoalStatus,
        value: i64,
    ) -> Result<(), Memory>
        ensures { OnOk result (self.new
            ≡ fold (λ before client. tell server id status value client before) self.old (askers_in id (goals_at server self.old))) }
    {
        let mut index: usize = 0;
        while let Some(client) = self.servers.asker(server, id, index) {
            self.tell(server, id, status, value, client)?;
            index = place_after(index)?;
        }
        Ok(())
    }
}

// The place after this one, if it has no more than 64 bits.
fn place_after(place: usize) -> Result<usize, Memory>
    ensures next { IfOk result (λ next. next ≡ place + 1) }
    ensures memory { OnErr result (2 ^ 64 ≤ place + 1) }
{
    place.checked_add(1).ok_or(Memory)
}
