//! What the effects of a callback do to the world.
use super::WorldBody;
use exec_goal::CancelRequest;
use exec_msg::{EntityNo, GoalId, GoalStatus, Line, Lines, Memory};
use exec_rules::{Cause, Item, Ready};
use exec_script::Effect;

impl<L: Lines> WorldBody<L> {
    ghost use Rattle.std.specs.Prelude.{◌≡◌, Some, OnOk};
    ghost use Rattle.exec_msg.specs.declared.line.Line.TheVariants as line;
    ghost use Rattle.exec_rules.specs.declared.item.Item.TheVariants as item;
    ghost use Rattle.exec_rules.specs.Give.{call_by, cancel_all_by, cancel_goal_by, execute, give, give_all, give_feedback, publish, send_goal_by, sender_at};
    ghost use Rattle.exec_rules.specs.World.{action_client_at, add_line, client_at, push, push_any};

    // Gives effects of a ready callback, one after another.
    #[inline(always)]
    pub(super) fn give_all(&mut self, one: &Ready, effects: &[Effect]) -> Result<(), Memory>
        ensures { OnOk result (self.new ≡ give_all one.now effects.now self.old) }
    {
        for effect in effects {
            self.give(one, *effect)?;
        }
        Ok(())
    }

    #[inline(always)]
    fn give(&mut self, one: &Ready, effect: Effect) -> Result<(), Memory>
        ensures { OnOk result (self.new ≡ give one.now effect self.old) }
    {
        match effect {
            Effect::Publish { topic, value } => self.publish_with_line(topic, value),
            Effect::Call { client, value } => self.call(client, value),
            Effect::SendGoal { client, value } => self.send_goal(client, value),
            Effect::CancelAll { client, stamp } => self.cancel_all(client, stamp),
            Effect::CancelGoal {
                client,
                goal,
                stamp,
            } => self.cancel_goal(client, goal, stamp),
            Effect::Execute { server } => self.execute(server),
            Effect::Log(value) => self.add_line(Line::Log {
                entity: one.entity,
                value,
            }),
            Effect::Feedback(value) => self.give_feedback(one.entity, &one.cause, value),
        }
    }

    // A message is published, with its line.
    fn publish_with_line(&mut self, topic: EntityNo, value: i64) -> Result<(), Memory>
        ensures { OnOk result (self.new ≡ publish topic value (add_line (line.Pub topic value) self.old)) }
    {
        self.add_line(Line::Pub { topic, value })?;
        self.publish(topic, value)
    }

    // A message is sent to each subscription of its topic, in the order of declaration.
    pub(super) fn publish(&mut self, topic: EntityNo, value: i64) -> Result<(), Memory>
        ensures { OnOk result (self.new ≡ publish topic value self.old) }
    {
        let Some(found) = self.topics.find(topic) else {
            return Ok(());
        };
        self.mail
            .send_each(found.subscribers(), &Item::Message { value })
    }

    // An item is sent to an entity. What its queue loses by it is dropped with a line.
    pub(super) fn push(&mut self, entity: EntityNo, item: Item) -> Result<(), Memory>
        ensures { OnOk result (self.new ≡ push entity item self.old) }
    {
        self.mail.send(entity, item)
    }

    // An item is sent to an entity, if there is one.
    pub(super) fn push_any(&mut self, entity: Option<EntityNo>, item: Item) -> Result<(), Memory>
        ensures { OnOk result (self.new ≡ push_any entity item self.old) }
    {
        match entity {
            Some(entity) => self.push(entity, item),
            None => Ok(()),
        }
    }

    // An item is sent to an entity, after its line.
    #[inline(always)]
    pub(super) fn send(&mut self, line: Line, entity: EntityNo, item: Item) -> Result<(), Memory>
        ensures { OnOk result (self.new ≡ push entity item (add_line line self.old)) }
    {
        self.add_line(line)?;
        self.push(entity, item)
    }

    fn call(&mut self, client: EntityNo, value: i64) -> Result<(), Memory>
        ensures { OnOk result (self.new ≡ call_by (client_at client self.old) value self.old) }
    {
        let Some(made) = self.clients.call(client)? else {
            return Ok(());
        };
        let (service, number) = made;
        self.send(
            Line::Call {
                client,
                number,
                value,
            },
            service,
            Item::Request {
                client,
                number,
                value,
            },
        )
    }

    fn send_goal(&mut self, client: EntityNo, value: i64) -> Result<(), Memory>
        ensures { OnOk result (self.new ≡ send_goal_by (action_client_at client self.old) value self.old) }
    {
        let Some(made) = self.action_clients.send_goal(client)? else {
            return Ok(());
        };
        let (server, id) = made;
        let sender = Some(client);
        self.send(
            Line::Goal { client, id, value },
            server,
            Item::Goal {
                id,
                client: sender,
                value,
            },
        )
    }

    fn cancel_all(&mut self, client: EntityNo, stamp: u64) -> Result<(), Memory>
        ensures { OnOk result (self.new ≡ cancel_all_by (action_client_at client self.old) stamp self.old) }
    {
        let Some(found) = self.action_clients.find(client) else {
            return Ok(());
        };
        let server = found.server();
        self.send_cancel(client, server, GoalId::new(0), stamp)
    }

    fn cancel_goal(&mut self, client: EntityNo, number: u64, stamp: u64) -> Result<(), Memory>
        ensures { OnOk result (self.new ≡ cancel_goal_by (action_client_at client self.old) number stamp self.old) }
    {
        let Some(found) = self.action_clients.find(client) else {
            return Ok(());
        };
        let server = found.server();
        let id = found.goal_id(number);
        self.send_cancel(client, server, id, stamp)
    }

    fn send_cancel(
        &mut self,
        client: EntityNo,
        server: EntityNo,
        id: GoalId,
        stamp: u64,
    ) -> Result<(), Memory>
        ensures { OnOk result (self.new
            ≡ push server (item.Cancel (record { id = id; stamp = stamp }) (Some client)) (add_line (line.Cancel client id stamp) self.old)) }
    {
        let request = CancelRequest { id, stamp };
        let sender = Some(client);
        self.send(
            Line::Cancel { client, id, stamp },
            server,
            Item::Cancel {
                request,
                client: sender,
            },
        )
    }

    fn execute(&mut self, server: EntityNo) -> Result<(), Memory>
        ensures { OnOk result (self.new ≡ execute server self.old) }
    {
        let Some(id) = self.servers.execute_oldest(server) else {
            return Ok(());
        };
        self.add_line(Line::State {
            server,
            id,
            status: GoalStatus::Executing,
        })
    }

    fn give_feedback(&mut self, server: EntityNo, why: &Cause, value: i64) -> Result<(), Memory>
        ensures { OnOk result (self.new ≡ give_feedback server why.now value self.old) }
    {
        let Cause::Woke { id, .. } = *why else {
            return Ok(());
        };
        let client = self.servers.sender_at(server, id);
        self.add_line(Line::Feedback { server, id, value })?;
        self.push_any(client, Item::Feedback { id, value })
    }
}
