//! The parts of the first world of a plan.
ghost use Rattle.std.specs.Prelude.{◌≡◌, ◌<◌, ◌≤◌, ◌++◌, [], false, true, is_some, length, map, IsTrue, OnOk, IfOk};
ghost use Rattle.std.specs.List.{filter};
ghost use Rattle.exec_msg.specs.declared.limits.TheConstants.{DEPTH};
ghost use Rattle.exec_plan.specs.Entity.{is_within, queue_depth};
ghost use Rattle.exec_plan.specs.Graph.{callback_script, declared_at, entities_where, has_kind, of_entity, wait_set};
ghost use Rattle.exec_rules.specs.Transcript.{handler_for, new_queue, subscribes_to, takes_from_queue};
ghost use Rattle.exec_world.specs.inner.Parts.{new_queue_of, queues_of, with_if};

use crate::scripts::shared;
use exec_entity::{ActionClient, ActionClients, Client, Clients, Server, Servers, Topic, Topics};
use exec_msg::{EntityNo, Kind, Memory};
use exec_plan::{Declared, EntityOf, Graph, GraphEntity, Order, Script};
use exec_queue::{EntityTimer, Queues};
use exec_rules::Handler;
use std::alloc::Global;
use std::marker::Model;

// The entities of a graph by their kinds, each in the order of declaration.
#[derive(Drop)]
pub(crate) struct Entities {
    pub(crate) topics: Topics,
    pub(crate) timers: Vec<EntityTimer>,
    pub(crate) servers: Servers,
    pub(crate) clients: Clients,
    pub(crate) action_clients: ActionClients,
}

impl Model for Entities {
    ghost use Rattle.exec_world.specs.inner.Parts.{EntitiesData};

    ghost Value = { EntitiesData };

    ghost view = { λ entities. record {
      topics = entities.topics;
      timers = entities.timers.items;
      servers = entities.servers;
      clients = entities.clients;
      action_clients = entities.action_clients;
    } };
}

impl Entities {
    ghost use Rattle.std.specs.Prelude.{◌≡◌, ◌<◌, ◌^◌, ◌++◌, ◌∷◌, [], true, length, IfOk, IsTrue, OnOk};
    ghost use Rattle.exec_plan.specs.Entity.{is_within};
    ghost use Rattle.exec_plan.specs.Graph.{declared_at, of_entity};
    ghost use Rattle.exec_rules.specs.Transcript.{new_topic};
    ghost use Rattle.exec_world.specs.inner.Parts.{new_entities, with_declared};

    // Those of a graph before the first round. No server has a goal, and no client has a call or a goal.
    pub(crate) fn of(alloc: Global, graph: &Graph) -> Result<Entities, Memory>
        ensures { IfOk result (λ entities. entities ≡ new_entities graph.now) }
    {
        let mut entities = Entities {
            topics: Topics::new(alloc),
            timers: Vec::new(alloc),
            servers: Servers::new(alloc),
            clients: Clients::new(alloc),
            action_clients: ActionClients::new(alloc),
        };
        for number in 0..graph.len() {
            entities.declare(alloc, graph, EntityNo(number as u16))?;
        }
        Ok(entities)
    }

    // Adds what a number is declared as, if that has a place here.
    fn declare(&mut self, alloc: Global, graph: &Graph, number: EntityNo) -> Result<(), Memory>
        requires here { number < length graph.now.entities }
        requires within { IsTrue (of_entity true is_within (declared_at graph.now number)) }
        requires few { length self.old.action_clients < 2 ^ 16 }
        ensures { OnOk result (self.new ≡ with_declared graph.now number self.old) }
    {
        let Declared::Entity(found) = graph.declaration(number) else {
            return self.declare_topic(alloc, graph, number);
        };
        match &found.is {
            EntityOf::Timer(timer) => {
                let handler = handler(alloc, graph, number, found, Kind::Timer)?;
                self.timers.push(EntityTimer::new(handler, timer.period))?;
                Ok(())
            }
            EntityOf::Server(server) => {
                let handler = handler(alloc, graph, number, found, Kind::Poll)?;
                self.servers
                    .declare(Server::new(alloc, handler, server.result_timeout))
            }
            EntityOf::Client(client) => self
                .clients
                .declare(Client::new(alloc, number, client.service)),
            EntityOf::ActionClient(client) => {
                let place = self.action_clients.as_slice().len() as u16;
                let asks = client.on_result.is_some();
                self.action_clients
                    .declare(ActionClient::new(number, place, client.server, asks))
            }
            EntityOf::Subscription(_) | EntityOf::Service(_) => Ok(()),
        }
    }

    // Adds a topic with its subscriptions.
    fn declare_topic(&mut self, alloc: Global, graph: &Graph, topic: EntityNo) -> Result<(), Memory>
        ensures { OnOk result (self.new ≡ record self.old { topics = self.old.topics ++ new_topic graph.now topic ∷ [] }) }
    {
        let subscribers = subscribers_at(alloc, graph, topic)?;
        self.topics.declare(Topic {
            entity: topic,
            subscribers,
        })
    }
}

// The queues of a graph in ready order, all empty.
pub(crate) fn new_queues(alloc: Global, graph: &Graph, order: Order) -> Result<Queues, Memory>
    ensures { IfOk result (λ queues. queues ≡ map (new_queue order graph.now) (filter (λ waitable. takes_from_queue waitable.kind) (wait_set graph.now))) }
{
    let mut queues = Queues::new(alloc);
    for kind in Kind::IN_ORDER {
        declare_kind(alloc, &mut queues, graph, order, kind)?;
    }
    Ok(queues)
}

fn declare_kind(
    alloc: Global,
    queues: &mut Queues,
    graph: &Graph,
    order: Order,
    kind: Kind,
) -> Result<(), Memory>
    ensures { OnOk result (queues.new ≡ queues.old ++ queues_of order graph.now kind) }
{
    if takes_from_queue(kind) {
        declare_all(alloc, queues, graph, order, kind)
    } else {
        Ok(())
    }
}

fn takes_from_queue(kind: Kind) -> bool
    ensures { result ≡ takes_from_queue kind }
{
    match kind {
        Kind::Timer | Kind::Poll => false,
        _ => true,
    }
}

// Declares the queue of each entity that has callbacks of a kind.
fn declare_all(
    alloc: Global,
    queues: &mut Queues,
    graph: &Graph,
    order: Order,
    kind: Kind,
) -> Result<(), Memory>
    requires { takes_from_queue kind ≡ true }
    ensures { OnOk result (queues.new ≡ queues.old ++ map (new_queue_of order graph.now kind) (entities_where (has_kind kind) graph.now)) }
{
    for number in 0..graph.len() {
        let entity = EntityNo(number as u16);
        declare_queue(alloc, queues, graph, order, kind, entity)?;
    }
    Ok(())
}

fn declare_queue(
    alloc: Global,
    queues: &mut Queues,
    graph: &Graph,
    order: Order,
    kind: Kind,
    entity: EntityNo,
) -> Result<(), Memory>
    requires taken { takes_from_queue kind ≡ true }
    requires here { entity < length graph.now.entities }
    requires within { IsTrue (of_entity true is_within (declared_at graph.now entity)) }
    ensures { OnOk result (queues.new ≡ with_if (has_kind kind (declared_at graph.now entity)) (new_queue_of order graph.now kind entity) queues.old) }
{
    let Declared::Entity(found) = graph.declaration(entity) else {
        return Ok(());
    };
    if !found.is.has_callbacks(kind) {
        return Ok(());
    }
    let handler = handler(alloc, graph, entity, found, kind)?;
    queues.declare(handler, kind, depth_of(&found.is, kind), order)
}

// The depth of an entity's queue for callbacks of a kind.
fn depth_of(is: &EntityOf<EntityNo, Script>, kind: Kind) -> usize
    requires taken { takes_from_queue kind ≡ true }
    requires has { is_some (callback_script kind is.now) ≡ true }
    requires within { IsTrue (is_within is.now) }
    ensures value { result ≡ queue_depth is.now }
    ensures bounds { (1 ≤ result) × (result ≤ DEPTH) }
{
    is.queue_depth() as usize
}

// The subscriptions of a topic, in the order of declaration.
fn subscribers_at(alloc: Global, graph: &Graph, topic: EntityNo) -> Result<Vec<EntityNo>, Memory>
    ensures { IfOk result (λ subscribers. subscribers.items ≡ entities_where (of_entity false (subscribes_to topic)) graph.now) }
{
    let mut subscribers = Vec::new(alloc);
    for number in 0..graph.len() {
        let entity = EntityNo(number as u16);
        push_subscriber(&mut subscribers, topic, entity, graph.declaration(entity))?;
    }
    Ok(subscribers)
}

fn push_subscriber(
    subscribers: &mut Vec<EntityNo>,
    topic: EntityNo,
    entity: EntityNo,
    declared: &Declared,
) -> Result<(), Memory>
    ensures { OnOk result (subscribers.new.items ≡ with_if (of_entity false (subscribes_to topic) declared.now) entity subscribers.old.items) }
{
    if subscribes(declared, topic) {
        subscribers.push(entity)?;
    }
    Ok(())
}

fn subscribes(declared: &Declared, topic: EntityNo) -> bool
    ensures { result ≡ of_entity false (subscribes_to topic) declared.now }
{
    let Declared::Entity(found) = declared else {
        return false;
    };
    match &found.is {
        EntityOf::Subscription(subscription) => subscription.topic == topic,
        _ => false,
    }
}

// The callback of a kind of an entity, with a share in its script.
fn handler(
    alloc: Global,
    graph: &Graph,
    number: EntityNo,
    entity: &GraphEntity,
    kind: Kind,
) -> Result<Handler, Memory>
    ensures { IfOk result (λ handler. handler ≡ handler_for graph.now kind number entity.now) }
{
    Ok(Handler {
        entity: number,
        group: entity.group,
        exclusive: graph.is_exclusive(entity.group),
        script: shared(alloc, entity.is.script(kind))?,
    })
}
