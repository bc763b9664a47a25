//! What changes while a plan is run.
mod arrivals;
mod callback;
mod close;
mod give;
mod handing;
mod plain;
mod poll;
mod round;
mod snapshot;

use crate::banks::Banks;
use crate::first_world::{Entities, new_queues};
use crate::mail::Mail;
use exec_entity::{ActionClients, Clients, Servers, Topics};
use exec_msg::{EntityNo, GoalId, Line, Lines, Memory};
use exec_plan::{GroupNo, Plan};
use exec_queue::EntityTimer;
use exec_script::Bank;
use exec_task::GoalTask;
pub(crate) use round::Round;
use std::alloc::Global;
use std::marker::Model;

// The world of a plan: the order in which ready callbacks run, the number of the last arrival, topics, timers, queues, servers
// and clients, the variables of its callback groups, and the lines so far.
#[derive(Drop)]
pub(crate) struct WorldBody<L: Lines> {
    alloc: Global,
    topics: Topics,
    timers: Vec<EntityTimer>,
    servers: Servers,
    clients: Clients,
    action_clients: ActionClients,
    banks: Banks,
    mail: Mail<L>,
}

impl<L: Lines> Model for WorldBody<L> {
    ghost use Rattle.exec_rules.specs.World.{WorldState};

    ghost Value = { WorldState };

    ghost view = { λ state. record {
      order = state.mail.order;
      arrivals = state.mail.arrivals;
      topics = state.topics;
      timers = state.timers.items;
      queues = state.mail.queues;
      servers = state.servers;
      clients = state.clients;
      action_clients = state.action_clients;
      variables = state.banks;
      lines = state.mail.lines;
    } };
}

impl<L: Lines> WorldBody<L> {
    ghost use Rattle.std.specs.Prelude.{◌≡◌, [], IfOk, OnOk};
    ghost use Rattle.exec_rules.specs.Transcript.{first_world};
    ghost use Rattle.exec_entity.specs.inner.Polling.{IsTaken};
    ghost use Rattle.exec_rules.specs.Calls.{away};
    ghost use Rattle.exec_rules.specs.World.{add_line, variables_at, with_variables, with_work, work_at, work_of};

    // The world of a plan before its first round. It has no lines yet.
    pub(crate) fn new(alloc: Global, plan: &Plan, lines: L) -> Result<WorldBody<L>, Memory>
        requires { L.lines lines ≡ [] }
        ensures { IfOk result (λ state. state ≡ first_world plan.now) }
    {
        let graph = plan.graph();
        let order = plan.order();
        let entities = Entities::of(alloc, graph)?;
        Ok(WorldBody {
            alloc,
            topics: entities.topics,
            timers: entities.timers,
            servers: entities.servers,
            clients: entities.clients,
            action_clients: entities.action_clients,
            banks: Banks::new(alloc, graph.groups().len())?,
            mail: Mail::new(order, new_queues(alloc, graph, order)?, lines),
        })
    }

    // What the lines go to.
    pub(crate) fn lines(&self) -> &L
        ensures { L.lines result.now ≡ self.now.lines }
    {
        self.mail.lines()
    }

    // What the lines went to.
    pub(crate) fn into_lines(self) -> L
        ensures { L.lines result ≡ self.lines }
    {
        self.mail.into_lines()
    }

    #[inline(always)]
    fn add_line(&mut self, line: Line) -> Result<(), Memory>
        ensures { OnOk result (self.new ≡ add_line line self.old) }
    {
        self.mail.add_line(line)
    }

    // The variables of a group. Only groups of the graph have any.
    pub(crate) fn bank(&self, group: GroupNo) -> Bank
        ensures { result ≡ variables_at group self.now }
    {
        self.banks.get(group)
    }

    #[inline(always)]
    pub(crate) fn set_bank(&mut self, group: GroupNo, bank: &Bank)
        ensures { self.new ≡ with_variables group bank.now self.old }
    {
        self.banks.set(group, bank);
    }

    // Takes the task of a server's goal out of the world, and answers `None` if no such goal is held or its task is out.
    pub(crate) fn take_task(&mut self, server: EntityNo, id: GoalId) -> Option<GoalTask>
        ensures taken { IsTaken (work_at server id self.old) result }
        ensures out { self.new ≡ with_work server id away self.old }
    {
        self.servers.take_task(server, id)
    }

    // Puts the task of a server's goal in its place. If no such goal is held, nothing changes.
    pub(crate) fn put_task(&mut self, server: EntityNo, id: GoalId, task: GoalTask)
        ensures { self.new ≡ with_work server id (work_of task) self.old }
    {
        self.servers.put_task(server, id, task);
    }
}
