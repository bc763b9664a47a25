pub(crate) mod feed_by_round;
pub(crate) mod schedule;

use crate::fault::PlanFault;
use crate::graph::Graph;
use crate::order::Order;
use crate::plan::schedule::fault_of;
use exec_msg::{EntityNo, GoalId, Moment};
use std::marker::Model;

/// What is fed. `N` is the type of what it goes to, and `I` that of an identifier.
#[derive(Clone, Copy, Debug, PartialEq, Eq, Drop)]
pub enum FedOf<N, I> {
    /// A message to a topic.
    Message {
        /// The topic.
        topic: N,
        /// What it says.
        value: i64,
    },
    /// A goal request to an action server.
    Goal {
        /// The action server.
        server: N,
        /// The goal's identifier.
        id: I,
        /// The goal.
        value: i64,
    },
    /// A cancel request to an action server.
    Cancel {
        /// The action server.
        server: N,
        /// The identifier of the goal that is to be canceled, or 0 for none.
        id: I,
        /// A stamp in ticks: the goals accepted up to it are to be canceled. 0 is none.
        stamp: u64,
    },
}

/// An entry of a feed.
#[derive(Clone, Copy, Debug, PartialEq, Eq, Drop)]
pub struct FeedOf<N, I> {
    /// The number of its round, from 1.
    pub round: u64,
    /// What is fed.
    pub fed: FedOf<N, I>,
}

/// What a plan is fed. In a lawful one a goal's identifier isn't 0, and a stamp is at most
/// [`TICKS`](exec_msg::limits::TICKS).
pub type Fed = FedOf<EntityNo, GoalId>;

/// An entry of a plan's feed.
pub type Feed = FeedOf<EntityNo, GoalId>;

/// A lawful plan: a graph, the order in which ready callbacks run, the moment of each round, and what is fed to it. No moment
/// is less than the one before it. Each round of the feed is one of the plan. All limits hold.
#[derive(Drop)]
pub struct Plan {
    graph: Graph,
    order: Order,
    moments: Vec<Moment>,
    feed: Vec<Feed>,
}

impl Model for Plan {
    ghost use Rattle.exec_plan.specs.Lawful.{IsLawfulPlan};
    ghost use Rattle.exec_plan.specs.Plan.{PlanData};

    ghost Value = { PlanData };

    ghost view = { λ plan. record { graph = plan.graph; order = plan.order; moments = plan.moments.items; feed = plan.feed.items } };

    ghost invariant = { λ plan.
        IsLawfulPlan (record { graph = plan.graph; order = plan.order; moments = plan.moments.items; feed = plan.feed.items }) };
}

impl Plan {
    ghost use Rattle.std.specs.Prelude.{◌≡◌, true, None, Some, IfOk, IfErr};
    ghost use Rattle.std.specs.List.{list_all};
    ghost use Rattle.exec_plan.specs.Feeding.{goes_somewhere};
    ghost use Rattle.exec_plan.specs.Lawful.{IsLawfulPlan};
    ghost use Rattle.exec_plan.specs.Schedule.{plan_fault_in};

    /// The plan of a graph, the order in which ready callbacks run, the moment of each round, and what is fed to topics and
    /// servers of the graph. It takes no memory.
    ///
    /// # Errors
    /// The least fault of moments and feed. What was handed in is then dropped.
    pub fn new(
        graph: Graph,
        order: Order,
        moments: Vec<Moment>,
        feed: Vec<Feed>,
    ) -> Result<Plan, PlanFault>
        requires { list_all (λ entry. goes_somewhere graph entry.fed) feed.items ≡ true }
        ensures plan { IfOk result (λ plan. (plan_fault_in moments.items feed.items ≡ None)
            × (plan ≡ record { graph = graph; order = order; moments = moments.items; feed = feed.items })) }
        ensures fault { IfErr result (λ fault. plan_fault_in moments.items feed.items ≡ Some fault) }
    {
        if let Some(fault) = fault_of(&moments, &feed) {
            return Err(fault);
        }
        Ok(Plan {
            graph,
            order,
            moments,
            feed,
        })
    }

    /// The graph.
    pub fn graph(&self) -> &Graph
        ensures graph { result.now ≡ self.now.graph }
        ensures lawful { IsLawfulPlan self.now }
    {
        &self.graph
    }

    /// The order in which ready callbacks are run.
    pub fn order(&self) -> Order
        ensures { result ≡ self.now.order }
    {
        self.order
    }

    /// The moment of each round, from the first.
    pub fn moments(&self) -> &[Moment]
        ensures { result.now ≡ self.now.moments }
    {
        self.moments.as_slice()
    }

    /// What is fed in all rounds, in the order in which it was declared.
    pub fn feed(&self) -> &[Feed]
        ensures feed { result.now ≡ self.now.feed }
        ensures lawful { IsLawfulPlan self.now }
    {
        self.feed.as_slice()
    }
}
