//! Entities, as a draft and as a graph has them. Those of a draft refer to one another by texts, and have spelled scripts.
//! Those of a graph refer by numbers, and have decoded scripts.
pub(crate) mod parts;

ghost use Rattle.std.specs.Prelude.{◌≡◌};
ghost use Rattle.exec_plan.specs.Entity.{kind_of_entity, is_of, queue_depth};

use crate::script::Script;
use exec_msg::EntityNo;
use exec_script::WordText;
use std::marker::Model;

/// The kinds of entities that the `rclcpp` documentation names, in the order of their numbers.
#[derive(Clone, Copy, Debug, PartialEq, Eq, PartialOrd, Ord, Hash)]
pub enum EntityKind {
    /// A timer.
    Timer,
    /// A subscription.
    Subscription,
    /// A service.
    Service,
    /// A service client.
    Client,
    /// An action server.
    Server,
    /// An action client.
    ActionClient,
}

impl EntityKind {
    /// All of them in their order.
    pub const IN_ORDER: [EntityKind; 6] = [
        EntityKind::Timer,
        EntityKind::Subscription,
        EntityKind::Service,
        EntityKind::Client,
        EntityKind::Server,
        EntityKind::ActionClient,
    ];
}

/// A timer.
#[derive(Debug, Drop)]
pub struct TimerEntity<S> {
    /// In ticks, from 1 to [`TICKS`](exec_msg::limits::TICKS).
    pub period: u64,
    /// What its callback does.
    pub script: S,
}

/// A subscription.
#[derive(Debug, Drop)]
pub struct SubscriptionEntity<N, S> {
    /// Its topic.
    pub topic: N,
    /// How many messages its queue holds, from 1 to [`DEPTH`](exec_msg::limits::DEPTH).
    pub depth: u64,
    /// What its callback does.
    pub script: S,
}

/// A service.
#[derive(Debug, Drop)]
pub struct ServiceEntity<S> {
    /// How many requests its queue holds, from 1 to [`DEPTH`](exec_msg::limits::DEPTH).
    pub depth: u64,
    /// What its callback does.
    pub script: S,
}

/// A service client.
#[derive(Debug, Drop)]
pub struct ClientEntity<N, S> {
    /// Its service, in any node.
    pub service: N,
    /// How many replies its queue holds, from 1 to [`DEPTH`](exec_msg::limits::DEPTH).
    pub depth: u64,
    /// What its callback does.
    pub script: S,
}

/// An action server.
#[derive(Debug, Drop)]
pub struct ServerEntity<S> {
    /// How many items each of its queues of goal requests, cancel requests and asks holds, from 1 to
    /// [`DEPTH`](exec_msg::limits::DEPTH).
    pub depth: u64,
    /// For how many ticks it keeps a result, at most [`TICKS`](exec_msg::limits::TICKS). `None` is for ever.
    pub result_timeout: Option<u64>,
    /// What it does with a goal request.
    pub on_goal: S,
    /// What it does with each candidate of a cancel request.
    pub on_cancel: S,
    /// What its goals do.
    pub script: S,
}

/// An action client.
#[derive(Debug, Drop)]
pub struct ActionClientEntity<N, S> {
    /// Its action server, in any node.
    pub server: N,
    /// How many items each of its queues of responses, codes, feedback and results holds, from 1 to
    /// [`DEPTH`](exec_msg::limits::DEPTH).
    pub depth: u64,
    /// What it does with the answer to a goal request.
    pub on_response: S,
    /// What it does with the return code of a cancel request.
    pub on_code: S,
    /// What it does with a goal's feedback.
    pub on_feedback: S,
    /// What it does with a goal's result. It asks for results if this isn't `None`, even if the script is empty.
    pub on_result: Option<S>,
}

/// What an entity is. `N` is the type of what it refers to, and `S` that of a script. In a draft no limit need hold.
#[derive(Debug, Drop)]
pub enum EntityOf<N, S> {
    /// A timer.
    Timer(TimerEntity<S>),
    /// A subscription.
    Subscription(SubscriptionEntity<N, S>),
    /// A service.
    Service(ServiceEntity<S>),
    /// A service client.
    Client(ClientEntity<N, S>),
    /// An action server.
    Server(ServerEntity<S>),
    /// An action client.
    ActionClient(ActionClientEntity<N, S>),
}

impl<N, S> EntityOf<N, S> {
    /// Its kind.
    pub fn kind(&self) -> EntityKind
        ensures { result ≡ kind_of_entity self.now }
    {
        match self {
            EntityOf::Timer(_) => EntityKind::Timer,
            EntityOf::Subscription(_) => EntityKind::Subscription,
            EntityOf::Service(_) => EntityKind::Service,
            EntityOf::Client(_) => EntityKind::Client,
            EntityOf::Server(_) => EntityKind::Server,
            EntityOf::ActionClient(_) => EntityKind::ActionClient,
        }
    }

    /// Whether it is of a kind.
    pub fn is_of(&self, kind: EntityKind) -> bool
        ensures { result ≡ is_of kind self.now }
    {
        self.kind() == kind
    }

    /// How many items each of its queues holds. A timer has none.
    pub fn queue_depth(&self) -> u64
        ensures { result ≡ queue_depth self.now }
    {
        match self {
            EntityOf::Timer(_) => 0,
            EntityOf::Subscription(entity) => entity.depth,
            EntityOf::Service(entity) => entity.depth,
            EntityOf::Client(entity) => entity.depth,
            EntityOf::Server(entity) => entity.depth,
            EntityOf::ActionClient(entity) => entity.depth,
        }
    }
}

/// The number of a callback group: its place among the groups of a graph, from 0.
#[derive(Clone, Copy, Debug, PartialEq, Eq, PartialOrd, Ord, Hash)]
pub struct GroupNo(pub u16);

impl Model for GroupNo {
    ghost use Rattle.std.specs.Prelude.{ℕ};

    ghost Value = { ℕ };

    ghost view = { λ no. no.0 };

    ghost inverse = { λ number. record { 0 = number } };
}

/// A callback group of the `rclcpp` documentation.
#[derive(Debug, Drop)]
pub struct CallbackGroup {
    /// The number of its node, from 0.
    pub node: usize,
    /// Its name. A node's default group has none.
    pub name: Option<WordText>,
    /// Whether it is mutually exclusive. Otherwise it is reentrant.
    pub exclusive: bool,
}

/// An entity of a graph.
#[derive(Drop)]
pub struct GraphEntity {
    /// Its callback group.
    pub group: GroupNo,
    /// What it is.
    pub is: EntityOf<EntityNo, Script>,
}

/// What a name of a graph is declared as.
#[derive(Drop)]
pub enum Declared {
    /// A topic.
    Topic,
    /// An entity.
    Entity(GraphEntity),
}

impl Declared {
    ghost use Rattle.std.specs.Option.{option_copied};
    ghost use Rattle.exec_plan.specs.Graph.{entity_of, is_topic, is_a};

    /// The entity that it is declared as. A topic is none.
    pub fn entity(&self) -> Option<&GraphEntity>
        ensures { option_copied result ≡ entity_of self.now }
    {
        match self {
            Declared::Topic => None,
            Declared::Entity(entity) => Some(entity),
        }
    }

    /// Whether it is a topic.
    pub fn is_topic(&self) -> bool
        ensures { result ≡ is_topic self.now }
    {
        matches!(self, Declared::Topic)
    }

    /// Whether it is an entity of a kind.
    pub fn is_a(&self, kind: EntityKind) -> bool
        ensures { result ≡ is_a kind self.now }
    {
        match self {
            Declared::Topic => false,
            Declared::Entity(entity) => entity.is.is_of(kind),
        }
    }
}
