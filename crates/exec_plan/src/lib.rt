//! Lawful graphs of topics, entities and callback groups, and plans of what is run on them.
#![tactic(auto)]

mod callback_script;
mod entity;
mod fault;
mod graph;
pub mod laws;
mod order;
mod plan;
mod script;

pub use entity::parts::{Reference, Referent, RoleScript};
pub use entity::{
    ActionClientEntity, CallbackGroup, ClientEntity, Declared, EntityKind, EntityOf, GraphEntity,
    GroupNo, ServerEntity, ServiceEntity, SubscriptionEntity, TimerEntity,
};
pub use fault::PlanFault;
pub use graph::Graph;
pub use order::Order;
pub use plan::feed_by_round::FeedByRound;
pub use plan::schedule::{greatest_stamp, schedule_fits};
pub use plan::{Fed, FedOf, Feed, FeedOf, Plan};
pub use script::Script;
