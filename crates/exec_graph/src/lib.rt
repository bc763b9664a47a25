//! Drafts of graphs, and the builder that gives a graph or its least fault. Graphs and plans are those of `exec_plan`.
#![tactic(auto)]

mod draft;
mod fault;
pub mod laws;
mod spelled;

pub use draft::builder::GraphBuilder;
pub use draft::named::NamedGraph;
pub use draft::{Drafted, EntityDraft, GraphDraft, GroupDraft, NodeDraft};
pub use exec_plan::{
    ActionClientEntity, CallbackGroup, ClientEntity, Declared, EntityKind, EntityOf, Fed, FedOf,
    Feed, FeedByRound, FeedOf, Graph, GraphEntity, GroupNo, Order, Plan, PlanFault, Script,
    ServerEntity, ServiceEntity, SubscriptionEntity, TimerEntity, greatest_stamp, schedule_fits,
};
pub use fault::GraphFault;
pub use spelled::Spelled;
