//! The topics, clients, action clients and action servers of a world, each found by its number. A server has its goals and
//! their tasks.
#![tactic(auto)]

mod action_client;
mod by_number;
mod client;
mod server;
mod topic;

pub use action_client::{ActionClient, ActionClients};
pub use by_number::{ByNumber, Numbered};
pub use client::{Client, Clients};
pub use server::{GoalRequest, GoalTurn, Server, Servers};
pub use topic::{Topic, Topics};
