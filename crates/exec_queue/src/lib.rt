//! What waits for callbacks: the queues of a plan's entities, and its timers.
#![tactic(auto)]

mod queue;
mod timer;

pub use queue::{EntityQueue, Queues};
pub use timer::{EntityTimer, take_due_into};
