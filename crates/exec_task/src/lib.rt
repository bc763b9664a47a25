//! Goals and calls as tasks that are polled by hand.
#![tactic(auto)]

mod call;
pub mod examples;
mod goal;
pub mod laws;
mod poller;
mod progress;
mod wait;
mod wake;

pub use call::{Already, PendingCall};
pub use goal::{GoalTask, is_awake, poll_goal, poll_goal_into, wakes_at};
pub use poller::Poller;
pub use wait::{Answer, Ending, Polled, Source, Turn, Wait};
