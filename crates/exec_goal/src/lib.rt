//! Goals of an action server: their states, cancel policy and cached results.
#![tactic(auto)]

mod asked;
mod cancel;
pub mod examples;
mod goals;
mod held;
mod info;
pub mod laws;
mod refusals;
mod state;
mod tally;

pub use asked::Asked;
pub use cancel::{CancelAnswer, CancelRequest};
pub use goals::{Accepted, Goals};
pub use info::GoalInfo;
pub use refusals::{Illegal, Reject};
pub use state::State;
