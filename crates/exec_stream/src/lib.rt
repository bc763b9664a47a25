//! Runners that claim the lanes of a round on a board, and send on what callbacks did as they run.
#![tactic(auto)]

mod collecting;
pub mod laws;
mod outcomes;
mod sending;
mod sent;
mod streaming;

pub use collecting::Collector;
pub use sending::Sender;
pub use sent::Sent;
pub use streaming::{Runner, StreamedRound};
