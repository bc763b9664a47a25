//! Rounds by workers: lanes run in threads, and the transcript is that of one thread.
#![tactic(auto)]

mod claiming;
mod crew;
mod forking;
pub mod laws;
mod policy;
mod rounds;
mod running;
mod sharing;
mod streaming;
#[cfg(test)]
mod tests;

pub use exec_io::{Out, OutFailed, Through};
pub use rounds::{round_claimed, round_forked, round_streamed};
pub use running::{RunFault, run, run_into};
