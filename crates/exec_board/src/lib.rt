//! The claim board: the lanes of a round, which callers in any threads claim, run and release, one caller a lane at a time.
#![tactic(auto)]

mod board;
mod bring;
mod claim;
pub mod laws;
mod pass;
mod rule;
mod sweep;

pub use board::Board;
pub use claim::{Busy, Claim};
pub use pass::Pass;
