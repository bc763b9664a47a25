//! Workers that last: each takes the jobs of one caller, one after another, and answers them.
#![tactic(auto)]

mod handoff;
mod job;
mod jobs;
mod pool;
mod rule;

pub use handoff::Worker;
pub use pool::Pool;
