//! The program: its words, its streams and what it ends with. What runs it says who watches its rounds.
#![tactic(auto)]

mod program;
mod starting;

pub use program::{Failure, Status, execute};
pub use starting::start;
