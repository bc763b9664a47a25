//! The rules of one executor thread: what an item, a ready callback and a world are, what a callback does, what a round does,
//! and the transcript of a plan. The rules are definitions, in specs/. The code here is what all crates that follow them share.
#![tactic(auto)]

mod callback;
mod handler;
mod item;
pub mod laws;
mod listed;
mod polling;
mod ready;
mod runnable;
mod shared;

pub use handler::Handler;
pub use item::Item;
pub use listed::{Listed, ReadyList};
pub use polling::poll_any;
pub use ready::{AwakeGoal, Cause, Ready};
pub use runnable::Runnable;
pub use shared::share;
