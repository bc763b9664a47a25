//! The executor on one thread: the world, its rounds, and the transcript of a plan.
#![tactic(auto)]

mod arrived;
mod banks;
mod closing;
mod fault;
mod first_world;
mod fronts;
mod lane_buffer;
mod mail;
mod scratch;
mod scripts;
mod state;
mod taken;
mod weighing;
mod world;

pub use exec_rules::{Cause, Item, Ready};
pub use fault::WorldFault;
pub use lane_buffer::LaneBuffer;
pub use weighing::{Heavy, Light};
pub use world::{World, run_plan};
