//! Lanes: the ready callbacks of a round, divided by callback groups, so that they may run in any threads and in any order.
#![tactic(auto)]

mod cut;
pub mod examples;
mod gate;
mod gathering;
mod lane_box;
mod lane_home;
pub mod laws;
mod outcome;
mod places;
mod splitting;

pub use gate::{Gate, Open};
pub use gathering::{Gathered, gather};
pub use lane_box::LaneBox;
pub use outcome::{CopiedEffects, Outcome};
pub use splitting::split;
