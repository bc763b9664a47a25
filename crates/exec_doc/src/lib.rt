//! Documents: which JSON text is which plan, and why another is refused.
#![tactic(auto)]

mod document;
mod draft;
pub mod examples;
mod fed;
mod forms;
pub mod laws;
mod refused;
mod schedule;
mod upgrading;

pub use document::read_document;
pub use refused::Refused;
pub use upgrading::upgrade;
