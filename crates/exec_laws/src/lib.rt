//! What holds of every plan's transcript, as laws. The contract of each function says one. Its body is empty, or calls the laws that it
//! needs. No crate uses this one.
#![tactic(auto)]

pub mod exchanges;
pub mod goals;
pub mod rounds;
