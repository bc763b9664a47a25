//! What the documents of `cases/` and `examples/` are answered: the prover computes it by the definitions of the headline, from the
//! bytes of a document to those of its transcript. `tools/worked` writes this crate. No crate uses it.
#![tactic(auto)]

pub mod arrival;
pub mod clock;
pub mod examples;
pub mod ids;
pub mod json;
pub mod limits;
pub mod names;
pub mod order;
pub mod run;
pub mod scripts;
pub mod shape;
pub mod variables;
pub mod version;
