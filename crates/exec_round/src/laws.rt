//! What is put into a queue of outcomes, and what comes out of it.
pub use exec_stream::laws::{
    OutcomePass, OutcomeQueue, join_pass, outcome_queue, put_outcome, split_pass, take_outcome,
    the_last_pass_knows_what_the_queue_held,
};
