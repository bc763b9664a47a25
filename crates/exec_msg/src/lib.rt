//! What the executor's callbacks and its transcript are made of: moments, names, timers and lines.
#![tactic(auto)]

mod elements;
mod goal;
mod keep_last;
mod kind;
pub mod laws;
mod lazy_queue;
pub mod limits;
mod line;
mod line_texts;
mod lines;
mod memory;
mod name_texts;
mod names;
mod numbers;
mod packed;
mod place;
mod place_table;
mod text;
mod timer;
mod transcript;
mod value_texts;

pub use elements::Elements;
pub use goal::{Acceptance, CancelDecision, Decision, Event, GoalStatus, ReturnCode};
pub use keep_last::KeepLast;
pub use kind::Kind;
pub use lazy_queue::LazyQueue;
pub use line::Line;
pub use lines::{LineList, Lines};
pub use memory::Memory;
pub use names::Names;
pub use numbers::{EntityNo, GoalId, Moment, number_after};
pub use place_table::PlaceTable;
pub use text::write_line;
pub use timer::Timer;
pub use transcript::{TextReader, Transcript};
