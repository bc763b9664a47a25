//! Scripts: what a callback of the executor does, instruction by instruction.
#![tactic(auto)]

mod cancel;
mod cells;
mod effects;
mod fault;
mod frame;
mod instr;
mod item;
pub mod laws;
mod place;
mod results;
mod run;
mod scope;
mod spelled;
mod spelling;
mod step;
mod word;

pub use cells::{Bank, Regs, Slot};
pub use effects::{Close, Effect, EffectList, Effects};
pub use fault::ScriptFault;
pub use instr::{Destination, Instr, Operand, Operation};
pub use place::{Place, Role, check};
pub use run::{Input, run_call, run_call_closing, run_call_into, run_from};
pub use scope::Scope;
pub use spelled::SpelledInstr;
pub use spelling::{Spelling, decode};
pub use step::Stop;
pub use word::{Word, WordRef, WordText};
