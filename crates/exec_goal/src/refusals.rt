ghost use Rattle.std.specs.Prelude.{◌≡◌};
ghost use Rattle.exec_goal.specs.Calls.{reject_number};
ghost use Rattle.exec_goal.specs.declared.refusals.Reject.TheVariants.{Memory as OutOfMemory};

use exec_msg::Memory;
use std::alloc::{AllocError, AllocFailed};
use thiserror::Error;

/// Why a goal isn't accepted, each with its number.
#[derive(Clone, Copy, Debug, PartialEq, Eq, Error)]
pub enum Reject {
    /// The server holds a goal of this identifier, in any state.
    #[error("a goal of this identifier is held")]
    Held = 1,
    /// The server holds as many goals as it may.
    #[error("no room for another goal")]
    Full = 2,
    /// A growth was refused.
    #[error("out of memory")]
    Memory = 3,
}

impl Reject {
    /// The number of the refusal, from 1.
    pub fn number(self) -> u8
        ensures { result ≡ reject_number self }
    {
        self as u8
    }
}

impl From<Memory> for Reject {
    ghost from_gives = { λ _ refusal. refusal ≡ OutOfMemory };

    fn from(_refused: Memory) -> Reject {
        Reject::Memory
    }
}

impl From<AllocError> for Reject {
    ghost from_gives = { λ _ refusal. refusal ≡ OutOfMemory };

    fn from(_refused: AllocError) -> Reject {
        Reject::Memory
    }
}

impl<T: Drop> From<AllocFailed<T>> for Reject {
    ghost from_gives = { λ _ refusal. refusal ≡ OutOfMemory };

    fn from(_refused: AllocFailed<T>) -> Reject {
        Reject::Memory
    }
}

/// There is no such goal, or no such transition from its state.
#[derive(Clone, Copy, Debug, PartialEq, Eq, Error)]
#[error("no such goal, or no such transition")]
pub struct Illegal;
