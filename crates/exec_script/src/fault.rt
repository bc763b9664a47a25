ghost use Rattle.std.specs.Prelude.{◌≡◌};
ghost use Rattle.exec_script.specs.declared.fault.ScriptFault.TheVariants.{Memory};
ghost use Rattle.exec_script.specs.Fault.{fault_number};

use std::alloc::AllocFailed;
use thiserror::Error;

/// Why a script is refused, each with its number.
#[derive(Clone, Copy, Debug, PartialEq, Eq, Error)]
pub enum ScriptFault {
    /// The first word is no instruction.
    #[error("no such instruction")]
    Instruction = 1,
    /// The instruction has another number of items.
    #[error("another number of items")]
    Count = 2,
    /// An item isn't what its place takes.
    #[error("a wrong operand")]
    Operand = 3,
    /// The scope has no such name.
    #[error("an unknown name")]
    UnknownName = 4,
    /// A skip leads beyond the script's end.
    #[error("a skip beyond the end")]
    Skip = 5,
    /// The instruction isn't allowed in its place.
    #[error("an instruction out of place")]
    Place = 6,
    /// A script of a reentrant group names a group variable.
    #[error("a group variable in a reentrant group")]
    GroupVariable = 7,
    /// A growth was refused.
    #[error("out of memory")]
    Memory = 8,
}

impl ScriptFault {
    /// The fault's number.
    pub fn number(self) -> u8
        ensures { result ≡ fault_number self }
    {
        self as u8
    }
}

impl<T: Drop> From<AllocFailed<T>> for ScriptFault {
    ghost from_gives = { λ _ fault. fault ≡ Memory };

    fn from(_refused: AllocFailed<T>) -> ScriptFault {
        ScriptFault::Memory
    }
}
