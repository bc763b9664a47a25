use exec_msg::Memory;
use thiserror::Error;

/// Why a call of a world failed.
#[derive(Clone, Copy, Debug, PartialEq, Eq, Error)]
pub enum WorldFault {
    /// A growth or a clone was refused. The world has failed from then on.
    #[error("a growth was refused")]
    Memory = 1,
    /// The world had failed before. Nothing changes.
    #[error("the world has failed")]
    Failed = 2,
}

impl WorldFault {
    ghost use Rattle.std.specs.Prelude.{◌≡◌};
    ghost use Rattle.exec_world.specs.Faults.{world_fault_number};

    /// Its number.
    pub fn number(self) -> u8
        ensures { result ≡ world_fault_number self }
    {
        self as u8
    }
}

/// A fault means that the world was refused memory, in that call or before, or that it was marked as failed.
impl From<WorldFault> for Memory {
    fn from(_fault: WorldFault) -> Memory {
        Memory
    }
}
