ghost use Rattle.std.specs.Prelude.{◌≡◌};
ghost use Rattle.exec_graph.specs.Refusals.{graph_fault_number};
ghost use Rattle.exec_graph.specs.declared.fault.GraphFault.TheVariants as graph_fault;

use exec_msg::Memory;
use std::alloc::{AllocError, AllocFailed};
use thiserror::Error;

/// Why a draft is no graph, each with its number. The least number that holds counts.
#[derive(Clone, Copy, Debug, PartialEq, Eq, Error)]
pub enum GraphFault {
    /// A name isn't one, occurs twice, or isn't declared.
    #[error("a wrong name")]
    Name = 4,
    /// A number or a length is beyond its limit.
    #[error("beyond a limit")]
    Limit = 5,
    /// A script is misspelt, names what isn't there, skips beyond its end, or has an instruction out of place.
    #[error("a faulty script")]
    Script = 6,
    /// A script of a reentrant group names a group variable.
    #[error("a group variable in a reentrant group")]
    GroupVariable = 7,
    /// A growth was refused.
    #[error("out of memory")]
    Memory = 10,
}

impl GraphFault {
    /// The number of the fault, from 4 to 10.
    pub fn number(self) -> u8
        ensures { result ≡ graph_fault_number self }
    {
        self as u8
    }
}

impl From<Memory> for GraphFault {
    ghost from_gives = { λ _ fault. fault ≡ graph_fault.Memory };

    fn from(_refused: Memory) -> GraphFault {
        GraphFault::Memory
    }
}

impl From<AllocError> for GraphFault {
    ghost from_gives = { λ _ fault. fault ≡ graph_fault.Memory };

    fn from(_refused: AllocError) -> GraphFault {
        GraphFault::Memory
    }
}

impl<T: Drop> From<AllocFailed<T>> for GraphFault {
    ghost from_gives = { λ _ fault. fault ≡ graph_fault.Memory };

    fn from(_refused: AllocFailed<T>) -> GraphFault {
        GraphFault::Memory
    }
}
