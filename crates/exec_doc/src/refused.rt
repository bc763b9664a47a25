ghost use Rattle.std.specs.Prelude.{◌≡◌};
ghost use Rattle.exec_doc.specs.Refusals.{refused_number};
ghost use Rattle.exec_doc.specs.declared.refused.Refused.TheVariants as variants;

use exec_graph::{GraphFault, PlanFault};
use exec_msg::Memory;
use std::alloc::{AllocError, AllocFailed};
use thiserror::Error;

/// Why a document is refused. Each code has its number, and the least whose predicate holds counts.
#[derive(Clone, Copy, Debug, PartialEq, Eq, Error)]
pub enum Refused {
    /// `serde_json` reads no value from the bytes.
    #[error("no JSON")]
    NotJson = 1,
    /// The value hasn't the forms of a document.
    #[error("not the form of a document")]
    Shape = 2,
    /// The version is neither 1 nor 2.
    #[error("another version")]
    Version = 3,
    /// A name hasn't the form of a name, is declared twice, or isn't declared.
    #[error("a wrong name")]
    Name = 4,
    /// A number or a length is beyond its limit.
    #[error("beyond a limit")]
    Limit = 5,
    /// A script is misspelt, names what isn't there, skips beyond its end, or has an instruction out of place.
    #[error("a faulty script")]
    Script = 6,
    /// A script of a reentrant group names a group variable.
    #[error("a group variable in a reentrant group")]
    GroupVariable = 7,
    /// A moment is less than the one before it, or a round of the feed isn't one of the document.
    #[error("out of order")]
    Clock = 8,
    /// A text is no identifier, or a goal's identifier is 0.
    #[error("no identifier")]
    Id = 9,
    /// A growth was refused.
    #[error("out of memory")]
    Memory = 10,
}

impl Refused {
    /// The number of the code, from 1 to 10.
    pub fn number(self) -> u8
        ensures { result ≡ refused_number self }
    {
        self as u8
    }
}

impl From<Memory> for Refused {
    ghost from_gives = { λ _ refused. refused ≡ variants.Memory };

    fn from(_refused: Memory) -> Refused {
        Refused::Memory
    }
}

impl From<AllocError> for Refused {
    ghost from_gives = { λ _ refused. refused ≡ variants.Memory };

    fn from(_refused: AllocError) -> Refused {
        Refused::Memory
    }
}

impl<T: Drop> From<AllocFailed<T>> for Refused {
    ghost from_gives = { λ _ refused. refused ≡ variants.Memory };

    fn from(_refused: AllocFailed<T>) -> Refused {
        Refused::Memory
    }
}

impl From<GraphFault> for Refused {
    ghost use Rattle.exec_doc.specs.inner.Answering.{graph_code_of};

    ghost from_gives = { λ fault refused. refused ≡ graph_code_of fault };

    fn from(fault: GraphFault) -> Refused {
        match fault {
            GraphFault::Name => Refused::Name,
            GraphFault::Limit => Refused::Limit,
            GraphFault::Script => Refused::Script,
            GraphFault::GroupVariable => Refused::GroupVariable,
            GraphFault::Memory => Refused::Memory,
        }
    }
}

impl From<PlanFault> for Refused {
    ghost use Rattle.exec_doc.specs.inner.Answering.{plan_refusal};

    ghost from_gives = { λ fault refused. refused ≡ plan_refusal fault };

    fn from(fault: PlanFault) -> Refused {
        match fault {
            PlanFault::Limit => Refused::Limit,
            PlanFault::Clock => Refused::Clock,
            PlanFault::Id => Refused::Id,
        }
    }
}
