ghost use Rattle.std.specs.Prelude.{◌≡◌};
ghost use Rattle.exec_plan.specs.Schedule.{plan_fault_number};

use thiserror::Error;

/// Why moments and a feed are no plan of a graph, each fault with its number. The least number that holds counts.
#[derive(Clone, Copy, Debug, PartialEq, Eq, Error)]
pub enum PlanFault {
    /// A number or a length is beyond its limit.
    #[error("beyond a limit")]
    Limit = 5,
    /// A moment is less than the one before it, or a round of the feed isn't one of the plan.
    #[error("out of order")]
    Clock = 8,
    /// The identifier of a goal that is fed is 0.
    #[error("no identifier")]
    Id = 9,
}

impl PlanFault {
    /// The number of the fault, from 5 to 9.
    pub fn number(self) -> u8
        ensures { result ≡ plan_fault_number self }
    {
        self as u8
    }
}
