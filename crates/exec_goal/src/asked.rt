use exec_msg::GoalStatus;

/// What a result request is answered.
#[derive(Clone, Copy, Debug, PartialEq, Eq)]
pub enum Asked {
    /// The goal has ended with this status and result.
    Now(GoalStatus, i64),
    /// The goal hasn't ended, and its result comes later.
    Later,
    /// There is no such goal.
    Unknown,
}
