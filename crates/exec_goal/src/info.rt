use crate::state::State;
use exec_msg::{GoalId, Moment};

/// A goal as it is at the call that gives this.
#[derive(Clone, Copy, Debug, PartialEq, Eq)]
pub struct GoalInfo {
    /// Its identifier.
    pub id: GoalId,
    /// The value that it was sent with.
    pub value: i64,
    /// The moment at which it was accepted.
    pub stamp: Moment,
    /// Its state.
    pub state: State,
}
