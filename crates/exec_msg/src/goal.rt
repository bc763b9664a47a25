ghost use Rattle.std.specs.Prelude.{◌≡◌};
ghost use Rattle.exec_msg.specs.Goal.{status_number, code_number, decision_number, acceptance_of, cancel_decision_number};

/// What moves a goal from state to state: the ROS 2 design article "Actions", section "Goal States".
#[derive(Clone, Copy, Debug, PartialEq, Eq, PartialOrd, Ord, Hash)]
pub enum Event {
    /// The server begins to work on an accepted goal.
    Execute,
    /// A cancel request for the goal was accepted.
    CancelGoal,
    /// The goal's work succeeded.
    Succeed,
    /// The goal's work was given up by the server.
    Abort,
    /// The goal's cancellation is done.
    Canceled,
}

/// The status of a goal, as `action_msgs/msg/GoalStatus` numbers it.
#[derive(Clone, Copy, Debug, PartialEq, Eq, PartialOrd, Ord, Hash)]
pub enum GoalStatus {
    /// The server holds no such goal.
    Unknown = 0,
    /// Accepted, and not executed yet.
    Accepted = 1,
    /// The server works on it.
    Executing = 2,
    /// The server works on it, and is to cancel it.
    Canceling = 3,
    /// It has succeeded.
    Succeeded = 4,
    /// It was canceled.
    Canceled = 5,
    /// The server gave it up.
    Aborted = 6,
}

impl GoalStatus {
    /// Its number in `action_msgs/msg/GoalStatus`.
    pub fn number(self) -> u8
        ensures { result ≡ status_number self }
    {
        self as u8
    }
}

/// The answer to a cancel request: `return_code` of `action_msgs/srv/CancelGoal`.
#[derive(Clone, Copy, Debug, PartialEq, Eq, PartialOrd, Ord, Hash)]
pub enum ReturnCode {
    /// `ERROR_NONE`: one or more goals are being canceled.
    None = 0,
    /// `ERROR_REJECTED`: the request was refused.
    Rejected = 1,
    /// `ERROR_UNKNOWN_GOAL_ID`: the server holds no such goal.
    UnknownGoalId = 2,
    /// `ERROR_GOAL_TERMINATED`: the goal has ended.
    GoalTerminated = 3,
}

impl ReturnCode {
    /// Its number in `action_msgs/srv/CancelGoal`.
    pub fn number(self) -> u8
        ensures { result ≡ code_number self }
    {
        self as u8
    }
}

/// What a goal handler decides of a goal request: `rclcpp_action::GoalResponse`, with its numbers.
#[derive(Clone, Copy, Debug, PartialEq, Eq, PartialOrd, Ord, Hash)]
pub enum Decision {
    /// `REJECT`: the goal isn't accepted.
    Reject = 1,
    /// `ACCEPT_AND_EXECUTE`: it is accepted, and executed at once.
    Execute = 2,
    /// `ACCEPT_AND_DEFER`: it is accepted, and executed later.
    Defer = 3,
}

impl Decision {
    /// Its number in `rclcpp_action::GoalResponse`.
    pub fn number(self) -> u8
        ensures { result ≡ decision_number self }
    {
        self as u8
    }

    /// How it accepts the goal, or `None` if it rejects it.
    pub fn acceptance(self) -> Option<Acceptance>
        ensures { result ≡ acceptance_of self }
    {
        match self {
            Decision::Reject => None,
            Decision::Execute => Some(Acceptance::Execute),
            Decision::Defer => Some(Acceptance::Defer),
        }
    }
}

/// How a goal is accepted.
#[derive(Clone, Copy, Debug, PartialEq, Eq, PartialOrd, Ord, Hash)]
pub enum Acceptance {
    /// It is executed at once.
    Execute,
    /// It is executed later.
    Defer,
}

/// What a cancel handler decides of a candidate: `rclcpp_action::CancelResponse`.
#[derive(Clone, Copy, Debug, PartialEq, Eq, PartialOrd, Ord, Hash)]
pub enum CancelDecision {
    /// `REJECT`: the goal goes on.
    Reject = 1,
    /// `ACCEPT`: the goal is to be canceled.
    Accept = 2,
}

impl CancelDecision {
    /// Its number in `rclcpp_action::CancelResponse`.
    pub fn number(self) -> u8
        ensures { result ≡ cancel_decision_number self }
    {
        self as u8
    }
}
