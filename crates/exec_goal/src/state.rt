ghost use Rattle.std.specs.Prelude.{◌≡◌};
ghost use Rattle.exec_goal.specs.Calls.{where_terminal};
ghost use Rattle.exec_goal.specs.State.{after, status_of, is_accepted, is_cancelable, is_canceling, is_worked_on, is_terminal};

use exec_msg::{Event, GoalStatus};

/// The state of a goal that a server holds: the ROS 2 design article "Actions", section "Goal States".
#[derive(Clone, Copy, Debug, PartialEq, Eq, PartialOrd, Ord, Hash)]
pub enum State {
    /// Accepted, and not executed yet.
    Accepted,
    /// The server works on it.
    Executing,
    /// The server works on it, and is to cancel it.
    Canceling,
    /// It has succeeded.
    Succeeded,
    /// It was canceled.
    Canceled,
    /// The server gave it up.
    Aborted,
}

impl State {
    /// The state after an event, or `None` if there is no such transition.
    pub fn after(self, event: Event) -> Option<State>
        ensures { result ≡ after self event }
    {
        match self {
            State::Accepted => after_accepted(event),
            State::Executing => after_executing(event),
            State::Canceling => after_canceling(event),
            State::Succeeded | State::Canceled | State::Aborted => None,
        }
    }

    // The terminal state after an event, or `None` if there is no such transition.
    pub(crate) fn end(self, event: Event) -> Option<State>
        ensures { result ≡ where_terminal (after self event) }
    {
        let reached = self.after(event)?;
        if reached.is_terminal() {
            Some(reached)
        } else {
            None
        }
    }

    // Whether a cancel request may move a goal of this state.
    pub(crate) fn is_cancelable(self) -> bool
        ensures { result ≡ is_cancelable self }
    {
        matches!(self, State::Accepted | State::Executing)
    }

    /// Its status in `action_msgs/msg/GoalStatus`.
    pub fn status(self) -> GoalStatus
        ensures { result ≡ status_of self }
    {
        match self {
            State::Accepted => GoalStatus::Accepted,
            State::Executing => GoalStatus::Executing,
            State::Canceling => GoalStatus::Canceling,
            State::Succeeded => GoalStatus::Succeeded,
            State::Canceled => GoalStatus::Canceled,
            State::Aborted => GoalStatus::Aborted,
        }
    }

    /// Whether the goal is accepted and not executed yet.
    pub fn is_accepted(self) -> bool
        ensures { result ≡ is_accepted self }
    {
        matches!(self, State::Accepted)
    }

    /// Whether the goal is to be canceled.
    pub fn is_canceling(self) -> bool
        ensures { result ≡ is_canceling self }
    {
        matches!(self, State::Canceling)
    }

    /// Whether the server works on the goal: it is EXECUTING or CANCELING.
    pub fn is_worked_on(self) -> bool
        ensures { result ≡ is_worked_on self }
    {
        matches!(self, State::Executing | State::Canceling)
    }

    /// Whether the goal has ended.
    pub fn is_terminal(self) -> bool
        ensures { result ≡ is_terminal self }
    {
        matches!(self, State::Succeeded | State::Canceled | State::Aborted)
    }
}

fn after_accepted(event: Event) -> Option<State>
    ensures { result ≡ after State.Accepted event }
{
    match event {
        Event::Execute => Some(State::Executing),
        Event::CancelGoal => Some(State::Canceling),
        Event::Succeed | Event::Abort | Event::Canceled => None,
    }
}

fn after_executing(event: Event) -> Option<State>
    ensures { result ≡ after State.Executing event }
{
    match event {
        Event::CancelGoal => Some(State::Canceling),
        Event::Succeed => Some(State::Succeeded),
        Event::Abort => Some(State::Aborted),
        Event::Execute | Event::Canceled => None,
    }
}

fn after_canceling(event: Event) -> Option<State>
    ensures { result ≡ after State.Canceling event }
{
    match event {
        Event::Succeed => Some(State::Succeeded),
        Event::Abort => Some(State::Aborted),
        Event::Canceled => Some(State::Canceled),
        Event::Execute | Event::CancelGoal => None,
    }
}
