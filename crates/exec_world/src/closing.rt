//! What the close of a callback says to the world.
ghost use Rattle.std.specs.Prelude.{◌≡◌};
ghost use Rattle.exec_rules.specs.Close.{decision_of_close, decisions_of_close, reply_of_close};

use exec_msg::{CancelDecision, Decision, GoalId};
use exec_script::Close;

// The reply with which a service's callback closed. If it closed otherwise, the reply is 0.
pub(crate) fn reply_of_close(closing: &Close) -> i64
    ensures { result ≡ reply_of_close closing.now }
{
    match closing {
        Close::Reply(value) => *value,
        _ => 0,
    }
}

// The decision on a goal with which a callback closed. If it closed otherwise, the goal is rejected.
pub(crate) fn decision_of_close(closing: &Close) -> Decision
    ensures { result ≡ decision_of_close closing.now }
{
    match closing {
        Close::Decide(decision) => *decision,
        _ => Decision::Reject,
    }
}

// The decisions with which the callback of a cancel request closed. If it closed otherwise, there are none.
pub(crate) fn decisions_of_close(closing: &Close) -> &[(GoalId, CancelDecision)]
    ensures { result.now ≡ decisions_of_close closing.now }
{
    match closing {
        Close::Decisions(decisions) => decisions.as_slice(),
        _ => &[],
    }
}
