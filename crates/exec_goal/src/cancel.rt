ghost use Rattle.std.specs.Prelude.{◌≡◌, ℕ, IfOk};
ghost use Rattle.std.specs.List.{list_any};
ghost use Rattle.exec_goal.specs.inner.Ids.{is_among};
ghost use Rattle.exec_goal.specs.Cancel.{selects, is_candidate, is_acceptance, is_accepted_for, is_refused, moves_by};
ghost use Rattle.exec_goal.specs.Info.{info_of};
ghost use Rattle.exec_goal.specs.Table.{GoalRecord};

use crate::info::GoalInfo;
use exec_msg::{CancelDecision, Elements, GoalId, Memory, ReturnCode};
use indexmap::IndexSet;
use std::alloc::Global;
use std::marker::Model;

/// A request to cancel goals: `action_msgs/srv/CancelGoal`. With neither identifier nor stamp it selects all goals. With a
/// stamp it selects all goals accepted at or before it. With an identifier it selects that goal, whenever it was accepted. With
/// both it selects that goal and all goals accepted at or before the stamp.
#[derive(Clone, Copy, Debug, PartialEq, Eq)]
pub struct CancelRequest {
    /// The identifier of a goal. 0 is none.
    pub id: GoalId,
    /// A stamp in ticks. 0 is none. It has no limit.
    pub stamp: u64,
}

impl Model for CancelRequest {
    ghost use Rattle.exec_goal.specs.Cancel.{CancelRequest as Request};

    ghost Value = { Request };

    ghost view = { λ request. record { id = request.id; stamp = request.stamp } };

    ghost inverse = { λ request. record { id = request.id; stamp = request.stamp } };
}

impl CancelRequest {
    // Whether a goal is selected, and may be moved.
    pub(crate) fn is_candidate(&self, info: &GoalInfo) -> bool
        ensures { (goal : GoalRecord) → info.now ≡ info_of goal → result ≡ is_candidate self.now goal }
    {
        self.selects(info) && info.state.is_cancelable()
    }

    fn selects(&self, info: &GoalInfo) -> bool
        ensures { (goal : GoalRecord) → info.now ≡ info_of goal → result ≡ selects self.now.id self.now.stamp goal }
    {
        let is_named = info.id == self.id;
        let is_before = info.stamp.ticks() <= self.stamp;
        match (self.id.number() == 0, self.stamp == 0) {
            (true, true) => true,
            (true, false) => is_before,
            (false, true) => is_named,
            (false, false) => is_named || is_before,
        }
    }
}

/// The answer to a cancel request.
#[derive(Debug, Drop)]
pub struct CancelAnswer {
    /// The return code.
    pub code: ReturnCode,
    /// The goals that moved, in the order of their acceptance.
    pub moved: Elements<GoalId>,
}

// The identifiers that a cancel handler accepted. One is found in constant time.
#[derive(Debug, Drop)]
pub(crate) struct AcceptedIds {
    ids: IndexSet<GoalId>,
}

impl Model for AcceptedIds {
    ghost use Rattle.std.specs.Prelude.{ℕ, List};

    ghost Value = { List ℕ };

    ghost view = { λ accepted. accepted.ids.keys };
}

impl AcceptedIds {
    // Those of the decisions.
    pub(crate) fn of(
        alloc: Global,
        decisions: &[(GoalId, CancelDecision)],
    ) -> Result<AcceptedIds, Memory>
        ensures { IfOk result (λ accepted. (id : ℕ) → is_among accepted id ≡ is_accepted_for decisions.now id) }
    {
        let mut ids = IndexSet::new(alloc);
        for decided in decisions {
            if is_acceptance(decided) {
                ids.insert(decided.0)?;
            }
        }
        Ok(AcceptedIds { ids })
    }

    // Whether an accepted candidate moves. It does if it still may.
    pub(crate) fn moves(&self, info: &GoalInfo) -> bool
        ensures { (goal : GoalRecord) → info.now ≡ info_of goal → result ≡ moves_by (is_among self.now) goal }
    {
        self.has(info.id) && info.state.is_cancelable()
    }

    // Whether an identifier is accepted.
    pub(crate) fn has(&self, id: GoalId) -> bool
        ensures { result ≡ is_among self.now id }
    {
        self.ids.contains(&id)
    }
}

// Whether there are decisions, and all of them refuse.
pub(crate) fn is_refused(decisions: &[(GoalId, CancelDecision)]) -> bool
    ensures { result ≡ is_refused decisions.now }
{
    !decisions.is_empty() && !accepts_any(decisions)
}

fn accepts_any(decisions: &[(GoalId, CancelDecision)]) -> bool
    ensures { result ≡ list_any is_acceptance decisions.now }
{
    decisions.iter().any(|decided| is_acceptance(decided))
}

// Whether a candidate is accepted for cancelling.
fn is_acceptance(decided: &(GoalId, CancelDecision)) -> bool
    ensures { result ≡ is_acceptance decided.now }
{
    matches!(decided.1, CancelDecision::Accept)
}
