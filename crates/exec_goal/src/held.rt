use crate::info::GoalInfo;
use crate::state::State;
use crate::tally::has_passed;
use exec_msg::{Acceptance, Elements, EntityNo, GoalId, Moment};
use std::alloc::Global;

// A goal that a server holds, without its identifier. The table finds it by that.
#[derive(Debug, Drop)]
pub(crate) struct GoalEntry {
    pub(crate) value: i64,
    pub(crate) stamp: Moment,
    pub(crate) state: State,
    // 0 until the goal ends with a value.
    pub(crate) result: i64,
    // The stamp until the goal ends.
    pub(crate) ended: Moment,
    // The action clients that asked for its result, in the order of asking.
    pub(crate) askers: Elements<EntityNo>,
}

impl GoalEntry {
    ghost use Rattle.std.specs.Prelude.{◌≡◌, ℕ, Some};
    ghost use Rattle.exec_goal.specs.Cancel.{after_answer_by};
    ghost use Rattle.exec_goal.specs.inner.Held.{record_of};
    ghost use Rattle.exec_goal.specs.Info.{info_of};
    ghost use Rattle.exec_goal.specs.Table.{accepted_state, new_goal, is_expired};

    // A goal that is accepted at a moment. It takes no memory.
    pub(crate) fn new(alloc: Global, value: i64, moment: Moment, how: Acceptance) -> GoalEntry
        ensures stands_for { (id : ℕ) → record_of (id, result) ≡ new_goal id value moment how }
        ensures state { result.state ≡ accepted_state how }
    {
        let state = match how {
            Acceptance::Execute => State::Executing,
            Acceptance::Defer => State::Accepted,
        };
        GoalEntry {
            value,
            stamp: moment,
            state,
            result: 0,
            ended: moment,
            askers: Elements::new(alloc),
        }
    }

    // What is known of the goal, with its identifier.
    pub(crate) fn info(&self, id: GoalId) -> GoalInfo
        ensures { result ≡ info_of (record_of (id, self.now)) }
    {
        GoalInfo {
            id,
            value: self.value,
            stamp: self.stamp,
            state: self.state,
        }
    }

    // Cancels the goal, if that is accepted and still possible.
    pub(crate) fn cancel_where(&mut self, accepted: bool)
        ensures { (id : ℕ) → record_of (id, self.new) ≡ after_answer_by (λ _. accepted) (record_of (id, self.old)) }
    {
        if accepted && self.state.is_cancelable() {
            self.state = State::Canceling;
        }
    }

    // Whether a server that keeps results for `timeout` ticks forgets the goal at a moment.
    pub(crate) fn is_expired(&self, moment: Moment, timeout: u64) -> bool
        ensures { (id : ℕ) → result ≡ is_expired moment (Some timeout) (record_of (id, self.now)) }
    {
        self.state.is_terminal() && has_passed(self.ended, timeout, moment)
    }
}
