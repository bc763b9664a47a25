mod asking;
mod canceling;
mod expiring;
mod moving;
mod waiting;

use crate::held::GoalEntry;
use crate::info::GoalInfo;
use crate::refusals::Reject;
use crate::state::State;
use crate::tally::Tally;
use exec_msg::limits::GOALS;
use exec_msg::{Acceptance, GoalId, Moment};
use indexmap::IndexMap;
use std::alloc::Global;
use std::marker::Model;

/// The goals that a server holds, in the order in which it accepted them. No two have the same identifier.
#[derive(Debug, Drop)]
pub struct Goals {
    alloc: Global,
    held: IndexMap<GoalId, GoalEntry>,
    tally: Tally,
}

impl Model for Goals {
    ghost use Rattle.std.specs.Prelude.{List};
    ghost use Rattle.exec_goal.specs.inner.Held.{records_of};
    ghost use Rattle.exec_goal.specs.Table.{GoalRecord};
    ghost use Rattle.exec_goal.specs.inner.Tally.{IsTallied};

    ghost Value = { List GoalRecord };

    ghost view = { λ goals. records_of goals.held.entries };

    ghost invariant = { λ goals. IsTallied goals.tally (records_of goals.held.entries) };
}

/// The answer to a goal that is accepted.
#[derive(Clone, Copy, Debug, PartialEq, Eq)]
pub struct Accepted {
    /// `State::Executing` if the goal is executed at once, and else `State::Accepted`.
    pub state: State,
}

impl Goals {
    ghost use Rattle.std.specs.Prelude.{◌≡◌, ◌↔◌, ◌<◌, [], true, false, Some, length, map, slice_get, OnOk, OnErr, IfOk};
    ghost use Rattle.exec_goal.specs.Calls.{state_in};
    ghost use Rattle.exec_goal.specs.Info.{info_of};
    ghost use Rattle.exec_goal.specs.Table.{holds_id, HaveDistinctIds, is_full, working, accepted_state, with_accepted};
    ghost use Rattle.exec_goal.specs.declared.refusals.Reject.TheVariants as reject;

    /// No goals. It takes no memory.
    pub fn new(alloc: Global) -> Goals
        ensures { result ≡ [] }
    {
        Goals {
            alloc,
            held: IndexMap::new(alloc),
            tally: Tally::new(alloc),
        }
    }

    /// Whether a goal of this identifier is held, in any state.
    pub fn holds(&self, id: GoalId) -> bool
        ensures { result ≡ holds_id id self.now }
    {
        self.held.contains_key(&id)
    }

    /// How many goals are held, in any state.
    pub fn len(&self) -> usize
        ensures count { result ≡ length self.now }
        ensures distinct { HaveDistinctIds self.now }
    {
        self.held.len()
    }

    /// Whether no room is left, because [`GOALS`] goals are held, in any state.
    pub fn is_full(&self) -> bool
        ensures { result ≡ is_full self.now }
    {
        self.len() >= GOALS
    }

    /// How many of the goals the server works on: those that are EXECUTING or CANCELING. It looks at no goal.
    pub fn count_working(&self) -> usize
        ensures { result ≡ working self.now }
    {
        self.tally.working
    }

    /// The state of a goal, or `None` if it isn't held.
    pub fn state(&self, id: GoalId) -> Option<State>
        ensures { result ≡ state_in id self.now }
    {
        let held = self.held.get(&id)?;
        Some(held.state)
    }

    /// What is known of all goals, in the order of acceptance.
    pub fn infos(&self) -> &[GoalInfo]
        ensures { result.now ≡ map info_of self.now }
    {
        self.tally.infos.as_slice()
    }

    /// The goal at this place, from 0, in the order of acceptance.
    pub fn at(&self, index: usize) -> GoalInfo
        requires { index < length self.now }
        ensures { slice_get (map info_of self.now) index ≡ Some result }
    {
        self.infos()[index]
    }

    /// Accepts a goal of a value at a moment.
    ///
    /// # Errors
    /// [`Reject::Held`] if a goal of its identifier is held, else [`Reject::Full`] if no room is left, else [`Reject::Memory`]
    /// if a growth was refused. No goal changes.
    pub fn accept(
        &mut self,
        id: GoalId,
        value: i64,
        moment: Moment,
        how: Acceptance,
    ) -> Result<Accepted, Reject>
        ensures state { IfOk result (λ accepted. accepted.state ≡ accepted_state how) }
        ensures accepted { OnOk result (self.new ≡ with_accepted id value moment how self.old) }
        ensures held { (result ≡ Err reject.Held) ↔ (holds_id id self.old ≡ true) }
        ensures full { (result ≡ Err reject.Full) ↔ ((holds_id id self.old ≡ false) × (is_full self.old ≡ true)) }
        ensures unchanged { OnErr result (self.new ≡ self.old) }
    {
        if self.holds(id) {
            return Err(Reject::Held);
        }
        if self.is_full() {
            return Err(Reject::Full);
        }
        let goal = GoalEntry::new(self.alloc, value, moment, how);
        let state = goal.state;
        let info = goal.info(id);
        let place = self.len();
        self.tally.infos.reserve(1)?;
        self.held.insert(id, goal)?;
        self.tally.infos.push_reserved(info);
        self.tally.count_move(place, State::Accepted, state, moment);
        Ok(Accepted { state })
    }
}
