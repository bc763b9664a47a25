//! How the goals of a table move from state to state.
use super::Goals;
use crate::refusals::Illegal;
use crate::state::State;
use exec_msg::{Event, GoalId, Moment};

impl Goals {
    ghost use Rattle.std.specs.Prelude.{◌≡◌, None, Some, IfOk, OnOk, OnErr};
    ghost use Rattle.exec_goal.specs.Calls.{next_state, end_state};
    ghost use Rattle.exec_goal.specs.Table.{has_id, after_event, after_end};
    ghost use Rattle.exec_msg.specs.Lists.{change_first};

    /// Moves a goal by an event, and answers its state then. The event changes neither the goal's result nor the moment of its
    /// end. [`Goals::end`] sets both.
    ///
    /// # Errors
    /// [`Illegal`] if no such goal is held, or its state has no such transition. No goal changes.
    pub fn apply(&mut self, id: GoalId, event: Event) -> Result<State, Illegal>
        ensures state { IfOk result (λ state. next_state id event self.old ≡ Some state) }
        ensures moved { OnOk result (self.new ≡ change_first (has_id id) (after_event event) self.old) }
        ensures illegal { OnErr result (next_state id event self.old ≡ None) }
        ensures unchanged { OnErr result (self.new ≡ self.old) }
    {
        let Some(place) = self.held.get_index_of(&id) else {
            return Err(Illegal);
        };
        let (_id, goal) = self.held.pair_mut(place);
        let Some(next) = goal.state.after(event) else {
            return Err(Illegal);
        };
        let before = goal.state;
        goal.state = next;
        self.tally.count_move(place, before, next, goal.ended);
        Ok(next)
    }

    /// Ends a goal by an event at a moment with its result, and answers its terminal state.
    ///
    /// # Errors
    /// [`Illegal`] if no such goal is held, or the event leads its state to no terminal one. No goal changes.
    pub fn end(
        &mut self,
        id: GoalId,
        event: Event,
        value: i64,
        moment: Moment,
    ) -> Result<State, Illegal>
        ensures state { IfOk result (λ state. end_state id event self.old ≡ Some state) }
        ensures ended { OnOk result (self.new ≡ change_first (has_id id) (after_end event value moment) self.old) }
        ensures illegal { OnErr result (end_state id event self.old ≡ None) }
        ensures unchanged { OnErr result (self.new ≡ self.old) }
    {
        let Some(place) = self.held.get_index_of(&id) else {
            return Err(Illegal);
        };
        let (_id, goal) = self.held.pair_mut(place);
        let Some(next) = goal.state.end(event) else {
            return Err(Illegal);
        };
        let before = goal.state;
        goal.state = next;
        goal.result = value;
        goal.ended = moment;
        self.tally.count_move(place, before, next, moment);
        Ok(next)
    }
}
