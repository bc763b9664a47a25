//! Results of goals: who asked for them, and what the answer is.
use super::Goals;
use crate::asked::Asked;
use exec_msg::{EntityNo, GoalId, Memory};

impl Goals {
    ghost use Rattle.std.specs.Prelude.{◌≡◌, slice_get, IfOk, OnOk, OnErr};
    ghost use Rattle.exec_goal.specs.Calls.{askers_in, after_asking};
    ghost use Rattle.exec_goal.specs.Info.{answer_of};
    ghost use Rattle.exec_goal.specs.Table.{asked_for, later};

    /// The action client that asked for a goal's result at this place, from 0, in the order of asking. It is `None` at a place
    /// after the last one, and if no such goal is held.
    pub fn asker(&self, id: GoalId, index: usize) -> Option<EntityNo>
        ensures { result ≡ slice_get (askers_in id self.now) index }
    {
        let goal = self.held.get(&id)?;
        goal.askers.get(index).copied()
    }

    /// What an action client is answered that asks for a goal's result. If the result comes later, the client is noted after
    /// those that asked before.
    ///
    /// # Errors
    /// [`Memory`] if a growth was refused. Only a result that comes later needs memory. No goal changes.
    pub fn ask_result(&mut self, id: GoalId, asker: EntityNo) -> Result<Asked, Memory>
        ensures told { IfOk result (λ told. told ≡ answer_of (asked_for id self.old)) }
        ensures noted { OnOk result (self.new ≡ after_asking id asker self.old) }
        ensures memory { OnErr result (asked_for id self.old ≡ later) }
        ensures unchanged { OnErr result (self.new ≡ self.old) }
    {
        let Some(goal) = self.held.get_mut(&id) else {
            return Ok(Asked::Unknown);
        };
        if goal.state.is_terminal() {
            return Ok(Asked::Now(goal.state.status(), goal.result));
        }
        goal.askers.push(asker)?;
        Ok(Asked::Later)
    }
}
