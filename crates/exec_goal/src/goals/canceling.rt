//! Cancel requests to a table of goals.
use super::Goals;
use crate::cancel::{AcceptedIds, CancelAnswer, CancelRequest, is_refused};
use crate::info::GoalInfo;
use exec_msg::{CancelDecision, Elements, GoalId, Memory, ReturnCode};

impl Goals {
    ghost use Rattle.std.specs.Prelude.{◌≡◌, ◌<◌, length, map, slice_index_or, slice_set, OnOk, OnErr, IfOk};
    ghost use Rattle.std.specs.List.{filter, find};
    ghost use Rattle.exec_goal.specs.inner.Ids.{is_among};
    ghost use Rattle.exec_goal.specs.Cancel.{candidates, moved, table_after, code_by, code_unmoved, code_of, moves_by, after_answer_by};
    ghost use Rattle.exec_goal.specs.Info.{info_of};
    ghost use Rattle.exec_goal.specs.Table.{GoalRecord, has_id};

    /// The goals that a cancel request selects and that may be moved, because they are ACCEPTED or EXECUTING. They are in the
    /// order of their acceptance.
    ///
    /// # Errors
    /// [`Memory`] if a growth was refused.
    pub fn candidates(&self, request: &CancelRequest) -> Result<Elements<GoalInfo>, Memory>
        ensures { IfOk result (λ infos. infos ≡ map info_of (candidates request.now self.now)) }
    {
        let mut infos = Elements::new(self.alloc);
        for index in 0..self.len() {
            let info = self.at(index);
            if request.is_candidate(&info) {
                infos.push(info)?;
            }
        }
        Ok(infos)
    }

    /// Answers a cancel request by what its handler decided of the candidates, each by its identifier. An accepted candidate
    /// that is still ACCEPTED or EXECUTING becomes CANCELING.
    ///
    /// # Errors
    /// [`Memory`] if a growth was refused. No goal changes.
    pub fn answer(
        &mut self,
        request: &CancelRequest,
        decisions: &[(GoalId, CancelDecision)],
    ) -> Result<CancelAnswer, Memory>
        ensures code { IfOk result (λ answer. answer.code ≡ code_of request.now decisions.now self.old) }
        ensures moved { IfOk result (λ answer. answer.moved ≡ map (λ goal. goal.id) (moved decisions.now self.old)) }
        ensures table { OnOk result (self.new ≡ table_after decisions.now self.old) }
        ensures unchanged { OnErr result (self.new ≡ self.old) }
    {
        let accepted = AcceptedIds::of(self.alloc, decisions)?;
        let moved = self.moving_ids(&accepted)?;
        if moved.is_empty() {
            let code = self.code_unmoved(request, decisions);
            return Ok(CancelAnswer { code, moved });
        }
        self.cancel(&accepted);
        Ok(CancelAnswer {
            code: ReturnCode::None,
            moved,
        })
    }

    fn moving_ids(&self, accepted: &AcceptedIds) -> Result<Elements<GoalId>, Memory>
        ensures { IfOk result (λ ids. ids ≡ map (λ goal. goal.id) (filter (moves_by (is_among accepted.now)) self.now)) }
    {
        let mut ids = Elements::new(self.alloc);
        for index in 0..self.len() {
            let info = self.at(index);
            if accepted.moves(&info) {
                ids.push(info.id)?;
            }
        }
        Ok(ids)
    }

    fn code_unmoved(
        &self,
        request: &CancelRequest,
        decisions: &[(GoalId, CancelDecision)],
    ) -> ReturnCode
        ensures { result ≡ code_unmoved request.now decisions.now self.now }
    {
        if is_refused(decisions) {
            ReturnCode::Rejected
        } else {
            self.code_by(request.id)
        }
    }

    fn code_by(&self, id: GoalId) -> ReturnCode
        ensures { result ≡ code_by id (find (has_id id) self.now) }
    {
        if id.number() == 0 {
            return ReturnCode::Rejected;
        }
        match self.state(id) {
            None => ReturnCode::UnknownGoalId,
            Some(state) => {
                if state.is_terminal() {
                    ReturnCode::GoalTerminated
                } else {
                    ReturnCode::Rejected
                }
            }
        }
    }

    fn cancel(&mut self, accepted: &AcceptedIds)
        ensures { self.new ≡ map (after_answer_by (is_among accepted.now)) self.old }
    {
        for index in 0..self.len() {
            self.cancel_at(index, accepted);
        }
    }

    fn cancel_at(&mut self, index: usize, accepted: &AcceptedIds)
        requires { index < length self.old }
        ensures { (d : GoalRecord) → self.new ≡ slice_set self.old index (after_answer_by (is_among accepted.now) (slice_index_or self.old index d)) }
    {
        let (id, goal) = self.held.pair_mut(index);
        let is_accepted = accepted.has(*id);
        let before = goal.state;
        goal.cancel_where(is_accepted);
        self.tally.count_move(index, before, goal.state, goal.ended);
    }
}
