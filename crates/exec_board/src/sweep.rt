//! The loop of a worker at a board.
ghost use Rattle.std.specs.Prelude.{◌≡◌, ◌<◌, [], length, IfOk, IsOk, OnErr};
ghost use Rattle.exec_board.specs.Board.{IsSized};
ghost use Rattle.exec_board.specs.Sweeps.{EndsSweep, IsSwept, LeavesSome};
ghost use Rattle.exec_board.specs.inner.Visits.{HasRunSome, Turning, Visited};

use crate::board::Board;
use crate::pass::Pass;
use exec_lane::{Gate, LaneBox};
use exec_msg::Memory;

impl Board {
    /// Goes over the lanes, from the first on, again and again. It claims each lane that is open, runs at most `quantum`
    /// callbacks of it, and releases it. It ends after it visited each lane without a claim, because each was held or finished
    /// when it was tried.
    ///
    /// # Errors
    /// [`Memory`] if a callback was refused a growth, now or before. Its lane is released with callbacks left.
    pub fn sweep<G: Gate>(&self, pass: &mut Pass, quantum: usize, gate: &G) -> Result<(), Memory>
        requires board { pass.old.board ≡ self.now }
        requires holds_none { pass.old.view.holds ≡ [] }
        requires quantum { 0 < quantum }
        ensures board { pass.new.board ≡ pass.old.board }
        ensures swept { IsSwept quantum pass.old.view pass.new.view }
        ensures ends { IsOk result → EndsSweep self.now.words pass.old.view pass.new.view }
        ensures memory { OnErr result (LeavesSome pass.new.view) }
    {
        while self.visit_all(pass, quantum, gate)? {}
        Ok(())
    }

    // Visits each lane once, and answers whether one was claimed.
    fn visit_all<G: Gate>(&self, pass: &mut Pass, quantum: usize, gate: &G) -> Result<bool, Memory>
        requires board { pass.old.board ≡ self.now }
        requires holds_none { pass.old.view.holds ≡ [] }
        requires quantum { 0 < quantum }
        ensures board { pass.new.board ≡ pass.old.board }
        ensures turned { IfOk result (λ claimed. Turning self.now.words quantum claimed pass.old.view pass.new.view) }
        ensures swept { OnErr result (IsSwept quantum pass.old.view pass.new.view) }
        ensures memory { OnErr result (LeavesSome pass.new.view) }
        ensures sized { IsSized self.now pass.old.view }
    {
        let mut claimed = false;
        let mut lane = 0;
        while lane < self.lanes() {
            claimed |= self.visit(pass, lane, quantum, gate)?;
            lane += 1;
        }
        Ok(claimed)
    }

    // Claims a lane, if it is open, runs callbacks of it and releases it. Answers whether it was claimed.
    fn visit<G: Gate>(
        &self,
        pass: &mut Pass,
        lane: usize,
        quantum: usize,
        gate: &G,
    ) -> Result<bool, Memory>
        requires board { pass.old.board ≡ self.now }
        requires lane { lane < self.now.words }
        requires quantum { 0 < quantum }
        ensures board { pass.new.board ≡ pass.old.board }
        ensures visited { Visited lane quantum pass.old.view pass.new.view result }
        ensures sized { IsSized self.now pass.old.view }
    {
        let Ok(mut claim) = self.claim(pass, lane) else {
            return Ok(false);
        };
        let ended = run_some(claim.work(), quantum, gate);
        self.release(pass, claim);
        ended?;
        Ok(true)
    }
}

// Runs the next callbacks of a lane, at most `quantum` of them.
fn run_some<G: Gate>(lane: &mut LaneBox, quantum: usize, gate: &G) -> Result<(), Memory>
    requires unfinished { lane.old.done < length lane.old.entries }
    requires quantum { 0 < quantum }
    ensures { HasRunSome quantum lane.old lane.new result }
{
    let mut left = quantum;
    while left > 0 && !lane.is_finished() {
        lane.run_next(gate)?;
        left -= 1;
    }
    Ok(())
}
