//! The board itself.
ghost use Rattle.std.specs.Prelude.{◌≡◌, ◌+◌, ◌<◌, ◌≤◌, [], length, map, Some, IfErr, IfOk, IsOk, vec_capacity};
ghost use Rattle.std.specs.Slots.{IsFull, slots_items, slots_len};
ghost use Rattle.exec_lane.specs.Lane.{AreFinished};
ghost use Rattle.exec_board.specs.Board.{AreClosed, IsClaimOf, IsSized, MayRelease, busy_word};
ghost use Rattle.exec_board.specs.inner.Homes.{AreBoxes, AreWithin, word_at};
ghost use Rattle.exec_board.specs.Rule.{held};
ghost use Rattle.exec_board.specs.Seats.{IsLast, back_half, front_half, holding, opener, refused, released_lane, together};
ghost use Rattle.exec_board.specs.Sweeps.{AllSeen};
ghost use Rattle.exec_board.specs.declared.rule.TheConstants.{FINISHED, HELD};

use crate::bring::bring;
use crate::claim::{Busy, Claim};
use crate::pass::Pass;
use crate::rule::{
    BoardJoin, BoardSplit, BoardView, Claims, FINISHED, GoHome, HELD, OPEN, Opening, Try,
};
use atomic_table::{Closed, Table};
use exec_lane::LaneBox;
use exec_msg::Memory;
use std::alloc::Global;
use std::marker::Model;
use std::snapshot::Snapshot;

type LaneTable = Table<Option<LaneBox>, BoardView, Opening, Claims, Global>;

/// Lanes that callers in any threads claim and run, one caller a lane at a time. Each caller has a pass of its own.
#[derive(Drop)]
pub struct Board {
    table: LaneTable,
}

impl Model for Board {
    ghost use Rattle.std.specs.Prelude.{◌≡◌, ◌<◌};
    ghost use Rattle.atomic_table.specs.Seated.{TableId};

    ghost Value = { TableId };

    ghost view = { λ board. board.table.shared.table_id };

    ghost invariant = { λ board. (board.table.shared.table_id.slots ≡ board.table.shared.table_id.words) × (0 < board.table.shared.table_id.words) };
}

impl Board {
    /// Opens a board with these lanes, at least one, and gives its first pass. There may be at most `passes` passes at once, 1
    /// or more.
    ///
    /// # Errors
    /// [`Memory`] if a growth was refused. The boxes are dropped.
    pub fn open(alloc: Global, boxes: Vec<LaneBox>, passes: usize) -> Result<(Board, Pass), Memory>
        requires lanes { 0 < length boxes.items }
        requires passes { 0 < passes }
        ensures board { IfOk result (λ opened. (opened.0.words ≡ length boxes.items) × (opened.1.board ≡ opened.0)) }
        ensures pass { IfOk result (λ opened. opened.1.view ≡ opener boxes.items passes) }
    {
        let opening = Opening {
            boxes: Snapshot::of(&boxes),
            passes,
        };
        let words = home_words(alloc, boxes.as_slice())?;
        let slots = home_slots(alloc, boxes)?;
        let Ok((table, seat)) = LaneTable::new(alloc, words.as_slice(), slots, &opening) else {
            return Err(Memory);
        };
        Ok((
            Board { table },
            Pass {
                seat,
                start: 0,
                stop: passes,
            },
        ))
    }

    /// How many lanes it has.
    pub fn lanes(&self) -> usize
        ensures value { result ≡ self.now.words }
        ensures some { 0 < self.now.words }
    {
        self.table.word_count()
    }

    /// Claims a lane, by one atomic exchange.
    ///
    /// # Errors
    /// [`Busy`] says what the lane is if it isn't open.
    pub fn claim(&self, pass: &mut Pass, lane: usize) -> Result<Claim, Busy>
        requires board { pass.old.board ≡ self.now }
        requires lane { lane < self.now.words }
        ensures board { pass.new.board ≡ pass.old.board }
        ensures claim { IfOk result (λ claim. (claim.board ≡ self.now) × IsClaimOf pass.old.view lane claim) }
        ensures held { IfOk result (λ claim. pass.new.view ≡ holding lane claim.start pass.old.view) }
        ensures refused { IfErr result (λ busy. pass.new.view ≡ refused lane (busy_word busy) pass.old.view) }
        ensures free { IfOk result (λ _. held lane pass.old.view ≡ 0) }
        ensures last { IfErr result (λ busy. busy_word busy ≡ HELD → IsLast pass.old.view → held lane pass.old.view ≡ 1) }
        ensures finished { IfErr result (λ busy. busy_word busy ≡ FINISHED → held lane pass.old.view ≡ 0) }
        ensures sized { IsSized self.now pass.old.view }
    {
        let word = self
            .table
            .shared
            .compare_exchange::<Try>(&mut pass.seat, lane, OPEN, HELD);
        if word == HELD {
            return Err(Busy::Held);
        }
        if word != OPEN {
            return Err(Busy::Finished);
        }
        let Some(work) = self.table.shared.exchange(&mut pass.seat, lane, None) else {
            unreachable!()
        };
        let start = work.done();
        Ok(Claim {
            work,
            lane,
            start: Snapshot::of(&start),
            seat: Snapshot::of(&pass.seat),
        })
    }

    /// Releases a lane that this pass has claimed. The lane is finished if all its callbacks ran, and open otherwise.
    pub fn release(&self, pass: &mut Pass, claim: Claim)
        requires board { (pass.old.board ≡ self.now) × (claim.board ≡ self.now) }
        requires claim { MayRelease pass.old.view claim }
        ensures board { pass.new.board ≡ pass.old.board }
        ensures released { pass.new.view ≡ released_lane claim.lane claim.work.done pass.old.view }
    {
        let Claim {
            work,
            lane,
            start: _,
            seat: _,
        } = claim;
        let word = home_word(&work);
        bring(&mut pass.seat, lane);
        self.table.shared.exchange(&mut pass.seat, lane, Some(work));
        self.table
            .shared
            .store::<GoHome>(&mut pass.seat, lane, word);
    }

    /// Splits a pass, so that two callers may go on at once. The first pass has the front half of its share, rounded down, and
    /// keeps what it released and was refused. The second has the other half. Both have seen what the pass had seen.
    pub fn split(&self, pass: Pass) -> (Pass, Pass)
        requires board { pass.board ≡ self.now }
        requires holds_none { pass.view.holds ≡ [] }
        requires share { pass.view.start + 2 ≤ pass.view.stop }
        ensures board { (result.0.board ≡ self.now) × (result.1.board ≡ self.now) }
        ensures front { result.0.view ≡ front_half pass.view }
        ensures back { result.1.view ≡ back_half pass.view }
    {
        let Pass {
            mut seat,
            start,
            stop,
        } = pass;
        let middle = start + (stop - start) / 2;
        let other = self.table.shared.split_seat::<BoardSplit>(&mut seat);
        (
            Pass {
                seat,
                start,
                stop: middle,
            },
            Pass {
                seat: other,
                start: middle,
                stop,
            },
        )
    }

    /// Joins two passes. The share of the second begins at the end of the first one's share. The pass lists what the first
    /// released and was refused, and then what the second did.
    pub fn join(&self, front: Pass, back: Pass) -> Pass
        requires board { (front.board ≡ self.now) × (back.board ≡ self.now) }
        requires holds_none { (front.view.holds ≡ []) × (back.view.holds ≡ []) }
        requires neighbours { back.view.start ≡ front.view.stop }
        ensures board { result.board ≡ self.now }
        ensures joined { result.view ≡ together front.view back.view }
    {
        let Pass {
            mut seat,
            start,
            stop: _,
        } = front;
        let Pass {
            seat: other,
            start: _,
            stop,
        } = back;
        self.table.shared.join_seat::<BoardJoin>(&mut seat, other);
        Pass { seat, start, stop }
    }

    /// Takes the board apart, with its last pass. Gives the lanes' boxes in the order in which they were opened.
    ///
    /// # Errors
    /// [`Memory`] if a growth was refused. The boxes are dropped.
    pub fn close(self, alloc: Global, pass: Pass) -> Result<Vec<LaneBox>, Memory>
        requires board { pass.board ≡ self }
        requires last { IsLast pass.view }
        requires holds_none { pass.view.holds ≡ [] }
        ensures closed { IfOk result (λ boxes. AreClosed pass.view boxes.items) }
        ensures finished { AllSeen pass.view → IfOk result (λ boxes. AreFinished pass.view.opening boxes.items) }
    {
        let boxes = Vec::with_capacity(alloc, self.table.word_count())?;
        let Board { table } = self;
        let Pass {
            seat,
            start: _,
            stop: _,
        } = pass;
        Ok(take_boxes(table.close_with(seat), boxes))
    }
}

// A lane's word while it is at home.
fn home_word(lane: &LaneBox) -> u64
    ensures value { result ≡ word_at lane.now }
    ensures within { lane.now.done ≤ length lane.now.entries }
{
    if lane.is_finished() { FINISHED } else { OPEN }
}

fn home_words(alloc: Global, boxes: &[LaneBox]) -> Result<Vec<u64>, Memory>
    ensures words { IfOk result (λ words. words.items ≡ map word_at boxes.now) }
    ensures within { IsOk result → AreWithin boxes.now }
{
    let mut words = Vec::with_capacity(alloc, boxes.len())?;
    for lane in boxes {
        words.push(home_word(lane))?;
    }
    Ok(words)
}

fn home_slots(alloc: Global, boxes: Vec<LaneBox>) -> Result<Vec<Option<LaneBox>>, Memory>
    ensures { IfOk result (λ slots. slots.items ≡ map (λ lane. Some lane) boxes.items) }
{
    let slots = boxes.into_iter().map(|lane| Some(lane)).collect(alloc)?;
    Ok(slots)
}

// The boxes in the slots of a closed table, in their order, put into room that was made for them.
fn take_boxes(mut closed: Closed<Option<LaneBox>, Global>, mut boxes: Vec<LaneBox>) -> Vec<LaneBox>
    requires slots { IsFull closed.slots × AreBoxes (slots_items closed.slots) }
    requires room { (boxes.items ≡ []) × (slots_len closed.slots ≤ vec_capacity boxes) }
    ensures { map (λ lane. Some lane) result.items ≡ slots_items closed.slots }
{
    let mut lane = 0;
    while lane < closed.slot_count() {
        let Some(work) = closed.take(lane) else {
            unreachable!()
        };
        boxes.push_reserved(work);
        lane += 1;
    }
    closed.free();
    boxes
}
