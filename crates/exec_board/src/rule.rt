//! The rule of a board's table, and its steps.
use atomic_table::{Join, Play, Seat, Split, TableRule};
use exec_lane::LaneBox;
use std::marker::Model;
use std::snapshot::Snapshot;

/// What the caller with a pass knows. No value of it is made.
pub struct BoardView;

impl Model for BoardView {
    ghost use Rattle.exec_board.specs.Seats.{SeatView, nobody};

    ghost Value = { SeatView };

    ghost view = { λ _. nobody };
}

/// What a board is opened with.
#[derive(Drop)]
pub struct Opening {
    pub boxes: Snapshot<Vec<LaneBox>>,
    pub passes: usize,
}

/// The word of a lane that is open: a caller may claim it.
pub const OPEN: u64 = 0;

/// The word of a lane that a pass holds.
pub const HELD: u64 = 1;

/// The word of a lane that is finished: all its callbacks ran.
pub const FINISHED: u64 = 2;

/// The rule: the word of a lane says whether it is open, held or finished. The lane's box is in its slot unless it is held.
pub struct Claims;

impl TableRule<Option<LaneBox>, BoardView, Opening> for Claims {
    ghost use Rattle.exec_board.specs.Rule.{BoardRule};
    ghost use Rattle.exec_board.specs.Seats.{opener};

    ghost holds = { λ _. BoardRule };

    ghost first = { λ key. opener key.boxes.value.items key.passes };
}

/// A claim.
pub struct Try;

impl Play<Option<LaneBox>, BoardView> for Try {
    ghost use Rattle.exec_board.specs.Plays.{claimed};

    ghost then = { claimed };
}

/// A release.
pub struct GoHome;

impl Play<Option<LaneBox>, BoardView> for GoHome {
    ghost use Rattle.exec_board.specs.Plays.{released};

    ghost then = { released };
}

/// A pass is split.
pub struct BoardSplit;

impl Split<BoardView> for BoardSplit {
    ghost use Rattle.exec_board.specs.Seats.{back_half, front_half};

    ghost left = { front_half };

    ghost right = { back_half };
}

/// Two passes are joined.
pub struct BoardJoin;

impl Join<BoardView> for BoardJoin {
    ghost use Rattle.exec_board.specs.Seats.{nobody, together};

    ghost both = { together };

    ghost spent = { nobody };
}

pub type LaneSeat = Seat<Option<LaneBox>, BoardView>;
