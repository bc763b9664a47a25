//! A lane that a caller has claimed.
ghost use Rattle.std.specs.Prelude.{◌≡◌};
ghost use Rattle.std.specs.Borrow.{sem};
ghost use Rattle.exec_board.specs.Lending.{LendsWork};

use crate::rule::LaneSeat;
use exec_lane::LaneBox;
use std::marker::Model;
use std::snapshot::Snapshot;

/// Why a lane can't be claimed.
#[derive(Clone, Copy, Debug, PartialEq, Eq)]
pub enum Busy {
    /// A pass holds it.
    Held,
    /// All its callbacks ran.
    Finished,
}

/// A lane that its caller alone may run until it gives the claim to [`Board::release`](crate::Board::release). A claim can't be
/// dropped.
pub struct Claim {
    pub(crate) work: LaneBox,
    pub(crate) lane: usize,
    // The count at which it was claimed, and the seat that claimed it. These have no bytes.
    pub(crate) start: Snapshot<usize>,
    pub(crate) seat: Snapshot<LaneSeat>,
}

impl Model for Claim {
    ghost use Rattle.std.specs.Prelude.{◌<◌};
    ghost use Rattle.exec_board.specs.Board.{ClaimView};

    ghost Value = { ClaimView };

    ghost view = { λ claim. record { board = claim.seat.value.table_id; lane = claim.lane; start = claim.start.value; work = claim.work } };

    ghost invariant = { λ claim. claim.lane < claim.seat.value.table_id.words };
}

impl Claim {
    /// The lane's box. The claim ends with what is left there.
    pub fn work(&mut self) -> &mut LaneBox
        ensures* lends { sem 𝓛 (LendsWork self.entry result) }
        ensures value { result.now ≡ self.old.work }
    {
        &mut self.work
    }
}
