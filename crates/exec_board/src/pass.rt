//! A caller's seat at a board.
ghost use Rattle.std.specs.Prelude.{◌≡◌, ◌-◌};
ghost use Rattle.exec_board.specs.Board.{PassView};

use crate::rule::LaneSeat;
use std::marker::Model;

/// A caller's seat at a board, with what that caller has seen and released. Its bytes are its share of the numbers of passes.
#[derive(Drop)]
pub struct Pass {
    pub(crate) seat: LaneSeat,
    pub(crate) start: usize,
    pub(crate) stop: usize,
}

impl Model for Pass {
    ghost use Rattle.exec_board.specs.Board.{IsSeated, PassView};

    ghost Value = { PassView };

    ghost view = { λ pass. record { board = pass.seat.table_id; view = pass.seat.me.0 } };

    ghost invariant = { λ pass. IsSeated pass.seat.table_id pass.seat.me.0 pass.seat.me.1 pass.start pass.stop };
}

impl Pass {
    /// The first number of its share of the numbers of passes, and how many numbers it has. The first pass has all, from 0.
    pub fn share(&self) -> (usize, usize)
        ensures start { result.0 ≡ self.now.view.start }
        ensures length { result.1 ≡ self.now.view.stop - self.now.view.start }
    {
        (self.start, self.stop - self.start)
    }
}
