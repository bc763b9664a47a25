//! The order in which a seat lists its slots.
ghost use Rattle.std.specs.Prelude.{◌≡◌};
ghost use Rattle.exec_board.specs.inner.Order.{brought, place_of};

use atomic_table::Seat;

// A slot comes to the front of a seat's list, and the others keep their order. No code runs, because the list exists in proofs
// alone.
pub(crate) fn bring<S, V>(seat: &mut Seat<S, V>, slot: usize)
    ensures { (seat.new.table_id ≡ seat.old.table_id) × (seat.new.id ≡ seat.old.id)
        × (seat.new.me ≡ (seat.old.me.0, brought (place_of slot seat.old.me.1) seat.old.me.1)) }
{}
