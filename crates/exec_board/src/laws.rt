//! What the numbers mean by which the rule of a board counts. The contract of each function says one law, and its body is
//! empty.
ghost use Rattle.std.specs.Prelude.{◌≡◌, ◌≢◌, ◌⊎◌, ℕ, ◌+◌, ◌<◌, ◌≤◌, [], ◌∷◌, ◌++◌, length, slice_set};
ghost use Rattle.exec_lane.specs.Lane.{Lane};
ghost use Rattle.exec_lane.specs.Opening.{IsLaneOf};
ghost use Rattle.exec_board.specs.Board.{ClaimView, IsClaimOf, MayRelease};
ghost use Rattle.exec_board.specs.Rule.{covered, has_number, held, in_segment, is_same, in_range};
ghost use Rattle.exec_board.specs.Seats.{IsLast, SeatView, Segment, back_half, front_half, holding, refused, released_lane, together};
ghost use Rattle.exec_board.specs.Sweeps.{FirstSeen};
ghost use Rattle.exec_board.specs.declared.rule.TheConstants.{FINISHED, HELD};

/// A number from the first up to the end, without the end, is counted once. Any other number isn't counted.
pub fn a_number_is_within_from_the_first_to_the_end()
    ensures inside { (first end x : ℕ) → first ≤ x → x < end → in_range first end x ≡ 1 }
    ensures below { (first end x : ℕ) → x < first → in_range first end x ≡ 0 }
    ensures beyond { (first end x : ℕ) → end ≤ x → in_range first end x ≡ 0 }
{}

/// Two numbers count as the same if they are equal.
pub fn numbers_are_the_same_where_they_are_equal()
    ensures equal { (a b : ℕ) → a ≡ b → is_same a b ≡ 1 }
    ensures other { (a b : ℕ) → a ≢ b → is_same a b ≡ 0 }
{}

/// A callback of a lane is of a segment of that lane if its place is in the segment. It is of no segment of another lane.
pub fn a_callback_is_of_segments_of_its_lane()
    ensures same { (lane place : ℕ) (segment : Segment) → segment.lane ≡ lane
        → in_segment lane place segment ≡ in_range segment.first segment.end place }
    ensures other { (lane place : ℕ) (segment : Segment) → segment.lane ≢ lane → in_segment lane place segment ≡ 0 }
{}

/// A split neither loses nor doubles a callback that ran, or a number of the share.
pub fn a_split_keeps_what_there_was()
    ensures ran { (lane place : ℕ) (view : SeatView)
        → covered lane place (front_half view) + covered lane place (back_half view) ≡ covered lane place view }
    ensures share { (number : ℕ) (view : SeatView) → view.start + 2 ≤ view.stop
        → has_number number (front_half view) + has_number number (back_half view) ≡ has_number number view }
{}

/// A join of neighbours neither loses nor doubles any.
pub fn a_join_keeps_what_there_was()
    ensures ran { (lane place : ℕ) (front back : SeatView)
        → covered lane place (together front back) ≡ covered lane place front + covered lane place back }
    ensures share { (number : ℕ) (front back : SeatView) → front.start < front.stop → back.start < back.stop → back.start ≡ front.stop
        → has_number number (together front back) ≡ has_number number front + has_number number back }
{}

/// A claim may be released, even if callbacks of its lane ran meanwhile. The pass then has one segment more, and holds what it
/// held before the claim.
pub fn a_claim_may_be_released()
    ensures may { (view : SeatView) (lane : ℕ) (claim : ClaimView) (work : Lane) → IsClaimOf view lane claim → IsLaneOf claim.work work
        → claim.work.done ≤ work.done →
        MayRelease (holding lane claim.start view) (record claim { work = work }) }
    ensures released { (view : SeatView) (lane first end : ℕ) → released_lane lane end (holding lane first view)
        ≡ record view { seen = slice_set view.seen lane end; segments = view.segments ++ record { lane = lane; first = first; end = end } ∷ [] } }
{}

/// The last pass is refused finished lanes alone if it holds nothing. So after it was refused one lane after another, it has
/// seen that all their callbacks ran.
pub fn the_last_pass_is_refused_finished_lanes()
    ensures { (view : SeatView) (lane word : ℕ) → lane < length view.opening → length view.seen ≡ length view.opening → view.holds ≡ []
        → IsLast view → (word ≡ HELD) ⊎ (word ≡ FINISHED) → (word ≡ HELD → held lane view ≡ 1)
        → FirstSeen lane view → FirstSeen (lane + 1) (refused lane word view) }
{}
