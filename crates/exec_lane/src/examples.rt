//! Worked examples of lanes: each function's contract says one.
ghost use Rattle.std.specs.Prelude.{◌≡◌, [], ◌∷◌};
ghost use Rattle.exec_lane.specs.Examples.{first_ready, first_entries, lane_done};
ghost use Rattle.exec_lane.specs.Lane.{lanes_of, lane_at};
ghost use Rattle.exec_script.specs.Zeros.{zeros};

/// Two timers of one callback group are one lane.
pub fn one_lane_of_two()
    ensures { lanes_of first_ready ≡ first_ready ∷ [] }
{}

/// The second callback of a lane goes on with the variables that the first one left.
pub fn a_lane_from_scratch()
    ensures { lane_at zeros first_entries 2 ≡ lane_done }
{}
