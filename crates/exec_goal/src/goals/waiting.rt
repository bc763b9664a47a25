//! Goals that wait to be executed.
use super::Goals;
use exec_msg::GoalId;

impl Goals {
    ghost use Rattle.std.specs.Prelude.{◌≡◌, ◌<◌, true, length, slice_index_or};
    ghost use Rattle.std.specs.List.{find};
    ghost use Rattle.std.specs.Option.{option_map};
    ghost use Rattle.exec_goal.specs.State.{is_accepted};
    ghost use Rattle.exec_goal.specs.Table.{GoalRecord};
    ghost use Rattle.exec_goal.specs.inner.Tally.{NoneBefore};

    /// The first goal, in the order of acceptance, that is accepted and not executed yet, or `None` if there is none. Goals
    /// before the one that was found last aren't looked at again, unless goals were forgotten since.
    pub fn oldest_accepted(&mut self) -> Option<GoalId>
        ensures found { result ≡ option_map (λ goal. goal.id) (find (λ goal. is_accepted goal.state) self.old) }
        ensures same { self.new ≡ self.old }
    {
        let place = self.first_waiting();
        self.tally.waiting_from = place;
        if place < self.len() {
            Some(self.at(place).id)
        } else {
            None
        }
    }

    // The place of that goal, or how many goals there are.
    fn first_waiting(&self) -> usize
        ensures before { NoneBefore is_accepted result self.now }
        ensures there { result < length self.now → (d : GoalRecord) → is_accepted (slice_index_or self.now result d).state ≡ true }
    {
        for place in self.waiting_from()..self.len() {
            if self.at(place).state.is_accepted() {
                return place;
            }
        }
        self.len()
    }

    fn waiting_from(&self) -> usize
        ensures { NoneBefore is_accepted result self.now }
    {
        self.tally.waiting_from
    }
}
