//! What runners sent on.
ghost use Rattle.std.specs.Prelude.{◌≡◌, ◌+◌, ◌-◌, ◌<◌, ◌≤◌, ◌++◌, All, length, IfOk};
ghost use Rattle.exec_stream.specs.Sent.{AreFound, IsAmong, outcome_at};

use exec_lane::Outcome;
use exec_msg::Memory;
use std::alloc::Global;
use std::marker::Model;

/// The outcomes that came by the queue, and those that runners kept because it was full.
#[derive(Drop)]
pub struct Sent {
    came: Vec<Outcome>,
    kept: Vec<Outcome>,
}

impl Model for Sent {
    ghost use Rattle.std.specs.Prelude.{◌++◌, List};
    ghost use Rattle.exec_lane.specs.declared.outcome.Outcome.{Outcome};

    ghost Value = { List Outcome };

    ghost view = { λ sent. sent.came.items ++ sent.kept.items };
}

impl Sent {
    /// Those that came, and those that were kept.
    pub fn of(came: Vec<Outcome>, kept: Vec<Outcome>) -> Sent
        ensures { result ≡ came.items ++ kept.items }
    {
        Sent { came, kept }
    }

    fn len(&self) -> usize
        ensures { result ≡ length self.now }
    {
        self.came.len() + self.kept.len()
    }

    /// The outcome at this place, from 0.
    pub fn at(&self, place: usize) -> &Outcome
        requires { place < length self.now }
        ensures { result.now ≡ outcome_at self.now place }
    {
        let count = self.came.len();
        if place < count {
            &self.came[place]
        } else {
            &self.kept[place - count]
        }
    }

    /// For each position of a ready list, from 1 to `count`, the place of its outcome, if there is one.
    ///
    /// # Errors
    /// [`Memory`] if a growth was refused.
    pub fn places(&self, alloc: Global, count: usize) -> Result<Vec<usize>, Memory>
        requires { All (IsAmong count) self.now }
        ensures len { IfOk result (λ places. length places.items ≡ count) }
        ensures found { IfOk result (λ places. AreFound self.now (length self.now) places.items) }
    {
        let mut places = Vec::from_elem(alloc, 0, count)?;
        for place in 0..self.len() {
            let position = self.at(place).position;
            places[position - 1] = place;
        }
        Ok(places)
    }
}
