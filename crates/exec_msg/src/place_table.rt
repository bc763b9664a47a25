//! Places by number.
ghost use Rattle.std.specs.Prelude.{◌≡◌, ◌<◌, ◌≤◌, ◌^◌, ℕ, [], length, OnOk, OnErr};
ghost use Rattle.exec_msg.specs.Places.{change_at, first_noted, place_under};

use crate::memory::Memory;
use std::alloc::Global;
use std::marker::Model;

/// A direct-address table from numbers to places in a list. For each number it has the first place that was noted. It is as
/// large as the greatest number that it has room for.
#[derive(Drop)]
pub struct PlaceTable {
    slots: Vec<Option<usize>>,
}

impl Model for PlaceTable {
    ghost use Rattle.std.specs.Prelude.{ℕ, List, Option};

    ghost Value = { List (Option ℕ) };

    ghost view = { λ table. table.slots.items };
}

impl PlaceTable {
    /// No places. It takes no memory.
    pub fn new(alloc: Global) -> PlaceTable
        ensures { result ≡ [] }
    {
        PlaceTable {
            slots: Vec::new(alloc),
        }
    }

    /// The place that is noted for a number.
    pub fn get(&self, number: usize) -> Option<usize>
        ensures { result ≡ place_under number self.now }
    {
        match self.slots.get(number) {
            None => None,
            Some(place) => *place,
        }
    }

    /// Makes room for a number, which is less than 2^32. The places don't change, and the room never gets smaller, even if
    /// memory is refused.
    ///
    /// # Errors
    /// [`Memory`] if a growth was refused. No memory is needed if there is room already.
    pub fn reserve(&mut self, number: usize) -> Result<(), Memory>
        requires { number < 2 ^ 32 }
        ensures room { OnOk result (number < length self.new) }
        ensures memory { OnErr result (length self.old ≤ number) }
        ensures kept { length self.old ≤ length self.new }
        ensures same { (other : ℕ) → place_under other self.new ≡ place_under other self.old }
    {
        if number >= self.slots.len() {
            self.slots.resize(number + 1, None)?;
        }
        Ok(())
    }

    /// Notes a place for a number. If the number has a place already, or there is no room for it, nothing changes.
    pub fn note(&mut self, number: usize, place: usize)
        ensures { self.new ≡ change_at number (first_noted place) self.old }
    {
        note_place(&mut self.slots, number, place);
    }
}

fn note_place(slots: &mut Vec<Option<usize>>, number: usize, place: usize)
    ensures { slots.new.items ≡ change_at number (first_noted place) slots.old.items }
{
    if let Some(found) = slots.get_mut(number) {
        *found = Some(found.unwrap_or(place));
    }
}
