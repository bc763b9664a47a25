ghost use Rattle.std.specs.Prelude.{◌≡◌, ◌<◌, length, OnErr, OnOk};
ghost use Rattle.exec_lane.specs.Lane.{entry_in, without_task};
ghost use Rattle.exec_lane.specs.inner.Buffered.{callback_at, entries_in};
ghost use Rattle.exec_lane.specs.inner.Cuts.{IsUnrun, lane_with};
ghost use Rattle.exec_rules.specs.Calls.{IsHomeFor};

use exec_msg::{Lines, Memory, PlaceTable};
use exec_plan::GroupNo;
use exec_world::{Cause, LaneBuffer, Ready, World};
use std::alloc::Global;
use std::marker::Model;
use std::sync::Arc;

// A ready list whose first callbacks are cut into lanes. The lane of a mutually exclusive group is found without a walk over
// others.
#[derive(Drop)]
pub(crate) struct Cut {
    list: Arc<Vec<Ready>>,
    lanes: Vec<Box<LaneBuffer>>,
    of_group: PlaceTable,
}

impl Model for Cut {
    ghost use Rattle.std.specs.Prelude.{map};
    ghost use Rattle.std.specs.Arc.{arc_value};
    ghost use Rattle.std.specs.List.{AllByRecursion};
    ghost use Rattle.exec_lane.specs.inner.Buffered.{entries_in};
    ghost use Rattle.exec_lane.specs.inner.Cuts.{CutState, FindsLanes, IsUnrun};

    ghost Value = { CutState };

    ghost view = { λ cut. record {
      list = (arc_value cut.list).items;
      lanes = map (λ lane. entries_in (arc_value cut.list).items lane.value) cut.lanes.items;
    } };

    ghost invariant = { λ cut. FindsLanes cut.of_group (map (λ lane. entries_in (arc_value cut.list).items lane.value) cut.lanes.items)
        × AllByRecursion (λ lane. IsUnrun (arc_value cut.list).items lane.value) cut.lanes.items };
}

impl Cut {
    ghost use Rattle.std.specs.Prelude.{◌≡◌, ◌<◌, [], ◌∷◌, ◌++◌, length, map, None, Some, OnOk};
    ghost use Rattle.std.specs.Arc.{arc_value};
    ghost use Rattle.std.specs.List.{AllByRecursion};
    ghost use Rattle.exec_lane.specs.Lane.{entry_in, without_task};
    ghost use Rattle.exec_lane.specs.inner.Buffered.{callback_at, entries_in};
    ghost use Rattle.exec_lane.specs.inner.Cuts.{IsUnrun, lane_with, place_for, with_entry};
    ghost use Rattle.exec_msg.specs.Places.{change_at};
    ghost use Rattle.exec_rules.specs.Calls.{IsHomeFor};

    // No callback of this list is in a lane. It takes no memory.
    pub(crate) fn new(alloc: Global, list: Arc<Vec<Ready>>) -> Cut
        ensures { result ≡ record { list = (arc_value list).items; lanes = [] } }
    {
        Cut {
            list,
            lanes: Vec::new(alloc),
            of_group: PlaceTable::new(alloc),
        }
    }

    // Adds the callback at this place of the list to the lane of its group, with the task of the goal that it polls. If there is
    // no such lane, it begins one.
    pub(crate) fn push<L: Lines>(
        &mut self,
        place: usize,
        world: &mut World<L>,
    ) -> Result<(), Memory>
        requires there { place < length self.old.list }
        requires home { IsHomeFor (callback_at self.old.list place).entity (callback_at self.old.list place).cause world.old.state }
        ensures cut { OnOk result (self.new ≡ record self.old {
          lanes = with_entry self.old.lanes (entry_in world.old.state (callback_at self.old.list place));
        }) }
        ensures out { OnOk result (world.new ≡ record world.old {
          state = without_task (callback_at self.old.list place).entity (callback_at self.old.list place).cause world.old.state;
        }) }
    {
        match self.lane_for(place) {
            Some(lane) => self.join(lane, place, world),
            None => self.begin(place, world),
        }
    }

    // The list, and the lanes of its callbacks. None of these ran.
    pub(crate) fn into_parts(self) -> (Arc<Vec<Ready>>, Vec<Box<LaneBuffer>>)
        ensures list { (arc_value result.0).items ≡ self.list }
        ensures lanes { map (λ lane. entries_in (arc_value result.0).items lane.value) result.1.items ≡ self.lanes }
        ensures unrun { AllByRecursion (λ lane. IsUnrun (arc_value result.0).items lane.value) result.1.items }
    {
        (self.list, self.lanes)
    }

    // The place of the lane that the callback at a place of the list goes into, from 0.
    fn lane_for(&self, place: usize) -> Option<usize>
        requires { place < length self.now.list }
        ensures { result ≡ place_for (callback_at self.now.list place) self.now.lanes }
    {
        let one = &self.list.as_slice()[place];
        if !one.exclusive {
            return None;
        }
        self.of_group.get(number_of(&one.group))
    }

    // Adds the callback to the lane at this place, which is the one that it goes into.
    fn join<L: Lines>(
        &mut self,
        lane: usize,
        place: usize,
        world: &mut World<L>,
    ) -> Result<(), Memory>
        requires there { place < length self.old.list }
        requires lane { place_for (callback_at self.old.list place) self.old.lanes ≡ Some lane }
        requires home { IsHomeFor (callback_at self.old.list place).entity (callback_at self.old.list place).cause world.old.state }
        ensures cut { OnOk result (self.new ≡ record self.old {
          lanes = change_at lane (lane_with (entry_in world.old.state (callback_at self.old.list place))) self.old.lanes;
        }) }
        ensures out { OnOk result (world.new ≡ record world.old {
          state = without_task (callback_at self.old.list place).entity (callback_at self.old.list place).cause world.old.state;
        }) }
    {
        add(self.list.as_slice(), place, &mut self.lanes[lane], world)?;
        Ok(())
    }

    // Begins a lane after the others.
    fn begin<L: Lines>(&mut self, place: usize, world: &mut World<L>) -> Result<(), Memory>
        requires there { place < length self.old.list }
        requires lane { place_for (callback_at self.old.list place) self.old.lanes ≡ None }
        requires home { IsHomeFor (callback_at self.old.list place).entity (callback_at self.old.list place).cause world.old.state }
        ensures cut { OnOk result (self.new ≡ record self.old {
          lanes = self.old.lanes ++ (entry_in world.old.state (callback_at self.old.list place) ∷ []) ∷ [];
        }) }
        ensures out { OnOk result (world.new ≡ record world.old {
          state = without_task (callback_at self.old.list place).entity (callback_at self.old.list place).cause world.old.state;
        }) }
    {
        let mut lane = world.take_buffer()?;
        add(self.list.as_slice(), place, &mut lane, world)?;
        let one = &self.list.as_slice()[place];
        let exclusive = one.exclusive;
        let group = number_of(&one.group);
        self.of_group.reserve(group)?;
        let number = self.lanes.len();
        self.lanes.push(lane)?;
        if exclusive {
            self.of_group.note(group, number);
        }
        Ok(())
    }
}

// Adds the callback at a place of a list to a lane, with the task of the goal that it polls.
fn add<L: Lines>(
    list: &[Ready],
    place: usize,
    lane: &mut LaneBuffer,
    world: &mut World<L>,
) -> Result<(), Memory>
    requires there { place < length list.now }
    requires unrun { IsUnrun list.now lane.old }
    requires home { IsHomeFor (callback_at list.now place).entity (callback_at list.now place).cause world.old.state }
    ensures lane { OnOk result (entries_in list.now lane.new
        ≡ lane_with (entry_in world.old.state (callback_at list.now place)) (entries_in list.now lane.old)) }
    ensures unrun { OnOk result (IsUnrun list.now lane.new) }
    ensures unchanged { OnErr result (lane.new ≡ lane.old) }
    ensures out { OnOk result (world.new ≡ record world.old {
      state = without_task (callback_at list.now place).entity (callback_at list.now place).cause world.old.state;
    }) }
{
    let one = &list[place];
    match &one.cause {
        Cause::Woke { id, .. } => {
            let task = world.take_task(one.entity, *id);
            lane.add_poll(place, task)
        }
        Cause::Took(_) => lane.add(place),
        Cause::Due => lane.add(place),
    }
}

// The number under which a group's place is noted.
fn number_of(group: &GroupNo) -> usize
    ensures value { result ≡ group.now }
    ensures bound { result < 65536 }
{
    group.0 as usize
}
