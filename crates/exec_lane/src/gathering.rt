//! How lanes come home.
ghost use Rattle.std.specs.Prelude.{◌≡◌, ◌<◌, [], ◌++◌, drop, length, map, true, IfOk, OnErr, OnOk};
ghost use Rattle.std.specs.List.{flat_map};
ghost use Rattle.exec_lane.specs.Gather.{AreGathered, ran_in};
ghost use Rattle.exec_lane.specs.Lane.{lanes_home};
ghost use Rattle.exec_lane.specs.inner.Spots.{all_spots, ran_at, spot_ran, spots_from};

use crate::lane_box::LaneBox;
use crate::lane_home::LaneHome;
use exec_msg::{Lines, Memory};
use exec_script::Effects;
use exec_world::{Ready, World};
use std::alloc::Global;
use std::marker::Model;

// Where a callback is that ran: its lane, and its place there, both from 0. Its position in the ready list is from 1.
#[derive(Clone, Copy)]
pub(crate) struct Spot {
    position: usize,
    lane: usize,
    index: usize,
}

/// The callbacks of a round that ran, each with what it did, in ready order. They stay in their lanes.
#[derive(Drop)]
pub struct Gathered {
    lanes: Vec<LaneHome>,
    spots: Vec<Spot>,
}

impl Model for Gathered {
    ghost use Rattle.std.specs.Prelude.{List, map};
    ghost use Rattle.std.specs.List.{AllByRecursion};
    ghost use Rattle.exec_lane.specs.Gather.{Ran};
    ghost use Rattle.exec_lane.specs.inner.Spots.{IsSpotOf, spot_ran};

    ghost Value = { List Ran };

    ghost view = { λ all. map (spot_ran all.lanes.items) all.spots.items };

    ghost invariant = { λ all. AllByRecursion (IsSpotOf all.lanes.items) all.spots.items };
}

impl Gathered {
    ghost use Rattle.std.specs.Prelude.{◌≡◌, ◌<◌, length};
    ghost use Rattle.exec_lane.specs.inner.Spots.{ran_at};

    /// How many callbacks ran.
    pub fn len(&self) -> usize
        ensures { result ≡ length self.now }
    {
        self.spots.len()
    }

    /// The callback at this place, from 0.
    pub fn ready(&self, index: usize) -> &Ready
        requires { index < length self.now }
        ensures { result.now ≡ (ran_at self.now index).ready }
    {
        let spot = self.spots[index];
        self.lanes[spot.lane].ready(spot.index)
    }

    /// What it did.
    pub fn effects(&self, index: usize) -> &Effects
        requires { index < length self.now }
        ensures { result.now ≡ (ran_at self.now index).effects }
    {
        let spot = self.spots[index];
        self.lanes[spot.lane].effects(spot.index)
    }

    /// Lets lanes of later rounds use its memory.
    ///
    /// # Errors
    /// [`Memory`] if a growth was refused.
    pub fn end<L: Lines>(self, world: &mut World<L>) -> Result<(), Memory>
        ensures { world.new ≡ world.old }
    {
        let Gathered {
            mut lanes,
            spots: _,
        } = self;
        while let Some(lane) = lanes.pop() {
            lane.end(world)?;
        }
        Ok(())
    }
}

/// Brings home what [`split`](crate::split) took: the variables of each lane's group, and the tasks of its goals. Gives the
/// callbacks that ran, each with what it did, in ready order. Each may then be committed.
///
/// # Errors
/// [`Memory`] if a growth was refused. The lanes are dropped, and the world has failed.
pub fn gather<L: Lines>(
    alloc: Global,
    lanes: Vec<LaneBox>,
    world: &mut World<L>,
) -> Result<Gathered, Memory>
    ensures gathered { IfOk result (λ all. AreGathered (flat_map ran_in lanes.items) all) }
    ensures home { OnOk result (world.new ≡ record world.old { state = lanes_home lanes.items world.old.state }) }
    ensures failed { OnErr result (world.new.failed ≡ true) }
{
    match gather_all(alloc, lanes, world) {
        Ok(all) => Ok(all),
        Err(Memory) => {
            world.fail();
            Err(Memory)
        }
    }
}

// The same, but that a world that is refused memory isn't marked as failed.
fn gather_all<L: Lines>(
    alloc: Global,
    lanes: Vec<LaneBox>,
    world: &mut World<L>,
) -> Result<Gathered, Memory>
    ensures gathered { IfOk result (λ all. AreGathered (flat_map ran_in lanes.items) all) }
    ensures home { OnOk result (world.new ≡ record world.old { state = lanes_home lanes.items world.old.state }) }
{
    let lanes = bring_lanes_home(alloc, lanes, world)?;
    let mut spots = list_spots(alloc, lanes.as_slice())?;
    spots.sort_unstable_by_key(|spot| spot.position);
    Ok(Gathered { lanes, spots })
}

// Brings home what each lane took, in their order.
fn bring_lanes_home<L: Lines>(
    alloc: Global,
    lanes: Vec<LaneBox>,
    world: &mut World<L>,
) -> Result<Vec<LaneHome>, Memory>
    ensures ran { IfOk result (λ homes. homes.items ≡ map ran_in lanes.items) }
    ensures home { OnOk result (world.new ≡ record world.old { state = lanes_home lanes.items world.old.state }) }
{
    let mut left = lanes;
    let mut homes = Vec::with_capacity(alloc, left.len())?;
    left.reverse();
    while let Some(lane) = left.pop() {
        homes.push(lane.bring_home(world))?;
    }
    Ok(homes)
}

// Where all callbacks are that ran, lane by lane.
fn list_spots(alloc: Global, lanes: &[LaneHome]) -> Result<Vec<Spot>, Memory>
    ensures { IfOk result (λ spots. spots.items ≡ all_spots 0 lanes.now) }
{
    let mut spots = Vec::new(alloc);
    for number in 0..lanes.len() {
        add_spots(&lanes[number], number, &mut spots)?;
    }
    Ok(spots)
}

// Adds those of the lane with this number.
fn add_spots(lane: &LaneHome, number: usize, spots: &mut Vec<Spot>) -> Result<(), Memory>
    ensures { OnOk result (spots.new.items ≡ spots.old.items ++ spots_from number 0 lane.now) }
{
    for index in 0..lane.len() {
        spots.push(Spot {
            position: lane.ready(index).position,
            lane: number,
            index,
        })?;
    }
    Ok(())
}
