//! How a ready list is cut into lanes.
ghost use Rattle.std.specs.Prelude.{◌≡◌, ◌<◌, [], map, true, length, IfOk, OnErr, OnOk};
ghost use Rattle.std.specs.Arc.{arc_value};
ghost use Rattle.std.specs.List.{AllByRecursion};
ghost use Rattle.exec_lane.specs.Lane.{opened_lanes, tasks_out, variables_for_lane};
ghost use Rattle.exec_lane.specs.inner.Buffered.{callbacks_at, entries_in};
ghost use Rattle.exec_lane.specs.inner.Cuts.{IsUnrun, callbacks_of, cut_from, opened_entries};
ghost use Rattle.exec_rules.specs.Calls.{AreHome};

use crate::cut::Cut;
use crate::lane_box::LaneBox;
use crate::places::callback_of;
use exec_msg::{Lines, Memory};
use exec_script::Bank;
use exec_world::{LaneBuffer, Ready, World};
use std::alloc::Global;
use std::sync::Arc;

/// Cuts the ready list of the last snapshot into lanes. Each has the variables of its group and the tasks of the goals that its
/// callbacks poll. The tasks are out of the world until [`gather`](crate::gather) brings them home. No callback of the list is
/// committed before that.
///
/// # Errors
/// [`Memory`] if a growth was refused. The world has failed then.
pub fn split<L: Lines>(
    alloc: Global,
    list: Vec<Ready>,
    world: &mut World<L>,
) -> Result<Vec<LaneBox>, Memory>
    requires { AreHome list.items world.old.state }
    ensures lanes { IfOk result (λ lanes. lanes.items ≡ opened_lanes list.items world.old.state) }
    ensures out { OnOk result (world.new ≡ record world.old { state = tasks_out list.items world.old.state }) }
    ensures failed { OnErr result (world.new.failed ≡ true) }
{
    match split_all(alloc, list, world) {
        Ok(lanes) => Ok(lanes),
        Err(Memory) => {
            world.fail();
            Err(Memory)
        }
    }
}

fn split_all<L: Lines>(
    alloc: Global,
    list: Vec<Ready>,
    world: &mut World<L>,
) -> Result<Vec<LaneBox>, Memory>
    requires { AreHome list.items world.old.state }
    ensures lanes { IfOk result (λ lanes. lanes.items ≡ opened_lanes list.items world.old.state) }
    ensures out { OnOk result (world.new ≡ record world.old { state = tasks_out list.items world.old.state }) }
{
    let cut = cut(alloc, list, world)?;
    let (list, lanes) = cut.into_parts();
    open_all(alloc, &list, lanes, world)
}

// Cuts the list into lanes, each with the tasks of the goals that its callbacks poll.
fn cut<L: Lines>(alloc: Global, list: Vec<Ready>, world: &mut World<L>) -> Result<Cut, Memory>
    requires { AreHome list.items world.old.state }
    ensures cut { IfOk result (λ cut. cut ≡ record { list = list.items; lanes = cut_from [] list.items world.old.state }) }
    ensures out { OnOk result (world.new ≡ record world.old { state = tasks_out list.items world.old.state }) }
{
    let count = list.len();
    let mut cut = Cut::new(alloc, Arc::new(alloc, list)?);
    for place in 0..count {
        cut.push(place, world)?;
    }
    Ok(cut)
}

// Opens lanes, each with the variables of its group.
fn open_all<L: Lines>(
    alloc: Global,
    list: &Arc<Vec<Ready>>,
    mut lanes: Vec<Box<LaneBuffer>>,
    world: &mut World<L>,
) -> Result<Vec<LaneBox>, Memory>
    requires { AllByRecursion (λ lane. IsUnrun (arc_value list.now).items lane.value) lanes.items }
    ensures lanes { IfOk result (λ opened. opened.items
        ≡ map (opened_entries world.old.state) (map (λ lane. entries_in (arc_value list.now).items lane.value) lanes.items)) }
    ensures same { world.new ≡ world.old }
{
    let mut opened = Vec::with_capacity(alloc, lanes.len())?;
    lanes.reverse();
    while let Some(lane) = lanes.pop() {
        opened.push(open(alloc, list, lane, world)?)?;
    }
    Ok(opened)
}

// Opens a lane with the variables of its first callback's group, or with none if the group is reentrant.
fn open<L: Lines>(
    alloc: Global,
    list: &Arc<Vec<Ready>>,
    mut lane: Box<LaneBuffer>,
    world: &mut World<L>,
) -> Result<LaneBox, Memory>
    requires { IsUnrun (arc_value list.now).items lane.value }
    ensures lane { IfOk result (λ opened. opened ≡ opened_entries world.old.state (entries_in (arc_value list.now).items lane.value)) }
    ensures same { world.new ≡ world.old }
{
    let bank = bank_for(list.as_slice(), &lane, world);
    lane.set_bank(bank);
    Ok(LaneBox::open(alloc, list.clone()?, lane))
}

fn bank_for<L: Lines>(list: &[Ready], lane: &LaneBuffer, world: &mut World<L>) -> Bank
    requires { IsUnrun list.now lane.now }
    ensures bank { result ≡ variables_for_lane world.old.state (callbacks_at list.now lane.now.places) }
    ensures same { world.new ≡ world.old }
{
    if lane.len() == 0 {
        return Bank::new();
    }
    let first = callback_of(list, lane, 0);
    if first.exclusive {
        world.take_bank(first.group)
    } else {
        Bank::new()
    }
}
