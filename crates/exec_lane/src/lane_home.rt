//! A lane that came home.
ghost use Rattle.std.specs.Prelude.{◌≡◌, ◌++◌};
ghost use Rattle.std.specs.Arc.{arc_value};
ghost use Rattle.exec_lane.specs.inner.Buffered.{ArePlacesOf, bank_home, callbacks_at, works_home};
ghost use Rattle.exec_lane.specs.Lane.{task_home};
ghost use Rattle.exec_world.specs.inner.Buffers.{polled_work, unpolled_works};

use crate::places::callback_of;
use exec_msg::{Lines, Memory};
use exec_script::Effects;
use exec_world::{Cause, LaneBuffer, Ready, World};
use std::marker::Model;
use std::sync::Arc;

// The callbacks of a lane that ran, each with what it did. The variables of its group and the tasks of its goals are home.
#[derive(Drop)]
pub(crate) struct LaneHome {
    list: Arc<Vec<Ready>>,
    buffer: Box<LaneBuffer>,
}

impl Model for LaneHome {
    ghost use Rattle.std.specs.Prelude.{◌≤◌, List, length};
    ghost use Rattle.std.specs.Arc.{arc_value};
    ghost use Rattle.exec_lane.specs.Gather.{Ran};
    ghost use Rattle.exec_lane.specs.inner.Buffered.{ArePlacesOf, ran_from};

    ghost Value = { List Ran };

    ghost view = { λ lane. ran_from (arc_value lane.list).items lane.buffer.value };

    ghost invariant = { λ lane. ArePlacesOf (arc_value lane.list).items lane.buffer.value.places
        × (length lane.buffer.value.did ≤ length lane.buffer.value.places) };
}

impl LaneHome {
    ghost use Rattle.std.specs.Prelude.{◌≡◌, ◌<◌, ◌≤◌, ◌++◌, length};
    ghost use Rattle.std.specs.Arc.{arc_value};
    ghost use Rattle.exec_lane.specs.inner.Buffered.{ArePlacesOf, bank_home, callbacks_at, ran_from, works_home};
    ghost use Rattle.exec_lane.specs.inner.Spots.{ran_at};

    // Brings home what a lane took that has this buffer: the variables of its group, and the tasks of its goals.
    pub(crate) fn new<L: Lines>(
        list: Arc<Vec<Ready>>,
        mut buffer: Box<LaneBuffer>,
        world: &mut World<L>,
    ) -> LaneHome
        requires places { ArePlacesOf (arc_value list).items buffer.value.places }
        requires did { length buffer.value.did ≤ length buffer.value.places }
        ensures ran { result ≡ ran_from (arc_value list).items buffer.value }
        ensures home { world.new ≡ record world.old {
          state = works_home (callbacks_at (arc_value list).items buffer.value.places) (buffer.value.polled ++ buffer.value.waiting)
              (bank_home (callbacks_at (arc_value list).items buffer.value.places) buffer.value.variables world.old.state);
        } }
    {
        bring_bank_home(list.as_slice(), &buffer, world);
        bring_tasks_home(list.as_slice(), &mut buffer, world);
        LaneHome { list, buffer }
    }

    // How many callbacks ran.
    pub(crate) fn len(&self) -> usize
        ensures { result ≡ length self.now }
    {
        self.buffer.done()
    }

    // The callback that ran as this one in its lane, from 0.
    pub(crate) fn ready(&self, index: usize) -> &Ready
        requires { index < length self.now }
        ensures { result.now ≡ (ran_at self.now index).ready }
    {
        callback_of(self.list.as_slice(), &self.buffer, index)
    }

    // What it did.
    pub(crate) fn effects(&self, index: usize) -> &Effects
        requires { index < length self.now }
        ensures { result.now ≡ (ran_at self.now index).effects }
    {
        self.buffer.did(index)
    }

    // Lets lanes of later rounds use its memory.
    pub(crate) fn end<L: Lines>(self, world: &mut World<L>) -> Result<(), Memory>
        ensures { world.new ≡ world.old }
    {
        let LaneHome { list: _, buffer } = self;
        world.put_buffer(buffer)
    }
}

// Each callback of a reentrant group begins with variables of 0, so those of such a lane are dropped.
fn bring_bank_home<L: Lines>(list: &[Ready], lane: &LaneBuffer, world: &mut World<L>)
    requires { ArePlacesOf list.now lane.now.places }
    ensures { world.new ≡ record world.old { state = bank_home (callbacks_at list.now lane.now.places) lane.now.variables world.old.state } }
{
    if lane.len() == 0 {
        return;
    }
    let first = callback_of(list, lane, 0);
    if first.exclusive {
        world.put_bank(first.group, lane.bank());
    }
}

// Brings home the tasks of the callbacks' goals, in their order.
fn bring_tasks_home<L: Lines>(list: &[Ready], lane: &mut LaneBuffer, world: &mut World<L>)
    requires { ArePlacesOf list.now lane.old.places }
    ensures places { lane.new.places ≡ lane.old.places }
    ensures did { lane.new.did ≡ lane.old.did }
    ensures home { world.new ≡ record world.old {
      state = works_home (callbacks_at list.now lane.old.places) (lane.old.polled ++ lane.old.waiting) world.old.state;
    } }
{
    lane.rewind();
    for index in 0..lane.len() {
        let one = callback_of(list, lane, index);
        bring_task_home(one, lane, world);
    }
}

// If the callback polls no goal, nothing changes.
fn bring_task_home<L: Lines>(one: &Ready, lane: &mut LaneBuffer, world: &mut World<L>)
    ensures places { lane.new.places ≡ lane.old.places }
    ensures did { lane.new.did ≡ lane.old.did }
    ensures left { lane.new.waiting ≡ unpolled_works one.now.cause lane.old.waiting }
    ensures home { world.new ≡ record world.old {
      state = task_home one.now.entity one.now.cause (polled_work one.now.cause lane.old.waiting) world.old.state;
    } }
{
    if let Cause::Woke { id, .. } = &one.cause
        && let Some(task) = lane.take_task()
    {
        world.put_task(one.entity, *id, task);
    }
}
