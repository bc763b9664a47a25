//! A lane that may be moved from thread to thread.
ghost use Rattle.std.specs.Prelude.{◌≡◌, ◌<◌, ◌≤◌, ◌+◌, ◌==◌, true, false, length, slice_get, Some, IfOk, IsErr, OnErr, OnOk};
ghost use Rattle.std.specs.Arc.{arc_value};
ghost use Rattle.exec_lane.specs.Gather.{outcomes_in, ran_in};
ghost use Rattle.exec_lane.specs.Lane.{Lane, lane_home};
ghost use Rattle.exec_lane.specs.inner.Buffered.{IsBuffered, entries_in};
ghost use Rattle.exec_lane.specs.inner.Cuts.{IsUnrun};
ghost use Rattle.exec_world.specs.inner.Buffers.{run_next};

use crate::gate::{Gate, Passed};
use crate::lane_home::LaneHome;
use crate::outcome::{CopiedEffects, Outcome};
use crate::places::callback_of;
use exec_msg::{Lines, Memory};
use exec_world::{LaneBuffer, Ready, World};
use std::alloc::Global;
use std::marker::Model;
use std::snapshot::Snapshot;
use std::sync::Arc;

/// The callbacks of one lane, with the variables of their group and the tasks of the goals that they poll. The first
/// [`done`](LaneBox::done) callbacks have run, one after another, from the state in which the lane was opened. The variables,
/// the tasks and what the callbacks did are those of that run, however often the lane is moved.
#[derive(Drop)]
pub struct LaneBox {
    alloc: Global,
    list: Arc<Vec<Ready>>,
    // What the lane was opened with. It has no bytes.
    first: Snapshot<LaneBuffer>,
    buffer: Box<LaneBuffer>,
    failed: bool,
}

impl Model for LaneBox {
    ghost use Rattle.std.specs.Prelude.{length};
    ghost use Rattle.std.specs.Arc.{arc_value};
    ghost use Rattle.exec_lane.specs.Lane.{Lane};
    ghost use Rattle.exec_lane.specs.inner.Buffered.{IsBuffered, entries_in};

    ghost Value = { Lane };

    ghost view = { λ lane. record {
      variables = lane.first.value.variables;
      entries = entries_in (arc_value lane.list).items lane.first.value;
      done = length lane.buffer.value.did;
      failed = lane.failed;
    } };

    ghost invariant = { λ lane. IsBuffered (arc_value lane.list).items lane.first.value lane.buffer.value (length lane.buffer.value.did) };
}

impl LaneBox {
    // A lane of the callbacks of a buffer. None of them ran.
    pub(crate) fn open(alloc: Global, list: Arc<Vec<Ready>>, buffer: Box<LaneBuffer>) -> LaneBox
        requires { IsUnrun (arc_value list).items buffer.value }
        ensures { result ≡ record { variables = buffer.value.variables; entries = entries_in (arc_value list).items buffer.value; done = 0; failed = false } }
    {
        LaneBox {
            alloc,
            list,
            first: Snapshot::of(&buffer),
            buffer,
            failed: false,
        }
    }

    // Brings home the variables of its group and the tasks of its goals, and gives its callbacks that ran.
    pub(crate) fn bring_home<L: Lines>(self, world: &mut World<L>) -> LaneHome
        ensures ran { result ≡ ran_in self }
        ensures home { world.new ≡ record world.old { state = lane_home world.old.state self } }
    {
        let LaneBox {
            alloc: _,
            list,
            first: _,
            buffer,
            failed: _,
        } = self;
        LaneHome::new(list, buffer, world)
    }

    /// How many callbacks the lane has.
    pub fn len(&self) -> usize
        ensures value { result ≡ length self.now.entries }
        ensures within { self.now.done ≤ length self.now.entries }
    {
        self.buffer.len()
    }

    /// How many of them ran.
    pub fn done(&self) -> usize
        ensures value { result ≡ self.now.done }
        ensures within { self.now.done ≤ length self.now.entries }
    {
        self.buffer.done()
    }

    /// Whether all of them ran.
    pub fn is_finished(&self) -> bool
        ensures value { result ≡ (self.now.done == length self.now.entries) }
        ensures within { self.now.done ≤ length self.now.entries }
    {
        self.buffer.done() == self.buffer.len()
    }

    /// A copy of what a callback did. The callback is at this place in the lane, from 0, and has run.
    ///
    /// # Errors
    /// [`Memory`] if a growth was refused.
    pub fn outcome(&self, index: usize) -> Result<Outcome, Memory>
        requires { index < self.now.done }
        ensures { IfOk result (λ outcome. slice_get (outcomes_in self.now) index ≡ Some outcome) }
    {
        Ok(Outcome {
            position: callback_of(self.list.as_slice(), &self.buffer, index).position,
            effects: CopiedEffects::of(self.alloc, self.buffer.did(index))?,
        })
    }

    /// Reports the position of the lane's next callback to the gate, and runs that callback.
    ///
    /// # Errors
    /// [`Memory`] if a growth was refused. The lane is marked as failed, and answers [`Memory`] from then on. Nothing else of
    /// it changes.
    pub fn run_next<G: Gate>(&mut self, gate: &G) -> Result<(), Memory>
        requires { self.old.done < length self.old.entries }
        ensures ok { OnOk result (self.new ≡ record self.old { done = self.old.done + 1 }) }
        ensures refused { OnErr result (self.new ≡ record self.old { failed = true }) }
        ensures failed { self.old.failed ≡ true → IsErr result }
    {
        if self.failed {
            return Err(Memory);
        }
        let one = callback_of(self.list.as_slice(), &self.buffer, self.buffer.done());
        let passed = Passed::tell(gate, one.position);
        match run(passed, one, &mut self.buffer) {
            Ok(()) => Ok(()),
            Err(Memory) => {
                self.failed = true;
                Err(Memory)
            }
        }
    }
}

// Runs a lane's next callback apart from the world. It was reported to a gate before. If memory is refused, nothing changes.
fn run(_passed: Passed, one: &Ready, lane: &mut LaneBuffer) -> Result<(), Memory>
    requires { _passed.position ≡ one.now.position }
    ensures ran { OnOk result (lane.new ≡ run_next one.now lane.old) }
    ensures unchanged { OnErr result (lane.new ≡ lane.old) }
{
    lane.run(one)
}
