//! What a round works with.
use crate::arrived::Arrived;
use crate::weighing::{instructions, poll_instructions};
use exec_plan::Graph;
use exec_rules::{AwakeGoal, ReadyList};
use exec_script::EffectList;
use std::alloc::Global;

// What a round lists, and what the callback that runs does. The next round uses the same memory again, but nothing that is in
// it.
#[derive(Drop)]
pub(crate) struct Scratch {
    // The callbacks that are ready, as a snapshot lists them.
    pub(crate) list: ReadyList,
    // How many of these, from the first one, come before polls under the order of kinds.
    pub(crate) before: usize,
    // The goals that are awake.
    pub(crate) goals: Vec<AwakeGoal>,
    // The numbers of arrivals, if callbacks run in their order.
    pub(crate) arrivals: Vec<Arrived>,
    // The places of queues that have an item.
    pub(crate) places: Vec<usize>,
    // The effects of the callback that runs.
    pub(crate) effects: EffectList,
}

impl Scratch {
    // Nothing is listed. It takes no memory.
    pub(crate) fn new(alloc: Global) -> Scratch {
        Scratch {
            list: ReadyList::new(alloc),
            before: 0,
            goals: Vec::new(alloc),
            arrivals: Vec::new(alloc),
            places: Vec::new(alloc),
            effects: EffectList::new(alloc),
        }
    }

    // How many callbacks are listed, with the polls of the goals.
    pub(crate) fn count(&self) -> usize {
        self.list.as_slice().len().saturating_add(self.goals.len())
    }

    // How many instructions they have.
    pub(crate) fn instructions(&self, graph: &Graph) -> u64 {
        instructions(graph, self.list.as_slice()).saturating_add(poll_instructions(
            graph,
            &self.goals,
        ))
    }
}
