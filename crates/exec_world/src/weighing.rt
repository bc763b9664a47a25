//! How much work a round is.
use exec_msg::Kind;
use exec_plan::{Graph, Script};
use exec_rules::{AwakeGoal, Listed, Ready};

/// What work is light: at most `least` instructions, and `each` more for each callback.
#[derive(Clone, Copy, Debug)]
pub struct Light {
    /// Instructions.
    pub least: u64,
    /// Instructions for each callback.
    pub each: u64,
}

impl Light {
    // Whether callbacks, this many, with so many instructions in all, are light work.
    pub(crate) fn is_light(&self, callbacks: usize, instructions: u64) -> bool {
        let most = self.each.saturating_mul(callbacks as u64);
        instructions <= most.saturating_add(self.least)
    }
}

/// The callbacks of a round whose work isn't light.
#[derive(Drop)]
pub struct Heavy {
    /// The callbacks as [`World::snapshot`](crate::World::snapshot) gives them.
    pub list: Vec<Ready>,
    /// How many instructions their scripts have. A cancel handler's script counts once for each candidate, and a goal's for a
    /// quarter.
    pub instructions: u64,
}

// How many instructions callbacks have that a snapshot listed.
pub(crate) fn instructions(graph: &Graph, list: &[Listed]) -> u64 {
    let mut all = 0u64;
    for listed in list {
        all = all.saturating_add(instructions_of(graph, listed));
    }
    all
}

// How many instructions the polls of goals have. A poll runs its goal's script from where it waited to where it waits next. How
// much that is isn't known, and a quarter of the script is taken for it.
pub(crate) fn poll_instructions(graph: &Graph, goals: &[AwakeGoal]) -> u64 {
    let mut all = 0u64;
    for goal in goals {
        all = all.saturating_add(length(graph.script(goal.server, Kind::Poll)) / 4);
    }
    all
}

fn instructions_of(graph: &Graph, listed: &Listed) -> u64 {
    if !listed.runs {
        return 0;
    }
    let kind = listed.ready.kind();
    let length = length(graph.script(listed.ready.entity, kind));
    if kind == Kind::Cancel {
        return length.saturating_mul(listed.ready.candidates.as_slice().len() as u64);
    }
    length
}

fn length(script: Option<&Script>) -> u64 {
    match script {
        Some(script) => script.as_slice().len() as u64,
        None => 0,
    }
}
