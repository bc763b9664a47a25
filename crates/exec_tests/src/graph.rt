mod builders;
mod graphs;
mod plans;

use crate::shared::same;
use exec_graph::{GraphFault, PlanFault, Script, schedule_fits};
use exec_msg::limits::{FEED, TICKS};
use exec_script::Instr;
use std::sync::Arc;
use std::test::Fail;

#[test]
fn a_schedule_fits_up_to_its_limits(rt: HostRuntime) {
    let fits = [
        schedule_fits(&[TICKS], FEED, TICKS),
        schedule_fits(&[TICKS + 1], FEED, TICKS),
        schedule_fits(&[TICKS], FEED + 1, TICKS),
        schedule_fits(&[TICKS], FEED, TICKS + 1),
    ];
    same(&rt, fits, [true, false, false, false]);
}

#[test]
fn scripts_are_shared(rt: HostRuntime) -> Result<(), Fail> {
    let mut instructions = Vec::new(rt.alloc());
    instructions.push(Instr::pend())?;
    let script = Script::of(Arc::new(rt.alloc(), instructions)?);
    let wanted = [Instr::pend()];
    let is_given = script.as_slice() == wanted.as_slice()
        && script.shared().as_slice() == wanted.as_slice();
    same(&rt, is_given, true);
    Ok(())
}

#[test]
fn faults_have_their_numbers(rt: HostRuntime) {
    let graph = (GraphFault::Name.number(), GraphFault::Memory.number());
    let plan = (PlanFault::Limit.number(), PlanFault::Id.number());
    same(&rt, (graph, plan), ((4, 10), (5, 9)));
}
