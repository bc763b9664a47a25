//! What a plan answers.
use crate::doc::plan_of;
use crate::shared::same;
use exec_graph::{Fed, Feed, FeedByRound, Plan};
use exec_msg::{EntityNo, GoalId, Memory};
use std::alloc::Global;
use std::process::Abort;
use std::test::Fail;

// The topic has the number 0, and the server 1.
const PLAN: &str = r#"{"version":1,"topics":["x"],"nodes":[{"name":"n","actions":[{"name":"a"}]}],
  "moments":[0,10,10,4611686018427387904],
  "feed":[{"round":2,"topic":"x","value":-1},
    {"round":1,"action":"a","goal":"00000000-0000-0000-0000-000000000007","value":5},
    {"round":2,"action":"a","cancel":"00000000-0000-0000-0000-000000000000"},
    {"round":4,"action":"a","cancel":"00000000-0000-0000-0000-000000000007","stamp":4611686018427387904},
    {"round":2,"topic":"x","value":3}]}"#;

const LATEST: u64 = 4_611_686_018_427_387_904;

fn message(value: i64) -> Feed {
    let topic = EntityNo(0);
    Feed {
        round: 2,
        fed: Fed::Message { topic, value },
    }
}

fn goal_7() -> Feed {
    let (server, id) = (EntityNo(1), GoalId::new(7));
    Feed {
        round: 1,
        fed: Fed::Goal {
            server,
            id,
            value: 5,
        },
    }
}

fn cancel(round: u64, id: u128, stamp: u64) -> Feed {
    let (server, id) = (EntityNo(1), GoalId::new(id));
    Feed {
        round,
        fed: Fed::Cancel { server, id, stamp },
    }
}

fn cancel_all() -> Feed {
    cancel(2, 0, 0)
}

fn cancel_7() -> Feed {
    cancel(4, 7, LATEST)
}

fn is_as_fed(rt: &impl Abort, plan: &Plan) {
    same(rt, plan.graph().len(), 2);
    let ticks = plan.moments().iter().map(|moment| moment.ticks());
    same(rt, ticks.eq([0, 10, 10, LATEST].iter().copied()), true);
    let fed = [message(-1), goal_7(), cancel_all(), cancel_7(), message(3)];
    same(rt, plan.feed(), fed.as_slice());
}

// If memory is refused, the entries are listed by rounds once more.
fn by_round(alloc: Global, plan: &Plan) -> Result<FeedByRound, Memory> {
    match FeedByRound::of(alloc, plan) {
        Err(Memory) => FeedByRound::of(alloc, plan),
        answer => answer,
    }
}

fn is_fed_by_round(rt: &impl Abort, alloc: Global, plan: &Plan) -> Result<(), Fail> {
    let index = by_round(alloc, plan)?;
    same(rt, index.len(), 4);
    is_fed(rt, &index, 1, &[goal_7()]);
    is_fed(rt, &index, 2, &[message(-1), cancel_all(), message(3)]);
    is_fed(rt, &index, 3, &[]);
    is_fed(rt, &index, 4, &[cancel_7()]);
    Ok(())
}

fn is_fed(rt: &impl Abort, index: &FeedByRound, round: usize, wanted: &[Feed]) {
    assert!(rt; 1 <= round && round <= index.len());
    same(rt, index.fed_in(round), wanted);
}

#[test]
fn a_plan_is_as_declared(rt: HostRuntime) -> Result<(), Fail> {
    let plan = plan_of(rt.alloc(), PLAN)?;
    is_as_fed(&rt, &plan);
    is_fed_by_round(&rt, rt.alloc(), &plan)
}
