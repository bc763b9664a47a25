mod refusals;

use crate::shared::{moment, same};
use exec_goal::{Accepted, Asked, CancelRequest, GoalInfo, Goals, Illegal, Reject, State};
use exec_msg::limits::GOALS;
use exec_msg::{
    Acceptance, CancelDecision, EntityNo, Event, GoalId, GoalStatus, Memory, ReturnCode,
};
use std::process::Abort;
use std::test::Fail;

const EVENTS: [Event; 5] = [
    Event::Execute,
    Event::CancelGoal,
    Event::Succeed,
    Event::Abort,
    Event::Canceled,
];

const ENDED: [State; 3] = [State::Succeeded, State::Canceled, State::Aborted];

fn id(number: u128) -> GoalId {
    GoalId::new(number)
}

fn request(number: u128, stamp: u64) -> CancelRequest {
    CancelRequest {
        id: id(number),
        stamp,
    }
}

#[test]
fn goals_move_by_the_standard(rt: HostRuntime) {
    same(&rt, State::Accepted.after(Event::Succeed), None);
    same(&rt, State::Executing.after(Event::Canceled), None);
    same(
        &rt,
        State::Canceling.after(Event::Succeed),
        Some(State::Succeeded),
    );
    for event in EVENTS {
        for state in ENDED {
            same(&rt, state.after(event), None);
        }
    }
}

#[test]
fn states_tell_what_is_done_with_a_goal(rt: HostRuntime) {
    same(&rt, State::Accepted.is_accepted(), true);
    same(&rt, State::Executing.is_accepted(), false);
    same(&rt, State::Canceling.is_canceling(), true);
    same(&rt, State::Executing.is_canceling(), false);
    for state in [State::Executing, State::Canceling] {
        same(&rt, state.is_worked_on(), true);
    }
    for state in ENDED {
        same(&rt, state.is_worked_on(), false);
    }
}

#[test]
fn refusals_have_numbers(rt: HostRuntime) {
    let numbers = (Reject::Held.number(), Reject::Full.number());
    same(&rt, numbers, (1, 2));
    same(&rt, Reject::from(Memory).number(), 3);
}

// A function that owns goals is proved over all that they drop, once for each way out. So a test makes them, and hands them on
// immediately.
#[test]
fn a_table_of_three_goals(rt: HostRuntime) -> Result<(), Fail> {
    let mut goals = Goals::new(rt.alloc());
    serves_three(&rt, &mut goals)
}

fn serves_three(rt: &impl Abort, goals: &mut Goals) -> Result<(), Fail> {
    accepts_three(rt, goals);
    cancels_until_20(rt, goals)?;
    answers_of_one_goal(rt, goals)?;
    ends_goal_1(rt, goals)?;
    tells_results(rt, goals)?;
    reads_goals(rt, goals);
    forgets_goal_1(rt, goals);
    Ok(())
}

// Goals 1 and 2 are deferred at 10 and 20, and goal 3 is executed at 30. Each has value 5.
fn accepts_three(rt: &impl Abort, goals: &mut Goals) {
    let (deferred, executed) = (State::Accepted, State::Executing);
    same(
        rt,
        goals.accept(id(1), 5, moment(10), Acceptance::Defer),
        Ok(Accepted { state: deferred }),
    );
    same(
        rt,
        goals.accept(id(2), 5, moment(20), Acceptance::Defer),
        Ok(Accepted { state: deferred }),
    );
    same(
        rt,
        goals.accept(id(3), 5, moment(30), Acceptance::Execute),
        Ok(Accepted { state: executed }),
    );
    same(
        rt,
        goals.accept(id(2), 6, moment(31), Acceptance::Defer),
        Err(Reject::Held),
    );
    same(rt, goals.count_working(), 1);
}

// Whether a request selects goals 1, 2 and 3.
fn selected(goals: &Goals, number: u128, stamp: u64) -> Result<[bool; 3], Memory> {
    let infos = goals.candidates(&request(number, stamp))?;
    let infos = infos.as_slice();
    Ok([has(infos, 1), has(infos, 2), has(infos, 3)])
}

fn has(infos: &[GoalInfo], number: u128) -> bool {
    infos.iter().any(|info| info.id.number() == number)
}

// The return code of an answer, the first goal that moved, and how many moved.
type Answered = (ReturnCode, Option<GoalId>, usize);

fn answered(
    goals: &mut Goals,
    number: u128,
    stamp: u64,
    decisions: &[(GoalId, CancelDecision)],
) -> Result<Answered, Memory> {
    let answer = goals.answer(&request(number, stamp), decisions)?;
    let moved = answer.moved.as_slice();
    Ok((answer.code, moved.first().copied(), moved.len()))
}

fn cancels_until_20(rt: &impl Abort, goals: &mut Goals) -> Result<(), Fail> {
    same(rt, selected(goals, 0, 20)?, [true, true, false]);
    let answer = answered(
        goals,
        0,
        20,
        &[
            (id(1), CancelDecision::Accept),
            (id(2), CancelDecision::Reject),
        ],
    )?;
    same(rt, answer, (ReturnCode::None, Some(id(1)), 1));
    same(rt, goals.count_working(), 2);
    Ok(())
}

// Goal 1 is CANCELING, and so no candidate. Goal 9 isn't held.
fn answers_of_one_goal(rt: &impl Abort, goals: &mut Goals) -> Result<(), Fail> {
    same(rt, selected(goals, 1, 0)?, [false, false, false]);
    let answer = answered(goals, 1, 0, &[])?;
    same(rt, answer, (ReturnCode::Rejected, None, 0));
    let answer = answered(goals, 9, 0, &[])?;
    same(rt, answer, (ReturnCode::UnknownGoalId, None, 0));
    Ok(())
}

fn ends_goal_1(rt: &impl Abort, goals: &mut Goals) -> Result<(), Fail> {
    same(rt, goals.apply(id(2), Event::Succeed), Err(Illegal));
    same(
        rt,
        goals.end(id(1), Event::Canceled, 7, moment(40)),
        Ok(State::Canceled),
    );
    same(rt, goals.count_working(), 1);
    let answer = answered(goals, 1, 0, &[])?;
    same(rt, answer, (ReturnCode::GoalTerminated, None, 0));
    Ok(())
}

fn tells_results(rt: &impl Abort, goals: &mut Goals) -> Result<(), Fail> {
    let told = Asked::Now(GoalStatus::Canceled, 7);
    same(rt, goals.ask_result(id(1), EntityNo(4))?, told);
    same(rt, goals.ask_result(id(2), EntityNo(5))?, Asked::Later);
    same(rt, goals.ask_result(id(2), EntityNo(3))?, Asked::Later);
    same(rt, goals.ask_result(id(9), EntityNo(6))?, Asked::Unknown);
    Ok(())
}

// Goal 2 was asked for by 5 and then by 3.
fn reads_goals(rt: &impl Abort, goals: &Goals) {
    let askers = [goals.asker(id(2), 0), goals.asker(id(2), 1)];
    same(rt, askers, [Some(EntityNo(5)), Some(EntityNo(3))]);
    same(rt, goals.asker(id(2), 2), None);
    assert_eq!(rt; goals.len(), 3);
    let second = goals.at(1);
    same(rt, (second.id, second.state), (id(2), State::Accepted));
}

fn forgets_goal_1(rt: &impl Abort, goals: &mut Goals) {
    let forgotten = [
        goals.expire(moment(49), 10),
        goals.expire(moment(50), 10),
        goals.expire(moment(50), 10),
    ];
    same(rt, forgotten, [None, Some(id(1)), None]);
    same(rt, (goals.holds(id(1)), goals.holds(id(2))), (false, true));
    same(rt, goals.apply(id(2), Event::Execute), Ok(State::Executing));
    same(rt, goals.state(id(2)), Some(State::Executing));
}

// A request's identifier and stamp, and which of goals 1, 2 and 3 it selects: all of them, those accepted up to the stamp, the
// named one whenever it was accepted, or both.
const SELECTED: &[(u128, u64, [bool; 3])] = &[
    (0, 0, [true, true, true]),
    (0, 9, [false, false, false]),
    (0, 29, [true, true, false]),
    (0, 30, [true, true, true]),
    (2, 0, [false, true, false]),
    (3, 10, [true, false, true]),
    (3, 9, [false, false, true]),
    (9, 20, [true, true, false]),
];

#[test]
fn requests_select_by_identifier_and_stamp(rt: HostRuntime) -> Result<(), Fail> {
    let mut goals = Goals::new(rt.alloc());
    accepts_three(&rt, &mut goals);
    selects(&rt, &goals)
}

fn selects(rt: &impl Abort, goals: &Goals) -> Result<(), Fail> {
    for (number, stamp, wanted) in SELECTED {
        same(rt, selected(goals, *number, *stamp)?, *wanted);
    }
    Ok(())
}

// A candidate that ended before the answer isn't moved, whatever was decided of it.
#[test]
fn answers_move_what_still_may_move(rt: HostRuntime) -> Result<(), Fail> {
    let mut goals = Goals::new(rt.alloc());
    answers_behind_an_end(&rt, &mut goals)
}

fn answers_behind_an_end(rt: &impl Abort, goals: &mut Goals) -> Result<(), Fail> {
    accepts_three(rt, goals);
    goals.end(id(3), Event::Succeed, 1, moment(31))?;
    let answer = answered(goals, 3, 0, &[(id(3), CancelDecision::Accept)])?;
    same(rt, answer, (ReturnCode::GoalTerminated, None, 0));
    let answer = answered(goals, 0, 0, &[(id(3), CancelDecision::Accept)])?;
    same(rt, answer, (ReturnCode::Rejected, None, 0));
    let answer = answered(
        goals,
        0,
        0,
        &[
            (id(1), CancelDecision::Reject),
            (id(2), CancelDecision::Accept),
            (id(3), CancelDecision::Accept),
        ],
    )?;
    same(rt, answer, (ReturnCode::None, Some(id(2)), 1));
    Ok(())
}

#[test]
fn goals_are_forgotten_together(rt: HostRuntime) -> Result<(), Fail> {
    let mut goals = Goals::new(rt.alloc());
    for number in 1..5_u64 {
        goals.accept(id(number as u128), 0, moment(0), Acceptance::Execute)?;
    }
    goals.end(id(1), Event::Succeed, 1, moment(10))?;
    goals.end(id(4), Event::Succeed, 4, moment(30))?;
    goals.end(id(3), Event::Abort, 3, moment(11))?;
    forgets_two(&rt, &mut goals);
    Ok(())
}

// Goals 1 and 3 are forgotten, goal 2 hasn't ended, and goal 4 ended later.
fn forgets_two(rt: &impl Abort, goals: &mut Goals) {
    same(rt, goals.has_expired(moment(19), 10), false);
    same(rt, goals.has_expired(moment(21), 10), true);
    assert_eq!(rt; goals.len(), 4);
    let first = goals.is_expired_at(0, moment(21), 10);
    let last = goals.is_expired_at(3, moment(21), 10);
    same(rt, (first, last), (true, false));
    goals.forget_expired(moment(21), 10);
    let held = [1, 2, 3, 4].map(|number: u128| goals.holds(id(number)));
    same(rt, held, [false, true, false, true]);
    assert_eq!(rt; goals.len(), 2);
    same(rt, (goals.at(0).id, goals.at(1).id), (id(2), id(4)));
    same(rt, goals.has_expired(moment(21), 10), false);
    same(rt, goals.expire(moment(40), 10), Some(id(4)));
}

#[test]
fn the_oldest_goal_that_waits_is_found(rt: HostRuntime) -> Result<(), Fail> {
    let mut goals = Goals::new(rt.alloc());
    same(&rt, goals.oldest_accepted(), None);
    goals.accept(id(1), 0, moment(0), Acceptance::Execute)?;
    goals.accept(id(2), 0, moment(0), Acceptance::Defer)?;
    goals.accept(id(3), 0, moment(0), Acceptance::Defer)?;
    same(&rt, goals.oldest_accepted(), Some(id(2)));
    same(
        &rt,
        goals.apply(id(2), Event::Execute),
        Ok(State::Executing),
    );
    same(&rt, goals.oldest_accepted(), Some(id(3)));
    goals.end(id(1), Event::Succeed, 1, moment(1))?;
    goals.forget_expired(moment(1), 0);
    same(&rt, goals.oldest_accepted(), Some(id(3)));
    Ok(())
}

// A goal after as many as a table holds.
fn one_more() -> GoalId {
    id(GOALS as u128 + 1)
}

#[test]
fn a_full_table(rt: HostRuntime) -> Result<(), Fail> {
    let mut goals = Goals::new(rt.alloc());
    fills(&rt, &mut goals)?;
    frees_a_place(&rt, &mut goals)
}

fn fills(rt: &impl Abort, goals: &mut Goals) -> Result<(), Fail> {
    for number in 0..GOALS as u64 {
        same(rt, goals.is_full(), false);
        goals.accept(id(number as u128 + 1), 0, moment(0), Acceptance::Execute)?;
    }
    same(rt, goals.is_full(), true);
    Ok(())
}

// A goal that has ended takes up its place until it is forgotten.
fn frees_a_place(rt: &impl Abort, goals: &mut Goals) -> Result<(), Fail> {
    refuses_more(rt, goals);
    goals.end(id(7), Event::Succeed, 1, moment(1))?;
    refuses_more(rt, goals);
    same(rt, goals.expire(moment(1), 0), Some(id(7)));
    goals.accept(one_more(), 0, moment(2), Acceptance::Defer)?;
    Ok(())
}

fn refuses_more(rt: &impl Abort, goals: &mut Goals) {
    same(
        rt,
        goals.accept(id(1), 0, moment(0), Acceptance::Defer),
        Err(Reject::Held),
    );
    same(
        rt,
        goals.accept(one_more(), 0, moment(0), Acceptance::Defer),
        Err(Reject::Full),
    );
    same(rt, goals.len(), GOALS);
    same(rt, goals.holds(one_more()), false);
}
