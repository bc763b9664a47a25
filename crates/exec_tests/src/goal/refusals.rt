//! Refused memory: each call either answers as it does with ample memory, or answers Memory and changes no goal. If it is made
//! again, it succeeds. So these tests pass whichever allocation of a call is refused.
use super::{id, request};
use crate::shared::{moment, same};
use exec_goal::{Asked, GoalInfo, Goals, Reject};
use exec_msg::{Acceptance, CancelDecision, EntityNo, Memory};
use std::process::Abort;
use std::test::Fail;

// What a goal reads as: its information, and its first two askers.
type Reading = Option<(GoalInfo, Option<EntityNo>, Option<EntityNo>)>;

fn read(goals: &Goals, index: usize) -> Reading {
    let id = goals.infos().get(index)?.id;
    Some((goals.at(index), goals.asker(id, 0), goals.asker(id, 1)))
}

fn read_all(goals: &Goals) -> [Reading; 3] {
    [read(goals, 0), read(goals, 1), read(goals, 2)]
}

fn accept(rt: &impl Abort, goals: &mut Goals, number: u128) -> Result<(), Fail> {
    let before = read_all(goals);
    if let Err(reject) = goals.accept(id(number), 5, moment(10), Acceptance::Execute) {
        same(rt, reject, Reject::Memory);
        same(rt, read_all(goals), before);
        goals.accept(id(number), 5, moment(10), Acceptance::Execute)?;
    }
    Ok(())
}

fn ask(rt: &impl Abort, goals: &mut Goals, client: u16) -> Result<(), Fail> {
    let before = read_all(goals);
    if let Ok(asked) = goals.ask_result(id(2), EntityNo(client)) {
        same(rt, asked, Asked::Later);
        return Ok(());
    }
    same(rt, read_all(goals), before);
    same(rt, goals.ask_result(id(2), EntityNo(client))?, Asked::Later);
    Ok(())
}

fn candidates(goals: &Goals) -> Result<usize, Memory> {
    Ok(goals.candidates(&request(0, 0))?.as_slice().len())
}

fn look(rt: &impl Abort, goals: &Goals) -> Result<(), Fail> {
    if let Ok(count) = candidates(goals) {
        same(rt, count, 3);
        return Ok(());
    }
    same(rt, candidates(goals)?, 3);
    Ok(())
}

// How many goals an answer moves.
fn moved(goals: &mut Goals) -> Result<usize, Memory> {
    let decisions = [
        (id(1), CancelDecision::Accept),
        (id(2), CancelDecision::Reject),
        (id(3), CancelDecision::Accept),
    ];
    let answer = goals.answer(&request(0, 0), &decisions)?;
    Ok(answer.moved.as_slice().len())
}

fn answer(rt: &impl Abort, goals: &mut Goals) -> Result<(), Fail> {
    let before = read_all(goals);
    if let Ok(count) = moved(goals) {
        same(rt, count, 2);
        return Ok(());
    }
    same(rt, read_all(goals), before);
    same(rt, moved(goals)?, 2);
    Ok(())
}

#[test]
fn refused_memory_leaves_the_goals(rt: HostRuntime) -> Result<(), Fail> {
    let mut goals = Goals::new(rt.alloc());
    serves(&rt, &mut goals)
}

fn serves(rt: &impl Abort, goals: &mut Goals) -> Result<(), Fail> {
    for number in [1, 2, 3] {
        accept(rt, goals, number)?;
    }
    for client in [7, 8] {
        ask(rt, goals, client)?;
    }
    look(rt, goals)?;
    answer(rt, goals)
}
