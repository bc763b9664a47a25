// Boards with lanes of given lengths, and claims of them.
ghost use Rattle.std.specs.Prelude.{◌≡◌, ◌<◌, ◌≤◌, [], length, IfOk};

use super::lanes::split_first;
use super::world_of;
use exec_board::{Board, Busy, Pass};
use exec_doc::Refused;
use exec_lane::{LaneBox, Open};
use exec_msg::Memory;
use exec_world::World;
use std::alloc::{AllocError, Global};

// A document whose first round has a lane of each length, in their order. A lane of length 1 is a timer of one reentrant group.
// Any other lane is a mutually exclusive group with as many timers.
fn document_of(alloc: Global, lengths: &[usize]) -> Result<String, AllocError> {
    let mut text = String::from_str(
        alloc,
        r#"{"version":1,"nodes":[{"name":"n","groups":[{"name":"r","kind":"reentrant"}"#,
    )?;
    push_groups(&mut text, lengths)?;
    text.push_str(r#"],"timers":["#)?;
    push_timers(&mut text, lengths)?;
    text.push_str(r#"]}],"moments":[1]}"#)?;
    Ok(text)
}

fn push_groups(text: &mut String, lengths: &[usize]) -> Result<(), AllocError> {
    for group in 0..lengths.len() {
        if lengths[group] != 1 {
            push_group(text, group)?;
        }
    }
    Ok(())
}

fn push_group(text: &mut String, group: usize) -> Result<(), AllocError> {
    write!(text, r#",{{"name":"g{group}","kind":"exclusive"}}"#)
}

fn push_timers(text: &mut String, lengths: &[usize]) -> Result<(), AllocError> {
    for group in 0..lengths.len() {
        push_timers_of(text, group, lengths[group])?;
    }
    Ok(())
}

fn push_timers_of(text: &mut String, group: usize, count: usize) -> Result<(), AllocError> {
    for timer in 0..count {
        separate(text, group == 0 && timer == 0)?;
        push_timer(text, group, timer, count == 1)?;
    }
    Ok(())
}

fn push_timer(
    text: &mut String,
    group: usize,
    timer: usize,
    is_alone: bool,
) -> Result<(), AllocError> {
    write!(text, r#"{{"name":"t{group}_{timer}","period":1,"group":""#)?;
    if is_alone {
        text.push_str(r#"r"}"#)
    } else {
        write!(text, r#"g{group}"}}"#)
    }
}

fn separate(text: &mut String, is_first: bool) -> Result<(), AllocError> {
    if is_first { Ok(()) } else { text.push_str(",") }
}

// Lanes of these lengths.
fn lanes_of(alloc: Global, lengths: &[usize]) -> Result<Vec<LaneBox>, Refused> {
    let document = document_of(alloc, lengths)?;
    let world = world_of(alloc, document.as_bytes())?;
    Ok(lanes_in(alloc, world)?)
}

// The lanes of a world's first round. The world is made elsewhere, because a function that makes one and lends it takes minutes
// to prove.
pub(super) fn lanes_in(alloc: Global, mut world: World) -> Result<Vec<LaneBox>, Memory> {
    split_first(alloc, &mut world)
}

// A board with lanes of these lengths, for at most `passes` passes, and its first pass.
pub(super) fn open(
    alloc: Global,
    lengths: &[usize],
    passes: usize,
) -> Result<(Board, Pass), Refused>
    requires lanes { 0 < length lengths.now }
    requires passes { 0 < passes }
    ensures board { IfOk result (λ opened. (opened.0.words ≡ length lengths.now) × (opened.1.board ≡ opened.0)) }
    ensures share { IfOk result (λ opened. (opened.1.view.start ≡ 0) × (opened.1.view.stop ≡ passes) × (opened.1.view.passes ≡ passes)) }
    ensures holds_none { IfOk result (λ opened. opened.1.view.holds ≡ []) }
{
    let boxes = lanes_of(alloc, lengths)?;
    if boxes.len() != lengths.len() {
        return Err(Refused::Memory);
    }
    Ok(Board::open(alloc, boxes, passes)?)
}

// Whether this many callbacks of each lane ran.
pub(super) fn have_run(lanes: &[LaneBox], count: usize) -> bool {
    lanes.iter().all(|lane| lane.done() == count)
}

// Runs the next callbacks of a lane, at most `count` of them, until one is refused memory.
pub(super) fn run_some(lane: &mut LaneBox, count: usize)
    ensures lane { (lane.new.variables ≡ lane.old.variables) × (lane.new.entries ≡ lane.old.entries) }
    ensures on { lane.old.done ≤ lane.new.done }
{
    for _ in 0..count {
        if lane.is_finished() || lane.run_next(&Open).is_err() {
            return;
        }
    }
}

// Claims a lane, runs at most `count` callbacks of it and releases it. Answers how many had run at the claim and at the
// release.
pub(super) fn visit(
    board: &Board,
    pass: &mut Pass,
    lane: usize,
    count: usize,
) -> Result<(usize, usize), Busy>
    requires board { pass.old.board ≡ board.now }
    requires lane { lane < board.now.words }
    ensures board { pass.new.board ≡ pass.old.board }
    ensures share { (pass.new.view.start ≡ pass.old.view.start) × (pass.new.view.stop ≡ pass.old.view.stop)
        × (pass.new.view.passes ≡ pass.old.view.passes) }
    ensures opening { pass.new.view.opening ≡ pass.old.view.opening }
    ensures holds { pass.new.view.holds ≡ pass.old.view.holds }
    ensures on { IfOk result (λ counts. counts.0 ≤ counts.1) }
{
    let mut claim = board.claim(pass, lane)?;
    let first = claim.work().done();
    run_some(claim.work(), count);
    let end = claim.work().done();
    board.release(pass, claim);
    Ok((first, end))
}
