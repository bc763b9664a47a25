// Calls of a board, by one pass and by two.
ghost use Rattle.std.specs.Prelude.{◌≡◌, ◌+◌, ◌<◌, ◌≤◌, [], IfOk};
ghost use Rattle.exec_board.specs.Seats.{IsLast};
ghost use Rattle.exec_board.specs.Sweeps.{IsSweptPass};

use super::fixture::{have_run, lanes_in, open, run_some, visit};
use super::lanes::EXCLUSIVE;
use super::{TURNS, world_of};
use exec_board::{Board, Busy, Pass};
use exec_doc::Refused;
use exec_lane::Open;
use exec_msg::Memory;
use std::alloc::Global;
use std::sync::atomic::AtomicU64;
use std::sync::atomic::Ordering::SeqCst;
use std::test::Fail;
use std::thread::{Threads, join};

// Whether a board is closed with one box, of which this many callbacks ran.
fn closes_at(alloc: Global, board: Board, pass: Pass, done: usize) -> Result<bool, Memory>
    requires board { pass.board ≡ board }
    requires last { IsLast pass.view }
    requires holds_none { pass.view.holds ≡ [] }
{
    let boxes = board.close(alloc, pass)?;
    Ok(boxes.len() == 1 && have_run(&boxes, done))
}

#[test]
fn a_lane_is_claimed_until_it_is_finished(rt: HostRuntime) -> Result<(), Fail> {
    let alloc = rt.alloc();
    let (board, mut pass) = open(alloc, &[5], 1)?;
    assert!(rt; board.lanes() == 1);
    let Ok(mut claim) = board.claim(&mut pass, 0) else {
        panic!(rt; "the lane is open")
    };
    assert!(rt; claim.work().done() == 0 && claim.work().len() == 5);
    run_some(claim.work(), 3);
    assert!(rt; visit(&board, &mut pass, 0, 1) == Err(Busy::Held));
    board.release(&mut pass, claim);
    assert!(rt; visit(&board, &mut pass, 0, 2) == Ok((3, 5)));
    assert!(rt; visit(&board, &mut pass, 0, 1) == Err(Busy::Finished));
    assert!(rt; closes_at(alloc, board, pass, 5)?);
    Ok(())
}

#[test]
fn two_passes_share_a_lane(rt: HostRuntime) -> Result<(), Fail> {
    let alloc = rt.alloc();
    let (board, pass) = open(alloc, &[5], 2)?;
    let (mut front, mut back) = board.split(pass);
    let Ok(mut claim) = board.claim(&mut front, 0) else {
        panic!(rt; "the lane is open")
    };
    assert!(rt; visit(&board, &mut back, 0, 1) == Err(Busy::Held));
    run_some(claim.work(), 3);
    board.release(&mut front, claim);
    assert!(rt; visit(&board, &mut back, 0, 2) == Ok((3, 5)));
    assert!(rt; visit(&board, &mut front, 0, 1) == Err(Busy::Finished));
    let pass = board.join(front, back);
    assert!(rt; closes_at(alloc, board, pass, 5)?);
    Ok(())
}

// Counts the steps that two threads have taken. A thread waits for a step of the other for a limited number of turns.
#[derive(Drop)]
struct Steps {
    taken: AtomicU64,
}

impl Steps {
    fn take(&self) {
        self.taken.fetch_add(1, SeqCst);
    }

    // Whether this many were taken.
    fn wait_for(&self, steps: u64) -> bool {
        for _ in 0..TURNS {
            if self.taken.load(SeqCst) >= steps {
                return true;
            }
        }
        false
    }
}

// Claims the lane, and runs three callbacks of it after the other thread was refused it. It is refused the lane after the other
// thread ran the rest.
fn lead(board: &Board, mut pass: Pass, steps: &Steps) -> (Pass, bool)
    requires board { pass.board ≡ board.now }
    requires lane { 0 < board.now.words }
    requires holds_none { pass.view.holds ≡ [] }
    ensures board { result.0.board ≡ board.now }
    ensures kept { IsSweptPass pass.view result.0.view }
{
    let Ok(mut claim) = board.claim(&mut pass, 0) else {
        return (pass, false);
    };
    steps.take();
    let refused = steps.wait_for(2);
    run_some(claim.work(), 3);
    board.release(&mut pass, claim);
    steps.take();
    let finished = steps.wait_for(4) && visit(board, &mut pass, 0, 1) == Err(Busy::Finished);
    (pass, refused && finished)
}

// Is refused the lane while the other thread holds it. Runs two callbacks of it after that has released it.
fn follow(board: &Board, mut pass: Pass, steps: &Steps) -> (Pass, bool)
    requires board { pass.board ≡ board.now }
    requires lane { 0 < board.now.words }
    requires holds_none { pass.view.holds ≡ [] }
    ensures board { result.0.board ≡ board.now }
    ensures kept { IsSweptPass pass.view result.0.view }
{
    let held = steps.wait_for(1) && visit(board, &mut pass, 0, 1) == Err(Busy::Held);
    steps.take();
    let ran = steps.wait_for(3) && visit(board, &mut pass, 0, 2) == Ok((3, 5));
    steps.take();
    (pass, held && ran)
}

// Both, each with a half of a pass and in a thread of its own.
fn lead_and_follow<R: Threads>(rt: &R, board: &Board, pass: Pass, steps: &Steps) -> (Pass, bool)
    requires board { pass.board ≡ board.now }
    requires lane { 0 < board.now.words }
    requires two { pass.view.start + 2 ≤ pass.view.stop }
    requires holds_none { pass.view.holds ≡ [] }
    ensures board { result.0.board ≡ board.now }
    ensures kept { IsSweptPass pass.view result.0.view }
{
    let (front, back) = board.split(pass);
    let (led, followed) = join(
        rt,
        move || -> (Pass, bool)
            requires { (front.board ≡ board.now) × (0 < board.now.words) × (front.view.holds ≡ []) }
            ensures { (result.0.board ≡ board.entry.now) × IsSweptPass front.view result.0.view }
        { lead(board, front, steps) },
        move || -> (Pass, bool)
            requires { (back.board ≡ board.now) × (0 < board.now.words) × (back.view.holds ≡ []) }
            ensures { (result.0.board ≡ board.entry.now) × IsSweptPass back.view result.0.view }
        { follow(board, back, steps) },
    );
    let (front, leads) = led;
    let (back, follows) = followed;
    (board.join(front, back), leads && follows)
}

#[test]
fn two_threads_share_a_lane(rt: HostRuntime) -> Result<(), Fail> {
    let alloc = rt.alloc();
    let (board, pass) = open(alloc, &[5], 2)?;
    let steps = Steps {
        taken: AtomicU64::new(0),
    };
    let (pass, shared) = lead_and_follow(&rt, &board, pass, &steps);
    assert!(rt; shared);
    assert!(rt; closes_at(alloc, board, pass, 5)?);
    Ok(())
}

#[test]
fn a_sweep_finishes_the_lanes(rt: HostRuntime) -> Result<(), Fail> {
    let alloc = rt.alloc();
    let (board, mut pass) = open(alloc, &[5], 1)?;
    board.sweep(&mut pass, 2, &Open)?;
    assert!(rt; visit(&board, &mut pass, 0, 1) == Err(Busy::Finished));
    assert!(rt; closes_at(alloc, board, pass, 5)?);
    Ok(())
}

#[test]
fn shares_are_halved_and_joined(rt: HostRuntime) -> Result<(), Fail> {
    let (board, pass) = open(rt.alloc(), &[1], 5)?;
    assert!(rt; pass.share() == (0, 5));
    let (front, back) = board.split(pass);
    assert!(rt; front.share() == (0, 2) && back.share() == (2, 3));
    let (middle, last) = board.split(back);
    assert!(rt; middle.share() == (2, 1) && last.share() == (3, 2));
    let pass = board.join(front, board.join(middle, last));
    assert!(rt; pass.share() == (0, 5));
    Ok(())
}

// This is also run with each allocation refused, one after another. The answer is Memory, or a board of all lanes.
#[test]
fn a_board_has_all_lanes_or_none_is_opened(rt: HostRuntime) {
    if let Ok((board, pass)) = open(rt.alloc(), &[2, 1], 3) {
        assert!(rt; board.lanes() == 2 && pass.share() == (0, 3));
    }
}

// A board with one lane of two callbacks that log, for one pass.
fn open_logging(alloc: Global) -> Result<(Board, Pass), Refused>
    ensures board { IfOk result (λ opened. (opened.0.words ≡ 1) × (opened.1.board ≡ opened.0)) }
{
    let world = world_of(alloc, EXCLUSIVE)?;
    let boxes = lanes_in(alloc, world)?;
    if boxes.len() != 1 {
        return Err(Refused::Memory);
    }
    Ok(Board::open(alloc, boxes, 1)?)
}

// Claims and releases that lane three times, for one callback each. Answers whether both callbacks ran, or nothing ran after
// one that was refused memory.
fn runs_until_refused(board: &Board, pass: &mut Pass) -> bool
    requires board { pass.old.board ≡ board.now }
    requires lane { 0 < board.now.words }
{
    let first = visit(board, pass, 0, 1);
    let second = visit(board, pass, 0, 1);
    let third = visit(board, pass, 0, 1);
    match first {
        Ok((0, 0)) => second == Ok((0, 0)) && third == Ok((0, 0)),
        Ok((0, 1)) if second == Ok((1, 1)) => third == Ok((1, 1)),
        Ok((0, 1)) => second == Ok((1, 2)) && third == Err(Busy::Finished),
        _ => false,
    }
}

// This is also run with each allocation refused, one after another. A lane that was refused one runs nothing in later claims.
#[test]
fn a_lane_that_has_failed_stays_so_on_its_board(rt: HostRuntime) {
    if let Ok((board, mut pass)) = open_logging(rt.alloc()) {
        assert!(rt; runs_until_refused(&board, &mut pass));
    }
}
