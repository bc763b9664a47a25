// Many threads that claim, run and release the lanes of one board.
ghost use Rattle.std.specs.Prelude.{◌≡◌, ◌<◌, []};
ghost use Rattle.exec_board.specs.Seats.{IsLast};
ghost use Rattle.exec_board.specs.Sweeps.{IsSweptPass};
ghost use denote.Param.Send.{IsSync};

use super::fixture::{open, visit};
use exec_board::{Board, Busy, Pass};
use exec_msg::Memory;
use std::alloc::Global;
use std::test::Fail;
use std::thread::{Threads, join};

// The lengths of forty lanes, and their sum.
const LENGTHS: [usize; 40] = [
    1, 8, 15, 22, 6, 13, 20, 4, 11, 18, 2, 9, 16, 23, 7, 14, 21, 5, 12, 19, 3, 10, 17, 1, 8, 15,
    22, 6, 13, 20, 4, 11, 18, 2, 9, 16, 23, 7, 14, 21,
];

const CALLBACKS: usize = 486;

// What a caller ends with: how many callbacks it ran, and whether it found all lanes finished.
#[derive(Clone, Copy)]
struct Tally {
    ran: usize,
    finished: bool,
}

// Goes over the lanes until it finds all finished, for a limited number of turns. It claims each that is open, runs at most
// `count` callbacks of it and releases it.
fn call(board: &Board, mut pass: Pass, count: usize) -> (Pass, Tally)
    requires board { pass.board ≡ board.now }
    requires holds_none { pass.view.holds ≡ [] }
    ensures board { result.0.board ≡ board.now }
    ensures kept { IsSweptPass pass.view result.0.view }
{
    let mut ran = 0usize;
    for _ in 0..1_000_000 {
        let mut finished = true;
        for lane in 0..board.lanes() {
            match visit(board, &mut pass, lane, count) {
                Ok((first, end)) => {
                    ran = ran.saturating_add(end - first);
                    finished = false;
                }
                Err(Busy::Held) => finished = false,
                Err(Busy::Finished) => {}
            }
        }
        if finished {
            return (pass, Tally { ran, finished });
        }
    }
    (
        pass,
        Tally {
            ran,
            finished: false,
        },
    )
}

// Calls with as many passes as a share has numbers, and joins them. Each is in a thread of its own if one can be made.
fn call_by<R: Threads + Sync>(rt: &R, board: &Board, pass: Pass, count: usize) -> (Pass, Tally)
    requires board { pass.board ≡ board.now }
    requires holds_none { pass.view.holds ≡ [] }
    ensures board { result.0.board ≡ board.now }
    ensures kept { IsSweptPass pass.view result.0.view }
{
    let (_, numbers) = pass.share();
    if numbers < 2 {
        return call(board, pass, count);
    }
    let (front, back) = board.split(pass);
    let (first, second) = join(
        rt,
        move || -> (Pass, Tally)
            requires { IsSync R.row × (front.board ≡ board.now) × (front.view.holds ≡ []) }
            ensures { (result.0.board ≡ board.entry.now) × IsSweptPass front.view result.0.view }
        { call_by(rt, board, front, count) },
        move || -> (Pass, Tally)
            requires { IsSync R.row × (back.board ≡ board.now) × (back.view.holds ≡ []) }
            ensures { (result.0.board ≡ board.entry.now) × IsSweptPass back.view result.0.view }
        { call_by(rt, board, back, count) },
    );
    let (front, one) = first;
    let (back, other) = second;
    let tally = Tally {
        ran: one.ran.saturating_add(other.ran),
        finished: one.finished && other.finished,
    };
    (board.join(front, back), tally)
}

// Whether a board is closed with finished boxes of these lengths, in their order.
fn closes_in_order(
    alloc: Global,
    board: Board,
    pass: Pass,
    lengths: &[usize],
) -> Result<bool, Memory>
    requires board { pass.board ≡ board }
    requires last { IsLast pass.view }
    requires holds_none { pass.view.holds ≡ [] }
{
    let boxes = board.close(alloc, pass)?;
    Ok(
        boxes.len() == lengths.len()
            && boxes.iter().zip(lengths.iter()).all(|(lane, length)| lane.is_finished()
                && lane.len() == *length),
    )
}

#[test]
fn eight_threads_run_forty_lanes(rt: HostRuntime) -> Result<(), Fail> {
    for count in [1, 3, 1024] {
        let (board, pass) = open(rt.alloc(), &LENGTHS, 8)?;
        let (pass, tally) = call_by(&rt, &board, pass, count);
        assert!(rt; tally.finished && tally.ran == CALLBACKS);
        assert!(rt; closes_in_order(rt.alloc(), board, pass, &LENGTHS)?);
    }
    Ok(())
}

// Sixty-four lanes of one callback and eight of fifty: 464 callbacks.
const MANY: [usize; 72] = [
    1, 1, 1, 1, 1, 1, 1, 1, 1, 1, 1, 1, 1, 1, 1, 1, 1, 1, 1, 1, 1, 1, 1, 1, 1, 1, 1, 1, 1, 1, 1, 1,
    1, 1, 1, 1, 1, 1, 1, 1, 1, 1, 1, 1, 1, 1, 1, 1, 1, 1, 1, 1, 1, 1, 1, 1, 1, 1, 1, 1, 1, 1, 1, 1,
    50, 50, 50, 50, 50, 50, 50, 50,
];

#[test]
fn two_threads_run_one_callback_a_claim(rt: HostRuntime) -> Result<(), Fail> {
    let (board, pass) = open(rt.alloc(), &MANY, 2)?;
    let (pass, tally) = call_by(&rt, &board, pass, 1);
    assert!(rt; tally.finished && tally.ran == 464);
    assert!(rt; closes_in_order(rt.alloc(), board, pass, &MANY)?);
    Ok(())
}
