//! How lanes are claimed by workers.
ghost use Rattle.std.specs.Prelude.{◌≡◌, ◌<◌, [], IfOk, IsOk};
ghost use Rattle.exec_lane.specs.Lane.{AreFinished};
ghost use Rattle.exec_board.specs.Sweeps.{IsSweptPass};
ghost use denote.Param.Send.{IsSync};

use exec_board::{Board, Pass};
use exec_lane::{Gate, LaneBox};
use exec_msg::Memory;
use std::alloc::Global;
use std::thread::{Threads, join};

// Runs all callbacks of the lanes by at most `workers` workers. They claim lanes on a board, and run at most `quantum`
// callbacks at a claim. There are no more passes than lanes, because a pass more could do nothing. The caller sweeps when all
// workers have ended. If a worker was refused memory for a lane, the caller is refused it again.
pub(crate) fn claim_lanes<R: Threads + Sync, G: Gate>(
    rt: &R,
    alloc: Global,
    lanes: Vec<LaneBox>,
    workers: usize,
    quantum: usize,
    gate: &G,
) -> Result<Vec<LaneBox>, Memory>
    requires workers { 0 < workers }
    requires quantum { 0 < quantum }
    ensures finished { IfOk result (λ finished. AreFinished lanes.items finished.items) }
    ensures none { lanes.items ≡ [] → IsOk result }
{
    if lanes.is_empty() {
        return Ok(lanes);
    }
    let passes = workers.min(lanes.len());
    let (board, pass) = Board::open(alloc, lanes, passes)?;
    let mut pass = sweep_by(rt, &board, pass, quantum, gate);
    board.sweep(&mut pass, quantum, gate)?;
    board.close(alloc, pass)
}

// Sweeps a board with as many passes as a share has numbers, and joins them. Each is in a thread of its own if one can be made.
fn sweep_by<R: Threads + Sync, G: Gate>(
    rt: &R,
    board: &Board,
    pass: Pass,
    quantum: usize,
    gate: &G,
) -> Pass
    requires board { pass.board ≡ board.now }
    requires holds_none { pass.view.holds ≡ [] }
    requires quantum { 0 < quantum }
    ensures board { result.board ≡ board.now }
    ensures swept { IsSweptPass pass.view result.view }
{
    let (_, count) = pass.share();
    if count < 2 {
        return sweep_alone(board, pass, quantum, gate);
    }
    let (front, back) = board.split(pass);
    let (front, back) = join(
        rt,
        move || -> Pass
            requires { IsSync R.row × IsSync G.row × (front.board ≡ board.now) × (front.view.holds ≡ []) × (0 < quantum) }
            ensures { (result.board ≡ board.entry.now) × IsSweptPass front.view result.view }
        { sweep_by(rt, board, front, quantum, gate) },
        move || -> Pass
            requires { IsSync R.row × IsSync G.row × (back.board ≡ board.now) × (back.view.holds ≡ []) × (0 < quantum) }
            ensures { (result.board ≡ board.entry.now) × IsSweptPass back.view result.view }
        { sweep_by(rt, board, back, quantum, gate) },
    );
    board.join(front, back)
}

// Sweeps a board with one pass.
fn sweep_alone<G: Gate>(board: &Board, mut pass: Pass, quantum: usize, gate: &G) -> Pass
    requires board { pass.board ≡ board.now }
    requires holds_none { pass.view.holds ≡ [] }
    requires quantum { 0 < quantum }
    ensures board { result.board ≡ board.now }
    ensures swept { IsSweptPass pass.view result.view }
{
    match board.sweep(&mut pass, quantum, gate) {
        Ok(()) | Err(Memory) => pass,
    }
}
