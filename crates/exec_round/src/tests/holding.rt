// One pass that holds all lanes of a board at once.
ghost use Rattle.std.specs.Prelude.{◌≡◌, ◌<◌, ◌⊎◌, ◌↔◌, ◌++◌, [], length, option_to_list, IsSome};
ghost use Rattle.exec_board.specs.Sweeps.{IsSweptPass};

use super::fixture::{open, run_some};
use exec_board::{Board, Claim, Pass};
use std::alloc::Global;
use std::collections::VecDeque;
use std::test::Fail;

// Takes the last claim, which comes first, or the first one.
fn take(claims: &mut VecDeque<Claim>, last_first: bool) -> Option<Claim>
    ensures taken { (claims.old.items ≡ option_to_list result ++ claims.new.items) ⊎ (claims.old.items ≡ claims.new.items ++ option_to_list result) }
    ensures some { IsSome result ↔ (0 < length claims.old.items) }
    ensures less { IsSome result → length claims.new.items < length claims.old.items }
{
    if last_first {
        claims.pop_front()
    } else {
        claims.pop_back()
    }
}

// Claims all lanes, one after another. Then runs a callback of each and releases it. It begins with the lane that it claimed
// last, or with the first one. Answers how many it held.
fn hold_all(alloc: Global, board: &Board, pass: &mut Pass, last_first: bool) -> usize
    requires board { pass.old.board ≡ board.now }
    requires holds_none { pass.old.view.holds ≡ [] }
    ensures board { pass.new.board ≡ pass.old.board }
    ensures kept { IsSweptPass pass.old.view pass.new.view }
{
    let mut claims = VecDeque::new(alloc);
    for lane in 0..board.lanes() {
        match board.claim(pass, lane) {
            Ok(claim) => match claims.push_front(claim) {
                Ok(()) => {}
                Err(refused) => board.release(pass, refused.value),
            },
            Err(_busy) => {}
        }
    }
    let held = claims.len();
    while let Some(mut claim) = take(&mut claims, last_first) {
        run_some(claim.work(), 1);
        board.release(pass, claim);
    }
    claims.destroy_empty();
    held
}

#[test]
fn seventy_two_claims_are_released_in_either_order(rt: HostRuntime) -> Result<(), Fail> {
    let alloc = rt.alloc();
    for last_first in [false, true] {
        let (board, mut pass) = open(alloc, &[1; 72], 1)?;
        assert!(rt; hold_all(alloc, &board, &mut pass, last_first) == 72);
        let boxes = board.close(alloc, pass)?;
        assert!(rt; boxes.len() == 72 && boxes.iter().all(|lane| lane.is_finished()));
    }
    Ok(())
}
