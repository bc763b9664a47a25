//! What is fed in each round.
ghost use Rattle.std.specs.Prelude.{◌≡◌, ◌<◌, [], ◌∷◌, ◌++◌, map, length, slice_index_or, slice_set, IsTrue, OnOk, IfOk};
ghost use Rattle.std.specs.List.{All};
ghost use Rattle.exec_plan.specs.Feeding.{feeds_from};
ghost use Rattle.exec_plan.specs.Entity.{is_from_1};

use crate::plan::{Feed, Plan};
use exec_msg::{Memory, Moment};
use std::alloc::Global;
use std::marker::Model;

/// What a plan feeds, by rounds. So a round looks only at its own entries.
#[derive(Drop)]
pub struct FeedByRound {
    // The entries of each round, from the first.
    rounds: Vec<Vec<Feed>>,
}

impl Model for FeedByRound {
    ghost use Rattle.std.specs.Prelude.{List, map};
    ghost use Rattle.exec_plan.specs.Plan.{Feed};

    ghost Value = { List (List Feed) };

    ghost view = { λ index. map (λ feed. feed.items) index.rounds.items };
}

impl FeedByRound {
    ghost use Rattle.std.specs.Prelude.{◌≡◌, length, IsTrue, IfOk};
    ghost use Rattle.exec_plan.specs.Feeding.{fed_in, feeds_by_round};
    ghost use Rattle.exec_plan.specs.Entity.{is_from_1};
    ghost use Rattle.exec_plan.specs.Plan.{PlanData};

    /// What a plan feeds.
    ///
    /// # Errors
    /// [`Memory`] if a growth was refused.
    pub fn of(alloc: Global, plan: &Plan) -> Result<FeedByRound, Memory>
        ensures feed { IfOk result (λ index. index ≡ feeds_by_round plan.now) }
        ensures rounds { IfOk result (λ index. length index ≡ length plan.now.moments) }
    {
        let rounds = rounds_of(alloc, plan.moments(), plan.feed())?;
        Ok(FeedByRound { rounds })
    }

    /// How many rounds there are.
    pub fn len(&self) -> usize
        ensures { result ≡ length self.now }
    {
        self.rounds.len()
    }

    /// What is fed in a round, from 1, in the order in which it was declared.
    pub fn fed_in(&self, round: usize) -> &[Feed]
        requires { IsTrue (is_from_1 (length self.now) round) }
        ensures { (plan : PlanData) → self.now ≡ feeds_by_round plan → result.now ≡ fed_in round plan.feed }
    {
        let rounds = self.rounds.as_slice();
        rounds[round - 1].as_slice()
    }
}

fn rounds_of(alloc: Global, moments: &[Moment], feed: &[Feed]) -> Result<Vec<Vec<Feed>>, Memory>
    requires { All (λ entry. IsTrue (is_from_1 (length moments.now) entry.round)) feed.now }
    ensures { IfOk result (λ rounds. map (λ feed. feed.items) rounds.items ≡ feeds_from 1 moments.now feed.now) }
{
    let mut rounds = empty_rounds(alloc, moments)?;
    for entry in feed {
        put(&mut rounds, entry.round as usize - 1, entry)?;
    }
    Ok(rounds)
}

fn empty_rounds(alloc: Global, moments: &[Moment]) -> Result<Vec<Vec<Feed>>, Memory>
    ensures { IfOk result (λ rounds. map (λ feed. feed.items) rounds.items ≡ feeds_from 1 moments.now []) }
{
    let mut rounds = Vec::new(alloc);
    for _ in moments {
        rounds.push(Vec::new(alloc))?;
    }
    Ok(rounds)
}

fn put<T: Copy + Drop>(lists: &mut Vec<Vec<T>>, place: usize, item: &T) -> Result<(), Memory>
    requires { place < length lists.old.items }
    ensures { OnOk result (map (λ list. list.items) lists.new.items
        ≡ slice_set (map (λ list. list.items) lists.old.items) place (slice_index_or (map (λ list. list.items) lists.old.items) place [] ++ item.now ∷ [])) }
{
    lists[place].push(*item)?;
    Ok(())
}
