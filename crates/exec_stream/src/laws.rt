//! What is put into a queue of outcomes, and what comes out of it.
ghost use Rattle.std.specs.Prelude.{◌≡◌, ◌<◌, ◌≤◌, List, ◌++◌, IfOk, MatchOption, MatchResult, IsPermutation};
ghost use Rattle.crossbeam_queue.specs.Passes.{IsPassOf, ruled_capacity, view};
ghost use Rattle.exec_stream.specs.Outcomes.{Hand, WasHeld, WasHolding, all_parts, first_hand, having_put, having_taken, joined_hands, kept_hand, new_hand};
ghost use Rattle.exec_lane.specs.declared.outcome.Outcome.{Outcome};

use crate::outcomes::{Putting, QueueJoin, QueueSplit, Taking};
pub use crate::outcomes::{OutcomePass, OutcomeQueue};
use exec_lane::Outcome;
use exec_msg::Memory;
use std::alloc::Global;
use std::sync::Wait;

/// A queue that is empty, for at most `capacity` outcomes at a time, 1 or more, and its first pass. Nothing was put or taken
/// with that pass.
///
/// # Errors
/// [`Memory`] if a growth was refused.
pub fn outcome_queue(alloc: Global, capacity: usize) -> Result<(OutcomeQueue, OutcomePass), Memory>
    requires { 0 < capacity }
    ensures queue { IfOk result (λ made. IsPassOf made.0 made.1 × (ruled_capacity made.0 ≡ capacity)) }
    ensures first { IfOk result (λ made. view made.1 ≡ first_hand) }
{
    Ok(OutcomeQueue::ruled(alloc, capacity)?)
}

/// Puts an outcome into the queue.
///
/// # Errors
/// The outcome comes back if the queue was full at a moment of the call.
pub fn put_outcome<R: Wait>(
    rt: &R,
    queue: &OutcomeQueue,
    pass: &mut OutcomePass,
    outcome: Outcome,
) -> Result<(), Outcome>
    requires queue { IsPassOf queue.now pass.old }
    requires parts { 0 < (view pass.old).parts }
    ensures queue { IsPassOf queue.now pass.new }
    ensures put { MatchResult result (λ _. view pass.new ≡ having_put outcome (view pass.old))
        (λ back. (back ≡ outcome) × (view pass.new ≡ view pass.old) × WasHolding (ruled_capacity queue.now) (view pass.old)) }
{
    queue.push_as::<Putting, R>(rt, pass, outcome)
}

/// Takes an outcome that was put. There is none if the queue was empty at a moment of the call.
pub fn take_outcome<R: Wait>(
    rt: &R,
    queue: &OutcomeQueue,
    pass: &mut OutcomePass,
) -> Option<Outcome>
    requires queue { IsPassOf queue.now pass.old }
    requires parts { 0 < (view pass.old).parts }
    ensures queue { IsPassOf queue.now pass.new }
    ensures taken { MatchOption result ((view pass.new ≡ view pass.old) × WasHolding 0 (view pass.old))
        (λ outcome. view pass.new ≡ having_taken outcome (view pass.old)) }
{
    queue.pop_as::<Taking, R>(rt, pass)
}

/// Splits a pass, so that two callers may go on at once. The pass keeps what it put and took, and half of its parts, rounded
/// down. The other one has the rest of the parts.
pub fn split_pass(queue: &OutcomeQueue, pass: &mut OutcomePass) -> OutcomePass
    requires queue { IsPassOf queue.now pass.old }
    requires parts { 2 ≤ (view pass.old).parts }
    ensures queue { IsPassOf queue.now pass.new × IsPassOf queue.now result }
    ensures kept { view pass.new ≡ kept_hand (view pass.old) }
    ensures other { view result ≡ new_hand (view pass.old) }
{
    queue.another::<QueueSplit>(pass)
}

/// Joins a pass to another. What it put and took is listed after what the other did.
pub fn join_pass(queue: &OutcomeQueue, pass: &mut OutcomePass, other: OutcomePass)
    requires queue { IsPassOf queue.now pass.old × IsPassOf queue.now other }
    requires parts { 0 < (view pass.old).parts }
    ensures queue { IsPassOf queue.now pass.new }
    ensures joined { view pass.new ≡ joined_hands (view pass.old) (view other) }
{
    queue.absorb::<QueueJoin>(pass, other);
}

/// The pass that has all parts is the last one. So what it put is what it took and what the queue held.
pub fn the_last_pass_knows_what_the_queue_held()
    ensures held { (hand : Hand) (items : List Outcome) → hand.parts ≡ all_parts → WasHeld hand items → IsPermutation hand.put (hand.took ++ items) }
    ensures empty { (hand : Hand) → hand.parts ≡ all_parts → WasHolding 0 hand → IsPermutation hand.put hand.took }
{}
