//! What is asked of moments and of what is fed at them.
ghost use Rattle.std.specs.Prelude.{◌≡◌, true, None, Some, map, nat_le};
ghost use Rattle.std.specs.List.{list_all};
ghost use Rattle.exec_plan.specs.Feeding.{has_128_bits};
ghost use Rattle.exec_plan.specs.Entity.{is_from_1};
ghost use Rattle.exec_plan.specs.Lawful.{is_ascending_from};
ghost use Rattle.exec_plan.specs.Schedule.{schedule_fits, numbers_fit, greatest_stamp, stamp_of, is_in_order, is_identified, plan_fault_in};
ghost use Rattle.exec_msg.specs.declared.limits.TheConstants.{TICKS};

use crate::fault::PlanFault;
use crate::plan::{Fed, FedOf, Feed, FeedOf};
use exec_msg::Moment;
use exec_msg::limits::{FEED, MOMENTS, TICKS};

/// Whether moments in ticks, the number of entries of a feed, and the greatest stamp in it are within their limits. The stamp
/// is 0 if there is none.
pub fn schedule_fits(ticks: &[u64], entries: usize, stamp: u64) -> bool
    ensures { result ≡ schedule_fits ticks.now entries stamp }
{
    numbers_fit(ticks.len(), entries, stamp) && are_within(ticks)
}

fn numbers_fit(moments: usize, entries: usize, stamp: u64) -> bool
    ensures { result ≡ numbers_fit moments entries stamp }
{
    moments <= MOMENTS && entries <= FEED && stamp <= TICKS
}

fn are_within(ticks: &[u64]) -> bool
    ensures { result ≡ list_all (λ moment. nat_le moment TICKS) ticks.now }
{
    ticks.iter().all(|moment| *moment <= TICKS)
}

// The least fault of moments and of what is fed at them. No moment is beyond its limit, because its type doesn't allow it.
#[tactic(auto, using(crate::proofs::Scheduled::moments_fit))]
pub(crate) fn fault_of(moments: &[Moment], feed: &[Feed]) -> Option<PlanFault>
    ensures fault { result ≡ plan_fault_in moments.now feed.now }
    ensures bits { result ≡ None → list_all (λ entry. has_128_bits entry.fed) feed.now ≡ true }
{
    let ordered = is_in_order(moments, feed);
    if !numbers_fit(moments.len(), feed.len(), greatest_stamp(feed)) {
        return Some(PlanFault::Limit);
    }
    if !ordered {
        return Some(PlanFault::Clock);
    }
    if !are_identified(feed) {
        return Some(PlanFault::Id);
    }
    None
}

#[tactic(auto, using(crate::proofs::Scheduled::in_order))]
fn is_in_order(moments: &[Moment], feed: &[Feed]) -> bool
    ensures order { result ≡ is_in_order moments.now (map (λ entry. entry.round) feed.now) }
    ensures bound { list_all (λ moment. nat_le moment TICKS) moments.now ≡ true }
{
    is_ascending(moments) && are_rounds(feed, moments.len())
}

/// The greatest stamp of a feed, or 0 if there is none.
pub fn greatest_stamp<N, I>(feed: &[FeedOf<N, I>]) -> u64
    ensures { result ≡ greatest_stamp feed.now }
{
    let mut greatest = 0;
    for entry in feed {
        greatest = greatest.max(stamp_of(&entry.fed));
    }
    greatest
}

fn stamp_of<N, I>(fed: &FedOf<N, I>) -> u64
    ensures { result ≡ stamp_of fed.now }
{
    match fed {
        FedOf::Cancel { stamp, .. } => *stamp,
        _ => 0,
    }
}

// If they aren't, the walk goes on. So the proof knows of each moment that it is within its limit.
fn is_ascending(moments: &[Moment]) -> bool
    ensures order { result ≡ is_ascending_from 0 moments.now }
    ensures bound { list_all (λ moment. nat_le moment TICKS) moments.now ≡ true }
{
    let mut ascending = true;
    let mut least = 0;
    for moment in moments {
        let ticks = moment.ticks();
        ascending = ascending && least <= ticks;
        least = ticks;
    }
    ascending
}

fn are_rounds(feed: &[Feed], most: usize) -> bool
    ensures { result ≡ list_all (λ entry. is_from_1 most entry.round) feed.now }
{
    feed.iter().all(|entry| is_round(entry, most))
}

fn is_round(entry: &Feed, most: usize) -> bool
    ensures { result ≡ is_from_1 most entry.now.round }
{
    entry.round >= 1 && entry.round <= most as u64
}

fn are_identified(feed: &[Feed]) -> bool
    ensures identified { result ≡ list_all (λ entry. is_identified Some entry.fed) feed.now }
    ensures bits { result ≡ true → list_all (λ entry. has_128_bits entry.fed) feed.now ≡ true }
{
    for entry in feed {
        if !is_identified(entry) {
            return false;
        }
    }
    true
}

fn is_identified(entry: &Feed) -> bool
    ensures identified { result ≡ is_identified Some entry.now.fed }
    ensures bits { has_128_bits entry.now.fed ≡ true }
{
    match entry.fed {
        Fed::Message { .. } => true,
        Fed::Goal { id, .. } => id.number() >= 1,
        // A cancel request may have any identifier. The comparison always holds, and lets the proof know that the identifier
        // has 128 bits.
        Fed::Cancel { id, .. } => id.number() <= u128::MAX,
    }
}
