//! The places of the queues that have an item.
ghost use Rattle.std.specs.Prelude.{◌≡◌, ◌&&◌, ℕ, ◌≤◌, false, true, length, OnOk, OnErr};
ghost use Rattle.std.specs.List.{Contains, filter};
ghost use Rattle.std.specs.List.Sorted.{IsPermutation, IsSorted, IsStrictlyIncreasing};
ghost use Rattle.std.specs.Ordering.{nat_cmp};
ghost use Rattle.exec_rules.specs.inner.Places.{places_where};
ghost use Rattle.exec_queue.specs.inner.Queues.{AreBeforePolls, has_item, is_filled_at, is_in_part, is_in_part_at, noted_if};

use super::entry::EntityQueue;
use exec_msg::Memory;

fn is_filled(entries: &[EntityQueue], place: usize) -> bool
    ensures { result ≡ is_filled_at entries.now place }
{
    match entries.get(place) {
        None => false,
        Some(entry) => !entry.is_empty(),
    }
}

// Notes the place of a queue if it is empty. An item is about to be put into it.
pub(super) fn note_filled(
    filled: &mut Vec<usize>,
    queue: &EntityQueue,
    place: usize,
) -> Result<(), Memory>
    ensures noted { OnOk result (filled.new.items ≡ noted_if (has_item queue.now) place filled.old.items) }
    ensures unchanged { OnErr result (filled.new.items ≡ filled.old.items) }
    ensures memory { OnErr result (has_item queue.now ≡ false) }
    ensures bound { length queue.now.items ≤ queue.now.depth }
{
    if queue.is_empty() {
        filled.push(place)?;
    }
    Ok(())
}

// Puts the places in ascending order, each once, if they aren't so yet.
pub(super) fn settle(settled: &mut bool, places: &mut Vec<usize>)
    requires { settled.old ≡ true → IsStrictlyIncreasing places.old.items }
    ensures rises { IsStrictlyIncreasing places.new.items }
    ensures keeps { (place : ℕ) → Contains places.old.items place → Contains places.new.items place }
    ensures only { (place : ℕ) → Contains places.new.items place → Contains places.old.items place }
{
    if !*settled {
        sort_places(places);
        *settled = true;
    }
}

// Keeps the places of queues that have an item.
pub(super) fn keep_filled(places: &mut Vec<usize>, entries: &[EntityQueue])
    ensures { places.new.items ≡ filter (λ place. is_filled_at entries.now place) places.old.items }
{
    places.retain(|place| is_filled(entries, *place));
}

fn sort_places(places: &mut Vec<usize>)
    ensures rises { IsStrictlyIncreasing places.new.items }
    ensures keeps { (place : ℕ) → Contains places.old.items place → Contains places.new.items place }
    ensures only { (place : ℕ) → Contains places.new.items place → Contains places.old.items place }
{
    sort(places);
    places.dedup();
}

// Callbacks run in ready order, so the places rise in a few long runs. If there is memory for it, these are merged.
fn sort(places: &mut Vec<usize>)
    ensures sorted { IsSorted nat_cmp places.new.items }
    ensures permutation { IsPermutation places.old.items places.new.items }
{
    if places.sort().is_err() {
        places.sort_unstable();
    }
}

// Keeps the places of the queues of one part that have an item. If there is no queue of a kind after polls, it looks at none.
pub(super) fn leave_part(
    places: &mut Vec<usize>,
    entries: &[EntityQueue],
    has_late: bool,
    before_polls: bool,
)
    requires filled { places.old.items ≡ places_where has_item entries.now }
    requires late { has_late ≡ false → AreBeforePolls entries.now }
    ensures { places.new.items ≡ places_where (λ queue. has_item queue && is_in_part before_polls queue) entries.now }
{
    if has_late {
        keep_part(places, entries, before_polls);
    } else if !before_polls {
        places.clear();
    }
}

// Keeps the places of the queues of one part.
fn keep_part(places: &mut Vec<usize>, entries: &[EntityQueue], before_polls: bool)
    ensures { places.new.items ≡ filter (λ place. is_in_part_at before_polls entries.now place) places.old.items }
{
    places.retain(|place| is_in_part(entries, *place, before_polls));
}

fn is_in_part(entries: &[EntityQueue], place: usize, before_polls: bool) -> bool
    ensures { result ≡ is_in_part_at before_polls entries.now place }
{
    match entries.get(place) {
        None => false,
        Some(entry) => entry.is_before_polls() == before_polls,
    }
}
