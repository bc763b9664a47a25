ghost use Rattle.std.specs.Prelude.{◌≡◌, ◌==◌, ◌≤◌, List, [], Some, false, true, if◌then◌else◌, length, slice_get, OnOk, OnErr, IfOk};
ghost use Rattle.exec_msg.specs.KeepLast.{displaced};
ghost use Rattle.exec_script.specs.Instruction.{Script};
ghost use Rattle.exec_rules.specs.Ready.{candidates_for, first_number, item_ready, queue_taken, script_to_take};
ghost use Rattle.exec_rules.specs.inner.ByKind.{is_before_polls};
ghost use Rattle.exec_rules.specs.World.{queue_after};
ghost use Rattle.std.specs.Option.{option_copied, option_map};
ghost use Rattle.exec_rules.specs.inner.Listing.{listed_behind};
ghost use Rattle.exec_queue.specs.inner.Queues.{has_item};
ghost use Rattle.exec_queue.specs.inner.Numbers.{items_of};

use super::is_before_polls;
use exec_msg::{Elements, Kind, LazyQueue, Memory, Moment};
use exec_rules::{Cause, Handler, Item, ReadyList};
use std::alloc::Global;
use std::marker::Model;

// An item that was sent, with the number of its arrival.
#[derive(Clone, Copy)]
pub(super) struct Sent {
    item: Item,
    number: u64,
}

/// The queue of an entity from which its callback of a kind takes.
#[derive(Drop)]
pub struct EntityQueue {
    pub(super) handler: Handler,
    pub(super) kind: Kind,
    // Whether the order of ready callbacks needs the numbers. If not, they say nothing.
    pub(super) numbered: bool,
    pub(super) queue: LazyQueue<Sent>,
}

impl Model for EntityQueue {
    ghost use Rattle.std.specs.Prelude.{◌≤◌};
    ghost use Rattle.exec_rules.specs.World.{Queue};
    ghost use Rattle.exec_queue.specs.inner.Numbers.{items_of, numbers_of};

    ghost Value = { Queue };

    ghost view = { λ entry. record {
      handler = entry.handler;
      kind = entry.kind;
      depth = entry.queue.depth;
      items = items_of entry.queue.items;
      arrivals = numbers_of entry.numbered entry.queue.items;
    } };

    ghost invariant = { λ entry. 1 ≤ entry.queue.depth };
}

impl EntityQueue {
    #[tactic(auto, using(crate::proofs::Numbered::items_sent, crate::proofs::Numbered::numbers_sent))]
    pub(super) fn send(&mut self, item: Item, number: &u64) -> Result<Option<Item>, Memory>
        ensures ok { OnOk result (self.new ≡ queue_after number.now item self.old) }
        ensures has { OnOk result (has_item self.new ≡ true) }
        ensures lost { IfOk result (λ lost. lost ≡ slice_get (displaced self.old.depth item self.old.items) 0) }
        ensures unchanged { OnErr result (self.new ≡ self.old) }
        ensures memory { OnErr result (has_item self.old ≡ false) }
    {
        let lost = self.queue.send(Sent {
            item,
            number: *number,
        })?;
        Ok(item_of(lost))
    }

    pub(super) fn take(&mut self)
        ensures { self.new ≡ queue_taken self.old }
    {
        self.queue.take();
    }

    // The number of the first item's arrival, and 0 if there is none.
    #[tactic(auto, using(crate::proofs::Numbered::first_kept))]
    pub(super) fn first_number(&self) -> u64
        ensures { result ≡ first_number self.now }
    {
        match self.queue.front() {
            None => 0,
            Some(first) => kept_number(self.numbered, first.number),
        }
    }

    /// Its oldest item.
    pub fn front(&self) -> Option<Item>
        ensures { result ≡ slice_get self.now.items 0 }
    {
        match front_of(&self.queue) {
            None => None,
            Some(item) => Some(*item),
        }
    }

    pub(super) fn is_empty(&self) -> bool
        ensures value { result ≡ (length self.now.items == 0) }
        ensures bound { length self.now.items ≤ self.now.depth }
    {
        self.queue.len() == 0
    }

    /// Whose callback takes from it.
    pub fn handler(&self) -> &Handler
        ensures { result.now ≡ self.now.handler }
    {
        &self.handler
    }

    // Lists the callback that takes its first item, if there is one. Answers whether that is done. If the item asks about
    // a server's goals, nothing is listed, and the answer is `false`.
    #[inline(always)]
    pub(super) fn list_plain(
        &self,
        alloc: Global,
        moment: Moment,
        list: &mut ReadyList,
    ) -> Result<bool, Memory>
        ensures listed { IfOk result (λ done. done ≡ true → (goals : List _)
            → list.new ≡ listed_behind list.old (item_ready moment self.now.handler goals self.now.items)) }
        ensures left { IfOk result (λ done. done ≡ false → list.new ≡ list.old) }
    {
        let Some(item) = front_of(&self.queue) else {
            return Ok(true);
        };
        if asks_server(item) {
            return Ok(false);
        }
        list.push(
            self.handler
                .listed(moment, Cause::Took(*item), Elements::new(alloc), true),
        )?;
        Ok(true)
    }

    pub(super) fn is_before_polls(&self) -> bool
        ensures { result ≡ is_before_polls self.now.kind }
    {
        is_before_polls(self.kind)
    }
}

// Whether the callback that takes an item depends on a server's goals, or runs no script.
#[inline(always)]
fn asks_server(item: &Item) -> bool
    ensures script { result ≡ false → (goals : List _) → (script : Script) → script_to_take item.now goals script ≡ Some script }
    ensures candidates { result ≡ false → (goals : List _) → candidates_for item.now goals ≡ [] }
{
    match item {
        Item::Goal { .. } | Item::Cancel { .. } | Item::Ask { .. } => true,
        Item::Message { .. }
        | Item::Request { .. }
        | Item::Reply { .. }
        | Item::Response { .. }
        | Item::Code { .. }
        | Item::Feedback { .. }
        | Item::Result { .. } => false,
    }
}

// The oldest item of a ring.
#[inline(always)]
fn front_of(ring: &LazyQueue<Sent>) -> Option<&Item>
    ensures { option_copied result ≡ slice_get (items_of ring.now.items) 0 }
{
    match ring.front() {
        None => None,
        Some(first) => Some(&first.item),
    }
}

// The item of what was sent.
#[inline(always)]
fn item_of(sent: Option<Sent>) -> Option<Item>
    ensures { result ≡ option_map (λ one. one.item) sent }
{
    match sent {
        None => None,
        Some(one) => Some(one.item),
    }
}

// A number if numbers are kept, and else 0.
fn kept_number(numbered: bool, number: u64) -> u64
    ensures { result ≡ (if numbered then number else 0) }
{
    if numbered { number } else { 0 }
}
