//! The queues of a plan's entities in ready order, found by entity and kind. A snapshot walks over those that have an item, and
//! over no other.
ghost use Rattle.std.specs.Prelude.{◌≡◌, ◌&&◌, ◌||◌, List, ◌<◌, ◌≤◌, ◌^◌, [], ◌∷◌, ◌++◌, false, true, not, None, Some, length, map, find, slice_get, vec_capacity, OnOk, OnErr, IfOk, IfSome};
ghost use Rattle.std.specs.Option.{option_copied, option_map_or, option_to_list};
ghost use Rattle.exec_msg.specs.KeepLast.{displaced};
ghost use Rattle.exec_msg.specs.Kind.{ready_number};
ghost use Rattle.exec_msg.specs.Lists.{change_first};
ghost use Rattle.exec_msg.specs.declared.limits.TheConstants.{DEPTH};
ghost use Rattle.exec_rules.specs.Item.{taker_of};
ghost use Rattle.exec_rules.specs.Ready.{first_number, item_ready, queue_taken};
ghost use Rattle.exec_rules.specs.Transcript.{no_arrivals};
ghost use Rattle.exec_rules.specs.inner.ByKind.{is_before_polls};
ghost use Rattle.exec_rules.specs.World.{Handler, Queue, is_queue, queue_after, lost_from};
ghost use Rattle.exec_rules.specs.inner.Listing.{listed_behind};
ghost use Rattle.exec_msg.specs.Places.{change_at};
ghost use Rattle.exec_rules.specs.inner.Places.{change_each, places_where};
ghost use Rattle.exec_queue.specs.inner.Numbers.{numbers_of};
ghost use Rattle.exec_queue.specs.inner.Queues.{queue_number, has_item, is_filled_at, is_in_part, noted_if};

mod entry;
mod filled;

pub use entry::EntityQueue;
use exec_msg::{EntityNo, Kind, LazyQueue, Memory, Moment, PlaceTable};
use exec_plan::Order;
use exec_rules::{Handler, Item, ReadyList};
use filled::{keep_filled, leave_part, note_filled, settle};
use std::alloc::Global;
use std::marker::Model;

/// Queues in the order in which they were declared.
#[derive(Drop)]
pub struct Queues {
    alloc: Global,
    entries: Vec<EntityQueue>,
    // By entity and kind. A round finds a queue by it, without a walk over others.
    places: PlaceTable,
    // The places of the queues that have an item, and of no other.
    filled: Vec<usize>,
    // Whether these are in ascending order.
    settled: bool,
    // Whether there is a queue of a kind after polls.
    has_late: bool,
}

impl Model for Queues {
    ghost use Rattle.std.specs.Prelude.{◌≡◌, List, true, false};
    ghost use Rattle.std.specs.List.Sorted.{IsStrictlyIncreasing};
    ghost use Rattle.exec_rules.specs.World.{Queue};
    ghost use Rattle.exec_queue.specs.inner.Queues.{FindsQueues, CoversFilled, AreFilled, AreBeforePolls, HaveTheirNumbers};

    ghost Value = { List Queue };

    ghost view = { λ queues. queues.entries.items };

    ghost invariant = { λ queues. FindsQueues queues.places queues.entries.items × CoversFilled queues.filled.items queues.entries.items
        × AreFilled queues.filled.items queues.entries.items × (queues.settled ≡ true → IsStrictlyIncreasing queues.filled.items)
        × (queues.has_late ≡ false → AreBeforePolls queues.entries.items) × HaveTheirNumbers queues.entries.items };
}

impl Queues {
    /// No queues. It takes no memory.
    pub fn new(alloc: Global) -> Queues
        ensures { result ≡ [] }
    {
        Queues {
            alloc,
            entries: Vec::new(alloc),
            places: PlaceTable::new(alloc),
            filled: Vec::new(alloc),
            settled: false,
            has_late: false,
        }
    }

    /// Declares an empty queue after the others. Its depth is 1 to [`DEPTH`](exec_msg::limits::DEPTH) items. It keeps the
    /// numbers of its items' arrivals if the order of ready callbacks needs them.
    ///
    /// # Errors
    /// [`Memory`] if a growth was refused. The queues don't change.
    pub fn declare(
        &mut self,
        handler: Handler,
        kind: Kind,
        depth: usize,
        order: Order,
    ) -> Result<(), Memory>
        requires { (1 ≤ depth) × (depth ≤ DEPTH) }
        ensures ok { OnOk result (self.new
            ≡ self.old ++ record { handler = handler; kind = kind; depth = depth; items = []; arrivals = no_arrivals order } ∷ []) }
        ensures unchanged { OnErr result (self.new ≡ self.old) }
    {
        let slot = queue_number(handler.entity, kind);
        self.places.reserve(slot)?;
        let place = count(&self.entries);
        let queue = LazyQueue::new(self.alloc, depth);
        let numbered = needs_numbers(order);
        self.settled = false;
        self.has_late = has_late_with(self.has_late, kind);
        self.entries.push(EntityQueue {
            handler,
            kind,
            numbered,
            queue,
        })?;
        self.places.note(slot, place);
        Ok(())
    }

    /// Sends an item, with the number of its arrival, to an entity's queue of its kind. Answers the item that is lost by it:
    /// the oldest one of a full queue. If there is no such queue, nothing changes. The number is read where it is kept, so that
    /// it takes no register on the way.
    ///
    /// # Errors
    /// [`Memory`] if a growth was refused. A queue that has an item needs no memory. The queues don't change.
    pub fn send(
        &mut self,
        entity: EntityNo,
        item: Item,
        number: &u64,
    ) -> Result<Option<Item>, Memory>
        ensures ok { OnOk result (self.new ≡ change_first (is_queue entity (taker_of item)) (queue_after number.now item) self.old) }
        ensures lost { IfOk result (λ lost. option_to_list lost ≡ lost_from entity item self.old) }
        ensures unchanged { OnErr result (self.new ≡ self.old) }
        ensures memory { OnErr result (option_map_or has_item (find (is_queue entity (taker_of item)) self.old) false ≡ false) }
    {
        let Some(place) = self.places.get(queue_number(entity, item.kind())) else {
            return Ok(None);
        };
        self.settled = false;
        let lost = send_at(&mut self.entries, &mut self.filled, place, item, number)?;
        Ok(lost)
    }

    /// Makes `places` those of the queues that have an item, in ascending order. Either they are the queues of the kinds before
    /// polls, or those of the kinds after them.
    ///
    /// # Errors
    /// [`Memory`] if a growth was refused. No memory is needed if the capacity has room for the places of all queues that have
    /// an item. The queues don't change. The places may have changed.
    pub fn list_filled(&mut self, before_polls: bool, places: &mut Vec<usize>) -> Result<(), Memory>
        ensures same { self.new ≡ self.old }
        ensures places { OnOk result (places.new.items ≡ places_where (λ queue. has_item queue && is_in_part before_polls queue) self.old) }
        ensures memory { OnErr result (vec_capacity places.old < length (places_where has_item self.old)) }
    {
        settle(&mut self.settled, &mut self.filled);
        places.clear();
        places.extend_from_slice(&self.filled)?;
        leave_part(places, &self.entries, self.has_late, before_polls);
        Ok(())
    }

    /// Takes the first item of each queue that has one.
    pub fn take_first(&mut self)
        ensures { self.new ≡ map queue_taken self.old }
    {
        settle(&mut self.settled, &mut self.filled);
        self.settled = false;
        take_each(&mut self.entries, &self.filled);
        // The queues whose last item was taken are no longer noted.
        keep_filled(&mut self.filled, &self.entries);
    }

    /// Lists the callback that takes from the queue at a place, if there is one and it has an item. Answers whether that is
    /// done. If the item asks about a server's goals, nothing is listed, and the answer is `false`. Most items don't ask, and
    /// are copied with one look-up.
    ///
    /// # Errors
    /// [`Memory`] if a growth was refused.
    #[inline(always)]
    pub fn list_plain(
        &self,
        alloc: Global,
        moment: Moment,
        place: usize,
        list: &mut ReadyList,
    ) -> Result<bool, Memory>
        ensures listed { IfOk result (λ done. done ≡ true → (goals : Handler → List _)
            → list.new ≡ listed_behind list.old
            (option_map_or (λ queue. item_ready moment queue.handler (goals queue.handler) queue.items) (slice_get self.now place) [])) }
        ensures left { IfOk result (λ done. done ≡ false → list.new ≡ list.old) }
    {
        match self.at(place) {
            None => Ok(true),
            Some(queue) => queue.list_plain(alloc, moment, list),
        }
    }

    /// The queue at a place.
    pub fn at(&self, place: usize) -> Option<&EntityQueue>
        ensures { option_copied result ≡ slice_get self.now place }
    {
        self.entries.get(place)
    }

    /// The number of the first arrival of an entity's queue of a kind. It is 0 if there is none.
    pub fn first_number(&self, entity: EntityNo, kind: Kind) -> u64
        ensures { result ≡ option_map_or first_number (find (is_queue entity kind) self.now) 0 }
    {
        match self.places.get(queue_number(entity, kind)) {
            None => 0,
            Some(place) => first_number_at(&self.entries, place),
        }
    }
}

fn first_number_at(entries: &[EntityQueue], place: usize) -> u64
    ensures { result ≡ option_map_or first_number (slice_get entries.now place) 0 }
{
    match entries.get(place) {
        None => 0,
        Some(entry) => entry.first_number(),
    }
}

// Whether the order of ready callbacks needs the numbers of arrivals.
fn needs_numbers(order: Order) -> bool
    ensures { numbers_of result [] ≡ no_arrivals order }
{
    match order {
        Order::Kind => false,
        Order::Arrival => true,
    }
}

// The number that a queue is found by.
fn queue_number(entity: EntityNo, kind: Kind) -> usize
    ensures value { result ≡ queue_number entity kind }
    ensures bound { result < 2 ^ 32 }
{
    entity.0 as usize * (Kind::IN_ORDER.len() + 1) + number(kind)
}

fn number(kind: Kind) -> usize
    ensures value { result ≡ ready_number kind }
    ensures bound { result ≤ 12 }
{
    kind as usize + 1
}

// Whether callbacks of a kind run before polls, or are polls.
fn is_before_polls(kind: Kind) -> bool
    ensures { result ≡ is_before_polls kind }
{
    number(kind) <= number(Kind::Poll)
}

// Whether there is a queue of a kind after polls, when one of this kind is added.
fn has_late_with(has_late: bool, kind: Kind) -> bool
    ensures { result ≡ (has_late || not (is_before_polls kind)) }
{
    has_late || !is_before_polls(kind)
}

fn count(entries: &[EntityQueue]) -> usize
    ensures { result ≡ length entries.now }
{
    entries.len()
}

// Sends an item to the queue at a place. If the queue was empty, its place is noted.
fn send_at(
    entries: &mut Vec<EntityQueue>,
    filled: &mut Vec<usize>,
    place: usize,
    item: Item,
    number: &u64,
) -> Result<Option<Item>, Memory>
    ensures ok { OnOk result (entries.new.items ≡ change_at place (queue_after number.now item) entries.old.items) }
    ensures filled { OnOk result (place < length entries.old.items → is_filled_at entries.new.items place ≡ true) }
    ensures noted { OnOk result (place < length entries.old.items
        → filled.new.items ≡ noted_if (is_filled_at entries.old.items place) place filled.old.items) }
    ensures lost { IfOk result (λ lost. lost
        ≡ option_map_or (λ queue. slice_get (displaced queue.depth item queue.items) 0) (slice_get entries.old.items place) None) }
    ensures bound { IfSome (slice_get entries.old.items place) (λ queue. length queue.items ≤ queue.depth) }
    ensures unchanged { OnErr result (entries.new.items ≡ entries.old.items) }
    ensures same { OnErr result (filled.new.items ≡ filled.old.items) }
    ensures memory { OnErr result (is_filled_at entries.old.items place ≡ false) }
{
    match entries.get_mut(place) {
        None => Ok(None),
        Some(entry) => {
            let lost = send_to(entry, filled, place, item, number)?;
            Ok(lost)
        }
    }
}

// Sends an item to the queue that is at a place. If the queue was empty, its place is noted.
fn send_to(
    entry: &mut EntityQueue,
    filled: &mut Vec<usize>,
    place: usize,
    item: Item,
    number: &u64,
) -> Result<Option<Item>, Memory>
    ensures ok { OnOk result (entry.new ≡ queue_after number.now item entry.old) }
    ensures has { OnOk result (has_item entry.new ≡ true) }
    ensures noted { OnOk result (filled.new.items ≡ noted_if (has_item entry.old) place filled.old.items) }
    ensures lost { IfOk result (λ lost. lost ≡ slice_get (displaced entry.old.depth item entry.old.items) 0) }
    ensures bound { length entry.old.items ≤ entry.old.depth }
    ensures unchanged { OnErr result (entry.new ≡ entry.old) }
    ensures same { OnErr result (filled.new.items ≡ filled.old.items) }
    ensures memory { OnErr result (has_item entry.old ≡ false) }
{
    note_filled(filled, entry, place)?;
    match entry.send(item, number) {
        Ok(lost) => Ok(lost),
        Err(refused) => {
            // The queue is still empty, and its place is the last one.
            filled.pop();
            Err(refused)
        }
    }
}

fn take_at(entries: &mut Vec<EntityQueue>, place: usize)
    ensures { entries.new.items ≡ change_at place queue_taken entries.old.items }
{
    if let Some(entry) = entries.get_mut(place) {
        entry.take();
    }
}

fn take_each(entries: &mut Vec<EntityQueue>, places: &[usize])
    ensures { entries.new.items ≡ change_each places.now queue_taken entries.old.items }
{
    for &place in places {
        take_at(entries, place);
    }
}
