use exec_entity::Servers;
use exec_msg::{EntityNo, Line, Lines, Memory, Moment, number_after};
use exec_plan::Order;
use exec_queue::Queues;
use exec_rules::Item;
use std::marker::Model;

// What callbacks send goes here: to the queues of entities, and to the lines of the transcript. It also has the order of ready
// callbacks, and the number of the last arrival. That is below 2^60, and 0 under the order of kinds.
#[derive(Drop)]
pub(crate) struct Mail<L: Lines> {
    order: Order,
    arrivals: u64,
    queues: Queues,
    lines: L,
}

impl<L: Lines> Model for Mail<L> {
    ghost use Rattle.exec_world.specs.inner.Mail.{MailState, CountsUnder};

    ghost Value = { MailState };

    ghost view = { λ mail. record { order = mail.order; arrivals = mail.arrivals; queues = mail.queues; lines = L.lines mail.lines } };

    ghost invariant = { λ mail. CountsUnder mail.order mail.arrivals };
}

impl<L: Lines> Mail<L> {
    ghost use Rattle.std.specs.Prelude.{◌≡◌, ◌+◌, ◌^◌, ◌≤◌, ◌++◌, ◌&&◌, map, IfOk, OnErr, OnOk};
    ghost use Rattle.std.specs.Option.{option_to_list};
    ghost use Rattle.exec_rules.specs.World.{drop_line};
    ghost use Rattle.exec_rules.specs.Ready.{queue_taken};
    ghost use Rattle.exec_rules.specs.Transcript.{expire_lines, server_expired};
    ghost use Rattle.std.specs.List.{flat_map};
    ghost use Rattle.exec_rules.specs.inner.Places.{places_where};
    ghost use Rattle.exec_queue.specs.inner.Queues.{has_item, is_in_part};
    ghost use Rattle.exec_world.specs.inner.Mail.{next_number, with_line, with_next, sent_to, sent_to_each};

    // Empty queues under an order, and what lines go to.
    pub(crate) fn new(order: Order, queues: Queues, lines: L) -> Mail<L>
        ensures { result ≡ record { order = order; arrivals = 0; queues = queues; lines = L.lines lines } }
    {
        Mail {
            order,
            arrivals: 0,
            queues,
            lines,
        }
    }

    // The order in which ready callbacks run.
    #[inline(always)]
    pub(crate) fn order(&self) -> Order
        ensures { result ≡ self.now.order }
    {
        self.order
    }

    // Counts one more arrival. Under the order of kinds none is counted, and nothing is written. It answers Memory if the number isn't
    // below 2^60, and no run of a lawful plan gets there (law `numbers_stay_below_their_limit`).
    #[inline(always)]
    fn count_arrival(&mut self) -> Result<(), Memory>
        ensures counted { OnOk result (self.new ≡ with_next self.old) }
        ensures memory { OnErr result (2 ^ 60 ≤ self.old.arrivals + 1) }
    {
        if let Order::Arrival = self.order {
            self.arrivals = number_after(self.arrivals)?;
        }
        Ok(())
    }

    // Counts one more arrival, and answers its number.
    pub(crate) fn arrive(&mut self) -> Result<u64, Memory>
        ensures number { IfOk result (λ number. number ≡ next_number self.old) }
        ensures counted { OnOk result (self.new ≡ with_next self.old) }
        ensures memory { OnErr result (2 ^ 60 ≤ self.old.arrivals + 1) }
    {
        self.count_arrival()?;
        Ok(self.arrivals)
    }

    // What the lines go to.
    pub(crate) fn lines(&self) -> &L
        ensures { L.lines result.now ≡ self.now.lines }
    {
        &self.lines
    }

    // What the lines went to.
    pub(crate) fn into_lines(self) -> L
        ensures { L.lines result ≡ self.lines }
    {
        self.lines
    }

    // The queues.
    pub(crate) fn queues(&self) -> &Queues
        ensures { result.now ≡ self.now.queues }
    {
        &self.queues
    }

    // Makes `places` those of the queues that have an item, in ascending order. Either they are the queues of the kinds before
    // polls, or those of the kinds after them.
    pub(crate) fn list_filled(
        &mut self,
        before_polls: bool,
        places: &mut Vec<usize>,
    ) -> Result<(), Memory>
        ensures same { self.new ≡ self.old }
        ensures places { OnOk result (places.new.items ≡ places_where (λ queue. has_item queue && is_in_part before_polls queue) self.old.queues) }
    {
        self.queues.list_filled(before_polls, places)
    }

    // Takes the first item of each queue that has one.
    pub(crate) fn take_first(&mut self)
        ensures { self.new ≡ record self.old { queues = map queue_taken self.old.queues } }
    {
        self.queues.take_first();
    }

    // Adds a line. It is inlined into what makes the line. A line that is handed on would be copied as a whole just after it
    // was made, and a processor waits for that.
    #[inline(always)]
    pub(crate) fn add_line(&mut self, line: Line) -> Result<(), Memory>
        ensures { OnOk result (self.new ≡ with_line line self.old) }
    {
        self.lines.add(&line)
    }

    // Servers forget the goals whose results they keep no longer at a moment, server by server. Each leaves its line.
    pub(crate) fn expire(&mut self, moment: Moment, servers: &mut Servers) -> Result<(), Memory>
        ensures servers { OnOk result (servers.new ≡ map (server_expired moment) servers.old) }
        ensures lines { OnOk result (self.new ≡ record self.old { lines = self.old.lines ++ flat_map (expire_lines moment) servers.old }) }
    {
        servers.expire(moment, &mut self.lines)
    }

    // Sends an item to an entity, which is an arrival. What its queue loses by it is dropped with a line.
    pub(crate) fn send(&mut self, entity: EntityNo, item: Item) -> Result<(), Memory>
        ensures { OnOk result (self.new ≡ sent_to entity item self.old) }
    {
        self.count_arrival()?;
        let lost = self.queues.send(entity, item, &self.arrivals)?;
        self.add_lost(entity, lost)
    }

    fn add_lost(&mut self, entity: EntityNo, lost: Option<Item>) -> Result<(), Memory>
        ensures { OnOk result (self.new ≡ record self.old { lines = self.old.lines ++ map (drop_line entity) (option_to_list lost) }) }
    {
        if let Some(item) = lost {
            self.add_line(Line::Drop {
                entity,
                kind: item.kind(),
                input: item.first(),
            })?;
        }
        Ok(())
    }

    // Sends an item to each of these entities, in their order.
    pub(crate) fn send_each(&mut self, entities: &[EntityNo], item: &Item) -> Result<(), Memory>
        ensures { OnOk result (self.new ≡ sent_to_each entities.now item.now self.old) }
    {
        for entity in entities {
            self.send(*entity, *item)?;
        }
        Ok(())
    }
}
