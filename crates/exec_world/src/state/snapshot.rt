//! The snapshot of a round.
ghost use Rattle.std.specs.Prelude.{◌≡◌};
ghost use Rattle.exec_world.specs.inner.Snapshots.{replies_at, with_reply_at};

use super::WorldBody;
use crate::fronts::Fronts;
use crate::scratch::Scratch;
use exec_entity::Clients;
use exec_msg::{Lines, Memory, Moment};
use exec_queue::{Queues, take_due_into};
use exec_rules::Item;

impl<L: Lines> WorldBody<L> {
    ghost use Rattle.std.specs.Prelude.{◌≡◌, map, OnOk};
    ghost use Rattle.std.specs.List.{flat_map};
    ghost use Rattle.exec_rules.specs.Ready.{queue_ready, queue_taken};
    ghost use Rattle.exec_rules.specs.inner.Listing.{listed_behind};
    ghost use Rattle.exec_world.specs.inner.Snapshots.{IsListed, filled_places, queues_in_part};

    // Lists the callbacks that are ready at a moment and no polls, and the goals that are awake. Queues still have their first
    // items.
    pub(super) fn list_in_parts(
        &mut self,
        moment: Moment,
        scratch: &mut Scratch,
    ) -> Result<(), Memory>
        ensures { OnOk result (IsListed moment self.old scratch.new.before self.new scratch.new.list scratch.new.goals.items) }
    {
        scratch.list.clear();
        take_due_into(self.alloc, &mut self.timers, moment, &mut scratch.list)?;
        self.list_queues(true, moment, scratch)?;
        answer_calls(&mut self.clients, self.mail.queues(), &scratch.places);
        let before = scratch.list.as_slice().len();
        self.list_queues(false, moment, scratch)?;
        self.servers.awake_goals(moment, &mut scratch.goals)?;
        scratch.before = before;
        Ok(())
    }

    // Takes the first item of each queue that has one.
    pub(super) fn take_first(&mut self)
        ensures { self.new ≡ record self.old { queues = map queue_taken self.old.queues } }
    {
        self.mail.take_first();
    }

    // Lists the callbacks that take from the queues of kinds before polls, or of the other kinds. The places are then those of
    // the queues with an item.
    fn list_queues(
        &mut self,
        before_polls: bool,
        moment: Moment,
        scratch: &mut Scratch,
    ) -> Result<(), Memory>
        ensures list { OnOk result (scratch.new.list
            ≡ listed_behind scratch.old.list (flat_map (queue_ready moment self.old) (queues_in_part before_polls self.old))) }
        ensures places { OnOk result (scratch.new.places.items ≡ filled_places before_polls self.old.queues) }
        ensures same { self.new ≡ self.old }
    {
        self.mail.list_filled(before_polls, &mut scratch.places)?;
        let fronts = Fronts {
            alloc: self.alloc,
            moment,
            servers: &self.servers,
        };
        fronts.list_all(&scratch.places, self.mail.queues(), &mut scratch.list)
    }
}

// Gives calls the replies that are the oldest items of the queues at these places. If there is no client, it looks at no queue.
fn answer_calls(clients: &mut Clients, queues: &Queues, places: &[usize])
    ensures { clients.new ≡ replies_at queues.now clients.old places.now }
{
    if clients.as_slice().is_empty() {
        return;
    }
    for place in places {
        answer_call(clients, queues, *place);
    }
}

// Gives a call the reply that is the oldest item of the queue at a place, if it is one.
fn answer_call(clients: &mut Clients, queues: &Queues, place: usize)
    ensures { clients.new ≡ with_reply_at queues.now clients.old place }
{
    let Some(queue) = queues.at(place) else {
        return;
    };
    if let Some(Item::Reply { number, value }) = queue.front() {
        let _answered = clients.complete(queue.handler().entity, number, value);
    }
}
