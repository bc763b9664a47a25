//! Callbacks that take the oldest items of queues.
use crate::taken::listed_for_item;
use exec_entity::Servers;
use exec_msg::{Memory, Moment};
use exec_queue::Queues;
use exec_rules::ReadyList;
use std::alloc::Global;

// What a snapshot at a moment looks at to list the callbacks that take from queues.
#[derive(Drop)]
pub(crate) struct Fronts<'a> {
    pub(crate) alloc: Global,
    pub(crate) moment: Moment,
    pub(crate) servers: &'a Servers,
}

impl<'a> Fronts<'a> {
    ghost use Rattle.std.specs.Prelude.{◌≡◌, OnOk};
    ghost use Rattle.exec_rules.specs.inner.Listing.{listed_behind};
    ghost use Rattle.exec_world.specs.inner.Snapshots.{front_at, fronts_at};

    // Lists the callbacks that take from the queues at these places.
    pub(crate) fn list_all(
        &self,
        places: &[usize],
        queues: &Queues,
        list: &mut ReadyList,
    ) -> Result<(), Memory>
        ensures { OnOk result (list.new ≡ listed_behind list.old (fronts_at self.now.moment self.now.servers.now queues.now places.now)) }
    {
        for place in places {
            self.list(*place, queues, list)?;
        }
        Ok(())
    }

    // Lists the callback that takes from the queue at a place, if there is one and it has an item.
    #[inline(always)]
    fn list(&self, place: usize, queues: &Queues, list: &mut ReadyList) -> Result<(), Memory>
        ensures { OnOk result (list.new ≡ listed_behind list.old (front_at self.now.moment self.now.servers.now queues.now place)) }
    {
        if queues.list_plain(self.alloc, self.moment, place, list)? {
            return Ok(());
        }
        self.list_served(place, queues, list)
    }

    // The same if the callback may ask about a server's goals.
    fn list_served(&self, place: usize, queues: &Queues, list: &mut ReadyList) -> Result<(), Memory>
        ensures { OnOk result (list.new ≡ listed_behind list.old (front_at self.now.moment self.now.servers.now queues.now place)) }
    {
        let Some(queue) = queues.at(place) else {
            return Ok(());
        };
        let Some(item) = queue.front() else {
            return Ok(());
        };
        let handler = queue.handler();
        let server = self.servers.find(handler.entity);
        list.push(listed_for_item(self.alloc, self.moment, handler, server, item)?)
    }
}
