//! The ready list that is handed out.
ghost use Rattle.std.specs.Prelude.{◌≡◌, ◌≤◌, length, IfOk, OnOk};
ghost use Rattle.exec_rules.specs.Ready.{placed_from};
ghost use Rattle.exec_world.specs.inner.Arrivals.{callback_at, callbacks_at};
ghost use Rattle.exec_world.specs.inner.Snapshots.{in_parts, placed_behind, with_polls};

use super::WorldBody;
use super::round::Round;
use crate::scratch::Scratch;
use crate::scripts::{push_listed, push_polls};
use exec_msg::{Lines, Memory};
use exec_plan::Order;
use exec_rules::Ready;
use std::alloc::Global;

impl<L: Lines> WorldBody<L> {
    ghost use Rattle.std.specs.Prelude.{◌≡◌, ◌≤◌, length, map, IfOk, OnOk};
    ghost use Rattle.exec_rules.specs.Ready.{queue_taken};
    ghost use Rattle.exec_rules.specs.World.{WorldState};
    ghost use Rattle.exec_world.specs.inner.Snapshots.{HaveScriptsOf, IsListed, listed_in};

    // Takes the first item of each queue that has one. Answers what a snapshot listed in a round, and the polls, in ready order.
    // Each callback has a share in its script.
    pub(super) fn hand_out(
        &mut self,
        round: &Round<'_>,
        scratch: &mut Scratch,
    ) -> Result<Vec<Ready>, Memory>
        requires { scratch.old.before ≤ length scratch.old.list }
        ensures list { IfOk result (λ list. (world : WorldState) → HaveScriptsOf round.now.graph.now world
            → IsListed round.now.moment world scratch.old.before self.old scratch.old.list scratch.old.goals.items
            → list.items ≡ listed_in round.now.moment world) }
        ensures taken { OnOk result (self.new ≡ record self.old { queues = map queue_taken self.old.queues }) }
    {
        self.list_arrivals(round.moment, scratch)?;
        let list = match self.mail.order() {
            Order::Kind => in_parts(self.alloc, round, scratch)?,
            Order::Arrival => by_arrival(self.alloc, round, scratch)?,
        };
        self.take_first();
        Ok(list)
    }
}

// Callbacks that a snapshot listed in a round, with the polls of goals after those that come before polls.
fn in_parts(alloc: Global, round: &Round<'_>, scratch: &Scratch) -> Result<Vec<Ready>, Memory>
    requires { scratch.now.before ≤ length scratch.now.list }
    ensures { IfOk result (λ all. all.items
        ≡ in_parts round.now.graph.now round.now.moment scratch.now.before scratch.now.list scratch.now.goals.items) }
{
    let list = scratch.list.as_slice();
    let mut all = Vec::new(alloc);
    all.reserve(scratch.count())?;
    push_listed(alloc, round.graph, &list[..scratch.before], &mut all)?;
    push_polls(alloc, round.graph, round.moment, &scratch.goals, &mut all)?;
    push_listed(alloc, round.graph, &list[scratch.before..], &mut all)?;
    Ok(all)
}

// The same callbacks and polls, at the places of arrivals.
fn by_arrival(alloc: Global, round: &Round<'_>, scratch: &Scratch) -> Result<Vec<Ready>, Memory>
    ensures { IfOk result (λ all. all.items
        ≡ placed_from 1 (callbacks_at (with_polls round.now.graph.now round.now.moment scratch.now.list scratch.now.goals.items)
        scratch.now.arrivals.items)) }
{
    let mut all = Vec::new(alloc);
    all.reserve(scratch.count())?;
    for arrived in &scratch.arrivals {
        push_at(alloc, round, scratch, arrived.place, &mut all)?;
    }
    Ok(all)
}

// Adds the callback at a place, from 0, if there is one. Polls come after the callbacks of the list.
fn push_at(
    alloc: Global,
    round: &Round<'_>,
    scratch: &Scratch,
    place: usize,
    all: &mut Vec<Ready>,
) -> Result<(), Memory>
    ensures { OnOk result (all.new.items ≡ placed_behind all.old.items
        (callback_at (with_polls round.now.graph.now round.now.moment scratch.now.list scratch.now.goals.items) place)) }
{
    let list = scratch.list.as_slice();
    let goals = scratch.goals.as_slice();
    if place < list.len() {
        return push_listed(alloc, round.graph, &list[place..place + 1], all);
    }
    let at = place - list.len();
    if at < goals.len() {
        return push_polls(alloc, round.graph, round.moment, &goals[at..at + 1], all);
    }
    Ok(())
}
