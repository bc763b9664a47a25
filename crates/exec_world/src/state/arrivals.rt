//! Ready callbacks in the order of arrival.
ghost use Rattle.std.specs.Prelude.{◌≡◌, ◌++◌, map, OnOk};

use super::WorldBody;
use super::round::Round;
use crate::arrived::{Arrived, note_arrival, sort_arrivals};
use crate::scratch::Scratch;
use exec_msg::{Lines, Memory, Moment};
use exec_plan::{Graph, Order};
use exec_rules::{AwakeGoal, Cause, Listed, Ready};
use exec_script::EffectList;
use futures::task::Context;
use std::marker::Model;

// What a snapshot listed: the callbacks of a list, whose scripts are the graph's, and after them polls at a moment.
#[derive(Drop)]
struct Parts<'a> {
    graph: &'a Graph,
    list: &'a [Listed],
    moment: Moment,
    goals: &'a [AwakeGoal],
}

impl<'a> Model for Parts<'a> {
    ghost use Rattle.std.specs.Prelude.{◌++◌, List, map};
    ghost use Rattle.exec_rules.specs.declared.ready.Ready.{Ready};
    ghost use Rattle.exec_rules.specs.inner.Awake.{poll_at};
    ghost use Rattle.exec_rules.specs.inner.Listing.{with_script_of};

    ghost Value = { List Ready };

    ghost view = { λ parts. map (with_script_of parts.graph.now) parts.list.now ++ map (poll_at parts.moment) parts.goals.now };
}

impl<L: Lines> WorldBody<L> {
    ghost use Rattle.std.specs.Prelude.{◌≡◌, ◌++◌, map, OnOk};
    ghost use Rattle.std.specs.List.{fold};
    ghost use Rattle.exec_plan.specs.Graph.{GraphData};
    ghost use Rattle.exec_rules.specs.Ready.{arrival_for, goal_arrival};
    ghost use Rattle.exec_rules.specs.inner.Awake.{poll_at};
    ghost use Rattle.exec_rules.specs.inner.Listing.{with_script_of};
    ghost use Rattle.exec_world.specs.inner.Arrivals.{AreListed, run_arrived, run_at, with_arrived};

    // Under the order of arrival, lists the numbers of the arrivals of what a snapshot listed, each with the place of its callback,
    // the earliest first. Polls come after the callbacks of the list. Only the numbers are sorted: callbacks and their scripts
    // are not moved. Under the order of kinds it lists nothing.
    #[inline(never)]
    pub(super) fn list_arrivals(&self, moment: Moment, scratch: &mut Scratch) -> Result<(), Memory>
        ensures arrivals { OnOk result ((graph : GraphData) → AreListed self.now.order self.now
            (map (with_script_of graph) scratch.old.list ++ map (poll_at moment) scratch.old.goals.items) scratch.new.arrivals.items) }
        ensures list { scratch.new.list ≡ scratch.old.list }
        ensures before { scratch.new.before ≡ scratch.old.before }
        ensures goals { scratch.new.goals.items ≡ scratch.old.goals.items }
    {
        if let Order::Kind = self.mail.order() {
            return Ok(());
        }
        scratch.arrivals.clear();
        self.note_arrivals(scratch.list.as_slice(), &mut scratch.arrivals)?;
        self.note_polls(&scratch.goals, &mut scratch.arrivals)?;
        sort_arrivals(&mut scratch.arrivals)?;
        Ok(())
    }

    // Runs the callbacks at the places of arrivals, one after another.
    #[inline(never)]
    pub(super) fn run_sorted(
        &mut self,
        round: &Round<'_>,
        scratch: &mut Scratch,
        cx: &mut Context<'_>,
    ) -> Result<(), Memory>
        ensures { OnOk result (self.new
            ≡ run_arrived (map (with_script_of round.now.graph.now) scratch.old.list ++ map (poll_at round.now.moment) scratch.old.goals.items)
            self.old scratch.old.arrivals.items) }
    {
        let parts = Parts {
            graph: round.graph,
            list: scratch.list.as_slice(),
            moment: round.moment,
            goals: &scratch.goals,
        };
        for arrived in &scratch.arrivals {
            self.run_at(&parts, arrived.place, &mut scratch.effects, cx)?;
        }
        Ok(())
    }

    // Runs the callback at a place, from 0, if there is one.
    fn run_at(
        &mut self,
        parts: &Parts<'_>,
        place: usize,
        effects: &mut EffectList,
        cx: &mut Context<'_>,
    ) -> Result<(), Memory>
        ensures { OnOk result (self.new ≡ run_at parts.now self.old place) }
    {
        let count = parts.list.len();
        if place < count {
            return self.run_each(parts.graph, &parts.list[place..place + 1], effects, cx);
        }
        let at = place - count;
        if at < parts.goals.len() {
            return self.run_polls(parts.moment, &parts.goals[at..at + 1], effects, cx);
        }
        Ok(())
    }

    // Notes the numbers of these callbacks' arrivals.
    fn note_arrivals(&self, list: &[Listed], arrivals: &mut Vec<Arrived>) -> Result<(), Memory>
        ensures { OnOk result (arrivals.new.items
            ≡ fold (λ so_far one. with_arrived so_far (arrival_for one.ready.entity one.ready.cause self.now)) arrivals.old.items list.now) }
    {
        for one in list {
            note_arrival(arrivals, self.arrival(&one.ready))?;
        }
        Ok(())
    }

    // The same of polls.
    fn note_polls(&self, goals: &[AwakeGoal], arrivals: &mut Vec<Arrived>) -> Result<(), Memory>
        ensures { OnOk result (arrivals.new.items
            ≡ fold (λ so_far goal. with_arrived so_far (goal_arrival goal.server goal.id self.now)) arrivals.old.items goals.now) }
    {
        for goal in goals {
            note_arrival(arrivals, self.servers.arrival(goal.server, goal.id))?;
        }
        Ok(())
    }

    // The number of the arrival that made a callback ready, and 0 if none did.
    fn arrival(&self, one: &Ready) -> u64
        ensures { result ≡ arrival_for one.now.entity one.now.cause self.now }
    {
        match &one.cause {
            Cause::Due => 0,
            Cause::Took(item) => self.mail.queues().first_number(one.entity, item.kind()),
            Cause::Woke { id, .. } => self.servers.arrival(one.entity, *id),
        }
    }
}
