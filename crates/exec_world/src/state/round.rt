//! Rounds, from the first line to the last.
ghost use Rattle.std.specs.Prelude.{◌≡◌, ◌++◌, length, OnOk};
ghost use Rattle.std.specs.List.{flat_map};
ghost use Rattle.exec_rules.specs.Transcript.{pending_by};

use super::WorldBody;
use crate::mail::Mail;
use crate::scratch::Scratch;
use crate::weighing::{Heavy, Light};
use exec_entity::{Client, Numbered};
use exec_goal::CancelRequest;
use exec_msg::{Line, Lines, Memory, Moment};
use exec_plan::{Fed, Feed, FeedByRound, Graph, Order, Plan};
use exec_rules::{Item, Ready};
use futures::task::Context;

// A round of a plan that begins: the graph, the round's number and moment, and what is fed in it.
#[derive(Drop)]
pub(crate) struct Round<'a> {
    pub(crate) graph: &'a Graph,
    pub(crate) number: u64,
    pub(crate) moment: Moment,
    pub(crate) fed: &'a [Feed],
}

impl<'a> Round<'a> {
    ghost use Rattle.std.specs.Prelude.{◌≡◌, ◌<◌, ◌≤◌, length};
    ghost use Rattle.exec_plan.specs.Feeding.{feeds_by_round};
    ghost use Rattle.exec_rules.specs.Calls.{moment_of};
    ghost use Rattle.exec_rules.specs.Transcript.{at_snapshot};
    ghost use Rattle.exec_rules.specs.World.{WorldState};
    ghost use Rattle.exec_world.specs.inner.Snapshots.{begun_by};

    // The round of a plan that has this number, from 1, with what the plan feeds in it.
    pub(crate) fn of(plan: &'a Plan, feed: &'a FeedByRound, number: usize) -> Round<'a>
        requires first { 0 < number }
        requires last { number ≤ length plan.now.moments }
        requires fed { feed.now ≡ feeds_by_round plan.now }
        requires sized { length feed.now ≡ length plan.now.moments }
        ensures graph { result.graph.now ≡ plan.now.graph }
        ensures moment { result.moment ≡ moment_of number plan.now }
        ensures begun { (world : WorldState) → begun_by result world ≡ at_snapshot plan.now number (moment_of number plan.now) world }
    {
        Round {
            graph: plan.graph(),
            number: number as u64,
            moment: plan.moments()[number - 1],
            fed: feed.fed_in(number),
        }
    }
}

impl<L: Lines> WorldBody<L> {
    ghost use Rattle.std.specs.Prelude.{◌≡◌, ◌≤◌, length, map, take, drop, IfOk, OnOk};
    ghost use Rattle.exec_rules.specs.Transcript.{feed, feed_one, finish, run_all};
    ghost use Rattle.exec_rules.specs.World.{WorldState, add_line};
    ghost use Rattle.exec_rules.specs.inner.Awake.{poll_at};
    ghost use Rattle.exec_rules.specs.inner.ByKind.{taken_in_parts};
    ghost use Rattle.exec_rules.specs.inner.Listing.{with_script_of};
    ghost use Rattle.exec_world.specs.inner.Snapshots.{HaveScriptsOf, IsHandedOut, IsListed, listed_in, begun_by, round_in};

    // Begins a round, and takes each input. Answers the callbacks that are ready, each with a share in its script.
    pub(crate) fn begin_round(
        &mut self,
        round: &Round<'_>,
        scratch: &mut Scratch,
    ) -> Result<Vec<Ready>, Memory>
        requires { HaveScriptsOf round.now.graph.now (begun_by round.now self.old) }
        ensures list { IfOk result (λ list. list.items ≡ listed_in round.now.moment (begun_by round.now self.old)) }
        ensures taken { OnOk result (self.new ≡ taken_in_parts round.now.moment (begun_by round.now self.old)) }
    {
        self.open_round(round)?;
        self.list_in_parts(round.moment, scratch)?;
        self.hand_out(round, scratch)
    }

    // Runs a whole round. Goals are polled in a context that the caller has made.
    pub(crate) fn run_round(
        &mut self,
        round: &Round<'_>,
        scratch: &mut Scratch,
        cx: &mut Context<'_>,
    ) -> Result<(), Memory>
        requires { HaveScriptsOf round.now.graph.now (begun_by round.now self.old) }
        ensures { OnOk result (self.new ≡ round_in round.now.moment (begun_by round.now self.old)) }
    {
        self.open_round(round)?;
        self.list_in_parts(round.moment, scratch)?;
        self.run_listed(round, scratch, cx)
    }

    // Runs a whole round if its work is light, and answers nothing. Otherwise begins it, and answers its callbacks.
    pub(crate) fn run_light_round(
        &mut self,
        round: &Round<'_>,
        light: &Light,
        scratch: &mut Scratch,
        cx: &mut Context<'_>,
    ) -> Result<Option<Heavy>, Memory>
        requires { HaveScriptsOf round.now.graph.now (begun_by round.now self.old) }
        ensures { IfOk result (λ heavy. IsHandedOut round.now.moment (begun_by round.now self.old) heavy self.new) }
    {
        self.open_round(round)?;
        self.list_in_parts(round.moment, scratch)?;
        let instructions = scratch.instructions(round.graph);
        if light.is_light(scratch.count(), instructions) {
            self.run_listed(round, scratch, cx)?;
            return Ok(None);
        }
        let list = self.hand_out(round, scratch)?;
        Ok(Some(Heavy { list, instructions }))
    }

    // Takes the first item of each queue that has one, and runs what a snapshot listed in a round.
    fn run_listed(
        &mut self,
        round: &Round<'_>,
        scratch: &mut Scratch,
        cx: &mut Context<'_>,
    ) -> Result<(), Memory>
        requires { scratch.old.before ≤ length scratch.old.list }
        ensures { OnOk result ((world : WorldState) → HaveScriptsOf round.now.graph.now world
            → IsListed round.now.moment world scratch.old.before self.old scratch.old.list scratch.old.goals.items
            → self.new ≡ round_in round.now.moment world) }
    {
        self.list_arrivals(round.moment, scratch)?;
        self.take_first();
        match self.mail.order() {
            Order::Kind => self.run_parts(round, scratch, cx),
            Order::Arrival => self.run_sorted(round, scratch, cx),
        }
    }

    // Runs the callbacks of the list that come before polls, then polls the goals, and then runs the others of the list.
    fn run_parts(
        &mut self,
        round: &Round<'_>,
        scratch: &mut Scratch,
        cx: &mut Context<'_>,
    ) -> Result<(), Memory>
        requires { scratch.old.before ≤ length scratch.old.list }
        ensures { OnOk result (self.new ≡ run_all (map (with_script_of round.now.graph.now) (drop scratch.old.before scratch.old.list))
            (run_all (map (poll_at round.now.moment) scratch.old.goals.items)
            (run_all (map (with_script_of round.now.graph.now) (take scratch.old.before scratch.old.list)) self.old))) }
    {
        let (first, last) = scratch.list.as_slice().split_at(scratch.before);
        let effects = &mut scratch.effects;
        self.run_each(round.graph, first, effects, cx)?;
        self.run_polls(round.moment, &scratch.goals, effects, cx)?;
        self.run_each(round.graph, last, effects, cx)
    }

    // Begins a round: its line, expiry, and what is fed in it.
    fn open_round(&mut self, round: &Round<'_>) -> Result<(), Memory>
        ensures { OnOk result (self.new ≡ begun_by round.now self.old) }
    {
        self.add_line(Line::Round {
            number: round.number,
            moment: round.moment,
        })?;
        self.mail.expire(round.moment, &mut self.servers)?;
        self.feed(round.fed)?;
        Ok(())
    }

    fn feed(&mut self, entries: &[Feed]) -> Result<(), Memory>
        ensures { OnOk result (self.new ≡ feed entries.now self.old) }
    {
        for entry in entries {
            self.feed_one(&entry.fed)?;
        }
        Ok(())
    }

    fn feed_one(&mut self, fed: &Fed) -> Result<(), Memory>
        ensures { OnOk result (self.new ≡ feed_one fed.now self.old) }
    {
        match *fed {
            Fed::Message { topic, value } => self.publish(topic, value),
            Fed::Goal { server, id, value } => self.push(
                server,
                Item::Goal {
                    id,
                    client: None,
                    value,
                },
            ),
            Fed::Cancel { server, id, stamp } => self.push(
                server,
                Item::Cancel {
                    request: CancelRequest { id, stamp },
                    client: None,
                },
            ),
        }
    }

    // Closes the transcript after this many rounds.
    pub(crate) fn finish(&mut self, rounds: u64) -> Result<(), Memory>
        ensures { OnOk result (self.new ≡ finish rounds self.old) }
    {
        add_pending(self.clients.as_slice(), &mut self.mail)?;
        self.add_line(Line::End { rounds })
    }
}

// Adds a line for each client that has calls without a reply.
fn add_pending<L: Lines>(clients: &[Client], mail: &mut Mail<L>) -> Result<(), Memory>
    ensures { OnOk result (mail.new
        ≡ record mail.old { lines = mail.old.lines ++ flat_map (λ entry. pending_by entry.entity (length entry.pending)) clients.now }) }
{
    for client in clients {
        add_pending_of(client, mail)?;
    }
    Ok(())
}

fn add_pending_of<L: Lines>(client: &Client, mail: &mut Mail<L>) -> Result<(), Memory>
    ensures { OnOk result (mail.new ≡ record mail.old { lines = mail.old.lines ++ pending_by client.now.entity (length client.now.pending) }) }
{
    let calls = client.count_pending() as u64;
    if calls > 0 {
        mail.add_line(Line::Pending {
            client: client.number(),
            calls,
        })?;
    }
    Ok(())
}
