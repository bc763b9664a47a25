//! How outcomes are collected.
ghost use Rattle.std.specs.Prelude.{◌≡◌, ◌<◌, [], false, Ok, IsPermutation, IfOk};
ghost use Rattle.crossbeam_queue.specs.Passes.{view};
ghost use Rattle.exec_stream.specs.Outcomes.{WasHolding, all_parts, joined_hands};
ghost use Rattle.exec_stream.specs.Sending.{Collects, MayCollect, queue_id};

use crate::laws::{self, OutcomePass, OutcomeQueue, join_pass, take_outcome};
use crate::streaming::StreamedRound;
use exec_lane::{Gate, Outcome};
use exec_msg::Memory;
use std::alloc::Global;
use std::marker::Model;
use std::sync::Wait;
use std::thread::yield_now;

// Outcomes are collected in at most this many turns while runners are at work.
const TURNS: usize = 4_096;

/// What collects outcomes: a pass of their queue, and all that it took from there.
#[derive(Drop)]
pub struct Collector {
    pass: OutcomePass,
    got: Vec<Outcome>,
}

impl Model for Collector {
    ghost use Rattle.std.specs.Prelude.{◌≡◌, []};
    ghost use Rattle.crossbeam_queue.specs.Passes.{view as hand_of};
    ghost use Rattle.exec_stream.specs.Sending.{CollectorView};

    ghost Value = { CollectorView };

    ghost view = { λ collector. record { queue = collector.pass.table_id; hand = hand_of collector.pass; got = collector.got.items } };

    // No slot of the queue is out with the pass.
    ghost invariant = { λ collector. (collector.pass.me.1 ≡ []) × ((hand_of collector.pass).took ≡ collector.got.items) };
}

impl Collector {
    // What collects outcomes with this pass, which has taken none.
    pub(crate) fn new(alloc: Global, pass: OutcomePass) -> Collector
        requires { (pass.me.1 ≡ []) × ((view pass).took ≡ []) }
        ensures { result ≡ record { queue = pass.table_id; hand = view pass; got = [] } }
    {
        Collector {
            pass,
            got: Vec::new(alloc),
        }
    }

    // Takes the next outcome, and answers whether there was one.
    fn take<R: Wait, G: Gate>(
        &mut self,
        rt: &R,
        queue: &OutcomeQueue,
        gate: &G,
    ) -> Result<bool, Memory>
        requires { MayCollect (queue_id queue.now) self.old }
        ensures stays { Collects self.old self.new }
        ensures none { result ≡ Ok false → WasHolding 0 self.new.hand }
    {
        self.got.reserve(1)?;
        let Some(outcome) = take_outcome(rt, queue, &mut self.pass) else {
            return Ok(false);
        };
        gate.took(outcome.position);
        self.got.push_reserved(outcome);
        Ok(true)
    }

    /// Takes what comes until no runner is at work, in a limited number of turns. It never waits for a runner.
    ///
    /// # Errors
    /// [`Memory`] if a growth was refused.
    pub fn take_some<R: Wait, G: Gate>(
        &mut self,
        rt: &R,
        stream: &StreamedRound,
        gate: &G,
    ) -> Result<(), Memory>
        requires { MayCollect (queue_id stream.now.queue) self.old }
        ensures { Collects self.old self.new }
    {
        for _ in 0..TURNS {
            if self.take(rt, &stream.queue, gate)? {
                continue;
            }
            if !stream.is_at_work() {
                break;
            }
            yield_now();
        }
        Ok(())
    }

    // Joins the pass of runners that took nothing.
    pub(crate) fn join(&mut self, queue: &OutcomeQueue, pass: OutcomePass)
        requires queue { MayCollect (queue_id queue.now) self.old × (pass.table_id ≡ queue_id queue.now) × (pass.me.1 ≡ []) }
        requires took { (view pass).took ≡ [] }
        ensures { self.new ≡ record self.old { hand = joined_hands self.old.hand (view pass) } }
    {
        join_pass(queue, &mut self.pass, pass);
    }

    // Takes all that the queue holds, with the last pass, and gives all that was taken.
    pub(crate) fn drain<R: Wait, G: Gate>(
        self,
        rt: &R,
        queue: &OutcomeQueue,
        gate: &G,
    ) -> Result<Vec<Outcome>, Memory>
        requires queue { self.queue ≡ queue_id queue.now }
        requires last { self.hand.parts ≡ all_parts }
        ensures { IfOk result (λ got. IsPermutation self.hand.put got.items) }
    {
        laws::the_last_pass_knows_what_the_queue_held();
        let mut collector = self;
        for _ in rt.forever() {
            if !collector.take(rt, queue, gate)? {
                break;
            }
        }
        Ok(collector.got)
    }
}
