//! How runners send on what callbacks did.
ghost use Rattle.std.specs.Prelude.{◌≡◌, ◌+◌, ◌<◌, ◌≤◌, ◌∷◌, ◌++◌, [], OnOk};
ghost use Rattle.crossbeam_queue.specs.Passes.{view};
ghost use Rattle.exec_stream.specs.Outcomes.{joined_hands, kept_hand, new_hand};
ghost use Rattle.exec_stream.specs.Sending.{HasSent, MaySend, queue_id};

use crate::laws::{OutcomePass, OutcomeQueue, join_pass, put_outcome, split_pass};
use exec_lane::Outcome;
use exec_msg::Memory;
use std::alloc::Global;
use std::marker::Model;
use std::sync::Wait;

/// What sends outcomes on: a pass of their queue, and the outcomes that came back because the queue was full.
#[derive(Drop)]
pub struct Sender {
    pass: OutcomePass,
    kept: Vec<Outcome>,
}

impl Model for Sender {
    ghost use Rattle.std.specs.Prelude.{◌≡◌, [], ◌-◌, vec_capacity, vec_len};
    ghost use Rattle.crossbeam_queue.specs.Passes.{view as hand_of};
    ghost use Rattle.exec_stream.specs.Sending.{SenderView};

    ghost Value = { SenderView };

    ghost view = { λ sender. record {
      queue = sender.pass.table_id;
      hand = hand_of sender.pass;
      kept = sender.kept.items;
      room = vec_capacity sender.kept - vec_len sender.kept;
    } };

    // No slot of the queue is out with the pass.
    ghost invariant = { λ sender. sender.pass.me.1 ≡ [] };
}

impl Sender {
    // What sends outcomes on with this pass, and has sent none.
    pub(crate) fn new(alloc: Global, pass: OutcomePass) -> Sender
        requires { pass.me.1 ≡ [] }
        ensures { result ≡ record { queue = pass.table_id; hand = view pass; kept = []; room = 0 } }
    {
        Sender {
            pass,
            kept: Vec::new(alloc),
        }
    }

    // Makes room to keep one more outcome.
    pub(crate) fn make_room(&mut self) -> Result<(), Memory>
        ensures same { self.new ≡ record self.old { room = self.new.room } }
        ensures room { OnOk result (0 < self.new.room) }
    {
        self.kept.reserve(1)?;
        Ok(())
    }

    // Puts an outcome into the queue. If the queue is full, it keeps the outcome. There is room to keep it.
    pub(crate) fn send<R: Wait>(&mut self, rt: &R, queue: &OutcomeQueue, outcome: Outcome)
        requires queue { MaySend (queue_id queue.now) self.old }
        requires room { 0 < self.old.room }
        ensures { HasSent (outcome ∷ []) self.old self.new }
    {
        if let Err(back) = put_outcome(rt, queue, &mut self.pass, outcome) {
            self.kept.push_reserved(back);
        }
    }

    // Splits the sender. It keeps half of its parts, rounded down, and another one has the rest.
    pub(crate) fn split(&mut self, alloc: Global, queue: &OutcomeQueue) -> Sender
        requires queue { self.old.queue ≡ queue_id queue.now }
        requires parts { 2 ≤ self.old.hand.parts }
        ensures kept { self.new ≡ record self.old { hand = kept_hand self.old.hand } }
        ensures other { result ≡ record { queue = self.old.queue; hand = new_hand self.old.hand; kept = []; room = 0 } }
    {
        Sender::new(alloc, split_pass(queue, &mut self.pass))
    }

    // Joins another sender to it. If memory is refused, what that one kept is lost.
    pub(crate) fn join(&mut self, queue: &OutcomeQueue, other: Sender) -> Result<(), Memory>
        requires queue { MaySend (queue_id queue.now) self.old × (other.queue ≡ queue_id queue.now) }
        ensures queue { self.new.queue ≡ self.old.queue }
        ensures joined { self.new.hand ≡ joined_hands self.old.hand other.hand }
        ensures kept { OnOk result (self.new.kept ≡ self.old.kept ++ other.kept) }
    {
        let Sender { pass, mut kept } = other;
        join_pass(queue, &mut self.pass, pass);
        self.kept.append(&mut kept)?;
        Ok(())
    }

    // Its pass, and the outcomes that came back.
    pub(crate) fn into_parts(self) -> (OutcomePass, Vec<Outcome>)
        ensures pass { (result.0.table_id ≡ self.queue) × (result.0.me.1 ≡ []) × (view result.0 ≡ self.hand) }
        ensures kept { result.1.items ≡ self.kept }
    {
        (self.pass, self.kept)
    }
}
