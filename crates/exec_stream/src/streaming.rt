//! How lanes are run by workers that send on what the callbacks did, as they run.
ghost use Rattle.std.specs.Prelude.{◌≡◌, ◌+◌, ◌<◌, ◌≤◌, [], false, length, Ok, IfOk, IsPermutation, OnOk};
ghost use Rattle.std.specs.Arc.{arc_value};
ghost use Rattle.std.specs.List.{flat_map};
ghost use Rattle.exec_board.specs.Seats.{IsLast, back_half, front_half, opener, together};
ghost use Rattle.exec_board.specs.Sweeps.{AllSeen, FirstSeen};
ghost use Rattle.exec_lane.specs.Gather.{outcomes_in};
ghost use Rattle.exec_lane.specs.Lane.{AreFinished};
ghost use Rattle.exec_stream.specs.Outcomes.{all_parts};
ghost use Rattle.exec_stream.specs.Sending.{HasSent, MayCollect, MaySend, Stays, queue_id};
ghost use Rattle.exec_stream.specs.Streams.{AreUnrun, GoesOn, HasSentAll, IsRunnerAt, KeepsShare, MayBegin, outcomes_between};

use crate::collecting::Collector;
use crate::laws::{OutcomeQueue, outcome_queue, split_pass};
use crate::sending::Sender;
use crate::sent::Sent;
use exec_board::{Board, Pass};
use exec_lane::{Gate, LaneBox};
use exec_msg::Memory;
use std::alloc::Global;
use std::sync::atomic::AtomicUsize;
use std::sync::atomic::Ordering::SeqCst;
use std::sync::{Arc, Wait};

// How many outcomes wait in the queue, at most.
const CAPACITY: usize = 64;

/// What the runners of a streamed round share.
#[derive(Drop)]
pub struct StreamedRound {
    /// The lanes.
    pub board: Board,
    /// What the callbacks did, on its way to the collector.
    pub queue: OutcomeQueue,
    /// How many callbacks are run at a claim, at most.
    pub quantum: usize,
    // How many lanes behind one runner the next one begins.
    spacing: usize,
    // How many runners are at work now.
    at_work: AtomicUsize,
}

/// What runs callbacks of a streamed round: its pass of the board, and what it sends outcomes on with.
#[derive(Drop)]
pub struct Runner {
    pub pass: Pass,
    pub sender: Sender,
}

impl StreamedRound {
    /// A round of these lanes, at least one, and its first runner, which may be split into `passes` runners, 1 or more. The
    /// collector takes what they send on.
    ///
    /// # Errors
    /// [`Memory`] if a growth was refused. The lanes are dropped.
    pub fn open(
        alloc: Global,
        lanes: Vec<LaneBox>,
        passes: usize,
        quantum: usize,
    ) -> Result<(StreamedRound, Runner, Collector), Memory>
        requires lanes { 0 < length lanes.items }
        requires passes { 0 < passes }
        ensures runner { IfOk result (λ made. MayBegin made.0.board (queue_id made.0.queue) made.1 × (made.1.pass.view ≡ opener lanes.items passes)) }
        ensures collector { IfOk result (λ made. MayCollect (queue_id made.0.queue) made.2 × (made.2.hand.put ≡ [])) }
        ensures parts { IfOk result (λ made. made.2.hand.parts + made.1.sender.hand.parts ≡ all_parts) }
    {
        let spacing = lanes.len() / passes;
        let (board, pass) = Board::open(alloc, lanes, passes)?;
        let (queue, mut hand) = outcome_queue(alloc, CAPACITY)?;
        let sender = Sender::new(alloc, split_pass(&queue, &mut hand));
        let stream = StreamedRound {
            board,
            queue,
            quantum,
            spacing,
            at_work: AtomicUsize::new(0),
        };
        Ok((stream, Runner { pass, sender }, Collector::new(alloc, hand)))
    }

    /// Whether a runner is at work.
    pub(crate) fn is_at_work(&self) -> bool {
        self.at_work.load(SeqCst) > 0
    }

    /// Closes a round whose runners are one again and have found each lane finished, and gives the lanes and what was sent on.
    /// Whoever else had a share of the `Arc` has dropped it, or is about to.
    ///
    /// # Errors
    /// [`Memory`] if a growth was refused.
    pub fn close<R: Wait, G: Gate>(
        rt: &R,
        alloc: Global,
        shared: Arc<StreamedRound>,
        runner: Runner,
        collector: Collector,
        gate: &G,
    ) -> Result<(Vec<LaneBox>, Sent), Memory>
        requires at { IsRunnerAt (arc_value shared).board (queue_id (arc_value shared).queue) runner }
        requires sent { HasSentAll runner }
        requires last { IsLast runner.pass.view }
        requires seen { AllSeen runner.pass.view }
        requires unrun { AreUnrun runner.pass.view.opening }
        requires collector { MayCollect (queue_id (arc_value shared).queue) collector }
        requires put { collector.hand.put ≡ [] }
        requires parts { collector.hand.parts + runner.sender.hand.parts ≡ all_parts }
        ensures finished { IfOk result (λ ran. AreFinished runner.pass.view.opening ran.0.items) }
        ensures sent { IfOk result (λ ran. IsPermutation (flat_map outcomes_in ran.0.items) ran.1) }
    {
        exec_lane::laws::outcomes_stay_as_a_lane_goes_on();
        let StreamedRound {
            board,
            queue,
            quantum: _,
            spacing: _,
            at_work: _,
        } = whole(rt, shared);
        let Runner { pass, sender } = runner;
        let boxes = board.close(alloc, pass)?;
        let (hand, kept) = sender.into_parts();
        let mut collector = collector;
        collector.join(&queue, hand);
        let came = collector.drain(rt, &queue, gate)?;
        Ok((boxes, Sent::of(came, kept)))
    }
}

// What is shared, as soon as nobody else has a share of it.
fn whole<R: Wait>(rt: &R, shared: Arc<StreamedRound>) -> StreamedRound
    ensures { result ≡ arc_value shared }
{
    let mut left = shared;
    for _ in rt.forever() {
        match Arc::try_unwrap(left) {
            Ok(stream) => return stream,
            Err(back) => left = back,
        }
    }
    unreachable!()
}

// Runs the next callback of a lane, and sends on what it did.
fn run_next<R: Wait, G: Gate>(
    rt: &R,
    queue: &OutcomeQueue,
    sender: &mut Sender,
    lane: &mut LaneBox,
    gate: &G,
) -> Result<(), Memory>
    requires queue { MaySend (queue_id queue.now) sender.old }
    requires unfinished { lane.old.done < length lane.old.entries }
    ensures lane { GoesOn lane.old lane.new }
    ensures few { lane.new.done ≤ lane.old.done + 1 }
    ensures stays { Stays sender.old sender.new }
    ensures sent { OnOk result (HasSent (outcomes_between lane.old lane.old.done lane.new.done) sender.old sender.new) }
{
    exec_lane::laws::outcomes_stay_as_a_lane_goes_on();
    sender.make_room()?;
    let place = lane.done();
    lane.run_next(gate)?;
    let outcome = lane.outcome(place)?;
    sender.send(rt, queue, outcome);
    Ok(())
}

// Runs the next callbacks of a lane, at most as many as the quantum, and sends on what they did.
fn run_some<R: Wait, G: Gate>(
    rt: &R,
    stream: &StreamedRound,
    sender: &mut Sender,
    lane: &mut LaneBox,
    gate: &G,
) -> Result<(), Memory>
    requires queue { MaySend (queue_id stream.now.queue) sender.old }
    requires within { lane.old.done ≤ length lane.old.entries }
    ensures lane { GoesOn lane.old lane.new }
    ensures few { lane.new.done ≤ lane.old.done + stream.now.quantum }
    ensures stays { Stays sender.old sender.new }
    ensures sent { OnOk result (HasSent (outcomes_between lane.old lane.old.done lane.new.done) sender.old sender.new) }
{
    let mut left = stream.quantum;
    while left > 0 && !lane.is_finished() {
        run_next(rt, &stream.queue, sender, lane, gate)?;
        left -= 1;
    }
    Ok(())
}

impl Runner {
    // Claims a lane, if it is open, runs callbacks of it, sends on what they did, and releases it. Answers whether the lane was
    // claimed.
    fn visit<R: Wait, G: Gate>(
        &mut self,
        rt: &R,
        stream: &StreamedRound,
        lane: usize,
        gate: &G,
    ) -> Result<bool, Memory>
        requires at { IsRunnerAt stream.now.board (queue_id stream.now.queue) self.old }
        requires lane { lane < stream.now.board.words }
        requires sent { HasSentAll self.old }
        ensures at { IsRunnerAt stream.now.board (queue_id stream.now.queue) self.new }
        ensures share { KeepsShare self.old self.new }
        ensures sent { OnOk result (HasSentAll self.new) }
        ensures sized { length self.old.pass.view.opening ≡ stream.now.board.words }
        ensures seen { result ≡ Ok false → IsLast self.old.pass.view → FirstSeen lane self.old.pass.view → FirstSeen (lane + 1) self.new.pass.view }
    {
        exec_board::laws::a_claim_may_be_released();
        exec_board::laws::the_last_pass_is_refused_finished_lanes();
        let Ok(mut claim) = stream.board.claim(&mut self.pass, lane) else {
            return Ok(false);
        };
        let ended = run_some(rt, stream, &mut self.sender, claim.work(), gate);
        stream.board.release(&mut self.pass, claim);
        ended?;
        Ok(true)
    }

    // Visits each lane once, and answers whether one was claimed.
    fn visit_all<R: Wait, G: Gate>(
        &mut self,
        rt: &R,
        stream: &StreamedRound,
        gate: &G,
    ) -> Result<bool, Memory>
        requires at { IsRunnerAt stream.now.board (queue_id stream.now.queue) self.old }
        requires sent { HasSentAll self.old }
        ensures at { IsRunnerAt stream.now.board (queue_id stream.now.queue) self.new }
        ensures share { KeepsShare self.old self.new }
        ensures sent { OnOk result (HasSentAll self.new) }
        ensures seen { result ≡ Ok false → IsLast self.old.pass.view → AllSeen self.new.pass.view }
    {
        let mut claimed = false;
        for lane in 0..stream.board.lanes() {
            claimed |= self.visit(rt, stream, lane, gate)?;
        }
        Ok(claimed)
    }

    // Goes over the lanes again and again, until a visit to each of them brings no claim.
    fn go_over<R: Wait, G: Gate>(
        &mut self,
        rt: &R,
        stream: &StreamedRound,
        gate: &G,
    ) -> Result<(), Memory>
        requires at { IsRunnerAt stream.now.board (queue_id stream.now.queue) self.old }
        requires sent { HasSentAll self.old }
        ensures at { IsRunnerAt stream.now.board (queue_id stream.now.queue) self.new }
        ensures share { KeepsShare self.old self.new }
        ensures sent { OnOk result (HasSentAll self.new) }
        ensures seen { OnOk result (IsLast self.old.pass.view → AllSeen self.new.pass.view) }
    {
        for _ in rt.forever() {
            if !self.visit_all(rt, stream, gate)? {
                return Ok(());
            }
        }
        unreachable!()
    }

    // Visits the lanes once, from where this runner begins, so that runners don't meet at the same lanes.
    fn begin<R: Wait, G: Gate>(
        &mut self,
        rt: &R,
        stream: &StreamedRound,
        gate: &G,
    ) -> Result<(), Memory>
        requires at { IsRunnerAt stream.now.board (queue_id stream.now.queue) self.old }
        requires sent { HasSentAll self.old }
        ensures at { IsRunnerAt stream.now.board (queue_id stream.now.queue) self.new }
        ensures share { KeepsShare self.old self.new }
        ensures sent { OnOk result (HasSentAll self.new) }
    {
        let (number, _) = self.pass.share();
        for lane in stream.spacing.saturating_mul(number)..stream.board.lanes() {
            self.visit(rt, stream, lane, gate)?;
        }
        Ok(())
    }

    // Visits the lanes from its own first one on, and then goes over all of them.
    fn run<R: Wait, G: Gate>(
        &mut self,
        rt: &R,
        stream: &StreamedRound,
        gate: &G,
    ) -> Result<(), Memory>
        requires at { IsRunnerAt stream.now.board (queue_id stream.now.queue) self.old }
        requires sent { HasSentAll self.old }
        ensures at { IsRunnerAt stream.now.board (queue_id stream.now.queue) self.new }
        ensures share { KeepsShare self.old self.new }
        ensures sent { OnOk result (HasSentAll self.new) }
        ensures seen { OnOk result (IsLast self.old.pass.view → AllSeen self.new.pass.view) }
    {
        self.begin(rt, stream, gate)?;
        self.go_over(rt, stream, gate)
    }

    /// Claims lanes that are open, runs at most the quantum of callbacks of each, sends on what they did, and releases the lane,
    /// once from its own first lane on, and then from lane 0 on until a visit to each lane brings no claim.
    ///
    /// # Errors
    /// [`Memory`] if a growth or a copy was refused. A lane that was refused memory is marked as failed.
    pub fn work<R: Wait, G: Gate>(
        &mut self,
        rt: &R,
        stream: &StreamedRound,
        gate: &G,
    ) -> Result<(), Memory>
        requires at { IsRunnerAt stream.now.board (queue_id stream.now.queue) self.old }
        requires sent { HasSentAll self.old }
        ensures at { IsRunnerAt stream.now.board (queue_id stream.now.queue) self.new }
        ensures share { KeepsShare self.old self.new }
        ensures sent { OnOk result (HasSentAll self.new) }
        ensures seen { OnOk result (IsLast self.old.pass.view → AllSeen self.new.pass.view) }
    {
        stream.at_work.fetch_add(1, SeqCst);
        let ended = self.run(rt, stream, gate);
        stream.at_work.fetch_sub(1, SeqCst);
        ended
    }

    /// Splits a runner that has not begun. The first one has the front half of its share of the passes, rounded down, and about
    /// half of its parts of the queue. The second one has the rest.
    pub fn split(self, alloc: Global, stream: &StreamedRound) -> (Runner, Runner)
        requires begins { MayBegin stream.now.board (queue_id stream.now.queue) self }
        requires share { self.pass.view.start + 2 ≤ self.pass.view.stop }
        ensures front { MayBegin stream.now.board (queue_id stream.now.queue) result.0 × (result.0.pass.view ≡ front_half self.pass.view) }
        ensures back { MayBegin stream.now.board (queue_id stream.now.queue) result.1 × (result.1.pass.view ≡ back_half self.pass.view) }
        ensures parts { result.0.sender.hand.parts + result.1.sender.hand.parts ≡ self.sender.hand.parts }
    {
        let Runner { pass, mut sender } = self;
        let other = sender.split(alloc, &stream.queue);
        let (front, back) = stream.board.split(pass);
        (
            Runner {
                pass: front,
                sender,
            },
            Runner {
                pass: back,
                sender: other,
            },
        )
    }

    /// Joins another runner to it. The other's share begins at the end of its own share. If memory is refused, what that one
    /// kept is lost.
    pub fn join(self, stream: &StreamedRound, other: Runner) -> (Runner, Result<(), Memory>)
        requires at { IsRunnerAt stream.now.board (queue_id stream.now.queue) self × IsRunnerAt stream.now.board (queue_id stream.now.queue) other }
        requires neighbours { other.pass.view.start ≡ self.pass.view.stop }
        ensures at { IsRunnerAt stream.now.board (queue_id stream.now.queue) result.0 }
        ensures pass { result.0.pass.view ≡ together self.pass.view other.pass.view }
        ensures parts { result.0.sender.hand.parts ≡ self.sender.hand.parts + other.sender.hand.parts }
        ensures sent { OnOk result.1 (HasSentAll self → HasSentAll other → other.pass.view.opening ≡ self.pass.view.opening → HasSentAll result.0) }
    {
        let Runner { pass, mut sender } = self;
        let joined = sender.join(&stream.queue, other.sender);
        let pass = stream.board.join(pass, other.pass);
        (Runner { pass, sender }, joined)
    }
}
