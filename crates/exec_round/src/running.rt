ghost use Rattle.std.specs.Prelude.{◌≡◌, ◌<◌, ◌≤◌, ℕ, [], false, true, length, take, Err, Some, IfOk, IfErr, OnOk};
ghost use Rattle.std.specs.Io.KnownBytes.{Appends};
ghost use Rattle.std.specs.Arc.{arc_value};
ghost use Rattle.exec_doc.specs.Document.{document_of};
ghost use Rattle.exec_doc.specs.declared.refused.Refused.TheVariants as refused;
ghost use Rattle.exec_plan.specs.Plan.{PlanData};
ghost use Rattle.exec_round.specs.Run.{IsRefusalOf};
ghost use Rattle.exec_round.specs.declared.running.RunFault.TheVariants as fault;
ghost use Rattle.exec_rules.specs.Calls.{IsNext, after_round, new_world};
ghost use Rattle.exec_rules.specs.Transcript.{lines_of, text_of};

use crate::crew::stream_rounds;
use crate::policy::{Policy, START, Work};
use crate::rounds::{Division, begin, run_list};
use crate::sharing::Sharing;
use exec_doc::{Refused, read_document};
use exec_io::{Out, OutFailed, put_pieces};
use exec_lane::Gate;
use exec_msg::{Lines, Memory, TextReader, Transcript};
use exec_plan::Plan;
use exec_world::{World, run_plan};
use std::alloc::Global;
use std::marker::Model;
use std::sync::{Arc, Wait};
use std::thread::Threads;
use thiserror::Error;

// The transcript of a plan that was run. Its text may be read piece by piece: its lines take less memory than their text.
#[derive(Drop)]
struct PlanTranscript {
    plan: Arc<Plan>,
    lines: Transcript,
}

impl Model for PlanTranscript {
    ghost use Rattle.std.specs.Arc.{arc_value};
    ghost use Rattle.exec_round.specs.Run.{RunPlan};

    ghost Value = { RunPlan };

    ghost view = { λ transcript. record { plan = arc_value transcript.plan; lines = transcript.lines } };
}

impl PlanTranscript {
    ghost use Rattle.std.specs.Prelude.{◌≡◌, IfOk};
    ghost use Rattle.exec_msg.specs.Line.{transcript_text};
    ghost use Rattle.exec_plan.specs.Graph.{names_of};

    // A reader of its text. It takes little other memory.
    fn reader(&self, alloc: Global) -> Result<TextReader<'_>, Memory>
        ensures { IfOk result (λ reader. reader ≡ record { names = names_of self.now.plan.graph; lines = self.now.lines }) }
    {
        self.lines.reader(alloc, self.plan.graph().names())
    }

    // Its text.
    fn text(&self, alloc: Global) -> Result<Vec<u8>, Memory>
        ensures { IfOk result (λ text. text.items ≡ transcript_text (names_of self.now.plan.graph) self.now.lines) }
    {
        self.lines.text(alloc, self.plan.graph().names())
    }
}

/// Runs a document by at most `workers` workers, 1 to 64, and gives the text of its transcript. A worker claims at most
/// `quantum` callbacks at a time, 1 to 1,024. The text depends on neither. If a worker's thread can't be started, the calling
/// thread does its work.
///
/// # Errors
/// The least code that holds of the bytes, or [`Refused::Memory`] if a growth was refused.
pub fn run<R: Threads + Sync, G: Gate>(
    rt: &R,
    alloc: Global,
    document: &[u8],
    workers: usize,
    quantum: usize,
    gate: &G,
) -> Result<Vec<u8>, Refused>
    requires workers { (0 < workers) × (workers ≤ 64) }
    requires quantum { (0 < quantum) × (quantum ≤ 1024) }
    ensures text { IfOk result (λ text. (plan : PlanData) × (document_of document.now ≡ Some plan) × (text.items ≡ text_of plan)) }
    ensures refused { IfErr result (λ code. IsRefusalOf document.now code) }
{
    let sharing = Sharing {
        alloc,
        workers,
        quantum,
        gate,
    };
    let transcript = transcribe(rt, document, &sharing)?;
    Ok(transcript.text(alloc)?)
}

/// Why a document's transcript isn't written whole.
#[derive(Clone, Copy, Debug, PartialEq, Eq, Error)]
pub enum RunFault {
    /// The document is refused, or a growth was. Nothing is written.
    #[error("refused: {0}")]
    Refused(Refused),
    /// The writer failed. What was written is a front of the transcript's text.
    #[error("the writer failed")]
    Write,
}

impl From<Refused> for RunFault {
    ghost from_gives = { λ code given. given ≡ fault.Refused code };

    fn from(code: Refused) -> RunFault {
        RunFault::Refused(code)
    }
}

impl From<Memory> for RunFault {
    ghost from_gives = { λ _ given. given ≡ fault.Refused refused.Memory };

    fn from(_fault: Memory) -> RunFault {
        RunFault::Refused(Refused::Memory)
    }
}

impl From<OutFailed> for RunFault {
    ghost from_gives = { λ _ given. given ≡ fault.Write };

    fn from(_fault: OutFailed) -> RunFault {
        RunFault::Write
    }
}

/// Runs a document as [`run`] does, and writes the text of its transcript. If somebody watches, its rounds are those of
/// [`round_streamed`](crate::round_streamed). Before the first byte is written, the transcript is whole, and the writing has all
/// memory that it needs.
///
/// # Errors
/// [`RunFault::Refused`] if [`run`] refuses, and [`RunFault::Write`] if the writer failed.
pub fn run_into<R: Threads + Wait + Sync, G: Gate, O: Out>(
    rt: &R,
    alloc: Global,
    document: &[u8],
    workers: usize,
    quantum: usize,
    gate: &G,
    out: &mut O,
) -> Result<(), RunFault>
    requires workers { (0 < workers) × (workers ≤ 64) }
    requires quantum { (0 < quantum) × (quantum ≤ 1024) }
    requires unfailed { (O.sink out.old).failed ≡ false }
    ensures text { OnOk result ((plan : PlanData) × (document_of document.now ≡ Some plan)
        × Appends (O.sink out.old).contents (O.sink out.new).contents (text_of plan)) }
    ensures unfailed { OnOk result ((O.sink out.new).failed ≡ false) }
    ensures refused { (code : _) → result ≡ Err (fault.Refused code) → IsRefusalOf document.now code × (O.sink out.new ≡ O.sink out.old) }
    ensures failed { result ≡ Err fault.Write → (O.sink out.new).failed ≡ true }
    ensures front { result ≡ Err fault.Write → (plan : PlanData) × (document_of document.now ≡ Some plan)
        × ((count : ℕ) × Appends (O.sink out.old).contents (O.sink out.new).contents (take count (text_of plan))) }
{
    let sharing = Sharing {
        alloc,
        workers,
        quantum,
        gate,
    };
    let transcript = transcribe_streamed(rt, document, &sharing)?;
    let mut reader = transcript.reader(alloc)?;
    let mut buffer = reader.buffer(alloc)?;
    put_pieces(out, &mut reader, buffer.as_mut_slice())?;
    Ok(())
}

// Runs a document, and gives its transcript.
fn transcribe<R: Threads + Sync, G: Gate>(
    rt: &R,
    document: &[u8],
    sharing: &Sharing<'_, G>,
) -> Result<PlanTranscript, Refused>
    ensures plan { IfOk result (λ transcript. document_of document.now ≡ Some transcript.plan) }
    ensures lines { IfOk result (λ transcript. transcript.lines ≡ lines_of transcript.plan) }
    ensures refused { IfErr result (λ code. IsRefusalOf document.now code) }
{
    let alloc = sharing.alloc;
    let plan = Arc::new(alloc, read_document(alloc, document)?)?;
    let lines = Transcript::new(alloc);
    let lines = run_by(rt, plan.clone()?, lines, sharing)?;
    Ok(PlanTranscript { plan, lines })
}

// Runs all rounds of a plan by workers that claim lanes.
fn run_by<L: Lines, R: Threads + Sync, G: Gate>(
    rt: &R,
    plan: Arc<Plan>,
    lines: L,
    sharing: &Sharing<'_, G>,
) -> Result<L, Memory>
    requires { L.lines lines ≡ [] }
    ensures { IfOk result (λ lines. L.lines lines ≡ lines_of (arc_value plan)) }
{
    let policy = Policy::of(rt, sharing.workers, sharing.gate);
    if policy.is_alone() {
        return run_plan(sharing.alloc, plan, lines);
    }
    let rounds = plan.moments().len();
    let mut world = World::with_lines(sharing.alloc, plan, lines)?;
    if run_each(rt, &mut world, rounds, policy, sharing).is_err() {
        return Err(world.give_up());
    }
    Ok(world.into_lines())
}

// Runs `rounds` rounds and closes the transcript. They are all rounds of the plan, and the world is new.
fn run_each<L: Lines, R: Threads + Sync, G: Gate>(
    rt: &R,
    world: &mut World<L>,
    rounds: usize,
    policy: Policy,
    sharing: &Sharing<'_, G>,
) -> Result<(), Memory>
    requires new { world.old ≡ new_world world.old.plan }
    requires all { rounds ≡ length world.old.plan.moments }
    ensures unfailed { OnOk result (world.new.failed ≡ false) }
    ensures lines { OnOk result (world.new.state.lines ≡ lines_of world.old.plan) }
{
    exec_rules::laws::rounds_follow_one_another();
    for done in 0..rounds {
        run_next(rt, world, done + 1, policy, sharing)?;
    }
    world.finish()?;
    Ok(())
}

// Runs a round by as many workers as its policy says. They start and end with it.
fn run_next<L: Lines, R: Threads + Sync, G: Gate>(
    rt: &R,
    world: &mut World<L>,
    round: usize,
    policy: Policy,
    sharing: &Sharing<'_, G>,
) -> Result<(), Memory>
    requires { IsNext round world.old }
    ensures { OnOk result (world.new ≡ after_round round world.old) }
{
    let Some(heavy) = begin(world, round, policy.light(START))? else {
        return Ok(());
    };
    let work = Work {
        instructions: heavy.instructions,
        callbacks: heavy.list.len(),
    };
    let Some(workers) = policy.workers(work, policy.most, START) else {
        world.run_ready(heavy.list.as_slice())?;
        return Ok(());
    };
    let sharing = Sharing {
        alloc: sharing.alloc,
        workers,
        quantum: sharing.quantum,
        gate: sharing.gate,
    };
    run_list(rt, heavy.list, Division::Claimed, &sharing, world)
}

// Runs a document by workers that send on what callbacks did, and gives its transcript.
fn transcribe_streamed<R: Threads + Wait + Sync, G: Gate>(
    rt: &R,
    document: &[u8],
    sharing: &Sharing<'_, G>,
) -> Result<PlanTranscript, Refused>
    ensures plan { IfOk result (λ transcript. document_of document.now ≡ Some transcript.plan) }
    ensures lines { IfOk result (λ transcript. transcript.lines ≡ lines_of transcript.plan) }
    ensures refused { IfErr result (λ code. IsRefusalOf document.now code) }
{
    let alloc = sharing.alloc;
    let plan = Arc::new(alloc, read_document(alloc, document)?)?;
    let lines = Transcript::new(alloc);
    let lines = stream_by(rt, plan.clone()?, lines, sharing)?;
    Ok(PlanTranscript { plan, lines })
}

// Runs all rounds of a plan by workers that last, which send on what callbacks did.
fn stream_by<L: Lines, R: Threads + Wait + Sync, G: Gate>(
    rt: &R,
    plan: Arc<Plan>,
    lines: L,
    sharing: &Sharing<'_, G>,
) -> Result<L, Memory>
    requires { L.lines lines ≡ [] }
    ensures { IfOk result (λ lines. L.lines lines ≡ lines_of (arc_value plan)) }
{
    let policy = Policy::of(rt, sharing.workers, sharing.gate);
    if policy.is_alone() {
        return run_plan(sharing.alloc, plan, lines);
    }
    stream_rounds(rt, plan, lines, policy, sharing)
}
