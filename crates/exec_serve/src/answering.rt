//! What a document is answered.
ghost use Rattle.std.specs.Prelude.{◌≡◌, ◌<◌, ◌≤◌, [], ◌∷◌, ◌++◌, length, Some, IfOk, IfErr};
ghost use Rattle.exec_doc.specs.Document.{document_of};
ghost use Rattle.exec_doc.specs.Refusals.{refused_number};
ghost use Rattle.exec_plan.specs.Plan.{PlanData};
ghost use Rattle.exec_round.specs.Run.{IsRefusalOf};
ghost use Rattle.exec_rules.specs.Transcript.{text_of as transcript_of};
ghost use Rattle.exec_serve.specs.Serving.{answer_bytes, number_bytes};
ghost use Rattle.exec_serve.specs.inner.Answers.{HasAnswered, IsPut};

use exec_doc::Refused;
use exec_io::{OutFailed, Settings, Through, write_text};
use exec_lane::Gate;
use exec_round::{RunFault, run_into};
use std::alloc::Global;
use std::io::Write;
use std::sync::Wait;
use std::thread::Threads;

// How many bytes stand before the text of an answer: the status, and the text's length.
const HEAD: usize = 9;

/// Runs a document and answers it: with the status 0 and its transcript, or with the code of its refusal and no text. The status
/// is one byte. Then comes the text's length, as eight bytes with the highest first, and the text. The output is flushed.
///
/// # Errors
/// [`OutFailed`] if the output failed. What it was given is then a front of the answer.
pub fn answer<H: Threads + Wait + Sync, G: Gate, O: Write>(
    rt: &H,
    alloc: Global,
    document: &[u8],
    settings: Settings,
    gate: &G,
    output: &mut Through<O>,
) -> Result<(), OutFailed>
    requires { (0 < settings.workers) × (settings.workers ≤ 64) × (0 < settings.quantum) × (settings.quantum ≤ 1024) }
    ensures { HasAnswered document.now (record { before = output.old.sink.contents; after = output.new.sink.contents; failed = output.new.sink.failed }) output.new.flushed result }
{
    match text_of(rt, alloc, document, settings, gate) {
        Ok(text) => put_answer(0, text.as_slice(), output),
        Err(code) => refuse(code, output),
    }
}

/// Answers a document with the code of a refusal, and no text.
///
/// # Errors
/// [`OutFailed`] if the output failed. What it was given is then a front of the answer.
pub fn refuse<O: Write>(code: Refused, output: &mut Through<O>) -> Result<(), OutFailed>
    ensures { IsPut (answer_bytes (record { document = []; status = refused_number code; text = [] })) (record { before = output.old.sink.contents; after = output.new.sink.contents; failed = output.new.sink.failed }) output.new.flushed result }
{
    put_answer(code.number(), &[], output)
}

// The text of a document's transcript.
fn text_of<H: Threads + Wait + Sync, G: Gate>(
    rt: &H,
    alloc: Global,
    document: &[u8],
    settings: Settings,
    gate: &G,
) -> Result<Vec<u8>, Refused>
    requires { (0 < settings.workers) × (settings.workers ≤ 64) × (0 < settings.quantum) × (settings.quantum ≤ 1024) }
    ensures text { IfOk result (λ text. (plan : PlanData) × (document_of document.now ≡ Some plan) × (text.items ≡ transcript_of plan)) }
    ensures refused { IfErr result (λ code. IsRefusalOf document.now code) }
{
    let mut text = Through::new(Vec::new(alloc));
    let workers = settings.workers as usize;
    let quantum = settings.quantum as usize;
    match run_into(rt, alloc, document, workers, quantum, gate, &mut text) {
        Ok(()) => Ok(text.writer),
        Err(RunFault::Refused(code)) => Err(code),
        // A list that takes no more bytes was refused a growth.
        Err(RunFault::Write) => Err(Refused::Memory),
    }
}

// Writes an answer with this status and text.
fn put_answer<O: Write>(status: u8, text: &[u8], output: &mut Through<O>) -> Result<(), OutFailed>
    ensures { IsPut (answer_bytes (record { document = []; status = status; text = text.now })) (record { before = output.old.sink.contents; after = output.new.sink.contents; failed = output.new.sink.failed }) output.new.flushed result }
{
    let head = head(status, text.len() as u64);
    write_text(output, &head)?;
    write_text(output, text)
}

// What stands before a text of this length.
fn head(status: u8, length: u64) -> [u8; HEAD]
    ensures { result ≡ status ∷ number_bytes length }
{
    let [a, b, c, d, e, f, g, h] = length.to_be_bytes();
    [status, a, b, c, d, e, f, g, h]
}
