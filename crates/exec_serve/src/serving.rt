//! The program over a reader and two writers.
ghost use Rattle.std.specs.Prelude.{◌≡◌, ◌<◌, ◌≤◌, [], true, false, Ok, Result, IfErr};
ghost use Rattle.std.specs.Io.KnownBytes.{IsAtEnd};
ghost use Rattle.exec_program.specs.Program.{status_by};
ghost use Rattle.exec_program.specs.declared.program.Failure.{Failure};
ghost use Rattle.exec_program.specs.declared.program.Failure.TheVariants.{ReadFailed};
ghost use Rattle.exec_serve.specs.inner.Requests.{Takes};
ghost use Rattle.exec_serve.specs.inner.Served.{HasFailed, HasServedOne};
ghost use Rattle.exec_serve.specs.Serving.{HasServed, HasServedBy, IsTold, served_line};

use crate::answering::{answer, refuse};
use crate::requests::{Request, RequestFault, Requests};
use exec_doc::Refused;
use exec_io::{Settings, Through, WordsFault, write_text};
use exec_lane::Gate;
use exec_program::{Failure, Status};
use std::alloc::Global;
use std::io::{Read, Write};
use std::sync::Wait;
use std::thread::Threads;

impl From<RequestFault> for Failure {
    ghost from_gives = { λ _ failure. failure ≡ ReadFailed };

    fn from(_fault: RequestFault) -> Failure {
        Failure::ReadFailed
    }
}

const USAGE: &str = "usage: exec_serve <workers 1-64> <quantum 1-1024>\n";

/// The whole program. It looks at the words, and then answers each document before it reads the next one, until its input ends.
/// A refused document is answered, and the next one is read. A failure puts its line on `errors`. If that fails, nothing else
/// changes.
pub fn serve<H: Threads + Wait + Sync, G: Gate, R: Read, O: Write, E: Write>(
    rt: &H,
    alloc: Global,
    words: Result<Vec<String>, WordsFault>,
    gate: &G,
    input: &mut Requests<R>,
    output: &mut Through<O>,
    errors: &mut Through<E>,
) -> Status
    ensures { (outcome : Result (Unit {0}) Failure)
        × HasServedBy words
        (record { before = input.old.remaining; after = input.new.remaining; failed = input.new.failed })
        (record { before = output.old.sink.contents; after = output.new.sink.contents; failed = output.new.sink.failed })
        output.new.flushed outcome
        × (result ≡ status_by outcome)
        × IsTold outcome
        (record { before = errors.old.sink.contents; after = errors.new.sink.contents; failed = errors.new.sink.failed })
        errors.new.flushed }
{
    match serve_all(rt, alloc, words, gate, input, output) {
        Ok(()) => Status::Written,
        Err(failure) => {
            let _ = write_text(errors, line(failure).as_bytes());
            failure.status()
        }
    }
}

// The line that standard error gets of a failure, with its line feed.
fn line(failure: Failure) -> &'static str
    ensures { result.now ≡ served_line failure }
{
    match failure {
        Failure::Usage => USAGE,
        _ => failure.line(),
    }
}

fn serve_all<H: Threads + Wait + Sync, G: Gate, R: Read, O: Write>(
    rt: &H,
    alloc: Global,
    words: Result<Vec<String>, WordsFault>,
    gate: &G,
    input: &mut Requests<R>,
    output: &mut Through<O>,
) -> Result<(), Failure>
    ensures { HasServedBy words
        (record { before = input.old.remaining; after = input.new.remaining; failed = input.new.failed })
        (record { before = output.old.sink.contents; after = output.new.sink.contents; failed = output.new.sink.failed })
        output.new.flushed result }
{
    let words = words?;
    let settings = Settings::from_words(&words).ok_or(Failure::Usage)?;
    answer_each(rt, alloc, settings, gate, input, output)
}

// Answers documents until the input ends.
fn answer_each<H: Threads + Wait + Sync, G: Gate, R: Read, O: Write>(
    rt: &H,
    alloc: Global,
    settings: Settings,
    gate: &G,
    input: &mut Requests<R>,
    output: &mut Through<O>,
) -> Result<(), Failure>
    requires { (0 < settings.workers) × (settings.workers ≤ 64) × (0 < settings.quantum) × (settings.quantum ≤ 1024) }
    ensures { HasServed
        (record { before = input.old.remaining; after = input.new.remaining; failed = input.new.failed })
        (record { before = output.old.sink.contents; after = output.new.sink.contents; failed = output.new.sink.failed })
        output.new.flushed result }
{
    for _ in rt.forever() {
        if !answer_next(rt, alloc, settings, gate, input, output)? {
            return Ok(());
        }
    }
    unreachable!()
}

// Answers the next document. Answers whether there was one.
fn answer_next<H: Threads + Wait + Sync, G: Gate, R: Read, O: Write>(
    rt: &H,
    alloc: Global,
    settings: Settings,
    gate: &G,
    input: &mut Requests<R>,
    output: &mut Through<O>,
) -> Result<bool, Failure>
    requires { (0 < settings.workers) × (settings.workers ≤ 64) × (0 < settings.quantum) × (settings.quantum ≤ 1024) }
    ensures one { result ≡ Ok true → HasServedOne input.old.remaining input.new.remaining output.old.sink.contents output.new.sink.contents × (output.new.flushed ≡ true) }
    ensures end { result ≡ Ok false → Takes input.old input.new [] × IsAtEnd input.new.remaining × (output.new ≡ output.old) }
    ensures failed { IfErr result (HasFailed input.old input.new output.old output.new) }
{
    match input.next(alloc)? {
        Request::End => return Ok(false),
        Request::Document(document) => {
            answer(rt, alloc, document.as_slice(), settings, gate, output)?;
        }
        Request::NoMemory => refuse(Refused::Memory, output)?,
    }
    Ok(true)
}
