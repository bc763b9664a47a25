//! `exec_ways <workers> <quantum>`: reads a document on standard input and runs it by each way in which workers share a round,
//! under a gate that counts what is reported to it. It is for tests. For each way it prints a line: its name, how many
//! callbacks ran, and how many outcomes came to the collector through the queue. Then it runs the document by `run`, while
//! somebody watches and while nobody does, and by `run_into` into memory. It writes the text that all of them gave.
//!
//! Its status is 0 if each way left the transcript of one thread and reported to its gate what it owes, and all calls gave one
//! text. It is 1 if the document or memory is refused, 2 if the words are wrong, and 3 if a way or a call differs.
#![tactic(auto)]

mod calls;
mod counting;
mod ways;

ghost use Rattle.std.specs.Prelude.{◌<◌, ◌≤◌};

use calls::run_calls;
use exec_doc::{Refused, read_document};
use exec_io::{InputStream, OutFailed, Settings, Through, WordsFault, read_words, write_text};
use exec_plan::Plan;
use std::alloc::Global;
use std::io;
use std::io::{Read, Write};
use std::process::ExitCode;
use std::sync::{Arc, Wait};
use std::thread::Threads;
use ways::{Fault, Ran, WAYS, Way, compare};

fn main(rt: HostRuntime) -> ExitCode {
    let status = match read_words(&rt) {
        Ok(words) => status_of(&rt, rt.alloc(), &words, rt.stdin(), rt.stdout()),
        Err(WordsFault::Memory) => 1,
        Err(_) => 2,
    };
    ExitCode::from(status)
}

fn status_of<H: Threads + Wait + Sync + Print, R: Read + Drop, W: Write + Drop>(
    rt: &H,
    alloc: Global,
    words: &[String],
    input: R,
    output: W,
) -> u8 {
    let Some(settings) = Settings::from_words(words) else {
        return 2;
    };
    let mut input = InputStream::new(input);
    let Ok(document) = exec_io::read_document(alloc, &mut input) else {
        return 1;
    };
    let Ok(plan) = read_plan(alloc, &document) else {
        return 1;
    };
    let status = try_ways(rt, alloc, &plan, settings);
    status.max(try_calls(rt, alloc, &document, settings, output))
}

fn read_plan(alloc: Global, document: &[u8]) -> Result<Arc<Plan>, Refused> {
    Ok(Arc::new(alloc, read_document(alloc, document)?)?)
}

// Runs a plan by each way, prints what ran, and answers the greatest status that they come to.
fn try_ways<H: Threads + Wait + Sync + Print>(
    rt: &H,
    alloc: Global,
    plan: &Arc<Plan>,
    settings: Settings,
) -> u8 {
    let mut status = 0;
    for way in WAYS {
        status = status.max(try_way(rt, alloc, plan, settings, *way));
    }
    status
}

// Runs a plan by a way, prints what ran, and answers the status that it comes to.
fn try_way<H: Threads + Wait + Sync + Print>(
    rt: &H,
    alloc: Global,
    plan: &Arc<Plan>,
    settings: Settings,
    way: Way,
) -> u8 {
    let ended = compare(rt, alloc, plan, settings, way);
    match (tell(rt, way, ended), ended) {
        (Ok(()), Ok(_)) => 0,
        (_, Err(Fault::Memory)) => 1,
        _ => 3,
    }
}

// Prints what came of a way.
fn tell<H: Print>(rt: &H, way: Way, ended: Result<Ran, Fault>) -> io::Result<()> {
    match ended {
        Ok(ran) => println!(rt; "{way:?} {} {}", ran.callbacks, ran.taken),
        Err(fault) => println!(rt; "{way:?} {fault:?}"),
    }
}

// Runs a document by each call, writes the text that all of them gave, and answers the status that it comes to.
fn try_calls<H: Threads + Wait + Sync, W: Write + Drop>(
    rt: &H,
    alloc: Global,
    document: &[u8],
    settings: Settings,
    output: W,
) -> u8
    requires workers { (0 < settings.workers) × (settings.workers ≤ 64) }
    requires quantum { (0 < settings.quantum) × (settings.quantum ≤ 1024) }
{
    let Ok(texts) = run_calls(rt, alloc, document, settings) else {
        return 1;
    };
    let text = texts.watched;
    if text.as_slice() != texts.unwatched.as_slice()
        || text.as_slice() != texts.written.as_slice()
    {
        return 3;
    }
    match write_text(&mut Through::new(output), &text) {
        Ok(()) => 0,
        Err(OutFailed) => 3,
    }
}
