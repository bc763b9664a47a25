//! The program over a reader and two writers.
ghost use Rattle.std.specs.Prelude.{◌≡◌, ◌<◌, ◌≤◌, false, Result, Err};
ghost use Rattle.exec_program.specs.Program.{HasRun, IsReported, failure_line, failure_status, exit_number, failure_of_words, failure_of_read, failure_of_run, status_by, refused_line};
ghost use Rattle.exec_program.specs.inner.Writing.{HasWritten};
ghost use Rattle.exec_program.specs.declared.program.Failure.{Failure};
ghost use Rattle.exec_program.specs.declared.program.Failure.TheVariants.{WriteFailed};

use exec_doc::Refused;
use exec_io::{InputStream, ReadFault, Settings, WordsFault, read_document, write_text};
use exec_lane::Gate;
use exec_round::{OutFailed, RunFault, Through, run_into};
use std::alloc::Global;
use std::io::{Read, Write};
use std::sync::Wait;
use std::thread::Threads;

/// What the program's run came to, each with its exit status.
#[derive(Clone, Copy, Debug, PartialEq, Eq)]
pub enum Status {
    /// The transcript is written.
    Written = 0,
    /// The document is refused.
    Refused = 1,
    /// The words are wrong.
    Usage = 2,
    /// Standard output failed.
    WriteFailed = 3,
    /// Standard input failed, or is too long.
    ReadFailed = 4,
}

impl Status {
    /// The exit status.
    pub fn number(self) -> u8
        ensures { result ≡ exit_number self }
    {
        self as u8
    }
}

/// Why the program wrote no whole transcript.
#[derive(Clone, Copy, Debug, PartialEq, Eq)]
pub enum Failure {
    /// The document is refused, or a growth was.
    Refused(Refused),
    /// The words are wrong.
    Usage,
    /// Standard output failed.
    WriteFailed,
    /// Standard input failed, or is too long.
    ReadFailed,
}

impl Failure {
    /// The line that standard error gets, with its line feed.
    pub fn line(self) -> &'static str
        ensures { result.now ≡ failure_line self }
    {
        match self {
            Failure::Refused(code) => code_line(code),
            Failure::Usage => "usage: exec_run <workers 1-64> <quantum 1-1024>\n",
            Failure::WriteFailed => "write failed\n",
            Failure::ReadFailed => "read failed\n",
        }
    }

    /// The status that the program ends with.
    pub fn status(self) -> Status
        ensures { result ≡ failure_status self }
    {
        match self {
            Failure::Refused(_) => Status::Refused,
            Failure::Usage => Status::Usage,
            Failure::WriteFailed => Status::WriteFailed,
            Failure::ReadFailed => Status::ReadFailed,
        }
    }
}

impl From<WordsFault> for Failure {
    ghost from_gives = { λ fault failure. failure ≡ failure_of_words fault };

    fn from(fault: WordsFault) -> Failure {
        match fault {
            WordsFault::Memory => Failure::Refused(Refused::Memory),
            WordsFault::NotText => Failure::Usage,
        }
    }
}

impl From<ReadFault> for Failure {
    ghost from_gives = { λ fault failure. failure ≡ failure_of_read fault };

    fn from(fault: ReadFault) -> Failure {
        match fault {
            ReadFault::Memory => Failure::Refused(Refused::Memory),
            ReadFault::Failed | ReadFault::TooLong => Failure::ReadFailed,
        }
    }
}

impl From<RunFault> for Failure {
    ghost from_gives = { λ fault failure. failure ≡ failure_of_run fault };

    fn from(fault: RunFault) -> Failure {
        match fault {
            RunFault::Refused(code) => Failure::Refused(code),
            RunFault::Write => Failure::WriteFailed,
        }
    }
}

impl From<OutFailed> for Failure {
    ghost from_gives = { λ _ failure. failure ≡ WriteFailed };

    fn from(_fault: OutFailed) -> Failure {
        Failure::WriteFailed
    }
}

/// The whole program. It looks at the words, and only then reads the document, runs it and writes its transcript. A failure
/// puts its line on `errors`. If that fails, nothing else changes.
pub fn execute<H: Threads + Wait + Sync, G: Gate, R: Read, O: Write, E: Write>(
    rt: &H,
    alloc: Global,
    words: Result<Vec<String>, WordsFault>,
    gate: &G,
    input: &mut InputStream<R>,
    output: &mut Through<O>,
    errors: &mut Through<E>,
) -> Status
    requires { output.old.sink.failed ≡ false }
    ensures { (outcome : Result (Unit {0}) Failure)
        × HasRun words
        (record { before = input.old.remaining; after = input.new.remaining; failed = input.new.failed })
        (record { before = output.old.sink.contents; after = output.new.sink.contents; failed = output.new.sink.failed })
        output.new.flushed outcome
        × (result ≡ status_by outcome)
        × IsReported outcome
        (record { before = errors.old.sink.contents; after = errors.new.sink.contents; failed = errors.new.sink.failed })
        errors.new.flushed }
{
    match transcribe(rt, alloc, words, gate, input, output) {
        Ok(()) => Status::Written,
        Err(failure) => {
            let _ = write_text(errors, failure.line().as_bytes());
            failure.status()
        }
    }
}

fn transcribe<H: Threads + Wait + Sync, G: Gate, R: Read, O: Write>(
    rt: &H,
    alloc: Global,
    words: Result<Vec<String>, WordsFault>,
    gate: &G,
    input: &mut InputStream<R>,
    output: &mut Through<O>,
) -> Result<(), Failure>
    requires { output.old.sink.failed ≡ false }
    ensures { HasRun words
        (record { before = input.old.remaining; after = input.new.remaining; failed = input.new.failed })
        (record { before = output.old.sink.contents; after = output.new.sink.contents; failed = output.new.sink.failed })
        output.new.flushed result }
{
    let words = words?;
    let settings = Settings::from_words(&words).ok_or(Failure::Usage)?;
    let document = read_document(alloc, input)?;
    write_transcript(rt, alloc, &document, settings, gate, output)
}

// Runs a document and writes its transcript, and flushes the output.
fn write_transcript<H: Threads + Wait + Sync, G: Gate, O: Write>(
    rt: &H,
    alloc: Global,
    document: &[u8],
    settings: Settings,
    gate: &G,
    output: &mut Through<O>,
) -> Result<(), Failure>
    requires settings { (0 < settings.workers) × (settings.workers ≤ 64) × (0 < settings.quantum) × (settings.quantum ≤ 1024) }
    requires unfailed { output.old.sink.failed ≡ false }
    ensures { HasWritten document.now
        (record { before = output.old.sink.contents; after = output.new.sink.contents; failed = output.new.sink.failed })
        output.new.flushed result }
{
    let workers = settings.workers as usize;
    let quantum = settings.quantum as usize;
    run_into(rt, alloc, document, workers, quantum, gate, output)?;
    output.flush()?;
    Ok(())
}

// The line for a refusal that standard error gets, with its line feed.
fn code_line(code: Refused) -> &'static str
    ensures { result.now ≡ refused_line code }
{
    match code {
        Refused::NotJson => "refused 1\n",
        Refused::Shape => "refused 2\n",
        Refused::Version => "refused 3\n",
        Refused::Name => "refused 4\n",
        Refused::Limit => "refused 5\n",
        Refused::Script => "refused 6\n",
        Refused::GroupVariable => "refused 7\n",
        Refused::Clock => "refused 8\n",
        Refused::Id => "refused 9\n",
        Refused::Memory => "refused 10\n",
    }
}
