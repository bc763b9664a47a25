//! The program over a reader and two writers.
ghost use Rattle.std.specs.Prelude.{◌≡◌, false, Result};
ghost use Rattle.exec_upgrade.specs.declared.program.Failure.{Failure};
ghost use Rattle.exec_upgrade.specs.inner.Writing.{HasWritten};
ghost use Rattle.exec_upgrade.specs.Program.{HasUpgraded, IsReported, status_by, failure_line, failure_status, exit_number, failure_of_words, failure_of_read, refused_line};
ghost use Rattle.exec_upgrade.specs.declared.program.Failure.TheVariants.{Refused as RefusedWith, WriteFailed};

use exec_doc::{Refused, upgrade};
use exec_io::{InputStream, OutFailed, ReadFault, Through, WordsFault, read_document, write_text};
use std::alloc::Global;
use std::io::{Read, Write};

/// What the program's run came to, each with its exit status.
#[derive(Clone, Copy, Debug, PartialEq, Eq)]
pub enum Status {
    /// The upgrade is written.
    Written = 0,
    /// The document is refused.
    Refused = 1,
    /// The words are wrong.
    Usage = 2,
    /// Standard output failed.
    WriteFailed = 3,
    /// Standard input failed, or is too long.
    ReadFailed = 4,
}

impl Status {
    /// The exit status.
    pub fn number(self) -> u8
        ensures { result ≡ exit_number self }
    {
        self as u8
    }
}

/// Why the program wrote no whole document.
#[derive(Clone, Copy, Debug, PartialEq, Eq)]
pub enum Failure {
    /// The document is refused, or a growth was.
    Refused(Refused),
    /// The words are wrong.
    Usage,
    /// Standard output failed.
    WriteFailed,
    /// Standard input failed, or is too long.
    ReadFailed,
}

impl Failure {
    /// The line that standard error gets, with its line feed.
    pub fn line(self) -> &'static str
        ensures { result.now ≡ failure_line self }
    {
        match self {
            Failure::Refused(code) => code_line(code),
            Failure::Usage => "usage: exec_upgrade\n",
            Failure::WriteFailed => "write failed\n",
            Failure::ReadFailed => "read failed\n",
        }
    }

    /// The status that the program ends with.
    pub fn status(self) -> Status
        ensures { result ≡ failure_status self }
    {
        match self {
            Failure::Refused(_) => Status::Refused,
            Failure::Usage => Status::Usage,
            Failure::WriteFailed => Status::WriteFailed,
            Failure::ReadFailed => Status::ReadFailed,
        }
    }
}

impl From<WordsFault> for Failure {
    ghost from_gives = { λ fault failure. failure ≡ failure_of_words fault };

    fn from(fault: WordsFault) -> Failure {
        match fault {
            WordsFault::Memory => Failure::Refused(Refused::Memory),
            WordsFault::NotText => Failure::Usage,
        }
    }
}

impl From<ReadFault> for Failure {
    ghost from_gives = { λ fault failure. failure ≡ failure_of_read fault };

    fn from(fault: ReadFault) -> Failure {
        match fault {
            ReadFault::Memory => Failure::Refused(Refused::Memory),
            ReadFault::Failed | ReadFault::TooLong => Failure::ReadFailed,
        }
    }
}

impl From<Refused> for Failure {
    ghost from_gives = { λ code failure. failure ≡ RefusedWith code };

    fn from(code: Refused) -> Failure {
        Failure::Refused(code)
    }
}

impl From<OutFailed> for Failure {
    ghost from_gives = { λ _ failure. failure ≡ WriteFailed };

    fn from(_fault: OutFailed) -> Failure {
        Failure::WriteFailed
    }
}

/// The whole program: looks at the words, of which there are none, and only then reads the document, and writes its upgrade. A
/// failure puts its line on `errors`; that this line may fail changes nothing.
pub fn execute<R: Read, O: Write, E: Write>(
    alloc: Global,
    words: Result<Vec<String>, WordsFault>,
    input: &mut InputStream<R>,
    output: &mut Through<O>,
    errors: &mut Through<E>,
) -> Status
    requires { output.old.sink.failed ≡ false }
    ensures { (outcome : Result (Unit {0}) Failure)
        × HasUpgraded words
        (record { before = input.old.remaining; after = input.new.remaining; failed = input.new.failed })
        (record { before = output.old.sink.contents; after = output.new.sink.contents; failed = output.new.sink.failed })
        output.new.flushed outcome
        × (result ≡ status_by outcome)
        × IsReported outcome
        (record { before = errors.old.sink.contents; after = errors.new.sink.contents; failed = errors.new.sink.failed })
        errors.new.flushed }
{
    match bring(alloc, words, input, output) {
        Ok(()) => Status::Written,
        Err(failure) => {
            let _ = write_text(errors, failure.line().as_bytes());
            failure.status()
        }
    }
}

fn bring<R: Read, O: Write>(
    alloc: Global,
    words: Result<Vec<String>, WordsFault>,
    input: &mut InputStream<R>,
    output: &mut Through<O>,
) -> Result<(), Failure>
    requires { output.old.sink.failed ≡ false }
    ensures { HasUpgraded words
        (record { before = input.old.remaining; after = input.new.remaining; failed = input.new.failed })
        (record { before = output.old.sink.contents; after = output.new.sink.contents; failed = output.new.sink.failed })
        output.new.flushed result }
{
    let words = words?;
    if !words.as_slice().is_empty() {
        return Err(Failure::Usage);
    }
    let document = read_document(alloc, input)?;
    write_upgrade(alloc, &document, output)
}

// Upgrades a document and writes its text, and flushes the output.
fn write_upgrade<O: Write>(
    alloc: Global,
    document: &[u8],
    output: &mut Through<O>,
) -> Result<(), Failure>
    ensures { HasWritten document.now
        (record { before = output.old.sink.contents; after = output.new.sink.contents; failed = output.new.sink.failed })
        output.new.flushed result }
{
    let text = upgrade(alloc, document)?;
    write_text(output, &text)?;
    Ok(())
}

// The line that standard error gets of a refusal, with its line feed.
fn code_line(code: Refused) -> &'static str
    ensures { result.now ≡ refused_line code }
{
    match code {
        Refused::NotJson => "refused 1\n",
        Refused::Shape => "refused 2\n",
        Refused::Version => "refused 3\n",
        Refused::Name => "refused 4\n",
        Refused::Limit => "refused 5\n",
        Refused::Script => "refused 6\n",
        Refused::GroupVariable => "refused 7\n",
        Refused::Clock => "refused 8\n",
        Refused::Id => "refused 9\n",
        Refused::Memory => "refused 10\n",
    }
}
