//! What a text goes to, and what notes whether that has failed.
ghost use Rattle.std.specs.Prelude.{◌≡◌, ◌<◌, ◌≤◌, false, true, length, take, IfOk, OnErr, OnOk};
ghost use Rattle.std.specs.Io.KnownBytes.{Appends, Keeps};

use std::io::Write;
use std::marker::Model;
use thiserror::Error;

/// A `put` failed, and took nothing.
#[derive(Clone, Copy, Debug, PartialEq, Eq, Error)]
#[error("the writer failed")]
pub struct OutFailed;

/// What a text goes to, some bytes at a time.
pub trait Out {
    ghost use Rattle.std.specs.Prelude.{◌≡◌, ◌<◌, ◌≤◌, true, length, take, IfOk, OnErr};
    ghost use Rattle.std.specs.Io.KnownBytes.{Appends, Keeps};
    ghost use Rattle.exec_io.specs.Streams.{Sink};

    /// What it was given so far, if it says that, and whether a `put` has failed.
    ghost sink: { Self → Sink };

    /// Takes the first bytes of a text, at least one, and answers how many.
    ///
    /// # Errors
    /// [`OutFailed`] if none was taken.
    fn put(&mut self, text: &[u8]) -> Result<usize, OutFailed>
        requires { 0 < length text.now }
        ensures some { IfOk result (λ count. 0 < count) }
        ensures bound { IfOk result (λ count. count ≤ length text.now) }
        ensures bytes { IfOk result (λ count. Appends (sink self.old).contents (sink self.new).contents (take count text.now)) }
        ensures sound { IfOk result (λ _. (sink self.new).failed ≡ (sink self.old).failed) }
        ensures kept { OnErr result (Keeps (sink self.old).contents (sink self.new).contents) }
        ensures failed { OnErr result ((sink self.new).failed ≡ true) };

    /// Whether a `put` has failed.
    fn failed(&self) -> bool
        ensures { result ≡ (sink self.now).failed };
}

/// A writer of std's as an [`Out`]. It notes whether a write or a flush has failed, and whether all that it took is flushed. A
/// write that takes nothing has failed.
#[derive(Drop)]
pub struct Through<W: Write> {
    /// The writer.
    pub writer: W,
    failed: bool,
    // Whether the writer was flushed after the last write.
    flushed: bool,
}

impl<W: Write> Model for Through<W> {
    ghost use Rattle.exec_io.specs.Streams.{Stream};

    ghost Value = { Stream };

    ghost view = { λ through. record { sink = record { contents = W.contents through.writer; failed = through.failed }; flushed = through.flushed } };
}

impl<W: Write> Through<W> {
    /// A writer that nothing was written to yet.
    pub fn new(writer: W) -> Through<W>
        ensures { result ≡ record { sink = record { contents = W.contents writer; failed = false }; flushed = false } }
    {
        Through {
            writer,
            failed: false,
            flushed: false,
        }
    }

    /// Flushes the writer.
    ///
    /// # Errors
    /// [`OutFailed`] if that failed.
    pub fn flush(&mut self) -> Result<(), OutFailed>
        ensures kept { Keeps self.old.sink.contents self.new.sink.contents }
        ensures sound { OnOk result (self.new.sink.failed ≡ self.old.sink.failed) }
        ensures flushed { OnOk result (self.new.flushed ≡ true) }
        ensures failed { OnErr result (self.new.sink.failed ≡ true) }
    {
        if self.writer.flush().is_err() {
            self.failed = true;
            return Err(OutFailed);
        }
        self.flushed = true;
        Ok(())
    }
}

impl<W: Write> Out for Through<W> {
    ghost sink = { λ through. through.sink };

    fn put(&mut self, text: &[u8]) -> Result<usize, OutFailed> {
        self.flushed = false;
        match self.writer.write(text) {
            Ok(count) if count > 0 => Ok(count),
            _ => {
                self.failed = true;
                Err(OutFailed)
            }
        }
    }

    fn failed(&self) -> bool {
        self.failed
    }
}
