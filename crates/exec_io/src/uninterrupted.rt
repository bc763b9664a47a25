//! A stream whose calls are made again if a signal interrupts them.
ghost use Rattle.std.specs.Prelude.{◌≢◌, IfErr};
ghost use Rattle.std.specs.Io.{ReadsAtMost, WritesAtMost};
ghost use Rattle.std.specs.Io.KnownBytes.{Keeps, ReadConsumes, WriteAppends};
ghost use Rattle.std.specs.IoError.{error_kind};

use std::io;
use std::io::{ErrorKind, Read, Write};

/// A reader or writer of std's. If a signal interrupts one of its calls, the call is made again, as std's own loops over reads
/// and writes do.
#[derive(Drop)]
pub struct Uninterrupted<S> {
    /// The reader or writer.
    pub stream: S,
}

impl<R: Read> Read for Uninterrupted<R> {
    ghost remaining = { λ reader. R.remaining reader.stream };

    fn read(&mut self, buf: &mut [u8]) -> io::Result<usize>
        ensures bound { ReadsAtMost result buf.new }
        ensures bytes { ReadConsumes (R.remaining self.old.stream) (R.remaining self.new.stream) result buf.new }
        ensures uninterrupted { IfErr result (λ fault. error_kind fault ≢ ErrorKind.Interrupted) }
    {
        for _ in 0..u64::MAX {
            match self.stream.read(buf) {
                Err(fault) if fault.kind() == ErrorKind::Interrupted => {}
                answer => return answer,
            }
        }
        Err(io::Error::from(ErrorKind::TimedOut))
    }
}

impl<W: Write> Write for Uninterrupted<W> {
    ghost contents = { λ writer. W.contents writer.stream };

    fn write(&mut self, buf: &[u8]) -> io::Result<usize>
        ensures bound { WritesAtMost result buf.now }
        ensures bytes { WriteAppends (W.contents self.old.stream) (W.contents self.new.stream) result buf.now }
        ensures uninterrupted { IfErr result (λ fault. error_kind fault ≢ ErrorKind.Interrupted) }
    {
        for _ in 0..u64::MAX {
            match self.stream.write(buf) {
                Err(fault) if fault.kind() == ErrorKind::Interrupted => {}
                answer => return answer,
            }
        }
        Err(io::Error::from(ErrorKind::TimedOut))
    }

    fn flush(&mut self) -> io::Result<()>
        ensures bytes { Keeps (W.contents self.old.stream) (W.contents self.new.stream) }
        ensures uninterrupted { IfErr result (λ fault. error_kind fault ≢ ErrorKind.Interrupted) }
    {
        for _ in 0..u64::MAX {
            match self.stream.flush() {
                Err(fault) if fault.kind() == ErrorKind::Interrupted => {}
                answer => return answer,
            }
        }
        Err(io::Error::from(ErrorKind::TimedOut))
    }
}
