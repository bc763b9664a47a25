//! A reader that notes whether it has failed, and the document that it has.
ghost use Rattle.std.specs.Prelude.{◌≡◌, ℕ, List, ◌+◌, ◌<◌, ◌≤◌, true, false, length, take, drop, vec_len, OnOk, OnErr, IfOk, IfSome};
ghost use Rattle.std.specs.Io.KnownBytes.{Keeps, Consumes, IsAtEnd};

use exec_msg::limits::DOCUMENT;
use std::alloc::{AllocError, Global};
use std::io::Read;
use std::marker::Model;

const FIRST_ROOM: usize = 65_536;

/// Why a document isn't read.
#[derive(Clone, Copy, Debug, PartialEq, Eq)]
pub enum ReadFault {
    /// A growth was refused.
    Memory,
    /// The reader failed.
    Failed,
    /// The reader has more bytes than a document may have.
    TooLong,
}

/// A reader that notes whether it has failed.
#[derive(Drop)]
pub struct InputStream<R: Read> {
    /// The reader.
    pub reader: R,
    // Whether a read has failed.
    failed: bool,
}

impl<R: Read> Model for InputStream<R> {
    ghost use Rattle.exec_io.specs.Streams.{ReaderState};

    ghost Value = { ReaderState };

    ghost view = { λ input. record { remaining = R.remaining input.reader; failed = input.failed } };
}

impl<R: Read> InputStream<R> {
    /// A reader that hasn't failed yet.
    pub fn new(reader: R) -> InputStream<R>
        ensures { result ≡ record { remaining = R.remaining reader; failed = false } }
    {
        InputStream {
            reader,
            failed: false,
        }
    }

    // One read, into `buffer` from `start` on.
    fn read(&mut self, buffer: &mut [u8], start: usize) -> Result<usize, ReadFault>
        requires { start < length buffer.old }
        ensures front { take start buffer.new ≡ take start buffer.old }
        ensures fits { IfOk result (λ count. start + count ≤ length buffer.new) }
        ensures ok { IfOk result (λ count. Consumes self.old.remaining self.new.remaining
            (take count (drop start buffer.new))) }
        ensures end { IfOk result (λ count. count ≡ 0 → IsAtEnd self.new.remaining) }
        ensures kept { OnErr result (Keeps self.old.remaining self.new.remaining) }
        ensures err { OnErr result (result ≡ Err ReadFault.Failed) }
        ensures failed { OnErr result (self.new.failed ≡ true) }
    {
        match self.reader.read(&mut buffer[start..]) {
            Ok(count) => Ok(count),
            Err(_) => {
                self.failed = true;
                Err(ReadFault::Failed)
            }
        }
    }
}

/// Reads a document: all that the reader has, up to its end. Each turn takes at least one byte or ends the reading. An error of
/// any kind ends it as a fault. The reader is asked for one byte more than a document may have, and for no byte after that. The
/// room that the document doesn't need is given back.
///
/// # Errors
/// [`ReadFault::Memory`] if a growth was refused, [`ReadFault::Failed`] if the reader failed, and [`ReadFault::TooLong`] if it
/// has more bytes than a document may have.
pub fn read_document<R: Read>(
    alloc: Global,
    input: &mut InputStream<R>,
) -> Result<Vec<u8>, ReadFault>
    ensures fits { IfOk result (λ document. vec_len document ≤ DOCUMENT) }
    ensures whole { IfOk result (λ document. IfSome input.old.remaining (λ bytes. document.items ≡ bytes)) }
    ensures end { OnOk result (IsAtEnd input.new.remaining) }
    ensures taken { (bytes : List ℕ) × Consumes input.old.remaining input.new.remaining bytes
        × (length bytes ≤ DOCUMENT + 1) × (result ≡ Err ReadFault.TooLong → length bytes ≡ DOCUMENT + 1) }
    ensures failed { result ≡ Err ReadFault.Failed → input.new.failed ≡ true }
{
    let mut document = Vec::new(alloc);
    let mut filled = 0;
    while filled <= DOCUMENT {
        if make_room(&mut document, filled).is_err() {
            return Err(ReadFault::Memory);
        }
        let count = input.read(document.as_mut_slice(), filled)?;
        if count == 0 {
            document.truncate(filled);
            document.shrink_to_fit();
            return Ok(document);
        }
        filled += count;
    }
    Err(ReadFault::TooLong)
}

// Makes `buffer` longer than `filled`, with zeros. It gets twice its length, but at most one byte more than a document may
// have.
fn make_room(buffer: &mut Vec<u8>, filled: usize) -> Result<(), AllocError>
    requires filled { filled ≤ vec_len buffer.old }
    requires fits { filled ≤ DOCUMENT }
    requires bound { vec_len buffer.old ≤ DOCUMENT + 1 }
    ensures front { take filled buffer.new.items ≡ take filled buffer.old.items }
    ensures room { OnOk result (filled < vec_len buffer.new) }
    ensures bound { vec_len buffer.new ≤ DOCUMENT + 1 }
{
    let len = buffer.len();
    if filled < len {
        return Ok(());
    }
    let longer = (len * 2).max(FIRST_ROOM).min(DOCUMENT + 1);
    buffer.reserve_exact(longer - len)?;
    buffer.resize(longer, 0)
}
