//! Documents that come one after another, each behind its length.
ghost use Rattle.std.specs.Prelude.{◌≡◌, ℕ, List, ◌+◌, ◌<◌, ◌≤◌, true, false, length, take, drop, OnErr, OnOk, IfOk};
ghost use Rattle.std.specs.Io.KnownBytes.{Keeps, IsAtEnd};
ghost use Rattle.exec_serve.specs.Serving.{number_bytes};
ghost use Rattle.exec_serve.specs.inner.Requests.{HasEnded, HasTaken, IsRead, IsShort, Takes};

use exec_msg::limits::DOCUMENT;
use std::alloc::Global;
use std::io::Read;
use std::marker::Model;

// How many bytes a length has, and how many of a document that finds no room are read at a time.
const LENGTH: usize = 8;

const PART: usize = 4096;

/// A reader of documents. It notes whether a read has failed.
#[derive(Drop)]
pub struct Requests<R: Read> {
    reader: R,
    failed: bool,
}

/// What a reader of documents gives.
#[derive(Drop)]
pub enum Request {
    /// No document: the input has ended.
    End,
    /// A document.
    Document(Vec<u8>),
    /// A document that was read, and for which a growth was refused.
    NoMemory,
}

/// No document can be read: the reader failed, or ended within a document, or a length is more than a document may have.
#[derive(Clone, Copy, Debug, PartialEq, Eq)]
pub struct RequestFault;

impl<R: Read> Model for Requests<R> {
    ghost use Rattle.exec_io.specs.Streams.{ReaderState};

    ghost Value = { ReaderState };

    ghost view = { λ requests. record { remaining = R.remaining requests.reader; failed = requests.failed } };
}

impl<R: Read> Requests<R> {
    /// A reader that hasn't failed yet.
    pub fn new(reader: R) -> Requests<R>
        ensures { result ≡ record { remaining = R.remaining reader; failed = false } }
    {
        Requests {
            reader,
            failed: false,
        }
    }

    /// Reads the next document: its length, as eight bytes with the highest first, and as many bytes. It asks for no byte more.
    ///
    /// # Errors
    /// [`RequestFault`] if the reader failed or ended within a document, or if the length is more than a document may have.
    pub fn next(&mut self, alloc: Global) -> Result<Request, RequestFault>
        ensures taken { IfOk result (HasTaken self.old self.new) }
        ensures ended { OnErr result (HasEnded self.old self.new) }
    {
        let mut head = [0; LENGTH];
        let count = self.fill(&mut head)?;
        if count == 0 {
            return Ok(Request::End);
        }
        if count < LENGTH {
            return Err(RequestFault);
        }
        let size = number(&head);
        if size > DOCUMENT as u64 {
            return Err(RequestFault);
        }
        self.document(alloc, size as usize)
    }

    // Reads a document of this many bytes.
    fn document(&mut self, alloc: Global, size: usize) -> Result<Request, RequestFault>
        ensures taken { IfOk result (λ request. (bytes : List ℕ) × (length bytes ≡ size) × Takes self.old self.new bytes × IsRead bytes request) }
        ensures ended { OnErr result (IsShort self.old self.new size) }
    {
        let Ok(mut document) = Vec::from_elem(alloc, 0, size) else {
            self.skip(size)?;
            return Ok(Request::NoMemory);
        };
        if self.fill(document.as_mut_slice())? < size {
            return Err(RequestFault);
        }
        Ok(Request::Document(document))
    }

    // Reads this many bytes, and forgets them.
    fn skip(&mut self, size: usize) -> Result<(), RequestFault>
        ensures taken { OnOk result ((bytes : List ℕ) × (length bytes ≡ size) × Takes self.old self.new bytes) }
        ensures ended { OnErr result (IsShort self.old self.new size) }
    {
        let mut part = [0; PART];
        let mut left = size;
        while left > 0 {
            let most = left.min(PART);
            if self.fill(&mut part[..most])? < most {
                return Err(RequestFault);
            }
            left -= most;
        }
        Ok(())
    }

    // Reads until a buffer is full or the reader ends, and answers how many bytes came.
    fn fill(&mut self, buffer: &mut [u8]) -> Result<usize, RequestFault>
        ensures same_length { length buffer.new ≡ length buffer.old }
        ensures within { IfOk result (λ count. count ≤ length buffer.new) }
        ensures taken { IfOk result (λ count. Takes self.old self.new (take count buffer.new)) }
        ensures end { IfOk result (λ count. count < length buffer.new → IsAtEnd self.new.remaining) }
        ensures failed { OnErr result (self.new.failed ≡ true) }
        ensures part { OnErr result ((bytes : List ℕ) × (length bytes < length buffer.old) × Takes self.old self.new bytes) }
    {
        let mut filled = 0;
        while filled < buffer.len() {
            let count = self.read(buffer, filled)?;
            if count == 0 {
                return Ok(filled);
            }
            filled += count;
        }
        Ok(filled)
    }

    // One read, into a buffer from `start` on.
    fn read(&mut self, buffer: &mut [u8], start: usize) -> Result<usize, RequestFault>
        requires { start < length buffer.old }
        ensures same_length { length buffer.new ≡ length buffer.old }
        ensures front { take start buffer.new ≡ take start buffer.old }
        ensures fits { IfOk result (λ count. start + count ≤ length buffer.new) }
        ensures taken { IfOk result (λ count. Takes self.old self.new (take count (drop start buffer.new))) }
        ensures end { IfOk result (λ count. count ≡ 0 → IsAtEnd self.new.remaining) }
        ensures kept { OnErr result (Keeps self.old.remaining self.new.remaining) }
        ensures failed { OnErr result (self.new.failed ≡ true) }
    {
        match self.reader.read(&mut buffer[start..]) {
            Ok(count) => Ok(count),
            Err(_) => {
                self.failed = true;
                Err(RequestFault)
            }
        }
    }
}

// The number that these bytes are, the highest first.
fn number(bytes: &[u8; LENGTH]) -> u64
    ensures { number_bytes result ≡ bytes.now }
{
    u64::from_be_bytes(*bytes)
}
