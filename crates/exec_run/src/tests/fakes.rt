use std::env::{Env, FillError};
use std::io;
use std::io::{ErrorKind, Read, Write};

/// Gives its bytes, at most `step` at a time, and fails after a number of calls.
#[derive(Drop)]
pub struct Source<'a> {
    pub bytes: &'a [u8],
    pub step: usize,
    pub calls: usize,
}

impl Read for Source<'_> {
    fn read(&mut self, buf: &mut [u8]) -> io::Result<usize> {
        if self.calls == 0 {
            return Err(io::Error::from(ErrorKind::Interrupted));
        }
        self.calls -= 1;
        let count = self.step.min(buf.len());
        self.bytes.read(&mut buf[..count])
    }
}

/// Gives this number of spaces.
#[derive(Drop)]
pub struct Spaces(pub usize);

impl Read for Spaces {
    fn read(&mut self, buf: &mut [u8]) -> io::Result<usize> {
        let count = self.0.min(buf.len());
        for byte in buf[..count].iter_mut() {
            *byte = b' ';
        }
        self.0 -= count;
        Ok(count)
    }
}

/// How a sink fails.
#[derive(Clone, Copy, Debug, PartialEq, Eq)]
pub enum End {
    Fails,
    TakesNothing,
}

/// Takes at most `step` bytes at a time, and no more after a number of calls. Its flush fails then too.
#[derive(Drop)]
pub struct Sink {
    pub taken: Vec<u8>,
    pub step: usize,
    pub calls: usize,
    pub end: End,
}

impl Write for Sink {
    fn write(&mut self, buf: &[u8]) -> io::Result<usize> {
        if self.calls == 0 {
            return match self.end {
                End::Fails => Err(io::Error::from(ErrorKind::Interrupted)),
                End::TakesNothing => Ok(0),
            };
        }
        self.calls -= 1;
        let count = self.step.min(buf.len());
        self.taken.extend_from_slice(&buf[..count])?;
        Ok(count)
    }

    fn flush(&mut self) -> io::Result<()> {
        if self.calls == 0 {
            return Err(io::Error::from(ErrorKind::Interrupted));
        }
        Ok(())
    }
}

/// Holds what it takes until it is flushed. Its first flushes are interrupted.
#[derive(Drop)]
pub struct Holding {
    pub held: Vec<u8>,
    pub given: Vec<u8>,
    pub interruptions: usize,
}

impl Write for Holding {
    fn write(&mut self, buf: &[u8]) -> io::Result<usize> {
        self.held.extend_from_slice(buf)?;
        Ok(buf.len())
    }

    fn flush(&mut self) -> io::Result<()> {
        if self.interruptions > 0 {
            self.interruptions -= 1;
            return Err(io::Error::from(ErrorKind::Interrupted));
        }
        self.given.append(&mut self.held)?;
        Ok(())
    }
}

/// The words that a program is started with, its own name first.
#[derive(Clone, Copy)]
pub struct Arguments<'a, 'b>(pub &'a [&'b [u8]]);

impl Env for Arguments<'_, '_> {
    fn arg(&self, i: usize, buf: &mut [u8]) -> Result<usize, FillError> {
        let Some(word) = self.0.get(i) else {
            return Err(FillError::NotPresent);
        };
        if word.len() > buf.len() {
            return Err(FillError::TooLong);
        }
        buf[..word.len()].copy_from_slice(word);
        Ok(word.len())
    }

    fn var(&self, _name: &str, _buf: &mut [u8]) -> Result<usize, FillError> {
        Err(FillError::NotPresent)
    }

    fn var_at(&self, _i: usize, _buf: &mut [u8]) -> Result<usize, FillError> {
        Err(FillError::NotPresent)
    }
}
