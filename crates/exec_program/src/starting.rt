//! How a program is started.
use crate::program::execute;
use exec_io::{InputStream, Uninterrupted, read_words};
use exec_lane::Gate;
use exec_round::Through;
use std::env::Env;
use std::io::{Read, Write};
use std::process::ExitCode;
use std::sync::Wait;
use std::thread::Threads;

/// The whole program by the words that it was started with, over standard input, standard output and standard error. No clause
/// can say what these words are. The contract of [`execute`] says what comes of them. A read or a write that a signal
/// interrupts is made again.
pub fn start<
    H: Threads + Wait + Sync + Env + AllocGlobal,
    G: Gate,
    R: Read + Drop,
    O: Write + Drop,
    E: Write + Drop,
>(rt: &H, gate: &G, input: R, output: O, errors: E) -> ExitCode {
    let words = read_words(rt);
    let status = execute(
        rt,
        rt.alloc(),
        words,
        gate,
        &mut InputStream::new(Uninterrupted { stream: input }),
        &mut Through::new(Uninterrupted { stream: output }),
        &mut Through::new(Uninterrupted { stream: errors }),
    );
    ExitCode::from(status.number())
}
