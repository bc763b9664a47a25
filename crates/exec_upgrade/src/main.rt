//! `exec_upgrade`: reads a document on standard input and writes its text in version 2, which says the same plan.
#![tactic(auto)]

mod program;

use exec_io::{InputStream, Through, Uninterrupted, read_words};
use program::execute;
use std::process::ExitCode;

fn main(rt: HostRuntime) -> ExitCode {
    let words = read_words(&rt);
    let status = execute(
        rt.alloc(),
        words,
        &mut InputStream::new(Uninterrupted { stream: rt.stdin() }),
        &mut Through::new(Uninterrupted {
            stream: rt.stdout(),
        }),
        &mut Through::new(Uninterrupted {
            stream: rt.stderr(),
        }),
    );
    ExitCode::from(status.number())
}
