//! `exec_run <workers> <quantum>`: reads a document on standard input and writes its transcript.
#![tactic(auto)]

#[cfg(test)]
mod tests;

use exec_lane::Open;
use exec_program::start;
use std::process::ExitCode;

fn main(rt: HostRuntime) -> ExitCode {
    start(&rt, &Open, rt.stdin(), rt.stdout(), rt.stderr())
}
