//! `exec_watched <workers> <quantum>`: `exec_run` under a gate that says that somebody watches. Each round with a ready
//! callback is cut into lanes, claimed by as many workers as its words say, and streamed, whether that pays or not. It is for
//! tests.
#![tactic(auto)]

use exec_lane::Gate;
use exec_program::start;
use std::process::ExitCode;

// Somebody watches, and holds nothing.
struct Watched;

impl Gate for Watched {
    fn pass(&self, _position: usize) {}

    fn took(&self, _position: usize) {}
}

fn main(rt: HostRuntime) -> ExitCode {
    start(&rt, &Watched, rt.stdin(), rt.stdout(), rt.stderr())
}
