//! `exec_serve <workers> <quantum>`: runs documents one after another, as `exec_run` runs one. A document comes on standard input
//! as its length and its bytes, and is answered on standard output before the next one is read: by a status, a length, and the
//! transcript.
#![tactic(auto)]

mod answering;
mod laws;
mod requests;
mod serving;

use exec_io::{Through, Uninterrupted, read_words};
use exec_lane::Open;
use requests::Requests;
use serving::serve;
use std::process::ExitCode;

fn main(rt: HostRuntime) -> ExitCode {
    let words = read_words(&rt);
    let status = serve(
        &rt,
        rt.alloc(),
        words,
        &Open,
        &mut Requests::new(Uninterrupted { stream: rt.stdin() }),
        &mut Through::new(Uninterrupted {
            stream: rt.stdout(),
        }),
        &mut Through::new(Uninterrupted {
            stream: rt.stderr(),
        }),
    );
    ExitCode::from(status.number())
}
