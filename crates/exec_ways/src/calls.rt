//! The calls that run a whole document, compared with each other.
ghost use Rattle.std.specs.Prelude.{◌<◌, ◌≤◌};

use exec_io::Settings;
use exec_lane::{Gate, Open};
use exec_round::{RunFault, Through, run, run_into};
use std::alloc::Global;
use std::sync::Wait;
use std::thread::Threads;

// Somebody watches, and holds nothing.
struct Watched;

impl Gate for Watched {
    fn pass(&self, _position: usize) {}

    fn took(&self, _position: usize) {}
}

/// The texts that the calls gave of a document.
#[derive(Drop)]
pub struct Texts {
    /// By [`run`], while somebody watched.
    pub watched: Vec<u8>,
    /// By [`run`], while nobody watched.
    pub unwatched: Vec<u8>,
    /// By [`run_into`] into memory, while somebody watched.
    pub written: Vec<u8>,
}

/// Runs a document by each call, with workers that are watched or not.
///
/// # Errors
/// [`RunFault`] if one of the calls answers it.
pub fn run_calls<R: Threads + Wait + Sync>(
    rt: &R,
    alloc: Global,
    document: &[u8],
    settings: Settings,
) -> Result<Texts, RunFault>
    requires workers { (0 < settings.workers) × (settings.workers ≤ 64) }
    requires quantum { (0 < settings.quantum) × (settings.quantum ≤ 1024) }
{
    let (workers, quantum) = (settings.workers as usize, settings.quantum as usize);
    let watched = run(rt, alloc, document, workers, quantum, &Watched)?;
    let unwatched = run(rt, alloc, document, workers, quantum, &Open)?;
    let mut out = Through::new(Vec::new(alloc));
    run_into(rt, alloc, document, workers, quantum, &Watched, &mut out)?;
    Ok(Texts {
        watched,
        unwatched,
        written: out.writer,
    })
}
