//! How the rounds of a run are shared among workers.
ghost use Rattle.std.specs.Prelude.{◌<◌};

use std::alloc::Global;

// By at most so many workers, each of which claims at most `quantum` callbacks at a time, under a gate.
#[derive(Drop)]
pub(crate) struct Sharing<'g, G> {
    pub(crate) alloc: Global,
    pub(crate) workers: usize,
    pub(crate) quantum: usize,
    pub(crate) gate: &'g G,
    ghost some: { 0 < workers },
    ghost each: { 0 < quantum },
}
