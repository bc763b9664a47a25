ghost use Rattle.std.specs.Prelude.{◌≡◌};

/// Watches a round from outside. A worker reports to it which callback it comes to, and the gate may hold the worker there.
/// Each call returns, and none may wait for ever.
pub trait Gate: Sync {
    /// A worker is about to run the callback at this position of the ready list, from 1.
    fn pass(&self, position: usize);

    /// What the callback at this position did has come to the collector of a streamed round through the queue.
    fn took(&self, position: usize);

    /// Whether somebody watches. A run gives its rounds all workers then, and otherwise as many as save time.
    fn is_watched(&self) -> bool {
        true
    }
}

/// Nobody watches.
#[derive(Clone, Copy, Debug)]
pub struct Open;

impl Gate for Open {
    fn pass(&self, _position: usize) {}

    fn took(&self, _position: usize) {}

    fn is_watched(&self) -> bool {
        false
    }
}

// A sign that a worker has reported to a gate which callback it comes to. Only `tell` makes one, so that no callback runs
// before.
#[derive(Drop)]
pub(crate) struct Passed {
    position: usize,
}

impl Passed {
    // Reports to a gate the position of the callback that a worker comes to.
    #[inline(always)]
    pub(crate) fn tell<G: Gate>(gate: &G, position: usize) -> Passed
        ensures { result.position ≡ position }
    {
        gate.pass(position);
        Passed { position }
    }
}
