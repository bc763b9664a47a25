use exec_msg::Memory;
use futures::task::{Context, Doorbell, Solo};
use std::alloc::Global;
use std::io;
use std::random::RandomSource;

/// Makes the contexts in which goals and calls are polled by hand. Its task is run by nobody, so a waker of it does nothing.
/// One poller may serve many, one after another.
#[derive(Drop)]
pub struct Poller {
    task: Solo,
}

impl Poller {
    /// A poller of its own. It takes its memory here, because a poll can't answer later that the poller was refused memory.
    ///
    /// # Errors
    /// [`Memory`] if a growth was refused.
    pub fn new(alloc: Global) -> Result<Poller, Memory> {
        match Solo::new(&(Nameless, alloc), Doorbell::spinning()) {
            Ok(task) => Ok(Poller { task }),
            Err(_) => Err(Memory),
        }
    }

    /// Begins a poll, which ends with `cancel` of its context.
    pub fn begin(&self) -> Context<'_> {
        self.task.begin()
    }
}

// Executors tell each other's tasks apart by a random name. Nobody runs a poller's task, so all may have the same name.
#[derive(Drop)]
struct Nameless;

impl RandomSource for Nameless {
    fn fill_bytes(&self, _name: &mut [u8]) -> io::Result<()> {
        Ok(())
    }
}
