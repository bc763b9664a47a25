ghost use Rattle.std.specs.Prelude.{◌≡◌, None};
ghost use Rattle.futures.specs.Task.{Hears, IsArmed, Keeps};
ghost use Rattle.exec_task.specs.Wake.{LeftWaker};

use futures::task::{Context, Poll, Source, Waker};
use std::marker::Model;

// A source that a task owns, with the slot for the waker that a poll leaves there. A waker that is laid aside no longer wakes
// its task. It is kept for the next poll that waits, which then makes none.
#[derive(Drop)]
pub(crate) struct WakeSource {
    source: Source,
    slot: Option<Waker>,
    aside: bool,
}

impl Model for WakeSource {
    ghost use Rattle.exec_task.specs.Wake.{WakeState, waker_in};

    ghost Value = { WakeState };

    ghost view = { λ own. record { source = own.source.id; waker = waker_in own.aside own.slot } };
}

impl WakeSource {
    pub(crate) fn new() -> WakeSource
        ensures { result.waker ≡ None }
    {
        WakeSource {
            source: Source::new(),
            slot: None,
            aside: false,
        }
    }

    // A poll of the task waits for the source.
    pub(crate) fn register<T>(&mut self, cx: &mut Context<'_>) -> Poll<T>
        ensures pending { result ≡ Poll.Pending }
        ensures source { self.new.source ≡ self.old.source }
        ensures waker { LeftWaker cx.old cx.new self.new }
        ensures armed { IsArmed cx.new }
        ensures heard { Hears cx.new self.old.source }
        ensures kept { Keeps cx.old cx.new }
    {
        self.aside = false;
        cx.register(&self.source, &mut self.slot)
    }

    // The source has fired, or the task no longer waits for it. A waker that isn't laid aside wakes its task, and is dropped.
    pub(crate) fn clear(&mut self)
        ensures { self.new ≡ record self.old { waker = None } }
    {
        self.slot = None;
    }

    // The task that is polled has yielded, so no waker needs to wake it. A waker in the slot is laid aside.
    pub(crate) fn lay_aside(&mut self)
        ensures { self.new ≡ record self.old { waker = None } }
    {
        self.aside = true;
    }
}
