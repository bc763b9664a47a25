ghost use Rattle.std.specs.Prelude.{◌≡◌, ◌↔◌, ⊤, Ok, None, Some, IsSome, IsErr, OnErr};
ghost use Rattle.futures.specs.Poll.{IfReady, OnPending};
ghost use Rattle.futures.specs.Task.{Covers, Keeps};
ghost use Rattle.exec_task.specs.Call.{new_call, completed, CallNeeds, poll_of_reply};
ghost use Rattle.exec_task.specs.Wake.{LeftWaker};

use crate::wake::WakeSource;
use exec_msg::Memory;
use futures::Future;
use futures::task::{Context, Poll};
use std::marker::Model;
use thiserror::Error;

/// A call of a service client that waits for its reply, as a future.
#[derive(Drop)]
pub struct PendingCall {
    number: u64,
    reply: Option<i64>,
    wake: WakeSource,
}

impl Model for PendingCall {
    ghost use Rattle.exec_task.specs.Call.{PendingCallState};

    ghost Value = { PendingCallState };

    ghost view = { λ pending. record { call = record { number = pending.number; reply = pending.reply }; wake = pending.wake } };
}

/// A reply came to a call that has one.
#[derive(Clone, Copy, Debug, PartialEq, Eq, Error)]
#[error("the call has its reply already")]
pub struct Already;

impl PendingCall {
    /// A client's call of this number, from 1, with no reply yet. It takes no memory.
    pub fn new(number: u64) -> PendingCall
        ensures call { result.call ≡ new_call number }
        ensures waker { result.wake.waker ≡ None }
    {
        PendingCall {
            number,
            reply: None,
            wake: WakeSource::new(),
        }
    }

    /// Gives the call its reply, and wakes the task that waits for it.
    ///
    /// # Errors
    /// [`Already`] if the call has a reply. It doesn't change.
    pub fn complete(&mut self, value: i64) -> Result<(), Already>
        ensures call { self.new.call ≡ completed value self.old.call }
        ensures already { IsErr result ↔ IsSome self.old.call.reply }
        ensures unchanged { OnErr result (self.new ≡ self.old) }
        ensures wake { self.old.call.reply ≡ None → self.new.wake ≡ record self.old.wake { waker = None } }
    {
        if self.reply.is_some() {
            return Err(Already);
        }
        self.reply = Some(value);
        self.wake.clear();
        Ok(())
    }

    /// The reply, if there is one. Until then the task that is polled waits for it. No poll takes memory, so none answers
    /// `Memory`. If no waker can be made, the poll yields.
    pub fn poll_reply(&mut self, cx: &mut Context<'_>) -> Result<Poll<i64>, Memory>
        ensures answer { result ≡ Ok (poll_of_reply self.old.call.reply) }
        ensures call { self.new.call ≡ self.old.call }
        ensures source { self.new.wake.source ≡ self.old.wake.source }
        ensures same { IsSome self.old.call.reply → self.new ≡ self.old }
        ensures registered { self.old.call.reply ≡ None → Covers cx.new (CallNeeds self.new) }
        ensures waker { self.old.call.reply ≡ None → LeftWaker cx.old cx.new self.new.wake }
        ensures kept { Keeps cx.old cx.new }
    {
        Ok(self.poll(cx))
    }
}

impl Future for PendingCall {
    type Output = i64;

    ghost needs = { CallNeeds };

    ghost gives = { λ pending reply. pending.call.reply ≡ Some reply };

    fn poll(&mut self, cx: &mut Context<'_>) -> Poll<i64>
        // What the trait asks of each future.
        ensures value { IfReady result (λ reply. self.old.call.reply ≡ Some reply) }
        ensures again { OnPending result ⊤ }
        ensures same { OnPending result ((reply : _) → self.new.call.reply ≡ Some reply → self.old.call.reply ≡ Some reply) }
        ensures registered { OnPending result (Covers cx.new (CallNeeds self.new)) }
        ensures kept { Keeps cx.old cx.new }

        // What this one answers, and leaves.
        ensures answer { result ≡ poll_of_reply self.old.call.reply }
        ensures call { self.new.call ≡ self.old.call }
        ensures source { self.new.wake.source ≡ self.old.wake.source }
        ensures ready { IsSome self.old.call.reply → self.new ≡ self.old }
        ensures waker { self.old.call.reply ≡ None → LeftWaker cx.old cx.new self.new.wake }
    {
        match self.reply {
            Some(reply) => Poll::Ready(reply),
            None => self.wake.register(cx),
        }
    }
}
