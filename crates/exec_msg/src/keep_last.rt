ghost use Rattle.std.specs.Prelude.{◌≡◌, ◌≤◌, [], length, slice_get, IfOk};
ghost use Rattle.std.specs.Option.{option_copied};
ghost use Rattle.exec_msg.specs.KeepLast.{sent, displaced, after_taking};
ghost use Rattle.exec_msg.specs.declared.limits.TheConstants.{DEPTH};

use crate::memory::Memory;
use circular_buffer::HeapCircularBuffer;
use std::alloc::Global;
use std::marker::Model;

/// A queue that keeps the last items that were sent to it, as many as its depth: `rclcpp`'s history policy "keep last".
#[derive(Drop)]
pub struct KeepLast<T> {
    ring: HeapCircularBuffer<T>,
}

impl<T> Model for KeepLast<T> {
    ghost use Rattle.std.specs.Prelude.{◌≤◌, length};
    ghost use Rattle.exec_msg.specs.KeepLast.{BoundedQueue, queue_code};

    ghost Value = { BoundedQueue T };

    ghost coded = { queue_code T.code };

    ghost view = { λ queue. record { items = queue.ring.items; depth = queue.ring.capacity } };

    ghost invariant = { λ queue. length queue.ring.items ≤ queue.ring.capacity };
}

impl<T> KeepLast<T> {
    /// An empty queue of a depth from 1 to [`DEPTH`](crate::limits::DEPTH) items. It takes all the memory here that it will
    /// ever need.
    ///
    /// # Errors
    /// [`Memory`] if a growth was refused.
    pub fn new(alloc: Global, depth: usize) -> Result<KeepLast<T>, Memory>
        requires { (1 ≤ depth) × (depth ≤ DEPTH) }
        ensures { IfOk result (λ queue. queue ≡ record { items = []; depth = depth }) }
    {
        let ring = HeapCircularBuffer::with_capacity(alloc, depth)?;
        Ok(KeepLast { ring })
    }

    /// Sends an item. A full queue loses its oldest item by it, and gives it back. It takes no memory.
    pub fn push(&mut self, item: T) -> Option<T>
        ensures sent { self.new ≡ record self.old { items = sent self.old.depth item self.old.items } }
        ensures displaced { result ≡ slice_get (displaced self.old.depth item self.old.items) 0 }
    {
        self.ring.push_back(item)
    }

    /// Takes the oldest item, if there is one.
    pub fn take(&mut self) -> Option<T>
        ensures taken { self.new ≡ record self.old { items = after_taking self.old.items } }
        ensures oldest { result ≡ slice_get self.old.items 0 }
    {
        // If the only item is taken from the back, the ring's start doesn't move, so that the same cells are used again.
        if self.ring.len() == 1 {
            self.ring.pop_back()
        } else {
            self.ring.pop_front()
        }
    }

    /// The oldest item, if there is one.
    pub fn front(&self) -> Option<&T>
        ensures { option_copied result ≡ slice_get self.now.items 0 }
    {
        self.ring.front()
    }

    /// The number of its items.
    pub fn len(&self) -> usize
        ensures value { result ≡ length self.now.items }
        ensures bound { result ≤ self.now.depth }
    {
        self.ring.len()
    }
}
