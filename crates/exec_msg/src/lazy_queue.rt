ghost use Rattle.std.specs.Prelude.{◌≡◌, ◌≤◌, [], length, slice_get, OnOk, IfOk, OnErr};
ghost use Rattle.std.specs.Option.{option_copied};
ghost use Rattle.exec_msg.specs.KeepLast.{sent, displaced, after_taking};
ghost use Rattle.exec_msg.specs.declared.limits.TheConstants.{DEPTH};

use crate::keep_last::KeepLast;
use crate::memory::Memory;
use std::alloc::Global;
use std::marker::Model;

/// A [`KeepLast`] that takes its memory when its first item is sent. A queue that nothing is ever sent to takes no memory,
/// however deep it is.
#[derive(Drop)]
pub struct LazyQueue<T> {
    alloc: Global,
    depth: usize,
    made: Option<KeepLast<T>>,
}

impl<T> Model for LazyQueue<T> {
    ghost use Rattle.std.specs.Prelude.{◌≡◌, ◌≤◌, length, IfSome};
    ghost use Rattle.exec_msg.specs.KeepLast.{BoundedQueue, queue_code};
    ghost use Rattle.exec_msg.specs.inner.Lazy.{made_items};
    ghost use Rattle.exec_msg.specs.declared.limits.TheConstants.{DEPTH};

    ghost Value = { BoundedQueue T };

    ghost coded = { queue_code T.code };

    ghost view = { λ queue. record { items = made_items queue.made; depth = queue.depth } };

    ghost invariant = { λ queue. (1 ≤ queue.depth) × (queue.depth ≤ DEPTH) × (length (made_items queue.made) ≤ queue.depth)
        × IfSome queue.made (λ made. made.depth ≡ queue.depth) };
}

impl<T> LazyQueue<T> {
    /// An empty queue of a depth from 1 to [`DEPTH`](crate::limits::DEPTH) items. It takes no memory.
    pub fn new(alloc: Global, depth: usize) -> LazyQueue<T>
        requires { (1 ≤ depth) × (depth ≤ DEPTH) }
        ensures { result ≡ record { items = []; depth = depth } }
    {
        LazyQueue {
            alloc,
            depth,
            made: None,
        }
    }

    /// Takes the oldest item, if there is one.
    pub fn take(&mut self) -> Option<T>
        ensures taken { self.new ≡ record self.old { items = after_taking self.old.items } }
        ensures oldest { result ≡ slice_get self.old.items 0 }
    {
        match &mut self.made {
            None => None,
            Some(made) => made.take(),
        }
    }

    /// The oldest item, if there is one.
    pub fn front(&self) -> Option<&T>
        ensures { option_copied result ≡ slice_get self.now.items 0 }
    {
        match &self.made {
            None => None,
            Some(made) => made.front(),
        }
    }

    /// The number of its items.
    pub fn len(&self) -> usize
        ensures value { result ≡ length self.now.items }
        ensures bound { result ≤ self.now.depth }
    {
        match &self.made {
            None => 0,
            Some(made) => made.len(),
        }
    }
}

impl<T: Drop> LazyQueue<T> {
    /// Sends an item. A full queue loses its oldest item by it, and gives it back. The first item that is sent makes all the
    /// room that the queue will ever need.
    ///
    /// # Errors
    /// [`Memory`] if a growth was refused. A queue that has an item needs no memory. The item is dropped, and the queue doesn't
    /// change.
    pub fn send(&mut self, item: T) -> Result<Option<T>, Memory>
        ensures ok { OnOk result (self.new ≡ record self.old { items = sent self.old.depth item self.old.items }) }
        ensures displaced { IfOk result (λ lost. lost ≡ slice_get (displaced self.old.depth item self.old.items) 0) }
        ensures unchanged { OnErr result (self.new ≡ self.old) }
        ensures memory { OnErr result (self.old.items ≡ []) }
    {
        if let Some(made) = &mut self.made {
            return Ok(made.push(item));
        }
        let mut made = KeepLast::new(self.alloc, self.depth)?;
        let displaced = made.push(item);
        self.made = Some(made);
        Ok(displaced)
    }
}
