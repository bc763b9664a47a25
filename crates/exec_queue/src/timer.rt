ghost use Rattle.std.specs.Prelude.{◌≡◌, map, OnOk};
ghost use Rattle.std.specs.List.{flat_map};
ghost use Rattle.exec_rules.specs.Ready.{due_ready, timer_taken};
ghost use Rattle.exec_rules.specs.inner.Listing.{listed_behind};

use exec_msg::{Elements, Memory, Moment, Timer};
use exec_rules::{Cause, Handler, ReadyList};
use std::alloc::Global;
use std::marker::Model;

/// A timer of a graph, with its callback.
#[derive(Drop)]
pub struct EntityTimer {
    handler: Handler,
    timer: Timer,
}

impl Model for EntityTimer {
    ghost use Rattle.exec_rules.specs.World.{TimerEntry};

    ghost Value = { TimerEntry };

    ghost view = { λ entry. record { handler = entry.handler; timer = entry.timer } };
}

impl EntityTimer {
    ghost use Rattle.std.specs.Prelude.{◌≡◌, OnOk};
    ghost use Rattle.exec_msg.specs.Timer.{IsPeriod};
    ghost use Rattle.exec_rules.specs.Ready.{due_ready, timer_taken};
    ghost use Rattle.exec_rules.specs.inner.Listing.{listed_behind};

    /// A timer that is made at moment 0.
    pub fn new(handler: Handler, period: u64) -> EntityTimer
        requires { IsPeriod period }
        ensures { result ≡ record { handler = handler; timer = record { next = period; period = period } } }
    {
        EntityTimer {
            handler,
            timer: Timer::new(period),
        }
    }

    // Makes the timer's call if it is due, and then lists its callback.
    #[inline(always)]
    fn take_into(&mut self, alloc: Global, now: Moment, list: &mut ReadyList) -> Result<(), Memory>
        ensures timer { OnOk result (self.new ≡ timer_taken now self.old) }
        ensures listed { OnOk result (list.new ≡ listed_behind list.old (due_ready now self.old)) }
    {
        if self.timer.due(now) {
            self.timer.call(now);
            list.push(
                self.handler
                    .listed(now, Cause::Due, Elements::new(alloc), true),
            )?;
        }
        Ok(())
    }
}

/// Makes the call of each timer that is due, and lists their callbacks.
///
/// # Errors
/// [`Memory`] if a growth was refused. Some of the timers may have made their calls.
pub fn take_due_into(
    alloc: Global,
    timers: &mut [EntityTimer],
    now: Moment,
    list: &mut ReadyList,
) -> Result<(), Memory>
    ensures timers { OnOk result (timers.new ≡ map (timer_taken now) timers.old) }
    ensures listed { OnOk result (list.new ≡ listed_behind list.old (flat_map (due_ready now) timers.old)) }
{
    for place in 0..timers.len() {
        timers[place].take_into(alloc, now, list)?;
    }
    Ok(())
}
