ghost use Rattle.std.specs.Prelude.{◌≡◌, ◌≤◌, ◌^◌, IsTrue};
ghost use Rattle.exec_msg.specs.Timer.{IsPeriod, is_due, next_call, after_call, IsNextCall};

use crate::numbers::Moment;
use std::marker::Model;

/// A timer as `rclcpp` has it: the time of its next call and its period, both in ticks.
#[derive(Clone, Copy, Debug, PartialEq, Eq)]
pub struct Timer {
    next: u64,
    period: u64,
}

impl Model for Timer {
    ghost use Rattle.std.specs.Prelude.{◌≤◌, ◌^◌};
    ghost use Rattle.exec_msg.specs.Timer.{TimerState, IsPeriod};

    ghost Value = { TimerState };

    ghost view = { λ timer. record { next = timer.next; period = timer.period } };

    ghost invariant = { λ timer. (timer.next ≤ 2 ^ 63) × IsPeriod timer.period };

    ghost inverse = { λ state. record { next = state.next; period = state.period } };
}

impl Timer {
    /// A timer that is made at moment 0. Its first call comes after one period. The period has 1 to
    /// [`TICKS`](crate::limits::TICKS) ticks.
    pub fn new(period: u64) -> Timer
        requires { IsPeriod period }
        ensures { result ≡ record { next = period; period = period } }
    {
        Timer {
            next: period,
            period,
        }
    }

    /// Whether the next call is at or before `now`.
    pub fn due(&self, now: Moment) -> bool
        ensures { result ≡ is_due self.now now }
    {
        self.next <= now.ticks()
    }

    /// Makes the call, which is due, at `now`. The next one comes a period later, or after as many periods as it takes to reach
    /// `now`.
    pub fn call(&mut self, now: Moment)
        requires { IsTrue (is_due self.old now) }
        ensures called { self.new ≡ after_call self.old now }
        ensures least { IsNextCall self.old now self.new.next }
    {
        self.next = next_time(self.next, self.period, now.ticks());
    }
}

fn next_time(next: u64, period: u64, now: u64) -> u64
    requires due { next ≤ now }
    requires moment { now ≤ 2 ^ 62 }
    requires period { IsPeriod period }
    ensures value { result ≡ next_call (record { next = next; period = period }) now }
    ensures least { IsNextCall (record { next = next; period = period }) now result }
    ensures bound { result ≤ 2 ^ 63 }
{
    let first = next + period;
    if first >= now {
        return first;
    }
    first + (now - first).div_ceil(period) * period
}
