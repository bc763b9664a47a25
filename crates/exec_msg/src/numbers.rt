ghost use Rattle.std.specs.Prelude.{◌≡◌, ℕ, ◌+◌, ◌*◌, ◌%◌, ◌<◌, ◌≤◌, ◌^◌, SomeIff, IfOk, OnErr};

use crate::limits::{NUMBERS, TICKS};
use crate::memory::Memory;
use std::marker::Model;

/// A point in time, in ticks from the executor's start, at most [`TICKS`].
#[derive(Clone, Copy, Debug, PartialEq, Eq, PartialOrd, Ord, Hash)]
pub struct Moment(u64);

impl Model for Moment {
    ghost Value = { ℕ };

    ghost view = { λ moment. moment.0 };

    ghost invariant = { λ moment. moment.0 ≤ 2 ^ 62 };

    ghost inverse = { λ ticks. record { 0 = ticks } };
}

impl Moment {
    /// The moment at this many ticks, or `None` if they are more than [`TICKS`].
    pub fn new(ticks: u64) -> Option<Moment>
        ensures { SomeIff result (ticks ≤ 2 ^ 62) ticks }
    {
        if ticks <= TICKS {
            Some(Moment(ticks))
        } else {
            None
        }
    }

    /// The moment in ticks.
    pub fn ticks(self) -> u64
        ensures value { result ≡ self }
        ensures bound { result ≤ 2 ^ 62 }
    {
        self.0
    }
}

/// The identifier of a goal: an RFC 9562 UUID as one number. Its first byte is the highest.
#[derive(Clone, Copy, Debug, PartialEq, Eq, PartialOrd, Ord, Hash)]
pub struct GoalId {
    // Two halves, because a `u128` would make each line longer by its alignment.
    high: u64,
    low: u64,
}

impl Model for GoalId {
    ghost use Rattle.std.specs.Prelude.{ℕ, ◌+◌, ◌*◌, ◌/◌, ◌%◌, ◌<◌, ◌^◌};
    ghost use Rattle.std.proofs.lemmas.Nat.{div-mul-add, mod-mul-add};

    ghost Value = { ℕ };

    ghost view = { λ id. id.high * 2 ^ 64 + id.low };

    ghost invariant = { λ id. id.low < 2 ^ 64 };

    ghost inverse = { λ number. record { high = number / 2 ^ 64; low = number % 2 ^ 64 } };

    ghost inverse_ok = { λ id h i. record {
      high = div-mul-add id.high (2 ^ 64) id.low h i;
      low = mod-mul-add id.high (2 ^ 64) id.low h i;
    } };
}

impl GoalId {
    /// The identifier of a number.
    pub fn new(number: u128) -> GoalId
        ensures { result ≡ number }
    {
        GoalId {
            high: (number >> 64) as u64,
            low: (number & 0xffff_ffff_ffff_ffff) as u64,
        }
    }

    /// The identifier as a number.
    pub fn number(self) -> u128
        ensures { result ≡ self }
    {
        self.high as u128 * 0x1_0000_0000_0000_0000 + self.low as u128
    }

    // Its upper and its lower half.
    #[inline(always)]
    pub(crate) fn halves(self) -> (u64, u64)
        ensures { result.0 * 2 ^ 64 + result.1 ≡ self }
    {
        (self.high, self.low)
    }

    // Its lower half. For a goal of an action client it is the goal's number among that client's goals.
    #[inline(always)]
    pub(crate) fn count(self) -> u64
        ensures { result ≡ self % 2 ^ 64 }
    {
        self.low
    }

    // The identifier of these halves.
    #[inline(always)]
    pub(crate) fn of_halves(high: u64, low: u64) -> GoalId
        ensures { result ≡ high * 2 ^ 64 + low }
    {
        GoalId { high, low }
    }
}

/// The number of an entity: its place among the names of a graph, from 0.
#[derive(Clone, Copy, Debug, PartialEq, Eq, PartialOrd, Ord, Hash)]
pub struct EntityNo(pub u16);

impl Model for EntityNo {
    ghost Value = { ℕ };

    ghost view = { λ no. no.0 };

    ghost inverse = { λ number. record { 0 = number } };
}

/// The number after this one. Calls, goals and arrivals are numbered so, from 1.
///
/// # Errors
/// [`Memory`] if the number isn't below [`NUMBERS`].
#[inline(always)]
pub fn number_after(number: u64) -> Result<u64, Memory>
    ensures next { IfOk result (λ next. next ≡ number + 1) }
    ensures bound { IfOk result (λ next. next < 2 ^ 60) }
    ensures memory { OnErr result (2 ^ 60 ≤ number + 1) }
{
    if number >= NUMBERS - 1 {
        return Err(Memory);
    }
    Ok(number + 1)
}
