//! Lines in few bytes each.
mod form;
mod halves;
pub(crate) mod push;
pub(crate) mod said;

use crate::goal::{Decision, GoalStatus};
use crate::kind::Kind;
use crate::numbers::EntityNo;
use std::mem::size_of;

/// A line in twelve bytes, with its smallest field first. A number of 64 bits is in two halves. A short one, below 2^32, may be
/// in its lower half alone.
///
/// Most cells have neither the goal that their line is on, nor `aux`. The goal is then the identifier that was given last, and
/// `aux` is its count, which is its lower half. A cell that says no line gives an identifier. So does a run line on a near
/// goal, which is one whose halves are below 2^16.
#[derive(Clone, Copy)]
pub(crate) enum PackedCell {
    Round {
        upper: u16,
        number: u32,
        lower: u32,
    },
    /// One with 0 as its `aux`.
    Run {
        kind: Kind,
        entity: EntityNo,
        high: u32,
        low: u32,
    },
    /// One with the count as its `aux`.
    RunCounted {
        kind: Kind,
        entity: EntityNo,
        high: u32,
        low: u32,
    },
    Drop {
        kind: Kind,
        entity: EntityNo,
        high: u32,
        low: u32,
    },
    Pub {
        topic: EntityNo,
        high: u32,
        low: u32,
    },
    /// One with the count as its number.
    Call {
        client: EntityNo,
        high: u32,
        low: u32,
    },
    Reply {
        service: EntityNo,
        high: u32,
        low: u32,
    },
    Log {
        entity: EntityNo,
        high: u32,
        low: u32,
    },
    /// One with 0 as its `aux`.
    RunOnGoal {
        kind: Kind,
        entity: EntityNo,
        high: u32,
        low: u32,
    },
    /// One with a short input and a short `aux`.
    RunOnGoalBeside {
        kind: Kind,
        entity: EntityNo,
        aux: u32,
        low: u32,
    },
    /// One with the count as its `aux`.
    RunOnGoalCounted {
        kind: Kind,
        entity: EntityNo,
        high: u32,
        low: u32,
    },
    /// One on a near goal, with a short input and 0 as its `aux`.
    RunOnNear {
        kind: Kind,
        entity: EntityNo,
        maker: u16,
        count: u16,
        low: u32,
    },
    /// One on a near goal, with a short input and the goal's count as its `aux`.
    RunOnNearCounted {
        kind: Kind,
        entity: EntityNo,
        maker: u16,
        count: u16,
        low: u32,
    },
    Expire {
        server: EntityNo,
    },
    Goal {
        client: EntityNo,
        high: u32,
        low: u32,
    },
    Cancel {
        client: EntityNo,
        high: u32,
        low: u32,
    },
    Feedback {
        server: EntityNo,
        high: u32,
        low: u32,
    },
    Decide {
        decision: Decision,
        server: EntityNo,
    },
    State {
        status: GoalStatus,
        server: EntityNo,
    },
    Ask {
        client: EntityNo,
    },
    Result {
        status: GoalStatus,
        server: EntityNo,
        high: u32,
        low: u32,
    },
    /// Gives an identifier. It has the count and a short upper half, or only the upper half. The lower half is then that of the
    /// last identifier.
    Id {
        is_upper: bool,
        maker: u16,
        high: u32,
        low: u32,
    },
    /// A line that has no such form. It is kept whole, next to the cells.
    Whole,
}

const _: () = prove!(size_of::<PackedCell>() == 12);
