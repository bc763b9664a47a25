use exec_msg::{Event, Moment};
use exec_script::EffectList;

/// What a pending goal waits for.
#[derive(Clone, Copy, Debug, PartialEq, Eq)]
pub enum Wait {
    /// The next round, whichever it is.
    NextRound,
    /// A round at or after this time, in ticks.
    Until(u64),
}

/// What ended a goal: an event that leads to a terminal state, and a value.
#[derive(Clone, Copy, Debug, PartialEq, Eq)]
pub struct Ending {
    /// Succeed, Abort or Canceled.
    pub event: Event,
    /// The goal's result.
    pub value: i64,
}

/// What a poll of a goal answers.
#[derive(Clone, Copy, Debug, PartialEq, Eq)]
pub enum Answer {
    /// The goal has ended.
    Ready(Ending),
    /// The goal pends.
    Pending(Wait),
}

/// What a poll of a goal gives.
#[derive(Debug, Drop)]
pub struct Polled {
    /// The effects of the poll, in their order.
    pub effects: EffectList,
    /// Whether the goal has ended.
    pub answer: Answer,
}

/// The round in which a goal is polled.
#[derive(Clone, Copy, Debug, PartialEq, Eq)]
pub struct Turn {
    /// Its moment.
    pub moment: Moment,
    /// Whether the goal was being canceled at the snapshot.
    pub canceling: bool,
}

/// What wakes a pending task.
#[derive(Clone, Copy, Debug, PartialEq, Eq)]
pub enum Source {
    /// The clock, at or after a time in ticks.
    Clock(u64),
    /// The goal's cancellation.
    Cancellation,
    /// The reply to a call.
    Reply,
}
