use crate::goal::{Decision, GoalStatus, ReturnCode};
use crate::kind::Kind;
use crate::numbers::{EntityNo, GoalId, Moment};

/// A line of a transcript.
#[derive(Clone, Copy, Debug, PartialEq, Eq)]
pub enum Line {
    /// A round begins: its number from 1, and its moment.
    Round {
        number: u64,
        moment: Moment,
    },
    /// A server forgets a goal that ended.
    Expire {
        server: EntityNo,
        id: GoalId,
    },
    /// A callback runs with its input `in`, and with `aux`, which comes with it.
    Run {
        entity: EntityNo,
        kind: Kind,
        input: i64,
        aux: i64,
        id: Option<GoalId>,
    },
    /// The queue of this kind was full, and lost its oldest item. The line has what would have been its input.
    Drop {
        entity: EntityNo,
        kind: Kind,
        input: i64,
    },
    /// A value is published to a topic.
    Pub {
        topic: EntityNo,
        value: i64,
    },
    /// A service client sends its call of this number, from 1.
    Call {
        client: EntityNo,
        number: u64,
        value: i64,
    },
    /// A service replies.
    Reply {
        service: EntityNo,
        value: i64,
    },
    /// An action client sends a goal request.
    Goal {
        client: EntityNo,
        id: GoalId,
        value: i64,
    },
    /// An action client sends a cancel request. Its stamp is in ticks.
    Cancel {
        client: EntityNo,
        id: GoalId,
        stamp: u64,
    },
    /// A callback logs a value.
    Log {
        entity: EntityNo,
        value: i64,
    },
    /// A goal gives feedback.
    Feedback {
        server: EntityNo,
        id: GoalId,
        value: i64,
    },
    /// A server decides on a goal request.
    Decide {
        server: EntityNo,
        id: GoalId,
        decision: Decision,
    },
    /// A goal has another state now.
    State {
        server: EntityNo,
        id: GoalId,
        status: GoalStatus,
    },
    /// A server answers a cancel request that moved this many goals.
    Code {
        server: EntityNo,
        code: ReturnCode,
        moved: u64,
    },
    /// An action client asks for a goal's result.
    Ask {
        client: EntityNo,
        id: GoalId,
    },
    /// A server answers with a goal's result.
    Result {
        server: EntityNo,
        id: GoalId,
        status: GoalStatus,
        value: i64,
    },
    /// A service client has this many calls without a reply.
    Pending {
        client: EntityNo,
        calls: u64,
    },
    /// The transcript ends after this many rounds.
    End {
        rounds: u64,
    },
}
