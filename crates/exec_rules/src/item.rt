ghost use Rattle.std.specs.Prelude.{◌≡◌};
ghost use Rattle.exec_rules.specs.Item.{taker_of, first_of, aux_of, id_of, goal_number};

use exec_goal::CancelRequest;
use exec_msg::{EntityNo, GoalId, GoalStatus, Kind, ReturnCode};

/// What is in a queue until a callback takes it.
#[derive(Clone, Copy, Debug, PartialEq, Eq)]
pub enum Item {
    /// A message to a subscription.
    Message {
        value: i64,
    },
    /// A client's call of a service, by its number among the client's calls, from 1.
    Request {
        client: EntityNo,
        number: u64,
        value: i64,
    },
    /// A service's reply to the call of a number.
    Reply {
        number: u64,
        value: i64,
    },
    /// A goal request to an action server, with the action client that sent it. It has none if it was fed.
    Goal {
        id: GoalId,
        client: Option<EntityNo>,
        value: i64,
    },
    /// A cancel request to an action server, with the action client that sent it. It has none if it was fed.
    Cancel {
        request: CancelRequest,
        client: Option<EntityNo>,
    },
    /// An action client asks an action server for the result of a goal.
    Ask {
        id: GoalId,
        client: EntityNo,
    },
    /// Whether a goal request was accepted.
    Response {
        id: GoalId,
        accepted: bool,
    },
    /// The return code of a cancel request, and how many goals moved.
    Code {
        code: ReturnCode,
        moved: u64,
    },
    /// A goal's feedback.
    Feedback {
        id: GoalId,
        value: i64,
    },
    /// A goal's result. The status of a goal that isn't held is `Unknown`.
    Result {
        id: GoalId,
        status: GoalStatus,
        value: i64,
    },
}

impl Item {
    /// The kind of callback that takes it.
    #[inline(always)]
    pub fn kind(&self) -> Kind
        ensures { result ≡ taker_of self.now }
    {
        match self {
            Item::Message { .. } => Kind::Message,
            Item::Request { .. } => Kind::Request,
            Item::Reply { .. } => Kind::Reply,
            Item::Goal { .. } => Kind::Goal,
            Item::Cancel { .. } => Kind::Cancel,
            Item::Ask { .. } => Kind::Ask,
            Item::Response { .. } => Kind::Response,
            Item::Code { .. } => Kind::Code,
            Item::Feedback { .. } => Kind::Feedback,
            Item::Result { .. } => Kind::Result,
        }
    }

    /// The identifier on the line of its callback.
    #[inline(always)]
    pub fn id(&self) -> Option<GoalId>
        ensures { result ≡ id_of self.now }
    {
        match self {
            Item::Message { .. } | Item::Request { .. } | Item::Reply { .. } | Item::Code { .. } =>
                None,
            Item::Cancel { request, .. } => Some(request.id),
            Item::Goal { id, .. }
            | Item::Ask { id, .. }
            | Item::Response { id, .. }
            | Item::Feedback { id, .. }
            | Item::Result { id, .. } => Some(*id),
        }
    }

    /// Its `in`.
    #[inline(always)]
    pub fn first(&self) -> i64
        ensures { result ≡ first_of self.now }
    {
        match self {
            Item::Cancel { request, .. } => request.stamp.cast_signed(),
            Item::Ask { .. } => 0,
            Item::Response { accepted, .. } => i64::from(*accepted),
            Item::Code { code, .. } => i64::from(code.number()),
            Item::Message { value }
            | Item::Request { value, .. }
            | Item::Reply { value, .. }
            | Item::Goal { value, .. }
            | Item::Feedback { value, .. }
            | Item::Result { value, .. } => *value,
        }
    }

    /// Its `aux`. A cancel request needs the number of its candidates for it.
    #[inline(always)]
    pub fn aux(&self, candidates: usize) -> i64
        ensures { result ≡ aux_of self.now candidates }
    {
        match self {
            Item::Reply { number, .. } => number.cast_signed(),
            Item::Cancel { .. } => (candidates as u64).cast_signed(),
            Item::Response { id, .. } | Item::Feedback { id, .. } => goal_number(*id).cast_signed(),
            Item::Code { moved, .. } => moved.cast_signed(),
            Item::Result { status, .. } => i64::from(status.number()),
            Item::Message { .. } | Item::Request { .. } | Item::Goal { .. } | Item::Ask { .. } => 0,
        }
    }
}

// The number of a client's goal among the goals of that client.
fn goal_number(id: GoalId) -> u64
    ensures { result ≡ goal_number id }
{
    (id.number() & 0xffff_ffff_ffff_ffff) as u64
}
