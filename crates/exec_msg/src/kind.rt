ghost use Rattle.std.specs.Prelude.{◌≡◌, ◌≤◌, length};
ghost use Rattle.exec_msg.specs.Line.{kind_text};

/// What a callback is for, in the order in which ready callbacks run. All but [`Kind::Timer`] and [`Kind::Poll`] have a queue
/// for each entity. The callback takes its input from it.
#[derive(Clone, Copy, Debug, PartialEq, Eq, PartialOrd, Ord, Hash)]
pub enum Kind {
    /// A timer is due.
    Timer,
    /// A subscription has a message.
    Message,
    /// A service has a request.
    Request,
    /// A service client has a reply.
    Reply,
    /// An action server has a goal request.
    Goal,
    /// An action server has a cancel request.
    Cancel,
    /// An action server has a result request.
    Ask,
    /// A goal is awake.
    Poll,
    /// An action client has the answer to a goal request.
    Response,
    /// An action client has the answer to a cancel request.
    Code,
    /// An action client has feedback of a goal.
    Feedback,
    /// An action client has the result of a goal.
    Result,
}

impl Kind {
    /// The kind's word in a transcript.
    #[inline(always)]
    pub fn word(self) -> &'static str
        ensures word { result.now ≡ kind_text self }
        ensures bound { length result.now ≤ 8 }
    {
        match self {
            Kind::Timer => "timer",
            Kind::Message => "message",
            Kind::Request => "request",
            Kind::Reply => "reply",
            Kind::Goal => "goal",
            Kind::Cancel => "cancel",
            Kind::Ask => "ask",
            Kind::Poll => "poll",
            Kind::Response => "response",
            Kind::Code => "code",
            Kind::Feedback => "feedback",
            Kind::Result => "result",
        }
    }

    /// All of them in their order.
    pub const IN_ORDER: [Kind; 12] = [
        Kind::Timer,
        Kind::Message,
        Kind::Request,
        Kind::Reply,
        Kind::Goal,
        Kind::Cancel,
        Kind::Ask,
        Kind::Poll,
        Kind::Response,
        Kind::Code,
        Kind::Feedback,
        Kind::Result,
    ];
}
