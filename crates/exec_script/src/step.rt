use crate::effects::Effect;
use crate::frame::Target;
use exec_msg::Event;

/// What one instruction does.
#[derive(Clone, Copy, Debug, PartialEq, Eq)]
pub enum Step {
    /// A value is stored.
    Store(Target, i64),
    /// This many of the next instructions are passed over.
    Skip(u64),
    /// An effect is given.
    Give(Effect),
    /// The reply or the decision becomes this value.
    Answer(i64),
    /// The goal pends for this many ticks.
    Wait(u64),
    /// The goal pends until the next round.
    Yield,
    /// The goal ends by this event, one of the last three, with a value.
    Ended(Event, i64),
}

/// How the script of a goal stops. A place is the number of an instruction, from 0.
#[derive(Clone, Copy, Debug, PartialEq, Eq)]
pub enum Stop {
    /// It pends for this many ticks, and then goes on at a place.
    Wait(u64, usize),
    /// It pends until the next round, and then goes on at a place.
    Yield(usize),
    /// It ends by this event with a value.
    Ended(Event, i64),
    /// It came to its end.
    End,
}
