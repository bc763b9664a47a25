use crate::shared::{moment, same};
use exec_msg::limits::TICKS;
use exec_msg::{
    Decision, EntityNo, GoalId, GoalStatus, KeepLast, Kind, LazyQueue, Line, LineList, Lines,
    Memory, Moment, Names, ReturnCode, Timer, Transcript, write_line,
};
use std::alloc::{AllocError, Global};
use std::process::Abort;
use std::test::Fail;

const TOPIC: EntityNo = EntityNo(0);

const TIMER: EntityNo = EntityNo(1);

const SERVICE: EntityNo = EntityNo(2);

const CLIENT: EntityNo = EntityNo(3);

const SERVER: EntityNo = EntityNo(4);

const ACTION_CLIENT: EntityNo = EntityNo(5);

const TRANSCRIPT: &str = "round 1 4611686018427387904
expire a ffffffff-ffff-ffff-ffff-ffffffffffff
run t timer 4611686018427387904 0
run a poll -9223372036854775808 1 00000000-0000-0001-0000-000000000001
drop add request -7
pub x 9223372036854775807
call c 12 -1
reply add 0
goal n/ac_1 00000000-0000-0001-0000-00000000000a 5
cancel n/ac_1 00000000-0000-0000-0000-000000000000 18446744073709551615
log t 100
feedback a 01234567-89ab-cdef-fedc-ba9876543210 99
decide a 01234567-89ab-cdef-fedc-ba9876543210 3
state a 01234567-89ab-cdef-fedc-ba9876543210 5
code a 3 0
ask n/ac_1 01234567-89ab-cdef-fedc-ba9876543210
result a 01234567-89ab-cdef-fedc-ba9876543210 6 -10
pending c 3
end 65536
";

fn names(alloc: Global) -> Result<Names, AllocError> {
    let texts = vec![in alloc;
        String::from_str(alloc, "x")?,
        String::from_str(alloc, "t")?,
        String::from_str(alloc, "add")?,
        String::from_str(alloc, "c")?,
        String::from_str(alloc, "a")?,
        String::from_str(alloc, "n/ac_1")?,
    ]?;
    Ok(Names::of(texts))
}

// A line is written whole, or is refused and doesn't change the text.
fn written(alloc: Global, names: &Names, lines: &[Line]) -> Result<Vec<u8>, Fail> {
    let mut text = Vec::new(alloc);
    for line in lines {
        let before = text.len();
        if write_line(line, names, &mut text).is_err() {
            if text.len() != before {
                return Err(Fail::new("a refused line was left in part"));
            }
            write_line(line, names, &mut text)?;
        }
    }
    Ok(text)
}

// A line is added whole, or is refused and doesn't change the lines.
fn added(alloc: Global, names: &Names, lines: &[Line]) -> Result<Vec<u8>, Memory> {
    let mut transcript = Transcript::new(alloc);
    for line in lines {
        if transcript.add(line).is_err() {
            transcript.add(line)?;
        }
    }
    transcript.text(alloc, names)
}

fn round_lines() -> [Line; 5] {
    [
        Line::Round {
            number: 1,
            moment: moment(TICKS),
        },
        Line::Expire {
            server: SERVER,
            id: GoalId::new(u128::MAX),
        },
        Line::Run {
            entity: TIMER,
            kind: Kind::Timer,
            input: 4_611_686_018_427_387_904,
            aux: 0,
            id: None,
        },
        Line::Run {
            entity: SERVER,
            kind: Kind::Poll,
            input: i64::MIN,
            aux: 1,
            id: Some(GoalId::new(0x1_0000_0000_0000_0001)),
        },
        Line::Drop {
            entity: SERVICE,
            kind: Kind::Request,
            input: -7,
        },
    ]
}

fn value_lines() -> [Line; 6] {
    [
        Line::Pub {
            topic: TOPIC,
            value: i64::MAX,
        },
        Line::Call {
            client: CLIENT,
            number: 12,
            value: -1,
        },
        Line::Reply {
            service: SERVICE,
            value: 0,
        },
        Line::Goal {
            client: ACTION_CLIENT,
            id: GoalId::new(0x1_0000_0000_0000_000a),
            value: 5,
        },
        Line::Cancel {
            client: ACTION_CLIENT,
            id: GoalId::new(0),
            stamp: u64::MAX,
        },
        Line::Log {
            entity: TIMER,
            value: 100,
        },
    ]
}

fn goal_lines(id: GoalId) -> [Line; 6] {
    [
        Line::Feedback {
            server: SERVER,
            id,
            value: 99,
        },
        Line::Decide {
            server: SERVER,
            id,
            decision: Decision::Defer,
        },
        Line::State {
            server: SERVER,
            id,
            status: GoalStatus::Canceled,
        },
        Line::Code {
            server: SERVER,
            code: ReturnCode::GoalTerminated,
            moved: 0,
        },
        Line::Ask {
            client: ACTION_CLIENT,
            id,
        },
        Line::Result {
            server: SERVER,
            id,
            status: GoalStatus::Aborted,
            value: -10,
        },
    ]
}

const LAST_LINES: [Line; 2] = [
    Line::Pending {
        client: CLIENT,
        calls: 3,
    },
    Line::End { rounds: 65_536 },
];

// Adds lines to a list. If memory is refused, the list doesn't change, and the call is made once more.
fn lists(lines: &mut LineList, more: &[Line]) -> Result<(), Fail> {
    for line in more {
        let before = lines.as_slice().len();
        if lines.add(line).is_err() {
            if lines.as_slice().len() != before {
                return Err(Fail::new("a refused line was listed"));
            }
            lines.add(line)?;
        }
    }
    Ok(())
}

fn each_line(alloc: Global) -> Result<LineList, Fail> {
    let mut lines = LineList::new(alloc);
    let id = GoalId::new(0x0123_4567_89ab_cdef_fedc_ba98_7654_3210);
    lists(&mut lines, &round_lines())?;
    lists(&mut lines, &value_lines())?;
    lists(&mut lines, &goal_lines(id))?;
    lists(&mut lines, &LAST_LINES)?;
    Ok(lines)
}

// Numbers of the least and the greatest lengths, and at the ends of some between.
const ENDS: [Line; 8] = [
    Line::End { rounds: 0 },
    Line::End { rounds: 9 },
    Line::End { rounds: 10 },
    Line::End { rounds: 999 },
    Line::End { rounds: 10_000 },
    Line::End {
        rounds: 9_999_999_999_999_999,
    },
    Line::End {
        rounds: 10_000_000_000_000_000_000,
    },
    Line::End { rounds: u64::MAX },
];

const THEIR_TEXT: &str = "end 0
end 9
end 10
end 999
end 10000
end 9999999999999999
end 10000000000000000000
end 18446744073709551615
";

#[test]
fn writes_and_adds_each_line(rt: HostRuntime) -> Result<(), Fail> {
    let names = names(rt.alloc())?;
    writes_each_line(&rt, rt.alloc(), &names)
}

fn writes_each_line(rt: &impl Abort, alloc: Global, names: &Names) -> Result<(), Fail> {
    let lines = each_line(alloc)?;
    writes(rt, alloc, names, lines.as_slice(), TRANSCRIPT)?;
    writes(rt, alloc, names, &ENDS, THEIR_TEXT)?;
    adds_each_line(rt, alloc, names, lines.as_slice())
}

fn writes(
    rt: &impl Abort,
    alloc: Global,
    names: &Names,
    lines: &[Line],
    wanted: &str,
) -> Result<(), Fail> {
    let text = written(alloc, names, lines)?;
    same(rt, str::from_utf8(&text), Ok(wanted));
    Ok(())
}

fn adds_each_line(
    rt: &impl Abort,
    alloc: Global,
    names: &Names,
    lines: &[Line],
) -> Result<(), Fail> {
    let text = added(alloc, names, lines)?;
    same(rt, str::from_utf8(&text), Ok(TRANSCRIPT));
    Ok(())
}

#[test]
fn reads_names_at_their_numbers(rt: HostRuntime) -> Result<(), Fail> {
    let names = names(rt.alloc())?;
    reads_names(&rt, &names);
    Ok(())
}

fn reads_names(rt: &impl Abort, names: &Names) {
    let found = (names.name(TOPIC), names.name(ACTION_CLIENT));
    same(rt, found, ("x", "n/ac_1"));
    same(rt, names.name(EntityNo(6)), "");
}

const KINDS: &[(Kind, &str)] = &[
    (Kind::Timer, "timer"),
    (Kind::Message, "message"),
    (Kind::Request, "request"),
    (Kind::Reply, "reply"),
    (Kind::Goal, "goal"),
    (Kind::Cancel, "cancel"),
    (Kind::Ask, "ask"),
    (Kind::Poll, "poll"),
    (Kind::Response, "response"),
    (Kind::Code, "code"),
    (Kind::Feedback, "feedback"),
    (Kind::Result, "result"),
];

#[test]
fn names_each_kind(rt: HostRuntime) {
    for (kind, word) in KINDS {
        same(&rt, kind.word(), *word);
    }
}

#[test]
fn keeps_the_last_items(rt: HostRuntime) -> Result<(), Fail> {
    let mut queue = KeepLast::new(rt.alloc(), 2)?;
    keeps_two(&rt, &mut queue);
    Ok(())
}

fn keeps_two(rt: &impl Abort, queue: &mut KeepLast<i64>) {
    same(rt, queue.take(), None);
    let displaced = [queue.push(1), queue.push(2), queue.push(3)];
    same(rt, displaced, [None, None, Some(1)]);
    same(rt, (queue.len(), queue.front().copied()), (2, Some(2)));
    let taken = [queue.take(), queue.take(), queue.take()];
    same(rt, taken, [Some(2), Some(3), None]);
    same(rt, queue.len(), 0);
}

// A send that is refused doesn't change the queue. The next one makes its room.
#[test]
fn makes_room_with_the_first_item(rt: HostRuntime) -> Result<(), Fail> {
    let mut queue = LazyQueue::new(rt.alloc(), 2);
    sends_the_first(&rt, &mut queue)?;
    sends_two_more(&rt, &mut queue);
    Ok(())
}

fn sends_the_first(rt: &impl Abort, queue: &mut LazyQueue<i64>) -> Result<(), Memory> {
    same(rt, (queue.front().copied(), queue.take()), (None, None));
    if queue.send(1).is_err() {
        same(rt, queue.len(), 0);
        queue.send(1)?;
    }
    Ok(())
}

fn sends_two_more(rt: &impl Abort, queue: &mut LazyQueue<i64>) {
    let displaced = [queue.send(2), queue.send(3)];
    same(rt, displaced, [Ok(None), Ok(Some(1))]);
    same(rt, (queue.len(), queue.front().copied()), (2, Some(2)));
    same(
        rt,
        [queue.take(), queue.take(), queue.take()],
        [Some(2), Some(3), None],
    );
}

// A timer after a moment. It is called then if it is due.
fn after(timer: Timer, now: Moment) -> Timer {
    let mut timer = timer;
    if timer.due(now) {
        timer.call(now);
    }
    timer
}

// A timer moves on from its old time, by whole periods.
#[test]
fn calls_timers(rt: HostRuntime) {
    let timer = after(after(Timer::new(10), moment(10)), moment(35));
    same(
        &rt,
        (timer.due(moment(39)), timer.due(moment(40))),
        (false, true),
    );
}

// The next call of the greatest period is 2^63, if the timer is called at the last moment. No moment comes as late.
#[test]
fn reads_the_latest_next_call(rt: HostRuntime) -> Result<(), Fail> {
    let timer = after(Timer::new(TICKS), moment(TICKS));
    same(&rt, timer.due(moment(TICKS)), false);
    let fields = format!(in rt.alloc(); "{timer:?}")?;
    same(&rt, fields.as_str(), LATEST);
    Ok(())
}

const LATEST: &str = "Timer { next: 9223372036854775808, period: 4611686018427387904 }";

#[test]
fn bounds_moments(rt: HostRuntime) {
    same(&rt, Moment::new(TICKS + 1), None);
    same(&rt, moment(TICKS).ticks(), TICKS);
}

const STATUSES: &[(GoalStatus, u8)] = &[
    (GoalStatus::Unknown, 0),
    (GoalStatus::Accepted, 1),
    (GoalStatus::Executing, 2),
    (GoalStatus::Canceling, 3),
    (GoalStatus::Succeeded, 4),
    (GoalStatus::Canceled, 5),
    (GoalStatus::Aborted, 6),
];

const CODES: &[(ReturnCode, u8)] = &[
    (ReturnCode::None, 0),
    (ReturnCode::Rejected, 1),
    (ReturnCode::UnknownGoalId, 2),
    (ReturnCode::GoalTerminated, 3),
];

#[test]
fn numbers_as_ros_does(rt: HostRuntime) {
    for (status, number) in STATUSES {
        same(&rt, status.number(), *number);
    }
    for (code, number) in CODES {
        same(&rt, code.number(), *number);
    }
}

#[test]
fn orders_identifiers_by_their_numbers(rt: HostRuntime) {
    let mut last = GoalId::new(0);
    for number in [1, 0xffff_ffff_ffff_ffff, 0x1_0000_0000_0000_0000, u128::MAX] {
        let id = GoalId::new(number);
        same(&rt, (id.number(), last < id), (number, true));
        last = id;
    }
}
