//! What cells say: lines, and the identifiers that the lines are on.
ghost use Rattle.std.specs.Prelude.{◌≡◌, ◌+◌, ◌*◌, ◌^◌, List};
ghost use Rattle.exec_msg.specs.declared.line.Line.TheVariants as line;
ghost use Rattle.exec_msg.specs.inner.Packed.{joined_halves, id_after, said_by, said_line, lines_in, tells_no_id};

use super::PackedCell;
use super::halves::{join, join_value};
use crate::line::Line;
use crate::numbers::{GoalId, Moment};

impl PackedCell {
    // The line that the cell is after an identifier was given, if it is one, and the identifier that is the last one after it.
    #[inline(always)]
    pub(crate) fn line(&self, told: GoalId) -> Option<(Line, GoalId)>
        ensures { result ≡ said_line (said_by self.now told) }
    {
        match *self {
            PackedCell::Round {
                upper,
                number,
                lower,
            } => Some((round_line(upper, number, lower), told)),
            PackedCell::Run {
                entity,
                kind,
                high,
                low,
            } => {
                let line = Line::Run {
                    entity,
                    kind,
                    input: join_value(high, low),
                    aux: 0,
                    id: None,
                };
                Some((line, told))
            }
            PackedCell::RunCounted {
                entity,
                kind,
                high,
                low,
            } => {
                let line = Line::Run {
                    entity,
                    kind,
                    input: join_value(high, low),
                    aux: told.count().cast_signed(),
                    id: None,
                };
                Some((line, told))
            }
            PackedCell::Drop {
                entity,
                kind,
                high,
                low,
            } => {
                let line = Line::Drop {
                    entity,
                    kind,
                    input: join_value(high, low),
                };
                Some((line, told))
            }
            PackedCell::Pub { topic, high, low } => {
                let value = join_value(high, low);
                Some((Line::Pub { topic, value }, told))
            }
            PackedCell::Call { client, high, low } => {
                let line = Line::Call {
                    client,
                    number: told.count(),
                    value: join_value(high, low),
                };
                Some((line, told))
            }
            PackedCell::Reply { service, high, low } => {
                let value = join_value(high, low);
                Some((Line::Reply { service, value }, told))
            }
            PackedCell::Log { entity, high, low } => {
                let value = join_value(high, low);
                Some((Line::Log { entity, value }, told))
            }
            PackedCell::RunOnGoal {
                entity,
                kind,
                high,
                low,
            } => {
                let line = Line::Run {
                    entity,
                    kind,
                    input: join_value(high, low),
                    aux: 0,
                    id: Some(told),
                };
                Some((line, told))
            }
            PackedCell::RunOnGoalBeside {
                entity,
                kind,
                aux,
                low,
            } => {
                let line = Line::Run {
                    entity,
                    kind,
                    input: i64::from(low),
                    aux: i64::from(aux),
                    id: Some(told),
                };
                Some((line, told))
            }
            PackedCell::RunOnGoalCounted {
                entity,
                kind,
                high,
                low,
            } => {
                let line = Line::Run {
                    entity,
                    kind,
                    input: join_value(high, low),
                    aux: told.count().cast_signed(),
                    id: Some(told),
                };
                Some((line, told))
            }
            PackedCell::RunOnNear {
                entity,
                kind,
                maker,
                count,
                low,
            } => {
                let id = near_id(maker, count);
                let line = Line::Run {
                    entity,
                    kind,
                    input: i64::from(low),
                    aux: 0,
                    id: Some(id),
                };
                Some((line, id))
            }
            PackedCell::RunOnNearCounted {
                entity,
                kind,
                maker,
                count,
                low,
            } => {
                let id = near_id(maker, count);
                let line = Line::Run {
                    entity,
                    kind,
                    input: i64::from(low),
                    aux: i64::from(count),
                    id: Some(id),
                };
                Some((line, id))
            }
            PackedCell::Expire { server } => Some((Line::Expire { server, id: told }, told)),
            PackedCell::Goal { client, high, low } => {
                let line = Line::Goal {
                    client,
                    id: told,
                    value: join_value(high, low),
                };
                Some((line, told))
            }
            PackedCell::Cancel { client, high, low } => {
                let line = Line::Cancel {
                    client,
                    id: told,
                    stamp: join(high, low),
                };
                Some((line, told))
            }
            PackedCell::Feedback { server, high, low } => {
                let line = Line::Feedback {
                    server,
                    id: told,
                    value: join_value(high, low),
                };
                Some((line, told))
            }
            PackedCell::Decide { server, decision } => {
                let line = Line::Decide {
                    server,
                    id: told,
                    decision,
                };
                Some((line, told))
            }
            PackedCell::State { server, status } => {
                let line = Line::State {
                    server,
                    id: told,
                    status,
                };
                Some((line, told))
            }
            PackedCell::Ask { client } => Some((Line::Ask { client, id: told }, told)),
            PackedCell::Result {
                server,
                status,
                high,
                low,
            } => {
                let line = Line::Result {
                    server,
                    id: told,
                    status,
                    value: join_value(high, low),
                };
                Some((line, told))
            }
            PackedCell::Id { .. } | PackedCell::Whole => None,
        }
    }
}

#[inline(always)]
fn round_line(upper: u16, number: u32, lower: u32) -> Line
    ensures { result ≡ line.Round number (joined_halves upper lower) }
{
    match Moment::new(join(u32::from(upper), lower)) {
        Some(moment) => Line::Round {
            number: u64::from(number),
            moment,
        },
        None => Line::End { rounds: 0 },
    }
}

// The identifier that a cell gives after another was given: that one with another upper half, or one of a maker.
#[inline(always)]
fn id_after(is_upper: bool, maker: u16, half: u64, told: GoalId) -> GoalId
    ensures { result ≡ id_after is_upper maker half told }
{
    if is_upper {
        GoalId::of_halves(half, told.count())
    } else {
        GoalId::of_halves(u64::from(maker), half)
    }
}

#[inline(always)]
fn near_id(maker: u16, count: u16) -> GoalId
    ensures { result ≡ maker * 2 ^ 64 + count }
{
    GoalId::of_halves(u64::from(maker), u64::from(count))
}

/// The cells after the first ones that only give identifiers, and the identifier that these gave last.
#[inline(always)]
pub(crate) fn skip_ids(cells: &[PackedCell], told: GoalId) -> (&[PackedCell], GoalId)
    ensures lines { (wholes : List _) → lines_in result.0.now result.1 wholes ≡ lines_in cells.now told wholes }
    ensures line { tells_no_id result.0.now }
{
    let mut left = cells;
    let mut on = told;
    while let [
        PackedCell::Id {
            is_upper,
            maker,
            high,
            low,
        },
        behind @ ..,
    ] = left
    {
        on = id_after(*is_upper, *maker, join(*high, *low), on);
        left = behind;
    }
    (left, on)
}
