//! Which cell a line has.
ghost use Rattle.std.specs.Prelude.{◌≡◌, ◌+◌, ◌*◌, ◌%◌, ◌^◌, pos, None, Some, IfSome};
ghost use Rattle.std.specs.Int.{w64, cast_signed};
ghost use Rattle.exec_msg.specs.declared.line.Line.TheVariants as line;
ghost use Rattle.exec_msg.specs.inner.Packed.{a_line, an_id, said_by};

use super::PackedCell;
use super::halves::{halves, value_halves};
use crate::kind::Kind;
use crate::line::Line;
use crate::numbers::{EntityNo, GoalId};

// The cell of a line, and the identifier that must be given before it. If none must be, that is `told`.
#[inline(always)]
pub(super) fn form_of(line: &Line, told: GoalId) -> Option<(PackedCell, GoalId)>
    ensures { IfSome result (λ form. said_by form.0 form.1 ≡ a_line line.now form.1) }
{
    match *line {
        Line::Round { number, moment } => {
            let (high, lower) = halves(moment.ticks());
            let cell = PackedCell::Round {
                upper: u16::try_from(high).ok()?,
                number: u32::try_from(number).ok()?,
                lower,
            };
            Some((cell, told))
        }
        Line::Run {
            entity,
            kind,
            input,
            aux,
            id: None,
        } => Some(run_form(entity, kind, input, aux, told)),
        Line::Run {
            entity,
            kind,
            input,
            aux,
            id: Some(id),
        } => {
            let cell = goal_run_cell(entity, kind, input, aux, id)?;
            Some((cell, id))
        }
        Line::Drop {
            entity,
            kind,
            input,
        } => {
            let (high, low) = value_halves(input);
            let cell = PackedCell::Drop {
                kind,
                entity,
                high,
                low,
            };
            Some((cell, told))
        }
        Line::Pub { topic, value } => {
            let (high, low) = value_halves(value);
            Some((PackedCell::Pub { topic, high, low }, told))
        }
        Line::Call {
            client,
            number,
            value,
        } => Some(call_form(client, number, value, told)),
        Line::Reply { service, value } => {
            let (high, low) = value_halves(value);
            Some((PackedCell::Reply { service, high, low }, told))
        }
        Line::Log { entity, value } => {
            let (high, low) = value_halves(value);
            Some((PackedCell::Log { entity, high, low }, told))
        }
        Line::Expire { server, id } => Some((PackedCell::Expire { server }, id)),
        Line::Goal { client, id, value } => {
            let (high, low) = value_halves(value);
            Some((PackedCell::Goal { client, high, low }, id))
        }
        Line::Cancel { client, id, stamp } => {
            let (high, low) = halves(stamp);
            Some((PackedCell::Cancel { client, high, low }, id))
        }
        Line::Feedback { server, id, value } => {
            let (high, low) = value_halves(value);
            Some((PackedCell::Feedback { server, high, low }, id))
        }
        Line::Decide {
            server,
            id,
            decision,
        } => Some((PackedCell::Decide { decision, server }, id)),
        Line::State { server, id, status } => Some((PackedCell::State { status, server }, id)),
        Line::Ask { client, id } => Some((PackedCell::Ask { client }, id)),
        Line::Result {
            server,
            id,
            status,
            value,
        } => {
            let (high, low) = value_halves(value);
            let cell = PackedCell::Result {
                status,
                server,
                high,
                low,
            };
            Some((cell, id))
        }
        Line::Code { .. } | Line::Pending { .. } | Line::End { .. } => None,
    }
}

#[inline(always)]
fn run_form(
    entity: EntityNo,
    kind: Kind,
    input: i64,
    aux: i64,
    told: GoalId,
) -> (PackedCell, GoalId)
    ensures { said_by result.0 result.1 ≡ a_line (line.Run entity kind input aux None) result.1 }
{
    let (high, low) = value_halves(input);
    if aux == 0 {
        let cell = PackedCell::Run {
            kind,
            entity,
            high,
            low,
        };
        return (cell, told);
    }
    let cell = PackedCell::RunCounted {
        kind,
        entity,
        high,
        low,
    };
    (cell, with_aux(told, aux))
}

#[inline(always)]
fn call_form(client: EntityNo, number: u64, value: i64, told: GoalId) -> (PackedCell, GoalId)
    ensures { said_by result.0 result.1 ≡ a_line (line.Call client number value) result.1 }
{
    let (high, low) = value_halves(value);
    (
        PackedCell::Call { client, high, low },
        with_count(told, number),
    )
}

// The cell of a run line on a goal, if that goal's identifier is given before.
#[inline(always)]
fn goal_run_cell(
    entity: EntityNo,
    kind: Kind,
    input: i64,
    aux: i64,
    id: GoalId,
) -> Option<PackedCell>
    ensures { IfSome result (λ cell. said_by cell id ≡ a_line (line.Run entity kind input aux (Some id)) id) }
{
    let (high, low) = value_halves(input);
    if aux == 0 {
        return Some(PackedCell::RunOnGoal {
            kind,
            entity,
            high,
            low,
        });
    }
    if id.count().cast_signed() == aux {
        return Some(PackedCell::RunOnGoalCounted {
            kind,
            entity,
            high,
            low,
        });
    }
    let (aux, low) = short_pair(aux, input)?;
    Some(PackedCell::RunOnGoalBeside {
        kind,
        entity,
        aux,
        low,
    })
}

// The cell of a run line on a near goal, and that goal. The cell gives its identifier.
#[inline(always)]
pub(super) fn near_form(line: &Line) -> Option<(PackedCell, GoalId)>
    ensures { IfSome result (λ form. (told : _) → said_by form.0 told ≡ a_line line.now form.1) }
{
    let Line::Run {
        entity,
        kind,
        input,
        aux,
        id: Some(id),
    } = *line
    else {
        return None;
    };
    let (maker, count) = short_halves(id)?;
    let low = u32::try_from(input).ok()?;
    if aux == 0 {
        let cell = PackedCell::RunOnNear {
            kind,
            entity,
            maker,
            count,
            low,
        };
        return Some((cell, id));
    }
    if aux == i64::from(count) {
        let cell = PackedCell::RunOnNearCounted {
            kind,
            entity,
            maker,
            count,
            low,
        };
        return Some((cell, id));
    }
    None
}

// The cell that gives an identifier with a short upper half.
#[inline(always)]
pub(super) fn near_cell(maker: u16, count: u64) -> PackedCell
    ensures { (told : _) → said_by result told ≡ an_id (maker * 2 ^ 64 + count) }
{
    let (high, low) = halves(count);
    PackedCell::Id {
        is_upper: false,
        maker,
        high,
        low,
    }
}

// The cell that gives an identifier's upper half.
#[inline(always)]
pub(super) fn upper_cell(upper: u64) -> PackedCell
    ensures { (told : _) → said_by result told ≡ an_id (upper * 2 ^ 64 + told % 2 ^ 64) }
{
    let (high, low) = halves(upper);
    PackedCell::Id {
        is_upper: true,
        maker: 0,
        high,
        low,
    }
}

// The halves of an identifier that is near.
#[inline(always)]
fn short_halves(id: GoalId) -> Option<(u16, u16)>
    ensures { IfSome result (λ halves. halves.0 * 2 ^ 64 + halves.1 ≡ id) }
{
    let (maker, count) = id.halves();
    Some((u16::try_from(maker).ok()?, u16::try_from(count).ok()?))
}

// Two values of 32 bits each.
#[inline(always)]
fn short_pair(one: i64, other: i64) -> Option<(u32, u32)>
    ensures { IfSome result (λ pair. (pos pair.0 ≡ one) × (pos pair.1 ≡ other)) }
{
    Some((u32::try_from(one).ok()?, u32::try_from(other).ok()?))
}

// An identifier with this count. It is the one that was given last, if that has the count.
#[inline(always)]
fn with_count(told: GoalId, count: u64) -> GoalId
    ensures { result % 2 ^ 64 ≡ count }
{
    if told.count() == count {
        told
    } else {
        GoalId::of_halves(0, count)
    }
}

// An identifier with an `aux` as its count. It is the one that was given last, if that has the count.
#[inline(always)]
fn with_aux(told: GoalId, aux: i64) -> GoalId
    ensures { cast_signed w64 (result % 2 ^ 64) ≡ aux }
{
    with_count(told, aux.cast_unsigned())
}
