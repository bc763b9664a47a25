//! The text of lines.
mod run;

ghost use Rattle.std.specs.Prelude.{◌≡◌, ◌+◌, ◌<◌, ◌≤◌, [], ◌∷◌, ◌++◌, length, take, codes, decimal, ◌^◌, vec_capacity, vec_len, IfOk, OnErr};
ghost use Rattle.std.specs.Fmt.{signed_decimal};
ghost use Rattle.exec_msg.specs.Goal.{code_number};
ghost use Rattle.exec_msg.specs.Line.{IsAppended, greatest_length, line_room, joined, name_at, kind_text, id_text, fields_of, line_text};

use crate::goal::ReturnCode;
use crate::kind::Kind;
use crate::line::Line;
use crate::line_texts::LineTexts;
use crate::memory::Memory;
use crate::name_texts::NameTexts;
use crate::names::Names;
use crate::numbers::{EntityNo, GoalId};
use crate::place::numbers::{place_count, place_small, place_value, small};
use crate::place::{
    place, place_callback, place_goal, place_named_count, place_named_value, place_short_named,
};
use run::{place_aux_and_id, place_run, place_run_start};

/// Appends the text of a line.
///
/// # Errors
/// [`Memory`] if a growth was refused. No memory is needed if the capacity has the room of a line. `out` doesn't change.
pub fn write_line(line: &Line, names: &Names, out: &mut Vec<u8>) -> Result<(), Memory>
    ensures text { IsAppended result out.old.items out.new.items (line_text names.now line.now) }
    ensures capacity { vec_capacity out.old ≤ vec_capacity out.new }
    ensures full { OnErr result (vec_capacity out.old < vec_len out.old + line_room names.now) }
{
    let at = out.len();
    let room = room_behind(at, names)?;
    out.resize(room, 0)?;
    let mut texts = LineTexts::new(*out.allocator(), names);
    let end = place_line(line, &mut texts, out.as_mut_slice(), at);
    out.truncate(end);
    Ok(())
}

// More than a line takes in addition to a name.
const ROOM: usize = 128;

/// How many bytes are needed so that a line has room at a place.
///
/// # Errors
/// [`Memory`] if the number doesn't fit into 64 bits.
pub fn room_behind(at: usize, names: &Names) -> Result<usize, Memory>
    ensures room { IfOk result (λ room. room ≡ at + line_room names.now) }
    ensures beyond { OnErr result (2 ^ 64 ≤ at + line_room names.now) }
{
    let room = names.longest().checked_add(ROOM).ok_or(Memory)?;
    Ok(at.checked_add(room).ok_or(Memory)?)
}

/// Puts the text of a line at a place of bytes that have the room, and gives its end. The bytes after the end may change.
#[inline(always)]
pub(crate) fn place_line(
    line: &Line,
    texts: &mut LineTexts<'_>,
    bytes: &mut [u8],
    at: usize,
) -> usize
    requires { at + line_room texts.old ≤ length bytes.old }
    ensures text { take result bytes.new ≡ take at bytes.old ++ line_text texts.old line.now }
    ensures within { result ≤ at + line_room texts.old }
    ensures names { texts.new ≡ texts.old }
{
    let end = place_fields(line, texts, bytes, at);
    bytes[end] = b'\n';
    end + 1
}

// The match is inlined into what makes a line, and is decided there. For that it must be small, so it has only calls.
#[inline(always)]
fn place_fields(line: &Line, texts: &mut LineTexts<'_>, bytes: &mut [u8], at: usize) -> usize
    requires { at + greatest_length texts.old + 127 ≤ length bytes.old }
    ensures text { take result bytes.new ≡ take at bytes.old ++ joined (fields_of texts.old line.now) }
    ensures within { result ≤ at + greatest_length texts.old + 127 }
    ensures names { texts.new ≡ texts.old }
{
    match *line {
        Line::Round { number, moment } => place_round(bytes, at, number, moment.ticks()),
        Line::Expire { server, id } => place_goal(bytes, at, "expire", &texts.names, server, id),
        Line::Run {
            entity,
            kind,
            input,
            aux: 0,
            id: None,
        } => place_run(texts, bytes, at, entity, kind, input),
        Line::Run {
            entity,
            kind,
            input,
            aux,
            id: None,
        } => {
            let end = place_run_start(texts, bytes, at, entity, kind, input);
            texts.values.place(bytes, end, aux)
        }
        Line::Run {
            entity,
            kind,
            input,
            aux,
            id: Some(id),
        } => {
            let end = place_run_start(texts, bytes, at, entity, kind, input);
            place_aux_and_id(texts, bytes, end, aux, id)
        }
        Line::Drop {
            entity,
            kind,
            input,
        } => place_drop(texts, bytes, at, entity, kind, input),
        Line::Pub { topic, value } => place_pub(texts, bytes, at, topic, value),
        Line::Call {
            client,
            number,
            value,
        } => place_call(texts, bytes, at, client, number, value),
        Line::Reply { service, value } => place_reply(texts, bytes, at, service, value),
        Line::Goal { client, id, value } => {
            let end = place_goal(bytes, at, "goal", &texts.names, client, id);
            texts.values.place(bytes, end, value)
        }
        Line::Cancel { client, id, stamp } => {
            place_cancel(bytes, at, &texts.names, client, id, stamp)
        }
        Line::Log { entity, value } => place_log(texts, bytes, at, entity, value),
        Line::Feedback { server, id, value } => {
            let end = place_goal(bytes, at, "feedback", &texts.names, server, id);
            texts.values.place(bytes, end, value)
        }
        Line::Decide {
            server,
            id,
            decision,
        } => {
            let end = place_goal(bytes, at, "decide", &texts.names, server, id);
            texts.values.place(bytes, end, i64::from(decision.number()))
        }
        Line::State { server, id, status } => {
            let end = place_goal(bytes, at, "state", &texts.names, server, id);
            texts.values.place(bytes, end, i64::from(status.number()))
        }
        Line::Code {
            server,
            code,
            moved,
        } => place_code(bytes, at, &texts.names, server, code, moved),
        Line::Ask { client, id } => place_goal(bytes, at, "ask", &texts.names, client, id),
        Line::Result {
            server,
            id,
            status,
            value,
        } => {
            let end = place_goal(bytes, at, "result", &texts.names, server, id);
            let end = texts.values.place(bytes, end, i64::from(status.number()));
            texts.values.place(bytes, end, value)
        }
        Line::Pending { client, calls } => place_named_count(
            bytes,
            at,
            "pending",
            &texts.names,
            client,
            calls,
        ),
        Line::End { rounds } => place_end(bytes, at, rounds),
    }
}

#[inline(never)]
fn place_round(bytes: &mut [u8], at: usize, number: u64, ticks: u64) -> usize
    requires { at + 47 ≤ length bytes.old }
    ensures text { take result bytes.new ≡ take at bytes.old ++ joined (codes "round" ∷ decimal number ∷ decimal ticks ∷ []) }
    ensures within { result ≤ at + 47 }
{
    let end = place(bytes, at, "round");
    let end = place_count(bytes, end, number);
    place_count(bytes, end, ticks)
}

#[inline(never)]
fn place_end(bytes: &mut [u8], at: usize, rounds: u64) -> usize
    requires { at + 24 ≤ length bytes.old }
    ensures text { take result bytes.new ≡ take at bytes.old ++ joined (codes "end" ∷ decimal rounds ∷ []) }
    ensures within { result ≤ at + 24 }
{
    let end = place(bytes, at, "end");
    place_count(bytes, end, rounds)
}

#[inline(never)]
fn place_drop(
    texts: &mut LineTexts<'_>,
    bytes: &mut [u8],
    at: usize,
    no: EntityNo,
    kind: Kind,
    input: i64,
) -> usize
    requires { at + greatest_length texts.old + 53 ≤ length bytes.old }
    ensures text { take result bytes.new ≡ take at bytes.old ++ joined (codes "drop" ∷ name_at texts.old no ∷ kind_text kind ∷ signed_decimal input ∷ []) }
    ensures within { result ≤ at + greatest_length texts.old + 36 }
    ensures names { texts.new ≡ texts.old }
{
    let end = place_callback(bytes, at, "drop", &texts.names, no, kind);
    place_value(&mut texts.values, bytes, end, input)
}

#[inline(never)]
fn place_pub(
    texts: &mut LineTexts<'_>,
    bytes: &mut [u8],
    at: usize,
    no: EntityNo,
    value: i64,
) -> usize
    requires { at + greatest_length texts.old + 52 ≤ length bytes.old }
    ensures text { take result bytes.new ≡ take at bytes.old ++ joined (codes "pub" ∷ name_at texts.old no ∷ signed_decimal value ∷ []) }
    ensures within { result ≤ at + greatest_length texts.old + 26 }
    ensures names { texts.new ≡ texts.old }
{
    let Some(name) = texts.names.short(no) else {
        return place_named_value(texts, bytes, at, "pub", no, value);
    };
    let end = place_short_named(bytes, at, "pub", name);
    place_value(&mut texts.values, bytes, end, value)
}

#[inline(never)]
fn place_reply(
    texts: &mut LineTexts<'_>,
    bytes: &mut [u8],
    at: usize,
    no: EntityNo,
    value: i64,
) -> usize
    requires { at + greatest_length texts.old + 54 ≤ length bytes.old }
    ensures text { take result bytes.new ≡ take at bytes.old ++ joined (codes "reply" ∷ name_at texts.old no ∷ signed_decimal value ∷ []) }
    ensures within { result ≤ at + greatest_length texts.old + 28 }
    ensures names { texts.new ≡ texts.old }
{
    let Some(name) = texts.names.short(no) else {
        return place_named_value(texts, bytes, at, "reply", no, value);
    };
    let end = place_short_named(bytes, at, "reply", name);
    place_value(&mut texts.values, bytes, end, value)
}

#[inline(never)]
fn place_log(
    texts: &mut LineTexts<'_>,
    bytes: &mut [u8],
    at: usize,
    no: EntityNo,
    value: i64,
) -> usize
    requires { at + greatest_length texts.old + 52 ≤ length bytes.old }
    ensures text { take result bytes.new ≡ take at bytes.old ++ joined (codes "log" ∷ name_at texts.old no ∷ signed_decimal value ∷ []) }
    ensures within { result ≤ at + greatest_length texts.old + 26 }
    ensures names { texts.new ≡ texts.old }
{
    let Some(name) = texts.names.short(no) else {
        return place_named_value(texts, bytes, at, "log", no, value);
    };
    let end = place_short_named(bytes, at, "log", name);
    place_value(&mut texts.values, bytes, end, value)
}

// The line of a client's call. If its number is small, its name is short, and its value is small or has a text that is kept, it
// is placed without calling a function.
#[inline(never)]
fn place_call(
    texts: &mut LineTexts<'_>,
    bytes: &mut [u8],
    at: usize,
    no: EntityNo,
    number: u64,
    value: i64,
) -> usize
    requires { at + greatest_length texts.old + 127 ≤ length bytes.old }
    ensures text { take result bytes.new ≡ take at bytes.old ++ joined (codes "call" ∷ name_at texts.old no ∷ decimal number ∷ signed_decimal value ∷ []) }
    ensures within { result ≤ at + greatest_length texts.old + 48 }
    ensures names { texts.new ≡ texts.old }
{
    if number >= 10_000 {
        return place_any_call(texts, bytes, at, no, number, value);
    }
    if let Some(name) = texts.names.short(no) {
        if let Some(small) = small(value) {
            let end = place_short_named(bytes, at, "call", name);
            let end = place_small(bytes, end, number);
            return place_small(bytes, end, small);
        }
        if let Some(field) = texts.values.find(value) {
            let end = place_short_named(bytes, at, "call", name);
            let end = place_small(bytes, end, number);
            return field.place(bytes, end);
        }
    }
    place_any_call(texts, bytes, at, no, number, value)
}

#[inline(never)]
fn place_any_call(
    texts: &mut LineTexts<'_>,
    bytes: &mut [u8],
    at: usize,
    no: EntityNo,
    number: u64,
    value: i64,
) -> usize
    requires { at + greatest_length texts.old + 53 ≤ length bytes.old }
    ensures text { take result bytes.new ≡ take at bytes.old ++ joined (codes "call" ∷ name_at texts.old no ∷ decimal number ∷ signed_decimal value ∷ []) }
    ensures within { result ≤ at + greatest_length texts.old + 48 }
    ensures names { texts.new ≡ texts.old }
{
    let end = place_named_count(bytes, at, "call", &texts.names, no, number);
    place_value(&mut texts.values, bytes, end, value)
}

#[inline(never)]
fn place_code(
    bytes: &mut [u8],
    at: usize,
    names: &NameTexts<'_>,
    no: EntityNo,
    code: ReturnCode,
    moved: u64,
) -> usize
    requires { at + greatest_length names.now + 53 ≤ length bytes.old }
    ensures text { take result bytes.new ≡ take at bytes.old ++ joined (codes "code" ∷ name_at names.now no ∷ decimal (code_number code) ∷ decimal moved ∷ []) }
    ensures within { result ≤ at + greatest_length names.now + 48 }
{
    let end = place_named_count(bytes, at, "code", names, no, code.number() as u64);
    place_count(bytes, end, moved)
}

#[inline(never)]
fn place_cancel(
    bytes: &mut [u8],
    at: usize,
    names: &NameTexts<'_>,
    no: EntityNo,
    id: GoalId,
    stamp: u64,
) -> usize
    requires { at + greatest_length names.now + 65 ≤ length bytes.old }
    ensures text { take result bytes.new ≡ take at bytes.old ++ joined (codes "cancel" ∷ name_at names.now no ∷ id_text id ∷ decimal stamp ∷ []) }
    ensures within { result ≤ at + greatest_length names.now + 65 }
{
    let end = place_goal(bytes, at, "cancel", names, no, id);
    place_count(bytes, end, stamp)
}
