//! The lines of callbacks that run.

ghost use Rattle.std.specs.Prelude.{◌≡◌, ◌+◌, ◌≤◌, [], ◌∷◌, ◌++◌, length, take, codes, pos};
ghost use Rattle.std.specs.Fmt.{signed_decimal};
ghost use Rattle.exec_msg.specs.Line.{greatest_length, joined, name_at, kind_text, id_text, spaced};

use crate::kind::Kind;
use crate::line_texts::LineTexts;
use crate::numbers::{EntityNo, GoalId};
use crate::place::id::place_id;
use crate::place::numbers::{place_small, place_value, small};
use crate::place::{place_callback, place_kind, place_short_named};

// A run line with 0 as its `aux`, as most have. If its name is short, and its input is small or has a text that is kept, it is
// placed without a call.
#[inline(never)]
pub(crate) fn place_run(
    texts: &mut LineTexts<'_>,
    bytes: &mut [u8],
    at: usize,
    no: EntityNo,
    kind: Kind,
    input: i64,
) -> usize
    requires { at + greatest_length texts.old + 127 ≤ length bytes.old }
    ensures text { take result bytes.new ≡ take at bytes.old
        ++ joined (codes "run" ∷ name_at texts.old no ∷ kind_text kind ∷ signed_decimal input ∷ signed_decimal (pos 0) ∷ []) }
    ensures within { result ≤ at + greatest_length texts.old + 57 }
    ensures names { texts.new ≡ texts.old }
{
    if let Some(name) = texts.names.short(no) {
        if let Some(number) = small(input) {
            let end = place_short_named(bytes, at, "run", name);
            let end = place_kind(bytes, end, kind);
            let end = place_small(bytes, end, number);
            return place_small(bytes, end, 0);
        }
        if let Some(field) = texts.values.find(input) {
            let end = place_short_named(bytes, at, "run", name);
            let end = place_kind(bytes, end, kind);
            let end = field.place(bytes, end);
            return place_small(bytes, end, 0);
        }
    }
    let end = place_run_start(texts, bytes, at, no, kind, input);
    place_small(bytes, end, 0)
}

// A run line up to its `aux`. If its name is short and its input is small, it is placed without a call.
#[inline(never)]
pub(crate) fn place_run_start(
    texts: &mut LineTexts<'_>,
    bytes: &mut [u8],
    at: usize,
    no: EntityNo,
    kind: Kind,
    input: i64,
) -> usize
    requires { at + greatest_length texts.old + 52 ≤ length bytes.old }
    ensures text { take result bytes.new ≡ take at bytes.old
        ++ joined (codes "run" ∷ name_at texts.old no ∷ kind_text kind ∷ signed_decimal input ∷ []) }
    ensures within { result ≤ at + greatest_length texts.old + 35 }
    ensures names { texts.new ≡ texts.old }
{
    let Some(name) = texts.names.short(no) else {
        return place_any_run_start(texts, bytes, at, no, kind, input);
    };
    let end = place_short_named(bytes, at, "run", name);
    let end = place_kind(bytes, end, kind);
    place_value(&mut texts.values, bytes, end, input)
}

// The same for any name.
#[inline(never)]
fn place_any_run_start(
    texts: &mut LineTexts<'_>,
    bytes: &mut [u8],
    at: usize,
    no: EntityNo,
    kind: Kind,
    input: i64,
) -> usize
    requires { at + greatest_length texts.old + 52 ≤ length bytes.old }
    ensures text { take result bytes.new ≡ take at bytes.old
        ++ joined (codes "run" ∷ name_at texts.old no ∷ kind_text kind ∷ signed_decimal input ∷ []) }
    ensures within { result ≤ at + greatest_length texts.old + 35 }
    ensures names { texts.new ≡ texts.old }
{
    let end = place_callback(bytes, at, "run", &texts.names, no, kind);
    place_value(&mut texts.values, bytes, end, input)
}

// The `aux` and the identifier with which the run line of a callback on a goal ends.
#[inline(never)]
pub(crate) fn place_aux_and_id(
    texts: &mut LineTexts<'_>,
    bytes: &mut [u8],
    at: usize,
    aux: i64,
    id: GoalId,
) -> usize
    requires { at + 59 ≤ length bytes.old }
    ensures text { take result bytes.new ≡ take at bytes.old ++ spaced (signed_decimal aux ∷ id_text id ∷ []) }
    ensures within { result ≤ at + 59 }
    ensures names { texts.new ≡ texts.old }
{
    let end = place_value(&mut texts.values, bytes, at, aux);
    place_id(bytes, end, id)
}
