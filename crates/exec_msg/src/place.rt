//! Fields of lines, written at a place of bytes that have the room. Each function gives the end of what it wrote. The bytes
//! after the end may change.
pub(crate) mod id;
pub(crate) mod numbers;

ghost use Rattle.std.specs.Prelude.{◌≡◌, ◌+◌, ◌≤◌, [], ◌∷◌, ◌++◌, length, take, decimal};
ghost use Rattle.std.specs.Fmt.{signed_decimal};
ghost use Rattle.exec_msg.specs.Line.{greatest_length, spaced, joined, name_at, kind_text, id_text};

use crate::kind::Kind;
use crate::line_texts::LineTexts;
use crate::name_texts::{NameField, NameTexts};
use crate::numbers::{EntityNo, GoalId};
use crate::place::id::place_id;
use crate::place::numbers::{place_count, place_value};
use std::simd::Simd;

#[inline(always)]
pub(crate) fn place(bytes: &mut [u8], at: usize, text: &str) -> usize
    requires { at + length text.now ≤ length bytes.old }
    ensures text { take result bytes.new ≡ take at bytes.old ++ text.now }
    ensures end { result ≡ at + length text.now }
{
    let end = at + text.len();
    bytes[at..end].copy_from_slice(text.as_bytes());
    end
}

// Bytes that lie next to each other: one store.
#[inline(always)]
pub(crate) fn place_lanes<const N: usize>(bytes: &mut [u8], at: usize, lanes: Simd<u8, N>) -> usize
    requires { (length lanes ≡ N) × (at + N ≤ length bytes.old) }
    ensures text { take result bytes.new ≡ take at bytes.old ++ lanes.entry }
    ensures end { result ≡ at + N }
{
    lanes.copy_to_slice(&mut bytes[at..]);
    at + N
}

// The first `N` bytes of a text: one load and one store.
#[inline(always)]
fn place_front<const N: usize>(bytes: &mut [u8], at: usize, text: &[u8]) -> usize
    requires { (N ≤ length text.now) × (at + N ≤ length bytes.old) }
    ensures text { take result bytes.new ≡ take at bytes.old ++ take N text.now }
    ensures end { result ≡ at + N }
{
    place_lanes(bytes, at, Simd::<u8, N>::from_slice(text))
}

// The first `N` bytes of a text, and `M` more: two copies of a fixed length.
#[inline(always)]
pub(crate) fn place_pair<const N: usize, const M: usize>(
    bytes: &mut [u8],
    at: usize,
    text: &[u8],
) -> usize
    requires { (N + M ≤ length text.now) × (at + N + M ≤ length bytes.old) }
    ensures text { take result bytes.new ≡ take at bytes.old ++ take (N + M) text.now }
    ensures end { result ≡ at + N + M }
{
    let end = place_front::<N>(bytes, at, text);
    place_front::<M>(bytes, end, &text[N..])
}

// Two copies of a fixed length, which overlap.
#[inline(always)]
fn place_ends<const N: usize>(bytes: &mut [u8], at: usize, text: &[u8]) -> usize
    requires fits { at + length text.now ≤ length bytes.old }
    requires covers { (N ≤ length text.now) × (length text.now ≤ N + N) }
    ensures text { take result bytes.new ≡ take at bytes.old ++ text.now }
    ensures end { result ≡ at + length text.now }
{
    let last = text.len() - N;
    place_front::<N>(bytes, at, text);
    place_front::<N>(bytes, at + last, &text[last..])
}

// A text whose length isn't known before. It is most likely short, and then no call is made.
#[inline(always)]
fn place_short(bytes: &mut [u8], at: usize, text: &str) -> usize
    requires { at + length text.now ≤ length bytes.old }
    ensures text { take result bytes.new ≡ take at bytes.old ++ text.now }
    ensures end { result ≡ at + length text.now }
{
    match text.len() {
        2..4 => place_ends::<2>(bytes, at, text.as_bytes()),
        4..8 => place_ends::<4>(bytes, at, text.as_bytes()),
        8..16 => place_ends::<8>(bytes, at, text.as_bytes()),
        16..32 => place_ends::<16>(bytes, at, text.as_bytes()),
        32..=64 => place_ends::<32>(bytes, at, text.as_bytes()),
        _ => place(bytes, at, text),
    }
}

// A field with a space before it.
#[inline(always)]
pub(crate) fn place_field(bytes: &mut [u8], at: usize, text: &str) -> usize
    requires { at + length text.now + 1 ≤ length bytes.old }
    ensures text { take result bytes.new ≡ take at bytes.old ++ spaced (text.now ∷ []) }
    ensures end { result ≡ at + length text.now + 1 }
{
    bytes[at] = b' ';
    place_short(bytes, at + 1, text)
}

// A line's word, and the name of what it is about.
#[inline(always)]
pub(crate) fn place_named(
    bytes: &mut [u8],
    at: usize,
    word: &str,
    names: &NameTexts<'_>,
    no: EntityNo,
) -> usize
    requires { at + length word.now + greatest_length names.now + 49 ≤ length bytes.old }
    ensures text { take result bytes.new ≡ take at bytes.old ++ joined (word.now ∷ name_at names.now no ∷ []) }
    ensures within { result ≤ at + length word.now + greatest_length names.now + 1 }
{
    let end = place_short(bytes, at, word);
    names.place(bytes, end, no)
}

// A line's word, and a short name.
#[inline(always)]
pub(crate) fn place_short_named(bytes: &mut [u8], at: usize, word: &str, name: &NameField) -> usize
    requires { at + length word.now + 48 ≤ length bytes.old }
    ensures text { take result bytes.new ≡ take at bytes.old ++ joined (word.now ∷ name.now ∷ []) }
    ensures end { result ≡ at + length word.now + length name.now + 1 }
{
    let end = place_short(bytes, at, word);
    name.place(bytes, end)
}

// A line's word, and the callback that it is about: its entity's name and its kind.
#[inline(always)]
pub(crate) fn place_callback(
    bytes: &mut [u8],
    at: usize,
    word: &str,
    names: &NameTexts<'_>,
    no: EntityNo,
    kind: Kind,
) -> usize
    requires { at + length word.now + greatest_length names.now + 49 ≤ length bytes.old }
    ensures text { take result bytes.new ≡ take at bytes.old ++ joined (word.now ∷ name_at names.now no ∷ kind_text kind ∷ []) }
    ensures within { result ≤ at + length word.now + greatest_length names.now + 10 }
{
    let end = place_named(bytes, at, word, names, no);
    place_kind(bytes, end, kind)
}

// Sixteen bytes for each kind of callback: a space, its word, and spaces.
static KIND_FIELDS: [u8; 192] =
    *b" timer           message         request         reply           goal            cancel          ask             poll            response        code            feedback        result         ";

// A kind's sixteen bytes, and what comes after them.
#[inline(always)]
fn kind_field(kind: Kind) -> &'static [u8]
    ensures field { take (1 + length (kind_text kind)) result.now ≡ 32 ∷ kind_text kind }
    ensures within { (length (kind_text kind) ≤ 8) × (16 ≤ length result.now) }
{
    &KIND_FIELDS[kind as usize * 16..]
}

// A kind's word with a space before it: one copy of a fixed length.
#[inline(always)]
pub(crate) fn place_kind(bytes: &mut [u8], at: usize, kind: Kind) -> usize
    requires { at + 16 ≤ length bytes.old }
    ensures text { take result bytes.new ≡ take at bytes.old ++ spaced (kind_text kind ∷ []) }
    ensures within { result ≤ at + 9 }
{
    place_front::<16>(bytes, at, kind_field(kind));
    at + 1 + kind.word().len()
}

// A line's word, and the goal that it is about: the name of its server or client and its identifier.
#[inline(never)]
pub(crate) fn place_goal(
    bytes: &mut [u8],
    at: usize,
    word: &str,
    names: &NameTexts<'_>,
    no: EntityNo,
    id: GoalId,
) -> usize
    requires { at + length word.now + greatest_length names.now + 49 ≤ length bytes.old }
    ensures text { take result bytes.new ≡ take at bytes.old ++ joined (word.now ∷ name_at names.now no ∷ id_text id ∷ []) }
    ensures within { result ≤ at + length word.now + greatest_length names.now + 38 }
{
    let end = place_named(bytes, at, word, names, no);
    place_id(bytes, end, id)
}

// A line's word, the name of what it is about, and a value.
#[inline(never)]
pub(crate) fn place_named_value(
    texts: &mut LineTexts<'_>,
    bytes: &mut [u8],
    at: usize,
    word: &str,
    no: EntityNo,
    value: i64,
) -> usize
    requires { at + length word.now + greatest_length texts.old + 49 ≤ length bytes.old }
    ensures text { take result bytes.new ≡ take at bytes.old ++ joined (word.now ∷ name_at texts.old no ∷ signed_decimal value ∷ []) }
    ensures within { result ≤ at + length word.now + greatest_length texts.old + 23 }
    ensures names { texts.new ≡ texts.old }
{
    let end = place_named(bytes, at, word, &texts.names, no);
    place_value(&mut texts.values, bytes, end, value)
}

// A line's word, the name of what it is about, and a count.
#[inline(never)]
pub(crate) fn place_named_count(
    bytes: &mut [u8],
    at: usize,
    word: &str,
    names: &NameTexts<'_>,
    no: EntityNo,
    count: u64,
) -> usize
    requires { at + length word.now + greatest_length names.now + 49 ≤ length bytes.old }
    ensures text { take result bytes.new ≡ take at bytes.old ++ joined (word.now ∷ name_at names.now no ∷ decimal count ∷ []) }
    ensures within { result ≤ at + length word.now + greatest_length names.now + 22 }
{
    let end = place_named(bytes, at, word, names, no);
    place_count(bytes, end, count)
}
