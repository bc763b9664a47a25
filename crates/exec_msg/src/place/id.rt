//! Identifiers in their text form, written at a place of bytes that have the room.

ghost use Rattle.std.specs.Prelude.{◌≡◌, ◌+◌, ◌<◌, ◌≤◌, [], ◌∷◌, ◌++◌, length, take, map};
ghost use Rattle.std.specs.Int.{w128, to_be_bytes};
ghost use Rattle.uuid.specs.Text.{by_index, hex_digit, lower, nibble};
ghost use Rattle.std.specs.Simd.Lanes.{Each1};
ghost use Rattle.exec_msg.specs.Line.{spaced, id_text};

use crate::numbers::GoalId;
use crate::place::place_lanes;
use std::simd::{u8x4, u8x16, u64x2};

// What is before the digits of an identifier, and between them.
const BETWEEN: [u8; 16] = *b" -              ";

// An identifier with a space before it.
#[inline(always)]
pub(crate) fn place_id(bytes: &mut [u8], at: usize, id: GoalId) -> usize
    requires { at + 37 ≤ length bytes.old }
    ensures text { take result bytes.new ≡ take at bytes.old ++ spaced (id_text id ∷ []) }
    ensures end { result ≡ at + 37 }
{
    let (front, back) = digits_of(id);
    let between = u8x16::from_array(BETWEEN);
    let first: u8x16 = front.shuffle(
        between,
        [16, 0, 1, 2, 3, 4, 5, 6, 7, 17, 8, 9, 10, 11, 17, 12],
    );
    let second: u8x4 = front.shuffle(between, [13, 14, 15, 17]);
    let third: u8x16 = back.shuffle(
        between,
        [0, 1, 2, 3, 17, 4, 5, 6, 7, 8, 9, 10, 11, 12, 13, 14],
    );
    let end = place_lanes(bytes, at, first);
    let end = place_lanes(bytes, end, second);
    let end = place_lanes(bytes, end, third);
    place_lanes(bytes, end, back.extract::<15, 1>())
}

// The digits of an identifier, highest first, by sixteen.
#[inline(always)]
fn digits_of(id: GoalId) -> (u8x16, u8x16)
    ensures front { result.0 ≡ by_index 16 (λ k. hex_digit lower (nibble (to_be_bytes w128 id) k)) }
    ensures back { result.1 ≡ by_index 16 (λ k. hex_digit lower (nibble (to_be_bytes w128 id) (16 + k))) }
{
    let (high, low) = id.halves();
    let octets = u64x2::from_array([low, high]).to_le_bytes().reverse();
    let firsts = hex_digits((octets >> u8x16::splat(4)) & u8x16::splat(15));
    let seconds = hex_digits(octets & u8x16::splat(15));
    firsts.interleave(seconds)
}

// In each lane the digit of the number there.
#[inline(always)]
fn hex_digits(numbers: u8x16) -> u8x16
    requires { (length numbers ≡ 16) × Each1 (λ number. number < 16) numbers }
    ensures { result ≡ map (hex_digit lower) numbers }
{
    let letters = numbers + u8x16::splat(b'a' - 10);
    numbers
        .simd_lt(u8x16::splat(10))
        .select(numbers + u8x16::splat(b'0'), letters)
}
