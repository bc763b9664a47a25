//! Numbers in decimal, written at a place of bytes that have the room.

ghost use Rattle.std.specs.Prelude.{◌≡◌, ◌+◌, ◌<◌, ◌≤◌, [], ◌∷◌, ◌++◌, pos, length, take, decimal, IfSome};
ghost use Rattle.std.specs.Fmt.{signed_decimal};
ghost use Rattle.exec_msg.specs.Line.{spaced};

use crate::value_texts::ValueTexts;
use itoa::write_digits;

// A count with a space before it.
#[inline(always)]
pub(crate) fn place_count(bytes: &mut [u8], at: usize, count: u64) -> usize
    requires { at + 21 ≤ length bytes.old }
    ensures text { take result bytes.new ≡ take at bytes.old ++ spaced (decimal count ∷ []) }
    ensures within { result ≤ at + 21 }
{
    bytes[at] = b' ';
    place_digits(bytes, at + 1, count)
}

// A value with a space before it. Most are small, and are written without a call.
#[inline(always)]
pub(crate) fn place_value(texts: &mut ValueTexts, bytes: &mut [u8], at: usize, value: i64) -> usize
    requires { at + 24 ≤ length bytes.old }
    ensures text { take result bytes.new ≡ take at bytes.old ++ spaced (signed_decimal value ∷ []) }
    ensures within { result ≤ at + 22 }
{
    match small(value) {
        Some(number) => place_small(bytes, at, number),
        None => texts.place(bytes, at, value),
    }
}

// The number that a value without a sign is, if it has up to four digits.
#[inline(always)]
pub(crate) fn small(value: i64) -> Option<u64>
    ensures { IfSome result (λ number. (pos number ≡ value) × (number < 10000)) }
{
    match u64::try_from(value) {
        Ok(number) if number < 10_000 => Some(number),
        _ => None,
    }
}

// A number of up to four digits with a space before it.
#[inline(always)]
pub(crate) fn place_small(bytes: &mut [u8], at: usize, number: u64) -> usize
    requires { (number < 10000) × (at + 5 ≤ length bytes.old) }
    ensures text { take result bytes.new ≡ take at bytes.old ++ spaced (decimal number ∷ []) }
    ensures within { result ≤ at + 5 }
{
    bytes[at] = b' ';
    place_thousands(bytes, at + 1, number)
}

// A value with a space before it. Each of its digits is computed.
#[inline(always)]
pub(crate) fn place_signed(bytes: &mut [u8], at: usize, value: i64) -> usize
    requires { at + 22 ≤ length bytes.old }
    ensures text { take result bytes.new ≡ take at bytes.old ++ spaced (signed_decimal value ∷ []) }
    ensures within { result ≤ at + 22 }
{
    bytes[at] = b' ';
    if value >= 0 {
        return place_digits(bytes, at + 1, value.unsigned_abs());
    }
    bytes[at + 1] = b'-';
    place_digits(bytes, at + 2, value.unsigned_abs())
}

// Most numbers have few digits, so these are not counted.
#[inline(always)]
fn place_digits(bytes: &mut [u8], at: usize, number: u64) -> usize
    requires { at + 20 ≤ length bytes.old }
    ensures text { take result bytes.new ≡ take at bytes.old ++ decimal number }
    ensures within { result ≤ at + 20 }
{
    if number < 10_000 {
        return place_thousands(bytes, at, number);
    }
    let end = at + count_digits(number);
    write_digits(number, bytes, end);
    end
}

// A number of up to four digits.
#[inline(always)]
fn place_thousands(bytes: &mut [u8], at: usize, number: u64) -> usize
    requires { (number < 10000) × (at + 4 ≤ length bytes.old) }
    ensures text { take result bytes.new ≡ take at bytes.old ++ decimal number }
    ensures within { result ≤ at + 4 }
{
    if number < 1_000 {
        return place_hundreds(bytes, at, number);
    }
    let end = place_hundreds(bytes, at, number / 10);
    place_digit(bytes, end, number % 10)
}

// A number of up to three digits.
#[inline(always)]
fn place_hundreds(bytes: &mut [u8], at: usize, number: u64) -> usize
    requires { (number < 1000) × (at + 3 ≤ length bytes.old) }
    ensures text { take result bytes.new ≡ take at bytes.old ++ decimal number }
    ensures within { result ≤ at + 3 }
{
    if number < 100 {
        return place_tens(bytes, at, number);
    }
    let end = place_tens(bytes, at, number / 10);
    place_digit(bytes, end, number % 10)
}

// A number of one or two digits.
#[inline(always)]
fn place_tens(bytes: &mut [u8], at: usize, number: u64) -> usize
    requires { (number < 100) × (at + 2 ≤ length bytes.old) }
    ensures text { take result bytes.new ≡ take at bytes.old ++ decimal number }
    ensures within { result ≤ at + 2 }
{
    if number < 10 {
        return place_digit(bytes, at, number);
    }
    let end = place_digit(bytes, at, number / 10);
    place_digit(bytes, end, number % 10)
}

#[inline(always)]
fn place_digit(bytes: &mut [u8], at: usize, digit: u64) -> usize
    requires { (digit < 10) × (at < length bytes.old) }
    ensures text { take result bytes.new ≡ take at bytes.old ++ (48 + digit) ∷ [] }
    ensures end { result ≡ at + 1 }
{
    bytes[at] = b'0' + digit as u8;
    at + 1
}

// How many digits a number has.
#[inline(always)]
fn count_digits(number: u64) -> usize
    requires { 0 < number }
    ensures value { result ≡ length (decimal number) }
    ensures bound { result ≤ 20 }
{
    number.ilog10() as usize + 1
}
