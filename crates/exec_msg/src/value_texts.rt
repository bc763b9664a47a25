//! The texts of long numbers that lines had, for the lines that follow: what one callback sends, others take as input.
ghost use Rattle.std.specs.Prelude.{◌≡◌, ◌+◌, ◌≤◌, [], ◌∷◌, ◌++◌, length, take, IfSome};
ghost use Rattle.std.specs.Option.{option_copied};
ghost use Rattle.std.specs.Fmt.{signed_decimal};
ghost use Rattle.exec_msg.specs.Line.{spaced};

use crate::memory::Memory;
use crate::place::numbers::place_signed;
use crate::place::place_pair;
use std::alloc::Global;
use std::marker::Model;

// A value's field as a line has it: a space, the value, and spaces.
#[derive(Clone, Copy)]
pub(crate) struct ValueField {
    value: i64,
    length: usize,
    text: [u8; 24],
}

impl Model for ValueField {
    ghost use Rattle.std.specs.Prelude.{◌≡◌, ◌≤◌, ℕ, ℤ, List, ◌∷◌, take};
    ghost use Rattle.std.specs.Fmt.{signed_decimal};

    ghost Value = { ℤ × ℕ × List ℕ };

    ghost view = { λ field. (field.value, field.length, field.text) };

    ghost invariant = { λ field. (take field.length field.text ≡ 32 ∷ signed_decimal field.value) × (field.length ≤ 22) };

    ghost inverse = { λ parts. record { value = parts.0; length = parts.1; text = parts.2 } };
}

impl ValueField {
    fn of(value: i64) -> ValueField
        ensures { result.0 ≡ value }
    {
        let mut text = [b' '; 24];
        let length = place_signed(&mut text, 0, value);
        ValueField {
            value,
            length,
            text,
        }
    }

    // Makes it the field of a value.
    #[inline(always)]
    fn be(&mut self, value: i64)
        ensures { self.new.0 ≡ value }
    {
        if self.value != value {
            self.write(value);
        }
    }

    #[inline(never)]
    fn write(&mut self, value: i64)
        ensures { self.new.0 ≡ value }
    {
        self.value = value;
        self.length = place_signed(&mut self.text, 0, value);
    }

    /// Puts the value at a place of bytes, with a space before it. The bytes after its end may change.
    #[inline(always)]
    pub(crate) fn place(&self, bytes: &mut [u8], at: usize) -> usize
        requires { at + 24 ≤ length bytes.old }
        ensures text { take result bytes.new ≡ take at bytes.old ++ spaced (signed_decimal self.now.0 ∷ []) }
        ensures within { result ≤ at + 22 }
    {
        place_pair::<16, 8>(bytes, at, &self.text);
        at + self.length
    }
}

// This many fields take 10 KiB.
const FIELDS: usize = 256;

// A number below this one is written faster than it is found.
const LONG: u64 = 100_000_000;

/// The fields of long numbers. The value of each decides its place, and another value may take the place.
#[derive(Drop)]
pub(crate) struct ValueTexts {
    fields: Vec<ValueField>,
}

impl ValueTexts {
    /// No fields. It takes no memory.
    pub(crate) fn new(alloc: Global) -> ValueTexts {
        ValueTexts {
            fields: Vec::new(alloc),
        }
    }

    /// Makes the fields, in which long numbers are kept from then on.
    pub(crate) fn fill(&mut self) -> Result<(), Memory> {
        self.fields.resize(FIELDS, ValueField::of(0))?;
        Ok(())
    }

    /// The field of a value, if it is kept.
    #[inline(always)]
    pub(crate) fn find(&self, value: i64) -> Option<&ValueField>
        ensures { IfSome (option_copied result) (λ field. field.0 ≡ value) }
    {
        match self.fields.get(row(value.unsigned_abs())) {
            Some(field) if field.value == value => Some(field),
            _ => None,
        }
    }

    /// Puts a value at a place of bytes, with a space before it. The bytes after its end may change.
    #[inline(never)]
    pub(crate) fn place(&mut self, bytes: &mut [u8], at: usize, value: i64) -> usize
        requires { at + 24 ≤ length bytes.old }
        ensures text { take result bytes.new ≡ take at bytes.old ++ spaced (signed_decimal value ∷ []) }
        ensures within { result ≤ at + 22 }
    {
        let number = value.unsigned_abs();
        if number < LONG {
            return place_signed(bytes, at, value);
        }
        match self.fields.get_mut(row(number)) {
            None => place_signed(bytes, at, value),
            Some(field) => {
                field.be(value);
                field.place(bytes, at)
            }
        }
    }
}

// The place of a number's field.
#[inline(always)]
fn row(number: u64) -> usize {
    (number.wrapping_mul(0x9e37_79b9_7f4a_7c15) >> 56) as usize
}
