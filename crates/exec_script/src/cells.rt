ghost use Rattle.std.specs.Prelude.{◌≡◌, length};

use std::marker::Model;
use std::simd::i64x8;

/// The place of one of eight integers, from 0 to 7.
#[derive(Clone, Copy, Debug, PartialEq, Eq)]
pub struct Slot(u8);

impl Model for Slot {
    ghost use Rattle.std.specs.Prelude.{ℕ, ◌<◌};

    ghost Value = { ℕ };

    ghost view = { λ slot. slot.0 };

    ghost invariant = { λ slot. slot.0 < 8 };

    ghost inverse = { λ index. record { 0 = index } };
}

impl Slot {
    ghost use Rattle.std.specs.Prelude.{◌≡◌, ◌<◌, SomeIff};

    /// The slot of a place, or `None` if the place is greater than 7.
    pub fn new(index: u8) -> Option<Slot>
        ensures { SomeIff result (index < 8) index }
    {
        if index < 8 { Some(Slot(index)) } else { None }
    }

    /// The place, from 0 to 7.
    pub fn index(self) -> usize
        ensures value { result ≡ self }
        ensures bound { result < 8 }
    {
        self.0 as usize
    }
}

// Copies eight integers. All are read before one is written, so that no test is needed whether the two overlap.
#[inline(always)]
pub(crate) fn copy_eight(from: &[i64], to: &mut [i64])
    requires { (length from.now ≡ 8) × (length to.old ≡ 8) }
    ensures { to.new ≡ from.now }
{
    let lanes = [
        from[0], from[1], from[2], from[3], from[4], from[5], from[6], from[7],
    ];
    i64x8::from_array(lanes).copy_to_slice(to);
}

// Eight integers, all 0 at first.
#[derive(Clone, Copy, Debug, PartialEq, Eq)]
pub(crate) struct Cells {
    values: [i64; 8],
}

impl Model for Cells {
    ghost use Rattle.std.specs.Prelude.{◌≡◌, ℤ, List, length};

    ghost Value = { List ℤ };

    ghost view = { λ cells. cells.values };

    ghost invariant = { λ cells. length cells.values ≡ 8 };

    ghost inverse = { λ values. record { values = values } };
}

impl Cells {
    ghost use Rattle.std.specs.Prelude.{◌≡◌, pos, length, slice_index_or, slice_set};
    ghost use Rattle.exec_script.specs.Zeros.{zeros};

    fn new() -> Cells
        ensures { result ≡ zeros }
    {
        Cells { values: [0; 8] }
    }

    fn get(&self, slot: Slot) -> i64
        ensures { result ≡ slice_index_or self.now slot (pos 0) }
    {
        self.values[slot.index()]
    }

    fn set(&mut self, slot: Slot, value: i64)
        ensures { self.new ≡ slice_set self.old slot value }
    {
        self.values[slot.index()] = value;
    }

    pub(crate) fn as_array(&self) -> &[i64; 8]
        ensures { result.now ≡ self.now }
    {
        &self.values
    }

    // There are eight. The call does nothing at run time: a proof about its caller knows the number from it.
    #[inline(always)]
    fn are_eight(&self)
        ensures { length self.now ≡ 8 }
    {
        // This makes the type's invariant known here.
        let _ = &self.values;
    }

    // Becomes these eight integers.
    #[inline(always)]
    pub(crate) fn copy_from(&mut self, values: &[i64])
        requires { length values.now ≡ 8 }
        ensures { self.new ≡ values.now }
    {
        copy_eight(values, &mut self.values);
    }
}

/// The registers `r0` to `r7`, all 0 at first.
#[derive(Clone, Copy, Debug, PartialEq, Eq)]
pub struct Regs(pub(crate) Cells);

impl Model for Regs {
    ghost use Rattle.std.specs.Prelude.{ℤ, List};

    ghost Value = { List ℤ };

    ghost view = { λ regs. regs.0 };

    ghost inverse = { λ values. record { 0 = values } };
}

impl Regs {
    ghost use Rattle.std.specs.Prelude.{◌≡◌, length};
    ghost use Rattle.exec_script.specs.Zeros.{zeros};

    /// Eight zeros.
    pub fn new() -> Regs
        ensures { result ≡ zeros }
    {
        Regs(Cells::new())
    }

    /// There are eight registers. The call does nothing at run time: a proof about its caller knows the number from it.
    #[inline(always)]
    pub fn are_eight(&self)
        ensures { length self.now ≡ 8 }
    {
        self.0.are_eight();
    }
}

/// The variables `g0` to `g7` of a mutually exclusive callback group, all 0 at first.
#[derive(Clone, Copy, Debug, PartialEq, Eq)]
pub struct Bank(pub(crate) Cells);

impl Model for Bank {
    ghost use Rattle.std.specs.Prelude.{ℤ, List};

    ghost Value = { List ℤ };

    ghost view = { λ bank. bank.0 };

    ghost inverse = { λ values. record { 0 = values } };
}

impl Bank {
    ghost use Rattle.std.specs.Prelude.{◌≡◌, pos, slice_index_or, slice_set};
    ghost use Rattle.exec_script.specs.Zeros.{zeros};

    /// Eight zeros.
    pub fn new() -> Bank
        ensures { result ≡ zeros }
    {
        Bank(Cells::new())
    }

    /// The integer at a slot.
    pub fn get(&self, slot: Slot) -> i64
        ensures { result ≡ slice_index_or self.now slot (pos 0) }
    {
        self.0.get(slot)
    }

    /// Writes the integer at a slot.
    pub fn set(&mut self, slot: Slot, value: i64)
        ensures { self.new ≡ slice_set self.old slot value }
    {
        self.0.set(slot, value);
    }
}
