use crate::cells::{Bank, Regs, copy_eight};
use crate::instr::{Destination, Operand};
use crate::run::Input;
use std::fmt;
use std::marker::Model;

// What an operand reads of a frame.
#[derive(Clone, Copy, PartialEq, Eq)]
pub(crate) struct OperandPlace(u8);

impl Model for OperandPlace {
    ghost use Rattle.std.specs.Prelude.{◌<◌};
    ghost use Rattle.std.proofs.Common.{ap};
    ghost use Rattle.exec_script.specs.inner.Cells.{OperandCell, cell_at, place_of};
    ghost use Rattle.exec_script.specs.inner.Places.{place_is};

    ghost Value = { OperandCell };

    ghost view = { λ source. cell_at source.0 };

    ghost invariant = { λ source. source.0 < 20 };

    ghost inverse = { λ cell. record { 0 = place_of cell } };

    ghost inverse_ok = { λ source h. ap (λ place. record { 0 = place }) (place_is source.0 h) };
}

impl OperandPlace {
    ghost use Rattle.std.specs.Prelude.{◌≡◌};
    ghost use Rattle.exec_script.specs.inner.Cells.{cell_of, reads_variable};

    pub(crate) fn of(operand: &Operand) -> OperandPlace
        ensures { result ≡ cell_of operand.now }
    {
        match *operand {
            Operand::Register(slot) => OperandPlace(slot.index() as u8),
            Operand::Variable(slot) => OperandPlace(slot.index() as u8 + 8),
            Operand::In => OperandPlace(16),
            Operand::Aux => OperandPlace(17),
            Operand::Now => OperandPlace(18),
            Operand::Value(_) => OperandPlace(19),
        }
    }

    pub(crate) fn is_variable(self) -> bool
        ensures { result ≡ reads_variable self }
    {
        8 <= self.0 && self.0 < 16
    }

    // Shows the operand that this source and a constant are, with a space before it.
    pub(crate) fn show<W: fmt::Write>(
        self,
        constant: i64,
        f: &mut fmt::Formatter<W>,
    ) -> fmt::Result {
        match self.0 {
            0..8 => write!(f, " r{}", self.0),
            8..16 => write!(f, " g{}", self.0 - 8),
            16 => f.write_str(" in"),
            17 => f.write_str(" aux"),
            18 => f.write_str(" now"),
            _ => write!(f, " {constant}"),
        }
    }
}

// The place of a destination in a frame.
#[derive(Clone, Copy, PartialEq, Eq)]
pub(crate) struct Target(u8);

impl Model for Target {
    ghost use Rattle.std.specs.Prelude.{◌<◌};
    ghost use Rattle.std.proofs.Common.{ap};
    ghost use Rattle.exec_script.specs.declared.instr.Destination.{Destination};
    ghost use Rattle.exec_script.specs.inner.Cells.{target_at, place_of_target};
    ghost use Rattle.exec_script.specs.inner.Places.{target_is};

    ghost Value = { Destination };

    ghost view = { λ target. target_at target.0 };

    ghost invariant = { λ target. target.0 < 16 };

    ghost inverse = { λ destination. record { 0 = place_of_target destination } };

    ghost inverse_ok = { λ target h. ap (λ place. record { 0 = place }) (target_is target.0) };
}

impl Target {
    ghost use Rattle.std.specs.Prelude.{◌≡◌};
    ghost use Rattle.exec_script.specs.declared.instr.Destination.TheVariants as destination;
    ghost use Rattle.exec_script.specs.Legality.{goes_to_variable};

    // `r0`.
    pub(crate) fn first() -> Target
        ensures { result ≡ destination.Register 0 }
    {
        Target(0)
    }

    pub(crate) fn of(destination: Destination) -> Target
        ensures { result ≡ destination }
    {
        match destination {
            Destination::Register(slot) => Target(slot.index() as u8),
            Destination::Variable(slot) => Target(slot.index() as u8 + 8),
        }
    }

    pub(crate) fn is_variable(self) -> bool
        ensures { result ≡ goes_to_variable self }
    {
        8 <= self.0
    }
}

impl fmt::Debug for Target {
    fn fmt<W: fmt::Write>(&self, f: &mut fmt::Formatter<W>) -> fmt::Result {
        if self.0 < 8 {
            write!(f, "r{}", self.0)
        } else {
            write!(f, "g{}", self.0 - 8)
        }
    }
}

// All that a script reads and writes while it runs, in one array: registers, group variables, `in`, `aux`, `now`, and one
// integer that is always 0.
#[derive(Drop)]
pub(crate) struct Frame {
    values: [i64; 20],
}

impl Model for Frame {
    ghost use Rattle.exec_script.specs.inner.Frame.{FrameState, frame_of, IsFrame};

    ghost Value = { FrameState };

    ghost view = { λ frame. frame_of frame.values };

    ghost invariant = { λ frame. IsFrame frame.values };
}

impl Frame {
    ghost use Rattle.std.specs.Prelude.{◌≡◌};
    ghost use Rattle.exec_script.specs.Script.{value_of, registers_after, variables_after};
    ghost use Rattle.exec_script.specs.Zeros.{zeros};
    ghost use Rattle.exec_script.specs.inner.Cells.{cell_operand, constant_of};

    // All are 0. A frame is filled in its place. A frame that is handed on would be copied as a whole just after it was filled,
    // and a processor waits for that.
    #[inline(always)]
    pub(crate) fn new() -> Frame {
        Frame { values: [0; 20] }
    }

    // Fills it with what a script begins with at its top.
    #[inline(always)]
    pub(crate) fn begin(&mut self, bank: &Bank, input: &Input)
        ensures { self.new ≡ record { registers = zeros; variables = bank.now; input = input.now } }
    {
        self.values = [0; 20];
        copy_eight(bank.0.as_array(), &mut self.values[8..16]);
        self.values[16] = input.first;
        self.values[17] = input.aux;
        self.values[18] = input.moment.ticks() as i64;
    }

    // Fills it with what a run goes on with.
    #[inline(always)]
    pub(crate) fn fill(&mut self, regs: &Regs, bank: &Bank, input: &Input)
        ensures { self.new ≡ record { registers = regs.now; variables = bank.now; input = input.now } }
    {
        self.values = [0; 20];
        copy_eight(regs.0.as_array(), &mut self.values[..8]);
        copy_eight(bank.0.as_array(), &mut self.values[8..16]);
        self.values[16] = input.first;
        self.values[17] = input.aux;
        self.values[18] = input.moment.ticks() as i64;
    }

    // Hands out the registers, at the end of a run.
    #[inline(always)]
    pub(crate) fn put_regs(&self, regs: &mut Regs)
        ensures { regs.new ≡ self.now.registers }
    {
        regs.0.copy_from(&self.values[..8]);
    }

    // Hands out the variables, at the end of a run.
    #[inline(always)]
    pub(crate) fn put_bank(&self, bank: &mut Bank)
        ensures { bank.new ≡ self.now.variables }
    {
        bank.0.copy_from(&self.values[8..16]);
    }

    // The value of the operand that a place and a constant are.
    #[inline(always)]
    pub(crate) fn read(&self, place: OperandPlace, constant: i64) -> i64
        requires { constant_of (cell_operand place constant) ≡ constant }
        ensures { result ≡ value_of (cell_operand place constant) self.now.registers self.now.variables self.now.input }
    {
        let held = self.values[place.0 as usize];
        held.wrapping_add(constant)
    }

    #[inline(always)]
    pub(crate) fn write(&mut self, target: Target, value: i64)
        ensures { self.new ≡ record {
          registers = registers_after target value self.old.registers;
          variables = variables_after target value self.old.variables;
          input = self.old.input;
        } }
    {
        self.values[target.0 as usize] = value;
    }
}
