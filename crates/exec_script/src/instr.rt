//! Instructions of scripts, with their operands and operations.
mod forms;

use crate::cells::Slot;
use crate::frame::{OperandPlace, Target};
use crate::place::Role;
use exec_msg::EntityNo;
use std::fmt;
use std::marker::Model;

/// What a value is read from.
#[derive(Clone, Copy, Debug, PartialEq, Eq)]
pub enum Operand {
    /// A value that the script writes.
    Value(i64),
    /// `r0` to `r7`.
    Register(Slot),
    /// `g0` to `g7`.
    Variable(Slot),
    /// `in`, the callback's input.
    In,
    /// `aux`, what comes with the input.
    Aux,
    /// `now`, the round's moment in ticks.
    Now,
}

impl Operand {
    ghost use Rattle.std.specs.Prelude.{◌≡◌};
    ghost use Rattle.exec_script.specs.inner.Cells.{constant_of};

    // The value that the script writes, or else 0.
    fn constant(&self) -> i64
        ensures { result ≡ constant_of self.now }
    {
        match self {
            Operand::Value(value) => *value,
            _ => 0,
        }
    }
}

/// What a value is written to.
#[derive(Clone, Copy, Debug, PartialEq, Eq)]
pub enum Destination {
    /// `r0` to `r7`.
    Register(Slot),
    /// `g0` to `g7`.
    Variable(Slot),
}

/// What `set` does with its two operands. The first three wrap in two's complement at 64 bits.
#[derive(Clone, Copy, Debug, PartialEq, Eq)]
pub enum Operation {
    /// The sum.
    Add,
    /// The difference.
    Sub,
    /// The product.
    Mul,
    /// The lesser, as signed numbers.
    Min,
    /// The greater, as signed numbers.
    Max,
    /// 1 if the first is less than the second, as signed numbers, else 0.
    Lt,
    /// 1 if the two are equal, else 0.
    Eq,
}

// What an instruction does.
#[derive(Clone, Copy, Debug, PartialEq, Eq)]
pub(crate) enum Opcode {
    Set,
    Skip,
    Pub,
    Call,
    Goal,
    CancelAll,
    CancelGoal,
    Execute,
    Log,
    Reply,
    Decide,
    Feedback,
    Wait,
    Yield,
    Succeed,
    Abort,
    Canceled,
}

// The parts of an instruction. An operand is what its place has plus its constant, and one of the two is 0. What an
// instruction doesn't use is 0. A skip's count is its second constant.
#[derive(Clone, Copy, PartialEq, Eq)]
pub(crate) struct Flat {
    pub(crate) left: i64,
    pub(crate) right: i64,
    pub(crate) entity: EntityNo,
    pub(crate) target: Target,
    pub(crate) left_place: OperandPlace,
    pub(crate) right_place: OperandPlace,
    pub(crate) operation: Operation,
    pub(crate) opcode: Opcode,
}

/// An instruction of a script, in 24 bytes.
#[derive(Clone, Copy, PartialEq, Eq)]
pub struct Instr {
    pub(crate) flat: Flat,
}

const _: () = prove!(size_of::<Instr>() == 24);

impl Model for Instr {
    ghost use Rattle.std.specs.Prelude.{◌≡◌};
    ghost use Rattle.std.proofs.Common.{ap};
    ghost use Rattle.exec_script.specs.Instruction.{Instruction};

    ghost Value = { Instruction };

    ghost use Rattle.exec_script.specs.declared.instr.Flat.{Flat};
    ghost use Rattle.exec_script.specs.inner.Flat.{as_instruction, flat_of};

    ghost view = { λ instr. as_instruction instr.flat };

    ghost invariant = { λ instr. flat_of (as_instruction instr.flat) ≡ instr.flat };

    ghost inverse = { λ instruction. record { flat = flat_of instruction } };

    ghost inverse_ok = { λ instr h. ap (λ (flat : Flat). record { flat = flat }) h };
}

impl Instr {
    ghost use Rattle.std.specs.Prelude.{◌≡◌};
    ghost use Rattle.exec_script.specs.Legality.{reach_of, names_variable, is_allowed};

    // How many of the instructions after it it may pass over.
    pub(crate) fn reach(&self) -> u64
        ensures { result ≡ reach_of self.now }
    {
        match self.flat.opcode {
            Opcode::Skip => self.flat.right as u64,
            _ => 0,
        }
    }

    // Whether an operand or the destination is a group variable.
    pub(crate) fn names_variable(&self) -> bool
        ensures { result ≡ names_variable self.now }
    {
        self.flat.target.is_variable()
            || self.flat.left_place.is_variable()
            || self.flat.right_place.is_variable()
    }

    // Whether it is allowed in a script of this role.
    pub(crate) fn is_allowed(&self, role: Role) -> bool
        ensures { result ≡ is_allowed role self.now }
    {
        match self.flat.opcode {
            Opcode::Set
            | Opcode::Skip
            | Opcode::Pub
            | Opcode::Call
            | Opcode::Goal
            | Opcode::CancelAll
            | Opcode::CancelGoal
            | Opcode::Execute
            | Opcode::Log => true,
            Opcode::Reply => matches!(role, Role::Service),
            Opcode::Decide => matches!(role, Role::GoalHandler | Role::CancelHandler),
            Opcode::Feedback
            | Opcode::Wait
            | Opcode::Yield
            | Opcode::Succeed
            | Opcode::Abort
            | Opcode::Canceled => matches!(role, Role::Goal),
        }
    }
}

// An instruction is shown as scripts spell it, except for the numbers of entities and the forms of `cancel`.
impl fmt::Debug for Instr {
    fn fmt<W: fmt::Write>(&self, f: &mut fmt::Formatter<W>) -> fmt::Result {
        let flat = &self.flat;
        write!(f, "{:?}", flat.opcode)?;
        match flat.opcode {
            Opcode::Set => {
                write!(f, " {:?} {:?}", flat.target, flat.operation)?;
                flat.left_place.show(flat.left, f)?;
                flat.right_place.show(flat.right, f)
            }
            Opcode::Skip => {
                flat.left_place.show(flat.left, f)?;
                flat.right_place.show(flat.right, f)
            }
            Opcode::Pub | Opcode::Call | Opcode::Goal | Opcode::CancelAll => {
                write!(f, " {}", flat.entity.0)?;
                flat.left_place.show(flat.left, f)
            }
            Opcode::CancelGoal => {
                write!(f, " {}", flat.entity.0)?;
                flat.left_place.show(flat.left, f)?;
                flat.right_place.show(flat.right, f)
            }
            Opcode::Execute => write!(f, " {}", flat.entity.0),
            Opcode::Yield => Ok(()),
            Opcode::Log
            | Opcode::Reply
            | Opcode::Decide
            | Opcode::Feedback
            | Opcode::Wait
            | Opcode::Succeed
            | Opcode::Abort
            | Opcode::Canceled => flat.left_place.show(flat.left, f),
        }
    }
}
