//! The results of operations, and two ways of finding them.
ghost use Rattle.std.specs.Prelude.{◌≡◌, ◌<◌};
ghost use Rattle.exec_script.specs.Script.{result_of};
ghost use Rattle.exec_script.specs.declared.instr.Operation.TheVariants as operation;
ghost use Rattle.exec_script.specs.inner.Flat.{operation_number};

use crate::instr::Operation;

/// A way of finding what an operation gives.
pub(crate) trait Results {
    fn of(operation: Operation, left: i64, right: i64) -> i64
        ensures { result ≡ result_of operation left right };
}

/// All results are made, and one is picked. This is for many scripts that run in turn, so that a processor can't foresee their
/// operations.
pub(crate) struct Picked;

impl Results for Picked {
    #[inline(always)]
    fn of(operation: Operation, left: i64, right: i64) -> i64 {
        let results = [
            left.wrapping_add(right),
            left.wrapping_sub(right),
            left.wrapping_mul(right),
            left.min(right),
            left.max(right),
            less(left, right),
            equal(left, right),
        ];
        results[operation_number(operation)]
    }
}

/// Only the one result is made, after a jump. This is for a script that runs many times in turn, so that a processor foresees
/// its operations. Each caller has a number, and so an instance of its own, which is written into it.
pub(crate) struct Foreseen<const CALLER: usize>;

impl<const CALLER: usize> Results for Foreseen<CALLER> {
    #[inline(always)]
    fn of(operation: Operation, left: i64, right: i64) -> i64 {
        match operation {
            Operation::Add => left.wrapping_add(right),
            Operation::Sub => left.wrapping_sub(right),
            Operation::Mul => left.wrapping_mul(right),
            Operation::Min => left.min(right),
            Operation::Max => left.max(right),
            Operation::Lt => less(left, right),
            Operation::Eq => equal(left, right),
        }
    }
}

#[inline(always)]
fn operation_number(operation: Operation) -> usize
    ensures value { result ≡ operation_number operation }
    ensures bound { result < 7 }
{
    operation as usize
}

#[inline(always)]
fn less(left: i64, right: i64) -> i64
    ensures { result ≡ result_of operation.Lt left right }
{
    (left < right) as i64
}

#[inline(always)]
fn equal(left: i64, right: i64) -> i64
    ensures { result ≡ result_of operation.Eq left right }
{
    (left == right) as i64
}
