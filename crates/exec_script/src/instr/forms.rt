//! The forms of instructions, one function for each.
ghost use Rattle.std.specs.Prelude.{◌≡◌};
ghost use Rattle.exec_script.specs.inner.Flat.{parts_of};

use super::{Destination, Flat, Instr, Opcode, Operand, Operation};
use crate::frame::{OperandPlace, Target};
use exec_msg::EntityNo;

const NO_ENTITY: EntityNo = EntityNo(0);

const NO_OPERAND: Operand = Operand::Value(0);

fn parts_of(opcode: Opcode, entity: EntityNo, left: Operand, right: Operand) -> Flat
    ensures { result ≡ parts_of opcode entity left right }
{
    let left_place = OperandPlace::of(&left);
    let right_place = OperandPlace::of(&right);
    Flat {
        left: left.constant(),
        right: right.constant(),
        entity,
        target: Target::first(),
        left_place,
        right_place,
        operation: Operation::Add,
        opcode,
    }
}

#[tactic(auto, using(crate::proofs::Flats::operand_is))]
impl Instr {
    ghost use Rattle.std.specs.Prelude.{◌≡◌, ◌<◌, ◌^◌};
    ghost use Rattle.exec_script.specs.Instruction.{Set, Skip, Pub, Call, Goal, CancelAll, CancelGoal, Execute, Log, Reply, Decide, Feedback, Wait, Yield, Succeed, Abort, Canceled};

    /// `["set", D, O, A, B]`: D becomes A O B.
    pub fn set(
        destination: Destination,
        operation: Operation,
        left: Operand,
        right: Operand,
    ) -> Instr
        ensures { result ≡ Set destination operation left right }
    {
        Instr {
            flat: Flat {
                target: Target::of(destination),
                operation,
                ..parts_of(Opcode::Set, NO_ENTITY, left, right)
            },
        }
    }

    /// `["skip", A, n]`: if A isn't 0, the next n instructions are passed over. A script writes n, so it is less than 2^63.
    pub fn skip(condition: Operand, count: u64) -> Instr
        requires { count < 2 ^ 63 }
        ensures { result ≡ Skip condition count }
    {
        Instr {
            flat: parts_of(
                Opcode::Skip,
                NO_ENTITY,
                condition,
                Operand::Value(count as i64),
            ),
        }
    }

    /// `["pub", T, A]`: A is published to topic T.
    pub fn publish(topic: EntityNo, value: Operand) -> Instr
        ensures { result ≡ Pub topic value }
    {
        Instr {
            flat: parts_of(Opcode::Pub, topic, value, NO_OPERAND),
        }
    }

    /// `["call", C, A]`: service client C calls with A.
    pub fn call(client: EntityNo, value: Operand) -> Instr
        ensures { result ≡ Call client value }
    {
        Instr {
            flat: parts_of(Opcode::Call, client, value, NO_OPERAND),
        }
    }

    /// `["goal", C, A]`: action client C sends a goal request of A.
    pub fn goal(client: EntityNo, value: Operand) -> Instr
        ensures { result ≡ Goal client value }
    {
        Instr {
            flat: parts_of(Opcode::Goal, client, value, NO_OPERAND),
        }
    }

    /// `["cancel", C, "all"]` and `["cancel", C, "before", S]`: action client C sends a cancel request
    /// with no identifier and the stamp S in ticks, which for `"all"` is 0.
    pub fn cancel_all(client: EntityNo, stamp: Operand) -> Instr
        ensures { result ≡ CancelAll client stamp }
    {
        Instr {
            flat: parts_of(Opcode::CancelAll, client, stamp, NO_OPERAND),
        }
    }

    /// `["cancel", C, "goal", K]` and `["cancel", C, "goal-before", K, S]`: action client C sends a cancel
    /// request for its goal K with the stamp S in ticks, which for `"goal"` is 0.
    pub fn cancel_goal(client: EntityNo, goal: Operand, stamp: Operand) -> Instr
        ensures { result ≡ CancelGoal client goal stamp }
    {
        Instr {
            flat: parts_of(Opcode::CancelGoal, client, goal, stamp),
        }
    }

    /// `["execute", X]`: server X begins to work on the oldest goal that it accepted and deferred.
    pub fn execute(server: EntityNo) -> Instr
        ensures { result ≡ Execute server }
    {
        Instr {
            flat: parts_of(Opcode::Execute, server, NO_OPERAND, NO_OPERAND),
        }
    }

    /// `["log", A]`: a line with A.
    pub fn log(value: Operand) -> Instr
        ensures { result ≡ Log value }
    {
        Instr {
            flat: parts_of(Opcode::Log, NO_ENTITY, value, NO_OPERAND),
        }
    }

    /// `["reply", A]`: the service's reply becomes A.
    pub fn reply(value: Operand) -> Instr
        ensures { result ≡ Reply value }
    {
        Instr {
            flat: parts_of(Opcode::Reply, NO_ENTITY, value, NO_OPERAND),
        }
    }

    /// `["decide", A]`: the handler's decision becomes A.
    pub fn decide(value: Operand) -> Instr
        ensures { result ≡ Decide value }
    {
        Instr {
            flat: parts_of(Opcode::Decide, NO_ENTITY, value, NO_OPERAND),
        }
    }

    /// `["feedback", A]`: the goal gives feedback A.
    pub fn feedback(value: Operand) -> Instr
        ensures { result ≡ Feedback value }
    {
        Instr {
            flat: parts_of(Opcode::Feedback, NO_ENTITY, value, NO_OPERAND),
        }
    }

    /// `["wait", A]`: the goal pends for A ticks.
    pub fn wait(ticks: Operand) -> Instr
        ensures { result ≡ Wait ticks }
    {
        Instr {
            flat: parts_of(Opcode::Wait, NO_ENTITY, ticks, NO_OPERAND),
        }
    }

    /// `["yield"]`: the goal pends until the next round.
    pub fn pend() -> Instr
        ensures { result ≡ Yield }
    {
        Instr {
            flat: parts_of(Opcode::Yield, NO_ENTITY, NO_OPERAND, NO_OPERAND),
        }
    }

    /// `["succeed", A]`: the goal ends with A, having succeeded.
    pub fn succeed(value: Operand) -> Instr
        ensures { result ≡ Succeed value }
    {
        Instr {
            flat: parts_of(Opcode::Succeed, NO_ENTITY, value, NO_OPERAND),
        }
    }

    /// `["abort", A]`: the goal ends with A, given up.
    pub fn abort(value: Operand) -> Instr
        ensures { result ≡ Abort value }
    {
        Instr {
            flat: parts_of(Opcode::Abort, NO_ENTITY, value, NO_OPERAND),
        }
    }

    /// `["canceled", A]`: the goal ends with A, its cancellation done.
    pub fn canceled(value: Operand) -> Instr
        ensures { result ≡ Canceled value }
    {
        Instr {
            flat: parts_of(Opcode::Canceled, NO_ENTITY, value, NO_OPERAND),
        }
    }
}
