use exec_script::Instr;
use std::marker::Model;
use std::sync::Arc;

/// A script that is shared. Contracts see it as its instructions.
#[derive(Drop)]
pub struct Script {
    instructions: Arc<Vec<Instr>>,
}

impl Model for Script {
    ghost use Rattle.std.specs.Arc.{arc_value};
    ghost use Rattle.std.specs.Prelude.{List};
    ghost use Rattle.exec_script.specs.declared.instr.Instr.{Instr};

    ghost Value = { List Instr };

    ghost view = { λ script. (arc_value script.instructions).items };
}

impl Script {
    ghost use Rattle.std.specs.Arc.{arc_value};
    ghost use Rattle.std.specs.Prelude.{◌≡◌};

    /// The script of these instructions. It takes no memory.
    pub fn of(instructions: Arc<Vec<Instr>>) -> Script
        ensures { result ≡ (arc_value instructions).items }
    {
        Script { instructions }
    }

    /// The instructions in their order.
    pub fn as_slice(&self) -> &[Instr]
        ensures { result.now ≡ self.now }
    {
        self.instructions.as_slice()
    }

    /// The instructions as they are shared. A caller may share them too, without a copy.
    pub fn shared(&self) -> &Arc<Vec<Instr>>
        ensures { (arc_value result.now).items ≡ self.now }
    {
        &self.instructions
    }
}
