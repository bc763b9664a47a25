use exec_script::SpelledInstr;
use std::marker::Model;

/// A script as a document spells it. Contracts see it as a list of lists of words.
#[derive(Debug, Drop)]
pub struct Spelled {
    instrs: Vec<SpelledInstr>,
}

impl Model for Spelled {
    ghost use Rattle.std.specs.Prelude.{List};
    ghost use Rattle.exec_script.specs.declared.word.Word.{Word};

    ghost Value = { List (List Word) };

    ghost view = { λ script. script.instrs.items };
}

impl Spelled {
    ghost use Rattle.std.specs.Prelude.{◌≡◌};

    /// The script of a vector of instructions. It takes no memory.
    pub fn of(instrs: Vec<SpelledInstr>) -> Spelled
        ensures { result ≡ instrs.items }
    {
        Spelled { instrs }
    }

    /// The instructions in their order.
    pub fn as_slice(&self) -> &[SpelledInstr]
        ensures { result.now ≡ self.now }
    {
        self.instrs.as_slice()
    }
}
