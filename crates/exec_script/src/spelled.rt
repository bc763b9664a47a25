use crate::fault::ScriptFault;
use crate::instr::Instr;
use crate::scope::Scope;
use crate::spelling::{Spelling, instruction_of, set_with};
use crate::word::{Word, WordRef};
use std::marker::Model;

/// An instruction as a document spells it, in 32 bytes. Contracts see it as its words. A `set` takes no other memory.
#[derive(Debug, Drop)]
pub struct SpelledInstr(SpelledAs);

// A `set` is decoded when it is read, because it names nothing that a scope has. Some others name nothing either, but most
// instructions of long scripts are `set`s, and the words of a `set` take 240 bytes.
#[derive(Debug, Drop)]
enum SpelledAs {
    Set(Instr),
    Words(Vec<Word>),
}

const _: () = prove!(size_of::<SpelledInstr>() == 32);

impl Model for SpelledInstr {
    ghost use Rattle.std.specs.Prelude.{List};
    ghost use Rattle.exec_script.specs.declared.word.Word.{Word};
    ghost use Rattle.exec_script.specs.inner.SetWords.{IsDecoded, words_kept};

    ghost Value = { List Word };

    ghost view = { λ spelled. words_kept spelled.0 };

    ghost invariant = { λ spelled. IsDecoded spelled.0 };
}

impl SpelledInstr {
    ghost use Rattle.std.specs.Prelude.{◌≡◌, [], ◌∷◌, codes, IfNone, IfSome, IsOk, IsErr};
    ghost use Rattle.exec_script.specs.Spelling.{set_of, word_of};
    ghost use Rattle.exec_script.specs.declared.word.Word.TheVariants.{Text};

    /// The instruction that these words spell. It takes no memory.
    pub fn of(words: Vec<Word>) -> SpelledInstr
        ensures { result ≡ words.items }
    {
        SpelledInstr(SpelledAs::Words(words))
    }

    /// The `set` with these items, or `None` if they are misspelt.
    pub fn set(
        destination: &str,
        operation: &str,
        left: WordRef<'_>,
        right: WordRef<'_>,
    ) -> Option<SpelledInstr>
        ensures words { IfSome result (λ set.
            set ≡ Text (codes "set") ∷ Text destination.now ∷ Text operation.now ∷ word_of left.entry ∷ word_of right.entry ∷ []) }
        ensures spelled { IfSome result (λ set. IsOk (set_of (Text destination.now ∷ Text operation.now ∷ word_of left.entry ∷ word_of right.entry ∷ []))) }
        ensures misspelt { IfNone result (IsErr (set_of (Text destination.now ∷ Text operation.now ∷ word_of left.entry ∷ word_of right.entry ∷ []))) }
    {
        let set = set_with(destination, operation, left, right)?;
        Some(SpelledInstr(SpelledAs::Set(set)))
    }
}

impl Spelling for SpelledInstr {
    ghost words = { λ spelled. spelled };

    fn instruction<S: Scope>(&self, scope: &S) -> Result<Instr, ScriptFault> {
        match &self.0 {
            SpelledAs::Set(instr) => Ok(*instr),
            SpelledAs::Words(words) => instruction_of(words.as_slice(), scope),
        }
    }
}
