ghost use Rattle.std.specs.Prelude.{◌≡◌, ◌<◌, ◌^◌, IfSome, bytes_eq};
ghost use Rattle.std.specs.Map.{lookup};
ghost use Rattle.std.specs.Option.{option_copied};
ghost use Rattle.exec_script.specs.Spelling.{cell_named, inputs, operations, operand_named, operand_of, count_of, text_in, word_of};

use crate::cells::Slot;
use crate::instr::{Destination, Operand, Operation};
use crate::word::{Word, WordRef};

/// The operand that a word spells.
pub(crate) fn operand_of(word: &Word) -> Option<Operand>
    ensures { result ≡ operand_of word.now }
{
    operand_in(word.as_ref())
}

/// The same of a word that is read without a copy.
#[inline(always)]
pub(crate) fn operand_in(word: WordRef<'_>) -> Option<Operand>
    ensures { result ≡ operand_of (word_of word.entry) }
{
    match word {
        WordRef::Number(value) => Some(Operand::Value(value)),
        WordRef::Text(text) => operand_named(text),
    }
}

// The operand that a text names. Cells are looked up first, because most operands are registers. No cell has the name of an
// input.
fn operand_named(text: &str) -> Option<Operand>
    ensures { result ≡ operand_named text.now }
{
    let Some(cell) = cell_named(text) else {
        return input_named(text);
    };
    match cell {
        Destination::Register(slot) => Some(Operand::Register(slot)),
        Destination::Variable(slot) => Some(Operand::Variable(slot)),
    }
}

// The operand that has a name of its own. Bytes are compared in place, because texts take a call for each name.
fn input_named(text: &str) -> Option<Operand>
    ensures { result ≡ lookup (bytes_eq text.now) inputs }
{
    match text.as_bytes() {
        b"in" => Some(Operand::In),
        b"aux" => Some(Operand::Aux),
        b"now" => Some(Operand::Now),
        _ => None,
    }
}

/// The register or group variable that a text names.
pub(crate) fn cell_named(text: &str) -> Option<Destination>
    ensures { result ≡ cell_named text.now }
{
    let [letter, digit @ b'0'..=b'7'] = text.as_bytes() else {
        return None;
    };
    let slot = Slot::new(*digit - b'0')?;
    match *letter {
        b'r' => Some(Destination::Register(slot)),
        b'g' => Some(Destination::Variable(slot)),
        _ => None,
    }
}

/// The operation that a text names.
pub(crate) fn operation_named(text: &str) -> Option<Operation>
    ensures { result ≡ lookup (bytes_eq text.now) operations }
{
    match text.as_bytes() {
        b"add" => Some(Operation::Add),
        b"sub" => Some(Operation::Sub),
        b"mul" => Some(Operation::Mul),
        b"min" => Some(Operation::Min),
        b"max" => Some(Operation::Max),
        b"lt" => Some(Operation::Lt),
        b"eq" => Some(Operation::Eq),
        _ => None,
    }
}

/// The number of instructions to pass over that a word spells.
pub(crate) fn count_of(word: &Word) -> Option<u64>
    ensures value { result ≡ count_of word.now }
    ensures bound { IfSome result (λ count. count < 2 ^ 63) }
{
    match word {
        Word::Number(count) if *count >= 1 => Some(*count as u64),
        _ => None,
    }
}

/// The text of a word, if it is one.
pub(crate) fn text_in(word: &Word) -> Option<&str>
    ensures { option_copied result ≡ text_in word.now }
{
    match word {
        Word::Number(_) => None,
        Word::Text(text) => Some(text.as_str()),
    }
}
