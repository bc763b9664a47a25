ghost use Rattle.std.specs.Prelude.{◌≡◌, [], ◌∷◌, codes, map, option_map, true, Some, IfSome};
ghost use Rattle.serde_json.specs.View.{view};
ghost use Rattle.exec_msg.specs.Options.{each};
ghost use Rattle.exec_script.specs.Spelling.{word_of};
ghost use Rattle.exec_script.specs.declared.word.Word.TheVariants.{Text};
ghost use Rattle.exec_doc.specs.Forms.{list_of, word, script, script_field};
ghost use Rattle.exec_doc.specs.inner.Reading.{ReadingGives};

use crate::forms::fields::{self, Form};
use crate::refused::Refused;
use exec_graph::Spelled;
use exec_script::{SpelledInstr, Word, WordRef};
use serde_json::Value;
use std::alloc::Global;

impl Form for Word {
    ghost form = { word };

    fn read(alloc: Global, value: &Value) -> Result<Word, Refused> {
        let there = word_in(value).ok_or(Refused::Shape)?;
        Ok(Word::copy_of(alloc, there)?)
    }
}

// The word that a value is, read in its place.
#[inline(always)]
fn word_in(value: &Value) -> Option<WordRef<'_>>
    ensures { option_map word_of result ≡ word (view value.now) }
{
    match value {
        Value::String(text) => Some(WordRef::Text(text.as_str())),
        Value::Number(number) => Some(WordRef::Number(number.as_i64()?)),
        _ => None,
    }
}

impl Form for Spelled {
    ghost form = { script };

    fn read(alloc: Global, value: &Value) -> Result<Spelled, Refused> {
        Ok(Spelled::of(fields::list_of(alloc, value)?))
    }
}

impl Form for SpelledInstr {
    ghost form = { list_of word };

    fn read(alloc: Global, value: &Value) -> Result<SpelledInstr, Refused> {
        match set_in(value) {
            Some(set) => Ok(set),
            None => Ok(SpelledInstr::of(fields::list_of(alloc, value)?)),
        }
    }
}

// The `set` that a value spells, if it spells one.
#[tactic(auto, using(crate::proofs::Lists::any_list))]
fn set_in(value: &Value) -> Option<SpelledInstr>
    ensures { IfSome result (λ set. list_of word (view value.now) ≡ Some set) }
{
    listed_set(value.as_array()?)
}

// The `set` that the values of a list spell, if they spell one.
fn listed_set(values: &[Value]) -> Option<SpelledInstr>
    ensures { IfSome result (λ set. each word (map view values.now) ≡ Some set) }
{
    let [name, destination, operation, left, right] = values else {
        return None;
    };
    if !begins_set(name) {
        return None;
    }
    set_with(destination, operation, left, right)
}

// Whether a value is the word with which a `set` begins.
fn begins_set(name: &Value) -> bool
    ensures { result ≡ true → word (view name.now) ≡ Some (Text (codes "set")) }
{
    match name.as_str() {
        Some(text) => text == "set",
        None => false,
    }
}

// The `set` with the items that these values are.
fn set_with(
    destination: &Value,
    operation: &Value,
    left: &Value,
    right: &Value,
) -> Option<SpelledInstr>
    ensures { IfSome result (λ set. option_map (λ items. Text (codes "set") ∷ items)
        (each word (view destination.now ∷ view operation.now ∷ view left.now ∷ view right.now ∷ [])) ≡ Some set) }
{
    SpelledInstr::set(
        destination.as_str()?,
        operation.as_str()?,
        word_in(left)?,
        word_in(right)?,
    )
}

/// The script in a field, which is empty if the field is missing.
pub fn script_field(alloc: Global, holder: &Value, name: &str) -> Result<Spelled, Refused>
    ensures { ReadingGives (λ found. found) result (script_field name.now (view holder.now)) }
{
    match fields::optional_field(alloc, holder, name)? {
        Some(script) => Ok(script),
        None => Ok(Spelled::of(Vec::new(alloc))),
    }
}
