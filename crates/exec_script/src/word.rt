use arrayvec::ArrayString;
use exec_msg::Memory;
use std::alloc::Global;
use std::marker::Model;

/// A text. Contracts see it as its bytes.
#[derive(Debug, Drop)]
pub struct WordText(TextBytes);

// A text in its place, or one with memory of its own.
#[derive(Debug, Drop)]
enum TextBytes {
    Short(ArrayString<24>),
    Long(String),
}

impl Model for WordText {
    ghost use Rattle.std.specs.Prelude.{ℕ, List};
    ghost use Rattle.exec_script.specs.inner.TextBytes.{bytes_held};

    ghost Value = { List ℕ };

    ghost view = { λ text. bytes_held text.0 };
}

impl WordText {
    ghost use Rattle.std.specs.Prelude.{◌≡◌, ◌≤◌, length, string_bytes, IsOk, IfOk};

    /// A word of this text.
    pub fn of(text: String) -> WordText
        ensures { result ≡ string_bytes text }
    {
        WordText(TextBytes::Long(text))
    }

    /// A word of a copy of this text. One of at most 24 bytes takes no memory.
    ///
    /// # Errors
    /// [`Memory`] if a growth was refused.
    pub fn copy_of(alloc: Global, text: &str) -> Result<WordText, Memory>
        ensures copy { IfOk result (λ word. word ≡ text.now) }
        ensures short { length text.now ≤ 24 → IsOk result }
    {
        match ArrayString::from(text) {
            Ok(short) => Ok(WordText(TextBytes::Short(short))),
            Err(_) => Ok(WordText(TextBytes::Long(String::from_str(alloc, text)?))),
        }
    }

    /// The text.
    pub fn as_str(&self) -> &str
        ensures { result.now ≡ self.now }
    {
        match &self.0 {
            TextBytes::Short(text) => text.as_str(),
            TextBytes::Long(text) => text.as_str(),
        }
    }
}

/// A part of an instruction as a document spells it.
#[derive(Debug, Drop)]
pub enum Word {
    /// A text.
    Text(WordText),
    /// A value.
    Number(i64),
}

impl Word {
    ghost use Rattle.std.specs.Prelude.{◌≡◌, IsOk, IfOk};
    ghost use Rattle.exec_script.specs.Spelling.{IsShort, word_of};

    /// A copy of a word. One of at most 24 bytes takes no memory.
    ///
    /// # Errors
    /// [`Memory`] if a growth was refused.
    pub fn copy_of(alloc: Global, word: WordRef<'_>) -> Result<Word, Memory>
        ensures copy { IfOk result (λ copy. copy ≡ word_of word.entry) }
        ensures short { IsShort (word_of word.entry) → IsOk result }
    {
        match word {
            WordRef::Text(text) => Ok(Word::Text(WordText::copy_of(alloc, text)?)),
            WordRef::Number(value) => Ok(Word::Number(value)),
        }
    }

    /// The same word, without a copy.
    pub fn as_ref(&self) -> WordRef<'_>
        ensures { word_of result ≡ self.now }
    {
        match self {
            Word::Text(text) => WordRef::Text(text.as_str()),
            Word::Number(value) => WordRef::Number(*value),
        }
    }
}

/// A word that is read without a copy.
#[derive(Clone, Copy, Debug)]
pub enum WordRef<'a> {
    /// A text.
    Text(&'a str),
    /// A value.
    Number(i64),
}
