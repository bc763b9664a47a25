ghost use Rattle.std.specs.Prelude.{◌≡◌, ℕ, ◌≤◌, List, map, length, string_bytes};
ghost use Rattle.exec_msg.specs.Line.{greatest_length, name_at};

use crate::numbers::EntityNo;
use std::marker::Model;

/// The names of a graph's topics and entities, at their numbers.
#[derive(Debug, Drop)]
pub struct Names {
    texts: Vec<String>,
    // The length of the longest, in bytes.
    longest: usize,
}

impl Model for Names {
    ghost use Rattle.std.specs.Prelude.{◌≡◌, ℕ, List, map, string_bytes};
    ghost use Rattle.exec_msg.specs.Line.{greatest_length};

    ghost Value = { List (List ℕ) };

    ghost view = { λ names. map string_bytes names.texts.items };

    ghost invariant = { λ names. names.longest ≡ greatest_length (map string_bytes names.texts.items) };
}

impl Names {
    /// The names, at most 65,536. The first has the number 0.
    pub fn of(texts: Vec<String>) -> Names
        requires { length texts.items ≤ 65536 }
        ensures { result ≡ map string_bytes texts.items }
    {
        let longest = length_of_longest(&texts);
        Names { texts, longest }
    }

    // The name at a number, and that it is no longer than the longest.
    pub(crate) fn bounded_name(&self, no: EntityNo) -> &str
        ensures name { result.now ≡ name_at self.now no }
        ensures bound { length result.now ≤ greatest_length self.now }
    {
        self.name(no)
    }

    // All names, in their order.
    pub(crate) fn texts(&self) -> &[String]
        ensures { map string_bytes result.now ≡ self.now }
    {
        self.texts.as_slice()
    }

    // The length of the longest name.
    pub(crate) fn longest(&self) -> usize
        ensures { result ≡ greatest_length self.now }
    {
        self.longest
    }

    /// The name at a number. A number after the last name has the empty text.
    pub fn name(&self, no: EntityNo) -> &str
        ensures { result.now ≡ name_at self.now no }
    {
        match self.texts.get(no.0 as usize) {
            Some(text) => text.as_str(),
            None => "",
        }
    }
}

fn length_of_longest(texts: &[String]) -> usize
    ensures { result ≡ greatest_length (map string_bytes texts.now) }
{
    let mut longest = 0;
    for text in texts {
        longest = longest.max(text.len());
    }
    longest
}
