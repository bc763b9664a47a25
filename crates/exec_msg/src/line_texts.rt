//! The texts that lines are made of.
use crate::memory::Memory;
use crate::name_texts::NameTexts;
use crate::names::Names;
use crate::value_texts::ValueTexts;
use std::alloc::Global;
use std::marker::Model;

/// The names of a graph, and the texts of long numbers that lines had. Its value is the names, because what is kept of numbers
/// changes no line.
#[derive(Drop)]
pub(crate) struct LineTexts<'a> {
    pub(crate) names: NameTexts<'a>,
    pub(crate) values: ValueTexts,
}

impl<'a> Model for LineTexts<'a> {
    ghost use Rattle.std.specs.Prelude.{ℕ, List};

    ghost Value = { List (List ℕ) };

    ghost view = { λ texts. texts.names };
}

impl<'a> LineTexts<'a> {
    ghost use Rattle.std.specs.Prelude.{◌≡◌};

    /// Names without fields, and no numbers. It takes no memory.
    pub(crate) fn new(alloc: Global, names: &'a Names) -> LineTexts<'a>
        ensures { result ≡ names.now }
    {
        LineTexts {
            names: NameTexts::new(alloc, names),
            values: ValueTexts::new(alloc),
        }
    }

    /// Makes the fields of short names, and those in which long numbers are kept from then on.
    pub(crate) fn fill(&mut self) -> Result<(), Memory>
        ensures { self.new ≡ self.old }
    {
        self.names.fill()?;
        self.values.fill()
    }
}
