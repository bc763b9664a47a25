use crate::memory::Memory;
use std::alloc::Global;
use std::marker::Model;

/// A list. Contracts see it as its elements.
#[derive(Debug, Drop)]
pub struct Elements<T> {
    items: Vec<T>,
}

impl<T> Model for Elements<T> {
    ghost use Rattle.std.specs.Prelude.{List};

    ghost Value = { List T };

    ghost view = { λ list. list.items.items };
}

impl<T> Elements<T> {
    ghost use Rattle.std.specs.Prelude.{◌≡◌, ◌==◌, [], length, slice_get};
    ghost use Rattle.std.specs.Option.{option_copied};

    /// No elements. It takes no memory.
    pub fn new(alloc: Global) -> Elements<T>
        ensures { result ≡ [] }
    {
        Elements {
            items: Vec::new(alloc),
        }
    }

    /// The elements of a vector. It takes no memory.
    pub fn of(items: Vec<T>) -> Elements<T>
        ensures { result ≡ items.items }
    {
        Elements { items }
    }

    /// How many elements there are.
    pub fn len(&self) -> usize
        ensures { result ≡ length self.now }
    {
        self.items.len()
    }

    /// Whether there is none.
    pub fn is_empty(&self) -> bool
        ensures { result ≡ (length self.now == 0) }
    {
        self.items.is_empty()
    }

    /// The element at this place, from 0.
    pub fn get(&self, index: usize) -> Option<&T>
        ensures { option_copied result ≡ slice_get self.now index }
    {
        self.items.get(index)
    }

    /// The elements in their order.
    pub fn as_slice(&self) -> &[T]
        ensures { result.now ≡ self.now }
    {
        self.items.as_slice()
    }
}

impl<T: Drop> Elements<T> {
    ghost use Rattle.std.specs.Prelude.{◌≡◌, ◌++◌, ◌∷◌, [], OnOk, OnErr};

    /// Adds an element at the end.
    ///
    /// # Errors
    /// [`Memory`] if a growth was refused. The list doesn't change.
    pub fn push(&mut self, item: T) -> Result<(), Memory>
        ensures ok { OnOk result (self.new ≡ self.old ++ item ∷ []) }
        ensures unchanged { OnErr result (self.new ≡ self.old) }
    {
        self.items.push(item)?;
        Ok(())
    }
}
