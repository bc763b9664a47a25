ghost use Rattle.std.specs.Prelude.{◌≡◌, ℕ};

use exec_msg::{EntityNo, Memory, PlaceTable};
use std::alloc::Global;
use std::marker::Model;

/// What belongs to an entity of a graph, which has a number.
pub trait Numbered: Drop {
    ghost number_of: { Self → ℕ };

    /// The entity's number.
    fn number(&self) -> EntityNo
        ensures { result ≡ number_of self.now };
}

/// Entries in the order in which they were declared. Each is found by its entity's number without a walk over the others.
#[derive(Drop)]
pub struct ByNumber<E: Numbered> {
    /// All of them.
    pub entries: Vec<E>,
    places: PlaceTable,
}

impl<E: Numbered> Model for ByNumber<E> {
    ghost use Rattle.std.specs.Prelude.{List};
    ghost use Rattle.exec_entity.specs.inner.Numbered.{FindsByNumber};

    ghost Value = { List E };

    ghost view = { λ entries. entries.entries.items };

    ghost invariant = { λ entries. FindsByNumber E.number_of entries.places entries.entries.items };
}

impl<E: Numbered> ByNumber<E> {
    ghost use Rattle.std.specs.Prelude.{◌≡◌, ◌==◌, [], ◌∷◌, ◌++◌, find, OnOk, OnErr};
    ghost use Rattle.std.specs.Fn.{FnOnceReturnsAtMut, FnOnceTakesAtMut};
    ghost use Rattle.std.specs.Option.{option_copied, ForSome};
    ghost use Rattle.exec_entity.specs.inner.Numbered.{IsChanged, KeepsNumber};
    ghost use Rattle.exec_rules.specs.inner.Places.{place_in};

    /// No entries. It takes no memory.
    pub fn new(alloc: Global) -> ByNumber<E>
        ensures { result ≡ [] }
    {
        ByNumber {
            entries: Vec::new(alloc),
            places: PlaceTable::new(alloc),
        }
    }

    /// Declares an entry after the others.
    ///
    /// # Errors
    /// [`Memory`] if a growth was refused. The entries don't change.
    pub fn declare(&mut self, entry: E) -> Result<(), Memory>
        ensures declared { OnOk result (self.new ≡ self.old ++ entry ∷ []) }
        ensures unchanged { OnErr result (self.new ≡ self.old) }
    {
        let number = entry.number().0 as usize;
        self.places.reserve(number)?;
        let place = self.entries.as_slice().len();
        self.entries.push(entry)?;
        self.places.note(number, place);
        Ok(())
    }

    /// The place of the first entry of an entity, from 0. If there is none, it is the number of entries.
    pub fn place(&self, entity: EntityNo) -> usize
        ensures { result ≡ place_in (λ entry. E.number_of entry == entity) self.now }
    {
        self.places
            .get(entity.0 as usize)
            .unwrap_or(self.entries.len())
    }

    /// The first entry of an entity.
    pub fn find(&self, entity: EntityNo) -> Option<&E>
        ensures { option_copied result ≡ find (λ entry. E.number_of entry == entity) self.now }
    {
        self.entries.get(self.place(entity))
    }

    // Changes the first entry of an entity, and answers what the change does. If there is none, nothing changes, and there is no
    // answer. A change leaves the entry its number.
    #[inline(always)]
    pub(crate) fn change<T, F: FnOnce(&mut E) -> T>(
        &mut self,
        entity: EntityNo,
        change: F,
    ) -> Option<T>
        requires callable { ForSome (find (λ entry. E.number_of entry == entity) self.old) (FnOnceTakesAtMut F.FnOnce change) }
        requires numbered { KeepsNumber E.number_of (FnOnceReturnsAtMut F.FnOnce change) }
        ensures { IsChanged (FnOnceReturnsAtMut F.FnOnce change) (λ entry. E.number_of entry == entity) self.old result self.new }
    {
        let place = self.place(entity);
        let Some(entry) = self.entries.get_mut(place) else {
            return None;
        };
        Some(change(entry))
    }

    /// All entries in their order.
    pub fn as_slice(&self) -> &[E]
        ensures { result.now ≡ self.now }
    {
        self.entries.as_slice()
    }
}
