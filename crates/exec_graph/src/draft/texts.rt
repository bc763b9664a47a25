//! Lists of different texts, in which one is found by its text.
use exec_msg::Memory;
use std::alloc::Global;
use std::collections::BTreeMap;
use std::marker::Model;

// Different texts, in the order in which they were added. They are borrowed. Their places are found in an ordered map. A
// document may have a million texts, and whoever writes it could choose texts that collide in a hash table.
#[derive(Drop)]
pub(crate) struct TextSet<'a> {
    texts: Vec<&'a str>,
    // The place of each text, from 0.
    places: BTreeMap<&'a str, usize>,
}

impl<'a> Model for TextSet<'a> {
    ghost use Rattle.std.specs.Prelude.{ℕ, List, map};
    ghost use Rattle.exec_graph.specs.inner.Places.{FindsPlaces};

    ghost Value = { List (List ℕ) };

    ghost view = { λ set. map (λ text. text.now) set.texts.items };

    ghost invariant = { λ set. FindsPlaces set.places (map (λ text. text.now) set.texts.items) };
}

impl<'a> TextSet<'a> {
    ghost use Rattle.std.specs.Prelude.{◌≡◌, ◌<◌, [], ◌∷◌, ◌++◌, false, not, length, if◌then◌else◌, OnOk, OnErr, IfOk, IfSome};
    ghost use Rattle.std.specs.List.{list_any, position_from};
    ghost use Rattle.std.specs.Str.{bytes_eq};

    // No texts. It takes no memory.
    pub(crate) fn new(alloc: Global) -> TextSet<'a>
        ensures { result ≡ [] }
    {
        TextSet {
            texts: Vec::new(alloc),
            places: BTreeMap::new(alloc),
        }
    }

    // Whether a text is there.
    pub(crate) fn contains(&self, text: &str) -> bool
        ensures { result ≡ list_any (λ other. bytes_eq other text.now) self.now }
    {
        self.position(text).is_some()
    }

    // The place of a text, from 0.
    pub(crate) fn position(&self, text: &str) -> Option<usize>
        ensures place { result ≡ position_from (λ other. bytes_eq other text.now) 0 self.now }
        ensures within { IfSome result (λ place. place < length self.now) }
    {
        self.places.get(text).copied()
    }

    // How many texts there are.
    pub(crate) fn len(&self) -> usize
        ensures { result ≡ length self.now }
    {
        self.texts.len()
    }

    // Adds a text after the others, if it isn't there yet. Answers whether it was added.
    pub(crate) fn insert(&mut self, text: &'a str) -> Result<bool, Memory>
        ensures ok { OnOk result (self.new ≡ (if list_any (λ other. bytes_eq other text.now) self.old then self.old else self.old ++ text.now ∷ [])) }
        ensures added { IfOk result (λ added. added ≡ not (list_any (λ other. bytes_eq other text.now) self.old)) }
        ensures unchanged { OnErr result (self.new ≡ self.old) }
    {
        if self.contains(text) {
            return Ok(false);
        }
        self.append(text)?;
        Ok(true)
    }

    fn append(&mut self, text: &'a str) -> Result<(), Memory>
        requires { list_any (λ other. bytes_eq other text.now) self.old ≡ false }
        ensures ok { OnOk result (self.new ≡ self.old ++ text.now ∷ []) }
        ensures unchanged { OnErr result (self.new ≡ self.old) }
    {
        let place = self.len();
        self.texts.reserve(1)?;
        self.places.insert(text, place)?;
        self.texts.push_reserved(text);
        Ok(())
    }
}
