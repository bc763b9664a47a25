//! The names of a graph as lines have them. Most are short, and are copied at a fixed length.
ghost use Rattle.std.specs.Prelude.{◌≡◌, ◌+◌, ◌≤◌, [], ◌∷◌, ◌++◌, ℕ, List, length, map, string_bytes, take, IfSome};
ghost use Rattle.std.specs.Option.{option_copied};
ghost use Rattle.exec_msg.specs.Line.{greatest_length, name_at, spaced};
ghost use Rattle.exec_msg.specs.inner.NameTexts.{AreFieldsOf};

use crate::memory::Memory;
use crate::names::Names;
use crate::numbers::EntityNo;
use crate::place::{place_field, place_pair};
use std::alloc::Global;
use std::marker::Model;

/// A name's field as a line has it: a space, the name, and spaces up to a fixed length. It is copied in two parts, each of a
/// fixed length.
#[derive(Drop)]
pub(crate) struct NameField {
    length: usize,
    text: [u8; 48],
}

impl Model for NameField {
    ghost use Rattle.std.specs.Prelude.{◌≡◌, ◌≤◌, ℕ, List, ◌∷◌, drop, take};

    ghost Value = { List ℕ };

    ghost view = { λ field. drop 1 (take field.length field.text) };

    ghost invariant = { λ field. (take field.length field.text ≡ 32 ∷ drop 1 (take field.length field.text)) × (field.length ≤ 48) };
}

impl NameField {
    // The field of a name, if the name is short.
    fn of(name: &str) -> Option<NameField>
        ensures { IfSome result (λ field. field ≡ name.now) }
    {
        if name.len() >= 48 {
            return None;
        }
        let mut text = [b' '; 48];
        let length = place_field(&mut text, 0, name);
        Some(NameField { length, text })
    }

    /// Puts the name at a place of bytes, with a space before it. The bytes after its end may change.
    #[inline(always)]
    pub(crate) fn place(&self, bytes: &mut [u8], at: usize) -> usize
        requires { at + 48 ≤ length bytes.old }
        ensures text { take result bytes.new ≡ take at bytes.old ++ spaced (self.now ∷ []) }
        ensures end { result ≡ at + 1 + length self.now }
    {
        place_pair::<32, 16>(bytes, at, &self.text);
        at + self.length
    }
}

/// The names of a graph, and the fields of those that are kept.
#[derive(Drop)]
pub(crate) struct NameTexts<'a> {
    names: &'a Names,
    fields: Vec<Option<NameField>>,
}

impl<'a> Model for NameTexts<'a> {
    ghost use Rattle.std.specs.Prelude.{ℕ, List};
    ghost use Rattle.exec_msg.specs.inner.NameTexts.{AreFieldsOf};

    ghost Value = { List (List ℕ) };

    ghost view = { λ texts. texts.names.now };

    ghost invariant = { λ texts. AreFieldsOf texts.names.now texts.fields.items };
}

impl<'a> NameTexts<'a> {
    /// Names without fields. It takes no memory.
    pub(crate) fn new(alloc: Global, names: &'a Names) -> NameTexts<'a>
        ensures { result ≡ names.now }
    {
        NameTexts {
            names,
            fields: Vec::new(alloc),
        }
    }

    /// The names.
    pub(crate) fn names(&self) -> &'a Names
        ensures { result.now ≡ self.now }
    {
        self.names
    }

    /// Makes the fields of short names, which are copied from then on.
    pub(crate) fn fill(&mut self) -> Result<(), Memory>
        ensures { self.new ≡ self.old }
    {
        push_fields(self.names.texts(), &mut self.fields)
    }

    /// The field of the name at a number, if it is kept. The name is no longer than the longest of the graph.
    #[inline(always)]
    pub(crate) fn short(&self, no: EntityNo) -> Option<&NameField>
        ensures name { IfSome (option_copied result) (λ name. name ≡ name_at self.now no) }
        ensures bound { IfSome (option_copied result) (λ name. length name ≤ greatest_length self.now) }
    {
        self.field(no)
    }

    // The same, but nothing is known of its length.
    #[inline(always)]
    fn field(&self, no: EntityNo) -> Option<&NameField>
        ensures { IfSome (option_copied result) (λ name. name ≡ name_at self.now no) }
    {
        match self.fields.get(no.0 as usize) {
            None => None,
            Some(field) => field.as_ref(),
        }
    }

    /// Puts the name at a number at a place of bytes, with a space before it. The bytes after its end may change.
    #[inline(always)]
    pub(crate) fn place(&self, bytes: &mut [u8], at: usize, no: EntityNo) -> usize
        requires { at + greatest_length self.now + 49 ≤ length bytes.old }
        ensures text { take result bytes.new ≡ take at bytes.old ++ spaced (name_at self.now no ∷ []) }
        ensures within { result ≤ at + greatest_length self.now + 1 }
    {
        match self.short(no) {
            Some(field) => field.place(bytes, at),
            None => place_long(bytes, at, self.names.bounded_name(no)),
        }
    }
}

// Puts the fields of names in place of others.
fn push_fields(names: &[String], fields: &mut Vec<Option<NameField>>) -> Result<(), Memory>
    ensures { AreFieldsOf (map string_bytes names.now) fields.new.items }
{
    fields.clear();
    for name in names {
        fields.push(NameField::of(name.as_str()))?;
    }
    Ok(())
}

// A name that has no field, with a space before it.
#[inline(never)]
fn place_long(bytes: &mut [u8], at: usize, name: &str) -> usize
    requires { at + length name.now + 1 ≤ length bytes.old }
    ensures text { take result bytes.new ≡ take at bytes.old ++ spaced (name.now ∷ []) }
    ensures end { result ≡ at + length name.now + 1 }
{
    place_field(bytes, at, name)
}
