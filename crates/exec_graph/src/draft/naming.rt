//! Names, and lists of different ones.
ghost use Rattle.std.specs.Prelude.{◌≡◌, [], ◌∷◌, ◌++◌, not, ◌&&◌, if◌then◌else◌, IfOk, OnErr};
ghost use Rattle.std.specs.List.{list_all, list_any};
ghost use Rattle.std.specs.Str.{bytes_eq};
ghost use Rattle.exec_plan.specs.Names.{is_name_byte, is_name};

use crate::draft::texts::TextSet;
use exec_msg::Memory;
use exec_msg::limits::NAME_LENGTH;

// Adds a text after the others, if it is a name and not there yet. Answers whether it was added.
pub(crate) fn add_name<'a>(names: &mut TextSet<'a>, text: &'a str) -> Result<bool, Memory>
    ensures added { IfOk result (λ added. added ≡ (is_name text.now && not (list_any (λ other. bytes_eq other text.now) names.old))) }
    ensures names { IfOk result (λ added. names.new ≡ (if added then names.old ++ text.now ∷ [] else names.old)) }
    ensures unchanged { OnErr result (names.new ≡ names.old) }
{
    if is_name(text.as_bytes()) {
        names.insert(text)
    } else {
        Ok(false)
    }
}

fn is_name(text: &[u8]) -> bool
    ensures { result ≡ is_name text.now }
{
    !text.is_empty() && text.len() <= NAME_LENGTH && are_name_bytes(text)
}

fn are_name_bytes(text: &[u8]) -> bool
    ensures { result ≡ list_all is_name_byte text.now }
{
    text.iter().all(is_name_byte)
}

fn is_name_byte(byte: &u8) -> bool
    ensures { result ≡ is_name_byte byte.now }
{
    matches!(*byte, b'A'..=b'Z' | b'a'..=b'z' | b'0'..=b'9' | b'_' | b'/')
}
