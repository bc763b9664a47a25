//! Scripts decoded from their words.
use super::spellings::SPELLINGS;
use crate::shared::same_at;
use exec_msg::{EntityNo, Memory};
use exec_script::{Instr, Scope, ScriptFault, SpelledInstr, Spelling, Word, WordRef, decode};
use std::alloc::Global;
use std::test::Fail;

/// A topic `x`, and a node with a service client `c`, an action server `a` and an action client `ac`.
struct Node;

impl Scope for Node {
    ghost use Rattle.std.specs.Prelude.{codes, if◌then◌else◌, None, Some};
    ghost use Rattle.std.specs.Str.{bytes_eq};

    ghost names = { λ _. record {
      topic = λ name. if bytes_eq name (codes "x") then Some 0 else None;
      client = λ name. if bytes_eq name (codes "c") then Some 3 else None;
      action_client = λ name. if bytes_eq name (codes "ac") then Some 6 else None;
      server = λ name. if bytes_eq name (codes "a") then Some 5 else None;
    } };

    fn topic(&self, name: &str) -> Option<EntityNo> {
        match name {
            "x" => Some(EntityNo(0)),
            _ => None,
        }
    }

    fn client(&self, name: &str) -> Option<EntityNo> {
        match name {
            "c" => Some(EntityNo(3)),
            _ => None,
        }
    }

    fn action_client(&self, name: &str) -> Option<EntityNo> {
        match name {
            "ac" => Some(EntityNo(6)),
            _ => None,
        }
    }

    fn server(&self, name: &str) -> Option<EntityNo> {
        match name {
            "a" => Some(EntityNo(5)),
            _ => None,
        }
    }
}

// The words of a script. Each line has an instruction, with spaces between its items.
fn words(alloc: Global, script: &str) -> Result<Vec<Vec<Word>>, Memory> {
    let mut spelled = Vec::new(alloc);
    for line in script.split('\n') {
        spelled.push(items(alloc, line)?)?;
    }
    Ok(spelled)
}

fn items(alloc: Global, line: &str) -> Result<Vec<Word>, Memory> {
    let mut items = Vec::new(alloc);
    for item in line.split_ascii_whitespace() {
        items.push(word(alloc, item)?)?;
    }
    Ok(items)
}

fn word(alloc: Global, item: &str) -> Result<Word, Memory> {
    match item.parse::<i64>() {
        Ok(value) => Word::copy_of(alloc, WordRef::Number(value)),
        Err(_) => Word::copy_of(alloc, WordRef::Text(item)),
    }
}

// The same script. Each of its `set`s is decoded when it is read.
fn instructions(alloc: Global, script: &str) -> Result<Vec<SpelledInstr>, Memory> {
    let mut spelled = Vec::new(alloc);
    for line in script.split('\n') {
        spelled.push(instruction(items(alloc, line)?))?;
    }
    Ok(spelled)
}

fn instruction(words: Vec<Word>) -> SpelledInstr {
    match set_in(words.as_slice()) {
        Some(set) => set,
        None => SpelledInstr::of(words),
    }
}

fn set_in(words: &[Word]) -> Option<SpelledInstr> {
    let [
        Word::Text(name),
        Word::Text(destination),
        Word::Text(operation),
        left,
        right,
    ] = words
    else {
        return None;
    };
    if name.as_str() != "set" {
        return None;
    }
    SpelledInstr::set(
        destination.as_str(),
        operation.as_str(),
        left.as_ref(),
        right.as_ref(),
    )
}

/// The script that this text spells. Each line has an instruction.
///
/// # Errors
/// The fault of the script, or [`ScriptFault::Memory`] if a growth was refused.
pub fn decoded(alloc: Global, script: &str) -> Result<Vec<Instr>, ScriptFault> {
    let Ok(spelled) = words(alloc, script) else {
        return Err(ScriptFault::Memory);
    };
    decoded_by(alloc, spelled.as_slice())
}

// If memory is refused, the call is made once more.
fn decoded_by<W: Spelling>(alloc: Global, spelled: &[W]) -> Result<Vec<Instr>, ScriptFault> {
    match decode(alloc, spelled, &Node) {
        Err(ScriptFault::Memory) => decode(alloc, spelled, &Node),
        result => result,
    }
}

// What a script is, as it prints.
fn printed(alloc: Global, script: &str) -> Result<String, Memory> {
    let result = decoded(alloc, script);
    Ok(format!(in alloc; "{result:?}")?)
}

// The same of a script whose `set`s are decoded when they are read.
fn printed_at_once(alloc: Global, script: &str) -> Result<String, Memory> {
    let spelled = instructions(alloc, script)?;
    let result = decoded_by(alloc, spelled.as_slice());
    Ok(format!(in alloc; "{result:?}")?)
}

#[test]
fn decodes_a_set_where_it_is_read_as_the_rules_spell_it(rt: HostRuntime) -> Result<(), Fail> {
    for (script, wanted) in SPELLINGS {
        let found = printed_at_once(rt.alloc(), script)?;
        same_at(&rt, script, found.as_str(), *wanted);
    }
    Ok(())
}

#[test]
fn decodes_what_the_rules_spell(rt: HostRuntime) -> Result<(), Fail> {
    for (script, wanted) in SPELLINGS {
        let found = printed(rt.alloc(), script)?;
        same_at(&rt, script, found.as_str(), *wanted);
    }
    Ok(())
}
