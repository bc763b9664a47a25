ghost use Rattle.std.specs.Prelude.{◌≡◌, ◌⊎◌, List, [], ◌∷◌, map, IfOk, IfErr};
ghost use Rattle.std.specs.Option.{ok_or};
ghost use Rattle.exec_script.specs.Spelling.{set_of, skip_of, of_operand, of_name_and_operand, operand_alone, execute_of, yield_of, instruction_named, instruction_of, script_of, word_of};
ghost use Rattle.exec_script.specs.Instruction as instr;
ghost use Rattle.exec_script.specs.declared.word.Word.{Word};
ghost use Rattle.exec_script.specs.declared.word.Word.TheVariants.{Text};

use crate::cancel::cancel;
use crate::fault::ScriptFault;
use crate::instr::{Instr, Operand};
use crate::item::{cell_named, count_of, operand_in, operand_of, operation_named, text_in};
use crate::scope::Scope;
use crate::word::{Word, WordRef};
use std::alloc::Global;

/// What spells an instruction by words.
pub trait Spelling {
    ghost words: { Self → List Word };

    /// The instruction, or its least fault.
    fn instruction<S: Scope>(&self, scope: &S) -> Result<Instr, ScriptFault>
        ensures { result ≡ instruction_of (S.names scope.now) (words self.now) };
}

impl Spelling for Vec<Word> {
    ghost words = { λ words. words.items };

    fn instruction<S: Scope>(&self, scope: &S) -> Result<Instr, ScriptFault> {
        instruction_of(self.as_slice(), scope)
    }
}

/// The script that lists of words spell.
///
/// # Errors
/// The least fault of the first instruction that is misspelt, or [`ScriptFault::Memory`] if a growth was refused.
pub fn decode<W: Spelling, S: Scope>(
    alloc: Global,
    spelled: &[W],
    scope: &S,
) -> Result<Vec<Instr>, ScriptFault>
    ensures script { IfOk result (λ script. script_of (S.names scope.now) (map W.words spelled.now) ≡ Ok script.items) }
    ensures fault { IfErr result (λ fault. (fault ≡ ScriptFault.Memory)
        ⊎ (script_of (S.names scope.now) (map W.words spelled.now) ≡ Err fault)) }
{
    let Ok(mut script) = Vec::with_capacity(alloc, spelled.len()) else {
        return Err(ScriptFault::Memory);
    };
    for words in spelled {
        let instr = words.instruction(scope)?;
        script.push(instr)?;
    }
    Ok(script)
}

/// The instruction that words spell, or its least fault.
pub(crate) fn instruction_of<S: Scope>(words: &[Word], scope: &S) -> Result<Instr, ScriptFault>
    ensures { result ≡ instruction_of (S.names scope.now) words.now }
{
    let [Word::Text(name), items @ ..] = words else {
        return Err(ScriptFault::Instruction);
    };
    instruction_named(name.as_str(), items, scope)
}

fn instruction_named<S: Scope>(name: &str, items: &[Word], scope: &S) -> Result<Instr, ScriptFault>
    ensures { result ≡ instruction_named (S.names scope.now) name.now items.now }
{
    match name {
        "set" => set(items),
        "skip" => skip(items),
        "pub" => publish(items, scope),
        "call" => call(items, scope),
        "goal" => goal(items, scope),
        "cancel" => cancel(items, scope),
        "execute" => execute(items, scope),
        "log" => log(items),
        "reply" => reply(items),
        "decide" => decide(items),
        "feedback" => feedback(items),
        "wait" => wait(items),
        "yield" => pend(items),
        "succeed" => succeed(items),
        "abort" => abort(items),
        "canceled" => canceled(items),
        _ => Err(ScriptFault::Instruction),
    }
}

fn set(items: &[Word]) -> Result<Instr, ScriptFault>
    ensures { result ≡ set_of items.now }
{
    match items {
        [Word::Text(destination), Word::Text(operation), left, right] => set_with(
            destination.as_str(),
            operation.as_str(),
            left.as_ref(),
            right.as_ref(),
        )
        .ok_or(ScriptFault::Operand),
        [_, _, _, _] => Err(ScriptFault::Operand),
        _ => Err(ScriptFault::Count),
    }
}

/// The `set` with these items, or `None` if they are misspelt. It is inlined, because most instructions of a long script are
/// `set`s.
#[inline(always)]
pub(crate) fn set_with(
    destination: &str,
    operation: &str,
    left: WordRef<'_>,
    right: WordRef<'_>,
) -> Option<Instr>
    ensures { ok_or result ScriptFault.Operand ≡ set_of (Text destination.now ∷ Text operation.now ∷ word_of left.entry ∷ word_of right.entry ∷ []) }
{
    let destination = cell_named(destination)?;
    let operation = operation_named(operation)?;
    let left = operand_in(left)?;
    let right = operand_in(right)?;
    Some(Instr::set(destination, operation, left, right))
}

fn skip(items: &[Word]) -> Result<Instr, ScriptFault>
    ensures { result ≡ skip_of items.now }
{
    let [condition, count] = items else {
        return Err(ScriptFault::Count);
    };
    let condition = operand_of(condition).ok_or(ScriptFault::Operand)?;
    let count = count_of(count).ok_or(ScriptFault::Operand)?;
    Ok(Instr::skip(condition, count))
}

fn publish<S: Scope>(items: &[Word], scope: &S) -> Result<Instr, ScriptFault>
    ensures { result ≡ of_name_and_operand (S.names scope.now).topic instr.Pub items.now }
{
    let [name, value] = items else {
        return Err(ScriptFault::Count);
    };
    let name = text_in(name).ok_or(ScriptFault::Operand)?;
    let value = operand_of(value).ok_or(ScriptFault::Operand)?;
    let topic = scope.topic(name).ok_or(ScriptFault::UnknownName)?;
    Ok(Instr::publish(topic, value))
}

fn call<S: Scope>(items: &[Word], scope: &S) -> Result<Instr, ScriptFault>
    ensures { result ≡ of_name_and_operand (S.names scope.now).client instr.Call items.now }
{
    let [name, value] = items else {
        return Err(ScriptFault::Count);
    };
    let name = text_in(name).ok_or(ScriptFault::Operand)?;
    let value = operand_of(value).ok_or(ScriptFault::Operand)?;
    let client = scope.client(name).ok_or(ScriptFault::UnknownName)?;
    Ok(Instr::call(client, value))
}

fn goal<S: Scope>(items: &[Word], scope: &S) -> Result<Instr, ScriptFault>
    ensures { result ≡ of_name_and_operand (S.names scope.now).action_client instr.Goal items.now }
{
    let [name, value] = items else {
        return Err(ScriptFault::Count);
    };
    let name = text_in(name).ok_or(ScriptFault::Operand)?;
    let value = operand_of(value).ok_or(ScriptFault::Operand)?;
    let client = scope.action_client(name).ok_or(ScriptFault::UnknownName)?;
    Ok(Instr::goal(client, value))
}

fn execute<S: Scope>(items: &[Word], scope: &S) -> Result<Instr, ScriptFault>
    ensures { result ≡ execute_of (S.names scope.now) items.now }
{
    let [name] = items else {
        return Err(ScriptFault::Count);
    };
    let name = text_in(name).ok_or(ScriptFault::Operand)?;
    let server = scope.server(name).ok_or(ScriptFault::UnknownName)?;
    Ok(Instr::execute(server))
}

fn log(items: &[Word]) -> Result<Instr, ScriptFault>
    ensures { result ≡ of_operand instr.Log items.now }
{
    Ok(Instr::log(operand_alone(items)?))
}

fn reply(items: &[Word]) -> Result<Instr, ScriptFault>
    ensures { result ≡ of_operand instr.Reply items.now }
{
    Ok(Instr::reply(operand_alone(items)?))
}

fn decide(items: &[Word]) -> Result<Instr, ScriptFault>
    ensures { result ≡ of_operand instr.Decide items.now }
{
    Ok(Instr::decide(operand_alone(items)?))
}

fn feedback(items: &[Word]) -> Result<Instr, ScriptFault>
    ensures { result ≡ of_operand instr.Feedback items.now }
{
    Ok(Instr::feedback(operand_alone(items)?))
}

fn wait(items: &[Word]) -> Result<Instr, ScriptFault>
    ensures { result ≡ of_operand instr.Wait items.now }
{
    Ok(Instr::wait(operand_alone(items)?))
}

fn pend(items: &[Word]) -> Result<Instr, ScriptFault>
    ensures { result ≡ yield_of items.now }
{
    let [] = items else {
        return Err(ScriptFault::Count);
    };
    Ok(Instr::pend())
}

fn succeed(items: &[Word]) -> Result<Instr, ScriptFault>
    ensures { result ≡ of_operand instr.Succeed items.now }
{
    Ok(Instr::succeed(operand_alone(items)?))
}

fn abort(items: &[Word]) -> Result<Instr, ScriptFault>
    ensures { result ≡ of_operand instr.Abort items.now }
{
    Ok(Instr::abort(operand_alone(items)?))
}

fn canceled(items: &[Word]) -> Result<Instr, ScriptFault>
    ensures { result ≡ of_operand instr.Canceled items.now }
{
    Ok(Instr::canceled(operand_alone(items)?))
}

fn operand_alone(items: &[Word]) -> Result<Operand, ScriptFault>
    ensures { result ≡ operand_alone items.now }
{
    let [value] = items else {
        return Err(ScriptFault::Count);
    };
    operand_of(value).ok_or(ScriptFault::Operand)
}
