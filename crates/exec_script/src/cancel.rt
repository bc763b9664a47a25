ghost use Rattle.std.specs.Prelude.{◌≡◌};
ghost use Rattle.exec_script.specs.Spelling.{cancel_all_of, cancel_before_of, cancel_goal_of, cancel_goal_before_of, cancel_named, cancel_of};

use crate::fault::ScriptFault;
use crate::instr::{Instr, Operand};
use crate::item::{operand_of, text_in};
use crate::scope::Scope;
use crate::word::Word;

/// The `cancel` of these items, in one of its four forms.
pub(crate) fn cancel<S: Scope>(items: &[Word], scope: &S) -> Result<Instr, ScriptFault>
    ensures { result ≡ cancel_of (S.names scope.now) items.now }
{
    let [client, form, items @ ..] = items else {
        return Err(ScriptFault::Count);
    };
    let form = text_in(form).ok_or(ScriptFault::Operand)?;
    cancel_named(client, form, items, scope)
}

fn cancel_named<S: Scope>(
    client: &Word,
    form: &str,
    items: &[Word],
    scope: &S,
) -> Result<Instr, ScriptFault>
    ensures { result ≡ cancel_named (S.names scope.now) client.now form.now items.now }
{
    match form {
        "all" => cancel_all(client, items, scope),
        "before" => cancel_before(client, items, scope),
        "goal" => cancel_goal(client, items, scope),
        "goal-before" => cancel_goal_before(client, items, scope),
        _ => Err(ScriptFault::Operand),
    }
}

fn cancel_all<S: Scope>(client: &Word, items: &[Word], scope: &S) -> Result<Instr, ScriptFault>
    ensures { result ≡ cancel_all_of (S.names scope.now) client.now items.now }
{
    let [] = items else {
        return Err(ScriptFault::Count);
    };
    let name = text_in(client).ok_or(ScriptFault::Operand)?;
    let client = scope.action_client(name).ok_or(ScriptFault::UnknownName)?;
    Ok(Instr::cancel_all(client, Operand::Value(0)))
}

fn cancel_before<S: Scope>(client: &Word, items: &[Word], scope: &S) -> Result<Instr, ScriptFault>
    ensures { result ≡ cancel_before_of (S.names scope.now) client.now items.now }
{
    let [stamp] = items else {
        return Err(ScriptFault::Count);
    };
    let name = text_in(client).ok_or(ScriptFault::Operand)?;
    let stamp = operand_of(stamp).ok_or(ScriptFault::Operand)?;
    let client = scope.action_client(name).ok_or(ScriptFault::UnknownName)?;
    Ok(Instr::cancel_all(client, stamp))
}

fn cancel_goal<S: Scope>(client: &Word, items: &[Word], scope: &S) -> Result<Instr, ScriptFault>
    ensures { result ≡ cancel_goal_of (S.names scope.now) client.now items.now }
{
    let [goal] = items else {
        return Err(ScriptFault::Count);
    };
    let name = text_in(client).ok_or(ScriptFault::Operand)?;
    let goal = operand_of(goal).ok_or(ScriptFault::Operand)?;
    let client = scope.action_client(name).ok_or(ScriptFault::UnknownName)?;
    Ok(Instr::cancel_goal(client, goal, Operand::Value(0)))
}

fn cancel_goal_before<S: Scope>(
    client: &Word,
    items: &[Word],
    scope: &S,
) -> Result<Instr, ScriptFault>
    ensures { result ≡ cancel_goal_before_of (S.names scope.now) client.now items.now }
{
    let [goal, stamp] = items else {
        return Err(ScriptFault::Count);
    };
    let name = text_in(client).ok_or(ScriptFault::Operand)?;
    let goal = operand_of(goal).ok_or(ScriptFault::Operand)?;
    let stamp = operand_of(stamp).ok_or(ScriptFault::Operand)?;
    let client = scope.action_client(name).ok_or(ScriptFault::UnknownName)?;
    Ok(Instr::cancel_goal(client, goal, stamp))
}
