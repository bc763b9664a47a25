ghost use Rattle.std.specs.Prelude.{◌≡◌};
ghost use Rattle.std.specs.List.{list_all, list_any};
ghost use Rattle.exec_script.specs.Legality.{skips_end_within, names_variable, is_allowed, legality_of};

use crate::fault::ScriptFault;
use crate::instr::Instr;

/// What kind of callback a script is for.
#[derive(Clone, Copy, Debug, PartialEq, Eq)]
pub enum Role {
    /// A callback that answers nothing, such as a timer's.
    Callback,
    /// A service's callback, which replies.
    Service,
    /// A server's callback on a goal request, which decides about it.
    GoalHandler,
    /// A server's callback on a candidate of a cancel request, which decides about it.
    CancelHandler,
    /// A goal's own work.
    Goal,
}

/// What a script is for. It decides which instructions are allowed.
#[derive(Clone, Copy, Debug, PartialEq, Eq)]
pub struct Place {
    /// Whether its callback group is reentrant.
    pub reentrant: bool,
    /// What kind of callback it is for.
    pub role: Role,
}

/// Whether the script is allowed in its place.
///
/// # Errors
/// The least of its faults.
pub fn check(script: &[Instr], place: Place) -> Result<(), ScriptFault>
    ensures { result ≡ legality_of script.now place }
{
    if !skips_end_within(script) {
        return Err(ScriptFault::Skip);
    }
    if !is_all_allowed(script, place.role) {
        return Err(ScriptFault::Place);
    }
    if place.reentrant && names_any_variable(script) {
        return Err(ScriptFault::GroupVariable);
    }
    Ok(())
}

fn skips_end_within(script: &[Instr]) -> bool
    ensures { result ≡ skips_end_within script.now }
{
    for (i, instr) in script.iter().enumerate() {
        if instr.reach() > (script.len() - i - 1) as u64 {
            return false;
        }
    }
    true
}

fn is_all_allowed(script: &[Instr], role: Role) -> bool
    ensures { result ≡ list_all (is_allowed role) script.now }
{
    script.iter().all(|instr| instr.is_allowed(role))
}

fn names_any_variable(script: &[Instr]) -> bool
    ensures { result ≡ list_any names_variable script.now }
{
    script.iter().any(Instr::names_variable)
}
