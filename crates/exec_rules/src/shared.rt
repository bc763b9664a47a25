ghost use Rattle.std.specs.Prelude.{◌≡◌, IfOk};

use exec_msg::Memory;
use exec_plan::Script;

/// One more share in the same script.
///
/// # Errors
/// [`Memory`] if one more share can't be counted.
#[inline(always)]
pub fn share(script: &Script) -> Result<Script, Memory>
    ensures { IfOk result (λ shared. shared ≡ script.now) }
{
    let instructions = script.shared().clone()?;
    Ok(Script::of(instructions))
}
