ghost use Rattle.std.specs.Bool.{then_some};
ghost use Rattle.std.specs.Prelude.{◌≡◌, nat_le, IfOk, OnErr};
ghost use Rattle.std.specs.List.{list_all};
ghost use Rattle.std.specs.Option.{option_map};
ghost use Rattle.exec_msg.specs.declared.limits.TheConstants.{TICKS};

use crate::refused::Refused;
use exec_msg::Moment;
use std::alloc::Global;

/// The moments of the rounds, or `None` if one is beyond its limit.
///
/// # Errors
/// Only [`Refused::Memory`], if a growth was refused.
pub fn moments_of(alloc: Global, ticks: &[u64]) -> Result<Option<Vec<Moment>>, Refused>
    ensures moments { IfOk result (λ found. option_map (λ moments. moments.items) found
        ≡ then_some (list_all (λ moment. nat_le moment TICKS) ticks.now) ticks.now) }
    ensures memory { OnErr result (result ≡ Err Refused.Memory) }
{
    let mut moments = Vec::with_capacity(alloc, ticks.len())?;
    for moment in ticks {
        let Some(moment) = Moment::new(*moment) else {
            return Ok(None);
        };
        moments.push(moment)?;
    }
    Ok(Some(moments))
}
