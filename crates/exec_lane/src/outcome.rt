ghost use Rattle.std.specs.Prelude.{◌≡◌, IfOk};
ghost use Rattle.exec_lane.specs.inner.Copies.{effects_in};

use exec_msg::Memory;
use exec_script::{Close, Effect, Effects};
use std::alloc::Global;
use std::marker::Model;

/// What a ready callback did.
#[derive(Debug, Drop)]
pub struct Outcome {
    /// Its position in the ready list, from 1.
    pub position: usize,
    /// Its effects, and what closes it.
    pub effects: CopiedEffects,
}

/// A copy of what a callback did. Up to two effects take no memory of their own.
#[derive(Debug, Drop)]
pub struct CopiedEffects {
    list: Few,
    close: Close,
}

impl Model for CopiedEffects {
    ghost use Rattle.exec_script.specs.declared.effects.Effects.{Effects};
    ghost use Rattle.exec_lane.specs.inner.Copies.{effects_in};

    ghost Value = { Effects };

    ghost view = { λ copy. record { list = effects_in copy.list; close = copy.close } };
}

// Effects in their order.
#[derive(Debug, Drop)]
enum Few {
    None,
    One([Effect; 1]),
    Two([Effect; 2]),
    Many(Vec<Effect>),
}

impl CopiedEffects {
    /// A copy.
    ///
    /// # Errors
    /// [`Memory`] if a growth was refused.
    pub fn of(alloc: Global, effects: &Effects) -> Result<CopiedEffects, Memory>
        ensures { IfOk result (λ copy. copy ≡ effects.now) }
    {
        Ok(CopiedEffects {
            list: Few::of(alloc, effects.list.as_slice())?,
            close: Close::copy_of(alloc, &effects.close)?,
        })
    }

    /// The effects in their order.
    pub fn list(&self) -> &[Effect]
        ensures { result.now ≡ self.now.list }
    {
        self.list.as_slice()
    }

    /// What closes the callback.
    pub fn close(&self) -> &Close
        ensures { result.now ≡ self.now.close }
    {
        &self.close
    }
}

impl Few {
    fn of(alloc: Global, effects: &[Effect]) -> Result<Few, Memory>
        ensures { IfOk result (λ few. effects_in few ≡ effects.now) }
    {
        match effects {
            [] => Ok(Few::None),
            [one] => Ok(Few::One([*one])),
            [one, other] => Ok(Few::Two([*one, *other])),
            _ => Ok(Few::Many(Vec::from_slice(alloc, effects)?)),
        }
    }

    fn as_slice(&self) -> &[Effect]
        ensures { result.now ≡ effects_in self.now }
    {
        match self {
            Few::None => &[],
            Few::One(effects) => effects.as_slice(),
            Few::Two(effects) => effects.as_slice(),
            Few::Many(effects) => effects.as_slice(),
        }
    }
}
