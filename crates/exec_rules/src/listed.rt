ghost use Rattle.std.specs.Prelude.{◌≡◌};

use crate::ready::Ready;
use exec_msg::Memory;
use std::alloc::Global;
use std::marker::Model;

/// A callback as a snapshot lists it. It has no script, and whoever runs it looks the script up.
#[derive(Drop)]
pub struct Listed {
    /// The callback, without its script.
    pub ready: Ready,
    /// Whether a script runs.
    pub runs: bool,
}

/// Callbacks in the order in which a snapshot lists them.
#[derive(Drop)]
pub struct ReadyList {
    items: Vec<Listed>,
}

impl Model for ReadyList {
    ghost use Rattle.std.specs.Prelude.{List};
    ghost use Rattle.exec_rules.specs.declared.listed.Listed.{Listed};

    ghost Value = { List Listed };

    ghost view = { λ list. list.items.items };
}

impl ReadyList {
    ghost use Rattle.std.specs.Prelude.{◌≡◌, [], ◌∷◌, OnOk, OnErr};
    ghost use Rattle.exec_rules.specs.declared.ready.Ready.{Ready as Callback};
    ghost use Rattle.exec_rules.specs.inner.Listing.{as_listed, listed_behind};

    /// No callbacks. It takes no memory.
    pub fn new(alloc: Global) -> ReadyList
        ensures { result ≡ [] }
    {
        ReadyList {
            items: Vec::new(alloc),
        }
    }

    /// Adds a callback at the end, and sets its place, from 1.
    ///
    /// # Errors
    /// [`Memory`] if a growth was refused. The list doesn't change.
    #[inline(always)]
    pub fn push(&mut self, listed: Listed) -> Result<(), Memory>
        ensures listed { OnOk result ((one : Callback) → as_listed one ≡ listed → self.new ≡ listed_behind self.old (one ∷ [])) }
        ensures unchanged { OnErr result (self.new ≡ self.old) }
    {
        let position = self.items.len() + 1;
        self.items.push(Listed {
            ready: Ready {
                position,
                ..listed.ready
            },
            runs: listed.runs,
        })?;
        Ok(())
    }

    /// Drops all callbacks. The room for them is kept.
    pub fn clear(&mut self)
        ensures { self.new ≡ [] }
    {
        self.items.clear();
    }

    /// The callbacks in their order.
    pub fn as_slice(&self) -> &[Listed]
        ensures { result.now ≡ self.now }
    {
        self.items.as_slice()
    }
}
