use exec_msg::{CancelDecision, Decision, Elements, EntityNo, Event, GoalId, Memory};
use std::alloc::Global;
use std::marker::Model;

/// What a callback does outside itself.
#[derive(Clone, Copy, Debug, PartialEq, Eq)]
pub enum Effect {
    /// A value is published to a topic.
    Publish {
        topic: EntityNo,
        value: i64,
    },
    /// A service client calls.
    Call {
        client: EntityNo,
        value: i64,
    },
    /// An action client sends a goal request.
    SendGoal {
        client: EntityNo,
        value: i64,
    },
    /// An action client sends a cancel request with no identifier. Its stamp is in ticks, and 0 is none.
    CancelAll {
        client: EntityNo,
        stamp: u64,
    },
    /// An action client sends a cancel request for its goal of this number. 0 is no goal of it. The stamp is in ticks, and 0
    /// is none.
    CancelGoal {
        client: EntityNo,
        goal: u64,
        stamp: u64,
    },
    /// A server begins to work on the oldest goal that it accepted and deferred.
    Execute {
        server: EntityNo,
    },
    /// A line with a value.
    Log(i64),
    /// The goal gives feedback.
    Feedback(i64),
}

/// What closes a callback after its effects.
#[derive(Debug, Drop)]
pub enum Close {
    /// Nothing.
    Nothing,
    /// A service's reply.
    Reply(i64),
    /// A goal handler's decision.
    Decide(Decision),
    /// A cancel handler's decision of one candidate.
    DecideCancel(CancelDecision),
    /// A cancel handler's decisions, in the order of its candidates, each with the candidate's identifier.
    Decisions(Elements<(GoalId, CancelDecision)>),
    /// The goal pends.
    Pending,
    /// The goal ended by this event with a value.
    Ended(Event, i64),
}

impl Close {
    ghost use Rattle.std.specs.Prelude.{◌≡◌, IfOk};

    /// A copy. The decisions in it have room of their own.
    ///
    /// # Errors
    /// [`Memory`] if a growth was refused.
    pub fn copy_of(alloc: Global, close: &Close) -> Result<Close, Memory>
        ensures { IfOk result (λ copy. copy ≡ close.now) }
    {
        let copy = match close {
            Close::Nothing => Close::Nothing,
            Close::Reply(value) => Close::Reply(*value),
            Close::Decide(decision) => Close::Decide(*decision),
            Close::DecideCancel(decision) => Close::DecideCancel(*decision),
            Close::Decisions(decisions) => {
                Close::Decisions(Elements::of(Vec::from_slice(alloc, decisions.as_slice())?))
            }
            Close::Pending => Close::Pending,
            Close::Ended(event, value) => Close::Ended(*event, *value),
        };
        Ok(copy)
    }
}

/// Effects in the order in which they were given.
#[derive(Debug, Drop)]
pub struct EffectList {
    pub(crate) items: Vec<Effect>,
}

impl Model for EffectList {
    ghost use Rattle.std.specs.Prelude.{List};
    ghost use Rattle.exec_script.specs.declared.effects.Effect.{Effect};

    ghost Value = { List Effect };

    ghost view = { λ effects. effects.items.items };
}

impl EffectList {
    ghost use Rattle.std.specs.Prelude.{◌≡◌, [], ◌∷◌, ◌++◌, length, IfOk, OnOk, OnErr};

    /// No effects. It takes no memory.
    pub fn new(alloc: Global) -> EffectList
        ensures { result ≡ [] }
    {
        EffectList {
            items: Vec::new(alloc),
        }
    }

    /// A copy, in room of its own.
    ///
    /// # Errors
    /// [`Memory`] if a growth was refused.
    pub fn copy_of(alloc: Global, effects: &EffectList) -> Result<EffectList, Memory>
        ensures { IfOk result (λ copy. copy ≡ effects.now) }
    {
        Ok(EffectList {
            items: Vec::from_slice(alloc, effects.as_slice())?,
        })
    }

    /// Adds an effect at the end.
    ///
    /// # Errors
    /// [`Memory`] if a growth was refused. The list doesn't change.
    pub fn push(&mut self, effect: Effect) -> Result<(), Memory>
        ensures ok { OnOk result (self.new ≡ self.old ++ effect ∷ []) }
        ensures unchanged { OnErr result (self.new ≡ self.old) }
    {
        self.items.push(effect)?;
        Ok(())
    }

    /// How many effects there are.
    pub fn len(&self) -> usize
        ensures { result ≡ length self.now }
    {
        self.items.len()
    }

    /// Drops all effects, and keeps their room.
    pub fn clear(&mut self)
        ensures { self.new ≡ [] }
    {
        self.items.clear();
    }

    /// The effects in their order.
    pub fn as_slice(&self) -> &[Effect]
        ensures { result.now ≡ self.now }
    {
        self.items.as_slice()
    }
}

/// All that a callback does outside itself.
#[derive(Debug, Drop)]
pub struct Effects {
    /// The effects of its script.
    pub list: EffectList,
    /// What closes it.
    pub close: Close,
}

impl Effects {
    ghost use Rattle.std.specs.Prelude.{◌≡◌, IfOk};

    /// A copy, in room of its own.
    ///
    /// # Errors
    /// [`Memory`] if a growth was refused.
    pub fn copy_of(alloc: Global, effects: &Effects) -> Result<Effects, Memory>
        ensures { IfOk result (λ copy. copy ≡ effects.now) }
    {
        let list = EffectList::copy_of(alloc, &effects.list)?;
        let close = Close::copy_of(alloc, &effects.close)?;
        Ok(Effects { list, close })
    }
}
