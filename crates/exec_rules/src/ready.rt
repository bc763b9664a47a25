ghost use Rattle.std.specs.Prelude.{◌≡◌};
ghost use Rattle.std.specs.Option.{option_copied};
ghost use Rattle.exec_rules.specs.Ready.{kind_of, id_of_cause, input_at, input_of, line_of};
ghost use Rattle.exec_rules.specs.inner.Awake.{poll_at};

use crate::item::Item;
use exec_goal::GoalInfo;
use exec_msg::{Elements, EntityNo, GoalId, Kind, Line, Moment};
use exec_plan::{GroupNo, Script};
use exec_script::{Input, Instr};
use std::alloc::Global;

/// Why a callback is ready.
#[derive(Clone, Copy, Debug, PartialEq, Eq)]
pub enum Cause {
    /// Its timer is due.
    Due,
    /// It took the oldest item of its queue.
    Took(Item),
    /// A goal is awake: its identifier, its value, and whether it is being canceled.
    Woke {
        id: GoalId,
        value: i64,
        canceling: bool,
    },
}

/// A goal that is awake at a snapshot. It has what its poll needs, if the poll runs straight from the list of such goals.
#[derive(Clone, Copy, Debug, PartialEq, Eq)]
pub struct AwakeGoal {
    /// Its identifier.
    pub id: GoalId,
    /// Its value.
    pub value: i64,
    /// Its server.
    pub server: EntityNo,
    /// The server's callback group.
    pub group: GroupNo,
    /// Whether that is mutually exclusive.
    pub exclusive: bool,
    /// Whether the goal is being canceled.
    pub canceling: bool,
}

/// A callback that is ready at a snapshot, with the input that the snapshot took for it.
#[derive(Drop)]
pub struct Ready {
    /// Its place in the ready list, from 1.
    pub position: usize,
    /// Its entity.
    pub entity: EntityNo,
    /// The entity's callback group.
    pub group: GroupNo,
    /// Whether that is mutually exclusive.
    pub exclusive: bool,
    /// The moment of its round.
    pub moment: Moment,
    /// Why it is ready.
    pub cause: Cause,
    /// The goals that a cancel request may cancel, as they were at the snapshot, in the order of acceptance.
    pub candidates: Elements<GoalInfo>,
    /// What runs. For a cancel request it runs once for each candidate. An ask has none. A goal request has none if its
    /// identifier is held at the snapshot, or if there is no room for one more goal.
    pub script: Option<Script>,
}

impl Cause {
    /// The kind of the callback.
    #[inline(always)]
    pub fn kind(&self) -> Kind
        ensures { result ≡ kind_of self.now }
    {
        match self {
            Cause::Due => Kind::Timer,
            Cause::Took(item) => item.kind(),
            Cause::Woke { .. } => Kind::Poll,
        }
    }

    /// The identifier on the callback's line.
    #[inline(always)]
    pub fn id(&self) -> Option<GoalId>
        ensures { result ≡ id_of_cause self.now }
    {
        match self {
            Cause::Due => None,
            Cause::Took(item) => item.id(),
            Cause::Woke { id, .. } => Some(*id),
        }
    }
}

impl AwakeGoal {
    /// The goal's poll at a moment. It has no place in a ready list and no share in a script, because no poll needs either. It
    /// takes no memory.
    #[inline(always)]
    pub fn poll_at(&self, alloc: Global, moment: Moment) -> Ready
        ensures { result ≡ poll_at moment self.now }
    {
        Ready {
            position: 0,
            entity: self.server,
            group: self.group,
            exclusive: self.exclusive,
            moment,
            cause: Cause::Woke {
                id: self.id,
                value: self.value,
                canceling: self.canceling,
            },
            candidates: Elements::new(alloc),
            script: None,
        }
    }
}

impl Ready {
    /// The kind of the callback.
    pub fn kind(&self) -> Kind
        ensures { result ≡ kind_of self.now.cause }
    {
        self.cause.kind()
    }

    /// The instructions of its script, if it runs one.
    #[inline(always)]
    pub fn instructions(&self) -> Option<&[Instr]>
        ensures { option_copied result ≡ self.now.script }
    {
        match &self.script {
            Some(script) => Some(script.as_slice()),
            None => None,
        }
    }

    /// What the callback is handed. A cancel handler is handed something else for each candidate.
    #[inline(always)]
    pub fn input(&self) -> Input
        ensures { result ≡ input_of self.now }
    {
        input_at(self.moment, &self.cause, self.candidates.len())
    }

    /// The identifier on the callback's line.
    pub fn id(&self) -> Option<GoalId>
        ensures { result ≡ id_of_cause self.now.cause }
    {
        self.cause.id()
    }

    /// The line with which the callback begins, if it is handed this.
    #[inline(always)]
    pub fn run_line(&self, input: &Input) -> Line
        ensures { result ≡ line_of self.now.entity self.now.cause input.now }
    {
        Line::Run {
            entity: self.entity,
            kind: self.kind(),
            input: input.first,
            aux: input.aux,
            id: self.id(),
        }
    }
}

#[inline(always)]
fn input_at(moment: Moment, cause: &Cause, candidates: usize) -> Input
    ensures { result ≡ input_at moment cause.now candidates }
{
    match cause {
        Cause::Due => Input {
            first: moment.ticks() as i64,
            aux: 0,
            moment,
        },
        Cause::Took(item) => Input {
            first: item.first(),
            aux: item.aux(candidates),
            moment,
        },
        Cause::Woke {
            value,
            canceling,
            ..
        } => Input {
            first: *value,
            aux: i64::from(*canceling),
            moment,
        },
    }
}
