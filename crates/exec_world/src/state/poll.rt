//! Polls of goals that are awake.
use super::WorldBody;
use super::callback::Callback;
use exec_entity::GoalTurn;
use exec_msg::{Kind, Line, Lines, Memory, Moment};
use exec_rules::AwakeGoal;
use exec_script::{Close, Effect, EffectList};
use exec_task::Turn;
use futures::task::Context;

// A poll of a goal at a moment. Its ready callback is made only for its effects, and most polls have none.
#[derive(Drop)]
struct Poll<'a> {
    moment: Moment,
    goal: &'a AwakeGoal,
}

impl<'a, L: Lines> Callback<L> for Poll<'a> {
    ghost use Rattle.exec_rules.specs.inner.Awake.{poll_at};

    ghost ready = { λ poll. poll_at poll.moment poll.goal.now };

    #[inline(always)]
    fn run_apart(
        &self,
        state: &mut WorldBody<L>,
        effects: &mut EffectList,
        cx: &mut Context<'_>,
    ) -> Result<Close, Memory> {
        let goal = self.goal;
        let turn = Turn {
            moment: self.moment,
            canceling: goal.canceling,
        };
        let polled = GoalTurn {
            server: goal.server,
            id: goal.id,
            turn,
        };
        let bank = state.banks.lend(goal.exclusive, goal.group);
        state.servers.poll(&polled, bank, cx, effects)
    }

    #[inline(always)]
    fn line(&self) -> Line {
        Line::Run {
            entity: self.goal.server,
            kind: Kind::Poll,
            input: self.goal.value,
            aux: i64::from(self.goal.canceling),
            id: Some(self.goal.id),
        }
    }

    #[inline(always)]
    fn give_and_close(
        &self,
        state: &mut WorldBody<L>,
        effects: &[Effect],
        closing: &Close,
    ) -> Result<(), Memory> {
        let goal = self.goal;
        if !effects.is_empty() {
            let one = goal.poll_at(state.alloc, self.moment);
            state.give_all(&one, effects)?;
        }
        state.close_poll(goal.server, goal.id, self.moment, closing)
    }
}

impl<L: Lines> WorldBody<L> {
    ghost use Rattle.std.specs.Prelude.{◌≡◌, map, OnOk};
    ghost use Rattle.exec_rules.specs.Transcript.{run_all};
    ghost use Rattle.exec_rules.specs.inner.Awake.{poll_at};

    // Polls goals that are awake at a moment, one after another.
    pub(super) fn run_polls(
        &mut self,
        moment: Moment,
        goals: &[AwakeGoal],
        effects: &mut EffectList,
        cx: &mut Context<'_>,
    ) -> Result<(), Memory>
        ensures { OnOk result (self.new ≡ run_all (map (poll_at moment) goals.now) self.old) }
    {
        for goal in goals {
            self.run_as(&Poll { moment, goal }, effects, cx)?;
        }
        Ok(())
    }
}
