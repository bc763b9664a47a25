//! How a ready callback runs: one body, over the steps that depend on what is known of the callback.
ghost use Rattle.std.specs.Prelude.{◌≡◌, map, IfOk, OnOk};
ghost use Rattle.exec_rules.specs.Close.{close_callback};
ghost use Rattle.exec_rules.specs.Give.{give_all};
ghost use Rattle.exec_rules.specs.Ready.{run_line};
ghost use Rattle.exec_rules.specs.Run.{apart, brought_home};
ghost use Rattle.exec_rules.specs.declared.ready.Ready.{Ready};
ghost use Rattle.exec_rules.specs.inner.Listing.{with_script_of};

use super::WorldBody;
use super::plain::Plain;
use crate::scripts::script_of;
use exec_entity::GoalTurn;
use exec_msg::{Kind, Line, Lines, Memory};
use exec_plan::Graph;
use exec_rules::{Cause, Item, Listed, Ready, Runnable};
use exec_script::{Close, Effect, EffectList, Role};
use exec_task::Turn;
use futures::task::Context;

// A ready callback, with what is known of it when it runs.
pub(super) trait Callback<L: Lines> {
    // The callback.
    ghost ready: { Self → Ready };

    // Runs it apart from the world, with its group's variables and its goal's task, which are the world's own. Answers what
    // closes it. The list then has its effects alone.
    fn run_apart(
        &self,
        state: &mut WorldBody<L>,
        effects: &mut EffectList,
        cx: &mut Context<'_>,
    ) -> Result<Close, Memory>
        ensures effects { OnOk result (effects.new ≡ (apart (ready self.now) state.old).given) }
        ensures close { IfOk result (λ close. close ≡ (apart (ready self.now) state.old).close) }
        ensures home { OnOk result (state.new ≡ brought_home (ready self.now) (apart (ready self.now) state.old) state.old) };

    // The line with which it begins.
    fn line(&self) -> Line
        ensures { result ≡ run_line (ready self.now) };

    // Gives its effects to the world, and then closes it there.
    fn give_and_close(
        &self,
        state: &mut WorldBody<L>,
        effects: &[Effect],
        closing: &Close,
    ) -> Result<(), Memory>
        ensures { OnOk result (state.new ≡ close_callback (ready self.now) closing.now (give_all (ready self.now) effects.now state.old)) };
}

impl<L: Lines> WorldBody<L> {
    ghost use Rattle.std.specs.Prelude.{◌≡◌, map, OnOk};
    ghost use Rattle.exec_rules.specs.Run.{commit, run};
    ghost use Rattle.exec_rules.specs.Transcript.{run_all};
    ghost use Rattle.exec_rules.specs.inner.Listing.{with_script_of};

    // Runs callbacks one after another, each in the world that the one before it left. It isn't inlined, because few rounds run
    // their callbacks so.
    #[inline(never)]
    pub(crate) fn run_all(
        &mut self,
        list: &[Ready],
        effects: &mut EffectList,
        cx: &mut Context<'_>,
    ) -> Result<(), Memory>
        ensures { OnOk result (self.new ≡ run_all list.now self.old) }
    {
        for one in list {
            self.run_as(&Runnable::of(one), effects, cx)?;
        }
        Ok(())
    }

    // The same of callbacks that a snapshot listed. Their scripts are the graph's.
    pub(super) fn run_each(
        &mut self,
        graph: &Graph,
        list: &[Listed],
        effects: &mut EffectList,
        cx: &mut Context<'_>,
    ) -> Result<(), Memory>
        ensures { OnOk result (self.new ≡ run_all (map (with_script_of graph.now) list.now) self.old) }
    {
        for listed in list {
            self.run_listed_callback(graph, listed, effects, cx)?;
        }
        Ok(())
    }

    // Runs a listed callback. The causes that most callbacks have are distinguished here, once, so that their scripts are looked
    // up as those of a kind that is known.
    #[inline(always)]
    fn run_listed_callback(
        &mut self,
        graph: &Graph,
        listed: &Listed,
        effects: &mut EffectList,
        cx: &mut Context<'_>,
    ) -> Result<(), Memory>
        ensures { OnOk result (self.new ≡ run (with_script_of graph.now listed.now) self.old) }
    {
        let one = &listed.ready;
        match one.cause {
            Cause::Due => {
                let ticks = one.moment.ticks() as i64;
                let plain = Plain::of(graph, listed, Kind::Timer, ticks, 0);
                self.run_as(&plain, effects, cx)
            }
            Cause::Took(Item::Message { value }) => {
                let plain = Plain::of(graph, listed, Kind::Message, value, 0);
                self.run_as(&plain, effects, cx)
            }
            Cause::Took(Item::Reply { number, value }) => {
                let call = number.cast_signed();
                let plain = Plain::of(graph, listed, Kind::Reply, value, call);
                self.run_as(&plain, effects, cx)
            }
            _ => {
                let script = script_of(graph, listed, one.kind());
                self.run_as(&Runnable::handed(one, script, one.input()), effects, cx)
            }
        }
    }

    // Runs any form of a callback. A goal is polled in a context that the caller has made. The list has room for effects, and
    // each callback uses it again.
    #[inline(always)]
    pub(super) fn run_as<C: Callback<L>>(
        &mut self,
        callback: &C,
        effects: &mut EffectList,
        cx: &mut Context<'_>,
    ) -> Result<(), Memory>
        ensures { OnOk result (self.new ≡ run (C.ready callback.now) self.old) }
    {
        let close = callback.run_apart(self, effects, cx)?;
        self.commit_as(callback, effects.as_slice(), &close)
    }

    // Gives to the world what a ready callback did apart from it.
    pub(crate) fn commit(
        &mut self,
        one: &Ready,
        effects: &[Effect],
        close: &Close,
    ) -> Result<(), Memory>
        ensures { OnOk result (self.new ≡ commit one.now (record { list = effects.now; close = close.now }) self.old) }
    {
        self.commit_as(&Runnable::of(one), effects, close)
    }

    // The same of any form of it.
    #[inline(always)]
    fn commit_as<C: Callback<L>>(
        &mut self,
        callback: &C,
        effects: &[Effect],
        close: &Close,
    ) -> Result<(), Memory>
        ensures { OnOk result (self.new ≡ commit (C.ready callback.now) (record { list = effects.now; close = close.now }) self.old) }
    {
        self.add_line(callback.line())?;
        callback.give_and_close(self, effects, close)
    }
}

impl<'a, L: Lines> Callback<L> for Runnable<'a> {
    ghost ready = { λ one. one };

    #[inline(always)]
    fn run_apart(
        &self,
        state: &mut WorldBody<L>,
        effects: &mut EffectList,
        cx: &mut Context<'_>,
    ) -> Result<Close, Memory> {
        effects.clear();
        let one = self.one;
        let bank = state.banks.lend(one.exclusive, one.group);
        match &one.cause {
            Cause::Due => {
                let mut close = Close::Nothing;
                self.call_in(Role::Callback, bank, effects, &mut close)?;
                Ok(close)
            }
            Cause::Took(item) => {
                let mut close = Close::Nothing;
                self.take_item(state.alloc, item, bank, effects, &mut close)?;
                Ok(close)
            }
            Cause::Woke { id, canceling, .. } => {
                let turn = Turn {
                    moment: one.moment,
                    canceling: *canceling,
                };
                let polled = GoalTurn {
                    server: one.entity,
                    id: *id,
                    turn,
                };
                state.servers.poll(&polled, bank, cx, effects)
            }
        }
    }

    #[inline(always)]
    fn line(&self) -> Line {
        Runnable::line(self)
    }

    #[inline(always)]
    fn give_and_close(
        &self,
        state: &mut WorldBody<L>,
        effects: &[Effect],
        closing: &Close,
    ) -> Result<(), Memory> {
        state.give_all(self.one, effects)?;
        state.close(self.one, closing)
    }
}
