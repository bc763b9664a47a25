//! Callbacks that run their script once, that nothing closes, and whose line has no identifier. Most callbacks are such.
use super::WorldBody;
use super::callback::Callback;
use crate::scripts::script_of;
use exec_msg::{Kind, Line, Lines, Memory};
use exec_plan::Graph;
use exec_rules::{Listed, Runnable};
use exec_script::{Close, Effect, EffectList, Input, Role};
use futures::task::Context;
use std::marker::Model;

// A callback of a timer, a subscription or a service client, with its kind. Its cause isn't looked at again.
#[derive(Drop)]
pub(super) struct Plain<'a> {
    run: Runnable<'a>,
    kind: Kind,
}

impl<'a> Model for Plain<'a> {
    ghost use Rattle.std.specs.Prelude.{◌≡◌, true};
    ghost use Rattle.exec_rules.specs.Ready.{kind_of};
    ghost use Rattle.exec_rules.specs.declared.ready.Ready.{Ready};
    ghost use Rattle.exec_world.specs.inner.Plain.{is_plain};

    ghost Value = { Ready };

    ghost view = { λ plain. plain.run };

    ghost invariant = { λ plain. (is_plain plain.run.cause ≡ true) × (kind_of plain.run.cause ≡ plain.kind) };
}

impl<'a> Plain<'a> {
    ghost use Rattle.std.specs.Prelude.{◌≡◌, true};
    ghost use Rattle.exec_rules.specs.Ready.{input_of, kind_of};
    ghost use Rattle.exec_rules.specs.inner.Listing.{with_script_of};
    ghost use Rattle.exec_world.specs.inner.Plain.{is_plain};

    // A listed callback of this kind with its script, which is the graph's. It is handed these numbers.
    #[inline(always)]
    pub(super) fn of(
        graph: &'a Graph,
        listed: &'a Listed,
        kind: Kind,
        first: i64,
        aux: i64,
    ) -> Plain<'a>
        requires plain { is_plain listed.now.ready.cause ≡ true }
        requires kind { kind_of listed.now.ready.cause ≡ kind }
        requires handed { input_of listed.now.ready ≡ record { first = first; aux = aux; moment = listed.now.ready.moment } }
        ensures { result ≡ with_script_of graph.now listed.now }
    {
        let one = &listed.ready;
        let script = script_of(graph, listed, kind);
        let input = Input {
            first,
            aux,
            moment: one.moment,
        };
        Plain {
            run: Runnable::handed(one, script, input),
            kind,
        }
    }
}

impl<'a, L: Lines> Callback<L> for Plain<'a> {
    ghost ready = { λ one. one };

    #[inline(always)]
    fn run_apart(
        &self,
        state: &mut WorldBody<L>,
        effects: &mut EffectList,
        _cx: &mut Context<'_>,
    ) -> Result<Close, Memory> {
        effects.clear();
        let mut close = Close::Nothing;
        let one = self.run.one;
        let bank = state.banks.lend(one.exclusive, one.group);
        self.run.call_in(Role::Callback, bank, effects, &mut close)?;
        Ok(close)
    }

    #[inline(always)]
    fn line(&self) -> Line {
        Line::Run {
            entity: self.run.one.entity,
            kind: self.kind,
            input: self.run.input.first,
            aux: self.run.input.aux,
            id: None,
        }
    }

    #[inline(always)]
    fn give_and_close(
        &self,
        state: &mut WorldBody<L>,
        effects: &[Effect],
        _closing: &Close,
    ) -> Result<(), Memory> {
        state.give_all(self.run.one, effects)
    }
}
