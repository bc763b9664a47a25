use crate::callback::handle_all;
use crate::item::Item;
use crate::ready::Ready;
use exec_msg::{Line, Memory};
use exec_script::{Bank, Close, EffectList, Input, Instr, Role, run_call_closing};
use std::alloc::Global;
use std::marker::Model;

/// A ready callback that runs, with its script where that is kept, and with what it is handed. Contracts see it as the ready
/// callback with that script.
#[derive(Drop)]
pub struct Runnable<'a> {
    /// The callback. Its own script isn't read.
    pub one: &'a Ready,
    script: Option<&'a [Instr]>,
    /// What it is handed.
    pub input: Input,
}

impl<'a> Model for Runnable<'a> {
    ghost use Rattle.std.specs.Prelude.{◌≡◌};
    ghost use Rattle.std.specs.Option.{option_copied};
    ghost use Rattle.exec_rules.specs.Ready.{input_of};
    ghost use Rattle.exec_rules.specs.declared.ready.Ready.{Ready};

    ghost Value = { Ready };

    ghost view = { λ runnable. record runnable.one.now { script = option_copied runnable.script } };

    ghost invariant = { λ runnable. runnable.input ≡ input_of runnable.one.now };
}

impl<'a> Runnable<'a> {
    ghost use Rattle.std.specs.Prelude.{◌≡◌, OnOk};
    ghost use Rattle.std.specs.Option.{option_copied};
    ghost use Rattle.exec_script.specs.Script.{listed};
    ghost use Rattle.exec_rules.specs.Callback.{call_in, instructions_of, take_item};
    ghost use Rattle.exec_rules.specs.Ready.{input_of, run_line};

    /// A ready callback with the script that it has.
    #[inline(always)]
    pub fn of(one: &'a Ready) -> Runnable<'a>
        ensures { result ≡ one.now }
    {
        Runnable::handed(one, one.instructions(), one.input())
    }

    /// A ready callback with this script, if it runs one. This is what it is handed.
    #[inline(always)]
    pub fn handed(one: &'a Ready, script: Option<&'a [Instr]>, input: Input) -> Runnable<'a>
        requires { input ≡ input_of one.now }
        ensures { result ≡ record one.now { script = option_copied script.entry } }
    {
        Runnable { one, script, input }
    }

    /// The line with which it begins.
    #[inline(always)]
    pub fn line(&self) -> Line
        ensures { result ≡ run_line self.now }
    {
        self.one.run_line(&self.input)
    }

    // The instructions of its script. There are none if there is no script.
    #[inline(always)]
    pub(crate) fn instructions(&self) -> &[Instr]
        ensures { result.now ≡ instructions_of self.now.script }
    {
        match self.script {
            Some(script) => script,
            None => &[],
        }
    }

    /// Runs its script once in a role. The effects are added after those that the list has. What closes the callback is left in
    /// `close`.
    ///
    /// # Errors
    /// [`Memory`] if a growth was refused. The variables and the effects don't change.
    #[inline(always)]
    pub fn call_in(
        &self,
        role: Role,
        bank: &mut Bank,
        effects: &mut EffectList,
        close: &mut Close,
    ) -> Result<(), Memory>
        ensures variables { OnOk result (bank.new ≡ (call_in role listed self.now bank.old effects.old).variables) }
        ensures effects { OnOk result (effects.new ≡ (call_in role listed self.now bank.old effects.old).given) }
        ensures close { OnOk result (close.new ≡ (call_in role listed self.now bank.old effects.old).close) }
    {
        run_call_closing(self.instructions(), role, bank, &self.input, effects, close)
    }

    /// Runs it if it took this item. The effects are added after those that the list has. What closes the callback is left in
    /// `close`.
    ///
    /// # Errors
    /// [`Memory`] if a growth was refused. The variables and the effects may have changed.
    #[inline(always)]
    pub fn take_item(
        &self,
        alloc: Global,
        item: &Item,
        bank: &mut Bank,
        effects: &mut EffectList,
        close: &mut Close,
    ) -> Result<(), Memory>
        ensures variables { OnOk result (bank.new ≡ (take_item item.now listed self.now bank.old effects.old).variables) }
        ensures effects { OnOk result (effects.new ≡ (take_item item.now listed self.now bank.old effects.old).given) }
        ensures close { OnOk result (close.new ≡ (take_item item.now listed self.now bank.old effects.old).close) }
    {
        match item {
            Item::Cancel { .. } => {
                *close = handle_all(alloc, self, bank, effects)?;
                Ok(())
            }
            Item::Request { .. } => self.call_in(Role::Service, bank, effects, close),
            Item::Goal { .. } => self.call_in(Role::GoalHandler, bank, effects, close),
            Item::Message { .. }
            | Item::Reply { .. }
            | Item::Ask { .. }
            | Item::Response { .. }
            | Item::Code { .. }
            | Item::Feedback { .. }
            | Item::Result { .. } => self.call_in(Role::Callback, bank, effects, close),
        }
    }
}
