//! The variables of callback groups.
ghost use Rattle.std.specs.Borrow.{sem};
ghost use Rattle.exec_world.specs.inner.Lending.{LendsBank};

use exec_msg::Memory;
use exec_plan::GroupNo;
use exec_script::Bank;
use std::alloc::Global;
use std::marker::Model;

// The variables of each callback group.
#[derive(Drop)]
pub(crate) struct Banks {
    // Those of each group, and after them spare ones, for callbacks whose group keeps none.
    banks: Vec<Bank>,
}

impl Model for Banks {
    ghost use Rattle.std.specs.Prelude.{◌<◌, List, length};
    ghost use Rattle.exec_script.specs.Script.{Variables};
    ghost use Rattle.exec_world.specs.inner.Banks.{kept_of};

    ghost Value = { List Variables };

    ghost view = { λ banks. kept_of banks.banks.items };

    ghost invariant = { λ banks. 0 < length banks.banks.items };
}

impl Banks {
    ghost use Rattle.std.specs.Prelude.{◌≡◌, ◌<◌, replicate, slice_index_or, slice_set, if◌then◌else◌, IfOk};
    ghost use Rattle.exec_script.specs.Zeros.{zeros};

    // The variables of this many groups, all 0.
    pub(crate) fn new(alloc: Global, count: usize) -> Result<Banks, Memory>
        ensures { IfOk result (λ banks. banks ≡ replicate count zeros) }
    {
        let mut banks = Vec::new(alloc);
        for _ in 0..count {
            banks.push(Bank::new())?;
        }
        banks.push(Bank::new())?;
        Ok(Banks { banks })
    }

    // Those of a group. Only groups of the graph have any.
    pub(crate) fn get(&self, group: GroupNo) -> Bank
        ensures { result ≡ slice_index_or self.now group zeros }
    {
        let place = group.0 as usize;
        if place + 1 < self.banks.len() {
            self.banks[place]
        } else {
            Bank::new()
        }
    }

    pub(crate) fn set(&mut self, group: GroupNo, bank: &Bank)
        ensures { self.new ≡ slice_set self.old group bank.now }
    {
        let place = group.0 as usize;
        if place + 1 < self.banks.len() {
            self.banks[place] = *bank;
        }
    }

    // Those that a callback runs with, without a copy. They are its group's. If the group keeps none, because it is reentrant,
    // they are spare ones of 0. Nobody uses what is left in the spare ones.
    #[inline(always)]
    pub(crate) fn lend(&mut self, exclusive: bool, group: GroupNo) -> &mut Bank
        ensures* lends { sem 𝓛 (LendsBank self.entry exclusive group result) }
        ensures value { result.now ≡ (if exclusive then slice_index_or self.old group zeros else zeros) }
    {
        let spare = self.banks.len() - 1;
        let place = group.0 as usize;
        if exclusive && place < spare {
            return &mut self.banks[place];
        }
        self.banks[spare] = Bank::new();
        &mut self.banks[spare]
    }
}
