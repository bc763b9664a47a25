ghost use Rattle.std.specs.Prelude.{◌≡◌, ◌≤◌, ◌<◌, ◌+◌, ◌^◌, [], false, length, nat_le, None};
ghost use Rattle.exec_goal.specs.State.{is_worked_on, is_terminal};
ghost use Rattle.exec_goal.specs.inner.Tally.{CountsMove, TellsState, one_where, earlier, ended_with, first_with, may_expire};

use crate::info::GoalInfo;
use crate::state::State;
use exec_msg::Moment;
use std::alloc::Global;

// What a table knows of its goals without looking at each.
#[derive(Debug, Drop)]
pub(crate) struct Tally {
    // How many goals are EXECUTING or CANCELING.
    pub(crate) working: usize,
    // A moment before which no goal has ended, or `None` if none has.
    pub(crate) first_end: Option<Moment>,
    // A place before which no goal is ACCEPTED.
    pub(crate) waiting_from: usize,
    // A place before which no goal has ended.
    pub(crate) ended_from: usize,
    // What is known of each goal, in the order of acceptance. If the server works on some goals, a round looks at all. An entry
    // is so large that each look would be a fetch from memory.
    pub(crate) infos: Vec<GoalInfo>,
}

impl Tally {
    // That of no goals.
    pub(crate) fn new(alloc: Global) -> Tally
        ensures working { result.working ≡ 0 }
        ensures first { result.first_end ≡ None }
        ensures waiting { result.waiting_from ≡ 0 }
        ensures ended { result.ended_from ≡ 0 }
        ensures infos { result.infos.items ≡ [] }
    {
        Tally {
            working: 0,
            first_end: None,
            waiting_from: 0,
            ended_from: 0,
            infos: Vec::new(alloc),
        }
    }

    // Whether a goal may have ended `timeout` ticks before a moment, or earlier.
    pub(crate) fn may_expire(&self, moment: Moment, timeout: u64) -> bool
        ensures { result ≡ may_expire moment timeout self.now.first_end }
    {
        match self.first_end {
            None => false,
            Some(first) => has_passed(first, timeout, moment),
        }
    }

    // Counts that the goal at a place has moved from one state to another. If the new state is terminal, the goal ended at a
    // moment. What is known of the goal then has the new state.
    pub(crate) fn count_move(&mut self, place: usize, before: State, after: State, ended: Moment)
        requires counted { one_where (is_worked_on before) ≤ self.old.working }
        requires fits { self.old.working < 2 ^ 63 }
        requires told { place < length self.old.infos.items }
        ensures counts { CountsMove before after ended self.old self.new }
        ensures ended { self.new.ended_from ≡ ended_with (is_terminal after) place self.old.ended_from }
        ensures tells { TellsState place after self.old.infos.items self.new.infos.items }
    {
        self.working = count_working(self.working, before, after);
        self.first_end = first_with(after.is_terminal(), ended, self.first_end);
        self.ended_from = ended_with(after.is_terminal(), place, self.ended_from);
        self.infos[place].state = after;
    }
}

// How many goals are EXECUTING or CANCELING after one has moved from one state to another.
fn count_working(working: usize, before: State, after: State) -> usize
    requires counted { one_where (is_worked_on before) ≤ working }
    requires fits { working < 2 ^ 63 }
    ensures { result + one_where (is_worked_on before) ≡ working + one_where (is_worked_on after) }
{
    let entering = usize::from(after.is_worked_on());
    let leaving = usize::from(before.is_worked_on());
    working + entering - leaving
}

// A place before which no goal has ended, after the goal at another place may have.
fn ended_with(has_ended: bool, place: usize, from: usize) -> usize
    ensures { result ≡ ended_with has_ended place from }
{
    if has_ended { from.min(place) } else { from }
}

// Whether a moment is at least `timeout` ticks after an end.
pub(crate) fn has_passed(ended: Moment, timeout: u64, moment: Moment) -> bool
    ensures { result ≡ nat_le (ended + timeout) moment }
{
    // A difference, because a sum might not fit.
    let age = moment.ticks().checked_sub(ended.ticks());
    age.is_some_and(|age| timeout <= age)
}

// The first end that is known, with that of a goal that may have ended at a moment.
pub(crate) fn first_with(has_ended: bool, ended: Moment, first: Option<Moment>) -> Option<Moment>
    ensures { result ≡ first_with has_ended ended first }
{
    if has_ended {
        Some(earlier(first, ended))
    } else {
        first
    }
}

// The earlier of two moments. There may be only the second.
fn earlier(first: Option<Moment>, ended: Moment) -> Moment
    ensures { result ≡ earlier first ended }
{
    match first {
        None => ended,
        Some(first) => {
            if first.ticks() <= ended.ticks() {
                first
            } else {
                ended
            }
        }
    }
}
