//! Goals that a server forgets.
ghost use Rattle.std.specs.Prelude.{◌≡◌, ◌≤◌, Some, length, map, not};
ghost use Rattle.exec_goal.specs.Info.{info_of};
ghost use Rattle.exec_goal.specs.Table.{is_expired, unexpired};
ghost use Rattle.exec_goal.specs.inner.Held.{record_of, records_of};

use super::Goals;
use crate::held::GoalEntry;
use crate::info::GoalInfo;
use crate::tally::first_with;
use exec_msg::{GoalId, Moment};
use indexmap::IndexMap;

impl Goals {
    ghost use Rattle.std.specs.Prelude.{◌≡◌, ◌<◌, Some, [], length, drop, slice_get, slice_index_or, IfErr, IfNone, IfOk, IfSome, OnErr};
    ghost use Rattle.std.specs.List.{find, list_any, AllByRecursion};
    ghost use Rattle.std.specs.Option.{option_map};
    ghost use Rattle.exec_goal.specs.Calls.{after_expiry};
    ghost use Rattle.exec_goal.specs.State.{is_terminal};
    ghost use Rattle.exec_goal.specs.inner.Places.{IsFirst};
    ghost use Rattle.exec_goal.specs.Table.{GoalRecord, is_expired, expired, unexpired};
    ghost use Rattle.exec_goal.specs.inner.Tally.{EndsFrom, NoneBefore, first_with_goal};

    /// Forgets the first goal, in the order of acceptance, that ended `timeout` ticks before a moment or earlier. Answers its
    /// identifier, or `None` if there is none. The others keep their order.
    pub fn expire(&mut self, moment: Moment, timeout: u64) -> Option<GoalId>
        ensures first { result ≡ option_map (λ goal. goal.id) (slice_get (expired moment (Some timeout) self.old) 0) }
        ensures found { result ≡ option_map (λ goal. goal.id) (find (is_expired moment (Some timeout)) self.old) }
        ensures table { self.new ≡ after_expiry moment (Some timeout) self.old }
        ensures left { expired moment (Some timeout) self.new ≡ drop 1 (expired moment (Some timeout) self.old) }
        ensures kept { unexpired moment (Some timeout) self.new ≡ unexpired moment (Some timeout) self.old }
    {
        let index = self.next_expired(moment, timeout)?;
        self.tally.waiting_from = 0;
        let _told = self.tally.infos.remove(index);
        let (id, _forgotten) = self.held.shift_remove_index(index).unwrap();
        Some(id)
    }

    /// Whether a goal ended `timeout` ticks before a moment or earlier. No goal is looked at while none can have.
    pub fn has_expired(&mut self, moment: Moment, timeout: u64) -> bool
        ensures found { result ≡ list_any (is_expired moment (Some timeout)) self.old }
        ensures same { self.new ≡ self.old }
    {
        self.next_expired(moment, timeout).is_some()
    }

    /// Whether the goal at this place, from 0, in the order of acceptance, ended `timeout` ticks before a moment or earlier.
    pub fn is_expired_at(&self, index: usize, moment: Moment, timeout: u64) -> bool
        requires { index < length self.now }
        ensures { (d : GoalRecord) → result ≡ is_expired moment (Some timeout) (slice_index_or self.now index d) }
    {
        let (_id, goal) = self.held.get_index(index).unwrap();
        goal.is_expired(moment, timeout)
    }

    /// Forgets all goals that ended `timeout` ticks before a moment or earlier. The others keep their order. It looks at each
    /// goal a few times, however many it forgets.
    pub fn forget_expired(&mut self, moment: Moment, timeout: u64)
        ensures { self.new ≡ unexpired moment (Some timeout) self.old }
    {
        self.tally.waiting_from = 0;
        self.tally.ended_from = 0;
        keep_unexpired(&mut self.held, moment, timeout);
        note_infos(&self.held, &mut self.tally.infos);
    }

    // Whether the goal at a place has ended. It is known without a look at its entry.
    fn has_ended_at(&self, index: usize) -> bool
        requires { index < length self.now }
        ensures { (d : GoalRecord) → result ≡ is_terminal (slice_index_or self.now index d).state }
    {
        self.at(index).state.is_terminal()
    }

    // The place of the first goal that has expired. No goal is looked at while none can have expired. If all were looked at and
    // none had, the first end is known again.
    fn next_expired(&mut self, moment: Moment, timeout: u64) -> Option<usize>
        ensures found { IfSome result (λ index. IsFirst (is_expired moment (Some timeout)) self.old index) }
        ensures none { IfNone result (expired moment (Some timeout) self.old ≡ []) }
        ensures same { self.new ≡ self.old }
    {
        if !self.tally.may_expire(moment, timeout) {
            return None;
        }
        self.tally.ended_from = self.first_ended();
        match self.first_expired(moment, timeout) {
            Ok(place) => Some(place),
            Err(first_end) => {
                self.tally.first_end = first_end;
                None
            }
        }
    }

    // The place of the first goal that has ended, or how many goals there are if none has.
    fn first_ended(&self) -> usize
        ensures { NoneBefore is_terminal result self.now }
    {
        for place in self.ended_from()..self.len() {
            if self.has_ended_at(place) {
                return place;
            }
        }
        self.len()
    }

    fn ended_from(&self) -> usize
        ensures { NoneBefore is_terminal result self.now }
    {
        self.tally.ended_from
    }

    // The place of the first goal that has expired. If none has, a moment before which no goal has ended, or `None` if none has.
    fn first_expired(&self, moment: Moment, timeout: u64) -> Result<usize, Option<Moment>>
        ensures found { IfOk result (λ index. IsFirst (is_expired moment (Some timeout)) self.now index) }
        ensures none { OnErr result (expired moment (Some timeout) self.now ≡ []) }
        ensures first { IfErr result (λ first. AllByRecursion (EndsFrom first) self.now) }
    {
        let mut first = None;
        for index in self.ended_from()..self.len() {
            if self.has_ended_at(index) {
                if self.is_expired_at(index, moment, timeout) {
                    return Ok(index);
                }
                first = self.first_with_goal(index, first);
            }
        }
        Err(first)
    }

    // The earlier of the first end that is known and the end of the goal at a place, if that has ended.
    fn first_with_goal(&self, index: usize, first: Option<Moment>) -> Option<Moment>
        requires { index < length self.now }
        ensures { (d : GoalRecord) → result ≡ first_with_goal (slice_index_or self.now index d) first }
    {
        let (_id, goal) = self.held.get_index(index).unwrap();
        first_with(goal.state.is_terminal(), goal.ended, first)
    }
}

// Keeps the entries of goals that didn't end `timeout` ticks before a moment or earlier.
fn keep_unexpired(held: &mut IndexMap<GoalId, GoalEntry>, moment: Moment, timeout: u64)
    ensures { records_of held.new.entries ≡ unexpired moment (Some timeout) (records_of held.old.entries) }
{
    held.retain(
        |id: &GoalId, goal: &mut GoalEntry| -> bool
            ensures { (result ≡ not (is_expired moment (Some timeout) (record_of (id.now, goal.old)))) × (goal.new ≡ goal.old) }
        { !goal.is_expired(moment, timeout) },
    );
}

// Writes what is known of each goal that is held, over what was known of more of them.
fn note_infos(held: &IndexMap<GoalId, GoalEntry>, infos: &mut Vec<GoalInfo>)
    requires { length held.now.entries ≤ length infos.old.items }
    ensures { infos.new.items ≡ map info_of (records_of held.now.entries) }
{
    for place in 0..held.len() {
        let (id, goal) = held.get_index(place).unwrap();
        infos[place] = goal.info(*id);
    }
    infos.truncate(held.len());
}
