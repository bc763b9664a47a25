//! A server with its goals and their work.
ghost use Rattle.std.specs.Prelude.{◌≡◌, ◌<◌, ◌++◌, ◌∷◌, [], false};
ghost use Rattle.std.specs.List.{list_any};
ghost use Rattle.indexmap.specs.IndexMap.{spare};
ghost use Rattle.exec_msg.specs.Lists.{drop_first};
ghost use Rattle.exec_entity.specs.inner.Server.{all_kept, is_kept_for, kept_of};
ghost use Rattle.exec_entity.specs.inner.Waking.{wakes_of};

mod expiring;
mod found;
mod polling;

use exec_goal::{Asked, CancelAnswer, CancelRequest, GoalInfo, Goals, State};
use exec_msg::{Acceptance, CancelDecision, Elements, EntityNo, Event, GoalId, Memory, Moment};
use exec_rules::Handler;
use exec_task::{GoalTask, Turn};
pub use found::Servers;
use indexmap::IndexMap;
use std::alloc::Global;
use std::marker::Model;

/// A request for a goal: its identifier, the action client that sent it, and its value.
#[derive(Clone, Copy, Debug, PartialEq, Eq)]
pub struct GoalRequest {
    /// The goal's identifier.
    pub id: GoalId,
    /// The action client that sent it, if one did.
    pub client: Option<EntityNo>,
    /// Its value.
    pub value: i64,
}

impl Model for GoalRequest {
    ghost use Rattle.exec_rules.specs.Close.{GoalRequest as Data};

    ghost Value = { Data };

    ghost view = { λ request. record { id = request.id; client = request.client; value = request.value } };

    ghost inverse = { λ request. record { id = request.id; client = request.client; value = request.value } };
}

/// A goal's turn: the goal that is polled, its server, and the round in which it is polled.
#[derive(Clone, Copy, Debug, PartialEq, Eq)]
pub struct GoalTurn {
    /// The goal's server.
    pub server: EntityNo,
    /// The goal's identifier.
    pub id: GoalId,
    /// The round.
    pub turn: Turn,
}

// What a server keeps with a goal's record: its task, the action client that sent the goal, if one did, and the number of the
// goal's last arrival. The task is `None` while it is out.
#[derive(Drop)]
pub(crate) struct KeptWithGoal {
    pub(crate) task: Option<GoalTask>,
    pub(crate) client: Option<EntityNo>,
    pub(crate) arrival: u64,
}

/// A server: the callback that polls its goals, how long it keeps a result, its goals, and what it keeps with each. The time is
/// in ticks. A server without one keeps results for ever.
#[derive(Drop)]
pub struct Server {
    handler: Handler,
    timeout: Option<u64>,
    goals: Goals,
    held: IndexMap<GoalId, KeptWithGoal>,
    // For each entry of `held`, at its place, the moment from which on its task is awake if its goal isn't being canceled, in
    // ticks. Each round reads it for every goal. An entry is so large that each would cost a fetch from memory.
    wakes: Vec<u64>,
    // The place after the goal that was polled last, or 0 if that was the last place. Goals are polled in their order, so the
    // next one is mostly at this place.
    next: usize,
}

impl Model for Server {
    ghost use Rattle.std.specs.Prelude.{◌≡◌};
    ghost use Rattle.exec_rules.specs.World.{ServerEntry};
    ghost use Rattle.exec_entity.specs.inner.Keeping.{AreKept};
    ghost use Rattle.exec_entity.specs.inner.Server.{all_joined, all_kept};
    ghost use Rattle.exec_entity.specs.inner.Waking.{wakes_of};

    ghost Value = { ServerEntry };

    ghost view = { λ server. record { handler = server.handler; timeout = server.timeout; held = all_joined server.goals (all_kept server.held.entries) } };

    ghost invariant = { λ server. AreKept server.goals (all_kept server.held.entries) × (server.wakes.items ≡ wakes_of (all_kept server.held.entries)) };
}

impl Server {
    ghost use Rattle.std.specs.Prelude.{true, length, map, None, Some, slice_get, find, IfNone, IfOk, IfSome, OnErr, OnOk};
    ghost use Rattle.std.specs.Option.{option_map, option_map_or};
    ghost use Rattle.exec_goal.specs.Calls.{after_asking, askers_in, end_state};
    ghost use Rattle.exec_goal.specs.Cancel.{candidates, code_of, moved, table_after};
    ghost use Rattle.exec_goal.specs.Info.{answer_of, info_of};
    ghost use Rattle.exec_goal.specs.State.{is_accepted};
    ghost use Rattle.exec_goal.specs.Table.{after_end, asked_for, has_id, later};
    ghost use Rattle.exec_msg.specs.Lists.{change_first};
    ghost use Rattle.exec_task.specs.Task.{new_task};
    ghost use Rattle.exec_rules.specs.Close.{server_accepting};
    ghost use Rattle.exec_rules.specs.World.{has_room_for, is_for, records_of, with_goals};
    ghost use Rattle.exec_entity.specs.inner.Keeping.{executed};

    /// A server without goals. It takes no memory.
    pub fn new(alloc: Global, handler: Handler, timeout: Option<u64>) -> Server
        ensures { result ≡ record { handler = handler; timeout = timeout; held = [] } }
    {
        Server {
            handler,
            timeout,
            goals: Goals::new(alloc),
            held: IndexMap::new(alloc),
            wakes: Vec::new(alloc),
            next: 0,
        }
    }

    // The server's entity.
    pub(crate) fn number(&self) -> EntityNo
        ensures { result ≡ self.now.handler.entity }
    {
        self.handler.entity
    }

    // How many goals are held, in any state.
    fn len(&self) -> usize
        ensures { result ≡ length self.now.held }
    {
        self.goals.len()
    }

    // The goal at this place, from 0, in the order of acceptance.
    fn goal_at(&self, index: usize) -> GoalInfo
        requires { index < length self.now.held }
        ensures { slice_get (map info_of (records_of self.now.held)) index ≡ Some result }
    {
        self.goals.at(index)
    }

    /// Whether one more goal of this identifier can be held: it isn't held yet, and there is room.
    pub fn has_room_for(&self, id: GoalId) -> bool
        ensures { result ≡ has_room_for id (records_of self.now.held) }
    {
        !(self.goals.holds(id) || self.goals.is_full())
    }

    // The action client that sent a goal, if one did.
    pub(crate) fn sender_at(&self, id: GoalId) -> Option<EntityNo>
        ensures { result ≡ option_map_or (λ held. held.client) (find (is_for id) self.now.held) None }
    {
        self.held.get(&id)?.client
    }

    // The number of a goal's last arrival, and 0 if no such goal is held.
    pub(crate) fn arrival(&self, id: GoalId) -> u64
        ensures { result ≡ option_map_or (λ held. held.arrival) (find (is_for id) self.now.held) 0 }
    {
        match self.held.get(&id) {
            None => 0,
            Some(held) => held.arrival,
        }
    }

    // The action client that asked for a goal's result at this place, from 0, in the order of asking. It is `None` at a place
    // after the last one, and if no such goal is held.
    pub(crate) fn asker(&self, id: GoalId, index: usize) -> Option<EntityNo>
        ensures { result ≡ slice_get (askers_in id (records_of self.now.held)) index }
    {
        self.goals.asker(id, index)
    }

    // Accepts a goal at a moment, with the number of its arrival. If memory is refused, the server doesn't change.
    pub(crate) fn accept(
        &mut self,
        number: u64,
        moment: Moment,
        how: Acceptance,
        request: &GoalRequest,
    ) -> Result<(), Memory>
        requires room { has_room_for request.now.id (records_of self.old.held) ≡ true }
        ensures accepted { OnOk result (self.new ≡ server_accepting number moment how request.now self.old) }
        ensures unchanged { OnErr result (self.new ≡ self.old) }
    {
        let task = self.new_task(request.value)?;
        let held = KeptWithGoal {
            client: request.client,
            task: Some(task),
            arrival: number,
        };
        self.held.reserve(1)?;
        self.wakes.reserve(1)?;
        // There is room and the identifier isn't held, so only memory may be refused.
        let Ok(_accepted) = self.goals.accept(request.id, request.value, moment, how) else {
            return Err(Memory);
        };
        insert_new(&mut self.held, request.id, held);
        self.wakes.push_reserved(0);
        Ok(())
    }

    // The task of a goal of this value, before its first poll.
    fn new_task(&self, value: i64) -> Result<GoalTask, Memory>
        ensures script { IfOk result (λ task. task.script ≡ self.now.handler.script) }
        ensures value { IfOk result (λ task. task.value ≡ value) }
        ensures task { IfOk result (λ task. task.task ≡ new_task) }
    {
        let script = self.handler.script.shared().clone()?;
        Ok(GoalTask::new(script, value))
    }

    /// The goals that a cancel request selects and that may be moved, in the order of acceptance.
    ///
    /// # Errors
    /// [`Memory`] if a growth was refused.
    pub fn candidates(&self, request: &CancelRequest) -> Result<Elements<GoalInfo>, Memory>
        ensures { IfOk result (λ infos. infos ≡ map info_of (candidates request.now (records_of self.now.held))) }
    {
        self.goals.candidates(request)
    }

    // Cancels by what was decided of a request's candidates, each by its identifier. If memory is refused, the server doesn't
    // change.
    pub(crate) fn cancel(
        &mut self,
        request: &CancelRequest,
        decisions: &[(GoalId, CancelDecision)],
    ) -> Result<CancelAnswer, Memory>
        ensures code { IfOk result (λ answer. answer.code ≡ code_of request.now decisions.now (records_of self.old.held)) }
        ensures moved { IfOk result (λ answer. answer.moved ≡ map (λ goal. goal.id) (moved decisions.now (records_of self.old.held))) }
        ensures table { OnOk result (self.new ≡ with_goals (table_after decisions.now) self.old) }
        ensures unchanged { OnErr result (self.new ≡ self.old) }
    {
        let answer = self.goals.answer(request, decisions)?;
        Ok(answer)
    }

    // What an action client is answered that asks for a goal's result. If the result comes later, the client is noted. If
    // memory is refused, the server doesn't change.
    pub(crate) fn ask(&mut self, id: GoalId, client: EntityNo) -> Result<Asked, Memory>
        ensures told { IfOk result (λ told. told ≡ answer_of (asked_for id (records_of self.old.held))) }
        ensures noted { OnOk result (self.new ≡ with_goals (after_asking id client) self.old) }
        ensures memory { OnErr result (asked_for id (records_of self.old.held) ≡ later) }
        ensures unchanged { OnErr result (self.new ≡ self.old) }
    {
        let told = self.goals.ask_result(id, client)?;
        Ok(told)
    }

    // Executes the oldest goal that is accepted and not executed yet. Answers its identifier, or `None` if there is none.
    pub(crate) fn execute_oldest(&mut self) -> Option<GoalId>
        ensures found { result ≡ option_map (λ goal. goal.id) (find (λ goal. is_accepted goal.state) (records_of self.old.held)) }
        ensures executed { self.new ≡ with_goals (executed (find (λ goal. is_accepted goal.state) (records_of self.old.held))) self.old }
    {
        let id = self.goals.oldest_accepted()?;
        let _state = self.goals.apply(id, Event::Execute);
        Some(id)
    }

    // Ends a goal by an event at a moment with its result, and answers its terminal state. Nothing changes if no such goal is
    // held, or if the event leads its state to no terminal one. There is no answer then.
    pub(crate) fn end(
        &mut self,
        id: GoalId,
        event: Event,
        value: i64,
        moment: Moment,
    ) -> Option<State>
        ensures reached { result ≡ end_state id event (records_of self.old.held) }
        ensures ended { IfSome result (λ _. self.new ≡ with_goals (change_first (has_id id) (after_end event value moment)) self.old) }
        ensures unchanged { IfNone result (self.new ≡ self.old) }
    {
        let Ok(reached) = self.goals.end(id, event, value, moment) else {
            return None;
        };
        Some(reached)
    }
}

// Adds work after what is kept, under a new identifier. There is room for it.
fn insert_new(held: &mut IndexMap<GoalId, KeptWithGoal>, id: GoalId, new: KeptWithGoal)
    requires room { 0 < spare held.old }
    requires new { list_any (is_kept_for id) (all_kept held.old.entries) ≡ false }
    ensures { all_kept held.new.entries ≡ all_kept held.old.entries ++ kept_of (id, new) ∷ [] }
{
    let _none = held.insert(id, new).unwrap();
}

// Drops what is kept under an identifier, if anything is, with the moment from which on it is awake.
fn remove(held: &mut IndexMap<GoalId, KeptWithGoal>, wakes: &mut Vec<u64>, id: GoalId)
    requires { wakes.old.items ≡ wakes_of (all_kept held.old.entries) }
    ensures held { all_kept held.new.entries ≡ drop_first (is_kept_for id) (all_kept held.old.entries) }
    ensures wakes { wakes.new.items ≡ wakes_of (all_kept held.new.entries) }
{
    if let Some(dropped) = held.shift_remove_full(&id) {
        let _wake = wakes.remove(dropped.0);
    }
}
