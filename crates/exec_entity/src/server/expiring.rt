//! Goals that a server forgets.
ghost use Rattle.std.specs.Prelude.{◌≡◌, ◌≤◌, ◌++◌, map, length, filter, OnOk};
ghost use Rattle.std.specs.List.{flat_map};
ghost use Rattle.exec_goal.specs.Table.{holds_id};
ghost use Rattle.exec_rules.specs.Transcript.{expire_lines, server_expired};
ghost use Rattle.exec_entity.specs.inner.Server.{all_kept};
ghost use Rattle.exec_entity.specs.inner.Waking.{wakes_of};

use super::polling::wake_in;
use super::{KeptWithGoal, Server, remove};
use crate::by_number::ByNumber;
use exec_goal::Goals;
use exec_msg::{GoalId, Line, Lines, Memory, Moment};
use indexmap::IndexMap;

// How many goals a server forgets one by one in a round, at most. It forgets all others in one pass.
const FEW: usize = 4;

impl Server {
    ghost use Rattle.std.specs.Prelude.{◌≡◌, ◌<◌, false, drop, length, slice_get, slice_index_or, IfNone};
    ghost use Rattle.std.specs.List.{list_any};
    ghost use Rattle.std.specs.Option.{option_map};
    ghost use Rattle.exec_goal.specs.Table.{GoalRecord, is_expired, expired};
    ghost use Rattle.exec_rules.specs.Transcript.{server_expired};
    ghost use Rattle.exec_rules.specs.World.{records_of};

    // Forgets the first goal, in the order of acceptance, whose result the server keeps no longer at a moment. Answers its
    // identifier, or `None` if there is none.
    pub(crate) fn expire(&mut self, moment: Moment) -> Option<GoalId>
        ensures first { result ≡ option_map (λ goal. goal.id) (slice_get (expired moment self.old.timeout (records_of self.old.held)) 0) }
        ensures left { expired moment self.new.timeout (records_of self.new.held) ≡ drop 1 (expired moment self.old.timeout (records_of self.old.held)) }
        ensures kept { server_expired moment self.new ≡ server_expired moment self.old }
        ensures settled { IfNone result (self.new ≡ server_expired moment self.old) }
    {
        let timeout = self.timeout?;
        let id = self.goals.expire(moment, timeout)?;
        remove(&mut self.held, &mut self.wakes, id);
        Some(id)
    }

    // Whether there is a goal whose result the server keeps no longer at a moment. No goal is looked at while none can be.
    fn has_expired(&mut self, moment: Moment) -> bool
        ensures found { result ≡ list_any (is_expired moment self.old.timeout) (records_of self.old.held) }
        ensures same { self.new ≡ self.old }
        ensures settled { result ≡ false → server_expired moment self.old ≡ self.old }
    {
        match self.timeout {
            None => false,
            Some(timeout) => self.goals.has_expired(moment, timeout),
        }
    }

    // Whether the server keeps the result of the goal at this place no longer at a moment.
    fn is_expired_at(&self, index: usize, moment: Moment) -> bool
        requires { index < length self.now.held }
        ensures { (d : GoalRecord) → result ≡ is_expired moment self.now.timeout (slice_index_or (records_of self.now.held) index d) }
    {
        match self.timeout {
            None => false,
            Some(timeout) => self.goals.is_expired_at(index, moment, timeout),
        }
    }

    // Forgets the goals whose results the server keeps no longer at a moment.
    fn forget_expired(&mut self, moment: Moment)
        ensures { self.new ≡ server_expired moment self.old }
    {
        let Some(timeout) = self.timeout else {
            return;
        };
        self.goals.forget_expired(moment, timeout);
        keep_held(&mut self.held, &self.goals);
        note_wakes(&self.held, &mut self.wakes);
    }
}

// Drops what is kept of goals that a server no longer holds.
fn keep_held(held: &mut IndexMap<GoalId, KeptWithGoal>, goals: &Goals)
    ensures { all_kept held.new.entries ≡ filter (λ one. holds_id one.id goals.now) (all_kept held.old.entries) }
{
    held.retain(
        |id: &GoalId, kept: &mut KeptWithGoal| -> bool
            ensures { (result ≡ holds_id id.now goals.entry.now) × (kept.new ≡ kept.old) }
        { goals.holds(*id) },
    );
}

// Writes from when on each task is awake if its goal isn't being canceled, over the moments of more tasks.
fn note_wakes(held: &IndexMap<GoalId, KeptWithGoal>, wakes: &mut Vec<u64>)
    requires { length held.now.entries ≤ length wakes.old.items }
    ensures { wakes.new.items ≡ wakes_of (all_kept held.now.entries) }
{
    for place in 0..held.len() {
        let (_id, kept) = held.get_index(place).unwrap();
        wakes[place] = wake_in(&kept.task);
    }
    wakes.truncate(held.len());
}

impl ByNumber<Server> {
    ghost use Rattle.std.specs.Prelude.{◌≡◌, ◌++◌, map, OnOk};
    ghost use Rattle.std.specs.List.{flat_map};
    ghost use Rattle.exec_rules.specs.Transcript.{expire_lines, server_expired};

    /// Forgets the goals whose results are kept no longer at a moment, server by server. Each leaves its line.
    ///
    /// # Errors
    /// [`Memory`] if a growth was refused. Goals may have been forgotten, and may have left lines.
    pub fn expire<L: Lines>(&mut self, moment: Moment, lines: &mut L) -> Result<(), Memory>
        ensures servers { OnOk result (self.new ≡ map (server_expired moment) self.old) }
        ensures lines { OnOk result (L.lines lines.new ≡ L.lines lines.old ++ flat_map (expire_lines moment) self.old) }
    {
        expire_each(&mut self.entries, moment, lines)
    }
}

fn expire_each<L: Lines>(
    servers: &mut [Server],
    moment: Moment,
    lines: &mut L,
) -> Result<(), Memory>
    ensures servers { OnOk result (servers.new ≡ map (server_expired moment) servers.old) }
    ensures lines { OnOk result (L.lines lines.new ≡ L.lines lines.old ++ flat_map (expire_lines moment) servers.old) }
    ensures numbers { map (λ server. server.handler.entity) servers.new ≡ map (λ server. server.handler.entity) servers.old }
{
    for place in 0..servers.len() {
        expire_goals(&mut servers[place], moment, lines)?;
    }
    Ok(())
}

// One goal alone is forgotten in less time than a pass over all takes, and many in more.
fn expire_goals<L: Lines>(server: &mut Server, moment: Moment, lines: &mut L) -> Result<(), Memory>
    ensures server { OnOk result (server.new ≡ server_expired moment server.old) }
    ensures lines { OnOk result (L.lines lines.new ≡ L.lines lines.old ++ expire_lines moment server.old) }
    ensures number { server.new.handler.entity ≡ server.old.handler.entity }
{
    for _turn in 0..FEW {
        let Some(id) = server.expire(moment) else {
            return Ok(());
        };
        lines.add(&Line::Expire {
            server: server.number(),
            id,
        })?;
    }
    expire_rest(server, moment, lines)
}

// The same, in one pass.
fn expire_rest<L: Lines>(server: &mut Server, moment: Moment, lines: &mut L) -> Result<(), Memory>
    ensures server { OnOk result (server.new ≡ server_expired moment server.old) }
    ensures lines { OnOk result (L.lines lines.new ≡ L.lines lines.old ++ expire_lines moment server.old) }
    ensures number { server.new.handler.entity ≡ server.old.handler.entity }
{
    if !server.has_expired(moment) {
        return Ok(());
    }
    add_expired(server, moment, lines)?;
    server.forget_expired(moment);
    Ok(())
}

// Adds the line of each goal whose result a server keeps no longer at a moment.
fn add_expired<L: Lines>(server: &Server, moment: Moment, lines: &mut L) -> Result<(), Memory>
    ensures { OnOk result (L.lines lines.new ≡ L.lines lines.old ++ expire_lines moment server.now) }
{
    for index in 0..server.len() {
        if server.is_expired_at(index, moment) {
            lines.add(&Line::Expire {
                server: server.number(),
                id: server.goal_at(index).id,
            })?;
        }
    }
    Ok(())
}
