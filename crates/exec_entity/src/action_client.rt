use crate::by_number::{ByNumber, Numbered};
use exec_msg::{EntityNo, GoalId, Memory, number_after};
use std::marker::Model;

/// An action client.
#[derive(Drop)]
pub struct ActionClient {
    entity: EntityNo,
    // Its place among the action clients, from 0.
    place: u16,
    server: EntityNo,
    // Whether it asks for the results of its goals.
    asks: bool,
    // The number of its last goal, below 2^60.
    goals: u64,
}

impl Model for ActionClient {
    ghost use Rattle.std.specs.Prelude.{◌<◌, ◌^◌};
    ghost use Rattle.exec_rules.specs.World.{ActionClientEntry};

    ghost Value = { ActionClientEntry };

    ghost view = { λ client. record { entity = client.entity; place = client.place; server = client.server; asks = client.asks; goals = client.goals } };

    ghost invariant = { λ client. client.goals < 2 ^ 60 };
}

impl ActionClient {
    ghost use Rattle.std.specs.Prelude.{◌≡◌, ◌+◌, ◌^◌, ◌≤◌, OnOk, OnErr, IfOk};
    ghost use Rattle.exec_rules.specs.Item.{goal_id};

    /// A client that hasn't sent a goal yet.
    pub fn new(entity: EntityNo, place: u16, server: EntityNo, asks: bool) -> ActionClient
        ensures { result ≡ record { entity = entity; place = place; server = server; asks = asks; goals = 0 } }
    {
        ActionClient {
            entity,
            place,
            server,
            asks,
            goals: 0,
        }
    }

    /// Its server.
    pub fn server(&self) -> EntityNo
        ensures { result ≡ self.now.server }
    {
        self.server
    }

    /// Whether it asks for the results of its goals.
    pub fn asks(&self) -> bool
        ensures { result ≡ self.now.asks }
    {
        self.asks
    }

    /// The identifier of its goal of a number.
    pub fn goal_id(&self, number: u64) -> GoalId
        ensures { result ≡ goal_id self.now.place number }
    {
        GoalId::new((self.place as u128 + 1) * (1 << 64) + number as u128)
    }

    // Counts its next goal, and gives its server and the goal's identifier. If the goal's number isn't below 2^60, the client
    // doesn't change.
    pub(crate) fn send_goal(&mut self) -> Result<(EntityNo, GoalId), Memory>
        ensures made { IfOk result (λ made. made ≡ (self.old.server, goal_id self.old.place (self.old.goals + 1))) }
        ensures sent { OnOk result (self.new ≡ record self.old { goals = self.old.goals + 1 }) }
        ensures memory { OnErr result (2 ^ 60 ≤ self.old.goals + 1) }
        ensures unchanged { OnErr result (self.new ≡ self.old) }
    {
        self.goals = number_after(self.goals)?;
        Ok((self.server, self.goal_id(self.goals)))
    }
}

impl Numbered for ActionClient {
    ghost number_of = { λ client. client.entity };

    fn number(&self) -> EntityNo {
        self.entity
    }
}

impl ByNumber<ActionClient> {
    ghost use Rattle.std.specs.Prelude.{◌≡◌, ◌+◌, ◌^◌, ◌≤◌, find, None, OnErr, OnOk, IfOk, IsSomeAnd};
    ghost use Rattle.std.specs.Option.{option_map};
    ghost use Rattle.exec_msg.specs.Lists.{change_first};
    ghost use Rattle.exec_rules.specs.Item.{goal_id};
    ghost use Rattle.exec_rules.specs.World.{is_action_client_at};

    /// A client counts its next goal. Answers its server and the goal's identifier, or `None` if there is no such client.
    ///
    /// # Errors
    /// [`Memory`] if the goal's number isn't below 2^60. No run of a lawful plan sends so many goals (law
    /// `numbers_stay_below_their_limit`).
    pub fn send_goal(&mut self, client: EntityNo) -> Result<Option<(EntityNo, GoalId)>, Memory>
        ensures made { IfOk result (λ made. made
            ≡ option_map (λ entry. (entry.server, goal_id entry.place (entry.goals + 1))) (find (is_action_client_at client) self.old)) }
        ensures sent { OnOk result (self.new ≡ change_first (is_action_client_at client) (λ entry. record entry { goals = entry.goals + 1 }) self.old) }
        ensures absent { IfOk result (λ made. made ≡ None → self.new ≡ self.old) }
        ensures memory { OnErr result (IsSomeAnd (find (is_action_client_at client) self.old) (λ entry. 2 ^ 60 ≤ entry.goals + 1)) }
    {
        self.change(client, |entry| entry.send_goal()).transpose()
    }
}

/// The action clients of a graph.
pub type ActionClients = ByNumber<ActionClient>;
