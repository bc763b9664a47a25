//! What is asked of an entity, in drafts and in graphs: whether it is within its limits, what it refers to, and which scripts
//! it has.
ghost use Rattle.std.specs.Prelude.{◌≡◌, [], ◌∷◌, Some, None};
ghost use Rattle.std.specs.List.{filter_map};
ghost use Rattle.std.specs.Option.{option_map};
ghost use Rattle.exec_plan.specs.Entity.{is_within, is_from_1, is_timeout, reference_of, scripts_of};

use crate::entity::{EntityKind, EntityOf};
use exec_msg::limits::{DEPTH, TICKS};
use exec_script::Role;
use std::marker::Model;

/// What a name must be declared as.
#[derive(Clone, Copy)]
pub enum Referent {
    /// A topic.
    Topic,
    /// An entity of this kind.
    Entity(EntityKind),
}

/// What an entity refers to, and what that must be.
#[derive(Drop)]
pub struct Reference<'a, N> {
    /// What the name must be declared as.
    pub to: Referent,
    /// The name: in a draft its text, in a graph its number.
    pub name: &'a N,
}

impl<'a, N> Model for Reference<'a, N> {
    ghost use Rattle.exec_plan.specs.Entity.{ReferenceData};

    ghost Value = { ReferenceData N };

    ghost view = { λ reference. record { to = reference.to; name = reference.name.now } };
}

/// A script of an entity with the role in which it runs.
#[derive(Drop)]
pub struct RoleScript<'a, S> {
    /// What the script is run as.
    pub role: Role,
    /// The script: in a draft its words, in a graph its instructions.
    pub script: &'a S,
}

impl<'a, S> Model for RoleScript<'a, S> {
    ghost use Rattle.exec_plan.specs.Entity.{RoleScriptData};

    ghost Value = { RoleScriptData S };

    ghost view = { λ roled. record { role = roled.role; script = roled.script.now } };
}

impl<N, S> EntityOf<N, S> {
    /// Whether its period, depth and timeout are within their limits.
    pub fn is_within(&self) -> bool
        ensures { result ≡ is_within self.now }
    {
        match self {
            EntityOf::Timer(entity) => is_from_1(entity.period, TICKS),
            EntityOf::Server(entity) => {
                is_from_1(entity.depth, DEPTH) && is_timeout(entity.result_timeout)
            }
            _ => is_from_1(self.queue_depth(), DEPTH),
        }
    }

    /// What it refers to.
    pub fn reference(&self) -> Option<Reference<'_, N>>
        ensures { result ≡ reference_of self.now }
    {
        let (to, name) = match self {
            EntityOf::Subscription(entity) => (Referent::Topic, &entity.topic),
            EntityOf::Client(entity) => (Referent::Entity(EntityKind::Service), &entity.service),
            EntityOf::ActionClient(entity) => (
                Referent::Entity(EntityKind::Server),
                &entity.server,
            ),
            _ => return None,
        };
        Some(Reference { to, name })
    }

    /// Its scripts, in their order. The other places are `None`.
    pub fn scripts(&self) -> [Option<RoleScript<'_, S>>; 4]
        ensures { filter_map (λ script. script) result ≡ scripts_of self.now }
    {
        match self {
            EntityOf::Timer(entity) => one(Role::Callback, &entity.script),
            EntityOf::Subscription(entity) => one(Role::Callback, &entity.script),
            EntityOf::Service(entity) => one(Role::Service, &entity.script),
            EntityOf::Client(entity) => one(Role::Callback, &entity.script),
            EntityOf::Server(entity) => [
                in_role(Role::GoalHandler, &entity.on_goal),
                in_role(Role::CancelHandler, &entity.on_cancel),
                in_role(Role::Goal, &entity.script),
                None,
            ],
            EntityOf::ActionClient(entity) => [
                in_role(Role::Callback, &entity.on_response),
                in_role(Role::Callback, &entity.on_code),
                in_role(Role::Callback, &entity.on_feedback),
                in_role_if_there(Role::Callback, &entity.on_result),
            ],
        }
    }
}

fn one<S>(role: Role, script: &S) -> [Option<RoleScript<'_, S>>; 4]
    ensures { result ≡ Some (record { role = role; script = script.now }) ∷ None ∷ None ∷ None ∷ [] }
{
    [in_role(role, script), None, None, None]
}

fn in_role<S>(role: Role, script: &S) -> Option<RoleScript<'_, S>>
    ensures { result ≡ Some (record { role = role; script = script.now }) }
{
    Some(RoleScript { role, script })
}

fn in_role_if_there<S>(role: Role, script: &Option<S>) -> Option<RoleScript<'_, S>>
    ensures { result ≡ option_map (λ script. record { role = role; script = script }) script.now }
{
    in_role(role, script.as_ref()?)
}

fn is_from_1(number: u64, most: u64) -> bool
    ensures { result ≡ is_from_1 most number }
{
    1 <= number && number <= most
}

fn is_timeout(timeout: Option<u64>) -> bool
    ensures { result ≡ is_timeout timeout }
{
    match timeout {
        None => true,
        Some(ticks) => ticks <= TICKS,
    }
}
