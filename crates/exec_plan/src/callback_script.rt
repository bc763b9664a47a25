//! Which kinds of callbacks an entity has, and which script those of a kind run.
ghost use Rattle.std.specs.Prelude.{◌≡◌, [], is_some};
ghost use Rattle.std.specs.Option.{option_copied, unwrap_or};
ghost use Rattle.exec_plan.specs.Graph.{callback_script, script_for};
ghost use Rattle.exec_plan.specs.declared.entity.EntityOf.TheVariants as resolved;

use crate::entity::{
    ActionClientEntity, ClientEntity, Declared, EntityOf, ServerEntity, ServiceEntity,
    SubscriptionEntity, TimerEntity,
};
use crate::script::Script;
use exec_msg::{EntityNo, Kind};

impl Declared {
    /// The script of its callbacks of a kind. There is none if it has no such callbacks, or if their script is empty because
    /// nothing says what they do.
    #[inline(always)]
    pub fn script(&self, kind: Kind) -> Option<&Script>
        ensures { unwrap_or (option_copied result) [] ≡ script_for kind self.now }
    {
        match self {
            Declared::Topic => None,
            Declared::Entity(entity) => entity.is.script(kind),
        }
    }
}

impl EntityOf<EntityNo, Script> {
    /// Whether it has callbacks of a kind.
    pub fn has_callbacks(&self, kind: Kind) -> bool
        ensures { result ≡ is_some (callback_script kind self.now) }
    {
        match self {
            EntityOf::Timer(_) => matches!(kind, Kind::Timer),
            EntityOf::Subscription(_) => matches!(kind, Kind::Message),
            EntityOf::Service(_) => matches!(kind, Kind::Request),
            EntityOf::Client(_) => matches!(kind, Kind::Reply),
            EntityOf::Server(_) => {
                matches!(kind, Kind::Goal | Kind::Cancel | Kind::Ask | Kind::Poll)
            }
            EntityOf::ActionClient(_) => matches!(
                kind,
                Kind::Response | Kind::Code | Kind::Feedback | Kind::Result
            ),
        }
    }

    /// The script of its callbacks of a kind. There is none if it has no such callbacks, for an ask, and for a result if the
    /// action client has no script for it.
    #[inline(always)]
    pub fn script(&self, kind: Kind) -> Option<&Script>
        ensures { unwrap_or (option_copied result) [] ≡ unwrap_or (callback_script kind self.now) [] }
    {
        match self {
            EntityOf::Timer(entity) => timer_script(kind, entity),
            EntityOf::Subscription(entity) => subscription_script(kind, entity),
            EntityOf::Service(entity) => service_script(kind, entity),
            EntityOf::Client(entity) => client_script(kind, entity),
            EntityOf::Server(entity) => server_script(kind, entity),
            EntityOf::ActionClient(entity) => action_client_script(kind, entity),
        }
    }
}

fn timer_script(kind: Kind, entity: &TimerEntity<Script>) -> Option<&Script>
    ensures { unwrap_or (option_copied result) [] ≡ unwrap_or (callback_script kind (resolved.Timer entity.now)) [] }
{
    match kind {
        Kind::Timer => Some(&entity.script),
        _ => None,
    }
}

fn subscription_script(kind: Kind, entity: &SubscriptionEntity<EntityNo, Script>) -> Option<&Script>
    ensures { unwrap_or (option_copied result) [] ≡ unwrap_or (callback_script kind (resolved.Subscription entity.now)) [] }
{
    match kind {
        Kind::Message => Some(&entity.script),
        _ => None,
    }
}

fn service_script(kind: Kind, entity: &ServiceEntity<Script>) -> Option<&Script>
    ensures { unwrap_or (option_copied result) [] ≡ unwrap_or (callback_script kind (resolved.Service entity.now)) [] }
{
    match kind {
        Kind::Request => Some(&entity.script),
        _ => None,
    }
}

fn client_script(kind: Kind, entity: &ClientEntity<EntityNo, Script>) -> Option<&Script>
    ensures { unwrap_or (option_copied result) [] ≡ unwrap_or (callback_script kind (resolved.Client entity.now)) [] }
{
    match kind {
        Kind::Reply => Some(&entity.script),
        _ => None,
    }
}

fn server_script(kind: Kind, entity: &ServerEntity<Script>) -> Option<&Script>
    ensures { unwrap_or (option_copied result) [] ≡ unwrap_or (callback_script kind (resolved.Server entity.now)) [] }
{
    match kind {
        Kind::Goal => Some(&entity.on_goal),
        Kind::Cancel => Some(&entity.on_cancel),
        Kind::Poll => Some(&entity.script),
        _ => None,
    }
}

fn action_client_script(
    kind: Kind,
    entity: &ActionClientEntity<EntityNo, Script>,
) -> Option<&Script>
    ensures { unwrap_or (option_copied result) [] ≡ unwrap_or (callback_script kind (resolved.ActionClient entity.now)) [] }
{
    match kind {
        Kind::Response => Some(&entity.on_response),
        Kind::Code => Some(&entity.on_code),
        Kind::Feedback => Some(&entity.on_feedback),
        Kind::Result => entity.on_result.as_ref(),
        _ => None,
    }
}
