use crate::by_number::{ByNumber, Numbered};
use exec_msg::{EntityNo, Memory, number_after};
use exec_task::PendingCall;
use indexmap::IndexMap;
use std::alloc::Global;
use std::marker::Model;

/// A service client.
#[derive(Drop)]
pub struct Client {
    entity: EntityNo,
    service: EntityNo,
    // The number of its last call, below 2^60.
    calls: u64,
    // The calls without a reply, each by its number.
    pending: IndexMap<u64, PendingCall>,
}

impl Model for Client {
    ghost use Rattle.std.specs.List.{All};
    ghost use Rattle.std.specs.Map.{keys_of};
    ghost use Rattle.std.specs.Prelude.{◌≡◌, ◌<◌, ◌≤◌, ◌^◌};
    ghost use Rattle.exec_rules.specs.World.{ClientEntry};
    ghost use Rattle.exec_task.specs.Call.{new_call};

    ghost Value = { ClientEntry };

    ghost view = { λ client. record { entity = client.entity; service = client.service; calls = client.calls; pending = keys_of client.pending.entries } };

    ghost invariant = { λ client. All (λ number. number ≤ client.calls) (keys_of client.pending.entries)
        × All (λ pending. pending.1.call ≡ new_call pending.0) client.pending.entries
        × (client.calls < 2 ^ 60) };
}

impl Client {
    ghost use Rattle.std.specs.Option.{is_some};
    ghost use Rattle.std.specs.Prelude.{◌≡◌, ◌+◌, [], length, OnOk, OnErr, IfOk, IfSome};
    ghost use Rattle.exec_entity.specs.Calls.{has_pending};
    ghost use Rattle.exec_rules.specs.Ready.{call_answered};
    ghost use Rattle.exec_rules.specs.World.{client_called};
    ghost use Rattle.exec_task.specs.Call.{new_call, completed};

    /// A client of a service. It hasn't called yet, and takes no memory.
    pub fn new(alloc: Global, entity: EntityNo, service: EntityNo) -> Client
        ensures { result ≡ record { entity = entity; service = service; calls = 0; pending = [] } }
    {
        Client {
            entity,
            service,
            calls: 0,
            pending: IndexMap::new(alloc),
        }
    }

    // Makes its next call, which pends, and gives its service and the call's number, from 1.
    pub(crate) fn call(&mut self) -> Result<(EntityNo, u64), Memory>
        ensures made { IfOk result (λ made. made ≡ (self.old.service, self.old.calls + 1)) }
        ensures called { OnOk result (self.new ≡ client_called self.old) }
        ensures unchanged { OnErr result (self.new ≡ self.old) }
    {
        let number = number_after(self.calls)?;
        self.pending.insert(number, PendingCall::new(number))?;
        self.calls = number;
        Ok((self.service, number))
    }

    // Gives a call its reply. The call pends no more, and is handed out. Answers `None` exactly if no such call pended.
    pub(crate) fn complete(&mut self, number: u64, value: i64) -> Option<PendingCall>
        ensures answered { self.new ≡ call_answered number self.old }
        ensures pended { is_some result ≡ has_pending number self.old }
        ensures call { IfSome result (λ pending. pending.call ≡ completed value (new_call number)) }
    {
        let mut call = self.pending.shift_remove(&number)?;
        // It pended, so this is its first reply.
        let _ = call.complete(value);
        Some(call)
    }

    /// How many calls pend.
    pub fn count_pending(&self) -> usize
        ensures { result ≡ length self.now.pending }
    {
        self.pending.len()
    }
}

impl Numbered for Client {
    ghost number_of = { λ client. client.entity };

    fn number(&self) -> EntityNo {
        self.entity
    }
}

impl ByNumber<Client> {
    ghost use Rattle.std.specs.Prelude.{◌≡◌, ◌+◌, find, None, OnOk, IfOk, IfSome};
    ghost use Rattle.std.specs.Option.{is_some, option_map};
    ghost use Rattle.exec_entity.specs.Calls.{is_pending_in};
    ghost use Rattle.exec_msg.specs.Lists.{change_first};
    ghost use Rattle.exec_rules.specs.Ready.{call_answered};
    ghost use Rattle.exec_rules.specs.World.{client_called, is_client_at};
    ghost use Rattle.exec_task.specs.Call.{new_call, completed};

    /// A client makes its next call, which pends. Answers its service and the call's number, from 1. The answer is `None` if
    /// there is no such client.
    ///
    /// # Errors
    /// [`Memory`] if a growth was refused, or the call's number isn't below 2^60. No run of a lawful plan makes so many calls (law
    /// `numbers_stay_below_their_limit`).
    pub fn call(&mut self, client: EntityNo) -> Result<Option<(EntityNo, u64)>, Memory>
        ensures made { IfOk result (λ made. made ≡ option_map (λ entry. (entry.service, entry.calls + 1)) (find (is_client_at client) self.old)) }
        ensures called { OnOk result (self.new ≡ change_first (is_client_at client) client_called self.old) }
        ensures absent { IfOk result (λ made. made ≡ None → self.new ≡ self.old) }
    {
        self.change(client, |entry| entry.call()).transpose()
    }

    /// A client's call is given its reply, and pends no more. Answers the call with its reply, or `None` exactly if no such
    /// call pended.
    pub fn complete(&mut self, client: EntityNo, number: u64, value: i64) -> Option<PendingCall>
        ensures answered { self.new ≡ change_first (is_client_at client) (call_answered number) self.old }
        ensures pended { is_some result ≡ is_pending_in client number self.old }
        ensures call { IfSome result (λ pending. pending.call ≡ completed value (new_call number)) }
    {
        self.change(client, |entry| entry.complete(number, value))
            .flatten()
    }
}

/// The service clients of a graph.
pub type Clients = ByNumber<Client>;
