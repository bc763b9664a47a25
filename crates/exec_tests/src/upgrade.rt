//! What the worked upgrades don't show: an upgrade is answered where a document is read, and a refusal has the document's code.
//! Where memory is refused, an upgrade is asked for once more, so these tests pass whichever allocation is refused.
use crate::shared::same_at;
use exec_doc::{Refused, upgrade};
use std::alloc::Global;

// The upgrade of a document.
fn upgrade_of(alloc: Global, document: &str) -> Result<Vec<u8>, Refused> {
    match upgrade(alloc, document.as_bytes()) {
        Err(Refused::Memory) => upgrade(alloc, document.as_bytes()),
        answer => answer,
    }
}

// Whether the upgrade of a document is this text.
fn is_upgraded(alloc: Global, document: &str, wanted: &str) -> bool {
    match upgrade_of(alloc, document) {
        Ok(text) => text.as_slice() == wanted.as_bytes(),
        Err(_) => false,
    }
}

// The number of the code, or 0 where there is an upgrade.
fn code_of(alloc: Global, document: &str) -> u8 {
    match upgrade_of(alloc, document) {
        Ok(_) => 0,
        Err(refused) => refused.number(),
    }
}

// Documents, each with the text of its upgrade.
const UPGRADES: &[(&str, &str)] = &[
    (r#"{"version":1}"#, r#"{"order":"kind","version":2}"#),
    (r#"{"version":2}"#, r#"{"order":"kind","version":2}"#),
    (
        r#"{"version":1,"order":7,"extra":[true]}"#,
        r#"{"order":"kind","version":2}"#,
    ),
    (
        r#"{"version":1,"nodes":[{"name":"n","timers":[{"name":"t","period":10,"script":[["log","now"]]}]}],"moments":[30,30,30]}"#,
        r#"{"moments":[30,30,30],"nodes":[{"name":"n","timers":[{"name":"t","period":10,"script":[["log","now"]]}]}],"order":"kind","version":2}"#,
    ),
    (
        r#"{"version":2,"order":"arrival","topics":["x"],"nodes":[{"name":"n","depth":1e3,"groups":[{"name":"g","kind":"reentrant","period":0}],"timers":[{"name":"t","period":1,"group":"g","depth":0.5}],"subscriptions":[{"name":"s","topic":"x","depth":2,"period":null}],"services":[{"name":"v","script":[],"topic":7}],"clients":[{"name":"c","service":"v","action":{}}],"actions":[{"name":"a","result_timeout":5,"on_goal":[["decide",2]],"on_cancel":[],"on_result":true}],"action_clients":[{"name":"k","action":"a","on_response":[],"on_code":[],"on_feedback":[],"on_result":[],"script":1}]}],"moments":[1],"feed":[{"round":1,"topic":"x","value":-3,"action":[],"stamp":4},{"round":1,"action":"a","goal":"00000000-0000-0000-0000-00000000000A","value":5,"stamp":null},{"round":1,"action":"a","cancel":"00000000-0000-0000-0000-000000000000","stamp":6,"value":""}]}"#,
        r#"{"feed":[{"round":1,"topic":"x","value":-3},{"action":"a","goal":"00000000-0000-0000-0000-00000000000A","round":1,"value":5},{"action":"a","cancel":"00000000-0000-0000-0000-000000000000","round":1,"stamp":6}],"moments":[1],"nodes":[{"action_clients":[{"action":"a","name":"k","on_code":[],"on_feedback":[],"on_response":[],"on_result":[]}],"actions":[{"name":"a","on_cancel":[],"on_goal":[["decide",2]],"result_timeout":5}],"clients":[{"name":"c","service":"v"}],"groups":[{"kind":"reentrant","name":"g"}],"name":"n","services":[{"name":"v","script":[]}],"subscriptions":[{"depth":2,"name":"s","topic":"x"}],"timers":[{"group":"g","name":"t","period":1}]}],"order":"arrival","topics":["x"],"version":2}"#,
    ),
];

#[test]
fn documents_are_upgraded(rt: HostRuntime) {
    for (document, wanted) in UPGRADES {
        same_at(
            &rt,
            document,
            is_upgraded(rt.alloc(), document, wanted),
            true,
        );
    }
}

// Documents, each with the code that refuses it and its upgrade.
const REFUSALS: &[(&str, u8)] = &[
    (r#"{"version":1"#, 1),
    (r#"{"version":2,"order":7}"#, 2),
    (r#"{"version":3}"#, 3),
    (r#"{"version":1,"topics":["x","x"]}"#, 4),
    (r#"{"version":1,"moments":[5,4]}"#, 8),
];

#[test]
fn what_is_refused_has_no_upgrade(rt: HostRuntime) {
    for (document, code) in REFUSALS {
        same_at(&rt, document, code_of(rt.alloc(), document), *code);
    }
}
