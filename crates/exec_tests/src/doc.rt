//! What the documents of `cases/` don't show. A plan is answered if a document is read, whatever it declares. If memory is
//! refused, a document is answered as with ample memory, or with 10, and read again as ever. So these tests pass whichever
//! allocation is refused.
use crate::shared::{same, same_at};
use exec_doc::{Refused, read_document};
use exec_graph::Plan;
use std::alloc::Global;

// The plan of a document. If memory is refused, it is read once more.
pub(crate) fn plan_of(alloc: Global, document: &str) -> Result<Plan, Refused> {
    match read_document(alloc, document.as_bytes()) {
        Err(Refused::Memory) => read_document(alloc, document.as_bytes()),
        answer => answer,
    }
}

// The number of the code, or 0 if a plan is read.
fn code_of(alloc: Global, document: &str) -> u8 {
    match plan_of(alloc, document) {
        Ok(_) => 0,
        Err(refused) => refused.number(),
    }
}

// Documents of each code, or 0 if one is a plan.
const DOCUMENTS: &[(&str, u8)] = &[
    (
        r#"{"version":1,"topics":["x","y"],"nodes":[{"name":"n","groups":[{"name":"g","kind":"reentrant"},{"name":"h","kind":"exclusive"}],"timers":[{"name":"t","period":10,"group":"h","script":[["pub","x","now"],["set","g0","add","in",1],["execute","a"]]}],"subscriptions":[{"name":"s","topic":"x","depth":2,"group":"g","script":[["log","in"]]}],"services":[{"name":"v","script":[["reply",9]]}],"actions":[{"name":"a","group":"g","result_timeout":100,"on_goal":[["decide",2]],"on_cancel":[["decide",1]],"script":[["wait",2],["succeed",9]]}]},{"name":"m","clients":[{"name":"c","service":"v","script":[["call","c","aux"]]}],"action_clients":[{"name":"k","action":"a","on_response":[["log","in"]],"on_code":[["skip","in",1],["cancel","k","goal-before","g0",3]],"on_feedback":[],"on_result":[["log","in"]]}]}],"moments":[10,11,11],"feed":[{"round":2,"action":"a","goal":"00000000-0000-0000-0000-000000000001","value":7},{"round":1,"topic":"y","value":-1},{"round":2,"action":"a","cancel":"00000000000000000000000000000000","stamp":1}]}"#,
        0,
    ),
    (r#"{"version":1"#, 1),
    (r#"{"version":1,"moments":[-1]}"#, 2),
    (r#"{"version":2,"order":"arrival"}"#, 0),
    (r#"{"version":1,"order":7}"#, 0),
    (r#"{"version":2,"order":"age"}"#, 2),
    (r#"{"version":3}"#, 3),
    (
        r#"{"version":1,"nodes":[{"name":"n","timers":[{"name":"t","period":1,"group":"g"}]}]}"#,
        4,
    ),
    (
        r#"{"version":1,"nodes":[{"name":"n","timers":[{"name":"t","period":0,"script":[["log"]]}]}]}"#,
        5,
    ),
    (
        r#"{"version":1,"nodes":[{"name":"n","actions":[{"name":"a"}]}],"moments":[1],"feed":[{"round":1,"action":"a","cancel":"00000000-0000-0000-0000-000000000000","stamp":4611686018427387905}]}"#,
        5,
    ),
    (
        r#"{"version":1,"nodes":[{"name":"n","groups":[{"name":"r","kind":"reentrant"}],"timers":[{"name":"t","group":"r","period":1,"script":[["log","g0"]]},{"name":"u","period":1,"script":[["log"]]}]}]}"#,
        6,
    ),
    (
        r#"{"version":1,"nodes":[{"name":"n","groups":[{"name":"r","kind":"reentrant"}],"timers":[{"name":"t","group":"r","period":1,"script":[["log","g0"]]}]}]}"#,
        7,
    ),
    (r#"{"version":1,"moments":[5,4]}"#, 8),
    (
        r#"{"version":1,"nodes":[{"name":"n","actions":[{"name":"a"}]}],"moments":[1],"feed":[{"round":1,"action":"a","goal":"00000000-0000-0000-0000-000000000000","value":7}]}"#,
        9,
    ),
];

#[test]
fn documents_are_read_or_refused(rt: HostRuntime) {
    for (document, code) in DOCUMENTS {
        same_at(&rt, document, code_of(rt.alloc(), document), *code);
    }
}

#[test]
fn codes_have_their_numbers(rt: HostRuntime) {
    let numbers = (Refused::NotJson.number(), Refused::Memory.number());
    same(&rt, numbers, (1, 10));
}
