//! The faults of a graph's decoded scripts in their places.
ghost use Rattle.std.specs.Option.{option_to_list};
ghost use Rattle.std.specs.Prelude.{◌≡◌, ◌++◌, not, option_and_then, IfOk, OnOk};
ghost use Rattle.std.specs.List.{flat_map, list_any};
ghost use Rattle.std.specs.Map.{values_of};
ghost use Rattle.exec_graph.specs.inner.Directory.{fault_at, faults_of, is_reentrant_at};
ghost use Rattle.exec_graph.specs.Faults.{is_of_variable};

use exec_msg::Memory;
use exec_plan::{CallbackGroup, Declared, GroupNo, RoleScript, Script};
use exec_script::{Place, ScriptFault, check};
use indexmap::IndexMap;
use std::alloc::Global;

// The faults of all scripts in the order of the entities. Each entity has at most one.
pub(crate) fn script_faults(
    alloc: Global,
    entities: &IndexMap<String, Declared>,
    groups: &[CallbackGroup],
) -> Result<Vec<ScriptFault>, Memory>
    ensures { IfOk result (λ faults. faults.items ≡ flat_map (faults_of groups.now) (values_of entities.now.entries)) }
{
    let mut faults = Vec::new(alloc);
    for number in 0..entities.len() {
        append_faults(groups, &entities[number], &mut faults)?;
    }
    Ok(faults)
}

fn append_faults(
    groups: &[CallbackGroup],
    declared: &Declared,
    faults: &mut Vec<ScriptFault>,
) -> Result<(), Memory>
    ensures { OnOk result (faults.new.items ≡ faults.old.items ++ faults_of groups.now declared.now) }
{
    let Declared::Entity(entity) = declared else {
        return Ok(());
    };
    let reentrant = is_reentrant(groups, entity.group);
    for script in entity.is.scripts().iter() {
        append_fault(faults, fault_of(reentrant, script))?;
    }
    Ok(())
}

fn append_fault(faults: &mut Vec<ScriptFault>, fault: Option<ScriptFault>) -> Result<(), Memory>
    ensures { OnOk result (faults.new.items ≡ faults.old.items ++ option_to_list fault) }
{
    if let Some(fault) = fault {
        faults.push(fault)?;
    }
    Ok(())
}

// The fault of a script, if there is a script.
fn fault_of(reentrant: bool, script: &Option<RoleScript<'_, Script>>) -> Option<ScriptFault>
    ensures { result ≡ option_and_then (fault_at reentrant) script.now }
{
    let roled = script.as_ref()?;
    let place = Place {
        reentrant,
        role: roled.role,
    };
    check(roled.script.as_slice(), place).err()
}

// Whether a callback group is reentrant.
fn is_reentrant(groups: &[CallbackGroup], group: GroupNo) -> bool
    ensures { result ≡ is_reentrant_at groups.now group }
{
    match groups.get(group.0 as usize) {
        Some(found) => !found.exclusive,
        None => false,
    }
}

// Whether a fault isn't that of a group variable in a reentrant group.
pub(crate) fn is_any_faulty(faults: &[ScriptFault]) -> bool
    ensures { result ≡ list_any (λ fault. not (is_of_variable fault)) faults.now }
{
    faults
        .iter()
        .any(|fault| !matches!(fault, ScriptFault::GroupVariable))
}
