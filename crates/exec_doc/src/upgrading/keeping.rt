//! An object of which some fields are kept: they are taken out of the value, and put into a new object.
ghost use Rattle.std.specs.Prelude.{◌≡◌, true, map, IfOk, OnOk};
ghost use Rattle.std.specs.Option.{option_map};
ghost use Rattle.serde_json.specs.Data.{Data, object, no_members};
ghost use Rattle.serde_json.specs.Find.{get};
ghost use Rattle.serde_json.specs.View.{view, members_view};
ghost use Rattle.exec_doc.specs.Upgrade.{changed_list, unchanged, with_field};
ghost use Rattle.exec_doc.specs.inner.Gathering.{with_fields, are_distinct};
ghost use Rattle.exec_doc.specs.inner.Taking.{LosesField};

use crate::forms::owned::take_field;
use serde_json::{Map, Value, put};
use std::alloc::{AllocError, Global};

/// What becomes of each value of a list.
pub trait Change {
    ghost becomes: { Self → Data → Data };

    /// The changed value.
    ///
    /// # Errors
    /// A growth was refused.
    fn changed(&self, alloc: Global, value: Value) -> Result<Value, AllocError>
        ensures { IfOk result (λ changed. view changed ≡ becomes self.now (view value)) };
}

/// The object with only the fields of these names, the first name first.
///
/// # Errors
/// A growth was refused.
pub fn only(alloc: Global, mut value: Value, names: &[&str]) -> Result<Value, AllocError>
    requires { are_distinct (unchanged (map (λ name. name.now) names.now)) ≡ true }
    ensures { IfOk result (λ kept. view kept ≡ object (with_fields (unchanged (map (λ name. name.now) names.now)) (view value) no_members)) }
{
    let mut kept = Map::new(alloc);
    keep_all(alloc, &mut value, names, &mut kept)?;
    Ok(Value::Object(kept))
}

fn keep_all(
    alloc: Global,
    from: &mut Value,
    names: &[&str],
    kept: &mut Map<String, Value>,
) -> Result<(), AllocError>
    requires { are_distinct (unchanged (map (λ name. name.now) names.now)) ≡ true }
    ensures { OnOk result (members_view kept.new.entries
        ≡ with_fields (unchanged (map (λ name. name.now) names.now)) (view from.old) (members_view kept.old.entries)) }
{
    for name in names {
        keep(alloc, from, name, kept)?;
    }
    Ok(())
}

/// Takes the field of a name over, as it is.
///
/// # Errors
/// A growth was refused.
pub fn keep(
    alloc: Global,
    from: &mut Value,
    name: &str,
    kept: &mut Map<String, Value>,
) -> Result<(), AllocError>
    ensures kept { OnOk result (members_view kept.new.entries ≡ with_field name.now (get name.now (view from.old)) (members_view kept.old.entries)) }
    ensures left { LosesField name.now (view from.old) (view from.new) }
{
    match take_field(from, name) {
        Some(value) => put(kept, alloc, name, value),
        None => Ok(()),
    }
}

/// Takes the list in a field over, with each of its values changed.
///
/// # Errors
/// A growth was refused.
pub fn keep_each<C: Change>(
    alloc: Global,
    from: &mut Value,
    name: &str,
    by: &C,
    kept: &mut Map<String, Value>,
) -> Result<(), AllocError>
    ensures kept { OnOk result (members_view kept.new.entries
        ≡ with_field name.now (option_map (changed_list (C.becomes by.now)) (get name.now (view from.old)))
        (members_view kept.old.entries)) }
    ensures left { LosesField name.now (view from.old) (view from.new) }
{
    match take_field(from, name) {
        Some(value) => put(kept, alloc, name, changed_list(alloc, value, by)?),
        None => Ok(()),
    }
}

fn changed_list<C: Change>(alloc: Global, value: Value, by: &C) -> Result<Value, AllocError>
    ensures { IfOk result (λ made. view made ≡ changed_list (C.becomes by.now) (view value)) }
{
    match value {
        Value::Array(values) => Ok(Value::Array(changed_items(alloc, values, by)?)),
        _ => Ok(value),
    }
}

fn changed_items<C: Change>(
    alloc: Global,
    values: Vec<Value>,
    by: &C,
) -> Result<Vec<Value>, AllocError>
    ensures { IfOk result (λ made. map view made.items ≡ map (C.becomes by.now) (map view values.items)) }
{
    let mut made = Vec::with_capacity(alloc, values.len())?;
    for value in values {
        made.push(by.changed(alloc, value)?)?;
    }
    Ok(made)
}
