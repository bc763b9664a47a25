ghost use Rattle.std.specs.Prelude.{Option, map};
ghost use Rattle.serde_json.specs.Data.{Data};
ghost use Rattle.serde_json.specs.View.{view};
ghost use Rattle.exec_doc.specs.Forms.{text, count, integer, list_of, field_value, required_field, optional_field, list};
ghost use Rattle.exec_doc.specs.inner.Picking.{found};
ghost use Rattle.exec_doc.specs.inner.Reading.{ReadingGives};
ghost use Rattle.exec_doc.specs.inner.Taking.{LosesField};
ghost use Rattle.exec_plan.specs.Entity.{if_there};
ghost use Rattle.exec_msg.specs.Options.{each};

use crate::forms::owned::take_field;
use crate::refused::Refused;
use exec_script::WordText;
use serde_json::Value;
use std::alloc::Global;

/// What a JSON value says if it has a form.
pub trait Form: Drop {
    ghost form: { Data → Option Self };

    /// Reads it.
    ///
    /// # Errors
    /// [`Refused::Shape`] if the value hasn't the form, and [`Refused::Memory`] if a growth was refused.
    fn read(alloc: Global, value: &Value) -> Result<Self, Refused>
        ensures { ReadingGives (λ found. found) result (form (view value.now)) };
}

impl Form for WordText {
    ghost form = { text };

    fn read(alloc: Global, value: &Value) -> Result<WordText, Refused> {
        let text = value.as_str().ok_or(Refused::Shape)?;
        Ok(WordText::copy_of(alloc, text)?)
    }
}

impl Form for i64 {
    ghost form = { integer };

    fn read(_alloc: Global, value: &Value) -> Result<i64, Refused> {
        value.as_i64().ok_or(Refused::Shape)
    }
}

impl Form for u64 {
    ghost form = { count };

    fn read(_alloc: Global, value: &Value) -> Result<u64, Refused> {
        value.as_u64().ok_or(Refused::Shape)
    }
}

/// The value of a required field.
pub fn required_field<T: Form>(alloc: Global, holder: &Value, name: &str) -> Result<T, Refused>
    ensures { ReadingGives (λ found. found) result (required_field T.form name.now (view holder.now)) }
{
    field_value(alloc, holder.get(name))
}

/// What a required field says.
pub fn field_value<T: Form>(alloc: Global, field: Option<&Value>) -> Result<T, Refused>
    ensures { ReadingGives (λ read. read) result (field_value T.form (found field.entry)) }
{
    T::read(alloc, field.ok_or(Refused::Shape)?)
}

/// The value of an optional field.
pub fn optional_field<T: Form>(
    alloc: Global,
    holder: &Value,
    name: &str,
) -> Result<Option<T>, Refused>
    ensures { ReadingGives (λ found. found) result (optional_field T.form name.now (view holder.now)) }
{
    if_there(alloc, holder.get(name))
}

/// What an optional field says, if it is there.
pub fn if_there<T: Form>(alloc: Global, field: Option<&Value>) -> Result<Option<T>, Refused>
    ensures { ReadingGives (λ read. read) result (if_there T.form (found field.entry)) }
{
    match field {
        Some(value) => Ok(Some(T::read(alloc, value)?)),
        None => Ok(None),
    }
}

/// The list in a field, which is empty if the field is missing.
pub fn list<T: Form>(alloc: Global, holder: &Value, name: &str) -> Result<Vec<T>, Refused>
    ensures { ReadingGives (λ found. found.items) result (list T.form name.now (view holder.now)) }
{
    match holder.get(name) {
        Some(value) => list_of(alloc, value),
        None => Ok(Vec::new(alloc)),
    }
}

/// The same, but the field is taken out of its holder and freed.
pub fn taken_list<T: Form>(alloc: Global, holder: &mut Value, name: &str) -> Result<Vec<T>, Refused>
    ensures read { ReadingGives (λ found. found.items) result (list T.form name.now (view holder.old)) }
    ensures left { LosesField name.now (view holder.old) (view holder.new) }
{
    match take_field(holder, name) {
        Some(value) => list_of(alloc, &value),
        None => Ok(Vec::new(alloc)),
    }
}

/// The list that a value is.
#[tactic(auto, using(crate::proofs::Lists::any_list))]
pub fn list_of<T: Form>(alloc: Global, value: &Value) -> Result<Vec<T>, Refused>
    ensures { ReadingGives (λ found. found.items) result (list_of T.form (view value.now)) }
{
    let values = value.as_array().ok_or(Refused::Shape)?;
    each(alloc, values)
}

fn each<T: Form>(alloc: Global, values: &[Value]) -> Result<Vec<T>, Refused>
    ensures { ReadingGives (λ found. found.items) result (each T.form (map view values.now)) }
{
    let mut found = Vec::with_capacity(alloc, values.len())?;
    for value in values {
        found.push(T::read(alloc, value)?)?;
    }
    Ok(found)
}
