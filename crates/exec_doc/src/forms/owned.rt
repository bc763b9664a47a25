//! What a JSON value has, taken out of it.
ghost use Rattle.std.specs.Prelude.{◌≡◌, map, option_map, string_bytes};
ghost use Rattle.serde_json.specs.Find.{as_array, as_str, get};
ghost use Rattle.serde_json.specs.View.{items_of, view};
ghost use Rattle.exec_doc.specs.inner.Taking.{LosesField};

use serde_json::Value;

/// The field of a name, if the value is an object that has it.
pub fn into_field(mut value: Value, name: &str) -> Option<Value>
    ensures { option_map view result ≡ get name.now (view value) }
{
    take_field(&mut value, name)
}

/// The field of a name, if the value is an object that has it. It is taken out of the value, and all other fields stay.
pub fn take_field(value: &mut Value, name: &str) -> Option<Value>
    ensures taken { option_map view result ≡ get name.now (view value.old) }
    ensures left { LosesField name.now (view value.old) (view value.new) }
{
    match value {
        Value::Object(fields) => fields.remove(name),
        _ => None,
    }
}

/// The values of the list that a value is.
pub fn into_array(value: Value) -> Option<Vec<Value>>
    ensures { option_map (λ values. items_of (map view values.items)) result ≡ as_array (view value) }
{
    match value {
        Value::Array(values) => Some(values),
        _ => None,
    }
}

/// The text that a value is.
pub fn into_text(value: Value) -> Option<String>
    ensures { option_map string_bytes result ≡ as_str (view value) }
{
    match value {
        Value::String(text) => Some(text),
        _ => None,
    }
}
