//! The fields of an entry of a feed, found in one pass over what it holds.
ghost use Rattle.std.specs.Prelude.{◌≡◌};
ghost use Rattle.serde_json.specs.View.{view};
ghost use Rattle.exec_doc.specs.Forms.{entry_fields};
ghost use Rattle.exec_doc.specs.inner.Picking.{field_noted, seen};

use serde_json::Value;

/// The values of the fields that an entry may have, each if it is there.
#[derive(Drop)]
pub struct EntryFields<'a> {
    /// The number of its round.
    pub round: Option<&'a Value>,
    /// The topic of a message.
    pub topic: Option<&'a Value>,
    /// The identifier of a goal request.
    pub goal: Option<&'a Value>,
    /// The identifier of a cancel request.
    pub cancel: Option<&'a Value>,
    /// The server of a request.
    pub action: Option<&'a Value>,
    /// What is sent.
    pub value: Option<&'a Value>,
    /// The stamp of a cancel request.
    pub stamp: Option<&'a Value>,
}

impl<'a> EntryFields<'a> {
    /// Those of a value. It has none if it is no object.
    pub fn of(holder: &'a Value) -> EntryFields<'a>
        ensures { seen result ≡ entry_fields (view holder.now) }
    {
        let mut fields = EntryFields {
            round: None,
            topic: None,
            goal: None,
            cancel: None,
            action: None,
            value: None,
            stamp: None,
        };
        if let Value::Object(members) = holder {
            for (name, value) in members.iter() {
                fields.note(name.as_str(), value);
            }
        }
        fields
    }

    fn note(&mut self, name: &str, value: &'a Value)
        ensures { seen self.new ≡ field_noted name.now (view value.now) (seen self.old) }
    {
        // The names that most entries have stand first, since they are compared in turn.
        match name {
            "round" => self.round = Some(value),
            "action" => self.action = Some(value),
            "value" => self.value = Some(value),
            "goal" => self.goal = Some(value),
            "topic" => self.topic = Some(value),
            "cancel" => self.cancel = Some(value),
            "stamp" => self.stamp = Some(value),
            _ => {}
        }
    }
}
