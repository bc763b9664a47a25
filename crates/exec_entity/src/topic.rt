use crate::by_number::{ByNumber, Numbered};
use exec_msg::EntityNo;
use std::marker::Model;

/// A topic with its subscriptions, in the order of declaration.
#[derive(Drop)]
pub struct Topic {
    /// The topic's number.
    pub entity: EntityNo,
    /// The numbers of its subscriptions.
    pub subscribers: Vec<EntityNo>,
}

impl Model for Topic {
    ghost use Rattle.exec_rules.specs.World.{TopicEntry};

    ghost Value = { TopicEntry };

    ghost view = { λ topic. record { entity = topic.entity; subscribers = topic.subscribers.items } };
}

impl Numbered for Topic {
    ghost number_of = { λ topic. topic.entity };

    fn number(&self) -> EntityNo {
        self.entity
    }
}

impl Topic {
    ghost use Rattle.std.specs.Prelude.{◌≡◌};

    /// Its subscriptions, in the order of declaration.
    pub fn subscribers(&self) -> &[EntityNo]
        ensures { result.now ≡ self.now.subscribers }
    {
        self.subscribers.as_slice()
    }
}

/// The topics of a graph.
pub type Topics = ByNumber<Topic>;
