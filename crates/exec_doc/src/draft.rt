use exec_graph::{FedOf, FeedOf, GraphBuilder, Order};
use exec_msg::GoalId;
use exec_script::WordText;
use std::marker::Model;

/// What is fed, to topics and action servers by their names. An identifier is `None` if its text is no identifier.
pub type FedDraft = FedOf<WordText, Option<GoalId>>;

/// An entry of a feed, as a document says it.
pub type EntryDraft = FeedOf<WordText, Option<GoalId>>;

/// What a document says. Its references are still names, and its scripts are still words.
#[derive(Drop)]
pub struct DocumentDraft {
    /// Its version.
    pub version: u64,
    /// The order in which ready callbacks are run.
    pub order: Order,
    /// What it declares.
    pub graph: GraphBuilder,
    /// The moment of each round, in ticks.
    pub moments: Vec<u64>,
    /// What is fed.
    pub feed: Vec<EntryDraft>,
}

impl Model for DocumentDraft {
    ghost use Rattle.exec_doc.specs.Draft.{DocumentDraft};

    ghost Value = { DocumentDraft };

    ghost view = { λ draft. record {
      version = draft.version;
      order = draft.order;
      graph = draft.graph;
      moments = draft.moments.items;
      feed = draft.feed.items;
    } };
}
