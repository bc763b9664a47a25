//! The rule of a queue of outcomes, and its steps.
use crossbeam_queue::protocol::{self, Join, Lesson, Protocol, Split};
use crossbeam_queue::{Pass, RuledArrayQueue};
use exec_lane::Outcome;
use std::marker::Model;

/// What the caller with a pass knows. No value of it is made.
pub struct QueueView;

impl Model for QueueView {
    ghost use Rattle.exec_stream.specs.Outcomes.{Hand, spent_hand};

    ghost Value = { Hand };

    ghost view = { λ _. spent_hand };
}

/// The rule: what all passes put is what all took and what the queue holds, each outcome as often.
pub struct Balance;

impl Protocol<Outcome, QueueView> for Balance {
    ghost use Rattle.exec_stream.specs.Outcomes.{Balanced, first_hand};

    ghost holds = { Balanced };

    ghost first = { first_hand };
}

/// An outcome is put.
pub struct Putting;

impl protocol::Outcome<Outcome, QueueView> for Putting {
    ghost use Rattle.std.specs.Prelude.{◌≡◌};
    ghost use Rattle.exec_stream.specs.Outcomes.{having_put};

    ghost then = { λ hand outcome after. after ≡ having_put outcome hand };
}

impl Lesson<Outcome, QueueView> for Putting {
    ghost use Rattle.exec_stream.specs.Outcomes.{WasHeld};

    ghost fact = { WasHeld };
}

/// An outcome is taken.
pub struct Taking;

impl protocol::Outcome<Outcome, QueueView> for Taking {
    ghost use Rattle.std.specs.Prelude.{◌≡◌};
    ghost use Rattle.exec_stream.specs.Outcomes.{having_taken};

    ghost then = { λ hand outcome after. after ≡ having_taken outcome hand };
}

impl Lesson<Outcome, QueueView> for Taking {
    ghost use Rattle.exec_stream.specs.Outcomes.{WasHeld};

    ghost fact = { WasHeld };
}

/// A pass is split.
pub struct QueueSplit;

impl Split<QueueView> for QueueSplit {
    ghost use Rattle.exec_stream.specs.Outcomes.{kept_hand, new_hand};

    ghost left = { kept_hand };

    ghost right = { new_hand };
}

/// Two passes are joined.
pub struct QueueJoin;

impl Join<QueueView> for QueueJoin {
    ghost use Rattle.exec_stream.specs.Outcomes.{joined_hands, spent_hand};

    ghost both = { joined_hands };

    ghost spent = { spent_hand };
}

/// Outcomes that wait to be collected: a bounded queue that threads share.
pub type OutcomeQueue = RuledArrayQueue<Outcome, QueueView, Balance>;

/// What one caller knows of such a queue. It has no bytes.
pub type OutcomePass = Pass<Outcome, QueueView>;
