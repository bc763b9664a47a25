//! The rule of the table between a caller and its worker, and its steps.
use crate::job::Job;
use atomic_table::{Play, Seat, Split, Table, TableRule};
use std::alloc::Global;
use std::marker::Model;

/// What a seat knows. No value of it is made.
pub struct PairView;

impl Model for PairView {
    ghost use Rattle.exec_pool.specs.Pair.{View, opener};

    ghost Value = { View };

    ghost view = { λ _. opener };
}

/// The caller has the slot.
pub const IDLE: u64 = 0;

/// A job is in the slot.
pub const POSTED: u64 = 1;

/// The worker has the slot, and runs the job.
pub const TAKEN: u64 = 2;

/// A job that ran is in the slot.
pub const RAN: u64 = 3;

/// The caller has the slot, and posts no more.
pub const CLOSED: u64 = 4;

/// The table is new, and has no worker.
pub const OPENED: u64 = 5;

/// The rule: the word says where the job is.
pub struct Handing;

impl TableRule<Option<Job>, PairView, ()> for Handing {
    ghost use Rattle.exec_pool.specs.Pair.{PairRule, opener};

    ghost holds = { λ _. PairRule };

    ghost first = { λ _. opener };
}

/// The caller takes the slot of a new table.
pub struct Begin;

impl Play<Option<Job>, PairView> for Begin {
    ghost use Rattle.exec_pool.specs.Plays.{begun_so};

    ghost then = { begun_so };
}

/// The worker gets a seat.
pub struct Hire;

impl Split<PairView> for Hire {
    ghost use Rattle.exec_pool.specs.Pair.{caller, worker};
    ghost use Rattle.std.specs.Prelude.{None};

    ghost left = { λ _. caller None };

    ghost right = { λ _. worker None };
}

/// The caller posts the job in the slot.
pub struct Post;

impl Play<Option<Job>, PairView> for Post {
    ghost use Rattle.exec_pool.specs.Plays.{posted_so};

    ghost then = { posted_so };
}

/// The worker takes the slot if a job is in it.
pub struct Take;

impl Play<Option<Job>, PairView> for Take {
    ghost use Rattle.exec_pool.specs.Plays.{taken_so};

    ghost then = { taken_so };
}

/// The worker gives the slot back with the job that ran.
pub struct Answer;

impl Play<Option<Job>, PairView> for Answer {
    ghost use Rattle.exec_pool.specs.Plays.{answered_so};

    ghost then = { answered_so };
}

/// The caller takes the slot if the job in it ran.
pub struct Collect;

impl Play<Option<Job>, PairView> for Collect {
    ghost use Rattle.exec_pool.specs.Plays.{collected_so};

    ghost then = { collected_so };
}

/// The caller takes the slot if no worker has taken the job.
pub struct TakeBack;

impl Play<Option<Job>, PairView> for TakeBack {
    ghost use Rattle.exec_pool.specs.Plays.{taken_back_so};

    ghost then = { taken_back_so };
}

/// The caller says that it posts no more.
pub struct Close;

impl Play<Option<Job>, PairView> for Close {
    ghost use Rattle.exec_pool.specs.Plays.{closed_so};

    ghost then = { closed_so };
}

pub type PairTable = Table<Option<Job>, PairView, (), Handing, Global>;

pub type PairSeat = Seat<Option<Job>, PairView>;
