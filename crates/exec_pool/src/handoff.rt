//! A caller and its worker.
ghost use Rattle.std.specs.Prelude.{◌≡◌, None, Some, IfNone, IfOk, IfSome};
ghost use Rattle.exec_pool.specs.Pair.{CameBack, IsOut, found_out};
ghost use Rattle.exec_pool.specs.Job.{MayRun};
ghost use Rattle.exec_pool.specs.declared.handoff.Found.TheVariants as found;

use crate::job::Job;
use crate::rule::{
    Answer, Begin, CLOSED, Close, Collect, Hire, IDLE, OPENED, POSTED, PairSeat, PairTable, Post,
    RAN, TAKEN, Take, TakeBack,
};
use exec_lane::Gate;
use exec_msg::Memory;
use std::alloc::Global;
use std::hint::spin_loop;
use std::marker::Model;
use std::sync::{Arc, Wait};
use std::thread::yield_now;

// How often a thread looks before it yields its processor at each look, and how often before it sleeps.
const YIELDS: u32 = 4_096;

const SLEEPS: u32 = 8_192;

/// Who posts jobs to a worker and gets them back, one at a time.
#[derive(Drop)]
pub(crate) struct Caller {
    table: Arc<PairTable>,
    seat: PairSeat,
}

impl Model for Caller {
    ghost use Rattle.std.specs.Arc.{arc_value};
    ghost use Rattle.std.specs.Prelude.{Option};
    ghost use Rattle.exec_pool.specs.Pair.{IsCaller, job_of};
    ghost use Rattle.exec_pool.specs.declared.job.Job.{Job};

    ghost Value = { Option Job };

    ghost view = { λ caller. job_of caller.seat.me.0 };

    ghost invariant = { λ caller. IsCaller (arc_value caller.table).shared.table_id caller.seat.table_id caller.seat.me };
}

/// Who takes the jobs of a caller and answers them.
#[derive(Drop)]
pub struct Worker {
    table: Arc<PairTable>,
    seat: PairSeat,
}

impl Model for Worker {
    ghost use Rattle.std.specs.Arc.{arc_value};
    ghost use Rattle.std.specs.Prelude.{Option};
    ghost use Rattle.exec_pool.specs.Pair.{IsWorker, job_of};
    ghost use Rattle.exec_pool.specs.declared.job.Job.{Job};

    ghost Value = { Option Job };

    ghost view = { λ worker. job_of worker.seat.me.0 };

    ghost invariant = { λ worker. IsWorker (arc_value worker.table).shared.table_id worker.seat.table_id worker.seat.me };
}

/// A caller and a worker. No job is out.
///
/// # Errors
/// [`Memory`] if a growth was refused.
pub(crate) fn pair(alloc: Global) -> Result<(Caller, Worker), Memory>
    ensures { IfOk result (λ both. (both.0 ≡ None) × (both.1 ≡ None)) }
{
    let mut slots = Vec::with_capacity(alloc, 1)?;
    slots.push_reserved(None);
    let Ok((table, mut seat)) = PairTable::new(alloc, &[OPENED], slots, &()) else {
        return Err(Memory);
    };
    table.shared.swap::<Begin>(&mut seat, 0, IDLE);
    let other = table.shared.split_seat::<Hire>(&mut seat);
    let table = Arc::new(alloc, table)?;
    let worker = Worker {
        table: table.clone()?,
        seat: other,
    };
    Ok((Caller { table, seat }, worker))
}

impl Caller {
    /// Posts a job, and wakes the worker if it sleeps.
    pub fn post(&mut self, job: Job)
        requires idle { self.old ≡ None }
        requires may { MayRun job }
        ensures { self.new ≡ Some job }
    {
        self.table.shared.exchange(&mut self.seat, 0, Some(job));
        self.table.shared.store::<Post>(&mut self.seat, 0, POSTED);
        self.table.shared.wake_one(0);
    }

    // Takes back the job that is out as it was, if the worker hasn't taken it.
    fn take_back(&mut self) -> Option<Job>
        requires { IsOut self.old }
        ensures back { IfSome result (λ job. CameBack self.old job) }
        ensures home { IfSome result (λ _. self.new ≡ None) }
        ensures out { IfNone result (self.new ≡ self.old) }
    {
        let word = self
            .table
            .shared
            .compare_exchange::<TakeBack>(&mut self.seat, 0, POSTED, IDLE);
        if word != POSTED {
            return None;
        }
        self.table.shared.exchange(&mut self.seat, 0, None)
    }

    // Takes the job that is out if it ran.
    fn collect(&mut self) -> Option<Job>
        requires { IsOut self.old }
        ensures back { IfSome result (λ job. CameBack self.old job) }
        ensures home { IfSome result (λ _. self.new ≡ None) }
        ensures out { IfNone result (self.new ≡ self.old) }
    {
        if self.table.shared.peek(0) != RAN {
            return None;
        }
        let word = self
            .table
            .shared
            .compare_exchange::<Collect>(&mut self.seat, 0, RAN, IDLE);
        if word != RAN {
            return None;
        }
        self.table.shared.exchange(&mut self.seat, 0, None)
    }

    /// Gets back the job that is out: as it was if the worker hasn't begun, and otherwise when it ran.
    pub fn finish<R: Wait>(&mut self, rt: &R) -> Job
        requires { IsOut self.old }
        ensures back { CameBack self.old result }
        ensures home { self.new ≡ None }
    {
        if let Some(job) = self.take_back() {
            return job;
        }
        let mut looks = 0;
        for _ in rt.forever() {
            if let Some(job) = self.collect() {
                return job;
            }
            looks = pause(looks);
        }
        unreachable!()
    }

    /// Lets the worker end: no job will be posted.
    pub fn close(&mut self)
        requires { self.old ≡ None }
        ensures { self.new ≡ None }
    {
        self.table.shared.store::<Close>(&mut self.seat, 0, CLOSED);
        self.table.shared.wake_one(0);
    }
}

// What a worker found.
enum Found {
    Job(Job),
    Nothing,
    Closed,
}

impl Worker {
    /// Takes jobs, runs them and gives them back, until its caller posts no more.
    pub fn serve<R: Wait, G: Gate>(self, rt: &R, gate: &G)
        requires { self ≡ None }
    {
        let mut worker = self;
        let mut looks = 0;
        for _ in rt.forever() {
            match worker.take() {
                Found::Job(job) => {
                    worker.answer(job.run(rt, gate));
                    looks = 0;
                }
                Found::Nothing => looks = worker.rest(rt, looks),
                Found::Closed => return,
            }
        }
    }

    // Takes the job that is posted, if one is.
    fn take(&mut self) -> Found
        requires { self.old ≡ None }
        ensures found { self.new ≡ found_out result }
        ensures may { (job : _) → result ≡ found.Job job → MayRun job }
    {
        let seen = self.table.shared.peek(0);
        if seen == CLOSED {
            return Found::Closed;
        }
        if seen != POSTED {
            return Found::Nothing;
        }
        let word = self
            .table
            .shared
            .compare_exchange::<Take>(&mut self.seat, 0, POSTED, TAKEN);
        if word != POSTED {
            return Found::Nothing;
        }
        let Some(job) = self.table.shared.exchange(&mut self.seat, 0, None) else {
            unreachable!()
        };
        Found::Job(job)
    }

    // Gives back the job that it took, which ran.
    fn answer(&mut self, job: Job)
        requires { CameBack self.old job }
        ensures { self.new ≡ None }
    {
        self.table.shared.exchange(&mut self.seat, 0, Some(job));
        self.table.shared.store::<Answer>(&mut self.seat, 0, RAN);
    }

    // Waits a little, and longer the more often it looked. It sleeps only if the caller has the slot.
    fn rest<R: Wait>(&self, rt: &R, looks: u32) -> u32 {
        if looks < SLEEPS {
            return pause(looks);
        }
        self.table.shared.park(rt, 0, IDLE as u32);
        looks
    }
}

// Waits a little after so many looks, and counts one more.
fn pause(looks: u32) -> u32 {
    if looks < YIELDS {
        spin_loop();
    } else {
        yield_now();
    }
    looks.saturating_add(1)
}
