//! A gate that counts what is reported to it.
use exec_lane::Gate;
use exec_msg::Memory;
use std::alloc::Global;
use std::sync::atomic::AtomicU64;
use std::sync::atomic::Ordering::SeqCst;

/// Watches one round, and counts how often each of its positions is reported.
#[derive(Drop)]
pub struct Counting {
    // How often a worker came to each position, and how often its outcome came to the collector. The first position is 1.
    passed: Vec<AtomicU64>,
    took: Vec<AtomicU64>,
    // How often another position was reported to it.
    others: AtomicU64,
}

impl Counting {
    /// A gate for a round of this many callbacks.
    ///
    /// # Errors
    /// [`Memory`] if a growth was refused.
    pub fn new(alloc: Global, callbacks: usize) -> Result<Counting, Memory> {
        Ok(Counting {
            passed: zeros(alloc, callbacks)?,
            took: zeros(alloc, callbacks)?,
            others: AtomicU64::new(0),
        })
    }

    /// Whether each callback that ran was reported once, and no other position.
    pub fn was_passed(&self) -> bool {
        self.others.load(SeqCst) == 0 && self.passed.iter().all(|count| count.load(SeqCst) == 1)
    }

    /// How many outcomes came to the collector, if none of them came twice.
    pub fn taken(&self) -> Option<usize> {
        let mut taken = 0usize;
        for count in self.took.as_slice() {
            match count.load(SeqCst) {
                0 => {}
                1 => taken = taken.saturating_add(1),
                _ => return None,
            }
        }
        Some(taken)
    }

    // Counts one more of a position.
    fn count(&self, counts: &[AtomicU64], position: usize) {
        let count = match position {
            0 => None,
            _ => counts.get(position - 1),
        };
        count.unwrap_or(&self.others).fetch_add(1, SeqCst);
    }
}

impl Gate for Counting {
    fn pass(&self, position: usize) {
        self.count(self.passed.as_slice(), position);
    }

    fn took(&self, position: usize) {
        self.count(self.took.as_slice(), position);
    }
}

fn zeros(alloc: Global, count: usize) -> Result<Vec<AtomicU64>, Memory> {
    let mut zeros = Vec::new(alloc);
    for _ in 0..count {
        zeros.push(AtomicU64::new(0))?;
    }
    Ok(zeros)
}
