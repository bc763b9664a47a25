//! The numbers of arrivals.
ghost use Rattle.std.specs.Prelude.{◌≡◌, OnOk};
ghost use Rattle.exec_rules.specs.Sorting.{sorted_by};
ghost use Rattle.exec_world.specs.inner.Arrivals.{with_arrived};

use exec_msg::Memory;

// The number of an arrival, and the place of the callback that it made ready, from 0.
#[derive(Clone, Copy)]
pub(crate) struct Arrived {
    pub(crate) number: u64,
    pub(crate) place: usize,
}

// Notes the number of the next callback's arrival.
#[inline(always)]
pub(crate) fn note_arrival(arrivals: &mut Vec<Arrived>, number: u64) -> Result<(), Memory>
    ensures { OnOk result (arrivals.new.items ≡ with_arrived arrivals.old.items number) }
{
    let place = arrivals.len();
    arrivals.push(Arrived { number, place })?;
    Ok(())
}

// Sorts arrivals by their numbers. Those of one number keep their order.
pub(crate) fn sort_arrivals(arrivals: &mut Vec<Arrived>) -> Result<(), Memory>
    ensures { OnOk result (arrivals.new.items ≡ sorted_by (λ one. one.number) arrivals.old.items) }
{
    arrivals.sort_by_key(|one| one.number)?;
    Ok(())
}
