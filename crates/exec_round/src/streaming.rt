//! How lanes are run by workers that last, which send on what callbacks did.
ghost use Rattle.std.specs.Prelude.{◌≡◌, ◌+◌, ◌<◌, ◌≤◌, [], length, IfOk, IsOk, IsPermutation};
ghost use Rattle.std.specs.List.{flat_map};
ghost use Rattle.exec_lane.specs.Gather.{outcomes_in};
ghost use Rattle.exec_lane.specs.Lane.{AreFinished};
ghost use Rattle.exec_stream.specs.Streams.{AreUnrun};

use crate::sharing::Sharing;
use exec_lane::{Gate, LaneBox};
use exec_msg::Memory;
use exec_pool::Pool;
use exec_stream::{Sent, StreamedRound};
use std::sync::{Arc, Wait};

// Runs all callbacks of lanes by the calling thread and workers of a pool, this many in all. They claim lanes on a board, and put
// what each callback did into a queue, from which the calling thread takes it. Gives the lanes, and what their callbacks did.
pub(crate) fn stream_lanes<R: Wait, G: Gate>(
    rt: &R,
    lanes: Vec<LaneBox>,
    passes: usize,
    pool: &mut Pool,
    sharing: &Sharing<'_, G>,
) -> Result<(Vec<LaneBox>, Sent), Memory>
    requires passes { (0 < passes) × (passes ≤ length pool.old.callers.items + 1) }
    requires unrun { AreUnrun lanes.items }
    ensures finished { IfOk result (λ ran. AreFinished lanes.items ran.0.items) }
    ensures sent { IfOk result (λ ran. IsPermutation (flat_map outcomes_in ran.0.items) ran.1) }
    ensures none { lanes.items ≡ [] → IsOk result }
    ensures same { length pool.new.callers.items ≡ length pool.old.callers.items }
{
    let (alloc, gate) = (sharing.alloc, sharing.gate);
    if lanes.is_empty() {
        return Ok((lanes, Sent::of(Vec::new(alloc), Vec::new(alloc))));
    }
    let (stream, runner, mut collector) = StreamedRound::open(
        alloc,
        lanes,
        passes,
        sharing.quantum,
    )?;
    let stream = Arc::new(alloc, stream)?;
    let mut runner = pool.run(rt, alloc, &stream, runner, &mut collector, gate)?;
    // What is left if a worker hadn't begun.
    runner.work(rt, &stream, gate)?;
    StreamedRound::close(rt, alloc, stream, runner, collector, gate)
}
