// Tasklets that stand in for others while the ends of these meet.

use jet_items::NoMemory;
use jet_ring::ring;
use jet_router::Router;
use jet_stages::MapP;
use jet_tasklet::{AnyTasklet, Tasklet};
use std::alloc::Global;

/// A tasklet without inputs, whose one output leads nowhere. It fails only for want of memory.
pub(crate) fn spare(alloc: Global) -> Result<AnyTasklet, NoMemory> {
    let (tx, _) = ring(alloc, 2)?;
    let mut outputs = Vec::new(alloc);
    outputs.push(Router::isolated(alloc, tx)?)?;
    let processor = MapP::new([None, None, None, None]);
    let tasklet = Tasklet::new(alloc, processor, Vec::new(alloc), outputs, 1)?;
    Ok(AnyTasklet::Map(tasklet))
}
