// The tasklets that run the instances of vertices.
ghost use Rattle.std.specs.Prelude.{◌≡◌, ◌<◌, ◌^◌, true, false, [], map, length, Some, slice_get, IfOk};
ghost use Rattle.jet_boxes.specs.declared.port.Port.{Port};
ghost use Rattle.jet_boxes.specs.declared.port.Port.TheVariants.{Stream, Build};
ghost use Rattle.jet_items.specs.Order.{Each};
ghost use Rattle.jet_plan.specs.Kinds.{is_sink, reads_files};
ghost use Rattle.jet_router.specs.Router.{view};
ghost use Rattle.jet_run.specs.Flows.{IsFor};
ghost use Rattle.jet_tasklet.specs.Any.{AnyKeeps};
ghost use Rattle.jet_tasklet.specs.Inputs.{inputs_view, queue_count};
ghost use Rattle.jet_tasklet.specs.Keeps.{IsUnread, IsUnsent};
ghost use Rattle.jet_tasklet.specs.Outputs.{HasDest, ready};
ghost use Rattle.jet_tasklet.specs.Views.{ins, outs};
ghost use Rattle.jet_deploy.specs.Instances.{HasMore};
ghost use Rattle.jet_deploy.specs.Ranges.{IsUnit};

use crate::processor::{combine, filter, flat, frame, join, map};
use crate::valid_vertices_keep_their_ranges;
use jet_items::NoMemory;
use jet_plan::{Kind, Plan, Vertex};
use jet_router::Router;
use jet_stages::Stamp;
use jet_tasklet::{AnyTasklet, Input, Tasklet};
use std::alloc::Global;

// How many items an outbox has room for.
const ROOM: u32 = 64;

/// A tasklet that runs an instance of the vertex of this number, over these inputs and outputs. `grain` is the unit of the
/// job's watermarks, and `queues` the number of the queues of the stream.
pub fn tasklet_of(
    alloc: Global,
    plan: &Plan,
    grain: i64,
    number: u8,
    vertex: &Vertex,
    queues: u32,
    inputs: Vec<Input>,
    outputs: Vec<Router>,
) -> Result<AnyTasklet, NoMemory>
    requires there { slice_get plan.now.dag.vertices number ≡ Some vertex.now }
    requires no_sink { is_sink vertex.now.kind ≡ false }
    requires grain { IsUnit grain }
    requires queues { queue_count Stream (inputs_view inputs.items) ≡ queues }
    requires few { (port : Port) → queue_count port (inputs_view inputs.items) < 2 ^ 32 }
    requires files { reads_files vertex.now.kind ≡ true → queue_count Build (inputs_view inputs.items) ≡ 0 }
    requires some { 0 < length outputs.items }
    requires dests { Each HasDest (map view outputs.items) }
    requires unread { Each IsUnread (inputs_view inputs.items) }
    requires unsent { Each IsUnsent (map view outputs.items) }
    ensures keeps { IfOk result (λ t. AnyKeeps t [] []) }
    ensures kind { IfOk result (λ t. IsFor vertex.now.kind t) }
    ensures more { IfOk result (λ t. HasMore plan.now.dag grain number vertex.now vertex.now.kind t) }
    ensures ins { IfOk result (λ t. ins t ≡ inputs_view inputs.items) }
    ensures outs { IfOk result (λ t. outs t ≡ map ready (map view outputs.items)) }
{
    valid_vertices_keep_their_ranges(plan.dag(), plan.settings());
    match &vertex.kind {
        Kind::Source { lag, .. } => {
            let stamp = Stamp::new(alloc, queues, *lag, grain)?;
            let tasklet = Tasklet::new(alloc, stamp, inputs, outputs, ROOM)?;
            Ok(AnyTasklet::Stamp(tasklet))
        }
        Kind::Side { .. } => {
            let stamp = Stamp::new(alloc, queues, 0, grain)?;
            let tasklet = Tasklet::new(alloc, stamp, inputs, outputs, ROOM)?;
            Ok(AnyTasklet::Stamp(tasklet))
        }
        Kind::Map { set } => {
            let tasklet = Tasklet::new(alloc, map(alloc, set)?, inputs, outputs, ROOM)?;
            Ok(AnyTasklet::Map(tasklet))
        }
        Kind::Filter { test } => {
            let tasklet = Tasklet::new(alloc, filter(alloc, test)?, inputs, outputs, ROOM)?;
            Ok(AnyTasklet::Filter(tasklet))
        }
        Kind::Flat { legs } => {
            let flat = flat(alloc, legs.items())?;
            let tasklet = Tasklet::new(alloc, flat, inputs, outputs, ROOM)?;
            Ok(AnyTasklet::Flat(tasklet))
        }
        Kind::Join {
            mode,
            rekey,
            fields,
        } => {
            let join = join(alloc, *mode, *rekey, fields);
            let tasklet = Tasklet::new(alloc, join, inputs, outputs, ROOM)?;
            Ok(AnyTasklet::Join(tasklet))
        }
        Kind::Accumulate { .. } => {
            let frame = frame(alloc, plan, vertex);
            let tasklet = Tasklet::new(alloc, frame, inputs, outputs, ROOM)?;
            Ok(AnyTasklet::Frame(tasklet))
        }
        Kind::Combine => {
            let combine = combine(alloc, plan, number, vertex);
            let tasklet = Tasklet::new(alloc, combine, inputs, outputs, ROOM)?;
            Ok(AnyTasklet::Combine(tasklet))
        }
        Kind::Sink => unreachable!(),
    }
}
