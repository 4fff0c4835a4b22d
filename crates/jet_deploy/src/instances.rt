// The tasklets of the instances of vertices, over the rings that are there for them.
ghost use Rattle.std.specs.Prelude.{◌≡◌, ◌+◌, ◌≤◌, ◌<◌, ◌^◌, true, false, [], Some, map, length, slice_get, IfOk, OnOk};
ghost use Rattle.jet_boxes.specs.declared.port.Port.TheVariants.{Stream};
ghost use Rattle.jet_layout.specs.Ports.{joints_out};
ghost use Rattle.jet_plan.specs.declared.vertex.Vertex.{Vertex as VertexValue};
ghost use Rattle.jet_plan.specs.Kinds.{reads_files, is_sink};
ghost use Rattle.jet_tasklet.specs.Any.{AnyKeeps};
ghost use Rattle.jet_tasklet.specs.Inputs.{inputs_view, queue_count};
ghost use Rattle.jet_deploy.specs.Making.{vertex_ports, leads_from, CanRun, IsInstance, Remains};
ghost use Rattle.jet_deploy.specs.Grounds.{ground_of, IsSound};

use crate::{inputs, outputs, tasklet_of};
use jet_boxes::Port;
use jet_harness::Harness;
use jet_items::{Key, NoMemory};
use jet_layout::{Instance, Joint, Layout};
use jet_plan::{Dag, Edge, Kind, Plan, Vertex};
use jet_tasklet::{AnyTasklet, Input};
use std::alloc::Global;

// Whether a vertex reads files.
fn reads_files(kind: &Kind) -> bool
    ensures { result ≡ reads_files kind.now }
{
    matches!(kind, Kind::Source { .. } | Kind::Side { .. })
}

// The ports of the inputs of a vertex.
fn vertex_ports(alloc: Global, dag: &Dag, vertex: &Vertex) -> Result<Vec<Port>, NoMemory>
    ensures { IfOk result (λ ports. ports.items ≡ vertex_ports dag.now vertex.now) }
{
    let mut ports = Vec::new(alloc);
    if reads_files(&vertex.kind) {
        ports.push(Port::Stream)?;
        return Ok(ports);
    }
    for edge in dag.edges.items() {
        if edge.to == vertex.name {
            ports.push(if edge.build {
                Port::Build
            } else {
                Port::Stream
            })?;
        }
    }
    Ok(ports)
}

// Whether the edge of a joint leads from the vertex of this name.
fn leads_from(edges: &[Edge], joint: &Joint, name: &Key) -> bool
    ensures { result ≡ leads_from edges.now name.now joint.now }
{
    match edges.get(joint.edge as usize) {
        Some(edge) => edge.from == *name,
        None => false,
    }
}

// The edges out of the vertex of this name.
fn joints_out(
    alloc: Global,
    dag: &Dag,
    joints: &[Joint],
    name: &Key,
) -> Result<Vec<Joint>, NoMemory>
    ensures { IfOk result (λ js. js.items ≡ joints_out dag.now joints.now name.now) }
{
    let mut out = Vec::new(alloc);
    for joint in joints {
        if leads_from(dag.edges.items(), joint, name) {
            out.push(*joint)?;
        }
    }
    Ok(out)
}

// How many queues lead to the stream.
fn stream_queues(inputs: &[Input]) -> u32
    requires { queue_count Stream (inputs_view inputs.now) < 2 ^ 32 }
    ensures { result ≡ queue_count Stream (inputs_view inputs.now) }
{
    let mut count = 0;
    for input in inputs {
        if matches!(input.port, Port::Stream) {
            count += input.conveyor.queues();
        }
    }
    count
}

/// What tasklets are made of: the plan, its edges by the instances at their ends, the number of its members, and the unit of
/// its watermarks.
#[derive(Clone, Copy)]
pub struct Ground<'p> {
    pub plan: &'p Plan,
    pub joints: &'p [Joint],
    pub members: u32,
    pub grain: i64,
}

/// The tasklet of this number, which runs an instance of a vertex. Its ends are taken out of the harness. It fails only for
/// want of memory.
pub fn instance_tasklet(
    alloc: Global,
    ground: Ground<'_>,
    harness: &mut Harness,
    task: usize,
    instance: Instance,
) -> Result<AnyTasklet, NoMemory>
    requires ground { IsSound ground }
    requires can { CanRun (ground_of ground) harness.old task instance }
    ensures made { IfOk result (λ t. IsInstance (ground_of ground.entry) harness.old task instance t) }
    ensures keeps { IfOk result (λ t. AnyKeeps t [] []) }
    ensures leaves { OnOk result (Remains (task + 1) harness.old harness.new) }
{
    let Ground {
        plan,
        joints,
        members,
        grain,
    } = ground;
    let dag = plan.dag();
    let vertex = &dag.vertices.items()[instance.vertex as usize];
    let ports = vertex_ports(alloc, dag, vertex)?;
    let joints = joints_out(alloc, dag, joints, &vertex.name)?;
    let inputs = inputs(alloc, harness, task, &ports)?;
    let outputs = outputs(alloc, harness, &joints, members, instance.member, task)?;
    let queues = stream_queues(&inputs);
    let number = instance.vertex as u8;
    tasklet_of(alloc, plan, grain, number, vertex, queues, inputs, outputs)
}
