// The edges of a job by the instances at their ends.
ghost use Rattle.std.specs.Prelude.{◌≡◌, ◌≤◌, ◌<◌, ◌++◌, ◌∷◌, [], OnOk, IfSome, length, position};
ghost use Rattle.std.specs.Option.{option_map_or};
ghost use Rattle.jet_plan.specs.Names.{has_name};
ghost use Rattle.jet_layout.specs.Joints.{numbered, output_number, input_number, joint, joint_of, joints_from};

use crate::{EdgeEnd, Joint};
use jet_items::{Key, List, NoMemory};
use jet_plan::{Edge, Vertex};

// An end as the output or input of this number.
fn numbered(end: EdgeEnd, number: u32) -> EdgeEnd
    ensures { result ≡ numbered end number }
{
    EdgeEnd {
        first: end.first,
        parallelism: end.parallelism,
        single: end.single,
        sink: end.sink,
        number,
    }
}

// Which output of its giver the edge is.
fn output_number(edges: &[Edge], number: usize, edge: &Edge) -> u32
    requires { length edges.now ≤ 64 }
    ensures { result ≡ output_number edges.now number edge.now }
{
    edges
        .iter()
        .take(number)
        .filter(|e| e.from == edge.from)
        .count() as u32
}

// Which input of its taker the edge is.
fn input_number(edges: &[Edge], number: usize, edge: &Edge) -> u32
    requires { length edges.now ≤ 64 }
    ensures { result ≡ input_number edges.now number edge.now }
{
    edges
        .iter()
        .take(number)
        .filter(|e| e.to == edge.to)
        .count() as u32
}

// The number of the vertex of this name.
fn number_of(vertices: &[Vertex], name: &Key) -> Option<usize>
    ensures value { result ≡ position (has_name name.now) vertices.now }
    ensures bound { IfSome result (λ v. v < length vertices.now) }
{
    vertices.iter().position(|v| v.name == *name)
}

// An edge by the instances at its ends.
fn joint_of(
    vertices: &[Vertex],
    edges: &[Edge],
    ends: &[EdgeEnd],
    number: usize,
    edge: &Edge,
) -> Option<Joint>
    requires edges { (length edges.now ≤ 64) × (number < 64) }
    requires ends { length ends.now ≡ length vertices.now }
    ensures { result ≡ joint_of vertices.now edges.now ends.now number edge.now }
{
    let from = number_of(vertices, &edge.from)?;
    let to = number_of(vertices, &edge.to)?;
    Some(Joint {
        edge: number as u32,
        from: numbered(ends[from], output_number(edges, number, edge)),
        to: numbered(ends[to], input_number(edges, number, edge)),
        route: edge.route,
        distributed: edge.distributed,
    })
}

/// The edges of a job by the instances at their ends.
pub fn add_joints(
    joints: &mut List<Joint>,
    vertices: &[Vertex],
    edges: &[Edge],
    ends: &[EdgeEnd],
) -> Result<(), NoMemory>
    requires edges { length edges.now ≤ 64 }
    requires ends { length ends.now ≡ length vertices.now }
    requires empty { joints.old ≡ [] }
    ensures { OnOk result (joints.new ≡ joints_from vertices.now edges.now ends.now 0 edges.now) }
{
    for (number, edge) in edges.iter().enumerate() {
        if let Some(joint) = joint_of(vertices, edges, ends, number, edge) {
            joints.push(joint)?;
        }
    }
    Ok(())
}
