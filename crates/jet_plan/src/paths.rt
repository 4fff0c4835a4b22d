// Which vertices an edge may join.
ghost use Rattle.std.specs.Prelude.{◌≡◌, ◌<◌, not, length, position, IfSome, if◌then◌else◌};
ghost use Rattle.jet_plan.specs.Paths.{leaves_window_path, mixes_sides};

use crate::names::is_at;
use crate::role::Role;
use crate::{Dag, Edge, Vertex};

fn leaves_window_path(dag: &Dag, edge: &Edge) -> bool
    ensures { result ≡ leaves_window_path dag.now edge.now }
{
    (is_at(dag, &edge.to, Role::Sink) && !is_at(dag, &edge.from, Role::Combine))
        || (is_at(dag, &edge.from, Role::Accumulate) && !is_at(dag, &edge.to, Role::Combine))
        || (is_at(dag, &edge.to, Role::Combine) && !is_at(dag, &edge.from, Role::Accumulate))
        || (is_at(dag, &edge.from, Role::Combine) && !is_at(dag, &edge.to, Role::Sink))
}

/// The number of the first edge that leaves the path of a window.
pub fn first_window_path(dag: &Dag, edges: &[Edge]) -> Option<usize>
    ensures bound { IfSome result (λ i. i < length edges.now) }
    ensures value { result ≡ position (leaves_window_path dag.now) edges.now }
{
    edges.iter().position(|e| leaves_window_path(dag, e))
}

fn is_mixed(is_side: bool, build: bool) -> bool
    ensures { result ≡ not (if is_side then build else not build) }
{
    is_side != build
}

fn mixes_sides(edges: &[Edge], vertex: &Vertex) -> bool
    ensures { result ≡ mixes_sides edges.now vertex.now }
{
    edges.iter().any(|e| e.from == vertex.name && is_mixed(vertex.kind.is_side(), e.build))
}

/// The number of the first side vertex with a stream output, or other vertex with a build output.
pub fn first_side_mixed(vertices: &[Vertex], edges: &[Edge]) -> Option<usize>
    ensures bound { IfSome result (λ i. i < length vertices.now) }
    ensures value { result ≡ position (mixes_sides edges.now) vertices.now }
{
    vertices.iter().position(|v| mixes_sides(edges, v))
}
