// The inputs and outputs of vertices.
ghost use Rattle.std.specs.Prelude.{◌≡◌, ◌<◌, ◌≤◌, length, position, IfSome};
ghost use Rattle.std.specs.List.{list_any};
ghost use Rattle.jet_plan.specs.Kinds.{is_fed};
ghost use Rattle.jet_plan.specs.Ends.{sinks, builds_into, streams_into, edges_from, may_have_inputs, may_have_outputs, has_wrong_inputs, has_wrong_outputs};

use crate::{Edge, Kind, Vertex};
use jet_items::Key;

/// Whether a vertex is a source with a file.
pub fn has_source(vertices: &[Vertex]) -> bool
    ensures { result ≡ list_any (λ v. is_fed v.kind) vertices.now }
{
    vertices.iter().any(|v| v.kind.is_fed())
}

/// How many sinks there are.
pub fn sink_count(vertices: &[Vertex]) -> usize
    ensures bound { result ≤ length vertices.now }
    ensures value { result ≡ sinks vertices.now }
{
    let mut count = 0;
    for vertex in vertices {
        if vertex.kind.is_sink() {
            count += 1;
        }
    }
    count
}

fn stream_inputs(edges: &[Edge], name: &Key) -> usize
    ensures { result ≡ streams_into edges.now name.now }
{
    edges.iter().filter(|e| e.to == *name && !e.build).count()
}

fn build_inputs(edges: &[Edge], name: &Key) -> usize
    ensures { result ≡ builds_into edges.now name.now }
{
    edges.iter().filter(|e| e.to == *name && e.build).count()
}

fn outputs(edges: &[Edge], name: &Key) -> usize
    ensures { result ≡ edges_from edges.now name.now }
{
    edges.iter().filter(|e| e.from == *name).count()
}

fn may_have_inputs(kind: &Kind, streams: usize, builds: usize) -> bool
    ensures { result ≡ may_have_inputs kind.now streams builds }
{
    match kind {
        Kind::Source { .. } | Kind::Side { .. } => streams == 0 && builds == 0,
        Kind::Join { .. } => streams > 0 && builds == 1,
        Kind::Combine => streams == 1 && builds == 0,
        _ => streams > 0 && builds == 0,
    }
}

fn may_have_outputs(kind: &Kind, count: usize) -> bool
    ensures { result ≡ may_have_outputs kind.now count }
{
    match kind {
        Kind::Sink => count == 0,
        Kind::Accumulate { .. } | Kind::Combine => count == 1,
        _ => count > 0,
    }
}

fn has_wrong_inputs(edges: &[Edge], vertex: &Vertex) -> bool
    ensures { result ≡ has_wrong_inputs edges.now vertex.now }
{
    !may_have_inputs(
        &vertex.kind,
        stream_inputs(edges, &vertex.name),
        build_inputs(edges, &vertex.name),
    )
}

fn has_wrong_outputs(edges: &[Edge], vertex: &Vertex) -> bool
    ensures { result ≡ has_wrong_outputs edges.now vertex.now }
{
    !may_have_outputs(&vertex.kind, outputs(edges, &vertex.name))
}

/// The number of the first vertex whose inputs are wrong.
pub fn first_wrong_inputs(vertices: &[Vertex], edges: &[Edge]) -> Option<usize>
    ensures bound { IfSome result (λ i. i < length vertices.now) }
    ensures value { result ≡ position (has_wrong_inputs edges.now) vertices.now }
{
    vertices.iter().position(|v| has_wrong_inputs(edges, v))
}

/// The number of the first vertex whose outputs are wrong.
pub fn first_wrong_outputs(vertices: &[Vertex], edges: &[Edge]) -> Option<usize>
    ensures bound { IfSome result (λ i. i < length vertices.now) }
    ensures value { result ≡ position (has_wrong_outputs edges.now) vertices.now }
{
    vertices.iter().position(|v| has_wrong_outputs(edges, v))
}
