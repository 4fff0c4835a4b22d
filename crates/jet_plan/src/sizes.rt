// Whether a job has too much of something.
ghost use Rattle.std.specs.Prelude.{◌≡◌, not};
ghost use Rattle.std.specs.List.{list_any};
ghost use Rattle.jet_plan.specs.Sizes.{is_from_1_to_8, has_wrong_legs, files, too_many};
ghost use Rattle.jet_plan.specs.Tables.{cap};

use crate::{Dag, Edge, Kind, Many, Vertex};

/// The first that there is too much of.
pub fn too_many(dag: &Dag) -> Option<Many>
    ensures { result ≡ too_many dag.now }
{
    let vertices = dag.vertices.items();
    let edges = dag.edges.items();
    if vertices.len() > 32 {
        Some(Many::Vertices)
    } else if edges.len() > 64 {
        Some(Many::Edges)
    } else if files(vertices) > 256 {
        Some(Many::Files)
    } else if has_wrong_parallelism(vertices) {
        Some(Many::Instances)
    } else if has_wrong_legs(vertices) {
        Some(Many::Legs)
    } else {
        None
    }
}

/// The files of all vertices, or the greatest number where there are more.
pub fn files(vertices: &[Vertex]) -> u64
    ensures { result ≡ cap (files vertices.now) }
{
    let mut files = 0u64;
    for vertex in vertices {
        files = files.saturating_add(vertex.kind.file_count() as u64);
    }
    files
}

fn is_from_1_to_8(count: usize) -> bool
    ensures { result ≡ is_from_1_to_8 count }
{
    1 <= count && count <= 8
}

fn has_wrong_parallelism(vertices: &[Vertex]) -> bool
    ensures { result ≡ list_any (λ v. not (is_from_1_to_8 v.parallelism)) vertices.now }
{
    vertices
        .iter()
        .any(|v| !is_from_1_to_8(usize::from(v.parallelism)))
}

fn is_without_legs(kind: &Kind) -> bool
    ensures { result ≡ has_wrong_legs kind.now }
{
    match kind {
        Kind::Flat { legs } => !is_from_1_to_8(legs.items().len()),
        _ => false,
    }
}

fn has_wrong_legs(vertices: &[Vertex]) -> bool
    ensures { result ≡ list_any (λ v. has_wrong_legs v.kind) vertices.now }
{
    vertices.iter().any(|v| is_without_legs(&v.kind))
}
