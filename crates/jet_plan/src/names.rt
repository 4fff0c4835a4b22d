// Vertices by their names.
ghost use Rattle.std.specs.Prelude.{◌≡◌, ◌<◌, ◌&&◌, length, position, IfSome, option_map, find};
ghost use Rattle.std.specs.List.{list_any};
ghost use Rattle.jet_plan.specs.Names.{has_name, is_double, first_double, has_unknown_end, end_is};
ghost use Rattle.jet_plan.specs.Roles.{has_role};

use crate::role::Role;
use crate::{Dag, Edge, Kind, Vertex};
use jet_items::Key;

/// The number of the vertex of this name.
pub fn number_of(vertices: &[Vertex], name: &Key) -> Option<usize>
    ensures { result ≡ position (has_name name.now) vertices.now }
{
    vertices.iter().position(|v| v.name == *name)
}

/// The vertex of this name.
pub fn vertex_named<'v>(vertices: &'v [Vertex], name: &Key) -> Option<&'v Vertex>
    ensures { option_map (λ v. v.now) result ≡ find (has_name name.now) vertices.now }
{
    vertices.iter().find(|v| v.name == *name)
}

// Whether an earlier vertex has the name.
fn is_double(vertices: &[Vertex], number: usize, vertex: &Vertex) -> bool
    ensures { result ≡ is_double vertices.now (number, vertex.now) }
{
    vertices.iter().take(number).any(|v| v.name == vertex.name)
}

/// The number of the first vertex with the name of an earlier one.
pub fn first_double(vertices: &[Vertex]) -> Option<usize>
    ensures bound { IfSome result (λ i. i < length vertices.now) }
    ensures value { result ≡ first_double vertices.now }
{
    vertices
        .iter()
        .enumerate()
        .position(|(i, v)| is_double(vertices, i, v))
}

fn is_named(vertices: &[Vertex], name: &Key) -> bool
    ensures { result ≡ list_any (has_name name.now) vertices.now }
{
    vertices.iter().any(|v| v.name == *name)
}

fn has_unknown_end(vertices: &[Vertex], edge: &Edge) -> bool
    ensures { result ≡ has_unknown_end vertices.now edge.now }
{
    !(is_named(vertices, &edge.from) && is_named(vertices, &edge.to))
}

/// The number of the first edge that names no vertex at one end.
pub fn first_unknown(vertices: &[Vertex], edges: &[Edge]) -> Option<usize>
    ensures bound { IfSome result (λ i. i < length edges.now) }
    ensures value { result ≡ position (has_unknown_end vertices.now) edges.now }
{
    edges.iter().position(|e| has_unknown_end(vertices, e))
}

// Whether the kind is that of this role.
fn has_role(kind: &Kind, role: Role) -> bool
    ensures { result ≡ has_role role kind.now }
{
    match role {
        Role::Join => kind.is_join(),
        Role::Accumulate => kind.is_accumulate(),
        Role::Combine => kind.is_combine(),
        Role::Sink => kind.is_sink(),
    }
}

fn is_named_with(vertices: &[Vertex], name: &Key, role: Role) -> bool
    ensures { result ≡ list_any (λ v. has_name name.now v && has_role role v.kind) vertices.now }
{
    vertices
        .iter()
        .any(|v| v.name == *name && has_role(&v.kind, role))
}

/// Whether the vertex of this name has this role.
pub fn is_at(dag: &Dag, name: &Key, role: Role) -> bool
    ensures { result ≡ end_is dag.now (has_role role) name.now }
{
    is_named_with(dag.vertices.items(), name, role)
}
