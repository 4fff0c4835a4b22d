// The two vertices of a window.
ghost use Rattle.std.specs.Prelude.{◌≡◌, true, option_map, position, bytes_eq};
ghost use Rattle.std.specs.List.{Contains, find};
ghost use Rattle.jet_plan.specs.Kinds.{is_accumulate, is_combine};
ghost use Rattle.jet_plan.specs.Names.{has_name};
ghost use Rattle.jet_plan.specs.declared.kind.Kind.TheVariants.{Accumulate};
ghost use Rattle.jet_deploy.specs.Ranges.{IsInRange};
ghost use Rattle.jet_deploy.specs.Windows.{IsNamed, HasSizes};

use crate::valid_vertices_keep_their_ranges;
use jet_items::Key;
use jet_plan::{Edge, Kind, Plan, Vertex, valid_jobs_have_their_shape};
use jet_policy::WinPolicy;

// The first edge out of the vertex of this name.
fn edge_out_of<'e>(edges: &'e [Edge], name: &Key) -> Option<&'e Edge>
    ensures { option_map (λ e. e.now) result ≡ find (λ e. bytes_eq e.from name.now) edges.now }
{
    edges.iter().find(|e| e.from == *name)
}

// The first edge into it.
fn edge_into<'e>(edges: &'e [Edge], name: &Key) -> Option<&'e Edge>
    ensures { option_map (λ e. e.now) result ≡ find (λ e. bytes_eq e.to name.now) edges.now }
{
    edges.iter().find(|e| e.to == *name)
}

// The number of the vertex of this name.
fn number_of(vertices: &[Vertex], name: &Key) -> Option<usize>
    ensures { result ≡ position (has_name name.now) vertices.now }
{
    vertices.iter().position(|v| v.name == *name)
}

// The vertex of this name.
fn vertex_named<'v>(vertices: &'v [Vertex], name: &Key) -> Option<&'v Vertex>
    ensures { option_map (λ v. v.now) result ≡ find (has_name name.now) vertices.now }
{
    vertices.iter().find(|v| v.name == *name)
}

// The policy of the window of an accumulate vertex.
pub fn policy_of(kind: &Kind) -> WinPolicy
    requires accumulates { is_accumulate kind.now ≡ true }
    requires range { IsInRange kind.now }
    ensures { kind.now ≡ Accumulate result.size result.slide }
{
    match kind {
        Kind::Accumulate { size, slide } => match WinPolicy::new(*size, *slide) {
            Ok(policy) => policy,
            Err(_) => unreachable!(),
        },
        _ => unreachable!(),
    }
}

// The number of the combine vertex behind an accumulate vertex.
pub fn number_behind(plan: &Plan, vertex: &Vertex) -> u8
    requires there { Contains plan.now.dag.vertices vertex.now }
    requires accumulates { is_accumulate vertex.now.kind ≡ true }
    ensures { IsNamed plan.now.dag vertex.now result }
{
    let dag = plan.dag();
    valid_jobs_have_their_shape(dag, plan.settings());
    let Some(edge) = edge_out_of(dag.edges.items(), &vertex.name) else {
        unreachable!();
    };
    let Some(number) = number_of(dag.vertices.items(), &edge.to) else {
        unreachable!();
    };
    number as u8
}

// The policy of the window of a combine vertex: that of the accumulate vertex before it.
pub fn policy_before(plan: &Plan, vertex: &Vertex) -> WinPolicy
    requires there { Contains plan.now.dag.vertices vertex.now }
    requires combines { is_combine vertex.now.kind ≡ true }
    ensures { HasSizes plan.now.dag vertex.now result.size result.slide }
{
    let dag = plan.dag();
    let settings = plan.settings();
    valid_jobs_have_their_shape(dag, settings);
    valid_vertices_keep_their_ranges(dag, settings);
    let Some(edge) = edge_into(dag.edges.items(), &vertex.name) else {
        unreachable!();
    };
    let Some(before) = vertex_named(dag.vertices.items(), &edge.from) else {
        unreachable!();
    };
    policy_of(&before.kind)
}
