// What grows along the stream edges: the longest key, and the number of events. Rounds over a table with an entry for
// each vertex, as many as there are vertices; numbers stop at the greatest that 64 bits hold.
ghost use Rattle.std.specs.Prelude.{◌≡◌, ◌<◌, ◌-◌, ◌^◌, length, position, IfOk, IfSome, replicate, map, nat_lt};
ghost use Rattle.jet_plan.specs.Along.{before};
ghost use Rattle.jet_plan.specs.Growth.{greatest, tag_length, longest_tag, longest_after, growth_after, longest_key, growth, streams};
ghost use Rattle.jet_plan.specs.Names.{AreKnown};
ghost use Rattle.jet_plan.specs.Tables.{entry, cap, capped_sum, rule_of, rule_by, measured};

use crate::names::{number_of, vertex_named};
use crate::{Dag, Edge, Kind, LegSpec, ModeSpec, Vertex};
use jet_items::{Key, NoMemory};
use std::alloc::{AllocError, Global};

/// What is computed for each vertex from the vertices before it.
#[derive(Clone, Copy)]
pub enum Measure {
    /// The longest key that can leave it, in bytes.
    LongestKey,
    /// How many events at most can leave it for one that is read.
    Growth,
}

fn tag_length(leg: &LegSpec) -> u64
    ensures { result ≡ tag_length leg.now }
{
    match &leg.tag {
        Some(tag) => tag.bytes().len() as u64,
        None => 0,
    }
}

fn longest_tag(legs: &[LegSpec]) -> u64
    ensures { result ≡ longest_tag legs.now }
{
    let mut longest = 0;
    for leg in legs {
        longest = tag_length(leg).max(longest);
    }
    longest
}

fn longest_after(kind: &Kind, entering: u64) -> u64
    ensures { result ≡ cap (longest_after kind.now entering) }
{
    match kind {
        Kind::Source { .. } => 24,
        Kind::Flat { legs } => entering.saturating_add(longest_tag(legs.items())),
        Kind::Join {
            mode: ModeSpec::Inner,
            rekey: true,
            ..
        } => 24,
        Kind::Join {
            mode: ModeSpec::Left,
            rekey: true,
            ..
        } => entering.max(24),
        Kind::Side { .. } | Kind::Sink => 0,
        _ => entering,
    }
}

fn growth_after(kind: &Kind, entering: u64) -> u64
    ensures { result ≡ cap (growth_after kind.now entering) }
{
    match kind {
        Kind::Source { .. } => 1,
        Kind::Map { .. } | Kind::Filter { .. } | Kind::Accumulate { .. } => entering,
        Kind::Flat { legs } => entering.saturating_mul(legs.items().len() as u64),
        Kind::Join { .. } => entering.saturating_mul(16),
        Kind::Side { .. } | Kind::Combine | Kind::Sink => 0,
    }
}

fn entry_at(vertices: &[Vertex], table: &[u64], name: &Key) -> u64
    ensures { result ≡ entry vertices.now table.now 0 name.now }
{
    match number_of(vertices, name) {
        Some(i) if i < table.len() => table[i],
        _ => 0,
    }
}

fn greatest_before(vertices: &[Vertex], edges: &[Edge], table: &[u64], name: &Key) -> u64
    ensures { result ≡ greatest (before edges.now (entry vertices.now table.now 0) name.now) }
{
    edges
        .iter()
        .filter(|e| e.to == *name)
        .map(|e| entry_at(vertices, table, &e.from))
        .fold(0, |a, b| a.max(b))
}

fn sum_before(vertices: &[Vertex], edges: &[Edge], table: &[u64], name: &Key) -> u64
    ensures { result ≡ capped_sum (before edges.now (entry vertices.now table.now 0) name.now) }
{
    edges
        .iter()
        .filter(|e| e.to == *name)
        .map(|e| entry_at(vertices, table, &e.from))
        .fold(0, |a, b| a.saturating_add(b))
}

#[tactic(auto, using(crate::proofs::MeasureLaws::growth_of_capped))]
fn value_after(
    measure: Measure,
    vertices: &[Vertex],
    edges: &[Edge],
    table: &[u64],
    vertex: &Vertex,
    name: &Key,
) -> u64
    ensures { result ≡ cap (rule_of measure vertex.now.kind (before edges.now (entry vertices.now table.now 0) name.now)) }
{
    match measure {
        Measure::LongestKey => {
            longest_after(&vertex.kind, greatest_before(vertices, edges, table, name))
        }
        Measure::Growth => growth_after(&vertex.kind, sum_before(vertices, edges, table, name)),
    }
}

fn value_at(measure: Measure, vertices: &[Vertex], edges: &[Edge], table: &[u64], name: &Key) -> u64
    ensures { result ≡ cap (rule_by measure vertices.now name.now (before edges.now (entry vertices.now table.now 0) name.now)) }
{
    match vertex_named(vertices, name) {
        Some(vertex) => value_after(measure, vertices, edges, table, vertex, name),
        None => 0,
    }
}

fn next_table(
    alloc: Global,
    measure: Measure,
    vertices: &[Vertex],
    edges: &[Edge],
    table: &[u64],
) -> Result<Vec<u64>, AllocError>
    ensures { IfOk result (λ t. t.items ≡ map (λ v. cap (rule_by measure vertices.now v.name (before edges.now (entry vertices.now table.now 0) v.name))) vertices.now) }
{
    vertices
        .iter()
        .map(|v| value_at(measure, vertices, edges, table, &v.name))
        .collect(alloc)
}

fn stream_edges(alloc: Global, edges: &[Edge]) -> Result<Vec<Edge>, AllocError>
    ensures { IfOk result (λ t. t.items ≡ streams edges.now) }
{
    edges.iter().copied().filter(|e| !e.build).collect(alloc)
}

fn all_zero(alloc: Global, count: usize) -> Result<Vec<u64>, AllocError>
    ensures { IfOk result (λ t. t.items ≡ replicate count 0) }
{
    vec![in alloc; 0; count]
}

// What is measured at each vertex, in the vertices' order.
fn measured(
    alloc: Global,
    measure: Measure,
    vertices: &[Vertex],
    edges: &[Edge],
) -> Result<Vec<u64>, AllocError>
    requires { AreKnown vertices.now edges.now }
    ensures { IfOk result (λ t. t.items ≡ map (λ v. cap (measured measure vertices.now edges.now (length vertices.now) v.name)) vertices.now) }
{
    let mut table = all_zero(alloc, vertices.len())?;
    for step in 0..vertices.len() {
        table = next_table(alloc, measure, vertices, edges, table.as_slice())?;
    }
    Ok(table)
}

fn first_above(table: &[u64], most: u64) -> Option<usize>
    ensures bound { IfSome result (λ i. i < length table.now) }
    ensures value { result ≡ position (λ n. nat_lt most n) table.now }
{
    table.iter().position(|n| *n > most)
}

fn first_beyond(
    alloc: Global,
    measure: Measure,
    most: u64,
    vertices: &[Vertex],
    edges: &[Edge],
) -> Result<Option<usize>, AllocError>
    requires most { most < 2 ^ 64 - 1 }
    requires known { AreKnown vertices.now (streams edges.now) }
    ensures bound { IfOk result (λ o. IfSome o (λ i. i < length vertices.now)) }
    ensures value { IfOk result (λ o. o ≡ position (λ v. nat_lt most (measured measure vertices.now (streams edges.now) (length vertices.now) v.name)) vertices.now) }
{
    let edges = stream_edges(alloc, edges)?;
    let table = measured(alloc, measure, vertices, edges.as_slice())?;
    Ok(first_above(table.as_slice(), most))
}

/// The number of the first vertex that a key of more than 40 bytes may leave.
pub fn first_key_growth(alloc: Global, dag: &Dag) -> Result<Option<usize>, NoMemory>
    requires { AreKnown dag.now.vertices dag.now.edges }
    ensures bound { IfOk result (λ o. IfSome o (λ i. i < length dag.now.vertices)) }
    ensures value { IfOk result (λ o. o ≡ position (λ v. nat_lt 40 (longest_key dag.now v.name)) dag.now.vertices) }
{
    Ok(first_beyond(
        alloc,
        Measure::LongestKey,
        40,
        dag.vertices.items(),
        dag.edges.items(),
    )?)
}

/// The number of the first vertex that more than 2^20 events may leave for one that is read.
pub fn first_growth(alloc: Global, dag: &Dag) -> Result<Option<usize>, NoMemory>
    requires { AreKnown dag.now.vertices dag.now.edges }
    ensures bound { IfOk result (λ o. IfSome o (λ i. i < length dag.now.vertices)) }
    ensures value { IfOk result (λ o. o ≡ position (λ v. nat_lt (2 ^ 20) (growth dag.now v.name)) dag.now.vertices) }
{
    Ok(first_beyond(
        alloc,
        Measure::Growth,
        1_048_576,
        dag.vertices.items(),
        dag.edges.items(),
    )?)
}
