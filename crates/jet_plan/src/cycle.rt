// Whether the edges have a cycle. Rounds over a table with an entry for each vertex: after n rounds it says whether a walk
// of n edges ends there. A walk of as many edges as there are vertices meets a vertex twice.
ghost use Rattle.std.specs.Prelude.{◌≡◌, length, IfOk, IsTrue, ◌↔◌, map, replicate, true, false};
ghost use Rattle.std.specs.List.{list_any};
ghost use Rattle.jet_plan.specs.Along.{before, has_walk};
ghost use Rattle.jet_plan.specs.Graph.{HasCycle};
ghost use Rattle.jet_plan.specs.Growth.{is_cyclic};
ghost use Rattle.jet_plan.specs.Names.{AreKnown};
ghost use Rattle.jet_plan.specs.Tables.{entry};

use crate::names::number_of;
use crate::{Dag, Edge, Vertex};
use jet_items::{Key, NoMemory};
use std::alloc::{AllocError, Global};

fn walk_at(vertices: &[Vertex], walks: &[bool], name: &Key) -> bool
    ensures { result ≡ entry vertices.now walks.now false name.now }
{
    match number_of(vertices, name) {
        Some(i) if i < walks.len() => walks[i],
        _ => false,
    }
}

// Whether an edge into the vertex leaves one at which a walk ends.
fn is_reached(vertices: &[Vertex], edges: &[Edge], walks: &[bool], name: &Key) -> bool
    ensures { result ≡ list_any (λ w. w) (before edges.now (entry vertices.now walks.now false) name.now) }
{
    edges
        .iter()
        .filter(|e| e.to == *name)
        .map(|e| walk_at(vertices, walks, &e.from))
        .any(|w| w)
}

fn next_walks(
    alloc: Global,
    vertices: &[Vertex],
    edges: &[Edge],
    walks: &[bool],
) -> Result<Vec<bool>, AllocError>
    ensures { IfOk result (λ t. t.items ≡ map (λ v. list_any (λ w. w) (before edges.now (entry vertices.now walks.now false) v.name)) vertices.now) }
{
    vertices
        .iter()
        .map(|v| is_reached(vertices, edges, walks, &v.name))
        .collect(alloc)
}

fn all_true(alloc: Global, count: usize) -> Result<Vec<bool>, AllocError>
    ensures { IfOk result (λ t. t.items ≡ replicate count true) }
{
    vec![in alloc; true; count]
}

fn any_true(walks: &[bool]) -> bool
    ensures { result ≡ list_any (λ w. w) walks.now }
{
    walks.iter().any(|w| *w)
}

fn has_long_walk(alloc: Global, vertices: &[Vertex], edges: &[Edge]) -> Result<bool, AllocError>
    requires { AreKnown vertices.now edges.now }
    ensures { IfOk result (λ b. b ≡ list_any (λ v. has_walk edges.now (length vertices.now) v.name) vertices.now) }
{
    let mut walks = all_true(alloc, vertices.len())?;
    for step in 0..vertices.len() {
        walks = next_walks(alloc, vertices, edges, walks.as_slice())?;
    }
    Ok(any_true(walks.as_slice()))
}

/// Whether the edges have a cycle.
pub fn has_cycle(alloc: Global, dag: &Dag) -> Result<bool, NoMemory>
    requires { AreKnown dag.now.vertices dag.now.edges }
    ensures { IfOk result (λ b. b ≡ is_cyclic dag.now) }
{
    Ok(has_long_walk(alloc, dag.vertices.items(), dag.edges.items())?)
}

/// A law: the test for a cycle says what the word means, that one or more edges lead from a vertex back to itself.
pub fn cycle_means(dag: &Dag)
    requires { AreKnown dag.now.vertices dag.now.edges }
    ensures { IsTrue (is_cyclic dag.now) ↔ HasCycle dag.now.edges }
{
    let _dag = dag;
}
