// The job of `window`, as a job file would have it: a source s, the window of the vertices a and w, and a sink z.
ghost use Rattle.std.specs.Prelude.{◌≡◌, ◌≤◌, ◌<◌, ◌^◌, IfOk, Ok, Some, [], ◌∷◌};
ghost use Rattle.jet_items.specs.KeyFaults.{key_at};
ghost use Rattle.jet_plan.specs.Texts.{text_at};
ghost use Rattle.jet_cli.specs.BaseJob.{base_dag, base_edges, base_vertices, edge_of, vertex_of};
ghost use Rattle.jet_cli.specs.WordsView.{window_in, AreSmall};

use crate::WindowWords;
use jet_items::{Key, List, NoMemory};
use jet_plan::{Dag, Edge, Kind, Route, Text, Vertex};
use std::alloc::Global;

/// The job that `window` runs.
pub(crate) fn base_job(alloc: Global, words: &WindowWords<'_>) -> Result<Dag, NoMemory>
    requires small { AreSmall words.now }
    ensures { IfOk result (λ dag. dag ≡ base_dag (window_in words.now)) }
{
    Ok(Dag {
        vertices: vertices(alloc, words)?,
        edges: edges(alloc)?,
    })
}

fn vertices(alloc: Global, words: &WindowWords<'_>) -> Result<List<Vertex>, NoMemory>
    requires small { AreSmall words.now }
    ensures { IfOk result (λ vertices. vertices ≡ base_vertices (window_in words.now)) }
{
    let source = Kind::Source {
        files: files(alloc, words.file)?,
        lag: words.lag as i64,
    };
    let accumulate = Kind::Accumulate {
        size: words.size as i64,
        slide: words.slide as i64,
    };
    let mut vertices = List::new(alloc);
    vertices.push(vertex(b"s", source))?;
    vertices.push(vertex(b"a", accumulate))?;
    vertices.push(vertex(b"w", Kind::Combine))?;
    vertices.push(vertex(b"z", Kind::Sink))?;
    Ok(vertices)
}

fn files(alloc: Global, name: &[u8]) -> Result<List<Text>, NoMemory>
    requires text { text_at name.now ≡ Some name.now }
    ensures { IfOk result (λ files. files ≡ name.now ∷ []) }
{
    let mut files = List::new(alloc);
    if let Some(name) = Text::read(alloc, name)? {
        files.push(name)?;
    }
    Ok(files)
}

fn edges(alloc: Global) -> Result<List<Edge>, NoMemory>
    ensures { IfOk result (λ edges. edges ≡ base_edges) }
{
    let mut edges = List::new(alloc);
    edges.push(edge(b"s", b"a", Route::Unicast, false))?;
    edges.push(edge(b"a", b"w", Route::Partitioned, true))?;
    edges.push(edge(b"w", b"z", Route::Unicast, true))?;
    Ok(edges)
}

// A vertex with one instance on each member.
fn vertex(name: &[u8], kind: Kind) -> Vertex
    requires { key_at 1 name.now ≡ Ok name.now }
    ensures { result ≡ vertex_of name.now kind }
{
    Vertex {
        name: key(name),
        parallelism: 1,
        kind,
    }
}

// An edge that carries no rows of a side file.
fn edge(from: &[u8], to: &[u8], route: Route, distributed: bool) -> Edge
    requires from { key_at 1 from.now ≡ Ok from.now }
    requires to { key_at 1 to.now ≡ Ok to.now }
    ensures { result ≡ edge_of from.now to.now route distributed }
{
    Edge {
        from: key(from),
        to: key(to),
        route,
        distributed,
        build: false,
    }
}

fn key(name: &[u8]) -> Key
    requires { key_at 1 name.now ≡ Ok name.now }
    ensures { result ≡ name.now }
{
    Key::read(name, 1).unwrap()
}
