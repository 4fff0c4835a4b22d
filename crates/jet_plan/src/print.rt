// The text of a plan. It is built whole before it is appended, so that want of memory appends nothing.
ghost use Rattle.std.specs.Prelude.{◌≡◌, ◌≤◌, ◌++◌, [], ◌∷◌, IfOk, OnOk, OnErr, decimal, string_bytes, codes};
ghost use Rattle.jet_plan.specs.PlanText.{vertex_line, edge_line, vertex_lines, edge_lines, total_line, plan_text};
ghost use Rattle.jet_plan.specs.Rings.{members};

use crate::edge_count::edge_count;
use crate::instances::all_instances;
use crate::{Edge, Plan, Vertex};
use jet_items::NoMemory;
use std::alloc::{AllocError, Global};

/// Appends the text of a plan: a line `vertex,NUMBER,NAME,KIND,INSTANCES` for each vertex, a line
/// `edge,NUMBER,FROM,TO,ROUTE,RINGS,LINKS` for each edge, and `total,TASKLETS,RINGS,SLOTS,LINKS`.
pub fn print_plan(alloc: Global, plan: &Plan, to: &mut Vec<u8>) -> Result<(), NoMemory>
    ensures ok { OnOk result (to.new.items ≡ to.old.items ++ plan_text plan.now.dag plan.now.settings) }
    ensures err { OnErr result (to.new.items ≡ to.old.items) }
{
    let text = plan_text(alloc, plan)?;
    to.extend_from_slice(&text)?;
    Ok(())
}

fn plan_text(alloc: Global, plan: &Plan) -> Result<Vec<u8>, AllocError>
    ensures { IfOk result (λ text. text.items ≡ plan_text plan.now.dag plan.now.settings) }
{
    let members = plan.settings().members.unsigned_abs();
    let dag = plan.dag();
    let vertices = dag.vertices.items();
    let mut text = vertex_lines(alloc, members, vertices)?;
    let edges = edge_lines(alloc, members, vertices, dag.edges.items())?;
    let total = total_line(alloc, plan)?;
    text.extend_from_slice(&edges)?;
    text.extend_from_slice(total.as_bytes())?;
    Ok(text)
}

fn vertex_lines(alloc: Global, members: u64, vertices: &[Vertex]) -> Result<Vec<u8>, AllocError>
    requires { members ≤ 4 }
    ensures { IfOk result (λ text. text.items ≡ vertex_lines members 0 vertices.now) }
{
    let mut text = Vec::new(alloc);
    for (number, vertex) in vertices.iter().enumerate() {
        let line = vertex_line(alloc, members, number, vertex)?;
        text.extend_from_slice(&line)?;
    }
    Ok(text)
}

fn edge_lines(
    alloc: Global,
    members: u64,
    vertices: &[Vertex],
    edges: &[Edge],
) -> Result<Vec<u8>, AllocError>
    requires { members ≤ 4 }
    ensures { IfOk result (λ text. text.items ≡ edge_lines members vertices.now 0 edges.now) }
{
    let mut text = Vec::new(alloc);
    for (number, edge) in edges.iter().enumerate() {
        let line = edge_line(alloc, members, vertices, number, edge)?;
        text.extend_from_slice(&line)?;
    }
    Ok(text)
}

fn vertex_line(
    alloc: Global,
    members: u64,
    number: usize,
    vertex: &Vertex,
) -> Result<Vec<u8>, AllocError>
    requires { members ≤ 4 }
    ensures { IfOk result (λ text. text.items ≡ vertex_line members (number, vertex.now)) }
{
    let word = vertex.kind.word();
    let instances = all_instances(members, vertex);
    let head = vertex_head(alloc, number)?;
    let tail = vertex_tail(alloc, word, instances)?;
    let mut text = head.as_bytes().to_vec(alloc)?;
    text.extend_from_slice(vertex.name.bytes())?;
    text.extend_from_slice(tail.as_bytes())?;
    Ok(text)
}

fn edge_line(
    alloc: Global,
    members: u64,
    vertices: &[Vertex],
    number: usize,
    edge: &Edge,
) -> Result<Vec<u8>, AllocError>
    requires { members ≤ 4 }
    ensures { IfOk result (λ text. text.items ≡ edge_line members vertices.now (number, edge.now)) }
{
    let word = edge.route.word();
    let count = edge_count(members, vertices, edge);
    let head = edge_head(alloc, number)?;
    let tail = edge_tail(alloc, word, count.rings, count.links)?;
    let mut text = head.as_bytes().to_vec(alloc)?;
    text.extend_from_slice(edge.from.bytes())?;
    text.push(b',')?;
    text.extend_from_slice(edge.to.bytes())?;
    text.extend_from_slice(tail.as_bytes())?;
    Ok(text)
}

fn vertex_head(alloc: Global, number: usize) -> Result<String, AllocError>
    ensures { IfOk result (λ text. string_bytes text ≡ codes "vertex," ++ (decimal number ++ 44 ∷ [])) }
{
    format!(in alloc; "vertex,{number},")
}

fn vertex_tail(alloc: Global, word: &str, instances: u64) -> Result<String, AllocError>
    ensures { IfOk result (λ text. string_bytes text ≡ 44 ∷ (word.now ++ 44 ∷ (decimal instances ++ 10 ∷ []))) }
{
    format!(in alloc; ",{word},{instances}\n")
}

fn edge_head(alloc: Global, number: usize) -> Result<String, AllocError>
    ensures { IfOk result (λ text. string_bytes text ≡ codes "edge," ++ (decimal number ++ 44 ∷ [])) }
{
    format!(in alloc; "edge,{number},")
}

fn edge_tail(alloc: Global, word: &str, rings: u64, links: u64) -> Result<String, AllocError>
    ensures { IfOk result (λ text. string_bytes text ≡ 44 ∷ (word.now ++ 44 ∷ (decimal rings ++ 44 ∷ (decimal links ++ 10 ∷ [])))) }
{
    format!(in alloc; ",{word},{rings},{links}\n")
}

#[tactic(auto, using(crate::proofs::TextLemmas::total_parts))]
fn total_line(alloc: Global, plan: &Plan) -> Result<String, AllocError>
    ensures { IfOk result (λ text. string_bytes text ≡ total_line plan.now.dag plan.now.settings) }
{
    total_of(
        alloc,
        plan.tasklets(),
        plan.rings(),
        plan.slots(),
        plan.links(),
    )
}

fn total_of(
    alloc: Global,
    tasklets: u64,
    rings: u64,
    slots: u64,
    links: u64,
) -> Result<String, AllocError>
    ensures { IfOk result (λ text. string_bytes text ≡ codes "total," ++ (decimal tasklets ++ 44 ∷ (decimal rings ++ 44 ∷ (decimal slots ++ 44 ∷ (decimal links ++ 10 ∷ []))))) }
{
    format!(in alloc; "total,{tasklets},{rings},{slots},{links}\n")
}
