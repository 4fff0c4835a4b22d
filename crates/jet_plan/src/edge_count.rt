// What an edge of a plan is made of.
ghost use Rattle.std.specs.Prelude.{◌≡◌, ◌≤◌, ◌+◌, ◌*◌, ◌==◌, if◌then◌else◌, sum_by, take, length};
ghost use Rattle.std.specs.Option.{option_map_or};
ghost use Rattle.jet_plan.specs.Rings.{sum_below, sum_pairs, instances, local_rings, link_count, link_rings, edge_links, edge_rings, links_of, rings_of};

use crate::instances::instances;
use crate::names::vertex_named;
use crate::{Edge, Route, Vertex};

/// What an edge is made of: rings between instances, and links between members.
#[derive(Clone, Copy)]
pub struct EdgeCount {
    /// The rings between instances, into senders and out of receivers. Those of a link itself are not counted.
    pub rings: u64,
    pub links: u64,
}

// The rings between the instances of one member.
fn local_rings(route: Route, from: u64, to: u64) -> u64
    requires { (from ≤ 255) × (to ≤ 255) }
    ensures value { result ≡ local_rings route from to }
    ensures bound { result ≤ 65025 }
{
    if !route.is_isolated() {
        from * to
    } else if from == 0 || to == 0 {
        0
    } else {
        from
    }
}

// The rings between instances of the same member, on all members.
#[tactic(auto, using(crate::proofs::Sums::sum_below_more))]
fn all_local_rings(members: u64, edge: &Edge, from: &Vertex, to: &Vertex) -> u64
    requires { members ≤ 4 }
    ensures value { result ≡ sum_below members (λ m. local_rings edge.now.route (instances from.now m) (instances to.now m)) }
    ensures bound { result ≤ 65025 * members }
{
    let mut rings = 0;
    for member in 0..members {
        rings += local_rings(edge.route, instances(from, member), instances(to, member));
    }
    rings
}

// The link between two members, from the numbers of instances at its ends.
fn link(from: u64, to: u64) -> EdgeCount
    requires { (from ≤ 255) × (to ≤ 255) }
    ensures rings { result.rings ≡ link_rings from to }
    ensures links { result.links ≡ link_count from to }
    ensures bound { (result.rings ≤ 510) × (result.links ≤ 1) }
{
    if from == 0 || to == 0 {
        EdgeCount { rings: 0, links: 0 }
    } else {
        EdgeCount {
            rings: from + to,
            links: 1,
        }
    }
}

// The same, and nothing from a member to itself.
fn link_to(member: u64, from: u64, other: u64, to: u64) -> EdgeCount
    requires { (from ≤ 255) × (to ≤ 255) }
    ensures rings { result.rings ≡ (if other == member then 0 else link_rings from to) }
    ensures links { result.links ≡ (if other == member then 0 else link_count from to) }
    ensures bound { (result.rings ≤ 510) × (result.links ≤ 1) }
{
    if other == member {
        EdgeCount { rings: 0, links: 0 }
    } else {
        link(from, to)
    }
}

// The links from one member.
#[tactic(auto, using(crate::proofs::Sums::sum_below_more))]
fn links_from(members: u64, from: &Vertex, to: &Vertex, member: u64) -> EdgeCount
    requires { members ≤ 4 }
    ensures rings { result.rings ≡ sum_below members (λ k. if k == member then 0 else link_rings (instances from.now member) (instances to.now k)) }
    ensures links { result.links ≡ sum_below members (λ k. if k == member then 0 else link_count (instances from.now member) (instances to.now k)) }
    ensures bound { (result.rings ≤ 510 * members) × (result.links ≤ members) }
{
    let mut rings = 0;
    let mut links = 0;
    for other in 0..members {
        let count = link_to(member, instances(from, member), other, instances(to, other));
        rings += count.rings;
        links += count.links;
    }
    EdgeCount { rings, links }
}

// The links from all members.
#[tactic(auto, using(crate::proofs::Sums::sum_below_more))]
fn all_links(members: u64, from: &Vertex, to: &Vertex) -> EdgeCount
    requires { members ≤ 4 }
    ensures rings { result.rings ≡ sum_pairs members (λ m k. link_rings (instances from.now m) (instances to.now k)) }
    ensures links { result.links ≡ sum_pairs members (λ m k. link_count (instances from.now m) (instances to.now k)) }
    ensures bound { (result.rings ≤ 2040 * members) × (result.links ≤ 4 * members) }
{
    let mut rings = 0;
    let mut links = 0;
    for member in 0..members {
        let count = links_from(members, from, to, member);
        rings += count.rings;
        links += count.links;
    }
    EdgeCount { rings, links }
}

// What an edge is made of, from the vertices at its ends.
fn between(members: u64, edge: &Edge, from: &Vertex, to: &Vertex) -> EdgeCount
    requires { members ≤ 4 }
    ensures rings { result.rings ≡ edge_rings members edge.now from.now to.now }
    ensures links { result.links ≡ edge_links members edge.now from.now to.now }
    ensures bound { (result.rings ≤ 268260) × (result.links ≤ 16) }
{
    let local = all_local_rings(members, edge, from, to);
    if edge.distributed {
        let count = all_links(members, from, to);
        EdgeCount {
            rings: local + count.rings,
            links: count.links,
        }
    } else {
        EdgeCount {
            rings: local,
            links: 0,
        }
    }
}

/// What an edge of a job is made of.
pub fn edge_count(members: u64, vertices: &[Vertex], edge: &Edge) -> EdgeCount
    requires { members ≤ 4 }
    ensures rings { result.rings ≡ rings_of members vertices.now edge.now }
    ensures links { result.links ≡ links_of members vertices.now edge.now }
    ensures bound { (result.rings ≤ 268260) × (result.links ≤ 16) }
{
    match (
        vertex_named(vertices, &edge.from),
        vertex_named(vertices, &edge.to),
    ) {
        (Some(from), Some(to)) => between(members, edge, from, to),
        _ => EdgeCount { rings: 0, links: 0 },
    }
}

/// What all edges of a job are made of.
pub fn all_edges(members: u64, vertices: &[Vertex], edges: &[Edge]) -> EdgeCount
    requires members { members ≤ 4 }
    requires few { length edges.now ≤ 64 }
    ensures rings { result.rings ≡ sum_by (rings_of members vertices.now) edges.now }
    ensures links { result.links ≡ sum_by (links_of members vertices.now) edges.now }
    ensures bound { (result.rings ≤ 17168640) × (result.links ≤ 1024) }
{
    let mut rings = 0;
    let mut links = 0;
    for edge in edges {
        let count = edge_count(members, vertices, edge);
        rings += count.rings;
        links += count.links;
    }
    EdgeCount { rings, links }
}
