// The instances of vertices.
ghost use Rattle.std.specs.Prelude.{◌≡◌, ◌≤◌, ◌*◌, length, sum_by, if◌then◌else◌};
ghost use Rattle.jet_plan.specs.Kinds.{is_sink};
ghost use Rattle.jet_plan.specs.Rings.{instances, all_instances};

use crate::Vertex;

/// How many instances of a vertex stand on a member.
pub fn instances(vertex: &Vertex, member: u64) -> u64
    ensures value { result ≡ instances vertex.now member }
    ensures bound { result ≤ 255 }
{
    if vertex.kind.is_side() || vertex.kind.is_sink() {
        u64::from(member == 0)
    } else {
        u64::from(vertex.parallelism)
    }
}

/// The instances of a vertex on all members.
#[tactic(auto, using(crate::proofs::Sums::sum_below_more))]
pub fn all_instances(members: u64, vertex: &Vertex) -> u64
    requires { members ≤ 4 }
    ensures value { result ≡ all_instances members vertex.now }
    ensures bound { result ≤ 255 * members }
{
    let mut count = 0;
    for member in 0..members {
        count += instances(vertex, member);
    }
    count
}

// The instances of a vertex that run as tasklets: the coordinator takes the place of the sink.
fn tasklets_of(members: u64, vertex: &Vertex) -> u64
    requires { members ≤ 4 }
    ensures value { result ≡ (if is_sink vertex.now.kind then 0 else all_instances members vertex.now) }
    ensures bound { result ≤ 1020 }
{
    if vertex.kind.is_sink() {
        0
    } else {
        all_instances(members, vertex)
    }
}

/// The instances of all vertices but the sink.
pub fn vertex_tasklets(members: u64, vertices: &[Vertex]) -> u64
    requires members { members ≤ 4 }
    requires few { length vertices.now ≤ 32 }
    ensures value { result ≡ sum_by (λ v. if is_sink v.kind then 0 else all_instances members v) vertices.now }
    ensures bound { result ≤ 32640 }
{
    let mut tasklets = 0;
    for vertex in vertices {
        tasklets += tasklets_of(members, vertex);
    }
    tasklets
}
