// The tasklets of vertices.
ghost use Rattle.std.specs.Prelude.{◌≡◌, ℕ, ◌≤◌, ◌+◌, ◌*◌, ◌++◌, ◌∷◌, [], OnOk, map, length};
ghost use Rattle.std.specs.List.{flat_map, range_with_len};
ghost use Rattle.jet_plan.specs.Rings.{instances};
ghost use Rattle.jet_layout.specs.declared.task.Task.TheVariants.{Run};
ghost use Rattle.jet_layout.specs.Joints.{end_of, vertex_ends, count};
ghost use Rattle.jet_layout.specs.Tasks.{task_count, member_tasks, vertex_tasks, instance_tasks};

use crate::{EdgeEnd, Instance, Task};
use jet_items::{List, NoMemory};
use jet_plan::{Kind, Vertex};

// A vertex as an end of edges; its first tasklet has this number.
fn vertex_end(first: u32, vertex: &Vertex) -> EdgeEnd
    ensures { result ≡ end_of first vertex.now 0 }
{
    EdgeEnd {
        first,
        parallelism: vertex.parallelism,
        single: matches!(vertex.kind, Kind::Side { .. } | Kind::Sink),
        sink: matches!(vertex.kind, Kind::Sink),
        number: 0,
    }
}

// Adds the instances of a vertex on one member.
#[tactic(auto, using(crate::proofs::Ranges::map_more))]
fn add_member(tasks: &mut List<Task>, vertex: u32, member: u32, count: u32) -> Result<(), NoMemory>
    requires { count ≤ 255 }
    ensures tasks { OnOk result (tasks.new ≡ tasks.old ++ map (λ i. Run (record { vertex = vertex; member = member; number = i })) (range_with_len 0 count)) }
    ensures few { OnOk result (length tasks.new ≤ length tasks.old + 255) }
{
    for number in 0..count {
        tasks.push(Task::Run(Instance {
            vertex,
            member,
            number,
        }))?;
    }
    Ok(())
}

// Adds the instances of a vertex on all members.
#[tactic(auto, using(crate::proofs::Ranges::flat_map_more))]
fn add_members(
    tasks: &mut List<Task>,
    number: u32,
    members: u32,
    vertex: &Vertex,
    end: EdgeEnd,
) -> Result<(), NoMemory>
    requires same { (m : ℕ) → count end m ≡ instances vertex.now m }
    ensures tasks { OnOk result (tasks.new ≡ tasks.old ++ flat_map (member_tasks number vertex.now) (range_with_len 0 members)) }
    ensures few { OnOk result (length tasks.new ≤ length tasks.old + 255 * members) }
{
    for member in 0..members {
        add_member(tasks, number, member, end.count(member))?;
    }
    Ok(())
}

// Adds the tasklets of a vertex, and the vertex as an end of edges.
#[tactic(auto, using(crate::proofs::Counts::length_members))]
fn add_vertex(
    tasks: &mut List<Task>,
    ends: &mut List<EdgeEnd>,
    number: u32,
    members: u32,
    vertex: &Vertex,
) -> Result<(), NoMemory>
    requires few { length tasks.old ≤ 32640 }
    requires members { members ≤ 4 }
    ensures tasks { OnOk result (tasks.new ≡ tasks.old ++ vertex_tasks members number vertex.now) }
    ensures size { OnOk result (length tasks.new ≡ length tasks.old + task_count members vertex.now) }
    ensures ends { OnOk result (ends.new ≡ ends.old ++ end_of (length tasks.old) vertex.now 0 ∷ []) }
    ensures more { OnOk result (length tasks.new ≤ length tasks.old + 1020) }
{
    let end = vertex_end(tasks.items().len() as u32, vertex);
    ends.push(end)?;
    if !end.sink {
        add_members(tasks, number, members, vertex, end)?;
    }
    Ok(())
}

/// The tasklets of all vertices in their order, and the vertices as ends of edges.
pub fn add_vertices(
    tasks: &mut List<Task>,
    ends: &mut List<EdgeEnd>,
    members: u32,
    vertices: &[Vertex],
) -> Result<(), NoMemory>
    requires members { members ≤ 4 }
    requires vertices { length vertices.now ≤ 32 }
    requires empty { (tasks.old ≡ []) × (ends.old ≡ []) }
    ensures tasks { OnOk result (tasks.new ≡ instance_tasks members 0 vertices.now) }
    ensures ends { OnOk result (ends.new ≡ vertex_ends members 0 vertices.now) }
    ensures few { OnOk result (length tasks.new ≤ 32640) }
{
    for (number, vertex) in vertices.iter().enumerate() {
        add_vertex(tasks, ends, number as u32, members, vertex)?;
    }
    Ok(())
}
