// Worked cases: what a layout has is what its plan counts, and where keys and files go.
use super::*;
use jet_items::{Key, List, NoMemory, Refused};
use jet_plan::{Dag, Edge, Kind, Plan, PlanFault, Route, Settings, Text, Vertex, check};
use std::alloc::Global;
use std::test::Fail;

// A window over three files, with so many instances of its first and second stage.
fn vertices(alloc: Global, parallelism: u8) -> Result<List<Vertex>, NoMemory> {
    let mut files = List::new(alloc);
    for name in [b"a.csv", b"b.csv", b"c.csv"] {
        if let Some(text) = Text::read(alloc, name)? {
            files.push(text)?;
        }
    }
    let mut vertices = List::new(alloc);
    vertices.push(vertex(b"s", parallelism, Kind::Source { files, lag: 0 })?)?;
    vertices.push(vertex(b"a", parallelism, Kind::Accumulate { size: 10, slide: 5 })?)?;
    vertices.push(vertex(b"w", parallelism, Kind::Combine)?)?;
    vertices.push(vertex(b"z", 1, Kind::Sink)?)?;
    Ok(vertices)
}

fn vertex(name: &[u8], parallelism: u8, kind: Kind) -> Result<Vertex, NoMemory> {
    Ok(Vertex {
        name: key(name)?,
        parallelism,
        kind,
    })
}

fn key(name: &[u8]) -> Result<Key, NoMemory> {
    match Key::read(name, 24) {
        Ok(key) => Ok(key),
        Err(_) => Err(NoMemory),
    }
}

fn edge(from: &[u8], to: &[u8], route: Route, distributed: bool) -> Result<Edge, NoMemory> {
    Ok(Edge {
        from: key(from)?,
        to: key(to)?,
        route,
        distributed,
        build: false,
    })
}

fn plan(
    alloc: Global,
    parallelism: u8,
    members: i64,
    route: Route,
) -> Result<Plan, Refused<PlanFault>> {
    let mut edges = List::new(alloc);
    edges.push(edge(b"s", b"a", route, false)?)?;
    edges.push(edge(b"a", b"w", Route::Partitioned, true)?)?;
    edges.push(edge(b"w", b"z", Route::Unicast, true)?)?;
    let vertices = vertices(alloc, parallelism)?;
    let settings = Settings {
        members,
        ..Settings::default()
    };
    check(alloc, Dag { vertices, edges }, settings)
}

// Instances of each vertex, members, and the route into the window.
const JOBS: [(u8, i64, Route); 5] = [
    (1, 1, Route::Unicast),
    (2, 1, Route::Unicast),
    (2, 1, Route::Isolated),
    (1, 2, Route::Unicast),
    (2, 3, Route::Isolated),
];

#[test]
fn a_layout_has_what_its_plan_counts(rt: HostRuntime) -> Result<(), Fail> {
    for (parallelism, members, route) in JOBS {
        let plan = plan(rt.alloc(), parallelism, members, route).map_err(|_| "plan")?;
        let layout = Layout::new(rt.alloc(), &plan).map_err(|_| "memory")?;
        let rings = layout.wires.items().len() as u64;
        assert!(rt; layout.tasks.items().len() as u64 == plan.tasklets());
        assert!(rt; layout.links.items().len() as u64 == plan.links());
        assert!(rt; Some(rings) == plan.rings().checked_sub(layout.files.items().len() as u64));
    }
    Ok(())
}

// A partition, the member that sends, and the destination there: two members with two consumers each.
const DESTINATIONS: [(usize, u32, u32); 6] = [
    (97, 0, 2),
    (98, 0, 1),
    (124, 0, 0),
    (97, 1, 0),
    (98, 1, 2),
    (124, 1, 2),
];

#[test]
fn a_key_goes_to_its_owner(rt: HostRuntime) -> Result<(), Fail> {
    let plan = plan(rt.alloc(), 2, 2, Route::Unicast).map_err(|_| "plan")?;
    let layout = Layout::new(rt.alloc(), &plan).map_err(|_| "memory")?;
    let joint = layout.joints.items().get(1).ok_or("edge")?;
    assert!(rt; joint.to.parallelism == 2);
    for (partition, member, destination) in DESTINATIONS {
        assert!(rt; member < 2);
        let table = partition_table(rt.alloc(), joint, 2, true, member).map_err(|_| "memory")?;
        assert!(rt; table.get(partition) == Some(&destination));
    }
    Ok(())
}
