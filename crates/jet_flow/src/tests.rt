// The grain of worked jobs, and the laws of one that has a plan.
use super::*;
use jet_items::{Key, List, NoMemory, Refused};
use jet_plan::{Dag, Edge, Kind, Plan, PlanFault, Route, Settings, Text, Vertex, check};
use std::alloc::Global;
use std::test::Fail;

fn key(name: &[u8]) -> Result<Key, NoMemory> {
    Key::read(name, 24).map_err(|_| NoMemory)
}

fn vertex(name: &[u8], kind: Kind) -> Result<Vertex, NoMemory> {
    Ok(Vertex {
        name: key(name)?,
        parallelism: 1,
        kind,
    })
}

// A job with a window of each slide, and the sink.
fn windows(alloc: Global, slides: &[i64]) -> Result<Dag, NoMemory> {
    let mut vertices = List::new(alloc);
    for slide in slides {
        let kind = Kind::Accumulate {
            size: 60,
            slide: *slide,
        };
        vertices.push(vertex(b"a", kind)?)?;
    }
    vertices.push(vertex(b"z", Kind::Sink)?)?;
    Ok(Dag {
        vertices,
        edges: List::new(alloc),
    })
}

fn has_grain(alloc: Global, slides: &[i64], wanted: u64) -> bool {
    match windows(alloc, slides) {
        Ok(dag) => grain(&dag) == wanted,
        Err(NoMemory) => false,
    }
}

#[test]
fn slides_have_a_grain(rt: HostRuntime) -> Result<(), Fail> {
    let alloc = rt.alloc();
    assert!(rt; has_grain(alloc, &[], 0));
    assert!(rt; has_grain(alloc, &[5], 5));
    assert!(rt; has_grain(alloc, &[10, 15], 5));
    assert!(rt; has_grain(alloc, &[6, 10, 15], 1));
    assert!(rt; has_grain(alloc, &[20, 4, 12], 4));
    Ok(())
}

fn source(alloc: Global) -> Result<Kind, NoMemory> {
    let mut files = List::new(alloc);
    let text = Text::read(alloc, b"t.csv")?;
    files.push(text.ok_or(NoMemory)?)?;
    Ok(Kind::Source { files, lag: 3 })
}

fn edge(from: &[u8], to: &[u8], route: Route, distributed: bool) -> Result<Edge, NoMemory> {
    Ok(Edge {
        from: key(from)?,
        to: key(to)?,
        route,
        distributed,
        build: false,
    })
}

// The job of one file and one window.
fn base(alloc: Global) -> Result<Dag, NoMemory> {
    let mut vertices = List::new(alloc);
    vertices.push(vertex(b"s", source(alloc)?)?)?;
    vertices.push(vertex(b"a", Kind::Accumulate { size: 10, slide: 5 })?)?;
    vertices.push(vertex(b"w", Kind::Combine)?)?;
    vertices.push(vertex(b"z", Kind::Sink)?)?;
    let mut edges = List::new(alloc);
    edges.push(edge(b"s", b"a", Route::Unicast, false)?)?;
    edges.push(edge(b"a", b"w", Route::Partitioned, true)?)?;
    edges.push(edge(b"w", b"z", Route::Unicast, true)?)?;
    Ok(Dag { vertices, edges })
}

// What a plan's calls promise is what the laws ask for.
fn keep_the_laws(plan: &Plan) -> u64 {
    flow_keeps_the_rules(plan.dag(), plan.settings());
    only_the_flow_keeps_the_rules(plan.dag(), plan.settings());
    keys_stay_short(plan.dag(), plan.settings());
    files_hold_short_keys(plan.dag());
    source_files_have_their_numbers(plan.dag());
    the_file_enters_the_window(plan.dag());
    events_keep_their_places(plan.dag());
    events_stand_in_their_files(plan.dag());
    without_idle_notes_the_own_mark_counts(plan.dag());
    grain(plan.dag())
}

fn base_grain(alloc: Global) -> Result<u64, Refused<PlanFault>> {
    let plan = check(alloc, base(alloc)?, Settings::default())?;
    Ok(keep_the_laws(&plan))
}

#[test]
fn the_base_job_has_a_plan(rt: HostRuntime) -> Result<(), Fail> {
    assert!(rt; base_grain(rt.alloc()) == Ok(5));
    Ok(())
}
