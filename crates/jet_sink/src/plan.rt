// The windows of a plan: one for each combine vertex, with the sizes of the accumulate vertex before it.
ghost use Rattle.std.specs.Prelude.{◌≡◌, ◌++◌, [], ◌∷◌, map, filter, flat_map, bytes_eq, All, OnOk, IfOk, None};
ghost use Rattle.jet_flow.specs.Inflows as inflows;
ghost use Rattle.jet_plan.specs.Names.{has_name};
ghost use Rattle.jet_plan.specs.Plans.{IsValid};
ghost use Rattle.jet_plan.specs.SettingRanges.{wrong_sizes};
ghost use Rattle.jet_sink.specs.Naming.{window_of, windows_along};

use crate::Windows;
use crate::windows::NamedWindow;
use jet_items::{Key, NoMemory};
use jet_plan::{Dag, Edge, Kind, Plan, Settings, Vertex};
use jet_policy::WinPolicy;
use std::alloc::{AllocError, Global};

// Puts the window of an accumulate vertex behind those that are there, and none for another vertex.
fn push_window(
    windows: &mut Vec<NamedWindow>,
    number: u8,
    name: &Key,
    kind: &Kind,
) -> Result<(), AllocError>
    requires { wrong_sizes kind.now ≡ None }
    ensures { OnOk result (map window_of windows.new.items ≡ map window_of windows.old.items ++ inflows.window_of number name.now kind.now) }
{
    match kind {
        Kind::Accumulate { size, slide } => match WinPolicy::new(*size, *slide) {
            Ok(policy) => windows.push(NamedWindow {
                vertex: number,
                name: *name,
                policy,
            })?,
            Err(_) => unreachable!(),
        },
        _ => {}
    }
    Ok(())
}

// Puts the window of a vertex that has the name `from`.
fn push_if(
    windows: &mut Vec<NamedWindow>,
    number: u8,
    name: &Key,
    vertex: &Vertex,
    from: &Key,
) -> Result<(), AllocError>
    requires { wrong_sizes vertex.now.kind ≡ None }
    ensures { OnOk result (map window_of windows.new.items ≡ map window_of windows.old.items
        ++ flat_map (λ v. inflows.window_of number name.now v.kind) (filter (has_name from.now) (vertex.now ∷ []))) }
{
    if vertex.name == *from {
        push_window(windows, number, name, &vertex.kind)?;
    }
    Ok(())
}

// Puts the windows of the vertices of the name `from`.
fn push_from(
    windows: &mut Vec<NamedWindow>,
    number: u8,
    name: &Key,
    vertices: &[Vertex],
    from: &Key,
) -> Result<(), AllocError>
    requires { All (λ v. wrong_sizes v.kind ≡ None) vertices.now }
    ensures { OnOk result (map window_of windows.new.items ≡ map window_of windows.old.items
        ++ flat_map (λ v. inflows.window_of number name.now v.kind) (filter (has_name from.now) vertices.now)) }
{
    for vertex in vertices {
        push_if(windows, number, name, vertex, from)?;
    }
    Ok(())
}

// Puts the windows of the combine vertex of this number and name that come along an edge, where it leads there.
fn push_along(
    windows: &mut Vec<NamedWindow>,
    number: u8,
    name: &Key,
    dag: &Dag,
    edge: &Edge,
) -> Result<(), AllocError>
    requires { All (λ v. wrong_sizes v.kind ≡ None) dag.now.vertices }
    ensures { OnOk result (map window_of windows.new.items ≡ map window_of windows.old.items
        ++ flat_map (windows_along dag.now number name.now) (filter (λ e. bytes_eq e.to name.now) (edge.now ∷ []))) }
{
    if edge.to == *name {
        push_from(windows, number, name, dag.vertices.items(), &edge.from)?;
    }
    Ok(())
}

// Puts the windows of the combine vertex of this number and name: those of the vertices before it.
fn push_windows(
    windows: &mut Vec<NamedWindow>,
    number: u8,
    name: &Key,
    dag: &Dag,
) -> Result<(), AllocError>
    requires { All (λ v. wrong_sizes v.kind ≡ None) dag.now.vertices }
    ensures { OnOk result (map window_of windows.new.items ≡ map window_of windows.old.items
        ++ flat_map (λ v. inflows.window_of number name.now v.kind) (inflows.vertices_before dag.now name.now)) }
{
    for edge in dag.edges.items() {
        push_along(windows, number, name, dag, edge)?;
    }
    Ok(())
}

// Puts the windows of a vertex with its number, where it is a combine vertex.
fn push_at(
    windows: &mut Vec<NamedWindow>,
    number: u8,
    vertex: &Vertex,
    dag: &Dag,
) -> Result<(), AllocError>
    requires { All (λ v. wrong_sizes v.kind ≡ None) dag.now.vertices }
    ensures { OnOk result (map window_of windows.new.items ≡ map window_of windows.old.items ++ inflows.windows_at dag.now (number, vertex.now)) }
{
    if matches!(vertex.kind, Kind::Combine) {
        push_windows(windows, number, &vertex.name, dag)?;
    }
    Ok(())
}

// A law: no vertex of a valid job has sizes that a window cannot have.
fn valid_windows_have_sizes(dag: &Dag, settings: &Settings)
    requires { IsValid dag.now settings.now }
    ensures { All (λ v. wrong_sizes v.kind ≡ None) dag.now.vertices }
{
    let _dag = dag;
    let _settings = settings;
}

impl Windows {
    /// The windows of a plan.
    pub fn new(alloc: Global, plan: &Plan) -> Result<Windows, NoMemory>
        ensures { IfOk result (λ w. w ≡ inflows.windows plan.now.dag) }
    {
        let dag = plan.dag();
        valid_windows_have_sizes(dag, plan.settings());
        let mut windows = Vec::new(alloc);
        for (number, vertex) in dag.vertices.items().iter().enumerate() {
            push_at(&mut windows, number as u8, vertex, dag)?;
        }
        Ok(Windows { windows })
    }
}
