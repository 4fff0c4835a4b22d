// The faults of a job in their order.
ghost use Rattle.std.specs.Prelude.{◌≡◌, ◌≤◌, length, None};
ghost use Rattle.jet_items.specs.Gives.{Gives};
ghost use Rattle.jet_plan.specs.First.{first_of, accepted};
ghost use Rattle.jet_plan.specs.Faults.{end_faults, edge_faults, range_faults, large_faults, fault};
ghost use Rattle.jet_plan.specs.Limits.{IsShaped, IsLimited};
ghost use Rattle.jet_plan.specs.Names.{AreKnown};

use crate::ends::{first_wrong_inputs, first_wrong_outputs, has_source, sink_count};
use crate::gathering::{first_broadcast_data, first_isolated_distributed, first_not_gathered};
use crate::measure::{first_growth, first_key_growth};
use crate::numbers::slots;
use crate::paths::{first_side_mixed, first_window_path};
use crate::setting_ranges::{first_wrong_lag, first_wrong_setting, first_wrong_sizes};
use crate::shape::check_shape;
use crate::{Dag, Large, PlanFault, SettingName, Settings};
use jet_items::Refused;
use std::alloc::Global;

// Sources, sinks, inputs and outputs.
#[tactic(auto, unfolding(crate::specs::Faults::end_faults))]
fn check_ends(dag: &Dag) -> Result<(), PlanFault>
    requires { IsShaped dag.now }
    ensures { result ≡ accepted (first_of (end_faults dag.now)) }
{
    let vertices = dag.vertices.items();
    let edges = dag.edges.items();
    if !has_source(vertices) {
        return Err(PlanFault::NoSource);
    }
    let sinks = sink_count(vertices);
    if sinks != 1 {
        return Err(PlanFault::SinkCount(sinks as u32));
    }
    if let Some(i) = first_wrong_inputs(vertices, edges) {
        return Err(PlanFault::WrongInputs(i as u32));
    }
    if let Some(i) = first_wrong_outputs(vertices, edges) {
        return Err(PlanFault::WrongOutputs(i as u32));
    }
    Ok(())
}

// Which vertices and routes an edge may have.
#[tactic(auto, unfolding(crate::specs::Faults::edge_faults))]
fn check_edges(dag: &Dag, settings: &Settings) -> Result<(), PlanFault>
    requires { IsShaped dag.now }
    ensures { result ≡ accepted (first_of (edge_faults dag.now settings.now)) }
{
    let edges = dag.edges.items();
    if let Some(i) = first_window_path(dag, edges) {
        return Err(PlanFault::WindowPath(i as u32));
    }
    if let Some(i) = first_side_mixed(dag.vertices.items(), edges) {
        return Err(PlanFault::SideMixed(i as u32));
    }
    if let Some(i) = first_isolated_distributed(edges) {
        return Err(PlanFault::IsolatedDistributed(i as u32));
    }
    if let Some(i) = first_broadcast_data(edges) {
        return Err(PlanFault::BroadcastData(i as u32));
    }
    if let Some(i) = first_not_gathered(dag, settings, edges) {
        return Err(PlanFault::NotGathered(i as u32));
    }
    Ok(())
}

// Keys, window sizes, settings and lags.
#[tactic(auto, unfolding(crate::specs::Faults::range_faults))]
fn check_ranges(alloc: Global, dag: &Dag, settings: &Settings) -> Result<(), Refused<PlanFault>>
    requires { IsShaped dag.now }
    ensures { Gives result (accepted (first_of (range_faults dag.now settings.now))) }
{
    let vertices = dag.vertices.items();
    if let Some(i) = first_key_growth(alloc, dag)? {
        return Err(Refused::Fault(PlanFault::KeyGrowth(i as u32)));
    }
    if let Some((i, why)) = first_wrong_sizes(vertices) {
        return Err(Refused::Fault(PlanFault::Policy(i as u32, why)));
    }
    if let Some(name) = first_wrong_setting(settings) {
        return Err(Refused::Fault(PlanFault::Setting(name)));
    }
    if let Some(i) = first_wrong_lag(vertices) {
        let name = SettingName::Lag(i as u32);
        return Err(Refused::Fault(PlanFault::Setting(name)));
    }
    Ok(())
}

// Events and ring slots.
#[tactic(auto, unfolding(crate::specs::Faults::large_faults))]
fn check_large(alloc: Global, dag: &Dag, settings: &Settings) -> Result<(), Refused<PlanFault>>
    requires shaped { IsShaped dag.now }
    requires limited { IsLimited dag.now settings.now }
    ensures { Gives result (accepted (first_of (large_faults dag.now settings.now))) }
{
    if let Some(i) = first_growth(alloc, dag)? {
        let growth = Large::Growth(i as u32);
        return Err(Refused::Fault(PlanFault::TooLarge(growth)));
    }
    let slots = slots(dag, settings);
    if slots > 4_000_000 {
        let slots = Large::Slots(slots);
        return Err(Refused::Fault(PlanFault::TooLarge(slots)));
    }
    Ok(())
}

/// Whether a job is valid, and its first fault where it is not.
pub fn check_all(alloc: Global, dag: &Dag, settings: &Settings) -> Result<(), Refused<PlanFault>>
    ensures { Gives result (accepted (fault dag.now settings.now)) }
{
    check_shape(alloc, dag)?;
    check_ends(dag)?;
    check_edges(dag, settings)?;
    check_ranges(alloc, dag, settings)?;
    check_large(alloc, dag, settings)
}
