// The faults of sizes, names and cycles.
ghost use Rattle.std.specs.Prelude.{◌≡◌};
ghost use Rattle.jet_items.specs.Gives.{Gives};
ghost use Rattle.jet_plan.specs.First.{first_of, accepted};
ghost use Rattle.jet_plan.specs.Faults.{shape_faults};

use crate::cycle::has_cycle;
use crate::names::{first_double, first_unknown};
use crate::sizes::too_many;
use crate::{Dag, PlanFault};
use jet_items::Refused;
use std::alloc::Global;

/// Whether the sizes and names of a job fit, and its edges have no cycle.
#[tactic(auto, using(crate::proofs::Unknowns::none_unknown), unfolding(crate::specs::Faults::shape_faults))]
pub fn check_shape(alloc: Global, dag: &Dag) -> Result<(), Refused<PlanFault>>
    ensures { Gives result (accepted (first_of (shape_faults dag.now))) }
{
    let vertices = dag.vertices.items();
    let edges = dag.edges.items();
    if vertices.is_empty() {
        return Err(Refused::Fault(PlanFault::NoVertex));
    }
    if let Some(many) = too_many(dag) {
        return Err(Refused::Fault(PlanFault::TooMany(many)));
    }
    if let Some(i) = first_double(vertices) {
        return Err(Refused::Fault(PlanFault::DoubleName(i as u32)));
    }
    if let Some(i) = first_unknown(vertices, edges) {
        return Err(Refused::Fault(PlanFault::UnknownEnd(i as u32)));
    }
    if has_cycle(alloc, dag)? {
        return Err(Refused::Fault(PlanFault::Cycle));
    }
    Ok(())
}
