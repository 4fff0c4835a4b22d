// The legs of a flat vertex.
ghost use Rattle.jet_items.specs.Gives.{Gives};
ghost use Rattle.serde_json.specs.View.{view, items_view};
ghost use Rattle.jet_job.specs.Members.{each_at};
ghost use Rattle.jet_job.specs.Legs.{legs_at, legs_in, leg_at};

use crate::leg::leg;
use crate::{Field, JobFault, Place};
use jet_items::{List, Refused};
use jet_plan::LegSpec;
use serde_json::Value;
use std::alloc::Global;

/// The legs of the flat vertex of this number, 1 to 8.
pub fn legs(alloc: Global, value: &Value, vertex: u32) -> Result<List<LegSpec>, Refused<JobFault>>
    ensures { Gives result (legs_at vertex (Place.Vertex vertex) Field.Legs (view value.now)) }
{
    match value.as_array() {
        Some(items) => few_legs(alloc, items.as_slice(), vertex),
        None => Err(Refused::Fault(JobFault::WrongKind(Place::Vertex(vertex), Field::Legs))),
    }
}

#[tactic(auto, using(crate::proofs::Loops::len_of))]
fn few_legs(alloc: Global, items: &[Value], vertex: u32) -> Result<List<LegSpec>, Refused<JobFault>>
    ensures { Gives result (legs_in vertex (Place.Vertex vertex) Field.Legs (items_view items.now)) }
{
    if 1 <= items.len() && items.len() <= 8 {
        each_leg(alloc, items, vertex)
    } else {
        Err(Refused::Fault(JobFault::WrongKind(Place::Vertex(vertex), Field::Legs)))
    }
}

fn each_leg(alloc: Global, items: &[Value], vertex: u32) -> Result<List<LegSpec>, Refused<JobFault>>
    ensures { Gives result (each_at (leg_at vertex) 0 (items_view items.now)) }
{
    let mut legs = List::new(alloc);
    for (i, item) in items.iter().enumerate() {
        let Ok(number) = u32::try_from(i) else {
            return Err(Refused::NoMemory);
        };
        legs.push(leg(alloc, item, vertex, number)?)?;
    }
    Ok(legs)
}
