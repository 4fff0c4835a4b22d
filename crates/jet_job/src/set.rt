// What a map sets.
ghost use Rattle.std.specs.Prelude.{◌≡◌, bytes_eq, string_bytes};
ghost use Rattle.std.specs.List.{list_any, list_all};
ghost use Rattle.std.specs.Map.{keys_of};
ghost use Rattle.jet_items.specs.Gives.{Gives};
ghost use Rattle.serde_json.specs.Find.{get};
ghost use Rattle.serde_json.specs.View.{view};
ghost use Rattle.jet_job.specs.Words.{is_event_field};
ghost use Rattle.jet_job.specs.Sets.{entry_at, entries_at, set_at};

use crate::expression::expression;
use crate::{Field, JobFault, Place};
use jet_expr::Expr;
use jet_items::Refused;
use serde_json::{Map, Value};
use std::alloc::Global;

/// The expressions for the four values of an event, of the map vertex of this number.
#[tactic(auto, using(crate::proofs::Names::names_same))]
pub fn set(
    alloc: Global,
    value: &Value,
    vertex: u32,
) -> Result<[Option<Expr>; 4], Refused<JobFault>>
    ensures { Gives result (set_at vertex (Place.Vertex vertex) Field.Set (view value.now)) }
{
    let place = Place::Vertex(vertex);
    match value.as_object() {
        None => Err(Refused::Fault(JobFault::WrongKind(place, Field::Set))),
        Some(map) if !are_event_fields(map) => Err(Refused::Fault(JobFault::UnknownField(place))),
        Some(_) => entries(alloc, value, vertex),
    }
}

fn entries(
    alloc: Global,
    value: &Value,
    vertex: u32,
) -> Result<[Option<Expr>; 4], Refused<JobFault>>
    ensures { Gives result (entries_at vertex (view value.now)) }
{
    let v0 = entry(alloc, value, "v0", vertex)?;
    let v1 = entry(alloc, value, "v1", vertex)?;
    let v2 = entry(alloc, value, "v2", vertex)?;
    let v3 = entry(alloc, value, "v3", vertex)?;
    Ok([v0, v1, v2, v3])
}

fn entry(
    alloc: Global,
    value: &Value,
    name: &str,
    vertex: u32,
) -> Result<Option<Expr>, Refused<JobFault>>
    ensures { Gives result (entry_at vertex (get name.now (view value.now))) }
{
    match value.get(name) {
        Some(v) => Ok(Some(expression(alloc, v, Place::Vertex(vertex), Field::Set)?)),
        None => Ok(None),
    }
}

fn are_event_fields(map: &Map<String, Value>) -> bool
    ensures { result ≡ list_all (λ k. is_event_field (string_bytes k)) (keys_of map.now.entries) }
{
    map.keys().all(|k| is_event_field(k.as_str()))
}

fn is_event_field(name: &str) -> bool
    ensures { result ≡ is_event_field name.now }
{
    "v0" == name || "v1" == name || "v2" == name || "v3" == name
}
