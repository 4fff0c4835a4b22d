// Whole job files.
ghost use Rattle.std.specs.Prelude.{◌≡◌, ◌<◌, ◌≤◌, length, MatchResult, IfOk, Ok, Err};
ghost use Rattle.jet_items.specs.Gives.{Gives, Fails};
ghost use Rattle.serde_json.specs.Find.{as_array};
ghost use Rattle.serde_json.specs.View.{view, items_view};
ghost use Rattle.jet_job.specs.Forms.{of_form};
ghost use Rattle.jet_job.specs.Members.{needed, each_at};
ghost use Rattle.jet_job.specs.Vertices.{vertex_at};
ghost use Rattle.jet_job.specs.Edges.{edge_at};
ghost use Rattle.jet_job.specs.InForm.{IsInForm};
ghost use Rattle.jet_job.specs.Jobs.{job_in, job_at, json_at};

use crate::edge::edge;
use crate::member::{object, only, required};
use crate::settings::settings_in;
use crate::vertex::vertex;
use crate::{Field, JobFault, JobText, Place};
use jet_items::{List, Refused};
use jet_plan::{Dag, Edge, Vertex};
use serde_json::Value;
use std::alloc::Global;

/// The job of a job file, or the first fault of the file. The job is not checked: that is `check` of `jet_plan`.
///
/// Objects are read in the order top, vertices, each with its legs, edges, settings; within one come first that it is no
/// object, of a vertex its name and kind, then unknown members, then each member in its order.
pub fn read_job(alloc: Global, text: &[u8]) -> Result<JobText, Refused<JobFault>>
    ensures settled { Gives result (job_at text.now) }
    ensures form { IfOk result IsInForm }
    ensures long { (1048576 < length text.now) → result ≡ Err (Refused.Fault JobFault.Long) }
    ensures long_only { result ≡ Err (Refused.Fault JobFault.Long) → 1048576 < length text.now }
    ensures not_json_only { result ≡ Err (Refused.Fault JobFault.NotJson) → (length text.now ≤ 1048576) × (json_at text.now ≡ Err JobFault.NotJson) }
{
    job_of(alloc, text)
}

fn job_of(alloc: Global, text: &[u8]) -> Result<JobText, Refused<JobFault>>
    ensures settled { Gives result (job_at text.now) }
    ensures long { (1048576 < length text.now) → result ≡ Err (Refused.Fault JobFault.Long) }
{
    if text.len() > 1_048_576 {
        return Err(Refused::Fault(JobFault::Long));
    }
    let value = json(alloc, text)?;
    job(alloc, &value)
}

#[tactic(auto, using(crate::proofs::Json::json_is, crate::proofs::Json::no_json))]
fn json(alloc: Global, text: &[u8]) -> Result<Value, Refused<JobFault>>
    ensures { MatchResult result
        (λ v. json_at text.now ≡ Ok (view v))
        (λ e. Fails e (json_at text.now)) }
{
    match Value::from_slice(alloc, text) {
        Ok(value) => Ok(value),
        Err(error) if error.is_memory() => Err(Refused::NoMemory),
        Err(_) => Err(Refused::Fault(JobFault::NotJson)),
    }
}

fn job(alloc: Global, value: &Value) -> Result<JobText, Refused<JobFault>>
    ensures { Gives result (job_in (view value.now)) }
{
    object(value, Place::Top)?;
    only(
        value,
        &[Field::Vertices, Field::Edges, Field::Settings],
        Place::Top,
    )?;
    let vertices = array(value, Field::Vertices)?;
    let edges = array(value, Field::Edges)?;
    let vertices = each_vertex(alloc, vertices)?;
    let edges = each_edge(alloc, edges)?;
    let settings = settings_in(value)?;
    Ok(JobText {
        dag: Dag { vertices, edges },
        settings,
    })
}

fn array(value: &Value, field: Field) -> Result<&[Value], JobFault>
    ensures { MatchResult result
        (λ vs. needed (of_form as_array) Place.Top field (view value.now) ≡ Ok (items_view vs.now))
        (λ e. needed (of_form as_array) Place.Top field (view value.now) ≡ Err e) }
{
    match required(value, Place::Top, field)?.as_array() {
        Some(items) => Ok(items.as_slice()),
        None => Err(JobFault::WrongKind(Place::Top, field)),
    }
}

fn each_vertex(alloc: Global, items: &[Value]) -> Result<List<Vertex>, Refused<JobFault>>
    ensures { Gives result (each_at vertex_at 0 (items_view items.now)) }
{
    let mut vertices = List::new(alloc);
    for (i, item) in items.iter().enumerate() {
        let Ok(number) = u32::try_from(i) else {
            return Err(Refused::NoMemory); // no text that is read holds so many
        };
        vertices.push(vertex(alloc, item, number)?)?;
    }
    Ok(vertices)
}

fn each_edge(alloc: Global, items: &[Value]) -> Result<List<Edge>, Refused<JobFault>>
    ensures { Gives result (each_at edge_at 0 (items_view items.now)) }
{
    let mut edges = List::new(alloc);
    for (i, item) in items.iter().enumerate() {
        let Ok(number) = u32::try_from(i) else {
            return Err(Refused::NoMemory);
        };
        edges.push(edge(item, number)?)?;
    }
    Ok(edges)
}
