// Vertices of a job file.
ghost use Rattle.std.specs.Prelude.{◌≡◌, ◌≤ℤ◌, pos, IfOk};
ghost use Rattle.jet_items.specs.Gives.{Gives};
ghost use Rattle.serde_json.specs.View.{view};
ghost use Rattle.jet_job.specs.Vertices.{parallelism_at, vertex_at};

use crate::forms::{key, whole_from};
use crate::kind::kind;
use crate::member::{member, object, required};
use crate::own::only_own;
use crate::sort::Sort;
use crate::words::sort;
use crate::{Field, JobFault, Place};
use jet_items::Refused;
use jet_plan::Vertex;
use serde_json::Value;
use std::alloc::Global;

/// The vertex of this number.
pub fn vertex(alloc: Global, value: &Value, number: u32) -> Result<Vertex, Refused<JobFault>>
    ensures { Gives result (vertex_at number (view value.now)) }
{
    let place = Place::Vertex(number);
    object(value, place)?;
    let name = key(required(value, place, Field::Name)?, 24, place, Field::Name)?;
    let sort = sort(required(value, place, Field::Kind)?, place)?;
    only_own(sort, value, place)?;
    let parallelism = parallelism(sort, value, number)?;
    let kind = kind(alloc, sort, value, number)?;
    Ok(Vertex {
        name,
        parallelism: parallelism as u8,
        kind,
    })
}

// A side vertex and the sink have no such member, and 1.
fn parallelism(sort: Sort, value: &Value, vertex: u32) -> Result<i64, JobFault>
    ensures value { result ≡ parallelism_at sort vertex (view value.now) }
    ensures range { IfOk result (λ p. (pos 1 ≤ℤ p) × (p ≤ℤ pos 8)) }
{
    if matches!(sort, Sort::Side | Sort::Sink) {
        return Ok(1);
    }
    match member(value, Field::Parallelism) {
        Some(v) => whole_from(v, 1, 8, Place::Vertex(vertex), Field::Parallelism),
        None => Ok(1),
    }
}
