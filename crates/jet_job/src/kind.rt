// What a vertex does, by the members of its sort.
ghost use Rattle.jet_items.specs.Gives.{Gives};
ghost use Rattle.serde_json.specs.View.{view};
ghost use Rattle.jet_job.specs.Kinds.{kind_at};

use crate::expression::expression;
use crate::files::files;
use crate::forms::{flag_or_false, text, whole, whole_from};
use crate::joint::fields_or_own;
use crate::legs::legs;
use crate::member::required;
use crate::set::set;
use crate::sort::Sort;
use crate::words::mode;
use crate::{Field, JobFault, Place};
use jet_items::Refused;
use jet_plan::Kind;
use serde_json::Value;
use std::alloc::Global;

/// What the vertex of this number and sort does.
pub fn kind(
    alloc: Global,
    sort: Sort,
    value: &Value,
    vertex: u32,
) -> Result<Kind, Refused<JobFault>>
    ensures { Gives result (kind_at sort vertex (view value.now)) }
{
    match sort {
        Sort::Source => source(alloc, value, vertex),
        Sort::Side => side(alloc, value, vertex),
        Sort::Map => map(alloc, value, vertex),
        Sort::Filter => filter(alloc, value, vertex),
        Sort::Flat => flat(alloc, value, vertex),
        Sort::Join => join(value, vertex),
        Sort::Accumulate => accumulate(value, vertex),
        Sort::Combine => Ok(Kind::Combine),
        Sort::Sink => Ok(Kind::Sink),
    }
}

fn source(alloc: Global, value: &Value, vertex: u32) -> Result<Kind, Refused<JobFault>>
    ensures { Gives result (kind_at Sort.Source vertex (view value.now)) }
{
    let place = Place::Vertex(vertex);
    let files = files(alloc, required(value, place, Field::Files)?, place)?;
    let lag = required(value, place, Field::Lag)?;
    let lag = whole_from(lag, 0, 1_000_000_000_000_000, place, Field::Lag)?;
    Ok(Kind::Source { files, lag })
}

fn side(alloc: Global, value: &Value, vertex: u32) -> Result<Kind, Refused<JobFault>>
    ensures { Gives result (kind_at Sort.Side vertex (view value.now)) }
{
    let place = Place::Vertex(vertex);
    let file = required(value, place, Field::File)?;
    let file = text(alloc, file, place, Field::File)?;
    Ok(Kind::Side { file })
}

fn map(alloc: Global, value: &Value, vertex: u32) -> Result<Kind, Refused<JobFault>>
    ensures { Gives result (kind_at Sort.Map vertex (view value.now)) }
{
    let place = Place::Vertex(vertex);
    let set = set(alloc, required(value, place, Field::Set)?, vertex)?;
    Ok(Kind::Map { set })
}

fn filter(alloc: Global, value: &Value, vertex: u32) -> Result<Kind, Refused<JobFault>>
    ensures { Gives result (kind_at Sort.Filter vertex (view value.now)) }
{
    let place = Place::Vertex(vertex);
    let test = required(value, place, Field::Test)?;
    let test = expression(alloc, test, place, Field::Test)?;
    Ok(Kind::Filter { test })
}

fn flat(alloc: Global, value: &Value, vertex: u32) -> Result<Kind, Refused<JobFault>>
    ensures { Gives result (kind_at Sort.Flat vertex (view value.now)) }
{
    let place = Place::Vertex(vertex);
    let legs = legs(alloc, required(value, place, Field::Legs)?, vertex)?;
    Ok(Kind::Flat { legs })
}

fn join(value: &Value, vertex: u32) -> Result<Kind, Refused<JobFault>>
    ensures { Gives result (kind_at Sort.Join vertex (view value.now)) }
{
    let place = Place::Vertex(vertex);
    let mode = mode(required(value, place, Field::Mode)?, place)?;
    let rekey = flag_or_false(value, place, Field::Rekey)?;
    let fields = fields_or_own(value, place)?;
    Ok(Kind::Join {
        mode,
        rekey,
        fields,
    })
}

fn accumulate(value: &Value, vertex: u32) -> Result<Kind, Refused<JobFault>>
    ensures { Gives result (kind_at Sort.Accumulate vertex (view value.now)) }
{
    let place = Place::Vertex(vertex);
    let size = whole(required(value, place, Field::Size)?, place, Field::Size)?;
    let slide = whole(required(value, place, Field::Slide)?, place, Field::Slide)?;
    Ok(Kind::Accumulate { size, slide })
}
