// Edges of a job file.
ghost use Rattle.std.specs.Prelude.{◌≡◌};
ghost use Rattle.serde_json.specs.View.{view};
ghost use Rattle.jet_job.specs.Edges.{edge_at};

use crate::forms::{flag_or_false, key};
use crate::member::{object, only, required};
use crate::words::route;
use crate::{Field, JobFault, Place};
use jet_plan::Edge;
use serde_json::Value;

/// The edge of this number.
pub fn edge(value: &Value, number: u32) -> Result<Edge, JobFault>
    ensures { result ≡ edge_at number (view value.now) }
{
    let place = Place::Edge(number);
    object(value, place)?;
    only(
        value,
        &[
            Field::From,
            Field::To,
            Field::Route,
            Field::Distributed,
            Field::Build,
        ],
        place,
    )?;
    let from = key(required(value, place, Field::From)?, 24, place, Field::From)?;
    let to = key(required(value, place, Field::To)?, 24, place, Field::To)?;
    let route = route(required(value, place, Field::Route)?, place)?;
    let distributed = flag_or_false(value, place, Field::Distributed)?;
    let build = flag_or_false(value, place, Field::Build)?;
    Ok(Edge {
        from,
        to,
        route,
        distributed,
        build,
    })
}
