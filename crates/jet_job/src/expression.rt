// Expressions in a job file.
ghost use Rattle.jet_items.specs.Gives.{Gives};
ghost use Rattle.serde_json.specs.View.{view};
ghost use Rattle.jet_job.specs.Forms.{expression};

use crate::{Field, JobFault, Place};
use jet_expr::Expr;
use jet_items::Refused;
use serde_json::Value;
use std::alloc::Global;

/// An expression in a text.
pub fn expression(
    alloc: Global,
    value: &Value,
    place: Place,
    field: Field,
) -> Result<Expr, Refused<JobFault>>
    ensures { Gives result (expression place field (view value.now)) }
{
    match value.as_str() {
        Some(s) => match Expr::read(alloc, s.as_bytes()) {
            Ok(expr) => Ok(expr),
            Err(Refused::Fault(fault)) => Err(Refused::Fault(JobFault::Expr(place, field, fault))),
            Err(Refused::NoMemory) => Err(Refused::NoMemory),
        },
        None => Err(Refused::Fault(JobFault::WrongKind(place, field))),
    }
}
