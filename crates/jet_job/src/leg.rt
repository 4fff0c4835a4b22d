// One leg of a flat vertex.
ghost use Rattle.std.specs.Prelude.{◌≡◌, option_map, pos, None, Some};
ghost use Rattle.jet_items.specs.Gives.{Gives};
ghost use Rattle.jet_expr.specs.Term.{number};
ghost use Rattle.serde_json.specs.View.{view};
ghost use Rattle.jet_job.specs.Forms.{of_form, expression, key_form};
ghost use Rattle.jet_job.specs.Members.{optional};
ghost use Rattle.jet_job.specs.Legs.{leg_at};

use crate::expression::expression;
use crate::forms::key;
use crate::member::{member, object, only, required};
use crate::{Field, JobFault, Place};
use jet_expr::Expr;
use jet_items::{Key, Refused};
use jet_plan::LegSpec;
use serde_json::Value;
use std::alloc::Global;

/// The leg of this number of the flat vertex of that number.
pub fn leg(
    alloc: Global,
    value: &Value,
    vertex: u32,
    number: u32,
) -> Result<LegSpec, Refused<JobFault>>
    ensures { Gives result (leg_at vertex number (view value.now)) }
{
    let place = Place::Leg(vertex, number);
    object(value, place)?;
    only(value, &[Field::Test, Field::Value, Field::Tag], place)?;
    let test = test_or_one(alloc, value, place)?;
    let given = expression(
        alloc,
        required(value, place, Field::Value)?,
        place,
        Field::Value,
    )?;
    let tag = tag(value, place)?;
    Ok(LegSpec {
        test,
        value: given,
        tag,
    })
}

fn test_or_one(alloc: Global, value: &Value, place: Place) -> Result<Expr, Refused<JobFault>>
    ensures { Gives result (optional (number (pos 1)) expression place Field.Test (view value.now)) }
{
    match member(value, Field::Test) {
        Some(v) => expression(alloc, v, place, Field::Test),
        None => Ok(Expr::one()),
    }
}

fn tag(value: &Value, place: Place) -> Result<Option<Key>, JobFault>
    ensures { result ≡ optional None (of_form (λ t. option_map (λ k. Some k) (key_form 16 t))) place Field.Tag (view value.now) }
{
    match member(value, Field::Tag) {
        Some(v) => Ok(Some(key(v, 16, place, Field::Tag)?)),
        None => Ok(None),
    }
}
