// What form a value has: a truth value, a number, a key or a text.
ghost use Rattle.std.specs.Prelude.{◌≡◌, ◌≤◌, false};
ghost use Rattle.jet_items.specs.Gives.{Gives};
ghost use Rattle.serde_json.specs.Find.{as_bool};
ghost use Rattle.serde_json.specs.View.{view};
ghost use Rattle.jet_job.specs.Forms.{of_form, whole, whole_from, key_form, text_form};
ghost use Rattle.jet_job.specs.Members.{optional};

use crate::member::member;
use crate::{Field, JobFault, Place};
use jet_items::{Key, Refused};
use jet_plan::Text;
use serde_json::Value;
use std::alloc::Global;

/// A truth value.
pub fn flag(value: &Value, place: Place, field: Field) -> Result<bool, JobFault>
    ensures { result ≡ of_form as_bool place field (view value.now) }
{
    value.as_bool().ok_or(JobFault::WrongKind(place, field))
}

/// The truth value of a member; false where there is none.
pub fn flag_or_false(value: &Value, place: Place, field: Field) -> Result<bool, JobFault>
    ensures { result ≡ optional false (of_form as_bool) place field (view value.now) }
{
    match member(value, field) {
        Some(v) => flag(v, place, field),
        None => Ok(false),
    }
}

/// A whole number within i64, without fraction and exponent.
pub fn whole(value: &Value, place: Place, field: Field) -> Result<i64, JobFault>
    ensures { result ≡ of_form whole place field (view value.now) }
{
    value.as_i64().ok_or(JobFault::WrongKind(place, field))
}

/// A whole number from `least` to `most`.
pub fn whole_from(
    value: &Value,
    least: i64,
    most: i64,
    place: Place,
    field: Field,
) -> Result<i64, JobFault>
    ensures { result ≡ of_form (whole_from least most) place field (view value.now) }
{
    match value.as_i64() {
        Some(z) if least <= z && z <= most => Ok(z),
        _ => Err(JobFault::WrongKind(place, field)),
    }
}

/// A key of at most `most` bytes.
pub fn key(value: &Value, most: u8, place: Place, field: Field) -> Result<Key, JobFault>
    requires { (1 ≤ most) × (most ≤ 40) }
    ensures { result ≡ of_form (key_form most) place field (view value.now) }
{
    match value.as_str() {
        Some(s) => Key::read(s.as_bytes(), most).map_err(|_| JobFault::WrongKind(place, field)),
        None => Err(JobFault::WrongKind(place, field)),
    }
}

/// A text of 1 to 255 bytes.
pub fn text(
    alloc: Global,
    value: &Value,
    place: Place,
    field: Field,
) -> Result<Text, Refused<JobFault>>
    ensures { Gives result (of_form text_form place field (view value.now)) }
{
    match value.as_str() {
        Some(s) => match Text::read(alloc, s.as_bytes())? {
            Some(text) => Ok(text),
            None => Err(Refused::Fault(JobFault::WrongKind(place, field))),
        },
        None => Err(Refused::Fault(JobFault::WrongKind(place, field))),
    }
}
