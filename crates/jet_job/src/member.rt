// Members of objects.
ghost use Rattle.std.specs.Prelude.{◌≡◌, option_map, Ok, Err, string_bytes, MatchResult};
ghost use Rattle.std.specs.List.{list_all};
ghost use Rattle.std.specs.Map.{keys_of};
ghost use Rattle.serde_json.specs.Find.{get};
ghost use Rattle.serde_json.specs.View.{view};
ghost use Rattle.jet_job.specs.FieldNames.{field_name};
ghost use Rattle.jet_job.specs.Members.{is_one_of, object_at, only, required};

use crate::{Field, JobFault, Place};
use serde_json::{Map, Value};

/// The member, if it is there.
pub fn member(value: &Value, field: Field) -> Option<&Value>
    ensures { option_map (λ v. view v.now) result ≡ get (field_name field) (view value.now) }
{
    value.get(field.name())
}

/// The member, or that it is missing.
pub fn required(value: &Value, place: Place, field: Field) -> Result<&Value, JobFault>
    ensures { MatchResult result
        (λ v. required place field (view value.now) ≡ Ok (view v.now))
        (λ e. required place field (view value.now) ≡ Err e) }
{
    match member(value, field) {
        Some(v) => Ok(v),
        None => Err(JobFault::Missing(place, field)),
    }
}

/// Refuses what is no object.
pub fn object(value: &Value, place: Place) -> Result<(), JobFault>
    ensures { result ≡ object_at place (view value.now) }
{
    if value.is_object() {
        Ok(())
    } else {
        Err(JobFault::WrongKind(place, Field::Itself))
    }
}

/// Refuses an object with a member other than these.
#[tactic(auto, using(crate::proofs::Names::names_same))]
pub fn only(value: &Value, fields: &[Field], place: Place) -> Result<(), JobFault>
    ensures { result ≡ only fields.now place (view value.now) }
{
    match value.as_object() {
        Some(map) if !are_known(fields, map) => Err(JobFault::UnknownField(place)),
        _ => Ok(()),
    }
}

fn are_known(fields: &[Field], map: &Map<String, Value>) -> bool
    ensures { result ≡ list_all (λ k. is_one_of fields.now (string_bytes k)) (keys_of map.now.entries) }
{
    map.keys().all(|k| is_one_of(fields, k.as_str()))
}

fn is_one_of(fields: &[Field], name: &str) -> bool
    ensures { result ≡ is_one_of fields.now name.now }
{
    fields.iter().any(|f| f.name() == name)
}
