// The fields of the events that a join gives.
ghost use Rattle.std.specs.Prelude.{◌≡◌, ◌∷◌, [], option_map, bytes_eq};
ghost use Rattle.std.specs.List.{find};
ghost use Rattle.serde_json.specs.View.{view, items_view};
ghost use Rattle.jet_job.specs.Forms.{of_form, word_form};
ghost use Rattle.jet_job.specs.Members.{optional};
ghost use Rattle.jet_job.specs.Words.{joint_fields};
ghost use Rattle.jet_job.specs.Joints.{fields_in, fields_form};

use crate::member::member;
use crate::{Field, JobFault, Place};
use serde_json::Value;

/// Which fields the four values of a joined event are; its own four where the member is missing.
pub fn fields_or_own(value: &Value, place: Place) -> Result<[u8; 4], JobFault>
    ensures { result ≡ optional (0 ∷ 1 ∷ 2 ∷ 3 ∷ []) (of_form fields_form) place Field.Fields (view value.now) }
{
    match member(value, Field::Fields) {
        Some(v) => fields(v, place),
        None => Ok([0, 1, 2, 3]),
    }
}

fn fields(value: &Value, place: Place) -> Result<[u8; 4], JobFault>
    ensures { result ≡ of_form fields_form place Field.Fields (view value.now) }
{
    let fields = match value.as_array() {
        Some(items) => four_fields(items.as_slice()),
        None => None,
    };
    fields.ok_or(JobFault::WrongKind(place, Field::Fields))
}

fn four_fields(items: &[Value]) -> Option<[u8; 4]>
    ensures { result ≡ fields_in (items_view items.now) }
{
    match items {
        [a, b, c, d] => Some([field(a)?, field(b)?, field(c)?, field(d)?]),
        _ => None,
    }
}

fn field(value: &Value) -> Option<u8>
    ensures { result ≡ word_form joint_fields (view value.now) }
{
    field_of(value.as_str()?)
}

fn field_of(word: &str) -> Option<u8>
    ensures { result ≡ option_map (λ w. w.1) (find (λ w. bytes_eq word.now w.0) joint_fields) }
{
    match word {
        "v0" => Some(0),
        "v1" => Some(1),
        "v2" => Some(2),
        "v3" => Some(3),
        "s0" => Some(4),
        "s1" => Some(5),
        "s2" => Some(6),
        "s3" => Some(7),
        _ => None,
    }
}
