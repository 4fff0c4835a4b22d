// Which members each sort of vertex has.
ghost use Rattle.std.specs.Prelude.{◌≡◌, ◌∷◌};
ghost use Rattle.serde_json.specs.View.{view};
ghost use Rattle.jet_job.specs.Members.{only};
ghost use Rattle.jet_job.specs.Kinds.{own_fields};

use crate::member::only;
use crate::sort::Sort;
use crate::{Field, JobFault, Place};
use serde_json::Value;

/// Refuses a vertex with a member that its sort has not.
pub fn only_own(sort: Sort, value: &Value, place: Place) -> Result<(), JobFault>
    ensures { result ≡ only (Field.Name ∷ Field.Kind ∷ own_fields sort) place (view value.now) }
{
    use Field::{
        Fields, File, Files, Kind, Lag, Legs, Mode, Name, Parallelism, Rekey, Set, Size, Slide,
        Test,
    };
    match sort {
        Sort::Source => only(value, &[Name, Kind, Parallelism, Files, Lag], place),
        Sort::Side => only(value, &[Name, Kind, File], place),
        Sort::Map => only(value, &[Name, Kind, Parallelism, Set], place),
        Sort::Filter => only(value, &[Name, Kind, Parallelism, Test], place),
        Sort::Flat => only(value, &[Name, Kind, Parallelism, Legs], place),
        Sort::Join => only(
            value,
            &[Name, Kind, Parallelism, Mode, Rekey, Fields],
            place,
        ),
        Sort::Accumulate => only(value, &[Name, Kind, Parallelism, Size, Slide], place),
        Sort::Combine => only(value, &[Name, Kind, Parallelism], place),
        Sort::Sink => only(value, &[Name, Kind], place),
    }
}
