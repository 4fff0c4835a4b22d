// The words of a job file, and what each stands for.
ghost use Rattle.std.specs.Prelude.{◌≡◌, option_map, bytes_eq};
ghost use Rattle.std.specs.List.{find};
ghost use Rattle.serde_json.specs.View.{view};
ghost use Rattle.jet_job.specs.Forms.{of_form, word_form};
ghost use Rattle.jet_job.specs.Words.{routes, modes, sorts};

use crate::sort::Sort;
use crate::{Field, JobFault, Place};
use jet_plan::{ModeSpec, Route};
use serde_json::Value;

/// The word for a route.
pub fn route(value: &Value, place: Place) -> Result<Route, JobFault>
    ensures { result ≡ of_form (word_form routes) place Field.Route (view value.now) }
{
    let route = match value.as_str() {
        Some(word) => route_of(word),
        None => None,
    };
    route.ok_or(JobFault::WrongKind(place, Field::Route))
}

/// The word for what a join does.
pub fn mode(value: &Value, place: Place) -> Result<ModeSpec, JobFault>
    ensures { result ≡ of_form (word_form modes) place Field.Mode (view value.now) }
{
    let mode = match value.as_str() {
        Some(word) => mode_of(word),
        None => None,
    };
    mode.ok_or(JobFault::WrongKind(place, Field::Mode))
}

/// The word for a sort of vertex.
pub fn sort(value: &Value, place: Place) -> Result<Sort, JobFault>
    ensures { result ≡ of_form (word_form sorts) place Field.Kind (view value.now) }
{
    let sort = match value.as_str() {
        Some(word) => sort_of(word),
        None => None,
    };
    sort.ok_or(JobFault::WrongKind(place, Field::Kind))
}

fn route_of(word: &str) -> Option<Route>
    ensures { result ≡ option_map (λ w. w.1) (find (λ w. bytes_eq word.now w.0) routes) }
{
    match word {
        "unicast" => Some(Route::Unicast),
        "isolated" => Some(Route::Isolated),
        "partitioned" => Some(Route::Partitioned),
        "broadcast" => Some(Route::Broadcast),
        _ => None,
    }
}

fn mode_of(word: &str) -> Option<ModeSpec>
    ensures { result ≡ option_map (λ w. w.1) (find (λ w. bytes_eq word.now w.0) modes) }
{
    match word {
        "inner" => Some(ModeSpec::Inner),
        "left" => Some(ModeSpec::Left),
        _ => None,
    }
}

fn sort_of(word: &str) -> Option<Sort>
    ensures { result ≡ option_map (λ w. w.1) (find (λ w. bytes_eq word.now w.0) sorts) }
{
    match word {
        "source" => Some(Sort::Source),
        "side" => Some(Sort::Side),
        "map" => Some(Sort::Map),
        "filter" => Some(Sort::Filter),
        "flat" => Some(Sort::Flat),
        "join" => Some(Sort::Join),
        "accumulate" => Some(Sort::Accumulate),
        "combine" => Some(Sort::Combine),
        "sink" => Some(Sort::Sink),
        _ => None,
    }
}
