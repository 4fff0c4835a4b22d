// The settings of a job file.
ghost use Rattle.std.specs.Prelude.{◌≡◌};
ghost use Rattle.serde_json.specs.Find.{get};
ghost use Rattle.serde_json.specs.View.{view};
ghost use Rattle.jet_job.specs.FieldNames.{field_name};
ghost use Rattle.jet_job.specs.SettingsText.{setting, settings_at, grants_at, or_empty};

use crate::forms::whole;
use crate::member::{member, object, only};
use crate::{Field, JobFault, Place};
use jet_plan::Settings;
use serde_json::Value;

/// The settings of a job, the defaults where the job has none.
pub fn settings_in(job: &Value) -> Result<Settings, JobFault>
    ensures { result ≡ settings_at (or_empty (get (field_name Field.Settings) (view job.now))) }
{
    match member(job, Field::Settings) {
        Some(value) => settings(value),
        None => Ok(Settings::default()),
    }
}

// The defaults are those of `Settings::default`.
fn settings(value: &Value) -> Result<Settings, JobFault>
    ensures { result ≡ settings_at (view value.now) }
{
    object(value, Place::Settings)?;
    only(
        value,
        &[
            Field::Workers,
            Field::Members,
            Field::Ring,
            Field::Packet,
            Field::Window,
            Field::Turns,
            Field::Ahead,
            Field::Lines,
            Field::Peak,
            Field::Multiplier,
            Field::Period,
        ],
        Place::Settings,
    )?;
    let workers = setting(value, 2, Field::Workers)?;
    let members = setting(value, 1, Field::Members)?;
    let ring = setting(value, 1024, Field::Ring)?;
    let packet = setting(value, 16_384, Field::Packet)?;
    let window = setting(value, 49_152, Field::Window)?;
    let turns = setting(value, 64, Field::Turns)?;
    let ahead = setting(value, 10_000, Field::Ahead)?;
    let lines = setting(value, 4_294_967_294, Field::Lines)?;
    let (peak, multiplier, period) = grants(value, window)?;
    Ok(Settings {
        workers,
        members,
        ring,
        packet,
        window,
        turns,
        ahead,
        lines,
        peak,
        multiplier,
        period,
    })
}

// What links grant: the most, the multiplier and the period. Where the most is not set, it is at least the least grant.
fn grants(value: &Value, window: i64) -> Result<(i64, i64, i64), JobFault>
    ensures { result ≡ grants_at window (view value.now) }
{
    let peak = setting(value, window.max(131_072), Field::Peak)?;
    let multiplier = setting(value, 3, Field::Multiplier)?;
    let period = setting(value, 64, Field::Period)?;
    Ok((peak, multiplier, period))
}

fn setting(value: &Value, default: i64, field: Field) -> Result<i64, JobFault>
    ensures { result ≡ setting default field (view value.now) }
{
    match member(value, field) {
        Some(v) => whole(v, Place::Settings, field),
        None => Ok(default),
    }
}
