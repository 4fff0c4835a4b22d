// The files of a source.
ghost use Rattle.jet_items.specs.Gives.{Gives};
ghost use Rattle.std.specs.Option.{ok_or};
ghost use Rattle.serde_json.specs.View.{view, items_view};
ghost use Rattle.jet_job.specs.Forms.{of_form, each_form, text_form};
ghost use Rattle.jet_job.specs.Files.{files_form, files_in};

use crate::forms::text;
use crate::{Field, JobFault, Place};
use jet_items::{List, Refused};
use jet_plan::Text;
use serde_json::Value;
use std::alloc::Global;

/// The names of the files of a source: 1 to 256 texts of 1 to 255 bytes.
pub fn files(alloc: Global, value: &Value, place: Place) -> Result<List<Text>, Refused<JobFault>>
    ensures { Gives result (of_form files_form place Field.Files (view value.now)) }
{
    match value.as_array() {
        Some(items) => few_texts(alloc, items.as_slice(), place),
        None => Err(Refused::Fault(JobFault::WrongKind(place, Field::Files))),
    }
}

fn few_texts(alloc: Global, items: &[Value], place: Place) -> Result<List<Text>, Refused<JobFault>>
    ensures { Gives result (ok_or (files_in (items_view items.now)) (JobFault.WrongKind place Field.Files)) }
{
    let texts = each_text(alloc, items, place)?;
    let count = texts.items().len();
    if 1 <= count && count <= 256 {
        Ok(texts)
    } else {
        Err(Refused::Fault(JobFault::WrongKind(place, Field::Files)))
    }
}

fn each_text(alloc: Global, items: &[Value], place: Place) -> Result<List<Text>, Refused<JobFault>>
    ensures { Gives result (ok_or (each_form text_form (items_view items.now)) (JobFault.WrongKind place Field.Files)) }
{
    let mut texts = List::new(alloc);
    for item in items {
        texts.push(text(alloc, item, place, Field::Files)?)?;
    }
    Ok(texts)
}
