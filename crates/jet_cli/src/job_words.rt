// The words behind `run`, `plan` and `check`: a job file's name, and the options `--workers`, `--members` and `--ring`.
ghost use Rattle.std.specs.Prelude.{◌≡◌, [], is_none, if◌then◌else◌, map, option_map, string_bytes};
ghost use Rattle.jet_cli.specs.JobWords.{Operand, Given, number_within};
ghost use Rattle.jet_cli.specs.inner.PartsView.{part_in, parts_left, job_with, nothing_found, ReadsPart};
ghost use Rattle.jet_cli.specs.Words.{job_of};
ghost use Rattle.jet_cli.specs.WordsView.{job_read};

use crate::digits::number_of;
use crate::parts::{Part, Parts};

/// The numbers that options give, in place of the job's own settings.
#[derive(Clone, Copy, Debug, PartialEq, Eq)]
pub struct Options {
    /// Workers per member, 1 to 8.
    pub workers: Option<i64>,
    /// Members, 1 to 4.
    pub members: Option<i64>,
    /// Slots of a ring, 2 to 65536.
    pub ring: Option<i64>,
}

/// What stands behind the word `run`, `plan` or `check`: the name of the job file, and the options.
#[derive(Clone, Copy, Debug, PartialEq, Eq)]
pub struct JobWords<'a> {
    pub job: &'a [u8],
    pub options: Options,
}

/// The job file's name and the options of these words, where they say them.
pub(crate) fn job_words(words: &[String]) -> Option<JobWords<'_>>
    ensures { option_map job_read result ≡ job_of (map string_bytes words.now) }
{
    read_parts(Parts::new(words), Found::new())
}

fn read_parts<'a>(mut parts: Parts<'a>, mut found: Found<'a>) -> Option<JobWords<'a>>
    ensures { option_map job_read result ≡ job_with found.entry (parts_left parts.entry) }
{
    while let Some(part) = parts.next() {
        found = found.with(part)?;
    }
    found.job_words()
}

// What the words so far say.
#[derive(Clone, Copy)]
struct Found<'a> {
    job: Option<&'a [u8]>,
    options: Options,
}

impl<'a> Found<'a> {
    fn new() -> Found<'a>
        ensures { result ≡ nothing_found }
    {
        Found {
            job: None,
            options: Options {
                workers: None,
                members: None,
                ring: None,
            },
        }
    }

    // One part more. A second operand, an option's second value and a part that is not known are refused.
    fn with(self, part: Part<'a>) -> Option<Found<'a>>
        ensures { ReadsPart self.entry (part_in part.entry) result }
    {
        match part {
            Part::Operand(word) => self.with_job(word.as_bytes()),
            Part::Given(name, value) => self.with_option(name, value),
            Part::Lone(_) => None,
        }
    }

    fn with_job(self, job: &'a [u8]) -> Option<Found<'a>>
        ensures { ReadsPart self.entry (Operand job.now) result }
    {
        Some(Found {
            job: Some(once(self.job, job)?),
            ..self
        })
    }

    fn with_option(self, name: &str, value: &str) -> Option<Found<'a>>
        ensures { ReadsPart self.entry (Given name.now value.now) result }
    {
        let old = self.options;
        let options = match name {
            "--workers" => Options {
                workers: Some(once(old.workers, number_within(value, 1, 8)?)?),
                ..old
            },
            "--members" => Options {
                members: Some(once(old.members, number_within(value, 1, 4)?)?),
                ..old
            },
            "--ring" => Options {
                ring: Some(once(old.ring, number_within(value, 2, 65_536)?)?),
                ..old
            },
            _ => return None,
        };
        Some(Found { options, ..self })
    }

    fn job_words(self) -> Option<JobWords<'a>>
        ensures { option_map job_read result ≡ job_with self.entry [] }
    {
        Some(JobWords {
            job: self.job?,
            options: self.options,
        })
    }
}

// The new value, where there was none.
fn once<T: Copy>(old: Option<T>, new: T) -> Option<T>
    ensures { result ≡ if is_none old then Some new else None }
{
    match old {
        Some(_) => None,
        None => Some(new),
    }
}

// The number of one to six digits, where it lies in this range.
fn number_within(word: &str, least: u64, most: u64) -> Option<i64>
    ensures { result ≡ number_within least most word.now }
{
    let number = number_of(word, 6)?;
    if least <= number && number <= most {
        Some(number as i64)
    } else {
        None
    }
}
