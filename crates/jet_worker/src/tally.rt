// The counting of a file's lines.
ghost use Rattle.std.specs.Prelude.{◌≡◌, ◌≤◌, ◌<◌, ◌-◌, ◌≤ℤ◌, ℕ, List, [], length, pos, OnOk, IfErr, IfOk, string_bytes};
ghost use Rattle.jet_lines.specs.Lines.{lines_of};
ghost use Rattle.jet_flow.specs.DataFiles.{DataFile as JobFile};
ghost use Rattle.jet_worker.specs.CheckText.{Checks, check_line};
ghost use Rattle.jet_worker.specs.Opening.{HasLag, file_in};
ghost use Rattle.jet_worker.specs.inner.Tallying.{IsSmall, RefusesLine, TakesLine, Tallied};

use crate::files::DataFile;
use crate::laws::laws_of_lines;
use crate::side_tally::SideTally;
use crate::source_tally::SourceTally;
use jet_items::Refused;
use jet_lines::LineFault;
use std::alloc::{AllocError, Global};

/// What the lines of a file come to, so far.
#[derive(Drop)]
pub(crate) enum Tally {
    Source(SourceTally),
    Side(SideTally),
}

impl Tally {
    /// No lines yet of the file of this number. `unit` is that of the watermarks.
    pub(crate) fn new(alloc: Global, part: u16, file: &DataFile<'_>, unit: i64) -> Tally
        requires lag { HasLag (file_in file.now) }
        requires unit { (pos 1 ≤ℤ unit) × (unit ≤ℤ pos 1000000000000) }
        ensures tallied { (c : Checks) → unit ≡ pos c.unit → Tallied c (part, file_in file.now) [] result }
        ensures small { IsSmall 0 result }
    {
        match file {
            DataFile::Source { lag, .. } => Tally::Source(SourceTally::new(part, *lag, unit)),
            DataFile::Side { .. } => Tally::Side(SideTally::new(alloc)),
        }
    }

    /// Counts a line, or tells its fault and stays as it is. Lines are numbered from 1 on.
    pub(crate) fn take(
        &mut self,
        alloc: Global,
        number: u32,
        line: &[u8],
    ) -> Result<(), Refused<LineFault>>
        requires number { 1 ≤ number }
        requires small { IsSmall (number - 1) self.old }
        ensures took { OnOk result (TakesLine number line.now self.old self.new) }
        ensures small { OnOk result (IsSmall number self.new) }
        ensures refused { IfErr result (RefusesLine number line.now self.old) }
    {
        match self {
            Tally::Source(tally) => tally.take(alloc, number, line),
            Tally::Side(tally) => {
                laws_of_lines();
                tally.take(alloc, number, line)
            }
        }
    }

    /// The line of the check text for the file of this number and so many lines.
    pub(crate) fn text(&self, alloc: Global, part: u16, lines: u32) -> Result<String, AllocError>
        ensures { IfOk result (λ text. (c : Checks) (file : JobFile) (bytes : List ℕ) → Tallied c (part, file) (lines_of bytes) self.now → lines ≡ length (lines_of bytes)
            → string_bytes text ≡ check_line c (part, file) bytes) }
    {
        match self {
            Tally::Source(tally) => tally.text(alloc, lines),
            Tally::Side(tally) => {
                laws_of_lines();
                tally.text(alloc, part, lines)
            }
        }
    }
}
