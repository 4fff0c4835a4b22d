// The reading of one file to its end.
ghost use Rattle.std.specs.Prelude.{◌≡◌, ◌≤◌, ◌-◌, ℕ, [], pos, IsTrue, OnOk, IfErr};
ghost use Rattle.jet_file.specs.Outside.{WhereTold};
ghost use Rattle.jet_lines.specs.Files.{most_lines};
ghost use Rattle.jet_flow.specs.DataFiles.{DataFile as JobFile};
ghost use Rattle.jet_worker.specs.CheckText.{Checks};
ghost use Rattle.jet_worker.specs.inner.FileChecks.{TalliesFile};
ghost use Rattle.jet_worker.specs.Stopping.{Outcome};
ghost use Rattle.jet_worker.specs.inner.Tallying.{IsSmall, RefusesLine, StopsAtLine, TakesLine, Tallied};

use crate::feed::read_piece;
use crate::laws::laws_of_lines;
use crate::tally::Tally;
use crate::{Spot, Stop};
use jet_file::{FileNo, Outside};
use jet_items::Refused;
use jet_lines::{Cut, Lines};
use std::alloc::Global;

/// Reads the file of this number among the files, of at most `most` lines, to its end, and counts its lines. The answer
/// is how many there are.
pub(crate) fn tally_lines<O: Outside>(
    alloc: Global,
    part: u16,
    file: FileNo,
    most: u32,
    tally: &mut Tally,
    out: &mut O,
) -> Result<u32, Stop>
    requires opened { IsTrue (O.opened out.old file) }
    requires most { most ≤ most_lines }
    requires small { IsSmall 0 tally.old }
    ensures told { (c : Checks) (f : JobFile) → c.most ≡ most → Tallied c (part, f) [] tally.old
        → WhereTold (TalliesFile c (part, f) file tally.new result) (O.told out.old) (O.told out.new) }
    ensures outcome { Outcome O.opened O.steady O.faults out.old out.new result }
{
    laws_of_lines();
    let mut lines = Lines::new(alloc, most);
    let mut count = 0;
    'cuts: loop {
        match lines.next() {
            Cut::Line(number) => {
                take_line(alloc, part, number, lines.line(), tally)?;
                count = number;
            }
            Cut::More => read_piece(out, Spot::Part(part), file, &mut lines)?,
            Cut::Bad(line, why) => return Err(Stop::BadLine { part, line, why }),
            Cut::End => return Ok(count),
        }
    }
}

fn take_line(
    alloc: Global,
    part: u16,
    number: u32,
    line: &[u8],
    tally: &mut Tally,
) -> Result<(), Stop>
    requires number { 1 ≤ number }
    requires small { IsSmall (number - 1) tally.old }
    ensures took { OnOk result (TakesLine number line.now tally.old tally.new) }
    ensures small { OnOk result (IsSmall number tally.new) }
    ensures stop { IfErr result (StopsAtLine part number line.now tally.old) }
{
    match tally.take(alloc, number, line) {
        Ok(()) => Ok(()),
        Err(Refused::Fault(why)) => Err(Stop::BadLine {
            part,
            line: number,
            why,
        }),
        Err(Refused::NoMemory) => Err(Stop::NoMemory),
    }
}
