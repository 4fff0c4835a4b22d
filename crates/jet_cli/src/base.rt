// The run of `window`: one file, read piece by piece, and one window over its events. A row is written as soon as the
// watermark has passed its end, before the next piece is read.
ghost use Rattle.std.specs.Prelude.{◌≡◌, ◌≤◌, ◌<◌, ◌≤ℤ◌, pos, List, [], OnOk, IfErr, All, Err, true};
ghost use Rattle.jet_items.specs.Values.{EventValue, RowValue};
ghost use Rattle.jet_cli.specs.Counting.{Counts};
ghost use Rattle.jet_cli.specs.LineStops.{LineStop, RunStops, StepStops};
ghost use Rattle.jet_cli.specs.inner.Progress.{TookLine};
ghost use Rattle.jet_file.specs.Outside.{WhereTold, LacksFile};
ghost use Rattle.jet_cli.specs.inner.Ending.{Ends};
ghost use Rattle.jet_worker.specs.Calls.{Calling};
ghost use Rattle.jet_worker.specs.Stopping.{IsForOutside, IsNoBadLine, IsWriting, OpenOutcome, Outcome};
ghost use Rattle.jet_cli.specs.Done.{IsDone};
ghost use Rattle.jet_cli.specs.WordsView.{window_in};
ghost use Rattle.jet_items.specs.Ranges.{most_time};
ghost use Rattle.jet_cli.specs.inner.Took.{IsInStep, Prints};
ghost use Rattle.jet_cli.specs.Words.{WindowCommand};

use crate::counter::WindowCounter;
use crate::lower_laws::{laws_of_files, laws_of_lines};
use crate::{Spot, Stop, WindowWords};
use jet_file::Outside;
use jet_items::Refused;
use jet_lines::{Cut, Lines, read_event};
use jet_policy::WinPolicy;
use jet_worker::{open_data, read_piece};
use std::alloc::Global;

// Reads one line, counts what it holds, and writes what that closes.
fn take_line<O: Outside>(
    alloc: Global,
    line: &[u8],
    number: u32,
    counter: &mut WindowCounter,
    out: &mut O,
) -> Result<(), Stop>
    requires in_step { IsInStep counter.old }
    requires size { (pos 1 ≤ℤ counter.old.size) × (counter.old.size ≤ℤ pos 1000000000000) }
    requires grain { pos 1 ≤ℤ counter.old.marker.grain }
    ensures took { OnOk result ((c : WindowCommand) (events : List EventValue) (table : List RowValue)
        → Counts c events table counter.old.marker counter.old.window → Prints c counter.old → All (λ e. e.line < number) events
        → counter.old.rows.items ≡ [] → counter.old.notes.items ≡ []
        → TookLine c events table number line.now (O.told out.old) (O.told out.new) counter.new) }
    ensures stop { IfErr result (LineStop number line.now (O.told out.old) (O.told out.new)) }
    ensures outcome { Outcome O.opened O.steady O.faults out.old out.new result }
{
    laws_of_lines();
    match read_event(alloc, line, 0, number) {
        Ok(Some(event)) => match counter.take(alloc, event) {
            Ok(()) => counter.write(out),
            Err(_) => Err(Stop::NoMemory),
        },
        Ok(None) => Ok(()),
        Err(Refused::Fault(why)) => Err(Stop::BadLine {
            part: 0,
            line: number,
            why,
        }),
        Err(Refused::NoMemory) => Err(Stop::NoMemory),
    }
}

// Closes what is left at the end of the file, and writes it.
fn end_file<O: Outside>(alloc: Global, counter: &mut WindowCounter, out: &mut O) -> Result<(), Stop>
    requires { (pos 1 ≤ℤ counter.old.size) × (counter.old.size ≤ℤ pos 1000000000000) }
    ensures ends { OnOk result ((c : WindowCommand) (events : List EventValue) (table : List RowValue)
        → Counts c events table counter.old.marker counter.old.window → Prints c counter.old
        → counter.old.rows.items ≡ [] → counter.old.notes.items ≡ []
        → Ends c events table (O.told out.old) (O.told out.new)) }
    ensures stop { IfErr result (λ stop. IsNoBadLine stop × WhereTold (StepStops IsWriting stop) (O.told out.old) (O.told out.new)) }
    ensures outcome { Outcome O.opened O.steady O.faults out.old out.new result }
{
    match counter.finish(alloc) {
        Ok(()) => counter.write(out),
        Err(_) => Err(Stop::NoMemory),
    }
}

/// Runs one window over one file: `policy` has the sizes of the words.
pub(crate) fn run_window<O: Outside>(
    alloc: Global,
    policy: WinPolicy,
    words: &WindowWords<'_>,
    out: &mut O,
) -> Result<(), Stop>
    requires size { policy.size ≡ pos words.now.size }
    requires slide { policy.slide ≡ pos words.now.slide }
    requires lag { words.now.lag ≤ most_time }
    ensures done { OnOk result (WhereTold (IsDone (window_in words.now) (O.opened out.old) (O.opened out.new)) (O.told out.old) (O.told out.new)) }
    ensures stop { IfErr result (λ stop. WhereTold (Calling (RunStops (window_in words.now) stop)) (O.told out.old) (O.told out.new)) }
    ensures works { O.steady out.old ≡ true → IfErr result (λ stop. IsForOutside stop → LacksFile words.now.file.now (O.told out.old)) }
    ensures outcome { OpenOutcome O.steady O.faults out.old out.new result }
{
    laws_of_files();
    laws_of_lines();
    let file = open_data(out, Spot::Part(0), words.file)?;
    let mut lines = Lines::new(alloc, MOST_LINES);
    let mut counter = WindowCounter::new(alloc, policy, words.lag as i64);
    'cuts: loop {
        match lines.next() {
            Cut::Line(number) => take_line(alloc, lines.line(), number, &mut counter, out)?,
            Cut::More => read_piece(out, Spot::Part(0), file, &mut lines)?,
            Cut::Bad(line, why) => return Err(Stop::BadLine { part: 0, line, why }),
            Cut::End => return end_file(alloc, &mut counter, out),
        }
    }
}

// The greatest number of lines of a file.
const MOST_LINES: u32 = 4_294_967_294;
