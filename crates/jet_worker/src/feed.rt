// The steps of a run on the outside: opening, reading a piece, writing a text. Each names the call that fails.
ghost use Rattle.std.specs.Prelude.{◌≡◌, ◌≤◌, ◌<◌, ◌+◌, ◌*◌, length, max, IsTrue, OnOk, IfOk, false, true, IfErr};
ghost use Rattle.jet_file.specs.Outside.{WhereTold, LacksFile};
ghost use Rattle.jet_worker.specs.Feeding.{AddsData, Flushes, OpensData, PutsPiece, ReadsBytes, ReadsPiece, WritesText};
ghost use Rattle.jet_worker.specs.Stopping.{IsForOutside, IsNoBadLine, IsOfCall, OpenOutcome, Outcome};
ghost use Rattle.jet_worker.specs.inner.Stopped.{stop_of, spot_of};

use crate::{Call, Spot, Stop};
use jet_file::{FileNo, Out, OutFault, Outside, what_is_left_of_a_file, write_all};
use jet_lines::Lines;

/// Opens the file of this name, which is read for `spot`.
pub fn open_data<O: Outside>(out: &mut O, spot: Spot, name: &[u8]) -> Result<FileNo, Stop>
    ensures told { WhereTold (OpensData spot name.now result) (O.told out.old) (O.told out.new) }
    ensures opened { AddsData (O.opened out.old) (O.opened out.new) result }
    ensures outcome { OpenOutcome O.steady O.faults out.old out.new result }
    ensures works { O.steady out.old ≡ true → IfErr result (λ stop. IsForOutside stop → LacksFile name.now (O.told out.old)) }
    ensures call { IfErr result (IsOfCall Call.Open spot) }
    ensures no_bad_line { IfErr result IsNoBadLine }
{
    match out.open_file(name) {
        Ok(file) => Ok(file),
        Err(fault) => Err(stop_of(fault, Call::Open, spot)),
    }
}

/// Puts the next bytes of an opened file at the front of the buffer, and answers how many: 0 only at its end.
pub fn read_bytes<O: Outside>(
    out: &mut O,
    spot: Spot,
    file: FileNo,
    buf: &mut [u8],
) -> Result<usize, Stop>
    requires opened { IsTrue (O.opened out.old file) }
    requires room { 0 < length buf.old }
    ensures told { WhereTold (ReadsBytes spot file buf.new result) (O.told out.old) (O.told out.new) }
    ensures bound { IfOk result (λ n. n ≤ length buf.new) }
    ensures outcome { Outcome O.opened O.steady O.faults out.old out.new result }
    ensures call { IfErr result (IsOfCall Call.Read spot) }
    ensures no_bad_line { IfErr result IsNoBadLine }
{
    match out.read(file, buf) {
        Ok(count) => Ok(count),
        Err(fault) => Err(stop_of(fault, Call::Read, spot)),
    }
}

// The most bytes of a piece.
const MOST_PIECE: usize = 4096;

/// Reads the next piece of a data file to its lines, of at most 4096 bytes. Room for it is made before, so that no byte is
/// lost: after an error the file and the lines are as they were. Memory stays flat: lines hold at most twice the last line,
/// what is left and two bytes, and a piece, unless they held more before.
pub fn read_piece<O: Outside>(
    out: &mut O,
    spot: Spot,
    file: FileNo,
    lines: &mut Lines,
) -> Result<(), Stop>
    requires opened { IsTrue (O.opened out.old file) }
    requires open { lines.old.ended ≡ false }
    ensures told { WhereTold (ReadsPiece spot file lines.old lines.new result) (O.told out.old) (O.told out.new) }
    ensures lines { OnOk result (PutsPiece lines.old lines.new) }
    ensures kept { IfErr result (λ stop. lines.new ≡ record lines.old { held = lines.new.held }) }
    ensures flat { lines.new.held ≤ max lines.old.held (2 * (length lines.old.line + 2 + length lines.old.rest) + 4096) }
    ensures outcome { Outcome O.opened O.steady O.faults out.old out.new result }
    ensures no_bad_line { IfErr result IsNoBadLine }
{
    what_is_left_of_a_file();
    if lines.reserve(MOST_PIECE).is_err() {
        return Err(Stop::NoMemory);
    }
    let mut buf = [0; MOST_PIECE];
    match read_bytes(out, spot, file, &mut buf) {
        Ok(0) => {
            lines.end();
            Ok(())
        }
        Ok(count) => {
            lines.append(&buf[..count]);
            Ok(())
        }
        Err(stop) => Err(stop),
    }
}

/// Appends a text to an output.
pub fn write_text<O: Outside>(out: &mut O, to: Out, text: &[u8]) -> Result<(), Stop>
    ensures told { WhereTold (WritesText to text.now result) (O.told out.old) (O.told out.new) }
    ensures outcome { Outcome O.opened O.steady O.faults out.old out.new result }
    ensures no_bad_line { IfErr result IsNoBadLine }
{
    match write_all(out, to, text) {
        Ok(()) => Ok(()),
        Err(fault) => Err(stop_of(fault, Call::Write, spot_of(to))),
    }
}

/// Appends late lines to the notes and then rows to the rows.
pub fn write_texts<O: Outside>(out: &mut O, rows: &[u8], notes: &[u8]) -> Result<(), Stop>
    ensures told { WhereTold (Flushes rows.now notes.now result) (O.told out.old) (O.told out.new) }
    ensures outcome { Outcome O.opened O.steady O.faults out.old out.new result }
    ensures no_bad_line { IfErr result IsNoBadLine }
{
    match write_text(out, Out::Notes, notes) {
        Ok(()) => match write_text(out, Out::Rows, rows) {
            Ok(()) => Ok(()),
            Err(stop) => Err(stop),
        },
        Err(stop) => Err(stop),
    }
}

fn spot_of(to: Out) -> Spot
    ensures { result ≡ spot_of to }
{
    match to {
        Out::Rows => Spot::Rows,
        Out::Notes => Spot::Notes,
    }
}

fn stop_of(fault: OutFault, call: Call, file: Spot) -> Stop
    ensures stop { result ≡ stop_of fault call file }
    ensures call { IsOfCall call file result }
{
    match fault {
        OutFault::Failed => Stop::Outside { call, file },
        OutFault::NoMemory => Stop::NoMemory,
    }
}
