// The fields of a line, or why it has none, as `csv` reads them. It takes text of any form, so the form is tested before. Good
// lines are read in place and do not come here, so a reader for each line, of 100,000 instructions, is made once a file.
ghost use Rattle.std.specs.Prelude.{◌≡◌, ◌<◌, IfOk, IfSome, Some, [], ◌≢◌, true, length, not, position, option_map, slice_get, is_some};
ghost use Rattle.std.specs.List.{list_all};
ghost use Rattle.csv.specs.Records.{fields_of as record_fields};
ghost use Rattle.jet_lines.specs.Grammar.{is_line_byte};
ghost use Rattle.jet_lines.specs.Scan.{fields_of};
ghost use Rattle.jet_lines.specs.Readings.{Gives, fields_at, fields_or_fault};

use crate::cut::MOST_BYTES;
use crate::fault::LineFault;
use crate::form::has_form;
use csv::{ByteRecord, ReaderBuilder};
use jet_items::{NoMemory, Refused};
use std::alloc::Global;

/// The fields of a line that is not empty, or its first fault.
pub(crate) fn record_of(alloc: Global, line: &[u8]) -> Result<ByteRecord, Refused<LineFault>>
    requires { line.now ≢ [] }
    ensures { Gives record_fields result (fields_at line.now) }
{
    if line.len() > MOST_BYTES {
        return Err(Refused::Fault(LineFault::TooLong));
    }
    match first_bad(line) {
        Some(at) => Err(Refused::Fault(LineFault::BadByte(at as u32))),
        None => formed(alloc, line),
    }
}

// The same of a line whose bytes are good.
fn formed(alloc: Global, line: &[u8]) -> Result<ByteRecord, Refused<LineFault>>
    requires some { line.now ≢ [] }
    requires good { list_all is_line_byte line.now ≡ true }
    ensures { Gives record_fields result (fields_or_fault (fields_of line.now)) }
{
    if !has_form(line) {
        return Err(Refused::Fault(LineFault::Quote));
    }
    Ok(csv_fields(alloc, line)?)
}

// The fields of a line that has the form, as csv reads them.
fn csv_fields(alloc: Global, line: &[u8]) -> Result<ByteRecord, NoMemory>
    requires some { line.now ≢ [] }
    requires good { list_all is_line_byte line.now ≡ true }
    requires form { is_some (fields_of line.now) ≡ true }
    ensures { IfOk result (λ row. fields_of line.now ≡ Some (record_fields row)) }
{
    let mut reader = ReaderBuilder::new()
        .has_headers(false)
        .flexible(true)
        .from_reader(alloc, line);
    let mut row = ByteRecord::new(alloc);
    match reader.read_byte_record(&mut row) {
        Ok(_) => Ok(row),
        // Want of memory: a slice has no other failure, and a flexible reader of bytes refuses no record.
        Err(_) => Err(NoMemory),
    }
}

// Where the first byte stands that no line may hold.
fn first_bad(line: &[u8]) -> Option<usize>
    ensures place { result ≡ position (λ b. not (is_line_byte b)) line.now }
    ensures bound { IfSome result (λ at. at < length line.now) }
{
    line.iter().position(|b| !matches!(*b, 32..=126))
}

/// A field of a record.
pub(crate) fn text_at(row: &ByteRecord, i: usize) -> Option<&[u8]>
    ensures { option_map (λ s. s.now) result ≡ slice_get (record_fields row.now) i }
{
    row.get(i)
}
