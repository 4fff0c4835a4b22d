// What a line of a source or side file holds. Fields are read from the left, and the first fault is the answer.
ghost use Rattle.std.specs.Prelude.{◌≡◌, ℕ, ◌≤◌, option_map, IfOk, map, slice_get, Option, List, length};
ghost use Rattle.std.specs.List.{AllByRecursion};
ghost use Rattle.csv.specs.Records.{fields_of as record_fields};
ghost use Rattle.jet_items.specs.Ranges.{IsWithin, most_time};
ghost use Rattle.jet_lines.specs.Readings.{Gives, entry_at, event_at, event_line, key_of, side_at, side_line, value_at, values_at};

use crate::entry::Entry;
use crate::fault::LineFault;
use crate::number::number_of;
use crate::quick::{good_event, good_side};
use crate::record::{record_of, text_at};
use csv::ByteRecord;
use jet_items::{Event, Key, Refused, Side};
use std::alloc::Global;

// An idle note.
const IDLE: &[u8] = b"#idle";

/// The event of a line `ts,key,v0[,v1[,v2[,v3]]]` of a source file, or the line's first fault. An empty line holds nothing,
/// and the line `#idle` is an idle note.
///
/// `part` is the number of the file and `number` that of the line, from 1 on. The line stands without its line feed.
pub fn read_line(
    alloc: Global,
    line: &[u8],
    part: u16,
    number: u32,
) -> Result<Entry, Refused<LineFault>>
    ensures { Gives (λ o. o) result (entry_at part number line.now) }
{
    if line.is_empty() {
        return Ok(Entry::Nothing);
    }
    if line == IDLE {
        return Ok(Entry::Idle);
    }
    if let Some(event) = good_event(line, part, number) {
        return Ok(Entry::Event(event));
    }
    match record_of(alloc, line) {
        Ok(row) => match event_of(&row, part, number) {
            Ok(event) => Ok(Entry::Event(event)),
            Err(fault) => Err(Refused::Fault(fault)),
        },
        Err(refused) => Err(refused),
    }
}

/// The event of such a line, where it holds one: for a loop that does not treat idle notes.
pub fn read_event(
    alloc: Global,
    line: &[u8],
    part: u16,
    number: u32,
) -> Result<Option<Event>, Refused<LineFault>>
    ensures { Gives (λ o. o) result (event_line part number line.now) }
{
    match read_line(alloc, line, part, number) {
        Ok(entry) => Ok(entry.event()),
        Err(refused) => Err(refused),
    }
}

/// The row of a line `key,label[,v0[,v1[,v2[,v3]]]]` of a side file, or the line's first fault. An empty line holds none.
///
/// `number` is that of the line, from 1 on. Whether the key has too many rows in its file is not asked here.
pub fn read_side(
    alloc: Global,
    line: &[u8],
    number: u32,
) -> Result<Option<Side>, Refused<LineFault>>
    ensures { Gives (λ o. o) result (side_line number line.now) }
{
    if line.is_empty() {
        return Ok(None);
    }
    if let Some(side) = good_side(line, number) {
        return Ok(Some(side));
    }
    match record_of(alloc, line) {
        Ok(row) => match side_of(&row, number) {
            Ok(side) => Ok(Some(side)),
            Err(fault) => Err(Refused::Fault(fault)),
        },
        Err(refused) => Err(refused),
    }
}

// The event of a line's fields.
fn event_of(row: &ByteRecord, part: u16, number: u32) -> Result<Event, LineFault>
    ensures { result ≡ event_at part number (record_fields row.now) }
{
    if row.len() < 3 || row.len() > 6 {
        return Err(LineFault::Fields);
    }
    let ts = value_of(row, 0, 0)?;
    let key = key_of(row, 1)?;
    let v = values_of(row)?;
    Ok(Event {
        part,
        line: number,
        ts,
        key,
        v,
    })
}

// The row of a side line's fields.
fn side_of(row: &ByteRecord, number: u32) -> Result<Side, LineFault>
    ensures { result ≡ side_at number (record_fields row.now) }
{
    if row.len() < 2 || row.len() > 6 {
        return Err(LineFault::Fields);
    }
    let key = key_of(row, 0)?;
    let label = key_of(row, 1)?;
    let v = values_of(row)?;
    Ok(Side {
        line: number,
        key,
        label,
        v,
    })
}

// The four values, from the third field on.
fn values_of(row: &ByteRecord) -> Result<[i64; 4], LineFault>
    ensures value { result ≡ values_at (record_fields row.now) }
    ensures range { IfOk result (λ v. AllByRecursion (IsWithin most_time) v) }
{
    let v0 = value_of(row, 2, 1)?;
    let v1 = value_of(row, 3, 2)?;
    let v2 = value_of(row, 4, 3)?;
    let v3 = value_of(row, 5, 4)?;
    Ok([v0, v1, v2, v3])
}

// The number of a field, and 0 where there is none.
fn value_of(row: &ByteRecord, i: usize, place: u8) -> Result<i64, LineFault>
    ensures value { result ≡ value_at place (slice_get (record_fields row.now) i) }
    ensures range { IfOk result (λ z. IsWithin most_time z) }
{
    match text_at(row, i) {
        Some(text) => match number_of(text) {
            Some(n) => Ok(n),
            None => Err(LineFault::Number(place)),
        },
        None => Ok(0),
    }
}

// The key of a field.
fn key_of(row: &ByteRecord, i: usize) -> Result<Key, LineFault>
    ensures { result ≡ key_of (slice_get (record_fields row.now) i) }
{
    match text_at(row, i) {
        Some(text) => match Key::read(text, 24) {
            Ok(key) => Ok(key),
            Err(fault) => Err(LineFault::Key(fault)),
        },
        None => Err(LineFault::Fields),
    }
}
