// The texts of rows and late lines. Each is made whole before it is appended, so that want of memory appends nothing.
ghost use Rattle.std.specs.Prelude.{◌≡◌, ◌≤◌, length, ◌++◌, [], ◌∷◌, pos, ◌≤ℤ◌, IfOk, OnOk, OnErr, decimal, string_bytes, flat_map, codes, map};
ghost use Rattle.std.specs.Fmt.{signed_decimal};
ghost use Rattle.jet_items.specs.LineText.{line_text};
ghost use Rattle.jet_file.specs.Text.{row_line, late_line};

use crate::line_end::LineEnd;
use jet_items::{Acc, Key, Late, NoMemory, Row};
use std::alloc::{AllocError, Global};

/// Appends the line of a row of the window of this name and size, from 1 to 10^12:
/// `NAME,START,END,KEY,COUNT,SUM,MIN,MAX`, where START is END less the size. The text grows by its own allocator.
pub fn print_row(
    _alloc: Global,
    row: &Row,
    size: i64,
    name: &Key,
    to: &mut Vec<u8>,
) -> Result<(), NoMemory>
    requires { (pos 1 ≤ℤ size) × (size ≤ℤ pos 1000000000000) }
    ensures ok { OnOk result (to.new.items ≡ to.old.items ++ row_line name.now size row.now) }
    ensures err { OnErr result (to.new.items ≡ to.old.items) }
{
    let end = row.end;
    let key = row.key;
    let line = row_text(name.bytes(), end - size, end, key.bytes(), &row.acc);
    to.extend_from_slice(line.bytes())?;
    Ok(())
}

/// Appends the line of a late event at the window of this name: `late,NAME,PART,LINE,TS,KEY,V0,V1,V2,V3`.
pub fn print_late(alloc: Global, late: &Late, name: &Key, to: &mut Vec<u8>) -> Result<(), NoMemory>
    ensures ok { OnOk result (to.new.items ≡ to.old.items ++ late_line name.now late.now.event) }
    ensures err { OnErr result (to.new.items ≡ to.old.items) }
{
    let event = late.event;
    let key = event.key;
    let text = late_text(
        alloc,
        name.bytes(),
        event.part,
        event.line,
        event.ts,
        key.bytes(),
        &event.v,
    )?;
    to.extend_from_slice(&text)?;
    Ok(())
}

// The line of a row.
fn row_text(name: &[u8], start: i64, end: i64, key: &[u8], acc: &Acc) -> LineEnd
    requires { (length name.now ≤ 40) × (length key.now ≤ 40) }
    ensures { result ≡ line_text (name.now ∷ signed_decimal start ∷ signed_decimal end ∷ key.now
        ∷ decimal acc.now.count ∷ signed_decimal acc.now.sum ∷ signed_decimal acc.now.min ∷ signed_decimal acc.now.max ∷ []) }
{
    let mut line = acc_text(acc);
    line.text(key, b',');
    line.number(end, b',');
    line.number(start, b',');
    line.text(name, b',');
    line
}

// The numbers of an accumulator, and a line feed.
fn acc_text(acc: &Acc) -> LineEnd
    ensures line { result ≡ decimal acc.now.count ++ 44 ∷ (signed_decimal acc.now.sum
        ++ 44 ∷ (signed_decimal acc.now.min ++ 44 ∷ (signed_decimal acc.now.max ++ 10 ∷ []))) }
    ensures length { length result ≤ 104 }
{
    let count = acc.count;
    let sum = acc.sum;
    let min = acc.min;
    let max = acc.max;
    let mut line = LineEnd::new();
    line.number(max, b'\n');
    line.number(min, b',');
    line.sum(sum, b',');
    line.count(count, b',');
    line
}

fn late_text(
    alloc: Global,
    name: &[u8],
    part: u16,
    line: u32,
    ts: i64,
    key: &[u8],
    values: &[i64],
) -> Result<Vec<u8>, AllocError>
    ensures { IfOk result (λ text. text.items ≡ line_text (codes "late" ∷ name.now ∷ decimal part ∷ decimal line ∷ signed_decimal ts ∷ key.now
        ∷ map signed_decimal values.now)) }
{
    let place = place_text(alloc, part, line, ts)?;
    let tail = values_text(alloc, values)?;
    let word = b"late,".to_vec(alloc)?;
    joined(word, name, place.as_bytes(), key, &tail)
}

// File, line and time between commas.
fn place_text(alloc: Global, part: u16, line: u32, ts: i64) -> Result<String, AllocError>
    ensures { IfOk result (λ text. string_bytes text ≡ 44 ∷ (decimal part ++ 44 ∷ (decimal line ++ 44 ∷ (signed_decimal ts ++ 44 ∷ [])))) }
{
    format!(in alloc; ",{part},{line},{ts},")
}

// Values, each after a comma, and a line feed.
fn values_text(alloc: Global, values: &[i64]) -> Result<Vec<u8>, AllocError>
    ensures { IfOk result (λ text. text.items ≡ flat_map (λ v. 44 ∷ signed_decimal v) values.now ++ 10 ∷ []) }
{
    let mut text = Vec::new(alloc);
    for value in values {
        let one = value_text(alloc, *value)?;
        text.extend_from_slice(one.as_bytes())?;
    }
    text.push(b'\n')?;
    Ok(text)
}

fn value_text(alloc: Global, value: i64) -> Result<String, AllocError>
    ensures { IfOk result (λ text. string_bytes text ≡ 44 ∷ signed_decimal value) }
{
    format!(in alloc; ",{value}")
}

// Four parts behind what is there.
fn joined(
    mut all: Vec<u8>,
    first: &[u8],
    second: &[u8],
    third: &[u8],
    fourth: &[u8],
) -> Result<Vec<u8>, AllocError>
    ensures { IfOk result (λ joined. joined.items ≡ all.items ++ (first.now ++ (second.now ++ (third.now ++ fourth.now)))) }
{
    all.extend_from_slice(first)?;
    all.extend_from_slice(second)?;
    all.extend_from_slice(third)?;
    all.extend_from_slice(fourth)?;
    Ok(all)
}
