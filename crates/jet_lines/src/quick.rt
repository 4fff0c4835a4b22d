// Good lines, read in one pass and in place. What is answered is what the definition says; a line with a fault is left to the
// reading of fields, which tells the fault. A field may stand between quotation marks, with none inside: no number and no key
// has one, so each good line is read here. Code for lines without quotation marks knows of none: one for both would take 120
// instructions more for each such line.
ghost use Rattle.std.specs.Prelude.{pos, neg_ℤ, ℕ, ◌≡◌, ◌<◌, ◌≤◌, ◌++◌, List, Ok, Some, IfSome, length, option_map, slice_index, take};
ghost use Rattle.jet_items.specs.KeyFaults.{key_at};
ghost use Rattle.jet_items.specs.Ranges.{IsWithin, most_time};
ghost use Rattle.std.specs.List.{AllByRecursion};
ghost use Rattle.jet_lines.specs.Numbers.{digits_at};
ghost use Rattle.jet_lines.specs.Quick.{AreValues, comma_and, HasFront, HasNumber, HasValue, IsAtFront};
ghost use Rattle.jet_lines.specs.Readings.{event_at, line_at, side_at};

use crate::cut::MOST_BYTES;
use crate::number::{MOST, leading_digits, number_of};
use jet_items::{Event, Key, Side};

/// The event of a line, where the line is good.
pub(crate) fn good_event(line: &[u8], part: u16, number: u32) -> Option<Event>
    ensures { IfSome result (λ e. line_at (event_at part number) line.now ≡ Ok (Some e)) }
{
    match quick_event::<false>(line, part, number) {
        Some(event) => Some(event),
        None => quick_event::<true>(line, part, number),
    }
}

/// The row of a side line, where the line is good.
pub(crate) fn good_side(line: &[u8], number: u32) -> Option<Side>
    ensures { IfSome result (λ s. line_at (side_at number) line.now ≡ Ok (Some s)) }
{
    match quick_side::<false>(line, number) {
        Some(side) => Some(side),
        None => quick_side::<true>(line, number),
    }
}

// The same, where none of the fields stands between quotation marks unless `QUOTED`.
fn quick_event<const QUOTED: bool>(line: &[u8], part: u16, number: u32) -> Option<Event>
    ensures { IfSome result (λ e. line_at (event_at part number) line.now ≡ Ok (Some e)) }
{
    if line.len() > MOST_BYTES {
        return None;
    }
    let (ts, after) = number_front::<QUOTED>(line)?;
    let (key_text, after) = field_front::<QUOTED>(after?)?;
    let key = key_of(key_text)?;
    let v = values::<QUOTED>(Some(after?))?;
    Some(Event {
        part,
        line: number,
        ts,
        key,
        v,
    })
}

// The row of such a side line.
fn quick_side<const QUOTED: bool>(line: &[u8], number: u32) -> Option<Side>
    ensures { IfSome result (λ s. line_at (side_at number) line.now ≡ Ok (Some s)) }
{
    if line.len() > MOST_BYTES {
        return None;
    }
    let (key_text, after) = field_front::<QUOTED>(line)?;
    let key = key_of(key_text)?;
    let (label_text, after) = field_front::<QUOTED>(after?)?;
    let label = key_of(label_text)?;
    let v = values::<QUOTED>(after)?;
    Some(Side {
        line: number,
        key,
        label,
        v,
    })
}

// The values to the end of the line; missing ones are 0.
fn values<const QUOTED: bool>(after: Option<&[u8]>) -> Option<[i64; 4]>
    ensures values { IfSome result (λ v. AreValues v (option_map (λ s. s.now) after.entry)) }
    ensures range { IfSome result (λ v. AllByRecursion (IsWithin most_time) v) }
{
    let (v0, after) = value::<QUOTED>(after)?;
    let (v1, after) = value::<QUOTED>(after)?;
    let (v2, after) = value::<QUOTED>(after)?;
    let (v3, after) = value::<QUOTED>(after)?;
    match after {
        Some(_) => None,
        None => Some([v0, v1, v2, v3]),
    }
}

// The value that comes next, and what stands behind it.
fn value<const QUOTED: bool>(after: Option<&[u8]>) -> Option<(i64, Option<&[u8]>)>
    ensures value { IfSome result (λ p. HasValue p.0 (option_map (λ s. s.now) after.entry) (option_map (λ s. s.now) p.1)) }
    ensures range { IfSome result (λ p. IsWithin most_time p.0) }
{
    match after {
        Some(bytes) => number_front::<QUOTED>(bytes),
        None => Some((0, None)),
    }
}

// The number at the front, and what stands behind it.
fn number_front<const QUOTED: bool>(bytes: &[u8]) -> Option<(i64, Option<&[u8]>)>
    ensures front { IfSome result (λ p. HasNumber p.0 bytes.now (option_map (λ s. s.now) p.1)) }
    ensures range { IfSome result (λ p. IsWithin most_time p.0) }
{
    if QUOTED {
        if let [b'"', ..] = bytes {
            let (text, after) = field_front::<QUOTED>(bytes)?;
            return Some((number_of(text)?, after));
        }
    }
    if let [b'-', digits @ ..] = bytes {
        let (n, after) = digits_front(digits)?;
        return Some((negative(n), after));
    }
    let (n, after) = digits_front(bytes)?;
    Some((n as i64, after))
}

// A number of at most 10^15 below zero.
fn negative(n: u64) -> i64
    requires { n ≤ 1000000000000000 }
    ensures value { result ≡ neg_ℤ (pos n) }
    ensures range { IsWithin most_time result }
{
    -(n as i64)
}

// The digits at the front, which are one to sixteen with a value of at most 10^15, and what stands behind them.
fn digits_front(bytes: &[u8]) -> Option<(u64, Option<&[u8]>)>
    ensures front { IfSome result (λ p. (text : List ℕ) × (digits_at text ≡ Some p.0) × (bytes.now ≡ text ++ comma_and (option_map (λ s. s.now) p.1))) }
    ensures most { IfSome result (λ p. p.0 ≤ 1000000000000000) }
{
    let (n, len) = leading_digits(bytes);
    if len == 0 || n > MOST {
        return None;
    }
    Some((n, behind(bytes, len)?))
}

// The key that a field holds.
fn key_of(text: &[u8]) -> Option<Key>
    ensures { IfSome result (λ key. key_at 24 text.now ≡ Ok key) }
{
    Key::read(text, 24).ok()
}

// The field at the front, without the quotation marks round it, and what stands behind it.
fn field_front<const QUOTED: bool>(bytes: &[u8]) -> Option<(&[u8], Option<&[u8]>)>
    ensures { IfSome result (λ p. IsAtFront p.0.now bytes.now (option_map (λ s. s.now) p.1)) }
{
    if QUOTED {
        if let [b'"', inner @ ..] = bytes {
            let len = len_before(b'"', inner)?;
            return Some((&inner[..len], behind(inner, len + 1)?));
        }
    }
    let len = len_before(b',', bytes).unwrap_or(bytes.len());
    Some((&bytes[..len], behind(bytes, len)?))
}

// How many bytes stand before the first one that is this.
fn len_before(mark: u8, bytes: &[u8]) -> Option<usize>
    ensures within { IfSome result (λ len. len < length bytes.now) }
    ensures here { IfSome result (λ len. slice_index bytes.now len ≡ mark) }
{
    bytes.iter().position(|b| *b == mark)
}

// What stands behind a field of so many bytes, if that is the end of the line or a comma and what follows it.
fn behind(bytes: &[u8], len: usize) -> Option<Option<&[u8]>>
    requires { len ≤ length bytes.now }
    ensures { IfSome result (λ after. bytes.now ≡ take len bytes.now ++ comma_and (option_map (λ s. s.now) after)) }
{
    match &bytes[len..] {
        [] => Some(None),
        [b',', rest @ ..] => Some(Some(rest)),
        _ => None,
    }
}
