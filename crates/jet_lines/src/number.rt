// The numbers of a line: timestamps and values.
ghost use Rattle.std.specs.Prelude.{◌≡◌, ◌≤◌, ◌<◌, IfSome, true, false, length, take, slice_index};
ghost use Rattle.std.specs.Char.{is_ascii_digit};
ghost use Rattle.std.specs.List.{list_all};
ghost use Rattle.std.specs.Str.Parse.{digits_value};
ghost use Rattle.jet_lines.specs.Numbers.{digits_at, number_at};
ghost use Rattle.jet_items.specs.Ranges.{IsWithin, most_time};

// Timestamps and values lie within 10^15, so that sums of many stay far from the ends of their types.
pub(crate) const MOST: u64 = 1_000_000_000_000_000;

// As many digits as 10^15 has: zeros before a number do not make it longer.
const MOST_DIGITS: usize = 16;

/// The number that a field spells: a minus or none, one to sixteen digits, and a value from -10^15 to 10^15.
pub(crate) fn number_of(text: &[u8]) -> Option<i64>
    ensures value { result ≡ number_at text.now }
    ensures range { IfSome result (λ z. IsWithin most_time z) }
{
    match text {
        [] => None,
        [b'-', digits @ ..] => match digits_of(digits) {
            Some(n) => Some(-(n as i64)),
            None => None,
        },
        _ => match digits_of(text) {
            Some(n) => Some(n as i64),
            None => None,
        },
    }
}

// The value of one to sixteen digits, where it is at most 10^15.
fn digits_of(digits: &[u8]) -> Option<u64>
    ensures value { result ≡ digits_at digits.now }
    ensures most { IfSome result (λ n. n ≤ 1000000000000000) }
{
    let (n, len) = leading_digits(digits);
    if len == 0 || len < digits.len() || n > MOST {
        return None;
    }
    Some(n)
}

/// The value of the digits at the front, of which sixteen at most are read, and their number.
pub(crate) fn leading_digits(bytes: &[u8]) -> (u64, usize)
    ensures within { result.1 ≤ length bytes.now }
    ensures most { result.1 ≤ 16 }
    ensures digits { list_all is_ascii_digit (take result.1 bytes.now) ≡ true }
    ensures value { result.0 ≡ digits_value 10 (take result.1 bytes.now) }
    ensures stops { result.1 < length bytes.now → result.1 < 16 → is_ascii_digit (slice_index bytes.now result.1) ≡ false }
{
    let front = &bytes[..bytes.len().min(MOST_DIGITS)];
    let mut n = 0;
    let mut len = 0;
    for b in front {
        if !b.is_ascii_digit() {
            return (n, len);
        }
        n = n * 10 + u64::from(*b - b'0');
        len += 1;
    }
    (n, len)
}
