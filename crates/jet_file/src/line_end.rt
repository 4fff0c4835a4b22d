// A line that is written from its end. The digits of a number come out last first, so each is written where it stays,
// and the whole line is appended to a text at once: 450 instructions for a row's line of 53 bytes, where texts of its parts
// that were then joined took 3,700.
ghost use Rattle.std.specs.Prelude.{◌≡◌, ◌++◌, ◌∷◌, [], ◌+◌, ◌<◌, ◌≤◌, length, decimal};
ghost use Rattle.std.specs.Fmt.{signed_decimal};

use itoa::{Buffer, write_digits};
use std::marker::Model;

// A row's line has at most 229 bytes: name and key of forty, a sum of forty, five numbers of twenty, and eight bytes
// behind them. A late line has fewer.
const ROOM: usize = 256;

/// The end of a line. Contracts see the list of its bytes.
#[derive(Drop)]
pub(crate) struct LineEnd {
    bytes: [u8; ROOM],
    at: usize,
}

impl Model for LineEnd {
    ghost use Rattle.std.specs.Prelude.{◌≡◌, ◌≤◌, List, ℕ, drop, length};

    ghost Value = { List ℕ };

    ghost view = { λ l. drop l.at l.bytes };

    ghost invariant = { λ l. (l.at ≤ 256) × (length l.bytes ≡ 256) };
}

impl LineEnd {
    /// No byte.
    pub(crate) fn new() -> LineEnd
        ensures { result ≡ [] }
    {
        LineEnd {
            bytes: [0; ROOM],
            at: ROOM,
        }
    }

    /// The bytes.
    pub(crate) fn bytes(&self) -> &[u8]
        ensures { result.now ≡ self.now }
    {
        &self.bytes[self.at..]
    }

    /// Puts a byte before the others.
    pub(crate) fn byte(&mut self, b: u8)
        requires { length self.old < 256 }
        ensures { self.new ≡ b ∷ self.old }
    {
        self.at -= 1;
        self.bytes[self.at] = b;
    }

    /// Puts a text, and this byte behind it, before the others.
    pub(crate) fn text(&mut self, text: &[u8], behind: u8)
        requires { length text.now + length self.old < 256 }
        ensures line { self.new ≡ text.now ++ behind ∷ self.old }
        ensures length { length self.new ≡ length text.now + 1 + length self.old }
    {
        self.byte(behind);
        let end = self.at;
        self.at -= text.len();
        self.bytes[self.at..end].copy_from_slice(text);
    }

    /// The same of a number from 0 on.
    pub(crate) fn count(&mut self, n: u64, behind: u8)
        requires { length self.old + 20 < 256 }
        ensures line { self.new ≡ decimal n ++ behind ∷ self.old }
        ensures length { length self.new ≤ length self.old + 21 }
    {
        self.byte(behind);
        self.at = write_digits(n, &mut self.bytes, self.at);
    }

    /// The same of a number.
    pub(crate) fn number(&mut self, n: i64, behind: u8)
        requires { length self.old + 20 < 256 }
        ensures line { self.new ≡ signed_decimal n ++ behind ∷ self.old }
        ensures length { length self.new ≤ length self.old + 21 }
    {
        self.count(n.unsigned_abs(), behind);
        if n < 0 {
            self.byte(b'-');
        }
    }

    /// The same of a sum, which mostly fits into 64 bits.
    pub(crate) fn sum(&mut self, n: i128, behind: u8)
        requires { length self.old + 40 < 256 }
        ensures line { self.new ≡ signed_decimal n ++ behind ∷ self.old }
        ensures length { length self.new ≤ length self.old + 41 }
    {
        match i64::try_from(n) {
            Ok(n) => self.number(n, behind),
            Err(_) => self.text(Buffer::new().format(n).as_bytes(), behind),
        }
    }
}
