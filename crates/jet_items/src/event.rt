// Events: one line of a telemetry file each.
ghost use Rattle.std.specs.Prelude.{◌≡◌, length};

use crate::Key;
use std::marker::Model;

/// An event of a telemetry file.
///
/// `ts` is event time in the file's own unit, and `v` are the line's values, 0 where a line has fewer than four; all
/// lie within 10^15 of 0: 31,000 years of milliseconds, and sums, ends and marks of them need no check for overflow. `part`
/// is the number of the file and `line` its line there, from 1 on.
#[derive(Clone, Copy)]
pub struct Event {
    pub part: u16,
    pub line: u32,
    pub ts: i64,
    pub key: Key,
    pub v: [i64; 4],
}

impl Model for Event {
    ghost use Rattle.std.specs.List.{AllByRecursion};
    ghost use Rattle.jet_items.specs.Ranges.{IsWithin, most_time};
    ghost use Rattle.jet_items.specs.Values.{EventValue};

    ghost Value = { EventValue };

    ghost view = { λ e. record { part = e.part; line = e.line; ts = e.ts; key = e.key; v = e.v } };

    ghost invariant = { λ e. IsWithin most_time e.ts × AllByRecursion (IsWithin most_time) e.v };

    ghost inverse = { λ e. record { part = e.part; line = e.line; ts = e.ts; key = e.key; v = e.v } };
}

impl Event {
    ghost use Rattle.jet_items.specs.Fits.{EventFits};

    /// A law for proofs above: each event lies in the ranges of its types. The call does nothing.
    pub fn fits(&self)
        ensures { EventFits self.now }
    {
        let (_part, _line) = (self.part, self.line);
        let _four = four(&self.v);
        let _key = self.key.bytes();
    }
}

// An array of four values has four, which a proof learns only from a call.
pub(crate) fn four(v: &[i64; 4]) -> usize
    ensures { length v.now ≡ 4 }
{
    v.len()
}
