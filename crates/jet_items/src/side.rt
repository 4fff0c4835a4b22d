// Side rows: one line each of the table that a hash join looks keys up in.
use crate::Key;
use crate::event::four;
use std::marker::Model;

/// A row of a side file.
///
/// `label` may take the key's place in a joined event, and the values `v` lie within 10^15 of 0. `line` is the row's
/// line in its file, from 1 on.
#[derive(Clone, Copy)]
pub struct Side {
    pub line: u32,
    pub key: Key,
    pub label: Key,
    pub v: [i64; 4],
}

impl Model for Side {
    ghost use Rattle.std.specs.List.{AllByRecursion};
    ghost use Rattle.jet_items.specs.Ranges.{IsWithin, most_time};
    ghost use Rattle.jet_items.specs.Values.{SideValue};

    ghost Value = { SideValue };

    ghost view = { λ s. record { line = s.line; key = s.key; label = s.label; v = s.v } };

    ghost invariant = { λ s. AllByRecursion (IsWithin most_time) s.v };

    ghost inverse = { λ s. record { line = s.line; key = s.key; label = s.label; v = s.v } };
}

impl Side {
    ghost use Rattle.jet_items.specs.Fits.{SideFits};

    /// A law for proofs above: each side row lies in the ranges of its types. The call does nothing.
    pub fn fits(&self)
        ensures { SideFits self.now }
    {
        let (_line, _four) = (self.line, four(&self.v));
        let (_key, _label) = (self.key.bytes(), self.label.bytes());
    }
}
