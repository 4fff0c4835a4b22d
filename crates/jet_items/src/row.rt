// Rows: the second stage of a sliding window, what a job writes.
use crate::{Acc, Key};
use std::marker::Model;

/// What is known of the events of a key in the window that ends at `end`, within 1,002·10^12 of 0: a frame's end and one
/// size.
#[derive(Clone, Copy)]
pub struct Row {
    pub vertex: u8,
    pub end: i64,
    pub key: Key,
    pub acc: Acc,
}

impl Model for Row {
    ghost use Rattle.jet_items.specs.Ranges.{IsWithin, most_row_end};
    ghost use Rattle.jet_items.specs.Values.{RowValue};

    ghost Value = { RowValue };

    ghost view = { λ r. record { vertex = r.vertex; end = r.end; key = r.key; acc = r.acc } };

    ghost invariant = { λ r. IsWithin most_row_end r.end };

    ghost inverse = { λ r. record { vertex = r.vertex; end = r.end; key = r.key; acc = r.acc } };
}

impl Row {
    ghost use Rattle.jet_items.specs.Fits.{RowFits};

    /// A law for proofs above: each row lies in the ranges of its types. The call does nothing.
    pub fn fits(&self)
        ensures { RowFits self.now }
    {
        let (_vertex, _key) = (self.vertex, self.key.bytes());
        self.acc.fits();
    }
}
