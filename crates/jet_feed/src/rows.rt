// The rows of a side file, counted by key.
ghost use Rattle.std.specs.Prelude.{◌≡◌, List, ℕ, OnOk, OnErr, IfErr};
ghost use Rattle.jet_feed.specs.Counted.{CountsRow, RefusesRow, SameRows, rows_at};

use jet_items::{Key, Refused, Side};
use jet_lines::LineFault;
use std::alloc::Global;
use std::collections::BTreeMap;

/// How many rows each key of a side file has so far.
#[derive(Drop)]
pub(crate) struct Rows {
    counts: BTreeMap<Key, u8>,
}

// The most rows of one key.
const MOST_ROWS: u8 = 16;

impl Rows {
    /// No rows yet.
    pub(crate) fn new(alloc: Global) -> Rows
        ensures { (key : List ℕ) → rows_at key result ≡ 0 }
    {
        Rows {
            counts: BTreeMap::new(alloc),
        }
    }

    /// Counts a row, unless its key has as many as it may. After a refusal all is as it was.
    pub(crate) fn count(&mut self, row: &Side) -> Result<(), Refused<LineFault>>
        ensures counts { OnOk result (CountsRow row.now self.old self.new) }
        ensures refused { IfErr result (RefusesRow row.now self.old) }
        ensures same { OnErr result (SameRows self.old self.new) }
    {
        let before = self.rows_of(&row.key);
        if before >= MOST_ROWS {
            return Err(Refused::Fault(LineFault::KeyFull));
        }
        match self.counts.insert(row.key, before + 1) {
            Ok(_) => Ok(()),
            Err(_) => Err(Refused::NoMemory),
        }
    }

    // How many rows of a key were counted.
    fn rows_of(&self, key: &Key) -> u8
        ensures { result ≡ rows_at key.now self.now }
    {
        match self.counts.get(key) {
            Some(count) => *count,
            None => 0,
        }
    }
}
