// The side rows of a join, kept by their key.
ghost use Rattle.std.specs.Prelude.{◌≡◌, ℕ, List, [], ◌∷◌, ◌++◌, OnOk, OnErr};
ghost use Rattle.jet_items.specs.Joins.{rows_with};
ghost use Rattle.jet_join.specs.Kept.{kept_with};

use jet_items::{Key, NoMemory, Side};
use std::alloc::Global;
use std::collections::BTreeMap;

/// Side rows by their key; those of one key stand in the order in which they came.
#[derive(Drop)]
pub struct SideRows {
    alloc: Global,
    by_key: BTreeMap<Key, Vec<Side>>,
}

impl SideRows {
    /// No rows.
    pub fn new(alloc: Global) -> SideRows
        ensures { (key : List ℕ) → kept_with key result ≡ [] }
    {
        SideRows {
            alloc,
            by_key: BTreeMap::new(alloc),
        }
    }

    /// Keeps a row behind those of its key.
    pub fn keep(&mut self, row: &Side) -> Result<(), NoMemory>
        ensures kept { OnOk result ((key : List ℕ) → kept_with key self.new ≡ kept_with key self.old ++ rows_with key (row.now ∷ [])) }
        ensures unchanged { OnErr result ((key : List ℕ) → kept_with key self.new ≡ kept_with key self.old) }
    {
        let rows = self.by_key.entry(row.key)?.or_insert(Vec::new(self.alloc));
        rows.push(*row)?;
        Ok(())
    }

    /// The rows of a key.
    pub fn of(&self, key: &Key) -> &[Side]
        ensures { result.now ≡ kept_with key.now self.now }
    {
        match self.by_key.get(key) {
            Some(rows) => rows,
            None => &[],
        }
    }
}
