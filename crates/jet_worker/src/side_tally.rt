// The counting of a side file's lines.
ghost use Rattle.std.specs.Prelude.{◌≡◌, ◌≤◌, ◌<◌, ◌^◌, ◌+◌, ◌∷◌, ◌++◌, ℕ, List, [], OnOk, IfErr, IfOk, decimal, codes, string_bytes};
ghost use Rattle.jet_items.specs.LineText.{line_text};
ghost use Rattle.jet_worker.specs.inner.Tallying.{CountsRow, RefusesRow, RefusesSideLine, SideTallied, TakesSideLine, rows_at};

use crate::laws::laws_of_lines;
use jet_items::{Key, Refused, Side};
use jet_lines::{LineFault, read_side};
use std::alloc::{AllocError, Global};
use std::collections::BTreeMap;

/// The rows of a side file, of all and of each key.
#[derive(Drop)]
pub(crate) struct SideTally {
    counts: BTreeMap<Key, u8>,
    rows: u64,
}

// The most rows of one key.
const MOST_ROWS: u8 = 16;

impl SideTally {
    /// No lines yet.
    pub(crate) fn new(alloc: Global) -> SideTally
        ensures tallied { (most : ℕ) → SideTallied most [] result }
        ensures rows { result.rows ≡ 0 }
    {
        SideTally {
            counts: BTreeMap::new(alloc),
            rows: 0,
        }
    }

    /// Counts a line, or tells its fault and stays as it is. Lines are numbered from 1 on.
    pub(crate) fn take(
        &mut self,
        alloc: Global,
        number: u32,
        line: &[u8],
    ) -> Result<(), Refused<LineFault>>
        requires { self.old.rows < number }
        ensures took { OnOk result (TakesSideLine number line.now self.old self.new) }
        ensures small { OnOk result (self.new.rows ≤ number) }
        ensures refused { IfErr result (RefusesSideLine number line.now self.old) }
    {
        laws_of_lines();
        match read_side(alloc, line, number) {
            Ok(Some(row)) => self.count(&row),
            Ok(None) => Ok(()),
            Err(refused) => Err(refused),
        }
    }

    // Counts a row, unless its key has as many as it may.
    fn count(&mut self, row: &Side) -> Result<(), Refused<LineFault>>
        requires { self.old.rows < 2 ^ 32 }
        ensures counts { OnOk result (CountsRow row.now self.old self.new) }
        ensures refused { IfErr result (RefusesRow row.now self.old) }
    {
        let before = self.rows_of(&row.key);
        if before >= MOST_ROWS {
            return Err(Refused::Fault(LineFault::KeyFull));
        }
        match self.counts.insert(row.key, before + 1) {
            Ok(_) => {
                self.rows += 1;
                Ok(())
            }
            Err(_) => Err(Refused::NoMemory),
        }
    }

    // How many rows of a key were counted.
    fn rows_of(&self, key: &Key) -> u8
        ensures { result ≡ rows_at key.now self.now }
    {
        match self.counts.get(key) {
            Some(count) => *count,
            None => 0,
        }
    }

    /// The line `side,NUMBER,LINES,ROWS` for the file of this number and so many lines.
    pub(crate) fn text(&self, alloc: Global, part: u16, lines: u32) -> Result<String, AllocError>
        ensures { IfOk result (λ text. string_bytes text ≡ line_text (codes "side" ∷ decimal part ∷ decimal lines ∷ decimal self.now.rows ∷ [])) }
    {
        let rows = self.rows;
        side_text(alloc, part, lines, rows)
    }
}

fn side_text(alloc: Global, part: u16, lines: u32, rows: u64) -> Result<String, AllocError>
    ensures { IfOk result (λ text. string_bytes text ≡ codes "side," ++ (decimal part ++ 44 ∷ (decimal lines ++ 44 ∷ (decimal rows ++ 10 ∷ [])))) }
{
    format!(in alloc; "side,{part},{lines},{rows}\n")
}
