// Rows that wait for a mark: they are held in order, so that the first is the least, and a mark or the end lets out those
// up to it.
ghost use Rattle.std.specs.Prelude.{◌≡◌, true, false, ◌||◌, int_le, [], ◌∷◌, Some, None, OnOk, OnErr, IfNone, IfSome, All};
ghost use Rattle.std.specs.List.Sorted.{IsPermutation};
ghost use Rattle.std.specs.Ordering.{is_gt};
ghost use Rattle.std.specs.Option.{option_map_or};
ghost use Rattle.std.specs.Int.{int_max};
ghost use Rattle.jet_items.specs.Ranges.{IsWithin, most_row_end};
ghost use Rattle.jet_items.specs.Rows.{row_cmp};
ghost use Rattle.jet_window.specs.Places.{rows_in, placed, IsHeldInOrder, HoldsMore, HoldsSame, ComesFirst};

use jet_items::{Acc, Key, Mark, NoMemory, Row};
use std::alloc::Global;
use std::collections::BTreeMap;
use std::collections::btree_map::Entry;
use std::marker::Model;

// Where a row stands: by end, then vertex, then key bytes.
type Place = (i64, u8, Key);

// The rows of one place, of which a job that counts right has one: the first that came, and those that came later.
#[derive(Drop)]
struct Alike {
    first: Acc,
    more: Vec<Acc>,
}

/// Rows that are held until a mark lets them out, in the order of end, vertex and key bytes.
///
/// A row is put and given in time logarithmic in the number of rows held. Rows of one end, vertex and key are all held,
/// and given one after another in no order that is promised.
#[derive(Drop)]
pub struct OrderedRows {
    alloc: Global,
    rows: BTreeMap<Place, Alike>,
    passed: Option<i64>,
    closed: bool,
}

impl Model for OrderedRows {
    ghost use Rattle.jet_window.specs.Held.{WaitingRows};
    ghost use Rattle.jet_window.specs.Places.{rows_in, IsHeldInOrder};

    ghost Value = { WaitingRows };

    ghost view = { λ o. record { rows = rows_in o.rows.entries; passed = o.passed; closed = o.closed } };

    ghost invariant = { λ o. IsHeldInOrder o.rows.entries };
}

impl OrderedRows {
    ghost use Rattle.jet_window.specs.Held.{is_let_out};
    ghost use Rattle.jet_window.specs.InOrder.{IsInOrder};
    ghost use Rattle.std.specs.List.Sorted.{IsPermutation};

    /// No rows.
    pub fn new(alloc: Global) -> OrderedRows
        ensures { result ≡ record { rows = []; passed = None; closed = false } }
    {
        OrderedRows {
            alloc,
            rows: BTreeMap::new(alloc),
            passed: None,
            closed: false,
        }
    }

    /// Holds one more row.
    pub fn put(&mut self, row: Row) -> Result<(), NoMemory>
        ensures ok { OnOk result (IsPermutation (row ∷ self.old.rows) self.new.rows × (self.new ≡ record self.old { rows = self.new.rows })) }
        ensures order { IsInOrder self.new.rows }
        ensures err { OnErr result (self.new ≡ self.old) }
    {
        add(self.alloc, &mut self.rows, &row)?;
        Ok(())
    }

    /// Gives the least row that was let out.
    pub fn next(&mut self) -> Option<Row>
        ensures given { IfSome result (λ row. self.old ≡ record self.new { rows = row ∷ self.new.rows }) }
        ensures let_out { IfSome result (λ row. is_let_out self.old row ≡ true) }
        ensures least { IfSome result (λ row. All (λ other. is_gt (row_cmp row other) ≡ false) self.new.rows) }
        ensures none { IfNone result (All (λ row. is_let_out self.old row ≡ false) self.old.rows) }
        ensures kept { IfNone result (self.new ≡ self.old) }
    {
        let (place, _) = self.rows.first_key_value()?;
        if !is_out(self.closed, self.passed, place.0) {
            return None;
        }
        take_first(&mut self.rows)
    }

    /// Lets out the rows that end at most at the mark, also those that are put later.
    pub fn pass(&mut self, t: Mark)
        ensures rows { self.new.rows ≡ self.old.rows }
        ensures passed { self.new.passed ≡ Some (option_map_or (λ before. int_max before t) self.old.passed t) }
        ensures closed { self.new.closed ≡ self.old.closed }
    {
        self.passed = Some(greater(self.passed, t.t));
    }

    /// Lets out all rows, also those that are put later.
    pub fn close(&mut self)
        ensures { self.new ≡ record self.old { closed = true } }
    {
        self.closed = true;
    }
}

// Holds one more row.
fn add(alloc: Global, rows: &mut BTreeMap<Place, Alike>, row: &Row) -> Result<(), NoMemory>
    requires { IsHeldInOrder rows.old.entries }
    ensures ok { OnOk result (HoldsMore row.now rows.old.entries rows.new.entries) }
    ensures order { IsHeldInOrder rows.new.entries }
    ensures err { OnErr result (HoldsSame rows.old.entries rows.new.entries) }
{
    match rows.entry((row.end, row.vertex, row.key))? {
        Entry::Occupied(entry) => entry.into_mut().more.push(row.acc)?,
        Entry::Vacant(entry) => {
            let more = Vec::new(alloc);
            let _ = entry.insert(Alike {
                first: row.acc,
                more,
            });
        }
    }
    Ok(())
}

// Takes the first row out.
fn take_first(rows: &mut BTreeMap<Place, Alike>) -> Option<Row>
    requires { IsHeldInOrder rows.old.entries }
    ensures taken { IfSome result (λ row. ComesFirst row rows.old.entries rows.new.entries) }
    ensures order { IfSome result (λ row. IsHeldInOrder rows.new.entries) }
    ensures none { IfNone result (rows.old.entries ≡ []) }
{
    let mut first = rows.first_entry()?;
    let place = *first.key();
    match first.get_mut().more.pop() {
        Some(acc) => Some(row_at(place, acc)),
        None => Some(row_at(place, first.remove().first)),
    }
}

fn row_at(place: Place, acc: Acc) -> Row
    requires { IsWithin most_row_end place.0 }
    ensures { result ≡ placed place acc }
{
    let (end, vertex, key) = place;
    Row {
        vertex,
        end,
        key,
        acc,
    }
}

// Whether rows that end here were let out.
fn is_out(closed: bool, passed: Option<i64>, end: i64) -> bool
    ensures { result ≡ (closed || option_map_or (λ t. int_le end t) passed false) }
{
    closed || passed.is_some_and(|t| end <= t)
}

fn greater(before: Option<i64>, t: i64) -> i64
    ensures { result ≡ option_map_or (λ b. int_max b t) before t }
{
    match before {
        Some(b) => b.max(t),
        None => t,
    }
}
