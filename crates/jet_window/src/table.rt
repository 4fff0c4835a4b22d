// Rows by end and key, into which events are joined one by one.
ghost use Rattle.std.specs.Prelude.{◌≡◌, ◌≤ℤ◌, ◌<ℤ◌, ◌+ℤ◌, ℤ, ℕ, List, Option, pos, Some, IfOk, OnOk, OnErr};
ghost use Rattle.std.specs.BTreeMap.{get, values, Updates, IsOrdered};
ghost use Rattle.jet_items.specs.Grid.{IsMultiple};
ghost use Rattle.jet_items.specs.Totals.{both};
ghost use Rattle.jet_items.specs.Values.{AccValue};
ghost use Rattle.jet_window.specs.Tables.{place_cmp, with_row, stepped, IsTable};

use jet_items::{Acc, Event, Key, NoMemory, Row};
use std::alloc::Global;
use std::collections::BTreeMap;

// The row, with the values of the one that is there.
fn joined(old: Option<Row>, row: Row) -> Row
    ensures { result ≡ with_row old row }
{
    match old {
        None => row,
        Some(old) => Row {
            acc: old.acc.join(&row.acc),
            ..row
        },
    }
}

// Joins a row into the table.
fn add_row(table: &mut BTreeMap<(i64, Key), Row>, row: Row) -> Result<(), NoMemory>
    ensures { OnOk result (Updates place_cmp table.old table.new (row.end, row.key) (Some (with_row (get place_cmp table.old (row.end, row.key)) row))) }
{
    let place = (row.end, row.key);
    let whole = joined(table.get(&place).copied(), row);
    table.insert(place, whole)?;
    Ok(())
}

// Joins an event's value into the rows of its key at each multiple of the slide from the first to the last.
pub(crate) fn add_event(
    table: &mut BTreeMap<(i64, Key), Row>,
    vertex: u8,
    slide: i64,
    event: &Event,
    first: i64,
    last: i64,
) -> Result<(), NoMemory>
    requires slide { (pos 1 ≤ℤ slide) × (slide ≤ℤ pos 1000000000000) }
    requires multiple { IsMultiple slide first }
    requires above { event.now.ts <ℤ first }
    requires within { last ≤ℤ (event.now.ts +ℤ pos 1000000000000) }
    ensures { OnOk result ((known : ℤ → List ℕ → Option AccValue) → IsTable vertex known table.old
        → IsTable vertex (λ e key. both (known e key) (stepped slide first last event.now e key)) table.new) }
{
    let acc = Acc::one(event.v[0]);
    let key = event.key;
    let mut end = first;
    while end <= last {
        let row = Row {
            vertex,
            end,
            key,
            acc,
        };
        add_row(table, row)?;
        end += slide;
    }
    Ok(())
}

// The rows of the table, in order.
pub(crate) fn rows_of(
    alloc: Global,
    table: &BTreeMap<(i64, Key), Row>,
) -> Result<Vec<Row>, NoMemory>
    ensures items { IfOk result (λ rows. rows.items ≡ values table.now) }
    ensures ordered { IfOk result (λ rows. IsOrdered place_cmp table.now) }
{
    let mut rows = Vec::new(alloc);
    for row in table.values() {
        rows.push(*row)?;
    }
    Ok(rows)
}
