// The counting of one window: late events and closed rows become text, event by event.
ghost use Rattle.std.specs.Prelude.{◌≡◌, ◌<◌, ◌≤ℤ◌, pos, ◌++◌, ◌∷◌, [], List, OnOk, All, flat_map, true, false, IfSome, ℤ, codes, IfErr};
ghost use Rattle.jet_items.specs.Ranges.{IsWithin, most_time};
ghost use Rattle.jet_items.specs.Marks.{mark_at};
ghost use Rattle.jet_items.specs.Values.{EventValue, RowValue};
ghost use Rattle.jet_file.specs.Text.{row_line, late_line};
ghost use Rattle.jet_window.specs.Plain.{HasTaken};
ghost use Rattle.jet_policy.specs.MarkerValue.{HasSeen};
ghost use Rattle.jet_cli.specs.inner.Advance.{Advanced};
ghost use Rattle.jet_file.specs.Outside.{WhereTold};
ghost use Rattle.jet_policy.specs.Policy.{IsPolicy};
ghost use Rattle.jet_cli.specs.Counting.{Counts};
ghost use Rattle.jet_worker.specs.Feeding.{Flushes};
ghost use Rattle.jet_cli.specs.inner.Finished.{Finished};
ghost use Rattle.jet_worker.specs.Stopping.{IsNoBadLine, Outcome};
ghost use Rattle.jet_cli.specs.inner.Took.{IsInStep, Prints, Took, is_below, mark_in};
ghost use Rattle.jet_cli.specs.Words.{WindowCommand};

use crate::Stop;
use jet_file::{Outside, print_late, print_row};
use jet_items::{Event, Key, Late, NoMemory, Row};
use jet_policy::{Marker, WinPolicy};
use jet_window::PlainWindow;
use jet_worker::write_texts;
use std::alloc::Global;

/// Counts one window over the events of one file. The texts hold what is not yet written.
#[derive(Drop)]
pub(crate) struct WindowCounter {
    marker: Marker,
    window: PlainWindow,
    size: i64,
    name: Key,
    rows: Vec<u8>,
    notes: Vec<u8>,
}

// The vertex number of the one window.
const VERTEX: u8 = 2;

impl WindowCounter {
    // Sorts an event: late, or taken by the window.
    fn admit(&mut self, alloc: Global, event: &Event) -> Result<(), NoMemory>
        requires { IsInStep self.old }
        ensures marker { self.new.marker ≡ self.old.marker }
        ensures size { self.new.size ≡ self.old.size }
        ensures name { self.new.name ≡ self.old.name }
        ensures rows { self.new.rows ≡ self.old.rows }
        ensures late { OnOk result (is_below (mark_in self.old.marker) event.now.ts ≡ true
            → (self.new.window ≡ self.old.window) × (self.new.notes.items ≡ self.old.notes.items ++ late_line self.old.name event.now)) }
        ensures kept { OnOk result (is_below (mark_in self.old.marker) event.now.ts ≡ false
            → (self.new.window ≡ record self.old.window { events = self.old.window.events ++ event.now ∷ [] }) × (self.new.notes ≡ self.old.notes)
            × ((all : List EventValue) → HasTaken self.old.window all → HasTaken self.new.window (all ++ event.now ∷ []))) }
    {
        if self.marker.is_behind(event.ts) {
            let late = Late {
                vertex: VERTEX,
                event: *event,
            };
            print_late(alloc, &late, &self.name, &mut self.notes)
        } else {
            self.window.accept(*event)
        }
    }

    // Lets the watermark pass a time, and closes what it passes.
    fn advance(&mut self, alloc: Global, ts: i64) -> Result<(), NoMemory>
        requires time { IsWithin most_time ts }
        requires in_step { IsInStep self.old }
        requires size { (pos 1 ≤ℤ self.old.size) × (self.old.size ≤ℤ pos 1000000000000) }
        requires grain { pos 1 ≤ℤ self.old.marker.grain }
        ensures in_step { OnOk result (IsInStep self.new) }
        ensures seen { (times : List ℤ) → HasSeen self.old.marker times → HasSeen self.new.marker (times ++ ts ∷ []) }
        ensures lag { self.new.marker.lag ≡ self.old.marker.lag }
        ensures grain { self.new.marker.grain ≡ self.old.marker.grain }
        ensures vertex { self.new.window.vertex ≡ self.old.window.vertex }
        ensures window_size { self.new.window.size ≡ self.old.window.size }
        ensures slide { self.new.window.slide ≡ self.old.window.slide }
        ensures size { self.new.size ≡ self.old.size }
        ensures name { self.new.name ≡ self.old.name }
        ensures notes { self.new.notes ≡ self.old.notes }
        ensures advanced { OnOk result (Advanced self.old self.new) }
    {
        if let Some(mark) = self.marker.see(ts) {
            let rows = self.window.close(mark)?;
            print_rows(alloc, &rows, self.size, &self.name, &mut self.rows)?;
        }
        Ok(())
    }
}

impl WindowCounter {
    /// A counter that has had no event, of the window of these sizes. The lag is in the file's unit of time.
    pub(crate) fn new(alloc: Global, policy: WinPolicy, lag: i64) -> WindowCounter
        requires { (pos 0 ≤ℤ lag) × (lag ≤ℤ pos most_time) }
        ensures counts { (c : WindowCommand) → policy.size ≡ pos c.size → policy.slide ≡ pos c.slide → lag ≡ pos c.lag
            → Counts c [] [] result.marker result.window × Prints c result }
        ensures policy { IsPolicy policy.size policy.slide }
        ensures rows { result.rows.items ≡ [] }
        ensures notes { result.notes.items ≡ [] }
    {
        let slide = policy.slide();
        WindowCounter {
            marker: Marker::new(lag, slide),
            window: PlainWindow::new(alloc, VERTEX, policy),
            size: policy.size(),
            name: window_name(),
            rows: Vec::new(alloc),
            notes: Vec::new(alloc),
        }
    }

    /// Counts one more event, which stands on a later line than all before it.
    pub(crate) fn take(&mut self, alloc: Global, event: Event) -> Result<(), NoMemory>
        requires in_step { IsInStep self.old }
        requires size { (pos 1 ≤ℤ self.old.size) × (self.old.size ≤ℤ pos 1000000000000) }
        requires grain { pos 1 ≤ℤ self.old.marker.grain }
        ensures size { self.new.size ≡ self.old.size }
        ensures name { self.new.name ≡ self.old.name }
        ensures took { OnOk result ((c : WindowCommand) (events : List EventValue) (table : List RowValue)
            → Counts c events table self.old.marker self.old.window → Prints c self.old → All (λ e. e.line < event.line) events
            → Took c events event table self.old self.new) }
    {
        self.admit(alloc, &event)?;
        self.advance(alloc, event.ts)?;
        Ok(())
    }
}

impl WindowCounter {
    /// Closes all windows that are left.
    pub(crate) fn finish(&mut self, alloc: Global) -> Result<(), NoMemory>
        requires { (pos 1 ≤ℤ self.old.size) × (self.old.size ≤ℤ pos 1000000000000) }
        ensures finished { OnOk result ((c : WindowCommand) (events : List EventValue) (table : List RowValue)
            → Counts c events table self.old.marker self.old.window → Prints c self.old → Finished c events table self.old self.new) }
    {
        let rows = self.window.finish()?;
        print_rows(alloc, &rows, self.size, &self.name, &mut self.rows)?;
        Ok(())
    }

    /// Appends what is not yet written to the outputs: late lines, then rows.
    pub(crate) fn write<O: Outside>(&mut self, out: &mut O) -> Result<(), Stop>
        ensures told { WhereTold (Flushes self.old.rows.items self.old.notes.items result) (O.told out.old) (O.told out.new) }
        ensures outcome { Outcome O.opened O.steady O.faults out.old out.new result }
        ensures marker { self.new.marker ≡ self.old.marker }
        ensures window { self.new.window ≡ self.old.window }
        ensures size { self.new.size ≡ self.old.size }
        ensures name { self.new.name ≡ self.old.name }
        ensures rows { OnOk result (self.new.rows.items ≡ []) }
        ensures notes { OnOk result (self.new.notes.items ≡ []) }
        ensures no_bad_line { IfErr result IsNoBadLine }
    {
        write_texts(out, &self.rows, &self.notes)?;
        self.rows.clear();
        self.notes.clear();
        Ok(())
    }
}

// The name of the one window.
fn window_name() -> Key
    ensures { result ≡ codes "w" }
{
    Key::read(b"w", 1).unwrap()
}

// Appends the lines of rows.
fn print_rows(
    alloc: Global,
    rows: &[Row],
    size: i64,
    name: &Key,
    to: &mut Vec<u8>,
) -> Result<(), NoMemory>
    requires { (pos 1 ≤ℤ size) × (size ≤ℤ pos 1000000000000) }
    ensures { OnOk result (to.new.items ≡ to.old.items ++ flat_map (row_line name.now size) rows.now) }
{
    for row in rows {
        print_row(alloc, row, size, name, to)?;
    }
    Ok(())
}
