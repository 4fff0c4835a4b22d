// The counting of a source file's lines.
ghost use Rattle.std.specs.Prelude.{◌≡◌, ◌≤◌, ◌<◌, ◌^◌, ◌+◌, ◌∷◌, ◌++◌, ◌≤ℤ◌, ℕ, ℤ, List, [], length, pos, OnOk, IfErr, IfOk, decimal, codes, string_bytes};
ghost use Rattle.jet_items.specs.LineText.{line_text};
ghost use Rattle.jet_items.specs.Ranges.{IsWithin, most_time};
ghost use Rattle.jet_items.specs.Values.{EventValue};
ghost use Rattle.jet_worker.specs.inner.Tallying.{CountsEntry, CountsEvent, RefusesSourceLine, SourceTallied, TakesSourceLine};

use crate::laws::laws_of_lines;
use jet_items::{Event, Refused};
use jet_lines::{Entry, LineFault, read_line};
use jet_policy::Marker;
use std::alloc::{AllocError, Global};

/// The events of a source file, and those of them that are behind the watermark of the ones before.
#[derive(Drop)]
pub(crate) struct SourceTally {
    part: u16,
    marker: Marker,
    events: u64,
    behind: u64,
}

impl SourceTally {
    /// No lines yet of the file of this number. Lag and unit are in the unit of the timestamps.
    pub(crate) fn new(part: u16, lag: i64, unit: i64) -> SourceTally
        requires lag { (pos 0 ≤ℤ lag) × (lag ≤ℤ pos most_time) }
        requires unit { (pos 1 ≤ℤ unit) × (unit ≤ℤ pos 1000000000000) }
        ensures tallied { (most : ℕ) → SourceTallied most part lag unit [] result }
        ensures events { result.events ≡ 0 }
        ensures behind { result.behind ≡ 0 }
    {
        SourceTally {
            part,
            marker: Marker::new(lag, unit),
            events: 0,
            behind: 0,
        }
    }

    /// Counts a line, or tells its fault and stays as it is. Lines are numbered from 1 on.
    pub(crate) fn take(
        &mut self,
        alloc: Global,
        number: u32,
        line: &[u8],
    ) -> Result<(), Refused<LineFault>>
        requires { (self.old.events < number) × (self.old.behind < number) }
        ensures took { OnOk result (TakesSourceLine number line.now self.old self.new) }
        ensures small { OnOk result ((self.new.events ≤ number) × (self.new.behind ≤ number)) }
        ensures refused { IfErr result (RefusesSourceLine number line.now self.old) }
    {
        laws_of_lines();
        match read_line(alloc, line, self.part, number) {
            Ok(entry) => {
                self.enter(&entry);
                Ok(())
            }
            Err(refused) => Err(refused),
        }
    }

    // Counts the event of a line, where it holds one.
    fn enter(&mut self, entry: &Entry)
        requires { (self.old.events < 2 ^ 32) × (self.old.behind < 2 ^ 32) }
        ensures counts { CountsEntry entry.now self.old self.new }
        ensures events { self.new.events ≤ self.old.events + 1 }
        ensures behind { self.new.behind ≤ self.old.behind + 1 }
    {
        if let Entry::Event(event) = entry {
            self.count(event);
        }
    }

    // Counts an event that stands behind all before it.
    fn count(&mut self, event: &Event)
        requires { (self.old.events < 2 ^ 32) × (self.old.behind < 2 ^ 32) }
        ensures counts { CountsEvent event.now self.old self.new }
        ensures behind { self.new.behind ≤ self.old.behind + 1 }
    {
        if self.marker.is_behind(event.ts) {
            self.behind += 1;
        }
        let _mark = self.marker.see(event.ts);
        self.events += 1;
    }

    /// The line `part,NUMBER,LINES,EVENTS,BEHIND` for a file of so many lines.
    pub(crate) fn text(&self, alloc: Global, lines: u32) -> Result<String, AllocError>
        ensures { IfOk result (λ text. string_bytes text ≡ line_text (codes "part" ∷ decimal self.now.part ∷ decimal lines
            ∷ decimal self.now.events ∷ decimal self.now.behind ∷ [])) }
    {
        let part = self.part;
        let events = self.events;
        let behind = self.behind;
        part_text(alloc, part, lines, events, behind)
    }
}

fn part_text(
    alloc: Global,
    part: u16,
    lines: u32,
    events: u64,
    behind: u64,
) -> Result<String, AllocError>
    ensures { IfOk result (λ text. string_bytes text ≡ codes "part," ++ (decimal part ++ 44 ∷ (decimal lines ++ 44 ∷ (decimal events ++ 44 ∷ (decimal behind ++ 10 ∷ []))))) }
{
    format!(in alloc; "part,{part},{lines},{events},{behind}\n")
}
