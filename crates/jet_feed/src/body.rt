// What a feed keeps of the lines of its file, by the file's kind.
ghost use Rattle.std.specs.Prelude.{◌≡◌, ◌≤ℤ◌, pos, IfOk, IfErr, OnErr};
ghost use Rattle.jet_items.specs.Ranges.{most_time};
ghost use Rattle.jet_lines.specs.Readings.{Gives};
ghost use Rattle.jet_feed.specs.Bodies.{KeepsBody, Notes, ReadsItem, ReadsRow, RefusesItem, RefusesSideLine, Sees, may_go_on};
ghost use Rattle.jet_feed.specs.Counted.{SameRows};
ghost use Rattle.jet_feed.specs.FileItems.{item_in, source_line};

use crate::Leave;
use crate::rows::Rows;
use jet_items::{Item, Refused};
use jet_lines::{Entry, LineFault, read_line, read_side};
use jet_policy::Marker;
use std::alloc::Global;

/// What a feed keeps of the lines of its file.
#[derive(Drop)]
pub(crate) enum Body {
    /// Of a source file: the watermark of the events that were given.
    Source(Marker),
    /// Of a side file: how many rows each key has.
    Side(Rows),
}

impl Body {
    /// Reads a line of the file of this number, and answers its item, where it holds one. After a refusal all is as it was.
    pub(crate) fn read(
        &mut self,
        alloc: Global,
        part: u16,
        number: u32,
        line: &[u8],
    ) -> Result<Option<Item>, Refused<LineFault>>
        ensures read { IfOk result (λ item. ReadsItem part number line.now item self.old self.new) }
        ensures refused { IfErr result (RefusesItem part number line.now self.old) }
        ensures same { OnErr result (KeepsBody self.old self.new) }
    {
        match self {
            Body::Source(_) => source_item(alloc, part, number, line),
            Body::Side(rows) => side_item(alloc, number, line, rows),
        }
    }

    /// Notes an item that was given.
    pub(crate) fn note(&mut self, item: &Item)
        ensures { Notes item.now self.old self.new }
    {
        match self {
            Body::Source(marker) => see(marker, item),
            Body::Side(_) => {}
        }
    }

    /// Whether the file may be read on.
    pub(crate) fn may_go_on(&self, leave: &Leave) -> bool
        requires { (pos 0 ≤ℤ leave.now.ahead) × (leave.now.ahead ≤ℤ pos most_time) }
        ensures { result ≡ may_go_on leave.now self.now }
    {
        match self {
            Body::Source(marker) => leave.allows(marker.mark()),
            Body::Side(_) => true,
        }
    }
}

fn see(marker: &mut Marker, item: &Item)
    ensures { Sees item.now marker.old marker.new }
{
    if let Item::Event(event) = item {
        let _mark = marker.see(event.ts);
    }
}

fn source_item(
    alloc: Global,
    part: u16,
    number: u32,
    line: &[u8],
) -> Result<Option<Item>, Refused<LineFault>>
    ensures { Gives (λ item. item) result (source_line part number line.now) }
{
    match read_line(alloc, line, part, number) {
        Ok(entry) => Ok(item_of(&entry)),
        Err(refused) => Err(refused),
    }
}

fn item_of(entry: &Entry) -> Option<Item>
    ensures { result ≡ item_in entry.now }
{
    match entry {
        Entry::Nothing => None,
        Entry::Event(event) => Some(Item::Event(*event)),
        Entry::Idle => Some(Item::Idle),
    }
}

fn side_item(
    alloc: Global,
    number: u32,
    line: &[u8],
    rows: &mut Rows,
) -> Result<Option<Item>, Refused<LineFault>>
    ensures read { IfOk result (λ item. ReadsRow number line.now item rows.old rows.new) }
    ensures refused { IfErr result (RefusesSideLine number line.now rows.old) }
    ensures same { OnErr result (SameRows rows.old rows.new) }
{
    match read_side(alloc, line, number) {
        Ok(Some(row)) => match rows.count(&row) {
            Ok(()) => Ok(Some(Item::Side(row))),
            Err(refused) => Err(refused),
        },
        Ok(None) => Ok(None),
        Err(refused) => Err(refused),
    }
}
