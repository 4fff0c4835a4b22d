// Items from the front of bytes. What is read lies in the ranges of its types, since nothing else is spelled.
ghost use Rattle.jet_items.specs.Ranges.{most_mark};
ghost use Rattle.jet_spell.specs.Reading.{Answers, event_at, side_at, acc_at, frame_at, row_at, late_at, within_at, item_at};

use crate::reader::{MOST_TIME, Reader};
use crate::tag::Tag;
use jet_items::{Acc, Event, Frame, Item, Late, Mark, Row, Side};

// Frames and rows end so far from 0 at most, by the ranges of `jet_items`.
const MOST_FRAME_END: u64 = 1_001_000_000_000_000;

const MOST_ROW_END: u64 = 1_002_000_000_000_000;

impl<'a> Reader<'a> {
    #[tactic(auto, unfolding(crate::specs::Reading::event_at))]
    fn event(&mut self) -> Option<Event>
        ensures { Answers (event_at self.old) result self.new }
    {
        Some(Event {
            part: self.u16()?,
            line: self.u32()?,
            ts: self.within(MOST_TIME)?,
            key: self.key()?,
            v: self.values()?,
        })
    }

    #[tactic(auto, unfolding(crate::specs::Reading::side_at))]
    fn side(&mut self) -> Option<Side>
        ensures { Answers (side_at self.old) result self.new }
    {
        Some(Side {
            line: self.u32()?,
            key: self.key()?,
            label: self.key()?,
            v: self.values()?,
        })
    }

    #[tactic(auto, unfolding(crate::specs::Reading::acc_at))]
    fn acc(&mut self) -> Option<Acc>
        ensures { Answers (acc_at self.old) result self.new }
    {
        Some(Acc {
            count: self.u64()?,
            sum: self.i128()?,
            min: self.within(MOST_TIME)?,
            max: self.within(MOST_TIME)?,
        })
    }

    #[tactic(auto, unfolding(crate::specs::Reading::frame_at))]
    fn frame(&mut self) -> Option<Frame>
        ensures { Answers (frame_at self.old) result self.new }
    {
        Some(Frame {
            vertex: self.byte()?,
            end: self.within(MOST_FRAME_END)?,
            key: self.key()?,
            acc: self.acc()?,
        })
    }

    #[tactic(auto, unfolding(crate::specs::Reading::row_at))]
    fn row(&mut self) -> Option<Row>
        ensures { Answers (row_at self.old) result self.new }
    {
        Some(Row {
            vertex: self.byte()?,
            end: self.within(MOST_ROW_END)?,
            key: self.key()?,
            acc: self.acc()?,
        })
    }

    #[tactic(auto, unfolding(crate::specs::Reading::late_at))]
    fn late(&mut self) -> Option<Late>
        ensures { Answers (late_at self.old) result self.new }
    {
        Some(Late {
            vertex: self.byte()?,
            event: self.event()?,
        })
    }

    #[tactic(auto, unfolding(crate::specs::Reading::within_at))]
    fn mark(&mut self) -> Option<Mark>
        ensures { Answers (within_at most_mark self.old) result self.new }
    {
        Mark::new(self.i64()?)
    }

    #[tactic(auto, unfolding(crate::specs::Reading::item_at, crate::specs::Reading::kind_at))]
    pub(crate) fn item(&mut self) -> Option<Item>
        ensures { Answers (item_at self.old) result self.new }
    {
        Some(match Tag::read(self.byte()?)? {
            Tag::Event => Item::Event(self.event()?),
            Tag::Side => Item::Side(self.side()?),
            Tag::Frame => Item::Frame(self.frame()?),
            Tag::Row => Item::Row(self.row()?),
            Tag::Late => Item::Late(self.late()?),
            Tag::Mark => Item::Mark(self.mark()?),
            Tag::Done => Item::Done,
            Tag::Idle => Item::Idle,
        })
    }
}
