// Items: all that passes through a ring.
ghost use Rattle.std.specs.Prelude.{◌≡◌};
ghost use Rattle.jet_items.specs.Done.{is_done};

use crate::{Event, Frame, Late, Mark, Row, Side};

/// One item of a queue. All but `Mark` and `Done` are data.
#[derive(Clone, Copy)]
pub enum Item {
    /// A line of a source file, or what a vertex made of it.
    Event(Event),
    /// A line of a side file.
    Side(Side),
    /// What a frame vertex knows of a key's events in one slide.
    Frame(Frame),
    /// What a window holds of a key.
    Row(Row),
    /// An event that came after its window's mark.
    Late(Late),
    /// The watermark has come so far.
    Mark(Mark),
    /// Nothing follows in this queue.
    Done,
    /// The queue takes no part in the least watermark until its next event.
    Idle,
}

impl Item {
    ghost use Rattle.jet_items.specs.Fits.{ItemFits};

    /// Whether the item ends its queue.
    pub fn is_done(&self) -> bool
        ensures { result ≡ is_done self.now }
    {
        matches!(self, Item::Done)
    }

    /// A law for proofs above: each item lies in the ranges of its types. The call does nothing.
    pub fn fits(&self)
        ensures { ItemFits self.now }
    {
        match self {
            Item::Event(event) => event.fits(),
            Item::Side(side) => side.fits(),
            Item::Frame(frame) => frame.fits(),
            Item::Row(row) => row.fits(),
            Item::Late(late) => late.fits(),
            Item::Mark(mark) => mark.fits(),
            Item::Done | Item::Idle => {}
        }
    }
}
