// Tags: the first byte of a spelling tells the kind of the item.
ghost use Rattle.std.specs.Prelude.{◌≡◌};

use jet_items::Item;

/// The kind of an item, with the byte that tells it.
#[derive(Clone, Copy)]
pub(crate) enum Tag {
    Event = 1,
    Side = 2,
    Frame = 3,
    Row = 4,
    Late = 5,
    Mark = 6,
    Done = 7,
    Idle = 8,
}

impl Tag {
    ghost use Rattle.jet_spell.specs.Tags.{tag_of, tag_byte, tag_at};

    pub(crate) fn of(item: &Item) -> Tag
        ensures { result ≡ tag_of item.now }
    {
        match item {
            Item::Event(_) => Tag::Event,
            Item::Side(_) => Tag::Side,
            Item::Frame(_) => Tag::Frame,
            Item::Row(_) => Tag::Row,
            Item::Late(_) => Tag::Late,
            Item::Mark(_) => Tag::Mark,
            Item::Done => Tag::Done,
            Item::Idle => Tag::Idle,
        }
    }

    pub(crate) fn byte(self) -> u8
        ensures { result ≡ tag_byte self }
    {
        self as u8
    }

    // The kind that the byte tells, if any.
    pub(crate) fn read(byte: u8) -> Option<Tag>
        ensures { result ≡ tag_at byte }
    {
        match byte {
            1 => Some(Tag::Event),
            2 => Some(Tag::Side),
            3 => Some(Tag::Frame),
            4 => Some(Tag::Row),
            5 => Some(Tag::Late),
            6 => Some(Tag::Mark),
            7 => Some(Tag::Done),
            8 => Some(Tag::Idle),
            _ => None,
        }
    }
}
