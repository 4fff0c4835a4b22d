// The spellings of items. Each call writes one part behind what was written before; the longest spelling is that of a
// side row.
ghost use Rattle.std.specs.Prelude.{◌≡◌, ◌+◌, ◌≤◌, ◌++◌, length};
ghost use Rattle.jet_spell.specs.Spelling.{event_bytes, side_bytes, acc_bytes, span_bytes, spelling};

use crate::tag::Tag;
use crate::writer::Writer;
use jet_items::{Acc, Event, Item, Key, Side};

impl Writer {
    /// The spelling of the item.
    #[tactic(auto, unfolding(crate::specs::Spelling::spelling))]
    pub(crate) fn spelling(item: &Item) -> Writer
        ensures { result ≡ spelling item.now }
    {
        let mut writer = Writer::new();
        writer.byte(Tag::of(item).byte());
        match item {
            Item::Event(event) => writer.event(event),
            Item::Side(side) => writer.side(side),
            Item::Frame(frame) => writer.span(frame.vertex, frame.end, &frame.key, &frame.acc),
            Item::Row(row) => writer.span(row.vertex, row.end, &row.key, &row.acc),
            Item::Late(late) => {
                writer.byte(late.vertex);
                writer.event(&late.event);
            }
            Item::Mark(mark) => writer.i64(mark.t),
            Item::Done | Item::Idle => {}
        }
        writer
    }

    // At most 87 bytes: 2, 4 and 8, the key's 41, and four times 8.
    fn event(&mut self, event: &Event)
        requires { length self.old + 87 ≤ 119 }
        ensures { self.new ≡ self.old ++ event_bytes event.now }
    {
        self.put(&event.part.to_be_bytes());
        self.put(&event.line.to_be_bytes());
        self.i64(event.ts);
        self.key(&event.key);
        self.values(&event.v);
    }

    // At most 118 bytes: 4, two keys of 41, and four times 8.
    fn side(&mut self, side: &Side)
        requires { length self.old + 118 ≤ 119 }
        ensures { self.new ≡ self.old ++ side_bytes side.now }
    {
        self.put(&side.line.to_be_bytes());
        self.key(&side.key);
        self.key(&side.label);
        self.values(&side.v);
    }

    // A frame or a row, of at most 90 bytes: 1 and 8, the key's 41, and what is known of its events.
    fn span(&mut self, vertex: u8, end: i64, key: &Key, acc: &Acc)
        requires { length self.old + 90 ≤ 119 }
        ensures { self.new ≡ self.old ++ span_bytes vertex end key.now acc.now }
    {
        self.byte(vertex);
        self.i64(end);
        self.key(key);
        self.acc(acc);
    }

    // 40 bytes: 8, 16, and twice 8.
    fn acc(&mut self, acc: &Acc)
        requires { length self.old + 40 ≤ 119 }
        ensures { self.new ≡ self.old ++ acc_bytes acc.now }
    {
        self.put(&acc.count.to_be_bytes());
        self.i128(acc.sum);
        self.i64(acc.min);
        self.i64(acc.max);
    }
}
