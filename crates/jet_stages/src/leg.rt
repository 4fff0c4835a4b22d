// Legs: what a flat gives for an event.
ghost use Rattle.std.specs.Prelude.{◌≡◌, true, false, [], ◌∷◌, ◌++◌, map, length};
ghost use Rattle.jet_items.specs.declared.item.Item.TheVariants as item;
ghost use Rattle.jet_expr.specs.Flows.{leg_event};
ghost use Rattle.jet_stages.specs.Flat.{leg_value, joined_key, legs_give};

use crate::field::field_at;
use jet_boxes::Outbox;
use jet_expr::Expr;
use jet_items::{Event, Item, Key};

/// One leg of a flat: where the test has a value other than 0, it makes of an event one more, with the leg's value as
/// v0, and with the tag joined to the key.
#[derive(Drop)]
pub struct Leg {
    /// The leg makes an event where this is not 0.
    pub test: Expr,
    /// What the event has as v0.
    pub value: Expr,
    /// What stands behind the key.
    pub tag: Option<Key>,
}

impl Leg {
    fn made(&self, event: &Event) -> Event
        ensures { result ≡ leg_event joined_key event.now (leg_value self.now) }
    {
        let key = match &self.tag {
            Some(tag) => event.key.joined(tag),
            None => event.key,
        };
        Event {
            key,
            v: [
                self.value.value(event),
                field_at(event, 1),
                field_at(event, 2),
                field_at(event, 3),
            ],
            ..*event
        }
    }

    // Puts the leg's event, where there is one; false where the box is full.
    pub(crate) fn give(&self, event: &Event, out: &mut Outbox) -> bool
        ensures put { result ≡ true → out.new ≡ record out.old { items = out.old.items ++ map item.Event (legs_give (self.now ∷ []) event.now) } }
        ensures kept { result ≡ false → out.new ≡ out.old }
        ensures full { result ≡ false → length out.old.items ≡ out.old.room }
    {
        if self.test.test(event) {
            return out.put(&Item::Event(self.made(event)));
        }
        true
    }
}
