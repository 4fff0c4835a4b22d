// The map: it puts one item for each that it takes, and so has nothing to remember between two calls for one entry.
ghost use Rattle.std.specs.Prelude.{◌≡◌, ◌<◌, ℕ, true, List, [], ◌∷◌, ◌++◌, Ok, map};
ghost use Rattle.std.proofs.Common.{◌∙◌, refl};
ghost use Rattle.jet_items.specs.Order.{Sound, Closed as ClosedItems};
ghost use Rattle.jet_items.specs.Ranges.{IsWithin, most_time};
ghost use Rattle.jet_boxes.specs.Entry.{CallEntry, Given, MarkTold, QueueClosed, Finish, items_of};
ghost use Rattle.jet_boxes.specs.Calls.{Call, MayCall};
ghost use Rattle.jet_stages.specs.Calls.{MapCall};
ghost use Rattle.jet_expr.specs.Flows.{field_set, mapped};
ghost use Rattle.jet_stages.specs.Stage.{item_gives, StageStands, StageBag, MarksPass};
ghost use Rattle.jet_stages.specs.Map.{remade};

use crate::field::field_at;
use jet_boxes::{Outbox, Port, Processor};
use jet_expr::Expr;
use jet_items::{Event, Item, Mark, NoMemory};

/// Sets fields of each event: field i becomes the value of its expression on the event that came in, where there is
/// an expression. Every other item passes as it is. It never wants memory.
#[derive(Drop)]
pub struct MapP {
    set: [Option<Expr>; 4],
}

impl MapP {
    /// A map with an expression, or none, for each field.
    pub fn new(set: [Option<Expr>; 4]) -> MapP
        ensures settings { result.set ≡ set }
        ensures stands { StageStands (remade result.set) [] [] }
    {
        MapP { set }
    }

    // What field i becomes.
    fn field(&self, event: &Event, i: usize) -> i64
        requires { i < 4 }
        ensures value { result ≡ field_set self.now.set event.now i }
        ensures small { IsWithin most_time result }
    {
        match &self.set[i] {
            Some(expression) => expression.value(event),
            None => field_at(event, i),
        }
    }

    fn remade(&self, event: &Event) -> Event
        ensures { result ≡ mapped self.now.set event.now }
    {
        Event {
            v: [
                self.field(event, 0),
                self.field(event, 1),
                self.field(event, 2),
                self.field(event, 3),
            ],
            ..*event
        }
    }

    fn turned(&self, item: &Item) -> Item
        ensures { item_gives (remade self.now.set) item.now ≡ result ∷ [] }
    {
        match item {
            Item::Event(event) => Item::Event(self.remade(event)),
            other => *other,
        }
    }
}

impl Processor for MapP {
    ghost stands = { λ p taken given. StageStands (remade p.set) taken given };

    ghost amid = { λ p taken entry given. StageStands (remade p.set) taken given };

    ghost takes = { λ p port queue. Unit {0} };

    ghost same = { λ p q. q.set ≡ p.set };

    ghost frugal = { true };

    ghost sound_if = { λ p behind taken. Sound behind (items_of taken) };

    ghost closed_if = { λ p taken. ClosedItems (items_of taken) };

    ghost bag = { λ p taken given. StageBag (map (mapped p.set)) taken given };

    // Nothing is given for an entry before its call ends.
    ghost bag_amid = { λ p taken entry given. StageBag (map (mapped p.set)) taken given };

    ghost marks = { λ p taken given. MarksPass taken given };

    ghost marks_amid = { λ p taken entry given. MarksPass taken given };

    fn accept(
        &mut self,
        _port: Port,
        _queue: u32,
        item: &Item,
        out: &mut Outbox,
    ) -> Result<bool, NoMemory> {
        Ok(out.put(&self.turned(item)))
    }

    fn mark(&mut self, mark: Mark, out: &mut Outbox) -> Result<bool, NoMemory> {
        Ok(out.put(&Item::Mark(mark)))
    }

    fn close_queue(&mut self, port: Port, queue: u32, out: &mut Outbox) -> bool
        ensures call { MapCall self.old (QueueClosed port queue) out.old (Ok result) self.new out.new }
        ensures ends { result ≡ true }
    {
        true
    }

    fn finish(&mut self, out: &mut Outbox) -> Result<bool, NoMemory>
        ensures call { MapCall self.old Finish out.old result self.new out.new }
        ensures ends { result ≡ Ok true }
    {
        Ok(true)
    }

    ghost use Rattle.jet_stages.specs.StageLaws.{stage_sound, stage_closed, stage_open, stage_sound_amid, stage_closed_amid, stage_open_amid, stage_bag, stage_marks};
    ghost use Rattle.jet_stages.specs.MapLaws.{map_keeps, map_is};

    ghost same_refl = { λ p. refl };

    ghost same_trans = { λ p q r h k. k ∙ h };

    ghost takes_stays = { λ p q port queue h k. tt };

    ghost begins = { λ p taken entry given h. h };

    ghost sound_law = { λ behind p taken given. stage_sound behind (remade p.set) (map_keeps p.set) taken given };

    ghost sound_law_amid = { λ behind p taken entry given. stage_sound_amid behind (remade p.set) (map_keeps p.set) taken entry given };

    ghost closed_law = { λ p taken given. stage_closed (remade p.set) (map_keeps p.set) taken given };

    ghost closed_law_amid = { λ p taken entry given. stage_closed_amid (remade p.set) (map_keeps p.set) taken entry given };

    ghost open_law = { λ p taken given. stage_open (remade p.set) taken given };

    ghost open_law_amid = { λ p taken entry given. stage_open_amid (remade p.set) taken entry given };

    ghost bag_law = { λ p taken given. stage_bag (map (mapped p.set)) (remade p.set) (map_is p.set) taken given };

    ghost bag_law_amid = { λ p taken entry given. stage_bag (map (mapped p.set)) (remade p.set) (map_is p.set) taken given };

    ghost marks_law = { λ p taken given. stage_marks (remade p.set) taken given };

    ghost marks_law_amid = { λ p taken entry given. stage_marks (remade p.set) taken given };
}
