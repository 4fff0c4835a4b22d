// The filter: it puts an event or nothing, and so has nothing to remember between two calls for one entry.
ghost use Rattle.std.specs.Prelude.{◌≡◌, ℕ, true, false, List, [], ◌∷◌, ◌++◌, Ok, filter};
ghost use Rattle.std.proofs.Common.{◌∙◌, refl};
ghost use Rattle.jet_items.specs.Order.{Sound, Closed as ClosedItems};
ghost use Rattle.jet_boxes.specs.Entry.{CallEntry, Given, MarkTold, QueueClosed, Finish, items_of};
ghost use Rattle.jet_boxes.specs.Calls.{Call, MayCall};
ghost use Rattle.jet_stages.specs.Calls.{FilterCall};
ghost use Rattle.jet_expr.specs.Flows.{passes};
ghost use Rattle.jet_stages.specs.Stage.{item_gives, StageStands, StageBag, MarksPass};
ghost use Rattle.jet_stages.specs.Filter.{filtered};

use jet_boxes::{Outbox, Port, Processor};
use jet_expr::Expr;
use jet_items::{Item, Mark, NoMemory};

/// Passes on the events whose test has a value other than 0, and every other item. It never wants memory.
#[derive(Drop)]
pub struct FilterP {
    test: Expr,
}

impl FilterP {
    /// A filter with this test.
    pub fn new(test: Expr) -> FilterP
        ensures settings { result.test ≡ test }
        ensures stands { StageStands (filtered result.test) [] [] }
    {
        FilterP { test }
    }

    fn drops(&self, item: &Item) -> bool
        ensures dropped { result ≡ true → item_gives (filtered self.now.test) item.now ≡ [] }
        ensures passed { result ≡ false → item_gives (filtered self.now.test) item.now ≡ item.now ∷ [] }
    {
        match item {
            Item::Event(event) => !self.test.test(event),
            _ => false,
        }
    }
}

impl Processor for FilterP {
    ghost stands = { λ p taken given. StageStands (filtered p.test) taken given };

    ghost amid = { λ p taken entry given. StageStands (filtered p.test) taken given };

    ghost takes = { λ p port queue. Unit {0} };

    ghost same = { λ p q. q.test ≡ p.test };

    ghost frugal = { true };

    ghost sound_if = { λ p behind taken. Sound behind (items_of taken) };

    ghost closed_if = { λ p taken. ClosedItems (items_of taken) };

    ghost bag = { λ p taken given. StageBag (filter (passes p.test)) taken given };

    // Nothing is given for an entry before its call ends.
    ghost bag_amid = { λ p taken entry given. StageBag (filter (passes p.test)) taken given };

    ghost marks = { λ p taken given. MarksPass taken given };

    ghost marks_amid = { λ p taken entry given. MarksPass taken given };

    fn accept(
        &mut self,
        _port: Port,
        _queue: u32,
        item: &Item,
        out: &mut Outbox,
    ) -> Result<bool, NoMemory> {
        if self.drops(item) {
            return Ok(true);
        }
        Ok(out.put(item))
    }

    fn mark(&mut self, mark: Mark, out: &mut Outbox) -> Result<bool, NoMemory> {
        Ok(out.put(&Item::Mark(mark)))
    }

    fn close_queue(&mut self, port: Port, queue: u32, out: &mut Outbox) -> bool
        ensures call { FilterCall self.old (QueueClosed port queue) out.old (Ok result) self.new out.new }
        ensures ends { result ≡ true }
    {
        true
    }

    fn finish(&mut self, out: &mut Outbox) -> Result<bool, NoMemory>
        ensures call { FilterCall self.old Finish out.old result self.new out.new }
        ensures ends { result ≡ Ok true }
    {
        Ok(true)
    }

    ghost use Rattle.jet_stages.specs.StageLaws.{stage_sound, stage_closed, stage_open, stage_sound_amid, stage_closed_amid, stage_open_amid, stage_bag, stage_marks};
    ghost use Rattle.jet_stages.specs.FilterLaws.{filter_keeps, filter_is};

    ghost same_refl = { λ p. refl };

    ghost same_trans = { λ p q r h k. k ∙ h };

    ghost takes_stays = { λ p q port queue h k. tt };

    ghost begins = { λ p taken entry given h. h };

    ghost sound_law = { λ behind p taken given. stage_sound behind (filtered p.test) (filter_keeps p.test) taken given };

    ghost sound_law_amid = { λ behind p taken entry given. stage_sound_amid behind (filtered p.test) (filter_keeps p.test) taken entry given };

    ghost closed_law = { λ p taken given. stage_closed (filtered p.test) (filter_keeps p.test) taken given };

    ghost closed_law_amid = { λ p taken entry given. stage_closed_amid (filtered p.test) (filter_keeps p.test) taken entry given };

    ghost open_law = { λ p taken given. stage_open (filtered p.test) taken given };

    ghost open_law_amid = { λ p taken entry given. stage_open_amid (filtered p.test) taken entry given };

    ghost bag_law = { λ p taken given. stage_bag (filter (passes p.test)) (filtered p.test) (filter_is p.test) taken given };

    ghost bag_law_amid = { λ p taken entry given. stage_bag (filter (passes p.test)) (filtered p.test) (filter_is p.test) taken given };

    ghost marks_law = { λ p taken given. stage_marks (filtered p.test) taken given };

    ghost marks_law_amid = { λ p taken entry given. stage_marks (filtered p.test) taken given };
}
