// The flat: it puts several items for an event, and remembers by `next` which of its legs are still to be asked for the
// event that it is in the middle of.
ghost use Rattle.std.specs.Prelude.{◌≡◌, ◌≤◌, ℕ, true, false, List, [], ◌∷◌, ◌++◌, Ok, map, drop, length, vec_len};
ghost use Rattle.std.specs.List.{flat_map};
ghost use Rattle.std.proofs.Common.{◌∙◌, refl};
ghost use Rattle.jet_items.specs.declared.item.Item.TheVariants as item;
ghost use Rattle.jet_items.specs.Order.{Sound, Closed as ClosedItems};
ghost use Rattle.jet_boxes.specs.Entry.{CallEntry, Given, MarkTold, QueueClosed, Finish, items_of};
ghost use Rattle.jet_boxes.specs.Calls.{Call, MayCall};
ghost use Rattle.jet_stages.specs.Calls.{FlatCall};
ghost use Rattle.jet_expr.specs.Flows.{flattened};
ghost use Rattle.jet_stages.specs.Stage.{StageBag, MarksPass};
ghost use Rattle.jet_stages.specs.Flat.{leg_value, joined_key, legs_give, FlatStands, FlatAmid, FlatBagAmid, Progress};

use crate::leg::Leg;
use jet_boxes::{Outbox, Port, Processor};
use jet_items::{Event, Item, Mark, NoMemory};

/// Makes of each event one more for each leg whose test has a value other than 0, in the order of the legs. Every other
/// item passes as it is. It never wants memory.
#[derive(Drop)]
pub struct FlatP {
    legs: Vec<Leg>,
    next: usize,
}

impl FlatP {
    /// A flat of one to eight legs.
    pub fn new(legs: Vec<Leg>) -> FlatP
        requires legs { (1 ≤ vec_len legs) × (vec_len legs ≤ 8) }
        ensures settings { result.legs ≡ legs }
        ensures stands { FlatStands result.legs.items result.next [] [] }
    {
        FlatP { legs, next: 0 }
    }

    // Puts what the legs that are left give for the event; false where the box is full, and then some legs are left.
    fn give_legs(&mut self, event: &Event, out: &mut Outbox) -> bool
        ensures legs { self.new.legs ≡ self.old.legs }
        ensures room { out.new.room ≡ out.old.room }
        ensures all { result ≡ true → (self.new.next ≡ 0) × (out.new.items ≡ out.old.items ++ map item.Event (legs_give (drop self.old.next self.old.legs.items) event.now)) }
        ensures some { result ≡ false → Progress out.old.items (map item.Event (legs_give (drop self.old.next self.old.legs.items) event.now)) out.new.items (map item.Event (legs_give (drop self.new.next self.old.legs.items) event.now)) }
        ensures full { result ≡ false → length out.new.items ≡ out.new.room }
    {
        while self.next < self.legs.len() {
            if !self.legs[self.next].give(event, out) {
                return false;
            }
            self.next += 1;
        }
        self.next = 0;
        true
    }
}

impl Processor for FlatP {
    ghost stands = { λ p taken given. FlatStands p.legs.items p.next taken given };

    ghost amid = { λ p taken entry given. FlatAmid p.legs.items p.next taken entry given };

    ghost takes = { λ p port queue. Unit {0} };

    ghost same = { λ p q. q.legs ≡ p.legs };

    ghost frugal = { true };

    ghost sound_if = { λ p behind taken. Sound behind (items_of taken) };

    ghost closed_if = { λ p taken. ClosedItems (items_of taken) };

    ghost bag = { λ p taken given. StageBag (flat_map (flattened joined_key (map leg_value p.legs.items))) taken given };

    ghost bag_amid = { λ p taken entry given. FlatBagAmid (flat_map (flattened joined_key (map leg_value p.legs.items))) taken entry given };

    ghost marks = { λ p taken given. MarksPass taken given };

    ghost marks_amid = { λ p taken entry given. MarksPass taken given };

    fn accept(
        &mut self,
        _port: Port,
        _queue: u32,
        item: &Item,
        out: &mut Outbox,
    ) -> Result<bool, NoMemory> {
        match item {
            Item::Event(event) => Ok(self.give_legs(event, out)),
            other => Ok(out.put(other)),
        }
    }

    fn mark(&mut self, mark: Mark, out: &mut Outbox) -> Result<bool, NoMemory> {
        Ok(out.put(&Item::Mark(mark)))
    }

    fn close_queue(&mut self, port: Port, queue: u32, out: &mut Outbox) -> bool
        ensures call { FlatCall self.old (QueueClosed port queue) out.old (Ok result) self.new out.new }
        ensures ends { result ≡ true }
    {
        true
    }

    fn finish(&mut self, out: &mut Outbox) -> Result<bool, NoMemory>
        ensures call { FlatCall self.old Finish out.old result self.new out.new }
        ensures ends { result ≡ Ok true }
    {
        Ok(true)
    }

    ghost use Rattle.jet_stages.specs.StageLaws.{stage_sound, stage_closed, stage_open, stage_marks};
    ghost use Rattle.jet_stages.specs.FlatLaws.{flat_keeps, flat_begins, flat_sound_amid, flat_closed_amid, flat_open_amid, flat_bag, flat_bag_amid, flat_marks_amid};

    ghost same_refl = { λ p. refl };

    ghost same_trans = { λ p q r h k. k ∙ h };

    ghost takes_stays = { λ p q port queue h k. tt };

    ghost begins = { λ p taken entry given. flat_begins p.legs.items p.next taken entry given };

    ghost sound_law = { λ behind p taken given h. stage_sound behind (legs_give p.legs.items) (flat_keeps p.legs.items) taken given h.1 };

    ghost sound_law_amid = { λ behind p taken entry given. flat_sound_amid behind p.legs.items p.next taken entry given };

    ghost closed_law = { λ p taken given h. stage_closed (legs_give p.legs.items) (flat_keeps p.legs.items) taken given h.1 };

    ghost closed_law_amid = { λ p taken entry given. flat_closed_amid p.legs.items p.next taken entry given };

    ghost open_law = { λ p taken given h. stage_open (legs_give p.legs.items) taken given h.1 };

    ghost open_law_amid = { λ p taken entry given. flat_open_amid p.legs.items p.next taken entry given };

    ghost bag_law = { λ p taken given h. flat_bag p.legs.items taken given h.1 };

    ghost bag_law_amid = { λ p taken entry given. flat_bag_amid p.legs.items p.next taken entry given };

    ghost marks_law = { λ p taken given h. stage_marks (legs_give p.legs.items) taken given h.1 };

    ghost marks_law_amid = { λ p taken entry given. flat_marks_amid p.legs.items p.next taken entry given };
}
