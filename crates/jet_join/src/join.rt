// The hash join. Its rows come first, through the build port, and are kept; an event of the stream is then put once
// for each row of its key. Where the box is full in the middle, `next` says how many of its rows are put already.
ghost use Rattle.std.specs.Prelude.{◌≡◌, ◌-◌, ◌≤◌, ℕ, Bool, true, false, List, [], ◌∷◌, ◌++◌, length, Ok, IsOk, OnErr};
ghost use Rattle.std.proofs.Common.{◌∙◌};
ghost use Rattle.jet_items.specs.Kinds.{marks_of, sides_of};
ghost use Rattle.jet_items.specs.Order.{Each, Sound, Closed as ClosedItems};
ghost use Rattle.jet_items.specs.declared.item.Item.{Item};
ghost use Rattle.jet_boxes.specs.Entry.{CallEntry, Given, MarkTold, QueueClosed, Finish, items_of};
ghost use Rattle.jet_boxes.specs.Calls.{Call, MayCall};
ghost use Rattle.jet_join.specs.Bag.{JoinBag};
ghost use Rattle.jet_join.specs.Calls.{Stands, Amid, JoinCall, JoinMayCall, setting_of};
ghost use Rattle.jet_join.specs.Settings.{IsField, joining};
ghost use Rattle.jet_boxes.specs.Ports.{build_items};
ghost use Rattle.jet_join.specs.Stands.{Puts, items_over};

use crate::mode::Mode;
use crate::setting::Setting;
use crate::side_rows::SideRows;
use crate::take::Take;
use jet_boxes::{Outbox, Port, Processor};
use jet_items::{Event, Item, Mark, NoMemory, Side};
use std::alloc::Global;

/// Joins the events of a stream with the side rows of their key: the hash join of Hazelcast Jet's pipelines, inner or
/// left outer.
///
/// A side row on the build port is kept. An event on the stream port gives an event for each row kept with its key, in
/// the order in which the rows were taken; without such a row it gives nothing, or in a left join itself. All else
/// passes as it is. Only a side row on the build port wants memory, and after want of memory the rows are as before.
/// What is given is the join over all rows where these were taken before the first event of the stream.
#[derive(Drop)]
pub struct JoinP {
    setting: Setting,
    rows: SideRows,
    // How many events are put of those that the event in hand gives; 0 between two calls.
    next: usize,
}

impl JoinP {
    /// A join without rows. Value i of a joined event is taken over as `fields[i]` says, and with `rekey` its key is
    /// the row's label.
    pub fn new(alloc: Global, mode: Mode, rekey: bool, fields: [Take; 4]) -> JoinP
        requires fields { Each IsField fields }
        ensures stands { Stands result [] [] }
        ensures setting { setting_of result ≡ joining mode rekey fields }
    {
        JoinP {
            setting: Setting::new(mode, rekey, fields),
            rows: SideRows::new(alloc),
            next: 0,
        }
    }
}

// Puts what an event gives over the rows of its key, from the next item on, and says whether all was put.
fn put_joined(
    setting: &Setting,
    rows: &[Side],
    event: &Event,
    next: &mut usize,
    out: &mut Outbox,
) -> bool
    requires place { next.old ≤ length (items_over setting.now rows.now event.now) - 1 }
    ensures puts { Puts (items_over setting.now rows.now event.now) next.old out.old.items result next.new out.new.items }
    ensures room { out.new.room ≡ out.old.room }
    ensures full { result ≡ false → length out.new.items ≡ out.new.room }
{
    if rows.is_empty() {
        return !setting.is_left() || put(out, Item::Event(*event));
    }
    while *next < rows.len() {
        let joined = setting.joined(event, &rows[*next]);
        if !put(out, Item::Event(joined)) {
            return false;
        }
        *next += 1;
    }
    *next = 0;
    true
}

// Puts an item, and says whether there was room.
fn put(out: &mut Outbox, item: Item) -> bool
    ensures put { result ≡ true → out.new ≡ record out.old { items = out.old.items ++ item ∷ [] } }
    ensures kept { result ≡ false → out.new ≡ out.old }
    ensures full { result ≡ false → length out.old.items ≡ out.old.room }
{
    out.offer(item).is_ok()
}

impl Processor for JoinP {
    ghost stands = { Stands };

    ghost amid = { Amid };

    ghost takes = { λ p port queue. Unit {0} };

    ghost same = { λ p q. setting_of q ≡ setting_of p };

    ghost frugal = { false };

    ghost sound_if = { λ p behind taken. Sound behind (items_of taken) };

    ghost closed_if = { λ p taken. ClosedItems (items_of taken) };

    ghost bag = { λ p taken given. JoinBag (setting_of p) taken given };

    ghost bag_amid = { λ p taken entry given. (held : List Item) × JoinBag (setting_of p) (taken ++ entry ∷ []) (given ++ held) };

    ghost marks = { λ p taken given. marks_of given ≡ marks_of (items_of taken) };

    ghost marks_amid = { λ p taken entry given. marks_of given ≡ marks_of (items_of taken) };

    fn accept(
        &mut self,
        port: Port,
        queue: u32,
        item: &Item,
        out: &mut Outbox,
    ) -> Result<bool, NoMemory>
        requires { JoinMayCall self.old (Given port queue item.now) }
        ensures call { JoinCall self.old (Given port queue item.now) out.old result self.new out.new }
        ensures memory { OnErr result (length (sides_of (build_items (Given port queue item.now))) ≡ 1) }
    {
        match (port, item) {
            (Port::Build, Item::Side(row)) => {
                self.rows.keep(row)?;
                Ok(true)
            }
            (Port::Stream, Item::Event(event)) => {
                let rows = self.rows.of(&event.key);
                Ok(put_joined(&self.setting, rows, event, &mut self.next, out))
            }
            _ => Ok(put(out, *item)),
        }
    }

    fn mark(&mut self, mark: Mark, out: &mut Outbox) -> Result<bool, NoMemory>
        ensures call { JoinCall self.old (MarkTold mark) out.old result self.new out.new }
        ensures memory { IsOk result }
    {
        Ok(put(out, Item::Mark(mark)))
    }

    fn close_queue(&mut self, port: Port, queue: u32, out: &mut Outbox) -> bool
        ensures call { JoinCall self.old (QueueClosed port queue) out.old (Ok result) self.new out.new }
        ensures ends { result ≡ true }
    {
        true
    }

    fn finish(&mut self, out: &mut Outbox) -> Result<bool, NoMemory>
        ensures call { JoinCall self.old Finish out.old result self.new out.new }
        ensures ends { result ≡ Ok true }
    {
        Ok(true)
    }

    ghost use Rattle.std.proofs.Common.{refl};
    ghost use Rattle.jet_join.specs.JoinLaws.{join_begins, join_sound, join_sound_amid, join_closed, join_closed_amid, join_open, join_open_amid, join_bag, join_bag_amid, join_marks, join_marks_amid};

    ghost same_refl = { λ p. refl };

    ghost same_trans = { λ p q r h k. k ∙ h };

    ghost takes_stays = { λ p q port queue h k. tt };

    ghost begins = { λ p taken entry given. join_begins p.setting p.rows p.next taken entry given };

    ghost sound_law = { λ behind p taken given h k. join_sound behind p.setting p.rows p.next taken given h k };

    ghost sound_law_amid = { λ behind p taken entry given h k. join_sound_amid behind p.setting p.rows p.next taken entry given h k };

    ghost closed_law = { λ p taken given h k. join_closed p.setting p.rows p.next taken given h k };

    ghost closed_law_amid = { λ p taken entry given h k. join_closed_amid p.setting p.rows p.next taken entry given h k };

    ghost open_law = { λ p taken given h k. join_open p.setting p.rows p.next taken given h k };

    ghost open_law_amid = { λ p taken entry given h k. join_open_amid p.setting p.rows p.next taken entry given h k };

    ghost bag_law = { λ p taken given h. join_bag p.setting p.rows p.next taken given h };

    ghost bag_law_amid = { λ p taken entry given h. join_bag_amid p.setting p.rows p.next taken entry given h };

    ghost marks_law = { λ p taken given h. join_marks p.setting p.rows p.next taken given h };

    ghost marks_law_amid = { λ p taken entry given h. join_marks_amid p.setting p.rows p.next taken entry given h };
}
