// The stamp: it remembers by `owed` that the item of the entry in hand was put, and that a mark has still to follow it.
ghost use Rattle.std.specs.Prelude.{◌≡◌, ◌<◌, ◌≤ℤ◌, ℕ, ℤ, pos, true, false, List, [], ◌∷◌, ◌++◌, length, Option, Some, None, Ok, IfOk, IsSome};
ghost use Rattle.std.proofs.Common.{◌∙◌, refl, sym, subst};
ghost use Rattle.jet_items.specs.Ranges.{IsWithin, most_time};
ghost use Rattle.jet_items.specs.declared.item.Item.TheVariants as item;
ghost use Rattle.jet_items.specs.Order.{Sound, Closed as ClosedItems};
ghost use Rattle.jet_items.specs.Values.{EventValue};
ghost use Rattle.jet_coalescer.specs.Queues.{is_done_at};
ghost use Rattle.jet_boxes.specs.declared.port.Port.TheVariants.{Stream};
ghost use Rattle.jet_boxes.specs.Entry.{CallEntry, Given, MarkTold, QueueClosed, Finish, items_of};
ghost use Rattle.jet_boxes.specs.Calls.{Call, MayCall};
ghost use Rattle.jet_stages.specs.Calls.{StampCall};
ghost use Rattle.jet_stages.specs.Stamp.{unless_idle, StampMarks, StampBag, StampBagAmid, FromFiles, HasNoResults};
ghost use Rattle.jet_stages.specs.Stamping.{Knows, Notes, Stands, Amid, Same, mark_items, told_by};

use jet_boxes::{Outbox, Port, Processor};
use jet_coalescer::{Change, Coalescer};
use jet_items::{Item, Mark, NoMemory};
use jet_policy::Marker;
use std::alloc::Global;

/// The source of a job's marks. Its queues are the files of a source; it passes on every item but idle notes. An idle
/// note makes its queue idle until the next event of the queue. Where an item or the end of a queue raises the watermark
/// of the queues that are neither closed nor idle, it puts that mark behind. The marks of a queue are those of the
/// limiting-lag policy of Hazelcast Jet. It is told no marks. It never wants memory.
#[derive(Drop)]
pub struct Stamp {
    // What the markers were made with.
    lag: i64,
    grain: i64,
    // One for each queue.
    markers: Vec<Marker>,
    queues: Coalescer,
    owed: Option<Mark>,
}

impl Stamp {
    /// A stamp of this many queues, whose events may lag behind the greatest time by `lag`, and whose marks are
    /// multiples of `grain`; both are in the unit of the timestamps.
    pub fn new(alloc: Global, partitions: u32, lag: i64, grain: i64) -> Result<Stamp, NoMemory>
        requires lag { (pos 0 ≤ℤ lag) × (lag ≤ℤ pos most_time) }
        requires grain { (pos 1 ≤ℤ grain) × (grain ≤ℤ pos 1000000000000) }
        ensures settings { IfOk result (λ p. (length p.markers.items ≡ partitions) × (p.lag ≡ lag) × (p.grain ≡ grain)) }
        ensures stands { IfOk result (λ p. Stands p [] []) }
    {
        let mut markers = Vec::new(alloc);
        markers.resize(partitions as usize, Marker::new(lag, grain))?;
        Ok(Stamp {
            lag,
            grain,
            markers,
            queues: Coalescer::new(alloc, partitions)?,
            owed: None,
        })
    }

    // Sees the time of an event, which wakes its queue, and answers the watermark where it is the first or rose.
    fn see(&mut self, queue: u32, ts: i64) -> Option<Mark>
        requires marker { queue < length self.old.markers.items }
        requires queue { queue < length self.old.queues.queues }
        requires going { is_done_at self.old.queues queue ≡ false }
        requires time { IsWithin most_time ts }
        ensures settings { (self.new.lag ≡ self.old.lag) × (self.new.grain ≡ self.old.grain) × (self.new.owed ≡ self.old.owed) }
        ensures notes { (taken : List CallEntry) (e : EventValue) → e.ts ≡ ts → Knows self.old.lag self.old.grain self.old.markers.items self.old.queues taken
            → Notes self.old.lag self.old.grain self.old.markers.items self.old.queues self.new.markers.items self.new.queues taken (Given Stream queue (item.Event e)) result }
    {
        match self.markers[queue as usize].see(ts) {
            Some(mark) => self.queues.observe(queue, mark),
            None => self.queues.wake(queue),
        }
    }

    // The same of an item, where it is an event; an idle note makes its queue idle.
    fn note(&mut self, queue: u32, item: &Item) -> Option<Mark>
        requires marker { queue < length self.old.markers.items }
        requires queue { queue < length self.old.queues.queues }
        requires going { is_done_at self.old.queues queue ≡ false }
        ensures settings { (self.new.lag ≡ self.old.lag) × (self.new.grain ≡ self.old.grain) × (self.new.owed ≡ self.old.owed) }
        ensures notes { (taken : List CallEntry) → Knows self.old.lag self.old.grain self.old.markers.items self.old.queues taken
            → Notes self.old.lag self.old.grain self.old.markers.items self.old.queues self.new.markers.items self.new.queues taken (Given Stream queue item.now) result }
    {
        match item {
            Item::Event(event) => self.see(queue, event.ts),
            Item::Idle => self.queues.idle(queue),
            _ => None,
        }
    }

    // Takes the end of a queue, and answers the watermark where it is the first or rose.
    fn end(&mut self, queue: u32) -> Option<Mark>
        requires marker { queue < length self.old.markers.items }
        requires queue { queue < length self.old.queues.queues }
        requires going { is_done_at self.old.queues queue ≡ false }
        ensures settings { (self.new.lag ≡ self.old.lag) × (self.new.grain ≡ self.old.grain) × (self.new.owed ≡ self.old.owed) }
        ensures notes { (taken : List CallEntry) → Knows self.old.lag self.old.grain self.old.markers.items self.old.queues taken
            → Notes self.old.lag self.old.grain self.old.markers.items self.old.queues self.new.markers.items self.new.queues taken (QueueClosed Stream queue) result }
    {
        raised(self.queues.done(queue))
    }

    // Puts the mark that is owed, where there is one; false where the box is full.
    fn settle(&mut self, out: &mut Outbox) -> bool
        ensures settled { result ≡ true → (self.new ≡ record self.old { owed = None }) × (out.new ≡ record out.old { items = out.old.items ++ mark_items self.old.owed }) }
        ensures waits { result ≡ false → (self.new ≡ self.old) × (out.new ≡ out.old) × (length out.old.items ≡ out.old.room) × IsSome self.old.owed }
    {
        if let Some(mark) = self.owed {
            if !out.put(&Item::Mark(mark)) {
                return false;
            }
            self.owed = None;
        }
        true
    }
}

// Puts an item, unless it is an idle note; false where the box is full.
fn pass_on(out: &mut Outbox, item: &Item) -> bool
    ensures put { result ≡ true → out.new ≡ record out.old { items = out.old.items ++ unless_idle item.now } }
    ensures kept { result ≡ false → out.new ≡ out.old }
    ensures full { result ≡ false → length out.old.items ≡ out.old.room }
{
    match item {
        Item::Idle => true,
        other => out.put(other),
    }
}

fn raised(change: Change) -> Option<Mark>
    ensures { result ≡ told_by change }
{
    match change {
        Change::Raised(mark) => Some(mark),
        _ => None,
    }
}

impl Processor for Stamp {
    ghost stands = { Stands };

    ghost amid = { Amid };

    ghost takes = { λ p port queue. (port ≡ Stream) × (queue < length p.markers.items) };

    ghost same = { Same };

    ghost frugal = { true };

    ghost sound_if = { λ p behind taken. FromFiles (length p.markers.items) p.lag p.grain behind taken };

    ghost closed_if = { λ p taken. HasNoResults taken };

    ghost bag = { λ p taken given. StampBag taken given };

    ghost bag_amid = { λ p taken entry given. StampBagAmid taken entry given };

    ghost marks = { λ p taken given. StampMarks (length p.markers.items) p.lag p.grain taken given };

    // The mark of an entry is given last, when its call ends.
    ghost marks_amid = { λ p taken entry given. StampMarks (length p.markers.items) p.lag p.grain taken given };

    fn accept(
        &mut self,
        _port: Port,
        queue: u32,
        item: &Item,
        out: &mut Outbox,
    ) -> Result<bool, NoMemory> {
        if self.owed.is_some() {
            return Ok(self.settle(out));
        }
        if !pass_on(out, item) {
            return Ok(false);
        }
        self.owed = self.note(queue, item);
        Ok(self.settle(out))
    }

    fn mark(&mut self, mark: Mark, out: &mut Outbox) -> Result<bool, NoMemory>
        ensures call { StampCall self.old (MarkTold mark) out.old result self.new out.new }
        ensures ends { result ≡ Ok true }
        ensures nothing { out.new ≡ out.old }
    {
        Ok(true)
    }

    fn close_queue(&mut self, _port: Port, queue: u32, out: &mut Outbox) -> bool {
        if self.owed.is_some() {
            return self.settle(out);
        }
        self.owed = self.end(queue);
        self.settle(out)
    }

    fn finish(&mut self, out: &mut Outbox) -> Result<bool, NoMemory>
        ensures call { StampCall self.old Finish out.old result self.new out.new }
        ensures ends { result ≡ Ok true }
        ensures nothing { out.new ≡ out.old }
    {
        Ok(true)
    }

    ghost use Rattle.jet_stages.specs.StampLaws.{stamp_begins, stamp_sound_amid, stamp_closed_amid, stamped_open, stamp_open_amid, stamp_bag_amid, stamp_marks_amid};

    ghost same_refl = { λ p. (refl, refl, refl) };

    ghost same_trans = { λ p q r h k. (k.0 ∙ h.0, k.1 ∙ h.1, k.2 ∙ h.2) };

    ghost takes_stays = { λ p q port queue h k. (k.0, subst (λ (n : ℕ). queue < n) (sym h.2) k.1) };

    ghost begins = { λ p taken entry given. stamp_begins p.lag p.grain p.markers.items p.queues p.owed taken entry given };

    ghost sound_law = { λ behind p taken given h files. h.stamped.sound behind files };

    ghost sound_law_amid = { λ behind p taken entry given. stamp_sound_amid behind p.lag p.grain p.markers.items p.queues p.owed taken entry given };

    ghost closed_law = { λ p taken given h none. h.stamped.closed none };

    ghost closed_law_amid = { λ p taken entry given. stamp_closed_amid p.lag p.grain p.markers.items p.queues p.owed taken entry given };

    ghost open_law = { λ p taken given h open_yet. stamped_open (length p.markers.items) p.lag p.grain taken given h.stamped };

    ghost open_law_amid = { λ p taken entry given h open_yet. stamp_open_amid p.lag p.grain p.markers.items p.queues p.owed taken entry given h };

    ghost bag_law = { λ p taken given h. h.stamped.bag };

    ghost bag_law_amid = { λ p taken entry given. stamp_bag_amid p.lag p.grain p.markers.items p.queues p.owed taken entry given };

    ghost marks_law = { λ p taken given h. h.stamped.marks };

    ghost marks_law_amid = { λ p taken entry given. stamp_marks_amid p.lag p.grain p.markers.items p.queues p.owed taken entry given };
}
