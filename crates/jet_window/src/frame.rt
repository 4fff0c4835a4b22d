// The first stage of a sliding window: frames of events. This is the accumulate vertex of the two-stage aggregation
// in Hazelcast Jet's paper.
ghost use Rattle.std.specs.Prelude.{◌≡◌, ℕ, ℤ, Bool, true, false, length, List, [], ◌∷◌, ◌++◌, map, pos, None, Ok, IsOk, IfOk, OnErr};
ghost use Rattle.std.proofs.Common.{◌∙◌, sym, refl};
ghost use Rattle.jet_items.specs.Ranges.{IsWithin, most_time, most_frame_end};
ghost use Rattle.jet_items.specs.Rows.{first_value};
ghost use Rattle.jet_items.specs.Frames.{frame_end};
ghost use Rattle.jet_items.specs.Totals.{one};
ghost use Rattle.jet_items.specs.Kinds.{marks_of};
ghost use Rattle.jet_items.specs.Order.{Sound, Closed as ClosedItems};
ghost use Rattle.jet_items.specs.declared.item.Item.{Item};
ghost use Rattle.jet_boxes.specs.Entry.{CallEntry, Given, MarkTold, QueueClosed, Finish, items_of};
ghost use Rattle.jet_window.specs.FrameCalls.{Stands, Amid, Alike, FrameCall, FrameMayCall};
ghost use Rattle.jet_window.specs.inner.FrameMoves.{Moved, StopsAbove};
ghost use Rattle.jet_window.specs.FrameStands.{FrameStands, FrameBag, IsEvent};
ghost use Rattle.jet_window.specs.FrameTables.{frame_of, joined_in, IsKept};
ghost use Rattle.jet_window.specs.FrameView.{held_by};
ghost use Rattle.jet_window.specs.LateEvents.{is_late, comes_late, FrameSound};

use crate::open_frames::OpenFrames;
use crate::times::Times;
use jet_boxes::{Outbox, Port, Processor};
use jet_items::{Acc, Frame, Item, Late, Mark, NoMemory};
use jet_policy::WinPolicy;
use std::alloc::Global;

/// Joins the events of each frame and key: what a job's accumulate vertex does.
///
/// An event below the slide's greatest multiple that is at most the last mark, or the mark that it began with, is late:
/// it is put as a late item of this vertex and is not counted. `held` has what is known of each open frame and key. A
/// frame is put once, when a mark closes it or at the finish, and frames are put by end, then key. Only an event wants
/// memory.
#[derive(Drop)]
pub struct FrameP {
    vertex: u8,
    times: Times,
    held: OpenFrames,
}

// Puts an item, and says whether there was room.
fn put(out: &mut Outbox, item: Item) -> bool
    ensures yes { result ≡ true → out.new ≡ record out.old { items = out.old.items ++ item ∷ [] } }
    ensures none { result ≡ false → out.new ≡ out.old }
    ensures full { result ≡ false → length out.old.items ≡ out.old.room }
{
    out.offer(item).is_ok()
}

impl FrameP {
    /// A frame vertex of this number that has taken nothing.
    pub fn new(alloc: Global, vertex: u8, policy: WinPolicy) -> FrameP
        ensures vertex { result.vertex ≡ vertex }
        ensures policy { result.times.policy ≡ policy }
        ensures begun { result.times.begun ≡ None }
        ensures stands { Stands result [] [] }
    {
        FrameP::from_mark(alloc, vertex, policy, None)
    }

    /// A frame vertex that has taken nothing, and begins where another stopped that had taken this mark: what is late by
    /// it is late here, for good, also while lower marks are taken.
    pub fn from_mark(alloc: Global, vertex: u8, policy: WinPolicy, mark: Option<Mark>) -> FrameP
        ensures vertex { result.vertex ≡ vertex }
        ensures policy { result.times.policy ≡ policy }
        ensures begun { result.times.begun ≡ mark }
        ensures stands { Stands result [] [] }
    {
        FrameP {
            vertex,
            times: Times::new(policy, mark),
            held: OpenFrames::new(alloc),
        }
    }

    /// The last mark that it took.
    pub fn mark_taken(&self) -> Option<Mark>
        ensures { result ≡ self.now.times.last }
    {
        self.times.last()
    }

    /// The frames that it holds, by end, then key: one for each end and key.
    pub fn frames(&self) -> Result<Vec<Frame>, NoMemory>
        ensures { IfOk result (λ frames. frames.items ≡ map (frame_of self.now.vertex) (held_by self.now)) }
    {
        self.held.list(self.vertex)
    }

    // Puts the frames that end at most at `t`, and says whether all were put.
    fn give_closed(&mut self, t: i64, out: &mut Outbox) -> bool
        ensures vertex { self.new.vertex ≡ self.old.vertex }
        ensures times { self.new.times ≡ self.old.times }
        ensures room { out.new.room ≡ out.old.room }
        ensures moved { Moved self.old.vertex t (held_by self.old) out.old.items (held_by self.new) out.new.items }
        ensures stops { result ≡ true → StopsAbove t (held_by self.new) }
        ensures full { result ≡ false → length out.new.items ≡ out.new.room }
    {
        while let Some(frame) = self.held.first_until(self.vertex, t) {
            if let Err(_) = out.offer(Item::Frame(frame)) {
                return false;
            }
            let _ = self.held.take_first();
        }
        true
    }
}

impl Processor for FrameP {
    ghost stands = { Stands };

    ghost amid = { Amid };

    ghost takes = { λ p port queue. Unit {0} };

    ghost same = { Alike };

    ghost frugal = { false };

    ghost sound_if = { λ p behind taken. FrameSound behind p.times.begun (items_of taken) };

    ghost closed_if = { λ p taken. ClosedItems (items_of taken) };

    ghost bag = { λ p taken given. FrameBag p.vertex p.times.policy.slide p.times.begun (map (frame_of p.vertex) (held_by p)) taken taken given };

    // A call that isn't ended has put only frames that were held, so its entry is not counted here.
    ghost bag_amid = { λ p taken entry given. FrameBag p.vertex p.times.policy.slide p.times.begun (map (frame_of p.vertex) (held_by p)) (taken ++ entry ∷ []) taken given };

    ghost marks = { λ p taken given. marks_of given ≡ marks_of (items_of taken) };

    ghost marks_amid = { λ p taken entry given. marks_of given ≡ marks_of (items_of taken) };

    fn accept(
        &mut self,
        _port: Port,
        _queue: u32,
        item: &Item,
        out: &mut Outbox,
    ) -> Result<bool, NoMemory>
        requires { FrameMayCall self.old (Given _port _queue item.now) }
        ensures call { FrameCall self.old (Given _port _queue item.now) out.old result self.new out.new }
        ensures memory { OnErr result (IsEvent item.now) }
    {
        let Item::Event(event) = item else {
            return Ok(put(out, *item));
        };
        if self.times.is_late(event.ts) {
            let item = Item::Late(Late {
                vertex: self.vertex,
                event: *event,
            });
            return Ok(put(out, item));
        }
        let end = self.times.frame_end(event.ts);
        self.held.keep(end, &event.key, &Acc::one(event.v[0]))?;
        Ok(true)
    }

    fn mark(&mut self, mark: Mark, out: &mut Outbox) -> Result<bool, NoMemory>
        requires { FrameMayCall self.old (MarkTold mark) }
        ensures call { FrameCall self.old (MarkTold mark) out.old result self.new out.new }
        ensures memory { IsOk result }
    {
        if !self.give_closed(mark.t, out) {
            return Ok(false);
        }
        if !put(out, Item::Mark(mark)) {
            return Ok(false);
        }
        self.times.take(mark);
        Ok(true)
    }

    fn close_queue(&mut self, _port: Port, _queue: u32, _out: &mut Outbox) -> bool
        ensures call { FrameCall self.old (QueueClosed _port _queue) _out.old (Ok result) self.new _out.new }
        ensures ends { result ≡ true }
    {
        true
    }

    fn finish(&mut self, out: &mut Outbox) -> Result<bool, NoMemory>
        requires { FrameMayCall self.old Finish }
        ensures call { FrameCall self.old Finish out.old result self.new out.new }
        ensures memory { IsOk result }
    {
        Ok(self.give_closed(i64::MAX, out))
    }

    ghost use Rattle.jet_window.specs.FrameLaws.{frame_sound, frame_sound_amid, frame_closed, frame_closed_amid, frame_open, frame_bag, frame_begins};

    ghost same_refl = { λ p. (refl, refl, refl) };

    ghost same_trans = { λ p q r h k. (k.0 ∙ h.0, k.1 ∙ h.1, k.2 ∙ h.2) };

    ghost takes_stays = { λ p q port queue h k. tt };

    ghost begins = { λ p taken entry given h. frame_begins p.vertex p.times.policy.slide p.times.begun p.times.last (held_by p) taken entry given h };

    ghost sound_law = { λ behind p taken given h k. frame_sound behind p.vertex p.times.policy.slide p.times.begun p.times.last (held_by p) taken taken given h k };

    ghost sound_law_amid = { λ behind p taken entry given h k. frame_sound_amid behind p.vertex p.times.policy.slide p.times.begun p.times.last (held_by p) taken entry given h k };

    ghost closed_law = { λ p taken given h k. frame_closed p.vertex p.times.policy.slide p.times.begun p.times.last (held_by p) taken taken given h k };

    ghost closed_law_amid = { λ p taken entry given h k. frame_closed_amid p.vertex p.times.policy.slide p.times.begun p.times.last (held_by p) taken entry given h k };

    ghost open_law = { λ p taken given h k. frame_open p.vertex p.times.policy.slide p.times.begun p.times.last (held_by p) taken taken given h };

    ghost open_law_amid = { λ p taken entry given h k. frame_open p.vertex p.times.policy.slide p.times.begun p.times.last (held_by p) (taken ++ entry ∷ []) taken given h };

    ghost bag_law = { λ p taken given h. frame_bag p.vertex p.times.policy.slide p.times.begun p.times.last (held_by p) taken taken given h };

    ghost bag_law_amid = { λ p taken entry given h. frame_bag p.vertex p.times.policy.slide p.times.begun p.times.last (held_by p) (taken ++ entry ∷ []) taken given h };

    ghost marks_law = { λ p taken given h. h.marks };

    ghost marks_law_amid = { λ p taken entry given h. h.marks };
}
