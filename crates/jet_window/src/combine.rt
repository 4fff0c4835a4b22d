// The second stage of a sliding window: rows of windows from frames. This is the combine vertex of the two-stage
// aggregation in Hazelcast Jet's paper.
ghost use Rattle.std.specs.Prelude.{◌≡◌, ℕ, ℤ, ◌<ℤ◌, ◌-ℤ◌, Bool, true, false, length, List, [], ◌∷◌, ◌++◌, IfOk, OnOk, OnErr, IfSome, IfNone, Some, None, Ok};
ghost use Rattle.std.proofs.Common.{◌∙◌, refl};
ghost use Rattle.jet_items.specs.Kinds.{marks_of};
ghost use Rattle.jet_items.specs.Order.{Each, Sound, Closed as ClosedItems};
ghost use Rattle.jet_items.specs.Ranges.{IsWithin, most_frame_end, most_row_end};
ghost use Rattle.jet_items.specs.declared.item.Item.{Item};
ghost use Rattle.jet_boxes.specs.Entry.{CallEntry, Given, MarkTold, QueueClosed, Finish, items_of};
ghost use Rattle.jet_window.specs.CombineCalls.{Stands, Amid, Alike, CombineCall, CombineMayCall};
ghost use Rattle.jet_window.specs.CombineStands.{CombineBag, CombineBagAmid, IsFrame, Gave, PutsReady};
ghost use Rattle.jet_window.specs.CombineView.{combine_of, start_of, held_frames, SameRest};
ghost use Rattle.jet_window.specs.Combining.{Forgets, Clear, OpenAbove, Passes, IsOver, MayBegin, TableOf};
ghost use Rattle.jet_window.specs.Later.{later_of};
ghost use Rattle.jet_window.specs.FrameTables.{IsKept};
ghost use Rattle.jet_window.specs.inner.NextEnds.{IsNextEnd};
ghost use Rattle.jet_window.specs.Taken.{is_due, due_after, InOpenWindow, StageInput};
ghost use Rattle.jet_window.specs.inner.WindowOf.{WindowOf};

use crate::held::end_above;
use crate::held_frames::HeldFrames;
use jet_boxes::{Outbox, Port, Processor};
use jet_items::{Acc, Frame, Item, Key, Mark, NoMemory, Row};
use jet_policy::WinPolicy;
use std::alloc::Global;
use std::collections::VecDeque;

/// Joins the frames of each window and key to a row, once a mark closes the window: what a job's combine vertex does.
///
/// It begins with nothing, or with a mark and the frames that another vertex held when it had given all rows up to that
/// mark; then it gives the rows above that mark, over these frames and those that it takes. `held` has the frames of open
/// windows, `passed` says up to which end windows are done, and `ready` has the rows of the window at `end` that are still
/// to be put. Only ends of windows that hold a frame are visited, so a mark that jumps far is cheap. A frame is forgotten
/// once its last window is closed. A frame wants memory, and a mark or the finish only where a window is to be closed that
/// has a frame.
#[derive(Drop)]
pub struct CombineP {
    vertex: u8,
    policy: WinPolicy,
    alloc: Global,
    // What it began with. Neither changes: a lower mark that is taken later must not undo the first, and contracts speak of
    // both for as long as the vertex lives.
    begun: Option<Mark>,
    start: Vec<Frame>,
    last: Option<Mark>,
    passed: Option<Mark>,
    end: i64,
    held: HeldFrames,
    ready: VecDeque<(Key, Acc)>,
}

// The later of a mark and the one that a vertex began with.
fn later(begun: Option<Mark>, mark: Mark) -> Mark
    ensures { Some result ≡ later_of begun (Some mark) }
{
    let Some(begun) = begun else {
        return mark;
    };
    if begun.t <= mark.t { mark } else { begun }
}

// The frames by end and key, joined where several have the same.
fn table_of(alloc: Global, frames: &[Frame]) -> Result<HeldFrames, NoMemory>
    ensures { IfOk result (λ held. TableOf frames.now held) }
{
    let mut held = HeldFrames::new(alloc);
    for frame in frames {
        held.keep(frame.end, &frame.key, &frame.acc)?;
    }
    Ok(held)
}

impl CombineP {
    /// A combine vertex of this number that has taken nothing.
    pub fn new(alloc: Global, vertex: u8, policy: WinPolicy) -> CombineP
        ensures vertex { result.vertex ≡ vertex }
        ensures policy { result.policy ≡ policy }
        ensures begun { result.begun ≡ None }
        ensures start { result.start.items ≡ [] }
        ensures stands { Stands result [] [] }
    {
        CombineP {
            vertex,
            policy,
            alloc,
            begun: None,
            start: Vec::new(alloc),
            last: None,
            passed: None,
            end: 0,
            held: HeldFrames::new(alloc),
            ready: VecDeque::new(alloc),
        }
    }

    /// A combine vertex of this number that goes on where another one stopped: behind this mark, with these frames held.
    ///
    /// It puts no row that ends at the mark or below. The frames may stand in any order, and are kept as they were given.
    pub fn resumed(
        alloc: Global,
        vertex: u8,
        policy: WinPolicy,
        mark: Option<Mark>,
        frames: Vec<Frame>,
    ) -> Result<CombineP, NoMemory>
        requires { MayBegin vertex policy.size policy.slide mark frames.items }
        ensures vertex { IfOk result (λ p. p.vertex ≡ vertex) }
        ensures policy { IfOk result (λ p. p.policy ≡ policy) }
        ensures begun { IfOk result (λ p. p.begun ≡ mark) }
        ensures start { IfOk result (λ p. p.start.items ≡ frames.items) }
        ensures stands { IfOk result (λ p. Stands p [] []) }
    {
        let held = table_of(alloc, &frames)?;
        let passed = mark;
        Ok(CombineP {
            vertex,
            policy,
            alloc,
            begun: mark,
            start: frames,
            last: None,
            passed,
            end: 0,
            held,
            ready: VecDeque::new(alloc),
        })
    }

    /// The last mark that it took.
    pub fn mark_taken(&self) -> Option<Mark>
        ensures { result ≡ self.now.last }
    {
        self.last
    }

    /// The frames that it holds, by end, then key: one for each end and key, and none whose last window has closed.
    pub fn frames(&self) -> Result<Vec<Frame>, NoMemory>
        ensures { IfOk result (λ v. v.items ≡ held_frames self.now) }
    {
        self.held.list(self.vertex)
    }

    // Whether a frame that ends here lies in a window above the mark that the vertex began with.
    fn has_window(&self, end: i64) -> bool
        requires { IsWithin most_frame_end end }
        ensures yes { result ≡ true → InOpenWindow self.now.policy.size self.now.policy.slide (is_due self.now.begun) end }
        ensures no { result ≡ false → IsOver self.now.policy.size self.now.policy.slide self.now.begun end }
    {
        let size = self.policy.size();
        if self.begun.is_none() {
            return true;
        }
        end_above(&self.policy, self.begun, end) < end + size
    }

    // The end of the first window that is open and has a frame. Frames whose windows have all passed are forgotten.
    fn next_end(&mut self) -> Option<i64>
        requires { IsKept self.old.held }
        ensures rest { SameRest self.old self.new }
        ensures passed { self.new.passed ≡ self.old.passed }
        ensures end { self.new.end ≡ self.old.end }
        ensures alloc { self.new.alloc ≡ self.old.alloc }
        ensures ready { self.new.ready ≡ self.old.ready }
        ensures forgets { Forgets self.old.policy.size self.old.policy.slide self.old.passed self.old.held self.new.held }
        ensures some { IfSome result (λ e. IsNextEnd self.old.policy.size self.old.policy.slide self.old.passed self.new.held e) }
        ensures none { IfNone result (self.new.held ≡ []) }
    {
        while let Some(end) = self.held.first_end() {
            let next = end_above(&self.policy, self.passed, end);
            if next < end + self.policy.size() {
                return Some(next);
            }
            self.held.forget_first();
        }
        None
    }

    // Takes up the next window: its rows are ready.
    fn take_up(&mut self, end: i64) -> Result<(), NoMemory>
        requires range { IsWithin most_row_end end }
        requires reaches { Each (λ f. (end -ℤ self.old.policy.size) <ℤ f.0.0) self.old.held }
        ensures rest { SameRest self.old self.new }
        ensures held { self.new.held ≡ self.old.held }
        ensures passed { OnOk result (self.new.passed ≡ Some end) }
        ensures end { OnOk result (self.new.end ≡ end) }
        ensures rows { OnOk result (WindowOf self.old.policy.size end self.old.held self.new.ready.items) }
        ensures same { OnErr result (self.new ≡ self.old) }
    {
        self.ready = self.held.window(end)?;
        self.end = end;
        self.passed = Some(Mark { t: end });
        Ok(())
    }

    // Puts the rows that are ready, and says whether all were put.
    fn put_ready(&mut self, out: &mut Outbox) -> bool
        requires { IsWithin most_row_end self.old.end }
        ensures rest { SameRest self.old self.new }
        ensures passed { self.new.passed ≡ self.old.passed }
        ensures end { self.new.end ≡ self.old.end }
        ensures held { self.new.held ≡ self.old.held }
        ensures room { out.new.room ≡ out.old.room }
        ensures put { PutsReady self.old.vertex self.old.end self.old.ready.items out.old.items self.new.ready.items out.new.items }
        ensures all { result ≡ true → self.new.ready.items ≡ [] }
        ensures full { result ≡ false → length out.new.items ≡ out.new.room }
    {
        while let Some((key, acc)) = self.ready.front() {
            let row = Row {
                vertex: self.vertex,
                end: self.end,
                key: *key,
                acc: *acc,
            };
            if let Err(_) = out.offer(Item::Row(row)) {
                return false;
            }
            let _ = self.ready.pop_front();
        }
        true
    }

    // Puts the rows of the windows that end at most at `t`, and says whether all were put.
    fn give_until(&mut self, t: i64, out: &mut Outbox) -> Result<bool, NoMemory>
        requires range { IsWithin most_row_end self.old.end }
        requires kept { IsKept self.old.held }
        ensures rest { SameRest self.old self.new }
        ensures gave { Gave (combine_of self.old) out.old.items (combine_of self.new) out.new.items }
        ensures bound { Passes self.old.passed (Some t) → Passes self.new.passed (Some t) }
        ensures room { out.new.room ≡ out.old.room }
        ensures all { result ≡ Ok true → self.new.ready.items ≡ [] }
        ensures clear { result ≡ Ok true → Clear self.new.policy.size self.new.policy.slide self.new.passed self.new.held t }
        ensures above { result ≡ Ok true → OpenAbove self.new.policy.size self.new.policy.slide t self.new.held }
        ensures wants { OnErr result (Clear self.old.policy.size self.old.policy.slide self.old.passed self.old.held t → ⊥) }
        ensures full { result ≡ Ok false → length out.new.items ≡ out.new.room }
    {
        while self.put_ready(out) {
            let Some(end) = self.next_end() else {
                return Ok(true);
            };
            if t < end {
                return Ok(true);
            }
            self.take_up(end)?;
        }
        Ok(false)
    }

    // Puts the rows of all windows, and says whether all were put.
    fn give_all(&mut self, out: &mut Outbox) -> Result<bool, NoMemory>
        requires range { IsWithin most_row_end self.old.end }
        requires kept { IsKept self.old.held }
        ensures rest { SameRest self.old self.new }
        ensures gave { Gave (combine_of self.old) out.old.items (combine_of self.new) out.new.items }
        ensures room { out.new.room ≡ out.old.room }
        ensures all { result ≡ Ok true → self.new.ready.items ≡ [] }
        ensures none { result ≡ Ok true → self.new.held ≡ [] }
        ensures wants { OnErr result (self.old.held ≡ [] → ⊥) }
        ensures full { result ≡ Ok false → length out.new.items ≡ out.new.room }
    {
        while self.put_ready(out) {
            let Some(end) = self.next_end() else {
                return Ok(true);
            };
            self.take_up(end)?;
        }
        Ok(false)
    }
}

impl Processor for CombineP {
    ghost stands = { Stands };

    ghost amid = { Amid };

    ghost takes = { λ p port queue. Unit {0} };

    ghost same = { Alike };

    ghost frugal = { false };

    ghost sound_if = { λ p behind taken. Sound behind (items_of taken) };

    ghost closed_if = { λ p taken. ClosedItems (items_of taken) };

    ghost bag = { λ p taken given. CombineBag p.vertex p.policy.size p.policy.slide p.begun p.last p.start.items (held_frames p) (due_after taken) (StageInput taken) taken given };

    ghost bag_amid = { λ p taken entry given. CombineBagAmid p.vertex p.policy.size p.policy.slide p.begun p.last p.start.items (held_frames p) taken entry given };

    ghost marks = { λ p taken given. marks_of given ≡ marks_of (items_of taken) };

    ghost marks_amid = { λ p taken entry given. marks_of given ≡ marks_of (items_of taken) };

    fn accept(
        &mut self,
        _port: Port,
        _queue: u32,
        item: &Item,
        out: &mut Outbox,
    ) -> Result<bool, NoMemory>
        requires { CombineMayCall self.old (Given _port _queue item.now) }
        ensures call { CombineCall self.old (Given _port _queue item.now) out.old result self.new out.new }
        ensures memory { OnErr result (IsFrame item.now) }
    {
        if let Item::Frame(frame) = item {
            // What ends too low for any window that is still to come is not kept.
            if self.has_window(frame.end) {
                self.held.keep(frame.end, &frame.key, &frame.acc)?;
            }
            return Ok(true);
        }
        match out.offer(*item) {
            Ok(()) => Ok(true),
            Err(_) => Ok(false),
        }
    }

    fn mark(&mut self, mark: Mark, out: &mut Outbox) -> Result<bool, NoMemory>
        requires { CombineMayCall self.old (MarkTold mark) }
        ensures call { CombineCall self.old (MarkTold mark) out.old result self.new out.new }
        ensures memory { OnErr result (Clear self.old.policy.size self.old.policy.slide self.old.passed self.old.held mark → ⊥) }
    {
        let until = later(self.begun, mark);
        if !self.give_until(until.t, out)? {
            return Ok(false);
        }
        match out.offer(Item::Mark(mark)) {
            Ok(()) => {
                self.last = Some(mark);
                self.passed = Some(until);
                Ok(true)
            }
            Err(_) => Ok(false),
        }
    }

    fn close_queue(&mut self, _port: Port, _queue: u32, _out: &mut Outbox) -> bool
        ensures call { CombineCall self.old (QueueClosed _port _queue) _out.old (Ok result) self.new _out.new }
        ensures ends { result ≡ true }
    {
        true
    }

    fn finish(&mut self, out: &mut Outbox) -> Result<bool, NoMemory>
        requires { CombineMayCall self.old Finish }
        ensures call { CombineCall self.old Finish out.old result self.new out.new }
        ensures memory { OnErr result (self.old.held ≡ [] → ⊥) }
    {
        self.give_all(out)
    }

    ghost use Rattle.jet_window.specs.CombineLaws.{combine_begins, combine_sound, combine_sound_amid, combine_closed, combine_closed_amid, combine_open, combine_open_amid, combine_bag, combine_bag_amid, combine_marks, combine_marks_amid};

    ghost same_refl = { λ p. (refl, refl, refl, refl) };

    ghost same_trans = { λ p q r h k. (k.0 ∙ h.0, k.1 ∙ h.1, k.2 ∙ h.2, k.3 ∙ h.3) };

    ghost takes_stays = { λ p q port queue h k. tt };

    ghost begins = { λ p taken entry given h. combine_begins (start_of p) p.last (combine_of p) taken entry given h };

    ghost sound_law = { λ behind p taken given h k. combine_sound behind (start_of p) p.last (combine_of p) taken given h k };

    ghost sound_law_amid = { λ behind p taken entry given h k. combine_sound_amid behind (start_of p) p.last (combine_of p) taken entry given h k };

    ghost closed_law = { λ p taken given h k. combine_closed (start_of p) p.last (combine_of p) taken given h k };

    ghost closed_law_amid = { λ p taken entry given h k. combine_closed_amid (start_of p) p.last (combine_of p) taken entry given h k };

    ghost open_law = { λ p taken given h k. combine_open (start_of p) p.last (combine_of p) taken given h };

    ghost open_law_amid = { λ p taken entry given h k. combine_open_amid (start_of p) p.last (combine_of p) taken entry given h };

    ghost bag_law = { λ p taken given h. combine_bag (start_of p) p.last (combine_of p) taken given h };

    ghost bag_law_amid = { λ p taken entry given h. combine_bag_amid (start_of p) p.last (combine_of p) taken entry given h };

    ghost marks_law = { λ p taken given h. combine_marks (start_of p) p.last (combine_of p) taken given h };

    ghost marks_law_amid = { λ p taken entry given h. combine_marks_amid (start_of p) p.last (combine_of p) taken entry given h };
}
