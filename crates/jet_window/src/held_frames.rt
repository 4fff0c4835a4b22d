// The frames that a combine vertex holds, and for each key those of them that the last window had reached.
ghost use Rattle.std.specs.Prelude.{◌≡◌, ℕ, ℤ, ◌<ℤ◌, ◌≤ℤ◌, ◌-ℤ◌, false, List, Option, Some, None, [], ◌∷◌, ◌++◌, cond, map, drop, slice_get, bytes_eq, OnOk, OnErr, IfOk, IfSome, IfNone};
ghost use Rattle.std.specs.Option.{option_map};
ghost use Rattle.jet_items.specs.Order.{Each};
ghost use Rattle.jet_items.specs.Ranges.{IsWithin, most_frame_end};
ghost use Rattle.jet_window.specs.FrameTables.{Table, IsKept, frame_of, joined_in};
ghost use Rattle.jet_window.specs.inner.Reached.{Tracks, Gains, Loses, JoinedByKey, is_up_to, pairs_at};
ghost use Rattle.jet_window.specs.inner.WindowOf.{WindowOf};

use crate::open_frames::OpenFrames;
use crate::slide::Slide;
use jet_items::{Acc, Frame, Key, NoMemory};
use std::alloc::Global;
use std::collections::{BTreeMap, VecDeque};
use std::marker::Model;

// Frames by end, then key, and a slide for each key of a window: a frame enters it once, when the first window that it lies
// in is given, and leaves it once, when it is forgotten. So a window costs what enters, what leaves, and its rows.
//
// The slides are only what saves work. Contracts see the frames; where a frame comes too late for its slide, or memory is
// wanted on the way, the slides are given up, and the next window fills them anew.
#[derive(Drop)]
pub(crate) struct HeldFrames {
    alloc: Global,
    frames: OpenFrames,
    // The place of the last frame that has entered a slide.
    reached: Option<(i64, Key)>,
    slides: BTreeMap<Key, Slide>,
}

impl Model for HeldFrames {
    ghost use Rattle.jet_window.specs.FrameTables.{Table, IsKept};
    ghost use Rattle.jet_window.specs.inner.Reached.{Tracks};

    ghost Value = { Table };

    ghost view = { λ h. h.frames };

    ghost invariant = { λ h. IsKept h.frames × Tracks h.reached h.frames h.slides.entries };
}

// Whether there is a place, and this one stands at it or before it.
fn is_up_to(place: &(i64, Key), reached: &Option<(i64, Key)>) -> bool
    ensures { result ≡ is_up_to reached.now place.now }
{
    match reached {
        None => false,
        Some(reached) => place.cmp(reached).is_le(),
    }
}

impl HeldFrames {
    pub(crate) fn new(alloc: Global) -> HeldFrames
        ensures { result ≡ [] }
    {
        HeldFrames {
            alloc,
            frames: OpenFrames::new(alloc),
            reached: None,
            slides: BTreeMap::new(alloc),
        }
    }

    // Joins an accumulator into that of an end and a key.
    pub(crate) fn keep(&mut self, end: i64, key: &Key, acc: &Acc) -> Result<(), NoMemory>
        requires { IsWithin most_frame_end end }
        ensures ok { OnOk result (self.new ≡ joined_in self.old (end, key.now) acc.now) }
        ensures err { OnErr result (self.new ≡ self.old) }
    {
        self.frames.put(end, key, acc)?;
        if is_up_to(&(end, *key), &self.reached) {
            self.reached = None;
            self.slides = BTreeMap::new(self.alloc);
        }
        Ok(())
    }

    // The end of the first frame.
    pub(crate) fn first_end(&self) -> Option<i64>
        ensures { result ≡ option_map (λ f. f.0.0) (slice_get self.now 0) }
    {
        self.frames.first_end()
    }

    // Forgets the first frame.
    pub(crate) fn forget_first(&mut self)
        ensures { self.new ≡ drop 1 self.old }
    {
        if let Some((place, _)) = self.frames.take_first() {
            if is_up_to(&place, &self.reached) {
                leave(&mut self.slides, &place.1);
            }
        }
    }

    // The rows of the window that ends at `end` and in whose range all frames up to there lie, by key.
    pub(crate) fn window(&mut self, end: i64) -> Result<VecDeque<(Key, Acc)>, NoMemory>
        ensures same { self.new ≡ self.old }
        ensures rows { IfOk result (λ rows. (size : ℤ) → Each (λ f. (end -ℤ size) <ℤ f.0.0) self.old → WindowOf size end self.old rows.items) }
    {
        let reached = before(self.reached, end, &mut self.slides);
        match self
            .frames
            .enter_until(self.alloc, reached, end, &mut self.slides)
        {
            Ok(reached) => {
                self.reached = reached;
                rows_of(self.alloc, &self.slides)
            }
            Err(full) => {
                self.reached = None;
                self.slides = BTreeMap::new(self.alloc);
                Err(full)
            }
        }
    }

    // All frames, as frames of this vertex.
    pub(crate) fn list(&self, vertex: u8) -> Result<Vec<Frame>, NoMemory>
        ensures { IfOk result (λ frames. frames.items ≡ map (frame_of vertex) self.now) }
    {
        self.frames.list(vertex)
    }
}

// Whether there is a place, and it ends above this.
fn ends_above(reached: &Option<(i64, Key)>, end: i64) -> bool
    ensures { result ≡ false → IfSome reached.now (λ r. r.0 ≤ℤ end) }
{
    match reached {
        None => false,
        Some(place) => end < place.0,
    }
}

// The place up to which frames have entered; where it ends above `end` the slides are given up, and it is none.
fn before(
    reached: Option<(i64, Key)>,
    end: i64,
    slides: &mut BTreeMap<Key, Slide>,
) -> Option<(i64, Key)>
    ensures tracks { (held : Table) → Tracks reached held slides.old.entries → Tracks result held slides.new.entries }
    ensures until { IfSome result (λ r. r.0 ≤ℤ end) }
{
    if ends_above(&reached, end) {
        slides.clear();
        return None;
    }
    reached
}

// Lets a frame enter the slide of its key.
pub(crate) fn enter(
    alloc: Global,
    slides: &mut BTreeMap<Key, Slide>,
    place: &(i64, Key),
    acc: &Acc,
) -> Result<(), NoMemory>
    requires { Each (λ p. p.0 <ℤ place.now.0) (pairs_at slides.old.entries place.now.1) }
    ensures { OnOk result (Gains slides.old.entries slides.new.entries (place.now, acc.now)) }
{
    if let Some(slide) = slides.get_mut(&place.1) {
        slide.enter(place.0, *acc)?;
        return Ok(());
    }
    let mut slide = Slide::new(alloc);
    slide.enter(place.0, *acc)?;
    slides.insert(place.1, slide)?;
    Ok(())
}

// Lets the first frame of a key leave its slide, and the slide go where it was the only one.
fn leave(slides: &mut BTreeMap<Key, Slide>, key: &Key)
    ensures { Loses slides.old.entries slides.new.entries key.now }
{
    if let Some(slide) = slides.get_mut(key) {
        slide.leave_first();
        let left = slide.is_empty();
        if left {
            let _ = slides.remove(key);
        }
    }
}

// What the slides join to, by key.
fn rows_of(alloc: Global, slides: &BTreeMap<Key, Slide>) -> Result<VecDeque<(Key, Acc)>, NoMemory>
    ensures { IfOk result (λ rows. JoinedByKey slides.now.entries rows.items) }
{
    let mut rows = VecDeque::new(alloc);
    for (key, slide) in slides.iter() {
        if let Some(acc) = slide.total() {
            rows.push_back((*key, acc))?;
        }
    }
    Ok(rows)
}
