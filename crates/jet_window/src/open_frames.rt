// The frames that are open, with what is known of each key.
ghost use Rattle.std.specs.Prelude.{◌≡◌, ◌≤ℤ◌, ◌<ℤ◌, Some, [], ◌∷◌, map, slice_get, OnOk, OnErr, IfOk, IfSome, IfNone};
ghost use Rattle.std.specs.Option.{option_map};
ghost use Rattle.jet_items.specs.Ranges.{IsWithin, most_frame_end};
ghost use Rattle.jet_window.specs.inner.FrameMoves.{StopsAbove};
ghost use Rattle.jet_window.specs.inner.Reached.{Tracks, EnteredUntil, bound_behind};
ghost use Rattle.jet_window.specs.FrameTables.{frame_of, joined_in};

use crate::held_frames::enter;
use crate::slide::Slide;
use jet_items::{Acc, Frame, Key, NoMemory};
use std::alloc::Global;
use std::collections::BTreeMap;
use std::collections::btree_map::Entry;
use std::marker::Model;
use std::ops::Bound;

// Accumulators by the end of their frame, then key.
#[derive(Drop)]
pub(crate) struct OpenFrames {
    alloc: Global,
    accs: BTreeMap<(i64, Key), Acc>,
}

impl Model for OpenFrames {
    ghost use Rattle.jet_window.specs.FrameTables.{Table, IsKept};

    ghost Value = { Table };

    ghost view = { λ o. o.accs.entries };

    ghost invariant = { λ o. IsKept o.accs.entries };
}

impl OpenFrames {
    pub(crate) fn new(alloc: Global) -> OpenFrames
        ensures { result ≡ [] }
    {
        OpenFrames {
            alloc,
            accs: BTreeMap::new(alloc),
        }
    }

    // Joins an accumulator into that of an end and a key. Where there is one, it is looked for once.
    pub(crate) fn keep(&mut self, end: i64, key: &Key, acc: &Acc) -> Result<(), NoMemory>
        requires { IsWithin most_frame_end end }
        ensures ok { OnOk result (self.new ≡ joined_in self.old (end, key.now) acc.now) }
        ensures err { OnErr result (self.new ≡ self.old) }
    {
        let place = (end, *key);
        match self.accs.get_mut(&place) {
            Some(held) => {
                *held = held.join(acc);
                Ok(())
            }
            None => {
                self.accs.insert(place, *acc)?;
                Ok(())
            }
        }
    }

    // The same, where most places are new: each is looked for once.
    pub(crate) fn put(&mut self, end: i64, key: &Key, acc: &Acc) -> Result<(), NoMemory>
        requires { IsWithin most_frame_end end }
        ensures ok { OnOk result (self.new ≡ joined_in self.old (end, key.now) acc.now) }
        ensures err { OnErr result (self.new ≡ self.old) }
    {
        add(&mut self.accs, (end, *key), acc)?;
        Ok(())
    }

    // The first frame and key, as a frame of this vertex, where it ends at most at `t`.
    pub(crate) fn first_until(&self, vertex: u8, t: i64) -> Option<Frame>
        ensures first { IfSome result (λ frame. option_map (frame_of vertex) (slice_get self.now 0) ≡ Some frame) }
        ensures due { IfSome result (λ frame. frame.end ≤ℤ t) }
        ensures none { IfNone result (StopsAbove t self.now) }
    {
        let (place, acc) = self.accs.first_key_value()?;
        if t < place.0 {
            return None;
        }
        let frame = Frame {
            vertex,
            end: place.0,
            key: place.1,
            acc: *acc,
        };
        Some(frame)
    }

    // The end of the first frame.
    pub(crate) fn first_end(&self) -> Option<i64>
        ensures { result ≡ option_map (λ f. f.0.0) (slice_get self.now 0) }
    {
        let (place, _) = self.accs.first_key_value()?;
        Some(place.0)
    }

    // Lets the frames behind a place that end at most at `end` enter the slides of their keys, and answers the place of the
    // last one that has entered.
    pub(crate) fn enter_until(
        &self,
        alloc: Global,
        reached: Option<(i64, Key)>,
        end: i64,
        slides: &mut BTreeMap<Key, Slide>,
    ) -> Result<Option<(i64, Key)>, NoMemory>
        requires entered { Tracks reached self.now slides.old.entries }
        requires until { IfSome reached (λ r. r.0 ≤ℤ end) }
        ensures { IfOk result (λ last. EnteredUntil end last self.now slides.new.entries) }
    {
        let mut last = reached;
        for (place, acc) in self.accs.range((behind(&reached), Bound::Unbounded)) {
            if end < place.0 {
                return Ok(last);
            }
            enter(alloc, slides, place, acc)?;
            last = Some(*place);
        }
        Ok(last)
    }

    // Takes the first frame and key out.
    pub(crate) fn take_first(&mut self) -> Option<((i64, Key), Acc)>
        ensures some { IfSome result (λ f. self.old ≡ f ∷ self.new) }
        ensures none { IfNone result (self.old ≡ []) }
        ensures kept { IfNone result (self.new ≡ self.old) }
    {
        self.accs.pop_first()
    }

    // All of them, as frames of this vertex.
    pub(crate) fn list(&self, vertex: u8) -> Result<Vec<Frame>, NoMemory>
        ensures { IfOk result (λ frames. frames.items ≡ map (frame_of vertex) self.now) }
    {
        let mut frames = Vec::new(self.alloc);
        for (place, acc) in self.accs.iter() {
            let frame = Frame {
                vertex,
                end: place.0,
                key: place.1,
                acc: *acc,
            };
            frames.push(frame)?;
        }
        Ok(frames)
    }
}

// The bound of what stands behind a place, or of all where there is none.
fn behind(reached: &Option<(i64, Key)>) -> Bound<(i64, Key)>
    ensures { result ≡ bound_behind reached.now }
{
    match reached {
        None => Bound::Unbounded,
        Some(place) => Bound::Excluded(*place),
    }
}

// Joins an accumulator into that of a place, in place where there is one.
fn add(accs: &mut BTreeMap<(i64, Key), Acc>, place: (i64, Key), acc: &Acc) -> Result<(), NoMemory>
    ensures ok { OnOk result (accs.new.entries ≡ joined_in accs.old.entries place acc.now) }
    ensures err { OnErr result (accs.new.entries ≡ accs.old.entries) }
{
    match accs.entry(place)? {
        Entry::Occupied(entry) => {
            let held = entry.into_mut();
            *held = held.join(acc);
        }
        Entry::Vacant(entry) => {
            let _ = entry.insert(*acc);
        }
    }
    Ok(())
}
