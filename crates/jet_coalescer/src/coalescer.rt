// The coalescer. It keeps of each queue the greatest mark, and the least of the marks of the queues that count. Where that
// is above the watermark, the watermark rises to it. Where it falls, since a queue woke up or its first mark is still to
// come, the watermark stays.
ghost use Rattle.std.specs.Prelude.{◌≡◌, ◌<◌, ℕ, ℤ, Some, None, true, false, List, [], ◌∷◌, ◌++◌, length, replicate, cond, IfOk};
ghost use Rattle.jet_coalescer.specs.declared.change.Change.TheVariants as change;
ghost use Rattle.jet_coalescer.specs.Low.{History, unheard, HasHeard, with_mark, with_done, low, all_done, has_risen, risen, raised, change_of};
ghost use Rattle.jet_coalescer.specs.Notes.{Note, Marked, Ended, Idled, Woken, low_after, HasNotes};
ghost use Rattle.jet_coalescer.specs.Queues.{unknown, greater, marked, ended, idled, woken, is_done_at, present, none_left, PresentIsLeast, RisesToLeast, HoldsNoneBack};

use crate::change::Change;
use crate::queue::Queue;
use crate::queues::Queues;
use jet_items::{Mark, NoMemory};
use std::alloc::Global;
use std::marker::Model;

/// The watermark of several queues.
#[derive(Drop)]
pub struct Coalescer {
    queues: Queues,
    low: Option<Mark>,
    // How many queues are not done.
    left: usize,
}

impl Model for Coalescer {
    ghost use Rattle.std.specs.Prelude.{◌≡◌};
    ghost use Rattle.jet_coalescer.specs.Queues.{greater, present};
    ghost use Rattle.jet_coalescer.specs.inner.Counts.{left_count};
    ghost use Rattle.jet_coalescer.specs.View.{View};

    ghost Value = { View };

    ghost view = { λ c. record { queues = c.queues; low = c.low } };

    ghost invariant = { λ c. (c.low ≡ greater c.low (present c.queues)) × (c.left ≡ left_count c.queues) };
}

impl Coalescer {
    /// A coalescer of `n` queues, none of them idle.
    pub fn new(alloc: Global, n: u32) -> Result<Coalescer, NoMemory>
        ensures told { IfOk result (λ c. HasNotes c []) }
        ensures heard { IfOk result (λ c. HasHeard c (replicate n unheard)) }
        ensures value { IfOk result (λ c. c ≡ record { queues = replicate n unknown; low = None }) }
    {
        let queues = Queues::new(alloc, n)?;
        Ok(Coalescer {
            queues,
            low: None,
            left: n as usize,
        })
    }

    /// Takes one more mark of a queue, which wakes the queue, and answers the new watermark where there was none or it
    /// rose.
    pub fn observe(&mut self, queue: u32, mark: Mark) -> Option<Mark>
        requires exists { queue < length self.old.queues }
        requires open { is_done_at self.old queue ≡ false }
        ensures told { (told : List Note) → HasNotes self.old told → HasNotes self.new (told ++ Marked queue mark ∷ []) }
        ensures heard { (told : List History) → HasHeard self.old told → HasHeard self.new (with_mark told queue mark) }
        ensures risen { (told : List History) → HasHeard self.old told
            → result ≡ risen (low told) (low (with_mark told queue mark)) }
        ensures value { self.new.queues ≡ marked self.old.queues queue mark }
        ensures low { self.new.low ≡ greater self.old.low (present self.new.queues) }
        ensures answer { result ≡ risen self.old.low self.new.low }
        ensures least { RisesToLeast self.old.low self.new }
        ensures reaches { HoldsNoneBack self.new }
    {
        let heard = self.queues.get(queue).heard(mark);
        self.queues.set(queue, heard);
        raise(self.queues.present(), &mut self.low)
    }

    /// Takes it that a queue is idle, so that the watermark waits for it no more, and answers the new watermark where
    /// there was none or it rose.
    pub fn idle(&mut self, queue: u32) -> Option<Mark>
        requires exists { queue < length self.old.queues }
        requires open { is_done_at self.old queue ≡ false }
        ensures told { (told : List Note) → HasNotes self.old told → HasNotes self.new (told ++ Idled queue ∷ []) }
        ensures value { self.new.queues ≡ idled self.old.queues queue }
        ensures low { self.new.low ≡ greater self.old.low (present self.new.queues) }
        ensures answer { result ≡ risen self.old.low self.new.low }
        ensures least { RisesToLeast self.old.low self.new }
        ensures reaches { HoldsNoneBack self.new }
    {
        let idle = Queue {
            idle: true,
            ..self.queues.get(queue)
        };
        self.queues.set(queue, idle);
        raise(self.queues.present(), &mut self.low)
    }

    /// Takes it that a queue is idle no more, and answers the new watermark where there was none or it rose.
    pub fn wake(&mut self, queue: u32) -> Option<Mark>
        requires exists { queue < length self.old.queues }
        requires open { is_done_at self.old queue ≡ false }
        ensures told { (told : List Note) → HasNotes self.old told → HasNotes self.new (told ++ Woken queue ∷ []) }
        ensures value { self.new.queues ≡ woken self.old.queues queue }
        ensures low { self.new.low ≡ greater self.old.low (present self.new.queues) }
        ensures answer { result ≡ risen self.old.low self.new.low }
        ensures least { RisesToLeast self.old.low self.new }
        ensures reaches { HoldsNoneBack self.new }
    {
        let awake = Queue {
            idle: false,
            ..self.queues.get(queue)
        };
        self.queues.set(queue, awake);
        raise(self.queues.present(), &mut self.low)
    }

    /// Takes the Done of a queue: from then on the watermark does not wait for it. Answers whether no queue is left,
    /// and else the new watermark where there was none or it rose.
    pub fn done(&mut self, queue: u32) -> Change
        requires exists { queue < length self.old.queues }
        requires open { is_done_at self.old queue ≡ false }
        ensures told { (told : List Note) → HasNotes self.old told → HasNotes self.new (told ++ Ended queue ∷ []) }
        ensures heard { (told : List History) → HasHeard self.old told → HasHeard self.new (with_done told queue) }
        ensures change { (told : List History) → HasHeard self.old told
            → result ≡ change_of (all_done (with_done told queue)) (low told) (low (with_done told queue)) }
        ensures value { self.new.queues ≡ ended self.old.queues queue }
        ensures low { self.new.low ≡ greater self.old.low (present self.new.queues) }
        ensures answer { result ≡ change_of (none_left self.new.queues) self.old.low self.new.low }
        ensures least { RisesToLeast self.old.low self.new }
        ensures reaches { HoldsNoneBack self.new }
    {
        let done = Queue {
            done: true,
            ..self.queues.get(queue)
        };
        self.queues.set(queue, done);
        self.left -= 1;
        let rose = raise(self.queues.present(), &mut self.low);
        change(self.left == 0, rose)
    }

    /// The watermark: the greatest that the least of the greatest marks of the queues that are neither done nor idle
    /// has ever been. None where there never was such a queue, or one of them always was without a mark.
    pub fn low(&self) -> Option<Mark>
        ensures told { (told : List Note) → HasNotes self.now told → result ≡ low_after (length self.now.queues) told }
        ensures heard { (told : List History) → HasHeard self.now told → all_done told ≡ false → result ≡ low told }
        ensures value { result ≡ self.now.low }
        ensures bound { PresentIsLeast self.now.queues }
        ensures reaches { HoldsNoneBack self.now }
    {
        self.low
    }
}

// Makes the watermark the greater of it and this mark, if there is one, and answers it where there was none or it rose.
fn raise(least: Option<Mark>, low: &mut Option<Mark>) -> Option<Mark>
    ensures low { low.new ≡ greater low.old least }
    ensures answer { result ≡ risen low.old low.new }
{
    let least = least?;
    if !is_above(least, *low) {
        return None;
    }
    *low = Some(least);
    Some(least)
}

// Whether a watermark that is `low` rises to this mark.
fn is_above(mark: Mark, low: Option<Mark>) -> bool
    ensures { result ≡ has_risen low mark }
{
    match low {
        Some(low) => low.t < mark.t,
        None => true,
    }
}

// What the end of a queue changed.
fn change(all_done: bool, rose: Option<Mark>) -> Change
    ensures { result ≡ cond all_done change.AllDone (raised rose) }
{
    match rose {
        _ if all_done => Change::AllDone,
        Some(mark) => Change::Raised(mark),
        None => Change::Unchanged,
    }
}
