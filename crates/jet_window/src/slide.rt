// The frames of one key in a window that slides on: frames enter at its upper end and leave at its lower one. Count and
// sum are kept by adding and deducting. The least and the greatest value are not known of what is left when a frame has
// left, so the first frames know theirs from themselves on, and the others have theirs in common; once all that know
// theirs have left, those that are held get to know theirs, from the last to the first.
ghost use Rattle.std.specs.Prelude.{◌≡◌, ◌<ℤ◌, false, [], ◌∷◌, ◌++◌, drop, true, OnOk, OnErr};
ghost use Rattle.jet_items.specs.Order.{Each};
ghost use Rattle.jet_window.specs.Slides.{EndsRise, first_end, joined_pairs, pairs_above};
ghost use Rattle.jet_window.specs.inner.Extremes.{pairs_in, Know};

use jet_items::{Acc, NoMemory};
use std::alloc::Global;
use std::collections::VecDeque;
use std::marker::Model;

// A pair, and the least and the greatest value that it knows.
#[derive(Drop)]
struct Entry {
    end: i64,
    acc: Acc,
    least: i64,
    greatest: i64,
}

/// Pairs of an end and what is known up to it, by rising end, and what they join to.
///
/// Contracts see the list of the pairs. An enter and a total cost the same however many are held, and so does each pair
/// that leaves, on average: where none of those that are left knows its extremes, all of them are looked at once.
#[derive(Drop)]
pub struct Slide {
    // The pairs, the lowest end first.
    entries: VecDeque<Entry>,
    // So many first ones know the extremes from themselves on up to the last of these.
    known: usize,
    // The extremes of the others.
    least: i64,
    greatest: i64,
    // The counts and the sums of all, modulo 2^64 and 2^128.
    count: u64,
    sum: i128,
}

impl Model for Slide {
    ghost use Rattle.std.specs.Prelude.{List};
    ghost use Rattle.jet_window.specs.Slides.{Pair, Runs};
    ghost use Rattle.jet_window.specs.inner.Extremes.{pairs_in, KnowsExtremes};

    ghost Value = { List Pair };

    ghost view = { λ s. pairs_in s.entries.items };

    ghost invariant = { λ s. Runs (pairs_in s.entries.items) s.count s.sum × KnowsExtremes s.entries.items s.known s.least s.greatest };
}

impl Slide {
    /// No pairs.
    pub fn new(alloc: Global) -> Slide
        ensures { result ≡ [] }
    {
        Slide {
            entries: VecDeque::new(alloc),
            known: 0,
            least: i64::MAX,
            greatest: i64::MIN,
            count: 0,
            sum: 0,
        }
    }

    /// Appends a pair, whose end is above all that are held.
    pub fn enter(&mut self, end: i64, acc: Acc) -> Result<(), NoMemory>
        requires { Each (λ p. p.0 <ℤ end) self.old }
        ensures ok { OnOk result (self.new ≡ self.old ++ (end, acc) ∷ []) }
        ensures err { OnErr result (self.new ≡ self.old) }
    {
        acc.fits();
        self.entries.push_back(Entry {
            end,
            acc,
            least: acc.min,
            greatest: acc.max,
        })?;
        self.count = self.count.wrapping_add(acc.count);
        self.sum = self.sum.wrapping_add(acc.sum);
        if self.known == 0 {
            self.known = 1;
            return Ok(());
        }
        self.least = self.least.min(acc.min);
        self.greatest = self.greatest.max(acc.max);
        Ok(())
    }

    /// Removes the pairs that end at `end` or below.
    pub fn leave(&mut self, end: i64)
        ensures { self.new ≡ pairs_above end self.old }
    {
        while let Some(first) = self.first_end() {
            if end < first {
                return;
            }
            self.leave_first();
        }
    }

    // The end of the first pair, which is the lowest.
    fn first_end(&self) -> Option<i64>
        ensures first { result ≡ first_end self.now }
        ensures rising { EndsRise self.now }
    {
        match self.entries.front() {
            None => None,
            Some(entry) => Some(entry.end),
        }
    }

    // Whether no pair is held.
    pub(crate) fn is_empty(&self) -> bool
        ensures yes { result ≡ true → self.now ≡ [] }
        ensures no { result ≡ false → self.now ≡ [] → ⊥ }
    {
        self.entries.is_empty()
    }

    // Removes the first pair, and deducts it.
    pub(crate) fn leave_first(&mut self)
        ensures { self.new ≡ drop 1 self.old }
    {
        let Some(first) = self.entries.pop_front() else {
            return;
        };
        let running = Acc {
            count: self.count,
            sum: self.sum,
            min: first.acc.min,
            max: first.acc.max,
        };
        let (count, sum) = running.deduct(&first.acc);
        self.count = count;
        self.sum = sum;
        self.known -= 1;
        if self.known > 0 {
            return;
        }
        look_back(&mut self.entries);
        self.known = self.entries.len();
        self.least = i64::MAX;
        self.greatest = i64::MIN;
    }

    /// What all held pairs join to. None comes exactly where no pair is held.
    pub fn total(&self) -> Option<Acc>
        ensures { result ≡ joined_pairs self.now }
    {
        let first = self.entries.front()?;
        Some(Acc {
            count: self.count,
            sum: self.sum,
            min: first.least.min(self.least),
            max: first.greatest.max(self.greatest),
        })
    }
}

// Lets each entry know the extremes from itself on.
fn look_back(entries: &mut VecDeque<Entry>)
    ensures pairs { pairs_in entries.new.items ≡ pairs_in entries.old.items }
    ensures know { Know entries.new.items }
{
    let mut least = i64::MAX;
    let mut greatest = i64::MIN;
    let mut place = entries.len();
    while place > 0 {
        place -= 1;
        let entry = &mut entries[place];
        least = least.min(entry.acc.min);
        greatest = greatest.max(entry.acc.max);
        entry.least = least;
        entry.greatest = greatest;
    }
}
